//! The vectors that motion search found for the nodes of a coding tree block.

ghost use Rattle.std.specs.Prelude.{◌≡◌, ◌+◌, ◌≤◌, length};
ghost use Rattle.std.specs.Option.{option_copied};
ghost use Rattle.hv_tree_model.specs.Trees.{side};
ghost use Rattle.hv_tree_model.specs.Sites.{x0, y0};
ghost use Rattle.hv_recon.specs.DecodedNodes.{IsNodeOfBlock};
ghost use Rattle.hv_recon.specs.Leaves.{pictures_of};
ghost use Rattle.hv_mode_model.specs.ModeDecision.{has_list_0};
ghost use Rattle.hv_mode.specs.InterChoices.{names, found_at};

use crate::task::Task;
use hv_block::Frame;
use hv_near::{column_of, row_of};
use hv_plan::{Mv, Node};
use hv_tables::SliceKind;

/// Whether units of such a slice may be predicted from another picture.
fn has_list_0(kind: SliceKind) -> bool
    ensures { result ≡ has_list_0 kind }
{
    match kind {
        SliceKind::I => false,
        SliceKind::P => true,
    }
}

/// How many entries of list 0 have a picture.
fn picture_count(first: Option<&Frame>, second: Option<&Frame>) -> u8
    ensures { result ≡
        length (pictures_of (option_copied first.entry) (option_copied second.entry)) }
{
    match (first, second) {
        (Some(_), Some(_)) => 2,
        (Some(_), None) => 1,
        _ => 0,
    }
}

/// Whether a unit may name an entry of list 0: in a P slice of at most two, where there is a
/// picture.
fn may_name(task: &Task<'_>, entry: u8) -> bool
    ensures { result ≡ names task.now entry }
{
    let count = picture_count(task.first, task.second);
    has_list_0(task.kind) && task.references <= 2 && entry < task.references && entry < count
}

/// The vector that was found for a node that lies in the picture, from an entry of list 0 that a
/// unit may name; none where nothing was searched.
pub(crate) fn found(task: &Task<'_>, size: u8, address: u8, entry: u8) -> Option<Mv>
    requires node { IsNodeOfBlock size address }
    requires right { x0 task.now.place address + side size ≤ task.now.place.width }
    requires bottom { y0 task.now.place address + side size ≤ task.now.place.height }
    ensures { result ≡ found_at task.now size address entry }
{
    if !may_name(task, entry) {
        return None;
    }
    let Some(motion) = task.motion else {
        return None;
    };
    let node = Node {
        depth: 3 - size,
        x: column_of(address),
        y: row_of(address),
    };
    motion.vector(entry, task.place.index, node)
}
