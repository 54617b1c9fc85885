//! The choice of a node: one coding unit, or the four nodes that it is split into. H.265 leaves it
//! free.

ghost use Rattle.std.specs.Prelude.{◌≡◌, ◌+◌, ◌-◌, ◌<◌, ◌≤◌, false, length};
ghost use Rattle.hv_tree_model.specs.Trees.{side};
ghost use Rattle.hv_tree_model.specs.Sites.{x0, y0, is_outside, must_split};
ghost use Rattle.hv_recon.specs.DecodedNodes.{IsNodeOfBlock};
ghost use Rattle.hv_mode_model.specs.ModeDecision.{best};
ghost use Rattle.hv_mode.specs.Nodes.{given_of, Decides};
ghost use Rattle.hv_mode.specs.SplitNodes.{split_choice, tried_choice};

use crate::below::try_split;
use crate::blank::decide_blank;
use crate::copy::copy_node;
use crate::task::Task;
use crate::tried::try_units;
use hv_block::Block;
use hv_near::{Site, crosses, is_outside, squares};
use hv_plan::Place;

/// Whether a node begins outside the picture.
fn begins_outside(place: Place, address: u8) -> bool
    requires width { 0 < place.width }
    requires address { address < 64 }
    ensures { result ≡ is_outside place address }
{
    is_outside(&Site::of(place), address)
}

/// Whether a node crosses the edge of the picture, and is split without being asked (7.4.9.4).
fn must_split(place: Place, size: u8, address: u8) -> bool
    requires width { 0 < place.width }
    requires node { IsNodeOfBlock size address }
    ensures { result ≡ must_split place size address }
{
    size > 0 && crosses(&Site::of(place), size, address)
}

/// Decides a node, whatever stands before it in `out`: it is chosen as the definition has it behind
/// what is decided before, and its samples are those that are decoded. What comes before it is
/// kept. `room` has a block for each size up to the node's; what is in it never matters. It takes
/// no memory.
#[cycle(deciding)]
pub(crate) fn decide_node(
    task: &Task<'_>,
    room: &mut [Block],
    size: u8,
    address: u8,
    out: &mut Block,
)
    requires node { IsNodeOfBlock size address }
    requires room { size < length room.old }
    ensures { Decides task.now size address (best (given_of task.now) size address)
        out.old out.new }
{
    if begins_outside(task.place, address) {
        return;
    }
    if must_split(task.place, size, address) {
        return decide_split(task, room, size, address, out);
    }
    decide_inside(task, room, size, address, out);
}

/// Decides a node that lies in the picture.
fn decide_inside(task: &Task<'_>, room: &mut [Block], size: u8, address: u8, out: &mut Block)
    requires node { IsNodeOfBlock size address }
    requires right { x0 task.now.place address + side size ≤ task.now.place.width }
    requires bottom { y0 task.now.place address + side size ≤ task.now.place.height }
    requires room { size < length room.old }
    ensures { Decides task.now size address (best (given_of task.now) size address)
        out.old out.new }
{
    if task.effort == 0 {
        return decide_blank(task, size, address, out);
    }
    decide_tried(task, room, size, address, out);
}

/// Decides a node that lies in the picture, as one coding unit in each way that is tried, or split:
/// the first of least cost. The best unit waits in a block of `room` while the split is tried.
fn decide_tried(task: &Task<'_>, room: &mut [Block], size: u8, address: u8, out: &mut Block)
    requires tried { 0 < task.now.effort }
    requires node { IsNodeOfBlock size address }
    requires right { x0 task.now.place address + side size ≤ task.now.place.width }
    requires bottom { y0 task.now.place address + side size ≤ task.now.place.height }
    requires room { size < length room.old }
    ensures { Decides task.now size address (tried_choice task.now size address)
        out.old out.new }
{
    let (lower, mine) = room.split_at_mut(usize::from(size));
    let waiting = &mut mine[0];
    let least = try_units(task, size, address, out, waiting);
    if size > 0 && try_split(task, lower, size, address, least, out).is_some() {
        return;
    }
    copy_node(size, address, waiting, out);
}

/// Decides a node that is split: its four parts in z-scan order, each behind the earlier ones.
#[cycle(deciding)]
fn decide_split(task: &Task<'_>, room: &mut [Block], size: u8, address: u8, out: &mut Block)
    requires node { IsNodeOfBlock size address }
    requires begins { is_outside task.now.place address ≡ false }
    requires room { size ≤ length room.old }
    requires parts { 0 < size }
    ensures { Decides task.now size address (split_choice task.now size address)
        out.old out.new }
{
    let below = size - 1;
    let step = squares(below);
    decide_node(task, room, below, address, out);
    decide_node(task, room, below, address + step, out);
    decide_node(task, room, below, address + 2 * step, out);
    decide_node(task, room, below, address + 3 * step, out);
}
