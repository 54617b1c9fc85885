//! The choice of a node below a limit of cost. A split costs what its `split_cu_flag` and its four
//! parts cost, so it is given up behind the first part that leaves nothing of the limit.

ghost use Rattle.std.specs.Prelude.{◌+◌, ◌<◌, ◌≤◌, length};
ghost use Rattle.hv_tree_model.specs.Trees.{side};
ghost use Rattle.hv_tree_model.specs.Sites.{x0, y0};
ghost use Rattle.hv_recon.specs.DecodedNodes.{IsNodeOfBlock};
ghost use Rattle.hv_mode_model.specs.ModeDecision.{best};
ghost use Rattle.hv_mode.specs.Limits.{DecidesBelow};
ghost use Rattle.hv_mode.specs.Nodes.{given_of};
ghost use Rattle.hv_mode.specs.SplitNodes.{split_choice};

use crate::copy::copy_node;
use crate::task::Task;
use crate::tried::try_units;
use hv_block::Block;
use hv_kernel::cost;
use hv_near::squares;

/// Decides a node that lies in the picture, as one coding unit in each way that is tried, or split:
/// the first of least cost, if that is less than the limit. The answer is its cost then. The best
/// unit waits in a block of `room` while the split is tried.
#[cycle(splitting)]
fn decide_below(
    task: &Task<'_>,
    room: &mut [Block],
    size: u8,
    address: u8,
    limit: u64,
    out: &mut Block,
) -> Option<u64>
    requires tried { 0 < task.now.effort }
    requires node { IsNodeOfBlock size address }
    requires right { x0 task.now.place address + side size ≤ task.now.place.width }
    requires bottom { y0 task.now.place address + side size ≤ task.now.place.height }
    requires room { size < length room.old }
    ensures { DecidesBelow task.now size address (best (given_of task.now) size address) limit
        out.old out.new result }
{
    let (lower, mine) = room.split_at_mut(usize::from(size));
    let waiting = &mut mine[0];
    let least = try_units(task, size, address, out, waiting);
    if size > 0 {
        let split = try_split(task, lower, size, address, least.min(limit), out);
        if split.is_some() {
            return split;
        }
    }
    if limit <= least {
        return None;
    }
    copy_node(size, address, waiting, out);
    Some(least)
}

/// Decides a node that lies in the picture and is split: its four parts in z-scan order, each
/// behind the earlier ones. It is given up where its cost isn't less than the limit; else the
/// answer is its cost.
#[cycle(splitting)]
pub(crate) fn try_split(
    task: &Task<'_>,
    room: &mut [Block],
    size: u8,
    address: u8,
    limit: u64,
    out: &mut Block,
) -> Option<u64>
    requires tried { 0 < task.now.effort }
    requires node { IsNodeOfBlock size address }
    requires right { x0 task.now.place address + side size ≤ task.now.place.width }
    requires bottom { y0 task.now.place address + side size ≤ task.now.place.height }
    requires room { size ≤ length room.old }
    requires parts { 0 < size }
    ensures { DecidesBelow task.now size address (split_choice task.now size address) limit
        out.old out.new result }
{
    let below = size - 1;
    let step = squares(below);
    let flag = cost(task.qp, 0, 1);
    let left = limit.checked_sub(flag)?;
    let first = decide_below(task, room, below, address, left, out)?;
    let left = left - first;
    let second = decide_below(task, room, below, address + step, left, out)?;
    let left = left - second;
    let third = decide_below(task, room, below, address + 2 * step, left, out)?;
    let left = left - third;
    let fourth = decide_below(task, room, below, address + 3 * step, left, out)?;
    Some(flag + first + second + third + fourth)
}
