//! The choice of a picture: its coding tree blocks, one after another in raster order (6.5.1).

ghost use Rattle.std.specs.Prelude.{◌≡◌, ◌*◌, ◌<◌, [], length};
ghost use Rattle.hv_block.specs.Samples.{AreWholeSamples};
ghost use Rattle.hv_tree_model.specs.Sites.{site, sites, blocks_over};
ghost use Rattle.hv_tree_model.specs.Plans.{IsPlan};
ghost use Rattle.hv_near.specs.Neighbours.{lists_of_plan};
ghost use Rattle.hv_recon_model.specs.Reconstruction.{nothing_decoded};
ghost use Rattle.hv_recon.specs.DecodedBlocks.{trees_of, moving_trees_of, AreOfBlocks};
ghost use Rattle.hv_mode_model.specs.ModeDecision.{best_trees, best_decoded, coded_trees};
ghost use Rattle.hv_mode.specs.Pictures.{task_of, plans_of, moving_plans_of, NameTheirUnits, DecidesBlock};
ghost use Rattle.hv_mode.specs.Vectors.{references_for};

use crate::ctb::{Room, decide_ctb};
use crate::picture_task::PictureTask;
use crate::task::Task;
use hv_block::{Block, neighbours_of};
use hv_plan::Place;

/// Decides the coding tree blocks of a picture in raster order: the plan of each, and its samples
/// before the in-loop filters, whatever `blocks` held. There is one for each place of the picture.
///
/// The coding quadtrees with vectors are those that are chosen in the picture, each behind all
/// earlier ones; as they lie in the plans they are what is coded of those, and all that is decoded
/// is what the blocks have. It takes no memory and always answers.
pub fn decide_blocks(task: &PictureTask<'_>, room: &mut Room, blocks: &mut Vec<Block>)
    requires { length blocks.old.items ≡
        blocks_over task.now.width * blocks_over task.now.height }
    ensures count { length blocks.new.items ≡ length blocks.old.items }
    ensures trees { trees_of task.now.width task.now.height blocks.new.items ≡
        coded_trees (task_of task.now) (sites task.now.width task.now.height) []
        (nothing_decoded (references_for task.now)) }
    ensures moving { moving_trees_of task.now.width task.now.height blocks.new.items ≡
        best_trees (task_of task.now) (sites task.now.width task.now.height) []
        (nothing_decoded (references_for task.now)) }
    ensures decoded { AreOfBlocks task.now.width task.now.height blocks.new.items
        (best_decoded (task_of task.now) (sites task.now.width task.now.height) []
        (nothing_decoded (references_for task.now))) }
    ensures names { NameTheirUnits task.now.width task.now.height
        (plans_of blocks.new.items) }
    ensures moving_names { NameTheirUnits task.now.width task.now.height
        (moving_plans_of blocks.new.items) }
{
    let count = task.width.div_ceil(64) * task.height.div_ceil(64);
    for index in 0..count {
        decide_block(task, room, index, blocks);
    }
}

/// Decides the block of this number, behind those before it.
fn decide_block(task: &PictureTask<'_>, room: &mut Room, index: u32, blocks: &mut Vec<Block>)
    requires { index < length blocks.old.items }
    ensures { DecidesBlock (task_of task.now) (references_for task.now)
        (site task.now.width task.now.height index) blocks.old.items blocks.new.items }
{
    let place = Place {
        width: task.width,
        height: task.height,
        index,
    };
    let near = neighbours_of(place, blocks);
    let one = Task {
        effort: task.effort,
        qp: task.qp,
        input: task.input,
        kind: task.kind,
        references: task.references,
        place,
        near: &near,
        distances: task.distances,
        motion: task.motion,
        first: task.first,
        second: task.second,
    };
    let block = &mut blocks[index as usize];
    decide_ctb(&one, room, block);
    is_whole(block);
}

/// A block has the lists of a plan, and all its samples.
fn is_whole(block: &Block)
    ensures plan { IsPlan (lists_of_plan block.now.plan) }
    ensures samples { AreWholeSamples block.now.samples }
{
    block.plan.units();
    block.plan.luma();
    block.plan.cb();
    block.plan.cr();
    block.samples.luma();
    block.samples.cb();
    block.samples.cr();
}
