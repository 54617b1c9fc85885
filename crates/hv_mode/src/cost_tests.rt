//! The cost of a node, worked by hand.

ghost use Rattle.std.specs.Prelude.{◌≡◌, IfOk};
ghost use Rattle.hv_types.specs.Video.{IsPicture};

use crate::cost::cost_node;
use crate::errors::node_errors;
use crate::tasks_for_tests::intra_task;
use hv_block::{Block, Neighbours};
use hv_plan::{Node, Pred};
use hv_syntax::names_its_node;
use hv_types::{NoMemory, Picture, Plane};
use std::alloc::Global;
use std::test::Fail;

/// 8x8 samples of luma of 10, and 4x4 of 20 in Cb and of 30 in Cr.
fn picture(alloc: Global) -> Result<Picture, NoMemory>
    ensures { IfOk result (λ picture. IsPicture 8 8 picture) }
{
    let luma = Plane::new(alloc, 8, 8, 10)?;
    let cb = Plane::new(alloc, 4, 4, 20)?;
    let cr = Plane::new(alloc, 4, 4, 30)?;
    Ok(Picture { luma, cb, cr })
}

/// A block whose first unit is one of 8x8 of mode DC, and whose samples are 0.
fn block(alloc: Global) -> Result<Block, NoMemory> {
    let mut block = Block::new(alloc)?;
    block.plan.set_leaf(0, 0, Pred::Intra { mode: 1 });
    Ok(block)
}

/// The squared differences of the first node of 8x8, and its cost at quantiser 30, where its
/// units name its squares.
#[tactic(auto, unfolding(hv_tree_model::specs::Sites::address_of, hv_tree_model::specs::Sites::column_of, hv_tree_model::specs::Sites::row_of))]
fn measured(input: &Picture, block: &Block) -> Option<(u64, u64)>
    requires { IsPicture 8 8 input.now }
{
    let near = Neighbours {
        left: None,
        above_left: None,
        above: None,
        above_right: None,
    };
    let task = intra_task(input, &near, 8);
    let node = Node {
        depth: 3,
        x: 0,
        y: 0,
    };
    if !names_its_node(task.place, &block.plan, node) {
        return None;
    }
    Some((
        node_errors(&task, 0, 0, &block.samples),
        cost_node(&task, 0, 0, block),
    ))
}

/// 64 differences of 10, 16 of 20 and 16 of 30; and eight bins: `part_mode`,
/// `prev_intra_luma_pred_flag`, two of `mpm_idx`, `intra_chroma_pred_mode`, and the flags of Cb,
/// Cr and luma. At quantiser 30 a bin weighs 576.
#[test]
fn a_node_of_one_unit(rt: HostRuntime) -> Result<(), Fail> {
    let input = picture(rt.alloc())?;
    let block = block(rt.alloc())?;
    assert_eq!(rt; measured(&input, &block), Some((27200, 439808)));
    Ok(())
}
