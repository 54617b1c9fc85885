//! The choice of a coding tree block.

ghost use Rattle.std.specs.Prelude.{◌≡◌};
ghost use Rattle.hv_block.specs.Samples.{Samples};
ghost use Rattle.hv_tree_model.specs.Trees.{greatest_size};
ghost use Rattle.hv_tree_model.specs.Plans.{tree_of, NamesItsUnits};
ghost use Rattle.hv_recon_model.specs.Reconstruction.{Decoded};
ghost use Rattle.hv_recon.specs.Leaves.{AreSeen, lists_with_vectors};
ghost use Rattle.hv_recon.specs.DecodedNodes.{DecodesBlock};
ghost use Rattle.hv_near.specs.Neighbours.{lists_of_plan};
ghost use Rattle.hv_mode_model.specs.ModeDecision.{coded_node, best};
ghost use Rattle.hv_mode.specs.Nodes.{given_of, Decides};
ghost use Rattle.hv_mode.specs.Pictures.{before_block};
ghost use Rattle.hv_mode.specs.Vectors.{references_of};

use crate::node::decide_node;
use crate::task::Task;
use hv_block::Block;
use hv_types::NoMemory;
use std::alloc::Global;

/// Room for the choice of a block: a block for each size of node, where the best unit so far
/// waits. It is made once, and what is in it never matters.
#[derive(Drop)]
pub struct Room {
    blocks: [Block; 4],
}

impl Room {
    /// The only error is want of memory.
    pub fn new(alloc: Global) -> Result<Self, NoMemory> {
        let first = Block::new(alloc)?;
        let second = Block::new(alloc)?;
        let third = Block::new(alloc)?;
        let fourth = Block::new(alloc)?;
        Ok(Room {
            blocks: [first, second, third, fourth],
        })
    }
}

/// Decides a coding tree block: its plan, and its samples before the in-loop filters, whatever
/// `out` held.
///
/// Whatever is decoded of the picture so far, and is seen from the block by the edges of the blocks
/// around it, the plan's coding quadtree with vectors is the one that is chosen behind it, and
/// decoding of that tree gives the samples. As it lies in the plan the tree is what is coded of it:
/// differences in the place of vectors. It takes no memory and always answers.
pub fn decide_ctb(task: &Task<'_>, room: &mut Room, out: &mut Block)
    ensures decides { Decides task.now greatest_size 0 (best (given_of task.now) greatest_size 0)
        out.old out.new }
    ensures tree { (own : Samples) (d : Decoded) →
        AreSeen task.now.place (references_of task.now) task.now.near.now own 0 d →
        tree_of task.now.place (lists_with_vectors out.new.plan) ≡
        best (given_of task.now) greatest_size 0 (before_block d) }
    ensures coded { (own : Samples) (d : Decoded) →
        AreSeen task.now.place (references_of task.now) task.now.near.now own 0 d →
        tree_of task.now.place (lists_of_plan out.new.plan) ≡
        coded_node (given_of task.now) greatest_size 0 (before_block d)
        (best (given_of task.now) greatest_size 0 (before_block d)) }
    ensures names { NamesItsUnits task.now.place (lists_of_plan out.new.plan) }
    ensures moving_names { NamesItsUnits task.now.place (lists_with_vectors out.new.plan) }
    ensures decodes { DecodesBlock (lists_with_vectors out.new.plan) task.now.place task.now.qp
        (references_of task.now) task.now.near.now out.new.samples }
{
    decide_node(task, &mut room.blocks, 3, 0, out);
}

#[cfg(test)]
mod tests {
    use super::*;
    use crate::tasks_for_tests::intra_task;
    use hv_block::Neighbours;
    use hv_plan::Pred;
    use hv_types::{Picture, Plane};
    use std::test::Fail;

    fn have_no_level(levels: &[i16]) -> bool {
        levels.iter().all(|level| *level == 0)
    }

    fn are_flat(samples: &[u8]) -> bool {
        samples.iter().all(|sample| *sample == 128)
    }

    /// Where nothing is around it, a flat block of 128 is predicted as it is by each mode, and one
    /// unit takes fewer bins than four: it is planar, as the first of equals, and has no level.
    #[test]
    fn a_flat_block(rt: HostRuntime) -> Result<(), Fail> {
        let alloc = rt.alloc();
        let input = Picture {
            luma: Plane::new(alloc, 64, 64, 128)?,
            cb: Plane::new(alloc, 32, 32, 128)?,
            cr: Plane::new(alloc, 32, 32, 128)?,
        };
        let near = Neighbours {
            left: None,
            above_left: None,
            above: None,
            above_right: None,
        };
        let task = intra_task(&input, &near, 64);
        let mut room = Room::new(alloc)?;
        let mut out = Block::new(alloc)?;
        out.plan.set_leaf(0, 0, Pred::Intra { mode: 7 });
        out.plan.luma_mut()[5] = 9;
        decide_ctb(&task, &mut room, &mut out);
        for unit in out.plan.units() {
            assert_eq!(rt; unit.depth, 0);
            assert_eq!(rt; unit.pred, Pred::Intra { mode: 0 });
        }
        assert!(rt; have_no_level(out.plan.luma()));
        assert!(rt; have_no_level(out.plan.cb()) && have_no_level(out.plan.cr()));
        assert!(rt; are_flat(out.samples.luma()));
        assert!(rt; are_flat(out.samples.cb()) && are_flat(out.samples.cr()));
        Ok(())
    }
}
