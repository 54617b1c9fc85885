//! A coding tree block, and the blocks of a picture.

ghost use Rattle.std.specs.Prelude.{◌≡◌, IfOk, length, ◌<◌, Some, slice_get};

use crate::plan::CtbPlan;
use crate::samples::Samples;
use hv_types::NoMemory;
use std::alloc::Global;

/// A coding tree block: what is decided for it, and its samples before the in-loop filters.
#[derive(Drop)]
pub struct Block {
    pub plan: CtbPlan,
    pub samples: Samples,
}

impl Block {
    ghost use Rattle.hv_block.specs.Plans.{opening_plan};
    ghost use Rattle.hv_block.specs.Samples.{opening_samples};

    /// A block with the plan that `CtbPlan::new` gives, and samples of 0. The only error is want
    /// of memory.
    pub fn new(alloc: Global) -> Result<Self, NoMemory>
        ensures plan { IfOk result (λ block. block.plan ≡ opening_plan) }
        ensures samples { IfOk result (λ block. block.samples ≡ opening_samples) }
    {
        let plan = CtbPlan::new(alloc)?;
        let samples = Samples::new(alloc)?;
        Ok(Block { plan, samples })
    }
}

/// What has the blocks of a picture, in raster order (6.5.1).
pub trait Blocks {
    ghost use Rattle.std.specs.Prelude.{List};
    ghost use Rattle.hv_block.specs.declared.block.Block.{Block};

    ghost blocks: { Self → List Block };

    /// Block `index`, from 0, which is there.
    fn block(&self, index: u32) -> &Block
        requires { index < length (blocks self.now) }
        ensures { slice_get (blocks self.now) index ≡ Some result.now };
}

impl Blocks for Vec<Block> {
    ghost blocks = { λ blocks. blocks.items };

    fn block(&self, index: u32) -> &Block {
        &self[index as usize]
    }
}
