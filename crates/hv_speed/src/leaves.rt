//! Rebuilding of the leaves of the last block of a picture of 128x128, between blocks whose samples
//! rise and fall.
ghost use Rattle.std.specs.Prelude.{◌≡◌, ◌<◌, ◌≤◌};

use crate::levels::sum_of;
use anyhow::bail;
use hv_block::{Block, Edges, Neighbours};
use hv_near::{column_of, row_of};
use hv_plan::{Place, Pred, Unit};
use hv_recon::rebuild_leaf;
use std::alloc::Global;

/// A round has so many calls.
const CALLS: usize = 64;

/// The quantiser of the slice.
const QUANTISER: u8 = 26;

/// The block at the lower right of four.
const PLACE: Place = Place {
    width: 128,
    height: 128,
    index: 3,
};

/// Samples that begin with one and go on in steps.
fn fill_slope(out: &mut [u8], first: u8, step: u8) {
    let mut sample = first;
    for place in out.iter_mut() {
        *place = sample;
        sample = sample.wrapping_add(step);
    }
}

/// The edges of a block whose last column and last row are slopes.
fn slopes() -> Edges {
    let unit = Unit {
        depth: 0,
        pred: Pred::Intra { mode: 1 },
    };
    let mut edges = Edges {
        right_units: [unit; 8],
        bottom_units: [unit; 8],
        right_luma: [0; 64],
        bottom_luma: [0; 64],
        right_cb: [0; 32],
        bottom_cb: [0; 32],
        right_cr: [0; 32],
        bottom_cr: [0; 32],
    };
    fill_slope(&mut edges.right_luma, 10, 3);
    fill_slope(&mut edges.bottom_luma, 200, 3);
    fill_slope(&mut edges.right_cb, 10, 5);
    fill_slope(&mut edges.bottom_cb, 200, 5);
    fill_slope(&mut edges.right_cr, 10, 7);
    fill_slope(&mut edges.bottom_cr, 200, 7);
    edges
}

/// Writes levels of -4 to 3 from a generator of numbers, in one of eight places.
fn put_levels(out: &mut [i16], seed: u32) {
    let mut state = seed;
    for i in 0..out.len() {
        state = state.wrapping_mul(1664525).wrapping_add(1013904223);
        let byte = (state >> 24) as u8;
        if byte < 32 {
            out[i] = i16::from(byte % 8) - 4;
        }
    }
}

/// A block with levels, between blocks that are alike.
#[derive(Drop)]
pub struct Leaves {
    near: Neighbours,
    block: Block,
}

impl Leaves {
    ghost use Rattle.std.specs.Prelude.{◌+◌, ◌%◌};
    ghost use Rattle.hv_tree_model.specs.Trees.{side};
    ghost use Rattle.hv_tree_model.specs.Sites.{squares, x0, y0};

    /// 64 units of 8x8 of many modes, or the second unit of 32x32 alone.
    fn new(alloc: Global, small: bool) -> anyhow::Result<Leaves> {
        let Ok(mut block) = Block::new(alloc) else {
            bail!("not enough memory");
        };
        put_levels(block.plan.luma_mut(), 5);
        put_levels(block.plan.cb_mut(), 6);
        put_levels(block.plan.cr_mut(), 7);
        if small {
            for address in 0..64u8 {
                let mode = ((u16::from(address) * 11) % 35) as u8;
                block.plan.set_leaf(address, 0, Pred::Intra { mode });
            }
        } else {
            block.plan.set_leaf(16, 2, Pred::Intra { mode: 11 });
        }
        let edges = Some(slopes());
        let near = Neighbours {
            left: edges,
            above_left: edges,
            above: edges,
            above_right: edges,
        };
        Ok(Leaves { near, block })
    }

    /// Rebuilds a leaf once, where it has one of the 35 modes.
    #[inline(always)]
    fn rebuild(&mut self, place: Place, address: u8, size: u8)
        requires size { size ≤ 3 }
        requires address { address < 64 }
        requires node { address % squares size ≡ 0 }
        requires right { x0 place address + side size ≤ place.width }
        requires bottom { y0 place address + side size ≤ place.height }
    {
        if let Pred::Intra { mode } = self.block.plan.units()[usize::from(address)].pred {
            if mode <= 34 {
                rebuild_leaf(
                    &self.block.plan,
                    address,
                    size,
                    place,
                    QUANTISER,
                    &self.near,
                    None,
                    None,
                    &mut self.block.samples,
                );
            }
        }
    }

    /// Rebuilds the 64 units.
    #[inline(never)]
    fn rebuild_small(&mut self) {
        for address in 0..64u8 {
            if column_of(address) < 8 && row_of(address) < 8 {
                self.rebuild(PLACE, address, 0);
            }
        }
    }

    /// Rebuilds the unit of 32x32.
    #[inline(never)]
    #[tactic(auto, unfolding(hv_tree_model::specs::Sites::column_of, hv_tree_model::specs::Sites::row_of))]
    fn rebuild_great(&mut self) {
        self.rebuild(PLACE, 16, 2);
    }

    /// Rebuilds them in all calls, and gives a sum of the samples.
    pub fn run(&mut self, small: bool) -> u64 {
        let mut sum = 0u64;
        for _ in 0..CALLS {
            if small {
                self.rebuild_small();
            } else {
                self.rebuild_great();
            }
            sum = sum.wrapping_add(sum_of(self.block.samples.luma()));
            sum = sum.wrapping_add(sum_of(self.block.samples.cb()));
        }
        sum
    }
}

#[derive(Clone, Copy, PartialEq, Eq)]
pub enum LeafKernel {
    Small,
    Great,
}

impl LeafKernel {
    /// All kernels, in the order in which they are run.
    pub const ALL: [LeafKernel; 2] = [LeafKernel::Small, LeafKernel::Great];

    /// The word by which a user asks for it.
    pub fn name(self) -> &'static str {
        match self {
            LeafKernel::Small => "rebuild_leaf_8",
            LeafKernel::Great => "rebuild_leaf_32",
        }
    }

    /// The kernel of this name, if there is one.
    pub fn named(word: &str) -> Option<LeafKernel> {
        for kernel in &LeafKernel::ALL {
            if kernel.name() == word {
                return Some(*kernel);
            }
        }
        None
    }

    /// Runs so many rounds of the kernel, and gives a sum of what came out.
    pub fn run(self, alloc: Global, rounds: u32) -> anyhow::Result<u64> {
        let small = self == LeafKernel::Small;
        let mut leaves = Leaves::new(alloc, small)?;
        let mut sum = 0u64;
        for _ in 0..rounds {
            sum = sum.wrapping_add(leaves.run(small));
        }
        Ok(sum)
    }
}
