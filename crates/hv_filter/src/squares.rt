//! How the squares of a picture are coded, from its coding tree blocks.

ghost use Rattle.std.specs.Prelude.{◌≡◌, ◌+◌, ◌*◌, ◌/◌, ◌^◌, ◌<◌, ◌≤◌, length, Some};
ghost use Rattle.hv_tree_model.specs.Sites.{squares};
ghost use Rattle.hv_filter_model.specs.Blocks.{luma_side, blocks_over};
ghost use Rattle.hv_deblock_model.specs.EdgeStrength.{log2_transform_squares};
ghost use Rattle.hv_deblock_model.specs.CodedSquares.{square_of_plan};
ghost use Rattle.hv_filter.specs.JoinedPicture.{lists_of_plan, squares_of_blocks};

use hv_block::{Blocks, CtbPlan, address_of};
use hv_deblock::CodedSquares;
use hv_plan::Unit;
use hv_residual::any_significant;

/// The squares of a picture of so many columns and rows of them.
#[derive(Drop)]
pub(crate) struct BlockSquares<'a, B: Blocks> {
    pub(crate) blocks: &'a B,
    pub(crate) columns: u32,
    pub(crate) rows: u32,
    ghost count: { length (B.blocks blocks.now) ≡
        blocks_over luma_side (8 * columns) * blocks_over luma_side (8 * rows) },
    ghost few: { length (B.blocks blocks.now) < 2 ^ 32 },
}

/// The luma transform block that has the square at an address, in a unit of this depth: its first
/// square, and how many it has. Its side is 32 samples at most (`MaxTbLog2SizeY`, 7.4.3.2.1).
fn luma_block(depth: u8, address: usize) -> (usize, usize)
    requires depth { depth ≤ 3 }
    requires address { address < 64 }
    ensures count { result.1 ≡ squares (log2_transform_squares depth) }
    ensures first { result.0 ≡ address / result.1 * result.1 }
    ensures inside { result.0 + result.1 ≤ 64 }
{
    match depth {
        0 => (address / 16 * 16, 16),
        1 => (address / 16 * 16, 16),
        2 => (address / 4 * 4, 4),
        _ => (address, 1),
    }
}

/// The coding unit of the square at an address.
fn unit_at(plan: &CtbPlan, address: usize) -> Unit
    requires { address < 64 }
    ensures { result ≡ (square_of_plan (Some (lists_of_plan plan.now)) address).unit }
{
    plan.units()[address]
}

/// Whether the luma transform block that has the square at an address has a level that isn't 0.
fn has_levels_at(plan: &CtbPlan, address: usize) -> bool
    requires { address < 64 }
    ensures { result ≡ (square_of_plan (Some (lists_of_plan plan.now)) address).has_levels }
{
    let (first, count) = luma_block(plan.units()[address].depth, address);
    any_significant(&plan.luma()[64 * first..64 * first + 64 * count])
}

impl<'a, B: Blocks> CodedSquares for BlockSquares<'a, B> {
    ghost columns = { λ s. s.columns };

    ghost rows = { λ s. s.rows };

    ghost coding = { λ s. squares_of_blocks (8 * s.columns) (B.blocks s.blocks.now) };

    fn unit(&self, column: u32, row: u32) -> Unit {
        let across = self.columns.div_ceil(8);
        let block = self.blocks.block(row / 8 * across + column / 8);
        let address = address_of((column % 8) as usize, (row % 8) as usize);
        unit_at(&block.plan, address)
    }

    fn has_levels(&self, column: u32, row: u32) -> bool {
        let across = self.columns.div_ceil(8);
        let block = self.blocks.block(row / 8 * across + column / 8);
        let address = address_of((column % 8) as usize, (row % 8) as usize);
        has_levels_at(&block.plan, address)
    }
}
