//! What the blocks around a coding tree block see of it.

ghost use Rattle.std.specs.Prelude.{◌≡◌, ◌+◌, ◌-◌, ◌*◌, ◌<◌, ◌≤◌, length};
ghost use Rattle.hv_block.specs.Edges.{address_of, right_units, bottom_units, last_column, last_row};

use crate::block::Block;
use hv_plan::Unit;

/// The last column of a coding tree block, from top to bottom, and its last row, from left to
/// right: the units of its squares of 8x8 luma samples, and its samples. Those outside the picture
/// have any value.
#[derive(Clone, Copy)]
pub struct Edges {
    pub right_units: [Unit; 8],
    pub bottom_units: [Unit; 8],
    pub right_luma: [u8; 64],
    pub bottom_luma: [u8; 64],
    pub right_cb: [u8; 32],
    pub bottom_cb: [u8; 32],
    pub right_cr: [u8; 32],
    pub bottom_cr: [u8; 32],
}

/// The edges of the four blocks around a coding tree block that come before it in decoding order:
/// none where the picture has no such block.
#[derive(Clone, Copy)]
pub struct Neighbours {
    pub left: Option<Edges>,
    pub above_left: Option<Edges>,
    pub above: Option<Edges>,
    pub above_right: Option<Edges>,
}

impl Block {
    ghost use Rattle.hv_block.specs.BlockEdges.{edges_of};

    /// The last column and the last row of units and samples.
    pub fn edges(&self) -> Edges
        ensures { result ≡ edges_of self.now }
    {
        Edges {
            right_units: right_units(self.plan.units()),
            bottom_units: bottom_units(self.plan.units()),
            right_luma: last_column(self.samples.luma()),
            bottom_luma: last_row(self.samples.luma()),
            right_cb: last_column(self.samples.cb()),
            bottom_cb: last_row(self.samples.cb()),
            right_cr: last_column(self.samples.cr()),
            bottom_cr: last_row(self.samples.cr()),
        }
    }
}

/// The address in z-scan order (6.5.2) of the square of 8x8 luma samples in this column and row of
/// a coding tree block, each below 8. Takes no memory.
#[tactic(auto, unfolding(crate::specs::Edges::address_of))]
pub fn address_of(column: usize, row: usize) -> usize
    requires column { column < 8 }
    requires row { row < 8 }
    ensures value { result ≡ address_of column row }
    ensures small { result < 64 }
{
    column % 2
        + 2 * (row % 2)
        + 4 * (column / 2 % 2)
        + 8 * (row / 2 % 2)
        + 16 * (column / 4 % 2)
        + 32 * (row / 4 % 2)
}

/// The units in the last column, from top to bottom.
fn right_units(units: &[Unit]) -> [Unit; 8]
    requires { length units.now ≡ 64 }
    ensures { result ≡ right_units units.now }
{
    let mut out = [units[0]; 8];
    for row in 0..8 {
        out[row] = units[address_of(7, row)];
    }
    out
}

/// The units in the last row, from left to right.
fn bottom_units(units: &[Unit]) -> [Unit; 8]
    requires { length units.now ≡ 64 }
    ensures { result ≡ bottom_units units.now }
{
    let mut out = [units[0]; 8];
    for column in 0..8 {
        out[column] = units[address_of(column, 7)];
    }
    out
}

/// The last column of a square of samples by rows, from top to bottom.
fn last_column<const SIDE: usize>(samples: &[u8]) -> [u8; SIDE]
    requires side { SIDE ≤ 64 }
    requires whole { length samples.now ≡ SIDE * SIDE }
    ensures { result ≡ last_column SIDE samples.now }
{
    let mut out = [0; SIDE];
    for y in 0..SIDE {
        out[y] = samples[y * SIDE + SIDE - 1];
    }
    out
}

/// The last row of a square of samples by rows, from left to right.
fn last_row<const SIDE: usize>(samples: &[u8]) -> [u8; SIDE]
    requires some { 0 < SIDE }
    requires side { SIDE ≤ 64 }
    requires whole { length samples.now ≡ SIDE * SIDE }
    ensures { result ≡ last_row SIDE samples.now }
{
    let mut out = [0; SIDE];
    out.copy_from_slice(&samples[(SIDE - 1) * SIDE..]);
    out
}

#[cfg(test)]
mod tests {
    use super::*;
    use crate::block::Blocks;
    use hv_plan::{Mv, Pred};
    use std::test::Fail;

    /// A unit of 8x8 whose vector tells `number`.
    fn numbered(number: i16) -> Pred {
        Pred::Inter {
            reference: 0,
            mv: Mv { x: number, y: 0 },
            flag: 0,
            mvd: Mv { x: 0, y: 0 },
        }
    }

    /// The numbers of units that `numbered` made, and -1 of others.
    fn numbers(units: &[Unit; 8]) -> [i16; 8] {
        let mut out = [-1; 8];
        for i in 0..8 {
            if let Pred::Inter { mv, .. } = units[i].pred {
                out[i] = mv.x;
            }
        }
        out
    }

    #[test]
    fn edges_of_a_block(rt: HostRuntime) -> Result<(), Fail> {
        let mut block = Block::new(rt.alloc())?;
        for address in 0..64u8 {
            block
                .plan
                .set_leaf(address, 0, numbered(i16::from(address)));
        }
        // the upper right quarter
        block.plan.set_leaf(16, 2, Pred::Intra { mode: 26 });
        block.plan.luma_mut()[4095] = -5;
        block.plan.cb_mut()[0] = 6;
        block.plan.cr_mut()[1023] = 7;
        block.samples.luma_mut()[127] = 1;
        block.samples.luma_mut()[4033] = 2;
        block.samples.cb_mut()[1023] = 3;
        block.samples.cr_mut()[992] = 4;
        let mut blocks = Vec::new(rt.alloc());
        blocks.push(Block::new(rt.alloc())?)?;
        blocks.push(block)?;

        let block = blocks.block(1);
        let edges = block.edges();

        assert_eq!(rt;
            numbers(&edges.right_units),
            [-1, -1, -1, -1, 53, 55, 61, 63]
        );
        assert_eq!(rt;
            numbers(&edges.bottom_units),
            [42, 43, 46, 47, 58, 59, 62, 63]
        );
        assert_eq!(rt;
            (edges.right_units[0].depth, edges.right_units[7].depth),
            (1, 3)
        );
        assert_eq!(rt; block.plan.units()[16].pred, Pred::Intra { mode: 26 });
        assert_eq!(rt; block.plan.luma()[4095], -5);
        assert_eq!(rt; (block.plan.cb()[0], block.plan.cr()[1023]), (6, 7));
        assert_eq!(rt; (edges.right_luma[0], edges.right_luma[1]), (0, 1));
        assert_eq!(rt; (edges.bottom_luma[0], edges.bottom_luma[1]), (0, 2));
        assert_eq!(rt; (edges.right_cb[31], edges.bottom_cb[31]), (3, 3));
        assert_eq!(rt; (edges.right_cr[31], edges.bottom_cr[0]), (0, 4));
        Ok(())
    }
}
