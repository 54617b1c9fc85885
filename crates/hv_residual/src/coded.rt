//! What the sub-blocks before a sub-block say of it (9.3.4.2.4 to 9.3.4.2.6).

ghost use Rattle.std.specs.Prelude.{◌≡◌, ◌≤◌};

use crate::block::Spot;

/// What is kept of the sub-blocks coded so far: coded_sub_block_flag of each, nine to a row, so
/// that those outside the block are 0 as well, and whether a greater1 flag was 1 in the last one
/// that had such flags.
#[derive(Clone, Copy)]
pub struct Coded {
    flags: [bool; 81],
    pub had_greater1: bool,
}

impl Coded {
    ghost use Rattle.hv_residual_model.specs.ResidualSyntax.{Earlier, nothing_earlier};
    ghost use Rattle.hv_residual.specs.Earlier.{Shows, behind_spot};

    /// Before all sub-blocks.
    #[inline(always)]
    pub fn nothing() -> Coded
        ensures { Shows result nothing_earlier }
    {
        Coded {
            flags: [false; 81],
            had_greater1: false,
        }
    }

    /// coded_sub_block_flag of a sub-block, which may stand outside of the block; 0 where it isn't
    /// coded yet.
    #[inline(always)]
    pub fn flag(&self, x: u8, y: u8) -> bool
        requires column { x ≤ 8 }
        requires row { y ≤ 8 }
        ensures { (e : Earlier) → Shows self.now e → result ≡ e.coded_sub_block_flag x y }
    {
        self.flags[9 * usize::from(y) + usize::from(x)]
    }

    /// Keeps what a sub-block says.
    #[inline(always)]
    pub fn set(&mut self, corner: Spot, flag: bool, had_greater1: bool)
        ensures { (e : Earlier) → Shows self.old e →
            Shows self.new (behind_spot corner e flag had_greater1) }
    {
        self.flags[9 * usize::from(corner.y) + usize::from(corner.x)] = flag;
        self.had_greater1 = had_greater1;
    }
}
