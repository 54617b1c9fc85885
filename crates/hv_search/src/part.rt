//! Nodes in a block.
ghost use Rattle.std.specs.Prelude.{◌≡◌, ◌+◌, ◌≤◌, Bool, true, nat_eq, ◌||◌};

/// A node in a block of 64x64: its first column and row, in luma samples, and its side, which is
/// 8, 16, 32 or 64. It lies wholly inside of the block.
#[derive(Clone, Copy)]
pub(crate) struct Part {
    pub(crate) left: u8,
    pub(crate) top: u8,
    pub(crate) side: u8,
    ghost sized: { (nat_eq side 8 || nat_eq side 16 || nat_eq side 32 || nat_eq side 64) ≡ true },
    ghost across: { left + side ≤ 64 },
    ghost down: { top + side ≤ 64 },
}
