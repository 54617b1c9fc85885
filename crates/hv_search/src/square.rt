//! Nodes in a picture.
ghost use Rattle.std.specs.Prelude.{◌≡◌, ◌+◌, ◌^◌, ◌<◌, Bool, true, nat_eq, ◌||◌};

/// A node in a picture: its first column and row, and its side, which is 8, 16, 32 or 64.
#[derive(Clone, Copy)]
pub(crate) struct Square {
    pub(crate) x: u32,
    pub(crate) y: u32,
    pub(crate) side: u8,
    ghost right: { x + 64 < 2 ^ 32 },
    ghost bottom: { y + 64 < 2 ^ 32 },
    ghost sized: { (nat_eq side 8 || nat_eq side 16 || nat_eq side 32 || nat_eq side 64) ≡ true },
}
