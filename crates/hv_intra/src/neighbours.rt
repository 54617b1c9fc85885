//! The sides of blocks, and their neighbours by sides.

ghost use Rattle.std.specs.Prelude.{◌≡◌, ◌+◌, ◌*◌, ◌^◌, ◌≤◌, length};
ghost use Rattle.hv_sample_model.specs.IntraPrediction.{left, above};

/// The side of a block of 2^log2 columns and rows, 4 to 32.
#[derive(Clone, Copy)]
pub(crate) struct Side {
    pub(crate) log2: u8,
    ghost least: { 2 ≤ log2 },
    ghost most: { log2 ≤ 5 },
}

impl Side {
    /// How many columns and rows.
    #[inline(always)]
    pub(crate) fn count(self) -> usize
        ensures value { result ≡ 2 ^ self.log2 }
        ensures some { 4 ≤ result }
        ensures most { result ≤ 32 }
    {
        1 << self.log2
    }
}

/// The neighbours that a block of a side is predicted from, in a line.
#[derive(Clone, Copy)]
pub(crate) struct Neighbours<'a> {
    pub(crate) side: Side,
    pub(crate) line: &'a [u8],
    ghost count: { length line.now ≡ 4 * 2 ^ side.log2 + 1 },
}

impl<'a> Neighbours<'a> {
    /// The neighbour at the left that is `i` below the corner.
    #[inline(always)]
    pub(crate) fn left(self, i: usize) -> u8
        requires { i ≤ 2 * 2 ^ self.side.log2 }
        ensures { result ≡ left self.entry.side.log2 self.entry.line.now i }
    {
        self.line[2 * self.side.count() - i]
    }

    /// The neighbour above that is `i` to the right of the corner.
    #[inline(always)]
    pub(crate) fn above(self, i: usize) -> u8
        requires { i ≤ 2 * 2 ^ self.side.log2 }
        ensures { result ≡ above self.entry.side.log2 self.entry.line.now i }
    {
        self.line[2 * self.side.count() + i]
    }
}
