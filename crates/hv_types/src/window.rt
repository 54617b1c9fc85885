//! A view of a block in a plane, as kernels, filters and searches take it.

ghost use Rattle.std.specs.Prelude.{◌≡◌, ◌+◌, ◌<◌, ◌≤◌};
ghost use Rattle.hv_types.specs.Windows.{HoldsBlock, row_of_block};

use crate::Plane;

/// A block of `columns` and `rows` in a plane. `samples` are the plane's from the block's upper
/// left one on, and `stride` is the number of samples from the start of one row to the start of the
/// next. Every row of the block is there whole.
#[derive(Clone, Copy, Debug)]
pub struct Window<'a> {
    pub samples: &'a [u8],
    pub stride: usize,
    pub columns: usize,
    pub rows: usize,
    ghost whole: { HoldsBlock samples.now stride columns rows },
}

impl<'a> Window<'a> {
    /// The samples of row `y`, which is in the block, from left to right.
    #[inline(always)]
    pub fn row(self, y: usize) -> &'a [u8]
        requires { y < self.rows }
        ensures { result.now ≡
            row_of_block self.entry.samples.now self.entry.stride self.entry.columns y }
    {
        let at = y * self.stride;
        &self.samples[at..at + self.columns]
    }
}

impl Plane {
    ghost use Rattle.std.specs.Prelude.{◌*◌, ◌<◌, drop};

    /// The block of `columns` and `rows` whose upper left sample is in column `x` of row `y`, all
    /// of it in the plane. It has a row at least.
    pub fn window(&self, x: u32, y: u32, columns: u32, rows: u32) -> Window<'_>
        requires some { 0 < rows }
        requires across { x + columns ≤ self.now.width }
        requires down { y + rows ≤ self.now.height }
        ensures samples { result.samples.now ≡ drop (y * self.now.width + x) self.now.samples }
        ensures stride { result.stride ≡ self.now.width }
        ensures columns { result.columns ≡ columns }
        ensures rows { result.rows ≡ rows }
    {
        let stride = self.width() as usize;
        let at = y as usize * stride + x as usize;
        let samples = self.samples();
        Window {
            samples: &samples[at..],
            stride,
            columns: columns as usize,
            rows: rows as usize,
        }
    }
}
