//! A plane of samples.

ghost use Rattle.std.specs.Prelude.{◌≡◌, min, ◌+◌, ◌-◌, ◌*◌, ◌/◌, ◌^◌, ◌<◌, ◌≤◌, ◌++◌, length, IfOk, OnOk, vec_len};
ghost use Rattle.hv_types.specs.Samples.{plane_by_rows, row_of, lengthened_row};

use crate::answers::NoMemory;
use std::alloc::Global;
use std::marker::Model;

/// The sides of a plane.
#[derive(Clone, Copy)]
pub(crate) struct Sides {
    pub(crate) width: u32,
    pub(crate) height: u32,
}

impl Sides {
    /// How many samples a plane of these sides has.
    pub(crate) fn samples(self) -> usize
        ensures { result ≡ self.width * self.height }
    {
        self.width as usize * self.height as usize
    }

    /// Half of each side.
    pub(crate) fn halved(self) -> Self
        ensures width { result.width ≡ self.width / 2 }
        ensures height { result.height ≡ self.height / 2 }
    {
        Sides {
            width: self.width / 2,
            height: self.height / 2,
        }
    }
}

/// Samples of one component of a picture, by rows, each of at least one sample.
#[derive(Drop)]
pub struct Plane {
    width: u32,
    height: u32,
    samples: Vec<u8>,
}

impl Model for Plane {
    ghost use Rattle.hv_types.specs.Samples.{Plane, IsWhole, plane_by_rows};

    ghost Value = { Plane };

    ghost view = { λ p. plane_by_rows p.width p.height p.samples.items };

    ghost invariant = { λ p. IsWhole (plane_by_rows p.width p.height p.samples.items) };
}

impl Plane {
    ghost use Rattle.hv_types.specs.Samples.{plane_by_rows, sample_at, row_of, with_sample, with_run, filled_plane, pad_plane};

    /// A plane of `width` columns and `height` rows, at least 1 each. Every sample is `value`.
    /// The only error is want of memory.
    pub fn new(alloc: Global, width: u32, height: u32, value: u8) -> Result<Self, NoMemory>
        requires wide { 0 < width }
        requires high { 0 < height }
        ensures { IfOk result (λ plane. plane ≡ filled_plane width height value) }
    {
        let samples = vec![in alloc; value; width as usize * height as usize]?;
        Ok(Plane {
            width,
            height,
            samples,
        })
    }

    /// The plane of the sides `to` whose upper left part is these samples by rows, of the sides
    /// `from`: the last column is repeated, and then the last row.
    pub(crate) fn padded(
        alloc: Global,
        samples: &[u8],
        from: Sides,
        to: Sides,
    ) -> Result<Self, NoMemory>
        requires count { length samples.now ≡ from.width * from.height }
        requires wide { 0 < from.width }
        requires high { 0 < from.height }
        requires wider { from.width ≤ to.width }
        requires higher { from.height ≤ to.height }
        ensures { IfOk result (λ plane. plane ≡
            pad_plane (plane_by_rows from.width from.height samples.now) to.width to.height) }
    {
        let mut padded = Vec::with_capacity(alloc, to.samples())?;
        for y in 0..to.height {
            let row = row_or_last(samples, from, y);
            append_row(&mut padded, row, to.width as usize)?;
        }
        Ok(Plane {
            width: to.width,
            height: to.height,
            samples: padded,
        })
    }

    /// The number of columns.
    pub fn width(&self) -> u32
        ensures value { result ≡ self.now.width }
        ensures wide { 0 < result }
    {
        self.width
    }

    /// The number of rows.
    pub fn height(&self) -> u32
        ensures value { result ≡ self.now.height }
        ensures high { 0 < result }
    {
        self.height
    }

    /// The sample in column `x` of row `y`, both in the plane.
    pub fn at(&self, x: u32, y: u32) -> u8
        requires x { x < self.now.width }
        requires y { y < self.now.height }
        ensures { result ≡ sample_at self.now x y }
    {
        self.samples[y as usize * self.width as usize + x as usize]
    }

    /// The samples of row `y`, which is in the plane, from left to right.
    pub fn row(&self, y: u32) -> &[u8]
        requires { y < self.now.height }
        ensures { result.now ≡ row_of self.now y }
    {
        let start = y as usize * self.width as usize;
        &self.samples[start..start + self.width as usize]
    }

    /// All samples, by rows.
    pub fn samples(&self) -> &[u8]
        ensures value { result.now ≡ self.now.samples }
        ensures count { length result.now ≡ self.now.width * self.now.height }
    {
        &self.samples
    }

    /// Puts `value` in column `x` of row `y`, both in the plane, and leaves every other sample.
    pub fn set(&mut self, x: u32, y: u32, value: u8)
        requires x { x < self.old.width }
        requires y { y < self.old.height }
        ensures { self.new ≡ with_sample self.old x y value }
    {
        let at = y as usize * self.width as usize + x as usize;
        self.samples[at] = value;
    }

    /// Puts `values` in row `y` from column `x` on, all of them in the plane, and leaves every
    /// other sample.
    #[inline(always)]
    pub fn set_run(&mut self, x: u32, y: u32, values: &[u8])
        requires y { y < self.old.height }
        requires across { x + length values.now ≤ self.old.width }
        ensures { self.new ≡ with_run self.old x y values.now }
    {
        let first = y as usize * self.width as usize + x as usize;
        self.samples[first..first + values.len()].copy_from_slice(values);
    }
}

/// Row `y` of samples by rows, of these sides, or the last row where there is no such row.
fn row_or_last(samples: &[u8], sides: Sides, y: u32) -> &[u8]
    requires count { length samples.now ≡ sides.width * sides.height }
    requires high { 0 < sides.height }
    ensures { result.now ≡
        row_of (plane_by_rows sides.width sides.height samples.now) (min y (sides.height - 1)) }
{
    let columns = sides.width as usize;
    let start = y.min(sides.height - 1) as usize * columns;
    &samples[start..start + columns]
}

/// Appends a row and then its last sample until `columns` are there.
fn append_row(samples: &mut Vec<u8>, row: &[u8], columns: usize) -> Result<(), NoMemory>
    requires some { 0 < length row.now }
    requires within { length row.now ≤ columns }
    requires fits { vec_len samples.old + columns < 2 ^ 64 }
    ensures { OnOk result
        (samples.new.items ≡ samples.old.items ++ lengthened_row row.now columns) }
{
    let end = samples.len() + columns;
    samples.extend_from_slice(row)?;
    samples.resize(end, row[row.len() - 1])?;
    Ok(())
}

#[cfg(test)]
mod tests {
    use super::*;
    use std::test::Fail;

    #[test]
    fn one_sample_of_six(rt: HostRuntime) -> Result<(), Fail> {
        let mut plane = Plane::new(rt.alloc(), 3, 2, 7)?;

        plane.set(2, 1, 9);

        assert_eq!(rt; (plane.width(), plane.height()), (3, 2));
        assert_eq!(rt; (plane.at(2, 1), plane.at(1, 1)), (9, 7));
        assert_eq!(rt; plane.row(0), [7, 7, 7].as_slice());
        assert_eq!(rt; plane.row(1), [7, 7, 9].as_slice());
        Ok(())
    }

    #[test]
    fn a_run_of_two_of_six(rt: HostRuntime) -> Result<(), Fail> {
        let mut plane = Plane::new(rt.alloc(), 3, 2, 7)?;

        plane.set_run(1, 0, &[8, 9]);

        assert_eq!(rt; plane.row(0), [7, 8, 9].as_slice());
        assert_eq!(rt; plane.row(1), [7, 7, 7].as_slice());
        Ok(())
    }
}
