//! Predictions around a block at all fractions of a sample.
ghost use Rattle.std.specs.Prelude.{◌≡◌, ◌^◌, ◌<◌, length, pos, ◌+ℤ◌, ◌-ℤ◌};
ghost use Rattle.hv_search_model.specs.MotionLaws.{IsWithin};
ghost use Rattle.hv_interp.specs.Fractions.{ShowsFractions};

use crate::window::{copy_window, corner, grid_of};
use hv_interp::predict_fractions;
use hv_plan::Mv;
use hv_types::Plane;

/// How many samples the predictions of a field have.
pub(crate) const FIELD_SAMPLES: usize = 124416;

/// A block of 64x64 of the input, which begins in column `x` of row `y`, and a vector in whole
/// samples from it to a reference. The samples are those predicted from the reference at all
/// sixteen fractions, from nine columns and nine rows before the place to which the vector leads.
#[derive(Clone, Copy)]
pub(crate) struct Field<'a> {
    pub(crate) input: &'a Plane,
    pub(crate) reference: &'a Plane,
    pub(crate) x: u32,
    pub(crate) y: u32,
    pub(crate) centre: Mv,
    pub(crate) samples: &'a [u8],
    ghost x_most: { x < 2 ^ 31 },
    ghost y_most: { y < 2 ^ 31 },
    ghost near: { IsWithin 64 centre },
    ghost count: { length samples.now ≡ 124416 },
    ghost shows: { ShowsFractions reference.now (pos x +ℤ centre.x -ℤ pos 9)
        (pos y +ℤ centre.y -ℤ pos 9) samples.now },
}

/// Fills the samples of the field of a block that begins in column `x` of row `y`.
pub(crate) fn put_field(reference: &Plane, x: u32, y: u32, centre: Mv, samples: &mut [u8])
    requires near { IsWithin 64 centre }
    requires room { length samples.old ≡ 124416 }
    ensures count { length samples.new ≡ 124416 }
    ensures shows { ShowsFractions reference.now (pos x +ℤ centre.x -ℤ pos 9)
        (pos y +ℤ centre.y -ℤ pos 9) samples.new }
{
    let left = corner(x, centre.x, 12);
    let top = corner(y, centre.y, 12);
    let mut window = [0; 10816];
    copy_window(grid_of(reference), left, top, 104, &mut window);
    predict_fractions(&window, samples);
}
