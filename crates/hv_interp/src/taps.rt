//! The taps of interpolation, as the standard prints them.
ghost use Rattle.std.specs.Prelude.{◌≡◌, ◌<◌, ◌≤◌};
ghost use Rattle.hv_inter_model.specs.Interpolation.{fL, fC};
ghost use Rattle.hv_interp.specs.Filters.{weight_of};

/// The taps of luma (8.5.3.3.3.2): a row for each fraction, in quarters of a sample.
#[rattlefmt::skip]
static LUMA_TAPS: [[i8; 8]; 4] = [
    // -3  -2   -1    0   1    2   3   4
    [   0,  0,   0,  64,  0,   0,  0,  0],
    [  -1,  4, -10,  58, 17,  -5,  1,  0],
    [  -1,  4, -11,  40, 40, -11,  4, -1],
    [   0,  1,  -5,  17, 58, -10,  4, -1],
];

/// The taps of chroma (8.5.3.3.3.3): a row for each fraction, in eighths of a sample.
#[rattlefmt::skip]
static CHROMA_TAPS: [[i8; 4]; 8] = [
    // -1   0   1   2
    [   0, 64,  0,  0],
    [  -2, 58, 10, -2],
    [  -4, 54, 16, -2],
    [  -6, 46, 28, -4],
    [  -4, 36, 36, -4],
    [  -4, 28, 46, -6],
    [  -2, 16, 54, -4],
    [  -2, 10, 58, -2],
];

/// The taps of luma of a fraction, 0 to 3 quarters of a sample.
#[inline(always)]
pub(crate) fn luma_taps(fraction: u8) -> &'static [i8; 8]
    requires { fraction < 4 }
    ensures value { result.now ≡ fL fraction }
    ensures light { weight_of result.now ≤ 112 }
{
    &LUMA_TAPS[usize::from(fraction)]
}

/// The taps of chroma of a fraction, 0 to 7 eighths of a sample.
#[inline(always)]
pub(crate) fn chroma_taps(fraction: u8) -> &'static [i8; 4]
    requires { fraction < 8 }
    ensures value { result.now ≡ fC fraction }
    ensures light { weight_of result.now ≤ 112 }
{
    &CHROMA_TAPS[usize::from(fraction)]
}
