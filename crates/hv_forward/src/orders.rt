//! The rows of a block in pairs, as they stand.
ghost use Rattle.std.specs.Prelude.{◌-◌, ◌/◌};
ghost use Rattle.hv_lanes.specs.Lanes.{IsOrder, ArePairs};

/// The pairs of rows of 8 as they stand.
static RISING_8: [[usize; 2]; 4] = [[0, 1], [2, 3], [4, 5], [6, 7]];

/// The pairs of rows of 16 as they stand.
static RISING_16: [[usize; 2]; 8] = [
    [0, 1],
    [2, 3],
    [4, 5],
    [6, 7],
    [8, 9],
    [10, 11],
    [12, 13],
    [14, 15],
];

/// The pairs of rows of 32 as they stand.
static RISING_32: [[usize; 2]; 16] = [
    [0, 1],
    [2, 3],
    [4, 5],
    [6, 7],
    [8, 9],
    [10, 11],
    [12, 13],
    [14, 15],
    [16, 17],
    [18, 19],
    [20, 21],
    [22, 23],
    [24, 25],
    [26, 27],
    [28, 29],
    [30, 31],
];

/// The rows of 8 in pairs, as they stand.
#[inline(always)]
pub(crate) fn rising_order_of_8() -> &'static [[usize; 2]; 4]
    ensures order { IsOrder 0 4 result.now }
    ensures pairs { ArePairs 4 8 result.now }
{
    &RISING_8
}

/// The rows of 16 in pairs, as they stand.
#[inline(always)]
pub(crate) fn rising_order_of_16() -> &'static [[usize; 2]; 8]
    ensures order { IsOrder 0 8 result.now }
    ensures pairs { ArePairs 8 16 result.now }
{
    &RISING_16
}

/// The rows of 32 in pairs, as they stand.
#[inline(always)]
pub(crate) fn rising_order_of_32() -> &'static [[usize; 2]; 16]
    ensures order { IsOrder 0 16 result.now }
    ensures pairs { ArePairs 16 32 result.now }
{
    &RISING_32
}
