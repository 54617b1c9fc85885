//! Which rows of a block stand in pairs, as the sums over columns take them.
ghost use Rattle.std.specs.Prelude.{◌-◌, ◌/◌};
ghost use Rattle.hv_lanes.specs.Lanes.{IsOrder, ArePairs};

/// The pairs of rows of 8: those with odd numbers, and then the others.
static ORDER_8: [[usize; 2]; 4] = [[1, 3], [5, 7], [0, 2], [4, 6]];

/// The pairs of rows of 16: those with odd numbers, and then twice those of 8.
static ORDER_16: [[usize; 2]; 8] = [
    [1, 3],
    [5, 7],
    [9, 11],
    [13, 15],
    [2, 6],
    [10, 14],
    [0, 4],
    [8, 12],
];

/// The pairs of rows of 32: those with odd numbers, and then twice those of 16.
static ORDER_32: [[usize; 2]; 16] = [
    [1, 3],
    [5, 7],
    [9, 11],
    [13, 15],
    [17, 19],
    [21, 23],
    [25, 27],
    [29, 31],
    [2, 6],
    [10, 14],
    [18, 22],
    [26, 30],
    [4, 12],
    [20, 28],
    [0, 8],
    [16, 24],
];

/// Which rows of 8 stand in pairs.
#[inline(always)]
pub(crate) fn order_of_8() -> &'static [[usize; 2]; 4]
    ensures order { IsOrder 1 4 result.now }
    ensures pairs { ArePairs 4 8 result.now }
{
    &ORDER_8
}

/// Which rows of 16 stand in pairs.
#[inline(always)]
pub(crate) fn order_of_16() -> &'static [[usize; 2]; 8]
    ensures order { IsOrder 2 8 result.now }
    ensures pairs { ArePairs 8 16 result.now }
{
    &ORDER_16
}

/// Which rows of 32 stand in pairs.
#[inline(always)]
pub(crate) fn order_of_32() -> &'static [[usize; 2]; 16]
    ensures order { IsOrder 3 16 result.now }
    ensures pairs { ArePairs 16 32 result.now }
{
    &ORDER_32
}
