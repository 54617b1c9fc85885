//! The tables of the arithmetic decoder (9.3.4.3.2), as the standard prints them and as a coder
//! reads them.

ghost use Rattle.std.specs.Prelude.{◌≡◌, ◌%◌, ◌<◌, ◌≤◌, [], slice_index_or};
ghost use Rattle.hv_tables.specs.ArithmeticTables.{rangeTabLps, transIdxLps, state_after, HasNextStates};
ghost use Rattle.hv_tables.specs.ArithmeticTableLaws.{FactorIsNearest, WidthsFollowTheRule, LastWidthsAreTwo, SuccessorsFollowTheRule, LastStateStays};

/// rangeTabLps (9.3.4.3.2.1): a row for each pStateIdx, a column for each qRangeIdx.
#[rattlefmt::skip]
const RANGE_TAB_LPS: [[u8; 4]; 64] = [
    //         0    1    2    3
    /*  0 */ [128, 176, 208, 240],
    /*  1 */ [128, 167, 197, 227],
    /*  2 */ [128, 158, 187, 216],
    /*  3 */ [123, 150, 178, 205],
    /*  4 */ [116, 142, 169, 195],
    /*  5 */ [111, 135, 160, 185],
    /*  6 */ [105, 128, 152, 175],
    /*  7 */ [100, 122, 144, 166],
    /*  8 */ [ 95, 116, 137, 158],
    /*  9 */ [ 90, 110, 130, 150],
    /* 10 */ [ 85, 104, 123, 142],
    /* 11 */ [ 81,  99, 117, 135],
    /* 12 */ [ 77,  94, 111, 128],
    /* 13 */ [ 73,  89, 105, 122],
    /* 14 */ [ 69,  85, 100, 116],
    /* 15 */ [ 66,  80,  95, 110],
    /* 16 */ [ 62,  76,  90, 104],
    /* 17 */ [ 59,  72,  86,  99],
    /* 18 */ [ 56,  69,  81,  94],
    /* 19 */ [ 53,  65,  77,  89],
    /* 20 */ [ 51,  62,  73,  85],
    /* 21 */ [ 48,  59,  69,  80],
    /* 22 */ [ 46,  56,  66,  76],
    /* 23 */ [ 43,  53,  63,  72],
    /* 24 */ [ 41,  50,  59,  69],
    /* 25 */ [ 39,  48,  56,  65],
    /* 26 */ [ 37,  45,  54,  62],
    /* 27 */ [ 35,  43,  51,  59],
    /* 28 */ [ 33,  41,  48,  56],
    /* 29 */ [ 32,  39,  46,  53],
    /* 30 */ [ 30,  37,  43,  50],
    /* 31 */ [ 29,  35,  41,  48],
    /* 32 */ [ 27,  33,  39,  45],
    /* 33 */ [ 26,  31,  37,  43],
    /* 34 */ [ 24,  30,  35,  41],
    /* 35 */ [ 23,  28,  33,  39],
    /* 36 */ [ 22,  27,  32,  37],
    /* 37 */ [ 21,  26,  30,  35],
    /* 38 */ [ 20,  24,  29,  33],
    /* 39 */ [ 19,  23,  27,  31],
    /* 40 */ [ 18,  22,  26,  30],
    /* 41 */ [ 17,  21,  25,  28],
    /* 42 */ [ 16,  20,  23,  27],
    /* 43 */ [ 15,  19,  22,  25],
    /* 44 */ [ 14,  18,  21,  24],
    /* 45 */ [ 14,  17,  20,  23],
    /* 46 */ [ 13,  16,  19,  22],
    /* 47 */ [ 12,  15,  18,  21],
    /* 48 */ [ 12,  14,  17,  20],
    /* 49 */ [ 11,  14,  16,  19],
    /* 50 */ [ 11,  13,  15,  18],
    /* 51 */ [ 10,  12,  15,  17],
    /* 52 */ [ 10,  12,  14,  16],
    /* 53 */ [  9,  11,  13,  15],
    /* 54 */ [  9,  11,  12,  14],
    /* 55 */ [  8,  10,  12,  14],
    /* 56 */ [  8,   9,  11,  13],
    /* 57 */ [  7,   9,  11,  12],
    /* 58 */ [  7,   9,  10,  12],
    /* 59 */ [  7,   8,  10,  11],
    /* 60 */ [  6,   8,   9,  11],
    /* 61 */ [  6,   7,   9,  10],
    /* 62 */ [  6,   7,   8,   9],
    /* 63 */ [  2,   2,   2,   2],
];

/// transIdxLps (9.3.4.3.2.2): the pStateIdx after the less probable value, for each pStateIdx.
#[rattlefmt::skip]
const TRANS_IDX_LPS: [u8; 64] = [
    /*  0 to  7 */  0,  0,  1,  2,  2,  4,  4,  5,
    /*  8 to 15 */  6,  7,  8,  9,  9, 11, 11, 12,
    /* 16 to 23 */ 13, 13, 15, 15, 16, 16, 18, 18,
    /* 24 to 31 */ 19, 19, 21, 21, 22, 22, 23, 24,
    /* 32 to 39 */ 24, 25, 26, 26, 27, 27, 28, 29,
    /* 40 to 47 */ 29, 30, 30, 30, 31, 32, 32, 33,
    /* 48 to 55 */ 33, 33, 34, 34, 35, 35, 35, 36,
    /* 56 to 63 */ 36, 36, 37, 37, 37, 38, 38, 63,
];

/// The state after a bin (9.3.4.3.2.2), where a state is 2 * pStateIdx + valMps: for each state,
/// after the value 0 and after 1.
#[rattlefmt::skip]
static NEXT_STATES: [u8; 256] = [
    // pStateIdx:    after 0 and 1 of valMps 0, of valMps 1
    /*  0 to  3 */  2,   1,   0,   3,    4,   0,   1,   5,    6,   2,   3,   7,    8,   4,   5,   9,
    /*  4 to  7 */ 10,   4,   5,  11,   12,   8,   9,  13,   14,   8,   9,  15,   16,  10,  11,  17,
    /*  8 to 11 */ 18,  12,  13,  19,   20,  14,  15,  21,   22,  16,  17,  23,   24,  18,  19,  25,
    /* 12 to 15 */ 26,  18,  19,  27,   28,  22,  23,  29,   30,  22,  23,  31,   32,  24,  25,  33,
    /* 16 to 19 */ 34,  26,  27,  35,   36,  26,  27,  37,   38,  30,  31,  39,   40,  30,  31,  41,
    /* 20 to 23 */ 42,  32,  33,  43,   44,  32,  33,  45,   46,  36,  37,  47,   48,  36,  37,  49,
    /* 24 to 27 */ 50,  38,  39,  51,   52,  38,  39,  53,   54,  42,  43,  55,   56,  42,  43,  57,
    /* 28 to 31 */ 58,  44,  45,  59,   60,  44,  45,  61,   62,  46,  47,  63,   64,  48,  49,  65,
    /* 32 to 35 */ 66,  48,  49,  67,   68,  50,  51,  69,   70,  52,  53,  71,   72,  52,  53,  73,
    /* 36 to 39 */ 74,  54,  55,  75,   76,  54,  55,  77,   78,  56,  57,  79,   80,  58,  59,  81,
    /* 40 to 43 */ 82,  58,  59,  83,   84,  60,  61,  85,   86,  60,  61,  87,   88,  60,  61,  89,
    /* 44 to 47 */ 90,  62,  63,  91,   92,  64,  65,  93,   94,  64,  65,  95,   96,  66,  67,  97,
    /* 48 to 51 */ 98,  66,  67,  99,  100,  66,  67, 101,  102,  68,  69, 103,  104,  68,  69, 105,
    /* 52 to 55 */106,  70,  71, 107,  108,  70,  71, 109,  110,  70,  71, 111,  112,  72,  73, 113,
    /* 56 to 59 */114,  72,  73, 115,  116,  72,  73, 117,  118,  74,  75, 119,  120,  74,  75, 121,
    /* 60 to 63 */122,  74,  75, 123,  124,  76,  77, 125,  124,  76,  77, 125,  124, 126, 127, 125,
];

/// The number in a row and a column of rangeTabLps.
#[inline(always)]
fn width(p_state_idx: u8, q_range_idx: u8) -> u8
    requires state { p_state_idx < 64 }
    requires quarter { q_range_idx < 4 }
    ensures { result ≡ slice_index_or (slice_index_or rangeTabLps p_state_idx []) q_range_idx 0 }
{
    RANGE_TAB_LPS[usize::from(p_state_idx)][usize::from(q_range_idx)]
}

/// rangeTabLps (9.3.4.3.2.1): the width of the less probable part, in a state and a quarter of the
/// range. It is 2 to 240.
#[inline(always)]
pub fn range_tab_lps(p_state_idx: u8, q_range_idx: u8) -> u8
    requires state { p_state_idx < 64 }
    requires quarter { q_range_idx < 4 }
    ensures value { result ≡
        slice_index_or (slice_index_or rangeTabLps p_state_idx []) q_range_idx 0 }
    ensures least { 2 ≤ result }
    ensures most { result ≤ 240 }
{
    width(p_state_idx, q_range_idx)
}

/// transIdxLps (9.3.4.3.2.2): the state after the less probable value. It is 0 to 63.
#[inline(always)]
pub fn trans_idx_lps(p_state_idx: u8) -> u8
    requires { p_state_idx < 64 }
    ensures { result ≡ slice_index_or transIdxLps p_state_idx 63 }
{
    TRANS_IDX_LPS[usize::from(p_state_idx)]
}

/// The table of the states after a bin.
#[inline(always)]
fn next_states() -> &'static [u8; 256]
    ensures { HasNextStates result.now }
{
    &NEXT_STATES
}

/// The state after a bin of this value (9.3.4.3.2.2), where a state is 2 * pStateIdx + valMps, of
/// which the lowest seven bits are taken.
#[inline(always)]
pub fn next_state(state: u8, value: bool) -> u8
    ensures { result ≡ state_after (state % 128) value }
{
    next_states()[usize::from(state % 128) * 2 + usize::from(value)]
}

/// Each entry of the two tables follows from the probability that its state stands for, but for
/// some that are one off, which are named.
pub fn arithmetic_tables_laws()
    ensures factor { FactorIsNearest }
    ensures widths { WidthsFollowTheRule }
    ensures last_widths { LastWidthsAreTwo }
    ensures successors { SuccessorsFollowTheRule }
    ensures last_state { LastStateStays }
{}
