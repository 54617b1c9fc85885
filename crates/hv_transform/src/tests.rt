//! Worked values.
ghost use Rattle.std.specs.Prelude.{◌≡◌, ◌^◌, ◌≤◌};

use super::*;

/// What stands at a place of the residual of some levels.
fn residual_at<const AREA: usize>(levels: &[i16; AREA], log2: u8, qp: u8, place: usize) -> i16
    requires least { 2 ≤ log2 }
    requires greatest { log2 ≤ 5 }
    requires area { AREA ≡ 4 ^ log2 }
    requires most { AREA ≤ 1024 }
    requires quantiser { qp ≤ 51 }
{
    let mut coefficients = [7; AREA];
    let mut residual = [7; AREA];
    scale(levels, log2, qp, &mut coefficients);
    inverse(&coefficients, log2, &mut residual);
    if place < AREA {
        residual[place]
    } else {
        i16::MAX
    }
}

/// The same, where one level alone isn't 0, and the quantiser is 4.
fn of_one_level<const AREA: usize>(log2: u8, from: usize, level: i16, place: usize) -> i16
    requires least { 2 ≤ log2 }
    requires greatest { log2 ≤ 5 }
    requires area { AREA ≡ 4 ^ log2 }
    requires most { AREA ≤ 1024 }
{
    let mut levels = [0; AREA];
    if from < AREA {
        levels[from] = level;
    }
    residual_at(&levels, log2, 4, place)
}

/// The same, of 2^log2 columns.
fn at_side(log2: u8, from: usize, level: i16, place: usize) -> i16 {
    match log2 {
        2 => of_one_level::<16>(2, from, level, place),
        3 => of_one_level::<64>(3, from, level, place),
        4 => of_one_level::<256>(4, from, level, place),
        _ => of_one_level::<1024>(5, from, level, place),
    }
}

/// The first coefficient alone, 640 at each side, is a 128th of it everywhere. Of the second alone,
/// 512, each row is a 16th of the second of the matrix. The tenth of four columns, 384, is the
/// second of the rows by the third of the columns.
#[rattlefmt::skip]
const ONE_LEVEL: [(u8, usize, i16, usize, i16); 31] = [
    // side, place and number of the level, and place and number of the residual
    (2, 0,  20,   0,  5), (2, 0,  20,  15,  5),
    (3, 0,  40,   0,  5), (3, 0,  40,  63,  5),
    (4, 0,  80,   0,  5), (4, 0,  80, 255,  5),
    (5, 0, 160,   0,  5), (5, 0, 160, 1023, 5),
    (2, 1,  16,   0,  5), (2, 1,  16,   1,  2), (2, 1,  16,  14, -2), (2, 1,  16,  15, -5),
    (3, 1,  32,   0,  6), (3, 1,  32,   3,  1), (3, 1,  32,  60, -1), (3, 1,  32,  63, -6),
    (4, 1,  64,   0,  6), (4, 1,  64,   7,  1), (4, 1,  64,   8, -1), (4, 1,  64,  15, -6),
    (4, 1,  64, 240,  6),
    (5, 1, 128,   0,  6), (5, 1, 128,  14,  1), (5, 1, 128,  15,  0), (5, 1, 128,  31, -6),
    (5, 1, 128, 992,  6),
    (2, 9,  12,   0,  4), (2, 9,  12,   1,  2), (2, 9,  12,   4, -4), (2, 9,  12,  11,  4),
    (2, 9,  12,  15, -4),
];

#[test]
fn one_level(rt: HostRuntime) {
    for (log2, from, level, place, residual) in ONE_LEVEL {
        assert_eq!(rt;
            at_side(log2, from, level, place),
            residual,
            "{log2} {from} {place}"
        );
    }
}

/// The sums of the columns are clipped, and those of the rows have 16 bits by themselves.
#[test]
fn extreme_coefficients(rt: HostRuntime) {
    assert_eq!(rt; residual_at(&[32767; 16], 2, 51, 0), 1976);
    assert_eq!(rt; residual_at(&[32767; 16], 2, 51, 1), -376);
    assert_eq!(rt; residual_at(&[-32768; 64], 3, 51, 0), -3832);
    assert_eq!(rt; residual_at(&[-32768; 64], 3, 51, 1), 1032);
    assert_eq!(rt; residual_at(&[32767; 256], 4, 51, 1), -2272);
    assert_eq!(rt; residual_at(&[32767; 1024], 5, 51, 0), 14896);
    assert_eq!(rt; residual_at(&[-32768; 1024], 5, 51, 1), 4736);
}

#[test]
fn extreme_levels(rt: HostRuntime) {
    let mut scaled = [0i32; 4];
    scale(&[32767, -32768, 1, -1], 2, 51, &mut scaled);
    assert_eq!(rt; scaled.as_slice(), [32767, -32768, 7296, -7296].as_slice());
}
