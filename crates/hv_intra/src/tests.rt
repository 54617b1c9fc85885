//! Blocks from hand calculation.
ghost use Rattle.std.specs.Prelude.{◌≡◌, ◌≤◌, length};

use super::*;

/// The neighbours of a block of 4x4, each side from the corner on.
fn line_of_4(left: &[u8; 8], corner: u8, above: &[u8; 8]) -> Line
    ensures { length result ≡ 17 }
{
    let mut known = [None; 17];
    for i in 0..8usize {
        known[7 - i] = Some(left[i]);
        known[9 + i] = Some(above[i]);
    }
    known[8] = Some(corner);
    Line::of(&known)
}

/// The neighbours of a block of 8x8, each side from the corner on.
fn line_of_8(left: &[u8; 16], corner: u8, above: &[u8; 16]) -> Line
    ensures { length result ≡ 33 }
{
    let mut known = [None; 33];
    for i in 0..16usize {
        known[15 - i] = Some(left[i]);
        known[17 + i] = Some(above[i]);
    }
    known[16] = Some(corner);
    Line::of(&known)
}

/// The neighbours of a block of 16x16: 0, 2, 4 and so on to 128, which filtering leaves as they
/// are. The corner is 64.
fn rising_line() -> Line
    ensures { length result ≡ 65 }
{
    let mut known = [None; 65];
    for i in 0..65u8 {
        known[usize::from(i)] = Some(2 * i);
    }
    Line::of(&known)
}

const NONE: [u8; 8] = [0; 8];

/// So many times the first.
const MULTIPLES: [u8; 8] = [16, 32, 48, 64, 80, 96, 112, 128];

fn predicted_4(line: &Line, mode: u8, luma: bool) -> [u8; 16]
    requires mode { mode ≤ 34 }
    requires line { length line.now ≡ 17 }
{
    let mut block = [9; 16];
    predict_intra(line, 2, mode, luma, &mut block);
    block
}

fn predicted_8(line: &Line, mode: u8, luma: bool) -> [u8; 64]
    requires mode { mode ≤ 34 }
    requires line { length line.now ≡ 33 }
{
    let mut block = [9; 64];
    predict_intra(line, 3, mode, luma, &mut block);
    block
}

fn predicted_16(line: &Line, mode: u8, luma: bool) -> [u8; 256]
    requires mode { mode ≤ 34 }
    requires line { length line.now ≡ 65 }
{
    let mut block = [9; 256];
    predict_intra(line, 4, mode, luma, &mut block);
    block
}

fn predicted_32(line: &Line, mode: u8, luma: bool) -> [u8; 1024]
    requires mode { mode ≤ 34 }
    requires line { length line.now ≡ 129 }
{
    let mut block = [9; 1024];
    predict_intra(line, 5, mode, luma, &mut block);
    block
}

/// The corners of a block of 16x16: the two above, then the two below.
fn corners(block: &[u8; 256]) -> [u8; 4] {
    [block[0], block[15], block[240], block[255]]
}

#[test]
fn nothing_available(rt: HostRuntime) {
    let line_4 = Line::of(&[None; 17]);
    let line_32 = Line::of(&[None; 129]);
    for mode in 0..35u8 {
        assert_eq!(rt;
            predicted_4(&line_4, mode, true).as_slice(),
            [128u8; 16].as_slice()
        );
        let mut block = [0; 1024];
        predict_intra(&line_32, 5, mode, false, &mut block);
        assert_eq!(rt; block.as_slice(), [128u8; 1024].as_slice());
    }
}

/// The third and the thirteenth neighbour are there.
#[test]
fn few_available(rt: HostRuntime) {
    let mut known = [None; 17];
    known[2] = Some(7);
    known[12] = Some(9);
    let line = Line::of(&known);
    let right = [7u8, 7, 9, 9, 7, 9, 9, 9, 9, 9, 9, 9, 9, 9, 9, 9];
    assert_eq!(rt; predicted_4(&line, 34, true).as_slice(), right.as_slice());
    assert_eq!(rt;
        predicted_4(&line, 2, true).as_slice(),
        [7u8; 16].as_slice()
    );
}

#[test]
fn planar(rt: HostRuntime) {
    let line = line_of_4(&[0, 0, 0, 0, 40, 0, 0, 0], 0, &[0, 0, 0, 0, 80, 0, 0, 0]);
    let right = [
        15u8, 25, 35, 45, 20, 30, 40, 50, 25, 35, 45, 55, 30, 40, 50, 60,
    ];
    assert_eq!(rt; predicted_4(&line, 0, true).as_slice(), right.as_slice());
}

#[test]
fn dc(rt: HostRuntime) {
    let line = line_of_8(&[60; 16], 0, &[100; 16]);
    let mut edged = [80u8; 64];
    for i in 1..8usize {
        edged[i] = 85;
        edged[8 * i] = 75;
    }
    assert_eq!(rt; predicted_8(&line, 1, true).as_slice(), edged.as_slice());
    assert_eq!(rt;
        predicted_8(&line, 1, false).as_slice(),
        [80u8; 64].as_slice()
    );
}

#[test]
fn dc_of_32(rt: HostRuntime) {
    let mut known = [Some(60u8); 129];
    for i in 65..129usize {
        known[i] = Some(100);
    }
    let mut block = [0; 1024];
    predict_intra(&Line::of(&known), 5, 1, true, &mut block);
    assert_eq!(rt; block.as_slice(), [80u8; 1024].as_slice());
}

/// The edge falls by half of a fall of 5, rounded down, and stops at 0.
#[test]
fn straight_modes(rt: HostRuntime) {
    let main = [10, 20, 30, 40, 0, 0, 0, 0];
    let other = [52, 54, 45, 0, 0, 0, 0, 0];
    let vertical = [
        11u8, 20, 30, 40, 12, 20, 30, 40, 7, 20, 30, 40, 0, 20, 30, 40,
    ];
    let horizontal = [
        11u8, 12, 7, 0, 20, 20, 20, 20, 30, 30, 30, 30, 40, 40, 40, 40,
    ];
    let from_above = line_of_4(&other, 50, &main);
    let from_left = line_of_4(&main, 50, &other);
    assert_eq!(rt;
        predicted_4(&from_above, 26, true).as_slice(),
        vertical.as_slice()
    );
    assert_eq!(rt;
        predicted_4(&from_left, 10, true).as_slice(),
        horizontal.as_slice()
    );
    let vertical = [
        10u8, 20, 30, 40, 10, 20, 30, 40, 10, 20, 30, 40, 10, 20, 30, 40,
    ];
    let horizontal = [
        10u8, 10, 10, 10, 20, 20, 20, 20, 30, 30, 30, 30, 40, 40, 40, 40,
    ];
    assert_eq!(rt;
        predicted_4(&from_above, 26, false).as_slice(),
        vertical.as_slice()
    );
    assert_eq!(rt;
        predicted_4(&from_left, 10, false).as_slice(),
        horizontal.as_slice()
    );
}

#[test]
fn diagonals(rt: HostRuntime) {
    let rising = [
        32u8, 48, 64, 80, 48, 64, 80, 96, 64, 80, 96, 112, 80, 96, 112, 128,
    ];
    let from_left = line_of_4(&MULTIPLES, 0, &NONE);
    let from_above = line_of_4(&NONE, 0, &MULTIPLES);
    assert_eq!(rt;
        predicted_4(&from_left, 2, true).as_slice(),
        rising.as_slice()
    );
    assert_eq!(rt;
        predicted_4(&from_above, 34, true).as_slice(),
        rising.as_slice()
    );
    let falling = [5u8, 16, 32, 48, 1, 5, 16, 32, 2, 1, 5, 16, 3, 2, 1, 5];
    let both = line_of_4(&[1, 2, 3, 4, 5, 6, 7, 8], 5, &MULTIPLES);
    assert_eq!(rt; predicted_4(&both, 18, true).as_slice(), falling.as_slice());
}

/// A fraction of so many 32nds of 16, rounded.
#[test]
fn fractions(rt: HostRuntime) {
    let from_above = line_of_4(&NONE, 0, &MULTIPLES);
    let from_left = line_of_4(&MULTIPLES, 0, &NONE);
    let further = [
        17u8, 33, 49, 65, 18, 34, 50, 66, 19, 35, 51, 67, 20, 36, 52, 68,
    ];
    let back = [
        15u8, 31, 47, 63, 14, 30, 46, 62, 13, 29, 45, 61, 12, 28, 44, 60,
    ];
    assert_eq!(rt;
        predicted_4(&from_above, 27, true).as_slice(),
        further.as_slice()
    );
    assert_eq!(rt;
        predicted_4(&from_above, 25, true).as_slice(),
        back.as_slice()
    );
    let turned = [
        15u8, 14, 13, 12, 31, 30, 29, 28, 47, 46, 45, 44, 63, 62, 61, 60,
    ];
    assert_eq!(rt;
        predicted_4(&from_left, 11, true).as_slice(),
        turned.as_slice()
    );
}

/// Before the corner stand the fourth and the seventh neighbour at the left.
#[test]
fn projected_neighbours(rt: HostRuntime) {
    let mut left = [0; 16];
    left[3] = 128;
    left[6] = 64;
    let block = predicted_8(&line_of_8(&left, 0, &[0; 16]), 23, true);
    assert_eq!(rt; block[56], 112);
}

/// In luma a neighbour is spread over three in mode 2 and not in mode 3.
#[test]
fn smoothing(rt: HostRuntime) {
    let mut left = [0; 16];
    left[4] = 64;
    let line = line_of_8(&left, 0, &[0; 16]);
    let smooth = predicted_8(&line, 2, true);
    assert_eq!(rt; &smooth[..8], [0u8, 0, 16, 32, 16, 0, 0, 0].as_slice());
    let plain = predicted_8(&line, 2, false);
    assert_eq!(rt; &plain[..8], [0u8, 0, 0, 64, 0, 0, 0, 0].as_slice());
    assert_eq!(rt;
        predicted_8(&line, 3, true).as_slice(),
        predicted_8(&line, 3, false).as_slice()
    );
}

/// The sample in column x of row y is (2064 + 66x - 66y) / 32.
#[test]
fn planar_of_16(rt: HostRuntime) {
    let block = predicted_16(&rising_line(), 0, true);
    assert_eq!(rt; corners(&block).as_slice(), [64u8, 95, 33, 64].as_slice());
}

/// The mean is 64.5. The upper row is (260 + 2x) / 4, the first column (256 - 2y) / 4.
#[test]
fn dc_of_16(rt: HostRuntime) {
    let block = predicted_16(&rising_line(), 1, true);
    assert_eq!(rt; corners(&block).as_slice(), [64u8, 72, 56, 64].as_slice());
    assert_eq!(rt; block[1], 65);
    assert_eq!(rt; block[16], 63);
    assert_eq!(rt; block[17], 64);
}

/// The columns are 66 + 2x; the first falls by half of 2 in each row, and not in chroma.
#[test]
fn vertical_of_16(rt: HostRuntime) {
    let block = predicted_16(&rising_line(), 26, true);
    assert_eq!(rt; corners(&block).as_slice(), [65u8, 96, 50, 96].as_slice());
    let block = predicted_16(&rising_line(), 26, false);
    assert_eq!(rt; corners(&block).as_slice(), [66u8, 96, 66, 96].as_slice());
}

/// A row is 13 32nds of 2 further than the one above it, or a column than the one beside it.
#[test]
fn fractions_of_16(rt: HostRuntime) {
    let from_above = predicted_16(&rising_line(), 30, true);
    assert_eq!(rt;
        corners(&from_above).as_slice(),
        [67u8, 97, 79, 109].as_slice()
    );
    let from_left = predicted_16(&rising_line(), 6, true);
    assert_eq!(rt;
        corners(&from_left).as_slice(),
        [61u8, 49, 31, 19].as_slice()
    );
}

/// The 33rd neighbour above is 64, in luma 32 with 16 at each side. The first row is 26 32nds of
/// the way from one neighbour to the next, the last one 26 whole neighbours further.
#[test]
fn angle_at_32(rt: HostRuntime) {
    let mut known = [Some(0u8); 129];
    known[97] = Some(64);
    let line = Line::of(&known);
    let luma = predicted_32(&line, 33, true);
    assert_eq!(rt; &luma[29..32], [0u8, 13, 29].as_slice());
    assert_eq!(rt; &luma[996..1001], [0u8, 16, 32, 16, 0].as_slice());
    let chroma = predicted_32(&line, 33, false);
    assert_eq!(rt; &chroma[29..32], [0u8, 0, 52].as_slice());
    assert_eq!(rt; &chroma[996..1001], [0u8, 0, 64, 0, 0].as_slice());
}
