//! The levels of a transform block (`residual_coding`, 7.3.8.11), read bin by bin from the
//! arithmetic decoder, sentence by sentence of the standard, with no table or rule of the crate
//! that writes them. No contract says yet what is read: tests read back what was written.

ghost use Rattle.std.specs.Prelude.{◌≤◌, ◌<◌};

use crate::alternatives::{Element, Tally};
use crate::asking::{ask, ask_with, power, read_exp_golomb, read_fixed};
use crate::reader::{BinReader, Question};
use hv_plan::Scan;
use hv_tables::{Ctx, CtxTable};

/// What is known of a transform block before its levels: `scanIdx`, the binary logarithm of its
/// side (`log2TrafoSize`), and whether its component is luma.
#[derive(Clone, Copy)]
struct Shape {
    scan: Scan,
    log2: u8,
    luma: bool,
    ghost least: { 2 ≤ log2 },
    ghost most: { log2 ≤ 5 },
}

/// A column and a row: of a sub-block in its block, or of a position in its sub-block.
#[derive(Clone, Copy)]
struct Spot {
    x: u8,
    y: u8,
    ghost column: { x < 8 },
    ghost row: { y < 8 },
}

/// A sub-block: its number in the scan, its spot, and `coded_sub_block_flag` of the sub-blocks to
/// the right and below.
#[derive(Clone, Copy)]
struct SubBlock {
    number: u8,
    spot: Spot,
    right: bool,
    below: bool,
}

/// What was read of a block: its levels by rows of its side, `coded_sub_block_flag` by rows of
/// eight, and whether the last sub-block with greater1 flags had one that was 1.
#[derive(Drop)]
struct Reading {
    levels: [i16; 1024],
    coded: [bool; 64],
    above_1: Option<bool>,
}

/// Which of the 16 positions of a sub-block are significant, by their numbers in the scan.
type Significant = [bool; 16];

/// The greater flags of a sub-block: the base of each magnitude, by its number in the scan, and
/// where the first greater1 flag that is 1 stands.
#[derive(Clone, Copy)]
struct Bases {
    base: [u32; 16],
    first: Option<u8>,
}

/// The levels of a transform block of side 2^log2, 4 to 32, by rows, each from left to right, and
/// zeros behind them (`residual_coding`, 7.3.8.11). None for another side, where the decoder gives
/// no answer, and where a level would leave 16 bits; the decoder is then amid the block. What came
/// is noted in the tally. That it reads what is written is tested, not proved.
pub fn read_levels(
    reader: &mut BinReader<'_>,
    tally: &mut Tally,
    scan: Scan,
    log2: u8,
    luma: bool,
) -> Option<[i16; 1024]> {
    if log2 < 2 || 5 < log2 {
        return None;
    }
    let shape = Shape { scan, log2, luma };
    tally.note(Element::Block, log2 - 2 + if luma { 0 } else { 4 });
    tally.note(Element::Scan, scan_index(scan));
    let (last_x, last_y) = read_last(reader, tally, shape)?;
    let last = number_of(scan, side_in_sub_blocks(log2), last_x / 4, last_y / 4);
    let last_position = number_of(scan, 4, last_x % 4, last_y % 4);
    let mut reading = Reading {
        levels: [0; 1024],
        coded: [false; 64],
        above_1: None,
    };
    read_sub_block(
        reader,
        tally,
        shape,
        &mut reading,
        last,
        Some(last_position),
    )?;
    for number in (0..last).rev() {
        read_sub_block(reader, tally, shape, &mut reading, number, None)?;
    }
    Some(reading.levels)
}

/// `scanIdx`
fn scan_index(scan: Scan) -> u8 {
    match scan {
        Scan::Diagonal => 0,
        Scan::Horizontal => 1,
        Scan::Vertical => 2,
    }
}

/// How many sub-blocks stand in a row of a block.
fn side_in_sub_blocks(log2: u8) -> u8
    ensures least { 1 ≤ result }
    ensures most { result ≤ 8 }
{
    match log2 {
        2 => 1,
        3 => 2,
        4 => 4,
        _ => 8,
    }
}

/// The spot of a number in the up-right diagonal scan of a square (6.5.3): along each diagonal from
/// the lower left to the upper right.
fn diagonal(side: u8, number: u8) -> Spot
    requires { side ≤ 8 }
{
    let mut left = number;
    for sum in 0..15u8 {
        for x in 0..side {
            if x <= sum && sum - x < side {
                if left == 0 {
                    return Spot { x, y: sum - x };
                }
                left = left.saturating_sub(1);
            }
        }
    }
    Spot { x: 0, y: 0 }
}

/// The spot of a number in a scan of a square (6.5.3 to 6.5.5).
fn spot_of(scan: Scan, side: u8, number: u8) -> Spot
    requires least { 1 ≤ side }
    requires most { side ≤ 8 }
{
    match scan {
        Scan::Diagonal => diagonal(side, number),
        Scan::Horizontal => Spot {
            x: number % side,
            y: number / side % side,
        },
        Scan::Vertical => Spot {
            x: number / side % side,
            y: number % side,
        },
    }
}

/// The number of a spot in a scan of a square.
fn number_of(scan: Scan, side: u8, x: u8, y: u8) -> u8
    requires least { 1 ≤ side }
    requires most { side ≤ 8 }
{
    for number in 0..64u8 {
        let spot = spot_of(scan, side, number);
        if spot.x == x && spot.y == y {
            return number;
        }
    }
    0
}

/// The column and the row of the last significant position.
fn read_last(reader: &mut BinReader<'_>, tally: &mut Tally, shape: Shape) -> Option<(u8, u8)> {
    let prefix_x = read_prefix(reader, tally, shape, CtxTable::LastX)?;
    let prefix_y = read_prefix(reader, tally, shape, CtxTable::LastY)?;
    let x = read_coordinate(reader, tally, prefix_x)?;
    let y = read_coordinate(reader, tally, prefix_y)?;
    match shape.scan {
        Scan::Vertical => Some((y, x)),
        _ => Some((x, y)),
    }
}

/// last_sig_coeff_x_prefix or last_sig_coeff_y_prefix: ones and a closing 0, which the greatest
/// value lacks (9.3.3.2). The context's number is that of 9.3.4.2.3.
fn read_prefix(
    reader: &mut BinReader<'_>,
    tally: &mut Tally,
    shape: Shape,
    table: CtxTable,
) -> Option<u8> {
    let most = 2 * shape.log2 - 1;
    let (offset, shift) = if shape.luma {
        (
            3 * (shape.log2 - 2) + (shape.log2 - 1) / 4,
            (shape.log2 + 1) / 4,
        )
    } else {
        (15, shape.log2 - 2)
    };
    for bin in 0..most {
        let index = offset + bin.wrapping_shr(u32::from(shift));
        if !ask_with(reader, tally, table, index)? {
            tally.note(Element::LastPrefix, bin);
            return Some(bin);
        }
    }
    tally.note(Element::LastPrefix, most);
    Some(most)
}

/// A coordinate of the last position, from its prefix and the suffix that is read (7.4.9.11).
fn read_coordinate(reader: &mut BinReader<'_>, tally: &mut Tally, prefix: u8) -> Option<u8> {
    if prefix <= 3 {
        tally.note(Element::LastSuffix, 0);
        return Some(prefix);
    }
    let length = prefix / 2 - 1;
    tally.note(Element::LastSuffix, length);
    let suffix = read_fixed(reader, tally, length)?;
    let start = power(length).saturating_mul(u32::from(2 + prefix % 2));
    Some((start.saturating_add(suffix) % 32) as u8)
}

/// coded_sub_block_flag of a sub-block, or false outside of the block.
fn is_coded(reading: &Reading, x: u8, y: u8) -> bool {
    x < 8 && y < 8 && reading.coded[usize::from(8 * y + x)]
}

/// A sub-block and its levels. `last` is the number of the last significant position, in the
/// sub-block where that stands.
fn read_sub_block(
    reader: &mut BinReader<'_>,
    tally: &mut Tally,
    shape: Shape,
    reading: &mut Reading,
    number: u8,
    last: Option<u8>,
) -> Option<()> {
    let spot = spot_of(shape.scan, side_in_sub_blocks(shape.log2), number);
    let sub_block = SubBlock {
        number,
        spot,
        right: is_coded(reading, spot.x + 1, spot.y),
        below: is_coded(reading, spot.x, spot.y + 1),
    };
    let is_inferred = number == 0 || last.is_some();
    if !read_coded_flag(reader, tally, shape, sub_block, is_inferred)? {
        return Some(());
    }
    reading.coded[usize::from(8 * spot.y + spot.x)] = true;
    let significant = read_significance(reader, tally, shape, sub_block, last, !is_inferred)?;
    let set = greater1_set(shape, number, reading.above_1);
    let bases = read_greater(reader, tally, shape, set, &significant)?;
    if significant.contains(&true) {
        reading.above_1 = Some(bases.first.is_some());
    }
    let signs = read_signs(reader, tally, &significant)?;
    let magnitudes = read_magnitudes(reader, tally, &significant, bases)?;
    for n in 0..16u8 {
        let position = spot_of(shape.scan, 4, n);
        let level = level_of(magnitudes[usize::from(n)], signs[usize::from(n)])?;
        put_level(reading, shape, spot, position, level);
    }
    Some(())
}

/// Puts a level at a position of a sub-block.
fn put_level(reading: &mut Reading, shape: Shape, sub_block: Spot, position: Spot, level: i16) {
    let x = 4 * usize::from(sub_block.x) + usize::from(position.x);
    let y = 4 * usize::from(sub_block.y) + usize::from(position.y);
    let at = y * 4 * usize::from(side_in_sub_blocks(shape.log2)) + x;
    if at < 1024 {
        reading.levels[at] = level;
    }
}

/// A level of this magnitude and sign; none where it leaves 16 bits.
fn level_of(magnitude: u32, is_negative: bool) -> Option<i16> {
    if magnitude > 32_768 {
        return None;
    }
    if is_negative {
        return i16::try_from(0 - i64::from(magnitude)).ok();
    }
    i16::try_from(i64::from(magnitude)).ok()
}

/// coded_sub_block_flag, which is 1 where it is inferred (7.4.9.11). The context's number is that
/// of 9.3.4.2.4.
fn read_coded_flag(
    reader: &mut BinReader<'_>,
    tally: &mut Tally,
    shape: Shape,
    sub_block: SubBlock,
    is_inferred: bool,
) -> Option<bool> {
    if is_inferred {
        tally.note(Element::CodedSubBlock, 2);
        return Some(true);
    }
    let context = u8::from(sub_block.right || sub_block.below);
    tally.note(Element::CodedSubBlockContext, context);
    let index = if shape.luma { context } else { 2 + context };
    let flag = ask_with(reader, tally, CtxTable::CodedSub, index)?;
    tally.note(Element::CodedSubBlock, u8::from(flag));
    Some(flag)
}

/// sig_coeff_flag of each position. Those above the last position are 0, the last is 1; position 0
/// is 1 where coded_sub_block_flag was coded and no other is significant (7.4.9.11).
fn read_significance(
    reader: &mut BinReader<'_>,
    tally: &mut Tally,
    shape: Shape,
    sub_block: SubBlock,
    last: Option<u8>,
    is_flag_coded: bool,
) -> Option<Significant> {
    let mut significant = [false; 16];
    let end = match last {
        None => 16,
        Some(position) => {
            let end = position % 16;
            significant[usize::from(end)] = true;
            tally.note(Element::Significance, 3);
            end
        }
    };
    for n in (0..end).rev() {
        if n == 0 && is_flag_coded && !significant.contains(&true) {
            tally.note(Element::Significance, 2);
            significant[0] = true;
        } else {
            let position = spot_of(shape.scan, 4, n);
            let index = significance_context(tally, shape, sub_block, position);
            let flag = ask_with(reader, tally, CtxTable::Sig, index)?;
            tally.note(Element::Significance, u8::from(flag));
            significant[usize::from(n)] = flag;
        }
    }
    Some(significant)
}

/// `sigCtx` of a 4x4 block, by rows (9.3.4.2.5).
const IN_4X4: [u8; 15] = [0, 1, 4, 5, 2, 3, 4, 5, 6, 6, 8, 8, 7, 7, 8];

/// The number of the context of sig_coeff_flag (9.3.4.2.5).
fn significance_context(
    tally: &mut Tally,
    shape: Shape,
    sub_block: SubBlock,
    position: Spot,
) -> u8 {
    let context = if shape.log2 == 2 {
        tally.note(Element::SignificanceContext, 0);
        let at = 4 * usize::from(position.y) + usize::from(position.x);
        IN_4X4[at.min(14)].min(8)
    } else if sub_block.number == 0 && position.x == 0 && position.y == 0 {
        tally.note(Element::SignificanceContext, 1);
        0
    } else {
        by_neighbours(tally, sub_block, position) + addition(shape, sub_block.number)
    };
    if shape.luma {
        return context;
    }
    27 + context
}

/// `sigCtx` by the flags of the sub-blocks to the right and below (9.3.4.2.5).
fn by_neighbours(tally: &mut Tally, sub_block: SubBlock, position: Spot) -> u8
    ensures { result ≤ 2 }
{
    let (case, context) = match (sub_block.right, sub_block.below) {
        (false, false) => (2, falling(position.x + position.y, 1, 3)),
        (true, false) => (3, falling(position.y, 1, 2)),
        (false, true) => (4, falling(position.x, 1, 2)),
        (true, true) => (5, 2),
    };
    tally.note(Element::SignificanceContext, case);
    context
}

/// 2 below the first bound, 1 below the second, else 0.
fn falling(value: u8, first: u8, second: u8) -> u8
    ensures { result ≤ 2 }
{
    if value < first {
        2
    } else if value < second {
        1
    } else {
        0
    }
}

/// What is added to `sigCtx` that is taken from the sub-blocks' flags (9.3.4.2.5).
fn addition(shape: Shape, number: u8) -> u8
    ensures { result ≤ 24 }
{
    if !shape.luma {
        return if shape.log2 == 3 { 9 } else { 12 };
    }
    let outside = if number > 0 { 3 } else { 0 };
    if shape.log2 > 3 {
        return outside + 21;
    }
    match shape.scan {
        Scan::Diagonal => outside + 9,
        _ => outside + 15,
    }
}

/// `ctxSet`: 0 in the first sub-block and in chroma, else 2; and 1 more where in the last sub-block
/// before that had greater1 flags one of them was 1 (9.3.4.2.6).
fn greater1_set(shape: Shape, number: u8, above_1: Option<bool>) -> u8
    ensures { result ≤ 3 }
{
    let first = if number == 0 || !shape.luma { 0 } else { 2 };
    match above_1 {
        Some(true) => first + 1,
        _ => first,
    }
}

/// coeff_abs_level_greater1_flag of the first eight significant positions, and
/// coeff_abs_level_greater2_flag of the first of them whose greater1 flag is 1 (7.3.8.11).
fn read_greater(
    reader: &mut BinReader<'_>,
    tally: &mut Tally,
    shape: Shape,
    set: u8,
    significant: &Significant,
) -> Option<Bases>
    requires { set ≤ 3 }
{
    let mut bases = read_greater1(reader, tally, shape, set, significant)?;
    match bases.first {
        None => tally.note(Element::Greater2, 2),
        Some(n) => {
            let index = if shape.luma { set } else { 4 + set };
            let flag = ask_with(reader, tally, CtxTable::Greater2, index)?;
            tally.note(Element::Greater2, u8::from(flag));
            if flag {
                bases.base[usize::from(n % 16)] = 3;
            }
        }
    }
    Some(bases)
}

/// coeff_abs_level_greater1_flag of the first eight significant positions. The context's number is
/// that of 9.3.4.2.6.
fn read_greater1(
    reader: &mut BinReader<'_>,
    tally: &mut Tally,
    shape: Shape,
    set: u8,
    significant: &Significant,
) -> Option<Bases>
    requires { set ≤ 3 }
{
    let element = if shape.luma {
        Element::Greater1Luma
    } else {
        Element::Greater1Chroma
    };
    let mut bases = Bases {
        base: [0; 16],
        first: None,
    };
    let mut count = 0u8;
    for n in (0..16u8).rev() {
        if significant[usize::from(n)] {
            bases.base[usize::from(n)] = 1;
            if count < 8 {
                let place = if bases.first.is_some() {
                    0
                } else {
                    (1 + count).min(3)
                };
                tally.note(element, set);
                tally.note(Element::Greater1Context, place);
                let index = 4 * set + place + if shape.luma { 0 } else { 16 };
                let flag = ask_with(reader, tally, CtxTable::Greater1, index)?;
                tally.note(Element::Greater1, u8::from(flag));
                if flag {
                    bases.base[usize::from(n)] = 2;
                    bases.first = Some(bases.first.unwrap_or(n));
                }
                count += 1;
            } else {
                tally.note(Element::Greater1, 2);
            }
        }
    }
    Some(bases)
}

/// coeff_sign_flag of each significant position.
fn read_signs(
    reader: &mut BinReader<'_>,
    tally: &mut Tally,
    significant: &Significant,
) -> Option<[bool; 16]> {
    let mut signs = [false; 16];
    for n in (0..16u8).rev() {
        if significant[usize::from(n)] {
            let sign = ask(reader, tally, Question::Bypass)?;
            tally.note(Element::Sign, u8::from(sign));
            signs[usize::from(n)] = sign;
        }
    }
    Some(signs)
}

/// The magnitudes: the bases, and coeff_abs_level_remaining where a base is the greatest that the
/// flags can say (7.3.8.11). cRiceParam rises as 9.3.3.11 says.
fn read_magnitudes(
    reader: &mut BinReader<'_>,
    tally: &mut Tally,
    significant: &Significant,
    bases: Bases,
) -> Option<[u32; 16]> {
    let mut magnitudes = bases.base;
    let mut rice = 0u8;
    let mut count = 0u8;
    for n in (0..16u8).rev() {
        if significant[usize::from(n)] {
            let base = bases.base[usize::from(n)];
            if base == greatest_base(count, bases.first == Some(n)) {
                let magnitude = base.saturating_add(read_remaining(reader, tally, rice)?);
                magnitudes[usize::from(n)] = magnitude;
                if magnitude > power(rice).saturating_mul(3) {
                    rice = rice.saturating_add(1).min(4);
                }
            } else {
                tally.note(Element::Remaining, 5);
            }
            count = count.saturating_add(1);
        }
    }
    Some(magnitudes)
}

/// The greatest base that the flags of a significant position can say, after so many others.
fn greatest_base(count: u8, has_greater2: bool) -> u32 {
    if count >= 8 {
        1
    } else if has_greater2 {
        3
    } else {
        2
    }
}

/// coeff_abs_level_remaining (9.3.3.11). None after fourteen ones of an escape: a level would leave
/// 16 bits.
fn read_remaining(reader: &mut BinReader<'_>, tally: &mut Tally, rice: u8) -> Option<u32> {
    tally.note(Element::Rice, rice);
    for prefix in 0..4u8 {
        if !ask(reader, tally, Question::Bypass)? {
            tally.note(Element::Remaining, prefix);
            let suffix = read_fixed(reader, tally, rice)?;
            let start = power(rice).saturating_mul(u32::from(prefix));
            return Some(start.saturating_add(suffix));
        }
    }
    tally.note(Element::Remaining, 4);
    let (ones, above) = read_exp_golomb(reader, tally, rice.saturating_add(1), 13)?;
    tally.note(Element::Escape, ones);
    Some(power(rice).saturating_mul(4).saturating_add(above))
}
