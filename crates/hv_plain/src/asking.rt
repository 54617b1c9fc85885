//! Bins that are asked for and counted, and the numbers that bypass bins make (9.3.3).

use crate::alternatives::Tally;
use crate::reader::{BinReader, Question};
use hv_tables::{Ctx, CtxTable};

/// A bin, which is counted. None where the decoder gives no answer.
pub fn ask(reader: &mut BinReader<'_>, tally: &mut Tally, question: Question) -> Option<bool> {
    tally.note_bin();
    reader.answer(question)
}

/// A bin with a context. None where the decoder gives no answer.
pub fn ask_with(
    reader: &mut BinReader<'_>,
    tally: &mut Tally,
    table: CtxTable,
    index: u8,
) -> Option<bool> {
    ask(reader, tally, Question::Bin(Ctx { table, index }))
}

/// A number of so many bypass bins, the most significant first (9.3.3.4); of more than 32 the last
/// 32. None where the decoder gives no answer.
pub fn read_fixed(reader: &mut BinReader<'_>, tally: &mut Tally, length: u8) -> Option<u32> {
    let mut value = 0u32;
    for _ in 0..length {
        let bit = ask(reader, tally, Question::Bypass)?;
        value = (value << 1) | u32::from(bit);
    }
    Some(value)
}

/// 2 to the power of an exponent below 32.
pub(crate) fn power(exponent: u8) -> u32 {
    1u32.wrapping_shl(u32::from(exponent))
}

/// A number in Exp-Golomb of order `k`, below 16 (9.3.3.5), behind the count of its ones. None
/// after more than `most` ones, below 16, or where the decoder gives no answer.
pub fn read_exp_golomb(
    reader: &mut BinReader<'_>,
    tally: &mut Tally,
    k: u8,
    most: u8,
) -> Option<(u8, u32)> {
    let mut value = 0u32;
    for ones in 0..=most.min(15) {
        let order = k.saturating_add(ones);
        if !ask(reader, tally, Question::Bypass)? {
            let suffix = read_fixed(reader, tally, order)?;
            return Some((ones, value.saturating_add(suffix)));
        }
        value = value.saturating_add(power(order));
    }
    None
}
