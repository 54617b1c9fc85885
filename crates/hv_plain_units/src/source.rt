//! Where bins and numbers are read from, and where it is noted what came.

use crate::alternatives::{UnitElement, UnitTally};
use hv_plain::{BinReader, Question, ask, ask_with, read_exp_golomb, read_fixed, read_levels};
use hv_plan::Scan;
use hv_tables::CtxTable;

/// The arithmetic decoder in the data of a slice, and the tally of what came.
#[derive(Drop)]
pub struct Source<'a> {
    reader: BinReader<'a>,
    tally: UnitTally,
}

impl<'a> Source<'a> {
    /// Reads from this decoder, and adds to this tally.
    pub fn new(reader: BinReader<'a>, tally: UnitTally) -> Source<'a> {
        Source { reader, tally }
    }

    /// The tally, with what came added to it.
    pub fn into_tally(self) -> UnitTally {
        let Source { reader: _, tally } = self;
        tally
    }

    /// How many bits are left.
    pub fn bits_left(&self) -> usize {
        self.reader.bits_left()
    }

    /// An alternative came.
    pub(crate) fn note(&mut self, element: UnitElement, alternative: u8) {
        self.tally.note(element, alternative);
    }

    /// A bin with a context.
    pub(crate) fn bin(&mut self, table: CtxTable, index: u8) -> Option<bool> {
        ask_with(&mut self.reader, self.tally.levels_mut(), table, index)
    }

    /// A bin with the first context of a table, of which this profile has one value alone: none
    /// where it has the other.
    pub(crate) fn fixed_bin(&mut self, table: CtxTable, value: bool) -> Option<()> {
        if self.bin(table, 0)? == value {
            Some(())
        } else {
            None
        }
    }

    /// A bypass bin.
    pub(crate) fn bypass(&mut self) -> Option<bool> {
        ask(&mut self.reader, self.tally.levels_mut(), Question::Bypass)
    }

    /// The bin before terminate.
    pub(crate) fn end(&mut self) -> Option<bool> {
        ask(&mut self.reader, self.tally.levels_mut(), Question::End)
    }

    /// A number of so many bypass bins, at most 8 (9.3.3.4).
    pub(crate) fn number(&mut self, length: u8) -> Option<u8> {
        let value = read_fixed(&mut self.reader, self.tally.levels_mut(), length.min(8))?;
        Some((value % 256) as u8)
    }

    /// Ones in bypass, at most `most`, and a closing 0 where there are fewer (9.3.3.2).
    pub(crate) fn ones(&mut self, most: u8) -> Option<u8> {
        for ones in 0..most {
            if !self.bypass()? {
                return Some(ones);
            }
        }
        Some(most)
    }

    /// A number in Exp-Golomb of order `k`, behind the count of its ones, at most `most` (9.3.3.5).
    pub(crate) fn exp_golomb(&mut self, k: u8, most: u8) -> Option<(u8, u32)> {
        read_exp_golomb(&mut self.reader, self.tally.levels_mut(), k, most)
    }

    /// The levels of a transform block (7.3.8.11).
    pub(crate) fn levels(&mut self, scan: Scan, log2: u8, luma: bool) -> Option<[i16; 1024]> {
        read_levels(&mut self.reader, self.tally.levels_mut(), scan, log2, luma)
    }
}
