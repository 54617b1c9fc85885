//! How often each alternative of syntax elements came. It serves tests, which ask that each came
//! often enough; no contract says what is noted.

ghost use Rattle.std.specs.Prelude.{◌<◌};

use std::io::{self, Print};

/// The name of an element, and the number of its alternatives.
pub type Row = (&'static str, u8);

/// How often each alternative came: at most 32 rows of at most 64 alternatives each.
#[derive(Drop)]
pub struct Counts {
    counts: [u32; 2048],
}

impl Counts {
    /// Nothing came.
    pub fn new() -> Counts {
        Counts { counts: [0; 2048] }
    }

    /// An alternative of a row came.
    pub fn note(&mut self, row: usize, alternative: u8) {
        let at = place(row, alternative);
        self.counts[at] = self.counts[at].saturating_add(1);
    }

    /// How often an alternative of a row came.
    pub fn count(&self, row: usize, alternative: u8) -> u32 {
        self.counts[place(row, alternative)]
    }

    /// The least count of an alternative of these rows.
    pub fn least(&self, rows: &[Row]) -> u32 {
        let mut least = u32::MAX;
        for row in 0..rows.len() {
            for alternative in 0..rows[row].1 {
                least = least.min(self.count(row, alternative));
            }
        }
        least
    }

    /// Prints a line for each alternative: the element's name, the alternative, and how often it
    /// came.
    pub fn print(&self, rt: &impl Print, rows: &[Row]) -> io::Result<()> {
        for row in 0..rows.len() {
            let (name, alternatives) = rows[row];
            for alternative in 0..alternatives {
                let count = self.count(row, alternative);
                println!(rt; "{name} {alternative}: {count}")?;
            }
        }
        Ok(())
    }
}

/// The place of an alternative's count.
fn place(row: usize, alternative: u8) -> usize
    ensures { result < 2048 }
{
    row % 32 * 64 + usize::from(alternative % 64)
}
