//! How often each luma mode came in coding units of each size.

use hv_plain::Counts;
use std::io::{self, Print};

/// The sides of units in luma samples.
const SIDES: [u32; 4] = [8, 16, 32, 64];

/// How many modes there are (8.4.2).
const MODES: u8 = 35;

/// The intra coding units that came.
#[derive(Drop)]
pub(crate) struct Leaves {
    counts: Counts,
}

impl Leaves {
    /// None came.
    pub(crate) fn new() -> Leaves {
        Leaves {
            counts: Counts::new(),
        }
    }

    /// A unit of this size, 0 for 8x8 to 3 for 64x64, with this mode came.
    pub(crate) fn note(&mut self, size: u8, mode: u8) {
        self.counts.note(usize::from(size), mode);
    }

    /// Prints a line for each size and mode that came.
    pub(crate) fn print(&self, rt: &impl Print) -> io::Result<()> {
        for size in 0..SIDES.len() {
            for mode in 0..MODES {
                let count = self.counts.count(size, mode);
                if count > 0 {
                    println!(rt; "units of {} with mode {mode}: {count}", SIDES[size])?;
                }
            }
        }
        Ok(())
    }
}
