//! Slices of a seeded generator are read back by the plain reader, and each alternative of the
//! syntax of coding tree units comes often enough.

use crate::{UnitTally, read_slices_back};
use std::io::Print;
use std::test::Fail;

/// How many slices: some five seconds of one processor.
const SLICES: u32 = 10_000;

#[test]
fn slices_are_read_back(rt: HostRuntime) -> Result<(), Fail> {
    let seed = 0x9E37_79B9_7F4A_7C15;
    let tally = read_slices_back(rt.alloc(), seed, SLICES, UnitTally::new())?;
    let tally = tally.ok_or("a slice isn't read back")?;
    println!(rt; "{SLICES} slices, {} bins", tally.bins())?;
    tally.print(&rt)?;
    let least = tally.least();
    assert!(rt; least >= 20, "{least}");
    Ok(())
}
