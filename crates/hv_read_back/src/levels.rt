//! Blocks of levels from a seed.

use anyhow::bail;
use hv_plain::{BLOCKS, Tally, read_back};
use std::alloc::Global;
use std::io::Print;

/// Puts slices of blocks of levels from a seed into the encoder, reads them back, and prints how
/// many blocks they had.
pub fn read_levels_back(
    rt: &impl Print,
    alloc: Global,
    seed: u64,
    slices: u32,
    with_counts: bool,
) -> anyhow::Result<()> {
    let mut tally = Tally::new();
    let Ok(same) = read_back(alloc, seed, slices, &mut tally) else {
        bail!("not enough memory");
    };
    if !same {
        bail!("a block isn't read back");
    }
    let blocks = u64::from(slices) * u64::from(BLOCKS);
    println!(rt; "{blocks} blocks are read back")?;
    if with_counts {
        tally.print(rt)?;
    }
    Ok(())
}
