//! Reads back blocks of levels or whole slices from a seed, or slices of standard input, by hand.
//!
//! `hv_read_back levels SEED SLICES [counts]`: how many slices of 24 blocks of levels are put into
//! the encoder and read back (`checks/read_back`).
//! `hv_read_back units SEED SLICES [counts]`: how many slices of 1 to 6 coding tree blocks.
//! `counts` asks for how often each alternative of the syntax came.
//! `hv_read_back slices`: a line of standard input for each slice (`checks/read_slices`).
#![tactic(auto)]

mod levels;
mod slices;

use anyhow::bail;
use levels::read_levels_back;
use slices::{read_slices, read_units_back};
use std::env;

fn main(rt: HostRuntime) -> anyhow::Result<()> {
    let mut words = env::args(&rt)?.skip(1);
    let Some(what) = words.next() else {
        bail!("usage: hv_read_back levels|units SEED SLICES [counts], or hv_read_back slices");
    };
    if what.as_str() == "slices" {
        return read_slices(&rt, rt.alloc());
    }
    let (Some(seed), Some(slices)) = (words.next(), words.next()) else {
        bail!("the seed or the number of slices is missing");
    };
    let (Ok(seed), Ok(slices)) = (seed.parse::<u64>(), slices.parse::<u32>()) else {
        bail!("the seed or the number of slices is no number");
    };
    let with_counts = words.next().is_some();
    match what.as_str() {
        "levels" => read_levels_back(&rt, rt.alloc(), seed, slices, with_counts),
        "units" => read_units_back(&rt, rt.alloc(), seed, slices, with_counts),
        _ => bail!("neither levels, units nor slices: {what}"),
    }
}
