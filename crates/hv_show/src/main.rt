//! Shows the pictures of a stream of another encoder without this encoder, by hand (`checks/show`):
//! the plain reader of slice data reads each I slice, `rebuild_leaf` rebuilds its coding units, and
//! both in-loop filters follow, the second with the offsets that were read.
//!
//! `hv_show digest`: the stream stands on standard input. Prints the MD5 of the pictures of its I
//! slices, cropped, one behind the other, and how often each luma mode came in units of each size.
//! `hv_show raw`: writes these pictures, a byte for each sample.
//! `hv_show make SEED PICTURES QP WIDTH HEIGHT`: writes a stream of pictures by chance.
//!
//! Every function is safe. No contract says what is printed or written: that is tested.
#![tactic(auto)]

mod filters;
mod headers;
mod made;
mod memory;
mod offsets;
mod pictures;
mod rebuilding;
mod shown;
mod tally;
mod units;

use anyhow::bail;
use made::{Wanted, make_stream};
use pictures::{Show, show_stream};
use std::alloc::Global;
use std::env;
use std::io::{self, Input, Print, Read, Write};

fn main(rt: HostRuntime) -> anyhow::Result<()> {
    let mut words = env::args(&rt)?.skip(1);
    let Some(what) = words.next() else {
        bail!("usage: hv_show digest|raw, or hv_show make SEED PICTURES QP WIDTH HEIGHT");
    };
    match what.as_str() {
        "digest" => print_digest(&rt, rt.alloc()),
        "raw" => write_raw(&rt, rt.alloc()),
        "make" => {
            let wanted = Wanted {
                seed: number(words.next())?,
                pictures: number(words.next())?,
                qp: number(words.next())?,
                width: number(words.next())?,
                height: number(words.next())?,
            };
            let stream = make_stream(rt.alloc(), wanted)?;
            write_all(&rt, &stream)
        }
        _ => bail!("neither digest, raw nor make: {what}"),
    }
}

/// The number that a word is.
fn number(word: Option<String>) -> anyhow::Result<u32> {
    match word {
        Some(word) => Ok(word.parse::<u32>()?),
        None => bail!("a number is missing"),
    }
}

/// The pictures of the stream on standard input.
fn show_input<R: Input>(rt: &R, alloc: Global) -> anyhow::Result<Show> {
    let mut stream = Vec::new(alloc);
    rt.reader().read_to_end(&mut stream)?;
    show_stream(alloc, &stream)
}

/// Prints the MD5 of the pictures, how many there are, and what came in them.
fn print_digest<R: Input + Print>(rt: &R, alloc: Global) -> anyhow::Result<()> {
    let show = show_input(rt, alloc)?;
    println!(rt; "{}", show.digest(alloc)?)?;
    println!(rt; "pictures: {}", show.pictures)?;
    println!(rt; "slices passed over: {}", show.passed_over)?;
    show.leaves.print(rt)?;
    Ok(())
}

/// Writes the pictures.
fn write_raw<R: Input + Print>(rt: &R, alloc: Global) -> anyhow::Result<()> {
    let show = show_input(rt, alloc)?;
    write_all(rt, &show.raw)
}

/// Writes bytes to standard output.
fn write_all(rt: &impl Print, bytes: &[u8]) -> anyhow::Result<()> {
    let mut out = io::writer(rt);
    out.write_all(bytes)?;
    out.flush()?;
    Ok(())
}
