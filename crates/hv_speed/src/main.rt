//! Runs a kernel many times over noise, and prints a checksum of what it gave.
//! `hv_speed KERNEL ROUNDS`: the name of a kernel, or `all`, and how many rounds. A round is 64
//! calls of a kernel of pictures, and one call of a kernel of bits.
#![tactic(auto)]

ghost use Rattle.hv_types.specs.Video.{IsPicture};

mod bits;
mod choices;
mod edges;
mod inter;
mod intra;
mod kernel;
mod leaves;
mod levels;
mod offsets;
mod pictures;
mod searches;
mod streams;
mod transforms;
mod units;

use anyhow::bail;
use bits::BitKernel;
use choices::ChoiceKernel;
use edges::{EdgeKernel, Edges, blank};
use hv_types::{NoMemory, Picture};
use inter::{InterKernel, Motion};
use intra::{IntraKernel, Lines};
use kernel::Kernel;
use leaves::LeafKernel;
use levels::{Blocks, LevelKernel};
use offsets::{OffsetKernel, Shown};
use pictures::Pictures;
use searches::SearchKernel;
use std::alloc::Global;
use std::env;
use std::io::Print;
use streams::Streams;
use transforms::{Block, TransformKernel};
use units::{UnitKernel, UnitPair};

const CALLS: usize = 64;

/// The sum of what `rounds` rounds of calls gave, modulo 2^64.
fn checksum(kernel: Kernel, rounds: u32, pictures: &mut Pictures) -> u64 {
    let mut sum = 0u64;
    for round in 0..rounds {
        for place in 0..CALLS {
            sum = sum.wrapping_add(kernel.run(pictures, place, round));
        }
    }
    sum
}

/// Prints a line for each kernel: its name and its checksum.
fn print_checksums(
    rt: &impl Print,
    alloc: Global,
    kernels: &[Kernel],
    rounds: u32,
) -> anyhow::Result<()> {
    let mut pictures = Pictures::new(alloc)?;
    for kernel in kernels {
        let sum = checksum(*kernel, rounds, &mut pictures);
        let name = kernel.name();
        println!(rt; "{name} {sum}")?;
    }
    Ok(())
}

/// The sum of what `rounds` calls gave, modulo 2^64.
fn checksum_of_bits(
    alloc: Global,
    kernel: BitKernel,
    rounds: u32,
    streams: &Streams,
) -> Result<u64, NoMemory> {
    let mut sum = 0u64;
    for _ in 0..rounds {
        sum = sum.wrapping_add(kernel.run(alloc, streams)?);
    }
    Ok(sum)
}

/// As `print_checksums`, for kernels of bits.
fn print_checksums_of_bits(
    rt: &impl Print,
    alloc: Global,
    kernels: &[BitKernel],
    rounds: u32,
) -> anyhow::Result<()> {
    let Ok(streams) = Streams::new(alloc) else {
        bail!("not enough memory");
    };
    for kernel in kernels {
        let Ok(sum) = checksum_of_bits(alloc, *kernel, rounds, &streams) else {
            bail!("not enough memory");
        };
        let name = kernel.name();
        println!(rt; "{name} {sum}")?;
    }
    Ok(())
}

/// The sum of what `rounds` rounds of calls gave, modulo 2^64.
fn checksum_of_intra(kernel: IntraKernel, rounds: u32, lines: &Lines) -> u64 {
    let mut sum = 0u64;
    for round in 0..rounds {
        for place in 0..CALLS {
            sum = sum.wrapping_add(kernel.run(lines, place, round));
        }
    }
    sum
}

/// As `print_checksums`, for kernels of intra prediction.
fn print_checksums_of_intra(
    rt: &impl Print,
    kernels: &[IntraKernel],
    rounds: u32,
) -> anyhow::Result<()> {
    let lines = Lines::new();
    for kernel in kernels {
        let sum = checksum_of_intra(*kernel, rounds, &lines);
        let name = kernel.name();
        println!(rt; "{name} {sum}")?;
    }
    Ok(())
}

/// The sum of what `rounds` rounds of calls gave, modulo 2^64.
fn checksum_of_inter(kernel: InterKernel, rounds: u32, motion: &Motion) -> u64 {
    let mut sum = 0u64;
    for _ in 0..rounds {
        for place in 0..CALLS {
            sum = sum.wrapping_add(kernel.run(motion, place));
        }
    }
    sum
}

/// As `print_checksums`, for kernels of inter prediction.
fn print_checksums_of_inter(
    rt: &impl Print,
    alloc: Global,
    kernels: &[InterKernel],
    rounds: u32,
) -> anyhow::Result<()> {
    let Ok(motion) = Motion::new(alloc) else {
        bail!("not enough memory");
    };
    for kernel in kernels {
        let sum = checksum_of_inter(*kernel, rounds, &motion);
        let name = kernel.name();
        println!(rt; "{name} {sum}")?;
    }
    Ok(())
}

/// The sum of what `rounds` rounds of calls gave, modulo 2^64.
fn checksum_of_transforms(kernel: TransformKernel, rounds: u32, block: &mut Block) -> u64 {
    let mut sum = 0u64;
    for _ in 0..rounds {
        for place in 0..CALLS {
            sum = sum.wrapping_add(kernel.run(block, place));
        }
    }
    sum
}

/// As `print_checksums`, for transforms.
fn print_checksums_of_transforms(
    rt: &impl Print,
    alloc: Global,
    kernels: &[TransformKernel],
    rounds: u32,
) -> anyhow::Result<()> {
    for kernel in kernels {
        let mut block = kernel.block(alloc)?;
        let sum = checksum_of_transforms(*kernel, rounds, &mut block);
        let name = kernel.name();
        println!(rt; "{name} {sum}")?;
    }
    Ok(())
}

/// The sum of what `rounds` rounds gave, modulo 2^64.
fn checksum_of_levels(
    alloc: Global,
    kernel: LevelKernel,
    rounds: u32,
    blocks: &Blocks,
) -> Result<u64, NoMemory> {
    let mut sum = 0u64;
    for _ in 0..rounds {
        sum = sum.wrapping_add(kernel.run(alloc, blocks)?);
    }
    Ok(sum)
}

/// As `print_checksums`, for kernels of levels.
fn print_checksums_of_levels(
    rt: &impl Print,
    alloc: Global,
    kernels: &[LevelKernel],
    rounds: u32,
) -> anyhow::Result<()> {
    for kernel in kernels {
        let blocks = kernel.blocks(alloc)?;
        let Ok(sum) = checksum_of_levels(alloc, *kernel, rounds, &blocks) else {
            bail!("not enough memory");
        };
        let name = kernel.name();
        println!(rt; "{name} {sum}")?;
    }
    Ok(())
}

/// The sum of what `rounds` rounds gave, modulo 2^64.
fn checksum_of_units(
    alloc: Global,
    kernel: UnitKernel,
    rounds: u32,
    blocks: &UnitPair,
) -> Result<u64, NoMemory> {
    let mut sum = 0u64;
    for _ in 0..rounds {
        sum = sum.wrapping_add(kernel.run(alloc, blocks)?);
    }
    Ok(sum)
}

/// As `print_checksums`, for kernels of coding tree units.
fn print_checksums_of_units(
    rt: &impl Print,
    alloc: Global,
    kernels: &[UnitKernel],
    rounds: u32,
) -> anyhow::Result<()> {
    for kernel in kernels {
        let blocks = kernel.blocks(alloc)?;
        let Ok(sum) = checksum_of_units(alloc, *kernel, rounds, &blocks) else {
            bail!("not enough memory");
        };
        let name = kernel.name();
        println!(rt; "{name} {sum}")?;
    }
    Ok(())
}

/// The sum of what `rounds` rounds of calls gave, modulo 2^64.
fn checksum_of_edges(kernel: EdgeKernel, rounds: u32, picture: &mut Picture, edges: &Edges) -> u64
    requires { IsPicture 256 256 picture.old }
    ensures { IsPicture 256 256 picture.new }
{
    let mut sum = 0u64;
    for _ in 0..rounds {
        for _ in 0..CALLS {
            sum = sum.wrapping_add(kernel.run(picture, edges));
        }
    }
    sum
}

/// As `print_checksums`, for deblocking.
fn print_checksums_of_edges(
    rt: &impl Print,
    alloc: Global,
    kernels: &[EdgeKernel],
    rounds: u32,
) -> anyhow::Result<()> {
    for kernel in kernels {
        let Ok(mut picture) = blank(alloc) else {
            bail!("not enough memory");
        };
        let edges = kernel.edges(alloc)?;
        let sum = checksum_of_edges(*kernel, rounds, &mut picture, &edges);
        let name = kernel.name();
        println!(rt; "{name} {sum}")?;
    }
    Ok(())
}

/// The sum of what `rounds` rounds of calls gave, modulo 2^64.
fn checksum_of_offsets(kernel: OffsetKernel, rounds: u32, shown: &mut Shown) -> u64 {
    let mut sum = 0u64;
    for _ in 0..rounds {
        for _ in 0..CALLS {
            sum = sum.wrapping_add(kernel.run(shown));
        }
    }
    sum
}

/// As `print_checksums`, for sample adaptive offsets.
fn print_checksums_of_offsets(
    rt: &impl Print,
    alloc: Global,
    kernels: &[OffsetKernel],
    rounds: u32,
) -> anyhow::Result<()> {
    for kernel in kernels {
        let Ok(mut shown) = kernel.shown(alloc) else {
            bail!("not enough memory");
        };
        let sum = checksum_of_offsets(*kernel, rounds, &mut shown);
        let name = kernel.name();
        println!(rt; "{name} {sum}")?;
    }
    Ok(())
}

/// As `print_checksums`, for the rebuilding of leaves.
fn print_checksums_of_leaves(
    rt: &impl Print,
    alloc: Global,
    kernels: &[LeafKernel],
    rounds: u32,
) -> anyhow::Result<()> {
    for kernel in kernels {
        let sum = kernel.run(alloc, rounds)?;
        let name = kernel.name();
        println!(rt; "{name} {sum}")?;
    }
    Ok(())
}

/// As `print_checksums`, for the choice of a block.
fn print_checksums_of_choices(
    rt: &impl Print,
    alloc: Global,
    kernels: &[ChoiceKernel],
    rounds: u32,
) -> anyhow::Result<()> {
    for kernel in kernels {
        let mut choice = kernel.choice(alloc)?;
        let mut sum = 0u64;
        for _ in 0..rounds {
            sum = sum.wrapping_add(choice.run());
        }
        let name = kernel.name();
        println!(rt; "{name} {sum}")?;
    }
    Ok(())
}

/// As `print_checksums`, for motion search. A round is one call.
fn print_checksums_of_searches(
    rt: &impl Print,
    alloc: Global,
    kernels: &[SearchKernel],
    rounds: u32,
) -> anyhow::Result<()> {
    for kernel in kernels {
        let searched = kernel.searched(alloc)?;
        let mut sum = 0u64;
        for _ in 0..rounds {
            let Ok(number) = searched.run(alloc) else {
                bail!("not enough memory");
            };
            sum = sum.wrapping_add(number);
        }
        let name = kernel.name();
        println!(rt; "{name} {sum}")?;
    }
    Ok(())
}

fn main(rt: HostRuntime) -> anyhow::Result<()> {
    let mut words = env::args(&rt)?.skip(1);
    let (Some(name), Some(rounds)) = (words.next(), words.next()) else {
        bail!("usage: hv_speed KERNEL ROUNDS");
    };
    let Ok(rounds) = rounds.parse::<u32>() else {
        bail!("the number of rounds is no number");
    };
    if name.as_str() == "all" {
        print_checksums(&rt, rt.alloc(), &Kernel::ALL, rounds)?;
        print_checksums_of_bits(&rt, rt.alloc(), &BitKernel::ALL, rounds)?;
        print_checksums_of_intra(&rt, &IntraKernel::ALL, rounds)?;
        print_checksums_of_inter(&rt, rt.alloc(), &InterKernel::ALL, rounds)?;
        print_checksums_of_transforms(&rt, rt.alloc(), &TransformKernel::ALL, rounds)?;
        print_checksums_of_levels(&rt, rt.alloc(), &LevelKernel::ALL, rounds)?;
        print_checksums_of_units(&rt, rt.alloc(), &UnitKernel::ALL, rounds)?;
        print_checksums_of_edges(&rt, rt.alloc(), &EdgeKernel::ALL, rounds)?;
        print_checksums_of_offsets(&rt, rt.alloc(), &OffsetKernel::ALL, rounds)?;
        print_checksums_of_leaves(&rt, rt.alloc(), &LeafKernel::ALL, rounds)?;
        print_checksums_of_choices(&rt, rt.alloc(), &ChoiceKernel::ALL, rounds)?;
        return print_checksums_of_searches(&rt, rt.alloc(), &SearchKernel::ALL, rounds);
    }
    if let Some(kernel) = BitKernel::named(name.as_str()) {
        return print_checksums_of_bits(&rt, rt.alloc(), &[kernel], rounds);
    }
    if let Some(kernel) = IntraKernel::named(name.as_str()) {
        return print_checksums_of_intra(&rt, &[kernel], rounds);
    }
    if let Some(kernel) = InterKernel::named(name.as_str()) {
        return print_checksums_of_inter(&rt, rt.alloc(), &[kernel], rounds);
    }
    if let Some(kernel) = TransformKernel::named(name.as_str()) {
        return print_checksums_of_transforms(&rt, rt.alloc(), &[kernel], rounds);
    }
    if let Some(kernel) = LevelKernel::named(name.as_str()) {
        return print_checksums_of_levels(&rt, rt.alloc(), &[kernel], rounds);
    }
    if let Some(kernel) = UnitKernel::named(name.as_str()) {
        return print_checksums_of_units(&rt, rt.alloc(), &[kernel], rounds);
    }
    if let Some(kernel) = EdgeKernel::named(name.as_str()) {
        return print_checksums_of_edges(&rt, rt.alloc(), &[kernel], rounds);
    }
    if let Some(kernel) = OffsetKernel::named(name.as_str()) {
        return print_checksums_of_offsets(&rt, rt.alloc(), &[kernel], rounds);
    }
    if let Some(kernel) = LeafKernel::named(name.as_str()) {
        return print_checksums_of_leaves(&rt, rt.alloc(), &[kernel], rounds);
    }
    if let Some(kernel) = ChoiceKernel::named(name.as_str()) {
        return print_checksums_of_choices(&rt, rt.alloc(), &[kernel], rounds);
    }
    if let Some(kernel) = SearchKernel::named(name.as_str()) {
        return print_checksums_of_searches(&rt, rt.alloc(), &[kernel], rounds);
    }
    match Kernel::named(name.as_str()) {
        Some(kernel) => print_checksums(&rt, rt.alloc(), &[kernel], rounds),
        None => bail!("no kernel has this name"),
    }
}
