//! The kernels that can be run.
ghost use Rattle.std.specs.Prelude.{◌≡◌, ◌+◌, ◌*◌, ◌<◌, ◌≤◌, length};

use crate::pictures::{Pictures, WIDTH};
use hv_kernel::{
    Pair, decimate, sad, sad_block_8, sad_block_16, sad_block_32, sad_block_64, ssd, ssd_block_8,
    ssd_block_16, ssd_block_32, ssd_block_64,
};
use hv_types::Window;

const LISTED: usize = 4096;

/// `count` samples from a place on.
#[inline(always)]
fn part(samples: &[u8], at: usize, count: usize) -> &[u8]
    requires { at + count ≤ length samples.now }
    ensures { length result.now ≡ count }
{
    &samples[at..at + count]
}

/// The blocks of so many columns and rows that begin two lists of samples.
#[inline(always)]
fn blocks<'a>(a: &'a [u8], b: &'a [u8], stride: usize, side: usize) -> Pair<'a>
    requires side { side ≤ 64 }
    requires stride { stride ≤ 512 }
    requires first { 64 * 512 ≤ length a.now }
    requires second { 64 * 512 ≤ length b.now }
    ensures { result.first.columns ≡ side }
{
    Pair {
        first: Window {
            samples: a,
            stride,
            columns: side,
            rows: side,
        },
        second: Window {
            samples: b,
            stride,
            columns: side,
            rows: side,
        },
    }
}

#[derive(Clone, Copy, PartialEq, Eq)]
pub enum Kernel {
    SadBlock8,
    SadBlock16,
    SadBlock32,
    SadBlock64,
    SsdBlock8,
    SsdBlock16,
    SsdBlock32,
    SsdBlock64,
    Sad,
    Ssd,
    Decimate,
}

impl Kernel {
    /// All kernels, in the order in which they are run.
    pub const ALL: [Kernel; 11] = [
        Kernel::SadBlock8,
        Kernel::SadBlock16,
        Kernel::SadBlock32,
        Kernel::SadBlock64,
        Kernel::SsdBlock8,
        Kernel::SsdBlock16,
        Kernel::SsdBlock32,
        Kernel::SsdBlock64,
        Kernel::Sad,
        Kernel::Ssd,
        Kernel::Decimate,
    ];

    /// The word by which a user asks for it.
    pub fn name(self) -> &'static str {
        match self {
            Kernel::SadBlock8 => "sad_block_8",
            Kernel::SadBlock16 => "sad_block_16",
            Kernel::SadBlock32 => "sad_block_32",
            Kernel::SadBlock64 => "sad_block_64",
            Kernel::SsdBlock8 => "ssd_block_8",
            Kernel::SsdBlock16 => "ssd_block_16",
            Kernel::SsdBlock32 => "ssd_block_32",
            Kernel::SsdBlock64 => "ssd_block_64",
            Kernel::Sad => "sad",
            Kernel::Ssd => "ssd",
            Kernel::Decimate => "decimate",
        }
    }

    /// The kernel of this name, if there is one.
    pub fn named(word: &str) -> Option<Kernel> {
        for kernel in &Kernel::ALL {
            if kernel.name() == word {
                return Some(*kernel);
            }
        }
        None
    }

    /// Runs the kernel once, and gives its sum. The place and the round choose the blocks; a block
    /// has as many rows as columns.
    pub fn run(self, pictures: &mut Pictures, place: usize, round: u32) -> u64
        requires { place < 64 }
    {
        let stride = pictures.stride;
        let second_at = place + (round % 32) as usize;
        let a = &pictures.first[4 * place..];
        let b = &pictures.second[second_at..];
        match self {
            Kernel::SadBlock8 => u64::from(sad_block_8(blocks(a, b, stride, 8))),
            Kernel::SadBlock16 => u64::from(sad_block_16(blocks(a, b, stride, 16))),
            Kernel::SadBlock32 => u64::from(sad_block_32(blocks(a, b, stride, 32))),
            Kernel::SadBlock64 => u64::from(sad_block_64(blocks(a, b, stride, 64))),
            Kernel::SsdBlock8 => u64::from(ssd_block_8(blocks(a, b, stride, 8))),
            Kernel::SsdBlock16 => u64::from(ssd_block_16(blocks(a, b, stride, 16))),
            Kernel::SsdBlock32 => u64::from(ssd_block_32(blocks(a, b, stride, 32))),
            Kernel::SsdBlock64 => u64::from(ssd_block_64(blocks(a, b, stride, 64))),
            Kernel::Sad => sad(part(a, 0, LISTED), part(b, 0, LISTED)),
            Kernel::Ssd => ssd(part(a, 0, LISTED), part(b, 0, LISTED)),
            Kernel::Decimate => {
                decimate(
                    part(a, 0, 4 * WIDTH),
                    WIDTH as u32,
                    &mut pictures.quarter_row,
                );
                u64::from(pictures.quarter_row[place])
            }
        }
    }
}
