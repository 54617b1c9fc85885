//! The kernels of inter prediction that can be run.
ghost use Rattle.std.specs.Prelude.{◌≡◌, ◌*◌, ◌<◌, ◌≤◌};

use hv_interp::predict_inter;
use hv_plan::Mv;
use hv_types::{NoMemory, Plane};
use std::alloc::Global;

const COLUMNS: u32 = 512;

const ROWS: u32 = 128;

#[derive(Clone, Copy, PartialEq, Eq)]
pub enum InterKernel {
    Copy64,
    Rows64,
    Columns64,
    Both64,
    Both16,
    Chroma8,
    Chroma32,
}

/// A reference of noise, and vectors to the right and down of whole and broken samples.
#[derive(Drop)]
pub struct Motion {
    reference: Plane,
    whole: i16,
    right: i16,
    below: i16,
}

/// Samples from a generator of numbers.
fn noise(alloc: Global) -> Result<Plane, NoMemory> {
    let mut plane = Plane::new(alloc, COLUMNS, ROWS, 0)?;
    let mut state = 5u32;
    for y in 0..plane.height() {
        for x in 0..plane.width() {
            state = state.wrapping_mul(1664525).wrapping_add(1013904223);
            if x < plane.width() && y < plane.height() {
                plane.set(x, y, (state >> 24) as u8);
            }
        }
    }
    Ok(plane)
}

impl Motion {
    /// The vectors stand in fields, so that no kernel is compiled for one fraction.
    #[inline(never)]
    pub fn new(alloc: Global) -> Result<Motion, NoMemory> {
        Ok(Motion {
            reference: noise(alloc)?,
            whole: 16,
            right: 17,
            below: 18,
        })
    }

    /// A block of so many columns that is predicted once, and a sample of it. The place chooses
    /// where it lies and which sample.
    fn sample<const AREA: usize>(&self, luma: bool, size: u8, mv: Mv, place: usize) -> u64
        requires place { place < 64 }
        requires size { size ≤ 64 }
        requires area { AREA ≡ size * size }
        requires most { 64 ≤ AREA }
    {
        let mut block = [0; AREA];
        let (x, y) = (64 + place as u32, 16 + (place % 32) as u32);
        predict_inter(&self.reference, luma, x, y, size, mv, &mut block);
        u64::from(block[place])
    }
}

impl InterKernel {
    /// All kernels, in the order in which they are run.
    pub const ALL: [InterKernel; 7] = [
        InterKernel::Copy64,
        InterKernel::Rows64,
        InterKernel::Columns64,
        InterKernel::Both64,
        InterKernel::Both16,
        InterKernel::Chroma8,
        InterKernel::Chroma32,
    ];

    /// The word by which a user asks for it.
    pub fn name(self) -> &'static str {
        match self {
            InterKernel::Copy64 => "inter_copy_64",
            InterKernel::Rows64 => "inter_rows_64",
            InterKernel::Columns64 => "inter_columns_64",
            InterKernel::Both64 => "inter_both_64",
            InterKernel::Both16 => "inter_both_16",
            InterKernel::Chroma8 => "inter_chroma_8",
            InterKernel::Chroma32 => "inter_chroma_32",
        }
    }

    /// The kernel of this name, if there is one.
    pub fn named(word: &str) -> Option<InterKernel> {
        for kernel in &InterKernel::ALL {
            if kernel.name() == word {
                return Some(*kernel);
            }
        }
        None
    }

    /// Predicts a block once, and gives a sample of it. The place chooses both.
    pub fn run(self, motion: &Motion, place: usize) -> u64
        requires { place < 64 }
    {
        let (whole, right, below) = (motion.whole, motion.right, motion.below);
        let copied = Mv { x: whole, y: whole };
        let along = Mv { x: right, y: whole };
        let down = Mv { x: whole, y: below };
        let both = Mv { x: right, y: below };
        match self {
            InterKernel::Copy64 => motion.sample::<4096>(true, 64, copied, place),
            InterKernel::Rows64 => motion.sample::<4096>(true, 64, along, place),
            InterKernel::Columns64 => motion.sample::<4096>(true, 64, down, place),
            InterKernel::Both64 => motion.sample::<4096>(true, 64, both, place),
            InterKernel::Both16 => motion.sample::<256>(true, 16, both, place),
            InterKernel::Chroma8 => motion.sample::<64>(false, 8, both, place),
            InterKernel::Chroma32 => motion.sample::<1024>(false, 32, both, place),
        }
    }
}
