//! The kernels of intra prediction that can be run.
ghost use Rattle.std.specs.Prelude.{◌≡◌, ◌+◌, ◌*◌, ◌^◌, ◌<◌, ◌≤◌, length};

use hv_intra::{Line, predict_intra};

/// The modes that a kernel goes over.
#[derive(Clone, Copy, PartialEq, Eq)]
pub enum Modes {
    All,
    Planar,
    Dc,
    Left,
    Above,
}

/// The side of the blocks that a kernel predicts.
#[derive(Clone, Copy, PartialEq, Eq)]
pub enum BlockSide {
    Of8,
    Of16,
    Of32,
}

#[derive(Clone, Copy, PartialEq, Eq)]
pub struct IntraKernel {
    modes: Modes,
    side: BlockSide,
}

/// A line of noise for a block of each side.
#[derive(Drop)]
pub struct Lines {
    of_8: Line,
    of_16: Line,
    of_32: Line,
    ghost count_of_8: { length of_8 ≡ 33 },
    ghost count_of_16: { length of_16 ≡ 65 },
    ghost count_of_32: { length of_32 ≡ 129 },
}

/// Samples of noise, all of them available.
fn noise<const N: usize>() -> [Option<u8>; N] {
    let mut known = [None; N];
    let mut state = 5u32;
    for sample in known.iter_mut() {
        state = state.wrapping_mul(1664525).wrapping_add(1013904223);
        *sample = Some((state >> 24) as u8);
    }
    known
}

impl Lines {
    #[inline(never)]
    pub fn new() -> Lines {
        Lines {
            of_8: Line::of(&noise::<33>()),
            of_16: Line::of(&noise::<65>()),
            of_32: Line::of(&noise::<129>()),
        }
    }
}

/// Predicts a block of luma, and gives a sample of it. It isn't inlined, so that a call clears no
/// other block than its own.
#[inline(never)]
fn predicted<const LOG2: u8, const SAMPLES: usize>(line: &Line, mode: u8, place: usize) -> u64
    requires least { 2 ≤ LOG2 }
    requires most { LOG2 ≤ 5 }
    requires samples { SAMPLES ≡ 4 ^ LOG2 }
    requires few { SAMPLES ≤ 1024 }
    requires line { length line.now ≡ 4 * 2 ^ LOG2 + 1 }
    requires mode { mode ≤ 34 }
    requires place { place < SAMPLES }
{
    let mut block = [0; SAMPLES];
    predict_intra(line, LOG2, mode, true, &mut block);
    u64::from(block[place])
}

impl Modes {
    /// One of them, by turns.
    fn at(self, turn: usize) -> u8
        ensures { result ≤ 34 }
    {
        match self {
            Modes::All => (turn % 35) as u8,
            Modes::Planar => 0,
            Modes::Dc => 1,
            Modes::Left => 2 + (turn % 16) as u8,
            Modes::Above => 18 + (turn % 17) as u8,
        }
    }
}

impl IntraKernel {
    /// All kernels, in the order in which they are run.
    pub const ALL: [IntraKernel; 15] = [
        IntraKernel {
            modes: Modes::All,
            side: BlockSide::Of8,
        },
        IntraKernel {
            modes: Modes::All,
            side: BlockSide::Of16,
        },
        IntraKernel {
            modes: Modes::All,
            side: BlockSide::Of32,
        },
        IntraKernel {
            modes: Modes::Planar,
            side: BlockSide::Of8,
        },
        IntraKernel {
            modes: Modes::Planar,
            side: BlockSide::Of16,
        },
        IntraKernel {
            modes: Modes::Planar,
            side: BlockSide::Of32,
        },
        IntraKernel {
            modes: Modes::Dc,
            side: BlockSide::Of8,
        },
        IntraKernel {
            modes: Modes::Dc,
            side: BlockSide::Of16,
        },
        IntraKernel {
            modes: Modes::Dc,
            side: BlockSide::Of32,
        },
        IntraKernel {
            modes: Modes::Left,
            side: BlockSide::Of8,
        },
        IntraKernel {
            modes: Modes::Left,
            side: BlockSide::Of16,
        },
        IntraKernel {
            modes: Modes::Left,
            side: BlockSide::Of32,
        },
        IntraKernel {
            modes: Modes::Above,
            side: BlockSide::Of8,
        },
        IntraKernel {
            modes: Modes::Above,
            side: BlockSide::Of16,
        },
        IntraKernel {
            modes: Modes::Above,
            side: BlockSide::Of32,
        },
    ];

    /// The word by which a user asks for it.
    pub fn name(self) -> &'static str {
        match (self.modes, self.side) {
            (Modes::All, BlockSide::Of8) => "predict_intra_8",
            (Modes::All, BlockSide::Of16) => "predict_intra_16",
            (Modes::All, BlockSide::Of32) => "predict_intra_32",
            (Modes::Planar, BlockSide::Of8) => "planar_8",
            (Modes::Planar, BlockSide::Of16) => "planar_16",
            (Modes::Planar, BlockSide::Of32) => "planar_32",
            (Modes::Dc, BlockSide::Of8) => "dc_8",
            (Modes::Dc, BlockSide::Of16) => "dc_16",
            (Modes::Dc, BlockSide::Of32) => "dc_32",
            (Modes::Left, BlockSide::Of8) => "angular_left_8",
            (Modes::Left, BlockSide::Of16) => "angular_left_16",
            (Modes::Left, BlockSide::Of32) => "angular_left_32",
            (Modes::Above, BlockSide::Of8) => "angular_above_8",
            (Modes::Above, BlockSide::Of16) => "angular_above_16",
            (Modes::Above, BlockSide::Of32) => "angular_above_32",
        }
    }

    /// The kernel of this name, if there is one.
    pub fn named(word: &str) -> Option<IntraKernel> {
        for kernel in &IntraKernel::ALL {
            if kernel.name() == word {
                return Some(*kernel);
            }
        }
        None
    }

    /// Predicts a block of luma once, and gives a sample of it. The place and the round choose the
    /// mode.
    pub fn run(self, lines: &Lines, place: usize, round: u32) -> u64
        requires { place < 64 }
    {
        let mode = self.modes.at(place + (round % 9520) as usize);
        match self.side {
            BlockSide::Of8 => predicted::<3, 64>(&lines.of_8, mode, place),
            BlockSide::Of16 => predicted::<4, 256>(&lines.of_16, mode, place),
            BlockSide::Of32 => predicted::<5, 1024>(&lines.of_32, mode, place),
        }
    }
}
