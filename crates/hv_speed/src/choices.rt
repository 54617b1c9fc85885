//! The choice of a coding tree block between blocks that are chosen, in a picture of 128x128 whose
//! content is like that of nature: noise of six scales, the coarser the stronger.
ghost use Rattle.std.specs.Prelude.{◌≡◌, ◌<◌, ◌≤◌, IfOk};
ghost use Rattle.hv_types.specs.Samples.{IsPlane};
ghost use Rattle.hv_types.specs.Video.{IsPicture};

use crate::levels::sum_of;
use anyhow::bail;
use hv_amvp::Distances;
use hv_block::{Block, Neighbours, neighbours_of};
use hv_mode::{PictureTask, Room, Task, decide_blocks, decide_ctb};
use hv_plan::Place;
use hv_tables::SliceKind;
use hv_types::{NoMemory, Picture, Plane};
use std::alloc::Global;

/// A round has so many calls.
const CALLS: usize = 64;

/// The columns of luma, and as many rows.
const SIDE: u32 = 128;

/// The block at the lower right of four.
const PLACE: Place = Place {
    width: 128,
    height: 128,
    index: 3,
};

/// A number of 0 to 255 for a place of a lattice.
fn lattice(column: u32, row: u32, seed: u32) -> u32 {
    let mut state = column
        .wrapping_mul(374761393)
        .wrapping_add(row.wrapping_mul(668265263))
        .wrapping_add(seed.wrapping_mul(974711));
    state = (state ^ (state >> 13)).wrapping_mul(1274126177);
    (state ^ (state >> 16)) >> 24
}

/// A number of 0 to 255 in this column and row, between those of a lattice whose places lie
/// 2^`scale` apart.
fn noise(x: u32, y: u32, scale: u32, seed: u32) -> u32
    requires { scale ≤ 6 }
{
    let step = 1u32 << scale;
    let (column, row) = (x >> scale, y >> scale);
    let (across, down) = (x % step, y % step);
    let (next_column, next_row) = (column.wrapping_add(1), row.wrapping_add(1));
    let (left, right) = (step.wrapping_sub(across), across);
    let upper = lattice(column, row, seed)
        .wrapping_mul(left)
        .wrapping_add(lattice(next_column, row, seed).wrapping_mul(right));
    let lower = lattice(column, next_row, seed)
        .wrapping_mul(left)
        .wrapping_add(lattice(next_column, next_row, seed).wrapping_mul(right));
    let sum = upper
        .wrapping_mul(step.wrapping_sub(down))
        .wrapping_add(lower.wrapping_mul(down));
    (sum >> scale) >> scale
}

/// The sample in this column and row: half of it is noise of 64 samples' scale.
pub fn sample_of(x: u32, y: u32, seed: u32) -> u8 {
    let mut sum = noise(x, y, 6, seed).wrapping_mul(128);
    sum = sum.wrapping_add(noise(x, y, 5, seed).wrapping_mul(64));
    sum = sum.wrapping_add(noise(x, y, 4, seed).wrapping_mul(32));
    sum = sum.wrapping_add(noise(x, y, 3, seed).wrapping_mul(16));
    sum = sum.wrapping_add(noise(x, y, 2, seed).wrapping_mul(8));
    sum = sum.wrapping_add(noise(x, y, 0, seed).wrapping_mul(8));
    ((sum >> 8) % 256) as u8
}

/// A plane of so many columns and rows.
fn plane_of(alloc: Global, side: u32, seed: u32) -> Result<Plane, NoMemory>
    requires some { 0 < side }
    requires most { side ≤ 128 }
    ensures { IfOk result (λ plane. IsPlane side side plane) }
{
    let mut plane = Plane::new(alloc, side, side, 0)?;
    for y in 0..side {
        for x in 0..side {
            plane.set(x, y, sample_of(x, y, seed));
        }
    }
    Ok(plane)
}

/// What is given for the last block, and what its choice works in.
#[derive(Drop)]
pub struct Choice {
    input: Picture,
    near: Neighbours,
    effort: u8,
    qp: u8,
    room: Room,
    block: Block,
    ghost whole: { IsPicture 128 128 input },
    ghost known: { effort ≤ 2 },
    ghost quantiser: { qp ≤ 51 },
}

/// The edges of the blocks around the last one, when all are chosen.
fn edges_around(
    alloc: Global,
    input: &Picture,
    effort: u8,
    qp: u8,
    room: &mut Room,
) -> anyhow::Result<Neighbours>
    requires whole { IsPicture 128 128 input.now }
    requires known { effort ≤ 2 }
    requires quantiser { qp ≤ 51 }
{
    let task = PictureTask {
        effort,
        qp,
        input,
        kind: SliceKind::I,
        references: 0,
        width: SIDE,
        height: SIDE,
        distances: Distances {
            first: 0,
            second: 0,
        },
        motion: None,
        first: None,
        second: None,
    };
    let mut blocks = Vec::new(alloc);
    for _ in 0..4 {
        let Ok(block) = Block::new(alloc) else {
            bail!("not enough memory");
        };
        blocks.push(block)?;
    }
    if blocks.len() != 4 {
        bail!("a picture of 128x128 has four blocks");
    }
    decide_blocks(&task, room, &mut blocks);
    Ok(neighbours_of(PLACE, &blocks))
}

/// What is given for the last block, of an I slice.
fn last_task<'a>(effort: u8, qp: u8, input: &'a Picture, near: &'a Neighbours) -> Task<'a>
    requires whole { IsPicture 128 128 input.now }
    requires known { effort ≤ 2 }
    requires quantiser { qp ≤ 51 }
{
    Task {
        effort,
        qp,
        input,
        kind: SliceKind::I,
        references: 0,
        place: PLACE,
        near,
        distances: Distances {
            first: 0,
            second: 0,
        },
        motion: None,
        first: None,
        second: None,
    }
}

impl Choice {
    /// Effort and quantiser stand in fields, so that no kernel is compiled for these alone.
    #[inline(never)]
    fn new(alloc: Global, effort: u8, qp: u8) -> anyhow::Result<Choice>
        requires known { effort ≤ 2 }
        requires quantiser { qp ≤ 51 }
    {
        let Ok(input) = picture(alloc) else {
            bail!("not enough memory");
        };
        let Ok(mut room) = Room::new(alloc) else {
            bail!("not enough memory");
        };
        let near = edges_around(alloc, &input, effort, qp, &mut room)?;
        let Ok(block) = Block::new(alloc) else {
            bail!("not enough memory");
        };
        Ok(Choice {
            input,
            near,
            effort,
            qp,
            room,
            block,
        })
    }

    /// Decides the block once.
    #[inline(never)]
    fn decide(&mut self) {
        let task = last_task(self.effort, self.qp, &self.input, &self.near);
        decide_ctb(&task, &mut self.room, &mut self.block);
    }

    /// Decides the block in all calls, and gives a sum of its samples.
    pub fn run(&mut self) -> u64 {
        let mut sum = 0u64;
        for _ in 0..CALLS {
            self.decide();
            sum = sum.wrapping_add(sum_of(self.block.samples.luma()));
            sum = sum.wrapping_add(sum_of(self.block.samples.cb()));
        }
        sum
    }
}

/// A picture of 128x128.
fn picture(alloc: Global) -> Result<Picture, NoMemory>
    ensures { IfOk result (λ picture. IsPicture 128 128 picture) }
{
    Ok(Picture {
        luma: plane_of(alloc, SIDE, 1)?,
        cb: plane_of(alloc, SIDE / 2, 2)?,
        cr: plane_of(alloc, SIDE / 2, 3)?,
    })
}

#[derive(Clone, Copy, PartialEq, Eq)]
pub enum ChoiceKernel {
    Some22,
    Some37,
    All22,
    All37,
}

impl ChoiceKernel {
    /// All kernels, in the order in which they are run.
    pub const ALL: [ChoiceKernel; 4] = [
        ChoiceKernel::Some22,
        ChoiceKernel::Some37,
        ChoiceKernel::All22,
        ChoiceKernel::All37,
    ];

    /// The word by which a user asks for it: effort and quantiser.
    pub fn name(self) -> &'static str {
        match self {
            ChoiceKernel::Some22 => "decide_ctb_1_22",
            ChoiceKernel::Some37 => "decide_ctb_1_37",
            ChoiceKernel::All22 => "decide_ctb_2_22",
            ChoiceKernel::All37 => "decide_ctb_2_37",
        }
    }

    /// The kernel of this name, if there is one.
    pub fn named(word: &str) -> Option<ChoiceKernel> {
        for kernel in &ChoiceKernel::ALL {
            if kernel.name() == word {
                return Some(*kernel);
            }
        }
        None
    }

    /// The block that the kernel decides.
    pub fn choice(self, alloc: Global) -> anyhow::Result<Choice> {
        match self {
            ChoiceKernel::Some22 => Choice::new(alloc, 1, 22),
            ChoiceKernel::Some37 => Choice::new(alloc, 1, 37),
            ChoiceKernel::All22 => Choice::new(alloc, 2, 22),
            ChoiceKernel::All37 => Choice::new(alloc, 2, 37),
        }
    }
}
