//! Deblocking of a picture of 256x256 that is put back before each call.
ghost use Rattle.std.specs.Prelude.{◌≡◌, ◌<◌, ◌≤◌, IfOk, vec_len};
ghost use Rattle.hv_types.specs.Samples.{IsPlane};
ghost use Rattle.hv_types.specs.Video.{IsPicture};

use hv_deblock::{CodedSquares, deblock};
use hv_deblock_model::SquareCoding;
use hv_plan::{Mv, Pred, Unit};
use hv_types::{NoMemory, Picture, Plane};
use std::alloc::{AllocError, Global};

/// The columns of luma, and as many rows.
const SIDE: u32 = 256;

/// The squares in a row.
const SQUARES: usize = 32;

/// Of so many samples one goes into the sum.
const SAMPLED: usize = 61;

/// How each square of 8x8 luma samples is coded, by rows.
#[derive(Drop)]
struct Squares {
    list: Vec<SquareCoding>,
    ghost whole: { vec_len list ≡ 1024 },
}

impl CodedSquares for Squares {
    ghost use Rattle.std.specs.Prelude.{◌+◌, ◌*◌, slice_index_or};
    ghost use Rattle.hv_deblock_model.specs.CodedSquares.{no_square};

    ghost columns = { λ s. 32 };

    ghost rows = { λ s. 32 };

    ghost coding = { λ s column row. slice_index_or s.list.items (row * 32 + column) no_square };

    #[inline(always)]
    fn unit(&self, column: u32, row: u32) -> Unit {
        self.list[row as usize * SQUARES + column as usize].unit
    }

    #[inline(always)]
    fn has_levels(&self, column: u32, row: u32) -> bool {
        self.list[row as usize * SQUARES + column as usize].has_levels
    }
}

/// What a picture is put back to, and how it is coded.
#[derive(Drop)]
pub struct Edges {
    luma: Vec<u8>,
    cb: Vec<u8>,
    cr: Vec<u8>,
    squares: Squares,
    qp: u8,
    ghost greatest: { qp ≤ 51 },
}

/// A sample of a ramp with a step between any two squares, and noise.
fn sample_of(x: usize, y: usize, noise: u32) -> u8
    requires x { x < 256 }
    requires y { y < 256 }
{
    let square = (7 * (x / 8) + 5 * (y / 8)) % 9;
    let noise = (noise >> 24) as usize % 3;
    (60 + (x + 2 * y) / 8 + square + noise) as u8
}

/// The samples of a plane of so many columns, and as many rows.
fn samples_of(alloc: Global, side: usize, seed: u32) -> Result<Vec<u8>, AllocError>
    requires { side ≤ 256 }
{
    let mut samples = Vec::new(alloc);
    let mut state = seed;
    for y in 0..side {
        for x in 0..side {
            state = state.wrapping_mul(1664525).wrapping_add(1013904223);
            samples.push(sample_of(x, y, state))?;
        }
    }
    Ok(samples)
}

/// How a square is coded, by a byte of noise: an inter unit has one of two vectors.
fn square_of(inter: bool, byte: u8) -> SquareCoding {
    let pred = if !inter || byte < 32 {
        Pred::Intra { mode: byte % 35 }
    } else {
        Pred::Inter {
            reference: 0,
            mv: Mv {
                x: if byte < 128 { 5 } else { 12 },
                y: 3,
            },
            flag: 0,
            mvd: Mv { x: 0, y: 0 },
        }
    };
    SquareCoding {
        unit: Unit { depth: 3, pred },
        has_levels: byte % 8 == 0,
    }
}

/// The squares of the picture.
fn squares_of(alloc: Global, inter: bool) -> Result<Squares, AllocError> {
    let mut list = vec![in alloc; square_of(false, 0); SQUARES * SQUARES]?;
    let mut state = 7u32;
    for square in list.iter_mut() {
        state = state.wrapping_mul(1664525).wrapping_add(1013904223);
        *square = square_of(inter, (state >> 24) as u8);
    }
    Ok(Squares { list })
}

impl Edges {
    /// The quantiser stands in a field, so that no kernel is compiled for this one.
    #[inline(never)]
    fn new(alloc: Global, inter: bool, qp: u8) -> Result<Edges, AllocError>
        requires { qp ≤ 51 }
    {
        Ok(Edges {
            luma: samples_of(alloc, 256, 1)?,
            cb: samples_of(alloc, 128, 2)?,
            cr: samples_of(alloc, 128, 3)?,
            squares: squares_of(alloc, inter)?,
            qp,
        })
    }
}

/// Puts all samples of a plane back.
#[inline(never)]
fn restore_plane(plane: &mut Plane, samples: &[u8], side: u32)
    requires { IsPlane side side plane.old }
    ensures { IsPlane side side plane.new }
{
    let mut at = 0usize;
    for y in 0..side {
        for x in 0..side {
            if let Some(sample) = samples.get(at) {
                plane.set(x, y, *sample);
            }
            at = at.wrapping_add(1);
        }
    }
}

/// Puts all samples of a picture back.
fn restore(picture: &mut Picture, edges: &Edges)
    requires { IsPicture 256 256 picture.old }
    ensures { IsPicture 256 256 picture.new }
{
    restore_plane(&mut picture.luma, &edges.luma, SIDE);
    restore_plane(&mut picture.cb, &edges.cb, SIDE / 2);
    restore_plane(&mut picture.cr, &edges.cr, SIDE / 2);
}

/// Deblocks the picture.
#[inline(never)]
fn deblock_once(picture: &mut Picture, edges: &Edges)
    requires { IsPicture 256 256 picture.old }
    ensures { IsPicture 256 256 picture.new }
{
    deblock(picture, &edges.squares, edges.qp);
}

/// The sum of some samples of a plane.
pub fn sum_of(plane: &Plane) -> u64 {
    let samples = plane.samples();
    let mut sum = 0u64;
    for part in samples.chunks(SAMPLED) {
        if let Some(sample) = part.first() {
            sum = sum.wrapping_add(u64::from(*sample));
        }
    }
    sum
}

/// A picture of the sides that the kernels go over.
pub fn blank(alloc: Global) -> Result<Picture, NoMemory>
    ensures { IfOk result (λ picture. IsPicture 256 256 picture) }
{
    Ok(Picture {
        luma: Plane::new(alloc, SIDE, SIDE, 0)?,
        cb: Plane::new(alloc, SIDE / 2, SIDE / 2, 0)?,
        cr: Plane::new(alloc, SIDE / 2, SIDE / 2, 0)?,
    })
}

#[derive(Clone, Copy, PartialEq, Eq)]
pub enum EdgeKernel {
    Intra22,
    Intra37,
    Inter22,
    Inter37,
    Restore,
}

impl EdgeKernel {
    /// All kernels, in the order in which they are run.
    pub const ALL: [EdgeKernel; 5] = [
        EdgeKernel::Intra22,
        EdgeKernel::Intra37,
        EdgeKernel::Inter22,
        EdgeKernel::Inter37,
        EdgeKernel::Restore,
    ];

    /// The word by which a user asks for it.
    pub fn name(self) -> &'static str {
        match self {
            EdgeKernel::Intra22 => "deblock_22",
            EdgeKernel::Intra37 => "deblock_37",
            EdgeKernel::Inter22 => "deblock_inter_22",
            EdgeKernel::Inter37 => "deblock_inter_37",
            EdgeKernel::Restore => "deblock_restore",
        }
    }

    /// The kernel of this name, if there is one.
    pub fn named(word: &str) -> Option<EdgeKernel> {
        for kernel in &EdgeKernel::ALL {
            if kernel.name() == word {
                return Some(*kernel);
            }
        }
        None
    }

    /// What the kernel goes over.
    pub fn edges(self, alloc: Global) -> Result<Edges, AllocError> {
        match self {
            EdgeKernel::Intra22 => Edges::new(alloc, false, 22),
            EdgeKernel::Intra37 => Edges::new(alloc, false, 37),
            EdgeKernel::Inter22 => Edges::new(alloc, true, 22),
            EdgeKernel::Inter37 => Edges::new(alloc, true, 37),
            EdgeKernel::Restore => Edges::new(alloc, false, 22),
        }
    }

    /// Runs the kernel once, and gives a sum of samples.
    pub fn run(self, picture: &mut Picture, edges: &Edges) -> u64
        requires { IsPicture 256 256 picture.old }
        ensures { IsPicture 256 256 picture.new }
    {
        restore(picture, edges);
        if self != EdgeKernel::Restore {
            deblock_once(picture, edges);
        }
        let luma = sum_of(&picture.luma);
        let cb = sum_of(&picture.cb);
        luma.wrapping_add(cb).wrapping_add(sum_of(&picture.cr))
    }
}
