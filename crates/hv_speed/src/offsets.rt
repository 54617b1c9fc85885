//! Sample adaptive offsets of a picture of 128x128: the choice for one block, and all of them
//! applied.
ghost use Rattle.std.specs.Prelude.{◌<◌, ◌≤◌, All, IfOk};
ghost use Rattle.hv_types.specs.Samples.{IsPlane};
ghost use Rattle.hv_types.specs.Video.{IsPicture};
ghost use Rattle.hv_filter_model.specs.SampleAdaptiveOffset.{IsValidParam};

use crate::edges::sum_of;
use hv_plan::{Place, SaoComponent, SaoKind, SaoParam};
use hv_sao::{apply_sao, choose_sao};
use hv_types::{NoMemory, Picture, Plane};
use std::alloc::Global;

/// The columns of luma, and as many rows.
const SIDE: u32 = 128;

/// The block for which offsets are chosen: it has neighbours to the left and above.
const PLACE: u32 = 3;

/// Slopes, and edges between rectangles.
fn clean(x: u32, y: u32) -> u32
    requires x { x < 130 }
    requires y { y < 128 }
    ensures { result ≤ 200 }
{
    50 + (x + 2 * y) / 4 + (x / 24 + y / 20) % 2 * 40
}

/// A sample of the input: with noise.
fn input_sample(x: u32, y: u32, noise: u32) -> u8
    requires x { x < 128 }
    requires y { y < 128 }
{
    (clean(x, y) + (noise >> 24) % 7) as u8
}

/// A deblocked sample: at a small quantiser the noise is there, with errors. At a large one it
/// isn't, edges are smeared, and each square of 8x8 has an error of its own.
fn deblocked_sample(qp: u8, x: u32, y: u32, noise: u32) -> u8
    requires x { x < 128 }
    requires y { y < 128 }
{
    let error = (noise >> 16) % 7;
    if qp < 30 {
        return input_sample(x, y, noise)
            .wrapping_add(error as u8)
            .wrapping_sub(3);
    }
    let smeared = (clean(x.saturating_sub(2), y) + 2 * clean(x, y) + clean(x + 2, y)) / 4;
    (smeared + (5 * (x / 8) + 3 * (y / 8)) % 7 + error / 3) as u8
}

/// A plane of so many columns, and as many rows: as deblocked at a quantiser, or of the input.
fn plane_of(alloc: Global, side: u32, qp: Option<u8>, seed: u32) -> Result<Plane, NoMemory>
    requires least { 0 < side }
    requires most { side ≤ 128 }
    ensures { IfOk result (IsPlane side side) }
{
    let mut plane = Plane::new(alloc, side, side, 0)?;
    let mut state = seed;
    for y in 0..side {
        for x in 0..side {
            state = state.wrapping_mul(1664525).wrapping_add(1013904223);
            let sample = match qp {
                Some(qp) => deblocked_sample(qp, x, y, state),
                None => input_sample(x, y, state),
            };
            plane.set(x, y, sample);
        }
    }
    Ok(plane)
}

/// A picture: as deblocked at a quantiser, or of the input.
fn picture_of(alloc: Global, qp: Option<u8>) -> Result<Picture, NoMemory>
    ensures { IfOk result (IsPicture 128 128) }
{
    Ok(Picture {
        luma: plane_of(alloc, SIDE, qp, 1)?,
        cb: plane_of(alloc, SIDE / 2, qp, 2)?,
        cr: plane_of(alloc, SIDE / 2, qp, 3)?,
    })
}

/// An edge class, the same for each component.
fn edge_choice(class: u8) -> SaoParam
    requires { class < 4 }
    ensures { IsValidParam result }
{
    let component = SaoComponent {
        kind: SaoKind::Edge { class },
        offsets: [2, 1, -1, -3],
    };
    SaoParam {
        luma: component,
        cb: component,
        cr: component,
    }
}

/// Bands from a position on, the same for each component.
fn band_choice(position: u8) -> SaoParam
    requires { position < 32 }
    ensures { IsValidParam result }
{
    let component = SaoComponent {
        kind: SaoKind::Band { position },
        offsets: [3, -2, 1, -4],
    };
    SaoParam {
        luma: component,
        cb: component,
        cr: component,
    }
}

/// A choice for each block: the four edge classes, or bands at four positions. They are made by a
/// call that isn't inlined, so that no kernel is compiled for these alone.
#[inline(never)]
fn choices(has_edges: bool) -> [SaoParam; 4]
    ensures { All IsValidParam result }
{
    if has_edges {
        [
            edge_choice(0),
            edge_choice(1),
            edge_choice(2),
            edge_choice(3),
        ]
    } else {
        [
            band_choice(5),
            band_choice(9),
            band_choice(13),
            band_choice(17),
        ]
    }
}

/// What the kernels go over.
#[derive(Drop)]
pub struct Shown {
    deblocked: Picture,
    input: Picture,
    shown: Picture,
    qp: u8,
    ghost deblocked_whole: { IsPicture 128 128 deblocked },
    ghost input_whole: { IsPicture 128 128 input },
    ghost shown_whole: { IsPicture 128 128 shown },
    ghost greatest: { qp < 52 },
}

impl Shown {
    /// The quantiser stands in a field, so that no kernel is compiled for this one.
    #[inline(never)]
    fn new(alloc: Global, qp: u8) -> Result<Shown, NoMemory>
        requires { qp < 52 }
    {
        Ok(Shown {
            deblocked: picture_of(alloc, Some(qp))?,
            input: picture_of(alloc, None)?,
            shown: picture_of(alloc, None)?,
            qp,
        })
    }
}

/// A number for numbers so far and one more.
fn joined(sum: u64, offset: i8) -> u64 {
    let number = (i16::from(offset) + 128) as u64;
    sum.wrapping_mul(31).wrapping_add(number)
}

/// A number for the choice of a component.
fn sum_of_choice(component: SaoComponent) -> u64 {
    let kind = match component.kind {
        SaoKind::Off => 0,
        SaoKind::Band { position } => 1 + u64::from(position),
        SaoKind::Edge { class } => 40 + u64::from(class),
    };
    let [a, b, c, d] = component.offsets;
    joined(joined(joined(joined(kind, a), b), c), d)
}

/// Chooses, and gives a number for the choice.
#[inline(never)]
fn choose_once(shown: &Shown) -> u64 {
    let place = Place {
        width: SIDE,
        height: SIDE,
        index: PLACE,
    };
    let choice = choose_sao(&shown.deblocked, &shown.input, place, shown.qp);
    let luma = sum_of_choice(choice.luma);
    let cb = luma.wrapping_mul(7).wrapping_add(sum_of_choice(choice.cb));
    cb.wrapping_mul(7).wrapping_add(sum_of_choice(choice.cr))
}

/// Applies the choices, and gives a sum of samples.
#[inline(never)]
fn apply_once(has_edges: bool, shown: &mut Shown) -> u64 {
    apply_sao(&shown.deblocked, &choices(has_edges), &mut shown.shown);
    let luma = sum_of(&shown.shown.luma);
    let cb = sum_of(&shown.shown.cb);
    luma.wrapping_add(cb).wrapping_add(sum_of(&shown.shown.cr))
}

#[derive(Clone, Copy, PartialEq, Eq)]
pub enum OffsetKernel {
    Choose22,
    Choose37,
    ApplyEdge,
    ApplyBand,
}

impl OffsetKernel {
    /// All kernels, in the order in which they are run.
    pub const ALL: [OffsetKernel; 4] = [
        OffsetKernel::Choose22,
        OffsetKernel::Choose37,
        OffsetKernel::ApplyEdge,
        OffsetKernel::ApplyBand,
    ];

    /// The word by which a user asks for it.
    pub fn name(self) -> &'static str {
        match self {
            OffsetKernel::Choose22 => "choose_sao_22",
            OffsetKernel::Choose37 => "choose_sao_37",
            OffsetKernel::ApplyEdge => "apply_sao_edge",
            OffsetKernel::ApplyBand => "apply_sao_band",
        }
    }

    /// The kernel of this name, if there is one.
    pub fn named(word: &str) -> Option<OffsetKernel> {
        for kernel in &OffsetKernel::ALL {
            if kernel.name() == word {
                return Some(*kernel);
            }
        }
        None
    }

    /// What the kernel goes over.
    pub fn shown(self, alloc: Global) -> Result<Shown, NoMemory> {
        match self {
            OffsetKernel::Choose22 => Shown::new(alloc, 22),
            _ => Shown::new(alloc, 37),
        }
    }

    /// Runs the kernel once, and gives a number for what it gave.
    pub fn run(self, shown: &mut Shown) -> u64 {
        match self {
            OffsetKernel::Choose22 | OffsetKernel::Choose37 => choose_once(shown),
            OffsetKernel::ApplyEdge => apply_once(true, shown),
            OffsetKernel::ApplyBand => apply_once(false, shown),
        }
    }
}
