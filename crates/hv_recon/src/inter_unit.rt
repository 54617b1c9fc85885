//! An inter transform unit: its block of luma, and those of Cb and Cr.

ghost use Rattle.std.specs.Prelude.{◌≡◌, ◌+◌, ◌*◌, ◌^◌, ◌<◌, ◌≤◌, length};
ghost use Rattle.hv_tree_model.specs.Trees.{side};
ghost use Rattle.hv_tree_model.specs.Sites.{x0, y0};
ghost use Rattle.hv_recon_model.specs.SeenSamples.{IsPut};
ghost use Rattle.hv_recon.specs.Units.{inter_block, IsInterUnitPut};

use crate::put::put_block;
use crate::shapes::{InterSpot, InterUnit};
use crate::sizes::{area_of, side_of};
use crate::transform_block::add_levels;
use crate::unit::{column_of, row_of};
use hv_block::{CtbPlan, Samples};
use hv_interp::predict_inter;
use hv_plan::Place;
use hv_tables::chroma_qp;
use hv_types::{Picture, Plane};

/// Rebuilds a transform block of `COUNT` samples among those of a coding tree block of this side.
fn rebuild_samples<const COUNT: usize>(
    reference: &Plane,
    spot: InterSpot,
    side: usize,
    levels: &[i16],
    samples: &mut [u8],
)
    requires count { COUNT ≡ 4 ^ spot.log2 }
    requires area { COUNT ≡ 2 ^ spot.log2 * 2 ^ spot.log2 }
    requires few { COUNT ≤ 1024 }
    requires side { side ≤ 64 }
    requires across { spot.x + 2 ^ spot.log2 ≤ side }
    requires down { spot.y + 2 ^ spot.log2 ≤ side }
    requires levels { length levels.now ≡ 2 ^ spot.log2 * 2 ^ spot.log2 }
    requires whole { length samples.old ≡ side * side }
    ensures put { IsPut side spot.x spot.y spot.log2
        (inter_block spot.log2 spot.luma spot.qp levels.now reference.now spot.mv spot.column
        spot.row) samples.old samples.new }
    ensures count { length samples.new ≡ side * side }
{
    let size = side_of(spot.log2) as u8;
    let mut block = [0; COUNT];
    predict_inter(
        reference,
        spot.luma,
        spot.column,
        spot.row,
        size,
        spot.mv,
        &mut block,
    );
    add_levels(levels, spot.log2, spot.qp, &mut block);
    put_block(side, spot.x, spot.y, spot.log2, &block, samples);
}

/// Rebuilds a transform block among the samples of a coding tree block of this side.
fn rebuild_block(
    reference: &Plane,
    spot: InterSpot,
    side: usize,
    levels: &[i16],
    samples: &mut [u8],
)
    requires side { side ≤ 64 }
    requires across { spot.x + 2 ^ spot.log2 ≤ side }
    requires down { spot.y + 2 ^ spot.log2 ≤ side }
    requires levels { length levels.now ≡ 2 ^ spot.log2 * 2 ^ spot.log2 }
    requires whole { length samples.old ≡ side * side }
    ensures put { IsPut side spot.x spot.y spot.log2
        (inter_block spot.log2 spot.luma spot.qp levels.now reference.now spot.mv spot.column
        spot.row) samples.old samples.new }
    ensures count { length samples.new ≡ side * side }
{
    match spot.log2 {
        2 => rebuild_samples::<16>(reference, spot, side, levels, samples),
        3 => rebuild_samples::<64>(reference, spot, side, levels, samples),
        4 => rebuild_samples::<256>(reference, spot, side, levels, samples),
        _ => rebuild_samples::<1024>(reference, spot, side, levels, samples),
    }
}

/// Rebuilds the block of luma of a transform unit.
fn rebuild_luma(reference: &Plane, spot: InterSpot, levels: &[i16], out: &mut Samples)
    requires across { spot.x + 2 ^ spot.log2 ≤ 64 }
    requires down { spot.y + 2 ^ spot.log2 ≤ 64 }
    requires levels { length levels.now ≡ 2 ^ spot.log2 * 2 ^ spot.log2 }
    ensures put { IsPut 64 spot.x spot.y spot.log2
        (inter_block spot.log2 spot.luma spot.qp levels.now reference.now spot.mv spot.column
        spot.row) out.old.luma out.new.luma }
    ensures cb { out.new.cb ≡ out.old.cb }
    ensures cr { out.new.cr ≡ out.old.cr }
{
    rebuild_block(reference, spot, 64, levels, out.luma_mut());
}

/// Rebuilds its block of Cb.
fn rebuild_cb(reference: &Plane, spot: InterSpot, levels: &[i16], out: &mut Samples)
    requires across { spot.x + 2 ^ spot.log2 ≤ 32 }
    requires down { spot.y + 2 ^ spot.log2 ≤ 32 }
    requires levels { length levels.now ≡ 2 ^ spot.log2 * 2 ^ spot.log2 }
    ensures put { IsPut 32 spot.x spot.y spot.log2
        (inter_block spot.log2 spot.luma spot.qp levels.now reference.now spot.mv spot.column
        spot.row) out.old.cb out.new.cb }
    ensures luma { out.new.luma ≡ out.old.luma }
    ensures cr { out.new.cr ≡ out.old.cr }
{
    rebuild_block(reference, spot, 32, levels, out.cb_mut());
}

/// Rebuilds its block of Cr.
fn rebuild_cr(reference: &Plane, spot: InterSpot, levels: &[i16], out: &mut Samples)
    requires across { spot.x + 2 ^ spot.log2 ≤ 32 }
    requires down { spot.y + 2 ^ spot.log2 ≤ 32 }
    requires levels { length levels.now ≡ 2 ^ spot.log2 * 2 ^ spot.log2 }
    ensures put { IsPut 32 spot.x spot.y spot.log2
        (inter_block spot.log2 spot.luma spot.qp levels.now reference.now spot.mv spot.column
        spot.row) out.old.cr out.new.cr }
    ensures luma { out.new.luma ≡ out.old.luma }
    ensures cb { out.new.cb ≡ out.old.cb }
{
    rebuild_block(reference, spot, 32, levels, out.cr_mut());
}

/// The column and the row of the picture in which the square at this address begins, in luma
/// samples.
fn corner(place: Place, address: u8) -> (u32, u32)
    requires some { 0 < place.width }
    requires address { address < 64 }
    requires wide { x0 place address < 2 ^ 32 }
    requires high { y0 place address < 2 ^ 32 }
    ensures column { result.0 ≡ x0 place address }
    ensures row { result.1 ≡ y0 place address }
{
    let across = place.width.div_ceil(64);
    let column = 64 * (place.index % across) + 8 * column_of(address) as u32;
    let row = 64 * (place.index / across) + 8 * row_of(address) as u32;
    (column, row)
}

/// Rebuilds an inter transform unit (7.3.8.10, 8.5.3.3.3), which lies in the picture: its three
/// blocks, each from its own component of the reference picture.
pub fn rebuild_inter_unit(
    plan: &CtbPlan,
    place: Place,
    reference: &Picture,
    unit: InterUnit,
    out: &mut Samples,
)
    requires right { x0 place unit.address + side unit.size ≤ place.width }
    requires bottom { y0 place unit.address + side unit.size ≤ place.height }
    ensures { IsInterUnitPut plan.now place unit.size unit.address reference.now unit.mv unit.qp
        out.old out.new }
{
    let (column, row) = corner(place, unit.address);
    let (x, y) = (column_of(unit.address), row_of(unit.address));
    let address = usize::from(unit.address);
    let luma = InterSpot {
        x: 8 * x,
        y: 8 * y,
        column,
        row,
        log2: unit.size + 3,
        mv: unit.mv,
        luma: true,
        qp: unit.qp,
    };
    let chroma = InterSpot {
        x: 4 * x,
        y: 4 * y,
        column: column / 2,
        row: row / 2,
        log2: unit.size + 2,
        mv: unit.mv,
        luma: false,
        qp: chroma_qp(unit.qp),
    };
    let levels = &plan.luma()[64 * address..64 * address + area_of(luma.log2)];
    rebuild_luma(&reference.luma, luma, levels, out);
    let (from, end) = (16 * address, 16 * address + area_of(chroma.log2));
    rebuild_cb(&reference.cb, chroma, &plan.cb()[from..end], out);
    rebuild_cr(&reference.cr, chroma, &plan.cr()[from..end], out);
}
