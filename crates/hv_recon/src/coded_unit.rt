//! Coding of a transform unit: its block of luma, and those of Cb and Cr.

ghost use Rattle.std.specs.Prelude.{◌≡◌, ◌+◌, ◌*◌, ◌^◌, ◌<◌, ◌≤◌, length};
ghost use Rattle.hv_types.specs.Video.{IsPicture};
ghost use Rattle.hv_tree_model.specs.Trees.{side};
ghost use Rattle.hv_sample_model.specs.IntraPrediction.{substituted};
ghost use Rattle.hv_tree_model.specs.Sites.{column_of, row_of, x0, y0};
ghost use Rattle.hv_recon_model.specs.SeenSamples.{IsPut, luma_spot, seen_line};
ghost use Rattle.hv_recon.specs.CodedUnits.{IsUnitCoded, KeepsEarlier};
ghost use Rattle.hv_recon.specs.Leaves.{luma_around};
ghost use Rattle.hv_recon.specs.Coding.{input_block, with_levels, levels_at, block_at};

use crate::around::View;
use crate::coded_block::{code_intra, read_block};
use crate::put::put_block;
use crate::shapes::{Spot, Unit};
use crate::sizes::side_of;
use crate::unit::{cb_around, chroma_view, column_of, cr_around, luma_view, row_of};
use hv_block::{CtbPlan, Neighbours, Samples};
use hv_intra::Line;
use hv_plan::Place;
use hv_tables::chroma_qp;
use hv_types::{Picture, Plane};

/// Copies what a picture has of the transform block of luma of 2^log2 columns and rows at this
/// address of the coding tree block at this place to `out`, by rows. It takes no memory and always
/// answers.
pub fn read_luma(place: Place, input: &Picture, address: u8, log2: u8, out: &mut [u8])
    requires some { 0 < place.width }
    requires least { 2 ≤ log2 }
    requires most { log2 ≤ 5 }
    requires address { address < 64 }
    requires wide { x0 place address + 2 ^ log2 ≤ input.now.luma.width }
    requires high { y0 place address + 2 ^ log2 ≤ input.now.luma.height }
    requires room { length out.old ≡ 2 ^ log2 * 2 ^ log2 }
    ensures { out.new ≡ input_block input.now.luma (x0 place address) (y0 place address) log2 }
{
    let across = place.width.div_ceil(64);
    let left = 64 * (place.index % across) as usize + 8 * column_of(address);
    let top = 64 * (place.index / across) as usize + 8 * row_of(address);
    read_block(&input.luma, left, top, log2, out);
}

/// The neighbours of a block of 2^log2 columns, those that aren't available substituted
/// (8.4.4.2.2).
fn line_of(known: &[Option<u8>], log2: u8) -> Line
    requires least { 2 ≤ log2 }
    requires most { log2 ≤ 5 }
    requires line { length known.now ≡ 4 * 2 ^ log2 + 1 }
    ensures value { result ≡ substituted known.now }
    ensures count { length result ≡ 4 * 2 ^ log2 + 1 }
{
    Line::of(known)
}

/// The neighbours of the transform block of luma of 2^log2 columns and rows at this address, those
/// that aren't available substituted (8.4.4.2.2), as they are seen when the squares before it are
/// decoded. It takes no memory and always answers.
pub fn luma_line(place: Place, near: &Neighbours, samples: &Samples, address: u8, log2: u8) -> Line
    requires some { 0 < place.width }
    requires least { 2 ≤ log2 }
    requires most { log2 ≤ 5 }
    requires address { address < 64 }
    requires across { 8 * column_of address + 2 ^ log2 ≤ 64 }
    requires down { 8 * row_of address + 2 ^ log2 ≤ 64 }
    ensures value { result ≡ substituted (seen_line (luma_spot place) (luma_around near.now)
        samples.now.luma address (8 * column_of address) (8 * row_of address) log2) }
    ensures count { length result ≡ 4 * 2 ^ log2 + 1 }
{
    let (column, row) = (column_of(address), row_of(address));
    let at = usize::from(address);
    let view = luma_view(place, near);
    let line = view.line(samples.luma(), at, 8 * column, 8 * row, log2);
    line_of(&line[..4 * side_of(log2) + 1], log2)
}

/// Codes a transform block of `COUNT` samples: gives it its levels, in the places from `from` on,
/// and its samples among those of a coding tree block.
fn code_samples<const COUNT: usize>(
    view: &View<'_>,
    spot: Spot,
    input: &Plane,
    from: usize,
    levels: &mut [i16],
    samples: &mut [u8],
)
    requires count { COUNT ≡ 4 ^ spot.log2 }
    requires area { COUNT ≡ 2 ^ spot.log2 * 2 ^ spot.log2 }
    requires few { COUNT ≤ 1024 }
    requires across { spot.x + 2 ^ spot.log2 ≤ view.now.side }
    requires down { spot.y + 2 ^ spot.log2 ≤ view.now.side }
    requires wide { view.now.left + spot.x + 2 ^ spot.log2 ≤ input.now.width }
    requires high { view.now.top + spot.y + 2 ^ spot.log2 ≤ input.now.height }
    requires room { from + 2 ^ spot.log2 * 2 ^ spot.log2 ≤ length levels.old }
    requires whole { length samples.old ≡ view.now.side * view.now.side }
    ensures levels { levels.new ≡
        with_levels levels.old from (levels_at view.now spot input.now samples.old) }
    ensures put { IsPut view.now.side spot.x spot.y spot.log2
        (block_at view.now spot (levels_at view.now spot input.now samples.old) samples.old)
        samples.old samples.new }
    ensures count { length samples.new ≡ view.now.side * view.now.side }
{
    let line = view.line(samples, spot.address, spot.x, spot.y, spot.log2);
    let known = &line[..4 * side_of(spot.log2) + 1];
    let (x, y) = (view.left + spot.x, view.top + spot.y);
    let mut source = [0; COUNT];
    read_block(input, x, y, spot.log2, &mut source);
    let mut block = [0; COUNT];
    let part = &mut levels[from..from + COUNT];
    code_intra::<COUNT>(known, &source, spot, part, &mut block);
    put_block(view.side, spot.x, spot.y, spot.log2, &block, samples);
}

/// Codes a transform block from the samples before its address and around.
fn code_block(
    view: &View<'_>,
    spot: Spot,
    input: &Plane,
    from: usize,
    levels: &mut [i16],
    samples: &mut [u8],
)
    requires across { spot.x + 2 ^ spot.log2 ≤ view.now.side }
    requires down { spot.y + 2 ^ spot.log2 ≤ view.now.side }
    requires wide { view.now.left + spot.x + 2 ^ spot.log2 ≤ input.now.width }
    requires high { view.now.top + spot.y + 2 ^ spot.log2 ≤ input.now.height }
    requires room { from + 2 ^ spot.log2 * 2 ^ spot.log2 ≤ length levels.old }
    requires whole { length samples.old ≡ view.now.side * view.now.side }
    ensures levels { levels.new ≡
        with_levels levels.old from (levels_at view.now spot input.now samples.old) }
    ensures put { IsPut view.now.side spot.x spot.y spot.log2
        (block_at view.now spot (levels_at view.now spot input.now samples.old) samples.old)
        samples.old samples.new }
    ensures count { length samples.new ≡ view.now.side * view.now.side }
{
    match spot.log2 {
        2 => code_samples::<16>(view, spot, input, from, levels, samples),
        3 => code_samples::<64>(view, spot, input, from, levels, samples),
        4 => code_samples::<256>(view, spot, input, from, levels, samples),
        _ => code_samples::<1024>(view, spot, input, from, levels, samples),
    }
}

/// Codes the block of luma of a transform unit.
fn code_luma(view: &View<'_>, spot: Spot, input: &Plane, plan: &mut CtbPlan, out: &mut Samples)
    requires side { view.now.side ≡ 64 }
    requires across { spot.x + 2 ^ spot.log2 ≤ 64 }
    requires down { spot.y + 2 ^ spot.log2 ≤ 64 }
    requires wide { view.now.left + spot.x + 2 ^ spot.log2 ≤ input.now.width }
    requires high { view.now.top + spot.y + 2 ^ spot.log2 ≤ input.now.height }
    requires room { 64 * spot.address + 2 ^ spot.log2 * 2 ^ spot.log2 ≤ 4096 }
    ensures room { length plan.old.luma ≡ 4096 }
    ensures plan { plan.new ≡ record plan.old {
      luma = with_levels plan.old.luma (64 * spot.address)
          (levels_at view.now spot input.now out.old.luma);
    } }
    ensures put { IsPut 64 spot.x spot.y spot.log2
        (block_at view.now spot (levels_at view.now spot input.now out.old.luma) out.old.luma)
        out.old.luma out.new.luma }
    ensures cb { out.new.cb ≡ out.old.cb }
    ensures cr { out.new.cr ≡ out.old.cr }
{
    let from = 64 * spot.address;
    code_block(view, spot, input, from, plan.luma_mut(), out.luma_mut());
}

/// Codes its block of Cb.
fn code_cb(view: &View<'_>, spot: Spot, input: &Plane, plan: &mut CtbPlan, out: &mut Samples)
    requires side { view.now.side ≡ 32 }
    requires across { spot.x + 2 ^ spot.log2 ≤ 32 }
    requires down { spot.y + 2 ^ spot.log2 ≤ 32 }
    requires wide { view.now.left + spot.x + 2 ^ spot.log2 ≤ input.now.width }
    requires high { view.now.top + spot.y + 2 ^ spot.log2 ≤ input.now.height }
    requires room { 16 * spot.address + 2 ^ spot.log2 * 2 ^ spot.log2 ≤ 1024 }
    ensures room { length plan.old.cb ≡ 1024 }
    ensures plan { plan.new ≡ record plan.old {
      cb = with_levels plan.old.cb (16 * spot.address)
          (levels_at view.now spot input.now out.old.cb);
    } }
    ensures put { IsPut 32 spot.x spot.y spot.log2
        (block_at view.now spot (levels_at view.now spot input.now out.old.cb) out.old.cb)
        out.old.cb out.new.cb }
    ensures luma { out.new.luma ≡ out.old.luma }
    ensures cr { out.new.cr ≡ out.old.cr }
{
    let from = 16 * spot.address;
    code_block(view, spot, input, from, plan.cb_mut(), out.cb_mut());
}

/// Codes its block of Cr.
fn code_cr(view: &View<'_>, spot: Spot, input: &Plane, plan: &mut CtbPlan, out: &mut Samples)
    requires side { view.now.side ≡ 32 }
    requires across { spot.x + 2 ^ spot.log2 ≤ 32 }
    requires down { spot.y + 2 ^ spot.log2 ≤ 32 }
    requires wide { view.now.left + spot.x + 2 ^ spot.log2 ≤ input.now.width }
    requires high { view.now.top + spot.y + 2 ^ spot.log2 ≤ input.now.height }
    requires room { 16 * spot.address + 2 ^ spot.log2 * 2 ^ spot.log2 ≤ 1024 }
    ensures room { length plan.old.cr ≡ 1024 }
    ensures plan { plan.new ≡ record plan.old {
      cr = with_levels plan.old.cr (16 * spot.address)
          (levels_at view.now spot input.now out.old.cr);
    } }
    ensures put { IsPut 32 spot.x spot.y spot.log2
        (block_at view.now spot (levels_at view.now spot input.now out.old.cr) out.old.cr)
        out.old.cr out.new.cr }
    ensures luma { out.new.luma ≡ out.old.luma }
    ensures cb { out.new.cb ≡ out.old.cb }
{
    let from = 16 * spot.address;
    code_block(view, spot, input, from, plan.cr_mut(), out.cr_mut());
}

/// Codes a transform unit that lies in the picture (7.3.8.10, 8.4.4.1): its three blocks, each
/// from the samples of its own component.
pub fn code_unit(
    plan: &mut CtbPlan,
    place: Place,
    near: &Neighbours,
    unit: Unit,
    input: &Picture,
    out: &mut Samples,
)
    requires right { x0 place unit.address + side unit.size ≤ place.width }
    requires bottom { y0 place unit.address + side unit.size ≤ place.height }
    requires whole { IsPicture place.width place.height input.now }
    ensures coded { IsUnitCoded input.now plan.new place near.now unit.size unit.address unit.mode
        unit.qp out.old out.new }
    ensures kept { KeepsEarlier unit.address plan.old plan.new }
{
    let (column, row) = (column_of(unit.address), row_of(unit.address));
    let address = usize::from(unit.address);
    let luma = Spot {
        address,
        x: 8 * column,
        y: 8 * row,
        log2: unit.size + 3,
        mode: unit.mode,
        luma: true,
        qp: unit.qp,
    };
    let chroma = Spot {
        address,
        x: 4 * column,
        y: 4 * row,
        log2: unit.size + 2,
        mode: unit.mode,
        luma: false,
        qp: chroma_qp(unit.qp),
    };
    code_luma(&luma_view(place, near), luma, &input.luma, plan, out);
    code_cb(
        &chroma_view(place, cb_around(near)),
        chroma,
        &input.cb,
        plan,
        out,
    );
    code_cr(
        &chroma_view(place, cr_around(near)),
        chroma,
        &input.cr,
        plan,
        out,
    );
}
