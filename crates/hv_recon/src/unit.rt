//! A transform unit: its block of luma, and those of Cb and Cr.

ghost use Rattle.std.specs.Prelude.{◌≡◌, ◌+◌, ◌*◌, ◌^◌, ◌<◌, ◌≤◌, length};
ghost use Rattle.hv_tree_model.specs.Sites.{column_of, row_of};
ghost use Rattle.hv_tree_model.specs.Plans.{part};
ghost use Rattle.hv_recon_model.specs.SeenSamples.{IsPut, luma_spot, chroma_spot, seen_line, seen_block};
ghost use Rattle.hv_recon.specs.Leaves.{edges_in, luma_around, cb_around, cr_around};
ghost use Rattle.hv_recon.specs.Units.{IsUnitPut};
ghost use Rattle.hv_recon.specs.Views.{edges_of, around_of, spot_of};

use crate::around::{SampleEdges, SamplesAround, View};
use crate::put::put_block;
use crate::shapes::{Spot, Unit};
use crate::sizes::{area_of, side_of};
use crate::transform_block::rebuild_intra;
use hv_block::{CtbPlan, Edges, Neighbours, Samples};
use hv_plan::Place;
use hv_tables::chroma_qp;

fn luma_edges(edges: &Option<Edges>) -> Option<SampleEdges<'_>>
    ensures { edges_of result ≡ edges_in (λ e. e.right_luma) (λ e. e.bottom_luma) edges.now }
{
    match edges {
        None => None,
        Some(e) => Some(SampleEdges {
            right: &e.right_luma,
            bottom: &e.bottom_luma,
        }),
    }
}

fn cb_edges(edges: &Option<Edges>) -> Option<SampleEdges<'_>>
    ensures { edges_of result ≡ edges_in (λ e. e.right_cb) (λ e. e.bottom_cb) edges.now }
{
    match edges {
        None => None,
        Some(e) => Some(SampleEdges {
            right: &e.right_cb,
            bottom: &e.bottom_cb,
        }),
    }
}

fn cr_edges(edges: &Option<Edges>) -> Option<SampleEdges<'_>>
    ensures { edges_of result ≡ edges_in (λ e. e.right_cr) (λ e. e.bottom_cr) edges.now }
{
    match edges {
        None => None,
        Some(e) => Some(SampleEdges {
            right: &e.right_cr,
            bottom: &e.bottom_cr,
        }),
    }
}

/// A block of luma.
pub fn luma_view(place: Place, near: &Neighbours) -> View<'_>
    requires { 0 < place.width }
    ensures spot { spot_of result ≡ luma_spot place }
    ensures around { around_of result.around ≡ luma_around near.now }
{
    let across = place.width.div_ceil(64);
    View {
        side: 64,
        left: 64 * (place.index % across) as usize,
        top: 64 * (place.index / across) as usize,
        width: place.width as usize,
        height: place.height as usize,
        around: SamplesAround {
            left: luma_edges(&near.left),
            above_left: luma_edges(&near.above_left),
            above: luma_edges(&near.above),
            above_right: luma_edges(&near.above_right),
        },
    }
}

/// A block of Cb or Cr, with what lies around it.
pub fn chroma_view(place: Place, around: SamplesAround<'_>) -> View<'_>
    requires { 0 < place.width }
    ensures spot { spot_of result ≡ chroma_spot place }
    ensures around { result.around ≡ around.entry }
{
    let across = place.width.div_ceil(64);
    View {
        side: 32,
        left: 32 * (place.index % across) as usize,
        top: 32 * (place.index / across) as usize,
        width: (place.width / 2) as usize,
        height: (place.height / 2) as usize,
        around,
    }
}

pub fn cb_around(near: &Neighbours) -> SamplesAround<'_>
    ensures { around_of result ≡ cb_around near.now }
{
    SamplesAround {
        left: cb_edges(&near.left),
        above_left: cb_edges(&near.above_left),
        above: cb_edges(&near.above),
        above_right: cb_edges(&near.above_right),
    }
}

pub fn cr_around(near: &Neighbours) -> SamplesAround<'_>
    ensures { around_of result ≡ cr_around near.now }
{
    SamplesAround {
        left: cr_edges(&near.left),
        above_left: cr_edges(&near.above_left),
        above: cr_edges(&near.above),
        above_right: cr_edges(&near.above_right),
    }
}

/// Rebuilds a transform block among the samples of a coding tree block, from those before its
/// address and around.
fn rebuild_block(view: &View<'_>, spot: Spot, levels: &[i16], samples: &mut [u8])
    requires across { spot.x + 2 ^ spot.log2 ≤ view.now.side }
    requires down { spot.y + 2 ^ spot.log2 ≤ view.now.side }
    requires levels { length levels.now ≡ 2 ^ spot.log2 * 2 ^ spot.log2 }
    requires whole { length samples.old ≡ view.now.side * view.now.side }
    ensures put { IsPut view.now.side spot.x spot.y spot.log2
        (seen_block spot.log2 spot.mode spot.luma spot.qp levels.now
        (seen_line (spot_of view.now) (around_of view.now.around) samples.old spot.address spot.x
        spot.y spot.log2)) samples.old samples.new }
    ensures count { length samples.new ≡ view.now.side * view.now.side }
{
    match spot.log2 {
        2 => rebuild_samples::<16>(view, spot, levels, samples),
        3 => rebuild_samples::<64>(view, spot, levels, samples),
        4 => rebuild_samples::<256>(view, spot, levels, samples),
        _ => rebuild_samples::<1024>(view, spot, levels, samples),
    }
}

/// Rebuilds a transform block of `COUNT` samples.
fn rebuild_samples<const COUNT: usize>(
    view: &View<'_>,
    spot: Spot,
    levels: &[i16],
    samples: &mut [u8],
)
    requires count { COUNT ≡ 4 ^ spot.log2 }
    requires area { COUNT ≡ 2 ^ spot.log2 * 2 ^ spot.log2 }
    requires few { COUNT ≤ 1024 }
    requires across { spot.x + 2 ^ spot.log2 ≤ view.now.side }
    requires down { spot.y + 2 ^ spot.log2 ≤ view.now.side }
    requires levels { length levels.now ≡ 2 ^ spot.log2 * 2 ^ spot.log2 }
    requires whole { length samples.old ≡ view.now.side * view.now.side }
    ensures put { IsPut view.now.side spot.x spot.y spot.log2
        (seen_block spot.log2 spot.mode spot.luma spot.qp levels.now
        (seen_line (spot_of view.now) (around_of view.now.around) samples.old spot.address spot.x
        spot.y spot.log2)) samples.old samples.new }
    ensures count { length samples.new ≡ view.now.side * view.now.side }
{
    let line = view.line(samples, spot.address, spot.x, spot.y, spot.log2);
    let known = &line[..4 * side_of(spot.log2) + 1];
    let mut block = [0; COUNT];
    rebuild_intra(
        known, levels, spot.log2, spot.qp, spot.mode, spot.luma, &mut block,
    );
    put_block(view.side, spot.x, spot.y, spot.log2, &block, samples);
}

/// Rebuilds the block of luma of a transform unit of this size at this address.
fn rebuild_luma(view: &View<'_>, spot: Spot, levels: &[i16], out: &mut Samples)
    requires side { view.now.side ≡ 64 }
    requires across { spot.x + 2 ^ spot.log2 ≤ 64 }
    requires down { spot.y + 2 ^ spot.log2 ≤ 64 }
    requires levels { length levels.now ≡ 2 ^ spot.log2 * 2 ^ spot.log2 }
    ensures put { IsPut 64 spot.x spot.y spot.log2
        (seen_block spot.log2 spot.mode spot.luma spot.qp levels.now
        (seen_line (spot_of view.now) (around_of view.now.around) out.old.luma spot.address spot.x
        spot.y spot.log2)) out.old.luma out.new.luma }
    ensures cb { out.new.cb ≡ out.old.cb }
    ensures cr { out.new.cr ≡ out.old.cr }
{
    rebuild_block(view, spot, levels, out.luma_mut());
}

/// Rebuilds its block of Cb.
fn rebuild_cb(view: &View<'_>, spot: Spot, levels: &[i16], out: &mut Samples)
    requires side { view.now.side ≡ 32 }
    requires across { spot.x + 2 ^ spot.log2 ≤ 32 }
    requires down { spot.y + 2 ^ spot.log2 ≤ 32 }
    requires levels { length levels.now ≡ 2 ^ spot.log2 * 2 ^ spot.log2 }
    ensures put { IsPut 32 spot.x spot.y spot.log2
        (seen_block spot.log2 spot.mode spot.luma spot.qp levels.now
        (seen_line (spot_of view.now) (around_of view.now.around) out.old.cb spot.address spot.x
        spot.y spot.log2)) out.old.cb out.new.cb }
    ensures luma { out.new.luma ≡ out.old.luma }
    ensures cr { out.new.cr ≡ out.old.cr }
{
    rebuild_block(view, spot, levels, out.cb_mut());
}

/// Rebuilds its block of Cr.
fn rebuild_cr(view: &View<'_>, spot: Spot, levels: &[i16], out: &mut Samples)
    requires side { view.now.side ≡ 32 }
    requires across { spot.x + 2 ^ spot.log2 ≤ 32 }
    requires down { spot.y + 2 ^ spot.log2 ≤ 32 }
    requires levels { length levels.now ≡ 2 ^ spot.log2 * 2 ^ spot.log2 }
    ensures put { IsPut 32 spot.x spot.y spot.log2
        (seen_block spot.log2 spot.mode spot.luma spot.qp levels.now
        (seen_line (spot_of view.now) (around_of view.now.around) out.old.cr spot.address spot.x
        spot.y spot.log2)) out.old.cr out.new.cr }
    ensures luma { out.new.luma ≡ out.old.luma }
    ensures cb { out.new.cb ≡ out.old.cb }
{
    rebuild_block(view, spot, levels, out.cr_mut());
}

/// The column of a square by its address in z-scan order (6.5.2).
#[tactic(auto, unfolding(hv_tree_model::specs::Sites::column_of))]
pub fn column_of(address: u8) -> usize
    requires { address < 64 }
    ensures value { result ≡ column_of address }
    ensures small { result < 8 }
{
    usize::from(address % 2 + 2 * (address / 4 % 2) + 4 * (address / 16 % 2))
}

/// Its row.
#[tactic(auto, unfolding(hv_tree_model::specs::Sites::row_of))]
pub fn row_of(address: u8) -> usize
    requires { address < 64 }
    ensures value { result ≡ row_of address }
    ensures small { result < 8 }
{
    usize::from(address / 2 % 2 + 2 * (address / 8 % 2) + 4 * (address / 32 % 2))
}

/// Rebuilds a transform unit (7.3.8.10, 8.4.4.1): its three blocks, each from the samples of its
/// own component.
pub fn rebuild_unit(plan: &CtbPlan, place: Place, near: &Neighbours, unit: Unit, out: &mut Samples)
    requires { 0 < place.width }
    ensures { IsUnitPut plan.now place near.now unit.size unit.address unit.mode unit.qp out.old
        out.new }
{
    let (column, row) = (column_of(unit.address), row_of(unit.address));
    let address = usize::from(unit.address);
    let luma = Spot {
        address,
        x: 8 * column,
        y: 8 * row,
        log2: unit.size + 3,
        mode: unit.mode,
        luma: true,
        qp: unit.qp,
    };
    let chroma = Spot {
        address,
        x: 4 * column,
        y: 4 * row,
        log2: unit.size + 2,
        mode: unit.mode,
        luma: false,
        qp: chroma_qp(unit.qp),
    };
    let levels = &plan.luma()[64 * address..64 * address + area_of(luma.log2)];
    rebuild_luma(&luma_view(place, near), luma, levels, out);
    let (from, end) = (16 * address, 16 * address + area_of(chroma.log2));
    rebuild_cb(
        &chroma_view(place, cb_around(near)),
        chroma,
        &plan.cb()[from..end],
        out,
    );
    rebuild_cr(
        &chroma_view(place, cr_around(near)),
        chroma,
        &plan.cr()[from..end],
        out,
    );
}
