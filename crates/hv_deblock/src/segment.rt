//! Four lines of an edge.

ghost use Rattle.std.specs.Prelude.{◌≡◌, ◌+◌, ◌-◌, ◌*◌, ◌^◌, ◌%◌, ◌<◌, ◌≤◌};
ghost use Rattle.hv_types.specs.Samples.{IsWhole};
ghost use Rattle.hv_deblock_model.specs.Deblocking.{line_at, line_sample};
ghost use Rattle.hv_deblock.specs.declared.component.Component.TheVariants.{Luma, Chroma};
ghost use Rattle.hv_deblock.specs.Filled.{columns_of, rows_of, samples_of, IsFilled};
ghost use Rattle.hv_deblock.specs.Lines.{lines_after};
ghost use Rattle.hv_deblock.specs.Passes.{edge_line, segment_sample};

use crate::component::Component;
use crate::decisions::{is_filtered, is_smooth, is_strong};
use crate::direction::Edges;
use crate::filters::{ChromaFilter, LineFilter, NormalFilter, StrongFilter};
use crate::thresholds::{beta, tc};
use crate::window::{load_line, store_line};
use hv_tables::chroma_qp;
use hv_types::Plane;

/// Filters four rows across edge number `k`, from row `top` on, each by this filter. Every other
/// sample is left. All rows are read before one is put, so that the compiler finds
/// the place of each once.
#[inline(always)]
fn filter_lines<E: Edges, F: LineFilter>(plane: &mut Plane, filter: &F, k: u32, top: u32)
    requires whole { IsWhole plane.old }
    requires least { 0 < k }
    requires k { 8 * k + 3 < columns_of E.direction plane.old }
    requires fits { 8 * k + 3 < 2 ^ 32 }
    requires top { top + 3 < rows_of E.direction plane.old }
    requires fits_down { top + 3 < 2 ^ 32 }
    ensures { IsFilled E.direction (8 * k - 4) (8 * k + 4) top (top + 4)
        (lines_after (F.filtered filter.now) k (samples_of E.direction plane.old))
        plane.old plane.new }
{
    let margin = filter.margin();
    let first = load_line::<E>(plane, k, top);
    let second = load_line::<E>(plane, k, top + 1);
    let third = load_line::<E>(plane, k, top + 2);
    let fourth = load_line::<E>(plane, k, top + 3);
    store_line::<E>(plane, margin, k, top, filter.filtered(first));
    store_line::<E>(plane, margin, k, top + 1, filter.filtered(second));
    store_line::<E>(plane, margin, k, top + 2, filter.filtered(third));
    store_line::<E>(plane, margin, k, top + 3, filter.filtered(fourth));
}

/// Filters four rows of luma.
#[inline(always)]
fn filter_luma<E: Edges>(plane: &mut Plane, qp: u8, strength: u8, k: u32, top: u32)
    requires whole { IsWhole plane.old }
    requires qp { qp ≤ 51 }
    requires some { 0 < strength }
    requires strength { strength ≤ 2 }
    requires least { 0 < k }
    requires k { 8 * k + 3 < columns_of E.direction plane.old }
    requires fits { 8 * k + 3 < 2 ^ 32 }
    requires top { top + 3 < rows_of E.direction plane.old }
    requires fits_down { top + 3 < 2 ^ 32 }
    ensures { IsFilled E.direction (8 * k - 4) (8 * k + 4) top (top + 4)
        (segment_sample Luma qp strength k top (samples_of E.direction plane.old))
        plane.old plane.new }
{
    let (beta, tc) = (beta(qp), tc(qp, strength));
    let first = load_line::<E>(plane, k, top);
    let last = load_line::<E>(plane, k, top + 3);
    if !is_filtered(beta, first, last) {
        return;
    }
    if is_strong(beta, tc, first, last) {
        filter_lines::<E, _>(plane, &StrongFilter { tc }, k, top);
    } else {
        let smooth_p = is_smooth(beta, first.p, last.p);
        let smooth_q = is_smooth(beta, first.q, last.q);
        let filter = NormalFilter {
            tc,
            smooth_p,
            smooth_q,
        };
        filter_lines::<E, _>(plane, &filter, k, top);
    }
}

/// Filters four rows of chroma.
#[inline(always)]
fn filter_chroma<E: Edges>(plane: &mut Plane, qp: u8, strength: u8, k: u32, top: u32)
    requires whole { IsWhole plane.old }
    requires qp { qp ≤ 51 }
    requires some { 0 < strength }
    requires strength { strength ≤ 2 }
    requires least { 0 < k }
    requires k { 8 * k + 3 < columns_of E.direction plane.old }
    requires fits { 8 * k + 3 < 2 ^ 32 }
    requires top { top + 3 < rows_of E.direction plane.old }
    requires fits_down { top + 3 < 2 ^ 32 }
    ensures { IsFilled E.direction (8 * k - 4) (8 * k + 4) top (top + 4)
        (segment_sample Chroma qp strength k top (samples_of E.direction plane.old))
        plane.old plane.new }
{
    if strength == 2 {
        let tc = tc(chroma_qp(qp), strength);
        filter_lines::<E, _>(plane, &ChromaFilter { tc }, k, top);
    }
}

/// Filters four rows across edge number `k`, from row `top` on, by the quantiser of luma, 0 to 51,
/// and the strength of the edge, 0 to 2. Every other sample is left.
#[inline(always)]
pub(crate) fn filter_segment<E: Edges>(
    plane: &mut Plane,
    component: Component,
    qp: u8,
    strength: u8,
    k: u32,
    top: u32,
)
    requires whole { IsWhole plane.old }
    requires qp { qp ≤ 51 }
    requires strength { strength ≤ 2 }
    requires least { 0 < k }
    requires k { 8 * k + 3 < columns_of E.direction plane.old }
    requires fits { 8 * k + 3 < 2 ^ 32 }
    requires top { top + 3 < rows_of E.direction plane.old }
    requires fits_down { top + 3 < 2 ^ 32 }
    ensures { IsFilled E.direction (8 * k - 4) (8 * k + 4) top (top + 4)
        (segment_sample component qp strength k top (samples_of E.direction plane.old))
        plane.old plane.new }
{
    if strength == 0 {
        return;
    }
    match component {
        Component::Luma => filter_luma::<E>(plane, qp, strength, k, top),
        Component::Chroma => filter_chroma::<E>(plane, qp, strength, k, top),
    }
}
