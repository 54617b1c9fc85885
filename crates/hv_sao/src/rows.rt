//! Parts of rows with their offsets.

ghost use Rattle.std.specs.Prelude.{◌≡◌, ℕ, ◌-◌, ◌+◌, ◌<◌, ◌≤◌, List, length};
ghost use Rattle.hv_filter_model.specs.SampleAdaptiveOffset.{sao_sample, IsKind};
ghost use Rattle.hv_sao.specs.Rows.{IsRow, HasPart, BeginsPart, edge_sample};

use crate::bands::fill_bands;
use crate::edges::{EdgeRow, edge_row, part_of_row};
use crate::samples::{VECTOR, edge_category, shown_sample};
use hv_plan::{SaoComponent, SaoKind};
use hv_types::Plane;

/// Samples of a row from place `from` on, before place `to`, with the offsets of their edges,
/// beside their two neighbours. The row begins at place `lead` of `out`.
#[inline(always)]
fn put_edges_between(
    row: EdgeRow<'_>,
    component: SaoComponent,
    lead: usize,
    from: usize,
    to: usize,
    out: &mut [u8],
)
    requires firsts { length row.first.now ≡ length row.samples.now }
    requires seconds { length row.second.now ≡ length row.samples.now }
    requires order { from ≤ to }
    requires end { to ≤ length row.samples.now }
    requires room { lead + length row.samples.now ≤ length out.old }
    ensures { (base : List ℕ) →
        BeginsPart lead from (length row.entry.samples.now)
        (edge_sample component row.entry.samples.now row.entry.first.now row.entry.second.now)
        base out.old →
        BeginsPart lead to (length row.entry.samples.now)
        (edge_sample component row.entry.samples.now row.entry.first.now row.entry.second.now)
        base out.new }
{
    for i in from..to {
        let sample = row.samples[i];
        let category = edge_category(sample, row.first[i], row.second[i]);
        out[lead + i] = shown_sample(component, sample, category);
    }
}

/// Samples with the offsets of their edges, beside their two neighbours, from place `lead` of
/// `out` on. Where a row isn't a multiple of what a vector has, the last ones are done again.
fn put_edges(row: EdgeRow<'_>, component: SaoComponent, lead: usize, out: &mut [u8])
    requires firsts { length row.first.now ≡ length row.samples.now }
    requires seconds { length row.second.now ≡ length row.samples.now }
    requires room { lead + length row.samples.now ≤ length out.old }
    ensures { HasPart lead (length row.entry.samples.now)
        (edge_sample component row.entry.samples.now row.entry.first.now row.entry.second.now)
        out.old out.new }
{
    let count = row.samples.len();
    let whole = count / VECTOR * VECTOR;
    put_edges_between(row, component, lead, 0, whole, out);
    if whole < count {
        let again = count.saturating_sub(VECTOR);
        put_edges_between(row, component, lead, again, count, out);
    }
}

/// The samples of row `y` in the columns `from` to `to`, with their offsets.
pub(crate) fn fill_row(
    component: SaoComponent,
    plane: &Plane,
    y: u32,
    from: u32,
    to: u32,
    out: &mut [u8],
)
    requires kind { IsKind component.kind }
    requires down { y < plane.now.height }
    requires order { from ≤ to }
    requires across { to ≤ plane.now.width }
    requires room { length out.old ≡ to - from }
    ensures { IsRow (λ i. sao_sample component plane.now (from + i) y) out.new }
{
    let samples = part_of_row(plane, y, from, to - from);
    match component.kind {
        SaoKind::Off => out.copy_from_slice(samples),
        SaoKind::Band { position } => fill_bands(samples, position, component, out),
        SaoKind::Edge { class } => {
            out.copy_from_slice(samples);
            let row = edge_row(plane, class, y, from, to);
            put_edges(row, component, (row.start - from) as usize, out);
        }
    }
}
