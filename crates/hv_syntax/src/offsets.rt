//! Sample adaptive offsets of a coding tree block (7.3.8.3).

ghost use Rattle.std.specs.Prelude.{◌≡◌, ◌∷◌, [], min};
ghost use Rattle.std.specs.Int.RustNames.{unsigned_abs};
ghost use Rattle.hv_residual_model.specs.UnitBins.{PutsUnit};
ghost use Rattle.hv_residual_model.specs.ResidualBins.{signs, sign_bins};
ghost use Rattle.hv_plan.specs.declared.offsets.SaoKind.TheVariants.{Band, Edge};
ghost use Rattle.hv_unit_model.specs.Bins.{sao_bins, sao_type_bins, offset_abs_bins, offsets_abs_bins, component_bins, cr_bins};
ghost use Rattle.hv_syntax.specs.Parts.{offset_sign_bins};

use crate::elements::{put_bin, put_where};
use hv_near::Site;
use hv_plan::{SaoComponent, SaoKind, SaoParam};
use hv_residual::{put_fixed_length, put_truncated_unary};
use hv_tables::{BinSink, CtxTable};

/// Puts `sao_type_idx_luma` or `sao_type_idx_chroma`, whose second bin is in bypass.
fn put_type<B: BinSink>(sink: &mut B, kind: SaoKind)
    ensures { PutsUnit B.stands_for sink.old sink.new (sao_type_bins kind) }
{
    match kind {
        SaoKind::Off => put_bin(sink, CtxTable::SaoType, 0, false),
        SaoKind::Band { .. } => {
            put_bin(sink, CtxTable::SaoType, 0, true);
            sink.bypass(false);
        }
        SaoKind::Edge { .. } => {
            put_bin(sink, CtxTable::SaoType, 0, true);
            sink.bypass(true);
        }
    }
}

/// `sao_offset_abs` of an offset, at most 7.
#[inline(always)]
fn magnitude(offset: i8) -> u8
    ensures { result ≡ min (unsigned_abs offset) 7 }
{
    offset.unsigned_abs().min(7)
}

/// Puts `sao_offset_abs` of an offset.
#[inline(always)]
fn put_magnitude<B: BinSink>(sink: &mut B, offset: i8)
    ensures { PutsUnit B.stands_for sink.old sink.new (offset_abs_bins offset) }
{
    put_truncated_unary(sink, 7, magnitude(offset));
}

/// Puts `sao_offset_abs` of four offsets.
fn put_four_magnitudes<B: BinSink>(sink: &mut B, first: i8, second: i8, third: i8, fourth: i8)
    ensures { PutsUnit B.stands_for sink.old sink.new
        (offsets_abs_bins (first ∷ second ∷ third ∷ fourth ∷ [])) }
{
    put_magnitude(sink, first);
    put_magnitude(sink, second);
    put_magnitude(sink, third);
    put_magnitude(sink, fourth);
}

/// Puts `sao_offset_abs` of the offsets.
fn put_magnitudes<B: BinSink>(sink: &mut B, offsets: [i8; 4])
    ensures { PutsUnit B.stands_for sink.old sink.new (offsets_abs_bins offsets) }
{
    let [first, second, third, fourth] = offsets;
    put_four_magnitudes(sink, first, second, third, fourth);
}

/// Puts `sao_offset_sign` of an offset, where it isn't 0.
#[inline(always)]
fn put_sign<B: BinSink>(sink: &mut B, offset: i8)
    ensures { PutsUnit B.stands_for sink.old sink.new (offset_sign_bins offset) }
{
    if offset != 0 {
        sink.bypass(offset < 0);
    }
}

/// Puts `sao_offset_sign` of those of four offsets that aren't 0.
fn put_four_signs<B: BinSink>(sink: &mut B, first: i8, second: i8, third: i8, fourth: i8)
    ensures { PutsUnit B.stands_for sink.old sink.new
        (sign_bins (signs (first ∷ second ∷ third ∷ fourth ∷ []))) }
{
    put_sign(sink, first);
    put_sign(sink, second);
    put_sign(sink, third);
    put_sign(sink, fourth);
}

/// Puts `sao_offset_sign` of the offsets that aren't 0.
fn put_signs<B: BinSink>(sink: &mut B, offsets: [i8; 4])
    ensures { PutsUnit B.stands_for sink.old sink.new (sign_bins (signs offsets)) }
{
    let [first, second, third, fourth] = offsets;
    put_four_signs(sink, first, second, third, fourth);
}

/// Puts the offsets of bands, their signs, and `sao_band_position`.
fn put_band<B: BinSink>(sink: &mut B, offsets: [i8; 4], position: u8)
    ensures { PutsUnit B.stands_for sink.old sink.new
        (component_bins (Band position) offsets) }
{
    put_magnitudes(sink, offsets);
    put_signs(sink, offsets);
    put_fixed_length(sink, 5, u32::from(position));
}

/// Puts the offsets of edges, and `sao_eo_class_luma` or `sao_eo_class_chroma`.
fn put_edge<B: BinSink>(sink: &mut B, offsets: [i8; 4], class: u8)
    ensures { PutsUnit B.stands_for sink.old sink.new (component_bins (Edge class) offsets) }
{
    put_magnitudes(sink, offsets);
    put_fixed_length(sink, 2, u32::from(class));
}

/// Puts what follows the type of luma or Cb: offsets, and signs with `sao_band_position`, or
/// `sao_eo_class_luma` or `sao_eo_class_chroma`.
fn put_component<B: BinSink>(sink: &mut B, component: &SaoComponent)
    ensures { PutsUnit B.stands_for sink.old sink.new
        (component_bins component.now.kind component.now.offsets) }
{
    match component.kind {
        SaoKind::Off => {}
        SaoKind::Band { position } => put_band(sink, component.offsets, position),
        SaoKind::Edge { class } => put_edge(sink, component.offsets, class),
    }
}

/// Puts what is coded of Cr, whose type and class are those of Cb.
fn put_cr<B: BinSink>(sink: &mut B, component: &SaoComponent)
    ensures { PutsUnit B.stands_for sink.old sink.new
        (cr_bins component.now.kind component.now.offsets) }
{
    match component.kind {
        SaoKind::Off => {}
        SaoKind::Band { position } => put_band(sink, component.offsets, position),
        SaoKind::Edge { .. } => put_magnitudes(sink, component.offsets),
    }
}

/// Puts the sample adaptive offsets of a coding tree block (`sao`, 7.3.8.3). No merge flag is 1.
pub fn put_offsets<B: BinSink>(sink: &mut B, site: &Site, sao: &SaoParam)
    ensures { PutsUnit B.stands_for sink.old sink.new (sao_bins site.now.place sao.now) }
{
    put_where(sink, site.column > 0, CtxTable::SaoMerge, 0, false);
    put_where(sink, site.row > 0, CtxTable::SaoMerge, 0, false);
    put_type(sink, sao.luma.kind);
    put_component(sink, &sao.luma);
    put_type(sink, sao.cb.kind);
    put_component(sink, &sao.cb);
    put_cr(sink, &sao.cr);
}
