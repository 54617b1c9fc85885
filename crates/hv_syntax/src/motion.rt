//! The motion of a prediction unit (7.3.8.6, 7.3.8.9).

ghost use Rattle.std.specs.Prelude.{◌-◌, ◌∷◌, [], cond, nat_lt};
ghost use Rattle.hv_residual_model.specs.UnitBins.{PutsUnit};
ghost use Rattle.hv_residual_model.specs.Binarization.{exp_golomb_bins};
ghost use Rattle.hv_unit_model.specs.Bins.{greater0_bin, greater1_bins, rest_bins, mvd_bins, reference_bins, prediction_unit_bins};

use crate::elements::{put_bin, put_where};
use hv_plan::Mv;
use hv_residual::put_exp_golomb;
use hv_tables::{BinSink, CtxTable};

/// Puts `abs_mvd_greater0_flag` of a component.
#[inline(always)]
fn put_greater0<B: BinSink>(sink: &mut B, difference: i16)
    ensures { PutsUnit B.stands_for sink.old sink.new (greater0_bin difference ∷ []) }
{
    put_bin(sink, CtxTable::MvdGreater0, 0, difference != 0);
}

/// Puts `abs_mvd_greater1_flag` of a component, where it isn't 0.
#[inline(always)]
fn put_greater1<B: BinSink>(sink: &mut B, difference: i16)
    ensures { PutsUnit B.stands_for sink.old sink.new (greater1_bins difference) }
{
    let greater1 = difference.unsigned_abs() > 1;
    put_where(sink, difference != 0, CtxTable::MvdGreater1, 0, greater1);
}

/// Puts `abs_mvd_minus2` of a magnitude above 1.
#[inline(always)]
fn put_minus2<B: BinSink>(sink: &mut B, magnitude: u16)
    ensures { PutsUnit B.stands_for sink.old sink.new
        (cond (nat_lt 1 magnitude) (exp_golomb_bins 32 1 (magnitude - 2)) []) }
{
    if magnitude > 1 {
        put_exp_golomb(sink, 1, u32::from(magnitude - 2));
    }
}

/// Puts `abs_mvd_minus2` and `mvd_sign_flag` of a component, where it isn't 0.
#[inline(always)]
fn put_rest<B: BinSink>(sink: &mut B, difference: i16)
    ensures { PutsUnit B.stands_for sink.old sink.new (rest_bins difference) }
{
    if difference != 0 {
        put_minus2(sink, difference.unsigned_abs());
        sink.bypass(difference < 0);
    }
}

/// Puts the difference of a vector from its candidate (`mvd_coding`, 7.3.8.9).
fn put_difference<B: BinSink>(sink: &mut B, difference: Mv)
    ensures { PutsUnit B.stands_for sink.old sink.new (mvd_bins difference) }
{
    put_greater0(sink, difference.x);
    put_greater0(sink, difference.y);
    put_greater1(sink, difference.x);
    put_greater1(sink, difference.y);
    put_rest(sink, difference.x);
    put_rest(sink, difference.y);
}

/// Puts `ref_idx_l0`, where there is more than one reference.
#[inline(always)]
fn put_reference<B: BinSink>(sink: &mut B, references: u8, reference: u8)
    ensures { PutsUnit B.stands_for sink.old sink.new (reference_bins references reference) }
{
    put_where(sink, references > 1, CtxTable::RefIdx, 0, reference == 1);
}

/// Puts the motion of a prediction unit (`prediction_unit`, 7.3.8.6), in a slice of so many
/// references: `ref_idx_l0`, `mvp_l0_flag` and `MvdL0`. It is never merged.
pub fn put_prediction_unit<B: BinSink>(
    sink: &mut B,
    references: u8,
    reference: u8,
    flag: u8,
    difference: Mv,
)
    ensures { PutsUnit B.stands_for sink.old sink.new (prediction_unit_bins references
        record { ref_idx_l0 = reference; mvp_l0_flag = flag; MvdL0 = difference }) }
{
    put_bin(sink, CtxTable::Merge, 0, false);
    put_reference(sink, references, reference);
    put_difference(sink, difference);
    put_bin(sink, CtxTable::MvpFlag, 0, flag == 1);
}
