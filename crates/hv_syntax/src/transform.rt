//! Transform trees (7.3.8.8), and the levels of coding units.

ghost use Rattle.std.specs.Prelude.{◌≡◌, ◌≤◌, ◌-◌, ◌*◌, ◌^◌, ◌∷◌, [], length};
ghost use Rattle.hv_residual_model.specs.UnitBins.{PutsUnit};
ghost use Rattle.hv_plan.specs.Levels.{any_significant};
ghost use Rattle.hv_tree_model.specs.Plans.{prediction_of};
ghost use Rattle.hv_unit_model.specs.BlockSyntax.{transform_block, is_intra, has_luma_flag};
ghost use Rattle.hv_unit_model.specs.Bins.{block_bins, luma_flag_bins, transform_unit_bins, transform_tree_bins};
ghost use Rattle.hv_tree_model.specs.Trees.{any_cb, any_cr, any_level};
ghost use Rattle.hv_syntax.specs.declared.levels.UnitLevels.TheVariants.{Four};
ghost use Rattle.hv_syntax.specs.Levels.{unit_of, units_of, size_of};
ghost use Rattle.hv_syntax.specs.Parts.{quarter_bins};

use crate::elements::{put_bin, put_where};
use crate::levels::{Quarters, TransformUnit, UnitLevels};
use hv_plan::Pred;
use hv_residual::{put_residual, scan_of};
use hv_tables::{BinSink, CtxTable};

/// Puts `residual_coding` of a block whose coded block flag is 1.
#[inline(always)]
fn put_block<B: BinSink>(
    sink: &mut B,
    pred: Pred,
    log2: u8,
    luma: bool,
    levels: &[i16],
    coded: bool,
)
    requires least { 2 ≤ log2 }
    requires most { log2 ≤ 5 }
    requires whole { length levels.now ≡ 2 ^ log2 * 2 ^ log2 }
    requires coded { coded ≡ any_significant levels.now }
    ensures { PutsUnit B.stands_for sink.old sink.new
        (block_bins (transform_block (prediction_of pred) log2 luma) levels.now) }
{
    if coded {
        put_residual(sink, levels, scan_of(pred, log2, luma), log2, luma);
    }
}

/// Whether a coding unit is predicted inside the picture.
#[inline(always)]
pub fn is_intra(pred: Pred) -> bool
    ensures { result ≡ is_intra (prediction_of pred) }
{
    match pred {
        Pred::Intra { .. } => true,
        Pred::Inter { .. } => false,
    }
}

/// Whether `cbf_luma` is coded; else it is inferred to be 1.
#[inline(always)]
pub fn has_luma_flag(pred: Pred, depth: u8, cbf_cb: bool, cbf_cr: bool) -> bool
    ensures { result ≡ has_luma_flag (prediction_of pred) depth cbf_cb cbf_cr }
{
    is_intra(pred) || depth > 0 || cbf_cb || cbf_cr
}

/// Puts `cbf_luma`.
#[inline(always)]
fn put_luma_flag<B: BinSink>(sink: &mut B, pred: Pred, depth: u8, unit: &TransformUnit)
    ensures { PutsUnit B.stands_for sink.old sink.new
        (luma_flag_bins (prediction_of pred) depth (unit_of unit.now)) }
{
    let coded = has_luma_flag(pred, depth, unit.cbf_cb, unit.cbf_cr);
    put_where(
        sink,
        coded,
        CtxTable::CbfLuma,
        u8::from(depth == 0),
        unit.cbf_luma,
    );
}

/// Puts `cbf_luma` and the levels of a transform unit (7.3.8.10).
fn put_transform_unit<B: BinSink>(sink: &mut B, pred: Pred, depth: u8, unit: &TransformUnit)
    ensures { PutsUnit B.stands_for sink.old sink.new
        (transform_unit_bins (prediction_of pred) unit.now.log2 depth (unit_of unit.now)) }
{
    put_luma_flag(sink, pred, depth, unit);
    put_block(sink, pred, unit.log2, true, unit.luma, unit.cbf_luma);
    put_block(sink, pred, unit.log2 - 1, false, unit.cb, unit.cbf_cb);
    put_block(sink, pred, unit.log2 - 1, false, unit.cr, unit.cbf_cr);
}

/// Puts the transform tree of a coding unit of less than 64x64.
fn put_single<B: BinSink>(sink: &mut B, pred: Pred, unit: &TransformUnit)
    ensures { PutsUnit B.stands_for sink.old sink.new (transform_tree_bins (prediction_of pred)
        (unit.now.log2 - 3) (unit_of unit.now ∷ [])) }
{
    put_bin(sink, CtxTable::CbfChroma, 0, unit.cbf_cb);
    put_bin(sink, CtxTable::CbfChroma, 0, unit.cbf_cr);
    put_transform_unit(sink, pred, 0, unit);
}

/// Puts a quarter of a coding unit of 64x64, of which `cbf_cb` and `cbf_cr` are these.
fn put_quarter<B: BinSink>(
    sink: &mut B,
    pred: Pred,
    cbf_cb: bool,
    cbf_cr: bool,
    unit: &TransformUnit,
)
    requires { unit.now.log2 ≡ 5 }
    ensures { PutsUnit B.stands_for sink.old sink.new
        (quarter_bins (prediction_of pred) cbf_cb cbf_cr (unit_of unit.now)) }
{
    put_where(sink, cbf_cb, CtxTable::CbfChroma, 1, unit.cbf_cb);
    put_where(sink, cbf_cr, CtxTable::CbfChroma, 1, unit.cbf_cr);
    put_transform_unit(sink, pred, 1, unit);
}

/// `cbf_cb` of a coding unit of 64x64.
pub fn cbf_cb(quarters: &Quarters) -> bool
    ensures { result ≡ any_cb (units_of (Four quarters.now)) }
{
    quarters.first.cbf_cb
        || quarters.second.cbf_cb
        || quarters.third.cbf_cb
        || quarters.fourth.cbf_cb
}

/// `cbf_cr` of a coding unit of 64x64.
pub fn cbf_cr(quarters: &Quarters) -> bool
    ensures { result ≡ any_cr (units_of (Four quarters.now)) }
{
    quarters.first.cbf_cr
        || quarters.second.cbf_cr
        || quarters.third.cbf_cr
        || quarters.fourth.cbf_cr
}

/// Puts the transform tree of a coding unit of 64x64.
fn put_four<B: BinSink>(sink: &mut B, pred: Pred, quarters: &Quarters)
    ensures { PutsUnit B.stands_for sink.old sink.new
        (transform_tree_bins (prediction_of pred) 3 (units_of (Four quarters.now))) }
{
    let cb = cbf_cb(quarters);
    let cr = cbf_cr(quarters);
    put_bin(sink, CtxTable::CbfChroma, 0, cb);
    put_bin(sink, CtxTable::CbfChroma, 0, cr);
    put_quarter(sink, pred, cb, cr, &quarters.first);
    put_quarter(sink, pred, cb, cr, &quarters.second);
    put_quarter(sink, pred, cb, cr, &quarters.third);
    put_quarter(sink, pred, cb, cr, &quarters.fourth);
}

/// Puts the transform tree of a coding unit (`transform_tree`, 7.3.8.8).
pub fn put_transform_tree<B: BinSink>(sink: &mut B, pred: Pred, levels: &UnitLevels)
    ensures { PutsUnit B.stands_for sink.old sink.new
        (transform_tree_bins (prediction_of pred) (size_of levels.now) (units_of levels.now)) }
{
    match levels {
        UnitLevels::One(unit) => put_single(sink, pred, unit),
        UnitLevels::Four(quarters) => put_four(sink, pred, quarters),
    }
}

/// Whether a transform unit has a level that isn't 0.
#[inline(always)]
fn has_level(unit: &TransformUnit) -> bool
    ensures { result ≡ any_level (unit_of unit.now ∷ []) }
{
    unit.cbf_luma || unit.cbf_cb || unit.cbf_cr
}

/// Whether one of the four quarters has a level that isn't 0.
fn have_levels(quarters: &Quarters) -> bool
    ensures { result ≡ any_level (units_of (Four quarters.now)) }
{
    has_level(&quarters.first)
        || has_level(&quarters.second)
        || has_level(&quarters.third)
        || has_level(&quarters.fourth)
}

/// Whether a coding unit has a level that isn't 0 (`rqt_root_cbf`).
pub fn has_levels(levels: &UnitLevels) -> bool
    ensures { result ≡ any_level (units_of levels.now) }
{
    match levels {
        UnitLevels::One(unit) => has_level(unit),
        UnitLevels::Four(quarters) => have_levels(quarters),
    }
}
