//! Coding units (7.3.8.5).

ghost use Rattle.std.specs.Prelude.{◌≡◌};
ghost use Rattle.hv_residual_model.specs.UnitBins.{PutsUnit};
ghost use Rattle.hv_tree_model.specs.Plans.{prediction_of};
ghost use Rattle.hv_tree_model.specs.Trees.{any_level};
ghost use Rattle.hv_unit_model.specs.Bins.{pred_mode_bins, intra_part_bins};
ghost use Rattle.hv_syntax.specs.Levels.{units_of, size_of};
ghost use Rattle.hv_syntax.specs.Parts.{rooted_bins, intra_bins, inter_bins};

use crate::elements::put_bin;
use crate::levels::UnitLevels;
use crate::modes::put_luma_mode;
use crate::motion::put_prediction_unit;
use crate::transform::{has_levels, is_intra, put_transform_tree};
use hv_plan::{Mv, Pred};
use hv_tables::{BinSink, CtxTable, SliceKind};

/// Puts `cu_skip_flag`, which is 0, and `pred_mode_flag`, in P slices.
#[inline(always)]
pub fn put_pred_mode<B: BinSink>(sink: &mut B, kind: SliceKind, pred: Pred)
    ensures { PutsUnit B.stands_for sink.old sink.new (pred_mode_bins kind (prediction_of pred)) }
{
    match kind {
        SliceKind::I => {}
        SliceKind::P => {
            put_bin(sink, CtxTable::Skip, 0, false);
            put_bin(sink, CtxTable::PredMode, 0, is_intra(pred));
        }
    }
}

/// Puts `part_mode` of an intra unit, which only those of the least size have.
#[inline(always)]
fn put_intra_part<B: BinSink>(sink: &mut B, size: u8)
    ensures { PutsUnit B.stands_for sink.old sink.new (intra_part_bins size) }
{
    if size == 0 {
        put_bin(sink, CtxTable::PartMode, 0, true);
    }
}

/// Puts what follows `pred_mode_flag` of an intra unit of 8 * 2^size luma samples a side, by its
/// most probable modes.
pub fn put_intra<B: BinSink>(
    sink: &mut B,
    size: u8,
    candidates: [u8; 3],
    mode: u8,
    levels: &UnitLevels,
)
    requires { size ≡ size_of levels.now }
    ensures { PutsUnit B.stands_for sink.old sink.new
        (intra_bins size candidates mode (units_of levels.now)) }
{
    put_intra_part(sink, size);
    put_luma_mode(sink, candidates, mode);
    put_bin(sink, CtxTable::ChromaMode, 0, false);
    put_transform_tree(sink, Pred::Intra { mode }, levels);
}

/// Puts the transform tree of an inter unit, where it has a level that isn't 0.
fn put_rooted<B: BinSink>(sink: &mut B, pred: Pred, levels: &UnitLevels, rooted: bool)
    requires { rooted ≡ any_level (units_of levels.now) }
    ensures { PutsUnit B.stands_for sink.old sink.new
        (rooted_bins (prediction_of pred) (size_of levels.now) (units_of levels.now)) }
{
    if rooted {
        put_transform_tree(sink, pred, levels);
    }
}

/// Puts what follows `pred_mode_flag` of an inter unit, in a slice of so many references.
pub fn put_inter<B: BinSink>(
    sink: &mut B,
    references: u8,
    reference: u8,
    flag: u8,
    difference: Mv,
    levels: &UnitLevels,
)
    ensures { PutsUnit B.stands_for sink.old sink.new (inter_bins references (size_of levels.now)
        record { ref_idx_l0 = reference; mvp_l0_flag = flag; MvdL0 = difference }
        (units_of levels.now)) }
{
    put_bin(sink, CtxTable::PartMode, 0, true);
    put_prediction_unit(sink, references, reference, flag, difference);
    let rooted = has_levels(levels);
    put_bin(sink, CtxTable::RootCbf, 0, rooted);
    let mv = difference;
    put_rooted(
        sink,
        Pred::Inter {
            reference,
            mv,
            flag,
            mvd: difference,
        },
        levels,
        rooted,
    );
}
