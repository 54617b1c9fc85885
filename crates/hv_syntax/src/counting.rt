//! How many bins the coding units of a block have (7.3.8.4 to 7.3.8.10), by the lengths of
//! binarizations (9.3.3): no bin is visited.

ghost use Rattle.std.specs.Prelude.{◌≡◌, ◌≤◌, ◌+◌, ◌-◌, ◌*◌, ◌^◌, ◌∷◌, [], ℕ, Bool, cond, length};
ghost use Rattle.hv_plan.specs.Levels.{any_significant};
ghost use Rattle.hv_tree_model.specs.Trees.{Motion, any_level};
ghost use Rattle.hv_tree_model.specs.Plans.{prediction_of};
ghost use Rattle.hv_unit_model.specs.BlockSyntax.{transform_block};
ghost use Rattle.hv_unit_model.specs.Bins.{luma_mode_bins, greater1_bins, rest_bins, mvd_bins, prediction_unit_bins, block_bins, transform_unit_bins, transform_tree_bins};
ghost use Rattle.hv_syntax.specs.declared.levels.UnitLevels.TheVariants.{Four};
ghost use Rattle.hv_syntax.specs.Levels.{unit_of, units_of, size_of};
ghost use Rattle.hv_syntax.specs.Parts.{quarter_bins, rooted_bins, intra_bins, inter_bins};
ghost use Rattle.hv_syntax.specs.Counts.{magnitude_count};

use crate::levels::{Quarters, TransformUnit, UnitLevels};
use crate::transform::{cbf_cb, cbf_cr, has_levels, has_luma_flag};
use hv_plan::{Mv, Pred};
use hv_residual::{count_exp_golomb, count_residual, scan_of};

/// How many bins a bin is that may be left out.
#[inline(always)]
fn count_where(coded: bool) -> u64
    ensures value { result ≡ cond coded 1 0 }
    ensures most { result ≤ 1 }
{
    if coded {
        return 1;
    }
    0
}

/// How many bins a luma mode has, by the three most probable ones.
fn count_mode_by(first: u8, second: u8, third: u8, mode: u8) -> u64
    ensures value { result ≡ length (luma_mode_bins (first ∷ second ∷ third ∷ []) mode) }
    ensures most { result ≤ 6 }
{
    if mode == first {
        return 2;
    }
    if mode == second {
        return 3;
    }
    if mode == third {
        return 3;
    }
    6
}

/// How many bins a luma mode of intra prediction takes (7.3.8.5, 9.3.3):
/// `prev_intra_luma_pred_flag`, and `mpm_idx` or `rem_intra_luma_pred_mode`.
///
/// `candidates` are the three most probable modes (8.4.2), and `mode` is 0 to 34. It takes no
/// memory and always answers.
pub fn count_luma_mode(candidates: [u8; 3], mode: u8) -> u64
    ensures value { result ≡ length (luma_mode_bins candidates mode) }
    ensures most { result ≤ 6 }
{
    let [first, second, third] = candidates;
    count_mode_by(first, second, third, mode)
}

/// How many bins follow `abs_mvd_greater0_flag` of a component of this magnitude.
fn count_magnitude(magnitude: u16) -> u64
    ensures value { result ≡ magnitude_count magnitude }
    ensures most { result ≤ 50 }
{
    if magnitude == 0 {
        return 0;
    }
    if magnitude == 1 {
        return 2;
    }
    2 + u64::from(count_exp_golomb(1, u32::from(magnitude - 2)))
}

/// How many bins follow `abs_mvd_greater0_flag` of a component.
fn count_component(difference: i16) -> u64
    ensures value { result ≡ length (greater1_bins difference) + length (rest_bins difference) }
    ensures most { result ≤ 50 }
{
    count_magnitude(difference.unsigned_abs())
}

/// How many bins the difference of a vector (`mvd_coding`, 7.3.8.9, 9.3.3) takes, at most 102. Its
/// components are quarters of a luma sample. It takes no memory and always answers.
pub fn count_difference(difference: Mv) -> u64
    ensures value { result ≡ length (mvd_bins difference) }
    ensures most { result ≤ 102 }
{
    2 + (count_component(difference.x) + count_component(difference.y))
}

/// How many bins the motion of a prediction unit has.
fn count_prediction_unit(references: u8, difference: Mv) -> u64
    ensures value { (reference flag : ℕ) → result ≡ length (prediction_unit_bins references
        record { ref_idx_l0 = reference; mvp_l0_flag = flag; MvdL0 = difference }) }
    ensures most { result ≤ 105 }
{
    1 + (count_where(references > 1) + (count_difference(difference) + 1))
}

/// How many bins the levels of a transform block have.
fn count_block(pred: Pred, log2: u8, luma: bool, levels: &[i16], coded: bool) -> u64
    requires least { 2 ≤ log2 }
    requires most { log2 ≤ 5 }
    requires whole { length levels.now ≡ 2 ^ log2 * 2 ^ log2 }
    requires coded { coded ≡ any_significant levels.now }
    ensures value { result ≡
        length (block_bins (transform_block (prediction_of pred) log2 luma) levels.now) }
    ensures most { result ≤ 4294967295 }
{
    if coded {
        return u64::from(count_residual(levels, scan_of(pred, log2, luma), log2, luma));
    }
    0
}

/// How many bins a transform unit has, with `cbf_luma`.
fn count_transform_unit(pred: Pred, depth: u8, unit: &TransformUnit) -> u64
    ensures value { result ≡
        length (transform_unit_bins (prediction_of pred) unit.now.log2 depth (unit_of unit.now)) }
    ensures most { result ≤ 12884901886 }
{
    let flag = count_where(has_luma_flag(pred, depth, unit.cbf_cb, unit.cbf_cr));
    let luma = count_block(pred, unit.log2, true, unit.luma, unit.cbf_luma);
    let cb = count_block(pred, unit.log2 - 1, false, unit.cb, unit.cbf_cb);
    let cr = count_block(pred, unit.log2 - 1, false, unit.cr, unit.cbf_cr);
    flag + (luma + (cb + cr))
}

/// How many bins the transform tree of a coding unit of less than 64x64 has.
fn count_single(pred: Pred, unit: &TransformUnit) -> u64
    ensures value { result ≡ length (transform_tree_bins (prediction_of pred)
        (unit.now.log2 - 3) (unit_of unit.now ∷ [])) }
    ensures most { result ≤ 12884901888 }
{
    2 + count_transform_unit(pred, 0, unit)
}

/// How many bins a quarter of a coding unit of 64x64 has, of which `cbf_cb` and `cbf_cr` are these.
fn count_quarter(pred: Pred, cbf_cb: bool, cbf_cr: bool, unit: &TransformUnit) -> u64
    requires { unit.now.log2 ≡ 5 }
    ensures value { result ≡
        length (quarter_bins (prediction_of pred) cbf_cb cbf_cr (unit_of unit.now)) }
    ensures most { result ≤ 12884901888 }
{
    count_where(cbf_cb) + (count_where(cbf_cr) + count_transform_unit(pred, 1, unit))
}

/// How many bins the transform tree of a coding unit of 64x64 has.
fn count_four(pred: Pred, quarters: &Quarters) -> u64
    ensures value { result ≡
        length (transform_tree_bins (prediction_of pred) 3 (units_of (Four quarters.now))) }
    ensures most { result ≤ 51539607554 }
{
    let cb = cbf_cb(quarters);
    let cr = cbf_cr(quarters);
    let first = count_quarter(pred, cb, cr, &quarters.first);
    let second = count_quarter(pred, cb, cr, &quarters.second);
    let third = count_quarter(pred, cb, cr, &quarters.third);
    let fourth = count_quarter(pred, cb, cr, &quarters.fourth);
    2 + (first + (second + (third + fourth)))
}

/// How many bins the transform tree of a coding unit has.
fn count_transform_tree(pred: Pred, levels: &UnitLevels) -> u64
    ensures value { result ≡ length (transform_tree_bins (prediction_of pred)
        (size_of levels.now) (units_of levels.now)) }
    ensures most { result ≤ 51539607554 }
{
    match levels {
        UnitLevels::One(unit) => count_single(pred, unit),
        UnitLevels::Four(quarters) => count_four(pred, quarters),
    }
}

/// How many bins follow `pred_mode_flag` of an intra unit, by its most probable modes.
pub fn count_intra(size: u8, candidates: [u8; 3], mode: u8, levels: &UnitLevels) -> u64
    requires { size ≡ size_of levels.now }
    ensures value { result ≡ length (intra_bins size candidates mode (units_of levels.now)) }
    ensures most { result ≤ 51539607562 }
{
    let tree = count_transform_tree(Pred::Intra { mode }, levels);
    count_where(size == 0) + (count_luma_mode(candidates, mode) + (1 + tree))
}

/// How many bins the transform tree of an inter unit has, where it has a level that isn't 0.
fn count_rooted(pred: Pred, levels: &UnitLevels) -> u64
    ensures value { result ≡ length (rooted_bins (prediction_of pred) (size_of levels.now)
        (units_of levels.now)) }
    ensures most { result ≤ 51539607554 }
{
    if has_levels(levels) {
        return count_transform_tree(pred, levels);
    }
    0
}

/// How many bins follow `pred_mode_flag` of an inter unit, in a slice of so many references.
pub fn count_inter(
    references: u8,
    reference: u8,
    flag: u8,
    difference: Mv,
    levels: &UnitLevels,
) -> u64
    ensures value { result ≡ length (inter_bins references (size_of levels.now)
        record { ref_idx_l0 = reference; mvp_l0_flag = flag; MvdL0 = difference }
        (units_of levels.now)) }
    ensures most { result ≤ 51539607661 }
{
    let mv = difference;
    let tree = count_rooted(
        Pred::Inter {
            reference,
            mv,
            flag,
            mvd: difference,
        },
        levels,
    );
    1 + (count_prediction_unit(references, difference) + (1 + tree))
}
