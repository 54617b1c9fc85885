//! The candidate by which the vector of a unit is coded, and the difference from it.

ghost use Rattle.std.specs.Prelude.{◌≡◌};
ghost use Rattle.hv_vector_model.specs.Vectors.{moved_by};
ghost use Rattle.hv_mode_model.specs.Differences.{difference};
ghost use Rattle.hv_mode.specs.Predictors.{candidate_of, predictor_of};

use hv_plan::Mv;
use hv_syntax::count_difference;

/// How a unit moves: its vector, which is the candidate of this `flag` (`mvp_l0_flag`) and the
/// difference `mvd` (`MvdL0`), modulo 2^16 (8.5.3.2.1).
#[derive(Clone, Copy)]
pub(crate) struct Moved {
    pub(crate) flag: u8,
    pub(crate) mv: Mv,
    pub(crate) mvd: Mv,
}

/// A vector less a candidate, modulo 2^16.
fn difference(mv: Mv, candidate: Mv) -> Mv
    ensures { result ≡ difference mv candidate }
{
    Mv {
        x: mv.x.wrapping_sub(candidate.x),
        y: mv.y.wrapping_sub(candidate.y),
    }
}

/// A candidate and a difference, modulo 2^16 (8.5.3.2.1).
fn moved_by(candidate: Mv, difference: Mv) -> Mv
    ensures { result ≡ moved_by candidate difference }
{
    Mv {
        x: candidate.x.wrapping_add(difference.x),
        y: candidate.y.wrapping_add(difference.y),
    }
}

/// How a unit moves by this candidate.
fn moved_from(flag: u8, candidate: Mv, mv: Mv) -> Moved
    ensures flag { result.flag ≡ flag }
    ensures mvd { result.mvd ≡ difference mv candidate }
    ensures mv { result.mv ≡ moved_by candidate (difference mv candidate) }
{
    let mvd = difference(mv, candidate);
    Moved {
        flag,
        mv: moved_by(candidate, mvd),
        mvd,
    }
}

/// How a unit of this vector is coded: by the candidate whose difference has fewer bins, the first
/// where both have as many.
pub(crate) fn choose_predictor(candidates: [Mv; 2], mv: Mv) -> Moved
    ensures flag { result.flag ≡ predictor_of candidates mv }
    ensures mvd { result.mvd ≡ difference mv (candidate_of candidates result.flag) }
    ensures mv { result.mv ≡ moved_by (candidate_of candidates result.flag)
        (difference mv (candidate_of candidates result.flag)) }
{
    let [first, second] = candidates;
    let first_bins = count_difference(difference(mv, first));
    let second_bins = count_difference(difference(mv, second));
    if second_bins < first_bins {
        return moved_from(1, second, mv);
    }
    moved_from(0, first, mv)
}
