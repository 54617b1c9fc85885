//! The luma mode of an intra unit: the first of least score among those that are tried.

ghost use Rattle.std.specs.Prelude.{◌≡◌, ◌+◌, ◌*◌, ◌^◌, ◌<◌, ◌≤◌, cond, nat_lt, length};
ghost use Rattle.hv_mode_model.specs.ModeDecision.{mode_bin_weight};
ghost use Rattle.hv_kernel.specs.Differences.{sad_of};
ghost use Rattle.hv_mode.specs.LumaModes.{mode_score, mode_of_block, further_count, further_mode};

use hv_intra::{Line, predict_intra};
use hv_kernel::sad;
use hv_syntax::count_luma_mode;

/// DC, horizontal and vertical: what is tried behind planar where little is tried.
static FEW: [u8; 3] = [1, 10, 26];

/// The weight of a bin by a sixth of the quantiser.
static WEIGHTS: [u32; 9] = [0, 0, 1, 2, 4, 8, 16, 32, 64];

/// A block of luma whose mode is chosen.
#[derive(Clone, Copy)]
struct Block<'a> {
    samples: &'a [u8],
    line: &'a Line,
    log2: u8,
    candidates: [u8; 3],
    qp: u8,
    ghost least: { 2 ≤ log2 },
    ghost most: { log2 ≤ 5 },
    ghost quantiser: { qp ≤ 51 },
    ghost whole: { length samples.now ≡ 4 ^ log2 },
    ghost neighbours: { length line.now ≡ 4 * 2 ^ log2 + 1 },
}

/// A mode and its score.
#[derive(Clone, Copy)]
struct Scored {
    mode: u8,
    score: u64,
}

/// How many modes are tried behind planar.
fn further_count(effort: u8) -> u8
    ensures value { result ≡ further_count effort }
    ensures most { result ≤ 34 }
{
    if effort < 2 {
        return 3;
    }
    34
}

/// One of the modes that are tried behind planar, by its number from 0.
fn further_mode(effort: u8, i: u8) -> u8
    requires { i < further_count effort }
    ensures value { result ≡ further_mode effort i }
    ensures most { result ≤ 34 }
{
    if effort < 2 {
        return FEW[i as usize];
    }
    i + 1
}

/// The weight of a bin of a luma mode, in absolute differences.
fn mode_bin_weight(qp: u8) -> u32
    requires { qp ≤ 51 }
    ensures value { result ≡ mode_bin_weight qp }
    ensures most { result ≤ 64 }
{
    WEIGHTS[(qp / 6) as usize]
}

/// The sum of absolute differences of the samples of a block.
fn distance(samples: &[u8], predicted: &[u8]) -> u64
    requires even { length samples.now ≡ length predicted.now }
    requires few { length samples.now ≤ 1024 }
    ensures value { result ≡ sad_of samples.now predicted.now }
    ensures most { result ≤ 2 ^ 18 }
{
    sad(samples, predicted)
}

/// The score of a mode: how far its prediction is from the samples, and what its bins weigh.
/// `predicted` has room for the block.
fn score_mode(block: Block<'_>, mode: u8, predicted: &mut [u8]) -> Scored
    requires mode { mode ≤ 34 }
    requires room { length predicted.old ≡ 4 ^ block.log2 }
    ensures mode { result.mode ≡ mode }
    ensures score { result.score ≡ mode_score block.entry.log2 block.entry.qp
        block.entry.candidates block.entry.samples.now block.entry.line.now mode }
{
    predict_intra(block.line, block.log2, mode, true, predicted);
    let bins = count_luma_mode(block.candidates, mode);
    let weighed = bins * u64::from(mode_bin_weight(block.qp));
    Scored {
        mode,
        score: distance(block.samples, predicted) + weighed,
    }
}

/// The second of two where its score is lower, else the first.
fn better(first: Scored, second: Scored) -> Scored
    ensures { result ≡ cond (nat_lt second.score first.score) second first }
{
    if second.score < first.score {
        return second;
    }
    first
}

/// The first of least score among the modes that are tried.
fn best_mode(block: Block<'_>, effort: u8, predicted: &mut [u8]) -> u8
    requires { length predicted.old ≡ 4 ^ block.log2 }
    ensures { result ≡ mode_of_block block.entry.log2 block.entry.qp effort
        block.entry.candidates block.entry.samples.now block.entry.line.now }
{
    let mut best = score_mode(block, 0, predicted);
    'modes: for i in 0..further_count(effort) {
        best = better(best, score_mode(block, further_mode(effort, i), predicted));
    }
    best.mode
}

/// The first of least score, for a block of `COUNT` samples.
fn best_mode_of<const COUNT: usize>(block: Block<'_>, effort: u8) -> u8
    requires { COUNT ≡ 4 ^ block.log2 }
    ensures { result ≡ mode_of_block block.entry.log2 block.entry.qp effort
        block.entry.candidates block.entry.samples.now block.entry.line.now }
{
    let mut predicted = [0; COUNT];
    best_mode(block, effort, &mut predicted)
}

/// The luma mode of an intra unit, from its first transform block: the first of least score. H.265
/// leaves it free.
///
/// A mode's score is the sum of absolute differences of the samples and their prediction, and
/// 2^(qp / 6) / 4 for each bin that the mode takes. Tried are, in this order, planar, DC,
/// horizontal and vertical (0, 1, 10 and 26) where `effort` is below 2, else all from 0 to 34.
///
/// `samples` has the 4^log2 samples of the input by rows, and `line` the neighbours of the block;
/// `log2` is 2 to 5. `candidates` are the most probable modes (8.4.2), and `qp` is the quantiser, 0
/// to 51. It takes no memory and always answers.
pub fn choose_luma_mode(
    samples: &[u8],
    line: &Line,
    log2: u8,
    candidates: [u8; 3],
    qp: u8,
    effort: u8,
) -> u8
    requires least { 2 ≤ log2 }
    requires most { log2 ≤ 5 }
    requires quantiser { qp ≤ 51 }
    requires samples { length samples.now ≡ 4 ^ log2 }
    requires line { length line.now ≡ 4 * 2 ^ log2 + 1 }
    ensures { result ≡ mode_of_block log2 qp effort candidates samples.now line.now }
{
    let block = Block {
        samples,
        line,
        log2,
        candidates,
        qp,
    };
    match log2 {
        2 => best_mode_of::<16>(block, effort),
        3 => best_mode_of::<64>(block, effort),
        4 => best_mode_of::<256>(block, effort),
        _ => best_mode_of::<1024>(block, effort),
    }
}

#[cfg(test)]
mod tests {
    use super::*;
    use std::test::Fail;

    /// A slope of 8x8 samples, behind a unit of mode 10 that was decoded as 100, 103 and so on down
    /// its rows: mode 10 has the least score of the four that are tried at effort 1, which is
    /// 1,692, and mode 2 that of all, which is 1,046. Where nothing is known all modes predict 128:
    /// then planar is the first of equals where bins weigh nothing, at quantiser 11, and DC, which
    /// has fewer bins here, is chosen at quantiser 12.
    #[test]
    fn a_slope(rt: HostRuntime) -> Result<(), Fail> {
        let mut samples = [0; 64];
        for y in 0..8 {
            for x in 0..8 {
                samples[8 * y + x] = (80 + 10 * x + 5 * y) as u8;
            }
        }
        let mut known = [None; 33];
        for i in 0..16 {
            known[i] = Some((145 - 3 * i) as u8);
        }
        let line = Line::of(&known);
        assert_eq!(rt; choose_luma_mode(&samples, &line, 3, [10, 1, 0], 30, 1), 10);
        assert_eq!(rt; choose_luma_mode(&samples, &line, 3, [10, 1, 0], 30, 2), 2);

        let nothing = Line::of(&[None; 33]);
        assert_eq!(rt;
            choose_luma_mode(&samples, &nothing, 3, [1, 0, 26], 11, 2),
            0
        );
        assert_eq!(rt;
            choose_luma_mode(&samples, &nothing, 3, [1, 0, 26], 12, 2),
            1
        );
        Ok(())
    }
}
