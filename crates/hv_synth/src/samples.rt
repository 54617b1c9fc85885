//! Samples of a run: a part of a row of a plane, from a spot on.

ghost use Rattle.std.specs.Prelude.{ℕ, ◌≡◌, ◌+◌, ◌*◌, ◌/◌, ◌%◌, ◌<◌, ◌≤◌, length};
ghost use Rattle.std.specs.Int.Bits.{bit_xor};
ghost use Rattle.hv_synth.specs.Generator.{pattern, luma, cb, cr};
ghost use Rattle.hv_synth.specs.Runs.{IsRun, sample_of};

use crate::component::Component;
use crate::spot::Spot;

/// How much luma rises from a column to the next, from a row to the next, and with the steps.
#[derive(Clone, Copy)]
struct Slopes {
    column: u32,
    row: u32,
    step: u32,
    ghost columns: { column < 16 },
    ghost rows: { row < 16 },
    ghost steps: { step < 16 },
}

impl Slopes {
    /// The slopes of a seed.
    fn new(seed: u32) -> Self
        ensures column { result.column ≡ 3 + seed % 5 }
        ensures row { result.row ≡ 2 + seed % 3 }
        ensures step { result.step ≡ 1 + seed % 7 }
    {
        Slopes {
            column: 3 + seed % 5,
            row: 2 + seed % 3,
            step: 1 + seed % 7,
        }
    }

    /// The pattern in column `a` and row `b`.
    #[inline(always)]
    #[tactic(auto, using(crate::proofs::PatternLemmas::steps_few))]
    fn pattern(self, a: u32, b: u32) -> u8
        requires column { a < 1048576 }
        requires row { b < 1048576 }
        ensures { result ≡ (a * self.column + b * self.row
            + bit_xor (a / 8) (b / 8) * self.step) % 256 }
    {
        ((a * self.column + b * self.row + (a / 8 ^ b / 8) * self.step) % 256) as u8
    }
}

/// Fills a run of luma of a picture.
fn fill_luma(seed: u32, picture: u32, spot: Spot, into: &mut [u8])
    requires early { picture < 400000 }
    requires inside { spot.column + length into.old ≤ 4096 }
    ensures { IsRun (length into.new) (λ k. luma seed picture (spot.column + k) spot.row) into.new }
{
    let slopes = Slopes::new(seed);
    let a = spot.column + 2 * picture;
    let b = spot.row + picture;
    for k in 0..into.len() {
        into[k] = slopes.pattern(a + k as u32, b);
    }
}

/// Fills a run of Cb of a picture.
fn fill_cb(seed: u32, picture: u32, spot: Spot, into: &mut [u8])
    requires early { picture < 400000 }
    requires inside { spot.column + length into.old ≤ 4096 }
    ensures { IsRun (length into.new) (λ k. cb seed picture (spot.column + k) spot.row) into.new }
{
    let first = spot.column + spot.row + picture + seed % 256;
    for k in 0..into.len() {
        into[k] = ((first + k as u32) % 256) as u8;
    }
}

/// Fills a run of Cr of a picture.
fn fill_cr(picture: u32, spot: Spot, into: &mut [u8])
    requires early { picture < 400000 }
    requires inside { spot.column + length into.old ≤ 4096 }
    ensures { IsRun (length into.new) (λ k. cr picture (spot.column + k) spot.row) into.new }
{
    let first = 2 * spot.column + spot.row + 3 * picture;
    for k in 0..into.len() {
        into[k] = ((first + 2 * k as u32) % 256) as u8;
    }
}

/// Fills a run of a picture.
pub(crate) fn fill_samples(seed: u32, picture: u32, spot: Spot, into: &mut [u8])
    requires early { picture < 400000 }
    requires inside { spot.column + length into.old ≤ 4096 }
    ensures { IsRun (length into.new)
        (λ k. sample_of spot.component seed picture (spot.column + k) spot.row) into.new }
{
    match spot.component {
        Component::Luma => fill_luma(seed, picture, spot, into),
        Component::Cb => fill_cb(seed, picture, spot, into),
        Component::Cr => fill_cr(picture, spot, into),
    }
}
