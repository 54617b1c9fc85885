//! The line of neighbouring samples, with the missing ones substituted.

ghost use Rattle.std.specs.Prelude.{◌≡◌, ℕ, ◌≤◌, List, length, take, IsTrue};
ghost use Rattle.hv_intra.specs.Lines.{is_length_of_line};
ghost use Rattle.hv_sample_model.specs.IntraPrediction.{first_available, substituted, smoothed};

use std::marker::Model;

/// The neighbours of the greatest block.
const LONGEST: usize = 129;

/// The neighbouring samples that a block is predicted from, all of them there.
///
/// Contracts see it as the list of its samples, from the lowest at the left upwards to the corner,
/// and then from above the block to the right: 4 * N + 1 for a block of N columns and rows.
#[derive(Drop)]
pub struct Line {
    samples: [u8; LONGEST],
    count: usize,
}

impl Model for Line {
    ghost Value = { List ℕ };

    ghost view = { λ line. take line.count line.samples };

    ghost invariant = { λ line. line.count ≤ 129 };
}

/// The first neighbour that is available, or 128 (8.4.4.2.2).
fn first_available(known: &[Option<u8>]) -> u8
    ensures { result ≡ first_available known.now }
{
    for i in 0..known.len() {
        if let Some(sample) = known[i] {
            return sample;
        }
    }
    128
}

impl Line {
    /// The line of these neighbours, where each missing one is substituted (8.4.4.2.2): those
    /// before the first that is available take that one, or 128 where none is; each later one takes
    /// the one before it.
    ///
    /// `known` holds them from the lowest at the left upwards, and then from above to the right,
    /// `None` where one isn't available: 17, 33, 65 or 129 of them. It takes no memory and always
    /// answers.
    pub fn of(known: &[Option<u8>]) -> Line
        requires { IsTrue (is_length_of_line (length known.now)) }
        ensures value { result ≡ substituted known.now }
        ensures count { length result ≡ length known.now }
    {
        let mut samples = [0; LONGEST];
        let mut before = first_available(known);
        for i in 0..known.len() {
            if let Some(sample) = known[i] {
                before = sample;
            }
            samples[i] = before;
        }
        Line {
            samples,
            count: known.len(),
        }
    }

    /// The samples.
    #[inline(always)]
    pub(crate) fn samples(&self) -> &[u8]
        ensures { result.now ≡ self.now }
    {
        &self.samples[..self.count]
    }
}
