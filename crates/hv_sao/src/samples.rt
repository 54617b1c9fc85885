//! Single samples: their categories, and what they are with an offset. All is chosen without
//! tables, so that a compiler can do it for many samples at once.

ghost use Rattle.std.specs.Prelude.{◌≡◌, ◌≤◌, ◌<◌, ◌/◌, ◌∷◌, [], slice_index_or, Some, pos, ◌+ℤ◌};
ghost use Rattle.hv_lemmas.specs.Clipping.{clip1};
ghost use Rattle.hv_filter_model.specs.SampleAdaptiveOffset.{bandTable, compared, edge_of, SaoOffsetVal};

use hv_plan::SaoComponent;

/// How many samples a compiler does at once where a loop over a row calls the functions here.
pub(crate) const VECTOR: usize = 16;

/// A sample with an offset, cut to a byte (`Clip1`).
#[inline(always)]
pub(crate) fn with_offset(sample: u8, offset: i8) -> u8
    ensures { result ≡ clip1 (pos sample +ℤ offset) }
{
    let raised = sample.saturating_add(offset.max(0) as u8);
    raised.saturating_sub(offset.min(0).unsigned_abs())
}

/// The sign of `a - b`, and 1.
#[inline(always)]
fn compared(a: u8, b: u8) -> u8
    ensures value { result ≡ compared a b }
    ensures most { result ≤ 2 }
{
    if a < b {
        0
    } else if a == b {
        1
    } else {
        2
    }
}

/// The edge that two comparisons give, by the sum of their signs and 2.
#[inline(always)]
fn edge_of_sum(sum: u8) -> u8
    requires { sum ≤ 4 }
    ensures value { result ≡ slice_index_or (1 ∷ 2 ∷ 0 ∷ 3 ∷ 4 ∷ []) sum 0 }
    ensures most { result ≤ 4 }
{
    if sum == 2 {
        0
    } else if sum < 2 {
        sum + 1
    } else {
        sum
    }
}

/// Which of the four edges a sample is between its two neighbours, counted from 1, or 0 for none
/// (`edgeIdx`).
#[inline(always)]
pub(crate) fn edge_category(sample: u8, first: u8, second: u8) -> u8
    ensures value { result ≡ edge_of sample (Some first) (Some second) }
    ensures most { result ≤ 4 }
{
    edge_of_sum(compared(sample, first) + compared(sample, second))
}

/// In which of the four bands from `position` on a sample lies, counted from 1, or 0 for none
/// (`bandTable`).
#[inline(always)]
pub(crate) fn band_category(sample: u8, position: u8) -> u8
    requires { position < 32 }
    ensures value { result ≡ bandTable position (sample / 8) }
    ensures most { result ≤ 4 }
{
    let behind = (sample / 8 + 32 - position) % 32;
    if behind < 4 { behind + 1 } else { 0 }
}

/// The offset of a category (`SaoOffsetVal`).
#[inline(always)]
fn offset_of(component: SaoComponent, category: u8) -> i8
    requires { category ≤ 4 }
    ensures { result ≡ SaoOffsetVal component category }
{
    let [first, second, third, fourth] = component.offsets;
    if category == 0 {
        0
    } else if category == 1 {
        first
    } else if category == 2 {
        second
    } else if category == 3 {
        third
    } else {
        fourth
    }
}

/// A sample of a category, with the offset of the category.
#[inline(always)]
pub(crate) fn shown_sample(component: SaoComponent, sample: u8, category: u8) -> u8
    requires { category ≤ 4 }
    ensures { result ≡ clip1 (pos sample +ℤ SaoOffsetVal component category) }
{
    with_offset(sample, offset_of(component, category))
}
