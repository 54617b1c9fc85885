//! Bits of bytes, read one by one.

ghost use Rattle.std.specs.Prelude.{◌≡◌, ℕ, ◌+◌, ◌*◌, ◌^◌, ◌<◌, ◌≤◌, List, length, drop, Option, option_map, slice_get, IfSome};
ghost use Rattle.hv_stream_model.specs.Bits.{bits_of};
ghost use Rattle.hv_entropy_model.specs.Contexts.{ContextVariable};
ghost use Rattle.hv_entropy_model.specs.Oracle.{read_bits};
ghost use Rattle.hv_entropy_model.specs.CodeWord.{shift_of, doublings};

/// The bit at a place of the bytes, none past their end.
fn bit_at(bytes: &[u8], at: usize) -> Option<u8>
    ensures value { result ≡ slice_get (bits_of bytes.now) at }
    ensures most { IfSome result (λ bit. bit < 2) }
{
    if at / 8 < bytes.len() {
        Some((bytes[at / 8] >> (7 - at % 8)) % 2)
    } else {
        None
    }
}

/// The offset doubles and takes a bit, so often: the offset and the place after that, none where
/// the bits end (9.3.4.3.3).
pub fn read_bits(bytes: &[u8], at: usize, count: u32, offset: u32) -> Option<(u32, usize)>
    requires bytes_most { length bytes.now < 2 ^ 32 }
    requires within { at ≤ 8 * length bytes.now }
    requires offset_most { (offset + 1) * 2 ^ count ≤ 2 ^ 20 }
    ensures value { (variables : List ContextVariable) (range : ℕ) →
        read_bits count variables range offset (drop at (bits_of bytes.now))
        ≡ option_map (λ r. record {
          bits = drop r.1 (bits_of bytes.now);
          ivlCurrRange = range;
          ivlOffset = r.0;
          variables = variables;
        }) result }
    ensures within { IfSome result (λ r. r.1 ≤ 8 * length bytes.now) }
    ensures below { IfSome result (λ r. r.0 < (offset + 1) * 2 ^ count) }
{
    if count == 0 {
        return Some((offset, at));
    }
    match bit_at(bytes, at) {
        None => None,
        Some(bit) => read_bits(bytes, at + 1, count - 1, 2 * offset + u32::from(bit)),
    }
}

/// How often a width doubles until it has 256, at most `fuel` times (9.3.4.3.3).
fn doublings(fuel: u32, width: u32) -> u32
    ensures value { result ≡ doublings fuel width }
    ensures most { result ≤ fuel }
{
    if fuel == 0 || width >= 256 {
        0
    } else {
        1 + doublings(fuel - 1, 2 * width)
    }
}

/// How often a width doubles until it has 256 (9.3.4.3.3).
#[tactic(auto, using(hv_entropy_model::proofs::IntervalLemmas::shift_fits), unfolding(hv_entropy_model::specs::CodeWord::shift_of))]
pub fn shift_of(width: u32) -> u32
    requires some { 0 < width }
    requires most { width ≤ 510 }
    ensures value { result ≡ shift_of width }
    ensures result_most { result ≤ 8 }
    ensures wide { 256 ≤ width * 2 ^ result }
    ensures result_most_2 { width * 2 ^ result ≤ 510 }
{
    doublings(8, width)
}
