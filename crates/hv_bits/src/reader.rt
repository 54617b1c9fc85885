//! A reader of bits.

ghost use Rattle.std.specs.Prelude.{◌≡◌, ◌≢◌, ◌+◌, ◌*◌, ◌^◌, ◌<◌, ◌≤◌, ◌↔◌, length, min, take, drop, Some, IfOk, IsTrue, OnErr};
ghost use Rattle.hv_stream_model.specs.Bits.{number_of, bits_of};
ghost use Rattle.hv_stream_model.specs.Fields.{U, Ue, leading_zeros, read_field};

use std::marker::Model;
use thiserror::Error;

/// Why bits were not read.
#[derive(Clone, Copy, Debug, PartialEq, Eq, Error)]
pub enum BitsError {
    /// Fewer bits are left than the value needs.
    #[error("too few bits are left")]
    EndOfBits,
    /// The next 33 bits are zeros: an Exp-Golomb number would have more than 32 of them in front.
    #[error("an Exp-Golomb number has more than 32 zeros in front")]
    TooLong,
}

/// Reads bits of bytes one field after another, the highest bit of a byte first (7.2). It stands
/// for the bits that are left, and takes no memory.
#[derive(Drop)]
pub struct BitReader<'a> {
    // The bytes that are left, and how many bits of the first one were read.
    bytes: &'a [u8],
    skipped: u32,
}

impl<'a> Model for BitReader<'a> {
    ghost use Rattle.std.specs.Prelude.{ℕ, ◌*◌, ◌<◌, ◌≤◌, List, length, drop};
    ghost use Rattle.hv_stream_model.specs.Bits.{bits_of};

    ghost Value = { List ℕ };

    ghost view = { λ r. drop r.skipped (bits_of r.bytes.now) };

    ghost invariant = { λ r. (r.skipped < 8) × (r.skipped ≤ 8 * length r.bytes.now) };
}

impl<'a> BitReader<'a> {
    /// A reader of all bits of these bytes.
    pub fn new(bytes: &'a [u8]) -> BitReader<'a>
        ensures { result ≡ bits_of bytes.entry.now }
    {
        BitReader { bytes, skipped: 0 }
    }

    /// Reads `u(count)`, at most 32 bits (7.2). `EndOfBits` where fewer are left: the reader then
    /// stays where it was.
    pub fn bits(&mut self, count: u8) -> Result<u32, BitsError>
        requires { count ≤ 32 }
        ensures ok { IfOk result (λ value. read_field self.old (U count) ≡ Some (value, self.new)) }
        ensures end { (result ≡ Err BitsError.EndOfBits) ↔ (length self.old < count) }
        ensures never_too_long { result ≢ Err BitsError.TooLong }
        ensures refused { OnErr result (self.new ≡ self.old) }
    {
        let count = u32::from(count);
        if !self.has(count) {
            return Err(BitsError::EndOfBits);
        }
        Ok(self.take(count) as u32)
    }

    /// Reads `ue(v)` (9.2). `TooLong` where the next 33 bits are zeros, else `EndOfBits` where the
    /// bits end within the number: the reader then stays where it was.
    pub fn ue(&mut self) -> Result<u64, BitsError>
        ensures ok { IfOk result (λ value. read_field self.old Ue ≡ Some (value, self.new)) }
        ensures too_long { (result ≡ Err BitsError.TooLong) ↔ (32 < leading_zeros self.old) }
        ensures end { (result ≡ Err BitsError.EndOfBits) ↔
            ((leading_zeros self.old ≤ 32) × (length self.old < 2 * leading_zeros self.old + 1)) }
        ensures refused { OnErr result (self.new ≡ self.old) }
    {
        let zeros = self.zeros();
        if zeros > 32 {
            return Err(BitsError::TooLong);
        }
        if !self.has(2 * zeros + 1) {
            return Err(BitsError::EndOfBits);
        }
        let _ = self.take(zeros);
        Ok(self.take(zeros + 1) - 1)
    }

    /// Whether so many bits are left.
    fn has(&self, count: u32) -> bool
        requires { count ≤ 65 }
        ensures { IsTrue result ↔ (count ≤ length self.now) }
    {
        ((self.skipped + count + 7) / 8) as usize <= self.bytes.len()
    }

    /// The number that the next bits make, of which so many are left. Moves past them.
    fn take(&mut self, count: u32) -> u64
        requires count { count ≤ 33 }
        requires there { count ≤ length self.old }
        ensures value { result ≡ number_of (take count self.old) }
        ensures rest { self.new ≡ drop count self.old }
        ensures bound { result < 2 ^ count }
    {
        let number = number_at(self.bytes, self.skipped, count);
        let passed = self.skipped + count;
        self.bytes = &self.bytes[(passed / 8) as usize..];
        self.skipped = passed % 8;
        number
    }

    /// How many zeros come next, or 33 where there are more.
    fn zeros(&self) -> u32
        ensures { result ≡ min 33 (leading_zeros self.now) }
    {
        let seen = if self.bytes.len() < 5 {
            8 * self.bytes.len() as u32 - self.skipped
        } else {
            33
        };
        let number = number_at(self.bytes, self.skipped, seen);
        if number == 0 {
            seen
        } else {
            seen - 1 - number.ilog2()
        }
    }
}

/// The number that bits make, the highest of them first.
fn number_at(bytes: &[u8], skipped: u32, count: u32) -> u64
    requires skipped { skipped < 8 }
    requires count { count ≤ 33 }
    requires there { skipped + count ≤ 8 * length bytes.now }
    ensures value { result ≡ number_of (take count (drop skipped (bits_of bytes.now))) }
    ensures bound { result < 2 ^ count }
{
    let whole = (skipped + count + 7) / 8;
    let mut number = 0u64;
    for byte in &bytes[..whole as usize] {
        number = number << 8 | u64::from(*byte);
    }
    number >> (8 * whole - skipped - count) & ((1 << count) - 1)
}
