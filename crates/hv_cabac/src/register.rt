//! The interval of the arithmetic encoder, in a register and the bytes that have left it. The names
//! are those of the encoding process that the standard gives for information (9.3.5): `ivlLow` is
//! the number of the bytes and of the register's digits, and a carry goes back into the bytes, so
//! that no bits are outstanding.

ghost use Rattle.std.specs.Prelude.{◌≡◌, ◌+◌, ◌-◌, ◌*◌, ◌/◌, ◌%◌, ◌^◌, ◌<◌, ◌≤◌, [], List, cond, length, true, false, OnOk, IfOk, ℕ, slice_index_or};
ghost use Rattle.hv_stream_model.specs.Bits.{bytes_of};
ghost use Rattle.hv_entropy_model.specs.Contexts.{ContextVariable};
ghost use Rattle.hv_entropy_model.specs.CodeWord.{Interval, first_interval, shift_of, part, cut, cut_at, odd_from, word_at};
ghost use Rattle.hv_tables.specs.Bins.{Bypass};
ghost use Rattle.hv_cabac.specs.Bytes.{number, total, HasRoom};

use hv_types::NoMemory;
use std::alloc::Global;

/// Adds one to the number that the bytes make.
fn add_carry(out: &mut [u8])
    ensures more { number out.old + 1 < 256 ^ length out.old → number out.new ≡ number out.old + 1 }
    ensures length { length out.new ≡ length out.old }
{
    let mut at = out.len();
    while at > 0 {
        at -= 1;
        if out[at] == 255 {
            out[at] = 0;
        } else {
            out[at] += 1;
            return;
        }
    }
}

/// Adds the carry that came into the eight digits of `lead`.
fn put_carry(out: &mut Vec<u8>, lead: u64)
    requires most { lead < 512 }
    ensures more { number out.old.items + lead / 256 < 256 ^ length out.old.items →
        number out.new.items ≡ number out.old.items + lead / 256 }
    ensures length { length out.new.items ≡ length out.old.items }
{
    if lead >= 256 {
        add_carry(out);
    }
}

/// Moves the highest eight of the register's `bits` digits out, with the carry that came into them.
/// Answers whether there was memory for it.
fn put_byte(out: &mut Vec<u8>, low: u64, bits: u32) -> bool
    requires least { 8 ≤ bits }
    requires most { bits ≤ 32 }
    requires low_most { 2 * low < 3 * 2 ^ bits }
    ensures length { result ≡ true → length out.new.items ≡ length out.old.items + 1 }
    ensures same { result ≡ true → HasRoom out.old.items bits low →
        total out.new.items (bits - 8) (low % 2 ^ (bits - 8)) ≡ total out.old.items bits low }
{
    let lead = low >> (bits - 8);
    put_carry(out, lead);
    out.push((lead % 256) as u8).is_ok()
}

/// How often a width is doubled until it has 256 (9.3.4.3.3).
#[inline(always)]
fn doublings(width: u32) -> u32
    requires least { 0 < width }
    requires most { width ≤ 510 }
    ensures shift { result ≡ shift_of width }
    ensures most { result ≤ 8 }
    ensures wide { 256 ≤ width * 2 ^ result }
    ensures result_most { width * 2 ^ result ≤ 510 }
{
    width.leading_zeros() - 23
}

/// A width doubled so often.
#[inline(always)]
fn new_range(width: u32, times: u32) -> u32
    requires most { times ≤ 8 }
    requires width_most { width * 2 ^ times ≤ 510 }
    ensures { result ≡ width * 2 ^ times }
{
    width << times
}

/// The register after a bin that leaves out `skip` of the interval and keeps `width`, all doubled.
#[inline(always)]
fn new_low(low: u64, range: u32, bits: u32, skip: u32, width: u32, times: u32) -> u64
    requires most { bits + times ≤ 25 }
    requires low_most { 2 * (low + range) ≤ 3 * 2 ^ bits }
    requires inside { skip + width ≤ range }
    ensures value { result ≡ (low + skip) * 2 ^ times }
    ensures most { 2 * (result + width * 2 ^ times) ≤ 3 * 2 ^ (bits + times) }
{
    (low + u64::from(skip)) << times
}

/// What is left of the register when its highest eight digits are out.
#[inline(always)]
fn rest_of(low: u64, range: u32, bits: u32) -> u64
    requires least { 18 ≤ bits }
    requires most { bits ≤ 25 }
    requires range_most { range ≤ 510 }
    ensures value { result ≡ low % 2 ^ (bits - 8) }
    ensures most { 2 * (result + range) ≤ 3 * 2 ^ (bits - 8) }
{
    low % (1 << (bits - 8))
}

/// What a bypass bin leaves out of the doubled interval.
#[inline(always)]
fn skip_of(range: u32, value: bool) -> u32
    ensures value { result ≡ cond value range 0 }
    ensures most { result ≤ range }
{
    if value { range } else { 0 }
}

/// The register after a bypass bin.
#[inline(always)]
fn bypass_low(low: u64, range: u32, bits: u32, skip: u32) -> u64
    requires most { bits ≤ 17 }
    requires low_most { 2 * (low + range) ≤ 3 * 2 ^ bits }
    requires inside { skip ≤ range }
    ensures value { result ≡ low * 2 + skip }
    ensures most { 2 * (result + range) ≤ 3 * 2 ^ (bits + 1) }
{
    low * 2 + u64::from(skip)
}

/// The number of the word's last digits, the stop bit (9.3.2.5) among them.
#[inline(always)]
fn last_digits(low: u64, range: u32) -> u64
    requires wide { 256 ≤ range }
    requires fits { low + range < 2 ^ 32 }
    ensures value { result ≡ odd_from (low + range - 2) }
    ensures most { result < low + range }
{
    let last = low + u64::from(range) - 2;
    last + (1 - last % 2)
}

/// The word's last digits, the stop bit (9.3.2.5) among them, and `pad` zeros.
#[inline(always)]
fn last_of(low: u64, range: u32, bits: u32, pad: u32) -> u64
    requires wide { 256 ≤ range }
    requires most { bits ≤ 17 }
    requires pad { pad ≤ 7 }
    requires low_most { 2 * (low + range) ≤ 3 * 2 ^ bits }
    ensures value { result ≡ odd_from (low + range - 2) * 2 ^ pad }
    ensures most { 2 * result < 3 * 2 ^ (bits + pad) }
{
    last_digits(low, range) << pad
}

/// The lowest digits of a register.
#[inline(always)]
fn low_digits(low: u64, bits: u32) -> u64
    requires most { bits ≤ 24 }
    ensures value { result ≡ low % 2 ^ bits }
    ensures most { result < 2 ^ bits }
{
    low % (1 << bits)
}

/// Moves all the register's digits out, which are whole bytes.
fn put_rest(out: &mut Vec<u8>, low: u64, bits: u32) -> Result<(), NoMemory>
    requires least { 8 ≤ bits }
    requires most { bits ≤ 24 }
    requires whole { bits % 8 ≡ 0 }
    requires low_most { 2 * low < 3 * 2 ^ bits }
    ensures length { OnOk result (8 * length out.new.items ≡ 8 * length out.old.items + bits) }
    ensures bytes { OnOk result ((i d : ℕ) → i < length out.new.items →
        slice_index_or out.new.items i d < 256) }
    ensures value { OnOk result (HasRoom out.old.items bits low →
        number out.new.items ≡ total out.old.items bits low) }
{
    if !put_byte(out, low, bits) {
        return Err(NoMemory);
    }
    let mut left = bits - 8;
    let mut rest = low_digits(low, left);
    while left > 0 {
        if !put_byte(out, rest, left) {
            return Err(NoMemory);
        }
        left -= 8;
        rest = low_digits(rest, left);
    }
    Ok(())
}

/// The interval. Its low end is the number of the bytes out and of `bits` digits more; of these
/// `low` is the number, a carry above them being still to come. Where memory was wanted, `failed`
/// is set, and the rest says nothing.
#[derive(Drop)]
pub struct Register {
    low: u64,
    range: u32,
    bits: u32,
    out: Vec<u8>,
    failed: bool,
    ghost wide: { 256 ≤ range },
    ghost narrow: { range ≤ 510 },
    ghost at_least: { 9 ≤ bits },
    ghost at_most: { bits ≤ 17 },
    ghost small: { 2 * (low + range) ≤ 3 * 2 ^ bits },
}

impl Register {
    ghost use Rattle.hv_cabac.specs.Registers.{Holds, Cuts, PutsBits};

    /// The whole interval (9.3.2.5).
    pub fn new(alloc: Global) -> Register
        ensures held { result.failed ≡ false }
        ensures whole { (variables : List ContextVariable) →
            Holds result (first_interval variables) }
    {
        Register {
            low: 0,
            range: 510,
            bits: 9,
            out: Vec::new(alloc),
            failed: false,
        }
    }

    /// The interval's width.
    #[inline(always)]
    pub fn range(&self) -> u32
        ensures value { result ≡ self.now.range }
        ensures least { 256 ≤ result }
        ensures most { result ≤ 510 }
    {
        self.range
    }

    /// Puts a register of `bits` digits in place of the old one, and moves its highest digits out
    /// where there are many (PutBit).
    #[inline(always)]
    fn put_bits(&mut self, low: u64, range: u32, bits: u32)
        requires wide { 256 ≤ range }
        requires range_most { range ≤ 510 }
        requires least { 9 ≤ bits }
        requires most { bits ≤ 25 }
        requires low_most { 2 * (low + range) ≤ 3 * 2 ^ bits }
        ensures { self.new.failed ≡ false → PutsBits self.old self.new low range bits }
    {
        self.range = range;
        if bits < 18 {
            self.low = low;
            self.bits = bits;
        } else {
            let out = put_byte(&mut self.out, low, bits);
            self.failed |= !out;
            self.low = rest_of(low, range, bits);
            self.bits = bits - 8;
        }
    }

    /// Leaves out `skip` of the interval and has `width` of it, doubled until it has 256 (RenormE).
    #[inline(always)]
    pub fn renormalise(&mut self, skip: u32, width: u32)
        requires least { 0 < width }
        requires inside { skip + width ≤ self.old.range }
        ensures { self.new.failed ≡ false → Cuts self.old self.new (part skip width) }
    {
        let times = doublings(width);
        let low = new_low(self.low, self.range, self.bits, skip, width, times);
        self.put_bits(low, new_range(width, times), self.bits + times);
    }

    /// Has the more probable part of the interval, which is the low one, or the other of width
    /// `lps` (EncodeDecision).
    #[inline(always)]
    pub fn encode_decision(&mut self, lps: u32, is_mps: bool)
        requires least { 0 < lps }
        requires most { lps < self.old.range }
        ensures { self.new.failed ≡ false →
            Cuts self.old self.new (cut_at self.old.range lps is_mps) }
    {
        if is_mps {
            self.renormalise(0, self.range - lps);
        } else {
            self.renormalise(self.range - lps, lps);
        }
    }

    /// Doubles, and leaves out the low half where the value is true (EncodeBypass).
    #[inline(always)]
    pub fn encode_bypass(&mut self, value: bool)
        ensures { self.new.failed ≡ false →
            Cuts self.old self.new (cut [] self.old.range Bypass value) }
    {
        let skip = skip_of(self.range, value);
        let low = bypass_low(self.low, self.range, self.bits, skip);
        self.put_bits(low, self.range, self.bits + 1);
    }

    /// Has the part of the interval in which the slice goes on, where the value is false. The bin
    /// that ends the slice leaves the interval as it is: `flush` puts the last digits
    /// (EncodeTerminate).
    #[inline(always)]
    pub fn encode_terminate(&mut self, value: bool)
        ensures goes_on { value ≡ false → self.new.failed ≡ false →
            Cuts self.old self.new (part 0 (self.old.range - 2)) }
        ensures ends { value ≡ true → self.new ≡ self.old }
    {
        if !value {
            self.renormalise(0, self.range - 2);
        }
    }

    /// The bytes of the word that ends here, with zeros to the byte (EncodeFlush).
    pub fn flush(self) -> Result<Vec<u8>, NoMemory>
        ensures { (i : Interval) → (self.failed ≡ false → Holds self i) →
            IfOk result (λ bytes. bytes.items ≡ bytes_of (word_at i)) }
    {
        let Register {
            low,
            range,
            bits,
            out,
            failed,
        } = self;
        if failed {
            return Err(NoMemory);
        }
        let mut out = out;
        let pad = (8 - bits % 8) % 8;
        let last = last_of(low, range, bits, pad);
        put_rest(&mut out, last, bits + pad)?;
        Ok(out)
    }
}
