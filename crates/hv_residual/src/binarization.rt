//! Binarizations (9.3.3) of numbers that are put in bypass.

ghost use Rattle.std.specs.Prelude.{◌≡◌, ◌^◌, ◌<◌, ◌≤◌};
ghost use Rattle.hv_residual_model.specs.UnitBins.{PutsUnit};
ghost use Rattle.hv_residual_model.specs.Binarization.{fixed_length_bins, truncated_unary_bins, exp_golomb_bins, bypass_at, remaining_bins};

use hv_tables::BinSink;

/// A power of two.
#[inline(always)]
pub fn power(exponent: u8) -> u32
    requires { exponent ≤ 31 }
    ensures { result ≡ 2 ^ exponent }
{
    1 << exponent
}

/// Puts the lowest `length` binary digits of a number, the highest first.
#[inline(always)]
pub fn put_fixed_length<B: BinSink>(sink: &mut B, length: u8, value: u32)
    requires { length ≤ 32 }
    ensures { PutsUnit B.stands_for sink.old sink.new (fixed_length_bins length value) }
{
    let mut left = length;
    while left > 0 {
        left -= 1;
        sink.bypass((value >> left) % 2 == 1);
    }
}

/// Puts a number in Exp-Golomb of order `k` (9.3.3.5).
pub fn put_exp_golomb<B: BinSink>(sink: &mut B, k: u8, value: u32)
    requires order { k ≤ 8 }
    requires most { value < 524288 }
    ensures { PutsUnit B.stands_for sink.old sink.new (exp_golomb_bins 32 k value) }
{
    let mut order = k;
    let mut rest = value;
    while rest >= power(order) {
        sink.bypass(true);
        rest -= power(order);
        order += 1;
    }
    sink.bypass(false);
    put_fixed_length(sink, order, rest);
}

/// Puts a number in truncated unary where cMax is `most` (9.3.3.2), in bypass: as many ones, and a
/// zero where there are fewer than `most`.
#[inline(always)]
pub fn put_truncated_unary<B: BinSink>(sink: &mut B, most: u8, value: u8)
    requires { value ≤ most }
    ensures { PutsUnit B.stands_for sink.old sink.new
        (truncated_unary_bins bypass_at most 0 value) }
{
    for i in 0..value {
        sink.bypass(true);
    }
    if value < most {
        sink.bypass(false);
    }
}

/// Puts coeff_abs_level_remaining with cRiceParam `k` (9.3.3.11).
pub fn put_remaining<B: BinSink>(sink: &mut B, k: u8, value: u32)
    requires order { k ≤ 4 }
    requires most { value < 524288 }
    ensures { PutsUnit B.stands_for sink.old sink.new (remaining_bins k value) }
{
    let prefix = value / power(k);
    if prefix < 4 {
        put_truncated_unary(sink, 4, prefix as u8);
        put_fixed_length(sink, k, value);
    } else {
        put_truncated_unary(sink, 4, 4);
        put_exp_golomb(sink, k + 1, value - 4 * power(k));
    }
}
