//! coeff_abs_level_remaining of the levels of a sub-block (7.3.8.11, 9.3.3.11).

ghost use Rattle.std.specs.Prelude.{◌≡◌, ◌-◌, ◌≤◌, cond, length, true};
ghost use Rattle.hv_residual_model.specs.UnitBins.{PutsUnit};
ghost use Rattle.hv_residual_model.specs.ResidualSyntax.{base, bases, next_cRiceParam};
ghost use Rattle.hv_residual_model.specs.ResidualBins.{all_remaining_bins, greater1_values};
ghost use Rattle.hv_residual.specs.Levels.{base_at, first_at, one_remaining_bins};

use crate::binarization::{power, put_remaining};
use hv_tables::BinSink;

/// What the flags say of a level: `baseLevel`, and whether coeff_abs_level_remaining follows.
#[derive(Clone, Copy)]
pub struct Base {
    pub base_level: u16,
    pub has_remaining: bool,
}

/// The base of a level, where so many greater1 flags may still follow, `first` while none was 1,
/// from the greater2 flag and this level's own greater1 flag.
#[inline(always)]
pub fn base_of(left: u8, first: bool, greater2: bool, flag: bool) -> Base
    ensures { base result.base_level result.has_remaining ≡ base_at left first greater2 flag }
{
    if left == 0 {
        return Base {
            base_level: 1,
            has_remaining: true,
        };
    }
    if !flag {
        return Base {
            base_level: 1,
            has_remaining: false,
        };
    }
    if !first {
        return Base {
            base_level: 2,
            has_remaining: true,
        };
    }
    if greater2 {
        return Base {
            base_level: 3,
            has_remaining: true,
        };
    }
    Base {
        base_level: 2,
        has_remaining: false,
    }
}

/// Whether no greater1 flag was 1 up to a level, from the same before it and its own flag.
#[inline(always)]
pub fn still_first(left: u8, first: bool, flag: bool) -> bool
    ensures { result ≡ first_at left first flag }
{
    if left == 0 {
        return first;
    }
    if flag {
        return false;
    }
    first
}

/// cRiceParam behind a level of this magnitude.
#[inline(always)]
fn next_rice(rice: u8, magnitude: u16) -> u8
    requires { rice ≤ 4 }
    ensures value { result ≡ next_cRiceParam rice magnitude }
    ensures most { result ≤ 4 }
{
    if u32::from(magnitude) > 3 * power(rice) {
        return u8::min(4, rice + 1);
    }
    rice
}

/// cRiceParam behind a level of this magnitude and base.
#[inline(always)]
pub fn rice_behind(rice: u8, magnitude: u16, base: Base) -> u8
    requires { rice ≤ 4 }
    ensures value { result ≡ cond base.has_remaining (next_cRiceParam rice magnitude) rice }
    ensures most { result ≤ 4 }
{
    if base.has_remaining {
        return next_rice(rice, magnitude);
    }
    rice
}

/// Puts what is left of a level of this magnitude above its base, where it has that.
#[inline(always)]
fn put_above_base<B: BinSink>(sink: &mut B, rice: u8, magnitude: u16, base: Base)
    requires { rice ≤ 4 }
    ensures { PutsUnit B.stands_for sink.old sink.new
        (one_remaining_bins base.has_remaining rice (magnitude - base.base_level)) }
{
    if base.has_remaining {
        put_remaining(
            sink,
            rice,
            u32::from(magnitude.saturating_sub(base.base_level)),
        );
    }
}

/// Puts what is left of the magnitudes of a sub-block above their bases, from the greater2 flag.
#[inline(always)]
pub fn put_all_remaining<B: BinSink>(sink: &mut B, magnitudes: &[u16], greater2: bool)
    ensures { PutsUnit B.stands_for sink.old sink.new (all_remaining_bins
        (bases true greater2 (greater1_values 8 magnitudes.now) (length magnitudes.now))
        magnitudes.now 0) }
{
    let mut rice = 0u8;
    let mut left = 8u8;
    let mut first = true;
    for m in magnitudes {
        let flag = *m > 1;
        let base = base_of(left, first, greater2, flag);
        put_above_base(sink, rice, *m, base);
        rice = rice_behind(rice, *m, base);
        first = still_first(left, first, flag);
        left = left.saturating_sub(1);
    }
}
