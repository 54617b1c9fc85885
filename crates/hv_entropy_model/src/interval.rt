//! What a bin does with the interval of the arithmetic encoder (9.3.4.3).

ghost use Rattle.hv_entropy_model.specs.IntervalLaws.{WidthsAreDoubled, CutsAreWithin, LpsWidthIsBounded};

/// The interval is doubled until it is wide enough again, and a bin keeps a part of it.
pub fn interval_laws()
    ensures doubled { WidthsAreDoubled }
    ensures cut { CutsAreWithin }
{}

/// The less probable part of a range is neither empty nor too wide (9.3.4.3.2).
pub fn lps_width_is_bounded()
    ensures { LpsWidthIsBounded }
{}
