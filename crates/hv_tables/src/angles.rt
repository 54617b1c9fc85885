//! The angles of intra prediction, as the standard prints them.

ghost use Rattle.std.specs.Prelude.{◌≡◌, ◌≤◌};
ghost use Rattle.std.specs.Int.RustNames.{unsigned_abs};
ghost use Rattle.hv_tables.specs.Angles.{intraPredAngle, invAngle};
ghost use Rattle.hv_tables.specs.AngleLaws.{AnglesAreMirrored, AnglesTurnAtHorizontal, InverseAnglesAreNearest};

/// intraPredAngle of the modes 2 to 34 (8.4.4.2.6).
#[rattlefmt::skip]
static INTRA_PRED_ANGLES: [i8; 33] = [
    // 2 to 9
    32, 26, 21, 17, 13, 9, 5, 2,
    // 10 to 17, of which the first is horizontal
    0, -2, -5, -9, -13, -17, -21, -26,
    // 18, the diagonal, to 25
    -32, -26, -21, -17, -13, -9, -5, -2,
    // 26, vertical, to 34
    0, 2, 5, 9, 13, 17, 21, 26, 32,
];

/// invAngle of the modes 11 to 25 (8.4.4.2.6).
#[rattlefmt::skip]
static INV_ANGLES: [i16; 15] = [
    // 11 to 18
    -4096, -1638, -910, -630, -482, -390, -315, -256,
    // 19 to 25
    -315, -390, -482, -630, -910, -1638, -4096,
];

/// intraPredAngle (8.4.4.2.6): how far the line of an angular mode, 2 to 34, goes along the main
/// side for each row across, in 32nds of a sample.
#[inline(always)]
pub fn intra_pred_angle(mode: u8) -> i8
    requires first { 2 ≤ mode }
    requires last { mode ≤ 34 }
    ensures value { result ≡ intraPredAngle mode }
    ensures most { unsigned_abs result ≤ 32 }
{
    INTRA_PRED_ANGLES[usize::from(mode - 2)]
}

/// invAngle (8.4.4.2.6) of a mode with a negative angle, 11 to 25: how far its line goes along the
/// other side for each sample before the corner, in 256ths of a sample.
#[inline(always)]
pub fn inv_angle(mode: u8) -> i16
    requires first { 11 ≤ mode }
    requires last { mode ≤ 25 }
    ensures value { result ≡ invAngle mode }
    ensures most { unsigned_abs result ≤ 4096 }
{
    INV_ANGLES[usize::from(mode - 11)]
}

/// The angles from the left are those from above, in the other order; on the two sides of the
/// horizontal mode they are as large, with the other sign; and an inverse angle is 8192 over the
/// angle, to the nearest.
pub fn angle_laws()
    ensures mirrored { AnglesAreMirrored }
    ensures turned { AnglesTurnAtHorizontal }
    ensures inverse { InverseAnglesAreNearest }
{}
