//! The thresholds of an edge (Table 8-12).

ghost use Rattle.std.specs.Prelude.{◌≡◌, ◌≤◌};
ghost use Rattle.hv_deblock_model.specs.EdgeFilters.{beta, tc};

/// tC by its index, 0 to 53.
#[rattlefmt::skip]
static TC: [u8; 54] = [
    // 0 to 18
    0, 0, 0, 0, 0, 0, 0, 0, 0, 0, 0, 0, 0, 0, 0, 0, 0, 0, 1,
    // 19 to 37
    1, 1, 1, 1, 1, 1, 1, 1, 2, 2, 2, 2, 3, 3, 3, 3, 4, 4, 4,
    // 38 to 53
    5, 5, 6, 6, 7, 8, 9, 10, 11, 13, 14, 16, 18, 20, 22, 24,
];

/// The threshold beta of a quantiser, 0 to 51. It is 0 to 64.
#[inline(always)]
pub fn beta(qp: u8) -> u8
    requires { qp ≤ 51 }
    ensures value { result ≡ beta qp }
    ensures most { result ≤ 64 }
{
    match qp {
        0..=15 => 0,
        16..=28 => qp - 10,
        _ => 2 * qp - 38,
    }
}

/// The threshold tC of a quantiser, 0 to 51, and a strength, 1 or 2. It is 0 to 24.
#[inline(always)]
pub fn tc(qp: u8, strength: u8) -> u8
    requires qp { qp ≤ 51 }
    requires least { 1 ≤ strength }
    requires most { strength ≤ 2 }
    ensures value { result ≡ tc qp strength }
    ensures most { result ≤ 24 }
{
    TC[usize::from(qp + 2 * (strength - 1))]
}
