//! The quantisers of chroma (8.6.1), the factors of scaling (8.6.3), and the encoder's factors of
//! quantisation.
ghost use Rattle.std.specs.Prelude.{◌≡◌, ◌≤◌};
ghost use Rattle.hv_tables.specs.Quantisers.{chroma_qp, levelScale, quantisation_factor};
ghost use Rattle.hv_tables.specs.QuantiserLaws.{ChromaKeepsPace, ChromaFallsBehind, ChromaGoesHalfAsFast, ChromaStaysSixBehind, ScalesAreNearest, FactorsAreNearest};

/// QpC, for qPi from 30 to 43 (Table 8-10, of ChromaArrayType 1).
#[rattlefmt::skip]
static MIDDLE_QUANTISERS: [u8; 14] = [
    // 30 to 36
    29, 30, 31, 32, 33, 33, 34,
    // 37 to 43
    34, 35, 35, 36, 36, 37, 37,
];

/// levelScale, by QP % 6.
static LEVEL_SCALES: [u8; 6] = [40, 45, 51, 57, 64, 72];

/// About 2^20 by levelScale, by QP % 6.
static FACTORS: [u16; 6] = [26214, 23302, 20560, 18396, 16384, 14564];

/// The quantiser of chroma, from that of luma, 0 to 51 (8.6.1). It is 0 to 45.
#[inline(always)]
pub fn chroma_qp(qp: u8) -> u8
    requires { qp ≤ 51 }
    ensures value { result ≡ chroma_qp qp }
    ensures most { result ≤ 45 }
{
    match qp {
        0..=29 => qp,
        30..=43 => MIDDLE_QUANTISERS[usize::from(qp - 30)],
        _ => qp - 6,
    }
}

/// The scaling factor of a quantiser, levelScale of QP % 6 (8.6.3). It is 40 to 72.
#[inline(always)]
pub fn level_scale(qp: u8) -> u8
    ensures value { result ≡ levelScale qp }
    ensures most { result ≤ 72 }
{
    LEVEL_SCALES[usize::from(qp % 6)]
}

/// What the encoder multiplies a coefficient by at a quantiser, before it divides by a power of
/// two: 14564 to 26214.
#[inline(always)]
pub fn quantisation_factor(qp: u8) -> u16
    ensures value { result ≡ quantisation_factor qp }
    ensures most { result ≤ 26214 }
{
    FACTORS[usize::from(qp % 6)]
}

/// The quantiser of chroma is that of luma below 30, one less to 33, then goes half as fast to 43,
/// and stays six less above; a scaling factor is the nearest to 2^((32 + QP % 6) / 6), and a factor
/// of quantisation the nearest to 2^20 by it.
pub fn quantiser_laws()
    ensures below { ChromaKeepsPace }
    ensures from_30 { ChromaFallsBehind }
    ensures from_34 { ChromaGoesHalfAsFast }
    ensures above { ChromaStaysSixBehind }
    ensures scales { ScalesAreNearest }
    ensures factors { FactorsAreNearest }
{}
