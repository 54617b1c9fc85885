//! What a choice costs: squared differences, and bins by their weight at a quantiser.

ghost use Rattle.std.specs.Prelude.{◌≡◌, ◌*◌, ◌%◌, ◌≤◌, ◌^◌, [], ◌∷◌, slice_index_or};
ghost use Rattle.hv_filter_model.specs.Costs.{bin_weight, cost};

/// What the weight of a bin has to its power of 2.
fn weight_factor(qp: u8) -> u32
    ensures value { result ≡ slice_index_or (9 ∷ 11 ∷ 14 ∷ []) (qp % 3) 0 }
    ensures most { result ≤ 14 }
{
    [9, 11, 14][usize::from(qp % 3)]
}

/// A power of 2.
#[tactic(auto, using(crate::proofs::CostLemmas::power_most))]
fn power(exponent: u8) -> u32
    requires { exponent ≤ 17 }
    ensures value { result ≡ 2 ^ exponent }
    ensures most { result ≤ 2 ^ 17 }
{
    1 << exponent
}

/// A factor of a weight, and its power of 2.
fn scaled(factor: u32, power: u32) -> u32
    requires factor { factor ≤ 14 }
    requires power { power ≤ 2 ^ 17 }
    ensures value { result ≡ factor * power }
    ensures most { result ≤ 14 * 2 ^ 17 }
{
    factor * power
}

/// The weight of a bin at a quantiser (0 to 51), in 16ths of a squared difference. It takes no
/// memory and always answers.
pub fn bin_weight(qp: u8) -> u32
    requires { qp ≤ 51 }
    ensures value { result ≡ bin_weight qp }
    ensures most { result ≤ 2 ^ 17 }
{
    scaled(weight_factor(qp), power(qp / 3)) / 16
}

/// So many bins at a weight.
fn weighed(weight: u32, bins: u64) -> u64
    requires weight { weight ≤ 2 ^ 17 }
    requires bins { bins ≤ 2 ^ 46 }
    ensures value { result ≡ weight * bins }
    ensures most { result ≤ 2 ^ 63 }
{
    u64::from(weight) * bins
}

/// The cost of a sum of squared differences and of so many bins at a quantiser (0 to 51), in 16ths
/// of a squared difference. It takes no memory and always answers.
pub fn cost(qp: u8, squares: u64, bins: u64) -> u64
    requires qp { qp ≤ 51 }
    requires squares { squares ≤ 2 ^ 40 }
    requires bins { bins ≤ 2 ^ 46 }
    ensures { result ≡ cost qp squares bins }
{
    16 * squares + weighed(bin_weight(qp), bins)
}
