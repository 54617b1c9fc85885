//! What a choice costs.

ghost use Rattle.std.specs.Prelude.{◌≡◌, ℕ, ◌*◌, ◌<◌, ◌≤◌, ◌^◌, pos};
ghost use Rattle.std.specs.Int.RustNames.{unsigned_abs};
ghost use Rattle.hv_filter_model.specs.Costs.{cost};

use hv_kernel::bin_weight;

/// A product.
fn product(a: u32, b: u32) -> u32
    requires a { a ≤ 128 }
    requires b { b ≤ 2 ^ 21 }
    ensures value { result ≡ a * b }
    ensures most { result ≤ 2 ^ 28 }
{
    a * b
}

/// The cost of a sum of squared differences and of so many bins, in 16ths of a squared difference.
#[tactic(auto, using(crate::proofs::CostLemmas::cost_turned))]
pub(crate) fn cost(qp: u8, squares: i64, bins: u32) -> i64
    requires qp { qp < 52 }
    requires squares { unsigned_abs squares ≤ 2 ^ 31 }
    requires bins { bins ≤ 128 }
    ensures { (s : ℕ) → squares ≡ pos s → result ≡ pos (cost qp s bins) }
{
    16 * squares + i64::from(product(bins, bin_weight(qp)))
}
