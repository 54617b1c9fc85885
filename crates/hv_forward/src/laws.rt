//! What two calls after each other give.
ghost use Rattle.std.specs.Prelude.{◌≡◌, ℕ, ℤ, Bool, List, map};
ghost use Rattle.hv_sample_model.specs.Quantisation.{transformed, quantised, levels};

/// `forward` and then `quantise` give the levels of a block of residuals.
pub fn calls_join_law()
    ensures { (log2 qp : ℕ) (intra : Bool) (block : List ℤ) →
        map (quantised log2 qp intra) (transformed log2 block) ≡ levels log2 qp intra block }
{}
