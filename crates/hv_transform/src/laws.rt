//! What two calls after each other give.
ghost use Rattle.std.specs.Prelude.{◌≡◌, ℕ, ℤ, List, map};
ghost use Rattle.hv_sample_model.specs.InverseTransform.{scaled, inverse_transformed, residual};

/// `scale` and then `inverse` give the residual of a block of levels (8.6.2).
pub fn calls_join_law()
    ensures { (log2 qp : ℕ) (block : List ℤ) →
        inverse_transformed log2 (map (scaled log2 qp) block) ≡ residual log2 qp block }
{}
