//! The colour components.

ghost use Rattle.std.specs.Prelude.{◌≡◌, ◌≤◌};
ghost use Rattle.hv_deblock.specs.Passes.{is_still};

use crate::thresholds::beta;

/// Luma, or one of Cb and Cr.
#[derive(Clone, Copy)]
pub(crate) enum Component {
    Luma,
    Chroma,
}

impl Component {
    /// Whether no sample of a picture of this quantiser of luma changes: beta is 0.
    #[inline(always)]
    pub(crate) fn is_still(self, qp: u8) -> bool
        requires { qp ≤ 51 }
        ensures { result ≡ is_still self qp }
    {
        match self {
            Component::Luma => beta(qp) == 0,
            Component::Chroma => false,
        }
    }
}
