//! The colour components of a choice.

ghost use Rattle.std.specs.Prelude.{◌≡◌};
ghost use Rattle.hv_sao.specs.Components.{component_of};

use hv_plan::{SaoComponent, SaoParam};

/// A colour component.
#[derive(Clone, Copy)]
pub(crate) enum Component {
    Luma,
    Cb,
    Cr,
}

impl Component {
    /// What a choice says of this component.
    pub(crate) fn of(self, param: SaoParam) -> SaoComponent
        ensures { result ≡ component_of self param }
    {
        match self {
            Component::Luma => param.luma,
            Component::Cb => param.cb,
            Component::Cr => param.cr,
        }
    }
}
