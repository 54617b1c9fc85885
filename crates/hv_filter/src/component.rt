//! The colour components of a coding tree block.

ghost use Rattle.std.specs.Prelude.{◌≡◌, ◌*◌, length};
ghost use Rattle.hv_filter.specs.JoinedPicture.{samples_of, side_of};

use hv_block::Samples;

/// The side of a coding tree block in luma (`CtbSizeY`), and in Cb and Cr.
pub(crate) const LUMA_SIDE: u32 = 64;

pub(crate) const CHROMA_SIDE: u32 = 32;

/// A colour component.
#[derive(Clone, Copy)]
pub(crate) enum Component {
    Luma,
    Cb,
    Cr,
}

impl Component {
    /// What a block has of this component, by rows.
    #[inline(always)]
    pub(crate) fn of(self, samples: &Samples) -> &[u8]
        ensures value { result.now ≡ samples_of self samples.now }
        ensures count { length result.now ≡ side_of self * side_of self }
    {
        match self {
            Component::Luma => samples.luma(),
            Component::Cb => samples.cb(),
            Component::Cr => samples.cr(),
        }
    }
}
