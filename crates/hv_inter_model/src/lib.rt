//! Inter prediction as a definition: fractional sample interpolation and default weighted sample
//! prediction of a block (8.5.3.3.3, 8.5.3.3.4.2).
#![tactic(auto)]

ghost use Rattle.hv_inter_model.specs.InterpolationLaws.{LumaTapsSumTo64, ChromaTapsSumTo64, LumaTapsAreMirrored, ChromaTapsAreMirrored};

/// The taps of each fraction of a sample sum to 64, and those of what is left to the next whole
/// sample are the same backwards.
pub fn interpolation_laws()
    ensures luma_sums { LumaTapsSumTo64 }
    ensures chroma_sums { ChromaTapsSumTo64 }
    ensures luma_mirrored { LumaTapsAreMirrored }
    ensures chroma_mirrored { ChromaTapsAreMirrored }
{}
