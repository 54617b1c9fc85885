//! Blocks of one colour component.

ghost use Rattle.std.specs.Prelude.{◌≡◌, ◌<◌, ◌≤◌, All};
ghost use Rattle.hv_types.specs.Samples.{HasByteSamples};
ghost use Rattle.hv_sao.specs.Areas.{IsInside};

use hv_types::Plane;

/// A rectangle of a plane.
#[derive(Clone, Copy)]
pub(crate) struct Area {
    pub(crate) left: u32,
    pub(crate) top: u32,
    pub(crate) columns: u32,
    pub(crate) rows: u32,
}

/// A block of one colour component, of at most 64 columns and rows: as deblocked, and in the input.
#[derive(Clone, Copy)]
pub(crate) struct Block<'a> {
    pub(crate) deblocked: &'a Plane,
    pub(crate) input: &'a Plane,
    pub(crate) area: Area,
    ghost inside: { IsInside deblocked.now input.now area },
}

/// Each number of a slice of bytes is a byte.
fn are_bytes(samples: &[u8])
    ensures { All (λ s. s < 256) samples.now }
{}

/// All samples of a plane, by rows, each a byte.
fn samples_of(plane: &Plane) -> &[u8]
    ensures value { result.now ≡ plane.now.samples }
    ensures bytes { HasByteSamples plane.now }
{
    let samples = plane.samples();
    are_bytes(samples);
    samples
}

impl<'a> Block<'a> {
    ghost use Rattle.std.specs.Prelude.{◌-◌, ◌*◌, ◌/◌};
    ghost use Rattle.hv_filter_model.specs.Blocks.{block_area};
    ghost use Rattle.hv_sao.specs.Areas.{area_of};

    /// The block of this number, in raster order, where blocks have this side and `across` of them
    /// stand in a row: what the planes, of one size, have of it.
    #[tactic(auto, using(crate::proofs::AreaLemmas::block_left))]
    pub(crate) fn of(
        deblocked: &'a Plane,
        input: &'a Plane,
        side: u32,
        across: u32,
        index: u32,
    ) -> Self
        requires least { 0 < side }
        requires most { side ≤ 64 }
        requires some { 0 < across }
        requires across { (across - 1) * side ≤ deblocked.now.width }
        requires down { index / across * side ≤ deblocked.now.height }
        requires wide { input.now.width ≡ deblocked.now.width }
        requires high { input.now.height ≡ deblocked.now.height }
        ensures deblocked { result.deblocked.now ≡ deblocked.now }
        ensures input { result.input.now ≡ input.now }
        ensures area { area_of result.area ≡ block_area side across index deblocked.now }
    {
        let _samples = samples_of(deblocked);
        let width = deblocked.width();
        let height = deblocked.height();
        let left = index % across * side;
        let top = index / across * side;
        Block {
            deblocked,
            input,
            area: Area {
                left,
                top,
                columns: side.min(width - left),
                rows: side.min(height - top),
            },
        }
    }
}
