//! The offsets of a picture.

ghost use Rattle.std.specs.Prelude.{◌≡◌, ◌^◌, ◌<◌, All, length};
ghost use Rattle.hv_types.specs.Video.{IsPicture};
ghost use Rattle.hv_filter_model.specs.SampleAdaptiveOffset.{IsValidParam};
ghost use Rattle.hv_filter_model.specs.OffsetDecision.{block_count, block_offsets, picture_offsets};

use hv_block::no_offsets;
use hv_plan::{Place, SaoParam};
use hv_sao::choose_sao;
use hv_types::Picture;

/// The choice for a block, which is none at effort 0.
fn choose_block(effort: u8, qp: u8, deblocked: &Picture, input: &Picture, number: u32) -> SaoParam
    requires deblocked { IsPicture deblocked.now.luma.width deblocked.now.luma.height
        deblocked.now }
    requires input { IsPicture deblocked.now.luma.width deblocked.now.luma.height input.now }
    requires number { number < block_count deblocked.now }
    requires qp { qp < 52 }
    ensures value { result ≡ block_offsets effort qp deblocked.now input.now number }
    ensures valid { IsValidParam result }
{
    if effort == 0 {
        no_offsets()
    } else {
        let place = Place {
            width: deblocked.luma.width(),
            height: deblocked.luma.height(),
            index: number,
        };
        choose_sao(deblocked, input, place, qp)
    }
}

/// The choices for all blocks of a picture.
pub(crate) fn choose_offsets(
    effort: u8,
    qp: u8,
    deblocked: &Picture,
    input: &Picture,
    sao: &mut [SaoParam],
)
    requires deblocked { IsPicture deblocked.now.luma.width deblocked.now.luma.height
        deblocked.now }
    requires input { IsPicture deblocked.now.luma.width deblocked.now.luma.height input.now }
    requires count { length sao.old ≡ block_count deblocked.now }
    requires few { length sao.old < 2 ^ 32 }
    requires qp { qp < 52 }
    ensures value { sao.new ≡ picture_offsets effort qp deblocked.now input.now }
    ensures valid { All IsValidParam sao.new }
{
    for number in 0..sao.len() {
        sao[number] = choose_block(effort, qp, deblocked, input, number as u32);
    }
}
