//! The choice of a block's offsets.

ghost use Rattle.std.specs.Prelude.{◌≡◌, ◌*◌, ◌<◌, ◌≤◌};
ghost use Rattle.hv_types.specs.Video.{IsPicture};
ghost use Rattle.hv_filter_model.specs.Blocks.{luma_side, blocks_over};
ghost use Rattle.hv_filter_model.specs.SampleAdaptiveOffset.{IsValidParam};
ghost use Rattle.hv_filter_model.specs.OffsetDecision.{luma_choice, band_choice, chroma_choice, chosen_offsets};
ghost use Rattle.hv_sao.specs.Decisions.{block_of, IsMeasured};
ghost use Rattle.hv_sao.specs.Prices.{IsMade, pair_of};

use crate::block::Block;
use crate::candidate::Candidate;
use crate::candidates::{band_candidate, band_offsets, edge_candidate, off_candidate};
use crate::price::{PricedPair, cheaper, cheaper_pair, price_alone, price_chroma, price_luma};
use crate::sides::{CHROMA_SIDE, LUMA_SIDE};
use crate::tallies::{squared_differences, tally_edges, tally_values};
use hv_plan::{Place, SaoComponent, SaoParam};
use hv_types::Picture;

/// The choice for a block of luma: the first of least cost among off, the bands at the positions
/// 0 to 28 and the edge classes.
fn choose_luma(block: Block<'_>, qp: u8) -> SaoComponent
    requires { qp < 52 }
    ensures { result ≡ luma_choice qp
        (block_of block.entry.deblocked.now block.entry.input.now block.entry.area) }
{
    let squares = squared_differences(block);
    let bands = band_offsets(&tally_values(block));
    let mut best = price_luma(qp, off_candidate(squares));
    'bands: for position in 0..29u8 {
        best = cheaper(
            best,
            price_luma(qp, band_candidate(&bands, position, squares)),
        );
    }
    'edges: for class in 0..4u8 {
        let tallies = tally_edges(block, class);
        best = cheaper(
            best,
            price_luma(qp, edge_candidate(&tallies, class, squares)),
        );
    }
    best.candidate.component
}

/// The band of Cb or Cr: the first of least cost among the positions 0 to 28, the cost being that
/// of the component alone.
fn best_band(block: Block<'_>, qp: u8, squares: u32) -> Candidate
    requires qp { qp < 52 }
    requires most { squares ≤ 65025 * 4096 }
    requires squares { IsMeasured (block_of block.deblocked.now block.input.now block.area)
        squares }
    ensures made { IsMade (block_of block.entry.deblocked.now block.entry.input.now
        block.entry.area) result }
    ensures best { result.component ≡ band_choice qp
        (block_of block.entry.deblocked.now block.entry.input.now block.entry.area) }
{
    let bands = band_offsets(&tally_values(block));
    let mut best = price_alone(qp, band_candidate(&bands, 0, squares));
    'bands: for i in 0..28u8 {
        best = cheaper(
            best,
            price_alone(qp, band_candidate(&bands, i + 1, squares)),
        );
    }
    best.candidate
}

/// The choice for a block of Cb and one of Cr: the first of least cost among off, their bands, and
/// the edge classes.
fn choose_chroma(cb: Block<'_>, cr: Block<'_>, qp: u8) -> PricedPair
    requires { qp < 52 }
    ensures { pair_of result ≡ chroma_choice qp
        (block_of cb.entry.deblocked.now cb.entry.input.now cb.entry.area)
        (block_of cr.entry.deblocked.now cr.entry.input.now cr.entry.area) }
{
    let cb_squares = squared_differences(cb);
    let cr_squares = squared_differences(cr);
    let off = price_chroma(qp, off_candidate(cb_squares), off_candidate(cr_squares));
    let cb_band = best_band(cb, qp, cb_squares);
    let cr_band = best_band(cr, qp, cr_squares);
    let mut best = cheaper_pair(off, price_chroma(qp, cb_band, cr_band));
    'edges: for class in 0..4u8 {
        let cb_edge = edge_candidate(&tally_edges(cb, class), class, cb_squares);
        let cr_edge = edge_candidate(&tally_edges(cr, class), class, cr_squares);
        best = cheaper_pair(best, price_chroma(qp, cb_edge, cr_edge));
    }
    best
}

/// The encoder's choice of sample adaptive offsets for the coding tree block at a place: for luma,
/// and for Cb and Cr together, the first of least cost among off, the bands at the positions 0 to
/// 28 and the edge classes, each with the rounded means of its samples' differences as offsets.
/// The cost is 16 times the sum of squared differences of the input and what is shown, and the
/// bins of the choice without merge flags, weighted for the quantiser `qp`, 0 to 51. Both pictures
/// are whole ones in 4:2:0 of the place's sides.
pub fn choose_sao(deblocked: &Picture, input: &Picture, place: Place, qp: u8) -> SaoParam
    requires deblocked { IsPicture place.width place.height deblocked.now }
    requires input { IsPicture place.width place.height input.now }
    requires index { place.index <
        blocks_over luma_side place.width * blocks_over luma_side place.height }
    requires qp { qp < 52 }
    ensures value { result ≡ chosen_offsets deblocked.now input.now place qp }
    ensures valid { IsValidParam result }
{
    let across = place.width.div_ceil(LUMA_SIDE);
    let luma = Block::of(&deblocked.luma, &input.luma, LUMA_SIDE, across, place.index);
    let cb = Block::of(&deblocked.cb, &input.cb, CHROMA_SIDE, across, place.index);
    let cr = Block::of(&deblocked.cr, &input.cr, CHROMA_SIDE, across, place.index);
    let chroma = choose_chroma(cb, cr, qp);
    SaoParam {
        luma: choose_luma(luma, qp),
        cb: chroma.cb.component,
        cr: chroma.cr.component,
    }
}
