//! The data of the slice of a picture in which nothing is chosen.

ghost use Rattle.std.specs.Prelude.{◌≡◌, ◌*◌, ◌^◌, ◌<◌, ◌≤◌, [], ◌∷◌, ◌++◌, IfOk};
ghost use Rattle.hv_tables.specs.Bins.{Puts};
ghost use Rattle.hv_stream_model.specs.Bits.{bytes_of};
ghost use Rattle.hv_entropy_model.specs.CodeWord.{word};
ghost use Rattle.hv_tree_model.specs.Sites.{sites};
ghost use Rattle.hv_unit_model.specs.Bins.{slice_bins};
ghost use Rattle.hv_slice_model.specs.BlankUnits.{blank_units};
ghost use Rattle.hv_packet.specs.BlankBins.{bin, mode_bins, part_bins, prediction_bins, luma_bins};
ghost use Rattle.hv_packet.specs.BlankBins.{transform_bins, unit_bins, split_bins, node_bins};
ghost use Rattle.hv_packet.specs.BlankBins.{merge_bins, block_bins, picture_bins};

use crate::slice::Slice;
use hv_cabac::{BinSink, Ctx, CtxTable, Encoder, SliceKind};
use hv_slice_model::{blank_units_are_valid, slice_data_ends};
use hv_types::NoMemory;
use hv_unit_model::sites_are_there;
use std::alloc::Global;

/// The side of a coding tree block in luma samples (CtbSizeY).
const CTB_SIDE: u32 = 64;

/// The size of a node that is a whole coding tree block. A node's side is 8 << size luma samples.
const CTB_SIZE: u8 = 3;

/// The slice data (7.3.8.1) of a picture in which nothing is chosen, as a code word with zeros to
/// the byte.
pub fn blank_data(alloc: Global, slice: Slice) -> Result<Vec<u8>, NoMemory>
    ensures { IfOk result (λ bytes. bytes.items ≡ bytes_of (word slice.kind slice.qp
        (slice_bins slice.kind slice.references (sites slice.width slice.height)
        (blank_units (sites slice.width slice.height))))) }
{
    sites_are_there();
    blank_units_are_valid();
    slice_data_ends();
    let mut encoder = Encoder::new(alloc, slice.kind, slice.qp);
    put_slice_data(&mut encoder, slice.kind, slice.width, slice.height);
    encoder.finish()
}

/// slice_segment_data (7.3.8.1) of a picture of these sides in luma samples: the coding tree units
/// of its blocks, in raster order. The last one ends the slice.
fn put_slice_data<B: BinSink>(sink: &mut B, slice_type: SliceKind, width: u32, height: u32)
    requires width { width ≤ 4096 }
    requires height { height ≤ 2176 }
    ensures { Puts B.stands_for sink.old sink.new (picture_bins slice_type width height) }
{
    let columns = width.div_ceil(CTB_SIDE);
    let count = columns * height.div_ceil(CTB_SIDE);
    for index in 0..count {
        let column = index % columns;
        let row = index / columns;
        let is_last = index + 1 == count;
        put_coding_tree_unit(sink, slice_type, width, height, column, row, is_last);
    }
}

/// coding_tree_unit (7.3.8.2) of the block in this column and row, from 0, of a picture of these
/// sides in luma samples, and end_of_slice_segment_flag.
fn put_coding_tree_unit<B: BinSink>(
    sink: &mut B,
    slice_type: SliceKind,
    width: u32,
    height: u32,
    column: u32,
    row: u32,
    is_last: bool,
)
    requires across { 64 * column < width }
    requires down { 64 * row < height }
    ensures { Puts B.stands_for sink.old sink.new
        (block_bins slice_type width height column row is_last) }
{
    put_merge(sink, column > 0);
    put_merge(sink, row > 0);
    put_element(sink, CtxTable::SaoType, 0, false);
    put_element(sink, CtxTable::SaoType, 0, false);
    put_quadtree(
        sink,
        slice_type,
        CTB_SIZE,
        width - CTB_SIDE * column,
        height - CTB_SIDE * row,
    );
    sink.terminate(is_last);
}

/// sao_merge_left_flag or sao_merge_up_flag, 0, where there is a block to merge with (7.3.8.3).
fn put_merge<B: BinSink>(sink: &mut B, is_there: bool)
    ensures { Puts B.stands_for sink.old sink.new (merge_bins is_there) }
{
    if is_there {
        put_element(sink, CtxTable::SaoMerge, 0, false);
    }
}

/// coding_quadtree (7.3.8.4) of a node of this size, 0 to 3, in which nothing is chosen. `width`
/// and `height` say how much of the picture there is from its upper left corner on, in luma
/// samples: a node that crosses the picture's edge is split without a flag, down to 8x8, and
/// nothing is coded of one outside.
fn put_quadtree<B: BinSink>(sink: &mut B, slice_type: SliceKind, size: u8, width: u32, height: u32)
    requires size { size ≤ 3 }
    ensures { Puts B.stands_for sink.old sink.new (node_bins slice_type size width height) }
{
    if width == 0 || height == 0 {
        return;
    }
    if size > 0 && (width < side(size) || height < side(size)) {
        let right = width.saturating_sub(side(size - 1));
        let below = height.saturating_sub(side(size - 1));
        put_quadtree(sink, slice_type, size - 1, width, height);
        put_quadtree(sink, slice_type, size - 1, right, height);
        put_quadtree(sink, slice_type, size - 1, width, below);
        put_quadtree(sink, slice_type, size - 1, right, below);
    } else {
        put_coding_unit(sink, slice_type, size);
    }
}

/// The side of a node in luma samples: 8, 16, 32 or 64.
fn side(size: u8) -> u32
    requires { size ≤ 3 }
    ensures { result ≡ 8 * 2 ^ size }
{
    8 << size
}

/// split_cu_flag, 0, and coding_unit (7.3.8.5) of a node of this size.
fn put_coding_unit<B: BinSink>(sink: &mut B, slice_type: SliceKind, size: u8)
    ensures { Puts B.stands_for sink.old sink.new (split_bins size ++ unit_bins slice_type size) }
{
    put_split_flag(sink, size);
    put_mode(sink, slice_type);
    put_part_mode(sink, size);
    put_prediction(sink);
    put_transform_tree(sink, size);
}

/// split_cu_flag, 0: a unit of 8x8 has none, and no unit at the left or above is deeper.
fn put_split_flag<B: BinSink>(sink: &mut B, size: u8)
    ensures { Puts B.stands_for sink.old sink.new (split_bins size) }
{
    if size > 0 {
        put_element(sink, CtxTable::Split, 0, false);
    }
}

/// cu_skip_flag, 0, and pred_mode_flag, 1 for intra prediction, which P slices have alone.
fn put_mode<B: BinSink>(sink: &mut B, slice_type: SliceKind)
    ensures { Puts B.stands_for sink.old sink.new (mode_bins slice_type) }
{
    match slice_type {
        SliceKind::I => {}
        SliceKind::P => {
            put_element(sink, CtxTable::Skip, 0, false);
            put_element(sink, CtxTable::PredMode, 0, true);
        }
    }
}

/// part_mode, which a unit of 8x8 has alone: PART_2Nx2N.
fn put_part_mode<B: BinSink>(sink: &mut B, size: u8)
    ensures { Puts B.stands_for sink.old sink.new (part_bins size) }
{
    if size == 0 {
        put_element(sink, CtxTable::PartMode, 0, true);
    }
}

/// Mode DC as the second of the most probable modes, and the chroma mode that follows it (7.3.8.5).
fn put_prediction<B: BinSink>(sink: &mut B)
    ensures { Puts B.stands_for sink.old sink.new prediction_bins }
{
    put_element(sink, CtxTable::PrevIntra, 0, true);
    sink.bypass(true);
    sink.bypass(false);
    put_element(sink, CtxTable::ChromaMode, 0, false);
}

/// transform_tree without a level but 0 (7.3.8.8): cbf_cb and cbf_cr of the whole, and cbf_luma.
fn put_transform_tree<B: BinSink>(sink: &mut B, size: u8)
    ensures { Puts B.stands_for sink.old sink.new (transform_bins size) }
{
    put_element(sink, CtxTable::CbfChroma, 0, false);
    put_element(sink, CtxTable::CbfChroma, 0, false);
    put_luma_flags(sink, size);
}

/// cbf_luma, 0: of a unit of 64x64 that of each of its four transform blocks of 32x32.
fn put_luma_flags<B: BinSink>(sink: &mut B, size: u8)
    ensures { Puts B.stands_for sink.old sink.new (luma_bins size) }
{
    if size < CTB_SIZE {
        put_element(sink, CtxTable::CbfLuma, 1, false);
    } else {
        put_element(sink, CtxTable::CbfLuma, 0, false);
        put_element(sink, CtxTable::CbfLuma, 0, false);
        put_element(sink, CtxTable::CbfLuma, 0, false);
        put_element(sink, CtxTable::CbfLuma, 0, false);
    }
}

/// A syntax element of one bin, coded with the context variable at this place of its table.
fn put_element<B: BinSink>(sink: &mut B, table: CtxTable, index: u8, value: bool)
    ensures { Puts B.stands_for sink.old sink.new (bin table index value ∷ []) }
{
    sink.bin(Ctx { table, index }, value);
}
