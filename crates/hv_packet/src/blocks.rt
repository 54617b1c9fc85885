//! The data of a slice from the blocks of a picture.

ghost use Rattle.std.specs.Prelude.{◌≡◌, ◌+◌, ◌*◌, length, slice_get, take, Some, IfOk};
ghost use Rattle.hv_tables.specs.Bins.{Puts};
ghost use Rattle.hv_stream_model.specs.Bits.{bytes_of};
ghost use Rattle.hv_entropy_model.specs.CodeWord.{word};
ghost use Rattle.hv_tree_model.specs.Sites.{site, sites, blocks_over};
ghost use Rattle.hv_tree_model.specs.Validity.{AreValid};
ghost use Rattle.hv_unit_model.specs.Bins.{bins, slice_bins};
ghost use Rattle.hv_tree_model.specs.EarlierUnits.{in_picture};
ghost use Rattle.hv_tree_model.specs.Plans.{IsPlan, tree_of};
ghost use Rattle.hv_unit_model.specs.PlanLaws.{squares_before};
ghost use Rattle.hv_near.specs.Neighbours.{lists_of_plan};
ghost use Rattle.hv_slice_model.specs.PlannedUnits.{planned_units, NameTheirUnits};
ghost use Rattle.hv_packet.specs.BlockPlans.{plan_of, plans_of, AreWhole};

use crate::slice::Slice;
use hv_block::{Block, Blocks, CtbPlan, neighbours_of};
use hv_cabac::{BinSink, Encoder};
use hv_plan::{Place, SaoParam};
use hv_slice_model::slice_data_ends;
use hv_syntax::put_ctb;
use hv_types::NoMemory;
use hv_unit_model::sites_are_there;
use std::alloc::Global;

/// The slice data (7.3.8.1) of a picture of these blocks, with these sample adaptive offsets, as a
/// code word with zeros to the byte: each block and its offsets may be coded in the slice.
pub fn block_data<B: Blocks>(
    alloc: Global,
    slice: Slice,
    blocks: &B,
    sao: &[SaoParam],
) -> Result<Vec<u8>, NoMemory>
    requires blocks { length (B.blocks blocks.now) ≡
        blocks_over slice.width * blocks_over slice.height }
    requires offsets { length sao.now ≡ blocks_over slice.width * blocks_over slice.height }
    requires names { NameTheirUnits slice.width slice.height (plans_of (B.blocks blocks.now)) }
    requires valid { AreValid slice.kind slice.references (sites slice.width slice.height)
        (planned_units (sites slice.width slice.height) (plans_of (B.blocks blocks.now)) sao.now) }
    ensures { IfOk result (λ bytes. bytes.items ≡ bytes_of (word slice.kind slice.qp
        (slice_bins slice.kind slice.references (sites slice.width slice.height)
        (planned_units (sites slice.width slice.height) (plans_of (B.blocks blocks.now))
        sao.now)))) }
{
    sites_are_there();
    slice_data_ends();
    let mut encoder = Encoder::new(alloc, slice.kind, slice.qp);
    put_blocks(&mut encoder, slice, blocks, sao);
    encoder.finish()
}

/// slice_segment_data (7.3.8.1): the coding tree units of these blocks with these offsets, in
/// raster order. The last one ends the slice.
fn put_blocks<S: BinSink, B: Blocks>(sink: &mut S, slice: Slice, blocks: &B, sao: &[SaoParam])
    requires blocks { length (B.blocks blocks.now) ≡
        blocks_over slice.width * blocks_over slice.height }
    requires offsets { length sao.now ≡ blocks_over slice.width * blocks_over slice.height }
    requires names { NameTheirUnits slice.width slice.height (plans_of (B.blocks blocks.now)) }
    ensures { Puts S.stands_for sink.old sink.new
        (slice_bins slice.kind slice.references (sites slice.width slice.height)
        (planned_units (sites slice.width slice.height) (plans_of (B.blocks blocks.now))
        sao.now)) }
{
    let count = slice.width.div_ceil(64) * slice.height.div_ceil(64);
    for index in 0..count {
        let last = index + 1 == count;
        put_block(
            sink,
            slice,
            index,
            blocks,
            blocks.block(index),
            &sao[index as usize],
            last,
        );
    }
}

/// coding_tree_unit (7.3.8.2) of a block, which has this number, with these offsets, and
/// end_of_slice_segment_flag, which is `last`. The plans of all blocks before are whole, and then
/// this one is too.
fn put_block<S: BinSink, B: Blocks>(
    sink: &mut S,
    slice: Slice,
    index: u32,
    blocks: &B,
    block: &Block,
    sao: &SaoParam,
    last: bool,
)
    requires there { slice_get (B.blocks blocks.now) index ≡ Some block.now }
    requires names { NameTheirUnits slice.width slice.height (plans_of (B.blocks blocks.now)) }
    requires before { AreWhole index (plans_of (B.blocks blocks.now)) }
    ensures bins { Puts S.stands_for sink.old sink.new
        (bins (in_picture slice.kind slice.references (site slice.width slice.height index)
        (squares_before (site slice.width slice.height index)
        (take index (plans_of (B.blocks blocks.now)))))
        (record {
          sao = sao.now;
          tree = tree_of (site slice.width slice.height index) (plan_of block.now);
          end_of_slice_segment_flag = last;
        })) }
    ensures whole { AreWhole (index + 1) (plans_of (B.blocks blocks.now)) }
{
    let place = Place {
        width: slice.width,
        height: slice.height,
        index,
    };
    let near = neighbours_of(place, blocks);
    is_whole(&block.plan);
    put_ctb(
        sink,
        slice.kind,
        slice.references,
        place,
        &near,
        &block.plan,
        sao,
        last,
    );
}

/// A plan has the lists of a block.
fn is_whole(plan: &CtbPlan)
    ensures { IsPlan (lists_of_plan plan.now) }
{
    plan.units();
    plan.luma();
    plan.cb();
    plan.cr();
}
