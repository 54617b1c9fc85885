//! The vectors of all nodes of a picture.
ghost use Rattle.std.specs.Prelude.{◌≡◌, ◌+◌, ◌*◌, ◌/◌, ◌%◌, ◌<◌, ◌≤◌, length, IfOk, OnOk, vec_len, ◌^◌};
ghost use Rattle.hv_filter_model.specs.Blocks.{luma_side, blocks_over};
ghost use Rattle.hv_search.specs.Vectors.{HasBlock, IsAppended, AreVectors};

use crate::block::put_block;
use crate::coarse::coarse_vector;
use crate::nodes::NODES;
use crate::source::Source;
use crate::window::quarter_of;
use hv_plan::Mv;
use hv_types::NoMemory;
use std::alloc::Global;

const NO_VECTOR: Mv = Mv { x: 0, y: 0 };

/// The vectors of the nodes of the block in column `column` and row `row` of blocks.
fn block_vectors(
    effort: u8,
    input: Source,
    reference: Source,
    column: u32,
    row: u32,
    samples: &mut [u8],
) -> [Mv; NODES]
    requires across { 64 * column < input.luma.now.width }
    requires down { 64 * row < input.luma.now.height }
    requires samples { 2 ≤ effort → length samples.old ≡ 124416 }
    ensures samples { length samples.new ≡ length samples.old }
    ensures has { HasBlock effort input.entry.luma.now reference.entry.luma.now column row result }
{
    let (x, y) = (64 * column, 64 * row);
    let coarse = coarse_vector(quarter_of(input), quarter_of(reference), x / 4, y / 4);
    let mut vectors = [NO_VECTOR; NODES];
    put_block(
        effort,
        input.luma,
        reference.luma,
        coarse,
        x,
        y,
        samples,
        &mut vectors,
    );
    vectors
}

/// Appends the vectors of a block.
fn append_block(
    vectors: &mut Vec<Mv>,
    effort: u8,
    input: Source,
    reference: Source,
    column: u32,
    row: u32,
    samples: &mut [u8],
) -> Result<(), NoMemory>
    requires across { 64 * column < input.luma.now.width }
    requires down { 64 * row < input.luma.now.height }
    requires samples { 2 ≤ effort → length samples.old ≡ 124416 }
    requires room { vec_len vectors.old < 2 ^ 32 }
    ensures samples { length samples.new ≡ length samples.old }
    ensures ok { OnOk result (IsAppended effort input.entry.luma.now reference.entry.luma.now
        column row vectors.old.items vectors.new.items) }
{
    let found = block_vectors(effort, input, reference, column, row, samples);
    vectors.extend_from_slice(&found)?;
    Ok(())
}

/// The vectors of the nodes of all blocks, block by block, in quarters of a sample. Those of nodes
/// that cross an edge are any. From effort 2 on there is room for the samples of a field. The only
/// error is want of memory.
pub(crate) fn vectors_of(
    alloc: Global,
    effort: u8,
    input: Source,
    reference: Source,
    samples: &mut [u8],
) -> Result<Vec<Mv>, NoMemory>
    requires samples { 2 ≤ effort → length samples.old ≡ 124416 }
    ensures samples { length samples.new ≡ length samples.old }
    ensures are { IfOk result (λ vectors. AreVectors effort input.entry.luma.now
        reference.entry.luma.now (blocks_over luma_side input.entry.luma.now.width *
        blocks_over luma_side input.entry.luma.now.height) vectors.items) }
{
    let columns = input.luma.width().div_ceil(64);
    let rows = input.luma.height().div_ceil(64);
    let mut vectors = Vec::new(alloc);
    for index in 0..columns * rows {
        append_block(
            &mut vectors,
            effort,
            input,
            reference,
            index % columns,
            index / columns,
            samples,
        )?;
    }
    Ok(vectors)
}
