//! last_sig_coeff_x_prefix, last_sig_coeff_y_prefix, last_sig_coeff_x_suffix and
//! last_sig_coeff_y_suffix (7.3.8.11, 9.3.4.2.3).

ghost use Rattle.std.specs.Prelude.{◌≡◌, ◌+◌, ◌-◌, ◌*◌, ◌^◌, ◌<◌, ◌≤◌};
ghost use Rattle.hv_residual_model.specs.UnitBins.{PutsUnit, ByContext};
ghost use Rattle.hv_residual_model.specs.Binarization.{truncated_unary_bins};
ghost use Rattle.hv_residual_model.specs.ScanOrder.{block_position};
ghost use Rattle.hv_residual_model.specs.ResidualContexts.{ctxOffset, ctxShift, last_prefix_at};
ghost use Rattle.hv_residual_model.specs.ResidualSyntax.{suffix_length, first_of_prefix, swapped_in};
ghost use Rattle.hv_residual_model.specs.ResidualBins.{prefix_of, last_suffix_bins, last_bins};
ghost use Rattle.hv_residual.specs.Blocks.{block_of, corner_of};
ghost use Rattle.hv_lemmas.specs.Lists.{tabulate};

use crate::binarization::{power, put_fixed_length};
use crate::block::{Block, Corner};
use crate::gathering::Last;
use crate::scans::{place_in, sub_block};
use hv_plan::Scan;
use hv_tables::{BinSink, Ctx, CtxTable};

/// The prefix of each coordinate (7.4.9.11).
#[rattlefmt::skip]
static PREFIXES: [u8; 32] = [
    0, 1, 2, 3, 4, 4, 5, 5, 6, 6, 6, 6, 7, 7, 7, 7,
    8, 8, 8, 8, 8, 8, 8, 8, 9, 9, 9, 9, 9, 9, 9, 9,
];

/// The prefixes of all coordinates.
#[inline(always)]
fn prefixes() -> &'static [u8; 32]
    ensures { result.now ≡ tabulate 32 prefix_of }
{
    &PREFIXES
}

/// The prefix of a coordinate of a block.
#[inline(always)]
pub fn prefix_of(block: Block, coordinate: u8) -> u8
    requires { coordinate < 2 ^ block.log2 }
    ensures value { result ≡ prefix_of coordinate }
    ensures most { result ≤ 2 * block.log2 - 1 }
{
    prefixes()[usize::from(coordinate)]
}

/// How many bins the suffix behind a prefix has.
#[inline(always)]
pub fn suffix_length(prefix: u8) -> u8
    requires { prefix ≤ 9 }
    ensures value { result ≡ suffix_length prefix }
    ensures most { result ≤ 3 }
{
    (prefix / 2).saturating_sub(1)
}

/// The first coordinate of a prefix (7.4.9.11).
#[inline(always)]
fn first_of_prefix(prefix: u8) -> u32
    requires { prefix ≤ 9 }
    ensures { result ≡ first_of_prefix prefix }
{
    if prefix > 3 {
        power(suffix_length(prefix)) * u32::from(2 + prefix % 2)
    } else {
        u32::from(prefix)
    }
}

/// ctxOffset (9.3.4.2.3).
#[inline(always)]
fn ctx_offset(block: Block) -> u8
    ensures value { result ≡ ctxOffset (block_of block) }
    ensures most { result ≤ 15 }
{
    if block.luma {
        3 * (block.log2 - 2) + (block.log2 - 1) / 4
    } else {
        15
    }
}

/// ctxShift (9.3.4.2.3).
#[inline(always)]
fn ctx_shift(block: Block) -> u8
    ensures value { result ≡ ctxShift (block_of block) }
    ensures most { result ≤ 3 }
{
    if block.luma {
        (block.log2 + 1) / 4
    } else {
        block.log2 - 2
    }
}

/// The context of a bin of a prefix (9.3.4.2.3).
#[inline(always)]
fn last_context(table: CtxTable, block: Block, bin: u8) -> Ctx
    requires { bin ≤ 9 }
    ensures { ByContext result ≡ last_prefix_at table (block_of block) bin }
{
    Ctx {
        table,
        index: (bin >> ctx_shift(block)) + ctx_offset(block),
    }
}

/// Puts a prefix.
#[inline(always)]
fn put_prefix<B: BinSink>(sink: &mut B, table: CtxTable, block: Block, prefix: u8)
    requires { prefix ≤ 2 * block.log2 - 1 }
    ensures { PutsUnit B.stands_for sink.old sink.new (truncated_unary_bins
        (last_prefix_at table (block_of block)) (2 * block.log2 - 1) 0 prefix) }
{
    for bin in 0..prefix {
        sink.bin(last_context(table, block, bin), true);
    }
    if prefix < 2 * block.log2 - 1 {
        sink.bin(last_context(table, block, prefix), false);
    }
}

/// Puts the suffix of a coordinate.
#[inline(always)]
fn put_suffix<B: BinSink>(sink: &mut B, block: Block, coordinate: u8)
    requires { coordinate < 2 ^ block.log2 }
    ensures { PutsUnit B.stands_for sink.old sink.new (last_suffix_bins coordinate) }
{
    let prefix = prefix_of(block, coordinate);
    let above = u32::from(coordinate).saturating_sub(first_of_prefix(prefix));
    put_fixed_length(sink, suffix_length(prefix), above);
}

/// The coordinates of the last significant position, as they are coded: exchanged in the vertical
/// scan.
#[inline(always)]
pub fn coded_position(block: Block, last: Last) -> Corner
    requires { last.sub_block < 2 ^ (block.log2 - 2) * 2 ^ (block.log2 - 2) }
    ensures value { corner_of result ≡ swapped_in block.scan
        (block_position block.scan block.log2 (16 * last.sub_block + last.position)) }
    ensures column { result.x < 2 ^ block.log2 }
    ensures row { result.y < 2 ^ block.log2 }
{
    let corner = sub_block(block, last.sub_block);
    let place = place_in(block.scan, 2, last.position);
    let x = 4 * corner.x + place.x;
    let y = 4 * corner.y + place.y;
    match block.scan {
        Scan::Diagonal => Corner { x, y },
        Scan::Horizontal => Corner { x, y },
        Scan::Vertical => Corner { x: y, y: x },
    }
}

/// Puts the last significant position.
#[inline(always)]
pub fn put_last<B: BinSink>(sink: &mut B, block: Block, last: Last)
    requires { last.sub_block < 2 ^ (block.log2 - 2) * 2 ^ (block.log2 - 2) }
    ensures { PutsUnit B.stands_for sink.old sink.new
        (last_bins (block_of block) (16 * last.sub_block + last.position)) }
{
    let position = coded_position(block, last);
    put_prefix(sink, CtxTable::LastX, block, prefix_of(block, position.x));
    put_prefix(sink, CtxTable::LastY, block, prefix_of(block, position.y));
    put_suffix(sink, block, position.x);
    put_suffix(sink, block, position.y);
}
