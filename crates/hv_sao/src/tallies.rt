//! The counts and sums of a block's samples.

ghost use Rattle.std.specs.Prelude.{◌≡◌, ◌+◌, ◌*◌, ◌<◌, ◌≤◌, length, slice_set};
ghost use Rattle.std.specs.List.{sum_by};
ghost use Rattle.std.specs.Int.{abs_diff};
ghost use Rattle.hv_filter_model.specs.Blocks.{row_locations, locations};
ghost use Rattle.hv_filter_model.specs.OffsetDecision.{difference};
ghost use Rattle.hv_sao.specs.Tallies.{Adds, AreAtMost, counted, tally_at};
ghost use Rattle.hv_sao.specs.Decisions.{block_of, value_key, edge_key, edge_key_at, input_error, Counts, AreEdgeKeys};

use crate::block::Block;
use crate::edges::{EdgeRow, edge_row, part_of_row};
use crate::samples::{VECTOR, edge_category};
use crate::tally::Tally;

/// Counts the samples of row `y` of a block by their values.
fn add_row_of_values(block: Block<'_>, y: u32, tallies: &mut [Tally])
    requires down { y < block.area.rows }
    requires room { length tallies.old ≡ 256 }
    requires few { AreAtMost 256 (64 * y) tallies.old }
    ensures added { let b = block_of block.entry.deblocked.now block.entry.input.now
        block.entry.area in
        Adds 256 (value_key b) (difference b) (row_locations b.area y b.area.columns)
        tallies.old tallies.new }
    ensures few { AreAtMost 256 (64 * (y + 1)) tallies.new }
{
    let area = block.area;
    let samples = part_of_row(block.deblocked, area.top + y, area.left, area.columns);
    let inputs = part_of_row(block.input, area.top + y, area.left, area.columns);
    for x in 0..samples.len() {
        let key = usize::from(samples[x]);
        tallies[key] = tallies[key].with(inputs[x], samples[x]);
    }
}

/// Counts the samples of a block by their values.
pub(crate) fn tally_values(block: Block<'_>) -> [Tally; 256]
    ensures counts { let b = block_of block.entry.deblocked.now block.entry.input.now
        block.entry.area in Counts 256 (value_key b) b result }
    ensures few { AreAtMost 256 4096 result }
{
    let mut tallies = [Tally::NONE; 256];
    for y in 0..block.area.rows {
        add_row_of_values(block, y, &mut tallies);
    }
    tallies
}

/// The key of a sample by which edges are counted: 8 keys a category, and 32 for none.
#[inline(always)]
fn edge_key(category: u8, sample: u8) -> u8
    requires { category ≤ 4 }
    ensures value { result ≡ edge_key category sample }
    ensures most { result ≤ 32 }
{
    if category == 0 {
        32
    } else if category < 3 {
        8 * (category - 1) + (sample.max(248) - 248)
    } else {
        8 * (category - 1) + sample.min(7)
    }
}

/// The keys of the samples of a row from place `from` on, before place `to`, beside their two
/// neighbours. The keys before are there.
#[inline(always)]
fn put_edge_keys(row: EdgeRow<'_>, from: usize, to: usize, keys: &mut [u8])
    requires firsts { length row.first.now ≡ length row.samples.now }
    requires seconds { length row.second.now ≡ length row.samples.now }
    requires order { from ≤ to }
    requires end { to ≤ length row.samples.now }
    requires room { to ≤ length keys.old }
    requires before { AreEdgeKeys from row.samples.now row.first.now row.second.now keys.old }
    ensures { AreEdgeKeys to row.entry.samples.now row.entry.first.now row.entry.second.now
        keys.new }
{
    for i in from..to {
        let sample = row.samples[i];
        let category = edge_category(sample, row.first[i], row.second[i]);
        keys[i] = edge_key(category, sample);
    }
}

/// The keys of the samples of a row, beside their two neighbours. So many samples are done at once
/// as a vector has; of a row that isn't a multiple of these, the last ones are done again.
fn put_row_of_keys(row: EdgeRow<'_>, keys: &mut [u8])
    requires firsts { length row.first.now ≡ length row.samples.now }
    requires seconds { length row.second.now ≡ length row.samples.now }
    requires room { length row.samples.now ≤ length keys.old }
    ensures { AreEdgeKeys (length row.entry.samples.now)
        row.entry.samples.now row.entry.first.now row.entry.second.now keys.new }
{
    let count = row.samples.len();
    let whole = count / VECTOR * VECTOR;
    put_edge_keys(row, 0, whole, keys);
    if whole < count {
        put_edge_keys(row, count.saturating_sub(VECTOR), count, keys);
    }
}

/// Counts a sample by its key.
#[inline(always)]
fn add_edge(tallies: &mut [Tally], key: u8, input: u8, sample: u8)
    requires room { length tallies.old ≡ 33 }
    requires key { key ≤ 32 }
    requires few { AreAtMost 33 8192 tallies.old }
    ensures { tallies.new ≡
        slice_set tallies.old key (counted (tally_at tallies.old key) input sample) }
{
    let key = usize::from(key);
    tallies[key] = tallies[key].with(input, sample);
}

/// Counts the samples of row `y` of a block by their edges of a class. What the last tally counts
/// has no edge.
fn add_row_of_edges(block: Block<'_>, class: u8, y: u32, tallies: &mut [Tally])
    requires class { class < 4 }
    requires down { y < block.area.rows }
    requires room { length tallies.old ≡ 33 }
    requires few { AreAtMost 33 (64 * y) tallies.old }
    ensures added { let b = block_of block.entry.deblocked.now block.entry.input.now
        block.entry.area in
        Adds 32 (edge_key_at class b) (difference b) (row_locations b.area y b.area.columns)
        tallies.old tallies.new }
    ensures few { AreAtMost 33 (64 * (y + 1)) tallies.new }
{
    let area = block.area;
    let end = area.left + area.columns;
    let row = edge_row(block.deblocked, class, area.top + y, area.left, end);
    let count = row.samples.len() as u32;
    let inputs = part_of_row(block.input, area.top + y, row.start, count);
    let mut keys = [0u8; 64];
    put_row_of_keys(row, &mut keys);
    for i in 0..row.samples.len() {
        add_edge(tallies, keys[i], inputs[i], row.samples[i]);
    }
}

/// Counts the samples of a block by their edges of a class.
pub(crate) fn tally_edges(block: Block<'_>, class: u8) -> [Tally; 33]
    requires { class < 4 }
    ensures counts { let b = block_of block.entry.deblocked.now block.entry.input.now
        block.entry.area in Counts 32 (edge_key_at class b) b result }
    ensures few { AreAtMost 33 4096 result }
{
    let mut tallies = [Tally::NONE; 33];
    for y in 0..block.area.rows {
        add_row_of_edges(block, class, y, &mut tallies);
    }
    tallies
}

/// The square of the difference of two samples.
#[inline(always)]
fn squared_difference(a: u8, b: u8) -> u32
    ensures value { result ≡ abs_diff a b * abs_diff a b }
    ensures most { result ≤ 65025 }
{
    let difference = u32::from(a.abs_diff(b));
    difference * difference
}

/// The sum of the squared differences of a row of a block.
fn row_differences(block: Block<'_>, y: u32) -> u32
    requires { y < block.area.rows }
    ensures value { let b = block_of block.entry.deblocked.now block.entry.input.now
        block.entry.area in
        result ≡ sum_by (input_error b) (row_locations b.area y b.area.columns) }
    ensures most { result ≤ 65025 * 64 }
{
    let area = block.area;
    let samples = part_of_row(block.deblocked, area.top + y, area.left, area.columns);
    let inputs = part_of_row(block.input, area.top + y, area.left, area.columns);
    let mut sum = 0u32;
    for x in 0..samples.len() {
        sum += squared_difference(inputs[x], samples[x]);
    }
    sum
}

/// The sum of the squared differences of the input and what is deblocked.
pub(crate) fn squared_differences(block: Block<'_>) -> u32
    ensures value { let b = block_of block.entry.deblocked.now block.entry.input.now
        block.entry.area in result ≡ sum_by (input_error b) (locations b.area) }
    ensures most { result ≤ 65025 * 4096 }
{
    let mut sum = 0u32;
    for y in 0..block.area.rows {
        sum += row_differences(block, y);
    }
    sum
}
