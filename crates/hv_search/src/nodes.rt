//! Full search of a block of 64x64.
ghost use Rattle.std.specs.Prelude.{◌≡◌, ◌+◌, ◌*◌, ◌/◌, ◌%◌, ◌<◌, ◌≤◌, ◌++◌, ℕ, length, take, drop, slice_index, min};
ghost use Rattle.hv_search.specs.Nodes.{weave, IsWovenWindow, IsWovenBlock, woven_sad, there_of, column_at, row_at, sum_16, sum_32, sum_64, Holds, ShowsBest, number_at};

use crate::lanes::{join_16, join_32, load, sad_of_lanes};
use std::simd::Simd;
use std::simd::prelude::*;

#[rattlefmt::skip]
const IN_TURN: [usize; 32] = [
    0, 16, 1, 17, 2, 18, 3, 19, 4, 20, 5, 21, 6, 22, 7, 23,
    8, 24, 9, 25, 10, 26, 11, 27, 12, 28, 13, 29, 14, 30, 15, 31,
];

/// Both vectors, lane by lane in turn.
#[inline(always)]
fn woven_16(a: u8x16, b: u8x16) -> u8x32
    ensures { result ≡ weave a b }
{
    a.shuffle(b, IN_TURN)
}

/// Both vectors, lane by lane in turn.
#[inline(always)]
fn woven_8(a: u8x8, b: u8x8) -> u8x16
    ensures { result ≡ weave a b }
{
    a.shuffle(b, [0, 8, 1, 9, 2, 10, 3, 11, 4, 12, 5, 13, 6, 14, 7, 15])
}

/// The column of block `place`.
#[inline(always)]
pub(crate) fn column_of(place: usize) -> usize
    requires { place < 64 }
    ensures value { result ≡ column_at place }
    ensures small { result < 8 }
{
    place / 16 % 2 + 2 * (place / 4 % 2) + 4 * (place % 2)
}

/// The row of block `place`.
#[inline(always)]
pub(crate) fn row_of(place: usize) -> usize
    requires { place < 64 }
    ensures value { result ≡ row_at place }
    ensures small { result < 8 }
{
    place / 32 % 2 + 2 * (place / 8 % 2) + 4 * (place / 2 % 2)
}

/// Four runs of 16 samples, `step` samples apart.
#[inline(always)]
pub(crate) fn four_runs(samples: &[u8], at: usize, step: usize) -> u8x64
    requires few { step ≤ 320 }
    requires inside { at + 3 * step + 16 ≤ length samples.now }
    ensures { result ≡
        (take 16 (drop at samples.now) ++ take 16 (drop (at + step) samples.now)) ++
        (take 16 (drop (at + 2 * step) samples.now) ++ take 16 (drop (at + 3 * step) samples.now)) }
{
    let upper = join_16(load(samples, at), load(samples, at + step));
    let lower = join_16(load(samples, at + 2 * step), load(samples, at + 3 * step));
    join_32(upper, lower)
}

/// The sum of absolute differences of two woven squares.
#[inline(always)]
fn sad_of_squares(
    block: u8x64,
    packed: &[u8; 4096],
    at: usize,
    window: &[u8; 12800],
    there: usize,
) -> u32
    requires first { at + 64 ≤ 4096 }
    requires second { there + 976 ≤ 12800 }
    requires block { block ≡
        (take 16 (drop at packed.now) ++ take 16 (drop (at + 16) packed.now)) ++
        (take 16 (drop (at + 32) packed.now) ++ take 16 (drop (at + 48) packed.now)) }
    ensures value { result ≡ woven_sad packed.now at window.now there }
    ensures small { result ≤ 255 * 64 }
{
    sad_of_lanes(block, four_runs(window, there, 320))
}

/// The 64 sums of 8x8 for the 17 displacements of a row.
#[inline(never)]
pub(crate) fn sums_of_row(
    packed: &[u8; 4096],
    window: &[u8; 12800],
    dy: usize,
    sums: &mut [u32; 1088],
)
    requires { dy < 17 }
    ensures value { (p : ℕ) → (dx : ℕ) → p < 64 → dx < 17 →
        slice_index sums.new (64 * dx + p) ≡
        woven_sad packed.now (64 * p) window.now (there_of p dx dy) }
    ensures small { (p : ℕ) → (dx : ℕ) → p < 64 → dx < 17 →
        slice_index sums.new (64 * dx + p) ≤ 16320 }
{
    for place in 0..64usize {
        let block = four_runs(packed, 64 * place, 16);
        let first = 160 * (8 * row_of(place) + dy) + 16 * column_of(place);
        for dx in 0..17usize {
            sums[64 * dx + place] = sad_of_squares(
                block,
                packed,
                64 * place,
                window,
                first + 2 * dx,
            );
        }
    }
}

/// Lane by lane, the sum of four vectors.
#[inline(always)]
fn sum_of_four<const N: usize>(
    a: Simd<u32, N>,
    b: Simd<u32, N>,
    c: Simd<u32, N>,
    d: Simd<u32, N>,
) -> Simd<u32, N>
    requires first { (j : ℕ) → j < N → slice_index a j ≤ 300000 }
    requires second { (j : ℕ) → j < N → slice_index b j ≤ 300000 }
    requires third { (j : ℕ) → j < N → slice_index c j ≤ 300000 }
    requires fourth { (j : ℕ) → j < N → slice_index d j ≤ 300000 }
    ensures { (j : ℕ) → j < N → slice_index result j ≡
        (slice_index a.entry j + slice_index b.entry j) +
        (slice_index c.entry j + slice_index d.entry j) }
{
    (a + b) + (c + d)
}

/// Lane by lane, the lesser of the key before and the key of the sum.
#[inline(always)]
fn least_keys<const N: usize>(
    before: Simd<u32, N>,
    sums: Simd<u32, N>,
    candidate: u32,
) -> Simd<u32, N>
    requires candidate { candidate < 512 }
    requires small { (j : ℕ) → j < N → slice_index sums j ≤ 1044480 }
    ensures { (j : ℕ) → j < N → slice_index result j ≡
        min (slice_index before.entry j) (slice_index sums.entry j * 512 + candidate) }
{
    before.simd_min(sums * Simd::<u32, N>::splat(512) + Simd::<u32, N>::splat(candidate))
}

/// Puts a vector into the samples.
#[inline(always)]
fn store<const N: usize>(samples: &mut [u8], at: usize, lanes: Simd<u8, N>)
    requires { at + N ≤ length samples.old }
    ensures placed { take N (drop at samples.new) ≡ lanes.entry }
    ensures before { (i : ℕ) → (n : ℕ) → i + n ≤ at →
        take n (drop i samples.new) ≡ take n (drop i samples.old) }
    ensures joined { (i : ℕ) → (n : ℕ) → i + n ≡ at →
        take (n + N) (drop i samples.new) ≡ take n (drop i samples.old) ++ lanes.entry }
{
    lanes.copy_to_slice(&mut samples[at..at + N]);
}

/// The window in pairs of rows: the samples of rows y and y + 1 in turn.
#[inline(never)]
pub(crate) fn pack_window(reference: &[u8], stride: usize, window: &mut [u8; 12800])
    requires inside { (y : ℕ) → y < 80 → y * stride + 80 ≤ length reference.now }
    ensures { IsWovenWindow reference.now stride window.new }
{
    for y in 0..79usize {
        for c in 0..5usize {
            let row = woven_16(
                load(reference, y * stride + 16 * c),
                load(reference, (y + 1) * stride + 16 * c),
            );
            let at = 160 * y + 32 * c;
            store::<32>(window, at, row);
        }
    }
}

/// The block by squares of 8x8, each in pairs of rows.
#[inline(never)]
pub(crate) fn pack_source(source: &[u8], stride: usize, packed: &mut [u8; 4096])
    requires inside { (y : ℕ) → y < 64 → y * stride + 64 ≤ length source.now }
    ensures { IsWovenBlock source.now stride packed.new }
{
    for place in 0..64usize {
        let column = 8 * column_of(place);
        let row = 8 * row_of(place);
        for pair in 0..4usize {
            let y = row + 2 * pair;
            let rows = woven_8(
                load(source, y * stride + column),
                load(source, (y + 1) * stride + column),
            );
            let at = 64 * place + 16 * pair;
            store::<16>(packed, at, rows);
        }
    }
}

/// The least keys of the nodes.
#[derive(Drop)]
pub(crate) struct Keys {
    pub(crate) eights: u32x64,
    pub(crate) sixteens: u32x16,
    pub(crate) thirty_twos: u32x4,
    pub(crate) whole: u32,
}

/// Keeps the lesser key of each node.
#[inline(always)]
pub(crate) fn keep_least(sums: &[u32; 1088], at: usize, candidate: u32, keys: &mut Keys)
    requires inside { at + 64 ≤ 1088 }
    requires candidate { candidate < 512 }
    requires small { (p : ℕ) → p < 64 → slice_index sums.now (at + p) ≤ 16320 }
    ensures eights { (p : ℕ) → p < 64 → slice_index keys.new.eights p ≡
        min (slice_index keys.old.eights p) (slice_index sums.now (at + p) * 512 + candidate) }
    ensures sixteens { (j : ℕ) → j < 16 → slice_index keys.new.sixteens j ≡
        min (slice_index keys.old.sixteens j) (sum_16 sums.now at j * 512 + candidate) }
    ensures thirty_twos { (k : ℕ) → k < 4 → slice_index keys.new.thirty_twos k ≡
        min (slice_index keys.old.thirty_twos k) (sum_32 sums.now at k * 512 + candidate) }
    ensures whole { keys.new.whole ≡ min keys.old.whole (sum_64 sums.now at * 512 + candidate) }
{
    let eights = loaded_64(sums, at);
    let sixteens = sixteens_of(eights);
    let thirty_twos = thirty_twos_of(sixteens);
    let whole = whole_of(thirty_twos);
    keys.eights = least_keys(keys.eights, eights, candidate);
    keys.sixteens = least_keys(keys.sixteens, sixteens, candidate);
    keys.thirty_twos = least_keys(keys.thirty_twos, thirty_twos, candidate);
    keys.whole = keys.whole.min(whole * 512 + candidate);
}

/// 64 sums from place `at` on.
#[inline(always)]
fn loaded_64(sums: &[u32; 1088], at: usize) -> u32x64
    requires { at + 64 ≤ 1088 }
    ensures { (j : ℕ) → j < 64 → slice_index result j ≡ slice_index sums.now (at + j) }
{
    u32x64::from_slice(&sums[at..])
}

/// The sums of nodes of 16x16 from those of 8x8.
#[inline(always)]
fn sixteens_of(eights: u32x64) -> u32x16
    requires { (j : ℕ) → j < 64 → slice_index eights j ≤ 16320 }
    ensures value { (j : ℕ) → j < 16 → slice_index result j ≡
        (slice_index eights j + slice_index eights (16 + j)) +
        (slice_index eights (32 + j) + slice_index eights (48 + j)) }
    ensures small { (j : ℕ) → j < 16 → slice_index result j ≤ 65280 }
{
    sum_of_four(
        eights.extract::<0, 16>(),
        eights.extract::<16, 16>(),
        eights.extract::<32, 16>(),
        eights.extract::<48, 16>(),
    )
}

/// The sums of nodes of 32x32 from those of 16x16.
#[inline(always)]
fn thirty_twos_of(sixteens: u32x16) -> u32x4
    requires { (j : ℕ) → j < 16 → slice_index sixteens j ≤ 65280 }
    ensures value { (k : ℕ) → k < 4 → slice_index result k ≡
        (slice_index sixteens k + slice_index sixteens (4 + k)) +
        (slice_index sixteens (8 + k) + slice_index sixteens (12 + k)) }
    ensures small { (k : ℕ) → k < 4 → slice_index result k ≤ 261120 }
{
    sum_of_four(
        sixteens.extract::<0, 4>(),
        sixteens.extract::<4, 4>(),
        sixteens.extract::<8, 4>(),
        sixteens.extract::<12, 4>(),
    )
}

/// The sum of the block from those of 32x32.
#[inline(always)]
fn whole_of(sums: u32x4) -> u32
    requires { (j : ℕ) → j < 4 → slice_index sums j ≤ 261120 }
    ensures value { result ≡ ((slice_index sums 0 + slice_index sums 1) + slice_index sums 2) +
        slice_index sums 3 }
    ensures small { result ≤ 1044480 }
{
    ((sums[0] + sums[1]) + sums[2]) + sums[3]
}

/// The number of the candidate at a place: the middle one has come first.
#[inline(always)]
fn number_of(place: usize) -> u32
    requires { place < 289 }
    ensures value { result ≡ number_at place }
    ensures small { result < 512 }
{
    if place == 144 { 0 } else { place as u32 + 1 }
}

/// The keys before any sum: greater than that of each.
#[inline(always)]
pub(crate) fn fresh_keys() -> Keys
    ensures eights { (p : ℕ) → p < 64 → slice_index result.eights p ≡ 4294967295 }
    ensures sixteens { (p : ℕ) → p < 16 → slice_index result.sixteens p ≡ 4294967295 }
    ensures thirty_twos { (p : ℕ) → p < 4 → slice_index result.thirty_twos p ≡ 4294967295 }
    ensures whole { result.whole ≡ 4294967295 }
{
    Keys {
        eights: u32x64::splat(4294967295),
        sixteens: u32x16::splat(4294967295),
        thirty_twos: u32x4::splat(4294967295),
        whole: 4294967295,
    }
}

/// For each node of the block, the first of the 290 candidates with the least sum.
#[inline(never)]
pub(crate) fn search_nodes(
    source: &[u8],
    reference: &[u8],
    stride: usize,
    window: &mut [u8; 12800],
    packed: &mut [u8; 4096],
    sums: &mut [u32; 1088],
    keys: &mut Keys,
)
    requires first { Holds source.now stride 64 }
    requires second { Holds reference.now stride 80 }
    ensures eights { (p : ℕ) → p < 64 →
        ShowsBest source.now reference.now stride p 8 (slice_index keys.new.eights p) }
    ensures sixteens { (p : ℕ) → p < 16 →
        ShowsBest source.now reference.now stride p 16 (slice_index keys.new.sixteens p) }
    ensures thirty_twos { (p : ℕ) → p < 4 →
        ShowsBest source.now reference.now stride p 32 (slice_index keys.new.thirty_twos p) }
    ensures whole { ShowsBest source.now reference.now stride 0 64 keys.new.whole }
{
    pack_window(reference, stride, window);
    pack_source(source, stride, packed);
    *keys = fresh_keys();
    for dy in 0..17usize {
        sums_of_row(packed, window, dy, sums);
        for dx in 0..17usize {
            keep_least(sums, 64 * dx, number_of(17 * dy + dx), keys);
        }
    }
}

/// How many nodes a block of 64x64 has: 64 of 8x8, 16 of 16x16, 4 of 32x32 and itself.
pub(crate) const NODES: usize = 85;

/// Puts a vector into a list.
#[inline(always)]
fn put_keys<const N: usize>(list: &mut [u32], at: usize, lanes: Simd<u32, N>)
    requires { at + N ≤ length list.old }
    ensures count { length list.new ≡ length list.old }
    ensures placed { (j : ℕ) → j < N →
        slice_index list.new (at + j) ≡ slice_index lanes.entry j }
    ensures before { (i : ℕ) → i < at → slice_index list.new i ≡ slice_index list.old i }
{
    lanes.copy_to_slice(&mut list[at..at + N]);
}

/// The keys of all nodes, those of 8x8 first and that of 64x64 last.
#[inline(always)]
pub(crate) fn key_list(keys: &Keys) -> [u32; NODES]
    ensures eights { (p : ℕ) → p < 64 →
        slice_index result p ≡ slice_index keys.now.eights p }
    ensures sixteens { (p : ℕ) → p < 16 →
        slice_index result (64 + p) ≡ slice_index keys.now.sixteens p }
    ensures thirty_twos { (p : ℕ) → p < 4 →
        slice_index result (80 + p) ≡ slice_index keys.now.thirty_twos p }
    ensures whole { slice_index result 84 ≡ keys.now.whole }
{
    let mut list = [keys.whole; NODES];
    put_keys::<64>(&mut list, 0, keys.eights);
    put_keys::<16>(&mut list, 64, keys.sixteens);
    put_keys::<4>(&mut list, 80, keys.thirty_twos);
    list[84] = keys.whole;
    list
}
