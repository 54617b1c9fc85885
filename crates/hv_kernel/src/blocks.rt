//! Sums of differences over blocks inside planes, a whole block a call.

ghost use Rattle.std.specs.Prelude.{◌≡◌, ◌+◌, ◌*◌, ◌/◌, ◌≤◌};
ghost use Rattle.hv_types.specs.Windows.{HoldsBlock};
ghost use Rattle.hv_kernel.specs.Blocks.{sad_of_lists, sad_of_blocks, ssd_of_lists, ssd_of_blocks};

use crate::lanes::{no_sums, total_of_sums};
use crate::pair::Pair;
use crate::rows::{add_gaps_of_four_rows, add_sad_of_rows, add_ssd_of_rows, sad_of_four_rows};
use hv_types::Window;

/// The sum of absolute differences of two blocks of 8 columns. It takes no memory and always
/// answers.
#[inline(always)]
pub fn sad_block_8(blocks: Pair) -> u32
    requires { blocks.first.columns ≡ 8 }
    ensures { result ≡ sad_of_blocks blocks.entry }
{
    let Pair { first, second } = blocks;
    sad_by_rows::<8>(
        first.samples,
        first.stride,
        second.samples,
        second.stride,
        first.rows,
    )
}

/// The sum of absolute differences of two blocks of 16 columns. It takes no memory and always
/// answers.
#[inline(always)]
pub fn sad_block_16(blocks: Pair) -> u32
    requires { blocks.first.columns ≡ 16 }
    ensures { result ≡ sad_of_blocks blocks.entry }
{
    let Pair { first, second } = blocks;
    sad_by_four_rows(
        first.samples,
        first.stride,
        second.samples,
        second.stride,
        &first.rows,
    )
}

/// The sum of absolute differences of two blocks of 32 columns. It takes no memory and always
/// answers.
#[inline(always)]
pub fn sad_block_32(blocks: Pair) -> u32
    requires { blocks.first.columns ≡ 32 }
    ensures { result ≡ sad_of_blocks blocks.entry }
{
    let Pair { first, second } = blocks;
    sad_by_lanes(
        first.samples,
        first.stride,
        second.samples,
        second.stride,
        first.rows,
    )
}

/// The sum of absolute differences of two blocks of 64 columns. It takes no memory and always
/// answers.
#[inline(always)]
pub fn sad_block_64(blocks: Pair) -> u32
    requires { blocks.first.columns ≡ 64 }
    ensures { result ≡ sad_of_blocks blocks.entry }
{
    let Pair { first, second } = blocks;
    sad_by_rows::<64>(
        first.samples,
        first.stride,
        second.samples,
        second.stride,
        first.rows,
    )
}

/// The sum of squared differences of two blocks of 4 columns. It takes no memory and always
/// answers.
#[inline(always)]
pub fn ssd_block_4(blocks: Pair) -> u32
    requires { blocks.first.columns ≡ 4 }
    ensures { result ≡ ssd_of_blocks blocks.entry }
{
    let Pair { first, second } = blocks;
    ssd_by_rows::<4>(
        first.samples,
        first.stride,
        second.samples,
        second.stride,
        first.rows,
    )
}

/// The sum of squared differences of two blocks of 8 columns. It takes no memory and always
/// answers.
#[inline(always)]
pub fn ssd_block_8(blocks: Pair) -> u32
    requires { blocks.first.columns ≡ 8 }
    ensures { result ≡ ssd_of_blocks blocks.entry }
{
    let Pair { first, second } = blocks;
    ssd_by_rows::<8>(
        first.samples,
        first.stride,
        second.samples,
        second.stride,
        first.rows,
    )
}

/// The sum of squared differences of two blocks of 16 columns. It takes no memory and always
/// answers.
#[inline(always)]
pub fn ssd_block_16(blocks: Pair) -> u32
    requires { blocks.first.columns ≡ 16 }
    ensures { result ≡ ssd_of_blocks blocks.entry }
{
    let Pair { first, second } = blocks;
    ssd_by_rows::<16>(
        first.samples,
        first.stride,
        second.samples,
        second.stride,
        first.rows,
    )
}

/// The sum of squared differences of two blocks of 32 columns. It takes no memory and always
/// answers.
#[inline(always)]
pub fn ssd_block_32(blocks: Pair) -> u32
    requires { blocks.first.columns ≡ 32 }
    ensures { result ≡ ssd_of_blocks blocks.entry }
{
    let Pair { first, second } = blocks;
    ssd_by_rows::<32>(
        first.samples,
        first.stride,
        second.samples,
        second.stride,
        first.rows,
    )
}

/// The sum of squared differences of two blocks of 64 columns. It takes no memory and always
/// answers.
#[inline(always)]
pub fn ssd_block_64(blocks: Pair) -> u32
    requires { blocks.first.columns ≡ 64 }
    ensures { result ≡ ssd_of_blocks blocks.entry }
{
    let Pair { first, second } = blocks;
    ssd_by_rows::<64>(
        first.samples,
        first.stride,
        second.samples,
        second.stride,
        first.rows,
    )
}

/// The sum of absolute differences of two blocks of N columns, each given by its samples and its
/// stride, row by row. Like those below it takes its numbers one by one, which is faster than a
/// struct of them.
#[inline(never)]
#[tactic(auto, using(crate::proofs::RowLemmas::sum_of_no_rows))]
fn sad_by_rows<const N: usize>(
    a: &[u8],
    a_stride: usize,
    b: &[u8],
    b_stride: usize,
    rows: usize,
) -> u32
    requires lanes { N ≤ 64 }
    requires first { HoldsBlock a.now a_stride N rows }
    requires second { HoldsBlock b.now b_stride N rows }
    requires most { rows ≤ 64 }
    ensures { result ≡ sad_of_lists a.now a_stride b.now b_stride N rows }
{
    let blocks = pair_of(a, a_stride, b, b_stride, N, rows);
    add_sad_of_rows::<N>(0, 0, blocks)
}

/// The sum of absolute differences of two blocks of 16 columns, four rows a step. The number of
/// rows comes by reference, since the compiler unrolls the loop where all callers pass one number,
/// and then no longer finds the instruction that sums differences.
#[inline(never)]
#[tactic(auto, using(crate::proofs::RowLemmas::sum_of_no_rows))]
fn sad_by_four_rows(a: &[u8], a_stride: usize, b: &[u8], b_stride: usize, rows: &usize) -> u32
    requires first { HoldsBlock a.now a_stride 16 rows.now }
    requires second { HoldsBlock b.now b_stride 16 rows.now }
    requires most { rows.now ≤ 64 }
    ensures { result ≡ sad_of_lists a.now a_stride b.now b_stride 16 rows.now }
{
    let blocks = pair_of(a, a_stride, b, b_stride, 16, *rows);
    let groups = *rows / 4;
    let mut sum = 0;
    for group in 0..groups {
        sum += sad_of_four_rows(blocks, 4 * group);
    }
    add_sad_of_rows::<16>(sum, 4 * groups, blocks)
}

/// The sum of absolute differences of two blocks of 32 columns. The lanes are added up once, and
/// not after each four rows.
#[inline(never)]
#[tactic(auto, using(crate::proofs::RowLemmas::sum_of_no_rows))]
fn sad_by_lanes(a: &[u8], a_stride: usize, b: &[u8], b_stride: usize, rows: usize) -> u32
    requires first { HoldsBlock a.now a_stride 32 rows }
    requires second { HoldsBlock b.now b_stride 32 rows }
    requires most { rows ≤ 64 }
    ensures { result ≡ sad_of_lists a.now a_stride b.now b_stride 32 rows }
{
    let blocks = pair_of(a, a_stride, b, b_stride, 32, rows);
    let groups = rows / 4;
    let mut sums = no_sums::<32>();
    for group in 0..groups {
        sums = add_gaps_of_four_rows(sums, 4 * group, blocks);
    }
    let sum = total_of_sums(sums);
    add_sad_of_rows::<32>(sum, 4 * groups, blocks)
}

/// The sum of squared differences of two blocks of N columns, row by row.
#[inline(never)]
#[tactic(auto, using(crate::proofs::RowLemmas::sum_of_no_rows))]
fn ssd_by_rows<const N: usize>(
    a: &[u8],
    a_stride: usize,
    b: &[u8],
    b_stride: usize,
    rows: usize,
) -> u32
    requires lanes { N ≤ 64 }
    requires first { HoldsBlock a.now a_stride N rows }
    requires second { HoldsBlock b.now b_stride N rows }
    requires most { rows ≤ 64 }
    ensures { result ≡ ssd_of_lists a.now a_stride b.now b_stride N rows }
{
    let blocks = pair_of(a, a_stride, b, b_stride, N, rows);
    add_ssd_of_rows::<N>(0, 0, blocks)
}

/// Two blocks of `columns` and `rows`, each given by its samples and its stride.
#[inline(always)]
fn pair_of<'a>(
    a: &'a [u8],
    a_stride: usize,
    b: &'a [u8],
    b_stride: usize,
    columns: usize,
    rows: usize,
) -> Pair<'a>
    requires first { HoldsBlock a.now a_stride columns rows }
    requires second { HoldsBlock b.now b_stride columns rows }
    requires most { rows ≤ 64 }
    ensures columns { result.first.columns ≡ columns }
    ensures rows { result.first.rows ≡ rows }
    ensures sad { sad_of_blocks result ≡ sad_of_lists a.now a_stride b.now b_stride columns rows }
    ensures ssd { ssd_of_blocks result ≡ ssd_of_lists a.now a_stride b.now b_stride columns rows }
{
    let first = Window {
        samples: a,
        stride: a_stride,
        columns,
        rows,
    };
    let second = Window {
        samples: b,
        stride: b_stride,
        columns,
        rows,
    };
    Pair { first, second }
}
