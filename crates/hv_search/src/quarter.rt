//! Pictures of quarter size.
ghost use Rattle.std.specs.Prelude.{◌≡◌, ◌+◌, ◌*◌, ◌/◌, ◌%◌, ◌<◌, ◌≤◌, IfOk, length, take, drop};
ghost use Rattle.hv_types.specs.Samples.{plane_by_rows};
ghost use Rattle.hv_interp.specs.Filters.{HasFirst};
ghost use Rattle.hv_search_model.specs.MotionSearch.{mean_of_square, quarter_size};
ghost use Rattle.hv_search.specs.Windows.{plane_of_grid};

use crate::grid::Grid;
use hv_kernel::decimate;
use hv_types::NoMemory;
use std::alloc::Global;

/// Four rows from row `4 * y` on.
#[inline(always)]
#[tactic(auto, using(crate::proofs::QuarterLemmas::four_rows_inside))]
fn four_rows<'a>(luma: Grid<'a>, y: usize) -> &'a [u8]
    requires { 4 * y + 4 ≤ luma.height }
    ensures value { result.now ≡
        take (4 * luma.entry.width) (drop (4 * y * luma.entry.width) luma.entry.samples.now) }
    ensures count { length result.now ≡ 4 * luma.entry.width }
{
    let width = luma.width as usize;
    &luma.samples[4 * y * width..4 * y * width + 4 * width]
}

/// Fills the picture of quarter size, by rows.
fn put_quarters(luma: Grid, out: &mut [u8])
    requires wide { luma.width % 4 ≡ 0 }
    requires high { luma.height % 4 ≡ 0 }
    requires room { length out.old ≡ luma.width / 4 * (luma.height / 4) }
    ensures count { length out.new ≡ length out.old }
    ensures each { HasFirst 0 (luma.entry.width / 4 * (luma.entry.height / 4))
        (λ k. mean_of_square (plane_of_grid luma.entry) (k % (luma.entry.width / 4))
        (k / (luma.entry.width / 4))) out.new }
{
    let columns = luma.width as usize / 4;
    for y in 0..luma.height as usize / 4 {
        let row = &mut out[y * columns..y * columns + columns];
        decimate(four_rows(luma, y), luma.width, row);
    }
}

/// The samples of the picture of quarter size, by rows, of a picture whose sides are multiples of
/// 4, and not 0. The only error is want of memory.
pub(crate) fn quarter_samples(alloc: Global, luma: Grid) -> Result<Vec<u8>, NoMemory>
    requires wide { luma.width % 4 ≡ 0 }
    requires high { luma.height % 4 ≡ 0 }
    ensures count { IfOk result (λ samples.
        length samples.items ≡ luma.entry.width / 4 * (luma.entry.height / 4)) }
    ensures value { IfOk result (λ samples.
        plane_by_rows (luma.entry.width / 4) (luma.entry.height / 4) samples.items ≡
        quarter_size (plane_of_grid luma.entry)) }
{
    let count = luma.width as usize / 4 * (luma.height as usize / 4);
    let mut samples = vec![in alloc; 0; count]?;
    put_quarters(luma, &mut samples);
    Ok(samples)
}
