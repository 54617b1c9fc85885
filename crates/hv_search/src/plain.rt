//! Motion search without any shortcut, for tests: each vector of the definition is tried, and each
//! score is a sum over samples.
ghost use Rattle.std.specs.Prelude.{◌≡◌, ◌+◌, ◌*◌, ◌<◌, ◌≤◌, length, pos, ◌-ℤ◌};
ghost use mathlib.Core.Logic.{◌⊎◌};
ghost use Rattle.hv_sample_model.specs.Blocks.{total_of};
ghost use Rattle.hv_search_model.specs.MotionSearch.{moved, least_around, fractional_score, scores_of, best_vector, node_vector};
ghost use Rattle.hv_search_model.specs.MotionLaws.{IsWithin};
ghost use Rattle.hv_search.specs.Windows.{plane_of_grid};
ghost use Rattle.hv_search.specs.Fraction.{AreScores};
ghost use Rattle.hv_search.specs.Plain.{area_score, gap_of};

use crate::block::quadrupled;
use crate::fraction::{candidate, least_of_nine, sad_of_pair, shifted};
use crate::grid::Grid;
use crate::scored::{Scored, better};
use crate::source::Source;
use crate::square::Square;
use crate::window::{corner, grid_of, place_near, quarter_of};
use hv_interp::predict_inter;
use hv_kernel::Pair;
use hv_plan::Mv;
use hv_types::{Plane, Window};

/// How far the sample in column `x` of row `y` is from the one to which a vector leads.
fn gap(input: Grid, reference: Grid, x: u32, y: u32, mv: Mv) -> u64
    requires across { x < input.width }
    requires down { y < input.height }
    ensures value { result ≡
        gap_of (plane_of_grid input.entry) (plane_of_grid reference.entry) mv x y }
    ensures most { result ≤ 255 }
{
    let column = place_near(corner(x, mv.x, 0), 0, reference.width);
    let row = place_near(corner(y, mv.y, 0), 0, reference.height);
    let first = input.samples[y as usize * input.width as usize + x as usize];
    let second = reference.samples[row * reference.width as usize + column];
    u64::from(first.abs_diff(second))
}

/// The sum over a row of an area.
fn row_score(input: Grid, reference: Grid, x: u32, y: u32, columns: u32, mv: Mv) -> u64
    requires across { x + columns ≤ input.width }
    requires down { y < input.height }
    requires columns { columns ≤ 64 }
    ensures value { result ≡ total_of columns (λ i.
        gap_of (plane_of_grid input.entry) (plane_of_grid reference.entry) mv (x + i) y) }
    ensures most { result ≤ 255 * 64 }
{
    let mut sum = 0;
    for i in 0..columns {
        sum += gap(input, reference, x + i, y, mv);
    }
    sum
}

/// The score of a vector in whole samples for an area.
fn score(input: Grid, reference: Grid, x: u32, y: u32, columns: u32, rows: u32, mv: Mv) -> u64
    requires across { x + columns ≤ input.width }
    requires down { y + rows ≤ input.height }
    requires columns { columns ≤ 64 }
    requires rows { rows ≤ 64 }
    ensures { result ≡ area_score (plane_of_grid input.entry) (plane_of_grid reference.entry)
        x y columns rows mv }
{
    let mut sum = 0;
    for j in 0..rows {
        sum += row_score(input, reference, x, y + j, columns, mv);
    }
    sum
}

/// A vector around another one: so many samples further right and down, less `reach` of each.
fn whole_candidate(centre: Mv, reach: u8, right: u8, down: u8) -> Mv
    requires near { IsWithin 64 centre }
    ensures { result ≡ moved centre (pos right -ℤ pos reach) (pos down -ℤ pos reach) }
{
    Mv {
        x: shifted(centre.x, right, reach),
        y: shifted(centre.y, down, reach),
    }
}

/// The first of least score of a vector and those up to 8 or 16 samples around it.
fn least_whole(
    input: Grid,
    reference: Grid,
    x: u32,
    y: u32,
    columns: u32,
    rows: u32,
    reach: u8,
    centre: Mv,
) -> Mv
    requires across { x + columns ≤ input.width }
    requires down { y + rows ≤ input.height }
    requires columns { columns ≤ 64 }
    requires rows { rows ≤ 64 }
    requires reach { (reach ≡ 8) ⊎ (reach ≡ 16) }
    requires near { IsWithin 64 centre }
    ensures { result ≡ least_around (area_score (plane_of_grid input.entry)
        (plane_of_grid reference.entry) x y columns rows) reach 1 centre }
{
    let side = 2 * u32::from(reach) + 1;
    let sum = score(input, reference, x, y, columns, rows, centre);
    let mut best = Scored { sum, mv: centre };
    for t in 0..side * side {
        let mv = whole_candidate(centre, reach, (t % side) as u8, (t / side) as u8);
        let sum = score(input, reference, x, y, columns, rows, mv);
        best = better(best, Scored { sum, mv });
    }
    best.mv
}

/// A square by rows as a block of a plane.
#[inline(always)]
fn window_of(samples: &[u8], side: usize) -> Window<'_>
    requires { length samples.now ≡ side * side }
    ensures samples { result.samples.now ≡ samples.now }
    ensures stride { result.stride ≡ side }
    ensures columns { result.columns ≡ side }
    ensures rows { result.rows ≡ side }
{
    Window {
        samples,
        stride: side,
        columns: side,
        rows: side,
    }
}

/// The score of a vector for a node that lies wholly inside of the input.
fn fractional_sum(input: &Plane, reference: &Plane, square: Square, mv: Mv) -> u32
    requires across { square.x + square.side ≤ input.now.width }
    requires down { square.y + square.side ≤ input.now.height }
    ensures { result ≡
        fractional_score input.now reference.now square.x square.y square.side mv }
{
    let Square { x, y, side } = square;
    let mut samples = [0; 4096];
    let columns = usize::from(side);
    let predicted = &mut samples[..columns * columns];
    predict_inter(reference, true, x, y, side, mv, predicted);
    let first = input.window(x, y, u32::from(side), u32::from(side));
    let second = window_of(predicted, columns);
    sad_of_pair(Pair { first, second }, side)
}

/// The scores of a vector and of the eight that lie a step around it, each of a prediction of its
/// own.
fn nine_sums(input: &Plane, reference: &Plane, square: Square, centre: Mv, step: u8) -> [u64; 9]
    requires across { square.x + square.side ≤ input.now.width }
    requires down { square.y + square.side ≤ input.now.height }
    requires near { IsWithin 30000 centre }
    requires step { step ≤ 2 }
    ensures { AreScores (fractional_score input.now reference.now square.x square.y square.side)
        step centre 9 result }
{
    let mut sums = [0; 9];
    for t in 0..9u8 {
        let mv = candidate(centre, step, t % 3, t / 3);
        sums[usize::from(t)] = u64::from(fractional_sum(input, reference, square, mv));
    }
    sums
}

/// The vector of a node that lies wholly inside of the input, in quarters of a sample.
fn best_vector(effort: u8, input: Source, reference: Source, square: Square) -> Mv
    requires across { square.x + square.side ≤ input.luma.now.width }
    requires down { square.y + square.side ≤ input.luma.now.height }
    ensures { result ≡ best_vector effort (scores_of input.entry.luma.now
        reference.entry.luma.now square.x square.y square.side) }
{
    let Square { x, y, side } = square;
    let (small, small_reference) = (quarter_of(input), quarter_of(reference));
    let (left, top) = (16 * (x / 64), 16 * (y / 64));
    let columns = (small.width - left).min(16);
    let rows = (small.height - top).min(16);
    let none = Mv { x: 0, y: 0 };
    let coarse = least_whole(small, small_reference, left, top, columns, rows, 16, none);
    let side = u32::from(side);
    let (grid, reference_grid) = (grid_of(input.luma), grid_of(reference.luma));
    let full = least_whole(
        grid,
        reference_grid,
        x,
        y,
        side,
        side,
        8,
        quadrupled(coarse),
    );
    let whole = quadrupled(full);
    if effort < 2 {
        return whole;
    }
    let sums = nine_sums(input.luma, reference.luma, square, whole, 2);
    let half = least_of_nine(&sums, whole, 2).mv;
    let sums = nine_sums(input.luma, reference.luma, square, half, 1);
    least_of_nine(&sums, half, 1).mv
}

/// The vector of a node of 8x8, 16x16, 32x32 or 64x64, in quarters of a sample. None where nothing
/// is searched.
pub(crate) fn plain_vector(
    effort: u8,
    input: Source,
    reference: Source,
    square: Square,
) -> Option<Mv>
    ensures { result ≡ node_vector effort input.entry.luma.now reference.entry.luma.now
        square.x square.y square.side }
{
    let Square { x, y, side } = square;
    let side = u32::from(side);
    if effort == 0 {
        return None;
    }
    if x + side > input.luma.width() {
        return None;
    }
    if y + side > input.luma.height() {
        return None;
    }
    Some(best_vector(effort, input, reference, square))
}
