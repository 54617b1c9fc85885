//! The stages of halves and quarters of a sample, for a node.
ghost use Rattle.std.specs.Prelude.{◌≡◌, ◌+◌, ◌-◌, ◌*◌, ◌/◌, ◌%◌, ◌<◌, ◌≤◌, Bool, nat_eq, ◌||◌, length, drop, pos, ◌+ℤ◌, ◌-ℤ◌, ◌*ℤ◌, true};
ghost use Rattle.std.specs.Int.RustNames.{unsigned_abs};
ghost use Rattle.hv_kernel.specs.Blocks.{sad_of_blocks};
ghost use Rattle.hv_search_model.specs.MotionSearch.{Score, moved, times, least_around};
ghost use Rattle.hv_search_model.specs.MotionLaws.{IsWithin};
ghost use Rattle.hv_search.specs.Fraction.{AreScores, IsLeastAround};
ghost use Rattle.hv_search.specs.Field.{IsNear, part_score};

use crate::field::Field;
use crate::part::Part;
use crate::scored::{Scored, better};
use hv_kernel::{Pair, sad_block_8, sad_block_16, sad_block_32, sad_block_64};
use hv_plan::Mv;
use hv_types::Window;

/// The sum of absolute differences of two blocks of 8, 16, 32 or 64 columns.
#[inline(always)]
pub(crate) fn sad_of_pair(blocks: Pair, side: u8) -> u32
    requires columns { blocks.first.columns ≡ side }
    requires sized { (nat_eq side 8 || nat_eq side 16 || nat_eq side 32 || nat_eq side 64) ≡ true }
    ensures { result ≡ sad_of_blocks blocks.entry }
{
    match side {
        8 => sad_block_8(blocks),
        16 => sad_block_16(blocks),
        32 => sad_block_32(blocks),
        _ => sad_block_64(blocks),
    }
}

/// A component of a vector, so much more and so much less.
#[inline(always)]
pub(crate) fn shifted(component: i16, more: u8, less: u8) -> i16
    requires near { unsigned_abs component ≤ 30000 }
    ensures { result ≡ component +ℤ (pos more -ℤ pos less) }
{
    component + (i16::from(more) - i16::from(less))
}

/// A vector around another one: so many steps of quarters of a sample further right and down, less
/// one of each.
#[inline(always)]
pub(crate) fn candidate(centre: Mv, step: u8, right: u8, down: u8) -> Mv
    requires near { IsWithin 30000 centre }
    requires step { step ≤ 2 }
    requires right { right ≤ 2 }
    requires down { down ≤ 2 }
    ensures { result ≡ moved centre
        (pos (step * right) -ℤ pos step) (pos (step * down) -ℤ pos step) }
{
    Mv {
        x: shifted(centre.x, step * right, step),
        y: shifted(centre.y, step * down, step),
    }
}

/// How many quarters of a sample a component leads further than nine samples before another one,
/// which is in whole samples.
#[inline(always)]
fn ahead(component: i16, centre: i16) -> u8
    requires short { unsigned_abs centre ≤ 64 }
    requires near { unsigned_abs (component -ℤ (pos 4 *ℤ centre)) ≤ 35 }
    ensures value { component ≡ (pos 4 *ℤ (centre -ℤ pos 9)) +ℤ pos result }
    ensures most { result < 72 }
{
    (component - 4 * centre + 36) as u8
}

/// What a field has for a node, so many quarters of a sample further right and down than from its
/// first samples on.
#[inline(always)]
fn window_at<'a>(field: Field<'a>, part: Part, right: u8, down: u8) -> Window<'a>
    requires right { right < 72 }
    requires down { down < 72 }
    ensures samples { result.samples.now ≡ drop (31104 * (right % 4) + 7776 * (down % 4) +
        ((part.top + down / 4) * 96 + (part.left + right / 4))) field.entry.samples.now }
    ensures stride { result.stride ≡ 96 }
    ensures columns { result.columns ≡ part.side }
    ensures rows { result.rows ≡ part.side }
{
    let first = 31104 * usize::from(right % 4) + 7776 * usize::from(down % 4);
    let column = usize::from(part.left + right / 4);
    let row = usize::from(part.top + down / 4);
    let side = usize::from(part.side);
    Window {
        samples: &field.samples[first + (row * 96 + column)..],
        stride: 96,
        columns: side,
        rows: side,
    }
}

/// The score of a vector for a node that lies wholly inside of the input.
fn sum_at(field: Field, part: Part, mv: Mv) -> u32
    requires across { field.x + part.left + part.side ≤ field.input.now.width }
    requires down { field.y + part.top + part.side ≤ field.input.now.height }
    requires near { IsNear 35 (times 4 field.centre) mv }
    ensures { result ≡ part_score field.entry part mv }
{
    let x = field.x + u32::from(part.left);
    let y = field.y + u32::from(part.top);
    let side = u32::from(part.side);
    let first = field.input.window(x, y, side, side);
    let right = ahead(mv.x, field.centre.x);
    let down = ahead(mv.y, field.centre.y);
    let second = window_at(field, part, right, down);
    sad_of_pair(Pair { first, second }, part.side)
}

/// The scores of a vector and the eight that lie a step around it, by rows.
fn nine_sums(field: Field, part: Part, centre: Mv, step: u8) -> [u64; 9]
    requires across { field.x + part.left + part.side ≤ field.input.now.width }
    requires down { field.y + part.top + part.side ≤ field.input.now.height }
    requires step { step ≤ 2 }
    requires near { IsNear (35 - step) (times 4 field.centre) centre }
    ensures { AreScores (part_score field.entry part) step centre 9 result }
{
    let mut sums = [0; 9];
    for t in 0..9u8 {
        let mv = candidate(centre, step, t % 3, t / 3);
        sums[usize::from(t)] = u64::from(sum_at(field, part, mv));
    }
    sums
}

/// The first of least score of a vector and the eight that lie a step around it, whose scores come
/// by rows.
pub(crate) fn least_of_nine(sums: &[u64; 9], centre: Mv, step: u8) -> Scored
    requires near { IsWithin 30000 centre }
    requires step { step ≤ 2 }
    ensures { (score : Score) → AreScores score step centre 9 sums.now →
        IsLeastAround score step centre result }
{
    let mut best = Scored {
        sum: sums[4],
        mv: centre,
    };
    for t in 0..9u8 {
        let mv = candidate(centre, step, t % 3, t / 3);
        let sum = sums[usize::from(t)];
        best = better(best, Scored { sum, mv });
    }
    best
}

/// The vector of the stages of halves and quarters around a vector in whole samples, all in
/// quarters of a sample.
pub(crate) fn quarter_vector(field: Field, part: Part, whole: Mv) -> Mv
    requires across { field.x + part.left + part.side ≤ field.input.now.width }
    requires down { field.y + part.top + part.side ≤ field.input.now.height }
    requires near { IsNear 32 (times 4 field.centre) whole }
    ensures { result ≡ least_around (part_score field.entry part) 1 1
        (least_around (part_score field.entry part) 1 2 whole) }
{
    let sums = nine_sums(field, part, whole, 2);
    let half = least_of_nine(&sums, whole, 2).mv;
    let sums = nine_sums(field, part, half, 1);
    least_of_nine(&sums, half, 1).mv
}
