//! The straight modes of the smaller luma blocks, which follow the other side at the block's edge.

ghost use Rattle.std.specs.Prelude.{◌≡◌, ◌+◌, ◌*◌, ◌^◌, ◌<◌, ◌≤◌, length, pos, ◌+ℤ◌, ◌-ℤ◌};
ghost use Rattle.std.specs.Int.{int_shr};
ghost use Rattle.std.specs.Int.RustNames.{unsigned_abs};
ghost use Rattle.hv_intra.specs.Blocks.{IsRow, HasRows};
ghost use Rattle.hv_lemmas.specs.Clipping.{clip1};
ghost use Rattle.hv_intra.specs.StraightModes.{straight_on};
ghost use Rattle.hv_sample_model.specs.IntraPrediction.{left, above};

use crate::neighbours::Neighbours;

/// Clip1 of a sample of 8 bits.
#[inline(always)]
fn clip(value: i16) -> u8
    ensures { result ≡ clip1 value }
{
    value.min(255).max(0) as u8
}

/// Half of what the other side has moved from the corner.
#[inline(always)]
fn half_moved(other: u8, corner: u8) -> i16
    ensures value { result ≡ int_shr (pos other -ℤ pos corner) 1 }
    ensures most { unsigned_abs result ≤ 255 }
{
    (i16::from(other) - i16::from(corner)) >> 1
}

/// A sample of the edge (8.4.4.2.6): the first of the main side, moved by half of what the other
/// side has moved from the corner.
#[inline(always)]
fn edge(first: u8, other: u8, corner: u8) -> u8
    ensures { result ≡ clip1 (pos first +ℤ int_shr (pos other -ℤ pos corner) 1) }
{
    clip(i16::from(first) + half_moved(other, corner))
}

/// A row of the vertical mode.
#[inline(always)]
fn fill_vertical_row(neighbours: Neighbours<'_>, y: usize, row: &mut [u8])
    requires row { y < 2 ^ neighbours.side.log2 }
    requires room { length row.old ≡ 2 ^ neighbours.side.log2 }
    ensures { IsRow (2 ^ neighbours.entry.side.log2)
        (λ x. straight_on (above neighbours.entry.side.log2 neighbours.entry.line.now)
        (left neighbours.entry.side.log2 neighbours.entry.line.now) x y) row.new }
{
    row[0] = edge(
        neighbours.above(1),
        neighbours.left(y + 1),
        neighbours.above(0),
    );
    for x in 1..neighbours.side.count() {
        row[x] = neighbours.above(x + 1);
    }
}

/// The vertical mode, 26.
#[inline(always)]
pub(crate) fn predict_vertical(neighbours: Neighbours<'_>, out: &mut [u8])
    requires { length out.old ≡ 2 ^ neighbours.side.log2 * 2 ^ neighbours.side.log2 }
    ensures { HasRows (2 ^ neighbours.entry.side.log2) (2 ^ neighbours.entry.side.log2)
        (λ x y. straight_on (above neighbours.entry.side.log2 neighbours.entry.line.now)
        (left neighbours.entry.side.log2 neighbours.entry.line.now) x y) out.new }
{
    let n = neighbours.side.count();
    for y in 0..n {
        fill_vertical_row(neighbours, y, &mut out[y * n..y * n + n]);
    }
}

/// The upper row of the horizontal mode.
#[inline(always)]
fn fill_upper_row(neighbours: Neighbours<'_>, row: &mut [u8])
    requires { length row.old ≡ 2 ^ neighbours.side.log2 }
    ensures { IsRow (2 ^ neighbours.entry.side.log2)
        (λ x. straight_on (left neighbours.entry.side.log2 neighbours.entry.line.now)
        (above neighbours.entry.side.log2 neighbours.entry.line.now) 0 x) row.new }
{
    let first = neighbours.left(1);
    let corner = neighbours.left(0);
    for x in 0..neighbours.side.count() {
        row[x] = edge(first, neighbours.above(x + 1), corner);
    }
}

/// A row of the horizontal mode.
#[inline(always)]
fn fill_horizontal_row(neighbours: Neighbours<'_>, y: usize, row: &mut [u8])
    requires row { y < 2 ^ neighbours.side.log2 }
    requires room { length row.old ≡ 2 ^ neighbours.side.log2 }
    ensures { IsRow (2 ^ neighbours.entry.side.log2)
        (λ x. straight_on (left neighbours.entry.side.log2 neighbours.entry.line.now)
        (above neighbours.entry.side.log2 neighbours.entry.line.now) y x) row.new }
{
    if y == 0 {
        fill_upper_row(neighbours, row);
    } else {
        row.fill(neighbours.left(y + 1));
    }
}

/// The horizontal mode, 10.
#[inline(always)]
pub(crate) fn predict_horizontal(neighbours: Neighbours<'_>, out: &mut [u8])
    requires { length out.old ≡ 2 ^ neighbours.side.log2 * 2 ^ neighbours.side.log2 }
    ensures { HasRows (2 ^ neighbours.entry.side.log2) (2 ^ neighbours.entry.side.log2)
        (λ x y. straight_on (left neighbours.entry.side.log2 neighbours.entry.line.now)
        (above neighbours.entry.side.log2 neighbours.entry.line.now) y x) out.new }
{
    let n = neighbours.side.count();
    for y in 0..n {
        fill_horizontal_row(neighbours, y, &mut out[y * n..y * n + n]);
    }
}
