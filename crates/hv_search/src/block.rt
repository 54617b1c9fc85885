//! The vectors of the nodes of a coding tree block.
ghost use Rattle.std.specs.Prelude.{◌≡◌, ℕ, ◌+◌, ◌*◌, ◌/◌, ◌%◌, ◌^◌, ◌<◌, ◌≤◌, length, slice_index, slice_index_or};
ghost use Rattle.hv_search_model.specs.MotionSearch.{times, least_around};
ghost use Rattle.hv_search_model.specs.MotionLaws.{IsWithin};
ghost use Rattle.hv_search.specs.Nodes.{place_of};
ghost use Rattle.hv_search.specs.Numbers.{IsInside, full_candidate, no_vector, AreFound};
ghost use Rattle.hv_search.specs.Field.{IsNear, node_score};

use crate::field::{Field, put_field};
use crate::fraction::{quarter_vector, shifted};
use crate::full::full_keys;
use crate::nodes::NODES;
use crate::number::part_of;
use crate::window::grid_of;
use hv_plan::Mv;
use hv_types::Plane;

/// The place of the vector of this number.
#[inline(always)]
fn place_of_number(number: u32) -> u32
    requires { number < 512 }
    ensures value { result ≡ place_of number }
    ensures most { result < 512 }
{
    if number == 0 { 144 } else { number - 1 }
}

/// The vector that a key shows, of those around another one, in samples.
#[inline(always)]
fn shown_vector(centre: Mv, key: u32) -> Mv
    requires near { IsWithin 64 centre }
    ensures value { result ≡ full_candidate centre (key % 512) }
    ensures near { IsWithin 600 result }
{
    let place = place_of_number(key % 512);
    Mv {
        x: shifted(centre.x, (place % 17) as u8, 8),
        y: shifted(centre.y, (place / 17) as u8, 8),
    }
}

/// The vector that is four times as long.
#[inline(always)]
pub(crate) fn quadrupled(mv: Mv) -> Mv
    requires { IsWithin 600 mv }
    ensures { result ≡ times 4 mv }
{
    Mv {
        x: 4 * mv.x,
        y: 4 * mv.y,
    }
}

/// The vectors of the full stage, in quarters of a sample, from the keys of the nodes.
fn put_whole(centre: Mv, keys: &[u32; NODES], vectors: &mut [Mv])
    requires near { IsWithin 64 centre }
    requires room { length vectors.old ≡ 85 }
    ensures count { length vectors.new ≡ 85 }
    ensures each { (n : ℕ) → n < 85 → slice_index_or vectors.new n no_vector ≡
        times 4 (full_candidate centre (slice_index keys.now n % 512)) }
{
    for n in 0..NODES {
        vectors[n] = quadrupled(shown_vector(centre, keys[n]));
    }
}

/// The vector of node `n` of a block, in quarters of a sample, from that of the full stage. That of
/// a node that crosses an edge is any.
fn finished_vector(field: Field, n: usize, whole: Mv) -> Mv
    requires number { n < 85 }
    requires near { IsInside field.input.now field.x field.y n →
        IsNear 32 (times 4 field.centre) whole }
    ensures { IsInside field.entry.input.now field.entry.x field.entry.y n → result ≡
        least_around (node_score field.entry n) 1 1
        (least_around (node_score field.entry n) 1 2 whole) }
{
    let part = part_of(n);
    let right = field.x + u32::from(part.left) + u32::from(part.side);
    let bottom = field.y + u32::from(part.top) + u32::from(part.side);
    if right > field.input.width() || bottom > field.input.height() {
        return whole;
    }
    quarter_vector(field, part, whole)
}

/// Takes the vectors of the nodes of a block from the full stage to quarters of a sample.
fn finish(field: Field, vectors: &mut [Mv])
    requires room { length vectors.old ≡ 85 }
    requires near { (n : ℕ) → n < 85 → IsInside field.input.now field.x field.y n →
        IsNear 32 (times 4 field.centre) (slice_index_or vectors.old n no_vector) }
    ensures count { length vectors.new ≡ 85 }
    ensures each { (n : ℕ) → n < 85 →
        IsInside field.entry.input.now field.entry.x field.entry.y n →
        slice_index_or vectors.new n no_vector ≡
        least_around (node_score field.entry n) 1 1 (least_around (node_score field.entry n) 1 2
        (slice_index_or vectors.old n no_vector)) }
{
    for n in 0..NODES {
        vectors[n] = finished_vector(field, n, vectors[n]);
    }
}

/// Puts the vectors of the nodes of the block that begins in column `x` of row `y`, in quarters of
/// a sample, from that of the coarse stage. From effort 2 on there is room for the samples of a
/// field.
pub(crate) fn put_block(
    effort: u8,
    input: &Plane,
    reference: &Plane,
    coarse: Mv,
    x: u32,
    y: u32,
    samples: &mut [u8],
    vectors: &mut [Mv],
)
    requires x { x < 2 ^ 31 }
    requires y { y < 2 ^ 31 }
    requires near { IsWithin 16 coarse }
    requires samples { 2 ≤ effort → length samples.old ≡ 124416 }
    requires room { length vectors.old ≡ 85 }
    ensures samples { length samples.new ≡ length samples.old }
    ensures count { length vectors.new ≡ 85 }
    ensures found { AreFound effort input.now reference.now (times 4 coarse) x y 85 vectors.new }
{
    let centre = quadrupled(coarse);
    let keys = full_keys(grid_of(input), grid_of(reference), x, y, centre);
    put_whole(centre, &keys, vectors);
    if effort < 2 {
        return;
    }
    put_field(reference, x, y, centre, samples);
    let field = Field {
        input,
        reference,
        x,
        y,
        centre,
        samples,
    };
    finish(field, vectors);
}
