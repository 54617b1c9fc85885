//! Scaling of vectors by the distances of pictures (8.5.3.2.7).

ghost use Rattle.std.specs.Prelude.{◌≡◌, ◌+◌, ◌/◌, ◌≤◌, pos, neg_ℤ, ◌+ℤ◌, ◌*ℤ◌, unsigned_abs};
ghost use Rattle.std.specs.Int.{int_shr, int_signum};
ghost use Rattle.hv_lemmas.specs.Clipping.{clip3, clip16};
ghost use Rattle.hv_vector_model.specs.VectorPrediction.{tx, distScaleFactor, scaled_component, scaled, scaled_for};
ghost use Rattle.hv_amvp.specs.Entries.{entries};

use hv_plan::Mv;
use hv_vector_model::Moving;

/// How far the pictures of list 0 lie from the current one: its picture order count less that of
/// entry 0, and of entry 1 (`DiffPicOrderCnt`). It is 0 where there is no such entry.
#[derive(Clone, Copy, Debug, PartialEq, Eq)]
pub struct Distances {
    pub first: i8,
    pub second: i8,
}

impl Distances {
    ghost use Rattle.std.specs.Prelude.{◌≡◌};
    ghost use Rattle.hv_vector_model.specs.VectorPrediction.{distance};
    ghost use Rattle.hv_amvp.specs.Entries.{entries};

    /// The distance of an entry, 0 where there is none.
    #[tactic(auto, unfolding(hv_vector_model::specs::VectorPrediction::distance))]
    pub fn of(self, reference: u8) -> i8
        ensures { result ≡ distance (entries self) reference }
    {
        match reference {
            0 => self.first,
            1 => self.second,
            _ => 0,
        }
    }
}

/// `tx`: 0 where there is no distance.
fn tx(td: i32) -> i32
    requires { unsigned_abs td ≤ 128 }
    ensures value { result ≡ tx td }
    ensures most { unsigned_abs result ≤ 16384 }
{
    if td == 0 {
        return 0;
    }
    (16384 + td.abs() / 2) / td
}

/// A product of two small numbers.
fn product(a: i32, b: i32) -> i32
    requires first { unsigned_abs a ≤ 4096 }
    requires second { unsigned_abs b ≤ 32768 }
    ensures value { result ≡ a *ℤ b }
    ensures most { unsigned_abs result ≤ 134217728 }
{
    a * b
}

/// A product of `tb` and `tx`, in 256ths.
fn in_256ths(product: i32) -> i32
    requires { unsigned_abs product ≤ 134217728 }
    ensures { result ≡ int_shr (product +ℤ pos 32) 6 }
{
    (product + 32) >> 6
}

/// The nearest factor.
fn cut_factor(value: i32) -> i32
    ensures value { result ≡ clip3 (neg_ℤ (pos 4096)) (pos 4095) value }
    ensures most { unsigned_abs result ≤ 4096 }
{
    value.clamp(-4096, 4095)
}

/// `DistScaleFactor`, in 256ths.
fn scale_factor(tb: i32, td: i32) -> i32
    requires most_td { unsigned_abs td ≤ 128 }
    requires most_tb { unsigned_abs tb ≤ 128 }
    ensures value { result ≡ distScaleFactor tb td }
    ensures most { unsigned_abs result ≤ 4096 }
{
    cut_factor(in_256ths(product(tb, tx(td))))
}

/// A product with a factor in 256ths, as a whole number.
fn whole(product: i32) -> i32
    requires { unsigned_abs product ≤ 134217728 }
    ensures { result ≡ int_signum product *ℤ pos ((unsigned_abs product + 127) / 256) }
{
    let size = ((product.unsigned_abs() + 127) / 256) as i32;
    if product < 0 { -size } else { size }
}

/// The nearest number of 16 bits.
fn clipped(value: i32) -> i16
    ensures { result ≡ clip16 value }
{
    value.clamp(-32768, 32767) as i16
}

/// A component of a vector, scaled.
fn scaled_component(factor: i32, mv: i16) -> i16
    requires { unsigned_abs factor ≤ 4096 }
    ensures { result ≡ scaled_component factor mv }
{
    clipped(whole(product(factor, i32::from(mv))))
}

/// A vector over the distance `from`, scaled to reach over `to`.
fn scaled(from: i8, to: i8, mv: Mv) -> Mv
    ensures { result ≡ scaled from to mv }
{
    let factor = scale_factor(i32::from(to), i32::from(from));
    Mv {
        x: scaled_component(factor, mv.x),
        y: scaled_component(factor, mv.y),
    }
}

/// The vector of a square for a unit of this reference: as it is where the square has this
/// reference too, else scaled.
pub fn scaled_for(distances: Distances, reference: u8, moving: Moving) -> Mv
    ensures { result ≡ scaled_for (entries distances) reference moving }
{
    if moving.reference == reference {
        return moving.mv;
    }
    let from = distances.of(moving.reference);
    scaled(from, distances.of(reference), moving.mv)
}
