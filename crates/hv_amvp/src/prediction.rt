//! The candidates for the vector of a node of the coding quadtree.

ghost use Rattle.std.specs.Prelude.{◌≡◌, ◌<◌, ◌≤◌, List};
ghost use Rattle.hv_tree_model.specs.EarlierUnits.{Square};
ghost use Rattle.hv_tree_model.specs.Plans.{look_around};
ghost use Rattle.hv_near.specs.Neighbours.{lists_of_plan, around_of};
ghost use Rattle.hv_near.specs.Squares.{Shows};
ghost use Rattle.hv_vector_model.specs.VectorPrediction.{mvpListL0};
ghost use Rattle.hv_vector_model.specs.Vectors.{neighbourhood_of, plan_with_vectors, around_with_vectors};
ghost use Rattle.hv_amvp.specs.Entries.{entries};

use crate::choice::candidates_by;
use crate::scaling::Distances;
use crate::squares::neighbourhood;
use hv_block::{CtbPlan, Neighbours};
use hv_plan::{Mv, Place};

/// The two candidates (`mvpListL0`, 8.5.3.2.6) for the vector of a unit, in quarters of a luma
/// sample: the node of this `size`, 0 for 8x8 to 3 for 64x64, at `address`, which is below 64, in
/// the coding tree block at `place`. The unit is predicted from entry `reference` of list 0.
///
/// They are those of the definition behind any squares coded earlier that are those of the plan's
/// units at the addresses below the node's, with their vectors, so far as they are inside the
/// picture (6.4.1). What the plan has from there on isn't read, and neither are differences of
/// vectors. A square that names an entry whose distance is 0, which no picture of list 0 has, gives
/// a vector of 0 where it would be scaled. It takes no memory.
pub fn candidates(
    near: &Neighbours,
    plan: &CtbPlan,
    place: Place,
    address: u8,
    size: u8,
    distances: Distances,
    reference: u8,
) -> [Mv; 2]
    requires inside { address < 64 }
    requires size { size ≤ 3 }
    ensures { (earlier : List Square) →
        Shows place (plan_with_vectors (lists_of_plan plan.now)) address earlier →
        result ≡ mvpListL0 (entries distances) reference (neighbourhood_of (look_around place
        (around_with_vectors (around_of near.now))) size address earlier) }
{
    let around = neighbourhood(place, near, plan.units(), address, size);
    candidates_by(distances, reference, around)
}
