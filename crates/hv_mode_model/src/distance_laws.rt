//! Where no unit can be predicted from another picture, distances and vectors are never asked for.

ghost use Rattle.hv_mode_model.specs.DistanceLaws.{ISlicesAskForNoVectors, NothingFoundAsksForNoDistances};

/// In an I slice the same is chosen by any distances to the entries of list 0, and by any vectors.
pub fn i_slices_ask_for_no_vectors()
    ensures { ISlicesAskForNoVectors }
{}

/// Where motion search found nothing, the same is chosen by any distances.
pub fn nothing_found_asks_for_no_distances()
    ensures { NothingFoundAsksForNoDistances }
{}
