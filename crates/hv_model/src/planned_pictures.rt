//! Pictures that an encoder keeps as plans.

ghost use Rattle.hv_model.specs.PlannedPictures.{PlannedSquaresAreThoseOfTrees, PlannedPicturesAreDeblockedAlike};

/// How the squares inside a picture are coded (8.7.2), which deblocking asks, is by its plans what
/// it is by their trees, as a decoder has them: where each plan names its units, and the vectors
/// are those of its inter units.
pub fn planned_squares_are_those_of_trees()
    ensures { PlannedSquaresAreThoseOfTrees }
{}

/// A picture is deblocked (8.7.2) by its plans, whose units know their vectors, as by its trees with
/// vectors, as a decoder has them: where the plans with vectors name their units.
pub fn planned_pictures_are_deblocked_alike()
    ensures { PlannedPicturesAreDeblockedAlike }
{}
