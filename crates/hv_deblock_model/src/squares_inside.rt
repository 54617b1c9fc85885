//! What deblocking asks about squares.

ghost use Rattle.hv_deblock_model.specs.SquaresInside.{OnlySquaresInsideCount, DifferencesDoNotCount};

/// Deblocking (8.7.2) asks only how the squares inside the picture are coded: the picture is the
/// same, whatever stands for those behind its right and lower border.
pub fn only_squares_inside_count()
    ensures { OnlySquaresInsideCount }
{}

/// Deblocking (8.7.2) asks for vectors alone, and not for the differences that are coded of them.
pub fn differences_of_vectors_do_not_count()
    ensures { DifferencesDoNotCount }
{}
