//! A coding tree block in its picture.

ghost use Rattle.std.specs.Prelude.{◌≡◌, ◌<◌};
ghost use Rattle.hv_tree_model.specs.Sites.{ctb_column, ctb_row};

use hv_plan::Place;

/// A coding tree block, with its column and row among those of the picture (6.5.1).
#[derive(Clone, Copy)]
pub struct Site {
    pub place: Place,
    pub column: u32,
    pub row: u32,
    pub ghost column_is: { column ≡ ctb_column place },
    pub ghost row_is: { row ≡ ctb_row place },
}

impl Site {
    ghost use Rattle.std.specs.Prelude.{◌≡◌, ◌<◌};

    /// That of a place in a picture that isn't empty.
    pub fn of(place: Place) -> Site
        requires { 0 < place.width }
        ensures { result.place ≡ place }
    {
        let across = place.width.div_ceil(64);
        Site {
            place,
            column: place.index % across,
            row: place.index / across,
        }
    }
}
