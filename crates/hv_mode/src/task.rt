//! What is given for a coding tree block.

ghost use Rattle.std.specs.Prelude.{◌≡◌, ◌%◌, ◌<◌, ◌≤◌};
ghost use Rattle.std.specs.Option.{option_copied};
ghost use Rattle.hv_types.specs.Video.{IsPicture};
ghost use Rattle.hv_mode.specs.Motions.{IsMotionFor};

use hv_amvp::Distances;
use hv_block::{Frame, Neighbours};
use hv_plan::Place;
use hv_search::Motion;
use hv_tables::SliceKind;
use hv_types::Picture;

/// What is given for a coding tree block: how much is tried (`effort`, 0 to 2), the quantiser of
/// the slice (`SliceQpY`, 0 to 51), the padded picture that is encoded, the kind of the slice and
/// its number of references, where the block lies, and the edges of the blocks around it, before
/// the in-loop filters.
///
/// Of other pictures it has the distances to the entries of list 0, what motion search found for
/// the picture, if it searched, and the frames that show entry 0 and entry 1, where they are there.
#[derive(Clone, Copy)]
pub struct Task<'a> {
    pub effort: u8,
    pub qp: u8,
    pub input: &'a Picture,
    pub kind: SliceKind,
    pub references: u8,
    pub place: Place,
    pub near: &'a Neighbours,
    pub distances: Distances,
    pub motion: Option<&'a Motion>,
    pub first: Option<&'a Frame>,
    pub second: Option<&'a Frame>,
    pub ghost known: { effort ≤ 2 },
    pub ghost quantiser: { qp ≤ 51 },
    pub ghost some: { 0 < place.width },
    pub ghost across: { place.width % 8 ≡ 0 },
    pub ghost down: { place.height % 8 ≡ 0 },
    pub ghost whole: { IsPicture place.width place.height input.now },
    pub ghost searched: { IsMotionFor place.width place.height (option_copied motion) },
}
