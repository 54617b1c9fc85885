//! What is given for the blocks of a picture.

ghost use Rattle.std.specs.Prelude.{◌≡◌, ◌%◌, ◌<◌, ◌≤◌};
ghost use Rattle.std.specs.Option.{option_copied};
ghost use Rattle.hv_types.specs.Video.{IsPicture};
ghost use Rattle.hv_mode.specs.Motions.{IsMotionFor};

use hv_amvp::Distances;
use hv_block::Frame;
use hv_search::Motion;
use hv_tables::SliceKind;
use hv_types::Picture;

/// What is given for all coding tree blocks of a picture: how much is tried (`effort`, 0 to 2), the
/// quantiser of the slice (`SliceQpY`, 0 to 51), the padded picture that is encoded and its sides
/// in luma samples, the kind of the slice and its number of references.
///
/// Of other pictures it has the distances to the entries of list 0, what motion search found for
/// the picture, if it searched, and the frames that show entry 0 and entry 1, where they are there.
#[derive(Clone, Copy)]
pub struct PictureTask<'a> {
    pub effort: u8,
    pub qp: u8,
    pub input: &'a Picture,
    pub kind: SliceKind,
    pub references: u8,
    pub width: u32,
    pub height: u32,
    pub distances: Distances,
    pub motion: Option<&'a Motion>,
    pub first: Option<&'a Frame>,
    pub second: Option<&'a Frame>,
    pub ghost known: { effort ≤ 2 },
    pub ghost quantiser: { qp ≤ 51 },
    pub ghost some: { 0 < width },
    pub ghost width_most: { width ≤ 4096 },
    pub ghost height_most: { height ≤ 2176 },
    pub ghost across: { width % 8 ≡ 0 },
    pub ghost down: { height % 8 ≡ 0 },
    pub ghost whole: { IsPicture width height input.now },
    pub ghost searched: { IsMotionFor width height (option_copied motion) },
}
