//! What is given for a block of an I slice, in tests.

ghost use Rattle.std.specs.Prelude.{◌≡◌, ◌%◌, ◌<◌};
ghost use Rattle.hv_types.specs.Video.{IsPicture};

use crate::task::Task;
use hv_amvp::Distances;
use hv_block::Neighbours;
use hv_plan::Place;
use hv_tables::SliceKind;
use hv_types::Picture;

/// For the first block of a picture of these sides, at effort 1 and quantiser 30.
pub(crate) fn intra_task<'a>(input: &'a Picture, near: &'a Neighbours, side: u32) -> Task<'a>
    requires some { 0 < side }
    requires even { side % 8 ≡ 0 }
    requires whole { IsPicture side side input.now }
    ensures width { result.place.width ≡ side }
    ensures height { result.place.height ≡ side }
    ensures index { result.place.index ≡ 0 }
{
    Task {
        effort: 1,
        qp: 30,
        input,
        kind: SliceKind::I,
        references: 0,
        place: Place {
            width: side,
            height: side,
            index: 0,
        },
        near,
        distances: Distances {
            first: 0,
            second: 0,
        },
        motion: None,
        first: None,
        second: None,
    }
}
