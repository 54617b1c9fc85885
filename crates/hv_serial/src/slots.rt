//! The frames of a group, which pictures share.

ghost use Rattle.std.specs.Prelude.{◌≡◌, ◌<◌};
ghost use Rattle.hv_serial.specs.Slots.{FramesServe, slot_of};

use hv_decision::Structure;

/// The number of the frame of a picture of a group.
pub(crate) fn slot_of(structure: &Structure, picture: u8) -> u8
    requires { picture < structure.now.count }
    ensures { result ≡ slot_of structure.now.count structure.now.levels picture }
{
    structure.count();
    let depth = structure.depth(picture);
    if depth < 2 {
        let span = 1 << structure.levels();
        (picture + (span - 1)) / span % 2
    } else {
        depth
    }
}

/// In each group, of 1 to 64 pictures with 0 to 3 levels, two frames more than there are levels
/// suffice, and no more than there are pictures: where a picture is coded, each picture to which it
/// refers is the last one that was put into its own frame.
pub fn frames_serve()
    ensures { FramesServe }
{}
