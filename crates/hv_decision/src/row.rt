//! What is kept of a picture.

use crate::coded::CodedPicture;
use smallvec::SmallVec;

/// A picture of a reference set (8.3.2): how far it is behind the picture that keeps it, in output
/// order (DeltaPocS0, DeltaPocS1), and whether that picture itself refers to it.
#[derive(Clone, Copy, Debug, Default, PartialEq, Eq)]
pub struct SetEntry {
    pub delta: i8,
    pub used: bool,
}

/// The places in coding order from that where a picture is coded to the last one whose picture
/// refers to it. `until` is one past that, and 0 where no picture does.
#[derive(Clone, Copy)]
pub(crate) struct Life {
    pub(crate) place: u8,
    pub(crate) until: u8,
}

impl Life {
    ghost use Rattle.std.specs.Prelude.{◌≡◌, ◌<◌};
    ghost use Rattle.hv_decision.specs.Coding.{coded_as};
    ghost use Rattle.hv_decision.specs.Sets.{is_kept_at, life_before};

    /// The picture's life by what is coded from this place on, where `self` is its life by what is
    /// coded behind it.
    pub(crate) fn before(self, coded: &CodedPicture, place: u8, picture: u8) -> Life
        requires { place < 64 }
        ensures { result ≡ life_before self (coded_as coded.now) place picture }
    {
        let until = if self.until > 0 {
            self.until
        } else if coded.references.has(picture) {
            place + 1
        } else {
            0
        };
        Life {
            place: if coded.picture == picture {
                place
            } else {
                self.place
            },
            until,
        }
    }

    /// Whether the picture at this place keeps the picture of this life.
    pub(crate) fn is_kept_at(self, place: u8) -> bool
        ensures { result ≡ is_kept_at self place }
    {
        self.place < place && place < self.until
    }
}

/// What is coded for a picture, and its reference set: the entries before it, which are `before`
/// many, and those after it. A set has at most four pictures, so its entries stay inline.
#[derive(Drop)]
pub(crate) struct Row {
    pub(crate) coded: CodedPicture,
    pub(crate) entries: SmallVec<SetEntry, 4>,
    pub(crate) before: u8,
}
