//! What is coded for a picture.

ghost use Rattle.std.specs.Prelude.{◌≡◌, slice_get, nat_eq};
ghost use Rattle.std.specs.List.{list_any};

/// List 0 of a picture (8.3.4): the pictures to which it refers.
#[derive(Clone, Copy)]
pub(crate) enum References {
    Nothing,
    One(u8),
    Two(u8, u8),
}

impl References {
    ghost use Rattle.hv_decision.specs.Coding.{references_of};

    /// Entry 0.
    pub(crate) fn first(self) -> Option<u8>
        ensures { slice_get (references_of self) 0 ≡ result }
    {
        match self {
            References::Nothing => None,
            References::One(first) => Some(first),
            References::Two(first, _) => Some(first),
        }
    }

    /// Entry 1.
    pub(crate) fn second(self) -> Option<u8>
        ensures { slice_get (references_of self) 1 ≡ result }
    {
        match self {
            References::Nothing => None,
            References::One(_) => None,
            References::Two(_, second) => Some(second),
        }
    }

    /// Whether this picture is among them.
    pub(crate) fn has(self, picture: u8) -> bool
        ensures { result ≡ list_any (nat_eq picture) (references_of self) }
    {
        match self {
            References::Nothing => false,
            References::One(first) => picture == first,
            References::Two(first, second) => picture == first || picture == second,
        }
    }
}

/// What is coded for a picture, which goes by its number in output order.
#[derive(Clone, Copy)]
pub(crate) struct CodedPicture {
    pub(crate) picture: u8,
    pub(crate) depth: u8,
    pub(crate) references: References,
}
