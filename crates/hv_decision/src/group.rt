//! A group of pictures that is to be encoded, and what comes out.

ghost use Rattle.std.specs.Prelude.{◌≡◌, ◌<◌, ◌++◌, ◌∷◌, [], length, OnOk, OnErr};

use crate::structure::Structure;
use hv_types::{GroupInput, NoMemory};
use std::alloc::Global;
use std::marker::Model;

/// A group of at least one picture, with its structure: that of the number of its pictures and of
/// the levels of its settings. Groups are numbered over the video from 0.
#[derive(Drop)]
pub struct Group {
    pub number: u32,
    pub input: GroupInput,
    pub structure: Structure,
    ghost some: { 0 < length input.pictures },
    ghost count: { structure.count ≡ length input.pictures },
    ghost levels: { structure.levels ≡ input.config.levels },
}

/// The output of a group: `slices` are its units in coding order, and `shown` its cropped raw
/// pictures in output order, or none where they aren't emitted.
#[derive(Drop)]
pub struct GroupOutput {
    pub slices: Vec<Vec<u8>>,
    pub shown: Vec<Vec<u8>>,
}

impl Model for GroupOutput {
    ghost use Rattle.std.specs.Prelude.{map};
    ghost use Rattle.hv_decision.specs.Groups.{GroupOutput};

    ghost Value = { GroupOutput };

    ghost view = { λ o. record {
      slices = map (λ s. s.items) o.slices.items;
      shown = map (λ s. s.items) o.shown.items;
    } };
}

impl GroupOutput {
    /// No output yet.
    pub fn new(alloc: Global) -> Self
        ensures { result ≡ record { slices = []; shown = [] } }
    {
        GroupOutput {
            slices: Vec::new(alloc),
            shown: Vec::new(alloc),
        }
    }

    /// Appends a unit. The only error is want of memory, and then the output is as it was.
    pub fn push_slice(&mut self, unit: Vec<u8>) -> Result<(), NoMemory>
        ensures ok { OnOk result (self.new ≡
            record self.old { slices = self.old.slices ++ unit.items ∷ [] }) }
        ensures err { OnErr result (self.new ≡ self.old) }
    {
        self.slices.push(unit)?;
        Ok(())
    }

    /// Appends a picture that is shown. The only error is want of memory, and then the output is as
    /// it was.
    pub fn push_shown(&mut self, picture: Vec<u8>) -> Result<(), NoMemory>
        ensures ok { OnOk result (self.new ≡
            record self.old { shown = self.old.shown ++ picture.items ∷ [] }) }
        ensures err { OnErr result (self.new ≡ self.old) }
    {
        self.shown.push(picture)?;
        Ok(())
    }
}
