//! Motion search as a definition: the vector that the encoder tries for a node of a picture and a
//! picture to which it refers.
#![tactic(auto)]

ghost use Rattle.hv_search_model.specs.MotionLaws.{VectorsAreShort};

/// A component of a vector that is found lies in -291 to 291, in quarters of a luma sample.
pub fn motion_laws()
    ensures { VectorsAreShort }
{}
