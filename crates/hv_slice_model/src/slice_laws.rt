//! How a slice and its data end, which contexts the data asks for, and that units in which nothing
//! is chosen may be coded.

ghost use Rattle.hv_slice_model.specs.SliceLaws.{SliceDataEnds, SliceDataContextsAreValid, SlicesEnd, BlankUnitsAreValid};

/// The last bin of the slice data of at least one coding tree block, and no other of its bins, ends
/// the slice: in slices of both kinds, with any number of references.
pub fn slice_data_ends()
    ensures { SliceDataEnds }
{}

/// Each context coded bin of the slice data of coding tree units that may be coded there has a
/// context variable of its own table in slices of this kind (9.3.4.2).
pub fn slice_data_contexts_are_valid()
    ensures { SliceDataContextsAreValid }
{}

/// The payload of a picture's unit, with any header and any coding tree units, ends in a byte other
/// than 0 (7.4.2).
pub fn slices_end()
    ensures { SlicesEnd }
{}

/// Units in which nothing is chosen may be coded in any coding tree blocks, in slices of both
/// kinds: each block has one, and the last one, and no other, ends the slice.
pub fn blank_units_are_valid()
    ensures { BlankUnitsAreValid }
{}
