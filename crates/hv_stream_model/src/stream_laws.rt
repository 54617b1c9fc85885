//! The units of a byte stream.

ghost use Rattle.hv_stream_model.specs.StreamLaws.{StreamsHaveOneList, FoundUnitsMakeTheStream};

/// A byte stream (Annex B) has at most one list of units.
pub fn streams_have_one_list()
    ensures { StreamsHaveOneList }
{}

/// The units that are found in bytes are those of which the bytes are the stream.
pub fn found_units_make_the_stream()
    ensures { FoundUnitsMakeTheStream }
{}
