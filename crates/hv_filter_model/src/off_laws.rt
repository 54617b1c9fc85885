//! What sample adaptive offset leaves as it is.

ghost use Rattle.hv_filter_model.specs.OffLaws.{OffChangesNothing};

/// Sample adaptive offset (8.7.3) changes nothing where it is off in every coding tree block.
pub fn off_changes_nothing()
    ensures { OffChangesNothing }
{}
