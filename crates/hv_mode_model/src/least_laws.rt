//! What is chosen costs least of all that is tried.

ghost use Rattle.hv_mode_model.specs.LeastLaws.{FirstLeastIsChosen};

/// The tree that is chosen for a node is one of those that are tried there. It costs at most what
/// each of them costs, and less than each that is tried before it.
pub fn first_least_is_chosen()
    ensures { FirstLeastIsChosen }
{}
