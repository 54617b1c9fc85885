//! What holds of the structure of every group.

ghost use Rattle.hv_decision.specs.Orders.{AreOrders};

/// Each picture of a group, of 1 to 64 pictures with 0 to 3 levels, has one place in coding order,
/// and is coded after the pictures to which it refers, which are two at most.
pub fn orders_are_sound()
    ensures { AreOrders }
{}
