//! The pictures of list 0 are those that the structure of a group refers to.

ghost use Rattle.hv_model.specs.ReferenceLaws.{ListZeroHasTheActiveReferences, SetsGiveTheReferences};

/// List 0 (8.3.4) has as many pictures as the slice has active references (7.4.7.1): the used ones
/// of its reference picture set.
pub fn list_zero_has_the_active_references()
    ensures { ListZeroHasTheActiveReferences }
{}

/// Of each picture of a group but the first, of up to 64 pictures and 3 temporal levels, the used
/// members of the reference picture set (8.3.2) are its references, in their order.
pub fn sets_give_the_references()
    ensures { SetsGiveTheReferences }
{}
