//! What the in-loop filters leave as it is.

ghost use Rattle.hv_deblock_model.specs.FlatPictures.{FlatPicturesAreKept, FlatPicturesAreShown};

/// Deblocking (8.7.2) changes nothing of a picture whose planes have one value each, as a grey one
/// has, at any quantiser and however its units are coded. Nor do both in-loop filters (8.7) where
/// sample adaptive offset is off.
pub fn flat_pictures_are_kept()
    ensures deblocked { FlatPicturesAreKept }
    ensures shown { FlatPicturesAreShown }
{}
