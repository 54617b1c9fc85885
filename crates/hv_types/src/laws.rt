//! What holds of settings without a fault, of padding, of cropping, of pictures in a row of bytes,
//! and of several calls of a source or a sink. No function here does anything: each contract names
//! laws, which are thereby proved.

ghost use Rattle.hv_types.specs.SettingsLaws.{FaultlessIsValid, LeastBytes, MostBytes};
ghost use Rattle.hv_types.specs.VideoLaws.{TabulateCounts, CropUndoesPad, PadGivesPicture, CountsRaw, FrontIsPicture, PicturesReadBack, BytesAreSplit, KeepBytes};
ghost use Rattle.hv_types.specs.OutsideLaws.{ReadsAreJoined, WritesAreJoined};

/// Settings without a fault are in all ranges, and a picture of theirs has 96 bytes at least and
/// 13,369,344 at most.
pub fn settings_laws()
    ensures valid { FaultlessIsValid }
    ensures least { LeastBytes }
    ensures most { MostBytes }
{}

/// What is shown of a padded picture is the picture.
pub fn crop_undoes_pad()
    ensures { CropUndoesPad }
{}

/// A padded picture is whole, and each side is the next multiple of 8.
pub fn pad_gives_picture()
    ensures { PadGivesPicture }
{}

/// A whole picture has a byte for each sample.
pub fn raw_counts_bytes()
    ensures { CountsRaw }
{}

/// At the front of enough bytes stands a whole picture, and its bytes are those.
pub fn front_is_picture()
    ensures { FrontIsPicture }
{}

/// The bytes of whole pictures read as those pictures. Bytes after them, fewer than a picture has,
/// are the rest.
pub fn pictures_read_back()
    ensures { PicturesReadBack }
{}

/// Any bytes are those of their whole pictures and then the rest, which is too short for a picture.
pub fn bytes_are_split()
    ensures { BytesAreSplit }
{}

/// Pictures of bytes keep samples of 0 to 255 when they are read, padded, cropped or written.
pub fn bytes_are_kept()
    ensures { KeepBytes }
{}

/// A table of n values has n of them.
pub fn tabulate_counts<A>()
    ensures { TabulateCounts A }
{}

/// Reads one behind the other fill a buffer as one read does.
pub fn reads_are_joined()
    ensures { ReadsAreJoined }
{}

/// Writes of the parts of a list of bytes, one behind the other, write the list.
pub fn writes_are_joined()
    ensures { WritesAreJoined }
{}
