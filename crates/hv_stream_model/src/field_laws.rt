//! What is written as the bits of fields is read back exactly.

ghost use Rattle.hv_stream_model.specs.FieldLaws.{FieldsAreReadBack, AlignedBitsAreWhole, AlignedBytesEnd, CodesOfLength, ZerosAreCounted, PaddingOfLength, LastIsLast, JoinedFieldsHaveJoinedBits};

/// What a script reads where fields answer it that their descriptors can code (7.2, 9.2), it reads
/// from the bits of these fields, and the bits that follow are left.
pub fn fields_are_read_back<A>()
    ensures { FieldsAreReadBack A }
{}

/// Bits with their alignment (7.3.2.11, 7.3.2.12) are a whole number of bytes.
pub fn aligned_bits_are_whole()
    ensures { AlignedBitsAreWhole }
{}

/// The bytes of bits with their alignment end in a byte other than 0, as a payload has to (7.4.2).
pub fn aligned_bytes_end()
    ensures { AlignedBytesEnd }
{}

/// Exp-Golomb codes (9.2) and the padding to a byte (7.3.2.11), by their lengths; the last byte.
pub fn codes_laws()
    ensures exp_golomb { CodesOfLength }
    ensures zeros { ZerosAreCounted }
    ensures padding { PaddingOfLength }
    ensures last { LastIsLast }
{}

/// The bits of fields and of those behind them are the bits of the first and then of the others.
pub fn joined_fields_have_joined_bits()
    ensures { JoinedFieldsHaveJoinedBits }
{}
