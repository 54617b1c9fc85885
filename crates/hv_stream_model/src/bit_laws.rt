//! Laws of bits and the bytes that they make.

ghost use Rattle.hv_stream_model.specs.BitLaws.{BytesAppend, BitsComeBack, BytesComeBack, BitsComeBackFilled};

/// Bytes are made of whole bytes of bits and of what comes behind them, each by itself.
pub fn bytes_append()
    ensures { BytesAppend }
{}

/// The bits of the bytes that whole bytes of bits make are these bits.
pub fn bits_come_back()
    ensures { BitsComeBack }
{}

/// The bytes that the bits of bytes make are these bytes.
pub fn bytes_come_back()
    ensures { BytesComeBack }
{}

/// The bits of the bytes that any bits make are these bits, with zeros to the byte.
pub fn bits_come_back_filled()
    ensures { BitsComeBackFilled }
{}
