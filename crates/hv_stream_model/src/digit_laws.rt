//! Laws of binary digits, and of the numbers, bits and bytes that they make.

ghost use Rattle.hv_stream_model.specs.DigitLaws.{CountOfDigits, DigitsAreSplit, HighPartIsUnseen, RemainderIsEnough, PairsAreJoined, DigitsOfZero, HighestDigit, NumberOfDigits, NumberIsSplit, NumberIsBounded, DigitsOfNumber, BitsAreJoined, EightABytes, BytesGiveBits, BitsBehindBytes, BitsOfNumber, FrontOfBits, RestOfBits, JoinedBytes, BytesOfNumber};

/// The binary digits of a number: how many there are, and which parts of the number they show.
pub fn digits_laws()
    ensures count { CountOfDigits }
    ensures split { DigitsAreSplit }
    ensures low { HighPartIsUnseen }
    ensures remainder { RemainderIsEnough }
    ensures pair { PairsAreJoined }
    ensures zero { DigitsOfZero }
    ensures highest { HighestDigit }
{}

/// The number that binary digits make, and the digits of that number.
pub fn numbers_laws()
    ensures digits { NumberOfDigits }
    ensures split { NumberIsSplit }
    ensures bound { NumberIsBounded }
    ensures back { DigitsOfNumber }
{}

/// The bits of bytes, eight for each.
pub fn bits_of_bytes_laws()
    ensures joined { BitsAreJoined }
    ensures count { EightABytes }
    ensures bits { BytesGiveBits }
    ensures behind { BitsBehindBytes }
    ensures number { BitsOfNumber }
{}

/// Parts of bits are bits, and bytes joined are bytes.
pub fn parts_laws()
    ensures front { FrontOfBits }
    ensures rest { RestOfBits }
    ensures joined { JoinedBytes }
    ensures number { BytesOfNumber }
{}
