//! The attribute bytes, and numbers of 24 and 16 bits.
ghost use Rattle.std.specs.Prelude.{◌≡◌, ◌<◌, IsTrue};
ghost use Rattle.std.specs.Int.{from_bool};
ghost use Rattle.olr_spec.specs.Coordinates.{fits16};
ghost use Rattle.olr_spec.specs.Bytes.{bit, fits24, signed24, signed16, attribute1, attribute4};

/// The bit of attribute byte 4 that flags a positive offset.
pub(crate) const POSITIVE: u8 = 6;
/// The bit of attribute byte 4 that flags a negative offset.
pub(crate) const NEGATIVE: u8 = 5;

/// A number as three bytes, high byte first.
pub(crate) fn signed24(value: i32) -> [u8; 3]
    requires { IsTrue (fits24 value) }
    ensures { result ≡ signed24 value }
{
    let [_, high, middle, low] = value.to_be_bytes();
    [high, middle, low]
}

/// Attribute byte 1: the functional road class (FRC) in bits 5 to 3, the form of way (FOW) in bits 2 to 0.
pub(crate) fn attribute1(frc: u8, fow: u8) -> u8
    requires frc { frc < 8 }
    requires fow { fow < 8 }
    ensures { result ≡ attribute1 frc fow }
{
    (frc << 3) | fow
}

/// Attribute byte 4: the flags of the two offsets in bits 6 and 5, the bearing in bits 4 to 0.
pub(crate) fn attribute4(pos: Option<u8>, neg: Option<u8>, bearing: u8) -> u8
    requires bearing { bearing < 32 }
    ensures { result ≡ attribute4 pos neg bearing }
{
    let positive = if pos.is_some() { 1 << POSITIVE } else { 0 };
    let negative = if neg.is_some() { 1 << NEGATIVE } else { 0 };
    positive | negative | bearing
}

/// The number of three bytes, high byte first.
pub(crate) fn read_signed24(bytes: [u8; 3]) -> i32
    ensures encoded { signed24 result ≡ bytes }
    ensures fits { IsTrue (fits24 result) }
{
    let [high, middle, low] = bytes;
    let value = i32::from_be_bytes([0, high, middle, low]);
    if value < 1 << 23 {
        value
    } else {
        value - (1 << 24)
    }
}

/// The number of two bytes, high byte first.
pub(crate) fn read_signed16(bytes: [u8; 2]) -> i16
    ensures encoded { signed16 result ≡ bytes }
    ensures fits { IsTrue (fits16 result) }
{
    i16::from_be_bytes(bytes)
}

/// The FRC and the FOW of attribute byte 1.
pub(crate) fn read_attribute1(byte: u8) -> (u8, u8)
    requires { byte < 64 }
    ensures encoded { attribute1 result.0 result.1 ≡ byte }
    ensures frc { result.0 < 8 }
    ensures fow { result.1 < 8 }
{
    (byte >> 3, byte & 0b111)
}

/// Whether attribute byte 4 has this flag of an offset.
pub(crate) fn has_flag(byte: u8, flag: u8) -> bool
    requires { flag < 8 }
    ensures { from_bool result ≡ bit flag byte }
{
    (byte >> flag) & 1 == 1
}
