//! Sensors that share a record (IPMI v2.0, sections 43.2 and 43.3). Bytes are counted from 0.
ghost use Rattle.std.specs.Prelude.{◌≡◌, ◌+◌, ◌<◌, length};
ghost use Rattle.ipmi_records.specs.Prelude.{modifier_of, sharing_at};

/// Bits 3:0 of the first byte: the number of sensors that share the record.
const COUNT_BITS: u8 = 0x0F;

/// Bits 5:4 of the first byte, shifted down: the type of the modifier.
const MODIFIER_BITS: u8 = 0x03;

/// Bits 6:0 of the second byte: the modifier of the first sensor.
const OFFSET_BITS: u8 = 0x7F;

/// The form of the suffix that distinguishes the sensors that share a record.
#[derive(Clone, Copy, Debug, PartialEq, Eq)]
pub enum Modifier {
    /// 00b: a number.
    Numeric,
    /// 01b: letters.
    Alpha,
    /// 10b and 11b: reserved.
    Reserved,
}

/// How sensors share a record. Their sensor numbers are consecutive, starting with the one in the record.
#[derive(Clone, Copy, Debug, PartialEq, Eq)]
pub struct Sharing {
    /// The number of sensors that share the record, 4 bits.
    pub count: u8,
    /// The ID string instance modifier type.
    pub modifier: Modifier,
    /// The modifier of the first sensor, 7 bits. As letters, 0 is `A`, 25 is `Z` and 26 is `AA`.
    pub offset: u8,
}

/// The modifier type of two bits.
fn modifier_of(bits: u8) -> Modifier
    ensures { result ≡ modifier_of bits }
{
    match bits {
        0 => Modifier::Numeric,
        1 => Modifier::Alpha,
        _ => Modifier::Reserved,
    }
}

/// How sensors share a record, from the two bytes at `place`.
pub(crate) fn sharing_at(bytes: &[u8], place: usize) -> Sharing
    requires { place + 1 < length bytes.now }
    ensures { result ≡ sharing_at (place + 1) bytes.now }
{
    Sharing {
        count: bytes[place] & COUNT_BITS,
        modifier: modifier_of(bytes[place] >> 4 & MODIFIER_BITS),
        offset: bytes[place + 1] & OFFSET_BITS,
    }
}
