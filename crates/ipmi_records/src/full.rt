//! The full sensor record (IPMI v2.0, section 43.1). Bytes are counted from 0.
ghost use Rattle.std.specs.Prelude.{◌≡◌, ◌+◌, ◌*◌, ◌/◌, ◌<◌, ◌≤◌, slice_index, length};
ghost use Rattle.ipmi_records.specs.Below.{IsTwosComplement};
ghost use Rattle.ipmi_records.specs.Prelude.{analog_format, exponent_k1, exponent_k2, factor_b, factor_m, factors_in, id_field_at, id_field_of, is_readable, linearization, sensor_in, signed, threshold_in, units_in};

use crate::at_least::AtLeast;
use crate::id_string::IdString;
use crate::sensor::{Sensor, UNITS_1, sensor_by, units_in};
use crate::threshold::Threshold;
use ipmi_text::{Factors, Units};

/// The type of a full sensor record.
pub const FULL_TYPE: u8 = 0x01;

/// The offset of the sensor type.
const SENSOR_TYPE: usize = 12;

/// The offset of the event/reading type.
const EVENT_TYPE: usize = 13;

/// The offset of the readable thresholds, one bit each.
const READABLE_THRESHOLDS: usize = 18;

/// The offset of the linearization, in bits 6:0.
const LINEARIZATION: usize = 23;

/// Bits 6:0 of that byte.
const LINEARIZATION_BITS: u8 = 0x7F;

/// The offset of M: bits 7:0 are here, bits 9:8 in the next byte.
const M: usize = 24;

/// The offset of B, laid out like M.
const B: usize = 26;

/// The offset of the exponents: K1 in bits 3:0, K2 in bits 7:4.
const EXPONENTS: usize = 29;

/// Bits 3:0 of that byte: the exponent of B.
const K1_BITS: u8 = 0x0F;

/// The offset of the ID string's type/length byte.
const ID_STRING: usize = 47;

/// The minimum length: up to and including the ID string's type/length byte.
pub(crate) const FULL_LEAST_LEN: usize = ID_STRING + 1;

/// The sign bit of a 10-bit number in 2's complement.
const SIGN_OF_TEN_BITS: u16 = 0x200;

/// The sign bit of a 4-bit number in 2's complement.
const SIGN_OF_FOUR_BITS: u16 = 0x08;

/// A full sensor record.
pub type FullSensor<'a> = AtLeast<'a, FULL_TYPE, FULL_LEAST_LEN>;

impl<'a> FullSensor<'a> {
    /// The sensor that the record describes.
    pub fn sensor(&self) -> Sensor
        ensures { result ≡ sensor_in self.now }
    {
        sensor_by(self.bytes[SENSOR_TYPE], self.bytes[EVENT_TYPE], self.bytes)
    }

    /// The units of its readings.
    pub fn units(&self) -> Units
        ensures { result ≡ units_in self.now }
    {
        units_in(self.bytes)
    }

    /// The analog data format: 0 is unsigned, 1 is 1's complement, 2 is 2's complement, 3 is no analog reading.
    pub fn analog_format(&self) -> u8
        ensures value { result ≡ analog_format self.now }
        ensures range { result ≤ 3 }
    {
        self.bytes[UNITS_1] >> 6
    }

    /// The linearization, 0 for a linear sensor.
    pub fn linearization(&self) -> u8
        ensures value { result ≡ linearization self.now }
        ensures range { result ≤ 127 }
    {
        self.bytes[LINEARIZATION] & LINEARIZATION_BITS
    }

    /// M, the slope of the formula that converts a raw reading to a value (section 36.3).
    pub fn m(&self) -> i16
        ensures value { result ≡ factor_m self.now }
        ensures range { IsTwosComplement 512 result }
    {
        signed(SIGN_OF_TEN_BITS, ten_bits(self.bytes, M))
    }

    /// B, the offset in the formula, scaled by ten to the power K1.
    pub fn b(&self) -> i16
        ensures value { result ≡ factor_b self.now }
        ensures range { IsTwosComplement 512 result }
    {
        signed(SIGN_OF_TEN_BITS, ten_bits(self.bytes, B))
    }

    /// The exponent of B.
    pub fn k1(&self) -> i8
        ensures value { result ≡ exponent_k1 self.now }
        ensures range { IsTwosComplement 8 result }
    {
        let bits = self.bytes[EXPONENTS] & K1_BITS;
        signed(SIGN_OF_FOUR_BITS, u16::from(bits)) as i8
    }

    /// The exponent of the result.
    pub fn k2(&self) -> i8
        ensures value { result ≡ exponent_k2 self.now }
        ensures range { IsTwosComplement 8 result }
    {
        let bits = self.bytes[EXPONENTS] >> 4;
        signed(SIGN_OF_FOUR_BITS, u16::from(bits)) as i8
    }

    /// The factors that convert a raw reading to a value.
    pub fn factors(&self) -> Factors
        ensures { result ≡ factors_in self.now }
    {
        Factors::of_fields(
            self.analog_format(),
            self.linearization(),
            self.m(),
            self.b(),
            self.k1(),
            self.k2(),
        )
    }

    /// Whether a threshold can be read.
    pub fn is_readable(&self, threshold: Threshold) -> bool
        ensures { result ≡ is_readable threshold self.now }
    {
        threshold.is_in(self.bytes[READABLE_THRESHOLDS])
    }

    /// The value of a threshold, as a raw reading.
    pub fn threshold(&self, threshold: Threshold) -> u8
        ensures { result ≡ threshold_in threshold self.now }
    {
        self.bytes[threshold.place()]
    }

    /// The ID string, at the record's end (section 43.15).
    pub fn id_string(&self) -> IdString<'a>
        ensures { id_field_of result ≡ id_field_at 48 self.now }
    {
        IdString::at(self.bytes, ID_STRING)
    }
}

/// The ten bits of a factor: the low eight are the byte at `at`, the high two are bits 7:6 of the next byte.
fn ten_bits(bytes: &[u8], at: usize) -> u16
    requires { at + 1 < length bytes.now }
    ensures value { result ≡ slice_index bytes.now at + 256 * (slice_index bytes.now (at + 1) / 64) }
    ensures below { result < 1024 }
{
    u16::from_be_bytes([bytes[at + 1] >> 6, bytes[at]])
}

/// The number that bits represent in 2's complement. `sign` is the highest bit.
fn signed(sign: u16, bits: u16) -> i16
    requires sign { sign ≤ 512 }
    requires bits { bits < 2 * sign }
    ensures value { result ≡ signed sign bits }
    ensures range { IsTwosComplement sign result }
{
    if bits < sign {
        bits as i16
    } else {
        bits as i16 - 2 * sign as i16
    }
}
