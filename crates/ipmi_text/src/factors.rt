//! Converts a raw reading to a value by the factors of its sensor (IPMI v2.0, section 36.3).
ghost use Rattle.std.specs.Prelude.{◌≡◌, ◌<◌, ◌≤◌, ◌^◌, ◌↔◌, ◌≤ℤ◌, ◌*ℤ◌, ◌*◌, pos, IfSome, IsSome, IsTrue, option_map, unsigned_abs};
ghost use Rattle.ipmi_text.specs.ReadingValue.{HasRanges, IsTwosComplement, SensorFactors, raw_number, reading_value, ten_to};

use crate::decimal::Fixed;
use std::marker::Model;

/// The analog data format of an unsigned reading. The format is two bits of a full record's sensor units 1.
const UNSIGNED: u8 = 0;

/// The analog data format of a reading in 1's complement.
const ONES_COMPLEMENT: u8 = 1;

/// The analog data format of a sensor without an analog reading, the highest of the four.
pub const NO_ANALOG_READING: u8 = 3;

/// The linearization of a sensor whose formula is linear.
const LINEAR: u8 = 0;

/// The highest linearization, a number of 7 bits.
const LARGEST_LINEARIZATION: u8 = 0x7F;

/// How many of the 10-bit numbers of 2's complement are negative. M and B have 10 bits.
const FACTOR_HALF: u16 = 512;

/// How many of the 4-bit numbers of 2's complement are negative. Each exponent has 4 bits.
const EXPONENT_HALF: u16 = 8;

/// The powers of ten, indexed by exponent.
const POWERS_OF_TEN: [i128; 31] = [
    1,
    10,
    100,
    1000,
    10000,
    100000,
    1000000,
    10000000,
    100000000,
    1000000000,
    10000000000,
    100000000000,
    1000000000000,
    10000000000000,
    100000000000000,
    1000000000000000,
    10000000000000000,
    100000000000000000,
    1000000000000000000,
    10000000000000000000,
    100000000000000000000,
    1000000000000000000000,
    10000000000000000000000,
    100000000000000000000000,
    1000000000000000000000000,
    10000000000000000000000000,
    100000000000000000000000000,
    1000000000000000000000000000,
    10000000000000000000000000000,
    100000000000000000000000000000,
    1000000000000000000000000000000,
];

/// The factors by which a full sensor record turns a raw reading into a value (IPMI v2.0, section 36.3 and table
/// 43-1). In contracts they are a record of six numbers.
#[derive(Clone, Copy, Debug, PartialEq, Eq)]
pub struct Factors {
    format: u8,
    linear: u8,
    m: i16,
    b: i16,
    k1: i8,
    k2: i8,
}

impl Model for Factors {
    ghost Value = { SensorFactors };

    ghost view = { λ f. record { format = f.format; linear = f.linear; m = f.m; b = f.b; k1 = f.k1; k2 = f.k2 } };

    ghost invariant = { λ f. HasRanges (record { format = f.format; linear = f.linear; m = f.m; b = f.b; k1 = f.k1; k2 = f.k2 }) };

    ghost inverse = { λ f. record { format = f.format; linear = f.linear; m = f.m; b = f.b; k1 = f.k1; k2 = f.k2 } };
}

impl Factors {
    /// The factors of a sensor: the analog data format, the linearization, M, B, the exponent K1 of B and the
    /// exponent K2 of the result. None if one of them does not fit in its bits of the record.
    pub fn new(format: u8, linear: u8, m: i16, b: i16, k1: i8, k2: i8) -> Option<Factors>
        ensures some { IsSome result ↔ HasRanges (record
            { format = format; linear = linear; m = m; b = b; k1 = k1; k2 = k2 }) }
        ensures value { IfSome result (λ f. f ≡ record
            { format = format; linear = linear; m = m; b = b; k1 = k1; k2 = k2 }) }
    {
        if format <= NO_ANALOG_READING
            && linear <= LARGEST_LINEARIZATION
            && is_twos_complement(m, FACTOR_HALF)
            && is_twos_complement(b, FACTOR_HALF)
            && is_twos_complement(i16::from(k1), EXPONENT_HALF)
            && is_twos_complement(i16::from(k2), EXPONENT_HALF)
        {
            Some(Factors::of_fields(format, linear, m, b, k1, k2))
        } else {
            None
        }
    }

    /// The factors of a sensor. The parameters are those of `new`, and each must be in its range.
    pub fn of_fields(format: u8, linear: u8, m: i16, b: i16, k1: i8, k2: i8) -> Factors
        requires { HasRanges (record
            { format = format; linear = linear; m = m; b = b; k1 = k1; k2 = k2 }) }
        ensures { result ≡ record
            { format = format; linear = linear; m = m; b = b; k1 = k1; k2 = k2 } }
    {
        Factors {
            format,
            linear,
            m,
            b,
            k1,
            k2,
        }
    }
}

/// Whether a number is in the range of 2's complement: at least -`half` and below `half`.
fn is_twos_complement(number: i16, half: u16) -> bool
    ensures { IsTrue result ↔ IsTwosComplement half number }
{
    let half = i32::from(half);
    let number = i32::from(number);
    -half <= number && number < half
}

/// The number that a raw byte represents in an analog data format.
fn raw_number(format: u8, raw: u8) -> i32
    ensures value { result ≡ raw_number format raw }
    ensures size { unsigned_abs result ≤ 2 ^ 8 }
{
    // a byte whose highest bit is 0 is the same number in all formats
    if format == UNSIGNED || raw < 128 {
        i32::from(raw)
    } else if format == ONES_COMPLEMENT {
        i32::from(raw) - 255
    } else {
        i32::from(raw) - 256
    }
}

/// Ten to a power from 0 to 30.
fn ten_to(exponent: usize) -> i128
    requires { exponent < 31 }
    ensures { result ≡ pos (10 ^ exponent) }
{
    POWERS_OF_TEN[exponent]
}

/// A number times a power of ten.
fn scaled(number: i32, exponent: i32) -> i128
    requires number { unsigned_abs number ≤ 2 ^ 17 }
    requires low { pos 0 ≤ℤ exponent }
    requires high { exponent ≤ℤ pos 30 }
    ensures value { result ≡ number *ℤ ten_to exponent }
    ensures size { unsigned_abs result ≤ 2 ^ 17 * 10 ^ 30 }
{
    // most sensors have no offset
    if number == 0 {
        return 0;
    }
    number as i128 * ten_to(exponent as usize)
}

/// The value of a raw reading (IPMI v2.0, section 36.3): M x 10^(K2+16) + B 10^(K1+K2+16) units of 10^-16, where x is
/// the raw byte in its format. None if the sensor has no analog reading (format 3) or is not linear.
pub fn convert(f: &Factors, raw: u8) -> Option<Fixed>
    ensures { option_map (λ value. value.0) result ≡ reading_value f.now raw }
{
    if f.format == NO_ANALOG_READING || f.linear != LINEAR {
        return None;
    }
    let result_exponent = f.k2 as i32 + 16;
    let slope = scaled(f.m as i32 * raw_number(f.format, raw), result_exponent);
    let offset = scaled(f.b as i32, f.k1 as i32 + result_exponent);
    Some(Fixed(slope + offset))
}
