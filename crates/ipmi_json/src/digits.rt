//! Bytes in hex in a buffer of the caller, sixteen at a time.
ghost use Rattle.std.specs.Prelude.{◌≡◌, ◌*◌, ◌/◌, ◌%◌, ◌<◌, ◌++◌, length, map, slice_index};
ghost use Rattle.hex.specs.Hex.{encode_lower, lower_digits};
ghost use Rattle.ipmi_text.specs.FieldText.{binary_text};

use std::simd::prelude::*;

/// How many bytes are read at once.
const LANES: usize = 16;

/// The digits, indexed by value.
const DIGITS: [u8; LANES] = [
    b'0', b'1', b'2', b'3', b'4', b'5', b'6', b'7', b'8', b'9', b'a', b'b', b'c', b'd', b'e', b'f',
];

/// The first digit of each byte.
#[inline(always)]
fn first_digits(bytes: u8x16) -> u8x16
    ensures { result ≡ map (λ byte. slice_index lower_digits (byte / 16)) bytes }
{
    u8x16::from_array(DIGITS).swizzle_dyn(bytes >> u8x16::splat(4))
}

/// The second digit of each byte.
#[inline(always)]
fn second_digits(bytes: u8x16) -> u8x16
    ensures { result ≡ map (λ byte. slice_index lower_digits (byte % 16)) bytes }
{
    u8x16::from_array(DIGITS).swizzle_dyn(bytes & u8x16::splat(15))
}

/// Both digits of each byte.
#[inline(always)]
fn both_digits(bytes: u8x16) -> u8x32
    requires { length bytes ≡ 16 }
    ensures { result ≡ encode_lower bytes }
{
    first_digits(bytes).shuffle(
        second_digits(bytes),
        [
            0, 16, 1, 17, 2, 18, 3, 19, 4, 20, 5, 21, 6, 22, 7, 23, 8, 24, 9, 25, 10, 26, 11, 27,
            12, 28, 13, 29, 14, 30, 15, 31,
        ],
    )
}

/// Replaces `digits` with bytes in hex.
fn encode(bytes: &[u8], digits: &mut [u8])
    requires { length digits.old ≡ 2 * length bytes.now }
    ensures { digits.new ≡ encode_lower bytes.now }
{
    let mut at = 0;
    'lanes: while bytes.len() - at >= LANES {
        both_digits(u8x16::from_slice(&bytes[at..])).copy_to_slice(&mut digits[2 * at..]);
        at += LANES;
    }
    hex::encode_to_slice(&bytes[at..], &mut digits[2 * at..]).unwrap();
}

/// Bytes in hex, in this buffer.
pub(crate) fn hex_text<'a>(bytes: &[u8], digits: &'a mut [u8]) -> &'a str
    requires { length digits.old ≡ 2 * length bytes.now }
    ensures { result.now ≡ binary_text bytes.now }
{
    encode(bytes, digits);
    match simdutf8::basic::from_utf8(digits) {
        Ok(text) => text,
        Err(_) => unreachable!(),
    }
}
