//! Lines of a text and fields of a line, over the borrowed bytes, and numbers in hex.
ghost use Rattle.std.specs.Prelude.{◌≡◌, ◌⊎◌, [], ◌∷◌, ◌++◌, ◌<◌, MatchOption, MatchResult, IfSome, Some, None, length};
ghost use Rattle.ipmi_image.specs.Prelude.{pieces, bytes_in, digits_fault, number_in};

use crate::cause::LineCause;
use crate::digits::read_pairs;
use crate::image_line::LineFault;
use memchr::memchr;

/// The bytes before and after the first separator.
// inlined for speed: it ends each line of an image
#[inline(always)]
pub(crate) fn cut(bytes: &[u8], separator: u8) -> Option<(&[u8], &[u8])>
    ensures cut { MatchOption result (pieces separator bytes.now ≡ bytes.now ∷ [])
        (λ parts. pieces separator bytes.now ≡ parts.0.now ∷ pieces separator parts.1.now) }
    ensures shorter { IfSome result (λ parts. length parts.1.now < length bytes.now) }
{
    let at = memchr(separator, bytes)?;
    Some((&bytes[..at], &bytes[at + 1..]))
}

/// The bytes before a separator at this place, and those after it.
pub(crate) fn cut_at(bytes: &[u8], separator: u8, at: usize) -> Option<(&[u8], &[u8])>
    ensures { IfSome result (λ parts. bytes.now ≡ parts.0.now ++ separator ∷ parts.1.now) }
{
    if *bytes.get(at)? != separator {
        return None;
    }
    Some((&bytes[..at], &bytes[at + 1..]))
}

/// The number that four hex digits are, the highest first.
pub(crate) fn read_u16(digits: &[u8]) -> Option<u16>
    requires { length digits.now ≡ 4 }
    ensures { result ≡ number_in 2 digits.now }
{
    let mut bytes = [0; 2];
    read_pairs(digits, &mut bytes).then_some(u16::from_be_bytes(bytes))
}

/// The number in two hex digits, the high digit first.
pub(crate) fn read_u8(digits: &[u8]) -> Option<u8>
    requires { length digits.now ≡ 2 }
    ensures { result ≡ number_in 1 digits.now }
{
    let mut bytes = [0];
    read_pairs(digits, &mut bytes).then_some(bytes[0])
}

/// The number in one hex digit.
pub(crate) fn read_digit(digit: &[u8]) -> Option<u8>
    requires { length digit.now ≡ 1 }
    ensures { result ≡ number_in 1 (48 ∷ digit.now) }
{
    read_u8(&[b'0', digit[0]])
}

/// The fault of a line with this HEX if one of its fields is not read as hex.
pub(crate) fn digits_fault(hex: &[u8]) -> LineFault
    ensures { result ≡ digits_fault hex.now }
{
    if hex.len() % 2 == 0 {
        LineFault::Hex(LineCause::NotHex)
    } else {
        LineFault::Hex(LineCause::OddDigits)
    }
}

/// Reads bytes from pairs of hex digits.
// inlined for speed: it reads most of an image
#[inline(always)]
pub(crate) fn read_bytes(bytes: &mut Vec<u8>, digits: &[u8]) -> Result<(), LineFault>
    ensures { MatchResult result (λ done. bytes_in digits.now ≡ Some bytes.new.items)
        (λ e. (e ≡ LineFault.Memory) ⊎ ((e ≡ digits_fault digits.now) × (bytes_in digits.now ≡ None))) }
{
    if digits.len() % 2 != 0 {
        return Err(digits_fault(digits));
    }
    bytes.resize(digits.len() / 2, 0)?;
    if !read_pairs(digits, bytes) {
        return Err(digits_fault(digits));
    }
    Ok(())
}
