//! The texts of type/length fields.
ghost use Rattle.std.specs.Prelude.{◌≡◌, ◌<◌, ◌≤◌, ◌/◌, ◌%◌, ◌++◌, ◌↔◌, IfOk, IfSome, IsAscii, IsTrue, OnOk, length, slice_index, string_bytes, take};
ghost use Rattle.ipmi_text.specs.FieldText.{bcd_plus_character, bcd_plus_text, bytes_used, fru_text_of, is_english, latin1_character, latin1_text, sdr_text_of, six_bit_character, six_bit_text, type_code_of};

use crate::hex_digits::nibbles;
use std::alloc::{AllocError, Global};

/// The characters of BCD plus, indexed by nibble.
const BCD_PLUS_CHARACTERS: &[u8; 16] = b"0123456789 -.:,_";

/// How the data of a field or an ID string is decoded: bits 7:6 of its type/length byte.
#[derive(Clone, Copy)]
enum TypeCode {
    /// Binary data of a field, and Unicode of an ID string.
    Binary,
    /// BCD plus.
    BcdPlus,
    /// 6-bit ASCII.
    SixBit,
    /// 8-bit ASCII and Latin-1: of an ID string, and of a field whose language is English.
    Latin1,
}

impl TypeCode {
    /// The type code of two bits.
    fn of(bits: u8) -> TypeCode
        requires { bits < 4 }
        ensures { result ≡ type_code_of bits }
    {
        match bits {
            0 => TypeCode::Binary,
            1 => TypeCode::BcdPlus,
            2 => TypeCode::SixBit,
            _ => TypeCode::Latin1,
        }
    }
}

/// The language code of English.
pub const ENGLISH: u8 = 0;

/// The second code of the standard for English.
const ALSO_ENGLISH: u8 = 25;

/// Bits 4:0 of an ID string's type/length byte: how many characters it has.
const COUNT_BITS: u8 = 0x1F;

/// The most bytes that the ID string of a sensor data record has.
const ID_BYTES: usize = 16;

/// The character of a nibble in BCD plus.
fn bcd_plus_character(nibble: u8) -> u8
    requires { nibble < 16 }
    ensures value { result ≡ bcd_plus_character nibble }
    ensures ascii { result < 128 }
{
    BCD_PLUS_CHARACTERS[usize::from(nibble)]
}

/// BCD plus: each byte is two characters, the high nibble first.
fn bcd_plus_text(alloc: Global, bytes: &[u8]) -> Result<String, AllocError>
    ensures { IfOk result (λ text. string_bytes text ≡ bcd_plus_text bytes.now) }
{
    let mut text = String::new(alloc);
    for byte in bytes {
        let (high, low) = nibbles(*byte);
        text.push(bcd_plus_character(high) as char)?;
        text.push(bcd_plus_character(low) as char)?;
    }
    Ok(text)
}

/// The byte at a place, or 0 past the end.
fn byte_at(bytes: &[u8], at: usize) -> u32
    ensures value { result ≡ slice_index bytes.now at }
    ensures range { result < 256 }
{
    u32::from(bytes.get(at).copied().unwrap_or(0))
}

/// Character `i` of 6-bit ASCII. Four characters fill three bytes, low bits first.
fn six_bit_character(bytes: &[u8], i: usize) -> u8
    ensures value { result ≡ six_bit_character bytes.now i }
    ensures ascii { result < 128 }
{
    let at = i / 4 * 3;
    let low = byte_at(bytes, at);
    let number = low + (byte_at(bytes, at + 1) << 8) + (byte_at(bytes, at + 2) << 16);
    ((number >> (i % 4 * 6)) % 64 + 0x20) as u8
}

/// 6-bit ASCII: six bits per character.
#[tactic(auto, using(crate::proofs::FieldLemmas::six_bit_count))]
fn six_bit_text(alloc: Global, bytes: &[u8]) -> Result<String, AllocError>
    ensures { IfOk result (λ text. string_bytes text ≡ six_bit_text bytes.now) }
{
    let mut text = String::new(alloc);
    for i in 0..bytes.len() + bytes.len() / 3 {
        text.push(six_bit_character(bytes, i) as char)?;
    }
    Ok(text)
}

/// The character that a byte of 8-bit ASCII and Latin-1 prints as.
fn latin1_character(byte: u8) -> u8
    ensures { result ≡ latin1_character byte }
{
    match byte {
        0x20..=0x7e | 0xa0..=0xff => byte,
        _ => b'.',
    }
}

/// Whether a byte is printable ASCII: printed as itself, in one byte of UTF-8.
fn is_plain(byte: u8) -> bool
    ensures { IsTrue result ↔ (0x20 ≤ byte) × (byte ≤ 0x7e) }
{
    0x20 <= byte && byte <= 0x7e
}

/// The bytes as text, if each of them is printed as itself.
#[tactic(auto, using(crate::proofs::FieldLemmas::all_plain))]
fn plain_text(bytes: &[u8]) -> Option<&str>
    ensures { IfSome result (λ text. text.now ≡ latin1_text bytes.now) }
{
    if !bytes.iter().all(|byte| is_plain(*byte)) {
        return None;
    }
    str::from_utf8(bytes).ok()
}

/// Appends the text of 8-bit ASCII and Latin-1, up to the first 00h.
fn push_latin1_text(text: &mut String, bytes: &[u8]) -> Result<(), AllocError>
    ensures { OnOk result
        (string_bytes text.new ≡ string_bytes text.old ++ latin1_text bytes.now) }
{
    // most texts are plain: append such a text in one call
    if let Some(plain) = plain_text(bytes) {
        return text.push_str(plain);
    }
    for byte in bytes {
        if *byte == 0 {
            return Ok(());
        }
        text.push(latin1_character(*byte) as char)?;
    }
    Ok(())
}

/// 8-bit ASCII and Latin-1, up to the first 00h.
fn latin1_text(alloc: Global, bytes: &[u8]) -> Result<String, AllocError>
    ensures { IfOk result (λ text. string_bytes text ≡ latin1_text bytes.now) }
{
    let mut text = String::with_capacity(alloc, bytes.len())?;
    push_latin1_text(&mut text, bytes)?;
    Ok(text)
}

/// Whether a language code is one of the two codes of the standard for English.
fn is_english(language: u8) -> bool
    ensures { result ≡ is_english language }
{
    language == ENGLISH || language == ALSO_ENGLISH
}

/// The text of a field of a FRU area (Platform Management FRU Information Storage Definition v1.0, section 13).
/// `code` is bits 7:6 of its type/length byte and selects the encoding: hex (0), BCD plus (1), 6-bit ASCII (2); 3 is
/// 8-bit ASCII and Latin-1 if the area's language is English, otherwise hex.
pub fn fru_text(alloc: Global, code: u8, language: u8, bytes: &[u8]) -> Result<String, AllocError>
    requires { code < 4 }
    ensures { IfOk result (λ text. string_bytes text ≡ fru_text_of code language bytes.now) }
{
    match TypeCode::of(code) {
        TypeCode::BcdPlus => bcd_plus_text(alloc, bytes),
        TypeCode::SixBit => six_bit_text(alloc, bytes),
        TypeCode::Latin1 if is_english(language) => latin1_text(alloc, bytes),
        TypeCode::Binary | TypeCode::Latin1 => hex::encode(alloc, bytes),
    }
}

/// The type code in the type/length byte of an ID string.
fn type_code(type_length: u8) -> TypeCode
    ensures { result ≡ type_code_of (type_length / 64) }
{
    TypeCode::of(type_length >> 6)
}

/// The number of characters in the type/length byte of an ID string.
fn character_count(type_length: u8) -> usize
    ensures { result ≡ type_length % 32 }
{
    usize::from(type_length & COUNT_BITS)
}

/// The bytes of an ID string: as many as its type/length byte says, but at most 16, and at most all of `rest`.
fn bytes_used(type_length: u8, rest: &[u8]) -> &[u8]
    ensures { result.now ≡ bytes_used type_length rest.now }
{
    let count = character_count(type_length);
    let wanted = match type_code(type_length) {
        TypeCode::BcdPlus => (count + 1) / 2,
        TypeCode::SixBit => (6 * count + 7) / 8,
        TypeCode::Binary | TypeCode::Latin1 => count,
    };
    &rest[..wanted.min(ID_BYTES).min(rest.len())]
}

/// The first characters of an ASCII text.
fn first_characters(mut text: String, count: usize) -> String
    requires { IsAscii (string_bytes text) }
    ensures { string_bytes result ≡ take count (string_bytes text) }
{
    text.truncate(count);
    text
}

/// The text of a sensor data record's ID string (IPMI v2.0, section 43.15), from its type/length byte and all bytes
/// after it: hex for Unicode (type 0), BCD plus (1), 6-bit ASCII (2), and 8-bit ASCII and Latin-1 (3). Bits 4:0 of
/// the type/length byte count the characters (for type 0, the bytes). Only those in the first 16 bytes of `rest` are
/// printed.
#[tactic(auto, using(crate::proofs::FieldLemmas::IsAscii_bcd_plus, crate::proofs::FieldLemmas::IsAscii_six_bit))]
pub fn sdr_text(alloc: Global, tl: u8, rest: &[u8]) -> Result<String, AllocError>
    ensures { IfOk result (λ text. string_bytes text ≡ sdr_text_of tl rest.now) }
{
    let bytes = bytes_used(tl, rest);
    let count = character_count(tl);
    match type_code(tl) {
        TypeCode::Binary => hex::encode(alloc, bytes),
        TypeCode::BcdPlus => Ok(first_characters(bcd_plus_text(alloc, bytes)?, count)),
        TypeCode::SixBit => Ok(first_characters(six_bit_text(alloc, bytes)?, count)),
        TypeCode::Latin1 => latin1_text(alloc, bytes),
    }
}

/// Appends the text of a sensor data record's ID string, as `sdr_text` gives it.
pub fn push_sdr_text(
    alloc: Global,
    text: &mut String,
    type_length: u8,
    rest: &[u8],
) -> Result<(), AllocError>
    ensures { OnOk result
        (string_bytes text.new ≡ string_bytes text.old ++ sdr_text_of type_length
        rest.now) }
{
    if let TypeCode::Latin1 = type_code(type_length) {
        return push_latin1_text(text, bytes_used(type_length, rest));
    }
    let part = sdr_text(alloc, type_length, rest)?;
    text.push_str(part.as_str())
}
