//! Digits, bytes and words in hex, with a fixed number of digits.
ghost use Rattle.std.specs.Prelude.{◌≡◌, ◌/◌, ◌%◌, ◌<◌, ◌∷◌, [], Some, false};
ghost use Rattle.std.specs.Fmt.{digit_glyph};
ghost use Rattle.ipmi_text.specs.Hex.{byte_h, hex_byte, hex_word, upper_byte, word_h};

use crate::names::text_at;
use std::fmt;

/// The lower-case hex digits, indexed by value.
const HEX_DIGITS: [&str; 16] = [
    "0", "1", "2", "3", "4", "5", "6", "7", "8", "9", "a", "b", "c", "d", "e", "f",
];

/// The two lower-case hex digits of each byte.
const HEX_BYTES: [&str; 256] = [
    "00", "01", "02", "03", "04", "05", "06", "07", "08", "09", "0a", "0b", "0c", "0d", "0e", "0f",
    "10", "11", "12", "13", "14", "15", "16", "17", "18", "19", "1a", "1b", "1c", "1d", "1e", "1f",
    "20", "21", "22", "23", "24", "25", "26", "27", "28", "29", "2a", "2b", "2c", "2d", "2e", "2f",
    "30", "31", "32", "33", "34", "35", "36", "37", "38", "39", "3a", "3b", "3c", "3d", "3e", "3f",
    "40", "41", "42", "43", "44", "45", "46", "47", "48", "49", "4a", "4b", "4c", "4d", "4e", "4f",
    "50", "51", "52", "53", "54", "55", "56", "57", "58", "59", "5a", "5b", "5c", "5d", "5e", "5f",
    "60", "61", "62", "63", "64", "65", "66", "67", "68", "69", "6a", "6b", "6c", "6d", "6e", "6f",
    "70", "71", "72", "73", "74", "75", "76", "77", "78", "79", "7a", "7b", "7c", "7d", "7e", "7f",
    "80", "81", "82", "83", "84", "85", "86", "87", "88", "89", "8a", "8b", "8c", "8d", "8e", "8f",
    "90", "91", "92", "93", "94", "95", "96", "97", "98", "99", "9a", "9b", "9c", "9d", "9e", "9f",
    "a0", "a1", "a2", "a3", "a4", "a5", "a6", "a7", "a8", "a9", "aa", "ab", "ac", "ad", "ae", "af",
    "b0", "b1", "b2", "b3", "b4", "b5", "b6", "b7", "b8", "b9", "ba", "bb", "bc", "bd", "be", "bf",
    "c0", "c1", "c2", "c3", "c4", "c5", "c6", "c7", "c8", "c9", "ca", "cb", "cc", "cd", "ce", "cf",
    "d0", "d1", "d2", "d3", "d4", "d5", "d6", "d7", "d8", "d9", "da", "db", "dc", "dd", "de", "df",
    "e0", "e1", "e2", "e3", "e4", "e5", "e6", "e7", "e8", "e9", "ea", "eb", "ec", "ed", "ee", "ef",
    "f0", "f1", "f2", "f3", "f4", "f5", "f6", "f7", "f8", "f9", "fa", "fb", "fc", "fd", "fe", "ff",
];

/// The high and the low four bits of a byte.
pub(crate) fn nibbles(byte: u8) -> (u8, u8)
    ensures high { result.0 ≡ byte / 16 }
    ensures low { result.1 ≡ byte % 16 }
{
    (byte >> 4, byte & 0x0F)
}

/// The lower-case hex digit of a number below 16.
pub(crate) fn hex_digit(value: u8) -> &'static str
    requires { value < 16 }
    ensures { result.now ≡ digit_glyph false value ∷ [] }
{
    HEX_DIGITS[usize::from(value)]
}

/// The two lower-case hex digits of a byte.
fn hex_byte(byte: u8) -> &'static str
    ensures { result.now ≡ hex_byte byte }
{
    text_at(HEX_BYTES.as_slice(), usize::from(byte))
}

/// A number below 16, printed as one lower-case hex digit.
#[derive(Clone, Copy)]
pub(crate) struct HexDigit {
    pub(crate) value: u8,
    ghost below: { value < 16 },
}

impl fmt::Display for HexDigit {
    ghost output = { λ digit. Some (digit_glyph false digit.value ∷ []) };

    fn fmt<W: fmt::Write>(&self, f: &mut fmt::Formatter<W>) -> fmt::Result {
        f.write_str(hex_digit(self.value))
    }
}

/// A byte, printed as two lower-case hex digits.
#[derive(Clone, Copy, Debug)]
pub struct HexByte(pub u8);

impl fmt::Display for HexByte {
    ghost output = { λ byte. Some (hex_byte byte.0) };

    fn fmt<W: fmt::Write>(&self, f: &mut fmt::Formatter<W>) -> fmt::Result {
        f.write_str(hex_byte(self.0))
    }
}

/// A number of two bytes, printed as four lower-case hex digits.
#[derive(Clone, Copy, Debug)]
pub struct HexWord(pub u16);

impl fmt::Display for HexWord {
    ghost output = { λ word. Some (hex_word word.0) };

    fn fmt<W: fmt::Write>(&self, f: &mut fmt::Formatter<W>) -> fmt::Result {
        let [high, low] = self.0.to_be_bytes();
        let high = HexByte(high);
        let low = HexByte(low);
        write!(f, "{high}{low}")
    }
}

/// A byte, printed as two upper-case hex digits.
#[derive(Clone, Copy)]
struct UpperByte(u8);

impl fmt::Display for UpperByte {
    ghost output = { λ byte. Some (upper_byte byte.0) };

    #[tactic(auto, using(std::proofs::lemmas::Fmt::hex_byte))]
    fn fmt<W: fmt::Write>(&self, f: &mut fmt::Formatter<W>) -> fmt::Result {
        let byte = self.0;
        write!(f, "{byte:02X}")
    }
}

/// A byte, printed as the standard writes it: two upper-case hex digits and an `h`.
#[derive(Clone, Copy, Debug)]
pub struct ByteH(pub u8);

impl fmt::Display for ByteH {
    ghost output = { λ byte. Some (byte_h byte.0) };

    fn fmt<W: fmt::Write>(&self, f: &mut fmt::Formatter<W>) -> fmt::Result {
        let byte = UpperByte(self.0);
        write!(f, "{byte}h")
    }
}

/// A number of two bytes, printed as the standard writes it: four upper-case hex digits and an `h`.
#[derive(Clone, Copy, Debug)]
pub struct WordH(pub u16);

impl fmt::Display for WordH {
    ghost output = { λ word. Some (word_h word.0) };

    fn fmt<W: fmt::Write>(&self, f: &mut fmt::Formatter<W>) -> fmt::Result {
        let [high, low] = self.0.to_be_bytes();
        let high = UpperByte(high);
        let low = ByteH(low);
        write!(f, "{high}{low}")
    }
}
