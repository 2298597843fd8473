//! Reads bytes from pairs of hex digits.
ghost use Rattle.std.specs.Prelude.{◌≡◌, ℕ, ◌*◌, length, Some, None, MatchBool, unwrap_or};
ghost use Rattle.std.specs.Result.{result_ok};
ghost use Rattle.hex.specs.Hex.{hex_digit_value, pair_value};
ghost use Rattle.ipmi_image.specs.Prelude.{bytes_in};

/// The entry of the table for a character that is not a hex digit: more than any byte.
const NO_DIGIT: u32 = 256;

/// The value of each character as a hex digit.
const VALUES: [u32; 256] = [
    256, 256, 256, 256, 256, 256, 256, 256, 256, 256, 256, 256, 256, 256, 256, 256, 256, 256, 256,
    256, 256, 256, 256, 256, 256, 256, 256, 256, 256, 256, 256, 256, 256, 256, 256, 256, 256, 256,
    256, 256, 256, 256, 256, 256, 256, 256, 256, 256, 0, 1, 2, 3, 4, 5, 6, 7, 8, 9, 256, 256, 256,
    256, 256, 256, 256, 10, 11, 12, 13, 14, 15, 256, 256, 256, 256, 256, 256, 256, 256, 256, 256,
    256, 256, 256, 256, 256, 256, 256, 256, 256, 256, 256, 256, 256, 256, 256, 256, 10, 11, 12, 13,
    14, 15, 256, 256, 256, 256, 256, 256, 256, 256, 256, 256, 256, 256, 256, 256, 256, 256, 256,
    256, 256, 256, 256, 256, 256, 256, 256, 256, 256, 256, 256, 256, 256, 256, 256, 256, 256, 256,
    256, 256, 256, 256, 256, 256, 256, 256, 256, 256, 256, 256, 256, 256, 256, 256, 256, 256, 256,
    256, 256, 256, 256, 256, 256, 256, 256, 256, 256, 256, 256, 256, 256, 256, 256, 256, 256, 256,
    256, 256, 256, 256, 256, 256, 256, 256, 256, 256, 256, 256, 256, 256, 256, 256, 256, 256, 256,
    256, 256, 256, 256, 256, 256, 256, 256, 256, 256, 256, 256, 256, 256, 256, 256, 256, 256, 256,
    256, 256, 256, 256, 256, 256, 256, 256, 256, 256, 256, 256, 256, 256, 256, 256, 256, 256, 256,
    256, 256, 256, 256, 256, 256, 256, 256, 256, 256, 256, 256, 256, 256, 256, 256, 256, 256, 256,
    256, 256, 256,
];

/// The value of a hex digit of either case.
fn value(digit: u8) -> u32
    ensures { result ≡ unwrap_or (hex_digit_value digit) 256 }
{
    VALUES[usize::from(digit)]
}

/// The byte in two hex digits.
fn pair(high: u8, low: u8) -> Option<u8>
    ensures { (place : ℕ) → result ≡ result_ok (pair_value high low place) }
{
    let pair = value(high) * 16 + value(low);
    // one branch for both
    if pair >= NO_DIGIT {
        return None;
    }
    Some(pair as u8)
}

/// Reads the bytes in pairs of hex digits. Returns whether all characters are hex digits.
pub(crate) fn read_pairs(digits: &[u8], bytes: &mut [u8]) -> bool
    requires { length digits.now ≡ 2 * length bytes.old }
    ensures { MatchBool result (bytes_in digits.now ≡ Some bytes.new) (bytes_in digits.now ≡ None) }
{
    'pairs: for place in 0..bytes.len() {
        let Some(byte) = pair(digits[2 * place], digits[2 * place + 1]) else {
            return false;
        };
        bytes[place] = byte;
    }
    true
}
