//! Numbers on a command line.
ghost use Rattle.std.specs.Prelude.{◌≡◌, ◌≤◌, ◌⊎◌, IfSome, Some};
ghost use Rattle.ipmi_command_line.specs.Number.{decimal_of, digits_of, hex_id_of, number_of, within};

use crate::command::LAST_ID;

/// Reads digits of this radix as a number from `low` to `high`.
pub(crate) fn digits(text: &str, radix: u32, low: u16, high: u16) -> Option<u16>
    requires { (radix ≡ 10) ⊎ (radix ≡ 16) }
    ensures value { result ≡ within low high (digits_of radix text.now) }
    ensures range { IfSome result (λ n. (low ≤ n) × (n ≤ high)) }
{
    if text.is_empty() || text.as_bytes()[0] == b'+' {
        return None;
    }
    let n = u16::from_str_radix(text, radix).ok()?;
    if low <= n && n <= high { Some(n) } else { None }
}

/// Reads a number from `low` to `high` in decimal.
pub(crate) fn decimal(text: &str, low: u16, high: u16) -> Option<u16>
    ensures value { result ≡ within low high (decimal_of text.now) }
    ensures range { IfSome result (λ n. (low ≤ n) × (n ≤ high)) }
{
    if text.len() > 1 && text.as_bytes()[0] == b'0' {
        return None;
    }
    digits(text, 10, low, high)
}

/// Reads a number from `low` to `high`, in decimal, or as `0x` and at most four hex digits.
pub(crate) fn number(text: &str, low: u16, high: u16) -> Option<u16>
    ensures value { result ≡ within low high (number_of text.now) }
    ensures range { IfSome result (λ n. (low ≤ n) × (n ≤ high)) }
{
    match text.strip_prefix("0x") {
        Some(hex) if hex.len() <= 4 => digits(hex, 16, low, high),
        Some(_) => None,
        None => decimal(text, low, high),
    }
}

/// The id of a record, from `low` on, in hex digits with or without `0x`, as listings print it.
pub(crate) fn hex_id(text: &str, low: u16) -> Option<u16>
    ensures value { result ≡ hex_id_of low text.now }
    ensures range { IfSome result (λ id. (low ≤ id) × (id ≤ 65534)) }
{
    let text = text.strip_prefix("0x").unwrap_or(text);
    if text.len() > 4 {
        return None;
    }
    digits(text, 16, low, LAST_ID)
}
