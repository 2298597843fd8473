//! Reads the front of a text: hex digits, hex words, and expected text.
ghost use Rattle.std.specs.Prelude.{ℕ, List, ◌≡◌, ◌≢◌, ◌<◌, ◌++◌, MatchOption, slice_index};
ghost use Rattle.ipmi_raw.specs.Words.{break_before, digits, two_digits, word};

use crate::tool::Tool;

/// The text after `front`, if the text begins with it.
pub fn strip<'a>(front: &[u8], text: &'a [u8]) -> Option<&'a [u8]>
    ensures { MatchOption result
        ((rest : List ℕ) → text.now ≢ front.now ++ rest)
        (λ rest. text.now ≡ front.now ++ rest.now) }
{
    if text.len() < front.len() {
        return None;
    }
    let (start, rest) = text.split_at(front.len());
    if start == front { Some(rest) } else { None }
}

/// The value of a hex digit in the letter case of the tool.
pub(crate) fn digit_value(tool: Tool, digit: u8) -> Option<u8>
    ensures { MatchOption result
        ((value : ℕ) → value < 16 → slice_index (digits tool) value ≢ digit)
        (λ value. (value < 16) × (slice_index (digits tool) value ≡ digit)) }
{
    let digits = tool.digits();
    for value in 0..16 {
        if digits[usize::from(value)] == digit {
            return Some(value);
        }
    }
    None
}

/// The byte in the two digits at the front, and the text after them.
pub fn first_byte(tool: Tool, text: &[u8]) -> Option<(u8, &[u8])>
    ensures { MatchOption result
        ((byte : ℕ) (after : List ℕ) → byte < 256 → text.now ≢ two_digits tool byte ++ after)
        (λ found. (found.0 < 256) × (text.now ≡ two_digits tool found.0 ++ found.1.now)) }
{
    let [high, low, after @ ..] = text else {
        return None;
    };
    let high = digit_value(tool, *high)?;
    let low = digit_value(tool, *low)?;
    Some((high * 16 + low, after))
}

/// The byte of the word at the front, and the text after it.
pub(crate) fn first_word(tool: Tool, text: &[u8]) -> Option<(u8, &[u8])>
    ensures { MatchOption result
        ((byte : ℕ) (after : List ℕ) → byte < 256 → text.now ≢ word tool byte ++ after)
        (λ found. (found.0 < 256) × (text.now ≡ word tool found.0 ++ found.1.now)) }
{
    let digits = strip(b" ", text)?;
    first_byte(tool, digits)
}

/// The text after the line break (if any) before word number `i`.
fn after_break(tool: Tool, i: usize, text: &[u8]) -> Option<&[u8]>
    ensures { MatchOption result
        ((rest : List ℕ) → text.now ≢ break_before tool i ++ rest)
        (λ rest. text.now ≡ break_before tool i ++ rest.now) }
{
    match tool {
        Tool::Ipmitool if 0 < i && i % 16 == 0 => strip(b"\n", text),
        Tool::Ipmitool | Tool::FreeIpmi => Some(text),
    }
}

/// The byte of word number `i`, which may follow a line break, and the text after the word.
pub(crate) fn next_word(tool: Tool, i: usize, text: &[u8]) -> Option<(u8, &[u8])>
    ensures { MatchOption result
        ((byte : ℕ) (after : List ℕ) → byte < 256 → text.now ≢ break_before tool i ++ (word tool byte ++ after))
        (λ found. (found.0 < 256) × (text.now ≡ break_before tool i ++ (word tool found.0 ++ found.1.now))) }
{
    let rest = after_break(tool, i, text)?;
    first_word(tool, rest)
}
