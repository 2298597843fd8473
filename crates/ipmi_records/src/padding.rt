//! Columns of a fixed width.
ghost use Rattle.std.specs.Prelude.{◌≡◌, ◌-◌, ◌++◌, ◌≤◌, OnOk, drop, length, replicate, string_bytes};
ghost use Rattle.std.specs.Fmt.{char_count, is_char_start};

use std::alloc::AllocError;

/// Whether a byte of UTF-8 begins a character.
fn is_char_start(byte: u8) -> bool
    ensures { result ≡ is_char_start byte }
{
    byte < 0x80 || 0xc0 <= byte
}

/// The number of characters that begin in bytes of UTF-8.
#[tactic(auto, using(crate::proofs::PaddingLemmas::char_count_is))]
fn character_count(bytes: &[u8]) -> usize
    ensures { result ≡ char_count bytes.now }
{
    bytes.iter().filter(|byte| is_char_start(**byte)).count()
}

fn push_spaces(line: &mut String, count: usize) -> Result<(), AllocError>
    ensures { OnOk result
        (string_bytes line.new ≡ string_bytes line.old ++ replicate count 32) }
{
    for _ in 0..count {
        line.push(' ')?;
    }
    Ok(())
}

/// Pads the column that begins at byte `start` of the line with spaces to a width in characters. A longer column is
/// not cut.
pub fn pad(line: &mut String, start: usize, width: usize) -> Result<(), AllocError>
    requires { start ≤ length (string_bytes line.old) }
    ensures { OnOk result (string_bytes line.new ≡ string_bytes line.old ++ replicate
        (width - char_count (drop start (string_bytes line.old))) 32) }
{
    let count = character_count(&line.as_bytes()[start..]);
    push_spaces(line, width.saturating_sub(count))
}
