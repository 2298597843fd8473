//! The text of a row.
ghost use Rattle.std.specs.Prelude.{◌≡◌, ◌∷◌, ◌++◌, [], IfOk, OnOk, flat_map, map};
ghost use Rattle.std.specs.List.{list_any};
ghost use Rattle.ipmi_csv.specs.Cells.{csv_cell, csv_row, doubled, needs_quotes, next_cell, separator_byte};

use ipmi_command_line::Separator;
use std::alloc::{AllocError, Global};

/// The capacity for most rows.
const ROW_CAPACITY: usize = 512;

/// The byte of a separator.
fn separator_byte(separator: Separator) -> u8
    ensures { result ≡ separator_byte separator }
{
    match separator {
        Separator::Comma => b',',
        Separator::Semicolon => b';',
    }
}

/// Whether a cell with this byte needs quotes.
fn needs_quotes(separator: Separator, byte: u8) -> bool
    ensures { result ≡ needs_quotes separator byte }
{
    byte == separator_byte(separator) || byte == b'"' || byte == b'\r' || byte == b'\n'
}

/// Whether a text needs quotes.
fn has_special(separator: Separator, text: &[u8]) -> bool
    ensures { result ≡ list_any (needs_quotes separator) text.now }
{
    text.iter().any(|byte| needs_quotes(separator, *byte))
}

/// Appends a byte, a quote twice.
fn push_doubled(line: &mut Vec<u8>, byte: u8) -> Result<(), AllocError>
    ensures { OnOk result (line.new.items ≡ line.old.items ++ doubled byte) }
{
    if byte == b'"' {
        line.push(byte)?;
    }
    line.push(byte)?;
    Ok(())
}

/// Appends a text in quotes.
fn push_quoted(line: &mut Vec<u8>, text: &[u8]) -> Result<(), AllocError>
    ensures { OnOk result (line.new.items ≡ line.old.items ++ 34 ∷ (flat_map doubled text.now ++ 34 ∷ [])) }
{
    line.push(b'"')?;
    'bytes: for byte in text {
        push_doubled(line, *byte)?;
    }
    line.push(b'"')?;
    Ok(())
}

/// Appends a cell.
fn push_cell(line: &mut Vec<u8>, separator: Separator, text: &str) -> Result<(), AllocError>
    ensures { OnOk result (line.new.items ≡ line.old.items ++ csv_cell separator text.now) }
{
    let text = text.as_bytes();
    if has_special(separator, text) {
        push_quoted(line, text)
    } else {
        line.extend_from_slice(text)
    }
}

/// Appends a separator and a cell.
fn push_next(line: &mut Vec<u8>, separator: Separator, text: &str) -> Result<(), AllocError>
    ensures { OnOk result (line.new.items ≡ line.old.items ++ next_cell separator text.now) }
{
    line.push(separator_byte(separator))?;
    push_cell(line, separator, text)
}

/// The row of these texts.
pub(crate) fn csv_row(
    alloc: Global,
    separator: Separator,
    texts: &[&str],
) -> Result<Vec<u8>, AllocError>
    ensures { IfOk result (λ line. line.items ≡ csv_row separator (map (λ text. text.now) texts.now)) }
{
    let mut line = Vec::with_capacity(alloc, ROW_CAPACITY)?;
    if let Some((first, rest)) = texts.split_first() {
        push_cell(&mut line, separator, first)?;
        'texts: for text in rest {
            push_next(&mut line, separator, text)?;
        }
    }
    line.push(b'\n')?;
    Ok(line)
}
