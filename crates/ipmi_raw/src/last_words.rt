//! What a tool said last, for a message.
ghost use Rattle.std.specs.Prelude.{◌≡◌, IfOk, map, string_bytes, take};
ghost use Rattle.ipmi_raw.specs.LastWords.{lost_text, on_a_line, said_lines};

use std::alloc::{AllocError, Global};

/// The largest number of bytes and of lines of a tool's output in a message.
const MOST_TOLD: usize = 200;

const MOST_LINES: usize = 3;

/// The end mark that ipmitool prints after each reply.
const MARK: &str = ".";

/// The lines of a text that say something, without white space at their ends; at most three.
fn said_lines<'a>(alloc: Global, text: &'a str) -> Result<Vec<&'a str>, AllocError>
    ensures { IfOk result (λ lines. map (λ line. line.now) lines.items ≡ said_lines text.entry.now) }
{
    text.lines()
        .map(|line| line.trim())
        .filter(|line| !line.is_empty() && *line != MARK)
        .take(MOST_LINES)
        .collect(alloc)
}

/// The first part of a tool's output, which is told.
fn first_part(text: &[u8]) -> &[u8]
    ensures { result.now ≡ take MOST_TOLD text.now }
{
    &text[..MOST_TOLD.min(text.len())]
}

/// These lines on one; without any, that there are none.
fn on_a_line(alloc: Global, lines: &[&str]) -> Result<String, AllocError>
    ensures { IfOk result (λ line. string_bytes line ≡ on_a_line (map (λ line. line.now) lines.now)) }
{
    match lines {
        [] => String::from_str(alloc, "the tool said nothing"),
        [_, ..] => lines.join(alloc, "; "),
    }
}

/// The output of a tool as a message has it: the lines of its first 200 bytes that say something, at most three, on one line.
pub fn line_of_output(alloc: Global, text: &[u8]) -> Result<String, AllocError>
    ensures { IfOk result (λ line. string_bytes line ≡ lost_text text.now) }
{
    let text = String::from_utf8_lossy(alloc, first_part(text))?;
    let lines = said_lines(alloc, text.as_str())?;
    on_a_line(alloc, lines.as_slice())
}
