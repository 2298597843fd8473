//! A line of text, built without allocation.
ghost use Rattle.std.specs.Prelude.{◌≡◌, ◌+◌, ◌*◌, ◌++◌, ◌≤◌, ◌<◌, length};
ghost use Rattle.ipmi_raw.specs.Words.{two_digits, number, bytes_after};

use crate::tool::Tool;
use arrayvec::ArrayVec;

/// A buffer for the longest text to or from a tool.
pub type Line = ArrayVec<u8, 96>;

/// Appends bytes that fit.
pub(crate) fn push(line: &mut Line, bytes: &[u8])
    requires { length line.old.items + length bytes.now ≤ 96 }
    ensures items { line.new.items ≡ line.old.items ++ bytes.now }
    ensures len { length line.new.items ≡ length line.old.items + length bytes.now }
{
    line.try_extend_from_slice(bytes).unwrap();
}

/// Appends a byte as two hex digits.
pub(crate) fn push_digits(line: &mut Line, tool: Tool, byte: u8)
    requires { length line.old.items + 2 ≤ 96 }
    ensures items { line.new.items ≡ line.old.items ++ two_digits tool byte }
    ensures len { length line.new.items ≡ length line.old.items + 2 }
{
    let digits = tool.digits();
    let high = digits[usize::from(byte / 16)];
    let low = digits[usize::from(byte % 16)];
    push(line, &[high, low]);
}

/// Appends a byte like `%x` in C: without a leading zero.
pub(crate) fn push_number(line: &mut Line, tool: Tool, byte: u8)
    requires { length line.old.items + 2 ≤ 96 }
    ensures items { line.new.items ≡ line.old.items ++ number tool byte }
    ensures len { length line.new.items ≤ length line.old.items + 2 }
{
    if byte < 16 {
        push(line, &[tool.digits()[usize::from(byte)]]);
    } else {
        push_digits(line, tool, byte);
    }
}

/// Appends bytes as two hex digits each, with the same text before each.
pub(crate) fn push_bytes(line: &mut Line, tool: Tool, before: &[u8], bytes: &[u8])
    requires { length line.old.items + (length before.now + 2) * length bytes.now ≤ 96 }
    ensures items { line.new.items ≡ line.old.items ++ bytes_after tool before.now bytes.now }
    ensures len { length line.new.items ≡ length line.old.items + (length before.now + 2) * length bytes.now }
{
    for byte in bytes {
        push(line, before);
        push_digits(line, tool, *byte);
    }
}
