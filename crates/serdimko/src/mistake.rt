//! Messages as the parts of a line.
ghost use Rattle.std.specs.Prelude.{◌≡◌, IfOk};

use ipmi_command_line::Word;
use ipmi_output::Part::{self, Escaped, Text};
use std::alloc::{AllocError, Global};

/// The parts of a line.
pub(crate) type Line<'a> = Vec<Part<'a>>;

/// A line of these parts.
pub(crate) fn line<'a>(alloc: Global, parts: &[Part<'a>]) -> Result<Line<'a>, AllocError>
    ensures { IfOk result (λ line. line.items ≡ parts.entry.now) }
{
    parts.to_vec(alloc)
}

/// Whether the name was quoted: it has a space, a quote or a control character.
fn is_quoted(name: &str) -> bool {
    name.bytes().any(|byte| byte == b' ' || byte == b'\'' || byte.is_ascii_control())
}

/// What to say after a run for several names that lacks something: the words may be one name that was not quoted.
pub(crate) fn maybe_unquoted<'a>(
    alloc: Global,
    names: &'a [Word],
) -> Result<Option<Line<'a>>, AllocError> {
    if names.len() < 2 || names.iter().any(|name| is_quoted(name.as_str())) {
        return Ok(None);
    }
    let rule = "each word is a name: quote a name that has spaces";
    let mut parts = line(alloc, &[Text(rule)])?;
    if let [first, second] = names {
        let (first, second) = (Escaped(first.as_str()), Escaped(second.as_str()));
        for part in [Text(", as '"), first, Text(" "), second, Text("'")] {
            parts.push(part)?;
        }
    }
    Ok(Some(parts))
}
