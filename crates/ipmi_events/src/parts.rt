//! Parts of a text, joined by `, `.
ghost use Rattle.std.specs.Prelude.{◌≡◌, ◌++◌, OnOk, string_bytes};
ghost use Rattle.ipmi_events.specs.Parts.{comma};

use std::alloc::AllocError;

/// Appends `, ` if there are parts before.
pub(crate) fn push_comma(text: &mut String, before: bool) -> Result<(), AllocError>
    ensures { OnOk result (string_bytes text.new ≡ string_bytes text.old ++ comma before) }
{
    if before { text.push_str(", ") } else { Ok(()) }
}
