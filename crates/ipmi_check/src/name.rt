//! How a check names a sensor.
ghost use Rattle.std.specs.Prelude.{◌≡◌, ◌++◌, OnOk, string_bytes};
ghost use Rattle.ipmi_records.specs.Prelude.{printed_name};
ghost use Rattle.ipmi_check.specs.Name.{name_or_id};

use ipmi_records::SdrView;
use ipmi_text::HexWord;
use std::alloc::{AllocError, Global};

/// Appends the name of a sensor, or the id of its record if it has none.
pub(crate) fn push_name(
    alloc: Global,
    text: &mut String,
    id: u16,
    view: &SdrView<'_>,
) -> Result<(), AllocError>
    ensures { OnOk result (string_bytes text.new ≡ string_bytes text.old ++ name_or_id id (printed_name view.now)) }
{
    match view.name(alloc)? {
        Some(name) if !name.as_bytes().is_empty() => text.push_str(name.as_str()),
        _ => {
            let id = HexWord(id);
            write!(text, "record {id}")
        }
    }
}
