//! The lines of a chassis, board and product area.
ghost use Rattle.std.specs.Prelude.{◌≡◌, ◌++◌, OnOk, codes, map, string_bytes};
ghost use Rattle.ipmi_text.specs.Appended.{Appends};
ghost use Rattle.ipmi_text.specs.FieldText.{fru_text_of};
ghost use Rattle.ipmi_text.specs.Lines.{labelled};
ghost use Rattle.ipmi_fru.specs.Prelude.{area_fault_name, area_name, labels_of, field_line, field_lines, language_of, IsLead, IsAreaText, IsTextFound};

use crate::area::{AreaFault, AreaKind, AreaView};
use crate::field::Field;
use ipmi_text::{chassis_text, fru_text, minutes_text};
use std::alloc::{AllocError, Global};

/// The labels of an area's lines.
#[derive(Clone, Copy)]
struct Labels {
    area: &'static str,
    fields: &'static [&'static str],
    extra: &'static str,
}

/// The labels of an area.
fn labels_of(kind: AreaKind) -> Labels
    ensures area { result.area.now ≡ area_name kind }
    ensures fields { map (λ label. label.now) result.fields.now ≡ labels_of kind }
    ensures extra { result.extra.now ≡ area_name kind ++ codes " Extra" }
{
    match kind {
        AreaKind::Chassis => Labels {
            area: "Chassis",
            fields: &["Chassis Part Number", "Chassis Serial"],
            extra: "Chassis Extra",
        },
        AreaKind::Board => Labels {
            area: "Board",
            fields: &[
                "Board Mfg",
                "Board Product",
                "Board Serial",
                "Board Part Number",
                "Board FRU ID",
            ],
            extra: "Board Extra",
        },
        AreaKind::Product => Labels {
            area: "Product",
            fields: &[
                "Product Manufacturer",
                "Product Name",
                "Product Part Number",
                "Product Version",
                "Product Serial",
                "Product Asset Tag",
                "Product FRU ID",
            ],
            extra: "Product Extra",
        },
    }
}

/// Appends a line of a label and a text.
pub(crate) fn push_line(text: &mut String, label: &str, value: &str) -> Result<(), AllocError>
    ensures { OnOk result (string_bytes text.new ≡ string_bytes text.old ++ labelled label.now
        value.now) }
{
    text.push_str(label)?;
    text.push_str(": ")?;
    text.push_str(value)?;
    text.push('\n')
}

/// Appends the line of a field. Appends nothing if the field has no text.
fn push_field(
    alloc: Global,
    text: &mut String,
    label: &str,
    language: u8,
    field: Field,
) -> Result<(), AllocError>
    ensures { OnOk result (string_bytes text.new ≡ string_bytes text.old ++ field_line label.now
        (fru_text_of field.entry.code language field.entry.bytes.now)) }
{
    let value = fru_text(alloc, field.code, language, field.bytes)?;
    if value.is_empty() {
        return Ok(());
    }
    push_line(text, label, &value)
}

/// Appends the lines of an area's fields.
fn push_fields(
    alloc: Global,
    text: &mut String,
    labels: &Labels,
    area: &AreaView,
) -> Result<(), AllocError>
    ensures { OnOk result (string_bytes text.new ≡ string_bytes text.old ++ field_lines
        (language_of area.now.kind area.now.bytes) (map (λ label. label.now) labels.now.fields.now)
        labels.now.extra.now area.now.fields) }
{
    let language = area.language();
    let mut left = labels.fields.iter();
    'fields: for field in area.fields() {
        let label = left.next().copied().unwrap_or(labels.extra);
        push_field(alloc, text, label, language, field)?;
    }
    Ok(())
}

/// Appends the line before the fields: the type of a chassis, the date of a board.
fn push_lead(alloc: Global, text: &mut String, area: &AreaView) -> Result<(), AllocError>
    ensures { OnOk result (Appends (IsLead area.now.kind area.now.bytes) (string_bytes text.old)
        (string_bytes text.new)) }
{
    match area.kind() {
        AreaKind::Chassis => {
            let kind = chassis_text(alloc, area.chassis_type())?;
            push_line(text, "Chassis Type", &kind)
        }
        AreaKind::Board => {
            let date = minutes_text(alloc, area.minutes())?;
            push_line(text, "Board Mfg Date", &date)
        }
        AreaKind::Product => Ok(()),
    }
}

/// Appends the lines of an area without a fault.
fn push_area(alloc: Global, text: &mut String, area: &AreaView) -> Result<(), AllocError>
    ensures { OnOk result (Appends (IsAreaText area.now) (string_bytes text.old) (string_bytes text.new)) }
{
    push_lead(alloc, text, area)?;
    push_fields(alloc, text, &labels_of(area.kind()), area)
}

/// Appends the line of an area's fault.
fn push_area_fault(text: &mut String, kind: AreaKind, fault: AreaFault) -> Result<(), AllocError>
    ensures { OnOk result (string_bytes text.new ≡ string_bytes text.old ++ labelled
        (area_name kind ++ codes " fault") (area_fault_name fault)) }
{
    text.push_str(labels_of(kind).area)?;
    push_line(text, " fault", fault.name())
}

/// Appends what is printed for an area: its lines, its fault, or nothing if there is no such area.
pub(crate) fn push_found(
    alloc: Global,
    text: &mut String,
    kind: AreaKind,
    found: Option<Result<AreaView, AreaFault>>,
) -> Result<(), AllocError>
    ensures { OnOk result (Appends (IsTextFound kind found.entry) (string_bytes text.old)
        (string_bytes text.new)) }
{
    match found {
        None => Ok(()),
        Some(Ok(area)) => push_area(alloc, text, &area),
        Some(Err(fault)) => push_area_fault(text, kind, fault),
    }
}
