//! The labels of a sensor, as the text format writes them.
ghost use Rattle.std.specs.Prelude.{◌≡◌, ◌↔◌, ◌++◌, codes, decimal, EachIndex, encode_utf8, flat_map, IsTrue, OnOk, slice_index, string_bytes};
ghost use Rattle.ipmi_metrics.specs.Labels.{escaped, escaped_byte, IsPlain, name_labels, place_labels, threshold_label, type_label, type_part};

use crate::measure::Measure;
use crate::numbers::push_whole;
use ipmi_records::{SdrView, Sensor, Threshold, push_name};
use ipmi_text::SensorType;
use std::alloc::{AllocError, Global};

/// Appends a character of a label's value.
fn push_escaped_character(text: &mut String, character: char) -> Result<(), AllocError>
    ensures { OnOk result (string_bytes text.new ≡ string_bytes text.old ++ flat_map escaped_byte (encode_utf8 character)) }
{
    match character {
        '\\' => text.push_str("\\\\"),
        '"' => text.push_str("\\\""),
        '\n' => text.push_str("\\n"),
        _ => text.push(character),
    }
}

/// Whether a byte stands for itself in a label's value.
fn is_plain(byte: u8) -> bool
    ensures { IsTrue result ↔ IsPlain byte }
{
    byte != b'\\' && byte != b'"' && byte != b'\n'
}

/// Whether all bytes of a label's value stand for themselves.
fn are_plain(value: &str) -> bool
    ensures { IsTrue result ↔ EachIndex value.now (λ k. IsPlain (slice_index value.now k)) }
{
    value.as_bytes().iter().all(|byte| is_plain(*byte))
}

/// Appends the value of a label.
#[tactic(auto, using(crate::proofs::EscapeLemmas::escaped_plain))]
fn push_escaped(text: &mut String, value: &str) -> Result<(), AllocError>
    ensures { OnOk result (string_bytes text.new ≡ string_bytes text.old ++ escaped value.now) }
{
    // most values are plain: append such a value in one call
    if are_plain(value) {
        return text.push_str(value);
    }
    for character in value.chars() {
        push_escaped_character(text, character)?;
    }
    Ok(())
}

/// Replaces labels with the id and the name of a record. `name` is used for the name.
#[tactic(auto, using(crate::proofs::LabelLemmas::names_made))]
pub(crate) fn set_labels(
    alloc: Global,
    labels: &mut String,
    name: &mut String,
    id: u16,
    view: &SdrView,
) -> Result<(), AllocError>
    ensures { OnOk result (string_bytes labels.new ≡ name_labels id view.now) }
{
    name.clear();
    push_name(alloc, name, view)?;
    labels.clear();
    labels.push_str("id=\"")?;
    push_whole(labels, u64::from(id))?;
    labels.push_str("\",name=\"")?;
    push_escaped(labels, name.as_str())?;
    labels.push('"')
}

/// Appends the label with the type of a sensor.
fn push_type(text: &mut String, sensor: &Sensor) -> Result<(), AllocError>
    ensures { OnOk result (string_bytes text.new ≡ string_bytes text.old ++ type_label sensor.now) }
{
    let kind = SensorType(sensor.sensor_type);
    write!(text, ",type=\"{kind}\"")
}

/// Appends the label with the type of a sensor for whose measure there is no family of its own.
pub(crate) fn push_type_part(
    text: &mut String,
    measure: Measure,
    sensor: &Sensor,
) -> Result<(), AllocError>
    ensures { OnOk result (string_bytes text.new ≡ string_bytes text.old ++ type_part measure sensor.now) }
{
    match measure {
        Measure::Other => push_type(text, sensor),
        _ => Ok(()),
    }
}

/// Appends a number after what comes before it.
fn push_after(text: &mut String, before: &str, number: u8) -> Result<(), AllocError>
    ensures { OnOk result (string_bytes text.new ≡ string_bytes text.old ++ (before.now ++ decimal number)) }
{
    text.push_str(before)?;
    push_whole(text, u64::from(number))
}

/// Appends the labels of what else a record says of its sensor.
pub(crate) fn push_place(text: &mut String, sensor: &Sensor) -> Result<(), AllocError>
    ensures { OnOk result (string_bytes text.new ≡ string_bytes text.old ++ place_labels sensor.now) }
{
    push_after(text, ",entity_id=\"", sensor.entity.id)?;
    push_after(text, "\",entity_instance=\"", sensor.entity.instance)?;
    push_after(text, "\",lun=\"", sensor.lun)?;
    push_after(text, "\",number=\"", sensor.number)?;
    text.push('"')?;
    push_type(text, sensor)
}

/// The label of a threshold, and the brace after it.
pub(crate) fn threshold_end(threshold: Threshold) -> &'static str
    ensures { result.now ≡ threshold_label threshold ++ codes "} " }
{
    match threshold {
        Threshold::UpperNonRecoverable => ",threshold=\"upper_non_recoverable\"} ",
        Threshold::UpperCritical => ",threshold=\"upper_critical\"} ",
        Threshold::UpperNonCritical => ",threshold=\"upper_non_critical\"} ",
        Threshold::LowerNonRecoverable => ",threshold=\"lower_non_recoverable\"} ",
        Threshold::LowerCritical => ",threshold=\"lower_critical\"} ",
        Threshold::LowerNonCritical => ",threshold=\"lower_non_critical\"} ",
    }
}
