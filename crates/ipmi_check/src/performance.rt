//! Performance data, as plugins of monitoring systems print them.
ghost use Rattle.std.specs.Prelude.{◌≡◌, ◌++◌, codes, flat_map, OnOk, option_map};
ghost use Rattle.ipmi_text.specs.Appended.{Appends};
ghost use Rattle.ipmi_text.specs.Decimal.{IsDecimalOf};
ghost use Rattle.ipmi_text.specs.Texts.{AreTexts};
ghost use Rattle.ipmi_records.specs.Prelude.{printed_name};
ghost use Rattle.ipmi_json.specs.Sdr.{threshold_value};
ghost use Rattle.ipmi_check.specs.Name.{name_or_id};
ghost use Rattle.ipmi_check.specs.Performance.{after_bar, AreEnds, IsDataPart, IsDatum, IsDatumOf, IsDatumOfView, IsEnd, IsRange, label_byte, label_part, reported_value};

use crate::name::push_name;
use ipmi_json::{threshold_value, value_shown};
use ipmi_records::{FullSensor, KnownReading, SdrView, Threshold, has_thresholds, shown_of};
use ipmi_sensors::FoundSensor;
use ipmi_text::{Fixed, fixed_text};
use std::alloc::{AllocError, Global};

/// The capacity for most labels.
const LABEL_CAPACITY: usize = 32;

/// The capacity for the data of most machines.
const DATA_CAPACITY: usize = 2048;

/// What a check prints beside its verdict and the sensors in trouble.
#[derive(Clone, Copy, Debug, PartialEq, Eq)]
pub enum Detail {
    /// Nothing.
    Plain,
    /// Performance data, at the end of the first line.
    PerformanceData,
}

/// Appends a byte of a label.
fn push_label_byte(text: &mut Vec<u8>, byte: u8) -> Result<(), AllocError>
    ensures { OnOk result (text.new.items ≡ text.old.items ++ label_byte byte) }
{
    match byte {
        b'\'' => text.extend_from_slice(b"''"),
        b'=' | b'|' => text.extend_from_slice(b"/"),
        b'\n' => text.extend_from_slice(b" "),
        _ => text.extend_from_slice(&[byte]),
    }
}

/// Appends a label, without the quotes around it.
fn push_label(text: &mut Vec<u8>, label: &[u8]) -> Result<(), AllocError>
    ensures { OnOk result (text.new.items ≡ text.old.items ++ flat_map label_byte label.now) }
{
    for byte in label {
        push_label_byte(text, *byte)?;
    }
    Ok(())
}

/// Appends the label of a sensor in quotes, after a space and before its value.
fn push_label_part(
    alloc: Global,
    text: &mut Vec<u8>,
    id: u16,
    view: &SdrView<'_>,
) -> Result<(), AllocError>
    ensures { OnOk result (text.new.items ≡ text.old.items ++ label_part (name_or_id id (printed_name view.now))) }
{
    let mut label = String::with_capacity(alloc, LABEL_CAPACITY)?;
    push_name(alloc, &mut label, id, view)?;
    text.extend_from_slice(b" '")?;
    push_label(text, label.as_bytes())?;
    text.extend_from_slice(b"'=")
}

/// Appends the exact decimal of a value.
fn push_number(alloc: Global, text: &mut Vec<u8>, value: Fixed) -> Result<(), AllocError>
    ensures { OnOk result (Appends (IsDecimalOf value.0) text.old.items text.new.items) }
{
    let number = fixed_text(alloc, value)?;
    text.extend_from_slice(number.as_bytes())
}

/// Appends an end of a range, if there is one.
fn push_end(alloc: Global, text: &mut Vec<u8>, end: Option<Fixed>) -> Result<(), AllocError>
    ensures { OnOk result (Appends (IsEnd (option_map (λ end. end.0) end)) text.old.items text.new.items) }
{
    match end {
        Some(value) => push_number(alloc, text, value),
        None => Ok(()),
    }
}

/// Appends both ends of a range.
fn push_ends(
    alloc: Global,
    text: &mut Vec<u8>,
    low: Option<Fixed>,
    high: Option<Fixed>,
) -> Result<(), AllocError>
    ensures { OnOk result (Appends (AreEnds (option_map (λ end. end.0) low) (option_map (λ end. end.0) high))
        text.old.items text.new.items) }
{
    push_end(alloc, text, low)?;
    text.extend_from_slice(b":")?;
    push_end(alloc, text, high)
}

/// Appends a range, if it has an end.
fn push_range(
    alloc: Global,
    text: &mut Vec<u8>,
    low: Option<Fixed>,
    high: Option<Fixed>,
) -> Result<(), AllocError>
    ensures { OnOk result (Appends (IsRange (option_map (λ end. end.0) low) (option_map (λ end. end.0) high))
        text.old.items text.new.items) }
{
    match (low, high) {
        (None, None) => Ok(()),
        (Some(_), _) => push_ends(alloc, text, low, high),
        (None, Some(_)) => push_ends(alloc, text, low, high),
    }
}

/// Appends the range between two thresholds.
fn push_range_between(
    alloc: Global,
    text: &mut Vec<u8>,
    full: &FullSensor,
    low: Threshold,
    high: Threshold,
) -> Result<(), AllocError>
    ensures { OnOk result (Appends (IsRange (threshold_value low full.now) (threshold_value high full.now))
        text.old.items text.new.items) }
{
    let low = threshold_value(full, low);
    push_range(alloc, text, low, threshold_value(full, high))
}

/// Appends the data of a sensor with this value. `view` is that of the full record.
fn push_datum(
    alloc: Global,
    text: &mut Vec<u8>,
    id: u16,
    view: &SdrView<'_>,
    full: &FullSensor,
    value: Fixed,
) -> Result<(), AllocError>
    ensures { OnOk result (Appends (IsDatum (name_or_id id (printed_name view.now)) full.now value.0)
        text.old.items text.new.items) }
{
    push_label_part(alloc, text, id, view)?;
    push_number(alloc, text, value)?;
    text.extend_from_slice(b";")?;
    let (low, high) = (Threshold::LowerNonCritical, Threshold::UpperNonCritical);
    push_range_between(alloc, text, full, low, high)?;
    text.extend_from_slice(b";")?;
    let (low, high) = (Threshold::LowerCritical, Threshold::UpperCritical);
    push_range_between(alloc, text, full, low, high)?;
    Ok(())
}

/// The value that is reported of a sensor: that of a reading, if the sensor has thresholds.
fn reported_value(full: &FullSensor, reading: KnownReading) -> Option<Fixed>
    ensures { option_map (λ value. value.0) result ≡ reported_value full.now reading }
{
    let sensor = full.sensor();
    if has_thresholds(&sensor) {
        value_shown(full, shown_of(&sensor, reading))
    } else {
        None
    }
}

/// Appends the data of a record's sensor, if there are any.
fn push_datum_of_view(
    alloc: Global,
    text: &mut Vec<u8>,
    id: u16,
    view: &SdrView<'_>,
    reading: KnownReading,
) -> Result<(), AllocError>
    ensures { OnOk result (Appends (IsDatumOfView id view.now reading) text.old.items text.new.items) }
{
    match view {
        SdrView::Full(full) => match reported_value(full, reading) {
            Some(value) => push_datum(alloc, text, id, view, full, value),
            None => Ok(()),
        },
        _ => Ok(()),
    }
}

/// Appends the data of what was found, if there are any.
fn push_datum_of(alloc: Global, text: &mut Vec<u8>, found: &FoundSensor) -> Result<(), AllocError>
    ensures { OnOk result (Appends (IsDatumOf found.now) text.old.items text.new.items) }
{
    match found.view() {
        Ok(view) => {
            let reading = KnownReading::from(found.reading());
            push_datum_of_view(alloc, text, found.id(), &view, reading)
        }
        Err(_) => Ok(()),
    }
}

/// Appends the data of all that was found.
fn push_all(alloc: Global, text: &mut Vec<u8>, found: &[FoundSensor]) -> Result<(), AllocError>
    ensures { OnOk result (Appends (AreTexts IsDatumOf found.now) text.old.items text.new.items) }
{
    for sensor in found {
        push_datum_of(alloc, text, sensor)?;
    }
    Ok(())
}

/// Appends data after a bar, if there are any.
fn push_after_bar(text: &mut Vec<u8>, all: &[u8]) -> Result<(), AllocError>
    ensures { OnOk result (text.new.items ≡ text.old.items ++ after_bar all.now) }
{
    if all.is_empty() {
        return Ok(());
    }
    text.extend_from_slice(b" |")?;
    text.extend_from_slice(all)
}

/// Appends the end of the first line.
pub(crate) fn push_data(
    alloc: Global,
    text: &mut Vec<u8>,
    detail: Detail,
    found: &[FoundSensor],
) -> Result<(), AllocError>
    ensures { OnOk result (Appends (IsDataPart found.now detail) text.old.items text.new.items) }
{
    match detail {
        Detail::Plain => Ok(()),
        Detail::PerformanceData => {
            let mut all = Vec::with_capacity(alloc, DATA_CAPACITY)?;
            push_all(alloc, &mut all, found)?;
            push_after_bar(text, &all)
        }
    }
}
