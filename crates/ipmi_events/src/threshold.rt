//! The details in event data 2 and 3 of a threshold event (IPMI v2.0, table 29-6).
ghost use Rattle.std.specs.Prelude.{◌≡◌, ◌++◌, ◌||◌, OnOk, IfOk, option_map, string_bytes};
ghost use Rattle.ipmi_text.specs.Appended.{Appends};
ghost use Rattle.ipmi_events.specs.Parts.{has_parts, parts_text};
ghost use Rattle.ipmi_events.specs.Threshold.{IsComparedOf, IsLimit, IsReading, IsThresholdDetails, code_parts, codes_parts, comparison, has_value, order_of, printed_number, sign};

use crate::discrete::push_raw_part;
use crate::event_data::{Byte, EventData, Holding};
use ipmi_records::{FullSensor, push_raw, push_raw_byte, push_value};
use ipmi_text::convert;
use std::alloc::AllocError;
use std::cmp::Ordering;

/// Whether a byte contains a reading or a threshold.
fn has_value(holds: Holding) -> bool
    ensures { result ≡ has_value holds }
{
    match holds {
        Holding::Value => true,
        Holding::Nothing | Holding::Oem | Holding::Extension => false,
    }
}

/// Appends the value of a raw byte with its units, converted by the sensor's record if there is one.
fn push_reading(text: &mut String, full: Option<&FullSensor>, raw: u8) -> Result<(), AllocError>
    ensures { OnOk result (Appends (IsReading (option_map (λ f. f.now) full.entry) raw)
        (string_bytes text.old) (string_bytes text.new)) }
{
    match full {
        Some(full) => push_raw(text, full, raw),
        None => push_raw_byte(text, raw),
    }
}

/// Appends the value of a raw byte without units, converted by the sensor's record if there is one.
fn push_limit(text: &mut String, full: Option<&FullSensor>, raw: u8) -> Result<(), AllocError>
    ensures { OnOk result (Appends (IsLimit (option_map (λ f. f.now) full.entry) raw)
        (string_bytes text.old) (string_bytes text.new)) }
{
    match full {
        Some(full) => push_value(text, full, raw),
        None => push_raw_byte(text, raw),
    }
}

/// The number that is printed of a raw byte: its value by the sensor's record, in units of 10^-16, or the byte itself
/// if there is no value.
fn printed_number(full: Option<&FullSensor>, raw: u8) -> i128
    ensures { result ≡ printed_number (option_map (λ f. f.now) full.entry) raw }
{
    let Some(full) = full else {
        return i128::from(raw);
    };
    match convert(&full.factors(), raw) {
        Some(value) => value.0,
        None => i128::from(raw),
    }
}

/// How the reading of an event compares to the threshold, as both are printed.
fn order_of(event: &EventData, full: Option<&FullSensor>) -> Ordering
    ensures { result ≡ order_of (option_map (λ f. f.now) full.entry) event.now }
{
    let reading = printed_number(full, event.second);
    let limit = printed_number(full, event.third);
    reading.cmp(&limit)
}

/// The sign of an order, or `, ` if the event says the opposite.
fn sign(order: Ordering, is_going_high: bool) -> &'static str
    ensures { result.now ≡ sign order is_going_high }
{
    match (order, is_going_high) {
        (Ordering::Less, false) => " < ",
        (Ordering::Equal, _) => " = ",
        (Ordering::Greater, true) => " > ",
        (Ordering::Less, true) | (Ordering::Greater, false) => ", ",
    }
}

/// The text between the reading and the threshold of an event. In a deassertion event the reading has crossed back,
/// so no sign would be correct. An odd offset means that the reading went high.
fn comparison(event: &EventData, full: Option<&FullSensor>) -> &'static str
    ensures { result.now ≡ comparison (option_map (λ f. f.now) full.entry) event.now }
{
    if event.is_deasserted {
        ", "
    } else {
        sign(order_of(event, full), event.offset % 2 == 1)
    }
}

/// Appends the reading and the threshold of an event, if it has them.
fn push_compared(
    text: &mut String,
    event: &EventData,
    full: Option<&FullSensor>,
) -> Result<(), AllocError>
    ensures { OnOk result (Appends (IsComparedOf (option_map (λ f. f.now) full.entry) event.now)
        (string_bytes text.old) (string_bytes text.new)) }
{
    if has_value(event.second_holds) {
        text.push_str("Reading ")?;
        push_reading(text, full, event.second)?;
        if !has_value(event.third_holds) {
            return Ok(());
        }
        text.push_str(comparison(event, full))?;
        text.push_str("threshold ")?;
        return push_limit(text, full, event.third);
    }
    if has_value(event.third_holds) {
        text.push_str("Threshold ")?;
        return push_reading(text, full, event.third);
    }
    Ok(())
}

/// Appends a byte that contains a code. No table has words for it. Returns whether it contains one.
fn push_code(
    text: &mut String,
    before: bool,
    byte: Byte,
    holds: Holding,
    value: u8,
) -> Result<bool, AllocError>
    ensures text { OnOk result (string_bytes text.new ≡ string_bytes text.old
        ++ parts_text before (code_parts byte holds value)) }
    ensures said { IfOk result (λ said. said ≡ has_parts (code_parts byte holds value)) }
{
    match holds {
        Holding::Nothing | Holding::Value => Ok(false),
        Holding::Oem | Holding::Extension => {
            push_raw_part(text, before, byte, value)?;
            Ok(true)
        }
    }
}

/// Appends each of the two bytes that contains a code.
fn push_codes(text: &mut String, before: bool, event: &EventData) -> Result<(), AllocError>
    ensures { OnOk result (string_bytes text.new ≡ string_bytes text.old
        ++ parts_text before (codes_parts event.now)) }
{
    let said = push_code(text, before, Byte::Two, event.second_holds, event.second)?;
    push_code(
        text,
        before | said,
        Byte::Three,
        event.third_holds,
        event.third,
    )?;
    Ok(())
}

/// Appends the details in event data 2 and 3 of a threshold event.
pub(crate) fn push_threshold_details(
    text: &mut String,
    event: &EventData,
    full: Option<&FullSensor>,
) -> Result<(), AllocError>
    ensures { OnOk result
        (Appends (IsThresholdDetails event.now (option_map (λ f. f.now) full.entry))
        (string_bytes text.old) (string_bytes text.new)) }
{
    push_compared(text, event, full)?;
    let before = has_value(event.second_holds) | has_value(event.third_holds);
    push_codes(text, before, event)
}
