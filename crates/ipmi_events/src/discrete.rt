//! The details in event data 2 and 3 of a discrete event (IPMI v2.0, table 29-6).
ghost use Rattle.std.specs.Prelude.{◌≡◌, ◌++◌, ◌∷◌, [], OnOk, IfOk, codes, decimal, map, option_map, string_bytes, unwrap_or};
ghost use Rattle.ipmi_text.specs.Hex.{hex_byte};
ghost use Rattle.ipmi_events.specs.Discrete.{byte_parts, data_label, discrete_details, extension_parts, raw_part, state_part, states_parts};
ghost use Rattle.ipmi_events.specs.Extensions.{code_parts, field_parts, fields_text, said_by, words_or_code};
ghost use Rattle.ipmi_events.specs.Parts.{has_parts, parts_text};

use crate::event_data::{Byte, EventData, Holding};
use crate::extensions::{Bits, Field, Form, fields_of};
use crate::parts::push_comma;
use crate::table::words_at;
use crate::words::{EventInWords, SENSOR_SPECIFIC};
use ipmi_text::HexByte;
use std::alloc::AllocError;

/// The event/reading type whose offsets are severities.
const SEVERITY: u8 = 0x07;

/// The offset of an unspecified state or severity.
const UNSPECIFIED: u8 = 0x0F;

/// The label of a byte of event data.
fn data_label(byte: Byte) -> &'static str
    ensures { result.now ≡ data_label byte }
{
    match byte {
        Byte::Two => "data 2 0x",
        Byte::Three => "data 3 0x",
    }
}

/// Appends a byte without words in a table.
pub(crate) fn push_raw_part(
    text: &mut String,
    before: bool,
    byte: Byte,
    value: u8,
) -> Result<(), AllocError>
    ensures { OnOk result (string_bytes text.new ≡ string_bytes text.old
        ++ parts_text before (raw_part byte value)) }
{
    let label = data_label(byte);
    let value = HexByte(value);
    push_comma(text, before)?;
    write!(text, "{label}{value}")
}

/// Appends a state after its label, if it is specified. Returns whether it is.
#[tactic(auto, unfolding(crate::specs::Discrete::state_part))]
fn push_state(
    text: &mut String,
    before: bool,
    label: &str,
    state: EventInWords,
) -> Result<bool, AllocError>
    ensures text { OnOk result (string_bytes text.new ≡ string_bytes text.old ++ parts_text before
        (state_part label.entry.now state.event_type state.sensor_type state.offset)) }
    ensures said { IfOk result (λ said. said ≡ has_parts
        (state_part label.entry.now state.event_type state.sensor_type state.offset)) }
{
    if state.offset == UNSPECIFIED {
        return Ok(false);
    }
    push_comma(text, before)?;
    write!(text, "{label}{state}")?;
    Ok(true)
}

/// Appends the previous state and the severity in event data 2. Returns whether there is one of them.
#[tactic(auto, using(crate::proofs::PartsLemmas::has_parts_append))]
fn push_states(text: &mut String, before: bool, event: &EventData) -> Result<bool, AllocError>
    ensures text { OnOk result (string_bytes text.new ≡ string_bytes text.old
        ++ parts_text before (states_parts event.now)) }
    ensures said { IfOk result (λ said. said ≡ has_parts (states_parts event.now)) }
{
    let previous = EventInWords {
        event_type: event.event_type,
        sensor_type: event.sensor_type,
        offset: Bits::From3To0.of(event.second),
    };
    let severity = EventInWords {
        event_type: SEVERITY,
        sensor_type: event.sensor_type,
        offset: Bits::From7To4.of(event.second),
    };
    let has_previous = push_state(text, before, "was ", previous)?;
    let has_severity = push_state(text, before | has_previous, "severity ", severity)?;
    Ok(has_previous | has_severity)
}

/// Appends a number after its label: its words if there are any, otherwise the number in decimal.
fn push_decimal(
    text: &mut String,
    before: bool,
    label: &str,
    words: Option<&str>,
    value: u8,
) -> Result<(), AllocError>
    ensures { OnOk result (string_bytes text.new ≡ string_bytes text.old ++ parts_text before
        ((label.entry.now ++ unwrap_or (option_map (λ s. s.now) words.entry) (decimal value)) ∷ [])) }
{
    push_comma(text, before)?;
    match words {
        Some(words) => write!(text, "{label}{words}"),
        None => write!(text, "{label}{value}"),
    }
}

/// Appends a byte in hex after its label.
fn push_hex(text: &mut String, before: bool, label: &str, value: u8) -> Result<(), AllocError>
    ensures { OnOk result (string_bytes text.new ≡ string_bytes text.old ++ parts_text before
        ((label.now ++ (codes "0x" ++ hex_byte value)) ∷ [])) }
{
    let value = HexByte(value);
    push_comma(text, before)?;
    write!(text, "{label}0x{value}")
}

/// Appends a code without words in hex after its label. Appends nothing if the label is empty. Returns whether
/// anything was appended.
fn push_code(text: &mut String, before: bool, label: &str, value: u8) -> Result<bool, AllocError>
    ensures text { OnOk result (string_bytes text.new ≡ string_bytes text.old
        ++ parts_text before (code_parts label.now value)) }
    ensures said { IfOk result (λ said. said ≡ has_parts (code_parts label.now value)) }
{
    if label.is_empty() {
        return Ok(false);
    }
    push_hex(text, before, label, value)?;
    Ok(true)
}

/// Appends the words of a field's code after its label, if there are any, otherwise the code as `push_code` does.
/// Returns whether anything was appended.
fn push_words(
    text: &mut String,
    before: bool,
    field: &Field,
    words: Option<&str>,
    value: u8,
) -> Result<bool, AllocError>
    ensures text { OnOk result (string_bytes text.new ≡ string_bytes text.old
        ++ parts_text before (words_or_code (said_by field.now) value (option_map (λ s. s.now) words.entry))) }
    ensures said { IfOk result (λ said. said
        ≡ has_parts (words_or_code (said_by field.now) value (option_map (λ s. s.now) words.entry))) }
{
    let Some(words) = words else {
        return push_code(text, before, field.code_label, value);
    };
    let label = field.label;
    push_comma(text, before)?;
    write!(text, "{label}{words}")?;
    Ok(true)
}

/// Appends the text of a field of a byte, if the event has that field. Returns whether anything was appended.
#[tactic(auto, unfolding(crate::specs::Extensions::field_parts))]
fn push_field(
    text: &mut String,
    before: bool,
    field: &Field,
    event: &EventData,
    byte: u8,
) -> Result<bool, AllocError>
    ensures text { OnOk result (string_bytes text.new ≡ string_bytes text.old
        ++ parts_text before (field_parts (said_by field.now) event.now byte)) }
    ensures said { IfOk result
        (λ said. said ≡ has_parts (field_parts (said_by field.now) event.now byte)) }
{
    if !field.is_of(event) {
        return Ok(false);
    }
    let label = field.label;
    let value = field.value_in(byte);
    match field.form {
        Form::Words => push_words(text, before, field, words_at(field.words, value), value),
        Form::Flag => push_words(text, before, field, (value != 0).then_some(""), value),
        Form::Decimal => {
            push_decimal(text, before, label, words_at(field.words, value), value)?;
            Ok(true)
        }
        Form::Hex => {
            push_hex(text, before, label, value)?;
            Ok(true)
        }
    }
}

/// Appends the texts of several fields of a byte. Returns whether anything was appended.
#[tactic(auto, unfolding(crate::specs::Extensions::fields_text))]
fn push_fields(
    text: &mut String,
    before: bool,
    fields: &[Field],
    event: &EventData,
    value: u8,
) -> Result<bool, AllocError>
    ensures text { OnOk result (string_bytes text.new ≡ string_bytes text.old
        ++ parts_text before (fields_text (map said_by fields.now) event.now value)) }
    ensures said { IfOk result
        (λ said. said ≡ has_parts (fields_text (map said_by fields.now) event.now value)) }
{
    let mut said = false;
    for field in fields {
        let more = push_field(text, before | said, field, event, value)?;
        said |= more;
    }
    Ok(said)
}

/// Appends the text of a byte with an extension code.
fn push_extension(
    text: &mut String,
    before: bool,
    byte: Byte,
    event: &EventData,
    value: u8,
) -> Result<(), AllocError>
    ensures { OnOk result (string_bytes text.new ≡ string_bytes text.old
        ++ parts_text before (extension_parts byte event.now value)) }
{
    let said = event.event_type == SENSOR_SPECIFIC
        && push_fields(text, before, fields_of(byte), event, value)?;
    if said {
        return Ok(());
    }
    push_raw_part(text, before, byte, value)
}

/// Appends the text of event data 2 or 3. Returns whether anything was appended.
#[tactic(auto, using(crate::proofs::PartsLemmas::has_parts_or_raw))]
fn push_byte(
    text: &mut String,
    before: bool,
    byte: Byte,
    holds: Holding,
    event: &EventData,
    value: u8,
) -> Result<bool, AllocError>
    ensures text { OnOk result (string_bytes text.new ≡ string_bytes text.old
        ++ parts_text before (byte_parts byte holds event.now value)) }
    ensures said { IfOk result
        (λ said. said ≡ has_parts (byte_parts byte holds event.now value)) }
{
    match holds {
        Holding::Nothing => Ok(false),
        Holding::Value => match byte {
            Byte::Two => push_states(text, before, event),
            Byte::Three => Ok(false),
        },
        Holding::Oem => {
            push_raw_part(text, before, byte, value)?;
            Ok(true)
        }
        Holding::Extension => {
            push_extension(text, before, byte, event, value)?;
            Ok(true)
        }
    }
}

/// Appends the details in event data 2 and 3 of a discrete event.
pub(crate) fn push_discrete_details(text: &mut String, event: &EventData) -> Result<(), AllocError>
    ensures { OnOk result
        (string_bytes text.new ≡ string_bytes text.old ++ discrete_details event.now) }
{
    let said = push_byte(
        text,
        false,
        Byte::Two,
        event.second_holds,
        event,
        event.second,
    )?;
    push_byte(
        text,
        said,
        Byte::Three,
        event.third_holds,
        event,
        event.third,
    )?;
    Ok(())
}
