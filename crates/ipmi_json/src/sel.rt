//! What is told of the event log's entries, and their objects.
ghost use Rattle.std.specs.Prelude.{◌≡◌, ◌∷◌, [], IfOk, OnOk, codes, option_map};
ghost use Rattle.json.specs.Json.{string};
ghost use Rattle.ipmi_text.specs.FieldText.{binary_text};
ghost use Rattle.ipmi_records.specs.Prelude.{entry_bytes, event_data, event_type, generator_id, is_deasserted, revision, sensor_type, words_of_event};
ghost use Rattle.ipmi_events.specs.EventLines.{full_of};
ghost use Rattle.ipmi_events.specs.Words.{event_offset, event_words};
ghost use Rattle.ipmi_json.specs.Members.{Tells, TellsSome};
ghost use Rattle.ipmi_json.specs.Object.{integer};
ghost use Rattle.ipmi_json.specs.Sel.{AreDetailsMembers, AreEntryMembers, AreEventMembers, AreTimedMembers, AreTold, IsSelLine, data_members, direction_word, kind_word, meaning_members, name_by, sensor_record, source_members};

use crate::digits::hex_text;
use crate::members::{Members, put_printed};
use crate::object::{Label, Value, begin, finish, text_or_null, text_unless_empty};
use crate::record::{tell_head, tell_severity};
use crate::time::time_text;
use ipmi_events::{
    Sensors, event_reason, event_severity, event_words, push_details, push_sensor_name, record_for,
};
use ipmi_records::SelView::{Event, OemPlain, OemTimed, Other};
use ipmi_records::{EventEntry, FullSensor, OemTimestampedEntry, SdrView, SelView};
use ipmi_text::{EventWords, SensorType, event_name};
use std::alloc::{AllocError, Global};

/// The capacity for most texts.
const TEXT_CAPACITY: usize = 64;

/// The hex digits of an entry.
const ENTRY_DIGITS: usize = 32;

/// Bits 3:0 of an event's first data byte: its offset.
const OFFSET_BITS: u8 = 0x0F;

/// The word for the kind of an entry.
fn kind_word(entry: &SelView) -> &'static str
    ensures { result.now ≡ kind_word entry.now }
{
    match entry {
        Event(_) => "event",
        OemTimed(_) => "oem_timestamped",
        OemPlain(_) => "oem",
        Other(_) => "unknown",
    }
}

/// Tells bytes without a meaning in the standard.
fn tell_data<M: Members>(alloc: Global, out: &mut M, bytes: &[u8]) -> Result<(), AllocError>
    ensures { OnOk result (Tells M.told (data_members bytes.now) out.old out.new) }
{
    let content = hex::encode(alloc, bytes)?;
    out.put("oem_data", Value::Text(content.as_str()))
}

/// The record of an event's sensor, from a table of sensors.
fn sensor_record<'a>(event: &EventEntry, sensors: Option<&'a Sensors>) -> Option<SdrView<'a>>
    ensures { result ≡ sensor_record event.now (option_map (λ s. s.now) sensors.entry) }
{
    match sensors {
        Some(sensors) => record_for(event, sensors),
        None => None,
    }
}

/// The full record, if the record is one.
fn full_of<'a, 'b>(view: Option<&'b SdrView<'a>>) -> Option<&'b FullSensor<'a>>
    ensures { option_map (λ f. f.now) result ≡ full_of (option_map (λ v. v.now) view.entry) }
{
    match view {
        Some(SdrView::Full(full)) => Some(full),
        _ => None,
    }
}

/// Tells the name of an event's sensor, by the record of it. `text` is used for it.
fn tell_name<M: Members>(
    alloc: Global,
    out: &mut M,
    text: &mut String,
    event: &EventEntry,
    view: Option<&SdrView>,
) -> Result<(), AllocError>
    ensures { OnOk result (Tells M.told
        ((codes "sensor_name", name_by event.now (option_map (λ v. v.now) view.entry)) ∷ [])
        out.old out.new) }
{
    let Some(view) = view else {
        return out.put("sensor_name", Value::Null);
    };
    text.clear();
    push_sensor_name(alloc, text, view, event.sensor_number())?;
    out.put("sensor_name", text_unless_empty(text.as_str()))
}

/// Tells what generated an event, and the revision of its format.
fn tell_generator<M: Members>(out: &mut M, event: &EventEntry) -> Result<(), AllocError>
    ensures { OnOk result (Tells M.told ((codes "generator_id", integer (generator_id event.now))
        ∷ (codes "event_revision", integer (revision event.now)) ∷ []) out.old out.new) }
{
    let generator = u64::from(event.generator_id());
    let revision = u64::from(event.revision());
    out.put("generator_id", Value::Integer(generator))?;
    out.put("event_revision", Value::Integer(revision))
}

/// Tells what an event is from. `text` is used for its texts.
fn tell_source<M: Members>(
    alloc: Global,
    out: &mut M,
    text: &mut String,
    event: &EventEntry,
    view: Option<&SdrView>,
) -> Result<(), AllocError>
    ensures { OnOk result (Tells M.told (source_members (option_map (λ v. v.now) view.entry) event.now)
        out.old out.new) }
{
    let sensor_type = u64::from(event.sensor_type());
    let number = u64::from(event.sensor_number());
    tell_generator(out, event)?;
    out.put("sensor_type", Value::Integer(sensor_type))?;
    put_printed(
        out,
        text,
        "sensor_type_name",
        SensorType(event.sensor_type()),
    )?;
    out.put("sensor_number", Value::Integer(number))?;
    tell_name(alloc, out, text, event, view)
}

/// Tells the specified words of an event. `text` is used for them where they have codes.
fn tell_specified<M: Members>(
    out: &mut M,
    text: &mut String,
    event: &EventEntry,
) -> Result<(), AllocError>
    ensures { OnOk result (Tells M.told ((codes "event", string (words_of_event event.now)) ∷ [])
        out.old out.new) }
{
    let data1 = event.data_bytes()[0];
    let event = event.event_type();
    match event_name(event, data1 & OFFSET_BITS) {
        Some(words) => out.put("event", Value::Text(words)),
        None => put_printed(out, text, "event", EventWords { event, data1 }),
    }
}

/// The words of an event from the standard's tables, if there are any.
fn words_of(event: &EventEntry) -> Option<&'static str>
    ensures { option_map (λ s. s.now) result ≡
        event_words (event_type event.now) (sensor_type event.now) (event_offset event.now) }
{
    event_words(
        event.event_type(),
        event.sensor_type(),
        event.data_bytes()[0] & OFFSET_BITS,
    )
}

/// The word for the direction of an event.
fn direction_word(event: &EventEntry) -> &'static str
    ensures { result.now ≡ direction_word (is_deasserted event.now) }
{
    if event.is_deasserted() {
        "deasserted"
    } else {
        "asserted"
    }
}

/// The event data of an event in hex, from all its bytes in hex.
fn data_of<'a>(event: &EventEntry, raw: &'a str) -> &'a str
    requires { raw.now ≡ binary_text event.now }
    ensures { result.now ≡ binary_text (event_data event.now) }
{
    let before = 2 * (event.bytes().len() - event.data_bytes().len());
    &raw[before..]
}

/// Tells what an event says. `text` is used for its specified words, `raw` has its bytes in hex.
fn tell_meaning<M: Members>(
    out: &mut M,
    text: &mut String,
    event: &EventEntry,
    raw: &str,
) -> Result<(), AllocError>
    requires { raw.now ≡ binary_text event.now }
    ensures { OnOk result (Tells M.told (meaning_members event.now) out.old out.new) }
{
    let event_type = u64::from(event.event_type());
    out.put("event_type", Value::Integer(event_type))?;
    tell_specified(out, text, event)?;
    out.put("event_words", text_or_null(words_of(event)))?;
    out.put("direction", Value::Text(direction_word(event)))?;
    tell_severity(out, event_severity(event), event_reason(event))?;
    out.put("event_data", Value::Text(data_of(event, raw)))
}

/// Tells the details of an event, by the record of its sensor. `text` is used for them.
fn tell_details<M: Members>(
    out: &mut M,
    text: &mut String,
    event: &EventEntry,
    view: Option<&SdrView>,
) -> Result<(), AllocError>
    ensures { OnOk result
        (TellsSome M.told (AreDetailsMembers event.now (option_map (λ v. v.now) view.entry)) out.old out.new) }
{
    text.clear();
    push_details(text, event, full_of(view))?;
    out.put("event_details", text_unless_empty(text.as_str()))
}

/// Tells the members of an event, given the record of its sensor and its bytes in hex.
fn tell_event<M: Members>(
    alloc: Global,
    out: &mut M,
    event: &EventEntry,
    view: Option<&SdrView>,
    raw: &str,
) -> Result<(), AllocError>
    requires { raw.now ≡ binary_text event.now }
    ensures { OnOk result (TellsSome M.told (AreEventMembers event.now (option_map (λ v. v.now) view.entry))
        out.old out.new) }
{
    let mut text = String::with_capacity(alloc, TEXT_CAPACITY)?;
    let stamp = event.time_stamp();
    let time = text_or_null(time_text(&mut text, stamp)?);
    out.put("timestamp", time)?;
    out.put("timestamp_raw", Value::Integer(u64::from(stamp)))?;
    tell_source(alloc, out, &mut text, event, view)?;
    tell_meaning(out, &mut text, event, raw)?;
    tell_details(out, &mut text, event, view)
}

/// Tells the members of an OEM timestamped record.
fn tell_timed<M: Members>(
    alloc: Global,
    out: &mut M,
    entry: &OemTimestampedEntry,
) -> Result<(), AllocError>
    ensures { OnOk result (TellsSome M.told (AreTimedMembers entry.now) out.old out.new) }
{
    let mut text = String::with_capacity(alloc, TEXT_CAPACITY)?;
    let manufacturer = u64::from(entry.manufacturer_id());
    let stamp = entry.time_stamp();
    let time = text_or_null(time_text(&mut text, stamp)?);
    out.put("timestamp", time)?;
    out.put("timestamp_raw", Value::Integer(u64::from(stamp)))?;
    out.put("manufacturer_id", Value::Integer(manufacturer))?;
    tell_data(alloc, out, entry.data_bytes())
}

/// Tells the members of an entry by its kind. `raw` has its bytes in hex.
fn tell_by_kind<M: Members>(
    alloc: Global,
    out: &mut M,
    entry: &SelView,
    sensors: Option<&Sensors>,
    raw: &str,
) -> Result<(), AllocError>
    requires { raw.now ≡ binary_text (entry_bytes entry.now) }
    ensures { OnOk result (TellsSome M.told (AreTold entry.now (option_map (λ s. s.now) sensors.entry))
        out.old out.new) }
{
    match entry {
        Event(event) => {
            let view = sensor_record(event, sensors);
            tell_event(alloc, out, event, view.as_ref(), raw)
        }
        OemTimed(timed) => tell_timed(alloc, out, timed),
        OemPlain(plain) => tell_data(alloc, out, plain.data_bytes()),
        Other(other) => tell_data(alloc, out, other.data_bytes()),
    }
}

/// Tells the members of an entry with its id. For an event, the table `sensors`, if there is one, has the name of the sensor
/// and the units of the details.
pub fn tell_entry<M: Members>(
    alloc: Global,
    out: &mut M,
    id: u16,
    entry: &SelView,
    sensors: Option<&Sensors>,
) -> Result<(), AllocError>
    ensures { OnOk result (TellsSome M.told (AreEntryMembers id entry.now (option_map (λ s. s.now) sensors.entry))
        out.old out.new) }
{
    let mut digits = [0; ENTRY_DIGITS];
    let raw = hex_text(entry.bytes(), &mut digits);
    tell_head(out, "sel_entry", id, entry.entry_type(), kind_word(entry))?;
    tell_by_kind(alloc, out, entry, sensors, raw)?;
    out.put("raw", Value::Text(raw))
}

/// The line of an entry with its id: its object, of the members that `tell_entry` tells.
pub fn sel_entry_line(
    alloc: Global,
    id: u16,
    entry: &SelView,
    sensors: Option<&Sensors>,
    labels: &[Label],
) -> Result<Vec<u8>, AllocError>
    ensures { IfOk result (λ line. IsSelLine id entry.now (option_map (λ s. s.now) sensors.entry)
        labels.now line.items) }
{
    let mut out = begin(alloc)?;
    tell_entry(alloc, &mut out, id, entry, sensors)?;
    finish(out, labels)
}
