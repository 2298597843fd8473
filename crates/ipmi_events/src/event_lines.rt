//! The lines of event log entries, with events in words.
ghost use Rattle.std.specs.Prelude.{◌≡◌, ◌++◌, IfOk, OnOk, option_map, string_bytes};
ghost use Rattle.ipmi_text.specs.Appended.{Appends};
ghost use Rattle.ipmi_records.specs.Prelude.{event_type, sensor_type};
ghost use Rattle.ipmi_events.specs.Details.{IsDetails};
ghost use Rattle.ipmi_events.specs.EventLines.{details_column, full_of, IsEventInWords, IsEventLineInWords, record_for, sensor_column};
ghost use Rattle.ipmi_events.specs.Words.{event_in_words, event_offset};

use crate::details::push_details;
use crate::name::push_sensor_name;
use crate::sensors::Sensors;
use crate::severity::{event_severity, severity_column};
use crate::words::EventInWords;
use ipmi_records::{
    EventEntry, FullSensor, SdrView, SelView, direction_text, sel_line, sensor_of_event,
};
use ipmi_text::{HexWord, UtcTime};
use std::alloc::{AllocError, Global};

/// The capacity for most lines.
const LINE_CAPACITY: usize = 160;

/// The capacity for most details.
const DETAILS_CAPACITY: usize = 64;

/// Bits 1:0 of the high byte of a generator id: the LUN (IPMI v2.0, table 32-1).
const LUN_BITS: u8 = 0x03;

/// Bits 3:0 of an event's first data byte: its offset.
pub(crate) const OFFSET_BITS: u8 = 0x0F;

/// The record of the sensor that an event is from, by a table of sensors.
pub fn record_for<'a>(event: &EventEntry, sensors: &'a Sensors) -> Option<SdrView<'a>>
    ensures { result ≡ record_for event.now sensors.now }
{
    let [owner, channel_and_lun] = event.generator_id().to_le_bytes();
    sensors.find(owner, channel_and_lun & LUN_BITS, event.sensor_number())
}

/// The full sensor record, if the record is one.
fn full_of<'a, 'b>(view: Option<&'b SdrView<'a>>) -> Option<&'b FullSensor<'a>>
    ensures { option_map (λ f. f.now) result ≡ full_of (option_map (λ v. v.now) view.entry) }
{
    match view {
        Some(SdrView::Full(full)) => Some(full),
        _ => None,
    }
}

/// The words of an event.
fn words_of(event: &EventEntry) -> EventInWords
    ensures { event_in_words result.event_type result.sensor_type result.offset ≡
        event_in_words (event_type event.now) (sensor_type event.now) (event_offset event.now) }
{
    EventInWords {
        event_type: event.event_type(),
        sensor_type: event.sensor_type(),
        offset: event.data_bytes()[0] & OFFSET_BITS,
    }
}

/// Appends the name of an event's sensor, or its type and number if it has no name.
fn push_sensor(
    alloc: Global,
    line: &mut String,
    event: &EventEntry,
    view: Option<&SdrView>,
) -> Result<(), AllocError>
    ensures { OnOk result (string_bytes line.new ≡ string_bytes line.old
        ++ sensor_column event.now (option_map (λ v. v.now) view.entry)) }
{
    if let Some(view) = view {
        let start = line.as_bytes().len();
        push_sensor_name(alloc, line, view, event.sensor_number())?;
        if line.as_bytes().len() != start {
            return Ok(());
        }
    }
    let sensor = sensor_of_event(event);
    write!(line, "{sensor}")
}

/// Appends a column of details, if there are any.
fn push_details_column(line: &mut String, details: &str) -> Result<(), AllocError>
    ensures { OnOk result
        (string_bytes line.new ≡ string_bytes line.old ++ details_column details.now) }
{
    if details.is_empty() {
        return Ok(());
    }
    write!(line, " | {details}")
}

/// Appends the columns of an event and a line feed. `view` is the record of its sensor, if there is one.
fn push_columns(
    alloc: Global,
    line: &mut String,
    id: u16,
    event: &EventEntry,
    view: Option<&SdrView>,
    details: &str,
) -> Result<(), AllocError>
    requires { IsDetails event.now (full_of (option_map (λ v. v.now) view)) details.now }
    ensures { OnOk result (Appends
        (IsEventLineInWords id event.now (option_map (λ v. v.now) view.entry))
        (string_bytes line.old) (string_bytes line.new)) }
{
    let id = HexWord(id);
    let time = UtcTime::of(event.time_stamp());
    write!(line, "{id} | {time} | ")?;
    push_sensor(alloc, line, event, view)?;
    let words = words_of(event);
    let direction = direction_text(event);
    let severity = severity_column(event_severity(event));
    write!(line, " | {words} | {direction} | {severity}")?;
    push_details_column(line, details)?;
    line.push_str("\n")
}

/// The line of an event. `view` is the record of its sensor, if there is one.
fn event_line_of(
    alloc: Global,
    id: u16,
    event: &EventEntry,
    view: Option<&SdrView>,
) -> Result<String, AllocError>
    ensures { IfOk result (λ text. IsEventLineInWords id event.now
        (option_map (λ v. v.now) view.entry) (string_bytes text)) }
{
    let mut details = String::with_capacity(alloc, DETAILS_CAPACITY)?;
    push_details(&mut details, event, full_of(view))?;
    let mut line = String::with_capacity(alloc, LINE_CAPACITY)?;
    push_columns(alloc, &mut line, id, event, view, &details)?;
    Ok(line)
}

/// The line of an entry, with its id. For an event, the columns are the time, the name of the sensor, the words, the
/// event direction, the severity (a dash for none) and the details, joined by ` | `. For any other entry it is the line of `sel_line`.
pub fn event_line(
    alloc: Global,
    id: u16,
    entry: &SelView,
    sensors: &Sensors,
) -> Result<String, AllocError>
    ensures { IfOk result (λ text. IsEventInWords id entry.now sensors.now (string_bytes text)) }
{
    let SelView::Event(event) = entry else {
        return sel_line(alloc, id, entry);
    };
    let view = record_for(event, sensors);
    event_line_of(alloc, id, event, view.as_ref())
}
