//! The lines and blocks of the event log's entries.
ghost use Rattle.std.specs.Prelude.{◌≡◌, IfOk, codes, string_bytes, Some};
ghost use Rattle.ipmi_records.specs.Below.{binary_text, event_text_of, labelled};
ghost use Rattle.ipmi_records.specs.Prelude.{is_deasserted, AreEventLines, AreFieldLines, AreOemLines, IsEventLine, IsOemLine, IsSelBlock, IsSelLine, direction_text, numbered_sensor, sensor_number, sensor_type, words_of_event, manufacturer_text};

use crate::record_type::RecordType;
use crate::sel::{EventEntry, OemTimestampedEntry, SelView};
use ipmi_text::{ByteH, EventWords, HexByte, HexWord, SensorType, UtcTime, WordH};
use std::alloc::{AllocError, Global};
use std::fmt;

/// The capacity for most lines.
const LINE_CAPACITY: usize = 128;

/// The capacity for most blocks.
const BLOCK_CAPACITY: usize = 256;

/// The sensor of an event, printed as its type and number.
#[derive(Clone, Copy)]
pub struct EventSensor {
    /// Its type.
    pub kind: SensorType,
    /// Its number.
    pub number: HexByte,
}

impl fmt::Display for EventSensor {
    ghost output = { λ sensor. Some (numbered_sensor sensor.kind.0 sensor.number.0) };

    fn fmt<W: fmt::Write>(&self, f: &mut fmt::Formatter<W>) -> fmt::Result {
        let kind = self.kind;
        let number = self.number;
        write!(f, "{kind} #0x{number}")
    }
}

/// The sensor of an event.
pub fn sensor_of_event(event: &EventEntry) -> EventSensor
    ensures { numbered_sensor result.kind.0 result.number.0 ≡ numbered_sensor (sensor_type event.now) (sensor_number event.now) }
{
    EventSensor {
        kind: SensorType(event.sensor_type()),
        number: HexByte(event.sensor_number()),
    }
}

/// The words of an event.
fn words_of_event(event: &EventEntry) -> EventWords
    ensures { event_text_of result.event result.data1 ≡ words_of_event event.now }
{
    EventWords {
        event: event.event_type(),
        data1: event.data_bytes()[0],
    }
}

/// The word for the event direction: `Asserted` or `Deasserted`.
pub fn direction_text(event: &EventEntry) -> &'static str
    ensures { result.now ≡ direction_text (is_deasserted event.now) }
{
    if event.is_deasserted() {
        "Deasserted"
    } else {
        "Asserted"
    }
}

/// A manufacturer id, printed as six hex digits.
#[derive(Clone, Copy)]
struct ManufacturerId(u32);

impl fmt::Display for ManufacturerId {
    ghost output = { λ number. Some (manufacturer_text number.0) };

    fn fmt<W: fmt::Write>(&self, f: &mut fmt::Formatter<W>) -> fmt::Result {
        let [_, high, middle, low] = self.0.to_be_bytes();
        let high = HexByte(high);
        let low = HexWord(u16::from_be_bytes([middle, low]));
        write!(f, "{high}{low}")
    }
}

/// The line of an event: its time, its sensor and its words.
fn event_line(alloc: Global, id: u16, event: &EventEntry) -> Result<String, AllocError>
    ensures { IfOk result (λ text. IsEventLine id event.now (string_bytes text)) }
{
    let id = HexWord(id);
    let time = UtcTime::of(event.time_stamp());
    let sensor = sensor_of_event(event);
    let words = words_of_event(event);
    let direction = direction_text(event);
    let mut text = String::with_capacity(alloc, LINE_CAPACITY)?;
    write!(text, "{id} | {time} | {sensor} | {words} | {direction}\n")?;
    Ok(text)
}

/// The line of an OEM timestamped record, whose data only the manufacturer can interpret.
fn oem_line(alloc: Global, id: u16, entry: &OemTimestampedEntry) -> Result<String, AllocError>
    ensures { IfOk result (λ text. IsOemLine id entry.now (string_bytes text)) }
{
    let id = HexWord(id);
    let time = UtcTime::of(entry.time_stamp());
    let kind = HexByte(entry.bytes()[2]);
    let manufacturer = ManufacturerId(entry.manufacturer_id());
    let bytes = hex::encode(alloc, entry.data_bytes())?;
    let mut text = String::with_capacity(alloc, LINE_CAPACITY)?;
    write!(
        text,
        "{id} | {time} | OEM record 0x{kind} | {manufacturer} | {bytes}\n"
    )?;
    Ok(text)
}

/// The line of an entry: its id in hex, its time if it has one, and its content, in columns joined by ` | `.
pub fn sel_line(alloc: Global, id: u16, view: &SelView) -> Result<String, AllocError>
    ensures { IfOk result (λ text. IsSelLine id view.now (string_bytes text)) }
{
    match view {
        SelView::Event(event) => event_line(alloc, id, event),
        SelView::OemTimed(entry) => oem_line(alloc, id, entry),
        SelView::OemPlain(entry) => {
            let id = HexWord(id);
            let kind = HexByte(view.entry_type());
            let bytes = hex::encode(alloc, entry.data_bytes())?;
            let mut text = String::with_capacity(alloc, LINE_CAPACITY)?;
            write!(text, "{id} | OEM record 0x{kind} | {bytes}\n")?;
            Ok(text)
        }
        SelView::Other(entry) => {
            let id = HexWord(id);
            let kind = RecordType(view.entry_type());
            let bytes = hex::encode(alloc, entry.data_bytes())?;
            let mut text = String::with_capacity(alloc, LINE_CAPACITY)?;
            write!(text, "{id} | {kind} | {bytes}\n")?;
            Ok(text)
        }
    }
}

/// The fields of an event, one line each: its time, its source and its words.
fn event_lines(alloc: Global, event: &EventEntry) -> Result<String, AllocError>
    ensures { IfOk result (λ text. AreEventLines event.now (string_bytes text)) }
{
    let time = UtcTime::of(event.time_stamp());
    let generator = WordH(event.generator_id());
    let revision = ByteH(event.revision());
    let sensor = sensor_of_event(event);
    let words = words_of_event(event);
    let direction = direction_text(event);
    let bytes = hex::encode(alloc, event.data_bytes())?;
    let mut text = String::with_capacity(alloc, BLOCK_CAPACITY)?;
    write!(
        text,
        "Time: {time}\nGenerator: {generator}\nRevision: {revision}\n\
         Sensor: {sensor}\nEvent: {words}\nDirection: {direction}\nData: {bytes}\n"
    )?;
    Ok(text)
}

/// The fields of an OEM timestamped record, one line each.
fn oem_lines(alloc: Global, entry: &OemTimestampedEntry) -> Result<String, AllocError>
    ensures { IfOk result (λ text. AreOemLines entry.now (string_bytes text)) }
{
    let time = UtcTime::of(entry.time_stamp());
    let manufacturer = ManufacturerId(entry.manufacturer_id());
    let bytes = hex::encode(alloc, entry.data_bytes())?;
    let mut text = String::with_capacity(alloc, BLOCK_CAPACITY)?;
    write!(
        text,
        "Time: {time}\nManufacturer: {manufacturer}\nData: {bytes}\n"
    )?;
    Ok(text)
}

/// The line of bytes that this program does not interpret.
fn data_line(alloc: Global, bytes: &[u8]) -> Result<String, AllocError>
    ensures { IfOk result (λ text. string_bytes text ≡ labelled (codes "Data") (binary_text bytes.now)) }
{
    let bytes = hex::encode(alloc, bytes)?;
    let mut text = String::with_capacity(alloc, BLOCK_CAPACITY)?;
    write!(text, "Data: {bytes}\n")?;
    Ok(text)
}

/// The fields of an entry, one line each.
fn field_lines(alloc: Global, view: &SelView) -> Result<String, AllocError>
    ensures { IfOk result (λ text. AreFieldLines view.now (string_bytes text)) }
{
    match view {
        SelView::Event(event) => event_lines(alloc, event),
        SelView::OemTimed(entry) => oem_lines(alloc, entry),
        SelView::OemPlain(entry) => data_line(alloc, entry.data_bytes()),
        SelView::Other(entry) => data_line(alloc, entry.data_bytes()),
    }
}

/// The block of an entry, with its id: one line per field, then an empty line.
pub fn sel_block(alloc: Global, id: u16, view: &SelView) -> Result<String, AllocError>
    ensures { IfOk result (λ text. IsSelBlock id view.now (string_bytes text)) }
{
    let id = WordH(id);
    let kind = ByteH(view.entry_type());
    let fields = field_lines(alloc, view)?;
    let mut text = String::with_capacity(alloc, BLOCK_CAPACITY)?;
    write!(text, "Record: {id}\nType: {kind}\n{fields}\n")?;
    Ok(text)
}
