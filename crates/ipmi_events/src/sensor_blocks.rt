//! The block of a sensor.
ghost use Rattle.std.specs.Prelude.{◌≡◌, ◌++◌, IfOk, OnOk, string_bytes};
ghost use Rattle.ipmi_events.specs.Below.{sharing_of};
ghost use Rattle.ipmi_events.specs.SensorBlocks.{AreShownLines, AreThresholdLines, IsBlockOfSensor, IsSensorBlock, identity_lines, sharing_line};

use crate::entities::EntityInWords;
use crate::shown::push_reading_in_words;
use crate::status::status_in_words;
use ipmi_records::SdrView::{self, Compact, Controller, EventOnly, Fru, Full, Generic, Other};
use ipmi_records::{KnownReading, Sensor, push_name, sdr_block_with, threshold_lines};
use ipmi_text::{ByteH, SensorType, WordH};
use std::alloc::{AllocError, Global};

/// The capacity for most groups of lines.
const PART_CAPACITY: usize = 128;

/// The capacity for most blocks.
const BLOCK_CAPACITY: usize = 384;

/// Appends the line with the number of sensors that share the record, if it is more than one.
fn push_sharing_line(text: &mut String, view: &SdrView) -> Result<(), AllocError>
    ensures { OnOk result
        (string_bytes text.new ≡ string_bytes text.old ++ sharing_line (sharing_of view.now)) }
{
    match view.sharing() {
        Some(sharing) if sharing.count > 1 => {
            let count = sharing.count;
            write!(text, "Shared by: {count} sensors\n")
        }
        _ => Ok(()),
    }
}

/// Appends the lines that identify the sensor: its record with the name, its number, the number of sensors that share
/// the record, its owner and LUN, its entity and its type.
fn push_identity_lines(
    alloc: Global,
    text: &mut String,
    id: u16,
    view: &SdrView,
    sensor: &Sensor,
) -> Result<(), AllocError>
    ensures { OnOk result (string_bytes text.new ≡ string_bytes text.old
        ++ identity_lines id view.now sensor.now) }
{
    let id = WordH(id);
    write!(text, "Record: {id}\nName: ")?;
    push_name(alloc, text, view)?;
    let number = ByteH(sensor.number);
    write!(text, "\nSensor: {number}\n")?;
    push_sharing_line(text, view)?;
    let owner = ByteH(sensor.owner);
    let lun = sensor.lun;
    let entity = EntityInWords(sensor.entity);
    let kind = SensorType(sensor.sensor_type);
    write!(
        text,
        "Owner: {owner} LUN {lun}\nEntity: {entity}\nKind: {kind}\n"
    )
}

/// The lines that identify the sensor.
fn identity_lines(
    alloc: Global,
    id: u16,
    view: &SdrView,
    sensor: &Sensor,
) -> Result<String, AllocError>
    ensures { IfOk result (λ text. string_bytes text ≡ identity_lines id view.now sensor.now) }
{
    let mut text = String::with_capacity(alloc, PART_CAPACITY)?;
    push_identity_lines(alloc, &mut text, id, view, sensor)?;
    Ok(text)
}

/// The lines of the sensor's reading and status.
fn shown_lines(
    alloc: Global,
    view: &SdrView,
    sensor: &Sensor,
    reading: KnownReading,
) -> Result<String, AllocError>
    ensures { IfOk result (λ text. AreShownLines view.now sensor.now reading (string_bytes text)) }
{
    let mut text = String::with_capacity(alloc, PART_CAPACITY)?;
    text.push_str("Reading: ")?;
    push_reading_in_words(&mut text, view, reading)?;
    let status = status_in_words(sensor, reading);
    write!(text, "\nStatus: {status}\n")?;
    Ok(text)
}

/// The lines of the readable thresholds. Only a full record has them.
fn thresholds_of(alloc: Global, view: &SdrView, sensor: &Sensor) -> Result<String, AllocError>
    ensures { IfOk result (λ text. AreThresholdLines view.now sensor.now (string_bytes text)) }
{
    match view {
        Full(full) => threshold_lines(alloc, full, sensor),
        _ => Ok(String::new(alloc)),
    }
}

/// The block of the sensor of a full or compact record.
fn block_of_sensor(
    alloc: Global,
    id: u16,
    view: &SdrView,
    sensor: &Sensor,
    reading: KnownReading,
) -> Result<String, AllocError>
    ensures { IfOk result (λ text.
        IsBlockOfSensor id view.now sensor.now reading (string_bytes text)) }
{
    let identity = identity_lines(alloc, id, view, sensor)?;
    let shown = shown_lines(alloc, view, sensor, reading)?;
    let thresholds = thresholds_of(alloc, view, sensor)?;
    let mut text = String::with_capacity(alloc, BLOCK_CAPACITY)?;
    write!(text, "{identity}{shown}{thresholds}\n")?;
    Ok(text)
}

/// The block of a sensor, with the id of its record: one line per field, in words, then its thresholds, starting with
/// the upper non-recoverable one, then an empty line. `reading` is as for `sensor_line`. If sensors share the record,
/// the number is that of the first, and a line has the number of sensors. A record that is neither full nor compact
/// has its block of `sdr_block`.
pub fn sensor_block(
    alloc: Global,
    id: u16,
    view: &SdrView,
    reading: KnownReading,
) -> Result<String, AllocError>
    ensures { IfOk result (λ text. IsSensorBlock id view.now reading (string_bytes text)) }
{
    match view {
        Full(full) => block_of_sensor(alloc, id, view, &full.sensor(), reading),
        Compact(compact) => block_of_sensor(alloc, id, view, &compact.sensor(), reading),
        EventOnly(_) | Generic(_) | Fru(_) | Controller(_) | Other(_) => {
            sdr_block_with(alloc, id, view, reading)
        }
    }
}
