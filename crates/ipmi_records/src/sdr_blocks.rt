//! The block of a sensor data record.
ghost use Rattle.std.specs.Prelude.{◌≡◌, IfOk, string_bytes};
ghost use Rattle.ipmi_records.specs.Prelude.{known, name_of, is_readable, AreReadingLines, AreThresholdTexts, AreValueLines, IsSdrBlock, IsThresholdText, all_thresholds, head_lines, kind_text, locator_lines, name_line, sensor_lines, threshold_name, thresholds_of};

use crate::column::{KnownReading, has_thresholds, push_raw, push_reading, status_of};
use crate::full::FullSensor;
use crate::locator::Locator;
use crate::record_type::RecordType;
use crate::sdr::SdrView::{self, Compact, Controller, EventOnly, Fru, Full, Generic, Other};
use crate::sensor::Sensor;
use crate::threshold::Threshold;
use ipmi_text::{ByteH, Reading, SensorType, WordH};
use std::alloc::{AllocError, Global};

/// The capacity for most groups of a few lines.
const PART_CAPACITY: usize = 96;

/// The capacity for the lines of most values.
const LINES_CAPACITY: usize = 288;

/// The capacity for most blocks.
const BLOCK_CAPACITY: usize = 512;

/// The kind of a record.
fn kind_text(alloc: Global, view: &SdrView) -> Result<String, AllocError>
    ensures { IfOk result (λ text. string_bytes text ≡ kind_text view.now) }
{
    match view {
        Full(_) => String::from_str(alloc, "full"),
        Compact(_) => String::from_str(alloc, "compact"),
        EventOnly(_) => String::from_str(alloc, "event-only"),
        Generic(_) => String::from_str(alloc, "generic locator"),
        Fru(_) => String::from_str(alloc, "FRU locator"),
        Controller(_) => String::from_str(alloc, "controller locator"),
        Other(_) => {
            let kind = RecordType(view.record_type());
            format!(in alloc; "{kind}")
        }
    }
}

/// The line of the name, if there is one.
fn name_line(alloc: Global, view: &SdrView) -> Result<String, AllocError>
    ensures { IfOk result (λ text. string_bytes text ≡ name_line (name_of view.now)) }
{
    match view.name(alloc)? {
        Some(name) => format!(in alloc; "Name: {name}\n"),
        None => Ok(String::new(alloc)),
    }
}

/// The lines common to all records.
fn head_lines(alloc: Global, id: u16, view: &SdrView) -> Result<String, AllocError>
    ensures { IfOk result (λ text. string_bytes text ≡ head_lines id view.now) }
{
    let id = WordH(id);
    let kind = kind_text(alloc, view)?;
    let name = name_line(alloc, view)?;
    let mut text = String::with_capacity(alloc, PART_CAPACITY)?;
    write!(text, "Record: {id}\nType: {kind}\n{name}")?;
    Ok(text)
}

/// The lines of a sensor: its address, its entity and its type.
fn sensor_lines(alloc: Global, sensor: Option<Sensor>) -> Result<String, AllocError>
    ensures { IfOk result (λ text. string_bytes text ≡ sensor_lines sensor) }
{
    let Some(sensor) = sensor else {
        return Ok(String::new(alloc));
    };
    let owner = ByteH(sensor.owner);
    let lun = sensor.lun;
    let number = ByteH(sensor.number);
    let entity = sensor.entity;
    let kind = SensorType(sensor.sensor_type);
    let event_type = ByteH(sensor.event_type);
    let mut text = String::with_capacity(alloc, PART_CAPACITY)?;
    write!(
        text,
        "Owner: {owner} LUN {lun}\nSensor: {number}\n\
         Entity: {entity}\nKind: {kind}\nEvent type: {event_type}\n"
    )?;
    Ok(text)
}

/// The lines of a device.
fn locator_lines(alloc: Global, locator: Option<Locator>) -> Result<String, AllocError>
    ensures { IfOk result (λ text. string_bytes text ≡ locator_lines locator) }
{
    let Some(locator) = locator else {
        return Ok(String::new(alloc));
    };
    let address = ByteH(locator.address);
    let entity = locator.entity;
    let mut text = String::with_capacity(alloc, PART_CAPACITY)?;
    write!(text, "Address: {address}\nEntity: {entity}\n")?;
    Ok(text)
}

/// The reading column and the status, one line each.
fn reading_lines(alloc: Global, view: &SdrView, reading: KnownReading) -> Result<String, AllocError>
    ensures { IfOk result (λ text. AreReadingLines view.now reading (string_bytes text)) }
{
    let mut text = String::with_capacity(alloc, PART_CAPACITY)?;
    text.push_str("Reading: ")?;
    push_reading(&mut text, view, reading)?;
    let status = status_of(view, reading);
    write!(text, "\nStatus: {status}\n")?;
    Ok(text)
}

fn threshold_name(threshold: Threshold) -> &'static str
    ensures { result.now ≡ threshold_name threshold }
{
    match threshold {
        Threshold::UpperNonRecoverable => "Upper non-recoverable",
        Threshold::UpperCritical => "Upper critical",
        Threshold::UpperNonCritical => "Upper non-critical",
        Threshold::LowerNonRecoverable => "Lower non-recoverable",
        Threshold::LowerCritical => "Lower critical",
        Threshold::LowerNonCritical => "Lower non-critical",
    }
}

/// The line of a threshold, empty if the threshold is not readable.
fn threshold_text(
    alloc: Global,
    full: &FullSensor,
    threshold: Threshold,
) -> Result<String, AllocError>
    ensures { IfOk result (λ text. IsThresholdText (is_readable threshold full.now) full.now
        threshold (string_bytes text)) }
{
    if !full.is_readable(threshold) {
        return Ok(String::new(alloc));
    }
    let name = threshold_name(threshold);
    let mut text = String::with_capacity(alloc, PART_CAPACITY)?;
    write!(text, "{name}: ")?;
    push_raw(&mut text, full, full.threshold(threshold))?;
    text.push_str("\n")?;
    Ok(text)
}

/// The lines of all thresholds.
fn all_thresholds(alloc: Global, full: &FullSensor) -> Result<String, AllocError>
    ensures { IfOk result (λ text. AreThresholdTexts full.now all_thresholds (string_bytes text)) }
{
    let a = threshold_text(alloc, full, Threshold::UpperNonRecoverable)?;
    let b = threshold_text(alloc, full, Threshold::UpperCritical)?;
    let c = threshold_text(alloc, full, Threshold::UpperNonCritical)?;
    let d = threshold_text(alloc, full, Threshold::LowerNonRecoverable)?;
    let e = threshold_text(alloc, full, Threshold::LowerCritical)?;
    let f = threshold_text(alloc, full, Threshold::LowerNonCritical)?;
    let mut text = String::with_capacity(alloc, LINES_CAPACITY)?;
    write!(text, "{a}{b}{c}{d}{e}{f}")?;
    Ok(text)
}

/// The lines of a sensor's readable thresholds, as printed by `sdr_block`, starting with the upper non-recoverable
/// one. A sensor without thresholds has none.
pub fn threshold_lines(
    alloc: Global,
    full: &FullSensor,
    sensor: &Sensor,
) -> Result<String, AllocError>
    ensures { IfOk result (λ text. AreThresholdTexts full.now (thresholds_of sensor.now)
        (string_bytes text)) }
{
    if has_thresholds(sensor) {
        return all_thresholds(alloc, full);
    }
    Ok(String::new(alloc))
}

/// The lines of a sensor's values: only a full and a compact record have them.
fn value_lines(alloc: Global, view: &SdrView, reading: KnownReading) -> Result<String, AllocError>
    ensures { IfOk result (λ text. AreValueLines view.now reading (string_bytes text)) }
{
    match view {
        Full(full) => {
            let columns = reading_lines(alloc, view, reading)?;
            let thresholds = threshold_lines(alloc, full, &full.sensor())?;
            let mut text = String::with_capacity(alloc, LINES_CAPACITY)?;
            write!(text, "{columns}{thresholds}")?;
            Ok(text)
        }
        Compact(_) => reading_lines(alloc, view, reading),
        EventOnly(_) | Generic(_) | Fru(_) | Controller(_) | Other(_) => Ok(String::new(alloc)),
    }
}

/// The block of a record, with its id: one line per field, then an empty line. `reading` is as for `sdr_line`.
pub fn sdr_block(
    alloc: Global,
    id: u16,
    view: &SdrView,
    reading: Option<Reading>,
) -> Result<String, AllocError>
    ensures { IfOk result (λ text. IsSdrBlock id view.now (known reading) (string_bytes text)) }
{
    sdr_block_with(alloc, id, view, KnownReading::from(reading))
}

/// The block of a record with what is known of its sensor's reading, as printed by `sdr_block`.
pub fn sdr_block_with(
    alloc: Global,
    id: u16,
    view: &SdrView,
    reading: KnownReading,
) -> Result<String, AllocError>
    ensures { IfOk result (λ text. IsSdrBlock id view.now reading (string_bytes text)) }
{
    let head = head_lines(alloc, id, view)?;
    let sensor = sensor_lines(alloc, view.sensor())?;
    let locator = locator_lines(alloc, view.locator())?;
    let values = value_lines(alloc, view, reading)?;
    let mut text = String::with_capacity(alloc, BLOCK_CAPACITY)?;
    write!(text, "{head}{sensor}{locator}{values}\n")?;
    Ok(text)
}
