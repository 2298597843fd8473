//! The lines of sensor data records.
ghost use Rattle.std.specs.Prelude.{◌≡◌, ◌++◌, IfOk, OnOk, string_bytes, Some};
ghost use Rattle.ipmi_records.specs.Prelude.{padded_to, IsExtendedLine, IsSdrLine, entity_column, entity_or_dash, fault_line, fault_text, known, printed_name, sensor_columns, number_text};

use crate::column::{KnownReading, push_reading, status_of};
use crate::entity::Entity;
use crate::locator::Locator;
use crate::padding::pad;
use crate::sdr::{SdrFault, SdrView};
use crate::sensor::Sensor;
use ipmi_text::{ByteH, Reading, WordH, push_sdr_text};
use std::alloc::{AllocError, Global};
use std::fmt;

/// The capacity for most lines.
const LINE_CAPACITY: usize = 80;

/// The minimum width of the name column, in characters.
const NAME_WIDTH: usize = 16;

/// The minimum width of the reading column, if a status follows it.
const READING_WIDTH: usize = 17;

/// The minimum width of the status column, if an entity follows it.
const STATUS_WIDTH: usize = 3;

/// The minimum width of the entity column.
const ENTITY_WIDTH: usize = 5;

/// Appends the name of a record as printed, or nothing if it has none.
pub fn push_name(alloc: Global, line: &mut String, view: &SdrView) -> Result<(), AllocError>
    ensures { OnOk result
        (string_bytes line.new ≡ string_bytes line.old ++ printed_name view.now) }
{
    match view.id_string() {
        Some(id) => push_sdr_text(alloc, line, id.type_length, id.rest),
        None => Ok(()),
    }
}

/// Appends the name of a record, padded to its column's width of 16 characters.
pub fn push_name_column(alloc: Global, line: &mut String, view: &SdrView) -> Result<(), AllocError>
    ensures { OnOk result
        (string_bytes line.new ≡ string_bytes line.old ++ padded_to 16 (printed_name view.now)) }
{
    let start = line.as_bytes().len();
    push_name(alloc, line, view)?;
    pad(line, start, NAME_WIDTH)
}

/// The line of a record: its name in 16 characters, its reading column in 17, and its status. `reading` is the answer
/// of Get Sensor Reading for the sensor that `SdrView::reading_of` names. It is ignored if that names none.
pub fn sdr_line(
    alloc: Global,
    view: &SdrView,
    reading: Option<Reading>,
) -> Result<String, AllocError>
    ensures { IfOk result (λ text. IsSdrLine view.now (known reading) (string_bytes text)) }
{
    sdr_line_with(alloc, view, KnownReading::from(reading))
}

/// The line of a record with what is known of its sensor's reading, as printed by `sdr_line`.
pub fn sdr_line_with(
    alloc: Global,
    view: &SdrView,
    reading: KnownReading,
) -> Result<String, AllocError>
    ensures { IfOk result (λ text. IsSdrLine view.now reading (string_bytes text)) }
{
    let mut line = String::with_capacity(alloc, LINE_CAPACITY)?;
    push_name_column(alloc, &mut line, view)?;
    line.push_str(" | ")?;
    let start = line.as_bytes().len();
    push_reading(&mut line, view, reading)?;
    pad(&mut line, start, READING_WIDTH)?;
    let status = status_of(view, reading);
    write!(line, " | {status}\n")?;
    Ok(line)
}

/// The number of a sensor, printed as dashes if there is none.
#[derive(Clone, Copy)]
struct SensorNumber(Option<Sensor>);

impl fmt::Display for SensorNumber {
    ghost output = { λ number. Some (number_text number.0) };

    fn fmt<W: fmt::Write>(&self, f: &mut fmt::Formatter<W>) -> fmt::Result {
        match self.0 {
            None => f.write_str("--h"),
            Some(sensor) => {
                let number = ByteH(sensor.number);
                write!(f, "{number}")
            }
        }
    }
}

/// The entity of a sensor or a device.
fn entity_of(sensor: Option<Sensor>, locator: Option<Locator>) -> Option<Entity>
    ensures { entity_or_dash result ≡ entity_column sensor locator }
{
    match sensor {
        Some(sensor) => Some(sensor.entity),
        None => Some(locator?.entity),
    }
}

/// Appends an entity, or a dash if there is none.
fn push_entity(line: &mut String, entity: Option<Entity>) -> Result<(), AllocError>
    ensures { OnOk result
        (string_bytes line.new ≡ string_bytes line.old ++ entity_or_dash entity) }
{
    match entity {
        Some(entity) => write!(line, "{entity}"),
        None => line.push_str("-"),
    }
}

/// Appends an entity, or a dash if there is none, padded to the width of its column.
fn push_entity_column(line: &mut String, entity: Option<Entity>) -> Result<(), AllocError>
    ensures { OnOk result
        (string_bytes line.new ≡ string_bytes line.old ++ padded_to 5 (entity_or_dash entity)) }
{
    let start = line.as_bytes().len();
    push_entity(line, entity)?;
    pad(line, start, ENTITY_WIDTH)
}

/// Appends a status, padded to the width of its column.
fn push_status_column(line: &mut String, status: &str) -> Result<(), AllocError>
    ensures { OnOk result
        (string_bytes line.new ≡ string_bytes line.old ++ padded_to 3 status.now) }
{
    let start = line.as_bytes().len();
    line.push_str(status)?;
    pad(line, start, STATUS_WIDTH)
}

/// Appends the number, the status and the entity of a record, with ` | ` before and after each.
fn push_sensor_columns(line: &mut String, view: &SdrView, status: &str) -> Result<(), AllocError>
    ensures { OnOk result
        (string_bytes line.new ≡ string_bytes line.old ++ sensor_columns view.now status.now) }
{
    let number = SensorNumber(view.sensor());
    write!(line, " | {number} | ")?;
    push_status_column(line, status)?;
    line.push_str(" | ")?;
    push_entity_column(line, entity_of(view.sensor(), view.locator()))?;
    line.push_str(" | ")?;
    Ok(())
}

/// The extended line of a record: its name, the sensor's number, its status, the entity and the reading column.
/// `reading` is as for `sdr_line`.
pub fn sdr_eline(
    alloc: Global,
    view: &SdrView,
    reading: Option<Reading>,
) -> Result<String, AllocError>
    ensures { IfOk result (λ text. IsExtendedLine view.now (known reading) (string_bytes text)) }
{
    sdr_eline_with(alloc, view, KnownReading::from(reading))
}

/// The extended line of a record with what is known of its sensor's reading, as printed by `sdr_eline`.
pub fn sdr_eline_with(
    alloc: Global,
    view: &SdrView,
    reading: KnownReading,
) -> Result<String, AllocError>
    ensures { IfOk result (λ text. IsExtendedLine view.now reading (string_bytes text)) }
{
    let mut line = String::with_capacity(alloc, LINE_CAPACITY)?;
    push_name_column(alloc, &mut line, view)?;
    push_sensor_columns(&mut line, view, status_of(view, reading))?;
    push_reading(&mut line, view, reading)?;
    line.push_str("\n")?;
    Ok(line)
}

fn fault_text(fault: SdrFault) -> &'static str
    ensures { result.now ≡ fault_text fault }
{
    match fault {
        SdrFault::Short => "short",
        SdrFault::Length => "wrong length",
        SdrFault::BodyShort => "body too short",
    }
}

/// The line of a record that `SdrView::read` refused: its id and the fault.
pub fn sdr_fault_line(alloc: Global, id: u16, fault: SdrFault) -> Result<String, AllocError>
    ensures { IfOk result (λ text. string_bytes text ≡ fault_line id fault) }
{
    let id = WordH(id);
    let fault = fault_text(fault);
    let mut line = String::with_capacity(alloc, LINE_CAPACITY)?;
    write!(line, "record {id}: {fault}\n")?;
    Ok(line)
}
