//! The lines of sensors.
ghost use Rattle.std.specs.Prelude.{◌≡◌, ◌++◌, IfOk, OnOk, codes, decimal, option_map, string_bytes};
ghost use Rattle.ipmi_events.specs.Below.{Appends, padded_to};
ghost use Rattle.ipmi_events.specs.SensorLines.{AppendsColumns, AppendsPadded, IsLineOfSensor, IsSensorLine, IsThresholdColumn, head_columns, from_lowest, with_thresholds};
ghost use Rattle.ipmi_events.specs.Shown.{IsReadingInWords};

use crate::entities::EntityInWords;
use crate::severity::severity_column;
use crate::shown::push_reading_in_words;
use crate::status::status_in_words;
use crate::worst::sensor_severity;
use ipmi_records::SdrView::{self, Compact, Controller, EventOnly, Fru, Full, Generic, Other};
use ipmi_records::{
    FullSensor, KnownReading, Sensor, Threshold, has_thresholds, pad, push_name_column, push_value,
    sdr_line_with,
};
use ipmi_text::ByteH;
use std::alloc::{AllocError, Global};

/// The capacity for most lines.
const LINE_CAPACITY: usize = 128;

/// The minimum width of the reading column, in characters.
const READING_WIDTH: usize = 17;

/// The minimum width of the status column.
const STATUS_WIDTH: usize = 3;

/// The minimum width of the severity column, in characters.
const SEVERITY_WIDTH: usize = 8;

/// The thresholds in the order of their columns.
const FROM_LOWEST: [Threshold; 6] = [
    Threshold::LowerNonRecoverable,
    Threshold::LowerCritical,
    Threshold::LowerNonCritical,
    Threshold::UpperNonCritical,
    Threshold::UpperCritical,
    Threshold::UpperNonRecoverable,
];

/// The full record of a sensor with thresholds, if the record is one. Only full records have threshold values.
fn with_thresholds<'v, 'a>(view: &'v SdrView<'a>) -> Option<&'v FullSensor<'a>>
    ensures { option_map (λ full. full.now) result ≡ with_thresholds view.now }
{
    match view {
        Full(full) if has_thresholds(&full.sensor()) => Some(full),
        _ => None,
    }
}

/// Appends the value of a threshold, without its unit, or a dash if there is none that is readable.
fn push_threshold(
    line: &mut String,
    full: Option<&FullSensor>,
    threshold: Threshold,
) -> Result<(), AllocError>
    ensures { OnOk result (Appends
        (IsThresholdColumn (option_map (λ full. full.now) full.entry) threshold)
        (string_bytes line.old) (string_bytes line.new)) }
{
    match full {
        Some(full) if full.is_readable(threshold) => {
            push_value(line, full, full.threshold(threshold))
        }
        _ => line.push_str("-"),
    }
}

/// Appends the columns of all thresholds, with ` | ` before each.
fn push_thresholds(line: &mut String, full: Option<&FullSensor>) -> Result<(), AllocError>
    ensures { OnOk result (AppendsColumns (option_map (λ full. full.now) full.entry) from_lowest
        (string_bytes line.old) (string_bytes line.new)) }
{
    for threshold in FROM_LOWEST {
        line.push_str(" | ")?;
        push_threshold(line, full, threshold)?;
    }
    Ok(())
}

/// Appends the columns of the record's name, the sensor's number and its entity, with ` | ` after each.
fn push_head_columns(
    alloc: Global,
    line: &mut String,
    view: &SdrView,
    sensor: &Sensor,
) -> Result<(), AllocError>
    ensures { OnOk result
        (string_bytes line.new ≡ string_bytes line.old ++ head_columns view.now sensor.now) }
{
    push_name_column(alloc, line, view)?;
    let number = ByteH(sensor.number);
    let entity = EntityInWords(sensor.entity);
    write!(line, " | {number} | {entity} | ")
}

/// Appends the reading column, padded to its width.
fn push_reading_column(
    line: &mut String,
    view: &SdrView,
    reading: KnownReading,
) -> Result<(), AllocError>
    ensures { OnOk result (AppendsPadded 17 (IsReadingInWords view.now reading)
        (string_bytes line.old) (string_bytes line.new)) }
{
    let start = line.as_bytes().len();
    push_reading_in_words(line, view, reading)?;
    pad(line, start, READING_WIDTH)
}

/// Appends ` | ` and a text, padded to the width of its column.
fn push_column(line: &mut String, text: &str, width: usize) -> Result<(), AllocError>
    ensures { OnOk result
        (string_bytes line.new ≡ string_bytes line.old ++ (codes " | " ++ padded_to width text.now)) }
{
    line.push_str(" | ")?;
    let start = line.as_bytes().len();
    line.push_str(text)?;
    pad(line, start, width)
}

/// The line of the sensor of a full or compact record.
fn line_of_sensor(
    alloc: Global,
    view: &SdrView,
    sensor: &Sensor,
    reading: KnownReading,
) -> Result<String, AllocError>
    ensures { IfOk result (λ text. IsLineOfSensor view.now sensor.now reading (string_bytes text)) }
{
    let mut line = String::with_capacity(alloc, LINE_CAPACITY)?;
    push_head_columns(alloc, &mut line, view, sensor)?;
    push_reading_column(&mut line, view, reading)?;
    push_column(&mut line, status_in_words(sensor, reading), STATUS_WIDTH)?;
    let severity = severity_column(sensor_severity(sensor, reading));
    push_column(&mut line, severity, SEVERITY_WIDTH)?;
    push_thresholds(&mut line, with_thresholds(view))?;
    line.push_str("\n")?;
    Ok(line)
}

/// The line of a sensor: the name of its record, its number, its entity, its reading, its status, its severity (a dash
/// for none), and the thresholds of its record, from lowest to highest. For a discrete sensor, the reading column has the states in words.
/// `reading` is what is known of the reading of the sensor that `SdrView::reading_of` names. If sensors share
/// the record, the number is that of the first. A record that is neither full nor compact has its line of `sdr_line`.
pub fn sensor_line(
    alloc: Global,
    view: &SdrView,
    reading: KnownReading,
) -> Result<String, AllocError>
    ensures { IfOk result (λ text. IsSensorLine view.now reading (string_bytes text)) }
{
    match view {
        Full(full) => line_of_sensor(alloc, view, &full.sensor(), reading),
        Compact(compact) => line_of_sensor(alloc, view, &compact.sensor(), reading),
        EventOnly(_) | Generic(_) | Fru(_) | Controller(_) | Other(_) => {
            sdr_line_with(alloc, view, reading)
        }
    }
}
