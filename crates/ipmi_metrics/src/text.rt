//! The metrics of the sensors that one walk found, of the event log, and of the search itself.
ghost use Rattle.std.specs.Prelude.{◌≡◌, ◌++◌, codes, count_by, IfOk, OnOk, option_map, string_bytes};
ghost use Rattle.ipmi_text.specs.Appended.{Appends};
ghost use Rattle.ipmi_text.specs.Texts.{AreTexts};
ghost use Rattle.ipmi_metrics.specs.Families.{families};
ghost use Rattle.ipmi_metrics.specs.Gathered.{IsFamilyOf};
ghost use Rattle.ipmi_metrics.specs.Metrics.{end_of, faults_part, gauge, is_faulty, IsFamily, IsMetricsText, log_gauges, log_part, up_part};

use crate::families::{FAMILIES, Family, push_head, push_with_head};
use crate::gathered::Gathered;
use ipmi_records::Info;
use ipmi_sensors::{FoundSensor, FoundSensors};
use std::alloc::{AllocError, Global};

/// The capacity for all but the samples of sensors.
const OTHER_CAPACITY: usize = 4096;

/// The text format.
#[derive(Clone, Copy, Debug, PartialEq, Eq)]
pub enum Dialect {
    /// The text format 0.0.4 of Prometheus.
    Prometheus,
    /// OpenMetrics 1.0.
    OpenMetrics,
}

/// Appends these families.
fn push_families(
    text: &mut String,
    families: &[Family],
    gathered: &Gathered,
) -> Result<(), AllocError>
    ensures { OnOk result (Appends (AreTexts (IsFamilyOf gathered.now) families.now) (string_bytes text.old) (string_bytes text.new)) }
{
    for family in families {
        push_with_head(text, *family, gathered.samples(*family))?;
    }
    Ok(())
}

/// The families of all sensors.
fn sensors_text(alloc: Global, found: &[FoundSensor]) -> Result<String, AllocError>
    ensures { IfOk result (λ text. AreTexts (IsFamily found.now) families (string_bytes text)) }
{
    let mut gathered = Gathered::new(alloc);
    gathered.add_all(alloc, found)?;
    let mut text = String::with_capacity(alloc, gathered.room(OTHER_CAPACITY))?;
    push_families(&mut text, &FAMILIES, &gathered)?;
    Ok(text)
}

/// Appends a family with one sample, which has these labels in braces, or none.
#[tactic(auto, unfolding(crate::specs::Metrics::gauge))]
fn push_gauge(
    text: &mut String,
    name: &str,
    help: &str,
    labels: &str,
    value: usize,
) -> Result<(), AllocError>
    ensures { OnOk result (string_bytes text.new ≡ string_bytes text.old ++ gauge name.now help.now labels.now value) }
{
    push_head(text, name, help)?;
    write!(text, "{name}{labels} {value}\n")
}

/// Whether the record has a fault.
fn is_faulty(found: &FoundSensor) -> bool
    ensures { result ≡ is_faulty found.now }
{
    found.view().is_err()
}

/// How many records have a fault.
fn count_faulty(found: &[FoundSensor]) -> usize
    ensures { result ≡ count_by is_faulty found.now }
{
    found.iter().filter(|sensor| is_faulty(sensor)).count()
}

/// Appends how many records have a fault.
fn push_faults(text: &mut String, found: &[FoundSensor]) -> Result<(), AllocError>
    ensures { OnOk result (string_bytes text.new ≡ string_bytes text.old ++ faults_part found.now) }
{
    let name = "ipmi_sdr_faulty_records";
    let help = "Sensor data records with a fault, of which nothing else is said.";
    push_gauge(text, name, help, "", count_faulty(found))
}

/// Appends how many entries the event log with this info has, and its free space.
fn push_log_gauges(text: &mut String, info: &[u8; 14]) -> Result<(), AllocError>
    ensures { OnOk result (string_bytes text.new ≡ string_bytes text.old ++ log_gauges info.now) }
{
    let info = Info::read(info);
    let entries = usize::from(info.record_count);
    let free = usize::from(info.free_space);
    let help = "Entries of the event log.";
    push_gauge(text, "ipmi_sel_entries", help, "", entries)?;
    let help = "Bytes that are free in the event log; 65535 is that or more.";
    push_gauge(text, "ipmi_sel_free_space_bytes", help, "", free)?;
    Ok(())
}

/// Appends what the info of the event log says. Appends nothing without one.
fn push_log(text: &mut String, info: Option<&[u8; 14]>) -> Result<(), AllocError>
    ensures { OnOk result (string_bytes text.new ≡ string_bytes text.old
        ++ log_part (option_map (λ info. info.now) info.entry)) }
{
    match info {
        Some(info) => push_log_gauges(text, info),
        None => Ok(()),
    }
}

/// Appends whether all sensors could be asked.
fn push_up(text: &mut String, is_up: bool) -> Result<(), AllocError>
    ensures { OnOk result (string_bytes text.new ≡ string_bytes text.old ++ up_part is_up) }
{
    let value = if is_up { 1 } else { 0 };
    let help = "1 if all sensors could be asked, else 0.";
    push_gauge(text, "ipmi_up", help, "{collector=\"ipmi\"}", value)
}

/// The end of a text.
fn end_of(dialect: Dialect) -> &'static str
    ensures { result.now ≡ end_of dialect }
{
    match dialect {
        Dialect::Prometheus => "",
        Dialect::OpenMetrics => "# EOF\n",
    }
}

/// The metrics of the sensors that a search found. A reading that an image lacks is shown as none. `info` is that of the event log, if it
/// was read. `is_up` says whether all sensors could be asked.
pub fn metrics_text(
    alloc: Global,
    found: &FoundSensors,
    info: Option<&[u8; 14]>,
    is_up: bool,
    dialect: Dialect,
) -> Result<String, AllocError>
    ensures { IfOk result (λ text. IsMetricsText found.now (option_map (λ info. info.now) info.entry) is_up dialect
        (string_bytes text)) }
{
    let found = found.as_slice();
    let mut text = sensors_text(alloc, found)?;
    push_faults(&mut text, found)?;
    push_log(&mut text, info)?;
    push_up(&mut text, is_up)?;
    text.push_str(end_of(dialect))?;
    Ok(text)
}
