//! How bad what a sensor shows is.
ghost use Rattle.std.specs.Prelude.{◌≡◌};
ghost use Rattle.ipmi_records.specs.Prelude.{shown_of};
ghost use Rattle.ipmi_events.specs.Worst.{discrete_severity, passed_severity, rank, sensor_severity, worse_of};

use crate::severity::{Severity, severity_of};
use crate::states::{STATES, is_set};
use crate::status::worst_passed;
use ipmi_records::{KnownReading, Sensor, Shown, Threshold, has_thresholds, shown_of, states_in};

/// The place of a severity among the others, from the best: what has none comes before a warning.
pub(crate) fn rank(severity: Option<Severity>) -> u8
    ensures { result ≡ rank severity }
{
    match severity {
        Some(Severity::Nominal) => 0,
        None => 1,
        Some(Severity::Warning) => 2,
        Some(Severity::Critical) => 3,
    }
}

/// The worse of two severities.
fn worse_of(one: Option<Severity>, other: Option<Severity>) -> Option<Severity>
    ensures { result ≡ worse_of one other }
{
    if rank(one) < rank(other) { other } else { one }
}

/// The severity of the worst state that is set; nominal without one.
pub(crate) fn discrete_severity(sensor: &Sensor, states: u16) -> Option<Severity>
    ensures { result ≡ discrete_severity sensor.now states }
{
    let mut worst = Some(Severity::Nominal);
    for state in 0..STATES {
        if is_set(states, state) {
            let severity = severity_of(sensor.event_type, sensor.sensor_type, state);
            worst = worse_of(worst, severity);
        }
    }
    worst
}

/// The severity by the worst threshold that the reading has passed.
fn passed_severity(threshold: Option<Threshold>) -> Severity
    ensures { result ≡ passed_severity threshold }
{
    match threshold {
        None => Severity::Nominal,
        Some(Threshold::UpperNonCritical | Threshold::LowerNonCritical) => Severity::Warning,
        Some(
            Threshold::UpperCritical
            | Threshold::LowerCritical
            | Threshold::UpperNonRecoverable
            | Threshold::LowerNonRecoverable,
        ) => Severity::Critical,
    }
}

/// The severity of what a sensor shows: by the worst threshold that its reading has passed, or of the worst state that is set. None without
/// a reading, and where the standard has no words for a state and none is worse than nominal.
pub fn sensor_severity(sensor: &Sensor, reading: KnownReading) -> Option<Severity>
    ensures { result ≡ sensor_severity sensor.now (shown_of sensor.now reading) }
{
    match shown_of(sensor, reading) {
        Shown::OtherOwner | Shown::NotCaptured | Shown::NoReading => None,
        Shown::Value(reading) if has_thresholds(sensor) => {
            Some(passed_severity(worst_passed(reading.status)))
        }
        Shown::Value(reading) => discrete_severity(sensor, states_in(reading)),
    }
}
