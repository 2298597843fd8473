//! The standing of a record's sensor: whether it is in trouble, by its reading.
ghost use Rattle.std.specs.Prelude.{◌≡◌};
ghost use Rattle.ipmi_records.specs.Prelude.{shown_of};
ghost use Rattle.ipmi_check.specs.Standing.{by_severity, is_in, of_sensor, standing_of};

use ipmi_events::{Severity, sensor_severity};
use ipmi_image::Lack;
use ipmi_program::captured;
use ipmi_records::{KnownReading, Sensor, Shown, shown_of};
use ipmi_sensors::FoundSensor;

/// Whether a record's sensor is in trouble, by its reading.
#[derive(Clone, Copy, Debug, PartialEq, Eq)]
pub enum Standing {
    /// What it shows is as it should be, or the standard does not say how bad it is.
    Sound,
    /// Someone should look at it.
    Warning,
    /// It needs help now.
    Critical,
    /// It has no reading.
    Silent,
    /// Another controller owns it, which is not asked.
    Elsewhere,
    /// The record has a fault or is not one of a sensor, or its reading was not captured.
    Unknown,
}

impl Standing {
    /// That of the sensor of a record, if the image lacks these items. A live controller lacks none.
    pub fn of(found: &FoundSensor, lacks: &[Lack]) -> Standing
        ensures { result ≡ standing_of lacks.now found.now }
    {
        let Ok(view) = found.view() else {
            return Standing::Unknown;
        };
        match view.sensor() {
            Some(sensor) => {
                let reading = KnownReading::from(found.reading());
                of_sensor(&sensor, captured(lacks, &view, reading))
            }
            None => Standing::Unknown,
        }
    }

    /// Whether it is this one.
    pub(crate) fn is(self, wanted: Standing) -> bool
        ensures { result ≡ is_in wanted self }
    {
        self == wanted
    }
}

/// The standing of a sensor with a reading of this severity.
fn by_severity(severity: Option<Severity>) -> Standing
    ensures { result ≡ by_severity severity }
{
    match severity {
        Some(Severity::Critical) => Standing::Critical,
        Some(Severity::Warning) => Standing::Warning,
        Some(Severity::Nominal) | None => Standing::Sound,
    }
}

/// The standing of a sensor, given what is known of its reading.
fn of_sensor(sensor: &Sensor, reading: KnownReading) -> Standing
    ensures { result ≡ of_sensor sensor.now reading (shown_of sensor.now reading) }
{
    match shown_of(sensor, reading) {
        Shown::OtherOwner => Standing::Elsewhere,
        Shown::NotCaptured => Standing::Unknown,
        Shown::NoReading => Standing::Silent,
        Shown::Value(_) => by_severity(sensor_severity(sensor, reading)),
    }
}
