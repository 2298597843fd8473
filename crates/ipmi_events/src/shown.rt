//! The reading column of a sensor in words.
ghost use Rattle.std.specs.Prelude.{◌≡◌, ◌++◌, OnOk, string_bytes};
ghost use Rattle.ipmi_events.specs.Below.{Appends, shown_of};
ghost use Rattle.ipmi_events.specs.Shown.{IsReadingInWords, discrete_column, discrete_sensor, unless_thresholds};

use crate::states::push_states;
use ipmi_records::SdrView::{self, Compact, Full};
use ipmi_records::{
    KnownReading, Sensor, Shown, has_thresholds, push_reading, shown_of, states_in,
};
use ipmi_text::NO_ANALOG_READING;
use std::alloc::AllocError;

/// The sensor, if it has no thresholds.
fn unless_thresholds(sensor: Sensor) -> Option<Sensor>
    ensures { result ≡ unless_thresholds sensor }
{
    if has_thresholds(&sensor) {
        None
    } else {
        Some(sensor)
    }
}

/// The discrete sensor of a record that defines no conversion of readings. Such a sensor shows states.
fn discrete_sensor(view: &SdrView) -> Option<Sensor>
    ensures { result ≡ discrete_sensor view.now }
{
    match view {
        Full(full) if full.analog_format() == NO_ANALOG_READING => {
            unless_thresholds(full.sensor())
        }
        Compact(compact) => unless_thresholds(compact.sensor()),
        _ => None,
    }
}

/// Appends the reading column of a discrete sensor.
fn push_discrete(
    text: &mut String,
    sensor: &Sensor,
    reading: KnownReading,
) -> Result<(), AllocError>
    ensures { OnOk result (string_bytes text.new ≡ string_bytes text.old
        ++ discrete_column sensor.now (shown_of sensor.now reading)) }
{
    match shown_of(sensor, reading) {
        Shown::OtherOwner => text.push_str("other owner"),
        Shown::NotCaptured => text.push_str("not captured"),
        Shown::NoReading => text.push_str("no reading"),
        Shown::Value(reading) => push_states(text, sensor, states_in(reading)),
    }
}

/// Appends the reading column of a record's sensor: for a discrete sensor its states in words, for any other the
/// reading column of `sdr_line`.
pub fn push_reading_in_words(
    text: &mut String,
    view: &SdrView,
    reading: KnownReading,
) -> Result<(), AllocError>
    ensures { OnOk result (Appends (IsReadingInWords view.now reading) (string_bytes text.old)
        (string_bytes text.new)) }
{
    match discrete_sensor(view) {
        Some(sensor) => push_discrete(text, &sensor, reading),
        None => push_reading(text, view, reading),
    }
}
