//! What makes a sensor or an event worse than nominal, in words.
ghost use Rattle.std.specs.Prelude.{◌≡◌, ◌<◌, [], ◌∷◌, cond, option_map};
ghost use Rattle.std.specs.List.{find};
ghost use Rattle.ipmi_records.specs.Prelude.{event_type, has_bit, sensor_type, shown_of};
ghost use Rattle.ipmi_events.specs.Reason.{event_reason, first_with, has_severity, if_worse, sensor_reason, threshold_words, worst_state};
ghost use Rattle.ipmi_events.specs.Words.{event_offset, event_words};

use crate::event_lines::OFFSET_BITS;
use crate::severity::{Severity, event_severity, severity_of};
use crate::states::{STATES, is_set};
use crate::status::worst_passed;
use crate::words::event_words;
use crate::worst::{discrete_severity, rank};
use ipmi_records::{
    EventEntry, KnownReading, Sensor, Shown, Threshold, has_thresholds, shown_of, states_in,
};

/// A threshold in words (IPMI v2.0, table 42-2).
fn threshold_words(threshold: Threshold) -> &'static str
    ensures { result.now ≡ threshold_words threshold }
{
    match threshold {
        Threshold::UpperNonRecoverable => "Upper Non-recoverable",
        Threshold::UpperCritical => "Upper Critical",
        Threshold::UpperNonCritical => "Upper Non-critical",
        Threshold::LowerNonRecoverable => "Lower Non-recoverable",
        Threshold::LowerCritical => "Lower Critical",
        Threshold::LowerNonCritical => "Lower Non-critical",
    }
}

/// Whether a state has this severity.
fn has_severity(sensor: &Sensor, severity: Option<Severity>, state: u8) -> bool
    ensures { result ≡ has_severity sensor.now severity state }
{
    rank(severity_of(sensor.event_type, sensor.sensor_type, state)) == rank(severity)
}

/// This state, if it is set and has this severity.
fn state_with(sensor: &Sensor, severity: Option<Severity>, states: u16, state: u8) -> Option<u8>
    requires { state < 15 }
    ensures { result ≡ find (has_severity sensor.now severity) (cond (has_bit state states) (state ∷ []) []) }
{
    if is_set(states, state) && has_severity(sensor, severity, state) {
        Some(state)
    } else {
        None
    }
}

/// The first state that is set and has this severity.
fn first_with(sensor: &Sensor, severity: Option<Severity>, states: u16) -> Option<u8>
    ensures { result ≡ first_with sensor.now severity states }
{
    let mut first = None;
    for state in 0..STATES {
        first = first.or(state_with(sensor, severity, states, state));
    }
    first
}

/// These words for a severity that is worse than nominal.
fn if_worse(severity: Option<Severity>, words: Option<&'static str>) -> Option<&'static str>
    ensures { option_map (λ s. s.now) result ≡ if_worse severity (option_map (λ s. s.now) words.entry) }
{
    match severity {
        Some(Severity::Warning | Severity::Critical) => words,
        Some(Severity::Nominal) | None => None,
    }
}

/// The words of the worst state that is set, the first of several, if it is worse than nominal.
#[tactic(auto, unfolding(crate::specs::Reason::worst_state))]
fn worst_state(sensor: &Sensor, states: u16) -> Option<&'static str>
    ensures { option_map (λ s. s.now) result ≡ worst_state sensor.now states }
{
    let severity = discrete_severity(sensor, states);
    let words = match first_with(sensor, severity, states) {
        Some(state) => event_words(sensor.event_type, sensor.sensor_type, state),
        None => None,
    };
    if_worse(severity, words)
}

/// What makes a sensor worse than nominal, in the words of the standard: the worst threshold that its reading has passed, or the worst state
/// that is set, the first of several. None if it is nominal or has no severity.
pub fn sensor_reason(sensor: &Sensor, reading: KnownReading) -> Option<&'static str>
    ensures { option_map (λ s. s.now) result ≡ sensor_reason sensor.now (shown_of sensor.now reading) }
{
    match shown_of(sensor, reading) {
        Shown::OtherOwner | Shown::NotCaptured | Shown::NoReading => None,
        Shown::Value(reading) if has_thresholds(sensor) => {
            match worst_passed(reading.status) {
                Some(threshold) => Some(threshold_words(threshold)),
                None => None,
            }
        }
        Shown::Value(reading) => worst_state(sensor, states_in(reading)),
    }
}

/// The state that an event reports, in the words of the standard, if the event is worse than nominal.
pub fn event_reason(event: &EventEntry<'_>) -> Option<&'static str>
    ensures { option_map (λ s. s.now) result ≡ event_reason event.now }
{
    let offset = event.data_bytes()[0] & OFFSET_BITS;
    let words = event_words(event.event_type(), event.sensor_type(), offset);
    if_worse(event_severity(event), words)
}
