//! The words of the generic event/reading types (IPMI v2.0, table 42-2).
ghost use Rattle.std.specs.Prelude.{◌≡◌, option_map};
ghost use Rattle.ipmi_events.specs.Generic.{generic_words};

use crate::table::{table_from_one, words_at};
use ipmi_text::{THRESHOLD_EVENT_TYPE, event_name};

/// Type 02h: usage states.
const USAGE_STATES: [&str; 3] = [
    "Transition to Idle",
    "Transition to Active",
    "Transition to Busy",
];

/// Type 03h: digital states.
const DIGITAL_STATES: [&str; 2] = ["State Deasserted", "State Asserted"];

/// Type 04h: predictive failure.
const PREDICTIVE_FAILURE: [&str; 2] = [
    "Predictive Failure deasserted",
    "Predictive Failure asserted",
];

/// Type 05h: limit exceeded.
const LIMIT: [&str; 2] = ["Limit Not Exceeded", "Limit Exceeded"];

/// Type 06h: performance.
const PERFORMANCE: [&str; 2] = ["Performance Met", "Performance Lags"];

/// Type 07h: severities.
const SEVERITIES: [&str; 9] = [
    "transition to OK",
    "transition to Non-Critical from OK",
    "transition to Critical from less severe",
    "transition to Non-recoverable from less severe",
    "transition to Non-Critical from more severe",
    "transition to Critical from Non-recoverable",
    "transition to Non-recoverable",
    "Monitor",
    "Informational",
];

/// Type 08h: device presence.
const DEVICE_PRESENCE: [&str; 2] = [
    "Device Removed / Device Absent",
    "Device Inserted / Device Present",
];

/// Type 09h: device enabled.
const DEVICE_ENABLED: [&str; 2] = ["Device Disabled", "Device Enabled"];

/// Type 0Ah: availability.
const AVAILABILITY: [&str; 9] = [
    "transition to Running",
    "transition to In Test",
    "transition to Power Off",
    "transition to On Line",
    "transition to Off Line",
    "transition to Off Duty",
    "transition to Degraded",
    "transition to Power Save",
    "Install Error",
];

/// Type 0Bh: redundancy.
const REDUNDANCY: [&str; 8] = [
    "Fully Redundant",
    "Redundancy Lost",
    "Redundancy Degraded",
    "Non-redundant: Sufficient Resources from Redundant",
    "Non-redundant: Sufficient Resources from Insufficient Resources",
    "Non-redundant: Insufficient Resources",
    "Redundancy Degraded from Fully Redundant",
    "Redundancy Degraded from Non-redundant",
];

/// Type 0Ch: ACPI device power states.
const DEVICE_POWER_STATES: [&str; 4] = [
    "D0 Power State",
    "D1 Power State",
    "D2 Power State",
    "D3 Power State",
];

/// No words here: those of type 01h are in `ipmi_text::event_name`.
const ELSEWHERE: [&str; 0] = [];

/// The tables, starting at type 01h.
const GENERIC: [&[&str]; 12] = [
    &ELSEWHERE,
    &USAGE_STATES,
    &DIGITAL_STATES,
    &PREDICTIVE_FAILURE,
    &LIMIT,
    &PERFORMANCE,
    &SEVERITIES,
    &DEVICE_PRESENCE,
    &DEVICE_ENABLED,
    &AVAILABILITY,
    &REDUNDANCY,
    &DEVICE_POWER_STATES,
];

/// The words of a generic event/reading type at an offset.
#[tactic(auto, unfolding(crate::specs::Generic::generic_words))]
pub(crate) fn generic_words(event_type: u8, offset: u8) -> Option<&'static str>
    ensures { option_map (λ s. s.now) result ≡ generic_words event_type offset }
{
    if event_type == THRESHOLD_EVENT_TYPE {
        event_name(event_type, offset)
    } else {
        words_at(table_from_one(&GENERIC, event_type), offset)
    }
}
