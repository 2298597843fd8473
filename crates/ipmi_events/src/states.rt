//! The states of a discrete sensor in words.
ghost use Rattle.std.specs.Prelude.{◌≡◌, ◌++◌, ◌<◌, OnOk, Some, string_bytes};
ghost use Rattle.ipmi_records.specs.Prelude.{has_bit};
ghost use Rattle.ipmi_events.specs.States.{state_words, states_in_words};

use crate::words::event_words;
use ipmi_records::Sensor;
use std::alloc::AllocError;
use std::fmt;

/// The number of states of a discrete sensor (IPMI v2.0, section 35.14).
pub(crate) const STATES: u8 = 15;

/// A state of a discrete sensor, printed as the words of its event, or as `state 3` if the standard has no words for
/// it.
#[derive(Clone, Copy)]
struct StateWords {
    event_type: u8,
    sensor_type: u8,
    state: u8,
}

impl fmt::Display for StateWords {
    ghost output = { λ words. Some (state_words words.event_type words.sensor_type words.state) };

    fn fmt<W: fmt::Write>(&self, f: &mut fmt::Formatter<W>) -> fmt::Result {
        match event_words(self.event_type, self.sensor_type, self.state) {
            Some(words) => f.write_str(words),
            None => {
                let state = self.state;
                write!(f, "state {state}")
            }
        }
    }
}

/// Whether a state is set.
pub(crate) fn is_set(states: u16, state: u8) -> bool
    requires { state < 15 }
    ensures { result ≡ has_bit state states }
{
    states >> state & 1 == 1
}

/// Appends the states that are set, starting with state 0, joined by `, `. Appends `no state` if none is set.
pub(crate) fn push_states(text: &mut String, sensor: &Sensor, states: u16) -> Result<(), AllocError>
    ensures { OnOk result
        (string_bytes text.new ≡ string_bytes text.old ++ states_in_words sensor.now states) }
{
    let mut separator = "";
    for state in 0..STATES {
        if is_set(states, state) {
            let words = StateWords {
                event_type: sensor.event_type,
                sensor_type: sensor.sensor_type,
                state,
            };
            write!(text, "{separator}{words}")?;
            separator = ", ";
        }
    }
    if separator.is_empty() {
        return text.push_str("no state");
    }
    Ok(())
}
