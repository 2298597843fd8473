//! The states of a sensor in words.
ghost use Rattle.std.specs.Prelude.{◌≡◌, ◌<◌, ◌∷◌, [], IfOk, OnOk, codes, map, string_bytes};
ghost use Rattle.ipmi_records.specs.Prelude.{has_bit};
ghost use Rattle.ipmi_events.specs.States.{state_words};
ghost use Rattle.ipmi_json.specs.Members.{Tells};
ghost use Rattle.ipmi_json.specs.Sdr.{state_words_shown, texts_of_states};

use crate::members::Members;
use crate::object::Value;
use ipmi_events::event_words;
use ipmi_records::{Sensor, Shown, has_thresholds, states_in};
use std::alloc::{AllocError, Global};

/// The number of states of a discrete sensor (IPMI v2.0, section 35.14).
const STATES: u8 = 15;

/// Whether a state is set.
fn is_set(states: u16, state: u8) -> bool
    requires { state < 15 }
    ensures { result ≡ has_bit state states }
{
    states >> state & 1 == 1
}

/// The words of a state from the standard's tables, or else its number.
fn state_text(alloc: Global, sensor: &Sensor, state: u8) -> Result<String, AllocError>
    ensures { IfOk result (λ text. string_bytes text ≡
        state_words sensor.now.event_type sensor.now.sensor_type state) }
{
    match event_words(sensor.event_type, sensor.sensor_type, state) {
        Some(words) => String::from_str(alloc, words),
        None => format!(in alloc; "state {state}"),
    }
}

/// The words of the states that are set, starting with state 0.
fn texts_of_states(alloc: Global, sensor: &Sensor, states: u16) -> Result<Vec<String>, AllocError>
    ensures { IfOk result (λ texts. map (λ text. string_bytes text) texts.items ≡
        texts_of_states sensor.now states) }
{
    let mut texts = Vec::new(alloc);
    for state in 0..STATES {
        if is_set(states, state) {
            texts.push(state_text(alloc, sensor, state)?)?;
        }
    }
    Ok(texts)
}

/// Tells the words of the states that a reading shows; null without a reading, and of a sensor with thresholds.
pub(crate) fn tell_state_words<M: Members>(
    alloc: Global,
    out: &mut M,
    sensor: &Sensor,
    shown: Shown,
) -> Result<(), AllocError>
    ensures { OnOk result (Tells M.told ((codes "state_words", state_words_shown sensor.now shown) ∷ [])
        out.old out.new) }
{
    let Shown::Value(reading) = shown else {
        return out.put("state_words", Value::Null);
    };
    if has_thresholds(sensor) {
        return out.put("state_words", Value::Null);
    }
    let texts = texts_of_states(alloc, sensor, states_in(reading))?;
    out.put("state_words", Value::Texts(texts.as_slice()))
}
