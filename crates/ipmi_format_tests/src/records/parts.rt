//! Parts of a record's texts that other texts use: values with and without units, names, thresholds, and the state of a
//! sensor.
use super::examples::{answer_of, changed, event_of, full_of, with_byte};
use crate::cases::{assert_text, byte_of, known_of, parts, three_parts};
use ipmi_fixtures::{CPU_TEMP, EVENT, PSU1};
use ipmi_records::{
    EventEntry, FullSensor, SdrView, direction_text, has_thresholds, pad, push_name, push_raw,
    push_raw_byte, push_reading, push_value, sensor_of_event, shown_of, states_in, status_of,
    threshold_lines,
};
use std::alloc::{AllocError, Global};
use std::process::Abort;

/// `changes of CPU_TEMP|raw byte|value with units;value without units`.
const VALUES: &str = "|2d|45 degrees C;45
22=00|2d|45;45
21=80,30=f0|ff|-0.1 degrees C;-0.1
21=01,22=00|32|50 %;50
24=01|2d|raw 0x2d;raw 0x2d
21=c0|5c|raw 0x5c;raw 0x5c";

/// The value of a raw byte after a bar, with or without its units.
fn value_text(
    alloc: Global,
    full: &FullSensor<'_>,
    raw: u8,
    with_units: bool,
) -> Result<String, AllocError> {
    let mut text = String::from_str(alloc, "|")?;
    if with_units {
        push_raw(&mut text, full, raw)?;
    } else {
        push_value(&mut text, full, raw)?;
    }
    Ok(text)
}

/// Asserts the value of a raw byte, with and without units.
fn assert_value(rt: &impl Abort, alloc: Global, case: &str) {
    let (changes, raw, wanted) = three_parts(rt, case);
    let (with_units, plain) = wanted.split_once(';').expect(rt, case);
    let bytes = changed(rt, changes);
    let full = full_of(rt, &bytes);
    let raw = byte_of(rt, raw);
    let text = value_text(alloc, &full, raw, true).expect(rt, "memory");
    assert!(rt;
        text.as_str().strip_prefix("|") == Some(with_units),
        "{case}: got {text}"
    );
    let text = value_text(alloc, &full, raw, false).expect(rt, "memory");
    assert!(rt;
        text.as_str().strip_prefix("|") == Some(plain),
        "{case}: got {text}"
    );
}

#[test]
fn each_raw_byte_has_its_value(rt: HostRuntime) {
    for case in VALUES.lines() {
        assert_value(&rt, rt.alloc(), case);
    }
}

/// A raw byte without a record.
fn raw_byte_text(alloc: Global, raw: u8) -> Result<String, AllocError> {
    let mut text = String::from_str(alloc, "at ")?;
    push_raw_byte(&mut text, raw)?;
    Ok(text)
}

#[test]
fn a_raw_byte_is_printed_in_hex(rt: HostRuntime) {
    assert_text(&rt, raw_byte_text(rt.alloc(), 0x0c), "at raw 0x0c", "0Ch");
}

/// The name of a record in a column of ten characters, its reading and its status.
fn columns_text(
    alloc: Global,
    bytes: &[u8],
    digits: &str,
    rt: &impl Abort,
) -> Result<String, AllocError> {
    let view = SdrView::read(bytes).expect(rt, digits);
    let answer = known_of(rt, digits);
    let mut text = String::from_str(alloc, "|")?;
    push_name(alloc, &mut text, &view)?;
    pad(&mut text, 1, 10)?;
    push_reading(&mut text, &view, answer)?;
    let status = status_of(&view, answer);
    write!(text, "|{status}")?;
    Ok(text)
}

#[test]
fn a_record_has_its_name_reading_and_status(rt: HostRuntime) {
    let text = columns_text(rt.alloc(), &CPU_TEMP, "5ac01800", &rt);
    assert_text(&rt, text, "|CPU Temp  90 degrees C|cr", "CPU Temp");
    let text = columns_text(rt.alloc(), &CPU_TEMP, "lacking", &rt);
    assert_text(&rt, text, "|CPU Temp  not captured|ns", "not captured");
    let text = columns_text(rt.alloc(), &PSU1, "none", &rt);
    assert_text(&rt, text, "|PSU1      FRU 1|na", "PSU1");
}

/// `changes of CPU_TEMP|reading|expected state`.
const SHOWN: &str = "|none|NoReading
|lacking|NotCaptured
6=21|lacking|OtherOwner
|2d200000|NoReading
|2d400000|Value(Reading { raw: 45, flags: 64, status: 0, more: 0 })
6=21|2d400000|OtherOwner";

/// Asserts the state of the sensor of `CPU_TEMP` with changes.
fn assert_shown(rt: &impl Abort, alloc: Global, case: &str) {
    let (changes, digits, wanted) = three_parts(rt, case);
    let bytes = changed(rt, changes);
    let sensor = full_of(rt, &bytes).sensor();
    let shown = shown_of(&sensor, known_of(rt, digits));
    assert_text(rt, format!(in alloc; "{shown:?}"), wanted, case);
}

#[test]
fn each_sensor_shows_what_it_has(rt: HostRuntime) {
    for case in SHOWN.lines() {
        assert_shown(&rt, rt.alloc(), case);
    }
}

/// `reading|states`.
const STATES: &str = "00400182|513
0040ff7f|32767
0040ffff|32767
00400000|0";

/// Asserts the states of a discrete sensor.
fn assert_states(rt: &impl Abort, case: &str) {
    let (digits, wanted) = parts(rt, case);
    let states = states_in(answer_of(rt, digits).expect(rt, case));
    assert!(rt; wanted.parse::<u16>() == Ok(states), "{case}: got {states}");
}

#[test]
fn each_answer_has_its_states(rt: HostRuntime) {
    for case in STATES.lines() {
        assert_states(&rt, case);
    }
}

/// The threshold lines of `CPU_TEMP`.
const THRESHOLDS: &str = "Upper non-recoverable: 95 degrees C
Upper critical: 90 degrees C
Upper non-critical: 85 degrees C
";

/// Asserts the threshold lines of `CPU_TEMP` with another event/reading type.
fn assert_threshold_lines(rt: &impl Abort, alloc: Global, event_type: u8, wanted: &str) {
    let bytes = with_byte(rt, CPU_TEMP, 14, event_type);
    let full = full_of(rt, &bytes);
    let sensor = full.sensor();
    assert!(rt; has_thresholds(&sensor) != wanted.is_empty(), "{wanted}");
    assert_text(rt, threshold_lines(alloc, &full, &sensor), wanted, wanted);
}

#[test]
fn only_a_sensor_with_thresholds_has_lines_of_them(rt: HostRuntime) {
    assert_threshold_lines(&rt, rt.alloc(), 0x01, THRESHOLDS);
    assert_threshold_lines(&rt, rt.alloc(), 0x6f, "");
}

/// The sensor of an event, and its direction.
fn event_text(alloc: Global, event: &EventEntry<'_>) -> Result<String, AllocError> {
    let sensor = sensor_of_event(event);
    let direction = direction_text(event);
    format!(in alloc; "{sensor} {direction}")
}

#[test]
fn an_event_has_its_sensor_and_its_direction(rt: HostRuntime) {
    let text = event_text(rt.alloc(), &event_of(&rt, &EVENT));
    assert_text(&rt, text, "Temperature #0x30 Asserted", "the event");
    let mut bytes = EVENT;
    bytes[12] = 0x81;
    let text = event_text(rt.alloc(), &event_of(&rt, &bytes));
    assert_text(&rt, text, "Temperature #0x30 Deasserted", "its end");
}
