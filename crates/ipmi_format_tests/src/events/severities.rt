//! The severities of events. tests/live/severities.py compares those of all offsets with FreeIPMI's.
use crate::cases::{byte_of, parts};
use ipmi_events::{Severity, event_severity, event_words};
use ipmi_records::SelView;
use std::process::Abort;

/// The event/reading type of sensor-specific events.
const SENSOR_SPECIFIC: u8 = 0x6f;

/// The severity of an event with these bytes: the sensor type, direction and event/reading type, and event data 1.
fn severity_of(rt: &impl Abort, sensor_type: u8, event_type: u8, data1: u8) -> Option<Severity> {
    let mut bytes = [0; 16];
    bytes[2] = 0x02;
    bytes[10] = sensor_type;
    bytes[12] = event_type;
    bytes[13] = data1;
    match SelView::read(&bytes) {
        SelView::Event(event) => event_severity(&event),
        _ => panic!(rt; "no event"),
    }
}

/// `these three bytes|severity`: thresholds that were passed, and one that is no longer; states of all three severities; a presence, one
/// that ended, and an absence; a state that the vendor knows; offsets that are reserved, an OEM type, and a sensor type without offsets.
const SEVERITIES: &str = "01 01 50|warning
01 01 52|critical
01 01 57|warning
01 01 56|nominal
01 81 52|nominal
01 01 5b|critical
01 01 0c|none
0d 6f 00|nominal
0d ef 00|nominal
0d 6f a1|critical
08 6f a3|critical
08 6f 08|none
05 6f 00|critical
0c 6f 20|warning
0c 6f 01|critical
c0 03 01|warning
c0 03 00|nominal
04 0b 00|nominal
04 0b 01|critical
08 08 00|critical
08 08 01|nominal
07 07 04|warning
23 6f 04|none
23 ef 04|none
2a 6f 02|warning
0c 70 01|none
0c f0 01|none
01 6f 00|none
00 6f 00|none
ff 6f 00|none
01 00 00|none";

fn assert_severity(rt: &impl Abort, case: &str) {
    let (bytes, wanted) = parts(rt, case);
    let (sensor_type, rest) = bytes.split_once(' ').expect(rt, case);
    let (event_type, data1) = rest.split_once(' ').expect(rt, case);
    let (sensor_type, event_type) = (byte_of(rt, sensor_type), byte_of(rt, event_type));
    let got = match severity_of(rt, sensor_type, event_type, byte_of(rt, data1)) {
        Some(severity) => severity.as_str(),
        None => "none",
    };
    assert!(rt; got == wanted, "{case}: got {got}");
}

#[test]
fn events_have_these_severities(rt: HostRuntime) {
    for case in SEVERITIES.lines() {
        assert_severity(&rt, case);
    }
}

#[test]
fn an_event_has_a_severity_if_it_has_words(rt: HostRuntime) {
    for code in 0..=0x7f {
        for offset in 0..16 {
            let generic = severity_of(&rt, 0x01, code, offset).is_some();
            assert!(rt;
                generic == event_words(code, 0x01, offset).is_some(),
                "{code} {offset}"
            );
            let specific = severity_of(&rt, code, SENSOR_SPECIFIC, offset).is_some();
            let has_words = event_words(SENSOR_SPECIFIC, code, offset).is_some();
            assert!(rt; specific == has_words, "sensor type {code} {offset}");
        }
    }
}
