//! Entries of the event log.
use crate::cases::{assert_line, bytes_of};
use ipmi_events::Sensors;
use ipmi_json::{Label, sel_entry_line};
use ipmi_records::SelView;
use std::alloc::{AllocError, Global};

/// A threshold event of 2020.
pub(crate) const THRESHOLD: [u8; 16] = [
    0x01, 0x00, 0x02, 0x00, 0x10, 0x5e, 0x5f, 0x20, 0x00, 0x04, 0x01, 0x01, 0x01, 0x57, 0x47, 0x46,
];

const THRESHOLD_LINE: &str =
    r#"{"object":"sel_entry","record_id":1,"record_type":2,"kind":"event","timestamp":"2020-09-13T12:26:40Z","timestamp_raw":1600000000,"generator_id":32,"event_revision":4,"sensor_type":1,"sensor_type_name":"Temperature","sensor_number":1,"sensor_name":null,"event_type":1,"event":"Upper Non-critical going high","event_words":"Upper Non-critical going high","direction":"asserted","severity":"warning","severity_reason":"Upper Non-critical going high","event_data":"574746","event_details":"Reading raw 0x47 > threshold raw 0x46","raw":"01000200105e5f200004010101574746"}"#;

/// A deassertion without a time, of the second of four memory sensors.
pub(crate) const MEMORY: [u8; 16] = [
    0x02, 0x00, 0x02, 0xff, 0xff, 0xff, 0xff, 0x20, 0x00, 0x04, 0x0c, 0x11, 0xef, 0x01, 0xff, 0xff,
];

pub(crate) const MEMORY_LINE: &str =
    r#"{"object":"sel_entry","record_id":2,"record_type":2,"kind":"event","timestamp":null,"timestamp_raw":4294967295,"generator_id":32,"event_revision":4,"sensor_type":12,"sensor_type_name":"Memory","sensor_number":17,"sensor_name":"DIMM 2","event_type":111,"event":"event 0x6f offset 0x1","event_words":"Uncorrectable ECC / other uncorrectable memory error","direction":"deasserted","severity":"nominal","severity_reason":null,"event_data":"01ffff","event_details":null,"raw":"020002ffffffff2000040c11ef01ffff"}"#;

/// The same event, with an offset that the standard does not name, and of a sensor without a record.
const UNKNOWN: [u8; 16] = [
    0x03, 0x00, 0x02, 0x00, 0x00, 0x00, 0x20, 0x20, 0x00, 0x04, 0xc0, 0x99, 0x6f, 0x0f, 0xff, 0xff,
];

const UNKNOWN_LINE: &str =
    r#"{"object":"sel_entry","record_id":3,"record_type":2,"kind":"event","timestamp":null,"timestamp_raw":536870912,"generator_id":32,"event_revision":4,"sensor_type":192,"sensor_type_name":"sensor type 0xc0","sensor_number":153,"sensor_name":null,"event_type":111,"event":"event 0x6f offset 0xf","event_words":null,"direction":"asserted","severity":null,"severity_reason":null,"event_data":"0fffff","event_details":null,"raw":"03000200000020200004c0996f0fffff"}"#;

/// A threshold event of the processor's temperature. The record has the name and the units.
pub(crate) const HOT: [u8; 16] = [
    0x05, 0x00, 0x02, 0x00, 0x10, 0x5e, 0x5f, 0x20, 0x00, 0x04, 0x01, 0x01, 0x01, 0x59, 0x5c, 0x5a,
];

const HOT_LINE: &str =
    r#"{"object":"sel_entry","record_id":5,"record_type":2,"kind":"event","timestamp":"2020-09-13T12:26:40Z","timestamp_raw":1600000000,"generator_id":32,"event_revision":4,"sensor_type":1,"sensor_type_name":"Temperature","sensor_number":1,"sensor_name":"CPU Temp","event_type":1,"event":"Upper Critical going high","event_words":"Upper Critical going high","direction":"asserted","severity":"critical","severity_reason":"Upper Critical going high","event_data":"595c5a","event_details":"Reading 9.2 degrees C > threshold 9","raw":"05000200105e5f200004010101595c5a"}"#;

/// The same event with a reading below the threshold, although the event says that it went high.
pub(crate) const COLD: [u8; 16] = [
    0x06, 0x00, 0x02, 0x00, 0x10, 0x5e, 0x5f, 0x20, 0x00, 0x04, 0x01, 0x01, 0x01, 0x59, 0x2d, 0x5a,
];

const COLD_LINE: &str =
    r#"{"object":"sel_entry","record_id":6,"record_type":2,"kind":"event","timestamp":"2020-09-13T12:26:40Z","timestamp_raw":1600000000,"generator_id":32,"event_revision":4,"sensor_type":1,"sensor_type_name":"Temperature","sensor_number":1,"sensor_name":"CPU Temp","event_type":1,"event":"Upper Critical going high","event_words":"Upper Critical going high","direction":"asserted","severity":"critical","severity_reason":"Upper Critical going high","event_data":"592d5a","event_details":"Reading 4.5 degrees C, threshold 9","raw":"06000200105e5f200004010101592d5a"}"#;

/// An OEM timestamped record, one without a time stamp, and an entry of another type.
pub(crate) const TIMED: [u8; 16] = [
    0x02, 0x00, 0xc1, 0x00, 0x10, 0x00, 0x00, 0x57, 0x01, 0x00, 0x01, 0x02, 0x03, 0x04, 0x05, 0x06,
];

const TIMED_LINE: &str =
    r#"{"object":"sel_entry","record_id":2,"record_type":193,"kind":"oem_timestamped","timestamp":null,"timestamp_raw":4096,"manufacturer_id":343,"oem_data":"010203040506","raw":"0200c100100000570100010203040506"}"#;

pub(crate) const PLAIN: [u8; 16] = [
    0x03, 0x00, 0xe0, 0x01, 0x02, 0x03, 0x04, 0x05, 0x06, 0x07, 0x08, 0x09, 0x0a, 0x0b, 0x0c, 0x0d,
];

const PLAIN_LINE: &str =
    r#"{"object":"sel_entry","record_id":3,"record_type":224,"kind":"oem","oem_data":"0102030405060708090a0b0c0d","raw":"0300e00102030405060708090a0b0c0d"}"#;

pub(crate) const OTHER: [u8; 16] = [
    0x04, 0x00, 0x03, 0x01, 0x02, 0x03, 0x04, 0x05, 0x06, 0x07, 0x08, 0x09, 0x0a, 0x0b, 0x0c, 0x0d,
];

/// The line of `OTHER` with labels. Their texts are escaped.
const OTHER_LINE: &str =
    r#"{"object":"sel_entry","record_id":4,"record_type":3,"kind":"unknown","oem_data":"0102030405060708090a0b0c0d","raw":"0400030102030405060708090a0b0c0d","host":"web\"17\\","no\tte":"\u0001\né"}"#;

/// A record of four memory sensors, `DIMM`, starting with number 10h, and the full record of a temperature.
pub(crate) const SENSORS: &str =
    "020051021f200010200100000c6f0000000000000000000401000000000000c444494d4d010051013320000103017f680101000000003838000100000100000000f00000000000005f5a550000000202000000c84350552054656d70";

/// The line of an entry, without a table of sensors.
fn line_of(alloc: Global, id: u16, entry: &[u8; 16]) -> Result<Vec<u8>, AllocError> {
    let view = SelView::read(entry);
    sel_entry_line(alloc, id, &view, None, &[])
}

/// The line of an entry, with a table of sensors.
fn named_line(
    alloc: Global,
    id: u16,
    entry: &[u8; 16],
    sensors: &Sensors,
) -> Result<Vec<u8>, AllocError> {
    let view = SelView::read(entry);
    sel_entry_line(alloc, id, &view, Some(sensors), &[])
}

#[test]
fn events(rt: HostRuntime) {
    let alloc = rt.alloc();
    let records = bytes_of(&rt, alloc, SENSORS);
    let sensors = Sensors::of(alloc, records).expect(&rt, "memory");
    assert_line(&rt, line_of(alloc, 1, &THRESHOLD), THRESHOLD_LINE);
    assert_line(&rt, named_line(alloc, 2, &MEMORY, &sensors), MEMORY_LINE);
    assert_line(&rt, named_line(alloc, 3, &UNKNOWN, &sensors), UNKNOWN_LINE);
    assert_line(&rt, named_line(alloc, 5, &HOT, &sensors), HOT_LINE);
    assert_line(&rt, named_line(alloc, 6, &COLD, &sensors), COLD_LINE);
    drop(sensors);
}

#[test]
fn entries_of_other_types(rt: HostRuntime) {
    let alloc = rt.alloc();
    assert_line(&rt, line_of(alloc, 2, &TIMED), TIMED_LINE);
    assert_line(&rt, line_of(alloc, 3, &PLAIN), PLAIN_LINE);
    let labels = [
        Label {
            key: "host",
            value: "web\"17\\",
        },
        Label {
            key: "no\tte",
            value: "\u{1}\n\u{e9}",
        },
    ];
    let line = sel_entry_line(alloc, 4, &SelView::read(&OTHER), None, &labels);
    assert_line(&rt, line, OTHER_LINE);
}
