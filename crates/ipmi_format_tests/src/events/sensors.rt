//! Records found by the owner, LUN and number of a sensor, and the names of sensors.
use super::records::sensors;
use crate::cases::{assert_text, byte_of, parts};
use hex::FromHex;
use ipmi_events::{Sensors, push_sensor_name, record_for, status_in_words};
use ipmi_records::{KnownReading, SdrView, SelView};
use ipmi_text::Reading;
use std::alloc::{AllocError, Global};
use std::process::Abort;

/// `owner, LUN and number|id of the record`, which is 0 if there is none.
const FOUND: &str = "200001|1
200002|0
20000f|0
200010|2
200012|2
200013|2
200014|0
20002f|0
200030|3
200032|3
200033|0
200040|6
200041|0
4103fd|0
4103fe|7
4103ff|7
410300|0
420300|0
4102fe|0
200180|0
200050|9
200051|0
200060|10
200061|0
200070|0
200101|0
200401|0
20ff01|0
400001|0
000000|0
ffffff|0";

/// `modifier and share count, offset, number of the sensor|name` of sensors that share `DIMM`. The first two are bytes 24
/// and 25 of the record. The name ends with a space.
const NAMES: &str = "040110|DIMM 1
040111|DIMM 2
040113|DIMM 4
0f7f1e|DIMM 141
0fff10|DIMM 127
140010|DIMM A
140012|DIMM C
121810|DIMM Y
121811|DIMM Z
121910|DIMM Z
131911|DIMM AA
131912|DIMM AB
123310|DIMM AZ
123311|DIMM BA
1f7f1e|DIMM EL
240110|DIMM \n\
340111|DIMM \n\
000510|DIMM \n\
010510|DIMM \n\
110510|DIMM ";

/// A compact record of several sensors, starting with number 10h. The ID string is `DIMM `.
const DIMM: [u8; 37] = [
    0x02, 0x00, 0x51, 0x02, 0x20, 0x20, 0x00, 0x10, 0x20, 0x01, 0x00, 0x00, 0x0c, 0x6f, 0x00, 0x00,
    0x00, 0x00, 0x00, 0x00, 0x00, 0x00, 0x00, 0x04, 0x01, 0x00, 0x00, 0x00, 0x00, 0x00, 0x00, 0xc5,
    0x44, 0x49, 0x4d, 0x4d, 0x20,
];

/// `record|number of the sensor|name` of other records. The first are the standard's examples.
const OTHER_NAMES: &str = "\
020051021f200010200100000c6f0000000000000000000305000000000000c454656d70|10|Temp 5
020051021f200010200100000c6f0000000000000000000305000000000000c454656d70|11|Temp 6
020051021f200010200100000c6f0000000000000000000305000000000000c454656d70|12|Temp 7
020051021f200010200100000c6f000000000000000000131a000000000000c454656d70|10|Temp AA
020051021f200010200100000c6f000000000000000000131a000000000000c454656d70|12|Temp AC
020051021f200010200100000c6f0000000000000000002305000000000000c454656d70|10|Temp
020051021f200010200100000c6f0000000000000000000105000000000000c454656d70|10|Temp
0200510220200010200100000c6f0000000000000000000400000000000000c544494d4d31|10|DIMM1 0
030051030f2000301d01040313190000c346616e|31|Fan AA
03005103102000301d01040313190000c446616e20|31|Fan AA
03005103102000301d01040303190000c446616e20|31|Fan 26
080051110f200180000000000a0100c450535531|80|PSU1
090051021b200050200100000c6f0000000000000000000405000000000000c0|51|
0c0051c003aabbcc|00|";

/// The id of the record that is found, or 0.
fn found_id(sensors: &Sensors, key: [u8; 3]) -> u16 {
    let [owner, lun, number] = key;
    match sensors.find(owner, lun, number) {
        Some(view) => view.id(),
        None => 0,
    }
}

fn assert_found_id(rt: &impl Abort, sensors: &Sensors, case: &str) {
    let (digits, wanted) = parts(rt, case);
    let key = <[u8; 3]>::from_hex(digits).expect(rt, case);
    let wanted = wanted.parse::<u16>().expect(rt, case);
    assert_eq!(rt; found_id(sensors, key), wanted, "{case}");
}

#[test]
fn each_sensor_has_its_record(rt: HostRuntime) {
    let sensors = sensors(&rt, rt.alloc());
    for case in FOUND.lines() {
        assert_found_id(&rt, &sensors, case);
    }
    drop(sensors);
}

#[test]
fn no_records_are_of_no_sensor(rt: HostRuntime) {
    let sensors = Sensors::of(rt.alloc(), Vec::new(rt.alloc())).expect(&rt, "memory");
    assert_eq!(&rt; found_id(&sensors, [0x20, 0, 1]), 0);
    drop(sensors);
}

/// The name of the sensor with this number.
fn name_of(alloc: Global, view: &SdrView<'_>, number: u8) -> Result<String, AllocError> {
    let mut name = String::new(alloc);
    push_sensor_name(alloc, &mut name, view, number)?;
    Ok(name)
}

fn assert_name(rt: &impl Abort, alloc: Global, case: &str) {
    let (digits, wanted) = parts(rt, case);
    let [sharing, offset, number] = <[u8; 3]>::from_hex(digits).expect(rt, case);
    let mut bytes = DIMM;
    bytes[23] = sharing;
    bytes[24] = offset;
    let view = SdrView::read(&bytes).expect(rt, case);
    assert_text(rt, name_of(alloc, &view, number), wanted, case);
}

#[test]
fn sensors_that_share_a_record_have_names_of_their_own(rt: HostRuntime) {
    for case in NAMES.lines() {
        assert_name(&rt, rt.alloc(), case);
    }
}

fn assert_name_of_other(rt: &impl Abort, alloc: Global, case: &str) {
    let (digits, rest) = parts(rt, case);
    let (number, wanted) = parts(rt, rest);
    let bytes = hex::decode(alloc, digits).expect(rt, case);
    let view = SdrView::read(&bytes).expect(rt, case);
    assert_text(rt, name_of(alloc, &view, byte_of(rt, number)), wanted, case);
}

#[test]
fn records_of_other_kinds_give_names(rt: HostRuntime) {
    for case in OTHER_NAMES.lines() {
        assert_name_of_other(&rt, rt.alloc(), case);
    }
}

/// An event of the third memory sensor, at address 20h, over channel 1.
const DIMM_EVENT: [u8; 16] = [
    0x01, 0x00, 0x02, 0x00, 0x00, 0x00, 0x00, 0x20, 0x10, 0x04, 0x0c, 0x12, 0x6f, 0x01, 0xff, 0xff,
];

/// The id of the record of an event's sensor, or 0.
fn id_for(entry: &[u8; 16], sensors: &Sensors) -> u16 {
    let SelView::Event(event) = SelView::read(entry) else {
        return 0;
    };
    match record_for(&event, sensors) {
        Some(view) => view.id(),
        None => 0,
    }
}

#[test]
fn an_event_has_the_record_of_its_sensor(rt: HostRuntime) {
    let sensors = sensors(&rt, rt.alloc());
    assert_eq!(&rt; id_for(&DIMM_EVENT, &sensors), 2);
    drop(sensors);
}

/// The status in words of the first temperature sensor.
fn status(rt: &impl Abort, sensors: &Sensors, reading: KnownReading) -> &'static str {
    let view = sensors.find(0x20, 0, 1).expect(rt, "a record");
    let sensor = view.sensor().expect(rt, "a sensor");
    status_in_words(&sensor, reading)
}

#[test]
fn a_sensor_has_its_status_in_words(rt: HostRuntime) {
    let sensors = sensors(&rt, rt.alloc());
    let hot = Reading {
        raw: 0x5a,
        flags: 0xc0,
        status: 0x18,
        more: 0,
    };
    assert_eq!(&rt; status(&rt, &sensors, KnownReading::Present(hot)), "ucr");
    assert_eq!(&rt; status(&rt, &sensors, KnownReading::Absent), "ns");
    assert_eq!(&rt; status(&rt, &sensors, KnownReading::NotCaptured), "ns");
    drop(sensors);
}
