//! Lines and blocks of sensors in words. The texts were put together by hand, from the tables of the standard and the
//! layout of each line.
use crate::cases::{assert_text, assert_text_or_refused, byte_of, known_of, parts};
use ipmi_events::{EntityWords, sensor_block, sensor_line};
use ipmi_fixtures::{CPU_TEMP, PSU1, PSU1_BLOCK};
use ipmi_records::{KnownReading, SdrView};
use std::alloc::{AllocError, Global};
use std::process::Abort;

/// `changes of CPU_TEMP|reading|line after the name`.
const FULL_LINES: &str =
    "|2dc00000|01h | processor 1 | 45 degrees C      | ok  | nominal  | - | - | - | 85 | 90 | 95
|none|01h | processor 1 | no reading        | ns  | -        | - | - | - | 85 | 90 | 95
|lacking|01h | processor 1 | not captured      | ns  | -        | - | - | - | 85 | 90 | 95
6=22|lacking|01h | processor 1 | other owner       | na  | -        | - | - | - | 85 | 90 | 95
|2d203f00|01h | processor 1 | no reading        | ns  | -        | - | - | - | 85 | 90 | 95
6=22|2dc03f00|01h | processor 1 | other owner       | na  | -        | - | - | - | 85 | 90 | 95
|2dc0c000|01h | processor 1 | 45 degrees C      | ok  | nominal  | - | - | - | 85 | 90 | 95
|2dc02000|01h | processor 1 | 45 degrees C      | unr | critical | - | - | - | 85 | 90 | 95
|2dc01000|01h | processor 1 | 45 degrees C      | ucr | critical | - | - | - | 85 | 90 | 95
|2dc00800|01h | processor 1 | 45 degrees C      | unc | warning  | - | - | - | 85 | 90 | 95
|2dc00400|01h | processor 1 | 45 degrees C      | lnr | critical | - | - | - | 85 | 90 | 95
|2dc00200|01h | processor 1 | 45 degrees C      | lcr | critical | - | - | - | 85 | 90 | 95
|2dc00100|01h | processor 1 | 45 degrees C      | lnc | warning  | - | - | - | 85 | 90 | 95
|2dc03f00|01h | processor 1 | 45 degrees C      | unr | critical | - | - | - | 85 | 90 | 95
|2dc01f00|01h | processor 1 | 45 degrees C      | lnr | critical | - | - | - | 85 | 90 | 95
|2dc01b00|01h | processor 1 | 45 degrees C      | ucr | critical | - | - | - | 85 | 90 | 95
|2dc00b00|01h | processor 1 | 45 degrees C      | lcr | critical | - | - | - | 85 | 90 | 95
|2dc00900|01h | processor 1 | 45 degrees C      | unc | warning  | - | - | - | 85 | 90 | 95
19=00|2dc00000|01h | processor 1 | 45 degrees C      | ok  | nominal  | - | - | - | - | - | -
19=07|2dc00000|01h | processor 1 | 45 degrees C      | ok  | nominal  | 0 | 0 | 0 | - | - | -
19=c0|2dc00000|01h | processor 1 | 45 degrees C      | ok  | nominal  | - | - | - | - | - | -
19=3f,40=05,41=0a,42=0f|2dc00000|01h | processor 1 | 45 degrees C      | ok  | nominal  | 5 | 10 | 15 | 85 | 90 | 95
30=f0|2dc00000|01h | processor 1 | 4.5 degrees C     | ok  | nominal  | - | - | - | 8.5 | 9 | 9.5
24=01|2dc00000|01h | processor 1 | raw 0x2d          | ok  | nominal  | - | - | - | raw 0x55 | raw 0x5a | raw 0x5f
21=c0|2d400182|01h | processor 1 | states 0x0201     | lnc | warning  | - | - | - | raw 0x55 | raw 0x5a | raw 0x5f
14=6f|2dc03f00|01h | processor 1 | 45 degrees C      | ok  | -        | - | - | - | - | - | -
21=c0,14=03|00400200|01h | processor 1 | State Asserted    | ok  | warning  | - | - | - | - | - | -
21=c0,14=03|00400300|01h | processor 1 | State Deasserted, State Asserted | ok  | warning  | - | - | - | - | - | -
21=c0,14=03|00400582|01h | processor 1 | State Deasserted, state 2, state 9 | ok  | -        | - | - | - | - | - | -
21=c0,14=03|00400040|01h | processor 1 | state 14          | ok  | -        | - | - | - | - | - | -
21=c0,14=03|00400080|01h | processor 1 | no state          | ok  | nominal  | - | - | - | - | - | -
21=c0,14=03|00400000|01h | processor 1 | no state          | ok  | nominal  | - | - | - | - | - | -
21=c0,14=03|none|01h | processor 1 | no reading        | ns  | -        | - | - | - | - | - | -
21=c0,14=03,6=22|00400200|01h | processor 1 | other owner       | na  | -        | - | - | - | - | - | -
8=af,9=0a,10=ff|2dc00000|AFh | power supply 127 | 45 degrees C      | ok  | nominal  | - | - | - | 85 | 90 | 95
9=43|2dc00000|01h | entity 0x43 1 | 45 degrees C      | ok  | nominal  | - | - | - | 85 | 90 | 95";

/// A compact record: sensor 05h, LUN 3, entity 7.1, event/reading type 03h.
const DOOR: &str = "030051021f2003050701000005030000000000\
    00c000000000000000000000c4446f6f72";

/// A compact record of four memory sensors, starting with number 10h. Its name ends with a space; the names of the sensors
/// add the numbers 1 to 4.
const DIMMS: &str = "0200510220200010200100000c6f00000000\
    00000000000401000000000000c544494d4d20";

/// An event-only record.
const EVT1: &str = "05005103102000302281126f00000000c445565431";

/// `reading of the sensor of DOOR|line`.
const COMPACT_LINES: &str =
    "00400200|Door             | 05h | system board 1 | State Asserted    | ok  | warning  | - | - | - | - | - | -
none|Door             | 05h | system board 1 | no reading        | ns  | -        | - | - | - | - | - | -
lacking|Door             | 05h | system board 1 | not captured      | ns  | -        | - | - | - | - | - | -";

/// The block of `CPU_TEMP` with a reading.
const CPU_TEMP_BLOCK: &str = "Record: 0001h
Name: CPU Temp
Sensor: 01h
Owner: 20h LUN 0
Entity: processor 1
Kind: Temperature
Reading: 90 degrees C
Status: ucr
Upper non-recoverable: 95 degrees C
Upper critical: 90 degrees C
Upper non-critical: 85 degrees C

";

/// The block of `CPU_TEMP` with event/reading type 03h.
const DISCRETE_BLOCK: &str = "Record: 0001h
Name: CPU Temp
Sensor: 01h
Owner: 20h LUN 0
Entity: processor 1
Kind: Temperature
Reading: no state
Status: ok

";

/// The block of `DOOR`.
const DOOR_BLOCK: &str = "Record: 00A3h
Name: Door
Sensor: 05h
Owner: 20h LUN 3
Entity: system board 1
Kind: Physical Security
Reading: State Asserted
Status: ok

";

/// The line of `DIMMS`. The first sensor has state 6.
const DIMMS_LINE: &str = "DIMM             | 10h | memory device 1 | Presence detected | ok  | \
    nominal  | - | - | - | - | - | -";

/// The block of `DIMMS`.
const DIMMS_BLOCK: &str = "Record: 0002h
Name: DIMM \n\
Sensor: 10h
Shared by: 4 sensors
Owner: 20h LUN 0
Entity: memory device 1
Kind: Memory
Reading: Presence detected
Status: ok

";

/// A compact record without a name. Its share count is 1, so it has one sensor.
const ALONE: &str = "0a0051021b200060200100000c6f00000000\
    00000000000100000000000000c0";

/// The block of `ALONE`.
const ALONE_BLOCK: &str = "Record: 000Ah
Name: \n\
Sensor: 60h
Owner: 20h LUN 0
Entity: memory device 1
Kind: Memory
Reading: no state
Status: ok

";

/// `entity id, name`.
const ENTITIES: &str = "00 unspecified
01 other
02 unknown
03 processor
0a power supply
15 power management / power distribution board
1d fan
2c I/O module
2d processor/I/O module
35 real time clock
36 entity 0x36
37 air inlet
38 entity 0x38
3f entity 0x3f
40 air inlet
41 processor
42 system board
43 entity 0x43
90 entity 0x90
ff entity 0xff";

/// `CPU_TEMP` with changes such as `14=6f`, separated by commas.
fn changed(rt: &impl Abort, changes: &str) -> [u8; 56] {
    ipmi_fixtures::changed(changes).expect(rt, changes)
}

/// Asserts the line of a record.
fn assert_line(rt: &impl Abort, alloc: Global, bytes: &[u8], answer: &str, wanted: &str) {
    let view = SdrView::read(bytes).expect(rt, wanted);
    let line = sensor_line(alloc, &view, known_of(rt, answer));
    let wanted_line = format!(in alloc; "{wanted}\n").expect(rt, wanted);
    assert_text(rt, line, wanted_line.as_str(), wanted);
}

/// Asserts the line of `CPU_TEMP` with changes, after its name.
fn assert_full_line(rt: &impl Abort, alloc: Global, case: &str) {
    let (changes, rest) = parts(rt, case);
    let (answer, wanted) = parts(rt, rest);
    let view_bytes = changed(rt, changes);
    let wanted = format!(in alloc; "CPU Temp         | {wanted}").expect(rt, case);
    assert_line(rt, alloc, &view_bytes, answer, wanted.as_str());
}

#[test]
fn each_full_record_has_its_line(rt: HostRuntime) {
    for case in FULL_LINES.lines() {
        assert_full_line(&rt, rt.alloc(), case);
    }
}

/// Asserts the line of a record in hex.
fn assert_line_of_hex(rt: &impl Abort, alloc: Global, digits: &str, answer: &str, wanted: &str) {
    let bytes = hex::decode(alloc, digits).expect(rt, digits);
    assert_line(rt, alloc, &bytes, answer, wanted);
}

#[test]
fn each_compact_record_has_its_line(rt: HostRuntime) {
    for case in COMPACT_LINES.lines() {
        let (answer, wanted) = parts(&rt, case);
        assert_line_of_hex(&rt, rt.alloc(), DOOR, answer, wanted);
    }
}

#[test]
fn any_other_record_has_the_line_of_sdr_list(rt: HostRuntime) {
    let line = "PSU1             | FRU 1             | na";
    assert_line(&rt, rt.alloc(), &PSU1, "none", line);
    let line = "EVT1             | event only        | na";
    assert_line_of_hex(&rt, rt.alloc(), EVT1, "2dc00000", line);
}

/// Asserts the block of a record with this id.
fn assert_block(rt: &impl Abort, alloc: Global, id: u16, bytes: &[u8], answer: &str, wanted: &str) {
    let view = SdrView::read(bytes).expect(rt, wanted);
    let block = sensor_block(alloc, id, &view, known_of(rt, answer));
    assert_text(rt, block, wanted, wanted);
}

#[test]
fn a_full_record_has_its_block(rt: HostRuntime) {
    assert_block(
        &rt,
        rt.alloc(),
        0x0001,
        &CPU_TEMP,
        "5ac01800",
        CPU_TEMP_BLOCK,
    );
    let discrete = changed(&rt, "14=03,21=c0");
    assert_block(
        &rt,
        rt.alloc(),
        0x0001,
        &discrete,
        "00400000",
        DISCRETE_BLOCK,
    );
}

#[test]
fn a_record_of_several_sensors_has_its_own_name(rt: HostRuntime) {
    assert_line_of_hex(&rt, rt.alloc(), DIMMS, "00404000", DIMMS_LINE);
    let dimms = hex::decode(rt.alloc(), DIMMS).expect(&rt, DIMMS);
    assert_block(&rt, rt.alloc(), 0x0002, &dimms, "00404000", DIMMS_BLOCK);
}

#[test]
fn any_other_record_has_its_block(rt: HostRuntime) {
    let door = hex::decode(rt.alloc(), DOOR).expect(&rt, DOOR);
    assert_block(&rt, rt.alloc(), 0x00A3, &door, "00400200", DOOR_BLOCK);
    let alone = hex::decode(rt.alloc(), ALONE).expect(&rt, ALONE);
    assert_block(&rt, rt.alloc(), 0x000A, &alone, "00400000", ALONE_BLOCK);
    assert_block(&rt, rt.alloc(), 0x0002, &PSU1, "none", PSU1_BLOCK);
}

/// Asserts the name of an entity.
fn assert_entity(rt: &impl Abort, alloc: Global, case: &str) {
    let (id, wanted) = case.split_once(' ').expect(rt, case);
    let entity = EntityWords(byte_of(rt, id));
    assert_text(rt, format!(in alloc; "{entity}"), wanted, case);
}

#[test]
fn each_entity_has_its_name(rt: HostRuntime) {
    for case in ENTITIES.lines() {
        assert_entity(&rt, rt.alloc(), case);
    }
}

/// The line of `CPU_TEMP` with a reading.
const CPU_TEMP_LINE: &str =
    "CPU Temp         | 01h | processor 1 | 90 degrees C      | ucr | critical | - | - | - | 85 | 90 | 95
";

/// A text, or out of memory.
type Made = Result<String, AllocError>;

/// The calls that make a text of a sensor, each with the expected text.
fn calls(alloc: Global, view: &SdrView<'_>, answer: KnownReading) -> [(Made, &'static str); 2] {
    [
        (sensor_line(alloc, view, answer), CPU_TEMP_LINE),
        (sensor_block(alloc, 0x0001, view, answer), CPU_TEMP_BLOCK),
    ]
}

// With ample memory each call returns its text.
#[test]
fn not_always_out_of_memory(rt: HostRuntime) {
    let view = SdrView::read(&CPU_TEMP).expect(&rt, "a record");
    for (text, wanted) in calls(rt.alloc(), &view, known_of(&rt, "5ac01800")) {
        assert_text(&rt, text, wanted, wanted);
    }
}

// With memory refused each call returns its text, or fails when out of memory.
#[test]
fn memory_may_be_refused(rt: HostRuntime) {
    let view = SdrView::read(&CPU_TEMP).expect(&rt, "a record");
    for (text, wanted) in calls(rt.alloc(), &view, known_of(&rt, "5ac01800")) {
        assert_text_or_refused(&rt, text, wanted);
    }
}
