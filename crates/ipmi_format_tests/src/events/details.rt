//! The details in event data 2 and 3. The texts were put together by hand, from tables 29-6, 42-2 and 42-3 of the
//! standard.
use crate::cases::{byte_of, parts, three_parts};
use hex::FromHex;
use ipmi_events::push_details;
use ipmi_fixtures::{CPU_TEMP, changed};
use ipmi_records::{EventEntry, FullSensor, SdrView, SelView};
use std::alloc::{AllocError, Global};
use std::process::Abort;

/// `event data|details with CPU_TEMP;details without a record` of asserted threshold events.
const THRESHOLDS: &str =
    "595c5a|Reading 92 degrees C > threshold 90;Reading raw 0x5c > threshold raw 0x5a
500405|Reading 4 degrees C < threshold 5;Reading raw 0x04 < threshold raw 0x05
5b605f|Reading 96 degrees C > threshold 95;Reading raw 0x60 > threshold raw 0x5f
595a5a|Reading 90 degrees C = threshold 90;Reading raw 0x5a = threshold raw 0x5a
500505|Reading 5 degrees C = threshold 5;Reading raw 0x05 = threshold raw 0x05
510605|Reading 6 degrees C > threshold 5;Reading raw 0x06 > threshold raw 0x05
565455|Reading 84 degrees C < threshold 85;Reading raw 0x54 < threshold raw 0x55
572d5a|Reading 45 degrees C, threshold 90;Reading raw 0x2d, threshold raw 0x5a
505a05|Reading 90 degrees C, threshold 5;Reading raw 0x5a, threshold raw 0x05
495c5a|Reading 92 degrees C;Reading raw 0x5c
195c5a|Threshold 90 degrees C;Threshold raw 0x5a
095c5a|;
695c5a|Reading 92 degrees C, data 3 0x5a;Reading raw 0x5c, data 3 0x5a
995c5a|Threshold 90 degrees C, data 2 0x5c;Threshold raw 0x5a, data 2 0x5c
a95c5a|data 2 0x5c, data 3 0x5a;data 2 0x5c, data 3 0x5a
f90c0a|data 2 0x0c, data 3 0x0a;data 2 0x0c, data 3 0x0a
595cff|Reading 92 degrees C;Reading raw 0x5c
59ff5a|Threshold 90 degrees C;Threshold raw 0x5a
59ffff|;
a9ffff|;
f9ffff|data 2 0xff, data 3 0xff;data 2 0xff, data 3 0xff";

/// The same for deasserted events.
const DEASSERTED: &str =
    "575455|Reading 84 degrees C, threshold 85;Reading raw 0x54, threshold raw 0x55
570005|Reading 0 degrees C, threshold 5;Reading raw 0x00, threshold raw 0x05
575555|Reading 85 degrees C, threshold 85;Reading raw 0x55, threshold raw 0x55
475455|Reading 84 degrees C;Reading raw 0x54
175455|Threshold 85 degrees C;Threshold raw 0x55";

/// `changes of CPU_TEMP|event data|details` of asserted threshold events. Bits 7:6 of byte 21 are the format of a raw byte:
/// 10b is 2's complement, and 11b has no analog reading. Byte 24 is the linearization. M is byte 25 and bits 7:6 of byte
/// 26, in 2's complement, and B begins with byte 27.
const VALUES: &str = "25=00,27=05|595c5a|Reading 5 degrees C = threshold 5
25=00,27=05|505c5a|Reading 5 degrees C = threshold 5
25=ff,26=c0|59050a|Reading -5 degrees C > threshold -10
25=ff,26=c0|590a05|Reading -10 degrees C, threshold -5
25=ff,26=c0|500a05|Reading -10 degrees C < threshold -5
25=ff,26=c0|59fe01|Reading -254 degrees C, threshold -1
21=80|50fe05|Reading -2 degrees C < threshold 5
21=80|5905fe|Reading 5 degrees C > threshold -2
21=80|5005fe|Reading 5 degrees C, threshold -2
21=c0|595c5a|Reading raw 0x5c > threshold raw 0x5a
24=01|595c5a|Reading raw 0x5c > threshold raw 0x5a
24=01|592d5a|Reading raw 0x2d, threshold raw 0x5a";

/// `event/reading type and sensor type, event data|details`: states, severities and OEM codes.
const STATES: &str =
    "0701 422102|was transition to Non-Critical from OK, severity transition to Critical from less severe
6f0d 41f000|was Drive Presence
6f0d 412fff|severity transition to Critical from less severe
6f0d 41ff00|
6f0d 419e00|was offset 14 of type 0x6f, severity offset 9 of type 0x07
0b08 61120c|was Redundancy Degraded, severity transition to Non-Critical from OK, data 3 0x0c
6f0d 015c5a|
6f0d 815c5a|data 2 0x5c
6f0d 215c5a|data 3 0x5a
6f0d 115c5a|
6f0d a15c5a|data 2 0x5c, data 3 0x5a
6f0d a1ffff|
6f0d a1ff5a|data 3 0x5a
6f0d a15cff|data 2 0x5c
6f0d 61f0ff|was Drive Presence";

/// `sensor type, event data|details` of sensor-specific events with extension codes.
const EXTENSIONS: &str = "05 c402ff|network controller 2
05 c302ff|data 2 0x02
08 36ff03|Power Supply rating mismatch
08 36ff14|Voltage rating mismatch
08 36ff05|data 3 0x05
08 f60003|data 2 0x00, Power Supply rating mismatch
0c 30ff05|memory module 5
0c 3affff|memory module 255
0c 3bff05|data 3 0x05
0f c004ff|Unrecoverable system-board failure
0f c00eff|data 2 0x0e
0f c116ff|Floppy initialization
0f c215ff|data 2 0x15
0f c219ff|Primary processor initialization
10 c011ff|memory module 17
10 f16f27|event type 0x6f, all events of the type, deassertion, offset 7
10 f10117|event type 0x01, assertion, offset 7
10 35ff5a|SEL filled, percent 90
10 f60180|processor 1, Vendor-specific processor number
10 f60200|processor 2, Entity Instance number
12 c331ff|log cleared, OEM 1
12 c30fff|entry added, log type 0x0f
12 c362ff|log entry action 0x06, OEM 2
12 c3f3ff|log entry action 0x0f, log type 0x03
12 c429ff|Diagnostic Interrupt (NMI), power cycle, Alert
12 c416ff|OEM action, reset, power off
12 c400ff|data 2 0x00
12 c581ff|second of pair, SDR Timestamp Clock updated
12 c502ff|first of pair, clock type 0x02
19 f0050d|requested S5 / G2 soft-off, at the time unknown
19 f00d0e|data 2 0x0d, data 3 0x0e
1d f70102|cause Chassis Control command, channel 2
21 f2870c|DIMM/memory device, slot 12
23 c024ff|interrupt type NMI, timer use SMS/OS
23 c8f1ff|interrupt type unspecified, timer use BIOS FRB2
23 c846ff|interrupt type 0x04, timer use 0x06
23 c816ff|interrupt type SMI, timer use 0x06
23 c042ff|interrupt type 0x04, timer use BIOS/POST
23 c942ff|data 2 0x42
28 c020ff|sensor 0x20
28 c43aff|sensor 0x3a
28 f59342|logical FRU device, LUN 2, private bus 3, FRU device ID or address 0x42
2a f10321|user 3, Session deactivated by timeout, channel 1
2a f10301|user 3, Session deactivated by unspecified cause, channel 1
2a f1041f|user 4, Session deactivated by Close Session command, channel 15
2a f10032|user unspecified, Session deactivated by configuration change, channel 2
2a f0c40e|user 4, channel 14
2a f00021|user unspecified, channel 1
2a f2053f|user 5, channel 15
2a f30531|user 5, channel 1
2a f40531|data 2 0x05, data 3 0x31
2b c109ff|system firmware (EFI / BIOS) change
2b c118ff|data 2 0x18
2c c437ff|State Change due to operator pressing the hot swap push button, was FRU Communication Lost
2c c4f9ff|State Change, Cause Unknown, was state 0x09
2c c4b1ff|cause 0x0b, was FRU Inactive
2c c4e8ff|cause 0x0e, was state 0x08
01 f05c5a|data 2 0x5c, data 3 0x5a
01 f0ffff|data 2 0xff, data 3 0xff";

/// An event of this event/reading type and sensor type, with these digits as event data.
fn entry_of(rt: &impl Abort, event_type: u8, sensor_type: u8, digits: &str) -> [u8; 16] {
    let [one, two, three] = <[u8; 3]>::from_hex(digits).expect(rt, digits);
    [
        1,
        0,
        2,
        0,
        0,
        0,
        0x20,
        0x20,
        0,
        4,
        sensor_type,
        1,
        event_type,
        one,
        two,
        three,
    ]
}

/// The event in the bytes of an entry.
fn event_of<'a>(rt: &impl Abort, bytes: &'a [u8; 16]) -> EventEntry<'a> {
    match SelView::read(bytes) {
        SelView::Event(event) => event,
        _ => panic!(rt; "no event: {bytes:?}"),
    }
}

/// A bar, followed by the details of an event.
fn details_text(
    alloc: Global,
    event: &EventEntry<'_>,
    full: Option<&FullSensor<'_>>,
) -> Result<String, AllocError> {
    let mut text = String::from_str(alloc, "|")?;
    push_details(&mut text, event, full)?;
    Ok(text)
}

/// Asserts the details of an event whose sensor has no full record.
fn assert_details(rt: &impl Abort, alloc: Global, bytes: &[u8; 16], wanted: &str, case: &str) {
    let text = details_text(alloc, &event_of(rt, bytes), None).expect(rt, "memory");
    assert!(rt;
        text.as_str().strip_prefix("|") == Some(wanted),
        "{case}: got {text}"
    );
}

/// Asserts the details of an event whose sensor has a full record.
fn assert_details_by_record(
    rt: &impl Abort,
    alloc: Global,
    record: &[u8],
    bytes: &[u8; 16],
    wanted: &str,
) {
    let Ok(SdrView::Full(full)) = SdrView::read(record) else {
        panic!(rt; "no full sensor record: {wanted}");
    };
    let text = details_text(alloc, &event_of(rt, bytes), Some(&full)).expect(rt, "memory");
    assert!(rt;
        text.as_str().strip_prefix("|") == Some(wanted),
        "{wanted}: got {text}"
    );
}

/// Asserts the details of a threshold event, with and without `CPU_TEMP`. Bit 7 of the event type is set if the event
/// is deasserted.
fn assert_threshold_details(rt: &impl Abort, alloc: Global, event_type: u8, case: &str) {
    let (digits, wanted) = parts(rt, case);
    let (by_record, raw) = wanted.split_once(';').expect(rt, case);
    let bytes = entry_of(rt, event_type, 0x01, digits);
    assert_details_by_record(rt, alloc, &CPU_TEMP, &bytes, by_record);
    assert_details(rt, alloc, &bytes, raw, case);
}

#[test]
fn a_threshold_event_has_its_reading_and_threshold(rt: HostRuntime) {
    for case in THRESHOLDS.lines() {
        assert_threshold_details(&rt, rt.alloc(), 0x01, case);
    }
    for case in DEASSERTED.lines() {
        assert_threshold_details(&rt, rt.alloc(), 0x81, case);
    }
}

/// Asserts the details of a threshold event, with changes of `CPU_TEMP`.
fn assert_details_by_values(rt: &impl Abort, alloc: Global, case: &str) {
    let (changes, digits, wanted) = three_parts(rt, case);
    let record = changed(changes).expect(rt, case);
    let bytes = entry_of(rt, 0x01, 0x01, digits);
    assert_details_by_record(rt, alloc, &record, &bytes, wanted);
}

// The sign is true of the two numbers, whatever the bytes are. Without values the bytes are the numbers.
#[test]
fn the_values_decide_the_sign(rt: HostRuntime) {
    for case in VALUES.lines() {
        assert_details_by_values(&rt, rt.alloc(), case);
    }
}

/// Asserts the details of a discrete event.
fn assert_discrete_details(rt: &impl Abort, alloc: Global, case: &str) {
    let (code, wanted) = parts(rt, case);
    let (types, digits) = code.split_once(' ').expect(rt, case);
    let (event_type, sensor_type) = types.split_at_checked(2).expect(rt, case);
    let bytes = entry_of(
        rt,
        byte_of(rt, event_type),
        byte_of(rt, sensor_type),
        digits,
    );
    assert_details(rt, alloc, &bytes, wanted, case);
}

#[test]
fn a_discrete_event_has_its_states_and_codes(rt: HostRuntime) {
    for case in STATES.lines() {
        assert_discrete_details(&rt, rt.alloc(), case);
    }
}

/// Asserts the details of a sensor-specific event.
fn assert_extension_details(rt: &impl Abort, alloc: Global, case: &str) {
    let (code, wanted) = parts(rt, case);
    let (sensor_type, digits) = code.split_once(' ').expect(rt, case);
    let bytes = entry_of(rt, 0x6f, byte_of(rt, sensor_type), digits);
    assert_details(rt, alloc, &bytes, wanted, case);
}

#[test]
fn a_sensor_specific_event_has_its_extension_codes(rt: HostRuntime) {
    for case in EXTENSIONS.lines() {
        assert_extension_details(&rt, rt.alloc(), case);
    }
}

#[test]
fn only_a_sensor_specific_event_has_extension_codes(rt: HostRuntime) {
    let bytes = entry_of(&rt, 0x03, 0x0c, "f15c05");
    assert_details(&rt, rt.alloc(), &bytes, "data 2 0x5c, data 3 0x05", "03h");
}
