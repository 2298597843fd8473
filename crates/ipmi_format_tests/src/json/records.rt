//! Sensor data records.
use crate::cases::{assert_line, bytes_of};
use ipmi_json::{sdr_fault_line, sdr_raw_line, sdr_record_line};
use ipmi_records::{KnownReading, SdrFault, SdrView};
use ipmi_text::Reading;

/// A full record of a temperature in tenths of a degree. Its upper thresholds, 9.5, 9 and 8.5, are readable.
pub(crate) const FULL: &str =
    "010051013320000103017f680101000000003838000100000100000000f00000000000005f5a550000000202000000c84350552054656d70";

pub(crate) const READ_LINE: &str =
    r#"{"object":"sdr_record","record_id":1,"record_type":1,"kind":"full","name":"CPU Temp","owner_id":32,"owner_lun":0,"sensor_number":1,"entity_id":3,"entity_name":"processor","entity_instance":1,"sensor_type":1,"sensor_type_name":"Temperature","event_type":1,"reading":9.2,"unit":"degrees C","reading_raw":92,"states":24,"state_words":null,"status":"cr","status_words":"ucr","severity":"critical","severity_reason":"Upper Critical","upper_non_recoverable":9.5,"upper_critical":9,"upper_non_critical":8.5,"lower_non_recoverable":null,"lower_critical":null,"lower_non_critical":null,"raw":"010051013320000103017f680101000000003838000100000100000000f00000000000005f5a550000000202000000c84350552054656d70"}"#;

const UNREAD_LINE: &str =
    r#"{"object":"sdr_record","record_id":1,"record_type":1,"kind":"full","name":"CPU Temp","owner_id":32,"owner_lun":0,"sensor_number":1,"entity_id":3,"entity_name":"processor","entity_instance":1,"sensor_type":1,"sensor_type_name":"Temperature","event_type":1,"reading":null,"unit":"degrees C","reading_raw":null,"states":null,"state_words":null,"status":"ns","status_words":"ns","severity":null,"severity_reason":null,"upper_non_recoverable":9.5,"upper_critical":9,"upper_non_critical":8.5,"lower_non_recoverable":null,"lower_critical":null,"lower_non_critical":null,"raw":"010051013320000103017f680101000000003838000100000100000000f00000000000005f5a550000000202000000c84350552054656d70"}"#;

const NOT_CAPTURED_LINE: &str =
    r#"{"object":"sdr_record","record_id":1,"record_type":1,"kind":"full","name":"CPU Temp","owner_id":32,"owner_lun":0,"sensor_number":1,"entity_id":3,"entity_name":"processor","entity_instance":1,"sensor_type":1,"sensor_type_name":"Temperature","event_type":1,"reading":null,"unit":"degrees C","reading_raw":null,"states":null,"state_words":null,"status":"ns","status_words":"not captured","severity":null,"severity_reason":null,"upper_non_recoverable":9.5,"upper_critical":9,"upper_non_critical":8.5,"lower_non_recoverable":null,"lower_critical":null,"lower_non_critical":null,"raw":"010051013320000103017f680101000000003838000100000100000000f00000000000005f5a550000000202000000c84350552054656d70"}"#;

/// A reading of the full record's sensor, above the upper critical threshold. Bits 7:6 of the status, and the byte after it,
/// mean nothing for a sensor with thresholds.
pub(crate) const HOT: Reading = Reading {
    raw: 92,
    flags: 0xc0,
    status: 0xd8,
    more: 0x85,
};

/// A compact record of a discrete sensor with states 1, 3 and 14. The standard has a name only for the first.
pub(crate) const COMPACT: &str =
    "030051021f200305070100000503000000000000c000000000000000000000c4446f6f72";

const COMPACT_LINE: &str =
    r#"{"object":"sdr_record","record_id":163,"record_type":2,"kind":"compact","name":"Door","owner_id":32,"owner_lun":3,"sensor_number":5,"entity_id":7,"entity_name":"system board","entity_instance":1,"sensor_type":5,"sensor_type_name":"Physical Security","event_type":3,"reading":null,"unit":null,"reading_raw":0,"states":16394,"state_words":["State Asserted","state 3","state 14"],"status":"ok","status_words":"ok","severity":"warning","severity_reason":"State Asserted","raw":"030051021f200305070100000503000000000000c000000000000000000000c4446f6f72"}"#;

pub(crate) const DOOR: Reading = Reading {
    raw: 0,
    flags: 0x40,
    status: 0x0a,
    more: 0xc0,
};

/// Records without a reading, each with its line after `record_id`: an event-only one; a generic locator, whose name has
/// quotes, a backslash, a control character and letters of Latin-1; one without a name; FRU locators of a logical device and
/// of one that is not; a locator of a controller; and one of another type. The addresses of three of them have bit 0 set.
const OTHERS: &str =
    r#"05005103102000302281126f00000000c445565431 "record_type":3,"kind":"event_only","name":"EVT1","owner_id":32,"owner_lun":0,"sensor_number":48,"entity_id":34,"entity_name":"system firmware","entity_instance":1,"sensor_type":18,"sensor_type_name":"System Event","event_type":111,"raw":"05005103102000302281126f00000000c445565431"}
060051101120a00000000000070200c6225ce901ff20 "record_type":16,"kind":"generic_locator","name":"\"\\é.ÿ ","device_access_address":32,"device_slave_address":160,"entity_id":7,"entity_name":"system board","entity_instance":2,"raw":"060051101120a00000000000070200c6225ce901ff20"}
060051100b21a50000000000070200c0 "record_type":16,"kind":"generic_locator","name":null,"device_access_address":32,"device_slave_address":164,"entity_id":7,"entity_name":"system board","entity_instance":2,"raw":"060051100b21a50000000000070200c0"}
020051110f200180000000000a0100c450535531 "record_type":17,"kind":"fru_locator","name":"PSU1","device_access_address":32,"fru_device_id":1,"device_slave_address":null,"is_logical":true,"access_lun":0,"entity_id":10,"entity_name":"power supply","entity_instance":1,"raw":"020051110f200180000000000a0100c450535531"}
020051110f23a118000000000a0100c450535531 "record_type":17,"kind":"fru_locator","name":"PSU1","device_access_address":34,"fru_device_id":null,"device_slave_address":160,"is_logical":false,"access_lun":3,"entity_id":10,"entity_name":"power supply","entity_instance":1,"raw":"020051110f23a118000000000a0100c450535531"}
070051120f25000000000000900100c4424d4331 "record_type":18,"kind":"mc_locator","name":"BMC1","device_slave_address":36,"entity_id":144,"entity_name":"entity 0x90","entity_instance":1,"raw":"070051120f25000000000000900100c4424d4331"}
080051c003570100 "record_type":192,"kind":"other","raw":"080051c003570100"}"#;

/// A record with a fault.
pub(crate) const FAULTY: [u8; 5] = [0x03, 0x00, 0x51, 0x01, 0xff];

pub(crate) const FAULT_LINE: &str =
    r#"{"object":"sdr_record","record_id":3,"record_type":1,"kind":"faulty","fault":"wrong_length","raw":"03005101ff"}"#;

const SHORT_LINE: &str =
    r#"{"object":"sdr_record","record_id":65535,"record_type":null,"kind":"faulty","fault":"short","raw":"030051"}"#;

const BODY_LINE: &str =
    r#"{"object":"sdr_record","record_id":4,"record_type":1,"kind":"faulty","fault":"body_too_short","raw":"0400510100"}"#;

/// A record of another type.
pub(crate) const OTHER: [u8; 8] = [0x08, 0x00, 0x51, 0xc0, 0x03, 0x57, 0x01, 0x00];

pub(crate) const RAW_LINE: &str =
    r#"{"object":"sdr_raw","record_id":8,"next_record_id":65535,"raw":"080051c003570100"}"#;

#[test]
fn sensors(rt: HostRuntime) {
    let alloc = rt.alloc();
    let bytes = bytes_of(&rt, alloc, FULL);
    let view = SdrView::read(&bytes).expect(&rt, "a record");
    assert_line(
        &rt,
        sdr_record_line(alloc, 1, &view, KnownReading::Present(HOT), &[]),
        READ_LINE,
    );
    assert_line(
        &rt,
        sdr_record_line(alloc, 1, &view, KnownReading::Absent, &[]),
        UNREAD_LINE,
    );
    assert_line(
        &rt,
        sdr_record_line(alloc, 1, &view, KnownReading::NotCaptured, &[]),
        NOT_CAPTURED_LINE,
    );
    let bytes = bytes_of(&rt, alloc, COMPACT);
    let view = SdrView::read(&bytes).expect(&rt, "a record");
    assert_line(
        &rt,
        sdr_record_line(alloc, 163, &view, KnownReading::Present(DOOR), &[]),
        COMPACT_LINE,
    );
}

#[test]
fn records_without_a_reading(rt: HostRuntime) {
    let alloc = rt.alloc();
    for line in OTHERS.lines() {
        let (digits, rest) = line.split_once(' ').expect(&rt, line);
        let bytes = bytes_of(&rt, alloc, digits);
        let view = SdrView::read(&bytes).expect(&rt, digits);
        let wanted = format!(in alloc; "{{\"object\":\"sdr_record\",\"record_id\":7,{rest}");
        let wanted = wanted.expect(&rt, "memory");
        assert_line(
            &rt,
            sdr_record_line(alloc, 7, &view, KnownReading::Absent, &[]),
            wanted.as_str(),
        );
    }
}

#[test]
fn faults_and_raw_rows(rt: HostRuntime) {
    let alloc = rt.alloc();
    assert_line(
        &rt,
        sdr_fault_line(alloc, 3, SdrFault::Length, &FAULTY, &[]),
        FAULT_LINE,
    );
    assert_line(
        &rt,
        sdr_fault_line(alloc, 65535, SdrFault::Short, &FAULTY[..3], &[]),
        SHORT_LINE,
    );
    let bytes = [0x04, 0x00, 0x51, 0x01, 0x00];
    assert_line(
        &rt,
        sdr_fault_line(alloc, 4, SdrFault::BodyShort, &bytes, &[]),
        BODY_LINE,
    );
    assert_line(&rt, sdr_raw_line(alloc, 8, 65535, &OTHER, &[]), RAW_LINE);
}
