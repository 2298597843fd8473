//! Inventories.
use crate::cases::{assert_line, byte_of, bytes_of, parts};
use ipmi_json::{Label, fru_elsewhere_line, fru_line};
use std::alloc::Global;
use std::process::Abort;

/// An inventory with each kind of area and record, and each fault except those of the header.
pub(crate) const MIXED: &str =
    "01000102040500f3010117c24142c1e10102000100008329dca6411201abc10e020100000000000001020de80801b0043c003c0078000000710202020d0ee1024a012c01590100000a0014000302033cbc016162c00201a6975ac0";

pub(crate) const MIXED_LINE: &str =
    r#"{"object":"fru","fru_device_id":1,"name":"P\"S\\U","state":"read","fault":null,"chassis":{"type":23,"type_name":"Rack Mount Chassis","part_number":"AB","serial_number":null,"extra":[]},"chassis_fault":null,"board":{"language":0,"manufactured":"1996-01-01T00:01:00Z","manufactured_raw":1,"manufacturer":"IPMI","product_name":"12","serial_number":"ab","part_number":null,"fru_file_id":null,"extra":[]},"board_fault":null,"product":null,"product_fault":"version","records":[{"kind":"dc_output","type":1,"type_name":"dc_output","number":1,"standby":false,"nominal_volts":12,"negative_deviation_volts":0.6,"positive_deviation_volts":0.6,"ripple_millivolts":120,"minimum_milliamperes":0,"maximum_milliamperes":625,"raw":"01b0043c003c00780000007102"},{"kind":"dc_load","type":2,"type_name":"dc_load","number":2,"nominal_volts":3.3,"minimum_volts":3,"maximum_volts":3.45,"ripple_millivolts":0,"minimum_milliamperes":10,"maximum_milliamperes":20,"raw":"024a012c01590100000a001400"},{"kind":"management_access","type":3,"type_name":"management_access","subtype":1,"value":"ab","raw":"016162"},{"kind":"other","type":192,"type_name":"oem","raw":"5a"}],"records_fault":"outside","size":91,"raw":"01000102040500f3010117c24142c1e10102000100008329dca6411201abc10e020100000000000001020de80801b0043c003c0078000000710202020d0ee1024a012c01590100000a0014000302033cbc016162c00201a6975ac0"}"#;

/// A product with a manufacturer, a part number, a serial number and two fields after the seventh, one of them empty.
pub(crate) const PRODUCT: &str = "01000000010000fe010319c24142c0c2504ec0c2534ec0c0c25831c0c100000f";

const PRODUCT_LINE: &str =
    r#"{"object":"fru","fru_device_id":0,"name":null,"state":"read","fault":null,"chassis":null,"chassis_fault":null,"board":null,"board_fault":null,"product":{"language":25,"manufacturer":"AB","name":null,"part_number":"PN","version":null,"serial_number":"SN","asset_tag":null,"fru_file_id":null,"extra":["X1",""]},"product_fault":null,"records":[],"records_fault":null,"size":32,"raw":"01000000010000fe010319c24142c0c2504ec0c2534ec0c0c25831c0c100000f"}"#;

const FAULTY_LINE: &str =
    r#"{"object":"fru","fru_device_id":2,"name":null,"state":"faulty","fault":"header_checksum","chassis":null,"chassis_fault":null,"board":null,"board_fault":null,"product":null,"product_fault":null,"records":null,"records_fault":null,"size":8,"raw":"0100000000000000"}"#;

const ABSENT_LINE: &str =
    r#"{"object":"fru","fru_device_id":255,"name":"é","state":"not_present","fault":null,"chassis":null,"chassis_fault":null,"board":null,"board_fault":null,"product":null,"product_fault":null,"records":null,"records_fault":null,"size":null,"raw":null}"#;

/// With a label.
pub(crate) const ELSEWHERE_LINE: &str =
    r#"{"object":"fru","fru_device_id":null,"name":"PSU1","state":"elsewhere","fault":null,"chassis":null,"chassis_fault":null,"board":null,"board_fault":null,"product":null,"product_fault":null,"records":null,"records_fault":null,"size":null,"raw":null,"host":"web17"}"#;

/// `type|name` of multirecords, by table 16-2. 0Bh to BFh are reserved.
const RECORD_TYPES: &str = r#"00|"power_supply"
01|"dc_output"
02|"dc_load"
03|"management_access"
04|"base_compatibility"
05|"extended_compatibility"
06|"asf_fixed_smbus_device"
07|"asf_legacy_device_alerts"
08|"asf_remote_control"
09|"extended_dc_output"
0a|"extended_dc_load"
0b|null
bf|null
c0|"oem"
ff|"oem""#;

pub(crate) const HOST: Label = Label {
    key: "host",
    value: "web17",
};

#[test]
fn inventories(rt: HostRuntime) {
    let alloc = rt.alloc();
    let bytes = bytes_of(&rt, alloc, MIXED);
    assert_line(
        &rt,
        fru_line(alloc, 1, Some("P\"S\\U"), Some(&bytes), &[]),
        MIXED_LINE,
    );
    let bytes = bytes_of(&rt, alloc, PRODUCT);
    assert_line(
        &rt,
        fru_line(alloc, 0, None, Some(&bytes), &[]),
        PRODUCT_LINE,
    );
}

#[test]
fn devices_that_tell_nothing(rt: HostRuntime) {
    let alloc = rt.alloc();
    let bytes = [0x01, 0x00, 0x00, 0x00, 0x00, 0x00, 0x00, 0x00];
    assert_line(
        &rt,
        fru_line(alloc, 2, None, Some(&bytes), &[]),
        FAULTY_LINE,
    );
    assert_line(
        &rt,
        fru_line(alloc, 2, Some(""), Some(&bytes), &[]),
        FAULTY_LINE,
    );
    assert_line(&rt, fru_line(alloc, 255, Some("é"), None, &[]), ABSENT_LINE);
    assert_line(
        &rt,
        fru_elsewhere_line(alloc, Some("PSU1"), &[HOST]),
        ELSEWHERE_LINE,
    );
}

/// Asserts the name of the type of a record without data, which is the last one of an inventory without areas.
fn assert_type_name(rt: &impl Abort, alloc: Global, case: &str) {
    let (digits, name) = parts(rt, case);
    let kind = byte_of(rt, digits);
    let sum = 0u8.wrapping_sub(kind).wrapping_sub(0x82);
    let bytes = [1, 0, 0, 0, 0, 1, 0, 0xfe, kind, 0x82, 0, 0, sum];
    let line = fru_line(alloc, 0, None, Some(&bytes), &[]).expect(rt, case);
    let line = std::str::from_utf8(&line).expect(rt, case);
    let wanted = format!(in alloc;
        "\"records\":[{{\"kind\":\"other\",\"type\":{kind},\"type_name\":{name},\"raw\":\"\"}}],\"records_fault\":null"
    );
    let wanted = wanted.expect(rt, case);
    assert!(rt; line.contains(wanted.as_str()), "{case}: got {line}");
}

#[test]
fn each_record_type_has_its_name(rt: HostRuntime) {
    for case in RECORD_TYPES.lines() {
        assert_type_name(&rt, rt.alloc(), case);
    }
}
