//! Worked rows of CSV: by docs/json.md, with quotes by RFC 4180. The things are those of the worked lines of JSON.
use crate::cases::{assert_line, assert_line_or_refused, bytes_of, parts};
use crate::json::entries::{
    COLD, HOT as HOT_EVENT, MEMORY, OTHER as OTHER_ENTRY, PLAIN, SENSORS, THRESHOLD, TIMED,
};
use crate::json::infos::{INFO, OTHER_INFO};
use crate::json::inventories::{MIXED, PRODUCT};
use crate::json::records::{COMPACT, DOOR, FAULTY, FULL, HOT, OTHER};
use ipmi_bus::{Record, Shelf};
use ipmi_command_line::Separator;
use ipmi_commands::{Format, Framed, Table};
use ipmi_csv::Csv;
use ipmi_events::Sensors;
use ipmi_image::LineBuffer;
use ipmi_json::Label;
use ipmi_records::{KnownReading, SdrFault, SdrView, SelView};
use ipmi_selection::Detail;
use std::alloc::{AllocError, Global};
use std::process::Abort;

const COMMA: Csv<'static> = Csv {
    separator: Separator::Comma,
    labels: &[],
};

const SEMICOLON: Csv<'static> = Csv {
    separator: Separator::Semicolon,
    labels: &[],
};

const RECORDS: &str =
    r#"record_id,record_type,kind,fault,name,owner_id,owner_lun,sensor_number,device_access_address,fru_device_id,device_slave_address,is_logical,access_lun,entity_id,entity_name,entity_instance,sensor_type,sensor_type_name,event_type,reading,unit,reading_raw,states,status,status_words,severity,severity_reason,upper_non_recoverable,upper_critical,upper_non_critical,lower_non_recoverable,lower_critical,lower_non_critical,raw"#;

const ENTRIES: &str =
    r#"record_id,record_type,kind,timestamp,timestamp_raw,generator_id,event_revision,sensor_type,sensor_type_name,sensor_number,sensor_name,event_type,event,event_words,direction,severity,severity_reason,event_data,event_details,manufacturer_id,oem_data,raw"#;

const DEVICES: &str =
    r#"fru_device_id,name,state,fault,chassis.type,chassis.type_name,chassis.part_number,chassis.serial_number,chassis_fault,board.language,board.manufactured,board.manufactured_raw,board.manufacturer,board.product_name,board.serial_number,board.part_number,board.fru_file_id,board_fault,product.language,product.manufacturer,product.name,product.part_number,product.version,product.serial_number,product.asset_tag,product.fru_file_id,product_fault,records_fault,size,raw"#;

const INFOS: &str =
    r#"version,record_count,free_space,last_addition,last_addition_raw,last_erase,last_erase_raw,overflow,operation_support"#;

/// A full record with its reading, and a compact one.
const READ: &str =
    r#"1,1,full,,CPU Temp,32,0,1,,,,,,3,processor,1,1,Temperature,1,9.2,degrees C,92,24,cr,ucr,critical,Upper Critical,9.5,9,8.5,,,,010051013320000103017f680101000000003838000100000100000000f00000000000005f5a550000000202000000c84350552054656d70"#;

const DISCRETE: &str =
    r#"163,2,compact,,Door,32,3,5,,,,,,7,system board,1,5,Physical Security,3,,,0,16394,ok,ok,warning,State Asserted,,,,,,,030051021f200305070100000503000000000000c000000000000000000000c4446f6f72"#;

/// `bytes|row` of records without a reading. The second has a name with a quote.
const OTHERS: &str =
    r#"05005103102000302281126f00000000c445565431|7,3,event_only,,EVT1,32,0,48,,,,,,34,system firmware,1,18,System Event,111,,,,,,,,,,,,,,,05005103102000302281126f00000000c445565431
060051101120a00000000000070200c6225ce901ff20|7,16,generic_locator,,"""\é.ÿ ",,,,32,,160,,,7,system board,2,,,,,,,,,,,,,,,,,,060051101120a00000000000070200c6225ce901ff20
060051100b21a50000000000070200c0|7,16,generic_locator,,,,,,32,,164,,,7,system board,2,,,,,,,,,,,,,,,,,,060051100b21a50000000000070200c0
020051110f200180000000000a0100c450535531|7,17,fru_locator,,PSU1,,,,32,1,,true,0,10,power supply,1,,,,,,,,,,,,,,,,,,020051110f200180000000000a0100c450535531
020051110f23a118000000000a0100c450535531|7,17,fru_locator,,PSU1,,,,34,,160,false,3,10,power supply,1,,,,,,,,,,,,,,,,,,020051110f23a118000000000a0100c450535531
070051120f25000000000000900100c4424d4331|7,18,mc_locator,,BMC1,,,,,,36,,,144,entity 0x90,1,,,,,,,,,,,,,,,,,,070051120f25000000000000900100c4424d4331
080051c003570100|7,192,other,,,,,,,,,,,,,,,,,,,,,,,,,,,,,,,080051c003570100"#;

const FAULT: &str = r#"3,1,faulty,wrong_length,,,,,,,,,,,,,,,,,,,,,,,,,,,,,,03005101ff"#;

/// A fault in the header: there is no record type.
const SHORT: &str = r#"65535,,faulty,short,,,,,,,,,,,,,,,,,,,,,,,,,,,,,,030051"#;

/// An event of a sensor without a record.
const NAMELESS: &str =
    r#"1,2,event,2020-09-13T12:26:40Z,1600000000,32,4,1,Temperature,1,,1,Upper Non-critical going high,Upper Non-critical going high,asserted,warning,Upper Non-critical going high,574746,Reading raw 0x47 > threshold raw 0x46,,,01000200105e5f200004010101574746"#;

/// An event whose words have a slash.
const NAMED: &str =
    r#"2,2,event,,4294967295,32,4,12,Memory,17,DIMM 2,111,event 0x6f offset 0x1,Uncorrectable ECC / other uncorrectable memory error,deasserted,nominal,,01ffff,,,,020002ffffffff2000040c11ef01ffff"#;

const HOT_ROW: &str =
    r#"5,2,event,2020-09-13T12:26:40Z,1600000000,32,4,1,Temperature,1,CPU Temp,1,Upper Critical going high,Upper Critical going high,asserted,critical,Upper Critical going high,595c5a,Reading 9.2 degrees C > threshold 9,,,05000200105e5f200004010101595c5a"#;

/// An event whose details have a comma, in both forms.
const COLD_ROW: &str =
    r#"6,2,event,2020-09-13T12:26:40Z,1600000000,32,4,1,Temperature,1,CPU Temp,1,Upper Critical going high,Upper Critical going high,asserted,critical,Upper Critical going high,592d5a,"Reading 4.5 degrees C, threshold 9",,,06000200105e5f200004010101592d5a"#;

const COLD_SEMICOLONS: &str =
    r#"6;2;event;2020-09-13T12:26:40Z;1600000000;32;4;1;Temperature;1;CPU Temp;1;Upper Critical going high;Upper Critical going high;asserted;critical;Upper Critical going high;592d5a;Reading 4.5 degrees C, threshold 9;;;06000200105e5f200004010101592d5a"#;

const TIMED_ROW: &str =
    r#"2,193,oem_timestamped,,4096,,,,,,,,,,,,,,,343,010203040506,0200c100100000570100010203040506"#;

const PLAIN_ROW: &str =
    r#"3,224,oem,,,,,,,,,,,,,,,,,,0102030405060708090a0b0c0d,0300e00102030405060708090a0b0c0d"#;

const OTHER_ROW: &str =
    r#"4,3,unknown,,,,,,,,,,,,,,,,,,0102030405060708090a0b0c0d,0400030102030405060708090a0b0c0d"#;

const SEL_INFO: &str = r#"81,12,15000,2020-09-13T12:26:40Z,1600000000,,0,true,130"#;

const SDR_INFO: &str = r#"81,65535,0,,4294967295,2020-09-13T12:26:40Z,1600000000,false,47"#;

/// A device with areas, a fault and multirecords, which have no column. Its name has a quote.
const MIXED_ROW: &str =
    r#"1,"P""S\U",read,,23,Rack Mount Chassis,AB,,,0,1996-01-01T00:01:00Z,1,IPMI,12,ab,,,,,,,,,,,,version,outside,91,01000102040500f3010117c24142c1e10102000100008329dca6411201abc10e020100000000000001020de80801b0043c003c0078000000710202020d0ee1024a012c01590100000a0014000302033cbc016162c00201a6975ac0"#;

const PRODUCT_ROW: &str =
    r#"0,,read,,,,,,,,,,,,,,,,25,AB,,PN,,SN,,,,,32,01000000010000fe010319c24142c0c2504ec0c2534ec0c0c25831c0c100000f"#;

const FAULTY_ROW: &str = r#"2,,faulty,header_checksum,,,,,,,,,,,,,,,,,,,,,,,,,8,0100000000000000"#;

const ELSEWHERE_ROW: &str = r#",PSU1,elsewhere,,,,,,,,,,,,,,,,,,,,,,,,,,,"#;

/// The cells of a device that is not present, after its name.
const ABSENT: &str = "not_present,,,,,,,,,,,,,,,,,,,,,,,,,,,";

/// The row of a sensor data record.
fn record_row(
    rt: &impl Abort,
    alloc: Global,
    id: u16,
    digits: &str,
) -> Result<Vec<u8>, AllocError> {
    let bytes = bytes_of(rt, alloc, digits);
    let view = SdrView::read(&bytes).expect(rt, digits);
    COMMA.record(alloc, Detail::Line, id, &view, KnownReading::Absent)
}

/// The row of an entry without names.
fn entry_row(alloc: Global, id: u16, entry: &[u8; 16]) -> Result<Vec<u8>, AllocError> {
    COMMA.entry(alloc, Detail::Line, id, &SelView::read(entry), None)
}

/// The row of a device that is not present.
fn absent_row(alloc: Global, name: &str) -> Result<Vec<u8>, AllocError> {
    COMMA.device(alloc, Detail::Line, 255, Some(name), None)
}

/// Asserts the row of a record without a reading.
fn assert_row(rt: &impl Abort, alloc: Global, case: &str) {
    let (digits, row) = parts(rt, case);
    assert_line(rt, record_row(rt, alloc, 7, digits), row);
}

/// Asserts how the name of a device is printed.
fn assert_name(rt: &impl Abort, alloc: Global, name: &str, cell: &str) {
    let wanted = format!(in alloc; "255,{cell},{ABSENT}").expect(rt, name);
    assert_line(rt, absent_row(alloc, name), wanted.as_str());
}

#[test]
fn headers(rt: HostRuntime) {
    let alloc = rt.alloc();
    assert_line(&rt, COMMA.header(alloc, Table::Records), RECORDS);
    assert_line(&rt, COMMA.header(alloc, Table::Entries), ENTRIES);
    assert_line(&rt, COMMA.header(alloc, Table::Devices), DEVICES);
    assert_line(&rt, COMMA.header(alloc, Table::Infos), INFOS);
    let raw = "record_id;next_record_id;raw";
    assert_line(&rt, SEMICOLON.header(alloc, Table::RawRecords), raw);
}

#[test]
fn sensors(rt: HostRuntime) {
    let alloc = rt.alloc();
    let bytes = bytes_of(&rt, alloc, FULL);
    let view = SdrView::read(&bytes).expect(&rt, "a record");
    let row = COMMA.record(alloc, Detail::Block, 1, &view, KnownReading::Present(HOT));
    assert_line(&rt, row, READ);
    let bytes = bytes_of(&rt, alloc, COMPACT);
    let view = SdrView::read(&bytes).expect(&rt, "a record");
    let row = COMMA.record(alloc, Detail::Line, 163, &view, KnownReading::Present(DOOR));
    assert_line(&rt, row, DISCRETE);
}

#[test]
fn records_without_a_reading(rt: HostRuntime) {
    for case in OTHERS.lines() {
        assert_row(&rt, rt.alloc(), case);
    }
}

#[test]
fn faults_and_raw_rows(rt: HostRuntime) {
    let alloc = rt.alloc();
    let row = COMMA.fault(alloc, 3, SdrFault::Length, &FAULTY);
    assert_line(&rt, row, FAULT);
    let row = COMMA.fault(alloc, 65535, SdrFault::Short, &FAULTY[..3]);
    assert_line(&rt, row, SHORT);
    let lent = Record {
        id: 8,
        next: 65535,
        bytes: &OTHER,
    };
    let mut line = LineBuffer::new();
    let row = COMMA.hex(alloc, &lent, &mut line).expect(&rt, "memory");
    let row = row.expect(&rt, "a row");
    assert_line(&rt, Ok(row), "8,65535,080051c003570100");
}

#[test]
fn events(rt: HostRuntime) {
    let alloc = rt.alloc();
    let records = bytes_of(&rt, alloc, SENSORS);
    let sensors = Sensors::of(alloc, records).expect(&rt, "memory");
    let names = Some(&sensors);
    assert_line(&rt, entry_row(alloc, 1, &THRESHOLD), NAMELESS);
    let row = COMMA.entry(alloc, Detail::Line, 2, &SelView::read(&MEMORY), names);
    assert_line(&rt, row, NAMED);
    let row = COMMA.entry(alloc, Detail::Long, 5, &SelView::read(&HOT_EVENT), names);
    assert_line(&rt, row, HOT_ROW);
    let cold = SelView::read(&COLD);
    let row = COMMA.entry(alloc, Detail::Block, 6, &cold, names);
    assert_line(&rt, row, COLD_ROW);
    let row = SEMICOLON.entry(alloc, Detail::Block, 6, &cold, names);
    assert_line(&rt, row, COLD_SEMICOLONS);
    drop(sensors);
}

#[test]
fn entries_of_other_types(rt: HostRuntime) {
    let alloc = rt.alloc();
    assert_line(&rt, entry_row(alloc, 2, &TIMED), TIMED_ROW);
    assert_line(&rt, entry_row(alloc, 3, &PLAIN), PLAIN_ROW);
    assert_line(&rt, entry_row(alloc, 4, &OTHER_ENTRY), OTHER_ROW);
}

#[test]
fn infos(rt: HostRuntime) {
    let alloc = rt.alloc();
    assert_line(&rt, COMMA.info(alloc, Shelf::Sel, &INFO), SEL_INFO);
    assert_line(&rt, COMMA.info(alloc, Shelf::Sdr, &OTHER_INFO), SDR_INFO);
}

#[test]
fn devices(rt: HostRuntime) {
    let alloc = rt.alloc();
    let bytes = bytes_of(&rt, alloc, MIXED);
    let row = COMMA.device(alloc, Detail::Block, 1, Some("P\"S\\U"), Some(&bytes));
    assert_line(&rt, row, MIXED_ROW);
    let bytes = bytes_of(&rt, alloc, PRODUCT);
    let row = COMMA.device(alloc, Detail::Line, 0, None, Some(&bytes));
    assert_line(&rt, row, PRODUCT_ROW);
    let bytes = [0x01, 0x00, 0x00, 0x00, 0x00, 0x00, 0x00, 0x00];
    let row = COMMA.device(alloc, Detail::Line, 2, None, Some(&bytes));
    assert_line(&rt, row, FAULTY_ROW);
    assert_line(&rt, COMMA.elsewhere(alloc, "PSU1"), ELSEWHERE_ROW);
}

/// RFC 4180, section 2: a cell with a line break, a quote or the separator has quotes, and a quote in it is doubled.
#[test]
fn quotes(rt: HostRuntime) {
    let alloc = rt.alloc();
    assert_name(&rt, alloc, "é", "é");
    assert_name(&rt, alloc, "a b", "a b");
    assert_name(&rt, alloc, "a;b", "a;b");
    assert_name(&rt, alloc, "a,b", "\"a,b\"");
    assert_name(&rt, alloc, "\"", "\"\"\"\"");
    assert_name(&rt, alloc, "a\nb", "\"a\nb\"");
    assert_name(&rt, alloc, "a\rb", "\"a\rb\"");
}

#[test]
fn other_separator(rt: HostRuntime) {
    let alloc = rt.alloc();
    let bytes = bytes_of(&rt, alloc, "080051c003570100");
    let view = SdrView::read(&bytes).expect(&rt, "a record");
    let row = SEMICOLON.record(alloc, Detail::Line, 7, &view, KnownReading::Absent);
    assert_line(
        &rt,
        row,
        "7;192;other;;;;;;;;;;;;;;;;;;;;;;;;;;;;;;;080051c003570100",
    );
}

const LABELLED: Csv<'static> = Csv {
    separator: Separator::Semicolon,
    labels: &[Label {
        key: "host",
        value: "a;b",
    }],
};

#[test]
fn labels(rt: HostRuntime) {
    let alloc = rt.alloc();
    let header = LABELLED.header(alloc, Table::RawRecords);
    assert_line(&rt, header, "record_id;next_record_id;raw;host");
    let row = LABELLED.info(alloc, Shelf::Sel, &INFO);
    let wanted = "81;12;15000;2020-09-13T12:26:40Z;1600000000;;0;true;130;\"a;b\"";
    assert_line(&rt, row, wanted);
}

/// A row, or nothing when out of memory.
fn mixed_row(alloc: Global) -> Result<Vec<u8>, AllocError> {
    match hex::decode(alloc, MIXED) {
        Ok(bytes) => COMMA.device(alloc, Detail::Line, 1, Some("P\"S\\U"), Some(&bytes)),
        Err(_) => Err(AllocError),
    }
}

/// With ample memory each call returns its row.
#[test]
fn not_always_out_of_memory(rt: HostRuntime) {
    let alloc = rt.alloc();
    assert_line(&rt, mixed_row(alloc), MIXED_ROW);
    assert_line(&rt, entry_row(alloc, 2, &TIMED), TIMED_ROW);
    assert_line(&rt, COMMA.info(alloc, Shelf::Sel, &INFO), SEL_INFO);
    assert_line(&rt, COMMA.header(alloc, Table::Infos), INFOS);
}

/// With memory refused a call returns its row, or fails when out of memory.
#[test]
fn memory_may_be_refused(rt: HostRuntime) {
    let alloc = rt.alloc();
    assert_line_or_refused(&rt, mixed_row(alloc), MIXED_ROW);
    assert_line_or_refused(&rt, entry_row(alloc, 2, &TIMED), TIMED_ROW);
    assert_line_or_refused(&rt, COMMA.info(alloc, Shelf::Sel, &INFO), SEL_INFO);
    assert_line_or_refused(&rt, COMMA.header(alloc, Table::Infos), INFOS);
}
