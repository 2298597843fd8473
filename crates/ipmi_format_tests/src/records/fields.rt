//! The fields that records of several kinds have.
use super::examples::with_byte;
use crate::cases::{assert_text, bytes_of, line_of};
use ipmi_fixtures::{CPU_TEMP, PSU1};
use ipmi_records::{Entity, FruLocator, IdString, Locator, SdrView, Sensor};
use ipmi_text::Units;
use std::alloc::{AllocError, Global};
use std::process::Abort;

/// A record; its id, version, type and body length; its sensor; its units; its locator; and the type/length byte and
/// bytes of its ID string. Each is a line. An empty line ends a case.
const RECORDS: &str =
    "010051013320fe0103837f6801010000000038388101188c01800240007f0000000000005f5a551122330202000000c84350552054656d70
1 81 1 51
Some(Sensor { owner: 32, lun: 2, number: 1, entity: Entity { id: 3, instance: 3 }, sensor_type: 1, event_type: 1 })
Some(Units { units1: 129, base: 1, modifier: 24 })
None
c8 4350552054656d70

010051023320000103017f680101000000003838000100000100000000000000000000005f5a550000000202000000c84350552054656d70
1 81 2 51
Some(Sensor { owner: 32, lun: 0, number: 1, entity: Entity { id: 3, instance: 1 }, sensor_type: 1, event_type: 1 })
Some(Units { units1: 0, base: 1, modifier: 0 })
None
00 000000005f5a550000000202000000c84350552054656d70

010051033320000103017f6801010000c1003838000100000100000000000000000000005f5a550000000202000000c84350552054656d70
1 81 3 51
Some(Sensor { owner: 32, lun: 0, number: 1, entity: Entity { id: 3, instance: 1 }, sensor_type: 127, event_type: 104 })
None
None
c1 003838000100000100000000000000000000005f5a550000000202000000c84350552054656d70

020051110f200180000000000a0100c450535531
2 81 17 15
None
None
Some(Locator { address: 32, entity: Entity { id: 10, instance: 1 } })
c4 50535531

010051103320000103017f68018100c200003838000100000100000000000000000000005f5a550000000202000000c84350552054656d70
1 81 16 51
None
None
Some(Locator { address: 32, entity: Entity { id: 1, instance: 1 } })
c2 00003838000100000100000000000000000000005f5a550000000202000000c84350552054656d70

010051123320000103017f68010100c300003838000100000100000000000000000000005f5a550000000202000000c84350552054656d70
1 81 18 51
None
None
Some(Locator { address: 32, entity: Entity { id: 1, instance: 1 } })
c3 00003838000100000100000000000000000000005f5a550000000202000000c84350552054656d70

010051c03320000103017f680101000000003838000100000100000000000000000000005f5a550000000202000000c84350552054656d70
1 81 192 51
None
None
None
none";

fn record_of(rt: &impl Abort, alloc: Global, case: &str) -> Vec<u8> {
    bytes_of(rt, alloc, line_of(rt, case, 0))
}

fn header_text(alloc: Global, view: &SdrView<'_>) -> Result<String, AllocError> {
    let id = view.id();
    let version = view.version();
    let record_type = view.record_type();
    let len = view.body_len();
    format!(in alloc; "{id} {version} {record_type} {len}")
}

/// The sensor, by the view of the record's own kind.
fn own_sensor(view: &SdrView<'_>) -> Option<Sensor> {
    match view {
        SdrView::Full(full) => Some(full.sensor()),
        SdrView::Compact(compact) => Some(compact.sensor()),
        SdrView::EventOnly(event) => Some(event.sensor()),
        _ => None,
    }
}

/// The units of a sensor's readings.
fn own_units(view: &SdrView<'_>) -> Option<Units> {
    match view {
        SdrView::Full(full) => Some(full.units()),
        SdrView::Compact(compact) => Some(compact.units()),
        _ => None,
    }
}

/// The locator, by the view of the record's own kind.
fn own_locator(view: &SdrView<'_>) -> Option<Locator> {
    match view {
        SdrView::Fru(fru) => Some(fru.locator()),
        SdrView::Generic(generic) => Some(generic.locator()),
        SdrView::Controller(controller) => Some(controller.locator()),
        _ => None,
    }
}

/// The ID string, by the view of the record's own kind.
fn own_id_string<'a>(view: &SdrView<'a>) -> Option<IdString<'a>> {
    match view {
        SdrView::Full(full) => Some(full.id_string()),
        SdrView::Compact(compact) => Some(compact.id_string()),
        SdrView::EventOnly(event) => Some(event.id_string()),
        SdrView::Fru(fru) => Some(fru.id_string()),
        SdrView::Generic(generic) => Some(generic.id_string()),
        SdrView::Controller(controller) => Some(controller.id_string()),
        SdrView::Other(_) => None,
    }
}

/// The type/length byte and the bytes of an ID string.
fn id_string_text(alloc: Global, id: Option<IdString<'_>>) -> Result<String, AllocError> {
    match id {
        Some(id) => {
            let rest = hex::encode(alloc, id.rest)?;
            format!(in alloc; "{:02x} {rest}", id.type_length)
        }
        None => format!(in alloc; "none"),
    }
}

/// Asserts the bytes and the header of a record.
fn assert_header(rt: &impl Abort, alloc: Global, case: &str) {
    let bytes = record_of(rt, alloc, case);
    let view = SdrView::read(&bytes).expect(rt, case);
    assert_text(rt, header_text(alloc, &view), line_of(rt, case, 1), case);
    assert_text(
        rt,
        hex::encode(alloc, view.bytes()),
        line_of(rt, case, 0),
        case,
    );
}

/// Asserts the sensor of a record, by any view and by that of its own kind.
fn assert_sensor(rt: &impl Abort, alloc: Global, case: &str) {
    let bytes = record_of(rt, alloc, case);
    let view = SdrView::read(&bytes).expect(rt, case);
    let wanted = line_of(rt, case, 2);
    assert_text(rt, format!(in alloc; "{:?}", view.sensor()), wanted, case);
    assert_text(
        rt,
        format!(in alloc; "{:?}", own_sensor(&view)),
        wanted,
        case,
    );
}

fn assert_units(rt: &impl Abort, alloc: Global, case: &str) {
    let bytes = record_of(rt, alloc, case);
    let view = SdrView::read(&bytes).expect(rt, case);
    let units = own_units(&view);
    assert_text(
        rt,
        format!(in alloc; "{units:?}"),
        line_of(rt, case, 3),
        case,
    );
}

/// The same for the locator.
fn assert_locator(rt: &impl Abort, alloc: Global, case: &str) {
    let bytes = record_of(rt, alloc, case);
    let view = SdrView::read(&bytes).expect(rt, case);
    let wanted = line_of(rt, case, 4);
    assert_text(rt, format!(in alloc; "{:?}", view.locator()), wanted, case);
    assert_text(
        rt,
        format!(in alloc; "{:?}", own_locator(&view)),
        wanted,
        case,
    );
}

/// The same for the ID string.
fn assert_id_string(rt: &impl Abort, alloc: Global, case: &str) {
    let bytes = record_of(rt, alloc, case);
    let view = SdrView::read(&bytes).expect(rt, case);
    let wanted = line_of(rt, case, 5);
    assert_text(rt, id_string_text(alloc, view.id_string()), wanted, case);
    assert_text(
        rt,
        id_string_text(alloc, own_id_string(&view)),
        wanted,
        case,
    );
}

fn fru_locator_of<'a>(rt: &impl Abort, bytes: &'a [u8]) -> FruLocator<'a> {
    match SdrView::read(bytes) {
        Ok(SdrView::Fru(fru)) => fru,
        _ => panic!(rt; "no FRU device locator: {bytes:?}"),
    }
}

/// Asserts the name of a record, if it has one.
fn assert_name(rt: &impl Abort, alloc: Global, bytes: &[u8], wanted: &str) {
    let view = SdrView::read(bytes).expect(rt, wanted);
    let name = view.name(alloc).expect(rt, "memory");
    assert_text(rt, format!(in alloc; "{name:?}"), wanted, wanted);
}

#[test]
fn each_record_has_its_header(rt: HostRuntime) {
    for case in RECORDS.split("\n\n") {
        assert_header(&rt, rt.alloc(), case);
    }
}

#[test]
fn each_record_has_its_sensor(rt: HostRuntime) {
    for case in RECORDS.split("\n\n") {
        assert_sensor(&rt, rt.alloc(), case);
    }
}

#[test]
fn each_record_has_its_units(rt: HostRuntime) {
    for case in RECORDS.split("\n\n") {
        assert_units(&rt, rt.alloc(), case);
    }
}

#[test]
fn each_record_has_its_locator(rt: HostRuntime) {
    for case in RECORDS.split("\n\n") {
        assert_locator(&rt, rt.alloc(), case);
    }
}

#[test]
fn each_record_has_its_id_string(rt: HostRuntime) {
    for case in RECORDS.split("\n\n") {
        assert_id_string(&rt, rt.alloc(), case);
    }
}

#[test]
fn a_fru_locator_has_its_device(rt: HostRuntime) {
    let fru = fru_locator_of(&rt, &PSU1);
    let device = (fru.fru_id(), fru.is_logical(), fru.lun());
    assert!(rt; device == (1, true, 0), "got {device:?}");
}

#[test]
fn a_name_ends_with_its_record(rt: HostRuntime) {
    let record = with_byte(&rt, CPU_TEMP, 5, 45);
    let cut = record.get(..50).expect(&rt, "50 bytes");
    assert_name(&rt, rt.alloc(), cut, "Some(\"CP\")");
}

#[test]
fn a_record_of_another_type_has_no_name(rt: HostRuntime) {
    let record = with_byte(&rt, CPU_TEMP, 4, 0xc0);
    assert_name(&rt, rt.alloc(), &record, "None");
}

#[test]
fn an_entity_is_printed_with_a_dot(rt: HostRuntime) {
    let entity = Entity {
        id: 10,
        instance: 1,
    };
    let text = format!(in rt.alloc(); "{entity}");
    assert_text(&rt, text, "10.1", "entity 10, instance 1");
}
