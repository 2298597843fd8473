//! The fields of entries of the event log.
use super::examples::event_of;
use crate::cases::{assert_text, parts};
use hex::FromHex;
use ipmi_fixtures::EVENT;
use ipmi_records::{EventEntry, OemTimestampedEntry, SelView};
use std::alloc::Global;
use std::process::Abort;

/// `entry|id, type, data`.
const ENTRIES: &str = "01000201000020200004013001595f5a|1 2 [89, 95, 90]
0300c004050607571308010203040506|3 192 [1, 2, 3, 4, 5, 6]
0300e0030405060708090a0b0c0d0e0f|3 224 [3, 4, 5, 6, 7, 8, 9, 10, 11, 12, 13, 14, 15]
030003030405060708090a0b0c0d0e0f|3 3 [3, 4, 5, 6, 7, 8, 9, 10, 11, 12, 13, 14, 15]";

fn data_of<'a>(view: &SelView<'a>) -> &'a [u8] {
    match view {
        SelView::Event(event) => event.data_bytes(),
        SelView::OemTimed(entry) => entry.data_bytes(),
        SelView::OemPlain(entry) => entry.data_bytes(),
        SelView::Other(entry) => entry.data_bytes(),
    }
}

/// Asserts the fields that entries of each type have.
fn assert_fields(rt: &impl Abort, alloc: Global, line: &str) {
    let (digits, wanted) = parts(rt, line);
    let bytes = <[u8; 16]>::from_hex(digits).expect(rt, line);
    let view = SelView::read(&bytes);
    let id = view.id();
    let entry_type = view.entry_type();
    let data = data_of(&view);
    let text = format!(in alloc; "{id} {entry_type} {data:?}");
    assert_text(rt, text, wanted, line);
}

fn assert_bytes(rt: &impl Abort, alloc: Global, line: &str) {
    let (digits, _) = parts(rt, line);
    let bytes = <[u8; 16]>::from_hex(digits).expect(rt, line);
    let view = SelView::read(&bytes);
    assert_text(rt, hex::encode(alloc, view.bytes()), digits, line);
}

/// The OEM timestamped entry in the bytes.
fn oem_entry_of<'a>(rt: &impl Abort, bytes: &'a [u8; 16]) -> OemTimestampedEntry<'a> {
    match SelView::read(bytes) {
        SelView::OemTimed(entry) => entry,
        _ => panic!(rt; "no OEM entry with a time: {bytes:?}"),
    }
}

/// The time stamp, the generator id, the revision, the sensor type, the sensor number and the event type.
fn numbers_of(event: &EventEntry<'_>) -> [u32; 6] {
    [
        event.time_stamp(),
        event.generator_id() as u32,
        event.revision() as u32,
        event.sensor_type() as u32,
        event.sensor_number() as u32,
        event.event_type() as u32,
    ]
}

#[test]
fn each_entry_has_its_id_type_and_data(rt: HostRuntime) {
    for line in ENTRIES.lines() {
        assert_fields(&rt, rt.alloc(), line);
    }
}

#[test]
fn each_entry_has_its_bytes(rt: HostRuntime) {
    for line in ENTRIES.lines() {
        assert_bytes(&rt, rt.alloc(), line);
    }
}

#[test]
fn an_event_has_its_numbers(rt: HostRuntime) {
    let numbers = numbers_of(&event_of(&rt, &EVENT));
    assert!(rt;
        numbers == [0x2000_0001, 0x20, 4, 1, 0x30, 1],
        "got {numbers:?}"
    );
}

#[test]
fn an_event_with_bit_7_clear_is_asserted(rt: HostRuntime) {
    let event = event_of(&rt, &EVENT);
    assert!(rt; !event.is_deasserted(), "{event:?}");
}

#[test]
fn an_oem_entry_has_its_time_and_manufacturer(rt: HostRuntime) {
    let bytes = [3, 0, 0xc0, 4, 5, 6, 7, 0x57, 0x13, 8, 1, 2, 3, 4, 5, 6];
    let entry = oem_entry_of(&rt, &bytes);
    let got = (entry.time_stamp(), entry.manufacturer_id());
    assert!(rt; got == (0x0706_0504, 0x08_1357), "got {got:?}");
}
