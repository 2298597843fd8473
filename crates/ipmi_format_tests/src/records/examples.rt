//! The texts of `EVENT`, and the bytes in the texts of a case.
use crate::cases::bytes_of;
use ipmi_records::{EventEntry, FullSensor, SdrView, SelView};
use ipmi_text::Reading;
use std::alloc::Global;
use std::process::Abort;

pub(super) const EVENT_LINE: &str =
    "0001 | 1987-01-05 18:48:33 | Temperature #0x30 | Upper Critical going high | Asserted
";

pub(super) const EVENT_BLOCK: &str = "Record: 0001h
Type: 02h
Time: 1987-01-05 18:48:33
Generator: 0020h
Revision: 04h
Sensor: Temperature #0x30
Event: Upper Critical going high
Direction: Asserted
Data: 595f5a

";

/// A reading: the digits of its four bytes, or `none`.
pub(super) fn answer_of(rt: &impl Abort, text: &str) -> Option<Reading> {
    ipmi_fixtures::answer_of(text).expect(rt, text)
}

/// `CPU_TEMP` with changes such as `14=6f`, separated by commas.
pub(super) fn changed(rt: &impl Abort, changes: &str) -> [u8; 56] {
    ipmi_fixtures::changed(changes).expect(rt, changes)
}

/// The record with another value of one byte. Bytes are counted from 1.
pub(super) fn with_byte(rt: &impl Abort, record: [u8; 56], place: usize, value: u8) -> [u8; 56] {
    ipmi_fixtures::with_byte(record, place, value).expect(rt, "a byte of the record")
}

/// The bytes of a record: its digits, or `CPU_TEMP` and its changes after a space.
pub(super) fn record_of(rt: &impl Abort, alloc: Global, text: &str) -> Vec<u8> {
    match text.strip_prefix("CPU_TEMP") {
        Some(changes) => changed(rt, changes.trim_start())
            .to_vec(alloc)
            .expect(rt, text),
        None => bytes_of(rt, alloc, text),
    }
}

/// The full sensor record in the bytes.
pub(super) fn full_of<'a>(rt: &impl Abort, bytes: &'a [u8]) -> FullSensor<'a> {
    match SdrView::read(bytes) {
        Ok(SdrView::Full(full)) => full,
        _ => panic!(rt; "no full sensor record: {bytes:?}"),
    }
}

/// The event in the bytes of an entry.
pub(super) fn event_of<'a>(rt: &impl Abort, bytes: &'a [u8; 16]) -> EventEntry<'a> {
    match SelView::read(bytes) {
        SelView::Event(event) => event,
        _ => panic!(rt; "no event: {bytes:?}"),
    }
}
