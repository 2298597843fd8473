//! The calls that make a text of an event or a name, with ample memory and with requests refused.
use crate::cases::{assert_text, assert_text_or_refused};
use ipmi_events::{Sensors, device_name, event_line, push_sensor_name};
use ipmi_records::{SdrView, SelView};
use std::alloc::{AllocError, Global};

/// An event-only record of three sensors, starting with number 30h. Their letters begin with Z, and the ID string is
/// 6-bit ASCII.
const FANS: [u8; 20] = [
    0x01, 0x00, 0x51, 0x03, 0x0f, 0x20, 0x00, 0x30, 0x1d, 0x01, 0x04, 0x03, 0x13, 0x19, 0x00, 0x00,
    0x84, 0x66, 0xe8, 0x02,
];

/// An event of the second sensor. Event data 2 has the previous state.
const EVENT: [u8; 16] = [
    0x01, 0x00, 0x02, 0x01, 0x00, 0x00, 0x20, 0x20, 0x00, 0x04, 0x04, 0x31, 0x03, 0x41, 0xf0, 0xff,
];

const LINE: &str =
    "0001 | 1987-01-05 18:48:33 | FAN AA | State Asserted | Asserted | warning | was State Deasserted
";

/// The line of the event, with the sensors of the record.
fn line(alloc: Global) -> Result<String, AllocError> {
    let mut records = Vec::new(alloc);
    records.extend_from_slice(&FANS)?;
    let sensors = Sensors::of(alloc, records)?;
    event_line(alloc, 1, &SelView::read(&EVENT), &sensors)
}

/// A compact record of three sensors, starting with number 10h. Its name ends without a space.
const TEMPS: [u8; 36] = [
    0x02, 0x00, 0x51, 0x02, 0x1f, 0x20, 0x00, 0x10, 0x20, 0x01, 0x00, 0x00, 0x0c, 0x6f, 0x00, 0x00,
    0x00, 0x00, 0x00, 0x00, 0x00, 0x00, 0x00, 0x03, 0x05, 0x00, 0x00, 0x00, 0x00, 0x00, 0x00, 0xc4,
    0x54, 0x65, 0x6d, 0x70,
];

/// The name of the sensor with this number, by its record.
fn name(alloc: Global, view: &SdrView<'_>, number: u8) -> Result<String, AllocError> {
    let mut name = String::new(alloc);
    push_sensor_name(alloc, &mut name, view, number)?;
    Ok(name)
}

/// A locator of device 1.
const PSU1: [u8; 20] = [
    0x01, 0x00, 0x51, 0x11, 0x0f, 0x20, 0x01, 0x80, 0x00, 0x00, 0x00, 0x00, 0x0a, 0x01, 0x00, 0xc4,
    0x50, 0x53, 0x55, 0x31,
];

/// The name of the device.
fn device(alloc: Global) -> Result<String, AllocError> {
    Ok(device_name(alloc, &PSU1, 1)?.unwrap_or(String::new(alloc)))
}

// With ample memory each call returns its text.
#[test]
fn not_always_out_of_memory(rt: HostRuntime) {
    let fans = SdrView::read(&FANS).expect(&rt, "a record");
    let temps = SdrView::read(&TEMPS).expect(&rt, "a record");
    assert_text(&rt, line(rt.alloc()), LINE, "line");
    assert_text(&rt, name(rt.alloc(), &fans, 0x32), "FAN AB", "name");
    assert_text(&rt, name(rt.alloc(), &temps, 0x10), "Temp 5", "name");
    assert_text(&rt, device(rt.alloc()), "PSU1", "device");
}

// With memory refused each call returns its text, or fails when out of memory.
#[test]
fn memory_may_be_refused(rt: HostRuntime) {
    let fans = SdrView::read(&FANS).expect(&rt, "a record");
    let temps = SdrView::read(&TEMPS).expect(&rt, "a record");
    assert_text_or_refused(&rt, line(rt.alloc()), LINE);
    assert_text_or_refused(&rt, name(rt.alloc(), &fans, 0x32), "FAN AB");
    assert_text_or_refused(&rt, name(rt.alloc(), &temps, 0x10), "Temp 5");
    assert_text_or_refused(&rt, device(rt.alloc()), "PSU1");
}
