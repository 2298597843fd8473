//! One record of each kind that most tests need, and readings.
use hex::FromHex;
use ipmi_text::Reading;

/// A full sensor record, type 01h. Its id is 0001h and its name `CPU Temp`. The sensor has number 01h, owner 20h and
/// LUN 0, and is of entity 3.1, a processor. It measures degrees C, and each raw reading is its value. The upper
/// thresholds can be read: non-critical 55h, critical 5Ah and non-recoverable 5Fh.
pub const CPU_TEMP: [u8; 56] = [
    0x01, 0x00, 0x51, 0x01, 0x33, 0x20, 0x00, 0x01, 0x03, 0x01, 0x7f, 0x68, 0x01, 0x01, 0x00, 0x00,
    0x00, 0x00, 0x38, 0x38, 0x00, 0x01, 0x00, 0x00, 0x01, 0x00, 0x00, 0x00, 0x00, 0x00, 0x00, 0x00,
    0x00, 0x00, 0x00, 0x00, 0x5f, 0x5a, 0x55, 0x00, 0x00, 0x00, 0x02, 0x02, 0x00, 0x00, 0x00, 0xc8,
    0x43, 0x50, 0x55, 0x20, 0x54, 0x65, 0x6d, 0x70,
];

/// A FRU device locator record, type 11h. Its id is 0002h and its name `PSU1`. It locates FRU device 1 of the
/// controller, which is of entity 10.1, a power supply.
pub const PSU1: [u8; 20] = [
    0x02, 0x00, 0x51, 0x11, 0x0f, 0x20, 0x01, 0x80, 0x00, 0x00, 0x00, 0x00, 0x0a, 0x01, 0x00, 0xc4,
    0x50, 0x53, 0x55, 0x31,
];

/// A SEL event record, type 02h. Its id is 0001h and its time stamp 20000001h. Temperature sensor 30h went above its
/// upper critical threshold 5Ah, with the reading 5Fh.
pub const EVENT: [u8; 16] = [
    0x01, 0x00, 0x02, 0x01, 0x00, 0x00, 0x20, 0x20, 0x00, 0x04, 0x01, 0x30, 0x01, 0x59, 0x5f, 0x5a,
];

/// The response to Get SEL Info, after the completion code: version 51h, 3 entries, 1,024 bytes free, the last addition
/// at 20000001h, no erase, and support 02h. The response to Get SDR Repository Info has the same layout.
pub const INFO: [u8; 14] = [
    0x51, 0x03, 0x00, 0x00, 0x04, 0x01, 0x00, 0x00, 0x20, 0xff, 0xff, 0xff, 0xff, 0x02,
];

/// The record with another value of one byte. Bytes are counted from 1, as in the tables of the standard. `None` if the
/// record has no such byte.
pub fn with_byte(record: [u8; 56], place: usize, value: u8) -> Option<[u8; 56]> {
    let mut record = record;
    let byte = record.get_mut(place.checked_sub(1)?)?;
    *byte = value;
    Some(record)
}

/// `CPU_TEMP` with changes such as `14=6f`, separated by commas. This one gives byte 14 the value 6Fh. `None` if a change is
/// malformed.
pub fn changed(changes: &str) -> Option<[u8; 56]> {
    let mut record = CPU_TEMP;
    for change in changes.split_terminator(',') {
        let (place, value) = change.split_once('=')?;
        let place = place.parse::<usize>().ok()?;
        let value = u8::from_str_radix(value, 16).ok()?;
        record = with_byte(record, place, value)?;
    }
    Some(record)
}

/// The response to Get Sensor Reading, after the completion code.
pub fn reading_of(bytes: [u8; 4]) -> Reading {
    let [raw, flags, status, more] = bytes;
    Reading {
        raw,
        flags,
        status,
        more,
    }
}

/// A reading: the digits of its four bytes, or `none` if there is no such sensor. The outer `None` means that the text is
/// neither.
pub fn answer_of(text: &str) -> Option<Option<Reading>> {
    if text == "none" {
        return Some(None);
    }
    let bytes = <[u8; 4]>::from_hex(text).ok()?;
    Some(Some(reading_of(bytes)))
}
