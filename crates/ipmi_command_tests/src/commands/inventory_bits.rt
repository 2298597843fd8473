//! A long inventory with each of its bits flipped, one at a time. The text names the fault in its place, and the other
//! parts are unchanged.
use super::long_inventory::{INVENTORY, assert_parts, digits_at};
use crate::cases::{byte_of, parts, range};
use std::alloc::Global;
use std::process::Abort;

/// The image with these bits of one byte flipped.
fn turned_image(rt: &impl Abort, alloc: Global, place: usize, bits: u8) -> String {
    let (before, rest) = INVENTORY
        .split_at_checked(digits_at(place))
        .expect(rt, "a place");
    let (digits, after) = rest.split_at_checked(2).expect(rt, "a byte");
    let byte = byte_of(rt, digits) ^ bits;
    format!(in alloc; "{before}{byte:02x}{after}").expect(rt, "memory")
}

/// Asserts the parts of the text if one bit of a byte is flipped.
fn assert_parts_at_bit(rt: &impl Abort, alloc: Global, place: usize, bit: u8, wanted: &str) {
    let image = turned_image(rt, alloc, place, bit);
    let case = format!(in alloc; "bit {bit:02x} of byte {place}").expect(rt, "memory");
    assert_parts(rt, alloc, image.as_str(), 512, wanted, case.as_str());
}

/// The same for each of these bits of a byte.
fn assert_parts_at_byte(rt: &impl Abort, alloc: Global, place: usize, bits: u8, wanted: &str) {
    for bit in [0x01, 0x02, 0x04, 0x08, 0x10, 0x20, 0x40, 0x80] {
        if bits & bit != 0 {
            assert_parts_at_bit(rt, alloc, place, bit, wanted);
        }
    }
}

/// The same for each byte of a line.
fn assert_parts_of_line(rt: &impl Abort, alloc: Global, line: &str) {
    let (places, rest) = parts(rt, line);
    let (first, last) = range(rt, places);
    let (bits, wanted) = parts(rt, rest);
    let bits = byte_of(rt, bits);
    for place in first..=last {
        assert_parts_at_byte(rt, alloc, place, bits, wanted);
    }
}

/// The same for each line.
fn assert_parts_of_lines(rt: &impl Abort, alloc: Global, lines: &str) {
    for line in lines.lines() {
        assert_parts_of_line(rt, alloc, line);
    }
}

/// `first byte-last byte|bits of each|part of the text|part of the text ..`.
const OF_THE_HEADER: &str = "0-0|0f|FRU fault: header version
0-0|f0|FRU fault: header checksum
1-7|ff|FRU fault: header checksum";

// The version is in the low four bits of the first byte. It is checked before the checksum.
#[test]
fn a_bit_of_the_header_is_told_by_the_version_or_the_sum(rt: HostRuntime) {
    assert_parts_of_lines(&rt, rt.alloc(), OF_THE_HEADER);
}

/// `first byte-last byte|bits of each|part of the text|part of the text ..`.
const OF_THE_CHASSIS: &str = "8-8|0f|Chassis fault: version|board|product|first|second
8-8|f0|Chassis fault: checksum|board|product|first|second
9-9|37|Chassis fault: checksum|board|product|first|second
9-9|08|Chassis fault: length|board|product|first|second
9-9|c0|Chassis fault: outside|board|product|first|second
10-71|ff|Chassis fault: checksum|board|product|first|second";

// The second byte is the length, 8 times 8 bytes. With a flipped bit the length is 0, or past the end, or the checksum is
// wrong.
#[test]
fn a_bit_of_the_chassis_is_told_beside_the_other_areas(rt: HostRuntime) {
    assert_parts_of_lines(&rt, rt.alloc(), OF_THE_CHASSIS);
}

/// `first byte-last byte|bits of each|part of the text|part of the text ..`.
const OF_THE_BOARD: &str = "72-72|0f|chassis|Board fault: version|product|first|second
72-72|f0|chassis|Board fault: checksum|product|first|second
73-73|2f|chassis|Board fault: checksum|product|first|second
73-73|10|chassis|Board fault: length|product|first|second
73-73|c0|chassis|Board fault: outside|product|first|second
74-199|ff|chassis|Board fault: checksum|product|first|second";

// The length is 16 times 8 bytes, starting at byte 72.
#[test]
fn a_bit_of_the_board_is_told_beside_the_other_areas(rt: HostRuntime) {
    assert_parts_of_lines(&rt, rt.alloc(), OF_THE_BOARD);
}

/// `first byte-last byte|bits of each|part of the text|part of the text ..`.
const OF_THE_PRODUCT: &str = "200-200|0f|chassis|board|Product fault: version|first|second
200-200|f0|chassis|board|Product fault: checksum|first|second
201-201|0f|chassis|board|Product fault: checksum|first|second
201-201|10|chassis|board|Product fault: length|first|second
201-201|e0|chassis|board|Product fault: outside|first|second
202-327|ff|chassis|board|Product fault: checksum|first|second";

// The length is 16 times 8 bytes, starting at byte 200.
#[test]
fn a_bit_of_the_product_is_told_beside_the_other_areas(rt: HostRuntime) {
    assert_parts_of_lines(&rt, rt.alloc(), OF_THE_PRODUCT);
}

/// `first byte-last byte|bits of each|part of the text|part of the text ..`.
const OF_THE_RECORDS: &str = "328-332|ff|chassis|board|product|Record fault: header checksum
333-372|ff|chassis|board|product|Record fault: data checksum
373-377|ff|chassis|board|product|first|Record fault: header checksum
378-511|ff|chassis|board|product|first|Record fault: data checksum";

// A header of five bytes has a checksum of itself and one of the data. No record after a faulty one is printed.
#[test]
fn a_bit_of_a_multirecord_is_told_and_is_the_last(rt: HostRuntime) {
    assert_parts_of_lines(&rt, rt.alloc(), OF_THE_RECORDS);
}
