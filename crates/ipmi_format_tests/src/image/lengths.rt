//! Images that are cut off, and records and inventories up to their greatest length and beyond.
use super::images::{assert_answers_of_text, fault_of};
use super::rewritten::assert_image_text;
use ipmi_fixtures::THREE_ROWS;
use ipmi_image::ImageFault;
use std::alloc::Global;
use std::fmt::Write;
use std::process::Abort;

/// Asserts the fault of an image, or that it has none.
fn assert_fault(rt: &impl Abort, alloc: Global, image: &[u8], wanted: Option<ImageFault>) {
    let fault = fault_of(alloc, image);
    assert!(rt; fault == wanted, "{} bytes: {fault:?}", image.len());
}

/// The same for the first `len` bytes of `THREE_ROWS`.
fn assert_fault_of_cut(rt: &impl Abort, alloc: Global, len: usize, wanted: Option<ImageFault>) {
    let image = THREE_ROWS.as_bytes().get(..len).expect(rt, "as many bytes");
    assert_fault(rt, alloc, image, wanted);
}

/// The length of the first line of `THREE_ROWS`, with its line feed.
const FIRST_LINE: usize = 13;

/// The length of `THREE_ROWS`.
const WHOLE: usize = 98;

#[test]
fn an_image_cut_short_has_no_end(rt: HostRuntime) {
    for len in 0..FIRST_LINE {
        assert_fault_of_cut(&rt, rt.alloc(), len, Some(ImageFault::Header));
    }
    for len in FIRST_LINE..WHOLE {
        assert_fault_of_cut(&rt, rt.alloc(), len, Some(ImageFault::NoEnd));
    }
    assert_fault_of_cut(&rt, rt.alloc(), WHOLE, None);
    let len = THREE_ROWS.len();
    assert!(rt; len == WHOLE, "{len} bytes");
}

/// The same for an image of a record with `after` bytes after its fifth byte, which has that number.
fn assert_fault_of_record(rt: &impl Abort, alloc: Global, after: u8, wanted: Option<ImageFault>) {
    let bytes = "00".repeat(alloc, usize::from(after)).expect(rt, "memory");
    let image = format!(in alloc;
        "ipmi-image 1\nsdr 0001 ffff 010051c0{after:02x}{bytes}\nend\n"
    ).expect(rt, "memory");
    assert_fault(rt, alloc, image.as_bytes(), wanted);
}

// 5 + 251 bytes.
#[test]
fn a_record_has_256_bytes_at_most(rt: HostRuntime) {
    for after in [0, 1, 250, 251] {
        assert_fault_of_record(&rt, rt.alloc(), after, None);
    }
    for after in [252, 253, 255] {
        assert_fault_of_record(&rt, rt.alloc(), after, Some(ImageFault::Length(2)));
    }
}

/// Appends bytes of the longest inventory, in hex. The byte at an offset is the offset modulo 251.
fn push_bytes(rt: &impl Abort, text: &mut String, from: u32, to: u32) {
    for place in from..to {
        let byte = place % 251;
        write!(text, "{byte:02x}").expect(rt, "memory");
    }
}

/// An image of an inventory of 65,535 bytes on one line, and then this text.
fn full_inventory(rt: &impl Abort, alloc: Global, after: &str) -> String {
    let mut image = String::from_str(alloc, "ipmi-image 1\nfru 00 ").expect(rt, "memory");
    push_bytes(rt, &mut image, 0, 65_535);
    image.push_str(after).expect(rt, "memory");
    image
}

#[test]
fn an_inventory_has_65535_bytes_at_most(rt: HostRuntime) {
    let image = full_inventory(&rt, rt.alloc(), "\nend\n");
    assert_fault(&rt, rt.alloc(), image.as_bytes(), None);
    let image = full_inventory(&rt, rt.alloc(), "\nfru 00 00\nend\n");
    assert_fault(
        &rt,
        rt.alloc(),
        image.as_bytes(),
        Some(ImageFault::TooMany(3)),
    );
    let image = full_inventory(&rt, rt.alloc(), "00\nend\n");
    assert_fault(
        &rt,
        rt.alloc(),
        image.as_bytes(),
        Some(ImageFault::TooMany(2)),
    );
}

/// Appends a line of the longest inventory.
fn push_line(rt: &impl Abort, text: &mut String, from: u32, to: u32) {
    text.push_str("fru 00 ").expect(rt, "memory");
    push_bytes(rt, text, from, to);
    text.push_str("\n").expect(rt, "memory");
}

/// The longest inventory as rewritten: 64 bytes per line, and 63 on the last line.
fn full_inventory_rewritten(rt: &impl Abort, alloc: Global) -> String {
    let mut text = String::from_str(alloc, "ipmi-image 2\n").expect(rt, "memory");
    for line in 0..1_023 {
        push_line(rt, &mut text, 64 * line, 64 * line + 64);
    }
    push_line(rt, &mut text, 65_472, 65_535);
    text.push_str("end\n").expect(rt, "memory");
    text
}

#[test]
fn the_longest_inventory_is_written_again(rt: HostRuntime) {
    let image = full_inventory(&rt, rt.alloc(), "\nend\n");
    let wanted = full_inventory_rewritten(&rt, rt.alloc());
    assert_image_text(&rt, rt.alloc(), &image, &wanted);
    assert_image_text(&rt, rt.alloc(), &wanted, &wanted);
}

/// `call|answer`. The last byte is at FFFEh.
const LAST_BYTES: &str = "fru_size 0|ffff 00
fru_part 0 fffd 3|02 1617ee
fru_part 0 fffd 2|02 1617
fru_part 0 fffd 1|01 16
fru_part 0 fffe 1|01 17
fru_part 0 fffe 3|01 17eeee
fru_part 0 ffff 1|code c9
fru_part 0 ffff 11|code c9
fru_part 0 0 2|02 0001";

#[test]
fn the_longest_inventory_is_given_to_its_last_byte(rt: HostRuntime) {
    let image = full_inventory(&rt, rt.alloc(), "\nend\n");
    assert_answers_of_text(&rt, rt.alloc(), &image, LAST_BYTES);
}
