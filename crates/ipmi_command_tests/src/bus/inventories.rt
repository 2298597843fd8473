//! The longest inventory, read from an image in parts.
ghost use Rattle.std.specs.Prelude.{◌<◌};

use crate::commands::over_images::over;
use ipmi_bus::read_fru;
use std::alloc::Global;
use std::fmt::Write;
use std::process::Abort;

/// The byte at a place of the inventory. It differs from the bytes 32 and 254 places before it.
fn byte_at(place: u16) -> u8 {
    let [low, high] = place.to_le_bytes();
    low ^ high
}

fn push_byte(rt: &impl Abort, bytes: &mut Vec<u8>, place: u16) {
    bytes.push(byte_at(place)).expect(rt, "memory");
}

fn longest_inventory(rt: &impl Abort, alloc: Global) -> Vec<u8> {
    let mut bytes = Vec::new(alloc);
    for place in 0..0xFFFFu16 {
        push_byte(rt, &mut bytes, place);
    }
    bytes
}

fn push_line(rt: &impl Abort, image: &mut String, place: u16) {
    let byte = byte_at(place);
    write!(image, "fru 00 {byte:02x}\n").expect(rt, "memory");
}

/// An image of the inventory, one byte a line.
fn image_text(rt: &impl Abort, alloc: Global) -> String {
    let mut image = String::from_str(alloc, "ipmi-image 1\n").expect(rt, "memory");
    for place in 0..0xFFFFu16 {
        push_line(rt, &mut image, place);
    }
    image.push_str("end\n").expect(rt, "memory");
    image
}

/// Asserts that the inventory is read whole, in parts of at most `part` bytes, with this many calls.
fn assert_inventory(rt: &impl Abort, alloc: Global, image: &str, part: u8, calls: u32)
    requires some { 0 < part }
    requires fits { part < 255 }
{
    let mut ctl = over(rt, alloc, image);
    let bytes = read_fru(alloc, &mut ctl, 0, part, 5).expect(rt, "an inventory");
    let is_whole = bytes.as_slice() == longest_inventory(rt, alloc).as_slice();
    assert!(rt; is_whole, "parts of {part}: {} bytes", bytes.len());
    assert!(rt; ctl.calls == calls, "parts of {part}: {} calls", ctl.calls);
    drop(ctl);
}

// The size takes a call, 258 parts of 254 bytes are 65,532 bytes, and the last part has 3 bytes.
#[test]
fn the_longest_inventory_is_read_in_long_parts(rt: HostRuntime) {
    let image = image_text(&rt, rt.alloc());
    assert_inventory(&rt, rt.alloc(), image.as_str(), 254, 260);
}

// The size takes a call, 2,047 parts of 32 bytes are 65,504 bytes, and the last part has 31 bytes.
#[test]
fn the_longest_inventory_is_read_in_short_parts(rt: HostRuntime) {
    let image = image_text(&rt, rt.alloc());
    assert_inventory(&rt, rt.alloc(), image.as_str(), 32, 2_049);
}
