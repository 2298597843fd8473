//! Entries of each type, 00h to FFh: their lines, and which are the newest.
use super::outcome::assert_outcome;
use super::over_images::outcome_over;
use crate::cases::{byte_of, parts};
use std::alloc::Global;
use std::fmt::Write;
use std::process::Abort;

/// The bytes of an entry after its type: an unspecified time, and ten other bytes.
const ENTRY: &str = "ffffffff08090a0b0c0d0e0f10";

/// The line of an entry of this type, without its id.
fn entry_text(rt: &impl Abort, alloc: Global, entry_type: u8) -> String {
    let text = match entry_type {
        0x02 => format!(in alloc;
            "unspecified | Other Units-based Sensor #0x0c | event 0x0d offset 0xe | Asserted"
        ),
        0xC0..=0xDF => format!(in alloc;
            "unspecified | OEM record 0x{entry_type:02x} | 0a0908 | 0b0c0d0e0f10"
        ),
        0xE0..=0xFF => format!(in alloc; "OEM record 0x{entry_type:02x} | {ENTRY}"),
        _ => format!(in alloc; "record type 0x{entry_type:02x} | {ENTRY}"),
    };
    text.expect(rt, "memory")
}

/// The id of the entry of this type: one above the type.
fn id_of(entry_type: u8) -> u16 {
    u16::from(entry_type).saturating_add(1)
}

/// Appends the row of the entry of this type. Its next id is one above its own, and FFFFh after the last type.
fn push_row(rt: &impl Abort, rows: &mut String, entry_type: u8) {
    let id = id_of(entry_type);
    let next = if entry_type == 0xFF {
        0xFFFF
    } else {
        id.saturating_add(1)
    };
    let [low, high] = id.to_le_bytes();
    write!(
        rows,
        "sel {id:04x} {next:04x} {low:02x}{high:02x}{entry_type:02x}{ENTRY}\n"
    )
    .expect(rt, "memory");
}

/// Appends the line of the entry of this type.
fn push_line(rt: &impl Abort, alloc: Global, lines: &mut String, entry_type: u8) {
    let id = id_of(entry_type);
    let text = entry_text(rt, alloc, entry_type);
    write!(lines, "{id:04x} | {text}\n").expect(rt, "memory");
}

/// An image of a log with one entry of each type.
fn log_of_all(rt: &impl Abort, alloc: Global) -> String {
    let mut image = String::from_str(alloc, "ipmi-image 1\n").expect(rt, "memory");
    for entry_type in 0..=0xFF {
        push_row(rt, &mut image, entry_type);
    }
    image.push_str("end\n").expect(rt, "memory");
    image
}

/// The lines of the entries from the first type to the last.
fn lines_of(rt: &impl Abort, alloc: Global, first: u8, last: u8) -> String {
    let mut lines = String::new(alloc);
    for entry_type in first..=last {
        push_line(rt, alloc, &mut lines, entry_type);
    }
    lines
}

/// The same for types such as `e0-ff`.
fn lines_between(rt: &impl Abort, alloc: Global, types: &str) -> String {
    let (first, last) = types.split_once('-').expect(rt, types);
    lines_of(rt, alloc, byte_of(rt, first), byte_of(rt, last))
}

/// Asserts the listing of a case over the log of all types.
fn assert_listing(rt: &impl Abort, alloc: Global, case: &str) {
    let (words, rest) = parts(rt, case);
    let (types, calls) = parts(rt, rest);
    let outcome = outcome_over(rt, alloc, words, log_of_all(rt, alloc).as_str());
    let lines = lines_between(rt, alloc, types);
    let wanted = format!(in alloc; "0 {calls}\n--\n{lines}").expect(rt, "memory");
    assert_outcome(rt, alloc, outcome, wanted.as_str(), case);
}

/// `words|first type-last type|calls`.
const CASES: &str = "sel list|00-ff|257
sel list last 256|00-ff|514
sel list last 257|00-ff|514
sel list last 65535|00-ff|514
sel list last 255|01-ff|514
sel list last 32|e0-ff|514
sel list last 1|ff-ff|514
sel list first 3|00-02|4
--from 0081 sel list last 64|c0-ff|258";

// A reservation and 256 entries in each walk, or 128 from the entry of type 80h on.
#[test]
fn an_entry_of_each_type_is_listed(rt: HostRuntime) {
    for case in CASES.lines() {
        assert_listing(&rt, rt.alloc(), case);
    }
}
