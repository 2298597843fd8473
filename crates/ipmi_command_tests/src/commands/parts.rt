//! Listings in parts of sizes other than 32: the same lines, with other numbers of calls.
use super::outcome::outcome_of_one;
use super::over_images::over;
use super::saved::image_named;
use crate::bus::listings::assert_listing;
use crate::cases::{case_of, number};
use crate::command_line::lines::command;
use std::alloc::Global;
use std::process::Abort;

/// Asserts the lines of a listing in parts of one size. A part such as `5:18` has the size and the number of calls.
fn assert_listing_in_parts(
    rt: &impl Abort,
    alloc: Global,
    words: &str,
    image: &str,
    part: &str,
    lines: &str,
) {
    let (size, calls) = part.split_once(':').expect(rt, part);
    let calls = number(rt, calls);
    let words = format!(in alloc; "--part {size} {words}").expect(rt, "memory");
    let ctl = over(rt, alloc, image);
    let outcome = outcome_of_one(alloc, ctl, command(rt, alloc, words.as_str()));
    assert_listing(rt, alloc, outcome, lines, calls, words.as_str());
}

/// The same for each part of a text.
fn assert_listing_in_parts_of_each_size(
    rt: &impl Abort,
    alloc: Global,
    words: &str,
    image: &str,
    parts: &str,
    lines: &str,
) {
    for part in parts.split_whitespace() {
        assert_listing_in_parts(rt, alloc, words, image, part, lines);
    }
}

/// The same for a case.
fn assert_listing_of_case(rt: &impl Abort, alloc: Global, case: &str) {
    let case = case_of(rt, case);
    let image = image_named(rt, case.image);
    assert_listing_in_parts_of_each_size(rt, alloc, case.words, image, case.more, case.wanted);
}

/// The same for each case.
fn assert_listings(rt: &impl Abort, alloc: Global, cases: &str) {
    for case in cases.split("====\n") {
        assert_listing_of_case(rt, alloc, case);
    }
}

/// `words|image|size of a part:calls ..`, then the lines.
const HEX: &str = "sdr hex|three|1:19 2:12 5:6 16:6 254:6
sdr 0001 0002 010051c001aa
sdr 0002 0003 020051c002bbcc
sdr 0003 ffff 030051c000
====
sdr hex|sensor and locator|1:77 5:17 16:8 254:5
sdr 0001 0002 \
    010051013320000103017f680101000000003838000100000100000000000000000000005f5a550000000202000000c84350552054656d70
sdr 0002 ffff 020051110f200180000000000a0100c450535531
";

// A reservation, and for each record the parts of its header of five bytes, and those of the bytes after it. The three
// records have 1, 2 and 0 bytes after their headers, the sensor has 51 and the locator 15.
#[test]
fn records_are_listed_in_parts_of_any_size(rt: HostRuntime) {
    assert_listings(&rt, rt.alloc(), HEX);
}

/// `words|image|size of a part:calls ..`, then the lines.
const SENSORS: &str = "sdr list|sensor and locator|1:78 5:18 16:9 254:6
CPU Temp         | 45 degrees C      | ok
====
sdr list all|sensor and locator|1:78 5:18 16:9 254:6
CPU Temp         | 45 degrees C      | ok
PSU1             | FRU 1             | na
====
sdr list fru|sensor and locator|1:77 5:17 16:8 254:5
PSU1             | FRU 1             | na
====
sdr elist|sensor and locator|1:78 5:18 16:9 254:6
CPU Temp         | 01h | ok  | 3.1   | 45 degrees C
====
sdr elist fru|sensor and locator|1:77 5:17 16:8 254:5
PSU1             | --h | na  | 10.1  | FRU 1
";

// The calls for the records in hex, and one for the reading of a sensor whose line is printed.
#[test]
fn sensors_are_listed_in_parts_of_any_size(rt: HostRuntime) {
    assert_listings(&rt, rt.alloc(), SENSORS);
}

/// `words|image|size of a part:calls ..`, then the lines.
const ENTRIES: &str = "sel list|log|1:49 5:13 16:4 254:4
0001 | 1987-01-05 18:48:33 | Temperature #0x30 | Upper Critical going high | Asserted
0002 | +536870912 s | Temperature #0x30 | Upper Non-critical going high | Deasserted
0003 | unspecified | OEM record 0xc0 | 001357 | 010203040506
====
sel list 2|log|1:33 5:9 16:3 254:3
0001 | 1987-01-05 18:48:33 | Temperature #0x30 | Upper Critical going high | Asserted
0002 | +536870912 s | Temperature #0x30 | Upper Non-critical going high | Deasserted
====
sel get 3|log|1:17 5:5 16:2 254:2
Record: 0003h
Type: C0h
Time: unspecified
Manufacturer: 001357
Data: 010203040506

";

// A reservation, and for each entry the parts of its 16 bytes.
#[test]
fn entries_are_listed_in_parts_of_any_size(rt: HostRuntime) {
    assert_listings(&rt, rt.alloc(), ENTRIES);
}
