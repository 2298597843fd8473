//! Commands over a saved image: their output and the number of their calls.
use super::outcome::assert_outcome_of_one;
use super::over_images::scripted;
use super::saved::image_named;
use crate::cases::case_of;
use crate::command_line::lines::command_of_case;
use std::alloc::Global;
use std::process::Abort;

/// Asserts the outcome of a command over an image. The calls meet the moods of the case.
fn assert_output(rt: &impl Abort, alloc: Global, case: &str) {
    let case = case_of(rt, case);
    let ctl = scripted(rt, alloc, image_named(rt, case.image), case.more);
    let command = command_of_case(rt, alloc, case.words);
    assert_outcome_of_one(rt, alloc, ctl, command, case.wanted, case.line);
}

/// The same for each case.
pub(super) fn assert_outputs(rt: &impl Abort, alloc: Global, cases: &str) {
    for case in cases.split("====\n") {
        assert_output(rt, alloc, case);
    }
}

/// `words|image|moods`, then the outcome.
const RECORDS_IN_HEX: &str = "sdr hex|leading zeros and upper case|
0 5
--
sdr 0012 0345 120051c000
sdr 0345 abcd 450351c000
sdr abcd ffff cdab51c001ef
";

// An id has four digits and a byte two, in lower case.
#[test]
fn records_are_lines_in_hex(rt: HostRuntime) {
    assert_outputs(&rt, rt.alloc(), RECORDS_IN_HEX);
}

/// `words|image|moods`, then the outcome.
const SENSORS: &str = "sdr list|sensor|
0 5
--
CPU Temp         | 45 degrees C      | ok
====
sdr elist|sensor|
0 5
--
CPU Temp         | 01h | ok  | 3.1   | 45 degrees C
====
sdr|sensor without reading|
0 5
--
CPU Temp         | no reading        | ns
====
sdr list fru|sensor and locator|
0 6
--
PSU1             | FRU 1             | na
====
sdr list all|sensor and locator|
0 7
--
CPU Temp         | 45 degrees C      | ok
PSU1             | FRU 1             | na
====
sdr elist fru|sensor and locator|
0 6
--
PSU1             | --h | na  | 10.1  | FRU 1
";

// A reservation, the header, the body in parts of 32 and 19 bytes, and the reading; of a locator the header and the
// body.
#[test]
fn sensors_are_listed_with_their_readings(rt: HostRuntime) {
    assert_outputs(&rt, rt.alloc(), SENSORS);
}

/// `words|image|moods`, then the outcome.
const FAULTS: &str = "sdr list|fault and locator|
0 4
--
record 0001h: body too short
====
sdr list all|fault and locator|
0 4
--
record 0001h: body too short
PSU1             | FRU 1             | na
====
sdr elist all|fault and locator|
0 4
--
record 0001h: body too short
PSU1             | --h | na  | 10.1  | FRU 1
====
sdr list compact|fault and locator|
0 4
--
";

// A faulty record is of the kind that its type byte names.
#[test]
fn a_listing_goes_on_after_a_record_with_a_fault(rt: HostRuntime) {
    assert_outputs(&rt, rt.alloc(), FAULTS);
}

/// `words|image|moods`, then the outcome.
const TROUBLES: &str = "sdr list|sensor|....R
1 5
record 0001h refused with code D4h
--
====
--tries 1 sdr list|sensor|....BB
1 6
gave up at 0001h
--
====
sdr list all|locator and sensor|......R
1 7
record 0002h refused with code D4h
--
PSU1             | FRU 1             | na
====
--tries 0 sdr elist all|locator and sensor|......B
1 7
gave up at 0002h
--
PSU1             | --h | na  | 10.1  | FRU 1
";

// The message names the record, and the lines before it are printed.
#[test]
fn a_reading_is_refused_or_given_up(rt: HostRuntime) {
    assert_outputs(&rt, rt.alloc(), TROUBLES);
}

/// `words|image|moods`, then the outcome.
const ENTRIES: &str = "sel list|log|
0 4
--
0001 | 1987-01-05 18:48:33 | Temperature #0x30 | Upper Critical going high | Asserted
0002 | +536870912 s | Temperature #0x30 | Upper Non-critical going high | Deasserted
0003 | unspecified | OEM record 0xc0 | 001357 | 010203040506
====
sel list 1|log|
0 2
--
0001 | 1987-01-05 18:48:33 | Temperature #0x30 | Upper Critical going high | Asserted
====
sel list first 0|log|
0 4
--
0001 | 1987-01-05 18:48:33 | Temperature #0x30 | Upper Critical going high | Asserted
0002 | +536870912 s | Temperature #0x30 | Upper Non-critical going high | Deasserted
0003 | unspecified | OEM record 0xc0 | 001357 | 010203040506
====
sel list last 0|log|
0 4
--
0001 | 1987-01-05 18:48:33 | Temperature #0x30 | Upper Critical going high | Asserted
0002 | +536870912 s | Temperature #0x30 | Upper Non-critical going high | Deasserted
0003 | unspecified | OEM record 0xc0 | 001357 | 010203040506
====
sel list 4|log|
0 4
--
0001 | 1987-01-05 18:48:33 | Temperature #0x30 | Upper Critical going high | Asserted
0002 | +536870912 s | Temperature #0x30 | Upper Non-critical going high | Deasserted
0003 | unspecified | OEM record 0xc0 | 001357 | 010203040506
====
--from 0003 sel list|log|
0 2
--
0003 | unspecified | OEM record 0xc0 | 001357 | 010203040506
====
sel list first 3|log to nowhere|
0 4
--
0001 | 1987-01-05 18:48:33 | Temperature #0x30 | Upper Critical going high | Asserted
0002 | +536870912 s | Temperature #0x30 | Upper Non-critical going high | Deasserted
0003 | unspecified | OEM record 0xc0 | 001357 | 010203040506
====
sel list|log to nowhere|
1 5
record 0009h not present
--
0001 | 1987-01-05 18:48:33 | Temperature #0x30 | Upper Critical going high | Asserted
0002 | +536870912 s | Temperature #0x30 | Upper Non-critical going high | Deasserted
0003 | unspecified | OEM record 0xc0 | 001357 | 010203040506
====
sel list|log in a cycle|
1 3
cycle at 0007h
--
0007 | OEM record 0xe0 | 00000000000000000000000000
0009 | record type 0x03 | 05060708090a0b0c0d0e0f1011
";

// A reservation, and a call for each entry. No call is made after the limit is reached.
#[test]
fn entries_are_listed(rt: HostRuntime) {
    assert_outputs(&rt, rt.alloc(), ENTRIES);
}

/// `words|image|moods`, then the outcome.
const ONE_ENTRY: &str = "sel get 1|log|
0 2
--
Record: 0001h
Type: 02h
Time: 1987-01-05 18:48:33
Generator: 0020h
Revision: 04h
Sensor: Temperature #0x30
Event: Upper Critical going high
Direction: Asserted
Data: 595f5a

====
sel get 0x3|log|
0 2
--
Record: 0003h
Type: C0h
Time: unspecified
Manufacturer: 001357
Data: 010203040506

====
sel get 9|log|
1 2
record 0009h not present
--
";

#[test]
fn an_entry_is_shown_by_its_id(rt: HostRuntime) {
    assert_outputs(&rt, rt.alloc(), ONE_ENTRY);
}
