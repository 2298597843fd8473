//! The last entries of the event log, which are kept in memory along one walk and printed when it is over.
use super::in_words::outcome_in;
use super::outcome::assert_outcome;
use super::over_images::{Two, changing};
use super::saved::image_named;
use crate::cases::{case_of, parts};
use crate::command_line::lines::command_of_case;
use ipmi_program::Wording;
use std::alloc::Global;
use std::process::Abort;

/// Asserts the outcome of a case in codes.
fn assert_kept(rt: &impl Abort, alloc: Global, case: &str) {
    let case = case_of(rt, case);
    let (second, letters) = parts(rt, case.more);
    let images = Two {
        first: image_named(rt, case.image),
        second: image_named(rt, second),
    };
    let ctl = changing(rt, alloc, images, letters);
    let command = command_of_case(rt, alloc, case.words);
    let outcome = outcome_in(alloc, ctl, command, Wording::Plain);
    assert_outcome(rt, alloc, outcome, case.wanted, case.line);
}

/// The same for each case.
fn assert_all_kept(rt: &impl Abort, alloc: Global, cases: &str) {
    for case in cases.split("====\n") {
        assert_kept(rt, alloc, case);
    }
}

/// `words|image|other image|moods`, then the outcome.
const LAST: &str = "sel list last 1|log|empty|
0 4
--
0003 | unspecified | OEM record 0xc0 | 001357 | 010203040506
====
sel list last 2|log|empty|
0 4
--
0002 | +536870912 s | Temperature #0x30 | Upper Non-critical going high | Deasserted
0003 | unspecified | OEM record 0xc0 | 001357 | 010203040506
====
sel list last 3|log|empty|
0 4
--
0001 | 1987-01-05 18:48:33 | Temperature #0x30 | Upper Critical going high | Asserted
0002 | +536870912 s | Temperature #0x30 | Upper Non-critical going high | Deasserted
0003 | unspecified | OEM record 0xc0 | 001357 | 010203040506
====
sel list last 4|log|empty|
0 4
--
0001 | 1987-01-05 18:48:33 | Temperature #0x30 | Upper Critical going high | Asserted
0002 | +536870912 s | Temperature #0x30 | Upper Non-critical going high | Deasserted
0003 | unspecified | OEM record 0xc0 | 001357 | 010203040506
====
sel list last 65535|log|empty|
0 4
--
0001 | 1987-01-05 18:48:33 | Temperature #0x30 | Upper Critical going high | Asserted
0002 | +536870912 s | Temperature #0x30 | Upper Non-critical going high | Deasserted
0003 | unspecified | OEM record 0xc0 | 001357 | 010203040506
====
sel list last 2|empty|log|
0 2
--
====
--part 5 sel list last 1|log|empty|
0 13
--
0003 | unspecified | OEM record 0xc0 | 001357 | 010203040506
====
--from 0002 sel list last 1|log|empty|
0 3
--
0003 | unspecified | OEM record 0xc0 | 001357 | 010203040506
====
--from 0003 sel list last 2|log|empty|
0 2
--
0003 | unspecified | OEM record 0xc0 | 001357 | 010203040506
";

// A reservation, and a call for each entry, or for each part of at most 5 of its 16 bytes.
#[test]
fn the_last_entries_take_one_walk(rt: HostRuntime) {
    assert_all_kept(&rt, rt.alloc(), LAST);
}

/// `words|image|other image|moods`, then the outcome.
const ENDED: &str = "sel list last 2|log to nowhere|empty|
1 5
record 0009h not present
--
====
sel list last 1|log in a cycle|empty|
1 3
cycle at 0007h
--
====
--from 0009 sel list last 2|log|empty|
1 2
record 0009h not present
--
====
sel list last 2|log|empty|...R
1 4
record 0003h refused with code D4h
--
====
--tries 0 sel list last 2|log|empty|...B
1 4
gave up at 0003h
--
====
--tries 1 sel list last 1|log|empty|...B
0 5
--
0003 | unspecified | OEM record 0xc0 | 001357 | 010203040506
====
sel list last 2|log|empty|..x
1 3
record 0002h not present
--
";

// Which entries are the last ones isn't known before the end of the walk.
#[test]
fn nothing_is_printed_if_the_walk_breaks_off(rt: HostRuntime) {
    assert_all_kept(&rt, rt.alloc(), ENDED);
}

/// `words|image|other image|moods`, then the outcome.
const GROWN: &str = "sel list last 2|log|grown log|...a
0 5
--
0003 | unspecified | OEM record 0xc0 | 001357 | 010203040506
0004 | OEM record 0xe0 | 04040404040404040404040404
====
sel list last 3|log|grown log|a
0 5
--
0002 | +536870912 s | Temperature #0x30 | Upper Non-critical going high | Deasserted
0003 | unspecified | OEM record 0xc0 | 001357 | 010203040506
0004 | OEM record 0xe0 | 04040404040404040404040404
====
sel list last 1|log|grown log|...x
0 5
--
0004 | OEM record 0xe0 | 04040404040404040404040404
====
sel list last 2|log|grown log|....a
0 4
--
0002 | +536870912 s | Temperature #0x30 | Upper Non-critical going high | Deasserted
0003 | unspecified | OEM record 0xc0 | 001357 | 010203040506
";

// The fourth call is for the third entry. What is appended later isn't listed.
#[test]
fn no_more_than_the_last_entries_of_a_growing_log_are_printed(rt: HostRuntime) {
    assert_all_kept(&rt, rt.alloc(), GROWN);
}
