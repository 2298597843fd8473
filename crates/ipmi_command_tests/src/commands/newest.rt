//! The newest entries of the event log: counted on a first walk, and printed on a second one.
use super::printed::assert_outputs;

/// `words|image|moods`, then the outcome.
const LAST: &str = "sel list last 2|log|
0 8
--
0002 | +536870912 s | Temperature #0x30 | Upper Non-critical going high | Deasserted
0003 | unspecified | OEM record 0xc0 | 001357 | 010203040506
====
sel list last 1|log|
0 8
--
0003 | unspecified | OEM record 0xc0 | 001357 | 010203040506
====
sel list last 3|log|
0 8
--
0001 | 1987-01-05 18:48:33 | Temperature #0x30 | Upper Critical going high | Asserted
0002 | +536870912 s | Temperature #0x30 | Upper Non-critical going high | Deasserted
0003 | unspecified | OEM record 0xc0 | 001357 | 010203040506
====
sel list last 9|log|
0 8
--
0001 | 1987-01-05 18:48:33 | Temperature #0x30 | Upper Critical going high | Asserted
0002 | +536870912 s | Temperature #0x30 | Upper Non-critical going high | Deasserted
0003 | unspecified | OEM record 0xc0 | 001357 | 010203040506
====
sel list last 65535|log|
0 8
--
0001 | 1987-01-05 18:48:33 | Temperature #0x30 | Upper Critical going high | Asserted
0002 | +536870912 s | Temperature #0x30 | Upper Non-critical going high | Deasserted
0003 | unspecified | OEM record 0xc0 | 001357 | 010203040506
====
sel list last 1|one entry|
0 4
--
0001 | 1987-01-05 18:48:33 | Temperature #0x30 | Upper Critical going high | Asserted
====
--part 1 sel list last 2|one entry|
0 34
--
0001 | 1987-01-05 18:48:33 | Temperature #0x30 | Upper Critical going high | Asserted
====
--part 1 sel list last 1|log|
0 98
--
0003 | unspecified | OEM record 0xc0 | 001357 | 010203040506
====
--part 5 sel list last 1|log|
0 26
--
0003 | unspecified | OEM record 0xc0 | 001357 | 010203040506
";

// Each walk has a reservation and a call for each entry, or for each part of an entry of 16 bytes.
#[test]
fn the_newest_entries_take_two_walks(rt: HostRuntime) {
    assert_outputs(&rt, rt.alloc(), LAST);
}

/// `words|image|moods`, then the outcome.
const OF_NONE: &str = "sel list last 2|empty|
0 2
--
====
sel list last 65535|sensor|
0 2
--
";

// The first walk shows that the log is empty.
#[test]
fn an_empty_log_takes_one_walk(rt: HostRuntime) {
    assert_outputs(&rt, rt.alloc(), OF_NONE);
}

/// `words|image|moods`, then the outcome.
const FROM: &str = "--from 0002 sel list last 1|log|
0 6
--
0003 | unspecified | OEM record 0xc0 | 001357 | 010203040506
====
--from 0002 sel list last 3|log|
0 6
--
0002 | +536870912 s | Temperature #0x30 | Upper Non-critical going high | Deasserted
0003 | unspecified | OEM record 0xc0 | 001357 | 010203040506
====
--from 0003 sel list last 2|log|
0 4
--
0003 | unspecified | OEM record 0xc0 | 001357 | 010203040506
====
--from 0009 sel list last 2|log|
1 2
record 0009h not present
--
";

// The entries before the start are not counted.
#[test]
fn both_walks_start_from_the_same_entry(rt: HostRuntime) {
    assert_outputs(&rt, rt.alloc(), FROM);
}

/// `words|image|moods`, then the outcome.
const ENDED: &str = "sel list last 2|log to nowhere|
1 5
record 0009h not present
--
====
sel list last 65535|log to nowhere|
1 5
record 0009h not present
--
====
sel list last 1|log in a cycle|
1 3
cycle at 0007h
--
";

// Nothing is printed, since the number of entries is not known.
#[test]
fn a_first_walk_that_ends_by_name_is_the_last(rt: HostRuntime) {
    assert_outputs(&rt, rt.alloc(), ENDED);
}
