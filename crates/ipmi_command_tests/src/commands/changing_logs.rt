//! Logs that change at a call of a listing. Each printed entry is of the log at that time.
use super::changing::assert_outcomes_of_changes;

/// `words|first image|second image|moods`, then the outcome.
const ENTRIES: &str = "sel list last 2|log|another log|x
0 8
--
0002 | OEM record 0xe1 | 02020202020202020202020202
0003 | OEM record 0xe2 | 03030303030303030303030303
====
sel list last 2|log|another log|.x
0 8
--
0002 | OEM record 0xe1 | 02020202020202020202020202
0003 | OEM record 0xe2 | 03030303030303030303030303
====
sel list last 2|log|another log|..x
0 8
--
0002 | OEM record 0xe1 | 02020202020202020202020202
0003 | OEM record 0xe2 | 03030303030303030303030303
====
sel list last 2|log|another log|...x
0 8
--
0002 | OEM record 0xe1 | 02020202020202020202020202
0003 | OEM record 0xe2 | 03030303030303030303030303
====
sel list last 2|log|another log|....x
0 8
--
0002 | OEM record 0xe1 | 02020202020202020202020202
0003 | OEM record 0xe2 | 03030303030303030303030303
====
sel list last 2|log|another log|.....x
0 8
--
0002 | OEM record 0xe1 | 02020202020202020202020202
0003 | OEM record 0xe2 | 03030303030303030303030303
====
sel list last 2|log|another log|......x
0 8
--
0002 | OEM record 0xe1 | 02020202020202020202020202
0003 | OEM record 0xe2 | 03030303030303030303030303
====
sel list last 2|log|another log|.......x
0 8
--
0002 | +536870912 s | Temperature #0x30 | Upper Non-critical going high | Deasserted
0003 | OEM record 0xe2 | 03030303030303030303030303
====
sel list last 2|log|another log|........x
0 8
--
0002 | +536870912 s | Temperature #0x30 | Upper Non-critical going high | Deasserted
0003 | unspecified | OEM record 0xc0 | 001357 | 010203040506
====
sel list last 2|log|another log|......xy
0 8
--
0002 | OEM record 0xe1 | 02020202020202020202020202
0003 | unspecified | OEM record 0xc0 | 001357 | 010203040506
====
sel list last 2|log|another log|.......x.y
0 8
--
0002 | +536870912 s | Temperature #0x30 | Upper Non-critical going high | Deasserted
0003 | OEM record 0xe2 | 03030303030303030303030303
";

// The seventh call is for the second entry, the eighth for the third.
#[test]
fn an_entry_is_of_the_log_that_gives_it(rt: HostRuntime) {
    assert_outcomes_of_changes(&rt, rt.alloc(), ENTRIES);
}

/// `words|first image|second image|moods`, then the outcome.
const GROWN: &str = "sel list last 2|log|grown log|...x
0 10
--
0003 | unspecified | OEM record 0xc0 | 001357 | 010203040506
0004 | OEM record 0xe0 | 04040404040404040404040404
====
sel list last 2|log|grown log|....x
0 9
--
0002 | +536870912 s | Temperature #0x30 | Upper Non-critical going high | Deasserted
0003 | unspecified | OEM record 0xc0 | 001357 | 010203040506
0004 | OEM record 0xe0 | 04040404040404040404040404
====
sel list last 2|log|grown log|.......x
0 9
--
0002 | +536870912 s | Temperature #0x30 | Upper Non-critical going high | Deasserted
0003 | unspecified | OEM record 0xc0 | 001357 | 010203040506
0004 | OEM record 0xe0 | 04040404040404040404040404
====
sel list last 9|log|grown log|....x
0 9
--
0001 | 1987-01-05 18:48:33 | Temperature #0x30 | Upper Critical going high | Asserted
0002 | +536870912 s | Temperature #0x30 | Upper Non-critical going high | Deasserted
0003 | unspecified | OEM record 0xc0 | 001357 | 010203040506
0004 | OEM record 0xe0 | 04040404040404040404040404
";

// The fourth call ends the first walk, which counts. Two of four entries are skipped, or one of three. An entry added later
// is printed too.
#[test]
fn entries_that_come_after_the_count_are_printed(rt: HostRuntime) {
    assert_outcomes_of_changes(&rt, rt.alloc(), GROWN);
}

/// `words|first image|second image|moods`, then the outcome.
const CLEARED: &str = "sel list last 2|log|empty|x
0 2
--
====
sel list last 2|log|empty|.x
0 2
--
====
sel list last 2|log|empty|..x
1 3
record 0002h not present
--
====
sel list last 2|log|empty|...x
1 4
record 0003h not present
--
====
sel list last 2|log|empty|....x
0 6
--
====
sel list last 2|log|empty|.....x
0 6
--
====
sel list last 2|log|empty|......x
1 7
record 0002h not present
--
====
sel list last 2|log|empty|.......x
1 8
record 0003h not present
--
0002 | +536870912 s | Temperature #0x30 | Upper Non-critical going high | Deasserted
";

// The log is empty for the first walk, which counts, or for the second, which prints. Within a walk the next entry is
// missing.
#[test]
fn a_log_may_be_cleared(rt: HostRuntime) {
    assert_outcomes_of_changes(&rt, rt.alloc(), CLEARED);
}
