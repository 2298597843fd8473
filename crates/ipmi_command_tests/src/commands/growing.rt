//! Listings while entries are appended and readings change. Reservations stay where the records do.
use super::changing::assert_outcomes_of_changes;

/// `words|first image|second image|moods`, then the outcome. The fourth call is for the third entry, in parts the sixth and the
/// seventh.
const ENTRIES: &str = "sel list|log|grown log|a
0 5
--
0001 | 1987-01-05 18:48:33 | Temperature #0x30 | Upper Critical going high | Asserted
0002 | +536870912 s | Temperature #0x30 | Upper Non-critical going high | Deasserted
0003 | unspecified | OEM record 0xc0 | 001357 | 010203040506
0004 | OEM record 0xe0 | 04040404040404040404040404
====
sel list|log|grown log|...a
0 5
--
0001 | 1987-01-05 18:48:33 | Temperature #0x30 | Upper Critical going high | Asserted
0002 | +536870912 s | Temperature #0x30 | Upper Non-critical going high | Deasserted
0003 | unspecified | OEM record 0xc0 | 001357 | 010203040506
0004 | OEM record 0xe0 | 04040404040404040404040404
====
sel list|log|grown log|....a
0 4
--
0001 | 1987-01-05 18:48:33 | Temperature #0x30 | Upper Critical going high | Asserted
0002 | +536870912 s | Temperature #0x30 | Upper Non-critical going high | Deasserted
0003 | unspecified | OEM record 0xc0 | 001357 | 010203040506
====
sel list|log|grown log|aaaaaaa
0 5
--
0001 | 1987-01-05 18:48:33 | Temperature #0x30 | Upper Critical going high | Asserted
0002 | +536870912 s | Temperature #0x30 | Upper Non-critical going high | Deasserted
0003 | unspecified | OEM record 0xc0 | 001357 | 010203040506
0004 | OEM record 0xe0 | 04040404040404040404040404
====
--part 8 sel list|log|grown log|......a
0 9
--
0001 | 1987-01-05 18:48:33 | Temperature #0x30 | Upper Critical going high | Asserted
0002 | +536870912 s | Temperature #0x30 | Upper Non-critical going high | Deasserted
0003 | unspecified | OEM record 0xc0 | 001357 | 010203040506
0004 | OEM record 0xe0 | 04040404040404040404040404
====
--part 8 sel list|log|grown log|......x
0 12
--
0001 | 1987-01-05 18:48:33 | Temperature #0x30 | Upper Critical going high | Asserted
0002 | +536870912 s | Temperature #0x30 | Upper Non-critical going high | Deasserted
0003 | unspecified | OEM record 0xc0 | 001357 | 010203040506
0004 | OEM record 0xe0 | 04040404040404040404040404
";

// The next id of the last part counts. A reservation that stays saves three calls.
#[test]
fn an_entry_that_is_appended_in_time_is_listed(rt: HostRuntime) {
    assert_outcomes_of_changes(&rt, rt.alloc(), ENTRIES);
}

/// `words|first image|second image|moods`, then the outcome. The third call is for the second entry, in parts the fourth and the
/// fifth.
const CLEARED: &str = "sel list|log|empty|..a
1 3
record 0002h not present
--
0001 | 1987-01-05 18:48:33 | Temperature #0x30 | Upper Critical going high | Asserted
====
--part 8 sel list|log|empty|....a
1 5
record 0002h not present
--
0001 | 1987-01-05 18:48:33 | Temperature #0x30 | Upper Critical going high | Asserted
====
sel list|log|empty|aaaa
0 2
--
";

#[test]
fn a_log_that_is_cleared_meanwhile_ends_there(rt: HostRuntime) {
    assert_outcomes_of_changes(&rt, rt.alloc(), CLEARED);
}

/// `words|first image|second image|moods`, then the outcome. The fifth call is for the reading.
const READINGS: &str = "sdr list|sensor|warmer sensor|....a
0 5
--
CPU Temp         | 46 degrees C      | ok
====
sdr list|sensor|warmer sensor|..a
0 5
--
CPU Temp         | 46 degrees C      | ok
====
sdr list|sensor|warmer sensor|ababa
0 5
--
CPU Temp         | 46 degrees C      | ok
====
sdr list|sensor|warmer sensor|babab
0 5
--
CPU Temp         | 45 degrees C      | ok
====
sdr list|sensor|warmer sensor|..x
0 8
--
CPU Temp         | 46 degrees C      | ok
";

// A reading is that of its call. A controller that cancels reservations for it costs three calls.
#[test]
fn readings_change_at_each_call(rt: HostRuntime) {
    assert_outcomes_of_changes(&rt, rt.alloc(), READINGS);
}
