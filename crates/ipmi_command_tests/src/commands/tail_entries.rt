//! The last entries of the event log on a walk that begins where the log's info suggests.
use super::in_words::outcome_in;
use super::outcome::assert_outcome;
use super::over_images::{Two, changing};
use super::saved::{EMPTY, image_in};
use crate::cases::{byte_of, case_of, parts};
use ipmi_command_line::{Command, Count, Task};
use ipmi_program::Wording;
use std::alloc::Global;
use std::process::Abort;

/// Each image comes after a line with its name and before a line of dashes. Of the names, `run` has ids that count its entries from
/// 1, and `more` has one entry more. `gap` lacks the ids 3 and 4. `ring` begins with its greatest id. `late` has an info that counts
/// fewer entries than there are, `early` and `most` more. `aside` has entries that its first one does not lead to. `cycle` has no last
/// entry.
const IMAGES: &str = "run
ipmi-image 1
sel 0001 0002 0100e001010101010101010101010101
sel 0002 0003 0200e002020202020202020202020202
sel 0003 0004 0300e003030303030303030303030303
sel 0004 ffff 0400e004040404040404040404040404
info sel 5104000000000000000000000002
end
--
more
ipmi-image 1
sel 0001 0002 0100e001010101010101010101010101
sel 0002 0003 0200e002020202020202020202020202
sel 0003 0004 0300e003030303030303030303030303
sel 0004 0005 0400e004040404040404040404040404
sel 0005 ffff 0500e005050505050505050505050505
info sel 5105000000000000000000000002
end
--
no info
ipmi-image 1
sel 0001 0002 0100e001010101010101010101010101
sel 0002 ffff 0200e002020202020202020202020202
end
--
gap
ipmi-image 1
sel 0001 0002 0100e001010101010101010101010101
sel 0002 0005 0200e002020202020202020202020202
sel 0005 0006 0500e005050505050505050505050505
sel 0006 ffff 0600e006060606060606060606060606
info sel 5104000000000000000000000002
end
--
ring
ipmi-image 1
sel 0003 0001 0300e003030303030303030303030303
sel 0001 0002 0100e001010101010101010101010101
sel 0002 ffff 0200e002020202020202020202020202
info sel 5103000000000000000000000002
end
--
late
ipmi-image 1
sel 0001 0002 0100e001010101010101010101010101
sel 0002 0003 0200e002020202020202020202020202
sel 0003 0004 0300e003030303030303030303030303
sel 0004 ffff 0400e004040404040404040404040404
info sel 5103000000000000000000000002
end
--
early
ipmi-image 1
sel 0001 0002 0100e001010101010101010101010101
sel 0002 0003 0200e002020202020202020202020202
sel 0003 0004 0300e003030303030303030303030303
sel 0004 ffff 0400e004040404040404040404040404
info sel 5109000000000000000000000002
end
--
most
ipmi-image 1
sel 0001 0002 0100e001010101010101010101010101
sel 0002 ffff 0200e002020202020202020202020202
info sel 51ffff0000000000000000000002
end
--
aside
ipmi-image 1
sel 0001 0002 0100e001010101010101010101010101
sel 0002 ffff 0200e002020202020202020202020202
sel 0004 0005 0400e004040404040404040404040404
sel 0005 ffff 0500e005050505050505050505050505
info sel 5105000000000000000000000002
end
--
cycle
ipmi-image 1
sel 0007 0009 0700e007070707070707070707070707
sel 0009 0007 0900e009090909090909090909090909
info sel 5109000000000000000000000002
end
--
named
ipmi-image 1
sdr 0001 ffff CPU_TEMP
sel 0001 0002 01000201000020200004010101595f5a
sel 0002 0003 020002010000202000040d406f01ffff
sel 0003 ffff 0300c0ffffffff571300010203040506
info sel 5103000000000000000000000002
end
--
named in a cycle
ipmi-image 1
sdr 0001 0001 CPU_TEMP
sel 0001 0002 01000201000020200004010101595f5a
sel 0002 ffff 020002010000202000040d406f01ffff
info sel 5102000000000000000000000002
end
";

fn named(rt: &impl Abort, name: &str) -> &'static str {
    match name {
        "empty" => EMPTY,
        _ => image_in(rt, IMAGES, name),
    }
}

/// `sel tail` with a number of entries and one of tries, which are separated by a space.
fn tail(rt: &impl Abort, words: &str) -> Command {
    let (count, tries) = words.split_once(' ').expect(rt, words);
    let count = u16::from_str_radix(count, 10).expect(rt, words);
    assert!(rt; 0 < count, "{words}");
    let task = Task::SelList(Count::Tail(count));
    Command::new(task, None, 32, byte_of(rt, tries), None)
}

/// Asserts the outcome of a case in this wording.
fn assert_tail(rt: &impl Abort, alloc: Global, case: &str, wording: Wording<'_>) {
    let case = case_of(rt, case);
    let (second, letters) = parts(rt, case.more);
    let images = Two {
        first: named(rt, case.image),
        second: named(rt, second),
    };
    let ctl = changing(rt, alloc, images, letters);
    let outcome = outcome_in(alloc, ctl, tail(rt, case.words), wording);
    assert_outcome(rt, alloc, outcome, case.wanted, case.line);
}

/// The same for each case, in codes.
fn assert_tails(rt: &impl Abort, alloc: Global, cases: &str) {
    for case in cases.split("====\n") {
        assert_tail(rt, alloc, case, Wording::Plain);
    }
}

/// `number tries|image|other image|moods`, then the outcome.
const FOUND: &str = "1 05|run|run|
0 3
--
0004 | OEM record 0xe0 | 04040404040404040404040404
====
3 05|run|run|
0 5
--
0002 | OEM record 0xe0 | 02020202020202020202020202
0003 | OEM record 0xe0 | 03030303030303030303030303
0004 | OEM record 0xe0 | 04040404040404040404040404
====
3 05|gap|run|
0 5
--
0002 | OEM record 0xe0 | 02020202020202020202020202
0005 | OEM record 0xe0 | 05050505050505050505050505
0006 | OEM record 0xe0 | 06060606060606060606060606
====
1 05|ring|run|
0 5
--
0002 | OEM record 0xe0 | 02020202020202020202020202
====
2 05|late|run|
0 5
--
0003 | OEM record 0xe0 | 03030303030303030303030303
0004 | OEM record 0xe0 | 04040404040404040404040404
====
2 05|aside|run|
0 4
--
0004 | OEM record 0xe0 | 04040404040404040404040404
0005 | OEM record 0xe0 | 05050505050505050505050505
";

// The info, a reservation, and each entry from that with the id N - 1 below the number of entries.
#[test]
fn the_walk_begins_where_the_info_suggests(rt: HostRuntime) {
    assert_tails(&rt, rt.alloc(), FOUND);
}

/// `number tries|image|other image|moods`, then the outcome.
const WHOLE: &str = "4 05|run|run|
0 6
--
0001 | OEM record 0xe0 | 01010101010101010101010101
0002 | OEM record 0xe0 | 02020202020202020202020202
0003 | OEM record 0xe0 | 03030303030303030303030303
0004 | OEM record 0xe0 | 04040404040404040404040404
====
65535 05|no info|run|
0 4
--
0001 | OEM record 0xe0 | 01010101010101010101010101
0002 | OEM record 0xe0 | 02020202020202020202020202
====
1 05|no info|run|
0 4
--
0002 | OEM record 0xe0 | 02020202020202020202020202
====
1 05|most|run|
0 4
--
0002 | OEM record 0xe0 | 02020202020202020202020202
====
1 05|empty|run|
0 3
--
";

// The info, a reservation and all entries: there are no more than N, there is no info, or FFFFh is no id.
#[test]
fn a_walk_without_a_suggestion_is_whole(rt: HostRuntime) {
    assert_tails(&rt, rt.alloc(), WHOLE);
}

/// `number tries|image|other image|moods`, then the outcome.
const IN_VAIN: &str = "1 05|gap|run|
0 8
--
0006 | OEM record 0xe0 | 06060606060606060606060606
====
2 05|ring|run|
0 7
--
0001 | OEM record 0xe0 | 01010101010101010101010101
0002 | OEM record 0xe0 | 02020202020202020202020202
====
2 05|early|run|
0 8
--
0003 | OEM record 0xe0 | 03030303030303030303030303
0004 | OEM record 0xe0 | 04040404040404040404040404
====
6 05|early|run|
0 8
--
0001 | OEM record 0xe0 | 01010101010101010101010101
0002 | OEM record 0xe0 | 02020202020202020202020202
0003 | OEM record 0xe0 | 03030303030303030303030303
0004 | OEM record 0xe0 | 04040404040404040404040404
====
2 05|most|run|
0 6
--
0001 | OEM record 0xe0 | 01010101010101010101010101
0002 | OEM record 0xe0 | 02020202020202020202020202
====
1 05|cycle|run|
1 7
cycle at 0007h
--
====
2 05|run|gap|.x
0 8
--
0005 | OEM record 0xe0 | 05050505050505050505050505
0006 | OEM record 0xe0 | 06060606060606060606060606
";

// The info, a reservation and one entry or none, or two in a cycle; then a walk from the first entry.
#[test]
fn a_walk_without_the_last_entries_is_followed_by_a_whole_one(rt: HostRuntime) {
    assert_tails(&rt, rt.alloc(), IN_VAIN);
}

/// `number tries|image|other image|moods`, then the outcome.
const TROUBLED: &str = "2 00|run|run|B
1 1
gave up at 0000h
--
====
2 01|run|run|B
0 5
--
0003 | OEM record 0xe0 | 03030303030303030303030303
0004 | OEM record 0xe0 | 04040404040404040404040404
====
2 05|run|run|R
1 1
record 0000h refused with code D4h
--
====
2 05|run|run|..R
1 3
record 0003h refused with code D4h
--
====
2 00|run|run|...B
1 4
gave up at 0004h
--
====
1 05|gap|run|....R
1 5
record 0000h refused with code D4h
--
";

// A second walk does not follow troubles or a refusal.
#[test]
fn the_run_ends_by_what_happened(rt: HostRuntime) {
    assert_tails(&rt, rt.alloc(), TROUBLED);
}

/// `number tries|image|other image|moods`, then the outcome.
const GROWN: &str = "2 05|run|more|a
0 4
--
0004 | OEM record 0xe0 | 04040404040404040404040404
0005 | OEM record 0xe0 | 05050505050505050505050505
====
2 05|run|more|...a
0 5
--
0004 | OEM record 0xe0 | 04040404040404040404040404
0005 | OEM record 0xe0 | 05050505050505050505050505
====
2 05|run|more|....a
0 4
--
0003 | OEM record 0xe0 | 03030303030303030303030303
0004 | OEM record 0xe0 | 04040404040404040404040404
";

// The fourth call is for the last entry.
#[test]
fn no_more_than_the_last_entries_of_a_growing_log_are_printed(rt: HostRuntime) {
    assert_tails(&rt, rt.alloc(), GROWN);
}

/// `number tries|image|other image|moods`, then the outcome.
const IN_WORDS: &str = "1 05|named|run|
0 7
--
0003 | unspecified | OEM record 0xc0 | 001357 | 010203040506
====
3 05|named|run|
0 9
--
0001 | 1987-01-05 18:48:33 | CPU Temp | Upper Critical going high | Asserted | critical | Reading 95 degrees C > threshold 90
0002 | 1987-01-05 18:48:33 | Drive Slot #0x40 | Drive Fault | Asserted | critical
0003 | unspecified | OEM record 0xc0 | 001357 | 010203040506
====
1 05|named in a cycle|run|
1 7
names of sensors may be missing: sensor data records have a cycle at 0001h
--
0002 | 1987-01-05 18:48:33 | Drive Slot #0x40 | Drive Fault | Asserted | critical
====
1 05|named|run|....R
1 5
record 0000h refused with code D4h
--
";

// A reservation, a header and two parts of the sensor come first.
#[test]
fn the_names_are_read_once_before_the_info(rt: HostRuntime) {
    for case in IN_WORDS.split("====\n") {
        assert_tail(&rt, rt.alloc(), case, Wording::Descriptive);
    }
}
