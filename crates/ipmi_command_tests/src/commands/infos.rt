//! The infos of the two shelves: seven lines, or none if there is no info, and the effect of troubles and refusals.
use super::outcome::assert_outcome_of_one;
use super::over_images::interrupting;
use super::printed::assert_outputs;
use super::saved::image_named;
use crate::cases::{byte_of, first_line};
use crate::command_line::lines::command;
use std::alloc::Global;
use std::process::Abort;

/// `words|image|moods`, then the outcome.
const BLOCKS: &str = "sel info|log|
0 1
--
Version: 0x51
Records: 3
Free Space: 1024
Last Addition: 1987-01-05 18:48:33
Last Erase: unspecified
Overflow: no
Support: 0x02
====
sel|log|
0 1
--
Version: 0x51
Records: 3
Free Space: 1024
Last Addition: 1987-01-05 18:48:33
Last Erase: unspecified
Overflow: no
Support: 0x02
====
sdr info|infos|
0 1
--
Version: 0x51
Records: 3
Free Space: 1024
Last Addition: 1987-01-05 18:48:33
Last Erase: unspecified
Overflow: no
Support: 0x02
====
sel info|infos|
0 1
--
Version: 0x02
Records: 65535
Free Space: 65535
Last Addition: +0 s
Last Erase: +536870912 s
Overflow: yes
Support: 0x82
====
--part 1 --tries 0 sel info|log|
0 1
--
Version: 0x51
Records: 3
Free Space: 1024
Last Addition: 1987-01-05 18:48:33
Last Erase: unspecified
Overflow: no
Support: 0x02
";

// Each shelf has an info, and one call requests all of it.
#[test]
fn an_info_is_seven_lines(rt: HostRuntime) {
    assert_outputs(&rt, rt.alloc(), BLOCKS);
}

/// `words|image|moods`, then the outcome.
const NONE: &str = "sdr info|three|
1 1
info not present
--
====
sdr info|log|
1 1
info not present
--
====
sel info|three|
1 1
info not present
--
====
sel|empty|
1 1
info not present
--
";

#[test]
fn an_image_may_have_no_info(rt: HostRuntime) {
    assert_outputs(&rt, rt.alloc(), NONE);
}

/// `words|image|moods`, then the outcome.
const MOODS: &str = "--tries 0 sel info|log|B
1 1
gave up at 0000h
--
====
--tries 0 sdr info|infos|C
1 1
gave up at 0000h
--
====
--tries 1 sel|log|BC
1 2
gave up at 0000h
--
====
sel|log|BCBCBC
1 6
gave up at 0000h
--
====
sel|log|BCBCB
0 6
--
Version: 0x51
Records: 3
Free Space: 1024
Last Addition: 1987-01-05 18:48:33
Last Erase: unspecified
Overflow: no
Support: 0x02
====
sdr info|infos|R
1 1
record 0000h refused with code D4h
--
====
sel info|log|CR
1 2
record 0000h refused with code D4h
--
====
sel info|three|B
1 2
info not present
--
====
sel info|log|L
0 1
--
Version: 0x51
Records: 3
Free Space: 1024
Last Addition: 1987-01-05 18:48:33
Last Erase: unspecified
Overflow: no
Support: 0x02
";

// With five tries the run ends at the sixth trouble.
#[test]
fn an_info_is_asked_for_until_it_comes(rt: HostRuntime) {
    assert_outputs(&rt, rt.alloc(), MOODS);
}

/// Asserts the outcome of `sel` when the request for the info is answered with a code.
fn assert_outcome_of_code(rt: &impl Abort, alloc: Global, case: &str) {
    let (digits, wanted) = first_line(rt, case);
    let image = image_named(rt, "log");
    let ctl = interrupting(rt, alloc, image, 1, byte_of(rt, digits));
    let command = command(rt, alloc, "--tries 0 sel");
    assert_outcome_of_one(rt, alloc, ctl, command, wanted, digits);
}

/// The code of the only call, then the outcome.
const CODES: &str = "c7
1 1
record 0000h refused with code C7h
--
====
c8
1 1
record 0000h refused with code C8h
--
====
ca
1 1
record 0000h refused with code CAh
--
====
c9
1 1
record 0000h refused with code C9h
--
====
ff
1 1
record 0000h refused with code FFh
--
====
cb
1 1
info not present
--
====
c3
1 1
gave up at 0000h
--
====
81
1 1
gave up at 0000h
--
";

// An info has no parts, so there is no smaller one to ask for.
#[test]
fn each_code_ends_a_request_for_an_info_in_its_way(rt: HostRuntime) {
    for case in CODES.split("====\n") {
        assert_outcome_of_code(&rt, rt.alloc(), case);
    }
}
