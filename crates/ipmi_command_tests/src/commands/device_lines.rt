//! The lines of device 0, and of the devices of all locators.
use super::in_words::assert_output_in_words_over;
use super::saved::image_named;
use crate::cases::case_of;
use std::alloc::Global;
use std::process::Abort;

/// Asserts the outcome of a case in words.
fn assert_output_in_words(rt: &impl Abort, alloc: Global, case: &str) {
    let case = case_of(rt, case);
    assert_output_in_words_over(rt, alloc, image_named(rt, case.image), case);
}

/// The same for each case.
fn assert_outputs_in_words(rt: &impl Abort, alloc: Global, cases: &str) {
    for case in cases.split("====\n") {
        assert_output_in_words(rt, alloc, case);
    }
}

/// `words|image|moods`, then the outcome.
const LINES: &str = "fru|inventories|
0 10
--
0 | - | present | - | - | -
1 | PSU1 | faulty | - | - | -
====
fru|products|
0 10
--
0 | AB | present | - | PQ | SX
1 | PSU1 | present | CD | - | -
====
fru|one inventory|
0 9
--
0 | - | present | - | - | -
1 | PSU1 | not present | - | - | -
====
fru|empty|
0 3
--
0 | - | not present | - | - | -
====
fru|elsewhere in three ways|
0 8
--
0 | - | not present | - | - | -
- | AB | elsewhere | - | - | -
- | CD | elsewhere | - | - | -
- | EF | elsewhere | - | - | -
====
fru|locators of each sort|
0 17
--
0 | AB | present | - | - | -
- | CD | elsewhere | - | - | -
2 | - | faulty | - | - | -
255 | EF | not present | - | - | -
====
fru|two names of device 0|
0 10
--
0 | CD | faulty | - | - | -
- | AB | elsewhere | - | - | -
";

// One walk of the records, and then the calls of the inventories. Device 0 has its name from its first locator, and is not
// printed again at its locators.
#[test]
fn each_device_has_a_line(rt: HostRuntime) {
    assert_outputs_in_words(&rt, rt.alloc(), LINES);
}

/// `words|image|moods`, then the outcome.
const ENDED: &str = "fru|locator to nowhere|
1 7
record 0009h not present
--
0 | - | not present | - | - | -
1 | PSU1 | faulty | - | - | -
====
fru|cycle|
1 4
cycle at 0007h
--
0 | - | not present | - | - | -
====
fru|two locators|.R
1 2
record 0000h refused with code D4h
--
====
--tries 0 fru|two locators|...B
1 4
gave up at 0002h
--
====
fru|two locators|.....R
1 6
fru 0 refused with code D4h
--
====
fru|two locators|.......R
1 8
fru 1 refused with code D4h
--
0 | - | present | - | - | -
====
--tries 1 fru|two locators|.......BB
1 9
fru 1 gave up
--
0 | - | present | - | - | -
";

// If the walk does not end with FFFFh, the run ends after the devices that it names.
#[test]
fn lines_are_printed_before_a_run_ends(rt: HostRuntime) {
    assert_outputs_in_words(&rt, rt.alloc(), ENDED);
}

/// `words|image|moods`, then the outcome.
const ONE: &str = "fru print 1|two locators|
0 2
--
FRU 1
FRU fault: header short

";

// One inventory has the same text in words.
#[test]
fn one_inventory_is_printed_as_in_codes(rt: HostRuntime) {
    assert_outputs_in_words(&rt, rt.alloc(), ONE);
}
