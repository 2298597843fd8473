//! Listings of three records over a controller with moods: troubles, refusals, short parts and changes.
use super::outcome::{Outcome, assert_numbers, outcome_of_one};
use super::over_images::scripted;
use super::saved::{CHANGED_LINES, THREE_LINES, THREE_ROWS};
use crate::cases::parts;
use crate::command_line::lines::command;
use std::alloc::Global;
use std::process::Abort;

/// The outcome of a listing of three records with this number of tries and these moods.
fn outcome_in_moods(rt: &impl Abort, alloc: Global, tries: &str, moods: &str) -> Outcome {
    let words = format!(in alloc; "--tries {tries} sdr hex").expect(rt, "memory");
    let ctl = scripted(rt, alloc, THREE_ROWS, moods);
    outcome_of_one(alloc, ctl, command(rt, alloc, words.as_str()))
}

/// The text with a line feed after its message, if it has one.
fn with_line_feed(rt: &impl Abort, alloc: Global, text: &str) -> String {
    let end = if text.ends_with('|') { "" } else { "\n" };
    format!(in alloc; "{text}{end}").expect(rt, "memory")
}

/// Asserts the numbers and the message of an outcome, and that its output is a first part of these lines.
fn assert_numbers_and_lines(
    rt: &impl Abort,
    alloc: Global,
    outcome: Outcome,
    lines: &str,
    wanted: &str,
    case: &str,
) {
    let wanted = with_line_feed(rt, alloc, wanted);
    assert_numbers(rt, alloc, &outcome, wanted.as_str(), case);
    assert!(rt;
        lines.as_bytes().starts_with(&outcome.out),
        "{case}: output"
    );
    drop(outcome);
}

/// Asserts the listing of a case, whose lines are these or the first of them.
fn assert_listing_in_moods(rt: &impl Abort, alloc: Global, lines: &str, case: &str) {
    let (tries, rest) = parts(rt, case);
    let (moods, wanted) = parts(rt, rest);
    let outcome = outcome_in_moods(rt, alloc, tries, moods);
    assert_numbers_and_lines(rt, alloc, outcome, lines, wanted, case);
}

/// The same for each case, with the lines of the three records.
fn assert_listings_in_moods(rt: &impl Abort, alloc: Global, cases: &str) {
    for case in cases.lines() {
        assert_listing_in_moods(rt, alloc, THREE_LINES, case);
    }
}

/// `tries|moods|status calls bytes|message`.
const BUSY: &str = "1|B|0 7 81|
1|.B|0 7 81|
1|..B|0 7 81|
1|...B|0 7 81|
1|....B|0 7 81|
1|.....B|0 7 81|";

// Two calls read the first record after its reservation, two the second and one the third.
#[test]
fn a_busy_answer_is_one_call_more(rt: HostRuntime) {
    assert_listings_in_moods(&rt, rt.alloc(), BUSY);
}

/// `tries|moods|status calls bytes|message`.
const CANCELLED: &str = "1|C|0 7 81|
1|.C|0 8 81|
1|..C|0 9 81|
1|...C|0 8 81|
1|....C|0 9 81|
1|.....C|0 8 81|";

// A cancelled record begins again with a reservation, and repeats its calls so far.
#[test]
fn a_cancelled_record_begins_again(rt: HostRuntime) {
    assert_listings_in_moods(&rt, rt.alloc(), CANCELLED);
}

/// `tries|moods|status calls bytes|message`.
const WITHOUT_TRIES: &str = "0|C|1 1 0|gave up at 0000h
0|R|1 1 0|record 0000h refused with code D4h
0|.C|1 2 0|gave up at 0000h
0|.R|1 2 0|record 0000h refused with code D4h
0|..C|1 3 0|gave up at 0000h
0|..R|1 3 0|record 0000h refused with code D4h
0|...C|1 4 27|gave up at 0002h
0|...R|1 4 27|record 0002h refused with code D4h
0|....C|1 5 27|gave up at 0002h
0|....R|1 5 27|record 0002h refused with code D4h
0|.....C|1 6 56|gave up at 0003h
0|.....R|1 6 56|record 0003h refused with code D4h";

#[test]
fn without_tries_a_trouble_is_the_end_and_so_is_a_refusal(rt: HostRuntime) {
    assert_listings_in_moods(&rt, rt.alloc(), WITHOUT_TRIES);
}

/// `tries|moods|status calls bytes|message`.
const OUTLIVED: &str = "5|1111111111111111111|0 19 81|
5|.L|0 13 81|
2|....C..C...C.C..|0 16 81|";

// With one byte granted, each byte takes a call after the reservation: six, seven and five calls. When the first five
// bytes are too long for a part, parts have 2 bytes instead of 32 from then on.
#[test]
fn a_listing_outlives_moods(rt: HostRuntime) {
    assert_listings_in_moods(&rt, rt.alloc(), OUTLIVED);
}

/// `tries|moods|status calls bytes|message`.
const ENDING: &str = "2|....C..C..C|1 11 27|gave up at 0002h
2|...R|1 4 27|record 0002h refused with code D4h";

// The second record is cancelled three times, with two tries, or refused.
#[test]
fn moods_end_a_listing(rt: HostRuntime) {
    assert_listings_in_moods(&rt, rt.alloc(), ENDING);
}

/// `tries|moods|status calls bytes|message`.
const CHANGING: &str = "5|....N|0 9 81|
5|...N|0 9 81|
5|...E|1 4 27|record 0002h not present
5|E|0 2 0|
0|....N|1 5 27|gave up at 0002h";

// The fourth call asks for the second record's header, and the fifth for the bytes after it. No record has bytes from
// before a change and from after it.
#[test]
fn an_image_may_change(rt: HostRuntime) {
    for case in CHANGING.lines() {
        assert_listing_in_moods(&rt, rt.alloc(), CHANGED_LINES, case);
    }
}
