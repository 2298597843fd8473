//! Listings with a record for each id.
use super::outcome::{Outcome, assert_numbers, outcome_of_one};
use super::over_images::outcome_over;
use crate::command_line::lines::command;
use crate::controllers::{Counting, Endless};
use std::alloc::Global;
use std::fmt::Write;
use std::process::Abort;

/// Appends the row of a record of five bytes. Its next id is one above its own.
fn push_row(rt: &impl Abort, rows: &mut String, id: u16) {
    let next = id.saturating_add(1);
    let [low, high] = id.to_le_bytes();
    write!(rows, "sdr {id:04x} {next:04x} {low:02x}{high:02x}51c000\n").expect(rt, "memory");
}

/// An image with a row for each id but 0000h and FFFFh. After the first row they are in falling order.
fn falling_image(rt: &impl Abort, alloc: Global) -> String {
    let mut image = String::from_str(alloc, "ipmi-image 1\n").expect(rt, "memory");
    push_row(rt, &mut image, 1);
    for below in 1..0xFFFEu16 {
        push_row(rt, &mut image, 0xFFFF - below);
    }
    image.push_str("end\n").expect(rt, "memory");
    image
}

/// The rows of each id from `first` to FFFEh, in rising order.
fn rising_lines(rt: &impl Abort, alloc: Global, first: u16) -> String {
    let mut lines = String::new(alloc);
    for id in first..0xFFFFu16 {
        push_row(rt, &mut lines, id);
    }
    lines
}

/// Asserts that the output is these rows.
fn assert_rising_rows(rt: &impl Abort, alloc: Global, outcome: &Outcome, first: u16, case: &str) {
    let lines = rising_lines(rt, alloc, first);
    let is_rising = outcome.out.as_slice() == lines.as_bytes();
    assert!(rt; is_rising, "{case}: other lines");
}

// 65,534 lines of 25 bytes each.
#[test]
fn each_id_from_0001h_to_fffeh_may_have_a_row(rt: HostRuntime) {
    let image = falling_image(&rt, rt.alloc());
    let outcome = outcome_over(&rt, rt.alloc(), "sdr hex", image.as_str());
    assert_numbers(&rt, rt.alloc(), &outcome, "0 65535 1638350|", "rows");
    assert_rising_rows(&rt, rt.alloc(), &outcome, 1, "rows");
    drop(outcome);
}

/// The outcome of a listing over records without a last one.
fn endless_outcome(rt: &impl Abort, alloc: Global) -> Outcome {
    let ctl = Counting::new(Endless::new());
    outcome_of_one(alloc, ctl, command(rt, alloc, "sdr hex"))
}

// 65,535 lines, one for each id from 0000 to fffe, of 25 bytes each: `sdr IIII NNNN `, ten digits and a line feed.
#[test]
fn a_listing_without_a_last_record_ends(rt: HostRuntime) {
    let outcome = endless_outcome(&rt, rt.alloc());
    assert_numbers(&rt, rt.alloc(), &outcome, "0 65536 1638375|", "endless");
    assert_rising_rows(&rt, rt.alloc(), &outcome, 0, "endless");
    let is_first = outcome.out.starts_with(b"sdr 0000 0001 000051c000\n");
    assert!(rt; is_first, "another first line");
    let is_last = outcome.out.ends_with(b"sdr fffe ffff feff51c000\n");
    assert!(rt; is_last, "another last line");
    drop(outcome);
}
