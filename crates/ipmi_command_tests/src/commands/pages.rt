//! Listings in pages.
ghost use Rattle.std.specs.Prelude.{◌≡◌, true};
ghost use Rattle.ipmi_command_line.specs.Task.{is_listing};

use super::outcome::{Outcome, assert_outcome};
use super::over_images::{over, scripted};
use super::saved::{THREE_LINES, THREE_ROWS, image_named};
use crate::cases::{Case, case_of, number};
use crate::command_line::lines::command;
use crate::controllers::Counting;
use crate::writers::assert_written_text;
use ipmi_bus::Controller;
use ipmi_command_line::{Command, Task};
use ipmi_image::{Image, ImageController, ImageFault};
use ipmi_output::Written;
use ipmi_plain::run_pages;
use std::alloc::Global;
use std::process::Abort;

/// The outcome of a listing over the controller in pages of these sizes.
fn outcome_in_pages<C: Controller + Drop>(
    alloc: Global,
    ctl: Counting<C>,
    command: &Command,
    pages: &[u32],
) -> Outcome
    requires { is_listing command.now.task ≡ true }
{
    let mut ctl = ctl;
    let mut out = Written::new(Vec::new(alloc));
    let mut err = Vec::new(alloc);
    let status = run_pages(alloc, &mut ctl, command, &mut out, &mut err, pages);
    let calls = ctl.calls;
    drop(ctl);
    Outcome {
        out: out.into_inner(),
        err,
        status,
        calls,
    }
}

fn push_size(rt: &impl Abort, pages: &mut Vec<u32>, size: &str) {
    pages.push(number(rt, size)).expect(rt, "memory");
}

/// The sizes of pages in a text, split at spaces.
pub(super) fn sizes(rt: &impl Abort, alloc: Global, text: &str) -> Vec<u32> {
    let mut pages = Vec::new(alloc);
    for size in text.split_whitespace() {
        push_size(rt, &mut pages, size);
    }
    pages
}

/// Asserts the outcome of a case over the controller, in pages of its sizes.
fn assert_outcome_in_pages<C: Controller + Drop>(
    rt: &impl Abort,
    alloc: Global,
    ctl: Counting<C>,
    case: &Case,
) {
    let command = command(rt, alloc, case.words);
    if !command.is_listing() {
        panic!(rt; "{}: no listing", case.line);
    }
    let outcome = outcome_in_pages(alloc, ctl, &command, &sizes(rt, alloc, case.more));
    drop(command);
    assert_outcome(rt, alloc, outcome, case.wanted, case.line);
}

/// The same over the image of the case.
fn assert_listing_in_pages(rt: &impl Abort, alloc: Global, case: &str) {
    let case = case_of(rt, case);
    let ctl = over(rt, alloc, image_named(rt, case.image));
    assert_outcome_in_pages(rt, alloc, ctl, &case);
}

/// The same for each case.
fn assert_listings_in_pages(rt: &impl Abort, alloc: Global, cases: &str) {
    for case in cases.split("====\n") {
        assert_listing_in_pages(rt, alloc, case);
    }
}

/// `words|image|size of each page`, then the outcome.
const THREE_IN_PAGES: &str = "sdr hex|three|1 0 1
0 8
--
sdr 0001 0002 010051c001aa
sdr 0002 0003 020051c002bbcc
sdr 0003 ffff 030051c000
====
sdr hex|three|0 0
0 6
--
sdr 0001 0002 010051c001aa
sdr 0002 0003 020051c002bbcc
sdr 0003 ffff 030051c000
====
sdr hex|three|
0 6
--
sdr 0001 0002 010051c001aa
sdr 0002 0003 020051c002bbcc
sdr 0003 ffff 030051c000
====
sdr hex|three|2
0 7
--
sdr 0001 0002 010051c001aa
sdr 0002 0003 020051c002bbcc
sdr 0003 ffff 030051c000
====
sdr hex|three|3 5 7
0 6
--
sdr 0001 0002 010051c001aa
sdr 0002 0003 020051c002bbcc
sdr 0003 ffff 030051c000
====
sdr hex|three|1 1 1 1
0 8
--
sdr 0001 0002 010051c001aa
sdr 0002 0003 020051c002bbcc
sdr 0003 ffff 030051c000
";

// Each page has its own reservation. With it the first and the second record take three calls each, and the third two.
#[test]
fn pages_are_one_listing(rt: HostRuntime) {
    assert_listings_in_pages(&rt, rt.alloc(), THREE_IN_PAGES);
}

/// `words|image|size of each page`, then the outcome.
const ENTRIES_AND_SENSORS: &str = "sel list|log|2
0 5
--
0001 | 1987-01-05 18:48:33 | Temperature #0x30 | Upper Critical going high | Asserted
0002 | +536870912 s | Temperature #0x30 | Upper Non-critical going high | Deasserted
0003 | unspecified | OEM record 0xc0 | 001357 | 010203040506
====
sdr list all|sensor and locator|1
0 8
--
CPU Temp         | 45 degrees C      | ok
PSU1             | FRU 1             | na
";

// The first case: a reservation and two entries, then a reservation and one entry. The second: a reservation, a sensor's
// header and two parts, its reading, and then a locator.
#[test]
fn entries_and_sensors_are_listed_in_pages(rt: HostRuntime) {
    assert_listings_in_pages(&rt, rt.alloc(), ENTRIES_AND_SENSORS);
}

/// `words|image|size of each page`, then the outcome.
const EMPTY_IN_PAGES: &str = "sdr hex|empty|1 1
0 2
--
";

// A reservation, and a call that finds no record. There is no other page.
#[test]
fn an_empty_image_ends_on_the_first_page(rt: HostRuntime) {
    assert_listings_in_pages(&rt, rt.alloc(), EMPTY_IN_PAGES);
}

/// `words|image|size of each page`, then the outcome.
const CYCLES: &str = "sdr hex|cycle|2
1 6
cycle at 0007h
--
sdr 0007 0009 070051c000
sdr 0009 0007 090051c000
sdr 0007 0009 070051c000
sdr 0009 0007 090051c000
====
sdr hex|cycle at zero|1
1 2
cycle at 0000h
--
sdr 0001 0000 010051c000
";

// A cycle is found only within a page. The next id 0000h is always a cycle.
#[test]
fn each_page_sees_its_own_cycle(rt: HostRuntime) {
    assert_listings_in_pages(&rt, rt.alloc(), CYCLES);
}

/// `words|image|size of each page`, then the outcome.
const GIVEN_UP: &str = "--tries 0 sdr hex|three|1 1
1 4
gave up at 0002h
--
sdr 0001 0002 010051c001aa
";

// The fourth call begins the second page. There is no third page.
#[test]
fn a_page_that_ends_by_name_ends_all(rt: HostRuntime) {
    let case = case_of(&rt, GIVEN_UP);
    let ctl = scripted(&rt, rt.alloc(), image_named(&rt, case.image), "...B");
    assert_outcome_in_pages(&rt, rt.alloc(), ctl, &case);
}

/// The outcome of a listing of three records in three pages. Only the listing takes memory.
fn three_in_pages(alloc: Global) -> Result<Outcome, ImageFault> {
    let image = Image::read(alloc, THREE_ROWS.as_bytes())?;
    let ctl = Counting::new(ImageController::new(image));
    let hex = Command::new(Task::Hex, None, 32, 5, None);
    Ok(outcome_in_pages(alloc, ctl, &hex, &[1, 0, 1]))
}

fn assert_lines(rt: &impl Abort, outcome: &Outcome) {
    assert!(rt; outcome.status == 0, "status {}", outcome.status);
    assert_written_text(rt, &outcome.out, THREE_LINES);
    assert_written_text(rt, &outcome.err, "");
}

#[test]
fn not_always_out_of_memory(rt: HostRuntime) {
    let outcome = three_in_pages(rt.alloc()).expect(&rt, "memory");
    assert_lines(&rt, &outcome);
}

/// Asserts that all lines are written, or their first bytes after a write fault, or the first lines if memory was refused.
fn assert_lines_or_refused(rt: &impl Abort, outcome: &Outcome) {
    match outcome.status {
        0 => assert_lines(rt, outcome),
        4 => assert_written_text(rt, &outcome.err, "write fault\n"),
        5 => {
            let len = outcome.out.len();
            assert!(rt; matches!(len, 0 | 27 | 56), "{len} bytes");
            assert_written_text(rt, &outcome.err, "out of memory\n");
        }
        status => panic!(rt; "status {status}"),
    }
    let is_first_part = THREE_LINES.as_bytes().starts_with(&outcome.out);
    assert!(rt; is_first_part, "status {}: other lines", outcome.status);
}

// Memory may be refused to the run, or to the output.
#[test]
fn memory_may_be_refused(rt: HostRuntime) {
    match three_in_pages(rt.alloc()) {
        Ok(outcome) => assert_lines_or_refused(&rt, &outcome),
        Err(fault) => assert!(rt; fault == ImageFault::Memory, "{fault:?}"),
    }
}
