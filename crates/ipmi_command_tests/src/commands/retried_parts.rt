//! Inventories of a controller that is busy now and then: whole if each part has retries, given up if only the whole has.
use super::long_inventory::{INVENTORY, text_of_parts};
use super::outcome::{Outcome, assert_numbers, assert_outcome};
use super::over_images::scripted;
use crate::cases::parts;
use crate::command_line::lines::command;
use ipmi_command_line::Command;
use ipmi_commands::{Job, RequestLimits, Summary, execute, report};
use ipmi_output::Written;
use ipmi_program::Wording;
use std::alloc::Global;
use std::process::Abort;

/// The outcome of a command with these limits over a controller with the inventory of 512 bytes, whose calls have these moods.
fn outcome_within(
    rt: &impl Abort,
    alloc: Global,
    limits: RequestLimits,
    command: &Command,
    moods: &str,
) -> Outcome {
    let mut ctl = scripted(rt, alloc, INVENTORY, moods);
    let mut out = Written::new(Vec::new(alloc));
    let mut err = Vec::new(alloc);
    let mut summary = Summary::new();
    let job = Job::of(&Wording::Plain, command.task(), command.from()).expect(rt, moods);
    let ending = execute(
        alloc,
        &mut ctl,
        limits,
        &Wording::Plain,
        job,
        &mut out,
        &mut summary,
    );
    let status = report(ending, &mut err);
    let calls = ctl.calls;
    drop(ctl);
    Outcome {
        out: out.into_inner(),
        err,
        status,
        calls,
    }
}

/// The outcome of a line of words and moods. Each part has retries, or the whole inventory.
fn outcome_of_line(rt: &impl Abort, alloc: Global, line: &str, for_each_part: bool) -> Outcome {
    let (words, moods) = parts(rt, line);
    let command = command(rt, alloc, words);
    let given = RequestLimits::of(&command);
    let limits = if for_each_part {
        given.retrying_parts()
    } else {
        given
    };
    let outcome = outcome_within(rt, alloc, limits, &command, moods);
    drop(command);
    outcome
}

/// Asserts that the inventory is whole after so many calls.
fn assert_whole(rt: &impl Abort, alloc: Global, line: &str, for_each_part: bool, calls: u32) {
    let outcome = outcome_of_line(rt, alloc, line, for_each_part);
    let text = text_of_parts(rt, alloc, "chassis|board|product|first|second");
    let wanted = format!(in alloc; "0 {calls}\n--\nFRU 0\n{text}\n").expect(rt, "memory");
    assert_outcome(rt, alloc, outcome, wanted.as_str(), line);
}

/// Asserts that the inventory is given up after so many calls.
fn assert_given_up(rt: &impl Abort, alloc: Global, line: &str, for_each_part: bool, calls: u32) {
    let outcome = outcome_of_line(rt, alloc, line, for_each_part);
    let wanted = format!(in alloc; "1 {calls} 0|fru 0 gave up\n").expect(rt, "memory");
    assert_numbers(rt, alloc, &outcome, wanted.as_str(), line);
    drop(outcome);
}

// There is a call for the size, and one for each of 27 parts. With these four calls that are busy there are 32.
const ONE_IN_SEVEN: &str = "--tries 1 --part 19 fru print 0|......B......B......B......B......B";

#[test]
fn each_part_of_a_long_inventory_is_retried(rt: HostRuntime) {
    assert_whole(&rt, rt.alloc(), ONE_IN_SEVEN, true, 32);
}

// The second busy answer is one too many.
#[test]
fn a_long_inventory_has_retries_for_the_whole(rt: HostRuntime) {
    assert_given_up(&rt, rt.alloc(), ONE_IN_SEVEN, false, 14);
}

// Two troubles in a row are too many for one retry, also the one before the size and the one after it.
#[test]
fn a_part_may_be_given_up(rt: HostRuntime) {
    let words = "--tries 1 fru print 0|...B.BB.";
    assert_given_up(&rt, rt.alloc(), words, true, 7);
    assert_given_up(&rt, rt.alloc(), "--tries 1 fru print 0|B.C", true, 3);
}
