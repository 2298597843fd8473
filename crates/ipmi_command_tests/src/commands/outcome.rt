//! The outcome of a command over a controller, compared with the expected one.
use crate::controllers::Counting;
use ipmi_bus::Controller;
use ipmi_command_line::Command;
use ipmi_commands::{Job, RequestLimits, Summary, execute};
use ipmi_output::{Failure, Sink, Written};
use ipmi_plain::run;
use ipmi_program::Wording;
use std::alloc::Global;
use std::process::Abort;

/// The outcome of a command: output, messages, status and the number of calls.
#[derive(Drop)]
pub(crate) struct Outcome {
    pub out: Vec<u8>,
    pub err: Vec<u8>,
    pub status: u8,
    pub calls: u32,
}

/// Runs the command over the controller, in this wording. The last entries of the event log are kept in memory.
pub(super) fn execute_in<'a, C: Controller, O: Sink>(
    alloc: Global,
    ctl: &mut C,
    command: &'a Command,
    wording: Wording<'a>,
    out: &mut O,
    summary: &mut Summary,
) -> Result<(), Failure<'a>> {
    let limits = RequestLimits::of(command);
    match Job::of(&wording, command.task(), command.from()) {
        Some(job) => execute(
            alloc,
            ctl,
            limits,
            &wording,
            job.keeping_last(),
            out,
            summary,
        ),
        None => Err(Failure::Usage),
    }
}

/// The outcome of a command over the controller.
pub(crate) fn outcome_of<C: Controller + Drop>(
    alloc: Global,
    ctl: &mut Counting<C>,
    command: &Command,
) -> Outcome {
    let mut out = Written::new(Vec::new(alloc));
    let mut err = Vec::new(alloc);
    let status = run(alloc, ctl, command, &mut out, &mut err);
    Outcome {
        out: out.into_inner(),
        err,
        status,
        calls: ctl.calls,
    }
}

/// The same, and drops the controller and the command.
pub(crate) fn outcome_of_one<C: Controller + Drop>(
    alloc: Global,
    mut ctl: Counting<C>,
    command: Command,
) -> Outcome {
    let outcome = outcome_of(alloc, &mut ctl, &command);
    drop(command);
    drop(ctl);
    outcome
}

pub(crate) fn text_of<'a>(rt: &impl Abort, bytes: &'a [u8], case: &str) -> &'a str {
    std::str::from_utf8(bytes).expect(rt, case)
}

/// An outcome as a text: status and number of calls in a line, messages, a line of dashes, output.
fn outcome_text(rt: &impl Abort, alloc: Global, outcome: &Outcome, case: &str) -> String {
    let out = text_of(rt, &outcome.out, case);
    let err = text_of(rt, &outcome.err, case);
    let status = outcome.status;
    let calls = outcome.calls;
    format!(in alloc; "{status} {calls}\n{err}--\n{out}").expect(rt, "memory")
}

/// Asserts an outcome, in the form of `outcome_text`.
pub(crate) fn assert_outcome(
    rt: &impl Abort,
    alloc: Global,
    outcome: Outcome,
    wanted: &str,
    case: &str,
) {
    let got = outcome_text(rt, alloc, &outcome, case);
    drop(outcome);
    assert!(rt; got.as_str() == wanted, "{case}: got {got}");
}

/// Asserts the outcome of one command over the controller, in the form of `outcome_text`.
pub(crate) fn assert_outcome_of_one<C: Controller + Drop>(
    rt: &impl Abort,
    alloc: Global,
    ctl: Counting<C>,
    command: Command,
    wanted: &str,
    case: &str,
) {
    assert_outcome(rt, alloc, outcome_of_one(alloc, ctl, command), wanted, case);
}

/// An outcome as a text: status, number of calls and number of bytes, then a bar and the messages.
fn numbers_text(rt: &impl Abort, alloc: Global, outcome: &Outcome, case: &str) -> String {
    let status = outcome.status;
    let calls = outcome.calls;
    let len = outcome.out.len();
    let err = text_of(rt, &outcome.err, case);
    format!(in alloc; "{status} {calls} {len}|{err}").expect(rt, "memory")
}

/// Asserts an outcome, in the form of `numbers_text`.
pub(crate) fn assert_numbers(
    rt: &impl Abort,
    alloc: Global,
    outcome: &Outcome,
    wanted: &str,
    case: &str,
) {
    let got = numbers_text(rt, alloc, outcome, case);
    assert!(rt; got.as_str() == wanted, "{case}: got {got}");
}
