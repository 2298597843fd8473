//! The answer to a command line over the bytes of an image, and how it is compared with the expected one.
use super::outcome::text_of;
use super::saved::THREE_ROWS;
use crate::cases::first_line;
use crate::command_line::lines::{command, read_line};
use ipmi_command_line::{Command, UsageFault};
use ipmi_output::Written;
use ipmi_plain::answer;
use std::alloc::Global;
use std::process::Abort;

/// The outcome of a usage fault, in the form of `answer_text`.
pub(super) const USAGE: &str = "2
usage: ipmitool [--image FILE] [--from HEX4] [--part N] [--tries N] fru|sdr|sel WORDS
--
";

/// The outcome of a command line: output, messages and status.
#[derive(Drop)]
pub(super) struct AnswerOutcome {
    pub out: Vec<u8>,
    pub err: Vec<u8>,
    pub status: u8,
}

/// The outcome of a command line over these bytes.
pub(super) fn outcome_of_answer(
    alloc: Global,
    line: &Result<Command, UsageFault>,
    image: &[u8],
) -> AnswerOutcome {
    let mut err = Vec::new(alloc);
    let mut out = Written::new(Vec::new(alloc));
    let status = answer(alloc, line, image, &mut out, &mut err);
    AnswerOutcome {
        out: out.into_inner(),
        err,
        status,
    }
}

/// An outcome as a text: like `outcome_text`, without the number of calls.
fn answer_text(rt: &impl Abort, alloc: Global, outcome: &AnswerOutcome, case: &str) -> String {
    let out = text_of(rt, &outcome.out, case);
    let err = text_of(rt, &outcome.err, case);
    let status = outcome.status;
    format!(in alloc; "{status}\n{err}--\n{out}").expect(rt, "memory")
}

/// Asserts an outcome, in the form of `answer_text`.
pub(super) fn assert_answer_outcome(
    rt: &impl Abort,
    alloc: Global,
    outcome: AnswerOutcome,
    wanted: &str,
    case: &str,
) {
    let got = answer_text(rt, alloc, &outcome, case);
    drop(outcome);
    assert!(rt; got.as_str() == wanted, "{case}: got {got}");
}

/// Asserts the answer to a command line over an image, in the form of `answer_text`.
pub(super) fn assert_answer(
    rt: &impl Abort,
    alloc: Global,
    line: Result<Command, UsageFault>,
    image: &[u8],
    wanted: &str,
    case: &str,
) {
    let outcome = outcome_of_answer(alloc, &line, image);
    drop(line);
    assert_answer_outcome(rt, alloc, outcome, wanted, case);
}

/// Asserts that a command line over three records prints only the usage line.
pub(crate) fn assert_usage_answer(
    rt: &impl Abort,
    alloc: Global,
    line: Result<Command, UsageFault>,
    case: &str,
) {
    assert_answer(rt, alloc, line, THREE_ROWS.as_bytes(), USAGE, case);
}

/// Asserts the answer to these words. The case is an image, a line of dashes, and the outcome.
fn assert_answer_of_case(rt: &impl Abort, alloc: Global, words: &str, case: &str) {
    let (image, wanted) = case.split_once("--\n").expect(rt, case);
    let line = Ok(command(rt, alloc, words));
    assert_answer(rt, alloc, line, image.as_bytes(), wanted, case);
}

/// Asserts the answer over this image. The case is the words in a line, and the outcome.
pub(super) fn assert_answer_to_words(rt: &impl Abort, alloc: Global, image: &str, case: &str) {
    let (words, wanted) = first_line(rt, case);
    let line = read_line(rt, alloc, words);
    assert_answer(rt, alloc, line, image.as_bytes(), wanted, case);
}

/// Asserts the answer to these words over the image of each case.
pub(super) fn assert_answers(rt: &impl Abort, alloc: Global, words: &str, cases: &str) {
    for case in cases.split("====\n") {
        assert_answer_of_case(rt, alloc, words, case);
    }
}
