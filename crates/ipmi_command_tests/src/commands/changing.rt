//! Commands over an image that changes at a call.
use super::outcome::{Outcome, assert_outcome, outcome_of_one};
use super::over_images::{Two, changing};
use super::saved::image_named;
use crate::cases::{case_of, parts};
use crate::command_line::lines::command_of_case;
use std::alloc::Global;
use std::process::Abort;

/// The outcome of the words over two images with these names, with the moods of these letters.
pub(super) fn outcome_over(
    rt: &impl Abort,
    alloc: Global,
    words: &str,
    names: Two<'_>,
    letters: &str,
) -> Outcome {
    let images = Two {
        first: image_named(rt, names.first),
        second: image_named(rt, names.second),
    };
    let ctl = changing(rt, alloc, images, letters);
    outcome_of_one(alloc, ctl, command_of_case(rt, alloc, words))
}

/// Asserts the outcome of a command over an image that changes.
fn assert_outcome_of_change(rt: &impl Abort, alloc: Global, case: &str) {
    let case = case_of(rt, case);
    let (second, letters) = parts(rt, case.more);
    let names = Two {
        first: case.image,
        second,
    };
    let outcome = outcome_over(rt, alloc, case.words, names, letters);
    assert_outcome(rt, alloc, outcome, case.wanted, case.line);
}

/// The same for each case.
pub(super) fn assert_outcomes_of_changes(rt: &impl Abort, alloc: Global, cases: &str) {
    for case in cases.split("====\n") {
        assert_outcome_of_change(rt, alloc, case);
    }
}
