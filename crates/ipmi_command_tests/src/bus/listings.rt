//! Listings in hex over a controller, and their outcome.
use crate::commands::outcome::{Outcome, assert_outcome, outcome_of, outcome_of_one};
use crate::controllers::Counting;
use ipmi_bus::Controller;
use ipmi_command_line::{Command, Task};
use std::alloc::Global;
use std::process::Abort;

/// Lists the sensor data records in hex, in parts of 32 bytes.
pub fn listing<C: Controller + Drop>(alloc: Global, ctl: &mut Counting<C>, tries: u8) -> Outcome {
    let command = Command::new(Task::Hex, None, 32, tries, None);
    let outcome = outcome_of(alloc, ctl, &command);
    drop(command);
    outcome
}

/// The same in parts of one byte, with five tries. The controller ends with it.
pub fn listing_by_bytes<C: Controller + Drop>(alloc: Global, ctl: Counting<C>) -> Outcome {
    outcome_of_one(alloc, ctl, Command::new(Task::Hex, None, 1, 5, None))
}

/// Asserts that a listing ended well, with these lines after this many calls.
pub fn assert_listing(
    rt: &impl Abort,
    alloc: Global,
    outcome: Outcome,
    lines: &str,
    calls: u32,
    case: &str,
) {
    let wanted = format!(in alloc; "0 {calls}\n--\n{lines}").expect(rt, "memory");
    assert_outcome(rt, alloc, outcome, wanted.as_str(), case);
}
