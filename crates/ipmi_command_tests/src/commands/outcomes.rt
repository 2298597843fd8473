//! Outcomes of runs and of answers: status, messages, output and the number of calls.
use super::answers::{USAGE, assert_answer, assert_answer_to_words};
use super::outcome::assert_outcome_of_one;
use super::over_images::over;
use super::saved::THREE_ROWS;
use crate::cases::first_line;
use crate::command_line::lines::{command, read_line};
use ipmi_command_line::{Command, UsageFault};
use std::alloc::Global;
use std::process::Abort;

/// Asserts the outcome of a command over three records. The case is the words in a line, then the outcome.
fn assert_outcome_of_case(rt: &impl Abort, alloc: Global, case: &str) {
    let (words, wanted) = first_line(rt, case);
    let ctl = over(rt, alloc, THREE_ROWS);
    assert_outcome_of_one(rt, alloc, ctl, command(rt, alloc, words), wanted, words);
}

const IN_ONE_RESERVATION: &str = "sdr hex
0 6
--
sdr 0001 0002 010051c001aa
sdr 0002 0003 020051c002bbcc
sdr 0003 ffff 030051c000
";

// Three calls read a record of six bytes: a reservation, the header and the byte after it. The third record ends with
// its header.
#[test]
fn one_reservation_serves_all_records(rt: HostRuntime) {
    assert_outcome_of_case(&rt, rt.alloc(), IN_ONE_RESERVATION);
}

const FROM_THE_SECOND: &str = "--from 0002 --part 1 sdr hex
0 13
--
sdr 0002 0003 020051c002bbcc
sdr 0003 ffff 030051c000
";

#[test]
fn a_cursor_starts_from_the_command(rt: HostRuntime) {
    assert_outcome_of_case(&rt, rt.alloc(), FROM_THE_SECOND);
}

const REWRITE: &str = "image rewrite
2 0
usage: ipmitool [--image FILE] [--from HEX4] [--part N] [--tries N] fru|sdr|sel WORDS
--
";

// A command for an image only makes no call.
#[test]
fn no_controller_is_written_as_an_image(rt: HostRuntime) {
    assert_outcome_of_case(&rt, rt.alloc(), REWRITE);
}

const OVER_THREE_RECORDS: &str = "
0
--
sdr 0001 0002 010051c001aa
sdr 0002 0003 020051c002bbcc
sdr 0003 ffff 030051c000
====
sdr hex
0
--
sdr 0001 0002 010051c001aa
sdr 0002 0003 020051c002bbcc
sdr 0003 ffff 030051c000
====
--part 1 sdr hex --tries 0
0
--
sdr 0001 0002 010051c001aa
sdr 0002 0003 020051c002bbcc
sdr 0003 ffff 030051c000
====
--from 0002 sdr hex
0
--
sdr 0002 0003 020051c002bbcc
sdr 0003 ffff 030051c000
====
--from 0009
1
record 0009h not present
--
====
--from 0000
2
usage: ipmitool [--image FILE] [--from HEX4] [--part N] [--tries N] fru|sdr|sel WORDS
--
====
--part 0
2
usage: ipmitool [--image FILE] [--from HEX4] [--part N] [--tries N] fru|sdr|sel WORDS
--
====
sdr frob
2
usage: ipmitool [--image FILE] [--from HEX4] [--part N] [--tries N] fru|sdr|sel WORDS
--
====
sel get 0
2
usage: ipmitool [--image FILE] [--from HEX4] [--part N] [--tries N] fru|sdr|sel WORDS
--
====
--from 0001 image rewrite
2
usage: ipmitool [--image FILE] [--from HEX4] [--part N] [--tries N] fru|sdr|sel WORDS
--
====
--help
2
usage: ipmitool [--image FILE] [--from HEX4] [--part N] [--tries N] fru|sdr|sel WORDS
--
====
sdr list
0
--
====
sdr info
1
info not present
--
====
sel
1
info not present
--
====
sdr get Foo
1
no record named Foo
--
====
sel list last 2
0
--
====
fru print 5
0
--
FRU 5
not present

====
fru
0
--
FRU 0
not present

";

#[test]
fn lines_are_answered_over_an_image(rt: HostRuntime) {
    for case in OVER_THREE_RECORDS.split("====\n") {
        assert_answer_to_words(&rt, rt.alloc(), THREE_ROWS, case);
    }
}

const OUT_OF_MEMORY: &str = "5
out of memory
--
";

/// Asserts the answer to a command line over bytes that are not an image.
fn assert_answer_without_image(
    rt: &impl Abort,
    alloc: Global,
    line: Result<Command, UsageFault>,
    wanted: &str,
    case: &str,
) {
    assert_answer(rt, alloc, line, b"no image", wanted, case);
}

/// Asserts the answer to a fault of the command line, which comes before the image is read.
fn assert_answer_to_fault(rt: &impl Abort, alloc: Global, fault: UsageFault, wanted: &str) {
    let case = format!(in alloc; "{fault:?}").expect(rt, "memory");
    assert_answer_without_image(rt, alloc, Err(fault), wanted, case.as_str());
}

#[test]
fn usage_faults_look_at_no_image(rt: HostRuntime) {
    assert_answer_to_fault(&rt, rt.alloc(), UsageFault::Command, USAGE);
    assert_answer_to_fault(&rt, rt.alloc(), UsageFault::Memory, OUT_OF_MEMORY);
}

/// The answer over bytes that are not an image.
const NO_IMAGE: &str = "3
image: header
--
";

const COMMANDS: &str = "sdr hex
sdr get Foo
sdr info
sel
sel list last 2
fru
fru print 0
image rewrite";

/// Asserts the answer to these words over bytes that are not an image.
fn assert_image_fault(rt: &impl Abort, alloc: Global, words: &str) {
    let line = read_line(rt, alloc, words);
    assert_answer_without_image(rt, alloc, line, NO_IMAGE, words);
}

#[test]
fn each_command_looks_at_its_image(rt: HostRuntime) {
    for words in COMMANDS.lines() {
        assert_image_fault(&rt, rt.alloc(), words);
    }
}
