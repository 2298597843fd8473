//! A fault at each call of a command: a busy or cancelled call that is repeated, one trouble too many, a refusal, and a part
//! that is too long.
use super::outcome::{Outcome, assert_outcome, outcome_of_one};
use super::outputs::{INVENTORIES, INVENTORY, NEWEST};
use super::over_images::scripted;
use super::saved::image_named;
use crate::cases::{number, parts};
use crate::command_line::lines::command_of_case;
use ipmi_fixtures::{CPU_TEMP_BLOCK, INFO_BLOCK, PSU1_BLOCK};
use std::alloc::Global;
use std::process::Abort;

/// A command over an image, its outcome, and the effect of a fault at each of its calls.
#[derive(Clone, Copy)]
struct Course<'a> {
    /// The words, split at commas.
    words: &'a str,
    /// The name of the image.
    image: &'a str,
    /// A line for each call: what the message names after a fault there, the number of lines printed before, the number of
    /// calls if the call is cancelled once, and that if its part is too long.
    faults: &'a str,
    /// The line of the message, if there is one without a fault.
    said: &'a str,
    /// The output without a fault.
    out: &'a str,
}

/// The effect of a fault at a call.
#[derive(Clone, Copy)]
struct Fault<'a> {
    names: &'a str,
    lines: usize,
    calls_if_cancelled: u32,
    calls_if_too_long: u32,
}

fn fault_of<'a>(rt: &impl Abort, line: &'a str) -> Fault<'a> {
    let (names, rest) = parts(rt, line);
    let (lines, rest) = parts(rt, rest);
    let (cancelled, too_long) = parts(rt, rest);
    Fault {
        names,
        lines: lines.parse::<usize>().expect(rt, line),
        calls_if_cancelled: number(rt, cancelled),
        calls_if_too_long: number(rt, too_long),
    }
}

// A cancelled record begins again with a reservation, and repeats its calls so far. A cancelled reading or inventory
// loses the reservation too. The next record then begins again after its header.
//
// A part that is too long is requested again in parts of half its length, and so is the rest of the walk or the
// inventory. A header of 5 bytes leads to parts of 2 bytes: a header then takes 3 calls, 51 bytes after it 26, and
// 15 bytes 8. A part of 32 bytes leads to 16, one of 19 to 9, one of 15 to 7, one of 16 to 8, and one of 8 to 4. A
// call for no part, or for a part of one byte, is never too long.
const COURSES: [Course<'static>; 10] = [
    Course {
        words: "sdr,get,CPU Temp",
        image: "sensor and locator",
        faults: "0000h|0|8|7
0000h|0|9|43
0000h|0|10|10
0000h|0|11|11
0001h|0|11|7
0002h|14|9|17
0002h|14|10|10",
        said: "",
        out: CPU_TEMP_BLOCK,
    },
    Course {
        words: "sdr,get,PSU1",
        image: "sensor and locator",
        faults: "0000h|0|7|6
0000h|0|8|42
0000h|0|9|9
0000h|0|10|10
0002h|0|8|16
0002h|0|9|9",
        said: "",
        out: PSU1_BLOCK,
    },
    Course {
        words: "sdr,get,Foo",
        image: "sensor and locator",
        faults: "0000h|0|7|6
0000h|0|8|42
0000h|0|9|9
0000h|0|10|10
0002h|0|8|16
0002h|0|9|9",
        said: "no record named Foo\n",
        out: "",
    },
    Course {
        words: "sdr,info",
        image: "infos",
        faults: "0000h|0|2|1",
        said: "",
        out: INFO_BLOCK,
    },
    Course {
        words: "sel,info",
        image: "log",
        faults: "0000h|0|2|1",
        said: "",
        out: INFO_BLOCK,
    },
    Course {
        words: "sdr,info",
        image: "three",
        faults: "0000h|0|2|1",
        said: "info not present\n",
        out: "",
    },
    Course {
        words: "sel,list,last,2",
        image: "log",
        faults: "0000h|0|9|8
0000h|0|10|12
0002h|0|10|11
0003h|0|10|10
0000h|0|9|8
0000h|0|10|12
0002h|0|10|11
0003h|1|10|10",
        said: "",
        out: NEWEST,
    },
    Course {
        words: "fru,print,0",
        image: "inventory",
        faults: "fru 0|0|3|2
fru 0|0|3|4",
        said: "",
        out: INVENTORY,
    },
    Course {
        words: "--part,8,fru,print,0",
        image: "inventory",
        faults: "fru 0|0|4|3
fru 0|0|4|6
fru 0|0|4|5",
        said: "",
        out: INVENTORY,
    },
    Course {
        words: "fru,print",
        image: "two locators",
        faults: "fru 0|0|12|11
fru 0|0|12|13
0000h|3|12|11
0000h|3|13|30
0000h|3|14|16
fru 1|3|15|11
fru 1|3|15|11
0002h|6|13|21
0002h|6|14|14
fru 2|6|12|11
fru 2|6|12|13",
        said: "",
        out: INVENTORIES,
    },
];

/// The number of calls without a fault.
fn calls_of(course: &Course) -> u32 {
    let mut calls: u32 = 0;
    for _ in course.faults.lines() {
        calls = calls.saturating_add(1);
    }
    calls
}

/// The outcome of a course with this number of tries and these moods.
fn outcome_of_course(
    rt: &impl Abort,
    alloc: Global,
    course: &Course,
    tries: u8,
    moods: &str,
) -> Outcome {
    let words = course.words;
    let words = format!(in alloc; "--tries,{tries},{words}").expect(rt, "memory");
    let ctl = scripted(rt, alloc, image_named(rt, course.image), moods);
    outcome_of_one(alloc, ctl, command_of_case(rt, alloc, words.as_str()))
}

/// The outcome of a course that finishes after this many calls.
fn whole_text(rt: &impl Abort, alloc: Global, course: &Course, calls: u32) -> String {
    let status = if course.said.is_empty() { 0 } else { 1 };
    let said = course.said;
    let out = course.out;
    format!(in alloc; "{status} {calls}\n{said}--\n{out}").expect(rt, "memory")
}

fn push_line(rt: &impl Abort, lines: &mut String, line: &str) {
    lines.push_str(line).expect(rt, "memory");
    lines.push_str("\n").expect(rt, "memory");
}

/// The first lines of a text.
fn first_lines(rt: &impl Abort, alloc: Global, text: &str, count: usize) -> String {
    let mut lines = String::new(alloc);
    for line in text.lines().take(count) {
        push_line(rt, &mut lines, line);
    }
    lines
}

/// The outcome of a course that ends at this call, with this message after the first lines.
fn ended_text(
    rt: &impl Abort,
    alloc: Global,
    course: &Course,
    call: u32,
    fault: &Fault,
    said: &str,
) -> String {
    let lines = first_lines(rt, alloc, course.out, fault.lines);
    format!(in alloc; "1 {call}\n{said}\n--\n{lines}").expect(rt, "memory")
}

/// The message that the tries for a record or an inventory were used up.
fn gave_up(rt: &impl Abort, alloc: Global, names: &str) -> String {
    if names.starts_with("fru") {
        return format!(in alloc; "{names} gave up").expect(rt, "memory");
    }
    format!(in alloc; "gave up at {names}").expect(rt, "memory")
}

/// The message that a record or an inventory was refused.
fn refused(rt: &impl Abort, alloc: Global, names: &str) -> String {
    if names.starts_with("fru") {
        return format!(in alloc; "{names} refused with code D4h").expect(rt, "memory");
    }
    format!(in alloc; "record {names} refused with code D4h").expect(rt, "memory")
}

/// Moods that grant each call before this one, and then this mood.
fn moods_at(rt: &impl Abort, alloc: Global, call: u32, mood: &str) -> String {
    let granted = ".".repeat(alloc, call.saturating_sub(1) as usize);
    let granted = granted.expect(rt, "memory");
    format!(in alloc; "{granted}{mood}").expect(rt, "memory")
}

/// The fault at a call of a course.
#[derive(Clone, Copy)]
enum Meeting {
    /// It is busy once, and there is one try.
    Busy,
    /// It is cancelled once, and there is one try.
    Cancelled,
    /// It is busy, and there is no try.
    BusyAtLast,
    /// It is cancelled, and there is no try.
    CancelledAtLast,
    /// It is refused.
    Refused,
    /// Its part is too long, if it asks for one.
    TooLong,
}

/// The number of tries, and the mood of the call.
fn script_of(meeting: Meeting) -> (u8, &'static str) {
    match meeting {
        Meeting::Busy => (1, "B"),
        Meeting::Cancelled => (1, "C"),
        Meeting::BusyAtLast => (0, "B"),
        Meeting::CancelledAtLast => (0, "C"),
        Meeting::Refused => (5, "R"),
        Meeting::TooLong => (0, "L"),
    }
}

/// The outcome of a course with this fault at the call with this number.
fn wanted_of(
    rt: &impl Abort,
    alloc: Global,
    course: &Course,
    call: u32,
    fault: &Fault,
    meeting: Meeting,
) -> String {
    match meeting {
        Meeting::Busy => whole_text(rt, alloc, course, calls_of(course).saturating_add(1)),
        Meeting::Cancelled => whole_text(rt, alloc, course, fault.calls_if_cancelled),
        Meeting::TooLong => whole_text(rt, alloc, course, fault.calls_if_too_long),
        Meeting::BusyAtLast | Meeting::CancelledAtLast => {
            let said = gave_up(rt, alloc, fault.names);
            ended_text(rt, alloc, course, call, fault, said.as_str())
        }
        Meeting::Refused => {
            let said = refused(rt, alloc, fault.names);
            ended_text(rt, alloc, course, call, fault, said.as_str())
        }
    }
}

/// Asserts that outcome.
fn assert_outcome_of_meeting(
    rt: &impl Abort,
    alloc: Global,
    course: &Course,
    call: u32,
    fault: &Fault,
    meeting: Meeting,
) {
    let (tries, mood) = script_of(meeting);
    let moods = moods_at(rt, alloc, call, mood);
    let outcome = outcome_of_course(rt, alloc, course, tries, moods.as_str());
    let wanted = wanted_of(rt, alloc, course, call, fault, meeting);
    let words = course.words;
    let case = format!(in alloc; "{words}: {moods}").expect(rt, "memory");
    assert_outcome(rt, alloc, outcome, wanted.as_str(), case.as_str());
}

/// The same at each call of the course.
fn assert_outcome_at_each_call(rt: &impl Abort, alloc: Global, course: &Course, meeting: Meeting) {
    let mut call: u32 = 0;
    for line in course.faults.lines() {
        call = call.saturating_add(1);
        assert_outcome_of_meeting(rt, alloc, course, call, &fault_of(rt, line), meeting);
    }
}

/// The same for each course.
fn assert_outcome_of_each_course(rt: &impl Abort, alloc: Global, meeting: Meeting) {
    for course in &COURSES {
        assert_outcome_at_each_call(rt, alloc, course, meeting);
    }
}

/// Asserts that a course without a fault finishes, with one call for each of its lines.
fn assert_outcome_without_faults(rt: &impl Abort, alloc: Global, course: &Course) {
    let outcome = outcome_of_course(rt, alloc, course, 0, "");
    let wanted = whole_text(rt, alloc, course, calls_of(course));
    assert_outcome(rt, alloc, outcome, wanted.as_str(), course.words);
}

#[test]
fn without_a_fault_no_try_is_needed(rt: HostRuntime) {
    for course in &COURSES {
        assert_outcome_without_faults(&rt, rt.alloc(), course);
    }
}

#[test]
fn a_busy_call_is_made_again(rt: HostRuntime) {
    assert_outcome_of_each_course(&rt, rt.alloc(), Meeting::Busy);
}

#[test]
fn a_cancelled_call_changes_no_output(rt: HostRuntime) {
    assert_outcome_of_each_course(&rt, rt.alloc(), Meeting::Cancelled);
}

#[test]
fn without_tries_a_busy_call_is_the_last(rt: HostRuntime) {
    assert_outcome_of_each_course(&rt, rt.alloc(), Meeting::BusyAtLast);
}

#[test]
fn without_tries_a_cancelled_call_is_the_last(rt: HostRuntime) {
    assert_outcome_of_each_course(&rt, rt.alloc(), Meeting::CancelledAtLast);
}

#[test]
fn a_refused_call_is_the_last(rt: HostRuntime) {
    assert_outcome_of_each_course(&rt, rt.alloc(), Meeting::Refused);
}

#[test]
fn a_part_that_is_too_long_changes_no_output(rt: HostRuntime) {
    assert_outcome_of_each_course(&rt, rt.alloc(), Meeting::TooLong);
}
