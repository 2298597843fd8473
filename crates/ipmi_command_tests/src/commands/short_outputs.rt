//! Outputs and messages to writers that fail, are full or are slow.
use super::answers::{AnswerOutcome, assert_answer_outcome};
use super::outcome::execute_in;
use super::outputs::{INVENTORIES, INVENTORY, NEWEST};
use super::over_images::image_of;
use super::saved::{THREE_LINES, TO_NOWHERE, image_named, with_record};
use crate::command_line::lines::{command, command_of_case};
use crate::writers::Limited;
use ipmi_commands::{Summary, report};
use ipmi_fixtures::{CPU_TEMP_BLOCK, INFO_BLOCK};
use ipmi_image::ImageController;
use ipmi_output::{MessageSink, Sink, Written};
use ipmi_plain::answer;
use ipmi_program::Wording;
use std::alloc::Global;
use std::process::Abort;

/// Answers the words over an image, with this output and these messages, and returns the status.
fn answer_words<O: Sink, E: MessageSink>(
    rt: &impl Abort,
    alloc: Global,
    words: &str,
    image: &str,
    out: &mut O,
    err: &mut E,
) -> u8 {
    let line = Ok(command_of_case(rt, alloc, words));
    let status = answer(alloc, &line, image.as_bytes(), out, err);
    drop(line);
    status
}

/// A command over an image with a name, and the text that it prints.
#[derive(Clone, Copy)]
struct Printed<'a> {
    words: &'a str,
    image: &'a str,
    text: &'a str,
}

/// Asserts that an output with this much room has that much of the text, and the status and the message.
fn assert_cut_text(
    rt: &impl Abort,
    alloc: Global,
    outcome: AnswerOutcome,
    printed: &Printed,
    room: usize,
) {
    let len = printed.text.len();
    let part = printed.text.get(..room.min(len)).expect(rt, "a part");
    let said = if room < len { "4\nwrite fault" } else { "0" };
    let wanted = format!(in alloc; "{said}\n--\n{part}").expect(rt, "memory");
    let words = printed.words;
    let case = format!(in alloc; "{words}: {room} bytes").expect(rt, "memory");
    assert_answer_outcome(rt, alloc, outcome, wanted.as_str(), case.as_str());
}

/// The outcome of the words with this writer as output.
fn outcome_in(rt: &impl Abort, alloc: Global, printed: &Printed, writer: Limited) -> AnswerOutcome {
    let mut out = Written::new(writer);
    let mut err = Vec::new(alloc);
    let image = with_record(alloc, image_named(rt, printed.image)).expect(rt, "memory");
    let status = answer_words(rt, alloc, printed.words, &image, &mut out, &mut err);
    let out = out.into_inner().got;
    AnswerOutcome { out, err, status }
}

/// Asserts the text in an output that takes `room` bytes and then fails.
fn assert_text_before_failure(rt: &impl Abort, alloc: Global, printed: &Printed, room: usize) {
    let outcome = outcome_in(rt, alloc, printed, Limited::failing_after(alloc, room));
    assert_cut_text(rt, alloc, outcome, printed, room);
}

/// Asserts the text in an output that takes `room` bytes and then none.
fn assert_text_before_full(rt: &impl Abort, alloc: Global, printed: &Printed, room: usize) {
    let outcome = outcome_in(rt, alloc, printed, Limited::full_after(alloc, room));
    assert_cut_text(rt, alloc, outcome, printed, room);
}

const PRINTED: [Printed<'static>; 10] = [
    Printed {
        words: "sdr hex",
        image: "three",
        text: THREE_LINES,
    },
    Printed {
        words: "sdr,get,CPU Temp",
        image: "sensor and locator",
        text: CPU_TEMP_BLOCK,
    },
    Printed {
        words: "sdr get PSU1",
        image: "twins",
        text: "Record: 0001h
Type: FRU locator
Name: PSU1
Address: 20h
Entity: 10.1

Record: 0002h
Type: FRU locator
Name: PSU1
Address: 20h
Entity: 10.2

",
    },
    Printed {
        words: "sdr info",
        image: "infos",
        text: INFO_BLOCK,
    },
    Printed {
        words: "sel",
        image: "log",
        text: INFO_BLOCK,
    },
    Printed {
        words: "sel list last 2",
        image: "log",
        text: NEWEST,
    },
    Printed {
        words: "fru print 0",
        image: "inventory",
        text: INVENTORY,
    },
    Printed {
        words: "fru",
        image: "two locators",
        text: INVENTORIES,
    },
    Printed {
        words: "fru print",
        image: "elsewhere in three ways",
        text: "FRU 0
not present

FRU (AB): elsewhere, not read

FRU (CD): elsewhere, not read

FRU (EF): elsewhere, not read

",
    },
    Printed {
        words: "image rewrite",
        image: "three",
        text: "ipmi-image 2
sdr 0001 - 010051c001aa
sdr 0002 - 020051c002bbcc
sdr 0003 - 030051c000
end
",
    },
];

/// Asserts the text in an output of this room, which then fails or is full.
fn assert_text_in_room(rt: &impl Abort, alloc: Global, printed: &Printed, room: usize) {
    assert_text_before_failure(rt, alloc, printed, room);
    assert_text_before_full(rt, alloc, printed, room);
}

/// The same for each room, up to one byte more than the text has.
fn assert_text_in_each_room(rt: &impl Abort, alloc: Global, printed: &Printed) {
    for room in 0..=printed.text.len().saturating_add(1) {
        assert_text_in_room(rt, alloc, printed, room);
    }
}

// The output is the start of the whole text.
#[test]
fn an_output_keeps_what_was_taken_before_its_fault(rt: HostRuntime) {
    for printed in &PRINTED {
        assert_text_in_each_room(&rt, rt.alloc(), printed);
    }
}

/// Asserts the text in an output that takes one byte per call.
fn assert_text_by_bytes(rt: &impl Abort, alloc: Global, printed: &Printed) {
    let outcome = outcome_in(rt, alloc, printed, Limited::slow(alloc, 1));
    assert_cut_text(rt, alloc, outcome, printed, printed.text.len());
}

#[test]
fn an_output_may_take_one_byte_a_call(rt: HostRuntime) {
    for printed in &PRINTED {
        assert_text_by_bytes(&rt, rt.alloc(), printed);
    }
}

#[test]
fn a_fault_of_the_messages_changes_nothing(rt: HostRuntime) {
    let mut out = Written::new(Vec::new(rt.alloc()));
    let mut err = Limited::failing_after(rt.alloc(), 0);
    let status = answer_words(&rt, rt.alloc(), "sdr hex", TO_NOWHERE, &mut out, &mut err);
    let out = out.into_inner();
    let outcome = AnswerOutcome {
        out,
        err: err.got,
        status,
    };
    let wanted = "1\n--\nsdr 0001 0009 010051c000\n";
    assert_answer_outcome(&rt, rt.alloc(), outcome, wanted, "no message");
}

/// The outcome of a listing over `TO_NOWHERE` whose messages go to a slow writer.
fn outcome_with_slow_messages(rt: &impl Abort, alloc: Global) -> AnswerOutcome {
    let hex = command(rt, alloc, "sdr hex");
    let mut ctl = ImageController::new(image_of(rt, alloc, TO_NOWHERE));
    let mut out = Written::new(Vec::new(alloc));
    let mut err = Written::new(Limited::slow(alloc, 3));
    let mut summary = Summary::new();
    let ending = execute_in(
        alloc,
        &mut ctl,
        &hex,
        Wording::Plain,
        &mut out,
        &mut summary,
    );
    let status = report(ending, &mut err);
    drop(hex);
    drop(ctl);
    let out = out.into_inner();
    let err = err.into_inner().got;
    AnswerOutcome { out, err, status }
}

#[test]
fn a_slow_sink_gets_whole_messages(rt: HostRuntime) {
    let outcome = outcome_with_slow_messages(&rt, rt.alloc());
    let wanted = "1\nrecord 0009h not present\n--\nsdr 0001 0009 010051c000\n";
    assert_answer_outcome(&rt, rt.alloc(), outcome, wanted, "slow messages");
}
