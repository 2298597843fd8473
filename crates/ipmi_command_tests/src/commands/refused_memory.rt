//! Commands with refused requests for memory. They write only whole pieces.
use super::answers::{AnswerOutcome, outcome_of_answer};
use super::outcome::execute_in;
use super::outputs::{INVENTORIES, INVENTORY, NEWEST};
use super::saved::{image_named, with_record};
use crate::writers::assert_written_text;
use ipmi_bus::Shelf;
use ipmi_command_line::{Command, Count, Task, UsageFault, Word};
use ipmi_commands::{Summary, report};
use ipmi_fixtures::{CPU_TEMP_BLOCK, INFO_BLOCK};
use ipmi_image::{Image, ImageController};
use ipmi_output::{Failure, Written};
use ipmi_program::Wording;
use std::alloc::{AllocError, Global};
use std::process::Abort;

/// A command, its words, the name of its image, the text that it prints, and the end of each piece of the text.
#[derive(Drop)]
struct Printed {
    words: &'static str,
    command: Result<Command, UsageFault>,
    image: &'static str,
    text: &'static str,
    end: &'static str,
}

/// The command of `block`.
fn get_command(alloc: Global) -> Result<Command, AllocError> {
    let name = Word::new(alloc, "CPU Temp")?;
    Ok(Command::new(Task::Get(name), None, 32, 5, None))
}

fn block(alloc: Global) -> Printed {
    Printed {
        words: "sdr get \"CPU Temp\"",
        command: get_command(alloc).ok().ok_or(UsageFault::Memory),
        image: "sensor",
        text: CPU_TEMP_BLOCK,
        end: CPU_TEMP_BLOCK,
    }
}

fn info() -> Printed {
    Printed {
        words: "sel info",
        command: Ok(Command::new(Task::Info(Shelf::Sel), None, 32, 5, None)),
        image: "log",
        text: INFO_BLOCK,
        end: INFO_BLOCK,
    }
}

fn newest() -> Printed {
    let task = Task::SelList(Count::Last(2));
    Printed {
        words: "sel list last 2",
        command: Ok(Command::new(task, None, 32, 5, None)),
        image: "log",
        text: NEWEST,
        end: "\n",
    }
}

fn inventory() -> Printed {
    Printed {
        words: "fru print 0",
        command: Ok(Command::new(Task::Fru(Some(0)), None, 32, 5, None)),
        image: "inventory",
        text: INVENTORY,
        end: INVENTORY,
    }
}

fn inventories() -> Printed {
    Printed {
        words: "fru",
        command: Ok(Command::new(Task::Fru(None), None, 32, 5, None)),
        image: "two locators",
        text: INVENTORIES,
        end: "\n\n",
    }
}

/// The outcome of the command, unless memory for its image is refused.
fn outcome_of(
    rt: &impl Abort,
    alloc: Global,
    printed: &Printed,
) -> Result<AnswerOutcome, AllocError> {
    let image = with_record(alloc, image_named(rt, printed.image))?;
    Ok(outcome_of_answer(alloc, &printed.command, image.as_bytes()))
}

/// The same with the last entries kept in memory.
fn outcome_of_kept(rt: &impl Abort, alloc: Global) -> Result<AnswerOutcome, AllocError> {
    let image = with_record(alloc, image_named(rt, "log"))?;
    let command = Command::new(Task::SelList(Count::Last(2)), None, 32, 5, None);
    let mut out = Written::new(Vec::new(alloc));
    let mut err = Vec::new(alloc);
    let ended = match Image::read(alloc, image.as_bytes()) {
        Ok(image) => {
            let mut ctl = ImageController::new(image);
            let mut summary = Summary::new();
            let ended = execute_in(
                alloc,
                &mut ctl,
                &command,
                Wording::Plain,
                &mut out,
                &mut summary,
            );
            drop(ctl);
            ended
        }
        Err(fault) => Err(Failure::from(fault)),
    };
    let status = report(ended, &mut err);
    drop(command);
    let out = out.into_inner();
    Ok(AnswerOutcome { out, err, status })
}

/// Asserts that the whole text is written.
fn assert_text(rt: &impl Abort, outcome: &AnswerOutcome, printed: &Printed) {
    assert!(rt; outcome.status == 0, "{}: status", printed.words);
    assert_written_text(rt, &outcome.out, printed.text);
    assert!(rt; outcome.err.is_empty(), "{}: message", printed.words);
}

/// Asserts that whole pieces are written, and the message `out of memory`.
fn assert_pieces(rt: &impl Abort, outcome: &AnswerOutcome, printed: &Printed) {
    assert_written_text(rt, &outcome.err, "out of memory\n");
    let is_of_pieces = outcome.out.is_empty() || outcome.out.ends_with(printed.end.as_bytes());
    assert!(rt; is_of_pieces, "{}: a piece", printed.words);
}

/// Asserts that the whole text is written, or its first bytes after a write fault, or its first pieces if memory was
/// refused.
fn assert_text_or_pieces(rt: &impl Abort, outcome: &AnswerOutcome, printed: &Printed) {
    match outcome.status {
        0 => assert_text(rt, outcome, printed),
        4 => assert_written_text(rt, &outcome.err, "write fault\n"),
        5 => assert_pieces(rt, outcome, printed),
        status => panic!(rt; "{}: status {status}", printed.words),
    }
    let is_first_part = printed.text.as_bytes().starts_with(&outcome.out);
    assert!(rt; is_first_part, "{}: another text", printed.words);
}

/// Asserts that the command prints its whole text.
fn assert_printed_text(rt: &impl Abort, alloc: Global, printed: Printed) {
    let outcome = outcome_of(rt, alloc, &printed).expect(rt, "memory");
    assert_text(rt, &outcome, &printed);
    drop(outcome);
    drop(printed);
}

/// The same for a command whose image may be refused memory too.
fn assert_printed_text_or_pieces(rt: &impl Abort, alloc: Global, printed: Printed) {
    if let Ok(outcome) = outcome_of(rt, alloc, &printed) {
        assert_text_or_pieces(rt, &outcome, &printed);
        drop(outcome);
    }
    drop(printed);
}

// With ample memory each command prints its whole text.
#[test]
fn not_always_out_of_memory(rt: HostRuntime) {
    assert_printed_text(&rt, rt.alloc(), block(rt.alloc()));
    assert_printed_text(&rt, rt.alloc(), info());
    assert_printed_text(&rt, rt.alloc(), newest());
    let kept = outcome_of_kept(&rt, rt.alloc()).expect(&rt, "memory");
    assert_text(&rt, &kept, &newest());
    drop(kept);
    assert_printed_text(&rt, rt.alloc(), inventory());
    assert_printed_text(&rt, rt.alloc(), inventories());
}

// Memory may be refused in the run or in the output.
#[test]
fn memory_may_be_refused(rt: HostRuntime) {
    assert_printed_text_or_pieces(&rt, rt.alloc(), block(rt.alloc()));
    assert_printed_text_or_pieces(&rt, rt.alloc(), info());
    assert_printed_text_or_pieces(&rt, rt.alloc(), newest());
    if let Ok(kept) = outcome_of_kept(&rt, rt.alloc()) {
        assert_text_or_pieces(&rt, &kept, &newest());
        drop(kept);
    }
    assert_printed_text_or_pieces(&rt, rt.alloc(), inventory());
    assert_printed_text_or_pieces(&rt, rt.alloc(), inventories());
}
