//! The options of a command line, and the getters of a command.
use super::lines::command;
use crate::cases::parts;
use ipmi_command_line::{Command, Task, Word};
use std::alloc::Global;
use std::process::Abort;

/// A task as it is written in code, but with names unquoted.
fn task_text(rt: &impl Abort, alloc: Global, task: &Task) -> String {
    match task {
        Task::Get(name) => {
            let name = name.as_str();
            format!(in alloc; "Get({name})").expect(rt, "memory")
        }
        _ => format!(in alloc; "{task:?}").expect(rt, "memory"),
    }
}

/// The image option, or a dash.
fn image_text(command: &Command) -> &str {
    match command.image() {
        Some(image) => image.as_str(),
        None => "-",
    }
}

/// The options of a command: start, part, tries and image.
fn options_text(rt: &impl Abort, alloc: Global, command: &Command) -> String {
    let from = command.from();
    let part = command.part();
    let tries = command.tries();
    let image = image_text(command);
    format!(in alloc; "{from:?} {part} {tries} {image}").expect(rt, "memory")
}

/// Asserts the task and the options of a command.
pub(super) fn assert_command(
    rt: &impl Abort,
    alloc: Global,
    command: Command,
    task: &str,
    options: &str,
    case: &str,
) {
    let got = task_text(rt, alloc, command.task());
    assert!(rt; got.as_str() == task, "{case}: got {got}");
    let got = options_text(rt, alloc, &command);
    drop(command);
    assert!(rt; got.as_str() == options, "{case}: got {got}");
}

/// Asserts that a command is this task with no option.
pub(super) fn assert_task(
    rt: &impl Abort,
    alloc: Global,
    command: Command,
    task: &str,
    case: &str,
) {
    assert_command(rt, alloc, command, task, "None 32 5 -", case);
}

/// Asserts that a line is `sdr hex` with these options.
fn assert_hex_options(rt: &impl Abort, alloc: Global, case: &str) {
    let (words, options) = parts(rt, case);
    assert_command(rt, alloc, command(rt, alloc, words), "Hex", options, case);
}

/// The same for each line.
fn assert_hex_options_of_lines(rt: &impl Abort, alloc: Global, cases: &str) {
    for case in cases.lines() {
        assert_hex_options(rt, alloc, case);
    }
}

/// `words|start part tries image`.
const ORDERS: &str = "--from 00fe --part 7 --tries 0 --image a.image sdr hex|Some(254) 7 0 a.image
sdr hex --image a.image --tries 0 --part 7 --from 00FE|Some(254) 7 0 a.image
--part 7 sdr --from 00fE --image a.image hex --tries 0|Some(254) 7 0 a.image
--from=00Fe sdr --part=7 hex --image=a.image --tries=0|Some(254) 7 0 a.image
--from 00fe --part 7 --tries 0 --image a.image -- sdr hex|Some(254) 7 0 a.image
--from 00fe --part 7 --tries 0 --image a.image|Some(254) 7 0 a.image";

#[test]
fn options_may_be_anywhere(rt: HostRuntime) {
    assert_hex_options_of_lines(&rt, rt.alloc(), ORDERS);
}

/// `words|start part tries image`.
const EDGES: &str = "--from 0001|Some(1) 32 5 -
--from FFFE|Some(65534) 32 5 -
--from fffe|Some(65534) 32 5 -
--part 1|None 1 5 -
--part 254|None 254 5 -
--tries 0|None 32 0 -
--tries 255|None 32 255 -";

#[test]
fn options_reach_the_edges_of_their_ranges(rt: HostRuntime) {
    assert_hex_options_of_lines(&rt, rt.alloc(), EDGES);
}

/// `words|task`.
const STARTS: &str = "--from 0002|Hex
--from 0002 sdr|List(Sensors)
--from 0002 sdr hex|Hex
--from 0002 sdr list|List(Sensors)
--from 0002 sdr list fru|List(Fru)
--from 0002 sdr elist|Elist(Sensors)
--from 0002 sdr elist all|Elist(All)
--from 0002 sdr get Fan|Get(Fan)
--from 0002 sel list|SelList(All)
--from 0002 sel list 3|SelList(First(3))
--from 0002 sel list first 3|SelList(First(3))
--from 0002 sel list last 3|SelList(Last(3))";

/// Asserts that a line is this task with the start 2 and no other option.
fn assert_start_at_two(rt: &impl Abort, alloc: Global, case: &str) {
    let (words, task) = parts(rt, case);
    let command = command(rt, alloc, words);
    assert_command(rt, alloc, command, task, "Some(2) 32 5 -", case);
}

#[test]
fn some_commands_take_a_start(rt: HostRuntime) {
    for case in STARTS.lines() {
        assert_start_at_two(&rt, rt.alloc(), case);
    }
}

fn word(rt: &impl Abort, alloc: Global, text: &str) -> Word {
    Word::new(alloc, text).expect(rt, "memory")
}

/// A command with a name and with each option at an end of its range.
fn whole_command(rt: &impl Abort, alloc: Global) -> Command {
    let task = Task::Get(word(rt, alloc, "Fan 1"));
    let image = word(rt, alloc, "server.image");
    Command::new(task, Some(0xFFFE), 254, 0, Some(image))
}

#[test]
fn a_command_gives_what_it_was_made_of(rt: HostRuntime) {
    let command = whole_command(&rt, rt.alloc());
    let options = "Some(65534) 254 0 server.image";
    assert_command(&rt, rt.alloc(), command, "Get(Fan 1)", options, "made");
}
