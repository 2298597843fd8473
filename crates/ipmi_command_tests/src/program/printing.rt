//! The contents of a buffered writer after printing, and the answer to a command line.
use crate::command_line::lines::{command, read_line};
use crate::commands::saved::{THREE_LINES, THREE_ROWS};
use crate::writers::{Limited, assert_written_text};
use ipmi_bus::Ended;
use ipmi_command_line::Command;
use ipmi_output::{Failure, Written};
use ipmi_plain::execute_image;
use ipmi_program::{InputFault, answer_buffered, flush};
use std::alloc::Global;
use std::io::{BufWriter, Write};
use std::process::Abort;

/// A sink with a buffer of eight bytes before the writer.
fn buffered<W: Write + Drop>(rt: &impl Abort, alloc: Global, writer: W) -> Written<BufWriter<W>> {
    Written::new(
        BufWriter::with_capacity(alloc, 8, writer)
            .ok()
            .expect(rt, "memory"),
    )
}

/// Runs the command over the image, and flushes the output.
fn print<'a, W: Write + Drop>(
    alloc: Global,
    cmd: &'a Command,
    image: &[u8],
    out: &mut Written<BufWriter<W>>,
) -> Result<(), Failure<'a>> {
    let ending = execute_image(alloc, cmd, image, out);
    flush(ending, out)
}

#[test]
fn all_that_was_printed_is_handed_on(rt: HostRuntime) {
    let cmd = command(&rt, rt.alloc(), "sdr hex");
    let mut out = buffered(&rt, rt.alloc(), Vec::new(rt.alloc()));
    let ending = print(rt.alloc(), &cmd, THREE_ROWS.as_bytes(), &mut out);
    assert!(rt; ending.is_ok(), "{ending:?}");
    assert!(rt; out.get_ref().buffer().is_empty(), "some of it is left");
    assert_written_text(&rt, &out.into_inner().into_parts().0, THREE_LINES);
    drop(cmd);
}

#[test]
fn what_was_printed_before_a_cycle_is_handed_on(rt: HostRuntime) {
    let image = b"ipmi-image 1\nsdr 0001 0001 010051c000\nend\n";
    let cmd = command(&rt, rt.alloc(), "sdr hex");
    let mut out = buffered(&rt, rt.alloc(), Vec::new(rt.alloc()));
    let ending = print(rt.alloc(), &cmd, image, &mut out);
    let is_cycle = matches!(ending, Err(Failure::Ended(Ended::Cycle(1))));
    assert!(rt; is_cycle, "{ending:?}");
    let line = "sdr 0001 0001 010051c000\n";
    assert_written_text(&rt, &out.into_inner().into_parts().0, line);
    drop(cmd);
}

/// Asserts that a run ends with a write fault if the writer takes only `room` bytes, and the contents of the writer.
fn assert_write_fault(rt: &impl Abort, alloc: Global, room: usize) {
    let cmd = command(rt, alloc, "sdr hex");
    let mut out = buffered(rt, alloc, Limited::failing_after(alloc, room));
    let ending = print(alloc, &cmd, THREE_ROWS.as_bytes(), &mut out);
    assert!(rt;
        matches!(ending, Err(Failure::WriteFault)),
        "{room} bytes: {ending:?}"
    );
    let (writer, _) = out.into_inner().into_parts();
    let first = THREE_LINES.get(..room).expect(rt, "so many");
    assert_written_text(rt, &writer.got, first);
    drop(cmd);
}

#[test]
fn a_writer_that_fails_has_a_first_part(rt: HostRuntime) {
    for room in [0, 10, 27, 80] {
        assert_write_fault(&rt, rt.alloc(), room);
    }
}

/// Asserts the status of a line over this input, and what it prints and says.
fn assert_answer(
    rt: &impl Abort,
    alloc: Global,
    line: &str,
    input: Result<Vec<u8>, InputFault>,
    wanted: (u8, &str, &str),
) {
    let command = read_line(rt, alloc, line);
    let mut out = buffered(rt, alloc, Vec::new(alloc));
    let mut err = Vec::new(alloc);
    let status = answer_buffered(alloc, &command, &input, &mut out, &mut err);
    let (status_wanted, output, message) = wanted;
    assert!(rt; status == status_wanted, "{line}: status {status}");
    assert_written_text(rt, &out.into_inner().into_parts().0, output);
    assert_written_text(rt, &err, message);
    drop((command, input));
}

#[test]
fn a_line_and_its_image_are_answered(rt: HostRuntime) {
    let mut image = Vec::new(rt.alloc());
    image
        .extend_from_slice(THREE_ROWS.as_bytes())
        .expect(&rt, "memory");
    assert_answer(&rt, rt.alloc(), "sdr hex", Ok(image), (0, THREE_LINES, ""));
}

#[test]
fn an_image_that_is_not_read_has_a_message(rt: HostRuntime) {
    let unread = (3, "", "cannot read x\n");
    let line = "--image x sdr hex";
    assert_answer(&rt, rt.alloc(), line, Err(InputFault::NotFound), unread);
    let memory = (5, "", "out of memory\n");
    assert_answer(&rt, rt.alloc(), line, Err(InputFault::Memory), memory);
}
