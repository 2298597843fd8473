//! The runs of the reference program, over a controller or over a saved image. They print in codes.
ghost use Rattle.std.specs.Prelude.{◌≡◌, ◌+◌, ◌==◌, if◌then◌else◌, Some, true};
ghost use Rattle.ipmi_bus.specs.Seen.{AsksAtMost};
ghost use Rattle.ipmi_command_line.specs.Task.{is_listing};
ghost use Rattle.ipmi_image.specs.Image.{store_of_image};
ghost use Rattle.ipmi_output.specs.Failure.{write_faults};
ghost use Rattle.ipmi_output.specs.Received.{of_writer};
ghost use Rattle.ipmi_commands.specs.Prelude.{change, for_inventory, IsJob, OnBytes, printed, RunsCommand, Says};
ghost use Rattle.ipmi_plain.specs.Answers.{AnswersCommand, AnswersLine, job_of_command, RunsOver, RunsPagedCommand};
ghost use Rattle.ipmi_plain.specs.Plain.{plain_texts};

use crate::plain::Plain;
use ipmi_bus::Controller;
use ipmi_command_line::{Command, UsageFault};
use ipmi_commands::{Job, RequestLimits, Summary, execute, execute_pages, report, write_image};
use ipmi_image::{Image, ImageController};
use ipmi_output::{Failure, MessageSink, Sink};
use std::alloc::Global;
use std::io::Write;

/// Runs the command over the controller, in codes. `image rewrite` is [`Failure::Usage`], as only an image can do it.
fn execute_command<'a, C: Controller, O: Sink>(
    alloc: Global,
    ctl: &mut C,
    cmd: &'a Command,
    out: &mut O,
) -> Result<(), Failure<'a>>
    ensures faults { O.faults out.new ≡ O.faults out.old + write_faults result }
    ensures asked { AsksAtMost cmd.now.part (C.seen ctl.old) (C.seen ctl.new) }
    ensures runs { OnBytes (O.taken out.old) (O.taken out.new) (λ old new.
        RunsCommand plain_texts (job_of_command cmd.now) (for_inventory cmd.now.tries) (change (C.seen ctl.old) (C.seen ctl.new) old new) result) }
{
    match Job::of(&Plain, cmd.task(), cmd.from()) {
        Some(job) => execute(
            alloc,
            ctl,
            RequestLimits::of(cmd),
            &Plain,
            job,
            out,
            &mut Summary::new(),
        ),
        None => Err(Failure::Usage),
    }
}

/// Runs the command over the controller, writes to `err` why it did not finish, and returns the exit status: 0 if
/// everything was printed, 1 if the message says what is missing or why the run stopped, 2 for `image rewrite`, which
/// only `answer` can do, 4 for a write fault, 5 if out of memory. About the message, the contract says no more than
/// `err` shows of its contents: a writer that shows none may have received nothing. [`execute`] returns the failure
/// instead of writing it, prints in any form, and tells what was printed.
pub fn run<C: Controller, O: Sink, E: Write>(
    alloc: Global,
    ctl: &mut C,
    cmd: &Command,
    out: &mut O,
    err: &mut E,
) -> u8
    ensures faults { O.faults out.new ≡ O.faults out.old + (if result == 4 then 1 else 0) }
    ensures asked { AsksAtMost cmd.now.part (C.seen ctl.old) (C.seen ctl.new) }
    ensures runs { Says (of_writer (E.contents err.old)) (of_writer (E.contents err.new)) result
        (λ ending. OnBytes (O.taken out.old) (O.taken out.new) (λ old new.
        RunsCommand plain_texts (job_of_command cmd.now) (for_inventory cmd.now.tries) (change (C.seen ctl.old) (C.seen ctl.new) old new) ending)) }
{
    report(execute_command(alloc, ctl, cmd, out), err)
}

/// Runs the command over the controller in pages, in codes.
fn execute_listing<'a, C: Controller, O: Sink>(
    alloc: Global,
    ctl: &mut C,
    cmd: &'a Command,
    out: &mut O,
    pages: &[u32],
) -> Result<(), Failure<'a>>
    requires { is_listing cmd.now.task ≡ true }
    ensures faults { O.faults out.new ≡ O.faults out.old + write_faults result }
    ensures asked { AsksAtMost cmd.now.part (C.seen ctl.old) (C.seen ctl.new) }
    ensures runs { OnBytes (O.taken out.old) (O.taken out.new) (λ old new.
        RunsPagedCommand plain_texts (job_of_command cmd.now) (for_inventory cmd.now.tries) pages.now
        (change (C.seen ctl.old) (C.seen ctl.new) old new) result) }
{
    let job = Job::of(&Plain, cmd.task(), cmd.from()).unwrap();
    let limits = RequestLimits::of(cmd);
    execute_pages(
        alloc,
        ctl,
        limits,
        &Plain,
        job,
        out,
        &mut Summary::new(),
        pages,
    )
}

/// Like [`run`], for a listing in pages ([`execute_pages`]).
pub fn run_pages<C: Controller, O: Sink, E: MessageSink>(
    alloc: Global,
    ctl: &mut C,
    cmd: &Command,
    out: &mut O,
    err: &mut E,
    pages: &[u32],
) -> u8
    requires { is_listing cmd.now.task ≡ true }
    ensures faults { O.faults out.new ≡ O.faults out.old + (if result == 4 then 1 else 0) }
    ensures asked { AsksAtMost cmd.now.part (C.seen ctl.old) (C.seen ctl.new) }
    ensures runs { Says (E.received err.old) (E.received err.new) result
        (λ ending. OnBytes (O.taken out.old) (O.taken out.new) (λ old new.
        RunsPagedCommand plain_texts (job_of_command cmd.now) (for_inventory cmd.now.tries) pages.now (change (C.seen ctl.old) (C.seen ctl.new) old new) ending)) }
{
    report(execute_listing(alloc, ctl, cmd, out, pages), err)
}

/// Runs the command over a saved image. Err says why it did not finish.
pub fn execute_image<'a, O: Sink>(
    alloc: Global,
    cmd: &'a Command,
    image: &[u8],
    out: &mut O,
) -> Result<(), Failure<'a>>
    ensures faults { O.faults out.new ≡ O.faults out.old + write_faults result }
    ensures answers { OnBytes (O.taken out.old) (O.taken out.new) (λ old new.
        AnswersCommand cmd.now (store_of_image image.now) old new result) }
{
    let image = Image::read(alloc, image)?;
    let mut summary = Summary::new();
    match Job::of(&Plain, cmd.task(), cmd.from()) {
        Some(job) => execute_over(alloc, image, RequestLimits::of(cmd), job, out, &mut summary),
        None => {
            let ended = write_image(alloc, &image, out, &mut summary);
            drop(image);
            ended
        }
    }
}

/// Does the job over the image.
fn execute_over<'a, O: Sink>(
    alloc: Global,
    image: Image,
    limits: RequestLimits,
    job: Job<'a>,
    out: &mut O,
    summary: &mut Summary,
) -> Result<(), Failure<'a>>
    requires { IsJob job }
    ensures faults { O.faults out.new ≡ O.faults out.old + write_faults result }
    ensures runs { RunsOver plain_texts (Some job.entry) image (printed (O.taken out.old) summary.old)
        (printed (O.taken out.new) summary.new) result }
{
    let mut ctl = ImageController::new(image);
    let ended = execute(alloc, &mut ctl, limits, &Plain, job, out, summary);
    drop(ctl);
    ended
}

/// Runs a command line over a saved image, writes to `err` why it did not finish, and returns the exit status: that
/// of [`run`], 2 for an invalid command line, and 3 if the bytes are not an image. After a usage fault the image is
/// not read.
pub fn answer<O: Sink, E: MessageSink>(
    alloc: Global,
    line: &Result<Command, UsageFault>,
    image: &[u8],
    out: &mut O,
    err: &mut E,
) -> u8
    ensures faults { O.faults out.new ≡ O.faults out.old + (if result == 4 then 1 else 0) }
    ensures answers { Says (E.received err.old) (E.received err.new) result
        (λ ending. OnBytes (O.taken out.old) (O.taken out.new) (λ old new.
        AnswersLine line.now (store_of_image image.now) old new ending)) }
{
    match line {
        Ok(cmd) => report(execute_image(alloc, cmd, image, out), err),
        Err(fault) => report(Err(Failure::from(*fault)), err),
    }
}
