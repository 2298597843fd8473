//! What a program does once its command line and its image are read.
ghost use Rattle.std.specs.Prelude.{◌≡◌, ◌+◌, ◌==◌, if◌then◌else◌};
ghost use Rattle.std.specs.Io.Buffered.{writer_buffer};
ghost use Rattle.ipmi_commands.specs.Output.{OnBytes};
ghost use Rattle.ipmi_image.specs.Image.{store_of_image};
ghost use Rattle.ipmi_output.specs.Writer.{writer_of};
ghost use Rattle.ipmi_plain.specs.Answers.{AnswersCommand};
ghost use Rattle.ipmi_program.specs.Printing.{EndsBy, IsFlushed};
ghost use Rattle.ipmi_program.specs.Answer.{Answers, SaysUnread};

use crate::input::{InputFault, input_name};
use crate::printing::flush;
use ipmi_command_line::{Command, UsageFault};
use ipmi_commands::report;
use ipmi_output::{Failure, MessageSink, Sink, Written, write_unreadable};
use ipmi_plain::execute_image;
use std::alloc::Global;
use std::io::{BufWriter, Write};

/// The exit status if the image cannot be read.
const UNREADABLE: u8 = 3;

/// Reports that the image was not read, and returns the exit status.
fn say_unread<E: MessageSink>(fault: InputFault, name: &str, err: &mut E) -> u8
    ensures { SaysUnread fault name.now (E.received err.old) (E.received err.new) result }
{
    match fault {
        InputFault::Memory => report(Err(Failure::OutOfMemory), err),
        _ => {
            // a failure here cannot be reported anywhere
            let _ = write_unreadable(err, name);
            UNREADABLE
        }
    }
}

/// Answers a command line over its input: runs the command over the image, and flushes the output to the writer below
/// the buffer. If the line has a fault, the image was not read or the run did not finish, it reports why to `err`.
/// Returns the exit status.
pub fn answer_buffered<W: Write + Drop, E: MessageSink>(
    alloc: Global,
    line: &Result<Command, UsageFault>,
    input: &Result<Vec<u8>, InputFault>,
    out: &mut Written<BufWriter<W>>,
    err: &mut E,
) -> u8
    ensures faults { ⟦<Written<BufWriter<W>> as Sink>⟧.faults out.new ≡
        ⟦<Written<BufWriter<W>> as Sink>⟧.faults out.old + (if result == 4 then 1 else 0) }
    ensures answers { Answers (λ command image ending. EndsBy (λ done. OnBytes
        (⟦<Written<BufWriter<W>> as Sink>⟧.taken out.old) (⟦<Written<BufWriter<W>> as Sink>⟧.taken out.new)
        (λ old new. AnswersCommand command (store_of_image image.items) old new done)) ending
        × IsFlushed (writer_buffer (writer_of out.new)) ending)
        (out.new ≡ out.old) line.now input.now (E.received err.old) (E.received err.new) result }
{
    let command = match line {
        Ok(command) => command,
        Err(fault) => return report(Err(Failure::from(*fault)), err),
    };
    match input {
        Ok(image) => {
            let ending = execute_image(alloc, command, image, out);
            report(flush(ending, out), err)
        }
        Err(fault) => say_unread(*fault, input_name(command.image()), err),
    }
}
