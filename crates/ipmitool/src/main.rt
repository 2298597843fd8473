//! Lists the contents of a saved image of a management controller with the commands `fru`, `sdr` and `sel` of
//! `ipmitool`.
#![tactic(auto)]

pub use ipmi_command_line::{Command, Count, Kind, Task, UsageFault, Word, Words, command_of};
pub use ipmi_commands::{Job, RequestLimits, Summary, execute, execute_pages, report, write_image};
pub use ipmi_output::{
    Failure, MessageSink, Sink, SinkFault, Written, write_failure, write_unreadable,
};
pub use ipmi_plain::{Plain, answer, execute_image, run, run_pages};
use ipmi_program::{answer_buffered, read_input, read_words};
use std::io::{self, BufWriter};
use std::process::ExitCode;

fn main(rt: HostRuntime) -> ExitCode {
    ExitCode::from(program(&rt))
}

/// Reads the command line and, if that is valid, the image, and runs the command with buffered standard output.
/// Returns the exit status.
fn program(rt: &HostRuntime) -> u8 {
    let mut err = Written::new(rt.stderr());
    let Ok(buffer) = BufWriter::new(rt.alloc(), io::writer(rt)) else {
        return report(Err(Failure::OutOfMemory), &mut err);
    };
    let mut out = Written::new(buffer);
    let line = read_command(rt);
    let input = match &line {
        Ok(command) => read_input(rt, command.image()),
        Err(_) => Ok(Vec::new(rt.alloc())),
    };
    let status = answer_buffered(rt.alloc(), &line, &input, &mut out, &mut err);
    // bytes left by a failed flush are not written again
    let _ = out.into_inner().into_parts();
    status
}

/// Parses the program's command line.
fn read_command(rt: &HostRuntime) -> Result<Command, UsageFault> {
    command_of(rt.alloc(), &read_words(rt)?)
}
