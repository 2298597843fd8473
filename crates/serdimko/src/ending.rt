//! The end of a run: its output is flushed, and the line at its end follows, as the object `end` of JSON.
ghost use Rattle.std.specs.Prelude.{◌≡◌, ◌+◌, ◌-◌, ◌<◌, ◌++◌, [], IfOk, OnErr, OnOk, length, option_map, string_bytes, take, true};
ghost use Rattle.std.specs.Str.Lossy.{utf8_lossy};
ghost use Rattle.ipmi_commands.specs.Printed.{faults_of, pieces_of};
ghost use Rattle.ipmi_output.specs.Failure.{write_faults};
ghost use Rattle.ipmi_output.specs.Sink.{TakesPart};
ghost use Rattle.ipmi_output.specs.Writer.{flush_faults};
ghost use Rattle.serdimko.specs.Out.{out_of};
ghost use Rattle.serdimko.specs.Printing.{EndsIn, EndsRun, is_faulty, IsEndLine, message_of, PrintsEnd, shown, WritesLine};
ghost use Rattle.serdimko.specs.RunError.{error_text, faults_of_error, is_output_open};

use crate::closable::{Output, is_closed};
use crate::outcome::Outcome;
use crate::reason::reason_of;
use crate::report::Report;
use crate::run_error::RunError;
use ipmi_commands::{Framed, Summary};
use ipmi_output::{Failure, Sink, SinkFault, write_all, write_message};
use ipmi_program::flush;
use std::alloc::{AllocError, Global};
use std::io::Write;

/// A line without its line feed.
fn without_line_feed(line: &[u8]) -> &[u8]
    requires { 0 < length line.now }
    ensures { result.now ≡ take (length line.now - 1) line.now }
{
    &line[..line.len() - 1]
}

/// The text of an error, as in its message.
fn text_of(
    alloc: Global,
    error: &RunError<'_>,
    report: &Report<'_, '_>,
) -> Result<String, AllocError>
    ensures { IfOk result (λ text. string_bytes text ≡
        utf8_lossy (error_text report.now.name.now report.now.is_only_input error.now)) }
{
    let mut line = Vec::new(alloc);
    // the only failure is out of memory
    write_message(&mut line, &error.parts(report.name, report.is_only_input)).or(Err(AllocError))?;
    String::from_utf8_lossy(alloc, without_line_feed(line.as_slice()))
}

/// The message of an error, if there is one.
pub(crate) fn message_of(
    alloc: Global,
    error: &Option<RunError<'_>>,
    report: &Report<'_, '_>,
) -> Result<Option<String>, AllocError>
    ensures { IfOk result (λ message.
        option_map (λ text. string_bytes text) message ≡ message_of report.now error.now) }
{
    match error {
        Some(error) => Ok(Some(text_of(alloc, error, report)?)),
        None => Ok(None),
    }
}

/// The line at the end of a run that printed so many texts.
fn line_at_end(
    alloc: Global,
    count: u64,
    error: &Option<RunError<'_>>,
    report: &Report<'_, '_>,
) -> Result<Vec<u8>, AllocError>
    ensures { IfOk result (λ line. IsEndLine report.now count error.now line.items) }
{
    let message = message_of(alloc, error, report)?;
    let (status, reason) = (Outcome::of(error).status, reason_of(error));
    let form = &report.format.format;
    form.end(alloc, status, reason, message.as_deref(), count)
}

/// Writes the text, and flushes it.
pub(crate) fn write_flushed<W: Write + Drop>(
    out: &mut Output<W>,
    text: &[u8],
) -> Result<(), SinkFault>
    ensures ok { OnOk result (((out_of out.new).taken ≡ (out_of out.old).taken ++ text.now) × ((out_of out.new).held ≡ [])) }
    ensures err { OnErr result (TakesPart (out_of out.old).taken (out_of out.new).taken text.now) }
    ensures faults { (out_of out.new).faults ≡ (out_of out.old).faults + flush_faults result }
{
    write_all(out, text)?;
    out.flush()
}

/// Writes a text after which a run ends with this error or without one, and flushes it. Returns the error, or that of the output.
pub(crate) fn write_last<'a, W: Write + Drop>(
    text: &[u8],
    error: Option<RunError<'a>>,
    out: &mut Output<W>,
) -> Option<RunError<'a>>
    ensures writes { WritesLine text.now (out_of out.old) (out_of out.new) error.entry result }
    ensures faults { is_output_open error.entry ≡ true → (out_of out.new).faults + faults_of_error error.entry ≡
        (out_of out.old).faults + faults_of_error result }
{
    match write_flushed(out, text) {
        Ok(()) => error,
        Err(fault) => RunError::of(Err(Failure::from(fault)), false, is_closed(out)),
    }
}

/// Prints the line at the end of a run with this error, or without one, unless the output accepts no more. Returns the error, or that
/// of this line.
fn print_end<'a, W: Write + Drop>(
    alloc: Global,
    count: u64,
    error: Option<RunError<'a>>,
    report: &Report<'_, '_>,
    out: &mut Output<W>,
) -> Option<RunError<'a>>
    ensures faults { (out_of out.new).faults + faults_of_error error.entry ≡
        (out_of out.old).faults + faults_of_error result }
    ensures ends { PrintsEnd (is_output_open error.entry) (IsEndLine report.now count error.entry)
        (out_of out.old) (out_of out.new) error.entry result }
{
    if !RunError::is_output_open(&error) {
        return error;
    }
    let Ok(line) = line_at_end(alloc, count, &error, report) else {
        return Some(RunError::Failed(Failure::OutOfMemory));
    };
    write_last(line.as_slice(), error, out)
}

/// Ends a run with this error, or without one, that printed so many pieces: prints the line at its end, if the form of output has one.
/// Returns the error, or that of this line.
pub(crate) fn end_with<'a, W: Write + Drop>(
    alloc: Global,
    report: &Report<'_, '_>,
    pieces: u64,
    error: Option<RunError<'a>>,
    out: &mut Output<W>,
) -> Option<RunError<'a>>
    ensures faults { (out_of out.new).faults + faults_of_error error.entry ≡
        (out_of out.old).faults + faults_of_error result }
    ensures ends { EndsIn report.now pieces (out_of out.old) (out_of out.new) error.entry result }
{
    if !report.format.format.has_end() {
        return error;
    }
    print_end(alloc, pieces, error, report, out)
}

/// Whether an item that was printed makes the run fail.
fn is_faulty(report: &Report<'_, '_>, summary: &Summary) -> bool
    ensures { result ≡ is_faulty report.now (faults_of summary.now) }
{
    report.strict && summary.faults() != 0
}

/// Ends a run with this ending that printed this: flushes the output, and prints the line at the end of objects. `said` is what the
/// tool of a live controller said if the connection was lost, unless memory for it ran out. Returns why the run did not finish, if it
/// did not.
pub(crate) fn end_run<'a, W: Write + Drop>(
    alloc: Global,
    report: &Report<'_, '_>,
    ending: Result<(), Failure<'a>>,
    said: Result<Option<String>, AllocError>,
    summary: &Summary,
    out: &mut Output<W>,
) -> Option<RunError<'a>>
    ensures faults { (out_of out.new).faults + write_faults ending.entry ≡
        (out_of out.old).faults + faults_of_error result }
    ensures ends { EndsRun report.now (pieces_of summary.now) (faults_of summary.now) said ending.entry
        (out_of out.old) (out_of out.new) result }
{
    let ending = flush(ending, out);
    let failed = RunError::of(ending, is_faulty(report, summary), is_closed(out));
    let error = RunError::of_connection(failed, said);
    end_with(alloc, report, summary.pieces(), error, out)
}
