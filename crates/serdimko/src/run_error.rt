//! Why an image was not printed, or not completely: the message and the exit status.
ghost use Rattle.std.specs.Prelude.{◌≡◌, Some, true};
ghost use Rattle.ipmi_output.specs.Failure.{joined_parts, part_text};
ghost use Rattle.serdimko.specs.RunError.{is_recoverable, is_output_open, lost_error, named_text, no_image, error_of, error_text, refusal_or_lost, status_of_error, unread};

use ipmi_bus::{Ended, FruEnded};
use ipmi_image::{FaultCause, ImageFault};
use ipmi_output::Part::{self, Escaped, Number, Text};
use ipmi_output::{Failure, fault_line, fault_words};
use ipmi_program::{InputFault, cause_words};
use std::alloc::AllocError;

/// The exit status if an image can't be read.
const UNREADABLE: u8 = 3;

/// The exit status if something is missing.
const INCOMPLETE: u8 = 1;

/// The exit status if the connection to the controller was lost.
const LOST: u8 = 1;

/// The exit status if the output has faults, with `--strict`.
const FAULTY: u8 = 1;

/// The exit status if the output was closed: the status that shells report for a program ended by SIGPIPE, such as `cat`.
pub(crate) const CLOSED: u8 = 141;

/// Why an image was not printed, or not completely.
#[derive(Drop)]
pub(crate) enum RunError<'a> {
    /// It was not read.
    Unread(InputFault),
    /// It is not an image, and breaks this rule, if known.
    NoImage(ImageFault, Option<FaultCause>),
    /// The run did not finish.
    Failed(Failure<'a>),
    /// The connection to the controller was lost, with the last output of the tool.
    Lost(String),
    /// The output has faults.
    Faulty,
    /// The reader of the output has closed it.
    Closed,
}

impl<'a> RunError<'a> {
    /// The error of input that was not read.
    pub(crate) fn unread(fault: InputFault) -> RunError<'a>
        ensures { result ≡ unread fault }
    {
        match fault {
            InputFault::Memory => RunError::Failed(Failure::OutOfMemory),
            _ => RunError::Unread(fault),
        }
    }

    /// The error of input that is not an image, given the rule that it breaks, if known.
    pub(crate) fn no_image(fault: ImageFault, cause: Option<FaultCause>) -> RunError<'a>
        ensures { result ≡ no_image fault cause }
    {
        match fault {
            ImageFault::Memory => RunError::Failed(Failure::OutOfMemory),
            _ => RunError::NoImage(fault, cause),
        }
    }

    /// The error, if any, of a run with this ending: whether it printed faults that matter, and whether the output was closed.
    pub(crate) fn of(
        ending: Result<(), Failure<'a>>,
        is_faulty: bool,
        is_closed: bool,
    ) -> Option<RunError<'a>>
        ensures { result ≡ error_of ending.entry is_faulty is_closed }
    {
        match ending {
            Err(Failure::WriteFault) if is_closed => Some(RunError::Closed),
            Err(failure) => Some(RunError::Failed(failure)),
            Ok(()) if is_faulty => Some(RunError::Faulty),
            Ok(()) => None,
        }
    }

    /// The exit status.
    pub(crate) fn status(&self) -> u8
        ensures { result ≡ status_of_error (Some self.now) }
    {
        match self {
            RunError::Unread(_) | RunError::NoImage(_, _) => UNREADABLE,
            RunError::Failed(failure) => failure.status(),
            RunError::Lost(_) => LOST,
            RunError::Faulty => FAULTY,
            RunError::Closed => CLOSED,
        }
    }

    /// The error after a refusal, given the tool's last output if the connection was lost.
    fn refusal_or_lost(
        refusal: RunError<'a>,
        said: Result<Option<String>, AllocError>,
    ) -> RunError<'a>
        ensures { result ≡ refusal_or_lost said refusal.entry }
    {
        match said {
            Ok(None) => refusal,
            Ok(Some(said)) => RunError::Lost(said),
            Err(AllocError) => RunError::Failed(Failure::OutOfMemory),
        }
    }

    /// The error of a run over a controller, given the tool's last output if the connection was lost.
    pub(crate) fn of_connection(
        error: Option<RunError<'a>>,
        said: Result<Option<String>, AllocError>,
    ) -> Option<RunError<'a>>
        ensures { result ≡ lost_error said error.entry }
    {
        match error {
            Some(
                refusal @ RunError::Failed(
                    Failure::Ended(Ended::Refused(..))
                    | Failure::Inventory(_, FruEnded::Refused(_)),
                ),
            ) => Some(RunError::refusal_or_lost(refusal, said)),
            error => error,
        }
    }

    /// Whether the next command still runs over the same input after this error.
    pub(crate) fn is_recoverable(error: &Option<RunError<'_>>) -> bool
        ensures { result ≡ is_recoverable error.now }
    {
        match error {
            None | Some(RunError::Faulty) => true,
            Some(RunError::Failed(failure)) => failure.status() == INCOMPLETE,
            Some(_) => false,
        }
    }

    /// Whether more can be printed.
    pub(crate) fn is_output_open(error: &Option<RunError<'_>>) -> bool
        ensures { result ≡ is_output_open error.now }
    {
        !matches!(
            error,
            Some(RunError::Closed | RunError::Failed(Failure::WriteFault))
        )
    }

    /// The parts of its message. With several inputs each message names its input, otherwise only a message about the input
    /// itself does.
    pub(crate) fn parts(&'a self, name: &'a str, is_only_input: bool) -> [Part<'a>; 6]
        ensures { joined_parts result ≡ error_text name.entry.now is_only_input self.entry.now }
    {
        let none = Text("");
        let (input, colon) = (Escaped(name), Text(": "));
        match self {
            RunError::Unread(_) if name.is_empty() => {
                let text = Text("cannot read '': the file name is empty");
                [text, none, none, none, none, none]
            }
            RunError::Unread(fault) => {
                let words = Text(fault.words());
                [Text("cannot read "), input, colon, words, none, none]
            }
            RunError::NoImage(fault, cause) => image_parts(*fault, *cause, name),
            RunError::Lost(said) => {
                let said = Escaped(said.as_str());
                [Text("no reply from "), input, colon, said, none, none]
            }
            RunError::Closed => [none, none, none, none, none, none],
            RunError::Failed(failure) => failure_parts(failure, name, is_only_input),
            RunError::Faulty => {
                let text = Text("a fault or a missing device was printed (--strict)");
                run_parts(text, name, is_only_input)
            }
        }
    }
}

/// The parts of the message for input that is not an image.
fn image_parts<'a>(fault: ImageFault, cause: Option<FaultCause>, name: &'a str) -> [Part<'a>; 6]
    ensures { joined_parts result ≡ error_text name.entry.now true (RunError.NoImage fault cause) }
{
    let words = Text(fault_words(fault));
    let (input, colon) = (Escaped(name), Text(": "));
    let (none, why) = (Text(""), Text(cause_words(cause)));
    match fault_line(fault) {
        Some(line) => [input, Text(":"), Number(line), colon, words, why],
        None => [input, colon, words, why, none, none],
    }
}

/// The parts of the message for a failure. A write fault is about the output, not the input.
fn failure_parts<'a>(failure: &'a Failure<'a>, name: &'a str, is_only_input: bool) -> [Part<'a>; 6]
    ensures { joined_parts result ≡ error_text name.entry.now is_only_input (RunError.Failed failure.entry.now) }
{
    match failure {
        Failure::WriteFault => run_parts(Part::Failure(failure), name, true),
        _ => run_parts(Part::Failure(failure), name, is_only_input),
    }
}

/// The parts of a message about a run, not about its input.
pub(crate) fn run_parts<'a>(part: Part<'a>, name: &'a str, is_only_input: bool) -> [Part<'a>; 6]
    ensures { joined_parts result ≡ named_text is_only_input name.entry.now (part_text part.entry) }
{
    let none = Text("");
    if is_only_input {
        return [part, none, none, none, none, none];
    }
    [Escaped(name), Text(": "), part, none, none, none]
}
