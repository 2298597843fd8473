//! How runs over one input are printed, and what is said of one that did not finish.
ghost use Rattle.std.specs.Prelude.{◌≡◌, [], Some};
ghost use Rattle.ipmi_output.specs.Received.{ReceivesText};
ghost use Rattle.serdimko.specs.RunError.{said_of_error, Tells};
ghost use Rattle.serdimko.specs.Images.{lacking};
ghost use Rattle.ipmi_program.specs.Wording.{wording_of};
ghost use Rattle.serdimko.specs.Settings.{is_headed, texts_of};

use crate::outcome::Outcome;
use crate::run_error::RunError;
use ipmi_command_line::{Form, Format, Word};
use ipmi_commands::RequestLimits;
use ipmi_image::Lack;
use ipmi_json::Label;
use ipmi_output::{MessageSink, write_message};
use ipmi_program::{WithLacks, Wording};

/// What holds for all inputs of a request.
#[derive(Drop)]
pub(crate) struct Settings {
    /// What may be taken of a controller.
    pub(crate) limits: RequestLimits,
    /// The form of the output.
    pub(crate) format: Format,
    /// Whether a printed fault, or a missing device, is an error.
    pub(crate) strict: bool,
}

impl Settings {
    /// Whether the name of the input is printed before its texts: of one of several.
    pub(crate) fn is_headed(&self, is_only_input: bool) -> bool
        ensures { result ≡ is_headed self.now.format is_only_input }
    {
        match &self.format {
            Format::Labelled(..) => false,
            Format::Plain | Format::Descriptive => !is_only_input,
        }
    }

    /// Whether rows are printed.
    pub(crate) fn is_csv(&self) -> bool {
        matches!(self.format, Format::Labelled(Form::Csv, ..))
    }

    /// The labels of objects or rows, each `KEY=VALUE`.
    pub(crate) fn labels(&self) -> &[Word]
        ensures { result.now ≡ texts_of self.now.format }
    {
        match &self.format {
            Format::Labelled(_, _, labels) => labels.as_slice(),
            Format::Plain | Format::Descriptive => &[],
        }
    }

    /// How runs over this input are printed and reported; objects and rows have these labels.
    pub(crate) fn report<'a>(
        &self,
        labels: &'a [Label<'a>],
        name: &'a str,
        is_only_input: bool,
    ) -> Report<'a, 'a>
        ensures wording { result.format.format ≡ wording_of self.now.format labels.entry }
        ensures strict { result.strict ≡ self.now.strict }
        ensures name { result.name.now ≡ name.entry.now }
        ensures input { result.is_only_input ≡ is_only_input }
        ensures nothing_lacks { result.format.lacks.now ≡ [] }
    {
        Report {
            format: WithLacks {
                format: Wording::of(&self.format, labels),
                lacks: &[],
            },
            strict: self.strict,
            name,
            is_only_input,
        }
    }
}

/// How runs over one input are printed and reported.
#[derive(Clone, Copy)]
pub(crate) struct Report<'a, 'l> {
    /// The form of the output, with what an image lacks.
    pub(crate) format: WithLacks<'l, Wording<'a>>,
    /// Whether a printed fault, or a missing device, is an error.
    pub(crate) strict: bool,
    /// The name of the input in messages.
    pub(crate) name: &'a str,
    /// Whether it is the only input.
    pub(crate) is_only_input: bool,
}

impl<'a> Report<'a, '_> {
    /// The same of an image that lacks these.
    pub(crate) fn lacking<'l>(&self, lacks: &'l [Lack]) -> Report<'a, 'l>
        ensures { result ≡ lacking lacks.entry self.now }
    {
        Report {
            format: WithLacks {
                format: self.format.format,
                lacks,
            },
            strict: self.strict,
            name: self.name,
            is_only_input: self.is_only_input,
        }
    }

    /// Writes the message of the error, unless the output was closed.
    #[tactic(auto, using(crate::proofs::RunErrorLemmas::said_unless_closed))]
    fn tell_one<E: MessageSink>(&self, error: &RunError<'_>, err: &mut E)
        ensures { ReceivesText (E.received err.old) (E.received err.new)
            (said_of_error self.now.name.now self.now.is_only_input (Some error.now)) }
    {
        match error {
            RunError::Closed => {}
            _ => {
                // there is nowhere left to report that this failed
                let _ = write_message(err, &error.parts(self.name, self.is_only_input));
            }
        }
    }

    /// Writes the message of the error, if there is one.
    pub(crate) fn tell<E: MessageSink>(&self, error: &Option<RunError<'_>>, err: &mut E) -> Outcome
        ensures { Tells self.now.name.now self.now.is_only_input error.now (E.received err.old) (E.received err.new) result }
    {
        if let Some(error) = error {
            self.tell_one(error, err);
        }
        Outcome::of(error)
    }
}
