//! How runs ended: what the exit status is, and what may follow.
ghost use Rattle.std.specs.Prelude.{◌≡◌};
ghost use Rattle.serdimko.specs.RunError.{and, marked, outcome_of, outcome_of_verdict};

use crate::run_error::RunError;
use ipmi_commands::Mark;
use ipmi_output::Failure;

/// How one or several runs ended.
#[derive(Clone, Copy)]
pub(crate) struct Outcome {
    /// The highest exit status.
    pub(crate) status: u8,
    /// Whether more can be printed.
    pub(crate) is_output_open: bool,
    /// Whether nothing has a name that was given.
    pub(crate) lacks_name: bool,
    /// Whether the verdict of a check was printed.
    pub(crate) has_verdict: bool,
    /// Where the next run goes on in the event log, if all new entries were printed.
    pub(crate) mark: Option<Mark>,
}

impl Outcome {
    /// How a run with this error, or without one, ended.
    pub(crate) fn of(error: &Option<RunError<'_>>) -> Outcome
        ensures { result ≡ outcome_of error.now }
    {
        Outcome {
            status: match error {
                Some(error) => error.status(),
                None => 0,
            },
            is_output_open: RunError::is_output_open(error),
            lacks_name: matches!(error, Some(RunError::Failed(Failure::NoName(_)))),
            has_verdict: false,
            mark: None,
        }
    }

    /// How a check with this status ended, whose verdict was printed.
    pub(crate) fn of_verdict(status: u8) -> Outcome
        ensures { result ≡ outcome_of_verdict status }
    {
        Outcome {
            status,
            is_output_open: true,
            lacks_name: false,
            has_verdict: true,
            mark: None,
        }
    }

    /// The same of a run that left this mark, or none.
    pub(crate) fn marked(self, mark: Option<Mark>) -> Outcome
        ensures { result ≡ marked mark self }
    {
        Outcome {
            status: self.status,
            is_output_open: self.is_output_open,
            lacks_name: self.lacks_name,
            has_verdict: self.has_verdict,
            mark,
        }
    }

    /// How these runs and the next ones ended.
    pub(crate) fn and(self, next: Outcome) -> Outcome
        ensures { result ≡ and self next }
    {
        Outcome {
            status: self.status.max(next.status),
            is_output_open: self.is_output_open && next.is_output_open,
            lacks_name: self.lacks_name || next.lacks_name,
            has_verdict: self.has_verdict || next.has_verdict,
            mark: self.mark.or(next.mark),
        }
    }
}
