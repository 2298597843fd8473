//! Why a run ended, in a word for programs: `reason` of the object `end`.
ghost use Rattle.std.specs.Prelude.{◌≡◌};
ghost use Rattle.serdimko.specs.Reason.{reason_of, reason_of_ended, reason_of_failure, reason_of_inventory};

use crate::run_error::RunError;
use ipmi_bus::{Ended, FruEnded};
use ipmi_image::ImageFault;
use ipmi_output::Failure;

/// Why a record, a reading or an info was not read.
fn reason_of_ended(ended: Ended) -> &'static str
    ensures { result.now ≡ reason_of_ended ended }
{
    match ended {
        Ended::Cycle(_) => "cycle",
        Ended::Missing(_) => "missing",
        Ended::Refused(..) => "refused",
        Ended::GaveUp(_) => "gave_up",
        Ended::Stalled(_) => "stalled",
        Ended::Malformed(_) => "malformed",
    }
}

/// Why an inventory was not read.
fn reason_of_inventory(ended: FruEnded) -> &'static str
    ensures { result.now ≡ reason_of_inventory ended }
{
    match ended {
        FruEnded::Memory => "memory",
        FruEnded::Refused(_) => "refused",
        FruEnded::GaveUp => "gave_up",
        FruEnded::Stalled => "stalled",
        FruEnded::Words => "words",
    }
}

/// Why a run failed.
fn reason_of_failure(failure: &Failure<'_>) -> &'static str
    ensures { result.now ≡ reason_of_failure failure.now }
{
    match failure {
        Failure::Usage => "usage",
        Failure::Image(ImageFault::Memory) | Failure::OutOfMemory => "memory",
        Failure::Image(_) => "image",
        Failure::Ended(ended) => reason_of_ended(*ended),
        Failure::Inventory(_, ended) => reason_of_inventory(*ended),
        Failure::NamesCycle(_) => "names_cycle",
        Failure::NamesMissing(_) => "names_missing",
        Failure::NoName(_) => "no_name",
        Failure::NoInfo => "no_info",
        Failure::WriteFault => "write",
    }
}

/// Why a run with this error, or without one, ended.
pub(crate) fn reason_of(error: &Option<RunError<'_>>) -> &'static str
    ensures { result.now ≡ reason_of error.now }
{
    match error {
        None => "finished",
        Some(RunError::Unread(_)) => "unread",
        Some(RunError::NoImage(..)) => "image",
        Some(RunError::Failed(failure)) => reason_of_failure(failure),
        Some(RunError::Lost(_)) => "no_reply",
        Some(RunError::Faulty) => "faulty",
        Some(RunError::Closed) => "write",
    }
}
