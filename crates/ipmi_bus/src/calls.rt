//! How many bytes a request asks for, and how to proceed after a failed request.
ghost use Rattle.std.specs.Prelude.{◌≡◌, ◌<◌, min};
ghost use Rattle.ipmi_bus.specs.Prelude.{class_of, smaller_part, FailureIs};

use crate::code::{Code, CodeClass};

/// The number of bytes to ask for, given the part size and the number of missing bytes.
pub(crate) fn asked_len(part: u8, missing: usize) -> usize
    ensures { result ≡ min part missing }
{
    usize::from(part).min(missing)
}

/// The part size after a request for `asked` bytes that was too long: half of `asked`. None if `asked` is 1.
pub(crate) fn smaller_part(asked: usize) -> Option<u8>
    requires { asked < 255 }
    ensures { result ≡ smaller_part asked }
{
    (asked > 1).then_some((asked / 2) as u8)
}

/// How to proceed after a failed request.
#[derive(Clone, Copy)]
pub(crate) enum Failure {
    /// After a trouble: repeat the request.
    Again,
    /// After a trouble that cancelled the reservation: what is read in parts under a reservation starts over.
    Anew,
    /// Ask for a smaller part.
    Smaller,
    /// Stop: the requested thing is not present.
    Absent,
    /// Give up: there were more troubles than the tries allow.
    GiveUp,
    /// Stop: the request was refused.
    Refuse,
}

/// How to proceed after a failed request. `troubles` is the number of earlier troubles.
pub(crate) fn after_failure(code: Code, troubles: u16, tries: u8) -> Failure
    ensures { FailureIs result (class_of code.0) troubles tries }
{
    let is_within = troubles < u16::from(tries);
    match code.class() {
        CodeClass::Cancelled if is_within => Failure::Anew,
        CodeClass::Busy if is_within => Failure::Again,
        CodeClass::Cancelled | CodeClass::Busy => Failure::GiveUp,
        CodeClass::SmallerPart => Failure::Smaller,
        CodeClass::NotPresent => Failure::Absent,
        CodeClass::Refusal => Failure::Refuse,
    }
}
