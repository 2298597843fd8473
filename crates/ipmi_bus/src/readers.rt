//! Reads single values: sensor readings and repository infos.
ghost use Rattle.std.specs.Prelude.{◌≡◌, ◌+◌, ◌≤◌};
ghost use Rattle.ipmi_bus.specs.Prelude.{AsksAtMost, IsHonest, info_of, reading_of, class_of, EndsUnder, ReadsValue, ValueFailureIs, ValueSays};

use crate::calls::{Failure, after_failure};
use crate::code::Code;
use crate::controller::{Controller, Shelf};
use crate::step::Ended;
use ipmi_text::Reading;

/// How to proceed after a failed request for a value.
#[derive(Clone, Copy)]
enum ValueFailure {
    /// Repeat the request.
    Again,
    /// Stop: there is no such value.
    Absent,
}

/// How to proceed after a failed request for a value. `troubles` is the number of earlier troubles.
fn after_value_failure(code: Code, id: u16, troubles: u16, tries: u8) -> Result<ValueFailure, Ended>
    ensures { ValueFailureIs (class_of code.0) code id troubles tries result }
{
    match after_failure(code, troubles, tries) {
        Failure::Again | Failure::Anew => Ok(ValueFailure::Again),
        Failure::Absent => Ok(ValueFailure::Absent),
        Failure::GiveUp => Err(Ended::GaveUp(id)),
        Failure::Smaller | Failure::Refuse => Err(Ended::Refused(id, code)),
    }
}

/// The reading of the sensor with this number at this LUN (IPMI v2.0, section 35.14), or None if the controller has
/// none. The request is repeated after a trouble, at most `tries` times. The caller chooses `id`, which an `Ended`
/// names; it is not sent to the controller.
pub fn read_reading<C: Controller>(
    ctl: &mut C,
    id: u16,
    lun: u8,
    number: u8,
    tries: u8,
) -> Result<Option<Reading>, Ended>
    ensures calls { (C.seen ctl.new).calls ≤ (C.seen ctl.old).calls + (tries + 1) }
    ensures asked { AsksAtMost 0 (C.seen ctl.old) (C.seen ctl.new) }
    ensures ends { EndsUnder id result }
    ensures says { ValueSays result (C.seen ctl.new) }
    ensures honest { IsHonest (C.seen ctl.old) → ReadsValue (reading_of lun number) tries
        (C.seen ctl.old) (C.seen ctl.new) result }
{
    let mut troubles = 0;
    'asking: loop {
        match ctl.reading(lun, number) {
            Ok(reading) => return Ok(Some(reading)),
            Err(code) => match after_value_failure(code, id, troubles, tries)? {
                ValueFailure::Again => troubles += 1,
                ValueFailure::Absent => return Ok(None),
            },
        }
    }
}

/// The 14 bytes of the shelf's info (IPMI v2.0, sections 33.9 and 31.2), or None if there is none. The request is
/// repeated after a trouble, at most `tries` times. An `Ended` names 0000h.
pub fn read_info<C: Controller>(
    ctl: &mut C,
    shelf: Shelf,
    tries: u8,
) -> Result<Option<[u8; 14]>, Ended>
    ensures calls { (C.seen ctl.new).calls ≤ (C.seen ctl.old).calls + (tries + 1) }
    ensures asked { AsksAtMost 0 (C.seen ctl.old) (C.seen ctl.new) }
    ensures ends { EndsUnder 0 result }
    ensures says { ValueSays result (C.seen ctl.new) }
    ensures honest { IsHonest (C.seen ctl.old) → ReadsValue (info_of shelf) tries (C.seen ctl.old)
        (C.seen ctl.new) result }
{
    let mut troubles = 0;
    'asking: loop {
        match ctl.info(shelf) {
            Ok(info) => return Ok(Some(info)),
            Err(code) => match after_value_failure(code, 0, troubles, tries)? {
                ValueFailure::Again => troubles += 1,
                ValueFailure::Absent => return Ok(None),
            },
        }
    }
}
