//! The text of a shelf's info.
ghost use Rattle.std.specs.Prelude.{◌+◌, ◌≤◌, ◌∷◌, [], option_map};
ghost use Rattle.ipmi_commands.specs.Below.{AsksAtMost, info_of, IsHonest};
ghost use Rattle.ipmi_commands.specs.Prelude.{InfoSays, AtRecord, Finds, IsInfoText};

use crate::format::Format;
use crate::limits::Tries;
use crate::read_error::ReadError;
use ipmi_bus::{Controller, Shelf, read_info};
use std::alloc::Global;

/// The text of the shelf's info. None if the controller has none.
pub(crate) fn info_text<F: Format, C: Controller>(
    alloc: Global,
    ctl: &mut C,
    format: &F,
    shelf: Shelf,
    tries: Tries,
) -> Result<Option<Vec<u8>>, ReadError>
    ensures calls { (C.seen ctl.new).calls ≤ (C.seen ctl.old).calls + (tries.count + 1) }
    ensures asked { AsksAtMost 0 (C.seen ctl.old) (C.seen ctl.new) }
    ensures says { InfoSays result (C.seen ctl.new) }
    ensures honest { IsHonest (C.seen ctl.old) →
        Finds (λ store found. IsInfoText (F.texts format.now) shelf (info_of shelf store)
        (option_map (λ text. text.items) found)) (AtRecord 0 ∷ []) tries (C.seen ctl.old)
        (C.seen ctl.new) result }
{
    match read_info(ctl, shelf, tries.count)? {
        Some(info) => Ok(Some(format.info(alloc, shelf, &info)?)),
        None => Ok(None),
    }
}
