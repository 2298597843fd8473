//! Whether the sensor data records of an image are still those of a machine.
ghost use Rattle.std.specs.Prelude.{List, Option, Result, ◌≡◌, ◌+◌, ◌≤◌, ℕ};
ghost use Rattle.ipmi_bus.specs.Readers.{ReadsValue, ValueSays};
ghost use Rattle.ipmi_bus.specs.Seen.{AsksAtMost};
ghost use Rattle.ipmi_bus.specs.declared.step.Ended.{Ended};
ghost use Rattle.ipmi_image.specs.Below.{info_of, IsHonest, Sdr};
ghost use Rattle.ipmi_image.specs.Prelude.{are_current, same_records};

use crate::image::Image;
use ipmi_bus::{Controller, INFO_LEN, Shelf, read_info};

/// Whether both infos have the same number of records, and the same times of the last addition and the last erasure.
fn same_records(old: &[u8; INFO_LEN], now: &[u8; INFO_LEN]) -> bool
    ensures { result ≡ same_records old.now now.now }
{
    // the count is in bytes 1 and 2, both times in bytes 5 to 12
    old[1..3] == now[1..3] && old[5..13] == now[5..13]
}

/// Whether the sensor data records of the image are those of the machine, as far as the infos of both tell (IPMI v2.0, section
/// 33.9).
pub(crate) fn are_current<C: Controller>(image: &Image, machine: &mut C, tries: u8) -> bool
    ensures calls { (C.seen machine.new).calls ≤ (C.seen machine.old).calls + (tries + 1) }
    ensures asked { AsksAtMost 0 (C.seen machine.old) (C.seen machine.new) }
    ensures reads { (read : Result (Option (List ℕ)) Ended) × ValueSays read (C.seen machine.new)
        × (IsHonest (C.seen machine.old) → ReadsValue (info_of Sdr) tries (C.seen machine.old) (C.seen machine.new) read)
        × (result ≡ are_current (info_of Sdr image.now) read) }
{
    let read = read_info(machine, Shelf::Sdr, tries);
    match (image.info(Shelf::Sdr), read) {
        (Some(old), Ok(Some(now))) => same_records(&old, &now),
        _ => false,
    }
}
