//! The names of entities.
ghost use Rattle.std.specs.Prelude.{◌≡◌, option_map};
ghost use Rattle.ipmi_events.specs.Entities.{entity_name, entity_words};

use crate::table::{RESERVED, words_at};
use ipmi_records::Entity;
use ipmi_text::HexByte;
use std::fmt;

/// The names, starting at entity id 00h, some of them shortened. Ids 40h to 42h mean the same as 37h, 03h and 07h.
/// The standard names no higher ids (IPMI v2.0, table 43-13).
const ENTITIES: [&str; 67] = [
    "unspecified",
    "other",
    "unknown",
    "processor",
    "disk or disk bay",
    "peripheral bay",
    "system management module",
    "system board",
    "memory module",
    "processor module",
    "power supply",
    "add-in card",
    "front panel board",
    "back panel board",
    "power system board",
    "drive backplane",
    "system internal expansion board",
    "other system board",
    "processor board",
    "power unit",
    "power module",
    "power management / power distribution board",
    "chassis back panel board",
    "system chassis",
    "sub-chassis",
    "other chassis board",
    "disk drive bay",
    "peripheral bay",
    "device bay",
    "fan",
    "cooling unit",
    "cable",
    "memory device",
    "system management software",
    "system firmware",
    "operating system",
    "system bus",
    "group",
    "remote management device",
    "external environment",
    "battery",
    "processing blade",
    "connectivity switch",
    "processor/memory module",
    "I/O module",
    "processor/I/O module",
    "management controller firmware",
    "IPMI channel",
    "PCI bus",
    "PCI Express bus",
    "SCSI bus",
    "SATA/SAS bus",
    "processor/front-side bus",
    "real time clock",
    RESERVED,
    "air inlet",
    RESERVED,
    RESERVED,
    RESERVED,
    RESERVED,
    RESERVED,
    RESERVED,
    RESERVED,
    RESERVED,
    "air inlet",
    "processor",
    "system board",
];

/// The name of an entity, if the standard has one.
fn entity_name(id: u8) -> Option<&'static str>
    ensures { option_map (λ s. s.now) result ≡ entity_name id }
{
    words_at(&ENTITIES, id)
}

/// An entity id, printed as its name (IPMI v2.0, table 43-13), or as `entity 0xNN` if it has none.
#[derive(Clone, Copy, Debug, PartialEq, Eq)]
pub struct EntityWords(pub u8);

impl fmt::Display for EntityWords {
    ghost use Rattle.std.specs.Prelude.{Some};
    ghost use Rattle.ipmi_events.specs.Entities.{entity_words};

    ghost output = { λ entity. Some (entity_words entity.0) };

    fn fmt<W: fmt::Write>(&self, f: &mut fmt::Formatter<W>) -> fmt::Result {
        match entity_name(self.0) {
            Some(name) => f.write_str(name),
            None => {
                let id = HexByte(self.0);
                write!(f, "entity 0x{id}")
            }
        }
    }
}

/// An entity, printed as its name and its instance: `processor 1`.
#[derive(Clone, Copy)]
pub(crate) struct EntityInWords(pub(crate) Entity);

impl fmt::Display for EntityInWords {
    ghost use Rattle.std.specs.Prelude.{Some};
    ghost use Rattle.ipmi_events.specs.Entities.{entity_in_words};

    ghost output = { λ entity. Some (entity_in_words entity.0) };

    fn fmt<W: fmt::Write>(&self, f: &mut fmt::Formatter<W>) -> fmt::Result {
        let name = EntityWords(self.0.id);
        let instance = self.0.instance;
        write!(f, "{name} {instance}")
    }
}
