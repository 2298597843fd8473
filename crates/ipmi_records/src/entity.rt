//! The entity of a sensor or a device.
ghost use Rattle.std.specs.Prelude.{◌≡◌, Some};
ghost use Rattle.ipmi_records.specs.Prelude.{entity_in, entity_text};

use std::fmt;

/// Bits 6:0 of an entity's instance byte. Bit 7 is not part of the instance.
const INSTANCE_BITS: u8 = 0x7F;

/// An entity that a sensor or a device belongs to (IPMI v2.0, section 43.14), printed as `id.instance`.
#[derive(Clone, Copy, Debug, PartialEq, Eq)]
pub struct Entity {
    /// The entity id.
    pub id: u8,
    /// The entity's instance, 7 bits.
    pub instance: u8,
}

impl Entity {
    /// The entity with this id and this instance byte.
    pub(crate) fn new(id: u8, instance: u8) -> Entity
        ensures { result ≡ entity_in id instance }
    {
        Entity {
            id,
            instance: instance & INSTANCE_BITS,
        }
    }
}

impl fmt::Display for Entity {
    ghost output = { λ entity. Some (entity_text entity) };

    fn fmt<W: fmt::Write>(&self, f: &mut fmt::Formatter<W>) -> fmt::Result {
        let id = self.id;
        let instance = self.instance;
        write!(f, "{id}.{instance}")
    }
}
