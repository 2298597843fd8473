//! The device locators, and the fields that they have in common (IPMI v2.0, sections 43.7 to 43.9). Bytes are counted
//! from 0.
ghost use Rattle.std.specs.Prelude.{◌≡◌, ◌≤◌, length};
ghost use Rattle.ipmi_records.specs.Prelude.{id_field_at, id_field_of, locator_in};

use crate::at_least::AtLeast;
use crate::entity::Entity;
use crate::id_string::IdString;

/// The type of a generic device locator.
pub const GENERIC_TYPE: u8 = 0x10;

/// The type of a FRU device locator.
pub const FRU_TYPE: u8 = 0x11;

/// The type of a management controller device locator.
pub const CONTROLLER_TYPE: u8 = 0x12;

/// The offset of the address.
const ADDRESS: usize = 5;

/// The offset of the entity id.
const ENTITY_ID: usize = 12;

/// The offset of the entity instance.
const ENTITY_INSTANCE: usize = 13;

/// The offset of the ID string's type/length byte.
const ID_STRING: usize = 15;

/// The minimum length: up to and including the ID string's type/length byte.
pub(crate) const LOCATOR_LEAST_LEN: usize = ID_STRING + 1;

/// The device, as described by each of the three kinds of locators.
#[derive(Clone, Copy, Debug, PartialEq, Eq)]
pub struct Locator {
    /// For a management controller, its slave address. For another device, the slave address of the controller
    /// through which it is reached, or 0 if the device is directly on the bus.
    pub address: u8,
    /// The entity that the device belongs to.
    pub entity: Entity,
}

/// The device that a locator's bytes describe.
fn locator_in(bytes: &[u8]) -> Locator
    requires { 16 ≤ length bytes.now }
    ensures { result ≡ locator_in bytes.now }
{
    Locator {
        address: bytes[ADDRESS],
        entity: Entity::new(bytes[ENTITY_ID], bytes[ENTITY_INSTANCE]),
    }
}

impl<'a, const TYPE: u8> AtLeast<'a, TYPE, LOCATOR_LEAST_LEN> {
    /// The device or controller that the record describes.
    pub fn locator(&self) -> Locator
        ensures { result ≡ locator_in self.now }
    {
        locator_in(self.bytes)
    }

    /// The ID string, at the record's end (section 43.15).
    pub fn id_string(&self) -> IdString<'a>
        ensures { id_field_of result ≡ id_field_at 16 self.now }
    {
        IdString::at(self.bytes, ID_STRING)
    }
}

/// A generic device locator (section 43.7).
pub type GenericLocator<'a> = AtLeast<'a, GENERIC_TYPE, LOCATOR_LEAST_LEN>;

/// A FRU device locator (section 43.8).
pub type FruLocator<'a> = AtLeast<'a, FRU_TYPE, LOCATOR_LEAST_LEN>;

/// A management controller device locator (section 43.9).
pub type ManagementControllerLocator<'a> = AtLeast<'a, CONTROLLER_TYPE, LOCATOR_LEAST_LEN>;
