//! The fields common to the records of sensors (IPMI v2.0, sections 43.1 to 43.3). Bytes are counted from 0.
ghost use Rattle.std.specs.Prelude.{◌≡◌, ◌≤◌, length};
ghost use Rattle.ipmi_records.specs.Prelude.{sensor_by, units_in};

use crate::entity::Entity;
use ipmi_text::Units;

/// The offset of the sensor's owner.
const OWNER: usize = 5;

/// The offset of the owner's LUN, in bits 1:0.
const OWNER_LUN: usize = 6;

/// The two bits of a LUN.
const LUN_BITS: u8 = 0x03;

/// The offset of the sensor number.
const NUMBER: usize = 7;

/// The offset of the entity id.
const ENTITY_ID: usize = 8;

/// The offset of the entity instance.
const ENTITY_INSTANCE: usize = 9;

/// The offset of sensor units 1 in a full and a compact record.
pub(crate) const UNITS_1: usize = 20;

/// The offset of the base unit.
const BASE_UNIT: usize = 21;

/// The offset of the modifier unit.
const MODIFIER_UNIT: usize = 22;

/// A sensor, as described by each of the three kinds of sensor records.
#[derive(Clone, Copy, Debug, PartialEq, Eq)]
pub struct Sensor {
    /// The owner: the address of a controller (20h for the one that holds the record), or a software id if bit 0 is
    /// set.
    pub owner: u8,
    /// The LUN at the owner, 2 bits.
    pub lun: u8,
    /// The number of the sensor at that LUN.
    pub number: u8,
    /// The monitored entity.
    pub entity: Entity,
    /// The sensor type (table 42-3).
    pub sensor_type: u8,
    /// The event/reading type (section 42.1), 01h for a sensor with thresholds.
    pub event_type: u8,
}

/// The sensor that a record describes. The caller passes the two types, as their offsets depend on the kind of
/// record.
pub(crate) fn sensor_by(sensor_type: u8, event_type: u8, bytes: &[u8]) -> Sensor
    requires { 10 ≤ length bytes.now }
    ensures { result ≡ sensor_by sensor_type event_type bytes.now }
{
    Sensor {
        owner: bytes[OWNER],
        lun: bytes[OWNER_LUN] & LUN_BITS,
        number: bytes[NUMBER],
        entity: Entity::new(bytes[ENTITY_ID], bytes[ENTITY_INSTANCE]),
        sensor_type,
        event_type,
    }
}

/// The units of a full or a compact record.
pub(crate) fn units_in(bytes: &[u8]) -> Units
    requires { 23 ≤ length bytes.now }
    ensures { result ≡ units_in bytes.now }
{
    Units {
        units1: bytes[UNITS_1],
        base: bytes[BASE_UNIT],
        modifier: bytes[MODIFIER_UNIT],
    }
}
