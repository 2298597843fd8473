//! The compact sensor record (IPMI v2.0, section 43.2). Bytes are counted from 0.
ghost use Rattle.std.specs.Prelude.{◌≡◌};
ghost use Rattle.ipmi_records.specs.Prelude.{id_field_at, id_field_of, sensor_in, sharing_at, units_in};

use crate::at_least::AtLeast;
use crate::id_string::IdString;
use crate::sensor::{Sensor, sensor_by, units_in};
use crate::sharing::{Sharing, sharing_at};
use ipmi_text::Units;

/// The type of a compact sensor record.
pub const COMPACT_TYPE: u8 = 0x02;

/// The offset of the sensor type.
const SENSOR_TYPE: usize = 12;

/// The offset of the event/reading type.
const EVENT_TYPE: usize = 13;

/// The offset of the two bytes that say how sensors share the record.
const SHARING: usize = 23;

/// The offset of the ID string's type/length byte.
const ID_STRING: usize = 31;

/// The minimum length: up to and including the ID string's type/length byte.
pub(crate) const COMPACT_LEAST_LEN: usize = ID_STRING + 1;

/// A compact sensor record.
pub type CompactSensor<'a> = AtLeast<'a, COMPACT_TYPE, COMPACT_LEAST_LEN>;

impl<'a> CompactSensor<'a> {
    /// The sensor, or the first of the sensors that share the record.
    pub fn sensor(&self) -> Sensor
        ensures { result ≡ sensor_in self.now }
    {
        sensor_by(self.bytes[SENSOR_TYPE], self.bytes[EVENT_TYPE], self.bytes)
    }

    /// The units of its readings.
    pub fn units(&self) -> Units
        ensures { result ≡ units_in self.now }
    {
        units_in(self.bytes)
    }

    /// How sensors share the record.
    pub fn sharing(&self) -> Sharing
        ensures { result ≡ sharing_at 24 self.now }
    {
        sharing_at(self.bytes, SHARING)
    }

    /// The ID string, at the record's end.
    pub fn id_string(&self) -> IdString<'a>
        ensures { id_field_of result ≡ id_field_at 32 self.now }
    {
        IdString::at(self.bytes, ID_STRING)
    }
}
