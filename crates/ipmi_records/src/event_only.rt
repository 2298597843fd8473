//! The event-only record (IPMI v2.0, section 43.3). Bytes are counted from 0.
ghost use Rattle.std.specs.Prelude.{◌≡◌};
ghost use Rattle.ipmi_records.specs.Prelude.{event_only_sensor, id_field_at, id_field_of, sharing_at};

use crate::at_least::AtLeast;
use crate::id_string::IdString;
use crate::sensor::{Sensor, sensor_by};
use crate::sharing::{Sharing, sharing_at};

/// The type of an event-only record.
pub const EVENT_ONLY_TYPE: u8 = 0x03;

/// The offset of the sensor type.
const SENSOR_TYPE: usize = 10;

/// The offset of the event/reading type.
const EVENT_TYPE: usize = 11;

/// The offset of the two bytes that say how sensors share the record.
const SHARING: usize = 12;

/// The offset of the ID string's type/length byte.
const ID_STRING: usize = 16;

/// The minimum length: up to and including the ID string's type/length byte.
pub(crate) const EVENT_ONLY_LEAST_LEN: usize = ID_STRING + 1;

/// An event-only record, whose sensor has no reading.
pub type EventOnlySensor<'a> = AtLeast<'a, EVENT_ONLY_TYPE, EVENT_ONLY_LEAST_LEN>;

impl<'a> EventOnlySensor<'a> {
    /// The sensor, or the first of the sensors that share the record.
    pub fn sensor(&self) -> Sensor
        ensures { result ≡ event_only_sensor self.now }
    {
        sensor_by(self.bytes[SENSOR_TYPE], self.bytes[EVENT_TYPE], self.bytes)
    }

    /// How sensors share the record.
    pub fn sharing(&self) -> Sharing
        ensures { result ≡ sharing_at 13 self.now }
    {
        sharing_at(self.bytes, SHARING)
    }

    /// The ID string, at the record's end.
    pub fn id_string(&self) -> IdString<'a>
        ensures { id_field_of result ≡ id_field_at 17 self.now }
    {
        IdString::at(self.bytes, ID_STRING)
    }
}
