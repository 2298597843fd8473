//! The names of sensor types.
ghost use Rattle.std.specs.Prelude.{◌≡◌, IfOk, option_map, string_bytes};
ghost use Rattle.ipmi_text.specs.SensorTypes.{sensor_type_named, sensor_type_text_of};

use crate::capacity::text_with_capacity;
use crate::names::{NameOrCode, name_from_one, place_of};
use std::alloc::{AllocError, Global};
use std::fmt;

/// The capacity for the text of any sensor type.
const CAPACITY: usize = 32;

/// The names of sensor types, starting at type 01h, some of them shortened (IPMI v2.0, table 42-3).
pub const SENSOR_TYPES: [&str; 44] = [
    "Temperature",
    "Voltage",
    "Current",
    "Fan",
    "Physical Security",
    "Platform Security",
    "Processor",
    "Power Supply",
    "Power Unit",
    "Cooling Device",
    "Other Units-based Sensor",
    "Memory",
    "Drive Slot",
    "POST Memory Resize",
    "System Firmware Progress",
    "Event Logging Disabled",
    "Watchdog 1",
    "System Event",
    "Critical Interrupt",
    "Button",
    "Module",
    "Microcontroller",
    "Add-in Card",
    "Chassis",
    "Chip Set",
    "Other FRU",
    "Cable",
    "Terminator",
    "System Boot Initiated",
    "Boot Error",
    "OS Boot",
    "OS Stop",
    "Slot",
    "System ACPI Power State",
    "Watchdog 2",
    "Platform Alert",
    "Entity Presence",
    "Monitor ASIC",
    "LAN",
    "Management Subsystem Health",
    "Battery",
    "Session Audit",
    "Version Change",
    "FRU State",
];

/// A sensor type, printed as its name (IPMI v2.0, table 42-3), or as `sensor type 0xNN` if it has none.
#[derive(Clone, Copy, Debug, PartialEq, Eq)]
pub struct SensorType(pub u8);

impl SensorType {
    /// The type with this name (IPMI v2.0, table 42-3), in capital or small letters, if there is one.
    pub fn named(name: &str) -> Option<SensorType>
        ensures { option_map (λ kind. kind.0) result ≡ sensor_type_named name.now }
    {
        match place_of(&SENSOR_TYPES, name) {
            Some(place) => Some(SensorType(place as u8 + 1)),
            None => None,
        }
    }
}

impl fmt::Display for SensorType {
    ghost use Rattle.std.specs.Prelude.{Some};
    ghost use Rattle.ipmi_text.specs.SensorTypes.{sensor_type_text_of};

    ghost output = { λ kind. Some (sensor_type_text_of kind.0) };

    fn fmt<W: fmt::Write>(&self, f: &mut fmt::Formatter<W>) -> fmt::Result {
        let words = NameOrCode {
            name: name_from_one(SENSOR_TYPES.as_slice(), self.0),
            kind: "sensor type",
            code: self.0,
        };
        words.fmt(f)
    }
}

/// The name of a sensor type (IPMI v2.0, table 42-3), or `sensor type 0xNN` if it has none.
pub fn sensor_type_text(alloc: Global, code: u8) -> Result<String, AllocError>
    ensures { IfOk result (λ text. string_bytes text ≡ sensor_type_text_of code) }
{
    text_with_capacity(alloc, CAPACITY, SensorType(code))
}
