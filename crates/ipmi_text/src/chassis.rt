//! The names of chassis types.
ghost use Rattle.std.specs.Prelude.{◌≡◌, IfOk, string_bytes};
ghost use Rattle.ipmi_text.specs.Chassis.{chassis_text_of};

use crate::capacity::text_with_capacity;
use crate::names::{NameOrCode, name_from_one};
use std::alloc::{AllocError, Global};

/// The capacity for the text of any chassis type.
const CAPACITY: usize = 24;

/// The names, starting at type 01h (Platform Management FRU Information Storage Definition v1.0, section 10).
const CHASSIS_TYPES: [&str; 23] = [
    "Other",
    "Unknown",
    "Desktop",
    "Low Profile Desktop",
    "Pizza Box",
    "Mini Tower",
    "Tower",
    "Portable",
    "Laptop",
    "Notebook",
    "Hand Held",
    "Docking Station",
    "All in One",
    "Sub Notebook",
    "Space-saving",
    "Lunch Box",
    "Main Server Chassis",
    "Expansion Chassis",
    "SubChassis",
    "Bus Expansion Chassis",
    "Peripheral Chassis",
    "RAID Chassis",
    "Rack Mount Chassis",
];

/// The name of a chassis type (Platform Management FRU Information Storage Definition v1.0, section 10), or `type
/// 0xNN` if it has none.
pub fn chassis_text(alloc: Global, code: u8) -> Result<String, AllocError>
    ensures { IfOk result (λ text. string_bytes text ≡ chassis_text_of code) }
{
    let words = NameOrCode {
        name: name_from_one(CHASSIS_TYPES.as_slice(), code),
        kind: "type",
        code,
    };
    text_with_capacity(alloc, CAPACITY, words)
}
