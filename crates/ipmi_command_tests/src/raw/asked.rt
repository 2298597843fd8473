//! The request of a message.
ghost use Rattle.std.specs.Prelude.{◌≡◌, IfSome};
ghost use Rattle.ipmi_raw.specs.Request.{IsRequest};
ghost use Rattle.ipmi_command_tests.specs.Asked.{asked_by, of_eight, of_six, of_three, of_two, part_of};

use ipmi_bus::{SEL_ENTRY_LEN, Shelf};
use ipmi_raw::{InventoryPart, RecordPart, Request};

/// The network function of requests to applications.
const APPLICATION: u8 = 0x06;

/// The network function of requests to storage.
const STORAGE: u8 = 0x0A;

/// The network function of requests to sensors.
const SENSOR: u8 = 0x04;

/// A request without data.
fn of_two(function: u8, command: u8) -> Option<Request>
    ensures is { result ≡ of_two function command }
    ensures sound { IfSome result (λ asked. IsRequest asked) }
{
    if function == STORAGE && command == 0x20 {
        Some(Request::Info(Shelf::Sdr))
    } else if function == STORAGE && command == 0x22 {
        Some(Request::Reserve(Shelf::Sdr))
    } else if function == STORAGE && command == 0x40 {
        Some(Request::Info(Shelf::Sel))
    } else if function == STORAGE && command == 0x42 {
        Some(Request::Reserve(Shelf::Sel))
    } else if function == APPLICATION && command == 0x01 {
        Some(Request::DeviceId)
    } else {
        None
    }
}

/// A request with one byte of data.
fn of_three(lun: u8, function: u8, command: u8, number: u8) -> Option<Request>
    ensures is { result ≡ of_three lun function command number }
    ensures sound { IfSome result (λ asked. IsRequest asked) }
{
    if function == STORAGE && command == 0x10 {
        Some(Request::InventorySize(number))
    } else if function == SENSOR && command == 0x2D {
        Some(Request::Reading(lun, number))
    } else {
        None
    }
}

/// A request with four bytes of data.
fn of_six(function: u8, command: u8, part: InventoryPart) -> Option<Request>
    ensures is { result ≡ of_six function command part.id part.offset part.count }
    ensures sound { IfSome result (λ asked. IsRequest asked) }
{
    if function == STORAGE && command == 0x11 && 0 < part.count && part.count < 255 {
        Some(Request::ReadInventory(part))
    } else {
        None
    }
}

/// A request for a part of a record.
fn part_of(part: RecordPart) -> Option<Request>
    ensures is { result ≡ part_of part.shelf part.reservation part.id part.offset part.count }
    ensures sound { IfSome result (λ asked. IsRequest asked) }
{
    if 0 < part.count && part.count < 255 {
        Some(Request::Get(part))
    } else {
        None
    }
}

/// A request with six bytes of data.
fn of_eight(
    function: u8,
    command: u8,
    reservation: u16,
    id: u16,
    offset: u8,
    count: u8,
) -> Option<Request>
    ensures is { result ≡ of_eight function command reservation id offset count }
    ensures sound { IfSome result (λ asked. IsRequest asked) }
{
    if function == STORAGE && command == 0x23 {
        return part_of(RecordPart {
            shelf: Shelf::Sdr,
            reservation,
            id,
            offset,
            count,
        });
    }
    if function == STORAGE && command == 0x43 {
        let count = if offset == 0 && count == 0xFF {
            SEL_ENTRY_LEN as u8
        } else {
            count
        };
        return part_of(RecordPart {
            shelf: Shelf::Sel,
            reservation,
            id,
            offset,
            count,
        });
    }
    None
}

/// The request of a message to a logical unit.
pub fn asked_by(lun: u8, message: &[u8]) -> Option<Request>
    ensures is { result ≡ asked_by lun message.now }
    ensures sound { IfSome result (λ asked. IsRequest asked) }
{
    match message {
        [function, command] => of_two(*function, *command),
        [function, command, number] => of_three(lun, *function, *command, *number),
        [function, command, id, low, high, count] => {
            let offset = u16::from_le_bytes([*low, *high]);
            of_six(
                *function,
                *command,
                InventoryPart {
                    id: *id,
                    offset,
                    count: *count,
                },
            )
        }
        [function, command, low, high, id_low, id_high, offset, count] => {
            let reservation = u16::from_le_bytes([*low, *high]);
            let id = u16::from_le_bytes([*id_low, *id_high]);
            of_eight(*function, *command, reservation, id, *offset, *count)
        }
        _ => None,
    }
}
