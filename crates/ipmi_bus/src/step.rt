//! Where a step of a cursor begins, and what it returns.
ghost use Rattle.std.specs.Prelude.{◌≡◌, ◌≤◌, length};
ghost use Rattle.ipmi_bus.specs.Shelf.{id_in};

use crate::code::Code;
use byteorder::{ByteOrder, LittleEndian};
use thiserror::Error;

/// The position of a cursor.
#[derive(Clone, Copy, Debug, PartialEq, Eq)]
pub enum Place {
    /// Before the shelf's first record.
    First,
    /// Before the record with this id.
    Id(u16),
    /// After the last record.
    End,
}

/// A whole record, borrowed from the cursor that read it.
#[derive(Clone, Copy, Debug)]
pub struct Record<'a> {
    /// The id with which the record was requested. For a shelf's first record, the id in its bytes.
    pub id: u16,
    /// The id of the next record, FFFFh after the last one.
    pub next: u16,
    /// All bytes of the record, including its header.
    pub bytes: &'a [u8],
}

/// The record id in the first two bytes of a sensor data record or an event log entry.
pub fn record_id(bytes: &[u8]) -> u16
    requires { 2 ≤ length bytes.now }
    ensures { result ≡ id_in bytes.now }
{
    LittleEndian::read_u16(bytes)
}

/// Why a step returned no record. Each variant names the id to be requested: 0000h for the first record.
#[derive(Clone, Copy, Debug, PartialEq, Eq, Error)]
pub enum Ended {
    /// The next id is 0000h, or the id of a record that was already returned.
    #[error("cycle at {0:04X}h")]
    Cycle(u16),
    /// No record has this id.
    #[error("record {0:04X}h not present")]
    Missing(u16),
    /// The controller refused with this code.
    #[error("record {0:04X}h refused with code {code:02X}h", code = .1.0)]
    Refused(u16, Code),
    /// There were more troubles than the tries allow.
    #[error("gave up at {0:04X}h")]
    GaveUp(u16),
    /// The controller returned no byte, or refused even a request for one byte as too long.
    #[error("stalled at {0:04X}h")]
    Stalled(u16),
    /// The header of a sensor data record says that the record is longer than 256 bytes.
    #[error("malformed record {0:04X}h")]
    Malformed(u16),
}
