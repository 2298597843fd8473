//! The block printed for repository and log info.
ghost use Rattle.std.specs.Prelude.{◌≡◌, ◌≤◌, IfOk, codes, if◌then◌else◌, string_bytes};
ghost use Rattle.byteorder.specs.Endian.{little_from};
ghost use Rattle.ipmi_records.specs.Below.{IsUtcTextOf};
ghost use Rattle.ipmi_records.specs.Prelude.{IsInfoBlock, byte_at, has_bit, info_in};

use crate::bits::has_bit;
use byteorder::{ByteOrder, LittleEndian};
use ipmi_text::{HexByte, UtcTime};
use std::alloc::{AllocError, Global};

/// The capacity for the text.
const CAPACITY: usize = 192;

/// The offset of the version of the commands, counted from 0.
const VERSION: usize = 0;

/// The offset of the number of records.
const RECORDS: usize = 1;

/// The offset of the free space.
const FREE_SPACE: usize = 3;

/// The offset of the time of the most recent addition.
const ADDITION: usize = 5;

/// The offset of the time of the most recent erase.
const ERASE: usize = 9;

/// The offset of the supported operations.
const SUPPORT: usize = 13;

/// The overflow bit of that byte: a record was lost because there was no space.
const OVERFLOW: u32 = 7;

/// The number in the two bytes at `place`.
fn number_at(bytes: &[u8; 14], place: usize) -> u16
    requires { place ≤ 12 }
    ensures { result ≡ little_from place 2 bytes.now }
{
    LittleEndian::read_u16(&bytes[place..])
}

/// The number in the four bytes at `place`.
fn long_number_at(bytes: &[u8; 14], place: usize) -> u32
    requires { place ≤ 10 }
    ensures { result ≡ little_from place 4 bytes.now }
{
    LittleEndian::read_u32(&bytes[place..])
}

/// The time in the four bytes at `place`.
fn time_at(bytes: &[u8; 14], place: usize) -> UtcTime
    requires { place ≤ 10 }
    ensures { IsUtcTextOf (little_from place 4 bytes.now) result }
{
    UtcTime::of(long_number_at(bytes, place))
}

/// `yes` if a record was lost because there was no space, otherwise `no`.
fn overflow_text(bytes: &[u8; 14]) -> &'static str
    ensures { result.now ≡ if has_bit 7 (byte_at 14 bytes.now) then codes "yes" else codes "no" }
{
    if has_bit(bytes[SUPPORT], OVERFLOW) {
        "yes"
    } else {
        "no"
    }
}

/// The info of a repository or a log (IPMI v2.0, sections 33.9 and 31.2).
#[derive(Clone, Copy, Debug, PartialEq, Eq)]
pub struct Info {
    /// The version of the commands: 51h is that of IPMI v1.5 and v2.0.
    pub version: u8,
    /// The number of records.
    pub record_count: u16,
    /// The free space in bytes.
    pub free_space: u16,
    /// The time stamp of the most recent addition, as `ipmi_text::UtcTime::of` reads it.
    pub last_addition: u32,
    /// The time stamp of the most recent erase.
    pub last_erase: u32,
    /// Whether a record was lost because there was no space.
    pub overflow: bool,
    /// The byte with the supported operations.
    pub support: u8,
}

impl Info {
    /// Reads the answer of Get SDR Repository Info or Get SEL Info after its completion code.
    pub fn read(bytes: &[u8; 14]) -> Info
        ensures { result ≡ info_in bytes.now }
    {
        Info {
            version: bytes[VERSION],
            record_count: number_at(bytes, RECORDS),
            free_space: number_at(bytes, FREE_SPACE),
            last_addition: long_number_at(bytes, ADDITION),
            last_erase: long_number_at(bytes, ERASE),
            overflow: has_bit(bytes[SUPPORT], OVERFLOW),
            support: bytes[SUPPORT],
        }
    }
}

/// The block of an info, seven lines. `bytes` are the answer of Get SDR Repository Info or Get SEL
/// Info (IPMI v2.0, sections 33.9 and 31.2) after its completion code.
pub fn info_block(alloc: Global, bytes: &[u8; 14]) -> Result<String, AllocError>
    ensures { IfOk result (λ text. IsInfoBlock bytes.now (string_bytes text)) }
{
    let version = HexByte(bytes[VERSION]);
    let records = number_at(bytes, RECORDS);
    let free = number_at(bytes, FREE_SPACE);
    let addition = time_at(bytes, ADDITION);
    let erase = time_at(bytes, ERASE);
    let overflow = overflow_text(bytes);
    let support = HexByte(bytes[SUPPORT]);
    let mut text = String::with_capacity(alloc, CAPACITY)?;
    write!(
        text,
        "Version: 0x{version}\nRecords: {records}\nFree Space: {free}\n\
         Last Addition: {addition}\nLast Erase: {erase}\nOverflow: {overflow}\nSupport: 0x{support}\n"
    )?;
    Ok(text)
}
