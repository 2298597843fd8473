//! Entries of the event log as views that borrow their bytes (IPMI v2.0, section 32).
ghost use Rattle.std.specs.Prelude.{◌≡◌, ◌≤◌, length};
ghost use Rattle.ipmi_records.specs.Prelude.{entry_bytes, entry_type, event_data, event_type, generator_id, is_deasserted, manufacturer_id, number_at, oem_data, data_after_type, revision, sel_view_of, sensor_number, sensor_type, time_stamp};

use crate::bits::has_bit;
use byteorder::{ByteOrder, LittleEndian};
use std::marker::Model;

/// The type of an event.
const EVENT: u8 = 0x02;

/// The first type of an OEM timestamped record.
const OEM_TIMESTAMPED: u8 = 0xC0;

/// The last type of an OEM timestamped record.
const LAST_OEM_TIMESTAMPED: u8 = 0xDF;

/// The first type of an OEM non-timestamped record.
const OEM_NON_TIMESTAMPED: u8 = 0xE0;

/// The lowest of all other types.
const OTHER: u8 = 0x00;

/// The offset of an entry's type, counted from 0.
const ENTRY_TYPE: usize = 2;

/// The offset of the bytes after the type.
const AFTER_TYPE: usize = 3;

/// The offset of the time stamp of an event and of an OEM timestamped record.
const TIME_STAMP: usize = 3;

/// The offset of an event's generator id.
const GENERATOR_ID: usize = 7;

/// The offset of the revision of the event message's format.
const REVISION: usize = 9;

/// The offset of the sensor type.
const SENSOR_TYPE: usize = 10;

/// The offset of the sensor number.
const SENSOR_NUMBER: usize = 11;

/// The offset of the byte with the event direction and the event/reading type.
const EVENT_TYPE: usize = 12;

/// The offset of the event data, which extends to the end of the entry.
const EVENT_DATA: usize = 13;

/// The offset of an OEM timestamped record's manufacturer id.
const MANUFACTURER_ID: usize = 7;

/// The offset of the OEM-defined data, which extends to the end of the entry.
const OEM_DATA: usize = 10;

/// The event direction bit of that byte: set for a deassertion.
const DEASSERTED: u32 = 7;

/// Bits 6:0 of that byte: the event/reading type.
const EVENT_TYPE_BITS: u8 = 0x7F;

/// The 16 bytes of an entry of the event log. `TYPE` is the first entry type of its kind.
#[derive(Debug, Drop)]
pub struct Entry<'a, const TYPE: u8> {
    bytes: &'a [u8],
}

impl<'a, const TYPE: u8> Model for Entry<'a, TYPE> {
    ghost use Rattle.std.specs.Prelude.{◌≡◌, List, ℕ, length};

    ghost Value = { List ℕ };

    ghost view = { λ v. v.bytes.now };

    ghost invariant = { λ v. length v.bytes.now ≡ 16 };
}

impl<'a, const TYPE: u8> Entry<'a, TYPE> {
    /// The entry with these 16 bytes.
    fn new(bytes: &'a [u8]) -> Entry<'a, TYPE>
        requires { length bytes.now ≡ 16 }
        ensures { result ≡ bytes.now }
    {
        Entry { bytes }
    }

    /// The bytes of the entry.
    pub fn bytes(&self) -> &'a [u8]
        ensures value { result.now ≡ self.now }
        ensures len { length result.now ≡ 16 }
    {
        self.bytes
    }
}

/// The time stamp of an entry, in seconds.
fn time_stamp(bytes: &[u8]) -> u32
    requires { 7 ≤ length bytes.now }
    ensures { result ≡ time_stamp bytes.now }
{
    LittleEndian::read_u32(&bytes[TIME_STAMP..])
}

/// The bytes after an entry's type.
fn data_after_type(bytes: &[u8]) -> &[u8]
    requires { length bytes.now ≡ 16 }
    ensures { result.now ≡ data_after_type bytes.now }
{
    &bytes[AFTER_TYPE..16]
}

/// An event (section 32.1).
pub type EventEntry<'a> = Entry<'a, EVENT>;

impl<'a> EventEntry<'a> {
    /// The time stamp in seconds, as `ipmi_text::UtcTime::of` reads it.
    pub fn time_stamp(&self) -> u32
        ensures { result ≡ time_stamp self.now }
    {
        time_stamp(self.bytes)
    }

    /// What generated the event: an address or a software id, with channel and LUN.
    pub fn generator_id(&self) -> u16
        ensures { result ≡ generator_id self.now }
    {
        LittleEndian::read_u16(&self.bytes[GENERATOR_ID..])
    }

    /// The revision of the event message's format.
    pub fn revision(&self) -> u8
        ensures { result ≡ revision self.now }
    {
        self.bytes[REVISION]
    }

    /// The sensor type (table 42-3).
    pub fn sensor_type(&self) -> u8
        ensures { result ≡ sensor_type self.now }
    {
        self.bytes[SENSOR_TYPE]
    }

    /// The number of the sensor.
    pub fn sensor_number(&self) -> u8
        ensures { result ≡ sensor_number self.now }
    {
        self.bytes[SENSOR_NUMBER]
    }

    /// Whether this is a deassertion: the reported condition ended, and did not begin.
    pub fn is_deasserted(&self) -> bool
        ensures { result ≡ is_deasserted self.now }
    {
        has_bit(self.bytes[EVENT_TYPE], DEASSERTED)
    }

    /// The event/reading type (section 42.1), 01h for a threshold event.
    pub fn event_type(&self) -> u8
        ensures { result ≡ event_type self.now }
    {
        self.bytes[EVENT_TYPE] & EVENT_TYPE_BITS
    }

    /// The three bytes of event data. Bits 3:0 of the first are the offset.
    pub fn data_bytes(&self) -> &'a [u8]
        ensures value { result.now ≡ event_data self.now }
        ensures len { length result.now ≡ 3 }
    {
        &self.bytes[EVENT_DATA..16]
    }
}

/// An OEM timestamped record (section 32.2).
pub type OemTimestampedEntry<'a> = Entry<'a, OEM_TIMESTAMPED>;

impl<'a> OemTimestampedEntry<'a> {
    /// The time stamp in seconds, as `ipmi_text::UtcTime::of` reads it.
    pub fn time_stamp(&self) -> u32
        ensures { result ≡ time_stamp self.now }
    {
        time_stamp(self.bytes)
    }

    /// The manufacturer id, 3 bytes.
    pub fn manufacturer_id(&self) -> u32
        ensures { result ≡ manufacturer_id self.now }
    {
        LittleEndian::read_u24(&self.bytes[MANUFACTURER_ID..])
    }

    /// The six OEM-defined bytes.
    pub fn data_bytes(&self) -> &'a [u8]
        ensures { result.now ≡ oem_data self.now }
    {
        &self.bytes[OEM_DATA..16]
    }
}

/// An OEM non-timestamped record (section 32.3).
pub type OemNonTimestampedEntry<'a> = Entry<'a, OEM_NON_TIMESTAMPED>;

impl<'a> OemNonTimestampedEntry<'a> {
    /// The thirteen OEM-defined bytes.
    pub fn data_bytes(&self) -> &'a [u8]
        ensures { result.now ≡ data_after_type self.now }
    {
        data_after_type(self.bytes)
    }
}

/// An entry of another type.
pub type OtherEntry<'a> = Entry<'a, OTHER>;

impl<'a> OtherEntry<'a> {
    /// All bytes after the type.
    pub fn data_bytes(&self) -> &'a [u8]
        ensures { result.now ≡ data_after_type self.now }
    {
        data_after_type(self.bytes)
    }
}

/// An entry of the event log, by its type.
#[derive(Debug, Drop)]
pub enum SelView<'a> {
    /// Type 02h.
    Event(EventEntry<'a>),
    /// Types C0h to DFh.
    OemTimed(OemTimestampedEntry<'a>),
    /// Types E0h to FFh.
    OemPlain(OemNonTimestampedEntry<'a>),
    /// Any other type.
    Other(OtherEntry<'a>),
}

impl<'a> SelView<'a> {
    /// Reads 16 bytes as an entry. This never fails, as every entry type has a variant.
    pub fn read(bytes: &'a [u8; 16]) -> SelView<'a>
        ensures { result ≡ sel_view_of bytes.now }
    {
        let bytes = bytes.as_slice();
        match bytes[ENTRY_TYPE] {
            EVENT => SelView::Event(EventEntry::new(bytes)),
            OEM_TIMESTAMPED..=LAST_OEM_TIMESTAMPED => SelView::OemTimed(OemTimestampedEntry::new(
                bytes,
            )),
            OEM_NON_TIMESTAMPED..=u8::MAX => SelView::OemPlain(OemNonTimestampedEntry::new(bytes)),
            _ => SelView::Other(OtherEntry::new(bytes)),
        }
    }

    /// The bytes of the entry.
    pub fn bytes(&self) -> &'a [u8]
        ensures value { result.now ≡ entry_bytes self.now }
        ensures len { length result.now ≡ 16 }
    {
        match self {
            SelView::Event(view) => view.bytes(),
            SelView::OemTimed(view) => view.bytes(),
            SelView::OemPlain(view) => view.bytes(),
            SelView::Other(view) => view.bytes(),
        }
    }

    /// The record id in the entry.
    pub fn id(&self) -> u16
        ensures { result ≡ number_at 1 2 (entry_bytes self.now) }
    {
        LittleEndian::read_u16(self.bytes())
    }

    /// The type of the entry.
    pub fn entry_type(&self) -> u8
        ensures { result ≡ entry_type (entry_bytes self.now) }
    {
        self.bytes()[ENTRY_TYPE]
    }
}
