//! The requests to a controller, as bytes (IPMI v2.0).
ghost use Rattle.std.specs.Prelude.{◌≡◌, ◌≤◌, length};
ghost use Rattle.ipmi_raw.specs.Answer.{code_given, says_unreserved};
ghost use Rattle.ipmi_raw.specs.Request.{command_of, count_asked, data_of, lun_of, network_function_of};

use arrayvec::ArrayVec;
use ipmi_bus::{Code, SEL_ENTRY_LEN, Shelf};

/// A part of a sensor data record or of an event log entry.
#[derive(Clone, Copy, Debug, PartialEq, Eq)]
pub struct RecordPart {
    /// The repository of the record.
    pub shelf: Shelf,
    /// The reservation's number.
    pub reservation: u16,
    /// The id of the record, 0000h for the first.
    pub id: u16,
    /// The first byte to read, counted from 0.
    pub offset: u8,
    /// The number of bytes to read.
    pub count: u8,
}

/// A part of the inventory of a FRU device.
#[derive(Clone, Copy, Debug, PartialEq, Eq)]
pub struct InventoryPart {
    /// The device's id.
    pub id: u8,
    /// The first byte to read, counted from 0.
    pub offset: u16,
    /// The number of bytes to read.
    pub count: u8,
}

/// A request to a management controller.
#[derive(Clone, Copy, Debug, PartialEq, Eq)]
pub enum Request {
    /// Get Device ID (IPMI v2.0, section 20.1), which each controller has to answer.
    DeviceId,
    /// Reserve SDR Repository or Reserve SEL (sections 33.11 and 31.4).
    Reserve(Shelf),
    /// Get SDR or Get SEL Entry (sections 33.12 and 31.5).
    Get(RecordPart),
    /// Get SDR Repository Info or Get SEL Info (sections 33.9 and 31.2).
    Info(Shelf),
    /// Get FRU Inventory Area Info (section 34.1), of the device with this id.
    InventorySize(u8),
    /// Read FRU Data (section 34.2).
    ReadInventory(InventoryPart),
    /// Get Sensor Reading (section 35.14): a logical unit of a controller (section 7.2), and the number of a sensor at it. The
    /// unit may be any byte, and a message has room for 0 to 3.
    Reading(u8, u8),
}

/// The bytes of a request after its command, at most 6.
pub type RequestData = ArrayVec<u8, 6>;

/// The network function of requests to applications (IPMI v2.0, table 5-1).
const APPLICATION: u8 = 0x06;

/// The network function of requests to sensors (IPMI v2.0, table 5-1).
const SENSOR: u8 = 0x04;

/// The network function of requests to storage (IPMI v2.0, table 5-1).
const STORAGE: u8 = 0x0A;

/// The count that requests a whole record.
const WHOLE_RECORD: u8 = 0xFF;

/// The count in a request for a part: FFh for a whole event log entry, as some controllers do not return parts of
/// one.
fn count_asked(part: RecordPart) -> u8
    ensures { result ≡ count_asked part }
{
    match part.shelf {
        Shelf::Sel if part.offset == 0 && usize::from(part.count) >= SEL_ENTRY_LEN => WHOLE_RECORD,
        Shelf::Sdr | Shelf::Sel => part.count,
    }
}

/// These bytes as request data.
fn data(bytes: &[u8]) -> RequestData
    requires { length bytes.now ≤ 6 }
    ensures { result.items ≡ bytes.now }
{
    let mut data = RequestData::new();
    data.try_extend_from_slice(bytes).unwrap();
    data
}

impl Request {
    /// The network function of the request.
    pub fn network_function(self) -> u8
        ensures { result ≡ network_function_of self }
    {
        match self {
            Request::DeviceId => APPLICATION,
            Request::Reading(_, _) => SENSOR,
            Request::Reserve(_)
            | Request::Get(_)
            | Request::Info(_)
            | Request::InventorySize(_)
            | Request::ReadInventory(_) => STORAGE,
        }
    }

    /// The logical unit of the request: 0 for all but readings.
    pub fn lun(self) -> u8
        ensures { result ≡ lun_of self }
    {
        match self {
            Request::Reading(lun, _) => lun,
            Request::DeviceId
            | Request::Reserve(_)
            | Request::Get(_)
            | Request::Info(_)
            | Request::InventorySize(_)
            | Request::ReadInventory(_) => 0,
        }
    }

    /// The command.
    pub fn command(self) -> u8
        ensures { result ≡ command_of self }
    {
        match self {
            Request::DeviceId => 0x01,
            Request::InventorySize(_) => 0x10,
            Request::ReadInventory(_) => 0x11,
            Request::Info(Shelf::Sdr) => 0x20,
            Request::Reserve(Shelf::Sdr) => 0x22,
            Request::Get(part) if part.shelf == Shelf::Sdr => 0x23,
            Request::Reading(_, _) => 0x2D,
            Request::Info(Shelf::Sel) => 0x40,
            Request::Reserve(Shelf::Sel) => 0x42,
            Request::Get(_) => 0x43,
        }
    }

    /// The bytes after the command. Two-byte numbers have the low byte first.
    pub fn data(self) -> RequestData
        ensures { result.items ≡ data_of self }
    {
        match self {
            Request::DeviceId | Request::Reserve(_) | Request::Info(_) => data(&[]),
            Request::Get(part) => {
                let [low, high] = part.reservation.to_le_bytes();
                let [id_low, id_high] = part.id.to_le_bytes();
                data(&[low, high, id_low, id_high, part.offset, count_asked(part)])
            }
            Request::InventorySize(id) => data(&[id]),
            Request::ReadInventory(part) => {
                let [low, high] = part.offset.to_le_bytes();
                data(&[part.id, low, high, part.count])
            }
            Request::Reading(_, number) => data(&[number]),
        }
    }

    /// The code that a call returns for a completion code of the reply. Other codes by which controllers say that
    /// there is no such sensor or inventory become CBh.
    pub fn code_given(self, code: u8) -> Code
        ensures { result ≡ code_given self code }
    {
        match (self, code) {
            (Request::Reading(_, _), 0xCC | 0xCD | 0xD5) | (Request::InventorySize(_), 0xCC) =>
                Code::NOT_PRESENT,
            (_, code) => Code(code),
        }
    }

    /// Whether a completion code of the reply says that the shelf has no reservations: C1h, if the controller does
    /// not know the command that reserves it. Parts are then requested with reservation 0000h (section 31.5).
    pub fn says_unreserved(self, code: u8) -> bool
        ensures { result ≡ says_unreserved self code }
    {
        matches!((self, code), (Request::Reserve(_), 0xC1))
    }
}
