//! The requests that a retrieval sends to a management controller, and what is promised of the answers.
ghost use Rattle.std.specs.Prelude.{◌≡◌, ◌<◌, ◌≤◌, IfOk, OnErr, length, drop};
ghost use Rattle.ipmi_bus.specs.Prelude.{Seen, IsCall, failing_code, IsHonest, info_of, reading_of, ReserveAnswers, PartAnswers, ValueAnswers, SizeAnswers, BytesAnswers, part_asked, reads_ahead};

use crate::code::Code;
use ipmi_text::{Reading, SDR_HEADER_LEN};

/// The id that requests a shelf's first record.
pub const FIRST_RECORD_ID: u16 = 0;
/// The next id of a shelf's last record.
pub const NO_NEXT_ID: u16 = 0xFFFF;
/// The largest part size in bytes: a length of FFh would request the whole record.
pub const LARGEST_PART: u8 = 254;
/// The largest length of a sensor data record in bytes.
pub const LARGEST_SDR_LEN: usize = 256;
/// The length of an event log entry in bytes.
pub const SEL_ENTRY_LEN: usize = 16;
/// The highest FRU device id: FFh is no device.
pub const LAST_FRU_DEVICE_ID: u8 = 254;
/// The length of the answers of Get SDR Repository Info and Get SEL Info in bytes, without the completion code.
pub const INFO_LEN: usize = 14;
/// The largest length of an inventory in bytes: its size is a 16-bit number.
pub const LARGEST_INVENTORY_LEN: usize = 0xFFFF;

/// The two repositories of records (IPMI v2.0, sections 31 and 33).
#[derive(Clone, Copy, Debug, PartialEq, Eq)]
pub enum Shelf {
    /// Sensor data records.
    Sdr,
    /// The system event log.
    Sel,
}

/// Whether a request for `len` bytes at the offset reads ahead: it begins in the header of a sensor data record and
/// reaches over it, so more is asked for than the header, which says how long the record is.
pub fn reads_ahead(shelf: Shelf, offset: u8, len: usize) -> bool
    ensures { result ≡ reads_ahead shelf offset len }
{
    let offset = usize::from(offset);
    shelf == Shelf::Sdr && offset < SDR_HEADER_LEN && len > SDR_HEADER_LEN - offset
}

/// The answer of Get SDR or Get SEL Entry (IPMI v2.0, sections 33.12 and 31.5), without the data.
#[derive(Clone, Copy, Debug, PartialEq, Eq)]
pub struct Part {
    /// The id of the next record, FFFFh after the last one.
    pub next: u16,
    /// The number of data bytes received.
    pub got: u8,
}

/// The answer of Get FRU Inventory Area Info (IPMI v2.0, section 34.1).
#[derive(Clone, Copy, Debug, PartialEq, Eq)]
pub struct FruSize {
    /// The size of the inventory, in bytes.
    pub size: u16,
    /// The device is accessed by words, not by bytes.
    pub words: bool,
}

/// A management controller.
///
/// The `honest` clauses hold for honest controllers, the others for every controller. Every controller counts its
/// calls and the bytes that they ask for, keeps the code of the last call if it failed, and writes only inside the
/// buffer that it is given.
pub trait Controller {
    /// The state that contracts see. It has no cost at run time.
    ghost seen: { Self → Seen };

    /// Reserve SDR Repository or Reserve SEL (IPMI v2.0, sections 33.11 and 31.4). Returns the reservation's number.
    fn reserve(&mut self, shelf: Shelf) -> Result<u16, Code>
        ensures counted { IsCall 0 (seen self.old) (seen self.new) }
        ensures failure { (seen self.new).last_failure ≡ failing_code result }
        ensures honest { IsHonest (seen self.old) →
            ReserveAnswers shelf result (seen self.old) (seen self.new) };

    /// Get SDR or Get SEL Entry (IPMI v2.0, sections 33.12 and 31.5): reads bytes of the record with this id,
    /// starting at the offset. The length of `into`, 1 to 254, is the number of bytes asked for. Id 0000h is the
    /// first record. After Ok the first `got` bytes of `into` are the data.
    fn part(
        &mut self,
        shelf: Shelf,
        reservation: u16,
        id: u16,
        offset: u8,
        into: &mut [u8],
    ) -> Result<Part, Code>
        requires some { 0 < length into.old }
        requires fits { length into.old < 255 }
        ensures counted { IsCall (length into.old) (seen self.old) (seen self.new) }
        ensures failure { (seen self.new).last_failure ≡ failing_code result }
        ensures fits { IfOk result (λ part. part.got ≤ length into.old) }
        ensures rest { IfOk result (λ part. drop part.got into.new ≡ drop part.got into.old) }
        ensures err { OnErr result (into.new ≡ into.old) }
        ensures honest { IsHonest (seen self.old) →
            PartAnswers (part_asked shelf reservation id offset (length into.old)) result into.new
            (seen self.old) (seen self.new) };

    /// Get SDR Repository Info or Get SEL Info (IPMI v2.0, sections 33.9 and 31.2). Returns the 14 bytes after the
    /// completion code.
    fn info(&mut self, shelf: Shelf) -> Result<[u8; 14], Code>
        ensures counted { IsCall 0 (seen self.old) (seen self.new) }
        ensures failure { (seen self.new).last_failure ≡ failing_code result }
        ensures honest { IsHonest (seen self.old) →
            ValueAnswers (info_of shelf) result (seen self.old) (seen self.new) };

    /// Get Sensor Reading (IPMI v2.0, section 35.14) for the sensor with this number at this LUN.
    fn reading(&mut self, lun: u8, number: u8) -> Result<Reading, Code>
        ensures counted { IsCall 0 (seen self.old) (seen self.new) }
        ensures failure { (seen self.new).last_failure ≡ failing_code result }
        ensures honest { IsHonest (seen self.old) →
            ValueAnswers (reading_of lun number) result (seen self.old) (seen self.new) };

    /// Get FRU Inventory Area Info (IPMI v2.0, section 34.1) for the FRU device with this id.
    fn fru_size(&mut self, id: u8) -> Result<FruSize, Code>
        ensures counted { IsCall 0 (seen self.old) (seen self.new) }
        ensures failure { (seen self.new).last_failure ≡ failing_code result }
        ensures honest { IsHonest (seen self.old) →
            SizeAnswers id result (seen self.old) (seen self.new) };

    /// Read FRU Data (IPMI v2.0, section 34.2): reads bytes of the inventory of the FRU device with this id, starting
    /// at the offset. The length of `into`, 1 to 254, is the number of bytes asked for. Ok is the number of bytes
    /// received; they are the first bytes of `into`.
    fn fru_part(&mut self, id: u8, offset: u16, into: &mut [u8]) -> Result<u8, Code>
        requires some { 0 < length into.old }
        requires fits { length into.old < 255 }
        ensures counted { IsCall (length into.old) (seen self.old) (seen self.new) }
        ensures failure { (seen self.new).last_failure ≡ failing_code result }
        ensures fits { IfOk result (λ got. got ≤ length into.old) }
        ensures rest { IfOk result (λ got. drop got into.new ≡ drop got into.old) }
        ensures err { OnErr result (into.new ≡ into.old) }
        ensures honest { IsHonest (seen self.old) →
            BytesAnswers id offset (length into.old) result into.new
            (seen self.old) (seen self.new) };
}
