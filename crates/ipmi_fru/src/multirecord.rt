//! The multirecord area of an inventory: a sequence of records, up to the one marked as the last.
ghost use Rattle.std.specs.Prelude.{◌≡◌, ◌<◌, IfOk, IfErr, Some, None, length};
ghost use Rattle.ipmi_fru.specs.Prelude.{record_in, record_fault, multi_fault_name, after_record, record_of, items_after, items_left};

use crate::header::{VERSION_BITS, is_zero_sum, sum_of};
use thiserror::Error;

/// The length of a record's header in bytes.
const HEADER_LEN: usize = 5;

/// The offset of the record's type in the header, counted from 0.
const TYPE: usize = 0;

/// The offset of the byte with the end of list and the format version.
const END_AND_VERSION: usize = 1;

/// The offset of the length of the data.
const DATA_LENGTH: usize = 2;

/// The offset of the checksum of the data.
const DATA_CHECKSUM: usize = 3;

/// Bit 7 of a record's second byte: the record is the last one.
const LAST: u8 = 0x80;

/// Why a record cannot be read. The first fault that applies is reported, in this order: Outside for the header,
/// HeaderSum, Outside for the data, DataSum.
#[derive(Clone, Copy, Debug, PartialEq, Eq, Error)]
pub enum MultiFault {
    /// The inventory ends before the record does.
    #[error("the inventory ends before the record does")]
    Outside,
    /// The bytes of the record's header do not sum to a multiple of 256.
    #[error("the checksum of the header is wrong")]
    HeaderSum,
    /// The record's data and its checksum do not sum to a multiple of 256.
    #[error("the checksum of the data is wrong")]
    DataSum,
}

impl MultiFault {
    /// The name of the fault, as printed by `print_fru`.
    pub fn name(self) -> &'static str
        ensures { result.now ≡ multi_fault_name self }
    {
        match self {
            MultiFault::Outside => "outside",
            MultiFault::HeaderSum => "header checksum",
            MultiFault::DataSum => "data checksum",
        }
    }
}

/// A record of the multirecord area (Platform Management FRU Information Storage Definition v1.0, section 16).
#[derive(Clone, Copy, Debug, PartialEq, Eq)]
pub struct MultiView<'a> {
    /// The type of the record.
    pub kind: u8,
    /// The version of its format, bits 3:0 of the second byte. It is not checked.
    pub version: u8,
    /// Whether it is marked as the last record.
    pub last: bool,
    /// The data, without the record's header.
    pub bytes: &'a [u8],
}

/// Reads the record at the start of the bytes. Returns it and the bytes after it.
fn read_record(bytes: &[u8]) -> Result<(MultiView<'_>, &[u8]), MultiFault>
    ensures fine { IfOk result (λ r. record_fault bytes.now ≡ None) }
    ensures record { IfOk result (λ r. record_of r.0 ≡ record_in bytes.now) }
    ensures rest { IfOk result (λ r. r.1.now ≡ after_record bytes.now) }
    ensures shorter { IfOk result (λ r. length r.1.now < length bytes.now) }
    ensures err { IfErr result (λ fault. record_fault bytes.now ≡ Some fault) }
{
    if bytes.len() < HEADER_LEN {
        return Err(MultiFault::Outside);
    }
    if !is_zero_sum(&bytes[..HEADER_LEN]) {
        return Err(MultiFault::HeaderSum);
    }
    let end = HEADER_LEN + usize::from(bytes[DATA_LENGTH]);
    if bytes.len() < end {
        return Err(MultiFault::Outside);
    }
    let data = &bytes[HEADER_LEN..end];
    if bytes[DATA_CHECKSUM].wrapping_add(sum_of(data)) != 0 {
        return Err(MultiFault::DataSum);
    }
    let view = MultiView {
        kind: bytes[TYPE],
        version: bytes[END_AND_VERSION] & VERSION_BITS,
        last: bytes[END_AND_VERSION] & LAST != 0,
        bytes: data,
    };
    Ok((view, &bytes[end..]))
}

/// An iterator over the records of the multirecord area, in order. It ends after the record marked as the last, or
/// after the first fault.
#[derive(Debug, Drop)]
pub struct Records<'a> {
    left: Option<&'a [u8]>,
}

impl<'a> Records<'a> {
    /// The records at the start of these bytes. There are none for None.
    pub(crate) fn new(left: Option<&'a [u8]>) -> Records<'a>
        ensures { items_left result ≡ items_after left.entry }
    {
        Records { left }
    }
}

impl<'a> Iterator for Records<'a> {
    ghost use Rattle.std.specs.Iterator.{YieldsFirstBy, item_count};
    ghost use Rattle.ipmi_fru.specs.Multirecord.{item_of, items_left};

    type Item = Result<MultiView<'a>, MultiFault>;

    ghost next_gives = { YieldsFirstBy item_of items_left };

    ghost remaining = { item_count items_left };

    fn next(&mut self) -> Option<Result<MultiView<'a>, MultiFault>> {
        let bytes = self.left.take()?;
        let (view, rest) = match read_record(bytes) {
            Ok(found) => found,
            Err(fault) => return Some(Err(fault)),
        };
        if view.last {
            return Some(Ok(view));
        }
        self.left = Some(rest);
        Some(Ok(view))
    }
}
