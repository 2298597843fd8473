//! The common header of an inventory, with the offsets of its areas.
ghost use Rattle.std.specs.Prelude.{◌≡◌, ◌%◌, ◌≤◌, ◌*◌, ◌==◌, IfOk, IfErr, IfSome, Some, None, drop, sum};
ghost use Rattle.ipmi_fru.specs.Prelude.{is_zero_sum, header_fault, fru_fault_name, offset_of, Chassis, Board, Product, IsFound, HasItems, items_left};

use crate::area::{AreaFault, AreaKind, AreaView};
use crate::multirecord::Records;
use std::marker::Model;
use thiserror::Error;

/// The length of a header in bytes.
const HEADER_LEN: usize = 8;

/// Bits 3:0 of the first byte of a header or an area, and of the second byte of a record: its format version.
pub(crate) const VERSION_BITS: u8 = 0x0F;

/// The position of the format version in the header, counted from 0.
const VERSION: usize = 0;

/// The position of the multirecord area's offset in the header.
const RECORDS_PLACE: usize = 5;

/// Why bytes are not an inventory. The first fault that applies, in this order, is reported.
#[derive(Clone, Copy, Debug, PartialEq, Eq, Error)]
pub enum FruFault {
    /// Fewer than the eight bytes of a header.
    #[error("fewer bytes than a header has")]
    Short,
    /// The header's format version is not 1.
    #[error("a header of an unknown version")]
    HeaderVersion,
    /// The header's bytes do not sum to a multiple of 256.
    #[error("the checksum of the header is wrong")]
    HeaderSum,
}

impl FruFault {
    /// The name of the fault, as printed by `print_fru`.
    pub fn name(self) -> &'static str
        ensures { result.now ≡ fru_fault_name self }
    {
        match self {
            FruFault::Short => "header short",
            FruFault::HeaderVersion => "header version",
            FruFault::HeaderSum => "header checksum",
        }
    }
}

/// The number of bytes in this many units of eight bytes. Offsets in a header and the length of an area are in such
/// units.
pub(crate) fn bytes_of(units: u8) -> usize
    ensures { result ≡ 8 * units }
{
    8 * usize::from(units)
}

/// Whether the first byte of a header or an area has the format version 1. There is no other version.
pub(crate) fn has_version_1(byte: u8) -> bool
    ensures { result ≡ (byte % 16 == 1) }
{
    byte & VERSION_BITS == 1
}

/// The sum of the bytes modulo 256.
pub(crate) fn sum_of(bytes: &[u8]) -> u8
    ensures { result ≡ sum bytes.now % 256 }
{
    let mut total: u8 = 0;
    'bytes: for byte in bytes {
        total = total.wrapping_add(*byte);
    }
    total
}

/// Whether the bytes sum to a multiple of 256.
pub(crate) fn is_zero_sum(bytes: &[u8]) -> bool
    ensures { result ≡ is_zero_sum bytes.now }
{
    sum_of(bytes) == 0
}

/// The inventory of a FRU device, with a header without a fault (Platform Management FRU Information Storage
/// Definition v1.0, section 8).
#[derive(Debug, Drop)]
pub struct FruView<'a> {
    bytes: &'a [u8],
}

impl<'a> Model for FruView<'a> {
    ghost use Rattle.std.specs.Prelude.{◌≡◌, List, ℕ, None};
    ghost use Rattle.ipmi_fru.specs.Header.{header_fault};

    ghost Value = { List ℕ };

    ghost view = { λ v. v.bytes.now };

    ghost invariant = { λ v. header_fault v.bytes.now ≡ None };
}

impl<'a> FruView<'a> {
    /// Reads bytes as an inventory. Err is the first fault of the header. The header's pad byte is only part of the
    /// checksum. Areas and records are read only when requested.
    pub fn read(bytes: &'a [u8]) -> Result<FruView<'a>, FruFault>
        ensures ok { IfOk result (λ view. (header_fault bytes.now ≡ None) × (view ≡ bytes.now)) }
        ensures err { IfErr result (λ fault. header_fault bytes.now ≡ Some fault) }
    {
        if bytes.len() < HEADER_LEN {
            return Err(FruFault::Short);
        }
        if !has_version_1(bytes[VERSION]) {
            return Err(FruFault::HeaderVersion);
        }
        if !is_zero_sum(&bytes[..HEADER_LEN]) {
            return Err(FruFault::HeaderSum);
        }
        Ok(FruView { bytes })
    }

    /// The offset in bytes of the area whose offset is at this position in the header. None if that is 0.
    fn offset(&self, place: usize) -> Option<usize>
        requires { place ≤ 5 }
        ensures offset { result ≡ offset_of place self.now }
        ensures below { IfSome result (λ offset. offset ≤ 2040) }
    {
        match self.bytes[place] {
            0 => None,
            units => Some(bytes_of(units)),
        }
    }

    /// The area of the kind, if there is one.
    pub(crate) fn area(&self, kind: AreaKind) -> Option<Result<AreaView<'a>, AreaFault>>
        ensures { IsFound kind self.now result }
    {
        let offset = self.offset(kind.place())?;
        Some(AreaView::read(kind, self.bytes, offset))
    }

    /// The chassis info area, or its first fault. None if the header has no offset for it.
    pub fn chassis(&self) -> Option<Result<AreaView<'a>, AreaFault>>
        ensures { IsFound Chassis self.now result }
    {
        self.area(AreaKind::Chassis)
    }

    /// The board info area, or its first fault. None if the header has no offset for it.
    pub fn board(&self) -> Option<Result<AreaView<'a>, AreaFault>>
        ensures { IsFound Board self.now result }
    {
        self.area(AreaKind::Board)
    }

    /// The product info area, or its first fault. None if the header has no offset for it.
    pub fn product(&self) -> Option<Result<AreaView<'a>, AreaFault>>
        ensures { IsFound Product self.now result }
    {
        self.area(AreaKind::Product)
    }

    /// The bytes that start at an offset. Empty if the offset is past the end.
    fn bytes_from(&self, offset: usize) -> &'a [u8]
        ensures { result.now ≡ drop offset self.now }
    {
        self.bytes.get(offset..).unwrap_or(&[])
    }

    /// The records of the multirecord area, up to the one marked as the last, or up to the first fault. There are
    /// none if the header has no offset for the area.
    pub fn records(&self) -> Records<'a>
        ensures { HasItems self.now (items_left result) }
    {
        match self.offset(RECORDS_PLACE) {
            Some(offset) => Records::new(Some(self.bytes_from(offset))),
            None => Records::new(None),
        }
    }
}
