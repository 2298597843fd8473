//! The chassis, board and product areas of an inventory.
ghost use Rattle.std.specs.Prelude.{◌≡◌, ◌+◌, ◌<◌, ◌≤◌, IfSome, IfOk, IfErr, Some, None, slice_get, length, take, drop, slice_index, option_map};
ghost use Rattle.byteorder.specs.Endian.{little_from};
ghost use Rattle.ipmi_fru.specs.Prelude.{language_of, Board, Chassis, field_of, Area, asset_tag_index, field_at, fru_file_id_index, manufacturer_index, part_number_index, product_name_index, serial_number_index, version_index, area_fault_name, place_of, head_len, area_at, field_bytes, area_fault, IsArea, IsAreaFault};

use crate::field::{Field, Fields};
use crate::header::{bytes_of, has_version_1, is_zero_sum};
use byteorder::{ByteOrder, LittleEndian};
use ipmi_text::ENGLISH;
use std::marker::Model;
use thiserror::Error;

/// The offset of an area's length byte, counted from 0. The length is in units of eight bytes. The version byte comes
/// first.
const LENGTH: usize = 1;

/// The offset of an area's head, after the version and the length byte.
const HEAD_START: usize = 2;

/// The kind of an area that has fields.
#[derive(Clone, Copy, Debug, PartialEq, Eq)]
pub enum AreaKind {
    /// Of the chassis: its type, then its fields.
    Chassis,
    /// The board area: the language, the manufacturing date, then its fields.
    Board,
    /// The product area: the language, then its fields.
    Product,
}

impl AreaKind {
    /// The position of the area's offset in the header.
    pub(crate) fn place(self) -> usize
        ensures place { result ≡ place_of self }
        ensures below { result ≤ 4 }
    {
        match self {
            AreaKind::Chassis => 2,
            AreaKind::Board => 3,
            AreaKind::Product => 4,
        }
    }

    /// The number of bytes between the length byte and the first field.
    fn head_len(self) -> usize
        ensures len { result ≡ head_len self }
        ensures below { result ≤ 4 }
    {
        match self {
            AreaKind::Chassis => 1,
            AreaKind::Board => 4,
            AreaKind::Product => 1,
        }
    }
}

/// Why an area cannot be read. The first fault that applies is reported, in this order: Outside for the first two
/// bytes, Version, Length, Outside for the rest, Sum, FieldPastEnd.
#[derive(Clone, Copy, Debug, PartialEq, Eq, Error)]
pub enum AreaFault {
    /// The inventory ends before the area does.
    #[error("the inventory ends before the area does")]
    Outside,
    /// The area's format version is not 1.
    #[error("an area of an unknown version")]
    Version,
    /// The area's length is 0.
    #[error("an area of no bytes")]
    Length,
    /// The area's bytes do not sum to a multiple of 256.
    #[error("the checksum of the area is wrong")]
    Sum,
    /// A field runs into the checksum.
    #[error("a field runs into the checksum")]
    FieldPastEnd,
}

impl AreaFault {
    /// The name of the fault, as printed by `print_fru`.
    pub fn name(self) -> &'static str
        ensures { result.now ≡ area_fault_name self }
    {
        match self {
            AreaFault::Outside => "outside",
            AreaFault::Version => "version",
            AreaFault::Length => "length",
            AreaFault::Sum => "checksum",
            AreaFault::FieldPastEnd => "field past end",
        }
    }
}

/// The area that begins at the offset. Its fields are not checked.
fn whole_area(bytes: &[u8], offset: usize) -> Result<&[u8], AreaFault>
    requires { offset ≤ 2040 }
    ensures ok { IfOk result (λ area. (area_fault offset bytes.now ≡ None) ×
        (area.now ≡ area_at offset bytes.now)) }
    ensures len { IfOk result (λ area. 8 ≤ length area.now) }
    ensures err { IfErr result (λ fault. area_fault offset bytes.now ≡ Some fault) }
{
    if bytes.len() < offset + HEAD_START {
        return Err(AreaFault::Outside);
    }
    if !has_version_1(bytes[offset]) {
        return Err(AreaFault::Version);
    }
    let units = bytes[offset + LENGTH];
    if units == 0 {
        return Err(AreaFault::Length);
    }
    let end = offset + bytes_of(units);
    if bytes.len() < end {
        return Err(AreaFault::Outside);
    }
    let area = &bytes[offset..end];
    if !is_zero_sum(area) {
        return Err(AreaFault::Sum);
    }
    Ok(area)
}

/// The bytes between the head of an area and its checksum.
fn field_part(kind: AreaKind, area: &[u8]) -> &[u8]
    requires { 2 + head_len kind < length area.now }
    ensures { result.now ≡ field_bytes kind area.now }
{
    &area[..area.len() - 1][HEAD_START + kind.head_len()..]
}

/// A chassis, board or product area without a fault (Platform Management FRU Information Storage Definition v1.0,
/// sections 10 to 12).
#[derive(Debug, Drop)]
pub struct AreaView<'a> {
    kind: AreaKind,
    bytes: &'a [u8],
}

impl<'a> Model for AreaView<'a> {
    ghost use Rattle.ipmi_fru.specs.Area.{Area, HasFields, area_in};

    ghost Value = { Area };

    ghost view = { λ a. area_in a.kind a.bytes.now };

    ghost invariant = { λ a. HasFields a.kind a.bytes.now };
}

impl<'a> AreaView<'a> {
    /// Reads the area of this kind that begins at the offset.
    pub(crate) fn read(
        kind: AreaKind,
        bytes: &'a [u8],
        offset: usize,
    ) -> Result<AreaView<'a>, AreaFault>
        requires { offset ≤ 2040 }
        ensures ok { IfOk result (λ area. IsArea kind offset bytes.now area) }
        ensures err { IfErr result (λ fault. IsAreaFault kind offset bytes.now fault) }
    {
        let area = whole_area(bytes, offset)?;
        if !Fields::are_spelt(field_part(kind, area)) {
            return Err(AreaFault::FieldPastEnd);
        }
        Ok(AreaView { kind, bytes: area })
    }

    /// The kind of the area.
    pub fn kind(&self) -> AreaKind
        ensures { result ≡ self.now.kind }
    {
        self.kind
    }

    /// The type of a chassis.
    pub fn chassis_type(&self) -> u8
        requires { self.now.kind ≡ Chassis }
        ensures { result ≡ slice_index self.now.bytes 2 }
    {
        self.bytes[HEAD_START]
    }

    /// When a board was made, in minutes since 1996.
    pub fn minutes(&self) -> u32
        requires { self.now.kind ≡ Board }
        ensures number { result ≡ little_from 3 3 self.now.bytes }
        ensures below { result ≤ 0xff_ffff }
    {
        let head = self.head();
        LittleEndian::read_u24(&head[1..])
    }

    /// The language of the area's texts; that of a chassis is English.
    pub fn language(&self) -> u8
        ensures { result ≡ language_of self.now.kind self.now.bytes }
    {
        match self.kind {
            AreaKind::Chassis => ENGLISH,
            AreaKind::Board | AreaKind::Product => self.bytes[HEAD_START],
        }
    }

    /// The bytes between the length byte and the first field. For a chassis, its type; for a board, the language and
    /// the date in minutes, low byte first; for a product, the language.
    pub fn head(&self) -> &'a [u8]
        ensures bytes { result.now ≡ take (head_len self.now.kind) (drop 2 self.now.bytes) }
        ensures len { length result.now ≡ head_len self.now.kind }
    {
        &self.bytes[HEAD_START..HEAD_START + self.kind.head_len()]
    }

    /// The fields, in order.
    pub fn fields(&self) -> Fields<'a>
        ensures { result ≡ self.now.fields }
    {
        Fields::new(field_part(self.kind, self.bytes))
    }

    /// The field at this index, counted from 0. None past the last field. Each call iterates over the fields before
    /// it, so use `fields` to list them.
    pub fn field(&self, place: usize) -> Option<Field<'a>>
        ensures field { option_map field_of result ≡ slice_get self.now.fields place }
        ensures code { IfSome result (λ field. field.code < 4) }
    {
        self.fields().nth(place)
    }

    /// The field at this index, if there is one.
    fn field_at(&self, index: Option<usize>) -> Option<Field<'a>>
        ensures field { option_map field_of result ≡ field_at index self.now.fields }
        ensures code { IfSome result (λ field. field.code < 4) }
    {
        self.field(index?)
    }

    /// The manufacturer. None if the area has no such field.
    pub fn manufacturer(&self) -> Option<Field<'a>>
        ensures field { option_map field_of result ≡
            field_at (manufacturer_index self.now.kind) self.now.fields }
        ensures code { IfSome result (λ field. field.code < 4) }
    {
        self.field_at(match self.kind {
            AreaKind::Board | AreaKind::Product => Some(0),
            AreaKind::Chassis => None,
        })
    }

    /// The name of the product. None if the area has no such field.
    pub fn product_name(&self) -> Option<Field<'a>>
        ensures field { option_map field_of result ≡
            field_at (product_name_index self.now.kind) self.now.fields }
        ensures code { IfSome result (λ field. field.code < 4) }
    {
        self.field_at(match self.kind {
            AreaKind::Board | AreaKind::Product => Some(1),
            AreaKind::Chassis => None,
        })
    }

    /// The part number; of a product, its model number too. None if the area has no such field.
    pub fn part_number(&self) -> Option<Field<'a>>
        ensures field { option_map field_of result ≡
            field_at (part_number_index self.now.kind) self.now.fields }
        ensures code { IfSome result (λ field. field.code < 4) }
    {
        self.field_at(match self.kind {
            AreaKind::Chassis => Some(0),
            AreaKind::Board => Some(3),
            AreaKind::Product => Some(2),
        })
    }

    /// The serial number. None if the area has no such field.
    pub fn serial_number(&self) -> Option<Field<'a>>
        ensures field { option_map field_of result ≡
            field_at (serial_number_index self.now.kind) self.now.fields }
        ensures code { IfSome result (λ field. field.code < 4) }
    {
        self.field_at(match self.kind {
            AreaKind::Chassis => Some(1),
            AreaKind::Board => Some(2),
            AreaKind::Product => Some(4),
        })
    }

    /// The version of a product. None if the area has no such field.
    pub fn version(&self) -> Option<Field<'a>>
        ensures field { option_map field_of result ≡
            field_at (version_index self.now.kind) self.now.fields }
        ensures code { IfSome result (λ field. field.code < 4) }
    {
        self.field_at(match self.kind {
            AreaKind::Product => Some(3),
            AreaKind::Chassis | AreaKind::Board => None,
        })
    }

    /// The asset tag of a product. None if the area has no such field.
    pub fn asset_tag(&self) -> Option<Field<'a>>
        ensures field { option_map field_of result ≡
            field_at (asset_tag_index self.now.kind) self.now.fields }
        ensures code { IfSome result (λ field. field.code < 4) }
    {
        self.field_at(match self.kind {
            AreaKind::Product => Some(5),
            AreaKind::Chassis | AreaKind::Board => None,
        })
    }

    /// The id of the file with which the inventory was written. None if the area has no such field.
    pub fn fru_file_id(&self) -> Option<Field<'a>>
        ensures field { option_map field_of result ≡
            field_at (fru_file_id_index self.now.kind) self.now.fields }
        ensures code { IfSome result (λ field. field.code < 4) }
    {
        self.field_at(match self.kind {
            AreaKind::Board => Some(4),
            AreaKind::Product => Some(6),
            AreaKind::Chassis => None,
        })
    }
}
