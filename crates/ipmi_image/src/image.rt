//! A saved image of a management controller, read from its text.
ghost use Rattle.std.specs.Prelude.{◌≡◌, ◌⊎◌, [], ◌+◌, ◌<◌, ◌≤◌, All, IfOk, IfErr, OnOk, IfSome, Ok, Err, length, option_map};
ghost use Rattle.ipmi_image.specs.Below.{IsStore, rows_of, inventory_of, reading_of, info_of};
ghost use Rattle.ipmi_image.specs.declared.version.Version.{Version};
ghost use Rattle.ipmi_image.specs.Prelude.{begins_with, fault_line, later, pieces, chained, at_line, IsBuilt, store_after, store_of_image, IsSaved, store_of, HoldsLines};

use crate::contents::Contents;
use crate::image_line::{LineFault, read_line};
use crate::rows::Rows;
use crate::stored::sensor_key;
use crate::text::cut;
use crate::version::{Version, read_version};
use ipmi_bus::{INFO_LEN, Shelf};
use ipmi_text::Reading;
use std::alloc::Global;
use std::marker::Model;
use thiserror::Error;

/// Why reading an image failed. Lines are numbered from 1; the first faulty line is reported.
#[derive(Clone, Copy, Debug, PartialEq, Eq, Error)]
pub enum ImageFault {
    /// Out of memory.
    #[error("out of memory")]
    Memory,
    /// The bytes do not begin with the line `ipmi-image 1` or `ipmi-image 2`.
    #[error("header")]
    Header,
    /// The line has an unknown first word, a wrong number of fields, a field before HEX that is too short or too
    /// long, an empty HEX, or `info` without `sdr` or `sel` after it.
    #[error("line {0}: not a line")]
    Line(usize),
    /// A hex field has a character that is not a hex digit, or an odd number of digits.
    #[error("line {0}: hex")]
    Hex(usize),
    /// A record has the id FFFFh, or 0000h after the first record of its shelf; the FRU device is FFh; or the LUN is
    /// above 3.
    #[error("line {0}: id")]
    Id(usize),
    /// The shelf already has a record with this id, or there already is such a reading or info.
    #[error("line {0}: twice")]
    Twice(usize),
    /// The record, the reading or the info has the wrong length.
    #[error("line {0}: length")]
    Length(usize),
    /// The bytes of the first record of its shelf do not begin with its id.
    #[error("line {0}: first id")]
    FirstId(usize),
    /// There is no whole line `end`.
    #[error("no end")]
    NoEnd,
    /// Something comes after the line `end`.
    #[error("line {0}: after end")]
    AfterEnd(usize),
    /// The inventory has more than 65,535 bytes.
    #[error("line {0}: too many bytes")]
    TooMany(usize),
}

impl LineFault {
    /// The fault of the line with this number.
    fn at(self, line: usize) -> ImageFault
        ensures { result ≡ at_line line self }
    {
        match self {
            LineFault::Memory => ImageFault::Memory,
            LineFault::Line(_) => ImageFault::Line(line),
            LineFault::Hex(_) => ImageFault::Hex(line),
            LineFault::Id => ImageFault::Id(line),
            LineFault::Twice => ImageFault::Twice(line),
            LineFault::Length => ImageFault::Length(line),
            LineFault::FirstId => ImageFault::FirstId(line),
            LineFault::TooMany => ImageFault::TooMany(line),
        }
    }
}

impl ImageFault {
    /// The same fault, this many lines later.
    pub(crate) fn later(self, lines: usize) -> ImageFault
        requires { fault_line self + lines < 0x10000000000000000 }
        ensures { result ≡ later lines self }
    {
        match self {
            ImageFault::Line(line) => ImageFault::Line(line + lines),
            ImageFault::Hex(line) => ImageFault::Hex(line + lines),
            ImageFault::Id(line) => ImageFault::Id(line + lines),
            ImageFault::Twice(line) => ImageFault::Twice(line + lines),
            ImageFault::Length(line) => ImageFault::Length(line + lines),
            ImageFault::FirstId(line) => ImageFault::FirstId(line + lines),
            ImageFault::AfterEnd(line) => ImageFault::AfterEnd(line + lines),
            ImageFault::TooMany(line) => ImageFault::TooMany(line + lines),
            ImageFault::Memory | ImageFault::Header | ImageFault::NoEnd => self,
        }
    }
}

/// Adds what the lines after the first one say to the empty `contents`. The last line must be `end`. `bytes` is room for
/// the bytes of a line.
fn put_lines(
    alloc: Global,
    version: Version,
    text: &[u8],
    bytes: &mut Vec<u8>,
    contents: &mut Contents,
) -> Result<(), ImageFault>
    requires store { IsStore (store_of contents.old) }
    requires empty { HoldsLines contents.old [] }
    ensures ok { OnOk result (IsStore (store_of contents.new) ×
        (store_after version [] (pieces 10 text.now) ≡ Ok (store_of contents.new))) }
    ensures err { IfErr result (λ e. (e ≡ ImageFault.Memory) ⊎
        (store_after version [] (pieces 10 text.now) ≡ Err e)) }
    ensures line { IfErr result (λ e. fault_line e ≤ length text.now + 3) }
{
    let mut number = 2;
    let mut rest = text;
    'lines: loop {
        let Some((line, after)) = cut(rest, b'\n') else {
            return Err(ImageFault::NoEnd);
        };
        let line = match read_line(bytes, version, line) {
            Ok(line) => line,
            Err(fault) => return Err(fault.at(number)),
        };
        if line.is_end() {
            if after.is_empty() {
                return Ok(());
            }
            return Err(ImageFault::AfterEnd(number + 1));
        }
        if let Err(fault) = contents.put(alloc, line, bytes.as_slice()) {
            return Err(fault.at(number));
        }
        number += 1;
        rest = after;
    }
}

/// The contents of the lines after the first one.
fn read_lines(alloc: Global, version: Version, text: &[u8]) -> Result<Contents, ImageFault>
    ensures ok { IfOk result (λ contents. IsStore (store_of contents) ×
        (store_after version [] (pieces 10 text.now) ≡ Ok (store_of contents))) }
    ensures err { IfErr result (λ e. (e ≡ ImageFault.Memory) ⊎
        (store_after version [] (pieces 10 text.now) ≡ Err e)) }
    ensures line { IfErr result (λ e. fault_line e ≤ length text.now + 3) }
{
    let mut contents = Contents::new(alloc);
    let mut bytes = Vec::new(alloc);
    put_lines(alloc, version, text, &mut bytes, &mut contents)?;
    Ok(contents)
}

/// The contents of a management controller, as saved in an image.
#[derive(Drop)]
pub struct Image {
    contents: Contents,
}

impl Model for Image {
    ghost use Rattle.std.specs.Option.{option_map};
    ghost use Rattle.ipmi_bus.specs.Store.{Store, IsStore};
    ghost use Rattle.std.specs.Prelude.{◌≡◌, ℕ, List, Ok};
    ghost use Rattle.ipmi_image.specs.Image.{store_of_image};
    ghost use Rattle.ipmi_image.specs.Stored.{store_of};

    ghost Value = { Store };

    ghost view = { λ image. store_of image.contents };

    ghost invariant = { λ image. IsStore (store_of image.contents) × ((bytes : List ℕ) × (store_of_image bytes ≡ Ok (store_of image.contents))) };
}

impl Image {
    /// Reads an image of version 1 or 2. Err is the first fault in the text, or `Memory`.
    pub fn read(alloc: Global, bytes: &[u8]) -> Result<Image, ImageFault>
        ensures store { IfOk result (λ image. IsStore image) }
        ensures ok { IfOk result (λ image. store_of_image bytes.now ≡ Ok image) }
        ensures err { IfErr result (λ e. (e ≡ ImageFault.Memory) ⊎
            (store_of_image bytes.now ≡ Err e)) }
    {
        let Some((first, rest)) = cut(bytes, b'\n') else {
            return Err(ImageFault::Header);
        };
        let Some(version) = read_version(first) else {
            return Err(ImageFault::Header);
        };
        Ok(Image {
            contents: read_lines(alloc, version, rest)?,
        })
    }

    /// Reads the lines of an image of version 2 after the first one.
    pub(crate) fn read_lines(alloc: Global, text: &[u8]) -> Result<Image, ImageFault>
        ensures store { IfOk result (λ image. IsStore image) }
        ensures ok { IfOk result (λ image. store_after Version.Two [] (pieces 10 text.now) ≡ Ok image) }
        ensures err { IfErr result (λ e. (e ≡ ImageFault.Memory) ⊎
            (store_after Version.Two [] (pieces 10 text.now) ≡ Err e)) }
        ensures line { IfErr result (λ e. fault_line e ≤ length text.now + 3) }
    {
        Ok(Image {
            contents: read_lines(alloc, Version::Two, text)?,
        })
    }

    /// The image with these contents.
    pub(crate) fn of(contents: Contents) -> Image
        requires { IsBuilt contents }
        ensures { result ≡ store_of contents }
    {
        Image { contents }
    }

    /// The contents of the image.
    pub(crate) fn contents(&self) -> &Contents
        ensures is { store_of result.now ≡ self.now }
        ensures luns { All (λ sensor. sensor.lun ≤ 3) result.now.sensors }
        ensures store { IsStore self.now }
        ensures saved { IsSaved self.now }
    {
        &self.contents
    }

    /// The records of the shelf, in order.
    pub(crate) fn rows(&self, shelf: Shelf) -> &Rows
        ensures { chained result.now ≡ rows_of shelf self.now }
    {
        self.contents.rows(shelf)
    }

    /// Whether the shelf of `later` begins with the records of this one's.
    #[tactic(auto, using(crate::proofs::RowsLemmas::begins_with_chained))]
    pub(crate) fn begins(&self, later: &Image, shelf: Shelf) -> bool
        ensures { result ≡ begins_with (rows_of shelf self.now) (rows_of shelf later.now) }
    {
        self.rows(shelf).begin(later.rows(shelf))
    }

    /// The bytes of the inventory with this id.
    #[tactic(auto, using(crate::proofs::TableLemmas::inventory_in_place))]
    pub(crate) fn inventory(&self, id: u8) -> Option<&[u8]>
        ensures bytes { option_map (λ bytes. bytes.now) result ≡ inventory_of id self.now }
        ensures fits { IfSome result (λ bytes. length bytes.now ≤ 65535) }
    {
        let inventory = self.contents.inventories.get(u16::from(id))?;
        Some(inventory.bytes.as_slice())
    }

    /// The reading of the sensor with this number at this LUN.
    #[tactic(auto, using(crate::proofs::TableLemmas::reading_in_place))]
    pub(crate) fn reading(&self, lun: u8, number: u8) -> Option<Reading>
        ensures { result ≡ reading_of lun number self.now }
    {
        let sensor = self.contents.sensors.get(sensor_key(lun, number))?;
        Some(sensor.reading)
    }

    /// The info of the shelf.
    pub(crate) fn info(&self, shelf: Shelf) -> Option<[u8; INFO_LEN]>
        ensures { result ≡ info_of shelf self.now }
    {
        match shelf {
            Shelf::Sdr => self.contents.sdr_info,
            Shelf::Sel => self.contents.sel_info,
        }
    }
}
