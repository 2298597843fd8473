//! Which rule a faulty image breaks.
ghost use Rattle.std.specs.Prelude.{◌≡◌, ℕ, List, IfOk};
ghost use Rattle.std.specs.List.{list_any};
ghost use Rattle.ipmi_image.specs.Prelude.{beginning_cause, cause_of, ending_cause, field_cause, id_cause, is_compressed, is_empty, is_raw_record, is_wide, len_cause, line_at, line_cause, numbered_cause, pieces, rule_cause, said, space_cause, third_cause, twice_cause};

use crate::image::ImageFault;
use crate::image_line::{Line, LineFault, read_line};
use crate::lack::is_lack_line;
use crate::text::cut;
use crate::version::{Version, is_third, read_version};
use ipmi_bus::{FIRST_RECORD_ID, Shelf};
use std::alloc::{AllocError, Global};

/// What bytes are that do not begin as an image.
#[derive(Clone, Copy, Debug, PartialEq, Eq)]
pub enum Beginning {
    /// There are no bytes.
    Empty,
    /// The bytes begin as those of gzip, xz, zstd, bzip2, zip, lz4 or compress.
    Compressed,
    /// They begin with a byte order mark of UTF-8.
    ByteOrderMark,
    /// They begin with a byte order mark of UTF-16 or UTF-32.
    WideText,
    /// The first line ends with CR LF.
    CrLfText,
    /// The first line ends with CR alone.
    CrText,
    /// They begin as raw records of a shelf.
    RawRecords,
    /// They begin as a raw inventory.
    RawInventory,
    /// They begin with another first line.
    Header,
}

/// Why a line is invalid.
#[derive(Clone, Copy, Debug, PartialEq, Eq)]
pub enum LineCause {
    /// The line ends with CR LF.
    CrLf,
    /// The line has a tab.
    Tab,
    /// The line is empty.
    EmptyLine,
    /// The line begins with a space.
    LeadingSpace,
    /// Another field of the line is empty.
    EmptyField,
    /// The line has an unknown first word.
    FirstWord,
    /// The line of a record does not have three fields.
    RowFields,
    /// NEXT is a dash in version 1.
    Dash,
    /// ID or NEXT of a record has a wrong length.
    RowNumbers,
    /// The line of an inventory does not have two fields.
    InventoryFields,
    /// ID of an inventory has a wrong length.
    InventoryNumber,
    /// The line of a reading does not have three fields.
    ReadingFields,
    /// LUN or NUM has a wrong length.
    ReadingNumbers,
    /// The line of an info does not have `sdr` or `sel` and one more field.
    InfoFields,
    /// The line `end` has fields.
    EndFields,
    /// A line `lacks` has none of its forms, or comes after other lines.
    Lack,
    /// HEX has an odd number of digits.
    OddDigits,
    /// A field has a character that is not a hex digit.
    NotHex,
}

/// Which rule a line that can be read breaks, or the end of an image.
#[derive(Clone, Copy, Debug, PartialEq, Eq)]
pub enum RuleCause {
    /// The id of a record is FFFFh.
    LastId,
    /// The id of a record is 0000h, and the record is not the first one.
    ZeroId,
    /// The id of an inventory is FFh.
    DeviceId,
    /// The LUN of a reading is above 3.
    Lun,
    /// The shelf already has a record with this id.
    RecordTwice,
    /// The sensor already has a reading.
    ReadingTwice,
    /// The shelf already has an info.
    InfoTwice,
    /// The length of a sensor data record is another than its fifth byte says, or above 256.
    SdrLen,
    /// An event does not have 16 bytes.
    SelLen,
    /// A reading does not have 4 bytes.
    ReadingLen,
    /// An info does not have 14 bytes.
    InfoLen,
    /// The bytes of the first record do not begin with its id.
    FirstId,
    /// The inventory has more than 65,535 bytes.
    TooManyBytes,
    /// Something comes after the line `end`.
    AfterEnd,
    /// The last line is `end`, without a line feed.
    CutEnd,
    /// The last line has no line feed.
    CutLine,
    /// The last line is another than `end`.
    NoEnd,
}

/// Why an image is faulty.
#[derive(Clone, Copy, Debug, PartialEq, Eq)]
pub enum FaultCause {
    /// It is no image.
    Beginning(Beginning),
    /// The line is invalid.
    Line(LineCause),
    /// The line, or the end of the image, breaks this rule.
    Rule(RuleCause),
}

/// Whether it begins as a file of gzip, xz, zstd, bzip2, zip, lz4 or compress.
fn is_compressed(bytes: &[u8]) -> bool
    ensures { result ≡ is_compressed bytes.now }
{
    bytes.starts_with(b"\x1f\x8b")
        || bytes.starts_with(b"\xfd7zXZ\0")
        || bytes.starts_with(b"\x28\xb5\x2f\xfd")
        || bytes.starts_with(b"BZh")
        || bytes.starts_with(b"PK\x03\x04")
        || bytes.starts_with(b"\x04\x22\x4d\x18")
        || bytes.starts_with(b"\x1f\x9d")
}

/// Whether it begins with a byte order mark of UTF-16 or UTF-32.
fn is_wide(bytes: &[u8]) -> bool
    ensures { result ≡ is_wide bytes.now }
{
    bytes.starts_with(b"\xff\xfe")
        || bytes.starts_with(b"\xfe\xff")
        || bytes.starts_with(b"\0\0\xfe\xff")
}

/// Whether it begins as a raw record: an id below 0100h, then a version of sensor data records or the type of an event.
fn is_raw_record(bytes: &[u8]) -> bool
    ensures { result ≡ is_raw_record bytes.now }
{
    bytes.len() > 2 && bytes[1] == 0 && (bytes[2] == 0x51 || bytes[2] == 2)
}

/// What bytes are that do not begin as an image.
fn beginning_cause(bytes: &[u8]) -> Beginning
    ensures { result ≡ beginning_cause bytes.now }
{
    if bytes.is_empty() {
        Beginning::Empty
    } else if is_compressed(bytes) {
        Beginning::Compressed
    } else if bytes.starts_with(b"\xef\xbb\xbf") {
        Beginning::ByteOrderMark
    } else if is_wide(bytes) {
        Beginning::WideText
    } else if bytes.starts_with(b"ipmi-image 1\r\n") || bytes.starts_with(b"ipmi-image 2\r\n") {
        Beginning::CrLfText
    } else if bytes.starts_with(b"ipmi-image 1\r") || bytes.starts_with(b"ipmi-image 2\r") {
        Beginning::CrText
    } else if is_raw_record(bytes) {
        Beginning::RawRecords
    } else if bytes.starts_with(b"\x01") {
        Beginning::RawInventory
    } else {
        Beginning::Header
    }
}

/// How an image ends that has no line `end`.
fn ending_cause(bytes: &[u8]) -> RuleCause
    ensures { result ≡ ending_cause bytes.now }
{
    if bytes.ends_with(b"\nend") {
        RuleCause::CutEnd
    } else if bytes.ends_with(b"\n") {
        RuleCause::NoEnd
    } else {
        RuleCause::CutLine
    }
}

/// Whether a field of the line is empty.
fn has_empty_field(line: &[u8]) -> bool
    ensures { result ≡ list_any is_empty (pieces 32 line.now) }
{
    let mut rest = line;
    while let Some((field, more)) = cut(rest, b' ') {
        if field.is_empty() {
            return true;
        }
        rest = more;
    }
    rest.is_empty()
}

/// The fault in the white space of a line.
fn space_cause(line: &[u8]) -> Option<LineCause>
    ensures { result ≡ space_cause line.now }
{
    if line.ends_with(b"\r") {
        Some(LineCause::CrLf)
    } else if line.contains(&b'\t') {
        Some(LineCause::Tab)
    } else if line.is_empty() {
        Some(LineCause::EmptyLine)
    } else if line.starts_with(b" ") {
        Some(LineCause::LeadingSpace)
    } else {
        None
    }
}

/// Why a line is invalid that the reader refuses for this cause: an empty field tells more than a wrong number or length of
/// fields.
fn field_cause(line: &[u8], cause: LineCause) -> LineCause
    ensures { result ≡ field_cause line.now cause }
{
    let is_word = matches!(cause, LineCause::FirstWord | LineCause::EndFields);
    if !is_word && has_empty_field(line) {
        return LineCause::EmptyField;
    }
    cause
}

/// Why the line may not have its id.
fn id_cause(line: Line) -> Option<RuleCause>
    ensures { (bytes : List ℕ) → result ≡ id_cause (said bytes line) }
{
    match line {
        Line::Row { id, .. } if id == FIRST_RECORD_ID => Some(RuleCause::ZeroId),
        Line::Row { .. } => Some(RuleCause::LastId),
        Line::Inventory(_) => Some(RuleCause::DeviceId),
        Line::Reading { .. } => Some(RuleCause::Lun),
        Line::Info(_) | Line::End => None,
    }
}

/// What the line has in common with an earlier line.
fn twice_cause(line: Line) -> Option<RuleCause>
    ensures { (bytes : List ℕ) → result ≡ twice_cause (said bytes line) }
{
    match line {
        Line::Row { .. } => Some(RuleCause::RecordTwice),
        Line::Reading { .. } => Some(RuleCause::ReadingTwice),
        Line::Info(_) => Some(RuleCause::InfoTwice),
        Line::Inventory(_) | Line::End => None,
    }
}

/// Which length the bytes of the line do not have.
fn len_cause(line: Line) -> Option<RuleCause>
    ensures { (bytes : List ℕ) → result ≡ len_cause (said bytes line) }
{
    match line {
        Line::Row {
            shelf: Shelf::Sdr,
            ..
        } => Some(RuleCause::SdrLen),
        Line::Row {
            shelf: Shelf::Sel,
            ..
        } => Some(RuleCause::SelLen),
        Line::Reading { .. } => Some(RuleCause::ReadingLen),
        Line::Info(_) => Some(RuleCause::InfoLen),
        Line::Inventory(_) | Line::End => None,
    }
}

/// Which rule a line breaks that can be read.
fn rule_cause(fault: ImageFault, line: Line) -> Option<RuleCause>
    ensures { (bytes : List ℕ) → result ≡ rule_cause fault (said bytes line) }
{
    match fault {
        ImageFault::Id(_) => id_cause(line),
        ImageFault::Twice(_) => twice_cause(line),
        ImageFault::Length(_) => len_cause(line),
        _ => None,
    }
}

/// Which rule a line with this fault breaks.
fn line_cause(
    alloc: Global,
    version: Version,
    fault: ImageFault,
    line: &[u8],
) -> Result<Option<FaultCause>, AllocError>
    ensures { IfOk result (λ cause. cause ≡ line_cause version fault line.now) }
{
    if let Some(cause) = space_cause(line) {
        return Ok(Some(FaultCause::Line(cause)));
    }
    match read_line(&mut Vec::new(alloc), version, line) {
        Ok(line) => Ok(rule_cause(fault, line).map(FaultCause::Rule)),
        Err(LineFault::Line(cause)) => Ok(Some(FaultCause::Line(field_cause(line, cause)))),
        Err(LineFault::Hex(cause)) => Ok(Some(FaultCause::Line(cause))),
        Err(LineFault::Memory) => Err(AllocError),
        Err(_) => Ok(None),
    }
}

/// The line with this number, counted from 1; empty if there are not so many.
fn line_at(bytes: &[u8], number: usize) -> &[u8]
    ensures { result.now ≡ line_at bytes.now number }
{
    let mut rest = bytes;
    let mut left = number.saturating_sub(1);
    while left > 0 {
        let Some((_, more)) = cut(rest, b'\n') else {
            return &[];
        };
        rest = more;
        left -= 1;
    }
    match cut(rest, b'\n') {
        Some((line, _)) => line,
        None => rest,
    }
}

/// Which rule a line of version 3 with this fault breaks.
fn third_cause(
    alloc: Global,
    fault: ImageFault,
    line: &[u8],
) -> Result<Option<FaultCause>, AllocError>
    ensures { IfOk result (λ cause. cause ≡ third_cause fault line.now) }
{
    if is_lack_line(line) {
        let cause = space_cause(line).unwrap_or(LineCause::Lack);
        return Ok(Some(FaultCause::Line(cause)));
    }
    line_cause(alloc, Version::Two, fault, line)
}

/// Which rule the line with this number breaks.
fn numbered_cause(
    alloc: Global,
    bytes: &[u8],
    fault: ImageFault,
    number: usize,
) -> Result<Option<FaultCause>, AllocError>
    ensures { IfOk result (λ cause. cause ≡ numbered_cause bytes.now fault number) }
{
    let line = line_at(bytes, number);
    match read_version(line_at(bytes, 1)) {
        Some(version) => line_cause(alloc, version, fault, line),
        None if is_third(line_at(bytes, 1)) => third_cause(alloc, fault, line),
        None => Ok(None),
    }
}

/// Which rule bytes with this fault break; None if they do not have it. Err means out of memory.
pub fn fault_cause(
    alloc: Global,
    bytes: &[u8],
    fault: ImageFault,
) -> Result<Option<FaultCause>, AllocError>
    ensures { IfOk result (λ cause. cause ≡ cause_of bytes.now fault) }
{
    match fault {
        ImageFault::Header => Ok(Some(FaultCause::Beginning(beginning_cause(bytes)))),
        ImageFault::Line(number)
        | ImageFault::Hex(number)
        | ImageFault::Id(number)
        | ImageFault::Twice(number)
        | ImageFault::Length(number) => numbered_cause(alloc, bytes, fault, number),
        ImageFault::FirstId(_) => Ok(Some(FaultCause::Rule(RuleCause::FirstId))),
        ImageFault::NoEnd => Ok(Some(FaultCause::Rule(ending_cause(bytes)))),
        ImageFault::AfterEnd(_) => Ok(Some(FaultCause::Rule(RuleCause::AfterEnd))),
        ImageFault::TooMany(_) => Ok(Some(FaultCause::Rule(RuleCause::TooManyBytes))),
        ImageFault::Memory => Ok(None),
    }
}
