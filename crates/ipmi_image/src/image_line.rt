//! Reads one line of an image.
ghost use Rattle.ipmi_image.specs.declared.cause.LineCause.{LineCause};
ghost use Rattle.ipmi_image.specs.declared.image_line.LineFault.{LineFault};
ghost use Rattle.std.specs.Prelude.{◌≡◌, ℕ, List, ◌==◌, ◌||◌, [], ◌∷◌, ◌++◌, ◌≢◌, IfSome, MatchBool, MatchOption, IsTrue, Some, None, Ok, Err, length};
ghost use Rattle.ipmi_image.specs.Prelude.{pieces, is_dash, next_in, shelf_in, row_cause, with_two, with_three, row_line, inventory_line, reading_line, info_line, line_of, line_of_fields, is_end, said, IsRead};

use crate::cause::LineCause;
use crate::text::{cut, cut_at, digits_fault, read_bytes, read_digit, read_u8, read_u16};
use crate::version::Version;
use ipmi_bus::Shelf;
use std::alloc::AllocError;

/// Why reading a line failed. Each variant has the meaning of the `ImageFault` of the same name.
#[derive(Clone, Copy)]
pub(crate) enum LineFault {
    Memory,
    Line(LineCause),
    Hex(LineCause),
    Id,
    Twice,
    Length,
    FirstId,
    TooMany,
}

impl LineFault {
    /// Whether the fault is out of memory.
    pub(crate) fn is_memory(self) -> bool
        ensures { MatchBool result (self ≡ LineFault.Memory) (self ≢ LineFault.Memory) }
    {
        matches!(self, LineFault::Memory)
    }
}

impl From<AllocError> for LineFault {
    ghost from_gives = { λ _ e. e ≡ LineFault.Memory };

    fn from(_error: AllocError) -> LineFault {
        LineFault::Memory
    }
}

/// The contents of a line, without the bytes of its last field, which are kept separately.
#[derive(Clone, Copy)]
pub(crate) enum Line {
    /// A record of a shelf. If `next` is None, its next id is the id of the following record, or FFFFh for the last
    /// record.
    Row {
        shelf: Shelf,
        id: u16,
        next: Option<u16>,
    },
    /// More bytes of the inventory of the FRU device with this id.
    Inventory(u8),
    /// The reading of the sensor with this number at this LUN.
    Reading {
        lun: u8,
        number: u8,
    },
    /// The shelf's repository info.
    Info(Shelf),
    /// The last line.
    End,
}

impl Line {
    /// Whether it is the last line.
    pub(crate) fn is_end(&self) -> bool
        ensures { (bytes : List ℕ) → result ≡ is_end (said bytes self.now) }
    {
        matches!(self, Line::End)
    }
}

/// The first word, and the text after it and a space. Checks for `sdr` and `sel` first, as most lines begin with them.
fn first_word(line: &[u8]) -> Option<(&[u8], &[u8])>
    ensures { MatchOption result (pieces 32 line.now ≡ line.now ∷ [])
        (λ parts. pieces 32 line.now ≡ parts.0.now ∷ pieces 32 parts.1.now) }
{
    if let Some((word, fields)) = cut_at(line, b' ', 3) {
        if parse_shelf(word).is_some() {
            return Some((word, fields));
        }
    }
    cut(line, b' ')
}

/// The two fields, if there are exactly two.
pub(crate) fn two(fields: &[u8]) -> Option<(&[u8], &[u8])>
    ensures { MatchOption result
        ((cause : LineCause) (line : _) → with_two cause line (pieces 32 fields.now) ≡ Err (LineFault.Line cause))
        (λ t. pieces 32 fields.now ≡ t.0.now ∷ t.1.now ∷ []) }
{
    let (first, second) = cut(fields, b' ')?;
    match cut(second, b' ') {
        None => Some((first, second)),
        Some(_) => None,
    }
}

/// The three fields, if there are exactly three.
#[tactic(auto, using(crate::proofs::LineLemmas::with_three_two))]
pub(crate) fn three(fields: &[u8]) -> Option<(&[u8], &[u8], &[u8])>
    ensures { MatchOption result
        ((cause : LineCause) (line : _) → with_three cause line (pieces 32 fields.now) ≡ Err (LineFault.Line cause))
        (λ t. pieces 32 fields.now ≡ t.0.now ∷ t.1.now ∷ t.2.now ∷ []) }
{
    let (first, rest) = cut(fields, b' ')?;
    let (second, third) = two(rest)?;
    Some((first, second, third))
}

/// The next id; a dash means the id of the following row.
fn parse_next(field: &[u8]) -> Option<Option<u16>>
    requires { IsTrue ((length field.now == 4) || is_dash field.now) }
    ensures { result ≡ next_in field.now }
{
    if matches!(field, b"-") {
        return Some(None);
    }
    let id = read_u16(field)?;
    Some(Some(id))
}

/// The shelf named by a word.
pub(crate) fn parse_shelf(word: &[u8]) -> Option<Shelf>
    ensures { result ≡ shelf_in word.now }
{
    match word {
        b"sdr" => Some(Shelf::Sdr),
        b"sel" => Some(Shelf::Sel),
        _ => None,
    }
}

/// The three fields, if there is a space after four characters, and another after four more or after one.
fn three_at_places(fields: &[u8]) -> Option<(&[u8], &[u8], &[u8])>
    ensures { IfSome result (λ t. fields.now ≡ t.0.now ++ 32 ∷ (t.1.now ++ 32 ∷ t.2.now)) }
{
    let (first, rest) = cut_at(fields, b' ', 4)?;
    let (second, third) = cut_at(rest, b' ', 4).or_else(|| cut_at(rest, b' ', 1))?;
    Some((first, second, third))
}

/// Why a row with this NEXT has a field of a wrong length.
fn row_cause(version: Version, next: &[u8]) -> LineCause
    ensures { result ≡ row_cause version next.now }
{
    if matches!(next, b"-") && !version.takes_dashes() {
        return LineCause::Dash;
    }
    LineCause::RowNumbers
}

/// Reads `ID NEXT HEX`, cut at its spaces.
// inlined for speed: most lines of an image are rows
#[inline(always)]
fn read_row(
    bytes: &mut Vec<u8>,
    version: Version,
    shelf: Shelf,
    id: &[u8],
    next: &[u8],
    hex: &[u8],
) -> Result<Line, LineFault>
    ensures { IsRead (row_line version shelf id.now next.now hex.now) bytes.new.items result }
{
    let is_next = next.len() == 4 || (version.takes_dashes() && matches!(next, b"-"));
    if id.len() != 4 || !is_next || hex.is_empty() {
        return Err(LineFault::Line(row_cause(version, next)));
    }
    let id = read_u16(id).ok_or(digits_fault(hex))?;
    let next = parse_next(next).ok_or(digits_fault(hex))?;
    read_bytes(bytes, hex)?;
    Ok(Line::Row { shelf, id, next })
}

/// Reads `ID NEXT HEX` after the name of a shelf.
fn parse_row(
    bytes: &mut Vec<u8>,
    version: Version,
    shelf: Shelf,
    fields: &[u8],
) -> Result<Line, LineFault>
    ensures { IsRead (with_three LineCause.RowFields (row_line version shelf) (pieces 32 fields.now)) bytes.new.items result }
{
    if let Some((id, next, hex)) = three_at_places(fields) {
        match read_row(bytes, version, shelf, id, next, hex) {
            // no field contains a space, so these are three fields
            Ok(line) => return Ok(line),
            Err(LineFault::Memory) => return Err(LineFault::Memory),
            // a space may be in the place of a digit
            Err(_) => {}
        }
    }
    let (id, next, hex) = three(fields).ok_or(LineFault::Line(LineCause::RowFields))?;
    read_row(bytes, version, shelf, id, next, hex)
}

/// Reads `ID HEX` after `fru`.
fn parse_inventory(bytes: &mut Vec<u8>, fields: &[u8]) -> Result<Line, LineFault>
    ensures { IsRead (with_two LineCause.InventoryFields inventory_line (pieces 32 fields.now)) bytes.new.items result }
{
    let (id, hex) = two(fields).ok_or(LineFault::Line(LineCause::InventoryFields))?;
    if id.len() != 2 || hex.is_empty() {
        return Err(LineFault::Line(LineCause::InventoryNumber));
    }
    let id = read_u8(id).ok_or(digits_fault(hex))?;
    read_bytes(bytes, hex)?;
    Ok(Line::Inventory(id))
}

/// Reads `LUN NUM HEX8` after `reading`.
fn parse_reading(bytes: &mut Vec<u8>, fields: &[u8]) -> Result<Line, LineFault>
    ensures { IsRead (with_three LineCause.ReadingFields reading_line (pieces 32 fields.now)) bytes.new.items result }
{
    let (lun, number, hex) = three(fields).ok_or(LineFault::Line(LineCause::ReadingFields))?;
    if lun.len() != 1 || number.len() != 2 || hex.is_empty() {
        return Err(LineFault::Line(LineCause::ReadingNumbers));
    }
    let lun = read_digit(lun).ok_or(digits_fault(hex))?;
    let number = read_u8(number).ok_or(digits_fault(hex))?;
    read_bytes(bytes, hex)?;
    Ok(Line::Reading { lun, number })
}

/// Reads `sdr HEX28` or `sel HEX28` after `info`.
fn parse_info(bytes: &mut Vec<u8>, fields: &[u8]) -> Result<Line, LineFault>
    ensures { IsRead (with_two LineCause.InfoFields info_line (pieces 32 fields.now)) bytes.new.items result }
{
    let fault = LineFault::Line(LineCause::InfoFields);
    let (word, hex) = two(fields).ok_or(fault)?;
    let shelf = parse_shelf(word).ok_or(fault)?;
    if hex.is_empty() {
        return Err(fault);
    }
    read_bytes(bytes, hex)?;
    Ok(Line::Info(shelf))
}

/// Reads a line with this first word and these fields, of which there is at least one.
#[tactic(auto, using(crate::proofs::LineLemmas::end_has_fields))]
fn parse_fields(
    bytes: &mut Vec<u8>,
    version: Version,
    word: &[u8],
    fields: &[u8],
) -> Result<Line, LineFault>
    ensures { IsRead (line_of_fields version (word.now ∷ pieces 32 fields.now)) bytes.new.items result }
{
    // a match on these words would have 18 default arms, each with its own goal
    if word == b"sdr".as_slice() {
        parse_row(bytes, version, Shelf::Sdr, fields)
    } else if word == b"sel".as_slice() {
        parse_row(bytes, version, Shelf::Sel, fields)
    } else if word == b"fru".as_slice() {
        parse_inventory(bytes, fields)
    } else if word == b"reading".as_slice() {
        parse_reading(bytes, fields)
    } else if word == b"info".as_slice() {
        parse_info(bytes, fields)
    } else if word == b"end".as_slice() {
        Err(LineFault::Line(LineCause::EndFields))
    } else {
        Err(LineFault::Line(LineCause::FirstWord))
    }
}

/// Reads a line (without its line feed), and stores the bytes of its last field in `bytes`. In version 2 a row's NEXT
/// may be a dash.
#[tactic(auto, using(crate::proofs::LineLemmas::with_empty_field), unfolding(crate::specs::Line::line_of))]
pub(crate) fn read_line(
    bytes: &mut Vec<u8>,
    version: Version,
    line: &[u8],
) -> Result<Line, LineFault>
    ensures { IsRead (line_of version line.now) bytes.new.items result }
{
    if let Some((word, fields)) = first_word(line) {
        return parse_fields(bytes, version, word, fields);
    }
    if line == b"end".as_slice() {
        return Ok(Line::End);
    }
    // one empty field is as wrong as none
    parse_fields(bytes, version, line, b"")
}
