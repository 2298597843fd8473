//! What an image lacks, and the lines that say so.
ghost use Rattle.std.specs.Prelude.{◌≡◌, ◌==◌, true, false, IfSome, length, option_map, find};
ghost use Rattle.std.specs.List.{list_any};
ghost use Rattle.ipmi_image.specs.Prelude.{byte_in, code_for, digit_in, hides, hides_part, hides_record, is_lack_line, item_in, lack_for, lack_of_fields, lack_of_one, lack_of_reading, lack_with, may_name, may_refuse, pieces, reading_in_fields, refuses, same_shelf, word_in};

use crate::image_line::{parse_shelf, three, two};
use crate::text::{cut, read_digit, read_u8, read_u16};
use ipmi_bus::{Code, CodeClass, Shelf};

/// Something that a capture may leave out.
#[derive(Clone, Copy, Debug, PartialEq, Eq)]
pub enum Item {
    /// The record that this id requests, and those that come after it.
    Record(Shelf, u16),
    /// The info of a shelf.
    Info(Shelf),
    /// The reading of the sensor with this number at this LUN.
    Reading { lun: u8, number: u8 },
    /// The size of the inventory of the FRU device with this id, and so the inventory.
    Size(u8),
    /// The bytes of the inventory of the FRU device with this id.
    Inventory(u8),
}

/// An item that an image lacks.
#[derive(Clone, Copy, Debug, PartialEq, Eq)]
pub struct Lack {
    /// The item.
    pub item: Item,
    /// The completion code with which the controller ended the last request for it.
    pub code: Code,
}

/// Whether these are the same.
fn same_shelf(a: Shelf, b: Shelf) -> bool
    ensures { result ≡ same_shelf a b }
{
    matches!((a, b), (Shelf::Sdr, Shelf::Sdr) | (Shelf::Sel, Shelf::Sel))
}

impl Item {
    /// Whether the other item may be lacking where this one is. After a record any other may be. A lacking reading is only noted.
    fn hides(self, asked: Item) -> bool
        ensures { result ≡ hides self asked }
    {
        match (self, asked) {
            (Item::Record(lacked, _), Item::Record(shelf, _)) => same_shelf(lacked, shelf),
            (Item::Info(lacked), Item::Info(shelf)) => same_shelf(lacked, shelf),
            (Item::Size(lacked), Item::Inventory(id)) => lacked == id,
            (Item::Inventory(lacked), Item::Inventory(id)) => lacked == id,
            _ => false,
        }
    }
}

/// Whether a request for an item that is there may end with the code: it is a refusal, or the controller is busy.
fn may_refuse(code: Code) -> bool
    ensures { result ≡ may_refuse code }
{
    match code.class() {
        CodeClass::Busy => true,
        CodeClass::Refusal => code.0 != 0,
        _ => false,
    }
}

impl Lack {
    /// Whether a request for the item ends with the code.
    fn refuses(&self, asked: Item) -> bool
        ensures { result ≡ refuses asked self.now }
    {
        self.item.hides(asked) && may_refuse(self.code)
    }

    /// Whether a lacking sensor data record may name the FRU device with this inventory.
    fn may_name(&self, asked: Item) -> bool
        ensures { result ≡ may_name asked self.now }
    {
        match asked {
            Item::Inventory(_) => self.refuses(Item::Record(Shelf::Sdr, 0)),
            _ => false,
        }
    }

    /// Whether a record of the shelf was not read whole.
    fn hides_record(&self, shelf: Shelf) -> bool
        ensures { result ≡ hides_record shelf self.now }
    {
        match self.item {
            Item::Record(lacked, _) => same_shelf(lacked, shelf),
            _ => false,
        }
    }

    /// Whether a record or an inventory was not read whole.
    pub(crate) fn hides_part(&self) -> bool
        ensures { result ≡ hides_part self.now }
    {
        matches!(self.item, Item::Record(..) | Item::Inventory(_))
    }
}

/// Whether a record of the shelf was not read whole.
pub(crate) fn hides_records(shelf: Shelf, lacks: &[Lack]) -> bool
    ensures { result ≡ list_any (hides_record shelf) lacks.now }
{
    lacks.iter().any(|lack| lack.hides_record(shelf))
}

/// The first lacking item without which this one may be lacking.
fn first_refusing(asked: Item, lacks: &[Lack]) -> Option<Lack>
    ensures { result ≡ find (refuses asked) lacks.now }
{
    lacks.iter().copied().find(|lack| lack.refuses(asked))
}

/// The first lacking sensor data record, if such records may name the FRU device with this inventory.
fn first_naming(asked: Item, lacks: &[Lack]) -> Option<Lack>
    ensures { result ≡ find (may_name asked) lacks.now }
{
    lacks.iter().copied().find(|lack| lack.may_name(asked))
}

/// Why an item that the image does not have may be lacking.
fn lack_for(asked: Item, lacks: &[Lack]) -> Option<Lack>
    ensures { result ≡ lack_for asked lacks.now }
{
    match first_refusing(asked, lacks) {
        Some(lack) => Some(lack),
        None => first_naming(asked, lacks),
    }
}

/// The code for a request for an item that the image does not have, if it may be lacking.
#[tactic(auto, using(crate::proofs::SnapshotLemmas::code_refuses, crate::proofs::SnapshotLemmas::is_lacking))]
pub(crate) fn code_for(asked: Item, lacks: &[Lack]) -> Option<Code>
    ensures code { result ≡ code_for asked lacks.now }
    ensures refuses { IfSome result (λ code. may_refuse code ≡ true) }
    ensures lacking { IfSome result (λ code. (length lacks.now == 0) ≡ false) }
{
    let lack = lack_for(asked, lacks)?;
    Some(lack.code)
}

/// The number that two hex digits are.
fn parse_byte(digits: &[u8]) -> Option<u8>
    ensures { result ≡ byte_in digits.now }
{
    if digits.len() != 2 {
        return None;
    }
    read_u8(digits)
}

/// The number that four hex digits are.
fn parse_word(digits: &[u8]) -> Option<u16>
    ensures { result ≡ word_in digits.now }
{
    if digits.len() != 4 {
        return None;
    }
    read_u16(digits)
}

/// The number that one hex digit is.
fn parse_digit(digit: &[u8]) -> Option<u8>
    ensures { result ≡ digit_in digit.now }
{
    if digit.len() != 1 {
        return None;
    }
    read_digit(digit)
}

/// The item of this kind that one field names.
fn parse_item(kind: &[u8], id: &[u8]) -> Option<Item>
    ensures { result ≡ item_in kind.now id.now }
{
    if let Some(shelf) = parse_shelf(kind) {
        return Some(Item::Record(shelf, parse_word(id)?));
    }
    if kind == b"info".as_slice() {
        return Some(Item::Info(parse_shelf(id)?));
    }
    if kind == b"size".as_slice() {
        return Some(Item::Size(parse_byte(id)?));
    }
    if kind == b"fru".as_slice() {
        return Some(Item::Inventory(parse_byte(id)?));
    }
    None
}

/// The reading of the sensor that two fields name.
fn parse_reading(lun: &[u8], number: &[u8]) -> Option<Item>
    ensures { result ≡ reading_in_fields lun.now number.now }
{
    let lun = parse_digit(lun)?;
    let number = parse_byte(number)?;
    Some(Item::Reading { lun, number })
}

/// The item with the code in two hex digits.
fn parse_code(item: Option<Item>, code: &[u8]) -> Option<Lack>
    ensures { result ≡ lack_with item code.now }
{
    let item = item?;
    let code = Code(parse_byte(code)?);
    Some(Lack { item, code })
}

/// Whether the line names a lacking item.
pub(crate) fn is_lack_line(line: &[u8]) -> bool
    ensures { result ≡ is_lack_line line.now }
{
    line.starts_with(b"lacks ")
}

/// What a line `lacks` says, from the text after that word and a space.
#[tactic(auto, using(crate::proofs::SnapshotLemmas::not_three, crate::proofs::SnapshotLemmas::not_two))]
pub(crate) fn parse_lack(fields: &[u8]) -> Option<Lack>
    ensures { result ≡ lack_of_fields (pieces 32 fields.now) }
{
    let (kind, fields) = cut(fields, b' ')?;
    if kind == b"reading".as_slice() {
        let (lun, number, code) = three(fields)?;
        return parse_code(parse_reading(lun, number), code);
    }
    let (id, code) = two(fields)?;
    parse_code(parse_item(kind, id), code)
}
