//! The fields of an area, encoded as type/length bytes and data (Platform Management FRU Information Storage
//! Definition v1.0, section 13).
ghost use Rattle.std.specs.Prelude.{◌≡◌, ◌/◌, ◌%◌, ◌<◌, [], IsTrue, is_some, unwrap_or};

use std::marker::Model;

/// The byte after the last field.
const NO_MORE_FIELDS: u8 = 0xC1;

/// Bits 5:0 of a type/length byte: the number of data bytes that follow.
const LEN_BITS: u8 = 0x3F;

/// A field of an area: the type code of its type/length byte, and its data.
#[derive(Clone, Copy, Debug, PartialEq, Eq)]
pub struct Field<'a> {
    /// Bits 7:6 of the type/length byte: 0 binary, 1 BCD plus, 2 6-bit ASCII, 3 by the language.
    pub code: u8,
    /// The data. Bits 5:0 of the type/length byte are its length.
    pub bytes: &'a [u8],
    /// The precondition of `fru_text`.
    pub ghost two_bits: { code < 4 },
}

/// Bits 7:6 of a type/length byte: the type code of the field.
fn code_of(type_length: u8) -> u8
    ensures { result ≡ type_length / 64 }
{
    type_length >> 6
}

/// The number of data bytes that follow a type/length byte.
fn len_of(type_length: u8) -> usize
    ensures { result ≡ type_length % 64 }
{
    usize::from(type_length & LEN_BITS)
}

/// The first item in bytes that are read as fields.
#[derive(Clone, Copy)]
enum Beginning<'a> {
    /// No more fields.
    End,
    /// A field that is longer than the remaining bytes.
    PastEnd,
    /// A field, and the bytes after it.
    Field(Field<'a>, &'a [u8]),
}

impl<'a> Beginning<'a> {
    ghost use Rattle.ipmi_fru.specs.Field.{Begins};

    /// The first item in the bytes.
    fn of(bytes: &'a [u8]) -> Beginning<'a>
        ensures { Begins bytes.now result }
    {
        let Some((first, after)) = bytes.split_first() else {
            return Beginning::End;
        };
        let type_length = *first;
        if type_length == NO_MORE_FIELDS {
            return Beginning::End;
        }
        let Some((bytes, rest)) = after.split_at_checked(len_of(type_length)) else {
            return Beginning::PastEnd;
        };
        let code = code_of(type_length);
        Beginning::Field(Field { code, bytes }, rest)
    }
}

/// An iterator over the fields of an area, in order. In contracts it is the list of the remaining fields.
#[derive(Debug, Drop)]
pub struct Fields<'a> {
    left: &'a [u8],
}

impl<'a> Model for Fields<'a> {
    ghost use Rattle.std.specs.Prelude.{List, [], IsTrue, is_some, unwrap_or};
    ghost use Rattle.ipmi_fru.specs.Field.{AreaField, fields_in};

    ghost Value = { List AreaField };

    ghost view = { λ f. unwrap_or (fields_in f.left.now) [] };

    ghost invariant = { λ f. IsTrue (is_some (fields_in f.left.now)) };
}

impl<'a> Fields<'a> {
    ghost use Rattle.ipmi_fru.specs.Field.{fields_in};

    /// Whether the bytes encode a list of fields.
    pub(crate) fn are_spelt(bytes: &[u8]) -> bool
        ensures { result ≡ is_some (fields_in bytes.now) }
    {
        let mut rest = bytes;
        'fields: loop {
            match Beginning::of(rest) {
                Beginning::End => return true,
                Beginning::PastEnd => return false,
                Beginning::Field(_, after) => rest = after,
            }
        }
    }

    /// The fields that the bytes encode.
    pub(crate) fn new(bytes: &'a [u8]) -> Fields<'a>
        requires { IsTrue (is_some (fields_in bytes.now)) }
        ensures { result ≡ unwrap_or (fields_in bytes.now) [] }
    {
        Fields { left: bytes }
    }
}

impl<'a> Iterator for Fields<'a> {
    ghost use Rattle.std.specs.Iterator.{YieldsFirstBy, item_count};
    ghost use Rattle.ipmi_fru.specs.Field.{field_of};

    type Item = Field<'a>;

    ghost next_gives = { YieldsFirstBy field_of (λ left. left) };

    ghost remaining = { item_count (λ left. left) };

    fn next(&mut self) -> Option<Field<'a>> {
        let Beginning::Field(field, rest) = Beginning::of(self.left) else {
            return None;
        };
        self.left = rest;
        Some(field)
    }
}
