//! Names from tables, and what is printed for a code without a name.
ghost use Rattle.std.specs.Prelude.{◌≡◌, ◌<◌, IfSome, length, map, option_map, slice_get, slice_index_or, []};
ghost use Rattle.std.specs.List.{position};
ghost use Rattle.std.specs.Str.{str_eq_ignore_ascii_case};
ghost use Rattle.ipmi_text.specs.Names.{name_from_one};

use crate::hex_digits::HexByte;
use std::fmt;

/// The name at an index of a table.
pub(crate) fn name_at(table: &[&'static str], at: usize) -> Option<&'static str>
    ensures { option_map (λ s. s.now) result ≡ slice_get (map (λ s. s.now) table.now) at }
{
    table.get(at).copied()
}

/// The text of a number, from a table that begins with number 0.
pub(crate) fn text_at(table: &[&'static str], number: usize) -> &'static str
    requires { number < length table.now }
    ensures { result.now ≡ slice_index_or (map (λ s. s.now) table.now) number [] }
{
    table[number]
}

/// The name of a code, from a table that begins with code 1.
pub(crate) fn name_from_one(table: &[&'static str], code: u8) -> Option<&'static str>
    ensures { option_map (λ s. s.now) result ≡ name_from_one (map (λ s. s.now) table.now) code }
{
    name_at(table, usize::from(code).checked_sub(1)?)
}

/// The index of a name in a table, in capital or small letters.
pub(crate) fn place_of(table: &[&'static str], name: &str) -> Option<usize>
    ensures place { result ≡ position (λ known. str_eq_ignore_ascii_case known.now name.now) table.now }
    ensures bound { IfSome result (λ place. place < length table.now) }
{
    table
        .iter()
        .position(|known| known.eq_ignore_ascii_case(name))
}

/// A code of some kind, printed as its name, or as `KIND 0xNN` if it has none.
#[derive(Clone, Copy)]
pub(crate) struct NameOrCode {
    pub(crate) name: Option<&'static str>,
    pub(crate) kind: &'static str,
    pub(crate) code: u8,
}

impl fmt::Display for NameOrCode {
    ghost use Rattle.std.specs.Prelude.{Some, option_map};
    ghost use Rattle.ipmi_text.specs.Names.{name_or_code};

    ghost output = { λ words. Some (name_or_code (option_map (λ s. s.now) words.name) words.kind.now words.code) };

    fn fmt<W: fmt::Write>(&self, f: &mut fmt::Formatter<W>) -> fmt::Result {
        match self.name {
            Some(name) => f.write_str(name),
            None => {
                let kind = self.kind;
                let code = HexByte(self.code);
                write!(f, "{kind} 0x{code}")
            }
        }
    }
}
