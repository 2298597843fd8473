//! Record types that have no name.
ghost use Rattle.std.specs.Prelude.{Some};
ghost use Rattle.ipmi_records.specs.Prelude.{type_text};

use ipmi_text::HexByte;
use std::fmt;

/// A record type that has no name, printed as its number.
#[derive(Clone, Copy)]
pub(crate) struct RecordType(pub(crate) u8);

impl fmt::Display for RecordType {
    ghost output = { λ kind. Some (type_text kind.0) };

    fn fmt<W: fmt::Write>(&self, f: &mut fmt::Formatter<W>) -> fmt::Result {
        let kind = HexByte(self.0);
        write!(f, "record type 0x{kind}")
    }
}
