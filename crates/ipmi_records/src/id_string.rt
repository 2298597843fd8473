//! The ID string of a record.
ghost use Rattle.std.specs.Prelude.{◌≡◌, ◌+◌, ◌<◌, length};
ghost use Rattle.ipmi_records.specs.Prelude.{id_field_at, id_field_of};

/// The ID string of a record: its type/length byte and the bytes after it (IPMI v2.0, section 43.15).
#[derive(Clone, Copy, Debug, PartialEq, Eq)]
pub struct IdString<'a> {
    /// The type/length byte.
    pub type_length: u8,
    /// All bytes after it.
    pub rest: &'a [u8],
}

impl<'a> IdString<'a> {
    /// The ID string whose type/length byte is at this offset.
    pub(crate) fn at(bytes: &'a [u8], place: usize) -> IdString<'a>
        requires { place < length bytes.now }
        ensures { id_field_of result ≡ id_field_at (place + 1) bytes.now }
    {
        IdString {
            type_length: bytes[place],
            rest: &bytes[place + 1..],
        }
    }
}
