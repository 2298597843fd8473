//! The bytes of a record that is long enough for its fields.
ghost use Rattle.std.specs.Prelude.{◌≡◌, ◌≤◌, length, List, ℕ};

use std::marker::Model;

/// The bytes of a sensor data record, at least `LEN` of them. `TYPE` distinguishes the kinds of records: it is the
/// lowest record type of the kind.
#[derive(Debug, Drop)]
pub struct AtLeast<'a, const TYPE: u8, const LEN: usize> {
    pub(crate) bytes: &'a [u8],
}

impl<'a, const TYPE: u8, const LEN: usize> Model for AtLeast<'a, TYPE, LEN> {
    ghost Value = { List ℕ };

    ghost view = { λ v. v.bytes.now };

    ghost invariant = { λ v. LEN ≤ length v.bytes.now };
}

impl<'a, const TYPE: u8, const LEN: usize> AtLeast<'a, TYPE, LEN> {
    /// The view of a record that is long enough.
    pub(crate) fn new(bytes: &'a [u8]) -> AtLeast<'a, TYPE, LEN>
        requires { LEN ≤ length bytes.now }
        ensures { result ≡ bytes.now }
    {
        AtLeast { bytes }
    }

    pub(crate) fn bytes(&self) -> &'a [u8]
        ensures value { result.now ≡ self.now }
        ensures len { LEN ≤ length result.now }
    {
        self.bytes
    }
}
