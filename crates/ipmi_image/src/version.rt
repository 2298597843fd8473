//! The versions of an image's text.
ghost use Rattle.std.specs.Prelude.{◌≡◌};
ghost use Rattle.ipmi_image.specs.Prelude.{is_third, takes_dashes, version_in};

/// A version of the text of an image.
#[derive(Clone, Copy)]
pub(crate) enum Version {
    /// Each record states its next id.
    One,
    /// The next id of a record may be a dash.
    Two,
}

impl Version {
    /// Whether a next id may be a dash.
    pub(crate) fn takes_dashes(self) -> bool
        ensures { result ≡ takes_dashes self }
    {
        matches!(self, Version::Two)
    }
}

/// The version in the first line of an image. None if that is not the first line of an image.
pub(crate) fn read_version(line: &[u8]) -> Option<Version>
    ensures { result ≡ version_in line.now }
{
    // a match on these texts would have goals that the search does not prove
    if line == b"ipmi-image 1".as_slice() {
        return Some(Version::One);
    }
    if line == b"ipmi-image 2".as_slice() {
        return Some(Version::Two);
    }
    None
}

/// Whether this is the first line of an image of version 3.
pub(crate) fn is_third(line: &[u8]) -> bool
    ensures { result ≡ is_third line.now }
{
    line == b"ipmi-image 3".as_slice()
}
