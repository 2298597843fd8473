//! Short texts of a fixed number of ASCII characters, which are made at once and need no memory.
ghost use Rattle.std.specs.Prelude.{◌≡◌};
ghost use Rattle.std.specs.Str.{IsAscii};

/// So many ASCII characters.
#[derive(Clone, Copy, Debug)]
pub(crate) struct AsciiText<const N: usize> {
    pub(crate) characters: [u8; N],
    ghost ascii: { IsAscii characters },
}

impl<const N: usize> AsciiText<N> {
    /// The text.
    pub(crate) fn as_str(&self) -> &str
        ensures { result.now ≡ self.now.characters }
    {
        match str::from_utf8(&self.characters) {
            Ok(text) => text,
            Err(_) => unreachable!(),
        }
    }
}
