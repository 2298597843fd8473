//! The output of the program, which may be closed by its reader.
ghost use Rattle.std.specs.Prelude.{◌≡◌, ◌||◌, false};
ghost use Rattle.std.specs.Io.{WritesAtMost};
ghost use Rattle.std.specs.Io.KnownBytes.{WriteAppends};
ghost use Rattle.serdimko.specs.Closed.{is_closing, says_closed};
ghost use Rattle.serdimko.specs.Out.{is_closed};

use ipmi_output::Written;
use std::io::{BufWriter, ErrorKind, Result, Write};

/// A writer that notes when its reader has closed it.
#[derive(Drop)]
pub(crate) struct Closable<W: Write> {
    writer: W,
    is_closed: bool,
}

/// The output: a buffer over such a writer.
pub(crate) type Output<W> = Written<BufWriter<Closable<W>>>;

impl<W: Write> Closable<W> {
    /// Over a writer, which is open.
    pub(crate) fn new(writer: W) -> Closable<W>
        ensures open { result.is_closed ≡ false }
        ensures writer { result.writer ≡ writer }
    {
        Closable {
            writer,
            is_closed: false,
        }
    }

    /// The writer.
    pub(crate) fn into_inner(self) -> W
        ensures { result ≡ self.writer }
    {
        self.writer
    }
}

/// Whether a writer with an error of this kind was closed by its reader.
fn is_closing(kind: ErrorKind) -> bool
    ensures { result ≡ is_closing kind }
{
    matches!(kind, ErrorKind::BrokenPipe)
}

impl<W: Write> Write for Closable<W> {
    ghost contents = { λ closable. W.contents closable.writer };

    fn write(&mut self, buf: &[u8]) -> Result<usize>
        ensures bound { WritesAtMost result buf.now }
        ensures bytes { WriteAppends (W.contents self.old.writer) (W.contents self.new.writer) result buf.now }
        ensures noted { self.new.is_closed ≡ (self.old.is_closed || says_closed result) }
    {
        let taken = self.writer.write(buf);
        if let Err(error) = &taken {
            self.is_closed |= is_closing(error.kind());
        }
        taken
    }

    fn flush(&mut self) -> Result<()> {
        self.writer.flush()
    }
}

/// Whether a write failed because the reader of the output has closed it.
pub(crate) fn is_closed<W: Write + Drop>(out: &Output<W>) -> bool
    ensures { result ≡ is_closed out.now }
{
    out.get_ref().get_ref().is_closed
}
