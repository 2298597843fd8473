//! Writers that fail, fill up or are slow, and a comparison of what was written.
ghost use Rattle.std.specs.Prelude.{◌≤◌, IfOk, length};

use std::alloc::Global;
use std::io::{Error, ErrorKind, Result, Write};
use std::process::Abort;

/// Asserts that the bytes are this text.
pub fn assert_written_text(rt: &impl Abort, bytes: &[u8], text: &str) {
    let written = str::from_utf8(bytes).expect(rt, text);
    assert!(rt; written == text, "{written:?} is written, not {text:?}");
}

/// Appends the first of the bytes, at most `most`, and returns their number.
fn take_first(got: &mut Vec<u8>, bytes: &[u8], most: usize) -> Result<usize>
    ensures offered { IfOk result (λ count. count ≤ length bytes.now) }
    ensures most { IfOk result (λ count. count ≤ most) }
{
    let count = bytes.len().min(most);
    got.extend_from_slice(&bytes[..count])?;
    Ok(count)
}

/// Takes at most `most` bytes per call, and at most `room` in all. Then it fails, or takes none.
#[derive(Drop)]
pub struct Limited {
    pub got: Vec<u8>,
    room: usize,
    most: usize,
    fails: bool,
}

impl Limited {
    /// Takes `room` bytes in all, and then fails.
    pub fn failing_after(alloc: Global, room: usize) -> Limited {
        Limited {
            got: Vec::new(alloc),
            room,
            most: usize::MAX,
            fails: true,
        }
    }

    /// Takes `room` bytes in all, and then none.
    pub fn full_after(alloc: Global, room: usize) -> Limited {
        Limited {
            got: Vec::new(alloc),
            room,
            most: usize::MAX,
            fails: false,
        }
    }

    /// Takes at most `most` bytes per call.
    pub fn slow(alloc: Global, most: usize) -> Limited {
        Limited {
            got: Vec::new(alloc),
            room: usize::MAX,
            most,
            fails: false,
        }
    }
}

impl Write for Limited {
    fn write(&mut self, buf: &[u8]) -> Result<usize> {
        if self.fails && self.room == 0 {
            return Err(Error::from(ErrorKind::Other));
        }
        let offered = buf.get(..self.most).unwrap_or(buf);
        let count = take_first(&mut self.got, offered, self.room)?;
        self.room -= count;
        Ok(count)
    }

    fn flush(&mut self) -> Result<()> {
        Ok(())
    }
}
