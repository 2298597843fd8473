//! A reader that keeps what it gave.
ghost use Rattle.std.specs.Prelude.{ℕ, ◌≡◌, List, [], ◌∷◌, ◌++◌, MatchOption, option_map, unwrap_or};
ghost use Rattle.std.specs.Borrow.{ftrue};
ghost use Rattle.std.specs.Io.KnownBytes.{Consumes};

use std::io::{ErrorKind, Read};
use std::marker::Model;

/// The bytes that a reader gave so far. Only contracts see them, so they have no cost at run time.
#[derive(Drop)]
struct History {
    pub ghost given: { List ℕ },
}

impl Model for History {
    ghost also_owns = { λ _. ftrue };
}

/// What a reader gave before, if anything, and what it gives now.
#[derive(Clone, Copy)]
struct Gift<'h, 'b>(Option<&'h History>, &'b [u8]);

impl History {
    /// The history after the reader gave this.
    fn after(_gift: &Gift<'_, '_>) -> History
        ensures { result.given ≡ unwrap_or (option_map (λ h. h.now.given) _gift.now.0) [] ++ _gift.now.1.now }
    {
        History {}
    }
}

/// The next byte. None at the end of the stream, or if reading fails.
fn read_byte<R: Read>(reader: &mut R) -> Option<u8>
    ensures { MatchOption result
        (Consumes (R.remaining reader.old) (R.remaining reader.new) [])
        (λ byte. Consumes (R.remaining reader.old) (R.remaining reader.new) (byte ∷ [])) }
{
    let mut byte = [0];
    for _ in 0..u64::MAX {
        match reader.read(&mut byte) {
            Ok(0) => return None,
            Ok(_) => return Some(byte[0]),
            Err(error) if error.kind() == ErrorKind::Interrupted => {}
            Err(_) => return None,
        }
    }
    None
}

/// A reader that is read byte by byte, and the bytes that it gave.
#[derive(Drop)]
pub struct Heard<R> {
    reader: R,
    history: History,
}

impl<R: Read> Heard<R> {
    ghost use Rattle.ipmi_raw.specs.Heard.{given_of, reader_of};

    /// A reader that gave nothing yet.
    pub fn new(reader: R) -> Heard<R>
        ensures reader { reader_of result ≡ reader }
        ensures given { given_of result ≡ [] }
    {
        Heard {
            reader,
            history: History::after(&Gift(None, &[])),
        }
    }

    /// The next byte. None at the end of the stream, or if reading fails.
    pub fn read_byte(&mut self) -> Option<u8>
        ensures given { MatchOption result (given_of self.new ≡ given_of self.old)
            (λ byte. given_of self.new ≡ given_of self.old ++ byte ∷ []) }
        ensures read { MatchOption result
            (Consumes (R.remaining (reader_of self.old)) (R.remaining (reader_of self.new)) [])
            (λ byte. Consumes (R.remaining (reader_of self.old)) (R.remaining (reader_of self.new)) (byte ∷ [])) }
    {
        let byte = read_byte(&mut self.reader)?;
        let before = Some(&self.history);
        self.history = History::after(&Gift(before, &[byte]));
        Some(byte)
    }
}
