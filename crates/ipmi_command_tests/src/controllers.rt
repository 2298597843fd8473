//! Controllers for tests. `Counting` counts the calls of another one and may answer one of them with a code. `Replay`
//! answers from a list. `Endless` has a record for every id. None of them claims to be honest.
ghost use Rattle.std.specs.Prelude.{◌≡◌, ◌<◌, ◌≤◌, None, length, drop};
ghost use Rattle.ipmi_bus.specs.Seen.{IsCall, failing_code};
ghost use Rattle.ipmi_bus.specs.Unclaimed.{calls_only};

use ipmi_bus::{Code, Controller, Event, FruSize, Part, Shelf, Tally};
use ipmi_text::Reading;
use std::process::Abort;

/// The answer to a call for which a controller has no other answer.
const NO_ANSWER: Code = Code(0xFF);

/// Counts each call, and passes it on. One call may be answered with a code instead.
#[derive(Drop)]
pub struct Counting<C: Controller + Drop> {
    pub inner: C,
    pub calls: u32,
    interrupted: u32,
    code: u8,
    tally: Tally,
}

impl<C: Controller + Drop> Counting<C> {
    pub fn new(inner: C) -> Counting<C> {
        Counting::interrupting(inner, 0, 0)
    }

    /// Answers the call with this number, counted from 1, with the code.
    pub fn interrupting(inner: C, interrupted: u32, code: u8) -> Counting<C> {
        Counting {
            inner,
            calls: 0,
            interrupted,
            code,
            tally: Tally::new(),
        }
    }

    /// Counts a call for a part of this many bytes, or 0 for any other call. The interrupted call fails.
    fn count_call(&mut self, asked: u8) -> Result<(), Code>
        ensures counted { IsCall asked (calls_only self.old.tally.counts)
            (calls_only self.new.tally.counts) }
        ensures failure { self.new.tally.counts.last_failure ≡ failing_code result }
    {
        self.tally.count(Event::Called(asked));
        self.calls = self.calls.saturating_add(1);
        if self.calls == self.interrupted {
            return Err(self.tally.fail(Code(self.code)));
        }
        Ok(())
    }
}

impl<C: Controller + Drop> Controller for Counting<C> {
    ghost seen = { λ c. calls_only c.tally.counts };

    fn reserve(&mut self, shelf: Shelf) -> Result<u16, Code> {
        self.count_call(0)?;
        match self.inner.reserve(shelf) {
            Ok(answer) => Ok(answer),
            Err(code) => Err(self.tally.fail(code)),
        }
    }

    fn part(
        &mut self,
        shelf: Shelf,
        reservation: u16,
        id: u16,
        offset: u8,
        into: &mut [u8],
    ) -> Result<Part, Code> {
        self.count_call(into.len() as u8)?;
        match self.inner.part(shelf, reservation, id, offset, into) {
            Ok(answer) => Ok(answer),
            Err(code) => Err(self.tally.fail(code)),
        }
    }

    fn info(&mut self, shelf: Shelf) -> Result<[u8; 14], Code> {
        self.count_call(0)?;
        match self.inner.info(shelf) {
            Ok(answer) => Ok(answer),
            Err(code) => Err(self.tally.fail(code)),
        }
    }

    fn reading(&mut self, lun: u8, number: u8) -> Result<Reading, Code> {
        self.count_call(0)?;
        match self.inner.reading(lun, number) {
            Ok(answer) => Ok(answer),
            Err(code) => Err(self.tally.fail(code)),
        }
    }

    fn fru_size(&mut self, id: u8) -> Result<FruSize, Code> {
        self.count_call(0)?;
        match self.inner.fru_size(id) {
            Ok(answer) => Ok(answer),
            Err(code) => Err(self.tally.fail(code)),
        }
    }

    fn fru_part(&mut self, id: u8, offset: u16, into: &mut [u8]) -> Result<u8, Code> {
        self.count_call(into.len() as u8)?;
        match self.inner.fru_part(id, offset, into) {
            Ok(answer) => Ok(answer),
            Err(code) => Err(self.tally.fail(code)),
        }
    }
}

/// The answer to a call.
#[derive(Clone, Copy, Debug)]
pub enum Reply {
    /// This code.
    Fails(u8),
    /// This reservation.
    Reserves(u16),
    /// As many of these bytes as fit, with this next id.
    Gives(&'static [u8], u16),
    /// This info.
    Tells([u8; 14]),
    /// This reading.
    Reads(Reading),
    /// An inventory of this size.
    Has(FruSize),
}

impl Reply {
    /// The answer to a call of another kind.
    fn code(self) -> Code {
        match self {
            Reply::Fails(code) => Code(code),
            _ => NO_ANSWER,
        }
    }
}

/// Answers each call with the next reply, and repeats the last reply. It remembers the offset and the length of the last
/// part requested.
#[derive(Drop)]
pub struct Replay<'a> {
    replies: &'a [Reply],
    pub calls: u32,
    pub offset: u16,
    pub room: usize,
    tally: Tally,
}

impl<'a> Replay<'a> {
    pub fn new(replies: &'a [Reply]) -> Replay<'a> {
        Replay {
            replies,
            calls: 0,
            offset: 0,
            room: 0,
            tally: Tally::new(),
        }
    }

    /// Counts a call for a part of this many bytes, or 0 for any other call, and returns the next reply. The last reply is
    /// never used up.
    fn next_reply(&mut self, asked: u8) -> Reply
        ensures counted { IsCall asked (calls_only self.old.tally.counts)
            (calls_only self.new.tally.counts) }
        ensures failure { self.new.tally.counts.last_failure ≡ None }
    {
        self.tally.count(Event::Called(asked));
        self.calls = self.calls.saturating_add(1);
        match self.replies {
            [] => Reply::Fails(NO_ANSWER.0),
            [only] => *only,
            [first, rest @ ..] => {
                self.replies = rest;
                *first
            }
        }
    }

    /// The same for a part of `room` bytes from this offset on.
    fn next_part(&mut self, offset: u16, room: usize) -> Reply
        requires { room < 255 }
        ensures counted { IsCall room (calls_only self.old.tally.counts)
            (calls_only self.new.tally.counts) }
        ensures failure { self.new.tally.counts.last_failure ≡ None }
    {
        self.offset = offset;
        self.room = room;
        self.next_reply(room as u8)
    }
}

/// Asserts the offset and the length of the last part requested.
pub fn assert_last_request(rt: &impl Abort, ctl: &Replay, offset: u16, room: usize) {
    let got = ctl.offset;
    assert!(rt; got == offset, "asked from {got} on, not from {offset}");
    let got = ctl.room;
    assert!(rt; got == room, "asked for {got} bytes, not for {room}");
}

/// Copies as many bytes as fit, and returns their number.
fn give(bytes: &[u8], into: &mut [u8]) -> usize
    ensures fits { result ≤ length into.old }
    ensures rest { drop result into.new ≡ drop result into.old }
{
    let got = bytes.len().min(into.len());
    into[..got].copy_from_slice(&bytes[..got]);
    got
}

impl Controller for Replay<'_> {
    ghost seen = { λ c. calls_only c.tally.counts };

    fn reserve(&mut self, _shelf: Shelf) -> Result<u16, Code> {
        match self.next_reply(0) {
            Reply::Reserves(reservation) => Ok(reservation),
            other => Err(self.tally.fail(other.code())),
        }
    }

    fn part(
        &mut self,
        _shelf: Shelf,
        _reservation: u16,
        _id: u16,
        offset: u8,
        into: &mut [u8],
    ) -> Result<Part, Code> {
        match self.next_part(u16::from(offset), into.len()) {
            Reply::Gives(bytes, next) => Ok(Part {
                next,
                got: give(bytes, into) as u8,
            }),
            other => Err(self.tally.fail(other.code())),
        }
    }

    fn info(&mut self, _shelf: Shelf) -> Result<[u8; 14], Code> {
        match self.next_reply(0) {
            Reply::Tells(info) => Ok(info),
            other => Err(self.tally.fail(other.code())),
        }
    }

    fn reading(&mut self, _lun: u8, _number: u8) -> Result<Reading, Code> {
        match self.next_reply(0) {
            Reply::Reads(reading) => Ok(reading),
            other => Err(self.tally.fail(other.code())),
        }
    }

    fn fru_size(&mut self, _id: u8) -> Result<FruSize, Code> {
        match self.next_reply(0) {
            Reply::Has(size) => Ok(size),
            other => Err(self.tally.fail(other.code())),
        }
    }

    fn fru_part(&mut self, _id: u8, offset: u16, into: &mut [u8]) -> Result<u8, Code> {
        match self.next_part(offset, into.len()) {
            Reply::Gives(bytes, _) => Ok(give(bytes, into) as u8),
            other => Err(self.tally.fail(other.code())),
        }
    }
}

/// Has a record of five bytes for every id. The next id is one higher. It refuses all other calls, and counts calls for
/// reservations and parts.
#[derive(Drop)]
pub struct Endless {
    pub calls: u32,
    tally: Tally,
}

impl Endless {
    pub fn new() -> Endless {
        Endless {
            calls: 0,
            tally: Tally::new(),
        }
    }

    /// Counts a call for a reservation, or for a part of this many bytes.
    fn count_call(&mut self, asked: u8)
        ensures counted { IsCall asked (calls_only self.old.tally.counts)
            (calls_only self.new.tally.counts) }
        ensures failure { self.new.tally.counts.last_failure ≡ None }
    {
        self.tally.count(Event::Called(asked));
        self.calls = self.calls.saturating_add(1);
    }
}

impl Controller for Endless {
    ghost seen = { λ c. calls_only c.tally.counts };

    fn reserve(&mut self, _shelf: Shelf) -> Result<u16, Code> {
        self.count_call(0);
        Ok(1)
    }

    fn part(
        &mut self,
        _shelf: Shelf,
        _reservation: u16,
        id: u16,
        _offset: u8,
        into: &mut [u8],
    ) -> Result<Part, Code> {
        self.count_call(into.len() as u8);
        let id_bytes = id.to_le_bytes();
        let record = [id_bytes[0], id_bytes[1], 0x51, 0xC0, 0x00];
        Ok(Part {
            next: id.saturating_add(1),
            got: give(&record, into) as u8,
        })
    }

    fn info(&mut self, _shelf: Shelf) -> Result<[u8; 14], Code> {
        self.tally.count(Event::Called(0));
        Err(self.tally.fail(NO_ANSWER))
    }

    fn reading(&mut self, _lun: u8, _number: u8) -> Result<Reading, Code> {
        self.tally.count(Event::Called(0));
        Err(self.tally.fail(NO_ANSWER))
    }

    fn fru_size(&mut self, _id: u8) -> Result<FruSize, Code> {
        self.tally.count(Event::Called(0));
        Err(self.tally.fail(NO_ANSWER))
    }

    fn fru_part(&mut self, _id: u8, _offset: u16, into: &mut [u8]) -> Result<u8, Code> {
        self.tally.count(Event::Called(into.len() as u8));
        Err(self.tally.fail(NO_ANSWER))
    }
}
