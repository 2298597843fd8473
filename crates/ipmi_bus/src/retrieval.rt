//! Reads one record in parts (IPMI v2.0, section 33.12). Of a sensor data record, it reads the header first, then the
//! rest. Or it reads ahead: it asks for more than the header at once.
ghost use Rattle.std.specs.Prelude.{◌≡◌, ◌+◌, ◌<◌, ◌≤◌, None, Some, Ok, OnOk, OnErr, IfOk, IsOk, IsSome, length, take, slice_range};
ghost use Rattle.ipmi_bus.specs.Prelude.{Retrieval, Seen, AsksAtMost, IsCall, failing_code, IsHonest, StaysHonest, PartAnswers, class_of, largest_len, AreWithin, part_asked, len_of, look, rows_of};

use crate::calls::{Failure, after_failure, asked_len, smaller_part};
use crate::code::Code;
use crate::controller::{Controller, LARGEST_SDR_LEN, Part, SEL_ENTRY_LEN, Shelf, reads_ahead};
use crate::step::Ended;
use ipmi_text::{SDR_HEADER_LEN, sdr_len};

/// The length of the longest sensor data record of the standard in bytes.
const AHEAD_LEN: usize = 64;

/// Many controllers give at most about 32 bytes at once. One that refuses so few may refuse more than the record has.
const LEAST_AHEAD_LEN: usize = 32;

/// The result of reading a record.
#[derive(Clone, Copy)]
pub(crate) enum Found {
    /// The whole record was read.
    Whole,
    /// There is no such record.
    Absent,
}

/// The result of one call.
#[derive(Clone, Copy)]
pub(crate) enum CallOutcome {
    /// The record is not whole yet.
    Again,
    /// The read is over, with this result.
    Over(Found),
}

/// A record being read, and the state kept from record to record.
#[derive(Drop)]
pub(crate) struct Retrieval {
    pub(crate) shelf: Shelf,
    /// The largest number of bytes per request, 1 to 254.
    pub(crate) part: u8,
    /// The number of troubles allowed per record.
    pub(crate) tries: u8,
    /// The header of a sensor data record is not asked for alone. A refusal ends this, and a code for a smaller part once
    /// at most 32 bytes are too many.
    pub(crate) ahead: bool,
    pub(crate) reservation: Option<u16>,
    /// The requested id.
    pub(crate) id: u16,
    /// The number of troubles with this record so far.
    pub(crate) troubles: u16,
    /// The number of bytes of the record read so far.
    pub(crate) have: usize,
    /// The next id in the last part received.
    pub(crate) next: u16,
    pub(crate) buffer: [u8; LARGEST_SDR_LEN],
}

impl Retrieval {
    ghost use Rattle.ipmi_bus.specs.Retrieval.{IsOpenRecord, SameRequest, wanted_len, asked_to, request_len, ReserveFails, PartFails, TakesRecordPart, CallSays, CallLeaves};
    ghost use Rattle.ipmi_bus.specs.Since.{begun, HonestSince, ReadFirstAsks, ReadIsHonest, ReadLeaves, ReadNext, ReadSays};

    /// The number of bytes to read in all, as known from the bytes read so far.
    fn wanted(&self) -> usize
        ensures { result ≡ wanted_len self.now.shelf self.now.have self.now.buffer }
    {
        match self.shelf {
            Shelf::Sdr => {
                if self.have < SDR_HEADER_LEN {
                    SDR_HEADER_LEN
                } else {
                    sdr_len(&self.buffer)
                }
            }
            Shelf::Sel => SEL_ENTRY_LEN,
        }
    }

    /// The number of bytes that the next request may reach over.
    fn asked_to(&self) -> usize
        ensures { result ≡ asked_to self.now.ahead self.now.shelf self.now.have self.now.buffer }
    {
        if self.ahead && self.shelf == Shelf::Sdr && self.have < SDR_HEADER_LEN {
            AHEAD_LEN
        } else {
            self.wanted()
        }
    }

    /// Handles a failed request for a reservation.
    fn fail_reserve(&mut self, code: Code) -> Result<CallOutcome, Ended>
        requires is_open { IsOpenRecord self.old }
        ensures fails { ReserveFails (class_of code.0) code self.old self.new result }
        ensures request { SameRequest self.old self.new }
        ensures leaves { CallLeaves self.old self.new result }
    {
        match after_failure(code, self.troubles, self.tries) {
            Failure::Again | Failure::Anew => {
                self.troubles += 1;
                Ok(CallOutcome::Again)
            }
            Failure::GiveUp => Err(Ended::GaveUp(self.id)),
            Failure::Smaller | Failure::Absent | Failure::Refuse => {
                Err(Ended::Refused(self.id, code))
            }
        }
    }

    fn ask_reservation<C: Controller>(&mut self, ctl: &mut C) -> Result<CallOutcome, Ended>
        requires is_open { IsOpenRecord self.old }
        requires none { self.old.reservation ≡ None }
        ensures counted { IsCall 0 (C.seen ctl.old) (C.seen ctl.new) }
        ensures says { CallSays result (C.seen ctl.new) }
        ensures request { SameRequest self.old self.new }
        ensures leaves { CallLeaves self.old self.new result }
        ensures stays { IsHonest (C.seen ctl.old) → StaysHonest (C.seen ctl.old) (C.seen ctl.new) }
        ensures honest { (start : Retrieval) (s : Seen) → SameRequest start self.old →
            HonestSince start self.old s (C.seen ctl.old) →
            ReadNext start self.new s (C.seen ctl.new) result }
    {
        match ctl.reserve(self.shelf) {
            Ok(reservation) => {
                self.reservation = Some(reservation);
                Ok(CallOutcome::Again)
            }
            Err(code) => self.fail_reserve(code),
        }
    }

    /// Counts the bytes received into the buffer, without those after the end of the record, and checks the header once
    /// it is complete.
    fn take_part(&mut self, part: Part) -> Result<CallOutcome, Ended>
        requires is_open { IsOpenRecord self.old }
        requires fits { self.old.have + part.got ≤ 256 }
        ensures takes { TakesRecordPart part self.old self.new result }
    {
        if part.got == 0 {
            return Err(Ended::Stalled(self.id));
        }
        self.have += usize::from(part.got);
        self.next = part.next;
        let wanted = self.wanted();
        if wanted > LARGEST_SDR_LEN {
            return Err(Ended::Malformed(self.id));
        }
        if self.have < wanted {
            return Ok(CallOutcome::Again);
        }
        self.have = wanted;
        Ok(CallOutcome::Over(Found::Whole))
    }

    /// Requests some of the missing bytes and stores them in their place in the buffer.
    fn request<C: Controller>(
        &mut self,
        ctl: &mut C,
        reservation: u16,
        asked: usize,
    ) -> Result<Part, Code>
        requires some { 0 < asked }
        requires fits { asked < 255 }
        requires within { self.old.have + asked ≤ 256 }
        requires len { asked ≡ request_len self.old }
        ensures counted { IsCall (request_len self.old) (C.seen ctl.old) (C.seen ctl.new) }
        ensures failure { (C.seen ctl.new).last_failure ≡ failing_code result }
        ensures got { IfOk result (λ part. part.got ≤ asked) }
        ensures buffer { self.new ≡ record self.old { buffer = self.new.buffer } }
        ensures front { take self.old.have self.new.buffer ≡ take self.old.have self.old.buffer }
        ensures err { OnErr result (self.new ≡ self.old) }
        ensures honest { IsHonest (C.seen ctl.old) →
            PartAnswers (part_asked self.old.shelf reservation self.old.id self.old.have asked)
            result
            (slice_range self.new.buffer self.old.have (self.old.have + asked))
            (C.seen ctl.old) (C.seen ctl.new) }
    {
        let have = self.have;
        let into = &mut self.buffer[have..have + asked];
        ctl.part(self.shelf, reservation, self.id, have as u8, into)
    }

    /// Handles a failed request for `asked` bytes: counts a trouble, reduces the part size, or ends the read. A refusal to
    /// read ahead is kept from the caller: it may mean the length, and the header alone is asked for next.
    fn fail_part(&mut self, code: Code, asked: usize) -> Result<CallOutcome, Ended>
        requires is_open { IsOpenRecord self.old }
        requires asked { asked ≤ self.old.part }
        ensures fails { PartFails (class_of code.0) code asked self.old self.new result }
        ensures request { SameRequest self.old self.new }
        ensures leaves { CallLeaves self.old self.new result }
    {
        match after_failure(code, self.troubles, self.tries) {
            Failure::Again => {
                self.troubles += 1;
                Ok(CallOutcome::Again)
            }
            Failure::Anew => {
                self.troubles += 1;
                self.reservation = None;
                self.have = 0;
                Ok(CallOutcome::Again)
            }
            Failure::Smaller => {
                self.part = smaller_part(asked).ok_or(Ended::Stalled(self.id))?;
                self.ahead = self.ahead && asked > LEAST_AHEAD_LEN;
                Ok(CallOutcome::Again)
            }
            Failure::Absent => Ok(CallOutcome::Over(Found::Absent)),
            Failure::GiveUp => Err(Ended::GaveUp(self.id)),
            Failure::Refuse if reads_ahead(self.shelf, self.have as u8, asked) => {
                self.part = (asked / 2) as u8;
                self.ahead = false;
                Ok(CallOutcome::Again)
            }
            Failure::Refuse => Err(Ended::Refused(self.id, code)),
        }
    }

    /// Requests the next part under the reservation.
    fn ask_part<C: Controller>(
        &mut self,
        ctl: &mut C,
        reservation: u16,
    ) -> Result<CallOutcome, Ended>
        requires is_open { IsOpenRecord self.old }
        requires reserved { self.old.reservation ≡ Some reservation }
        ensures counted { IsCall (request_len self.old) (C.seen ctl.old) (C.seen ctl.new) }
        ensures says { CallSays result (C.seen ctl.new) }
        ensures request { SameRequest self.old self.new }
        ensures leaves { CallLeaves self.old self.new result }
        ensures stays { IsHonest (C.seen ctl.old) → StaysHonest (C.seen ctl.old) (C.seen ctl.new) }
        ensures honest { (start : Retrieval) (s : Seen) → SameRequest start self.old →
            HonestSince start self.old s (C.seen ctl.old) →
            ReadNext start self.new s (C.seen ctl.new) result }
    {
        let asked = asked_len(self.part, self.asked_to() - self.have);
        match self.request(ctl, reservation, asked) {
            Ok(part) => self.take_part(part),
            Err(code) => self.fail_part(code, asked),
        }
    }

    /// Makes one call: for a part, or for a reservation if none is held.
    fn make_call<C: Controller>(&mut self, ctl: &mut C) -> Result<CallOutcome, Ended>
        requires { IsOpenRecord self.old }
        ensures counted { (C.seen ctl.new).calls ≡ (C.seen ctl.old).calls + 1 }
        ensures last { IsSome self.old.reservation →
            (C.seen ctl.new).last_asked ≡ request_len self.old }
        ensures asked { AsksAtMost self.old.part (C.seen ctl.old) (C.seen ctl.new) }
        ensures says { CallSays result (C.seen ctl.new) }
        ensures request { SameRequest self.old self.new }
        ensures leaves { CallLeaves self.old self.new result }
        ensures stays { IsHonest (C.seen ctl.old) → StaysHonest (C.seen ctl.old) (C.seen ctl.new) }
        ensures honest { (start : Retrieval) (s : Seen) → SameRequest start self.old →
            HonestSince start self.old s (C.seen ctl.old) →
            ReadNext start self.new s (C.seen ctl.new) result }
    {
        match self.reservation {
            None => self.ask_reservation(ctl),
            Some(reservation) => self.ask_part(ctl, reservation),
        }
    }

    /// Reads the whole record with this id, if there is one.
    pub(crate) fn read<C: Controller>(&mut self, ctl: &mut C, id: u16) -> Result<Found, Ended>
        requires some { 0 < self.old.part }
        requires fits { self.old.part < 255 }
        ensures request { SameRequest (begun self.old id) self.new }
        ensures asked { AsksAtMost self.old.part (C.seen ctl.old) (C.seen ctl.new) }
        ensures first { ReadFirstAsks (begun self.old id) (C.seen ctl.old) (C.seen ctl.new) }
        ensures calls { AreWithin self.old.tries (largest_len self.old.shelf) self.old.part
            self.new.part (C.seen ctl.old) (C.seen ctl.new) }
        ensures row_calls { IsHonest (C.seen ctl.old) →
            (C.seen ctl.new).stores_added ≡ (C.seen ctl.old).stores_added →
            AreWithin self.old.tries
            (len_of (look (rows_of self.old.shelf (C.seen ctl.old).store) id)) self.old.part
            self.new.part (C.seen ctl.old) (C.seen ctl.new) }
        ensures leaves { ReadLeaves id self.new result }
        ensures says { ReadSays result (C.seen ctl.new) }
        ensures honest { IsHonest (C.seen ctl.old) →
            ReadIsHonest (begun self.old id) self.new (C.seen ctl.old) (C.seen ctl.new) result }
    {
        self.id = id;
        self.troubles = 0;
        self.have = 0;
        'reading: loop {
            match self.make_call(ctl)? {
                CallOutcome::Again => {}
                CallOutcome::Over(found) => return Ok(found),
            }
        }
    }
}
