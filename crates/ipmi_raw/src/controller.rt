//! A management controller that is asked through a peer.
ghost use Rattle.std.specs.Prelude.{None, Option, Result, Some, ◌≡◌, ◌+◌, ◌<◌, ◌≤◌, IfSome, MatchBool, MatchOption, IfOk, OnErr, false, is_none, not, true, length, take, drop, option_map};
ghost use Rattle.ipmi_bus.specs.Counts.{Counts};
ghost use Rattle.ipmi_bus.specs.Shelf.{id_in};
ghost use Rattle.ipmi_bus.specs.Prelude.{IsCall, failing_code, IsHonest, info_of, reading_of, ReserveAnswers, PartAnswers, ValueAnswers, SizeAnswers, BytesAnswers, part_asked, counts_after, zero_counts};
ghost use Rattle.ipmi_bus.specs.declared.tally.Event.{Event};
ghost use Rattle.ipmi_raw.specs.Answer.{CountsCalls, data_in, first_in, given, IsAnswer, IsDataIfAny, IsDataOf, part_in, reading_in, size_in, value_in};
ghost use Rattle.ipmi_raw.specs.Controller.{Asks, Exchanged, is_answer, last_words, Probes, seen_of, Sends, seen_through, silent_after, tool_of};
ghost use Rattle.ipmi_raw.specs.Request.{inventory_part, IsRequest, record_part};
ghost use Rattle.ipmi_raw.specs.declared.reply.Reply.{Reply};
ghost use Rattle.ipmi_raw.specs.declared.request.Request.TheVariants as Request;

use crate::peer::{Peer, ReplyText};
use crate::reply::{Reply, ReplyBytes};
use crate::request::{InventoryPart, RecordPart, Request};
use crate::silence::Silence;
use ipmi_bus::{Code, CodeClass, Controller, Event, FruSize, INFO_LEN, Part, Shelf, Tally};
use ipmi_text::Reading;
use std::thread;
use std::time::{Clock, Duration};

/// The code with which each call fails once the connection is lost: an unspecified error (IPMI v2.0, table 5-2).
const CONNECTION_LOST: Code = Code(0xFF);

/// The reservation number for a controller without reservations, as bytes of a reply.
const NO_RESERVATION: [u8; 2] = [0; 2];

/// A management controller that is asked through a peer.
///
/// The connection is lost if the peer reports that, or if its text is not a reply to the request. From then on
/// nothing is sent, and each call fails with FFh.
///
/// A thing that had one trouble more than `tries` is given up. If so many requests in a row are met with silence, the
/// call also sends Get Device ID, which each controller answers. If that is met with silence too, the connection is
/// lost. So a machine that dies costs `tries` + 1 requests and one Get Device ID.
///
/// A busy controller answers at once, and callers repeat the request at once. So each call that fails with C0h, C3h
/// or 81h waits for the pause.
#[derive(Drop)]
pub struct RawController<P, K> {
    peer: P,
    clock: K,
    pause: Duration,
    silence: Silence,
    tally: Tally,
    /// The last text received from the peer.
    text: ReplyText,
    is_lost: bool,
}

impl<P: Peer, K: Clock> RawController<P, K> {
    /// The controller at the other end of the peer. A thing may have so many troubles as `tries` says.
    pub fn new(peer: P, clock: K, pause: Duration, tries: u8) -> RawController<P, K>
        ensures seen { seen_of P.seen result ≡ seen_through (P.seen peer) zero_counts false }
        ensures lost { last_words result ≡ None }
        ensures peer { result.peer ≡ peer }
        ensures clock { result.clock ≡ clock }
        ensures pause { result.pause ≡ pause }
        ensures tries { result.silence.tries ≡ tries }
        ensures silent { result.silence.silent ≡ 0 }
    {
        RawController {
            peer,
            clock,
            pause,
            silence: Silence::new(tries),
            tally: Tally::new(),
            text: ReplyText::new(),
            is_lost: false,
        }
    }

    /// The last output of the tool, if the connection is lost. It usually says why.
    pub fn lost(&self) -> Option<&[u8]>
        ensures { option_map (λ text. text.now) result ≡ last_words self.now }
    {
        if self.is_lost {
            Some(self.text.as_slice())
        } else {
            None
        }
    }

    /// Sends the request and reads the reply. None if the connection is lost.
    fn exchange(&mut self, request: Request) -> Option<Reply>
        ensures same { self.new ≡ record self.old { peer = self.new.peer; text = self.new.text } }
        ensures tool { P.tool self.new.peer ≡ P.tool self.old.peer }
        ensures sends { Exchanged P.brings (P.tool self.old.peer) request result self.old.peer self.new.peer self.new.text.items }
        ensures honest { IsHonest (P.seen self.old.peer) → IsRequest request → MatchOption result ⊥
            (λ reply. IsAnswer request (given request reply) (P.seen self.old.peer) (P.seen self.new.peer)) }
    {
        let tool = self.peer.tool();
        let came = self.peer.exchange(request, &mut self.text);
        if came.is_err() {
            return None;
        }
        let reply = tool.read_reply(request, self.text.as_slice())?;
        if reply.is_to(request) {
            Some(reply)
        } else {
            None
        }
    }

    /// Sends Get Device ID. Whether it is answered.
    fn is_there(&mut self) -> bool
        ensures same { self.new ≡ record self.old { peer = self.new.peer; text = self.new.text } }
        ensures sends { (heard : Option Reply) × (result ≡ is_answer heard)
            × Exchanged P.brings (P.tool self.old.peer) Request.DeviceId heard self.old.peer self.new.peer self.new.text.items }
        ensures honest { IsHonest (P.seen self.old.peer) → (result ≡ true) × CountsCalls (P.seen self.old.peer) (P.seen self.new.peer) }
    {
        match self.exchange(Request::DeviceId) {
            Some(Reply::Data(_) | Reply::Refused(_)) => true,
            Some(Reply::Silent) | None => false,
        }
    }

    /// Counts a silent request. If for so many a thing is given up, it asks whether the controller is there. False if
    /// it is not.
    fn endures(&mut self) -> bool
        ensures same { self.new ≡ record self.old { peer = self.new.peer; text = self.new.text; silence = self.new.silence } }
        ensures tries { self.new.silence.tries ≡ self.old.silence.tries }
        ensures counts { self.old.silence.silent < self.old.silence.tries →
            (result ≡ true) × (self.new ≡ record self.old { silence = self.new.silence })
            × (self.new.silence.silent ≡ self.old.silence.silent + 1) }
        ensures probes { self.old.silence.silent ≡ self.old.silence.tries →
            Probes P.brings (P.tool self.old.peer) self.old.peer (record self.new { is_lost = not result }) }
        ensures honest { IsHonest (P.seen self.old.peer) → (result ≡ true) × CountsCalls (P.seen self.old.peer) (P.seen self.new.peer) }
    {
        if self.silence.add() {
            return true;
        }
        let is_there = self.is_there();
        if is_there {
            self.silence.end();
        }
        is_there
    }

    /// Sends the request and reads the reply, and counts silence. None if the connection is lost.
    fn send(&mut self, request: Request) -> Option<Reply>
        requires { self.old.is_lost ≡ false }
        ensures same { self.new ≡ record self.old { peer = self.new.peer; text = self.new.text; silence = self.new.silence; is_lost = self.new.is_lost } }
        ensures tries { self.new.silence.tries ≡ self.old.silence.tries }
        ensures lost { self.new.is_lost ≡ is_none result }
        ensures fits { IfSome result (λ reply. IsDataIfAny request (given request reply)) }
        ensures sends { Sends P.brings (P.tool self.old.peer) request (λ reply. result ≡ Some reply) self.old self.new }
        ensures honest { IsHonest (P.seen self.old.peer) → IsRequest request → MatchOption result ⊥
            (λ reply. IsAnswer request (given request reply) (P.seen self.old.peer) (P.seen self.new.peer)) }
    {
        match self.exchange(request) {
            Some(Reply::Silent) => {
                self.is_lost = !self.endures();
                if self.is_lost {
                    None
                } else {
                    Some(Reply::Silent)
                }
            }
            Some(reply) => {
                self.silence.end();
                Some(reply)
            }
            None => {
                self.is_lost = true;
                None
            }
        }
    }

    /// Counts a failure of the call with this code, and returns the code. If the code means that the controller is
    /// busy, it waits for the pause first.
    fn fail(&mut self, code: Code) -> Code
        ensures counts { self.new ≡ record self.old { tally = self.new.tally } }
        ensures failed { self.new.tally.counts ≡ counts_after self.old.tally.counts (Event.Failed code) }
        ensures code { result ≡ code }
    {
        if code.class() == CodeClass::Busy {
            thread::sleep(&self.clock, self.pause);
        }
        self.tally.fail(code)
    }

    /// Makes a call for a part of `asked` bytes (0 if it is not for a part): counts it, sends the request, and
    /// returns the data of the reply.
    #[tactic(auto, using(crate::proofs::ThroughLemmas::answered))]
    fn ask(&mut self, asked: u8, request: Request) -> Result<ReplyBytes, Code>
        ensures counted { IsCall asked (seen_of P.seen self.old) (seen_of P.seen self.new) }
        ensures failure { (seen_of P.seen self.new).last_failure ≡ failing_code result }
        ensures data { IfOk result (λ bytes. IsDataOf request bytes) }
        ensures asks { Asks P.brings (tool_of P.tool self.old) request (λ given. given ≡ result)
            self.old self.new (failing_code result) }
        ensures honest { IsHonest (seen_of P.seen self.old) → IsRequest request →
            IsAnswer request result (seen_of P.seen self.old) (seen_of P.seen self.new) }
    {
        self.tally.count(Event::Called(asked));
        if self.is_lost {
            return Err(self.fail(CONNECTION_LOST));
        }
        match self.send(request) {
            Some(Reply::Data(bytes)) => Ok(bytes),
            Some(Reply::Refused(code)) if request.says_unreserved(code) => {
                Ok(ReplyBytes::new(&NO_RESERVATION))
            }
            Some(Reply::Refused(code)) => Err(self.fail(request.code_given(code))),
            Some(Reply::Silent) => Err(self.fail(Code::TIMEOUT)),
            None => Err(self.fail(CONNECTION_LOST)),
        }
    }
}

/// Copies bytes to the front of a slice that is long enough, and returns their number.
fn copy_front(bytes: &[u8], into: &mut [u8]) -> u8
    requires room { length bytes.now ≤ length into.old }
    requires few { length into.old < 255 }
    ensures count { result ≡ length bytes.now }
    ensures bytes { take result into.new ≡ bytes.now }
    ensures rest { drop result into.new ≡ drop result into.old }
{
    into[..bytes.len()].copy_from_slice(bytes);
    bytes.len() as u8
}

impl<P: Peer, K: Clock> Controller for RawController<P, K> {
    ghost seen = { λ raw. seen_of P.seen raw };

    fn reserve(&mut self, shelf: Shelf) -> Result<u16, Code>
        ensures counted { IsCall 0 (seen_of P.seen self.old) (seen_of P.seen self.new) }
        ensures failure { (seen_of P.seen self.new).last_failure ≡ failing_code result }
        ensures honest { IsHonest (seen_of P.seen self.old) →
            ReserveAnswers shelf result (seen_of P.seen self.old) (seen_of P.seen self.new) }
        ensures asks { Asks P.brings (tool_of P.tool self.old) (Request.Reserve shelf) (λ given. result ≡ value_in id_in given)
            self.old self.new (failing_code result) }
    {
        let reply = self.ask(0, Request::Reserve(shelf))?;
        let bytes = reply.as_slice();
        Ok(u16::from_le_bytes([bytes[0], bytes[1]]))
    }

    fn part(
        &mut self,
        shelf: Shelf,
        reservation: u16,
        id: u16,
        offset: u8,
        into: &mut [u8],
    ) -> Result<Part, Code>
        requires some { 0 < length into.old }
        requires fits { length into.old < 255 }
        ensures counted { IsCall (length into.old) (seen_of P.seen self.old) (seen_of P.seen self.new) }
        ensures failure { (seen_of P.seen self.new).last_failure ≡ failing_code result }
        ensures fits { IfOk result (λ part. part.got ≤ length into.old) }
        ensures rest { IfOk result (λ part. drop part.got into.new ≡ drop part.got into.old) }
        ensures err { OnErr result (into.new ≡ into.old) }
        ensures honest { IsHonest (seen_of P.seen self.old) →
            PartAnswers (part_asked shelf reservation id offset (length into.old)) result into.new
            (seen_of P.seen self.old) (seen_of P.seen self.new) }
        ensures asks { Asks P.brings (tool_of P.tool self.old)
            (Request.Get (record_part shelf reservation id offset (length into.old)))
            (λ given. (result ≡ value_in part_in given)
            × IfOk result (λ part. take part.got into.new ≡ drop 2 (data_in given)))
            self.old self.new (failing_code result) }
    {
        let count = into.len() as u8;
        let part = RecordPart {
            shelf,
            reservation,
            id,
            offset,
            count,
        };
        let reply = self.ask(count, Request::Get(part))?;
        let bytes = reply.as_slice();
        let got = copy_front(&bytes[2..], into);
        Ok(Part {
            next: u16::from_le_bytes([bytes[0], bytes[1]]),
            got,
        })
    }

    fn info(&mut self, shelf: Shelf) -> Result<[u8; 14], Code>
        ensures counted { IsCall 0 (seen_of P.seen self.old) (seen_of P.seen self.new) }
        ensures failure { (seen_of P.seen self.new).last_failure ≡ failing_code result }
        ensures honest { IsHonest (seen_of P.seen self.old) →
            ValueAnswers (info_of shelf) result (seen_of P.seen self.old) (seen_of P.seen self.new) }
        ensures asks { Asks P.brings (tool_of P.tool self.old) (Request.Info shelf) (λ given. result ≡ given)
            self.old self.new (failing_code result) }
    {
        let reply = self.ask(0, Request::Info(shelf))?;
        let mut info = [0; INFO_LEN];
        info.copy_from_slice(reply.as_slice());
        Ok(info)
    }

    fn reading(&mut self, lun: u8, number: u8) -> Result<Reading, Code>
        ensures counted { IsCall 0 (seen_of P.seen self.old) (seen_of P.seen self.new) }
        ensures failure { (seen_of P.seen self.new).last_failure ≡ failing_code result }
        ensures honest { IsHonest (seen_of P.seen self.old) →
            ValueAnswers (reading_of lun number) result (seen_of P.seen self.old) (seen_of P.seen self.new) }
        ensures asks { Asks P.brings (tool_of P.tool self.old) (Request.Reading lun number) (λ given. result ≡ value_in reading_in given)
            self.old self.new (failing_code result) }
    {
        let reply = self.ask(0, Request::Reading(lun, number))?;
        let bytes = reply.as_slice();
        Ok(Reading {
            raw: bytes[0],
            flags: bytes[1],
            status: bytes.get(2).copied().unwrap_or(0),
            more: bytes.get(3).copied().unwrap_or(0),
        })
    }

    fn fru_size(&mut self, id: u8) -> Result<FruSize, Code>
        ensures counted { IsCall 0 (seen_of P.seen self.old) (seen_of P.seen self.new) }
        ensures failure { (seen_of P.seen self.new).last_failure ≡ failing_code result }
        ensures honest { IsHonest (seen_of P.seen self.old) →
            SizeAnswers id result (seen_of P.seen self.old) (seen_of P.seen self.new) }
        ensures asks { Asks P.brings (tool_of P.tool self.old) (Request.InventorySize id) (λ given. result ≡ value_in size_in given)
            self.old self.new (failing_code result) }
    {
        let reply = self.ask(0, Request::InventorySize(id))?;
        let bytes = reply.as_slice();
        Ok(FruSize {
            size: u16::from_le_bytes([bytes[0], bytes[1]]),
            words: bytes[2] % 2 == 1,
        })
    }

    fn fru_part(&mut self, id: u8, offset: u16, into: &mut [u8]) -> Result<u8, Code>
        requires some { 0 < length into.old }
        requires fits { length into.old < 255 }
        ensures counted { IsCall (length into.old) (seen_of P.seen self.old) (seen_of P.seen self.new) }
        ensures failure { (seen_of P.seen self.new).last_failure ≡ failing_code result }
        ensures fits { IfOk result (λ got. got ≤ length into.old) }
        ensures rest { IfOk result (λ got. drop got into.new ≡ drop got into.old) }
        ensures err { OnErr result (into.new ≡ into.old) }
        ensures honest { IsHonest (seen_of P.seen self.old) →
            BytesAnswers id offset (length into.old) result into.new
            (seen_of P.seen self.old) (seen_of P.seen self.new) }
        ensures asks { Asks P.brings (tool_of P.tool self.old)
            (Request.ReadInventory (inventory_part id offset (length into.old)))
            (λ given. (result ≡ value_in first_in given)
            × IfOk result (λ got. take got into.new ≡ drop 1 (data_in given)))
            self.old self.new (failing_code result) }
    {
        let count = into.len() as u8;
        let part = InventoryPart { id, offset, count };
        let reply = self.ask(count, Request::ReadInventory(part))?;
        Ok(copy_front(&reply.as_slice()[1..], into))
    }
}
