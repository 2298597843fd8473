//! Reads a FRU inventory in parts.
ghost use Rattle.std.specs.Prelude.{ℕ, ◌≡◌, ◌+◌, ◌<◌, ◌≤◌, Ok, Err, IfOk, OnErr, OnOk, IfErr, length, take, slice_range, vec_len, MatchResult};
ghost use Rattle.ipmi_bus.specs.Prelude.{Seen, AsksAtMost, IsCall, failing_code, IsHonest, StaysHonest, BytesAnswers, LastFruCallSays, ReadsInventory, ReadsRetryingParts, ReadsWithTries, as_inventory, class_of, SizeFails, TakesSize, fru_call_bound, read_call_bound, retrying_call_bound, HasSize, FruEnds, IsStateOf, NoneCame};

use crate::calls::{Failure, after_failure, asked_len, smaller_part};
use crate::code::Code;
use crate::controller::{Controller, FruSize};
use std::alloc::{AllocError, Global};
use thiserror::Error;

/// Why reading a FRU inventory failed.
#[derive(Clone, Copy, Debug, PartialEq, Eq, Error)]
pub enum FruEnded {
    /// Out of memory for the inventory.
    #[error("out of memory")]
    Memory,
    /// The controller refused with this code. From an honest controller CBh means that it has no
    /// such inventory.
    #[error("refused with code {code:02X}h", code = .0.0)]
    Refused(Code),
    /// There were more troubles than the tries allow.
    #[error("gave up")]
    GaveUp,
    /// The controller returned no byte, or refused even a request for one byte as too long.
    #[error("stalled")]
    Stalled,
    /// The device is accessed by words.
    #[error("uses words")]
    Words,
}

impl From<AllocError> for FruEnded {
    ghost use Rattle.ipmi_bus.specs.declared.inventory_reader.FruEnded.{FruEnded};

    ghost from_gives = { λ _ e. e ≡ FruEnded.Memory };

    fn from(_error: AllocError) -> FruEnded {
        FruEnded::Memory
    }
}

/// What the tries are for.
#[derive(Clone, Copy)]
enum TriesFor {
    /// The whole inventory.
    Inventory,
    /// Each part: troubles are counted afresh after a part that brought bytes.
    EachPart,
}

impl TriesFor {
    ghost use Rattle.ipmi_bus.specs.FruRetrieval.{troubles_after};

    /// The number of troubles that count after a part that brought bytes.
    fn troubles_after(self, troubles: u16) -> u16
        ensures { result ≡ troubles_after self troubles }
    {
        match self {
            TriesFor::Inventory => troubles,
            TriesFor::EachPart => 0,
        }
    }
}

/// An inventory being read.
#[derive(Drop)]
struct FruRetrieval {
    id: u8,
    /// The largest number of bytes per request, 1 to 254.
    part: u8,
    /// The number of troubles allowed.
    tries: u8,
    tries_for: TriesFor,
    /// The number of troubles so far that count.
    troubles: u16,
    /// The number of bytes read so far.
    have: usize,
    /// A buffer of the inventory's size. The first `have` bytes are read.
    bytes: Vec<u8>,
}

impl FruRetrieval {
    ghost use Rattle.ipmi_bus.specs.FruRetrieval.{IsBegun, IsOpenInventory, SameInventory, request_len, TakesInventoryPart, PartFails, FruSince, FruNext, calls_left};

    /// Requests some of the missing bytes and stores them in their place.
    fn request<C: Controller>(&mut self, ctl: &mut C, asked: usize) -> Result<u8, Code>
        requires some { 0 < asked }
        requires fits { asked < 255 }
        requires within { self.old.have + asked ≤ vec_len self.old.bytes }
        requires short { vec_len self.old.bytes ≤ 65535 }
        requires len { asked ≡ request_len self.old }
        ensures counted { IsCall (request_len self.old) (C.seen ctl.old) (C.seen ctl.new) }
        ensures failure { (C.seen ctl.new).last_failure ≡ failing_code result }
        ensures got { IfOk result (λ got. got ≤ asked) }
        ensures bytes { self.new ≡ record self.old { bytes = self.new.bytes } }
        ensures len { length self.new.bytes.items ≡ length self.old.bytes.items }
        ensures front { take self.old.have self.new.bytes.items ≡ take self.old.have
            self.old.bytes.items }
        ensures err { OnErr result (self.new.bytes.items ≡ self.old.bytes.items) }
        ensures honest { IsHonest (C.seen ctl.old) →
            BytesAnswers self.old.id self.old.have asked result
            (slice_range self.new.bytes.items self.old.have (self.old.have + asked))
            (C.seen ctl.old) (C.seen ctl.new) }
    {
        let have = self.have;
        let into = &mut self.bytes[have..have + asked];
        ctl.fru_part(self.id, have as u16, into)
    }

    /// Counts the received bytes.
    fn take_part(&mut self, got: u8) -> Result<(), FruEnded>
        requires is_open { IsOpenInventory self.old }
        requires fits { self.old.have + got ≤ vec_len self.old.bytes }
        ensures takes { TakesInventoryPart got self.old self.new result }
    {
        if got == 0 {
            return Err(FruEnded::Stalled);
        }
        self.have += usize::from(got);
        self.troubles = self.tries_for.troubles_after(self.troubles);
        Ok(())
    }

    /// Handles a failed request for `asked` bytes: counts a trouble, reduces the part size, or ends the read.
    fn fail_part(&mut self, code: Code, asked: usize) -> Result<(), FruEnded>
        requires is_open { IsOpenInventory self.old }
        requires asked { asked ≤ self.old.part }
        ensures fails { PartFails (class_of code.0) code asked self.old self.new result }
        ensures same { SameInventory self.old self.new }
        ensures leaves { OnOk result (calls_left self.new < calls_left self.old) }
    {
        match after_failure(code, self.troubles, self.tries) {
            Failure::Again | Failure::Anew => {
                self.troubles += 1;
                Ok(())
            }
            Failure::Smaller => {
                self.part = smaller_part(asked).ok_or(FruEnded::Stalled)?;
                Ok(())
            }
            Failure::GiveUp => Err(FruEnded::GaveUp),
            Failure::Absent | Failure::Refuse => Err(FruEnded::Refused(code)),
        }
    }

    /// Makes one call for missing bytes.
    fn ask_part<C: Controller>(&mut self, ctl: &mut C) -> Result<(), FruEnded>
        requires { IsOpenInventory self.old }
        ensures counted { IsCall (request_len self.old) (C.seen ctl.old) (C.seen ctl.new) }
        ensures says { IfErr result (λ ended. LastFruCallSays ended (C.seen ctl.new)) }
        ensures same { SameInventory self.old self.new }
        ensures leaves { OnOk result (calls_left self.new < calls_left self.old) }
        ensures stays { IsHonest (C.seen ctl.old) → StaysHonest (C.seen ctl.old) (C.seen ctl.new) }
        ensures honest { (s : Seen) → FruSince (IsStateOf C.seen) self.old s (C.seen ctl.old) →
            FruNext (IsStateOf C.seen) self.old self.new s (C.seen ctl.new) result }
    {
        let asked = asked_len(self.part, self.bytes.len() - self.have);
        match self.request(ctl, asked) {
            Ok(got) => self.take_part(got),
            Err(code) => self.fail_part(code, asked),
        }
    }

    /// Makes calls until all bytes are read.
    fn read_all<C: Controller>(&mut self, ctl: &mut C) -> Result<(), FruEnded>
        requires { IsBegun self.old }
        ensures same { SameInventory self.old self.new }
        ensures whole { OnOk result (self.new.have ≡ length self.new.bytes.items) }
        ensures asked { AsksAtMost self.old.part (C.seen ctl.old) (C.seen ctl.new) }
        ensures says { IfErr result (λ ended. LastFruCallSays ended (C.seen ctl.new)) }
        ensures calls { (C.seen ctl.new).calls + 1 ≤ (C.seen ctl.old).calls + calls_left self.old }
        ensures stays { IsHonest (C.seen ctl.old) → StaysHonest (C.seen ctl.old) (C.seen ctl.new) }
        ensures honest { (s : Seen) → FruSince (IsStateOf C.seen) self.old s (C.seen ctl.old) →
            FruNext (IsStateOf C.seen) self.old self.new s (C.seen ctl.new) result }
    {
        'parts: while self.have < self.bytes.len() {
            self.ask_part(ctl)?;
        }
        Ok(())
    }
}

/// The size of an inventory, and the number of troubles before the controller answered it.
#[derive(Clone, Copy)]
struct Size {
    bytes: u16,
    troubles: u16,
}

/// The size from the answer, after this many troubles. Err if the device is accessed by words.
fn take_size(told: FruSize, troubles: u16) -> Result<Size, FruEnded>
    ensures { TakesSize told troubles result }
{
    if told.words {
        return Err(FruEnded::Words);
    }
    Ok(Size {
        bytes: told.size,
        troubles,
    })
}

/// How to proceed after a failed request for the size: Ok if it is to be repeated, otherwise Err.
fn fail_size(code: Code, troubles: u16, tries: u8) -> Result<(), FruEnded>
    ensures { SizeFails (class_of code.0) code troubles tries result }
{
    match after_failure(code, troubles, tries) {
        Failure::Again | Failure::Anew => Ok(()),
        Failure::GiveUp => Err(FruEnded::GaveUp),
        Failure::Smaller | Failure::Absent | Failure::Refuse => Err(FruEnded::Refused(code)),
    }
}

fn read_size<C: Controller>(ctl: &mut C, id: u8, tries: u8) -> Result<Size, FruEnded>
    ensures ok { IfOk result (λ size. (size.troubles ≤ tries) ×
        ((C.seen ctl.new).calls ≡ (C.seen ctl.old).calls + size.troubles + 1)) }
    ensures err { OnErr result ((C.seen ctl.new).calls ≤ (C.seen ctl.old).calls + tries + 1) }
    ensures asked { AsksAtMost 0 (C.seen ctl.old) (C.seen ctl.new) }
    ensures says { IfErr result (λ ended. LastFruCallSays ended (C.seen ctl.new)) }
    ensures none { (calls : ℕ) × NoneCame (IsStateOf C.seen) calls (C.seen ctl.old) (C.seen ctl.new) }
    ensures honest { IsHonest (C.seen ctl.old) → MatchResult result
        (λ size. HasSize id size (C.seen ctl.old) (C.seen ctl.new))
        (λ ended. FruEnds id tries (C.seen ctl.old) (C.seen ctl.old) (C.seen ctl.new) ended) }
{
    let mut troubles = 0;
    'asking: loop {
        match ctl.fru_size(id) {
            Ok(told) => return take_size(told, troubles),
            Err(code) => fail_size(code, troubles, tries)?,
        }
        troubles += 1;
    }
}

/// The bytes of the inventory of the FRU device with this id, with as many tries for it or for each part.
fn read_with_tries<C: Controller>(
    alloc: Global,
    ctl: &mut C,
    id: u8,
    part: u8,
    tries: u8,
    tries_for: TriesFor,
) -> Result<Vec<u8>, FruEnded>
    requires some { 0 < part }
    requires fits { part < 255 }
    ensures fits { IfOk result (λ bytes. vec_len bytes ≤ 65535) }
    ensures calls { (C.seen ctl.new).calls ≤ (C.seen ctl.old).calls + read_call_bound tries_for tries 65535 }
    ensures asked { AsksAtMost part (C.seen ctl.old) (C.seen ctl.new) }
    ensures says { IfErr result (λ ended. LastFruCallSays ended (C.seen ctl.new)) }
    ensures honest { IsHonest (C.seen ctl.old) → ReadsWithTries tries_for (IsStateOf C.seen) id tries
        (C.seen ctl.old) (C.seen ctl.new) (as_inventory result) }
{
    let size = read_size(ctl, id, tries)?;
    let mut retrieval = FruRetrieval {
        id,
        part,
        tries,
        tries_for,
        troubles: size.troubles,
        have: 0,
        bytes: vec![in alloc; 0u8; usize::from(size.bytes)]?,
    };
    retrieval.read_all(ctl)?;
    Ok(retrieval.bytes)
}

/// The bytes of the inventory of the FRU device with this id (IPMI v2.0, section 34). Each request is for at most
/// `part` bytes, and `tries` troubles are allowed. `FruEnded` says why reading failed.
pub fn read_fru<C: Controller>(
    alloc: Global,
    ctl: &mut C,
    id: u8,
    part: u8,
    tries: u8,
) -> Result<Vec<u8>, FruEnded>
    requires some { 0 < part }
    requires fits { part < 255 }
    ensures fits { IfOk result (λ bytes. vec_len bytes ≤ 65535) }
    ensures calls { (C.seen ctl.new).calls ≤ (C.seen ctl.old).calls + fru_call_bound tries 65535 }
    ensures asked { AsksAtMost part (C.seen ctl.old) (C.seen ctl.new) }
    ensures says { IfErr result (λ ended. LastFruCallSays ended (C.seen ctl.new)) }
    ensures honest { IsHonest (C.seen ctl.old) → ReadsInventory id tries (C.seen ctl.old)
        (C.seen ctl.new) (as_inventory result) }
{
    read_with_tries(alloc, ctl, id, part, tries, TriesFor::Inventory)
}

/// The same with `tries` troubles allowed for each part: they are counted afresh after each part that brought bytes. Those
/// before the size count for the first part.
pub fn read_fru_retrying_parts<C: Controller>(
    alloc: Global,
    ctl: &mut C,
    id: u8,
    part: u8,
    tries: u8,
) -> Result<Vec<u8>, FruEnded>
    requires some { 0 < part }
    requires fits { part < 255 }
    ensures fits { IfOk result (λ bytes. vec_len bytes ≤ 65535) }
    ensures calls { (C.seen ctl.new).calls ≤ (C.seen ctl.old).calls + retrying_call_bound tries 65535 }
    ensures asked { AsksAtMost part (C.seen ctl.old) (C.seen ctl.new) }
    ensures says { IfErr result (λ ended. LastFruCallSays ended (C.seen ctl.new)) }
    ensures honest { IsHonest (C.seen ctl.old) → ReadsRetryingParts (IsStateOf C.seen) id tries (C.seen ctl.old)
        (C.seen ctl.new) (as_inventory result) }
{
    read_with_tries(alloc, ctl, id, part, tries, TriesFor::EachPart)
}
