//! A management controller that follows a script.
ghost use Rattle.std.specs.Prelude.{◌≡◌, ◌<◌, ◌≤◌, false, IfOk, OnErr, Ok, ok_or, None, length, drop};
ghost use Rattle.ipmi_image.specs.Below.{IsCall, failing_code, look, not_present, rows_of, info_of, reading_of, inventory_of, IsHonest, current, ReserveAnswers, PartAnswers, ValueAnswers, SizeAnswers, BytesAnswers, part_asked};
ghost use Rattle.ipmi_image.specs.Prelude.{seen_as, number_after, part_answer, fru_answer, size_answer, script_seen, script_last_number, moods_left, seen_after_mood, script_answer, StaysAfterMood, ReservesAfterMood, TurnCounts, Turns, mood_turn, after_mood, next_mood};

use crate::image::Image;
use crate::responder::Responder;
use ipmi_bus::{Code, CodeClass, Controller, FruSize, LARGEST_PART, Part, Shelf, reads_ahead};
use ipmi_text::Reading;
use std::vec::IntoIter;

/// How a scripted controller treats one call.
#[derive(Drop)]
pub enum Mood {
    /// It answers like an `ImageController`, but with at most this many bytes; 0 counts as 1.
    Grant(u8),
    /// It cancels both reservations and answers C5h.
    Cancel,
    /// It answers C0h.
    Busy,
    /// It answers CAh if more than one byte was requested, otherwise like an `ImageController`.
    TooLong,
    /// It answers this code. If the code is 00h or not a refusal, it answers like an `ImageController`.
    Refuse(Code),
    /// It takes this image as its store, cancels both reservations, and then answers like an `ImageController`.
    Change(Image),
    /// Like `Change`, but the reservation of a shelf stays if the shelf begins with the records that it had before.
    Append(Image),
}

/// The effect of a mood on a call.
enum Turn {
    /// The call is still to be answered, with at most this many bytes.
    Answers(u8),
    /// The call failed with this code.
    Failed(Code),
}

/// A controller over an image and a list of moods. Each call, of any kind, uses up one mood. Without moods left it
/// answers like an `ImageController`.
#[derive(Drop)]
pub struct Scripted {
    responder: Responder,
    moods: IntoIter<Mood>,
}

/// Applies the mood to a call for `asked` bytes. `ahead`: the call reads ahead.
fn mood_turn(responder: &mut Responder, mood: Mood, asked: u8, ahead: bool) -> Turn
    ensures counts { TurnCounts asked result (seen_as false responder.old) (seen_as false responder.new) }
    ensures turns { IsHonest (seen_as false responder.old) →
        Turns asked ahead result (seen_as false responder.old) (seen_as false responder.new) }
    ensures exact { result ≡ mood_turn asked mood }
    ensures leaves { responder.new ≡ record (after_mood mood responder.old)
        { near = responder.new.near; tally = responder.new.tally } }
{
    match mood {
        Mood::Grant(most) => Turn::Answers(most.max(1)),
        Mood::Cancel => {
            responder.forget();
            Turn::Failed(responder.fail(asked, ahead, Code::CANCELLED))
        }
        Mood::Busy => Turn::Failed(responder.fail(asked, ahead, Code::NODE_BUSY)),
        Mood::TooLong => {
            if asked > 1 {
                return Turn::Failed(responder.fail(asked, ahead, Code::TOO_MANY_BYTES));
            }
            Turn::Answers(LARGEST_PART)
        }
        Mood::Refuse(code) => {
            if code.0 != 0 && code.class() == CodeClass::Refusal {
                return Turn::Failed(responder.fail(asked, ahead, code));
            }
            Turn::Answers(LARGEST_PART)
        }
        Mood::Change(image) => {
            responder.change(image);
            Turn::Answers(LARGEST_PART)
        }
        Mood::Append(image) => {
            responder.append(image);
            Turn::Answers(LARGEST_PART)
        }
    }
}

impl Scripted {
    /// A controller with the contents of the image, and moods for its first calls. No reservation is current.
    pub fn new(image: Image, moods: Vec<Mood>) -> Scripted
        ensures honest { IsHonest (script_seen result) }
        ensures store { (script_seen result).store ≡ image }
        ensures none_current { ((script_seen result).sdr_reservation ≡ None) ×
            ((script_seen result).sel_reservation ≡ None) }
        ensures none_given { script_last_number result ≡ 0 }
        ensures moods { moods_left result ≡ moods.items }
    {
        Scripted {
            responder: Responder::new(image),
            moods: moods.into_iter(),
        }
    }

    /// Uses up one mood on a call for `asked` bytes; `asked` is 0 for a call that requests no part. `ahead`: the call reads
    /// ahead.
    #[tactic(auto, using(crate::proofs::ScriptLemmas::no_moods_left))]
    fn turn(&mut self, asked: u8, ahead: bool) -> Turn
        ensures counts { TurnCounts asked result (script_seen self.old) (script_seen self.new) }
        ensures turns { IsHonest (script_seen self.old) →
            Turns asked ahead result (script_seen self.old) (script_seen self.new) }
        ensures used { moods_left self.new ≡ drop 1 (moods_left self.old) }
        ensures exact { result ≡ mood_turn asked (next_mood (moods_left self.old)) }
        ensures leaves { StaysAfterMood self.old self.new }
    {
        match self.moods.next() {
            None => Turn::Answers(LARGEST_PART),
            Some(mood) => mood_turn(&mut self.responder, mood, asked, ahead),
        }
    }
}

impl Controller for Scripted {
    ghost seen = { script_seen };

    fn reserve(&mut self, shelf: Shelf) -> Result<u16, Code>
        ensures counted { IsCall 0 (script_seen self.old) (script_seen self.new) }
        ensures failure { (script_seen self.new).last_failure ≡ failing_code result }
        ensures honest { IsHonest (script_seen self.old) →
            ReserveAnswers shelf result (script_seen self.old) (script_seen self.new) }
        ensures exact { result ≡ script_answer 0 self.old
            (λ most. Ok (number_after (script_last_number self.old))) }
        ensures used { moods_left self.new ≡ drop 1 (moods_left self.old) }
        ensures leaves { ReservesAfterMood shelf result self.old self.new }
    {
        match self.turn(0, false) {
            Turn::Answers(_) => Ok(self.responder.reserve(shelf)),
            Turn::Failed(code) => Err(code),
        }
    }

    fn part(
        &mut self,
        shelf: Shelf,
        reservation: u16,
        id: u16,
        offset: u8,
        into: &mut [u8],
    ) -> Result<Part, Code>
        requires some { 0 < length into.old }
        requires fits { length into.old < 255 }
        ensures counted { IsCall (length into.old) (script_seen self.old) (script_seen self.new) }
        ensures failure { (script_seen self.new).last_failure ≡ failing_code result }
        ensures fits { IfOk result (λ part. part.got ≤ length into.old) }
        ensures rest { IfOk result (λ part. drop part.got into.new ≡ drop part.got into.old) }
        ensures err { OnErr result (into.new ≡ into.old) }
        ensures honest { IsHonest (script_seen self.old) →
            PartAnswers (part_asked shelf reservation id offset (length into.old)) result into.new
            (script_seen self.old) (script_seen self.new) }
        ensures exact { result ≡ script_answer (length into.old) self.old (λ most. part_answer
            (part_asked shelf reservation id offset (length into.old))
            most (current shelf (seen_after_mood self.old))
            (look (rows_of shelf (seen_after_mood self.old).store) id)) }
        ensures used { moods_left self.new ≡ drop 1 (moods_left self.old) }
        ensures leaves { StaysAfterMood self.old self.new }
    {
        let ahead = reads_ahead(shelf, offset, into.len());
        match self.turn(into.len() as u8, ahead) {
            Turn::Answers(most) => self
                .responder
                .part(shelf, reservation, id, offset, most, into),
            Turn::Failed(code) => Err(code),
        }
    }

    fn info(&mut self, shelf: Shelf) -> Result<[u8; 14], Code>
        ensures counted { IsCall 0 (script_seen self.old) (script_seen self.new) }
        ensures failure { (script_seen self.new).last_failure ≡ failing_code result }
        ensures honest { IsHonest (script_seen self.old) →
            ValueAnswers (info_of shelf) result (script_seen self.old) (script_seen self.new) }
        ensures exact { result ≡ script_answer 0 self.old
            (λ most. ok_or (info_of shelf (seen_after_mood self.old).store) not_present) }
        ensures used { moods_left self.new ≡ drop 1 (moods_left self.old) }
        ensures leaves { StaysAfterMood self.old self.new }
    {
        match self.turn(0, false) {
            Turn::Answers(_) => self.responder.info(shelf),
            Turn::Failed(code) => Err(code),
        }
    }

    fn reading(&mut self, lun: u8, number: u8) -> Result<Reading, Code>
        ensures counted { IsCall 0 (script_seen self.old) (script_seen self.new) }
        ensures failure { (script_seen self.new).last_failure ≡ failing_code result }
        ensures honest { IsHonest (script_seen self.old) →
            ValueAnswers (reading_of lun number) result
            (script_seen self.old) (script_seen self.new) }
        ensures exact { result ≡ script_answer 0 self.old
            (λ most. ok_or (reading_of lun number (seen_after_mood self.old).store) not_present) }
        ensures used { moods_left self.new ≡ drop 1 (moods_left self.old) }
        ensures leaves { StaysAfterMood self.old self.new }
    {
        match self.turn(0, false) {
            Turn::Answers(_) => self.responder.reading(lun, number),
            Turn::Failed(code) => Err(code),
        }
    }

    fn fru_size(&mut self, id: u8) -> Result<FruSize, Code>
        ensures counted { IsCall 0 (script_seen self.old) (script_seen self.new) }
        ensures failure { (script_seen self.new).last_failure ≡ failing_code result }
        ensures honest { IsHonest (script_seen self.old) →
            SizeAnswers id result (script_seen self.old) (script_seen self.new) }
        ensures exact { result ≡ script_answer 0 self.old
            (λ most. size_answer (inventory_of id (seen_after_mood self.old).store)) }
        ensures used { moods_left self.new ≡ drop 1 (moods_left self.old) }
        ensures leaves { StaysAfterMood self.old self.new }
    {
        match self.turn(0, false) {
            Turn::Answers(_) => self.responder.fru_size(id),
            Turn::Failed(code) => Err(code),
        }
    }

    fn fru_part(&mut self, id: u8, offset: u16, into: &mut [u8]) -> Result<u8, Code>
        requires some { 0 < length into.old }
        requires fits { length into.old < 255 }
        ensures counted { IsCall (length into.old) (script_seen self.old) (script_seen self.new) }
        ensures failure { (script_seen self.new).last_failure ≡ failing_code result }
        ensures fits { IfOk result (λ got. got ≤ length into.old) }
        ensures rest { IfOk result (λ got. drop got into.new ≡ drop got into.old) }
        ensures err { OnErr result (into.new ≡ into.old) }
        ensures honest { IsHonest (script_seen self.old) →
            BytesAnswers id offset (length into.old) result into.new
            (script_seen self.old) (script_seen self.new) }
        ensures exact { result ≡ script_answer (length into.old) self.old
            (λ most. fru_answer offset (length into.old) most
            (inventory_of id (seen_after_mood self.old).store)) }
        ensures used { moods_left self.new ≡ drop 1 (moods_left self.old) }
        ensures leaves { StaysAfterMood self.old self.new }
    {
        match self.turn(into.len() as u8, false) {
            Turn::Answers(most) => self.responder.fru_part(id, offset, most, into),
            Turn::Failed(code) => Err(code),
        }
    }
}
