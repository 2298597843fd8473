//! A management controller that answers from an image.
ghost use Rattle.std.specs.Prelude.{◌≡◌, ◌<◌, ◌≤◌, IfOk, OnErr, Ok, ok_or, None, length, drop};
ghost use Rattle.ipmi_image.specs.Below.{IsCall, failing_code, look, not_present, rows_of, info_of, reading_of, inventory_of, IsHonest, IsPlain, current, ReserveAnswers, PartAnswers, ValueAnswers, SizeAnswers, BytesAnswers, part_asked};
ghost use Rattle.ipmi_image.specs.Prelude.{number_after, part_answer, fru_answer, size_answer, seen_of, last_number};

use crate::image::Image;
use crate::responder::Responder;
use ipmi_bus::{Code, Controller, FruSize, LARGEST_PART, Part, Shelf};
use ipmi_text::Reading;

/// A controller over an image. A part has as many bytes as requested, or fewer if fewer are left. The reservations of
/// both shelves share one sequence of numbers: 1, 2, and so on, and 1 again after FFFFh.
///
/// It answers with the first of these codes that applies: CBh if the image does not have the item; C5h for an offset
/// above 0 under a reservation that is not the last one given for the shelf; C9h for an offset at or past the end.
#[derive(Drop)]
pub struct ImageController {
    responder: Responder,
}

impl ImageController {
    /// A controller with the contents of the image. No reservation is current.
    pub fn new(image: Image) -> ImageController
        ensures plain { IsPlain (seen_of result) }
        ensures store { (seen_of result).store ≡ image }
        ensures none_current { ((seen_of result).sdr_reservation ≡ None) ×
            ((seen_of result).sel_reservation ≡ None) }
        ensures none_given { last_number result ≡ 0 }
    {
        ImageController {
            responder: Responder::new(image),
        }
    }
}

impl Controller for ImageController {
    ghost seen = { seen_of };

    fn reserve(&mut self, shelf: Shelf) -> Result<u16, Code>
        ensures counted { IsCall 0 (seen_of self.old) (seen_of self.new) }
        ensures failure { (seen_of self.new).last_failure ≡ failing_code result }
        ensures honest { IsHonest (seen_of self.old) →
            ReserveAnswers shelf result (seen_of self.old) (seen_of self.new) }
        ensures exact { result ≡ Ok (number_after (last_number self.old)) }
        ensures last { last_number self.new ≡ number_after (last_number self.old) }
    {
        Ok(self.responder.reserve(shelf))
    }

    fn part(
        &mut self,
        shelf: Shelf,
        reservation: u16,
        id: u16,
        offset: u8,
        into: &mut [u8],
    ) -> Result<Part, Code>
        requires some { 0 < length into.old }
        requires fits { length into.old < 255 }
        ensures counted { IsCall (length into.old) (seen_of self.old) (seen_of self.new) }
        ensures failure { (seen_of self.new).last_failure ≡ failing_code result }
        ensures fits { IfOk result (λ part. part.got ≤ length into.old) }
        ensures rest { IfOk result (λ part. drop part.got into.new ≡ drop part.got into.old) }
        ensures err { OnErr result (into.new ≡ into.old) }
        ensures honest { IsHonest (seen_of self.old) →
            PartAnswers (part_asked shelf reservation id offset (length into.old)) result into.new
            (seen_of self.old) (seen_of self.new) }
        ensures exact { result ≡ part_answer
            (part_asked shelf reservation id offset (length into.old))
            254 (current shelf (seen_of self.old))
            (look (rows_of shelf (seen_of self.old).store) id) }
        ensures last { last_number self.new ≡ last_number self.old }
    {
        self.responder
            .part(shelf, reservation, id, offset, LARGEST_PART, into)
    }

    fn info(&mut self, shelf: Shelf) -> Result<[u8; 14], Code>
        ensures counted { IsCall 0 (seen_of self.old) (seen_of self.new) }
        ensures failure { (seen_of self.new).last_failure ≡ failing_code result }
        ensures honest { IsHonest (seen_of self.old) →
            ValueAnswers (info_of shelf) result (seen_of self.old) (seen_of self.new) }
        ensures exact { result ≡ ok_or (info_of shelf (seen_of self.old).store) not_present }
        ensures last { last_number self.new ≡ last_number self.old }
    {
        self.responder.info(shelf)
    }

    fn reading(&mut self, lun: u8, number: u8) -> Result<Reading, Code>
        ensures counted { IsCall 0 (seen_of self.old) (seen_of self.new) }
        ensures failure { (seen_of self.new).last_failure ≡ failing_code result }
        ensures honest { IsHonest (seen_of self.old) →
            ValueAnswers (reading_of lun number) result (seen_of self.old) (seen_of self.new) }
        ensures exact { result ≡
            ok_or (reading_of lun number (seen_of self.old).store) not_present }
        ensures last { last_number self.new ≡ last_number self.old }
    {
        self.responder.reading(lun, number)
    }

    fn fru_size(&mut self, id: u8) -> Result<FruSize, Code>
        ensures counted { IsCall 0 (seen_of self.old) (seen_of self.new) }
        ensures failure { (seen_of self.new).last_failure ≡ failing_code result }
        ensures honest { IsHonest (seen_of self.old) →
            SizeAnswers id result (seen_of self.old) (seen_of self.new) }
        ensures exact { result ≡ size_answer (inventory_of id (seen_of self.old).store) }
        ensures last { last_number self.new ≡ last_number self.old }
    {
        self.responder.fru_size(id)
    }

    fn fru_part(&mut self, id: u8, offset: u16, into: &mut [u8]) -> Result<u8, Code>
        requires some { 0 < length into.old }
        requires fits { length into.old < 255 }
        ensures counted { IsCall (length into.old) (seen_of self.old) (seen_of self.new) }
        ensures failure { (seen_of self.new).last_failure ≡ failing_code result }
        ensures fits { IfOk result (λ got. got ≤ length into.old) }
        ensures rest { IfOk result (λ got. drop got into.new ≡ drop got into.old) }
        ensures err { OnErr result (into.new ≡ into.old) }
        ensures honest { IsHonest (seen_of self.old) →
            BytesAnswers id offset (length into.old) result into.new
            (seen_of self.old) (seen_of self.new) }
        ensures exact { result ≡
            fru_answer offset (length into.old) 254 (inventory_of id (seen_of self.old).store) }
        ensures last { last_number self.new ≡ last_number self.old }
    {
        self.responder.fru_part(id, offset, LARGEST_PART, into)
    }
}
