//! A management controller that answers from a snapshot.
ghost use Rattle.std.specs.Prelude.{◌≡◌};

use crate::lack::{Item, Lack, code_for};
use crate::responder::Responder;
use crate::snapshot::Snapshot;
use ipmi_bus::{Code, Controller, FruSize, LARGEST_PART, Part, Shelf, reads_ahead};
use ipmi_text::Reading;

/// A controller over a snapshot. It answers like an `ImageController` over the image, but a request for an item that the image does not
/// have ends with the code that is noted for it, if it may be lacking and that is the code of a refusal or of a busy controller. A
/// reading that is lacking is not present.
#[derive(Drop)]
pub struct SnapshotController {
    responder: Responder,
    lacks: Vec<Lack>,
    ghost no_store: { responder.tally.counts.stores_added ≡ 0 },
}

impl SnapshotController {
    ghost use Rattle.std.specs.Prelude.{◌≡◌, ◌==◌, false, MatchOption, None, Some, length};
    ghost use Rattle.ipmi_image.specs.Below.{class_of, IsCall, IsHonest, PartFailsWith};
    ghost use Rattle.ipmi_image.specs.Prelude.{refusal, snapshot_lacks, snapshot_last_number, snapshot_seen};

    /// A controller with the contents of the snapshot. No reservation is current.
    pub fn new(snapshot: Snapshot) -> SnapshotController
        ensures honest { IsHonest (snapshot_seen result) }
        ensures plain { (snapshot_seen result).plain ≡ (length snapshot.lacks == 0) }
        ensures store { (snapshot_seen result).store ≡ snapshot.store }
        ensures lacks { snapshot_lacks result ≡ snapshot.lacks }
        ensures none_current { ((snapshot_seen result).sdr_reservation ≡ None) ×
            ((snapshot_seen result).sel_reservation ≡ None) }
        ensures none_given { snapshot_last_number result ≡ 0 }
    {
        let (image, lacks) = snapshot.into_parts();
        SnapshotController {
            responder: Responder::new(image),
            lacks,
        }
    }

    /// Does nothing.
    pub fn keeps_its_store(&self)
        ensures { (snapshot_seen self.now).stores_added ≡ 0 }
    {}

    /// The code with which a call for `asked` bytes of the item fails, if it does. Then the call is counted. `ahead`: the call reads
    /// ahead.
    #[inline(always)]
    fn refusal(&mut self, item: Item, asked: u8, ahead: bool) -> Option<Code>
        ensures code { result ≡ refusal item self.old.responder.image self.old.lacks.items }
        ensures same { self.new.responder ≡ record self.old.responder { tally = self.new.responder.tally } }
        ensures lacks { self.new.lacks ≡ self.old.lacks }
        ensures counts { MatchOption result (self.new ≡ self.old) (λ code.
            IsCall asked (snapshot_seen self.old) (snapshot_seen self.new)
            × ((snapshot_seen self.new).last_failure ≡ Some code.0)
            × ((snapshot_seen self.new).stores_added ≡ (snapshot_seen self.old).stores_added)
            × PartFailsWith ahead ⊥ ⊥ (class_of code.0) code.0 (snapshot_seen self.old) (snapshot_seen self.new)
            × ((snapshot_seen self.old).plain ≡ false)) }
    {
        // first, as nearly all images lack nothing
        if self.lacks.is_empty() || self.responder.has(item) {
            return None;
        }
        let code = code_for(item, self.lacks.as_slice())?;
        Some(self.responder.fail(asked, ahead, code))
    }
}

impl Controller for SnapshotController {
    ghost use Rattle.std.specs.Prelude.{◌≡◌, ◌<◌, ◌≤◌, IfOk, OnErr, Ok, ok_or, length, drop};
    ghost use Rattle.ipmi_image.specs.Below.{BytesAnswers, current, failing_code, info_of, inventory_of, IsCall, IsHonest, look, not_present, PartAnswers, part_asked, reading_of, ReserveAnswers, rows_of, SizeAnswers, ValueAnswers};
    ghost use Rattle.ipmi_image.specs.Prelude.{fru_answer, Item, KeepsSnapshot, number_after, part_answer, size_answer, snapshot_answer, snapshot_lacks, snapshot_last_number, snapshot_seen};

    ghost seen = { snapshot_seen };

    fn reserve(&mut self, shelf: Shelf) -> Result<u16, Code>
        ensures counted { IsCall 0 (snapshot_seen self.old) (snapshot_seen self.new) }
        ensures failure { (snapshot_seen self.new).last_failure ≡ failing_code result }
        ensures honest { IsHonest (snapshot_seen self.old) →
            ReserveAnswers shelf result (snapshot_seen self.old) (snapshot_seen self.new) }
        ensures exact { result ≡ Ok (number_after (snapshot_last_number self.old)) }
        ensures last { snapshot_last_number self.new ≡ number_after (snapshot_last_number self.old) }
        ensures lacks { snapshot_lacks self.new ≡ snapshot_lacks self.old }
    {
        Ok(self.responder.reserve(shelf))
    }

    fn part(
        &mut self,
        shelf: Shelf,
        reservation: u16,
        id: u16,
        offset: u8,
        into: &mut [u8],
    ) -> Result<Part, Code>
        requires some { 0 < length into.old }
        requires fits { length into.old < 255 }
        ensures counted { IsCall (length into.old) (snapshot_seen self.old) (snapshot_seen self.new) }
        ensures failure { (snapshot_seen self.new).last_failure ≡ failing_code result }
        ensures fits { IfOk result (λ part. part.got ≤ length into.old) }
        ensures rest { IfOk result (λ part. drop part.got into.new ≡ drop part.got into.old) }
        ensures err { OnErr result (into.new ≡ into.old) }
        ensures honest { IsHonest (snapshot_seen self.old) →
            PartAnswers (part_asked shelf reservation id offset (length into.old)) result into.new
            (snapshot_seen self.old) (snapshot_seen self.new) }
        ensures exact { result ≡ snapshot_answer (Item.Record shelf id) self.old
            (part_answer (part_asked shelf reservation id offset (length into.old))
            254 (current shelf (snapshot_seen self.old))
            (look (rows_of shelf (snapshot_seen self.old).store) id)) }
        ensures keeps { KeepsSnapshot self.old self.new }
    {
        let ahead = reads_ahead(shelf, offset, into.len());
        match self.refusal(Item::Record(shelf, id), into.len() as u8, ahead) {
            Some(code) => Err(code),
            None => {
                self.responder
                    .part(shelf, reservation, id, offset, LARGEST_PART, into)
            }
        }
    }

    fn info(&mut self, shelf: Shelf) -> Result<[u8; 14], Code>
        ensures counted { IsCall 0 (snapshot_seen self.old) (snapshot_seen self.new) }
        ensures failure { (snapshot_seen self.new).last_failure ≡ failing_code result }
        ensures honest { IsHonest (snapshot_seen self.old) →
            ValueAnswers (info_of shelf) result (snapshot_seen self.old) (snapshot_seen self.new) }
        ensures exact { result ≡ snapshot_answer (Item.Info shelf) self.old
            (ok_or (info_of shelf (snapshot_seen self.old).store) not_present) }
        ensures keeps { KeepsSnapshot self.old self.new }
    {
        match self.refusal(Item::Info(shelf), 0, false) {
            Some(code) => Err(code),
            None => self.responder.info(shelf),
        }
    }

    fn reading(&mut self, lun: u8, number: u8) -> Result<Reading, Code>
        ensures counted { IsCall 0 (snapshot_seen self.old) (snapshot_seen self.new) }
        ensures failure { (snapshot_seen self.new).last_failure ≡ failing_code result }
        ensures honest { IsHonest (snapshot_seen self.old) →
            ValueAnswers (reading_of lun number) result (snapshot_seen self.old) (snapshot_seen self.new) }
        ensures exact { result ≡ ok_or (reading_of lun number (snapshot_seen self.old).store) not_present }
        ensures keeps { KeepsSnapshot self.old self.new }
    {
        self.responder.reading(lun, number)
    }

    fn fru_size(&mut self, id: u8) -> Result<FruSize, Code>
        ensures counted { IsCall 0 (snapshot_seen self.old) (snapshot_seen self.new) }
        ensures failure { (snapshot_seen self.new).last_failure ≡ failing_code result }
        ensures honest { IsHonest (snapshot_seen self.old) →
            SizeAnswers id result (snapshot_seen self.old) (snapshot_seen self.new) }
        ensures exact { result ≡ snapshot_answer (Item.Inventory id) self.old
            (size_answer (inventory_of id (snapshot_seen self.old).store)) }
        ensures keeps { KeepsSnapshot self.old self.new }
    {
        match self.refusal(Item::Inventory(id), 0, false) {
            Some(code) => Err(code),
            None => self.responder.fru_size(id),
        }
    }

    fn fru_part(&mut self, id: u8, offset: u16, into: &mut [u8]) -> Result<u8, Code>
        requires some { 0 < length into.old }
        requires fits { length into.old < 255 }
        ensures counted { IsCall (length into.old) (snapshot_seen self.old) (snapshot_seen self.new) }
        ensures failure { (snapshot_seen self.new).last_failure ≡ failing_code result }
        ensures fits { IfOk result (λ got. got ≤ length into.old) }
        ensures rest { IfOk result (λ got. drop got into.new ≡ drop got into.old) }
        ensures err { OnErr result (into.new ≡ into.old) }
        ensures honest { IsHonest (snapshot_seen self.old) →
            BytesAnswers id offset (length into.old) result into.new
            (snapshot_seen self.old) (snapshot_seen self.new) }
        ensures exact { result ≡ snapshot_answer (Item.Inventory id) self.old
            (fru_answer offset (length into.old) 254 (inventory_of id (snapshot_seen self.old).store)) }
        ensures keeps { KeepsSnapshot self.old self.new }
    {
        match self.refusal(Item::Inventory(id), into.len() as u8, false) {
            Some(code) => Err(code),
            None => self.responder.fru_part(id, offset, LARGEST_PART, into),
        }
    }
}
