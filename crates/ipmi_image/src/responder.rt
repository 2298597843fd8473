//! The answers of an image to a controller's calls.
ghost use Rattle.std.specs.Prelude.{◌≡◌, ◌+◌, ◌<◌, ◌≤◌, ◌≢◌, true, false, MatchBool, IfOk, OnErr, Ok, ok_or, Some, None, [], length, drop, option_map, unwrap_or};
ghost use Rattle.ipmi_image.specs.Below.{IsCall, failing_code, look, current, not_present, row_of_record, class_of, IsStore, rows_of, info_of, reading_of, inventory_of, IsHonest, PartFailsWith, ReserveAnswers, PartAnswers, ValueAnswers, SizeAnswers, BytesAnswers, part_asked};
ghost use Rattle.ipmi_image.specs.Prelude.{chained, first_id, has_item, seen_as, place_asked, IsCopied, number_after, with_reservation, part_answer, fru_answer, size_answer, id_of, with_appended, with_image, counts_with};

use crate::earlier::Earlier;
use crate::image::Image;
use crate::lack::Item;
use crate::rows::Rows;
use ipmi_bus::{
    Code, Event, FIRST_RECORD_ID, FruSize, INFO_LEN, Part, Record, Shelf, Tally, reads_ahead,
};
use ipmi_text::Reading;

/// The index of the record that the id requests; 0000h requests the first. The search begins near the index `near`.
#[tactic(auto, using(crate::proofs::RespondLemmas::place_asked_id, crate::proofs::RespondLemmas::place_asked_first))]
fn place_of(rows: &Rows, near: usize, id: u16) -> Option<usize>
    ensures { result ≡ place_asked id rows.now }
{
    if id != FIRST_RECORD_ID {
        return rows.place_near(id, near);
    }
    if rows.is_empty() {
        return None;
    }
    Some(0)
}

/// The next id of the record at the index: `next`, or if that is None the id of the following record.
fn next_of(rows: &Rows, place: usize, next: Option<u16>) -> u16
    requires { place < 65535 }
    ensures { result ≡ unwrap_or next (first_id id_of (drop (place + 1) rows.now)) }
{
    next.unwrap_or_else(|| rows.id_at(place + 1))
}

/// The record that the id requests, with its index. The search begins near the index `near`.
#[tactic(auto, using(crate::proofs::RespondLemmas::look_chained))]
fn look_up(rows: &Rows, near: usize, id: u16) -> Option<(usize, Record<'_>)>
    ensures { option_map (λ found. row_of_record found.1) result ≡ look (chained rows.now) id }
{
    let place = place_of(rows, near, id)?;
    let row = rows.get(place)?;
    let record = Record {
        id: row.id,
        next: next_of(rows, place, row.next),
        bytes: row.bytes,
    };
    Some((place, record))
}

/// Copies the bytes that start at the offset, as many as fit into `into`, but at most `most`.
fn copy_piece(bytes: &[u8], offset: usize, most: u8, into: &mut [u8]) -> Option<u8>
    requires some { 0 < length into.old }
    requires fits { length into.old < 255 }
    requires one { 0 < most }
    ensures { IsCopied bytes.now offset most into.old into.new result }
{
    if offset >= bytes.len() {
        return None;
    }
    let got = into.len().min(usize::from(most)).min(bytes.len() - offset);
    into[..got].copy_from_slice(&bytes[offset..offset + got]);
    Some(got as u8)
}

/// An image that answers and counts calls.
#[derive(Drop)]
pub(crate) struct Responder {
    image: Image,
    earlier: Earlier,
    /// The number of the last reservation.
    given: u16,
    sdr_reservation: Option<u16>,
    sel_reservation: Option<u16>,
    /// The index of the record found last. A listing requests it again, or a neighbour of it.
    near: usize,
    tally: Tally,
}

impl Responder {
    /// An image before its first reservation.
    pub(crate) fn new(image: Image) -> Responder
        ensures store { result.image ≡ image }
        ensures none_earlier { result.earlier.stores ≡ [] }
        ensures none_current { (result.sdr_reservation ≡ None) × (result.sel_reservation ≡ None) }
        ensures none_given { result.given ≡ 0 }
        ensures none_added { result.tally.counts.stores_added ≡ 0 }
    {
        Responder {
            image,
            earlier: Earlier::none(),
            given: 0,
            sdr_reservation: None,
            sel_reservation: None,
            near: 0,
            tally: Tally::new(),
        }
    }

    /// Whether the image has the item.
    pub(crate) fn has(&self, item: Item) -> bool
        ensures { result ≡ has_item item self.now.image }
    {
        match item {
            Item::Record(shelf, id) => look_up(self.image.rows(shelf), self.near, id).is_some(),
            Item::Info(shelf) => self.image.info(shelf).is_some(),
            Item::Inventory(id) => self.image.inventory(id).is_some(),
            Item::Reading { .. } | Item::Size(_) => false,
        }
    }

    /// Does nothing: a caller's contract needs what it ensures.
    pub(crate) fn is_store(&self)
        ensures { IsStore self.now.image }
    {
        self.image.contents();
    }

    /// Cancels both reservations.
    pub(crate) fn forget(&mut self)
        ensures { self.new ≡ record self.old { sdr_reservation = None; sel_reservation = None } }
    {
        self.sdr_reservation = None;
        self.sel_reservation = None;
    }

    /// Replaces the image with another.
    fn replace(&mut self, image: Image)
        ensures replaced { self.new ≡ record (with_image image self.old) { tally = self.new.tally } }
        ensures counted { self.new.tally.counts ≡ record self.old.tally.counts
            { stores_added = self.old.tally.counts.stores_added + 1 } }
    {
        self.earlier = Earlier::and(&self.earlier, &self.image);
        self.image = image;
        self.tally.count(Event::Stored);
    }

    /// Replaces the image with another, and cancels both reservations.
    pub(crate) fn change(&mut self, image: Image)
        ensures store { IsStore self.new.image }
        ensures counted { self.new.tally.counts ≡ record self.old.tally.counts
            { stores_added = self.old.tally.counts.stores_added + 1 } }
        ensures changed { self.new ≡ record (with_image image self.old)
            { sdr_reservation = None; sel_reservation = None; tally = self.new.tally } }
    {
        self.replace(image);
        self.forget();
    }

    /// Replaces the image with another. The reservation of a shelf stays if the shelf begins with its earlier records.
    pub(crate) fn append(&mut self, image: Image)
        ensures store { IsStore self.new.image }
        ensures counted { self.new.tally.counts ≡ record self.old.tally.counts
            { stores_added = self.old.tally.counts.stores_added + 1 } }
        ensures appended { self.new ≡ record (with_appended image self.old) { tally = self.new.tally } }
    {
        if !self.image.begins(&image, Shelf::Sdr) {
            self.sdr_reservation = None;
        }
        if !self.image.begins(&image, Shelf::Sel) {
            self.sel_reservation = None;
        }
        self.replace(image);
    }

    /// Counts a call for `asked` bytes that fails with this code, and returns the code. `ahead`: the call reads ahead.
    pub(crate) fn fail(&mut self, asked: u8, ahead: bool, code: Code) -> Code
        ensures code { result ≡ code }
        ensures same { self.new ≡ record self.old { tally = self.new.tally } }
        ensures counted { IsCall asked (seen_as false self.old) (seen_as false self.new) }
        ensures failure { self.new.tally.counts.last_failure ≡ Some code.0 }
        ensures no_store { self.new.tally.counts.stores_added ≡ self.old.tally.counts.stores_added }
        ensures counts { PartFailsWith ahead (Unit {0}) (Unit {0}) (class_of code.0) code.0
            (seen_as false self.old) (seen_as false self.new) }
    {
        self.tally.count(Event::Called(asked));
        self.tally.fail_part(ahead, code)
    }

    /// Counts a call for `asked` bytes that another controller answered, and returns its answer.
    pub(crate) fn count_answer<V>(&mut self, asked: u8, answer: Result<V, Code>) -> Result<V, Code>
        ensures answer { result ≡ answer }
        ensures same { self.new ≡ record self.old { tally = self.new.tally } }
        ensures counts { self.new.tally.counts ≡ counts_with asked answer self.old.tally.counts }
    {
        let called = Event::Called(asked);
        self.tally.count(called);
        match answer {
            Ok(answer) => Ok(answer),
            Err(code) => Err(self.tally.fail(code)),
        }
    }

    /// Returns the next reservation number; after FFFFh that is 1.
    pub(crate) fn reserve(&mut self, shelf: Shelf) -> u16
        ensures counted { IsCall 0 (seen_as true self.old) (seen_as true self.new) }
        ensures failure { self.new.tally.counts.last_failure ≡ None }
        ensures answers { IsHonest (seen_as true self.old) →
            ReserveAnswers shelf (Ok result) (seen_as true self.old) (seen_as true self.new) }
        ensures number { result ≡ number_after self.old.given }
        ensures no_store { self.new.tally.counts.stores_added ≡ self.old.tally.counts.stores_added }
        ensures another { result ≢ self.old.given }
        ensures kept { self.new ≡
            record (with_reservation shelf result self.old) { tally = self.new.tally } }
    {
        self.tally.count(Event::Called(0));
        let number = if self.given == u16::MAX {
            1
        } else {
            self.given + 1
        };
        self.given = number;
        match shelf {
            Shelf::Sdr => self.sdr_reservation = Some(number),
            Shelf::Sel => self.sel_reservation = Some(number),
        }
        number
    }

    /// Whether bytes at the offset may be requested under the reservation. At an offset above 0 it must be the last
    /// one given for the shelf.
    pub(crate) fn is_reserved(&self, shelf: Shelf, reservation: u16, offset: u8) -> bool
        ensures { MatchBool result
            (0 < offset → current shelf (seen_as true self.now) ≡ Some reservation)
            ((0 < offset) × (current shelf (seen_as true self.now) ≢ Some reservation)) }
    {
        let last = match shelf {
            Shelf::Sdr => self.sdr_reservation,
            Shelf::Sel => self.sel_reservation,
        };
        offset == 0 || last == Some(reservation)
    }

    /// Bytes of a record, at most `most` of them.
    pub(crate) fn part(
        &mut self,
        shelf: Shelf,
        reservation: u16,
        id: u16,
        offset: u8,
        most: u8,
        into: &mut [u8],
    ) -> Result<Part, Code>
        requires some { 0 < length into.old }
        requires fits { length into.old < 255 }
        requires one { 0 < most }
        ensures counted { IsCall (length into.old) (seen_as true self.old) (seen_as true self.new) }
        ensures failure { self.new.tally.counts.last_failure ≡ failing_code result }
        ensures fits { IfOk result (λ part. part.got ≤ length into.old) }
        ensures rest { IfOk result (λ part. drop part.got into.new ≡ drop part.got into.old) }
        ensures err { OnErr result (into.new ≡ into.old) }
        ensures answers { IsHonest (seen_as true self.old) →
            PartAnswers (part_asked shelf reservation id offset (length into.old))
            result into.new (seen_as true self.old) (seen_as true self.new) }
        ensures same { self.new ≡ record self.old { near = self.new.near; tally = self.new.tally } }
        ensures no_store { self.new.tally.counts.stores_added ≡ self.old.tally.counts.stores_added }
        ensures exact { result ≡ part_answer
            (part_asked shelf reservation id offset (length into.old))
            most (current shelf (seen_as true self.old))
            (look (rows_of shelf self.old.image) id) }
    {
        self.tally.count(Event::Called(into.len() as u8));
        let is_reserved = self.is_reserved(shelf, reservation, offset);
        let Some((place, row)) = look_up(self.image.rows(shelf), self.near, id) else {
            return Err(self.tally.fail(Code::NOT_PRESENT));
        };
        self.near = place;
        if !is_reserved {
            return Err(self.tally.fail(Code::CANCELLED));
        }
        let Some(got) = copy_piece(row.bytes, usize::from(offset), most, into) else {
            let ahead = reads_ahead(shelf, offset, into.len());
            return Err(self.tally.fail_part(ahead, Code::OUT_OF_RANGE));
        };
        if usize::from(offset) + usize::from(got) == row.bytes.len() {
            self.tally.count(Event::Finished);
        }
        Ok(Part {
            next: row.next,
            got,
        })
    }

    /// The info of a shelf.
    pub(crate) fn info(&mut self, shelf: Shelf) -> Result<[u8; INFO_LEN], Code>
        ensures counted { IsCall 0 (seen_as true self.old) (seen_as true self.new) }
        ensures failure { self.new.tally.counts.last_failure ≡ failing_code result }
        ensures answers { IsHonest (seen_as true self.old) →
            ValueAnswers (info_of shelf) result (seen_as true self.old) (seen_as true self.new) }
        ensures same { self.new ≡ record self.old { tally = self.new.tally } }
        ensures no_store { self.new.tally.counts.stores_added ≡ self.old.tally.counts.stores_added }
        ensures exact { result ≡ ok_or (info_of shelf self.old.image) not_present }
    {
        self.tally.count(Event::Called(0));
        let Some(info) = self.image.info(shelf) else {
            return Err(self.tally.fail(Code::NOT_PRESENT));
        };
        self.tally.count(Event::Finished);
        Ok(info)
    }

    /// The reading of a sensor.
    pub(crate) fn reading(&mut self, lun: u8, number: u8) -> Result<Reading, Code>
        ensures counted { IsCall 0 (seen_as true self.old) (seen_as true self.new) }
        ensures failure { self.new.tally.counts.last_failure ≡ failing_code result }
        ensures answers { IsHonest (seen_as true self.old) →
            ValueAnswers (reading_of lun number) result (seen_as true self.old)
            (seen_as true self.new) }
        ensures same { self.new ≡ record self.old { tally = self.new.tally } }
        ensures no_store { self.new.tally.counts.stores_added ≡ self.old.tally.counts.stores_added }
        ensures exact { result ≡ ok_or (reading_of lun number self.old.image) not_present }
    {
        self.tally.count(Event::Called(0));
        let Some(reading) = self.image.reading(lun, number) else {
            return Err(self.tally.fail(Code::NOT_PRESENT));
        };
        self.tally.count(Event::Finished);
        Ok(reading)
    }

    /// The size of an inventory.
    pub(crate) fn fru_size(&mut self, id: u8) -> Result<FruSize, Code>
        ensures counted { IsCall 0 (seen_as true self.old) (seen_as true self.new) }
        ensures failure { self.new.tally.counts.last_failure ≡ failing_code result }
        ensures answers { IsHonest (seen_as true self.old) →
            SizeAnswers id result (seen_as true self.old) (seen_as true self.new) }
        ensures same { self.new ≡ record self.old { tally = self.new.tally } }
        ensures no_store { self.new.tally.counts.stores_added ≡ self.old.tally.counts.stores_added }
        ensures exact { result ≡ size_answer (inventory_of id self.old.image) }
    {
        self.tally.count(Event::Called(0));
        let Some(bytes) = self.image.inventory(id) else {
            return Err(self.tally.fail(Code::NOT_PRESENT));
        };
        let size = bytes.len() as u16;
        if size == 0 {
            self.tally.count(Event::Finished);
        }
        Ok(FruSize { size, words: false })
    }

    /// Bytes of an inventory, at most `most` of them.
    pub(crate) fn fru_part(
        &mut self,
        id: u8,
        offset: u16,
        most: u8,
        into: &mut [u8],
    ) -> Result<u8, Code>
        requires some { 0 < length into.old }
        requires fits { length into.old < 255 }
        requires one { 0 < most }
        ensures counted { IsCall (length into.old) (seen_as true self.old) (seen_as true self.new) }
        ensures failure { self.new.tally.counts.last_failure ≡ failing_code result }
        ensures fits { IfOk result (λ got. got ≤ length into.old) }
        ensures rest { IfOk result (λ got. drop got into.new ≡ drop got into.old) }
        ensures err { OnErr result (into.new ≡ into.old) }
        ensures answers { IsHonest (seen_as true self.old) →
            BytesAnswers id offset (length into.old) result into.new (seen_as true self.old)
            (seen_as true self.new) }
        ensures same { self.new ≡ record self.old { tally = self.new.tally } }
        ensures no_store { self.new.tally.counts.stores_added ≡ self.old.tally.counts.stores_added }
        ensures exact { result ≡
            fru_answer offset (length into.old) most (inventory_of id self.old.image) }
    {
        self.tally.count(Event::Called(into.len() as u8));
        let Some(bytes) = self.image.inventory(id) else {
            return Err(self.tally.fail(Code::NOT_PRESENT));
        };
        let Some(got) = copy_piece(bytes, usize::from(offset), most, into) else {
            return Err(self.tally.fail(Code::OUT_OF_RANGE));
        };
        if usize::from(offset) + usize::from(got) == bytes.len() {
            self.tally.count(Event::Finished);
        }
        Ok(got)
    }
}
