//! A management controller whose sensor data records come from an image.

use crate::current::are_current;
use crate::image::Image;
use crate::responder::Responder;
use ipmi_bus::{Code, Controller, FruSize, LARGEST_PART, Part, Shelf, reads_ahead};
use ipmi_text::Reading;

/// A controller over another one, the machine. It answers calls for sensor data records, and reserves them, from an image. Any
/// other call is one of the machine, also that for the info of these records.
///
/// It is honest if the machine is, but never plain: it refuses bytes after the first of a record with C9h unless they are
/// asked for under the last reservation, which it never cancels.
#[derive(Drop)]
pub struct WithRecords<C> {
    records: Responder,
    machine: C,
}

impl<C: Controller> WithRecords<C> {
    ghost use Rattle.std.specs.Prelude.{◌≡◌, ◌+◌, ◌<◌, ◌≤◌, IfOk, is_ok, List, MatchResult, None, Ok, OnErr, Option, Result, drop, length, true, ℕ};
    ghost use Rattle.ipmi_bus.specs.Readers.{ReadsValue, ValueSays};
    ghost use Rattle.ipmi_bus.specs.Seen.{AsksAtMost};
    ghost use Rattle.ipmi_bus.specs.declared.step.Ended.{Ended};
    ghost use Rattle.ipmi_image.specs.Below.{failing_code, info_of, IsCall, IsHonest, part_asked, PartAnswers, rows_of, Sdr};
    ghost use Rattle.ipmi_image.specs.Prelude.{GivesRecord, InfoTellsRecords, are_current, machine_after, machine_of, record_answer, records_of, with_records_seen, with_rows};

    /// A controller over this machine, with the sensor data records of the image.
    fn new(image: Image, machine: C) -> WithRecords<C>
        ensures records { records_of result ≡ rows_of Sdr image }
        ensures machine { machine_of result ≡ machine }
        ensures honest { IsHonest (C.seen machine) → IsHonest (with_records_seen C.seen result) }
        ensures store { (with_records_seen C.seen result).store ≡ with_rows Sdr (rows_of Sdr image) (C.seen machine).store }
        ensures same { InfoTellsRecords image (C.seen machine).store →
            are_current (info_of Sdr image) (Ok (info_of Sdr (C.seen machine).store)) ≡ true →
            (with_records_seen C.seen result).store ≡ (C.seen machine).store }
        ensures none_current { (with_records_seen C.seen result).sdr_reservation ≡ None }
    {
        WithRecords {
            records: Responder::new(image),
            machine,
        }
    }

    /// The machine with the sensor data records of the image, if those are the machine's as far as the infos of both tell: they
    /// have the same number of records, and the same times of the last addition and the last erasure (IPMI v2.0, section 33.9).
    /// Err is the machine alone: one has no info, or the machine's is another one or can't be read. The request for it is
    /// repeated after a trouble, at most `tries` times.
    pub fn of_current(image: Image, machine: C, tries: u8) -> Result<WithRecords<C>, C>
        ensures calls { (C.seen (machine_after result)).calls ≤ (C.seen machine).calls + (tries + 1) }
        ensures asked { AsksAtMost 0 (C.seen machine) (C.seen (machine_after result)) }
        ensures reads { (read : Result (Option (List ℕ)) Ended) × ValueSays read (C.seen (machine_after result))
            × (IsHonest (C.seen machine) →
            ReadsValue (info_of Sdr) tries (C.seen machine) (C.seen (machine_after result)) read)
            × (are_current (info_of Sdr image) read ≡ is_ok result) }
        ensures records { IfOk result (λ c. records_of c ≡ rows_of Sdr image) }
        ensures honest { IsHonest (C.seen machine) → MatchResult result
            (λ c. IsHonest (with_records_seen C.seen c)) (λ m. IsHonest (C.seen m)) }
        ensures same { IsHonest (C.seen machine) → IfOk result (λ c. InfoTellsRecords image (C.seen (machine_of c)).store →
            (with_records_seen C.seen c).store ≡ (C.seen (machine_of c)).store) }
        ensures none_current { IfOk result (λ c. (with_records_seen C.seen c).sdr_reservation ≡ None) }
    {
        let mut machine = machine;
        if are_current(&image, &mut machine, tries) {
            Ok(WithRecords::new(image, machine))
        } else {
            Err(machine)
        }
    }

    /// The machine.
    pub fn machine(&self) -> &C
        ensures { result.now ≡ machine_of self.now }
    {
        &self.machine
    }

    /// Bytes of a record of the image.
    fn record_part(
        &mut self,
        reservation: u16,
        id: u16,
        offset: u8,
        into: &mut [u8],
    ) -> Result<Part, Code>
        requires some { 0 < length into.old }
        requires fits { length into.old < 255 }
        ensures counted { IsCall (length into.old) (with_records_seen C.seen self.old) (with_records_seen C.seen self.new) }
        ensures failure { (with_records_seen C.seen self.new).last_failure ≡ failing_code result }
        ensures fits { IfOk result (λ part. part.got ≤ length into.old) }
        ensures rest { IfOk result (λ part. drop part.got into.new ≡ drop part.got into.old) }
        ensures err { OnErr result (into.new ≡ into.old) }
        ensures honest { IsHonest (with_records_seen C.seen self.old) →
            PartAnswers (part_asked Sdr reservation id offset (length into.old)) result into.new
            (with_records_seen C.seen self.old) (with_records_seen C.seen self.new) }
        ensures exact { result ≡ record_answer (part_asked Sdr reservation id offset (length into.old))
            (with_records_seen C.seen self.old).sdr_reservation (records_of self.old) }
        ensures gives { IfOk result (λ part. GivesRecord id offset (length into.old) (records_of self.old) part into.new) }
        ensures kept { (with_records_seen C.seen self.new).sdr_reservation ≡ (with_records_seen C.seen self.old).sdr_reservation }
        ensures machine { machine_of self.new ≡ machine_of self.old }
        ensures records { records_of self.new ≡ records_of self.old }
    {
        self.records.is_store();
        if !self.records.is_reserved(Shelf::Sdr, reservation, offset) {
            let ahead = reads_ahead(Shelf::Sdr, offset, into.len());
            return Err(
                self.records
                    .fail(into.len() as u8, ahead, Code::OUT_OF_RANGE),
            );
        }
        self.records
            .part(Shelf::Sdr, reservation, id, offset, LARGEST_PART, into)
    }
}

impl<C: Controller> Controller for WithRecords<C> {
    ghost use Rattle.std.specs.Prelude.{◌≡◌, ◌<◌, ◌≤◌, IfOk, IsOk, OnErr, drop, length};
    ghost use Rattle.ipmi_image.specs.Below.{BytesAnswers, failing_code, info_of, IsCall, IsHonest, part_asked, PartAnswers, reading_of, ReserveAnswers, Sdr, Sel, SizeAnswers, ValueAnswers};
    ghost use Rattle.ipmi_image.specs.Prelude.{GivesRecord, IsHandedOn, machine_of, record_answer, records_of, with_records_seen};

    ghost seen = { λ c. with_records_seen C.seen c };

    fn reserve(&mut self, shelf: Shelf) -> Result<u16, Code>
        ensures counted { IsCall 0 (with_records_seen C.seen self.old) (with_records_seen C.seen self.new) }
        ensures failure { (with_records_seen C.seen self.new).last_failure ≡ failing_code result }
        ensures honest { IsHonest (with_records_seen C.seen self.old) →
            ReserveAnswers shelf result (with_records_seen C.seen self.old) (with_records_seen C.seen self.new) }
        ensures hands_on { shelf ≡ Sel → IsHandedOn 0 result (C.seen (machine_of self.old)) (C.seen (machine_of self.new)) }
        ensures exact { shelf ≡ Sdr → IsOk result }
        ensures kept { shelf ≡ Sel → (with_records_seen C.seen self.new).sdr_reservation
            ≡ (with_records_seen C.seen self.old).sdr_reservation }
        ensures machine { shelf ≡ Sdr → machine_of self.new ≡ machine_of self.old }
        ensures records { records_of self.new ≡ records_of self.old }
    {
        match shelf {
            Shelf::Sdr => {
                self.records.is_store();
                Ok(self.records.reserve(shelf))
            }
            Shelf::Sel => {
                let answer = self.machine.reserve(shelf);
                self.records.count_answer(0, answer)
            }
        }
    }

    fn part(
        &mut self,
        shelf: Shelf,
        reservation: u16,
        id: u16,
        offset: u8,
        into: &mut [u8],
    ) -> Result<Part, Code>
        requires some { 0 < length into.old }
        requires fits { length into.old < 255 }
        ensures counted { IsCall (length into.old) (with_records_seen C.seen self.old) (with_records_seen C.seen self.new) }
        ensures failure { (with_records_seen C.seen self.new).last_failure ≡ failing_code result }
        ensures fits { IfOk result (λ part. part.got ≤ length into.old) }
        ensures rest { IfOk result (λ part. drop part.got into.new ≡ drop part.got into.old) }
        ensures err { OnErr result (into.new ≡ into.old) }
        ensures honest { IsHonest (with_records_seen C.seen self.old) →
            PartAnswers (part_asked shelf reservation id offset (length into.old)) result into.new
            (with_records_seen C.seen self.old) (with_records_seen C.seen self.new) }
        ensures exact { shelf ≡ Sdr → result ≡ record_answer (part_asked Sdr reservation id offset (length into.old))
            (with_records_seen C.seen self.old).sdr_reservation (records_of self.old) }
        ensures hands_on { shelf ≡ Sel → IsHandedOn (length into.old) result (C.seen (machine_of self.old)) (C.seen (machine_of self.new)) }
        ensures gives { shelf ≡ Sdr → IfOk result (λ part. GivesRecord id offset (length into.old) (records_of self.old) part into.new) }
        ensures kept { (with_records_seen C.seen self.new).sdr_reservation ≡ (with_records_seen C.seen self.old).sdr_reservation }
        ensures machine { shelf ≡ Sdr → machine_of self.new ≡ machine_of self.old }
        ensures records { records_of self.new ≡ records_of self.old }
    {
        match shelf {
            Shelf::Sdr => self.record_part(reservation, id, offset, into),
            Shelf::Sel => {
                let asked = into.len() as u8;
                let answer = self.machine.part(shelf, reservation, id, offset, into);
                self.records.count_answer(asked, answer)
            }
        }
    }

    fn info(&mut self, shelf: Shelf) -> Result<[u8; 14], Code>
        ensures counted { IsCall 0 (with_records_seen C.seen self.old) (with_records_seen C.seen self.new) }
        ensures failure { (with_records_seen C.seen self.new).last_failure ≡ failing_code result }
        ensures honest { IsHonest (with_records_seen C.seen self.old) →
            ValueAnswers (info_of shelf) result (with_records_seen C.seen self.old) (with_records_seen C.seen self.new) }
        ensures kept { (with_records_seen C.seen self.new).sdr_reservation ≡ (with_records_seen C.seen self.old).sdr_reservation }
        ensures hands_on { IsHandedOn 0 result (C.seen (machine_of self.old)) (C.seen (machine_of self.new)) }
        ensures records { records_of self.new ≡ records_of self.old }
    {
        let answer = self.machine.info(shelf);
        self.records.count_answer(0, answer)
    }

    fn reading(&mut self, lun: u8, number: u8) -> Result<Reading, Code>
        ensures counted { IsCall 0 (with_records_seen C.seen self.old) (with_records_seen C.seen self.new) }
        ensures failure { (with_records_seen C.seen self.new).last_failure ≡ failing_code result }
        ensures honest { IsHonest (with_records_seen C.seen self.old) →
            ValueAnswers (reading_of lun number) result (with_records_seen C.seen self.old) (with_records_seen C.seen self.new) }
        ensures kept { (with_records_seen C.seen self.new).sdr_reservation ≡ (with_records_seen C.seen self.old).sdr_reservation }
        ensures hands_on { IsHandedOn 0 result (C.seen (machine_of self.old)) (C.seen (machine_of self.new)) }
        ensures records { records_of self.new ≡ records_of self.old }
    {
        let answer = self.machine.reading(lun, number);
        self.records.count_answer(0, answer)
    }

    fn fru_size(&mut self, id: u8) -> Result<FruSize, Code>
        ensures counted { IsCall 0 (with_records_seen C.seen self.old) (with_records_seen C.seen self.new) }
        ensures failure { (with_records_seen C.seen self.new).last_failure ≡ failing_code result }
        ensures honest { IsHonest (with_records_seen C.seen self.old) →
            SizeAnswers id result (with_records_seen C.seen self.old) (with_records_seen C.seen self.new) }
        ensures kept { (with_records_seen C.seen self.new).sdr_reservation ≡ (with_records_seen C.seen self.old).sdr_reservation }
        ensures hands_on { IsHandedOn 0 result (C.seen (machine_of self.old)) (C.seen (machine_of self.new)) }
        ensures records { records_of self.new ≡ records_of self.old }
    {
        let answer = self.machine.fru_size(id);
        self.records.count_answer(0, answer)
    }

    fn fru_part(&mut self, id: u8, offset: u16, into: &mut [u8]) -> Result<u8, Code>
        requires some { 0 < length into.old }
        requires fits { length into.old < 255 }
        ensures counted { IsCall (length into.old) (with_records_seen C.seen self.old) (with_records_seen C.seen self.new) }
        ensures failure { (with_records_seen C.seen self.new).last_failure ≡ failing_code result }
        ensures fits { IfOk result (λ got. got ≤ length into.old) }
        ensures rest { IfOk result (λ got. drop got into.new ≡ drop got into.old) }
        ensures err { OnErr result (into.new ≡ into.old) }
        ensures honest { IsHonest (with_records_seen C.seen self.old) →
            BytesAnswers id offset (length into.old) result into.new
            (with_records_seen C.seen self.old) (with_records_seen C.seen self.new) }
        ensures kept { (with_records_seen C.seen self.new).sdr_reservation ≡ (with_records_seen C.seen self.old).sdr_reservation }
        ensures hands_on { IsHandedOn (length into.old) result (C.seen (machine_of self.old)) (C.seen (machine_of self.new)) }
        ensures records { records_of self.new ≡ records_of self.old }
    {
        let asked = into.len() as u8;
        let answer = self.machine.fru_part(id, offset, into);
        self.records.count_answer(asked, answer)
    }
}
