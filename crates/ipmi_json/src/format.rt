//! JSON as a form of output.
use crate::fru::{fru_elsewhere_line, fru_line};
use crate::info::{end_line, sdr_info_line, sel_info_line};
use crate::object::Label;
use crate::sdr::{sdr_fault_line, sdr_raw_line, sdr_record_line};
use crate::sel::sel_entry_line;
use ipmi_bus::{Record, Shelf};
use ipmi_commands::{Format, Framed, Table};
use ipmi_events::Sensors;
use ipmi_fru::has_fault;
use ipmi_image::LineBuffer;
use ipmi_records::{KnownReading, SdrFault, SdrView, SelView};
use ipmi_selection::Detail;
use std::alloc::{AllocError, Global};

/// JSON: an object in a line for each record, entry, device and info. Events have the names of their sensors.
#[derive(Clone, Copy)]
pub struct Json<'a> {
    /// The last members of each object.
    pub labels: &'a [Label<'a>],
}

impl Format for Json<'_> {
    ghost use Rattle.ipmi_json.specs.Format.{json_texts};

    ghost texts = { λ json. json_texts json.labels.now };

    fn has_names(&self, _detail: Detail) -> bool {
        true
    }

    fn record(
        &self,
        alloc: Global,
        _detail: Detail,
        id: u16,
        view: &SdrView<'_>,
        reading: KnownReading,
    ) -> Result<Vec<u8>, AllocError> {
        crate::laws::no_line_is_empty();
        sdr_record_line(alloc, id, view, reading, self.labels)
    }

    fn fault(
        &self,
        alloc: Global,
        id: u16,
        fault: SdrFault,
        bytes: &[u8],
    ) -> Result<Vec<u8>, AllocError> {
        crate::laws::no_line_is_empty();
        sdr_fault_line(alloc, id, fault, bytes, self.labels)
    }

    fn hex(
        &self,
        alloc: Global,
        lent: &Record<'_>,
        _line: &mut LineBuffer,
    ) -> Result<Option<Vec<u8>>, AllocError> {
        let (id, next) = (lent.id, lent.next);
        Ok(Some(sdr_raw_line(alloc, id, next, lent.bytes, self.labels)?))
    }

    fn entry(
        &self,
        alloc: Global,
        _detail: Detail,
        id: u16,
        entry: &SelView<'_>,
        sensors: Option<&Sensors>,
    ) -> Result<Vec<u8>, AllocError> {
        crate::laws::no_line_is_empty();
        sel_entry_line(alloc, id, entry, sensors, self.labels)
    }

    fn info(&self, alloc: Global, shelf: Shelf, info: &[u8; 14]) -> Result<Vec<u8>, AllocError> {
        crate::laws::no_line_is_empty();
        match shelf {
            Shelf::Sdr => sdr_info_line(alloc, info, self.labels),
            Shelf::Sel => sel_info_line(alloc, info, self.labels),
        }
    }

    fn device(
        &self,
        alloc: Global,
        _detail: Detail,
        id: u8,
        name: Option<&str>,
        inventory: Option<&[u8]>,
    ) -> Result<Vec<u8>, AllocError> {
        crate::laws::no_line_is_empty();
        fru_line(alloc, id, name, inventory, self.labels)
    }

    fn names_fault(&self, _detail: Detail, inventory: &[u8]) -> bool {
        has_fault(inventory)
    }

    fn elsewhere(&self, alloc: Global, name: &str) -> Result<Vec<u8>, AllocError> {
        crate::laws::no_line_is_empty();
        fru_elsewhere_line(alloc, Some(name), self.labels)
    }

    fn one_text(&self) {
        crate::laws::one_object_line();
        crate::laws::one_record_line();
        crate::laws::one_entry_line();
        crate::laws::one_info_line();
        crate::laws::one_fru_line();
    }
}

impl Framed for Json<'_> {
    ghost use Rattle.ipmi_json.specs.Format.{json_frame};

    ghost frame = { λ json. json_frame json.labels.now };

    fn has_header(&self) -> bool {
        false
    }

    fn header(&self, alloc: Global, _table: Table) -> Result<Vec<u8>, AllocError> {
        Ok(Vec::new(alloc))
    }

    fn has_end(&self) -> bool {
        true
    }

    fn end(
        &self,
        alloc: Global,
        status: u8,
        reason: &'static str,
        message: Option<&str>,
        count: u64,
    ) -> Result<Vec<u8>, AllocError> {
        end_line(alloc, status, reason, message, count, self.labels)
    }
}
