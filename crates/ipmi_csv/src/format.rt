//! CSV as a form of output.
ghost use Rattle.std.specs.Prelude.{◌≡◌, ◌++◌, IfOk, map, OnOk};
ghost use Rattle.ipmi_json.specs.Format.{info_object};

use crate::cells::csv_row;
use crate::columns::columns_of;
use crate::row::Row;
use ipmi_bus::{Record, Shelf};
use ipmi_command_line::Separator;
use ipmi_commands::{Format, Framed, Table};
use ipmi_events::Sensors;
use ipmi_fru::has_fault;
use ipmi_image::LineBuffer;
use ipmi_json::{
    Label, tell_device, tell_device_elsewhere, tell_entry, tell_faulty_record, tell_info,
    tell_raw_record, tell_record,
};
use ipmi_records::{KnownReading, SdrFault, SdrView, SelView};
use ipmi_selection::Detail;
use std::alloc::{AllocError, Global};

/// CSV: a row for each record, entry, device and info, with the values of its JSON object. Events have the names of their
/// sensors.
#[derive(Clone, Copy, Debug)]
pub struct Csv<'a> {
    /// What separates the cells of a row.
    pub separator: Separator,
    /// The last cells of each row.
    pub labels: &'a [Label<'a>],
}

/// Appends the keys of labels.
fn push_keys<'a>(keys: &mut Vec<&'a str>, labels: &[Label<'a>]) -> Result<(), AllocError>
    ensures { OnOk result (map (λ key. key.now) keys.new.items ≡
        map (λ key. key.now) keys.old.items ++ map (λ label. label.key.now) labels.now) }
{
    'labels: for label in labels {
        keys.push(label.key)?;
    }
    Ok(())
}

/// The word for the object of an info.
fn info_object(shelf: Shelf) -> &'static str
    ensures { result.now ≡ info_object shelf }
{
    match shelf {
        Shelf::Sdr => "sdr_info",
        Shelf::Sel => "sel_info",
    }
}

impl Format for Csv<'_> {
    ghost use Rattle.ipmi_csv.specs.Format.{csv_texts};

    ghost texts = { λ csv. csv_texts csv.separator csv.labels.now };

    fn has_names(&self, _detail: Detail) -> bool {
        true
    }

    fn record(
        &self,
        alloc: Global,
        _detail: Detail,
        id: u16,
        view: &SdrView<'_>,
        reading: KnownReading,
    ) -> Result<Vec<u8>, AllocError> {
        let mut row = Row::new(alloc)?;
        tell_record(alloc, &mut row, id, view, reading)?;
        row.line(self.separator, self.labels, Table::Records)
    }

    fn fault(
        &self,
        alloc: Global,
        id: u16,
        fault: SdrFault,
        bytes: &[u8],
    ) -> Result<Vec<u8>, AllocError> {
        let mut row = Row::new(alloc)?;
        tell_faulty_record(alloc, &mut row, id, fault, bytes)?;
        row.line(self.separator, self.labels, Table::Records)
    }

    fn hex(
        &self,
        alloc: Global,
        lent: &Record<'_>,
        _line: &mut LineBuffer,
    ) -> Result<Option<Vec<u8>>, AllocError> {
        let mut row = Row::new(alloc)?;
        tell_raw_record(alloc, &mut row, lent.id, lent.next, lent.bytes)?;
        Ok(Some(row.line(self.separator, self.labels, Table::RawRecords)?))
    }

    fn entry(
        &self,
        alloc: Global,
        _detail: Detail,
        id: u16,
        entry: &SelView<'_>,
        sensors: Option<&Sensors>,
    ) -> Result<Vec<u8>, AllocError> {
        let mut row = Row::new(alloc)?;
        tell_entry(alloc, &mut row, id, entry, sensors)?;
        row.line(self.separator, self.labels, Table::Entries)
    }

    fn info(&self, alloc: Global, shelf: Shelf, info: &[u8; 14]) -> Result<Vec<u8>, AllocError> {
        let mut row = Row::new(alloc)?;
        tell_info(alloc, &mut row, info_object(shelf), info)?;
        row.line(self.separator, self.labels, Table::Infos)
    }

    fn device(
        &self,
        alloc: Global,
        _detail: Detail,
        id: u8,
        name: Option<&str>,
        inventory: Option<&[u8]>,
    ) -> Result<Vec<u8>, AllocError> {
        let mut row = Row::new(alloc)?;
        tell_device(alloc, &mut row, id, name, inventory)?;
        row.line(self.separator, self.labels, Table::Devices)
    }

    fn names_fault(&self, _detail: Detail, inventory: &[u8]) -> bool {
        has_fault(inventory)
    }

    fn elsewhere(&self, alloc: Global, name: &str) -> Result<Vec<u8>, AllocError> {
        let mut row = Row::new(alloc)?;
        tell_device_elsewhere(alloc, &mut row, Some(name))?;
        row.line(self.separator, self.labels, Table::Devices)
    }

    fn one_text(&self) {
        ipmi_json::laws::one_list_of_members();
    }
}

impl Framed for Csv<'_> {
    ghost use Rattle.ipmi_csv.specs.Format.{csv_frame};

    ghost frame = { λ csv. csv_frame csv.separator csv.labels.now };

    fn has_header(&self) -> bool {
        true
    }

    fn header(&self, alloc: Global, table: Table) -> Result<Vec<u8>, AllocError> {
        let mut keys = Vec::from_slice(alloc, columns_of(table))?;
        push_keys(&mut keys, self.labels)?;
        csv_row(alloc, self.separator, keys.as_slice())
    }

    fn has_end(&self) -> bool {
        false
    }

    fn end(
        &self,
        alloc: Global,
        _status: u8,
        _reason: &'static str,
        _message: Option<&str>,
        _count: u64,
    ) -> Result<Vec<u8>, AllocError> {
        Ok(Vec::new(alloc))
    }
}
