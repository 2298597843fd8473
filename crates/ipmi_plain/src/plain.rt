//! The forms of output in codes and in words.
ghost use Rattle.std.specs.Prelude.{◌≡◌, ◌++◌, IfOk, OnOk, option_map, string_bytes};
ghost use Rattle.ipmi_text.specs.Appended.{Appends};
ghost use Rattle.ipmi_plain.specs.Plain.{in_parentheses, IsInventoryPiece, IsInventoryText};

use ipmi_bus::{Record, Shelf};
use ipmi_commands::{Format, Framed, Table, Total};
use ipmi_events::{Sensors, event_line, sensor_block, sensor_line};
use ipmi_fru::{FruView, elsewhere_line, fru_line, has_fault, push_fru};
use ipmi_image::{LineBuffer, record_line};
use ipmi_records::{
    KnownReading, SdrFault, SdrView, SelView, info_block, sdr_block_with, sdr_eline_with,
    sdr_fault_line, sdr_line_with, sel_block, sel_line,
};
use ipmi_selection::Detail;
use std::alloc::{AllocError, Global};

/// The specified texts, in which most events and states are numbers. Events have no names.
pub struct Plain;

/// The words of the standard's tables: events, states and entities in words, events with the names of their sensors, and
/// one line per device where all are listed. Everything else is printed as in [`Plain`].
pub struct Descriptive;

/// The capacity for the line of a device with most names.
const LINE_CAPACITY: usize = 32;

/// Appends the text of an inventory, or `not present` if there is none.
fn push_inventory(
    alloc: Global,
    text: &mut String,
    inventory: Option<&[u8]>,
) -> Result<(), AllocError>
    ensures { OnOk result (Appends (IsInventoryText (option_map (λ bytes. bytes.now) inventory.entry))
        (string_bytes text.old) (string_bytes text.new)) }
{
    match inventory {
        Some(bytes) => push_fru(alloc, text, bytes),
        None => text.push_str("not present\n"),
    }
}

/// Appends the name of a device in parentheses, after a space. Appends nothing if there is no name.
fn push_in_parentheses(text: &mut String, name: Option<&str>) -> Result<(), AllocError>
    ensures { OnOk result (string_bytes text.new ≡ string_bytes text.old ++ in_parentheses
        (option_map (λ name. name.now) name.entry)) }
{
    match name {
        Some(name) => write!(text, " ({name})"),
        None => Ok(()),
    }
}

/// A line that names the device, the text of its inventory, and an empty line.
fn inventory_piece(
    alloc: Global,
    id: u8,
    name: Option<&str>,
    inventory: Option<&[u8]>,
) -> Result<String, AllocError>
    ensures { IfOk result (λ text. IsInventoryPiece id (option_map (λ name. name.now) name.entry)
        (option_map (λ bytes. bytes.now) inventory.entry) (string_bytes text)) }
{
    let mut text = String::with_capacity(alloc, LINE_CAPACITY)?;
    write!(text, "FRU {id}")?;
    push_in_parentheses(&mut text, name)?;
    text.push_str("\n")?;
    push_inventory(alloc, &mut text, inventory)?;
    text.push_str("\n")?;
    Ok(text)
}

impl Format for Plain {
    ghost use Rattle.ipmi_plain.specs.Plain.{plain_texts};

    ghost texts = { λ plain. plain_texts };

    fn has_names(&self, _detail: Detail) -> bool {
        false
    }

    fn record(
        &self,
        alloc: Global,
        detail: Detail,
        id: u16,
        view: &SdrView<'_>,
        reading: KnownReading,
    ) -> Result<Vec<u8>, AllocError> {
        match detail {
            Detail::Line => Ok(sdr_line_with(alloc, view, reading)?.into_bytes()),
            Detail::Long => Ok(sdr_eline_with(alloc, view, reading)?.into_bytes()),
            Detail::Block => Ok(sdr_block_with(alloc, id, view, reading)?.into_bytes()),
        }
    }

    fn fault(
        &self,
        alloc: Global,
        id: u16,
        fault: SdrFault,
        _bytes: &[u8],
    ) -> Result<Vec<u8>, AllocError> {
        Ok(sdr_fault_line(alloc, id, fault)?.into_bytes())
    }

    #[inline(always)]
    fn hex(
        &self,
        _alloc: Global,
        lent: &Record<'_>,
        line: &mut LineBuffer,
    ) -> Result<Option<Vec<u8>>, AllocError> {
        record_line(lent, line);
        Ok(None)
    }

    fn entry(
        &self,
        alloc: Global,
        detail: Detail,
        id: u16,
        entry: &SelView<'_>,
        _sensors: Option<&Sensors>,
    ) -> Result<Vec<u8>, AllocError> {
        match detail {
            Detail::Line | Detail::Long => Ok(sel_line(alloc, id, entry)?.into_bytes()),
            Detail::Block => Ok(sel_block(alloc, id, entry)?.into_bytes()),
        }
    }

    fn info(&self, alloc: Global, _shelf: Shelf, info: &[u8; 14]) -> Result<Vec<u8>, AllocError> {
        Ok(info_block(alloc, info)?.into_bytes())
    }

    fn device(
        &self,
        alloc: Global,
        _detail: Detail,
        id: u8,
        name: Option<&str>,
        inventory: Option<&[u8]>,
    ) -> Result<Vec<u8>, AllocError> {
        Ok(inventory_piece(alloc, id, name, inventory)?.into_bytes())
    }

    fn names_fault(&self, _detail: Detail, inventory: &[u8]) -> bool {
        has_fault(inventory)
    }

    fn elsewhere(&self, alloc: Global, name: &str) -> Result<Vec<u8>, AllocError> {
        let text = format!(in alloc; "FRU ({name}): elsewhere, not read\n\n")?;
        Ok(text.into_bytes())
    }

    fn one_text(&self) {
        ipmi_records::laws::one_sdr_line();
        ipmi_records::laws::one_extended_line();
        ipmi_records::laws::one_sdr_block();
        ipmi_records::laws::one_sel_line();
        ipmi_records::laws::one_sel_block();
        ipmi_records::laws::one_info_block();
        ipmi_fru::laws::one_fru_text();
    }
}

impl Total for Plain {
    fn has_texts(&self) {
        ipmi_records::laws::each_record_has_texts();
        ipmi_records::laws::each_entry_has_texts();
        ipmi_records::laws::each_info_has_a_block();
        ipmi_fru::laws::each_inventory_has_a_text();
    }
}

impl Framed for Plain {
    ghost use Rattle.ipmi_commands.specs.Format.{no_frame};

    ghost frame = { λ own. no_frame };

    fn has_header(&self) -> bool {
        false
    }

    fn header(&self, alloc: Global, _table: Table) -> Result<Vec<u8>, AllocError> {
        Ok(Vec::new(alloc))
    }

    fn has_end(&self) -> bool {
        false
    }

    fn end(
        &self,
        alloc: Global,
        _status: u8,
        _reason: &'static str,
        _message: Option<&str>,
        _count: u64,
    ) -> Result<Vec<u8>, AllocError> {
        Ok(Vec::new(alloc))
    }
}

impl Format for Descriptive {
    ghost use Rattle.ipmi_plain.specs.Plain.{descriptive_texts};

    ghost texts = { λ words. descriptive_texts };

    fn has_names(&self, detail: Detail) -> bool {
        detail != Detail::Block
    }

    fn record(
        &self,
        alloc: Global,
        detail: Detail,
        id: u16,
        view: &SdrView<'_>,
        reading: KnownReading,
    ) -> Result<Vec<u8>, AllocError> {
        match detail {
            Detail::Line => Ok(sensor_line(alloc, view, reading)?.into_bytes()),
            Detail::Long => Plain.record(alloc, detail, id, view, reading),
            Detail::Block => Ok(sensor_block(alloc, id, view, reading)?.into_bytes()),
        }
    }

    fn fault(
        &self,
        alloc: Global,
        id: u16,
        fault: SdrFault,
        bytes: &[u8],
    ) -> Result<Vec<u8>, AllocError> {
        Plain.fault(alloc, id, fault, bytes)
    }

    #[inline(always)]
    fn hex(
        &self,
        alloc: Global,
        lent: &Record<'_>,
        line: &mut LineBuffer,
    ) -> Result<Option<Vec<u8>>, AllocError> {
        Plain.hex(alloc, lent, line)
    }

    fn entry(
        &self,
        alloc: Global,
        detail: Detail,
        id: u16,
        entry: &SelView<'_>,
        sensors: Option<&Sensors>,
    ) -> Result<Vec<u8>, AllocError> {
        match (detail, sensors) {
            (Detail::Line | Detail::Long, Some(sensors)) => {
                Ok(event_line(alloc, id, entry, sensors)?.into_bytes())
            }
            _ => Plain.entry(alloc, detail, id, entry, None),
        }
    }

    fn info(&self, alloc: Global, shelf: Shelf, info: &[u8; 14]) -> Result<Vec<u8>, AllocError> {
        Plain.info(alloc, shelf, info)
    }

    fn device(
        &self,
        alloc: Global,
        detail: Detail,
        id: u8,
        name: Option<&str>,
        inventory: Option<&[u8]>,
    ) -> Result<Vec<u8>, AllocError> {
        match detail {
            Detail::Line | Detail::Long => {
                Ok(fru_line(alloc, id, name, inventory)?.into_bytes())
            }
            Detail::Block => Plain.device(alloc, detail, id, name, inventory),
        }
    }

    fn names_fault(&self, detail: Detail, inventory: &[u8]) -> bool {
        match detail {
            Detail::Line | Detail::Long => FruView::read(inventory).is_err(),
            Detail::Block => has_fault(inventory),
        }
    }

    fn elsewhere(&self, alloc: Global, name: &str) -> Result<Vec<u8>, AllocError> {
        Ok(elsewhere_line(alloc, name)?.into_bytes())
    }

    fn one_text(&self) {
        Plain.one_text();
        ipmi_fru::laws::one_fru_line();
        ipmi_events::laws::one_event_in_words();
        ipmi_events::sensor_laws::one_sensor_line();
        ipmi_events::sensor_laws::one_sensor_block();
    }
}

impl Total for Descriptive {
    fn has_texts(&self) {
        Plain.has_texts();
        ipmi_fru::laws::each_device_has_a_line();
        ipmi_events::laws::each_entry_has_a_line_in_words();
        ipmi_events::sensor_laws::each_record_has_a_sensor_line();
        ipmi_events::sensor_laws::each_record_has_a_sensor_block();
    }
}

impl Framed for Descriptive {
    ghost use Rattle.ipmi_commands.specs.Format.{no_frame};

    ghost frame = { λ own. no_frame };

    fn has_header(&self) -> bool {
        false
    }

    fn header(&self, alloc: Global, _table: Table) -> Result<Vec<u8>, AllocError> {
        Ok(Vec::new(alloc))
    }

    fn has_end(&self) -> bool {
        false
    }

    fn end(
        &self,
        alloc: Global,
        _status: u8,
        _reason: &'static str,
        _message: Option<&str>,
        _count: u64,
    ) -> Result<Vec<u8>, AllocError> {
        Ok(Vec::new(alloc))
    }
}
