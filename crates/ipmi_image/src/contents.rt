//! Collects the contents of an image line by line.
ghost use Rattle.std.specs.Prelude.{◌≡◌, ◌++◌, ◌∷◌, [], ◌≤◌, List, not, IsTrue, IfErr, IfSome, OnErr, OnOk, Some, None, unwrap_or, is_some, length, map};
ghost use Rattle.ipmi_image.specs.Below.{IsShelf, IsStore, rows_of, IsInfo, inventory_in, reading_in};
ghost use Rattle.ipmi_image.specs.Line as lines;
ghost use Rattle.ipmi_image.specs.Prelude.{chained, IsBuilt, fault_in, store_of_lines, is_no_record, is_no_id, begins_with_another, first_fault, row_fault, inventory_fault, reading_fault, info_fault, reading_of_bytes, with_bytes, kept_inventory, row_of, sensor_of, said, store_of, AreInventories, AreReadings, HoldsLines, Puts};

use crate::image_line::{Line, LineFault};
use crate::rows::{Rows, StoredRow};
use crate::stored::{StoredInventory, StoredSensor, sensor_key};
use crate::table::Table;
use ipmi_bus::{
    FIRST_RECORD_ID, INFO_LEN, LARGEST_INVENTORY_LEN, LARGEST_SDR_LEN, LAST_FRU_DEVICE_ID,
    NO_NEXT_ID, SEL_ENTRY_LEN, Shelf, record_id,
};
use ipmi_text::{Reading, SDR_HEADER_LEN, sdr_len};
use std::alloc::Global;

/// The highest LUN: a LUN has two bits.
const LARGEST_LUN: u8 = 3;

/// The length of a reading in bytes.
const READING_LEN: usize = 4;

/// The contents of the lines read so far.
#[derive(Drop)]
pub(crate) struct Contents {
    pub(crate) sdr: Rows,
    pub(crate) sel: Rows,
    pub(crate) inventories: Table<StoredInventory>,
    pub(crate) sensors: Table<StoredSensor>,
    pub(crate) sdr_info: Option<[u8; INFO_LEN]>,
    pub(crate) sel_info: Option<[u8; INFO_LEN]>,
}

/// Whether the number of bytes is that of a whole record of the shelf.
fn is_whole(shelf: Shelf, bytes: &[u8]) -> bool
    ensures whole { result ≡ not (is_no_record shelf bytes.now) }
    ensures some { IsTrue result → 5 ≤ length bytes.now }
{
    let len = bytes.len();
    match shelf {
        Shelf::Sdr if len < SDR_HEADER_LEN => false,
        Shelf::Sdr => len == sdr_len(bytes) && len <= LARGEST_SDR_LEN,
        Shelf::Sel => len == SEL_ENTRY_LEN,
    }
}

/// Whether the next record must not have this id: it is FFFFh, or 0000h after the first record.
#[tactic(auto, using(crate::proofs::TableLemmas::is_empty_chained))]
fn is_no_id(rows: &Rows, id: u16) -> bool
    ensures { result ≡ is_no_id (chained rows.now) id }
{
    (id == FIRST_RECORD_ID && !rows.is_empty()) || id == NO_NEXT_ID
}

/// Whether the record is the first one and its bytes begin with another id.
#[tactic(auto, using(crate::proofs::TableLemmas::is_empty_chained))]
fn begins_with_another(rows: &Rows, row: &StoredRow) -> bool
    requires { 2 ≤ length row.now.bytes.now }
    ensures { result ≡ begins_with_another (chained rows.now) (row_of row.now) }
{
    rows.is_empty() && record_id(row.bytes) != row.id
}

/// The fault of the record's bytes: a wrong length, or a wrong id at their start.
fn bytes_fault(shelf: Shelf, rows: &Rows, row: &StoredRow) -> Option<LineFault>
    ensures { result ≡ first_fault ((is_no_record shelf row.now.bytes.now, LineFault.Length) ∷
        (begins_with_another (chained rows.now) (row_of row.now), LineFault.FirstId) ∷ []) }
{
    if !is_whole(shelf, row.bytes) {
        return Some(LineFault::Length);
    }
    if begins_with_another(rows, row) {
        return Some(LineFault::FirstId);
    }
    None
}

/// Appends a record to its shelf, or returns why it is not allowed there.
#[tactic(auto, using(crate::proofs::TableLemmas::has_id_chained))]
pub(crate) fn put_row(
    shelf: Shelf,
    rows: &mut Rows,
    id: u16,
    next: Option<u16>,
    bytes: &[u8],
) -> Result<(), LineFault>
    requires { IsShelf shelf (chained rows.old) }
    ensures keeps { OnOk result (IsShelf shelf (chained rows.new)) }
    ensures err { OnErr result (rows.new ≡ rows.old) }
    ensures put { Puts (row_fault shelf (chained rows.old)
        (record { id = id; next = next; bytes = bytes.now }))
        (rows.new ≡ rows.old ++ record { id = id; next = next; bytes = bytes.now } ∷ []) result }
{
    if is_no_id(rows, id) {
        return Err(LineFault::Id);
    }
    let row = StoredRow { id, next, bytes };
    if let Some(fault) = bytes_fault(shelf, rows, &row) {
        return Err(if rows.has_id(id) {
            LineFault::Twice
        } else {
            fault
        });
    }
    rows.push(&row)?;
    Ok(())
}

/// The length of the inventory so far, in bytes.
#[tactic(auto, using(crate::proofs::TableLemmas::inventory_in_place))]
fn inventory_len(inventories: &Table<StoredInventory>, id: u8) -> usize
    ensures { result ≡ length (unwrap_or (inventory_in (map kept_inventory inventories.now) id)
        []) }
{
    inventories
        .get(u16::from(id))
        .map_or(0, |inventory| inventory.bytes.len())
}

/// Why these bytes cannot be appended to the inventory.
#[tactic(auto, using(crate::proofs::StoreLemmas::inventory_fits))]
fn inventory_fault(inventories: &Table<StoredInventory>, id: u8, bytes: &[u8]) -> Option<LineFault>
    requires { AreInventories (map kept_inventory inventories.now) }
    ensures { result ≡ inventory_fault id (inventory_in (map kept_inventory inventories.now) id)
        bytes.now }
{
    if id > LAST_FRU_DEVICE_ID {
        return Some(LineFault::Id);
    }
    if inventory_len(inventories, id) + bytes.len() > LARGEST_INVENTORY_LEN {
        return Some(LineFault::TooMany);
    }
    None
}

/// Appends the bytes to their inventory.
fn put_inventory(
    alloc: Global,
    inventories: &mut Table<StoredInventory>,
    id: u8,
    bytes: &[u8],
) -> Result<(), LineFault>
    requires { AreInventories (map kept_inventory inventories.old) }
    ensures keeps { OnOk result (AreInventories (map kept_inventory inventories.new)) }
    ensures put { Puts
        (inventory_fault id (inventory_in (map kept_inventory inventories.old) id) bytes.now)
        (map kept_inventory inventories.new ≡ with_bytes id bytes.now
        (map kept_inventory inventories.old)) result }
{
    if let Some(fault) = inventory_fault(inventories, id, bytes) {
        return Err(fault);
    }
    match inventories.place(u16::from(id)) {
        Some(place) => inventories.append(place, bytes)?,
        None => {
            let bytes = bytes.to_vec(alloc)?;
            inventories.push(StoredInventory { id, bytes })?;
        }
    }
    Ok(())
}

/// Whether the sensor already has a reading.
#[tactic(auto, using(crate::proofs::TableLemmas::is_some_reading_in))]
fn has_reading(sensors: &Table<StoredSensor>, lun: u8, number: u8) -> bool
    requires { AreReadings (map sensor_of sensors.now) }
    ensures { result ≡ is_some (reading_in (map sensor_of sensors.now) lun number) }
{
    sensors.place(sensor_key(lun, number)).is_some()
}

/// Why these bytes cannot be the reading of the sensor.
fn reading_fault(
    sensors: &Table<StoredSensor>,
    lun: u8,
    number: u8,
    bytes: &[u8],
) -> Option<LineFault>
    requires { AreReadings (map sensor_of sensors.now) }
    ensures { result ≡ reading_fault lun (reading_in (map sensor_of sensors.now) lun number)
        bytes.now }
{
    if lun > LARGEST_LUN {
        return Some(LineFault::Id);
    }
    if has_reading(sensors, lun, number) {
        return Some(LineFault::Twice);
    }
    if bytes.len() != READING_LEN {
        return Some(LineFault::Length);
    }
    None
}

/// Appends the reading of a sensor.
fn put_reading(
    sensors: &mut Table<StoredSensor>,
    lun: u8,
    number: u8,
    bytes: &[u8],
) -> Result<(), LineFault>
    requires { AreReadings (map sensor_of sensors.old) }
    ensures keeps { OnOk result (AreReadings (map sensor_of sensors.new)) }
    ensures put { Puts
        (reading_fault lun (reading_in (map sensor_of sensors.old) lun number) bytes.now)
        (map sensor_of sensors.new ≡ map sensor_of sensors.old ++ record
        { lun = lun; number = number; reading = reading_of_bytes bytes.now } ∷ []) result }
{
    if let Some(fault) = reading_fault(sensors, lun, number, bytes) {
        return Err(fault);
    }
    sensors.push(StoredSensor {
        lun,
        number,
        reading: Reading {
            raw: bytes[0],
            flags: bytes[1],
            status: bytes[2],
            more: bytes[3],
        },
    })?;
    Ok(())
}

/// Sets the info of a shelf, or returns why it is not allowed.
fn put_info(info: &mut Option<[u8; INFO_LEN]>, bytes: &[u8]) -> Result<(), LineFault>
    ensures keeps { OnOk result (IfSome info.new IsInfo) }
    ensures put { Puts (info_fault info.old bytes.now) (info.new ≡ Some bytes.now) result }
    ensures err { IfErr result (λ e. info_fault info.old bytes.now ≡ Some e) }
{
    if info.is_some() {
        return Err(LineFault::Twice);
    }
    let Ok(whole) = <[u8; INFO_LEN]>::try_from(bytes) else {
        return Err(LineFault::Length);
    };
    *info = Some(whole);
    Ok(())
}

impl Contents {
    /// The records of the shelf, in order.
    pub(crate) fn rows(&self, shelf: Shelf) -> &Rows
        ensures { chained result.now ≡ rows_of shelf (store_of self.now) }
    {
        match shelf {
            Shelf::Sdr => &self.sdr,
            Shelf::Sel => &self.sel,
        }
    }

    /// The contents of no lines.
    pub(crate) fn new(alloc: Global) -> Contents
        ensures empty { HoldsLines result [] }
        ensures store { IsStore (store_of result) }
        ensures built { IsBuilt result }
    {
        Contents {
            sdr: Rows::new(alloc),
            sel: Rows::new(alloc),
            inventories: Table::new(alloc),
            sensors: Table::new(alloc),
            sdr_info: None,
            sel_info: None,
        }
    }

    /// Adds the contents of a line with these bytes to those of the lines before it.
    pub(crate) fn put(&mut self, alloc: Global, line: Line, bytes: &[u8]) -> Result<(), LineFault>
        requires { IsStore (store_of self.old) }
        ensures keeps { OnOk result (IsStore (store_of self.new)) }
        ensures lines { (before : List lines.Line) → HoldsLines self.old before →
            Puts (fault_in (store_of_lines before) (said bytes.now line))
            (HoldsLines self.new (before ++ said bytes.now line ∷ [])) result }
    {
        match line {
            Line::Row { shelf, id, next } => match shelf {
                Shelf::Sdr => put_row(Shelf::Sdr, &mut self.sdr, id, next, bytes),
                Shelf::Sel => put_row(Shelf::Sel, &mut self.sel, id, next, bytes),
            },
            Line::Inventory(id) => put_inventory(alloc, &mut self.inventories, id, bytes),
            Line::Reading { lun, number } => put_reading(&mut self.sensors, lun, number, bytes),
            Line::Info(shelf) => match shelf {
                Shelf::Sdr => put_info(&mut self.sdr_info, bytes),
                Shelf::Sel => put_info(&mut self.sel_info, bytes),
            },
            Line::End => Ok(()),
        }
    }
}
