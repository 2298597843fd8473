//! Builds an image item by item.
ghost use Rattle.std.specs.Prelude.{◌≡◌, ◌<◌, ◌≤◌, None, Some, IfOk, IfSome, OnErr, OnOk, [], ◌++◌, ◌∷◌, map, option_map, slice_get, vec_len};
ghost use Rattle.ipmi_image.specs.Below.{AreBytes, inventory_in, IsShelf, IsStore, reading_in, row_of_record, rows_of, inventory_of, reading_of};
ghost use Rattle.ipmi_image.specs.Prelude.{AreInventories, AreReadings, chained, empty_store, kept_inventory, sensor_of, HaveNext, may_follow, rows_and, with_info, with_inventory, with_reading, with_rows};

use crate::contents::{Contents, put_row};
use crate::image::Image;
use crate::image_line::LineFault;
use crate::rows::Rows;
use crate::stored::{StoredInventory, StoredSensor};
use crate::table::Table;
use ipmi_bus::{INFO_LEN, Record, Shelf};
use ipmi_text::Reading;
use std::alloc::{AllocError, Global};
use std::marker::Model;

/// An image under construction.
#[derive(Drop)]
pub struct ImageBuilder {
    contents: Contents,
}

impl Model for ImageBuilder {
    ghost use Rattle.ipmi_bus.specs.Store.{Store};
    ghost use Rattle.ipmi_image.specs.Built.{IsBuilt};
    ghost use Rattle.ipmi_image.specs.Stored.{store_of};

    ghost Value = { Store };

    ghost view = { λ builder. store_of builder.contents };

    ghost invariant = { λ builder. IsBuilt builder.contents };
}

/// Appends a record to its shelf if it is allowed there, and returns whether it is.
fn put_record(shelf: Shelf, rows: &mut Rows, lent: &Record<'_>) -> Result<bool, AllocError>
    requires shelf { IsShelf shelf (chained rows.old) }
    requires next { HaveNext rows.old }
    ensures shelf { IsShelf shelf (chained rows.new) }
    ensures next { HaveNext rows.new }
    ensures put { IfOk result (λ put.
        (put ≡ may_follow shelf (chained rows.old) (row_of_record lent.now)) ×
        (chained rows.new ≡ rows_and put (chained rows.old) (row_of_record lent.now))) }
    ensures err { OnErr result (chained rows.new ≡ chained rows.old) }
{
    match put_row(shelf, rows, lent.id, Some(lent.next), lent.bytes) {
        Ok(()) => Ok(true),
        Err(fault) => {
            if fault.is_memory() {
                Err(AllocError)
            } else {
                Ok(false)
            }
        }
    }
}

/// States that bytes are below 256. It does nothing; a caller uses it to get that fact.
fn are_bytes(_bytes: &[u8])
    ensures { AreBytes _bytes.now }
{}

/// Appends an inventory.
fn put_inventory(
    inventories: &mut Table<StoredInventory>,
    id: u8,
    bytes: Vec<u8>,
) -> Result<(), AllocError>
    requires id { id < 255 }
    requires fits { vec_len bytes ≤ 65535 }
    requires none { inventory_in (map kept_inventory inventories.old) id ≡ None }
    requires all { AreInventories (map kept_inventory inventories.old) }
    ensures keeps { AreInventories (map kept_inventory inventories.new) }
    ensures ok { OnOk result (map kept_inventory inventories.new ≡
        map kept_inventory inventories.old ++ record { id = id; bytes = bytes.items } ∷ []) }
    ensures err { OnErr result (inventories.new ≡ inventories.old) }
{
    are_bytes(&bytes);
    match inventories.push(StoredInventory { id, bytes }) {
        Ok(()) => Ok(()),
        Err(_) => Err(AllocError),
    }
}

/// Appends the reading of a sensor.
fn put_reading(
    sensors: &mut Table<StoredSensor>,
    lun: u8,
    number: u8,
    reading: Reading,
) -> Result<(), AllocError>
    requires lun { lun < 4 }
    requires none { reading_in (map sensor_of sensors.old) lun number ≡ None }
    requires all { AreReadings (map sensor_of sensors.old) }
    ensures keeps { AreReadings (map sensor_of sensors.new) }
    ensures ok { OnOk result (map sensor_of sensors.new ≡ map sensor_of sensors.old ++
        record { lun = lun; number = number; reading = reading } ∷ []) }
    ensures err { OnErr result (sensors.new ≡ sensors.old) }
{
    are_bytes(&[reading.raw, reading.flags, reading.status, reading.more]);
    let item = StoredSensor {
        lun,
        number,
        reading,
    };
    match sensors.push(item) {
        Ok(()) => Ok(()),
        Err(_) => Err(AllocError),
    }
}

impl ImageBuilder {
    /// A builder without any items.
    pub fn new(alloc: Global) -> ImageBuilder
        ensures { result ≡ empty_store }
    {
        ImageBuilder {
            contents: Contents::new(alloc),
        }
    }

    /// Appends a record to its shelf, and returns whether it did. It does not if the record is not allowed there: its
    /// id is FFFFh, or already used, or 0000h after the first record; its bytes are not a whole record; or it is the
    /// first record, and its bytes begin with another id. After Err nothing has changed.
    pub fn put_record(&mut self, shelf: Shelf, lent: &Record<'_>) -> Result<bool, AllocError>
        ensures put { IfOk result (λ put.
            (put ≡ may_follow shelf (rows_of shelf self.old) (row_of_record lent.now)) ×
            (self.new ≡ with_rows shelf
            (rows_and put (rows_of shelf self.old) (row_of_record lent.now)) self.old)) }
        ensures err { OnErr result (self.new ≡ self.old) }
    {
        match shelf {
            Shelf::Sdr => put_record(Shelf::Sdr, &mut self.contents.sdr, lent),
            Shelf::Sel => put_record(Shelf::Sel, &mut self.contents.sel, lent),
        }
    }

    /// Removes all records from the shelf.
    pub fn clear_records(&mut self, alloc: Global, shelf: Shelf)
        ensures { self.new ≡ with_rows shelf [] self.old }
    {
        match shelf {
            Shelf::Sdr => self.contents.sdr = Rows::new(alloc),
            Shelf::Sel => self.contents.sel = Rows::new(alloc),
        }
    }

    /// The bytes of the record at an index of the shelf, counted from 0.
    pub fn record_bytes(&self, shelf: Shelf, place: usize) -> Option<&[u8]>
        ensures bytes { option_map (λ bytes. bytes.now) result ≡
            option_map (λ row. row.bytes) (slice_get (rows_of shelf self.now) place) }
        ensures few { IfSome result (λ bytes. place < 65535) }
    {
        let row = self.contents.rows(shelf).get(place)?;
        Some(row.bytes)
    }

    /// Appends the inventory of the FRU device with this id. It must not be empty, as an image has no empty
    /// inventory. After Err nothing has changed.
    pub fn put_inventory(&mut self, id: u8, bytes: Vec<u8>) -> Result<(), AllocError>
        requires id { id < 255 }
        requires some { 0 < vec_len bytes }
        requires fits { vec_len bytes ≤ 65535 }
        requires none { inventory_of id self.old ≡ None }
        ensures ok { OnOk result (self.new ≡ with_inventory id bytes.items self.old) }
        ensures err { OnErr result (self.new ≡ self.old) }
    {
        put_inventory(&mut self.contents.inventories, id, bytes)
    }

    /// Appends the reading of a sensor. After Err nothing has changed.
    pub fn put_reading(&mut self, lun: u8, number: u8, reading: Reading) -> Result<(), AllocError>
        requires lun { lun < 4 }
        requires none { reading_of lun number self.old ≡ None }
        ensures ok { OnOk result (self.new ≡ with_reading lun number reading self.old) }
        ensures err { OnErr result (self.new ≡ self.old) }
    {
        put_reading(&mut self.contents.sensors, lun, number, reading)
    }

    /// Sets the info of a shelf. It replaces an earlier one.
    pub fn put_info(&mut self, shelf: Shelf, info: [u8; INFO_LEN])
        ensures { self.new ≡ with_info shelf (Some info) self.old }
    {
        are_bytes(&info);
        match shelf {
            Shelf::Sdr => self.contents.sdr_info = Some(info),
            Shelf::Sel => self.contents.sel_info = Some(info),
        }
    }

    /// The finished image.
    pub fn finish(self) -> Image
        ensures is { result ≡ self }
        ensures store { IsStore result }
    {
        Image::of(self.contents)
    }
}
