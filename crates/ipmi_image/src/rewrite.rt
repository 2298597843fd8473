//! Writes an image as its canonical text of version 2.
ghost use Rattle.std.specs.Prelude.{◌≡◌, ◌++◌, ◌∷◌, [], OnOk, IfOk, Ok, map, flat_map, drop, codes, unwrap_or};
ghost use Rattle.hex.specs.Hex.{encode_lower};
ghost use Rattle.ipmi_image.specs.Prelude.{chained, store_of_image, sensor_of, store_of, hex_of, next_field, row_fields, rows_lines, part_fields, inventory_lines, reading_fields, info_lines, other_lines, kept_inventory, lack_fields, line_text, lines_text, image_text_of, saved_text_of, shelf_word};

use crate::contents::Contents;
use crate::image::Image;
use crate::lack::{Item, Lack};
use crate::rows::{Rows, StoredRow};
use crate::snapshot::Snapshot;
use crate::stored::{StoredInventory, StoredSensor};
use ipmi_bus::{Code, INFO_LEN, Shelf};
use std::alloc::{AllocError, Global};

/// The largest number of an inventory's bytes on one line.
const LINE_BYTES: usize = 64;

/// Enough bytes for the first and the last line, and for everything but the records in most images.
const OTHER_BYTES: usize = 4096;

/// The word of a shelf.
fn shelf_word(shelf: Shelf) -> &'static [u8]
    ensures { result.now ≡ shelf_word shelf }
{
    match shelf {
        Shelf::Sdr => b"sdr",
        Shelf::Sel => b"sel",
    }
}

/// A text to append to.
#[derive(Drop)]
struct Text {
    bytes: Vec<u8>,
}

impl Text {
    /// Appends these bytes.
    fn push(&mut self, bytes: &[u8]) -> Result<(), AllocError>
        ensures { OnOk result (self.new.bytes.items ≡ self.old.bytes.items ++ bytes.now) }
    {
        self.bytes.extend_from_slice(bytes)?;
        Ok(())
    }

    /// Appends the bytes in hex.
    fn push_hex(&mut self, bytes: &[u8]) -> Result<(), AllocError>
        ensures { OnOk result (self.new.bytes.items ≡ self.old.bytes.items ++ encode_lower
            bytes.now) }
    {
        let start = self.bytes.len();
        let end = bytes
            .len()
            .checked_mul(2)
            .and_then(|len| len.checked_add(start))
            .ok_or(AllocError)?;
        self.bytes.resize(end, 0)?;
        hex::encode_to_slice(bytes, &mut self.bytes[start..]).unwrap();
        Ok(())
    }

    /// Appends a row's next id, or a dash if it is the id of the following row.
    fn push_next(&mut self, following: u16, next: u16) -> Result<(), AllocError>
        ensures { OnOk result (self.new.bytes.items ≡ self.old.bytes.items ++ next_field following
            next) }
    {
        if next == following {
            self.push(b"-")
        } else {
            self.push_hex(&next.to_be_bytes())
        }
    }

    /// Appends the first word and the id of a row.
    fn push_id(&mut self, word: &[u8], id: u16) -> Result<(), AllocError>
        ensures { OnOk result (self.new.bytes.items ≡ self.old.bytes.items ++
            (word.now ++ 32 ∷ (hex_of 2 id ++ 32 ∷ []))) }
    {
        self.push(word)?;
        self.push(b" ")?;
        self.push_hex(&id.to_be_bytes())?;
        self.push(b" ")
    }

    /// Appends the next id and the bytes of a row, and a line feed.
    fn push_rest(&mut self, following: u16, next: u16, bytes: &[u8]) -> Result<(), AllocError>
        ensures { OnOk result (self.new.bytes.items ≡ self.old.bytes.items ++
            (next_field following next ++ 32 ∷ (encode_lower bytes.now ++ 10 ∷ []))) }
    {
        self.push_next(following, next)?;
        self.push(b" ")?;
        self.push_hex(bytes)?;
        self.push(b"\n")
    }

    /// Appends the line of a row.
    #[tactic(auto, using(std::proofs::Common::append_assoc))]
    fn push_row(&mut self, word: &[u8], following: u16, row: &StoredRow) -> Result<(), AllocError>
        ensures { OnOk result (self.new.bytes.items ≡ self.old.bytes.items ++ line_text
            (row_fields word.now following (record {
              id = row.now.id;
              next = unwrap_or row.now.next following;
              bytes = row.now.bytes.now;
            }))) }
    {
        self.push_id(word, row.id)?;
        self.push_rest(following, row.next.unwrap_or(following), row.bytes)
    }

    /// Appends the lines of a shelf.
    #[tactic(auto, using(crate::proofs::RewriteLemmas::rows_end))]
    fn push_rows(&mut self, word: &[u8], rows: &Rows) -> Result<(), AllocError>
        ensures { OnOk result (self.new.bytes.items ≡ self.old.bytes.items ++ lines_text
            (rows_lines word.now (chained rows.now))) }
    {
        let mut place = 0;
        'rows: while let Some(row) = rows.get(place) {
            place += 1;
            self.push_row(word, rows.id_at(place), &row)?;
        }
        Ok(())
    }

    /// Appends the line of a part of an inventory.
    fn push_part(&mut self, id: u8, part: &[u8]) -> Result<(), AllocError>
        ensures { OnOk result (self.new.bytes.items ≡ self.old.bytes.items ++ line_text
            (part_fields id part.now)) }
    {
        self.push(b"fru ")?;
        self.push_hex(&[id])?;
        self.push(b" ")?;
        self.push_hex(part)?;
        self.push(b"\n")
    }

    /// Appends the lines of an inventory.
    #[tactic(auto, using(crate::proofs::RewriteLemmas::texts, crate::proofs::RewriteLemmas::parts_of_more))]
    fn push_inventory(&mut self, id: u8, bytes: &[u8]) -> Result<(), AllocError>
        ensures { OnOk result (self.new.bytes.items ≡ self.old.bytes.items ++ lines_text
            (inventory_lines (record { id = id; bytes = bytes.now }))) }
    {
        let mut rest = bytes;
        'parts: while !rest.is_empty() {
            let (part, after) = rest.split_at(LINE_BYTES.min(rest.len()));
            self.push_part(id, part)?;
            rest = after;
        }
        Ok(())
    }

    /// Appends the lines of all inventories.
    #[tactic(auto, using(crate::proofs::RewriteLemmas::texts))]
    fn push_inventories(&mut self, inventories: &[StoredInventory]) -> Result<(), AllocError>
        ensures { OnOk result (self.new.bytes.items ≡ self.old.bytes.items ++ lines_text
            (flat_map inventory_lines (map kept_inventory inventories.now))) }
    {
        'inventories: for inventory in inventories {
            self.push_inventory(inventory.id, &inventory.bytes)?;
        }
        Ok(())
    }

    /// Appends the second digit of a number.
    fn push_digit(&mut self, number: u8) -> Result<(), AllocError>
        ensures { OnOk result
            (self.new.bytes.items ≡ self.old.bytes.items ++ drop 1 (hex_of 1 number)) }
    {
        let mut digits = [0; 2];
        hex::encode_to_slice([number], &mut digits).unwrap();
        self.push(&digits[1..])
    }

    /// Appends the LUN and the number of a sensor.
    fn push_sensor_key(&mut self, lun: u8, number: u8) -> Result<(), AllocError>
        ensures { OnOk result (self.new.bytes.items ≡ self.old.bytes.items ++
            (drop 1 (hex_of 1 lun) ++ 32 ∷ (hex_of 1 number ++ 32 ∷ []))) }
    {
        self.push_digit(lun)?;
        self.push(b" ")?;
        self.push_hex(&[number])?;
        self.push(b" ")
    }

    /// Appends the word `reading`, and the LUN and the number of a sensor.
    fn push_sensor(&mut self, lun: u8, number: u8) -> Result<(), AllocError>
        ensures { OnOk result (self.new.bytes.items ≡ self.old.bytes.items ++
            (codes "reading " ++ (drop 1 (hex_of 1 lun) ++ 32 ∷ (hex_of 1 number ++ 32 ∷ [])))) }
    {
        self.push(b"reading ")?;
        self.push_sensor_key(lun, number)
    }

    /// Appends the line of a reading.
    fn push_reading(&mut self, sensor: &StoredSensor) -> Result<(), AllocError>
        ensures { OnOk result (self.new.bytes.items ≡ self.old.bytes.items ++ line_text
            (reading_fields (sensor_of sensor.now))) }
    {
        let reading = &sensor.reading;
        let bytes = [reading.raw, reading.flags, reading.status, reading.more];
        self.push_sensor(sensor.lun, sensor.number)?;
        self.push_hex(&bytes)?;
        self.push(b"\n")
    }

    /// Appends the line of an info, if there is one.
    fn push_info(&mut self, word: &[u8], info: Option<[u8; INFO_LEN]>) -> Result<(), AllocError>
        ensures { OnOk result (self.new.bytes.items ≡ self.old.bytes.items ++ lines_text
            (info_lines word.now info)) }
    {
        let Some(bytes) = info else {
            return Ok(());
        };
        self.push(b"info ")?;
        self.push(word)?;
        self.push(b" ")?;
        self.push_hex(&bytes)?;
        self.push(b"\n")
    }

    /// Appends the lines of all readings.
    fn push_readings(&mut self, sensors: &[StoredSensor]) -> Result<(), AllocError>
        ensures { OnOk result (self.new.bytes.items ≡ self.old.bytes.items ++ lines_text
            (map reading_fields (map sensor_of sensors.now))) }
    {
        'sensors: for sensor in sensors {
            self.push_reading(sensor)?;
        }
        Ok(())
    }

    /// Appends all lines after the rows, including the last line.
    #[tactic(auto, using(crate::proofs::RewriteLemmas::texts))]
    fn push_others(&mut self, contents: &Contents) -> Result<(), AllocError>
        ensures { OnOk result (self.new.bytes.items ≡ self.old.bytes.items ++ lines_text
            (other_lines (store_of contents.now))) }
    {
        self.push_inventories(contents.inventories.as_slice())?;
        self.push_readings(contents.sensors.as_slice())?;
        self.push_info(b"sdr", contents.sdr_info)?;
        self.push_info(b"sel", contents.sel_info)?;
        self.push(b"end\n")
    }

    /// Appends a code and a line feed.
    fn push_code(&mut self, code: Code) -> Result<(), AllocError>
        ensures { OnOk result (self.new.bytes.items ≡ self.old.bytes.items ++ (hex_of 1 code.0 ++ 10 ∷ [])) }
    {
        self.push_hex(&[code.0])?;
        self.push(b"\n")
    }

    /// Appends the line of a lacking item that one field names.
    #[tactic(auto, using(std::proofs::Common::append_assoc))]
    fn push_named(&mut self, kind: &[u8], field: &[u8], code: Code) -> Result<(), AllocError>
        ensures { OnOk result (self.new.bytes.items ≡ self.old.bytes.items ++ line_text
            (codes "lacks" ∷ kind.now ∷ field.now ∷ hex_of 1 code.0 ∷ [])) }
    {
        self.push(b"lacks ")?;
        self.push(kind)?;
        self.push(b" ")?;
        self.push(field)?;
        self.push(b" ")?;
        self.push_code(code)
    }

    /// Appends the line of a lacking item that one number names.
    #[tactic(auto, using(std::proofs::Common::append_assoc))]
    fn push_numbered(&mut self, kind: &[u8], id: &[u8], code: Code) -> Result<(), AllocError>
        ensures { OnOk result (self.new.bytes.items ≡ self.old.bytes.items ++ line_text
            (codes "lacks" ∷ kind.now ∷ encode_lower id.now ∷ hex_of 1 code.0 ∷ [])) }
    {
        self.push(b"lacks ")?;
        self.push(kind)?;
        self.push(b" ")?;
        self.push_hex(id)?;
        self.push(b" ")?;
        self.push_code(code)
    }

    /// Appends the line of a lacking reading.
    #[tactic(auto, using(std::proofs::Common::append_assoc))]
    fn push_lacking_reading(&mut self, lun: u8, number: u8, code: Code) -> Result<(), AllocError>
        ensures { OnOk result (self.new.bytes.items ≡ self.old.bytes.items ++ line_text
            (codes "lacks" ∷ codes "reading" ∷ drop 1 (hex_of 1 lun) ∷ hex_of 1 number ∷ hex_of 1 code.0 ∷ [])) }
    {
        self.push(b"lacks reading ")?;
        self.push_sensor_key(lun, number)?;
        self.push_code(code)?;
        Ok(())
    }

    /// Appends the line of a lacking item.
    fn push_lack(&mut self, lack: &Lack) -> Result<(), AllocError>
        ensures { OnOk result (self.new.bytes.items ≡ self.old.bytes.items ++ line_text (lack_fields lack.now)) }
    {
        let code = lack.code;
        match lack.item {
            Item::Record(shelf, id) => {
                self.push_numbered(shelf_word(shelf), &id.to_be_bytes(), code)
            }
            Item::Info(shelf) => self.push_named(b"info", shelf_word(shelf), code),
            Item::Reading { lun, number } => self.push_lacking_reading(lun, number, code),
            Item::Size(id) => self.push_numbered(b"size", &id.to_be_bytes(), code),
            Item::Inventory(id) => self.push_numbered(b"fru", &id.to_be_bytes(), code),
        }
    }

    /// Appends the lines of all lacking items.
    #[tactic(auto, using(crate::proofs::RewriteLemmas::texts))]
    fn push_lacks(&mut self, lacks: &[Lack]) -> Result<(), AllocError>
        ensures { OnOk result (self.new.bytes.items ≡ self.old.bytes.items ++ lines_text (map lack_fields lacks.now)) }
    {
        'lacks: for lack in lacks {
            self.push_lack(lack)?;
        }
        Ok(())
    }

    /// Appends all lines.
    #[tactic(auto, using(crate::proofs::RewriteLemmas::texts), unfolding(crate::specs::Rewritten::image_text_of))]
    fn push_image(&mut self, contents: &Contents) -> Result<(), AllocError>
        ensures { OnOk result (self.new.bytes.items ≡ self.old.bytes.items ++ image_text_of
            (store_of contents.now)) }
    {
        self.push(b"ipmi-image 2\n")?;
        self.push_rows(b"sdr", &contents.sdr)?;
        self.push_rows(b"sel", &contents.sel)?;
        self.push_others(contents)
    }
}

/// The image as a text of version 2: the rows of each shelf in order, `sdr` first, then inventories in lines of at
/// most 64 bytes, readings and infos. Hex is in lower case. A dash replaces each next id that is the id of the
/// following row, or FFFFh in the last row.
#[tactic(auto, using(crate::proofs::AgainLemmas::store_of_image_image_text_of))]
pub fn image_text(alloc: Global, image: &Image) -> Result<Vec<u8>, AllocError>
    ensures text { IfOk result (λ text. text.items ≡ image_text_of image.now) }
    ensures again { IfOk result (λ text. store_of_image text.items ≡ Ok image.now) }
{
    let contents = image.contents();
    let capacity = contents.sdr.line_bytes() + contents.sel.line_bytes() + OTHER_BYTES;
    let mut text = Text {
        bytes: Vec::with_capacity(alloc, capacity)?,
    };
    text.push_image(contents)?;
    Ok(text.bytes)
}

/// The number of bytes in the first line.
const FIRST_LINE_LEN: usize = 13;

/// The snapshot as a text: that of its image if nothing is lacking; otherwise a text of version 3, in which lines that name the
/// lacking items come after the first line.
#[tactic(auto, using(crate::proofs::RewriteLemmas::texts, std::proofs::Common::append_assoc))]
pub fn snapshot_text(alloc: Global, snapshot: &Snapshot) -> Result<Vec<u8>, AllocError>
    ensures { IfOk result (λ text. text.items ≡ saved_text_of snapshot.now) }
{
    let text = image_text(alloc, snapshot.image())?;
    if snapshot.lacks().is_empty() {
        return Ok(text);
    }
    let (_, rest) = text.split_at(FIRST_LINE_LEN.min(text.len()));
    let mut noted = Text {
        bytes: Vec::with_capacity(alloc, text.len())?,
    };
    noted.push(b"ipmi-image 3\n")?;
    noted.push_lacks(snapshot.lacks())?;
    noted.push(rest)?;
    Ok(noted.bytes)
}
