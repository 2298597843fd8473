//! The records of a shelf, with all their bytes in one buffer.
ghost use Rattle.ipmi_image.specs.declared.image_line.LineFault.{LineFault};
ghost use Rattle.std.specs.Prelude.{◌≡◌, ◌+◌, ◌≤◌, ◌<◌, ◌==◌, ◌^◌, ◌++◌, ◌∷◌, [], MatchBool, IfOk, IfSome, None, true, is_some, option_map, length, drop, slice_get, MatchResult, OnErr, ◌⊎◌};
ghost use Rattle.ipmi_image.specs.Prelude.{begins_saved, first_id, is_same_saved, place_of, id_of, row_of};

use crate::image_line::LineFault;
use crate::table::{Table, TableItem};
use ipmi_bus::NO_NEXT_ID;
use std::alloc::{AllocError, Global};
use std::marker::Model;

/// The capacity that a shelf begins with, in bytes of records.
// So much is mapped by itself: growing in the heap would leave gaps, and a page that is not used takes no memory.
const FIRST_BYTES: usize = 1 << 18;

/// A record of a shelf. If `next` is None, its next id is the id of the following record, or FFFFh for the last
/// record.
#[derive(Clone, Copy)]
pub(crate) struct StoredRow<'a> {
    pub(crate) id: u16,
    pub(crate) next: Option<u16>,
    pub(crate) bytes: &'a [u8],
}

/// A number below 2^24. Three bytes need no alignment.
#[derive(Drop)]
pub(crate) struct Offset {
    low: u8,
    middle: u8,
    high: u8,
}

impl Model for Offset {
    ghost use Rattle.std.specs.Prelude.{ℕ, ◌+◌, ◌*◌};

    ghost Value = { ℕ };

    ghost view = { λ offset. offset.high * 65536 + offset.middle * 256 + offset.low };
}

impl Offset {
    fn new(offset: usize) -> Offset
        requires { offset < 2 ^ 24 }
        ensures { result ≡ offset }
    {
        Offset {
            low: (offset & 0xFF) as u8,
            middle: ((offset >> 8) & 0xFF) as u8,
            high: (offset >> 16) as u8,
        }
    }

    fn get(&self) -> usize
        ensures { result ≡ self.now }
    {
        (usize::from(self.high) << 16) + (usize::from(self.middle) << 8) + usize::from(self.low)
    }
}

/// The number of a record's bytes, from 1 to 256.
#[derive(Drop)]
pub(crate) struct RecordLen {
    less_one: u8,
}

impl Model for RecordLen {
    ghost use Rattle.std.specs.Prelude.{ℕ, ◌+◌};

    ghost Value = { ℕ };

    ghost view = { λ len. len.less_one + 1 };
}

impl RecordLen {
    fn new(len: usize) -> RecordLen
        requires some { 1 ≤ len }
        requires fits { len ≤ 256 }
        ensures { result ≡ len }
    {
        RecordLen {
            less_one: (len - 1) as u8,
        }
    }

    fn get(&self) -> usize
        ensures { result ≡ self.now }
    {
        usize::from(self.less_one) + 1
    }
}

/// A record of a shelf, with the offset and the number of its bytes in the buffer of the shelf.
// An image has many of these, so they take 10 bytes each: no field needs an alignment of 4.
#[derive(Drop)]
pub(crate) struct RowHead {
    start: Offset,
    len: RecordLen,
    id: u16,
    next: Option<u16>,
}

impl TableItem for RowHead {
    ghost key = { λ head. head.id };

    fn key(&self) -> u16 {
        self.id
    }
}

/// Makes room for the first bytes of a shelf.
fn begin(bytes: &mut Vec<u8>) -> Result<(), AllocError>
    ensures { bytes.new.items ≡ bytes.old.items }
{
    if bytes.is_empty() {
        bytes.reserve(FIRST_BYTES)?;
    }
    Ok(())
}

/// Whether `now` is the same record. Its next id may be another one.
fn is_same(row: &StoredRow<'_>, now: Option<StoredRow<'_>>) -> bool
    ensures { result ≡ is_same_saved (row_of row.now) (option_map row_of now.entry) }
{
    match now {
        Some(now) => row.id == now.id && row.bytes == now.bytes,
        None => false,
    }
}

/// The records of a shelf, in order. Their bytes are in one `Vec`, so a record needs no allocation of its own.
#[derive(Drop)]
pub(crate) struct Rows {
    heads: Table<RowHead>,
    bytes: Vec<u8>,
}

impl Model for Rows {
    ghost use Rattle.ipmi_image.specs.declared.image_line.LineFault.{LineFault};
    ghost use Rattle.std.specs.Prelude.{List, map};
    ghost use Rattle.ipmi_image.specs.Line.{SavedRow};
    ghost use Rattle.ipmi_image.specs.Rows.{row_in, AreHeads};

    ghost Value = { List SavedRow };

    ghost view = { λ rows. map (row_in rows.bytes.items) rows.heads };

    ghost invariant = { λ rows. AreHeads rows.heads rows.bytes.items };
}

impl Rows {
    /// No records yet.
    pub(crate) fn new(alloc: Global) -> Rows
        ensures { result ≡ [] }
    {
        Rows {
            heads: Table::new(alloc),
            bytes: Vec::new(alloc),
        }
    }

    /// Whether there are no records.
    pub(crate) fn is_empty(&self) -> bool
        ensures { result ≡ (length self.now == 0) }
    {
        self.heads.as_slice().is_empty()
    }

    /// The number of records.
    pub(crate) fn len(&self) -> usize
        ensures len { result ≡ length self.now }
        ensures few { result ≤ 65535 }
    {
        self.heads.as_slice().len()
    }

    /// An upper bound on the length of the records' lines in an image: 15 bytes each, plus the hex.
    pub(crate) fn line_bytes(&self) -> usize
        ensures few { result ≤ 2 ^ 26 }
    {
        self.len() * 15 + self.bytes.len() * 2
    }

    /// The record at the index.
    pub(crate) fn get(&self, place: usize) -> Option<StoredRow<'_>>
        ensures row { option_map row_of result ≡ slice_get self.now place }
        ensures few { IfSome result (λ row. place < 65535) }
    {
        let head = self.heads.as_slice().get(place)?;
        let start = head.start.get();
        Some(StoredRow {
            id: head.id,
            next: head.next,
            bytes: &self.bytes[start..start + head.len.get()],
        })
    }

    /// Whether `later` begins with these records. Next ids may differ.
    pub(crate) fn begin(&self, later: &Rows) -> bool
        ensures { result ≡ begins_saved self.now later.now }
    {
        let mut place = 0;
        'rows: while let Some(row) = self.get(place) {
            if !is_same(&row, later.get(place)) {
                return false;
            }
            place += 1;
        }
        true
    }

    /// The id of the record at the index, FFFFh if there is none.
    #[tactic(auto, using(crate::proofs::RowsLemmas::first_id_at, std::proofs::lemmas::Option::slice_get_cases))]
    pub(crate) fn id_at(&self, place: usize) -> u16
        ensures { result ≡ first_id id_of (drop place self.now) }
    {
        let head = self.heads.as_slice().get(place);
        head.map_or(NO_NEXT_ID, |head| head.id)
    }

    /// Whether one of the records has this id.
    #[tactic(auto, using(crate::proofs::RowsLemmas::place_of_row_in))]
    pub(crate) fn has_id(&self, id: u16) -> bool
        ensures { result ≡ is_some (place_of id_of id self.now) }
    {
        self.heads.place(id).is_some()
    }

    /// The index of the record with this id. The search tries `near` and its neighbours before the lookup.
    #[tactic(auto, using(crate::proofs::RowsLemmas::place_of_row_in))]
    pub(crate) fn place_near(&self, id: u16, near: usize) -> Option<usize>
        ensures { result ≡ place_of id_of id self.now }
    {
        self.heads.place_near(id, near)
    }

    /// Appends a record. Err means that another record has its id, or out of memory.
    #[tactic(auto, using(crate::proofs::RowsLemmas::place_of_row_in))]
    pub(crate) fn push(&mut self, row: &StoredRow) -> Result<(), LineFault>
        requires id { row.now.id < 65535 }
        requires some { 1 ≤ length row.now.bytes.now }
        requires fits { length row.now.bytes.now ≤ 256 }
        ensures err { OnErr result (self.new ≡ self.old) }
        ensures put { MatchResult result (λ done. (place_of id_of row.now.id self.old ≡ None) ×
            (self.new ≡ self.old ++ row_of row.now ∷ []))
            (λ e. (e ≡ LineFault.Memory) ⊎ ((e ≡ LineFault.Twice) ×
            (is_some (place_of id_of row.now.id self.old) ≡ true))) }
    {
        begin(&mut self.bytes)?;
        let start = self.bytes.len();
        self.bytes.extend_from_slice(row.bytes)?;
        let head = RowHead {
            start: Offset::new(start),
            len: RecordLen::new(row.bytes.len()),
            id: row.id,
            next: row.next,
        };
        if let Err(fault) = self.heads.push(head) {
            self.bytes.truncate(start);
            return Err(fault);
        }
        Ok(())
    }
}
