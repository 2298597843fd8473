//! The text that a command prints for a record. If the text needs a reading, it is requested here, while the record
//! is borrowed.
ghost use Rattle.std.specs.Prelude.{◌≡◌, ◌+◌, ◌≤◌, ℕ, false, Err, IfErr, IfOk, length, List, Ok, option_map, string_bytes, unwrap_or};
ghost use Rattle.ipmi_commands.specs.Below.{AsksAtMost, row_of_record, IsHonest, IsStateOf, largest_len, whole_len, sdr_view_of};
ghost use Rattle.ipmi_records.specs.Sdr.{name_of};
ghost use Rattle.ipmi_selection.specs.Selection.{is_passed};
ghost use Rattle.ipmi_commands.specs.declared.job.Form.{Form};
ghost use Rattle.ipmi_commands.specs.Prelude.{failure_of, RetriesParts, PieceErrorIsTrue, LacksValue, bytes_of, Finds, IfChosen, IsBlockOfName, IsPieceOver, listed_points, most_after, named_points, OfRow, reading_for, reading_points, row_has_fault, row_piece, shelf_of, shown, ShowsRow, points_because_of};

use crate::format::Format;
use crate::inventory::locator_piece;
use crate::job::{EntryText, Form};
use crate::limits::{RequestLimits, Tries};
use crate::read_error::ReadError;
use ipmi_bus::{Controller, Record, read_reading};
use ipmi_image::LineBuffer;
use ipmi_records::{KnownReading, SdrView, SelView};
use ipmi_selection::{Detail, Selection, entry_bytes, is_name};
use ipmi_text::Reading;
use std::alloc::{AllocError, Global};

/// Requests the reading that belongs to a record, if there is one. An `Ended` in the error names the record's id.
pub fn reading_for<C: Controller>(
    ctl: &mut C,
    id: u16,
    view: &SdrView<'_>,
    tries: Tries,
) -> Result<Option<Reading>, ReadError>
    ensures calls { (C.seen ctl.new).calls ≤ (C.seen ctl.old).calls + (tries.count + 1) }
    ensures asked { AsksAtMost 0 (C.seen ctl.old) (C.seen ctl.new) }
    ensures says { IfErr result (λ unread. LacksValue unread (C.seen ctl.new)) }
    ensures honest { IsHonest (C.seen ctl.old) →
        Finds (λ store reading. reading ≡ reading_for store view.now) (reading_points id (Ok view.now))
        tries (C.seen ctl.old) (C.seen ctl.new) result }
{
    match view.reading_of() {
        None => Ok(None),
        Some((lun, number)) => Ok(read_reading(ctl, id, lun, number, tries.count)?),
    }
}

/// The text of a record that is selected, or of its fault. Empty for any other record.
fn listed_text<F: Format, C: Controller>(
    alloc: Global,
    ctl: &mut C,
    format: &F,
    detail: Detail,
    selection: &Selection<'_>,
    tries: Tries,
    lent: &Record<'_>,
) -> Result<Piece, ReadError>
    requires { 5 ≤ length lent.now.bytes.now }
    ensures calls { (C.seen ctl.new).calls ≤ (C.seen ctl.old).calls + (tries.count + 1) }
    ensures asked { AsksAtMost 0 (C.seen ctl.old) (C.seen ctl.new) }
    ensures says { IfErr result (λ unread. LacksValue unread (C.seen ctl.new)) }
    ensures honest { let row = row_of_record lent.now in IsHonest (C.seen ctl.old) →
        Finds (λ store piece. IsPieceOver (F.texts format.now) store (OfRow (Form.Record detail selection.now) row) (shown piece))
        (listed_points selection.now row) tries (C.seen ctl.old) (C.seen ctl.new) result }
{
    if !selection.selects(alloc, lent)? {
        return Ok(Piece::sound(Vec::new(alloc)));
    }
    let view = match SdrView::read(lent.bytes) {
        Ok(view) => view,
        Err(fault) => {
            let text = format.fault(alloc, lent.id, fault, lent.bytes)?;
            return Ok(Piece {
                text,
                has_fault: true,
            });
        }
    };
    let reading = reading_for(ctl, lent.id, &view, tries)?;
    let text = format.record(alloc, detail, lent.id, &view, KnownReading::from(reading))?;
    Ok(Piece::sound(text))
}

/// The block of a record with this name. Empty for a record without it, or with a fault.
#[tactic(auto, using(crate::proofs::AskLemmas::no_memory, crate::proofs::AskLemmas::then_no_memory))]
fn named_block<F: Format, C: Controller>(
    alloc: Global,
    ctl: &mut C,
    format: &F,
    name: &str,
    tries: Tries,
    lent: &Record<'_>,
) -> Result<Vec<u8>, ReadError>
    ensures calls { (C.seen ctl.new).calls ≤ (C.seen ctl.old).calls + (tries.count + 1) }
    ensures asked { AsksAtMost 0 (C.seen ctl.old) (C.seen ctl.new) }
    ensures says { IfErr result (λ unread. LacksValue unread (C.seen ctl.new)) }
    ensures honest { let row = row_of_record lent.now in IsHonest (C.seen ctl.old) →
        Finds (λ store text. IsBlockOfName (F.texts format.now) name.now store row.id (sdr_view_of row.bytes)
        text.items) (named_points name.now row.id (sdr_view_of row.bytes)) tries (C.seen ctl.old)
        (C.seen ctl.new) result }
{
    let Ok(view) = SdrView::read(lent.bytes) else {
        return Ok(Vec::new(alloc));
    };
    let own = view.name(alloc)?;
    if !is_name(name, &own) {
        return Ok(Vec::new(alloc));
    }
    let id = lent.id;
    let reading = reading_for(ctl, id, &view, tries)?;
    Ok(format.record(alloc, Detail::Block, id, &view, KnownReading::from(reading))?)
}

/// The text of an entry of the event log. Empty for one that is not selected.
pub(crate) fn entry_text<F: Format>(
    alloc: Global,
    format: &F,
    entries: &EntryText<'_>,
    id: u16,
    entry: &SelView<'_>,
) -> Result<Vec<u8>, AllocError>
    ensures { IfOk result (λ text. IfChosen (is_passed entries.now.selection.filters id entry.now)
        (λ t. (F.texts format.now).IsEntry entries.now.selection.detail id entry.now entries.now.sensors t) text.items) }
{
    if !entries.selection.selects(id, entry) {
        return Ok(Vec::new(alloc));
    }
    let detail = entries.selection.detail();
    format.entry(alloc, detail, id, entry, entries.sensors.as_ref())
}

/// The text of an item, and whether the item has a fault.
#[derive(Drop)]
pub(crate) struct Piece {
    pub(crate) text: Vec<u8>,
    pub(crate) has_fault: bool,
}

impl Piece {
    /// That of an item without a fault.
    pub(crate) fn sound(text: Vec<u8>) -> Piece
        ensures text { result.text ≡ text }
        ensures sound { result.has_fault ≡ false }
    {
        Piece {
            text,
            has_fault: false,
        }
    }
}

/// The text of a record.
#[derive(Drop)]
pub(crate) enum RowText {
    /// The contents of the line buffer, which has no fault.
    Line,
    /// A text of its own.
    Own(Piece),
}

impl RowText {
    /// This text, which has no fault, or the contents of the line buffer.
    fn of(own: Option<Vec<u8>>) -> RowText
        ensures text { (line : List ℕ) → bytes_of line result ≡ unwrap_or (option_map (λ text. text.items) own) line }
        ensures sound { row_has_fault result ≡ false }
    {
        match own {
            Some(text) => RowText::Own(Piece::sound(text)),
            None => RowText::Line,
        }
    }

    /// The bytes of the text. `line` is the line buffer.
    pub(crate) fn bytes<'a>(&'a self, line: &'a LineBuffer) -> &'a [u8]
        ensures { result.now ≡ bytes_of line.now.items self.now }
    {
        match self {
            RowText::Line => line.as_slice(),
            RowText::Own(piece) => piece.text.as_slice(),
        }
    }

    /// Whether the record, or what it stands for, has a fault.
    pub(crate) fn has_fault(&self) -> bool
        ensures { result ≡ row_has_fault self.now }
    {
        match self {
            RowText::Line => false,
            RowText::Own(piece) => piece.has_fault,
        }
    }
}

/// Replaces the contents of `line` with the bytes of a record.
fn copy_bytes(lent: &Record<'_>, line: &mut LineBuffer)
    requires { length lent.now.bytes.now ≤ 256 }
    ensures { line.new.items ≡ lent.now.bytes.now }
{
    line.clear();
    line.try_extend_from_slice(lent.bytes).unwrap();
}

/// The text of the record in this form. Empty for a record that is left out. A `RowText::Line` is written to `line`.
#[inline(always)]
pub(crate) fn row_text<F: Format, C: Controller>(
    alloc: Global,
    ctl: &mut C,
    limits: RequestLimits,
    format: &F,
    form: &Form<'_>,
    lent: &Record<'_>,
    line: &mut LineBuffer,
) -> Result<RowText, ReadError>
    requires whole { length lent.now.bytes.now ≡ whole_len (shelf_of form.now) lent.now.bytes.now }
    requires fits { length lent.now.bytes.now ≤ largest_len (shelf_of form.now) }
    ensures calls { (C.seen ctl.new).calls ≤ (C.seen ctl.old).calls + most_after form.now
        limits.tries }
    ensures asked { AsksAtMost limits.part (C.seen ctl.old) (C.seen ctl.new) }
    ensures says { IfErr result (λ unread. PieceErrorIsTrue form.now unread (C.seen ctl.new)) }
    ensures parts { IsHonest (C.seen ctl.old) → IfErr result (λ unread.
        RetriesParts limits.tries (IsStateOf C.seen) (C.seen ctl.new) (Err (failure_of unread))) }
    ensures shows { IfOk result (λ text. ShowsRow (F.texts format.now) form.now (row_of_record lent.now) (C.seen ctl.new)
        (row_piece line.new.items text)) }
    ensures honest { let row = row_of_record lent.now in IsHonest (C.seen ctl.old) →
        Finds (λ store text. IsPieceOver (F.texts format.now) store (OfRow form.now row) (row_piece line.new.items text))
        (points_because_of form.now row) limits.tries (C.seen ctl.old) (C.seen ctl.new) result }
{
    let tries = limits.tries();
    match form {
        Form::Hex => Ok(RowText::of(format.hex(alloc, lent, line)?)),
        Form::Bytes => {
            copy_bytes(lent, line);
            Ok(RowText::Line)
        }
        Form::Record(detail, selection) => {
            let record = listed_text(alloc, ctl, format, *detail, selection, tries, lent)?;
            Ok(RowText::Own(record))
        }
        Form::Block(name) => {
            let block = named_block(alloc, ctl, format, name.as_str(), tries, lent)?;
            Ok(RowText::Own(Piece::sound(block)))
        }
        Form::Device => {
            let device = locator_piece(alloc, ctl, limits, format, lent.bytes)?;
            Ok(RowText::Own(device))
        }
        Form::Entry(entries) => {
            let entry = SelView::read(entry_bytes(lent.bytes));
            let text = entry_text(alloc, format, entries, lent.id, &entry)?;
            Ok(RowText::Own(Piece::sound(text)))
        }
        Form::Skipped => Ok(RowText::Own(Piece::sound(Vec::new(alloc)))),
    }
}
