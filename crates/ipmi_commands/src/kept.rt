//! Lists the last entries of the event log along one walk: they are kept in memory, and printed when the walk is over.
ghost use Rattle.std.specs.Prelude.{◌≡◌, ◌≢◌, [], ◌∷◌, ◌+◌, ◌-◌, ◌++◌, ◌≤◌, drop, length, List, MatchOption, OnOk};
ghost use Rattle.std.specs.FinSet as set;
ghost use Rattle.ipmi_commands.specs.Below.{AsksAtMost, IsHonest, row_of_record, Sel, start_of, write_faults};
ghost use Rattle.ipmi_commands.specs.declared.job.Form.{Form};
ghost use Rattle.ipmi_commands.specs.declared.job.Job.{Job};
ghost use Rattle.ipmi_commands.specs.declared.kept.KeptEntry.{KeptEntry};
ghost use Rattle.ipmi_commands.specs.Kept.{kept_row, kept_with, last_entry, KeepsByCursor, KeepsEntries, last_of, PrintsKept};
ghost use Rattle.ipmi_commands.specs.Output.{Output};
ghost use Rattle.ipmi_commands.specs.Prelude.{change, EndsListing, EndsPrinting, IsFrom, most_on_walk, printed, Runs, Tries};

use crate::format::Format;
use crate::job::{EntryText, Form};
use crate::limits::RequestLimits;
use crate::pages::start_cursor;
use crate::perform::write_piece;
use crate::piece::entry_text;
use crate::summary::Summary;
use ipmi_bus::{Controller, Cursor, Record, SEL_ENTRY_LEN, Shelf};
use ipmi_output::{Failure, Sink};
use ipmi_records::SelView;
use ipmi_selection::{EntrySelection, entry_bytes};
use std::alloc::{AllocError, Global};
use std::collections::VecDeque;

/// An entry of the event log.
#[derive(Clone, Copy, Debug, PartialEq, Eq)]
pub(crate) struct KeptEntry {
    pub(crate) id: u16,
    pub(crate) bytes: [u8; SEL_ENTRY_LEN],
}

/// The last entries of a walk so far, at most `most` of them.
#[derive(Drop)]
pub(crate) struct LastEntries {
    most: u16,
    entries: VecDeque<KeptEntry>,
}

impl LastEntries {
    /// Those of a walk that returned no entry.
    pub(crate) fn new(alloc: Global, most: u16) -> LastEntries
        ensures most { result.most ≡ most }
        ensures none { result.entries.items ≡ [] }
    {
        LastEntries {
            most,
            entries: VecDeque::new(alloc),
        }
    }

    /// The number of these entries.
    pub(crate) fn count(&self) -> usize
        ensures { result ≡ length self.now.entries.items }
    {
        self.entries.len()
    }

    /// The last of them.
    pub(crate) fn last(&self) -> Option<KeptEntry>
        ensures { result ≡ last_entry self.now.entries.items }
    {
        self.entries.back().copied()
    }

    /// Those after this entry, if it is the first of them.
    pub(crate) fn after(mut self, entry: KeptEntry) -> Option<LastEntries>
        ensures { MatchOption result ((rest : List KeptEntry) → self.entries.items ≢ entry ∷ rest)
            (λ rest. self.entries.items ≡ entry ∷ rest.entries.items) }
    {
        if self.entries.pop_front() == Some(entry) {
            Some(self)
        } else {
            None
        }
    }

    /// Forgets the first entry if there is no room for another one.
    fn make_room(&mut self)
        requires { length self.old.entries.items ≤ self.old.most }
        ensures most { self.new.most ≡ self.old.most }
        ensures rest { self.new.entries.items
            ≡ drop (length self.old.entries.items + 1 - self.old.most) self.old.entries.items }
    {
        if self.entries.len() == usize::from(self.most) {
            self.entries.pop_front();
        }
    }

    /// Keeps the next entry of the walk.
    fn push(&mut self, lent: &Record<'_>) -> Result<(), AllocError>
        requires whole { length lent.now.bytes.now ≡ 16 }
        requires some { 1 ≤ self.old.most }
        requires few { length self.old.entries.items ≤ self.old.most }
        ensures most { self.new.most ≡ self.old.most }
        ensures ok { OnOk result (self.new.entries.items
            ≡ last_of self.old.most (self.old.entries.items ++ kept_row (row_of_record lent.now) ∷ [])) }
    {
        self.make_room();
        let bytes = *entry_bytes(lent.bytes);
        self.entries.push_back(KeptEntry { id: lent.id, bytes })?;
        Ok(())
    }

    /// Keeps the next entry of the walk if it is selected.
    fn keep(&mut self, selection: &EntrySelection<'_>, lent: &Record<'_>) -> Result<(), AllocError>
        requires whole { length lent.now.bytes.now ≡ 16 }
        requires some { 1 ≤ self.old.most }
        requires few { length self.old.entries.items ≤ self.old.most }
        ensures most { self.new.most ≡ self.old.most }
        ensures ok { OnOk result (self.new.entries.items
            ≡ kept_with selection.now self.old.most self.old.entries.items (row_of_record lent.now)) }
    {
        if selection.selects_record(lent) {
            return self.push(lent);
        }
        Ok(())
    }
}

/// Keeps the last entries of this selection from the cursor's place on.
fn keep_after<'a, F: Format, C: Controller>(
    cursor: &mut Cursor,
    ctl: &mut C,
    _format: &F,
    selection: &EntrySelection<'_>,
    kept: &mut LastEntries,
) -> Result<(), Failure<'a>>
    requires shelf { cursor.old.shelf ≡ Sel }
    requires room { set.len cursor.old.ids ≤ 65536 }
    requires some { 1 ≤ kept.old.most }
    requires none { kept.old.entries.items ≡ [] }
    ensures faults { write_faults result ≡ 0 }
    ensures asked { AsksAtMost cursor.old.part (C.seen ctl.old) (C.seen ctl.new) }
    ensures ends { EndsListing Form.Skipped (C.seen ctl.new) result }
    ensures keeps { (tries : Tries) (text : Output) → cursor.old.tries ≡ tries.count →
        KeepsByCursor (F.texts _format.now) selection.now kept.old.most tries cursor.old cursor.new
        (C.seen ctl.old) (C.seen ctl.new) text kept.new.entries.items result }
{
    'entries: loop {
        let record = match cursor.step(ctl) {
            Ok(Some(record)) => record,
            Ok(None) => return Ok(()),
            Err(ended) => return Err(Failure::Ended(ended)),
        };
        match kept.keep(selection, &record) {
            Ok(()) => {}
            Err(_) => return Err(Failure::OutOfMemory),
        }
    }
}

/// Keeps the last entries of this selection, of a walk that starts at the id `from`, or at the first entry.
pub(crate) fn keep_entries<'a, F: Format, C: Controller>(
    alloc: Global,
    ctl: &mut C,
    limits: RequestLimits,
    format: &F,
    selection: &EntrySelection<'_>,
    from: Option<u16>,
    kept: &mut LastEntries,
) -> Result<(), Failure<'a>>
    requires from { IsFrom from }
    requires some { 1 ≤ kept.old.most }
    requires none { kept.old.entries.items ≡ [] }
    ensures faults { write_faults result ≡ 0 }
    ensures asked { AsksAtMost limits.part (C.seen ctl.old) (C.seen ctl.new) }
    ensures ends { EndsListing Form.Skipped (C.seen ctl.new) result }
    ensures calls { (C.seen ctl.new).calls ≤ (C.seen ctl.old).calls + most_on_walk Form.Skipped
        limits.tries }
    ensures honest { IsHonest (C.seen ctl.old) → (text : Output) → KeepsEntries (F.texts format.now) selection.now kept.old.most (start_of from)
        limits.tries (C.seen ctl.old) (C.seen ctl.new) text kept.new.entries.items result }
{
    let mut cursor = start_cursor(alloc, limits, Shelf::Sel, from)?;
    keep_after(&mut cursor, ctl, format, selection, kept)
}

/// Prints the line of an entry.
fn print_entry<'a, F: Format, O: Sink>(
    alloc: Global,
    format: &F,
    entry: KeptEntry,
    entries: &EntryText<'_>,
    out: &mut O,
    summary: &mut Summary,
) -> Result<(), Failure<'a>>
    ensures faults { O.faults out.new ≡ O.faults out.old + write_faults result }
    ensures ends { EndsPrinting result }
    ensures prints { PrintsKept (F.texts format.now) entries.now (entry ∷ []) (printed (O.taken out.old) summary.old)
        (printed (O.taken out.new) summary.new) result }
{
    let text = entry_text(
        alloc,
        format,
        entries,
        entry.id,
        &SelView::read(&entry.bytes),
    )?;
    write_piece(&text, false, out, summary)
}

/// Prints the texts of the entries, and forgets them.
pub(crate) fn print_entries<'a, F: Format, O: Sink>(
    alloc: Global,
    format: &F,
    kept: &mut LastEntries,
    entries: &EntryText<'_>,
    out: &mut O,
    summary: &mut Summary,
) -> Result<(), Failure<'a>>
    ensures faults { O.faults out.new ≡ O.faults out.old + write_faults result }
    ensures ends { EndsPrinting result }
    ensures prints { PrintsKept (F.texts format.now) entries.now kept.old.entries.items (printed (O.taken out.old) summary.old)
        (printed (O.taken out.new) summary.new) result }
{
    'entries: while let Some(entry) = kept.entries.pop_front() {
        match print_entry(alloc, format, entry, entries, out, summary) {
            Ok(()) => {}
            Err(failure) => return Err(failure),
        }
    }
    Ok(())
}

/// Lists the last `wanted` entries that are selected along one walk, which starts at the id `from` or at the first entry. They are printed
/// when the walk is over.
pub(crate) fn list_kept<'a, F: Format, C: Controller, O: Sink>(
    alloc: Global,
    ctl: &mut C,
    limits: RequestLimits,
    format: &F,
    entries: EntryText<'a>,
    wanted: u16,
    from: Option<u16>,
    out: &mut O,
    summary: &mut Summary,
) -> Result<(), Failure<'a>>
    requires some { 1 ≤ wanted }
    requires from { IsFrom from }
    ensures faults { O.faults out.new ≡ O.faults out.old + write_faults result }
    ensures asked { AsksAtMost limits.part (C.seen ctl.old) (C.seen ctl.new) }
    ensures runs { Runs (F.texts format.now) (Job.LastKept entries.entry wanted from) limits.tries
        (change (C.seen ctl.old) (C.seen ctl.new) (printed (O.taken out.old) summary.old) (printed (O.taken out.new) summary.new)) result }
{
    let mut kept = LastEntries::new(alloc, wanted);
    match keep_entries(
        alloc,
        ctl,
        limits,
        format,
        &entries.selection,
        from,
        &mut kept,
    ) {
        Ok(()) => print_entries(alloc, format, &mut kept, &entries, out, summary),
        Err(failure) => Err(failure),
    }
}
