//! Finds and prints the entries of the event log that earlier runs did not find.
ghost use Rattle.std.specs.Prelude.{◌≡◌, ◌≤◌, ◌+◌, ◌∷◌, [], IfErr, IfOk, true};
ghost use Rattle.std.specs.Option.{option_or};
ghost use Rattle.ipmi_commands.specs.Below.{AsksAtMost, info_of, IsHonest, records_in, Sel, start_of, write_faults};
ghost use Rattle.ipmi_commands.specs.declared.job.Form.{Form};
ghost use Rattle.ipmi_commands.specs.Kept.{last_entry, PrintsKept};
ghost use Rattle.ipmi_commands.specs.Since.{are_same, entry_before, FindsAfter, FindsAll, FindsNew, FindsSince, FindsWhole, has_addition, is_unchanged, PrintsNew, reads_names, ReadsThenPrints};
ghost use Rattle.ipmi_commands.specs.Prelude.{AtRecord, change, ending_of, EndsListing, EndsPrinting, Finds, IsFrom, LacksValue, most_on_tail, most_on_walk, named_entries, printed};

use crate::format::Format;
use crate::job::EntryText;
use crate::kept::{KeptEntry, LastEntries, keep_entries, print_entries};
use crate::limits::{RequestLimits, Tries};
use crate::mark::Mark;
use crate::named::read_records;
use crate::read_error::ReadError;
use crate::summary::Summary;
use ipmi_bus::{Controller, Ended, FIRST_RECORD_ID, INFO_LEN, NO_NEXT_ID, Shelf, read_info};
use ipmi_events::Sensors;
use ipmi_output::{Failure, Sink, Written};
use ipmi_records::Info;
use ipmi_selection::{Detail, EntrySelection};
use std::alloc::Global;

/// How the entries of a run follow those of the runs before it.
#[derive(Clone, Copy, Debug, PartialEq, Eq)]
pub enum Continuity {
    /// There was no run before it: all entries.
    Started,
    /// Those after the last entry of the runs before it.
    Continued,
    /// The log lacks that entry, since it was cleared or overwritten: all entries.
    Restarted,
    /// None: the info of the log is as it was before the last run.
    Unchanged,
}

/// Entries of the event log, and how they follow those of earlier runs.
#[derive(Drop)]
pub(crate) struct Found {
    pub(crate) continuity: Continuity,
    pub(crate) entries: LastEntries,
}

/// The entries that a run found, and where it stopped.
#[derive(Drop)]
pub struct NewEntries {
    pub(crate) found: Found,
    pub(crate) mark: Mark,
}

/// The info of the event log.
fn log_info<C: Controller>(ctl: &mut C, tries: Tries) -> Result<Option<[u8; INFO_LEN]>, ReadError>
    ensures calls { (C.seen ctl.new).calls ≤ (C.seen ctl.old).calls + (tries.count + 1) }
    ensures asked { AsksAtMost 0 (C.seen ctl.old) (C.seen ctl.new) }
    ensures says { IfErr result (λ unread. LacksValue unread (C.seen ctl.new)) }
    ensures honest { IsHonest (C.seen ctl.old) →
        Finds (λ store info. info ≡ info_of Sel store) (AtRecord 0 ∷ []) tries (C.seen ctl.old) (C.seen ctl.new) result }
{
    Ok(read_info(ctl, Shelf::Sel, tries.count)?)
}

/// Whether an info says when an entry was last added.
fn has_addition(info: &[u8; INFO_LEN]) -> bool
    ensures { result ≡ has_addition info.now }
{
    Info::read(info).last_addition != u32::MAX
}

/// Whether both are there, are the same, and say when an entry was last added.
fn are_same(old: Option<[u8; INFO_LEN]>, info: Option<[u8; INFO_LEN]>) -> bool
    ensures { result ≡ are_same old info }
{
    match (old, info) {
        (Some(old), Some(info)) => old == info && has_addition(&info),
        _ => false,
    }
}

/// Whether nothing but the info needs to be read: it is there, has a time, and is that of the mark.
fn is_unchanged(mark: Option<Mark>, info: Option<[u8; INFO_LEN]>) -> bool
    ensures { result ≡ is_unchanged mark info }
{
    match mark {
        Some(mark) => are_same(mark.info, info),
        None => false,
    }
}

/// The last entry of earlier runs, unless the log is another one.
fn entry_before(continuity: Continuity, mark: Option<Mark>) -> Option<KeptEntry>
    ensures { result ≡ entry_before continuity mark }
{
    match continuity {
        Continuity::Continued | Continuity::Unchanged => mark?.entry,
        Continuity::Started | Continuity::Restarted => None,
    }
}

/// All entries of the walk from the id `from`, or from the first entry.
fn entries_from<'a, F: Format, C: Controller>(
    alloc: Global,
    ctl: &mut C,
    limits: RequestLimits,
    format: &F,
    from: Option<u16>,
) -> Result<LastEntries, Failure<'a>>
    requires { IsFrom from }
    ensures faults { write_faults (ending_of result) ≡ 0 }
    ensures calls { (C.seen ctl.new).calls ≤ (C.seen ctl.old).calls + most_on_walk Form.Skipped limits.tries }
    ensures asked { AsksAtMost limits.part (C.seen ctl.old) (C.seen ctl.new) }
    ensures ends { EndsListing Form.Skipped (C.seen ctl.new) (ending_of result) }
    ensures honest { IsHonest (C.seen ctl.old) →
        FindsAll (start_of from) limits.tries (C.seen ctl.old) (C.seen ctl.new) result }
{
    let mut kept = LastEntries::new(alloc, u16::MAX);
    let all = EntrySelection::in_detail(Detail::Line);
    match keep_entries(alloc, ctl, limits, format, &all, from, &mut kept) {
        Ok(()) => Ok(kept),
        Err(failure) => Err(failure),
    }
}

/// The entries after this one. None if the log lacks it.
fn entries_after<'a, F: Format, C: Controller>(
    alloc: Global,
    ctl: &mut C,
    limits: RequestLimits,
    format: &F,
    entry: KeptEntry,
) -> Result<Option<LastEntries>, Failure<'a>>
    ensures faults { write_faults (ending_of result) ≡ 0 }
    ensures calls { (C.seen ctl.new).calls ≤ (C.seen ctl.old).calls + most_on_walk Form.Skipped limits.tries }
    ensures asked { AsksAtMost limits.part (C.seen ctl.old) (C.seen ctl.new) }
    ensures ends { EndsListing Form.Skipped (C.seen ctl.new) (ending_of result) }
    ensures honest { IsHonest (C.seen ctl.old) →
        FindsAfter entry limits.tries (C.seen ctl.old) (C.seen ctl.new) result }
{
    if entry.id == FIRST_RECORD_ID || entry.id == NO_NEXT_ID {
        return Ok(None);
    }
    match entries_from(alloc, ctl, limits, format, Some(entry.id)) {
        Ok(kept) => Ok(kept.after(entry)),
        Err(Failure::Ended(Ended::Missing(id))) if id == entry.id => Ok(None),
        Err(failure) => Err(failure),
    }
}

/// All entries, which follow those of earlier runs so.
fn all_entries<'a, F: Format, C: Controller>(
    alloc: Global,
    ctl: &mut C,
    limits: RequestLimits,
    format: &F,
    continuity: Continuity,
) -> Result<Found, Failure<'a>>
    ensures faults { write_faults (ending_of result) ≡ 0 }
    ensures calls { (C.seen ctl.new).calls ≤ (C.seen ctl.old).calls + most_on_walk Form.Skipped limits.tries }
    ensures asked { AsksAtMost limits.part (C.seen ctl.old) (C.seen ctl.new) }
    ensures ends { EndsListing Form.Skipped (C.seen ctl.new) (ending_of result) }
    ensures honest { IsHonest (C.seen ctl.old) →
        FindsWhole continuity limits.tries (C.seen ctl.old) (C.seen ctl.new) result }
{
    let entries = entries_from(alloc, ctl, limits, format, None)?;
    Ok(Found {
        continuity,
        entries,
    })
}

/// The entries after those of the runs before, the last of which left this mark. The log has this info.
fn entries_since<'a, F: Format, C: Controller>(
    alloc: Global,
    ctl: &mut C,
    limits: RequestLimits,
    format: &F,
    mark: Option<Mark>,
    info: Option<[u8; INFO_LEN]>,
) -> Result<Found, Failure<'a>>
    ensures faults { write_faults (ending_of result) ≡ 0 }
    ensures calls { (C.seen ctl.new).calls ≤ (C.seen ctl.old).calls
        + (most_on_walk Form.Skipped limits.tries + most_on_walk Form.Skipped limits.tries) }
    ensures asked { AsksAtMost limits.part (C.seen ctl.old) (C.seen ctl.new) }
    ensures ends { EndsListing Form.Skipped (C.seen ctl.new) (ending_of result) }
    ensures at_once { is_unchanged mark info ≡ true → C.seen ctl.new ≡ C.seen ctl.old }
    ensures honest { IsHonest (C.seen ctl.old) →
        FindsSince mark info limits.tries (C.seen ctl.old) (C.seen ctl.new) result }
{
    if is_unchanged(mark, info) {
        return Ok(Found {
            continuity: Continuity::Unchanged,
            entries: LastEntries::new(alloc, 0),
        });
    }
    let Some(mark) = mark else {
        return all_entries(alloc, ctl, limits, format, Continuity::Started);
    };
    let Some(entry) = mark.entry else {
        return all_entries(alloc, ctl, limits, format, Continuity::Continued);
    };
    match entries_after(alloc, ctl, limits, format, entry)? {
        Some(entries) => Ok(Found {
            continuity: Continuity::Continued,
            entries,
        }),
        None => all_entries(alloc, ctl, limits, format, Continuity::Restarted),
    }
}

/// Finds the entries of the event log that were not found by earlier runs, the last of which left this mark. The log's info is read
/// first: if it is that of the mark, nothing else is. The format has no part in it.
pub fn new_entries<'a, F: Format, C: Controller>(
    alloc: Global,
    ctl: &mut C,
    limits: RequestLimits,
    format: &F,
    mark: Option<Mark>,
) -> Result<NewEntries, Failure<'a>>
    ensures faults { write_faults (ending_of result) ≡ 0 }
    ensures calls { (C.seen ctl.new).calls ≤ (C.seen ctl.old).calls + most_on_tail limits.tries }
    ensures asked { AsksAtMost limits.part (C.seen ctl.old) (C.seen ctl.new) }
    ensures ends { EndsListing Form.Skipped (C.seen ctl.new) (ending_of result) }
    ensures mark { IfOk result (λ new. new.mark.entry ≡
        option_or (last_entry new.found.entries.entries.items) (entry_before new.found.continuity mark)) }
    ensures honest { IsHonest (C.seen ctl.old) →
        FindsNew mark limits.tries (C.seen ctl.old) (C.seen ctl.new) result }
{
    let info = log_info(ctl, limits.tries())?;
    let found = entries_since(alloc, ctl, limits, format, mark, info)?;
    let before = entry_before(found.continuity, mark);
    let entry = found.entries.last().or(before);
    let mark = Mark { entry, info };
    Ok(NewEntries { found, mark })
}

impl NewEntries {
    /// How the entries follow those of the runs before.
    pub fn continuity(&self) -> Continuity
        ensures { result ≡ self.now.found.continuity }
    {
        self.found.continuity
    }

    /// Where the run stopped.
    pub fn mark(&self) -> Mark
        ensures { result ≡ self.now.mark }
    {
        self.mark
    }
}

/// Prints the entries of this selection, with the names of sensors in these concatenated sensor data records.
fn print_with<'a, F: Format, O: Sink>(
    alloc: Global,
    format: &F,
    selection: EntrySelection<'_>,
    records: Vec<u8>,
    entries: &mut LastEntries,
    out: &mut O,
    summary: &mut Summary,
) -> Result<(), Failure<'a>>
    ensures faults { O.faults out.new ≡ O.faults out.old + write_faults result }
    ensures ends { EndsPrinting result }
    ensures prints { PrintsKept (F.texts format.now) (named_entries selection.entry (records_in records.items)) entries.old.entries.items
        (printed (O.taken out.old) summary.old) (printed (O.taken out.new) summary.new) result }
{
    let text = EntryText::named(selection, Sensors::of(alloc, records)?);
    print_entries(alloc, format, entries, &text, out, summary)
}

/// Reads all sensor data records into memory, then prints the entries of this selection with the names in them.
fn print_named<'a, F: Format, C: Controller, O: Sink>(
    alloc: Global,
    ctl: &mut C,
    limits: RequestLimits,
    format: &F,
    selection: EntrySelection<'_>,
    entries: &mut LastEntries,
    out: &mut O,
    summary: &mut Summary,
) -> Result<(), Failure<'a>>
    ensures faults { O.faults out.new ≡ O.faults out.old + write_faults result }
    ensures asked { AsksAtMost limits.part (C.seen ctl.old) (C.seen ctl.new) }
    ensures prints { ReadsThenPrints (F.texts format.now) selection.entry entries.old.entries.items limits.tries
        (change (C.seen ctl.old) (C.seen ctl.new) (printed (O.taken out.old) summary.old) (printed (O.taken out.new) summary.new)) result }
{
    let mut records = Written::new(Vec::new(alloc));
    let mut counted = Summary::new();
    let walked = read_records(alloc, ctl, limits, format, &mut records, &mut counted)?;
    let records = records.into_inner();
    print_with(alloc, format, selection, records, entries, out, summary)?;
    walked.end()
}

/// Whether names are read for the entries of this selection: if there are any, and the form has names.
fn reads_names<F: Format>(format: &F, selection: &EntrySelection<'_>, entries: &LastEntries) -> bool
    ensures { result ≡ reads_names (F.texts format.now) selection.now entries.now.entries.items }
{
    entries.count() != 0 && format.has_names(selection.detail())
}

/// Prints the entries of this selection. If there are any, and the form has names in this detail, the sensor data records are read first.
pub fn print_new<'a, F: Format, C: Controller, O: Sink>(
    alloc: Global,
    ctl: &mut C,
    limits: RequestLimits,
    format: &F,
    selection: EntrySelection<'_>,
    new: NewEntries,
    out: &mut O,
    summary: &mut Summary,
) -> Result<(), Failure<'a>>
    ensures faults { O.faults out.new ≡ O.faults out.old + write_faults result }
    ensures asked { AsksAtMost limits.part (C.seen ctl.old) (C.seen ctl.new) }
    ensures prints { PrintsNew (F.texts format.now) selection.entry new.found.entries.entries.items limits.tries
        (change (C.seen ctl.old) (C.seen ctl.new) (printed (O.taken out.old) summary.old) (printed (O.taken out.new) summary.new)) result }
{
    let mut entries = new.found.entries;
    if reads_names(format, &selection, &entries) {
        return print_named(
            alloc,
            ctl,
            limits,
            format,
            selection,
            &mut entries,
            out,
            summary,
        );
    }
    let text = EntryText {
        selection,
        sensors: None,
    };
    print_entries(alloc, format, &mut entries, &text, out, summary)
}
