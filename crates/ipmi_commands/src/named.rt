//! Lists events and FRU devices with names from the sensor data records.
ghost use Rattle.std.specs.Prelude.{◌≡◌, ◌+◌};
ghost use Rattle.ipmi_commands.specs.Below.{AsksAtMost, IsCount, IsHonest, IsStateOf, records_in, write_faults};
ghost use Rattle.ipmi_commands.specs.Named.{end_after, listed_end, ReadsRecords, walk_of};
ghost use Rattle.ipmi_commands.specs.declared.job.Job.{Job};
ghost use Rattle.ipmi_commands.specs.Prelude.{change, entries_job, IsFrom, keeping_last, IsNamed, named_entries, printed, RetriesParts, Runs, RunsNamedInPages};

use crate::devices::print_devices;
use crate::format::Format;
use crate::job::{EntryText, Form, Listing, NameLookup};
use crate::limits::RequestLimits;
use crate::pages::{list_page, list_pages};
use crate::perform::list_entries;
use crate::summary::Summary;
use ipmi_bus::{Controller, Ended, Place};
use ipmi_command_line::Count;
use ipmi_events::Sensors;
use ipmi_output::{Failure, Sink, Written};
use ipmi_selection::EntrySelection;
use std::alloc::Global;

/// How a walk of the sensor data records ended.
#[derive(Clone, Copy)]
pub(crate) enum RecordsEnd {
    /// After the last record.
    Whole,
    /// With a cycle at this id.
    Cycle(u16),
    /// At this id, which no record has.
    Missing(u16),
}

impl RecordsEnd {
    /// The end of a finished listing after this walk: names may be missing if it was not whole.
    pub(crate) fn end<'a>(self) -> Result<(), Failure<'a>>
        ensures { result ≡ end_after self }
    {
        match self {
            RecordsEnd::Whole => Ok(()),
            RecordsEnd::Cycle(id) => Err(Failure::NamesCycle(id)),
            RecordsEnd::Missing(id) => Err(Failure::NamesMissing(id)),
        }
    }

    /// The end of a finished listing of these records themselves.
    pub(crate) fn listed_end<'a>(self) -> Result<(), Failure<'a>>
        ensures { result ≡ listed_end self }
    {
        match self {
            RecordsEnd::Whole => Ok(()),
            RecordsEnd::Cycle(id) => Err(Failure::Ended(Ended::Cycle(id))),
            RecordsEnd::Missing(id) => Err(Failure::Ended(Ended::Missing(id))),
        }
    }
}

/// How the walk ended, from the result of listing the records into memory. A write fault of that listing means out of
/// memory.
fn walk_of<'a>(listed: Result<Place, Failure<'a>>) -> Result<RecordsEnd, Failure<'a>>
    ensures { result ≡ walk_of listed.entry }
{
    match listed {
        Ok(_) => Ok(RecordsEnd::Whole),
        Err(Failure::Ended(Ended::Cycle(id))) => Ok(RecordsEnd::Cycle(id)),
        Err(Failure::Ended(Ended::Missing(id))) => Ok(RecordsEnd::Missing(id)),
        Err(Failure::WriteFault) => Err(Failure::OutOfMemory),
        Err(failure) => Err(failure),
    }
}

/// Lists the entries that `count` selects, starting at the id `from` or at the first entry, with the names
/// in these concatenated sensor data records. Keeps a table with one slot for each possible sensor.
fn list_events<'a, F: Format, C: Controller, O: Sink>(
    alloc: Global,
    ctl: &mut C,
    limits: RequestLimits,
    format: &F,
    selection: EntrySelection<'a>,
    records: Vec<u8>,
    count: Count,
    from: Option<u16>,
    out: &mut O,
    summary: &mut Summary,
) -> Result<(), Failure<'a>>
    requires count { IsCount count }
    requires from { IsFrom from }
    ensures faults { O.faults out.new ≡ O.faults out.old + write_faults result }
    ensures asked { AsksAtMost limits.part (C.seen ctl.old) (C.seen ctl.new) }
    ensures runs { Runs (F.texts format.now) (keeping_last (entries_job (named_entries selection.entry (records_in records.items)) count from)) limits.tries
        (change (C.seen ctl.old) (C.seen ctl.new) (printed (O.taken out.old) summary.old) (printed (O.taken out.new) summary.new)) result }
{
    let entries = EntryText::named(selection, Sensors::of(alloc, records)?);
    list_entries(
        alloc, ctl, limits, format, entries, count, from, out, summary,
    )
}

/// Writes the bytes of all sensor data records to `records`. Returns how their walk ended.
pub(crate) fn read_records<'a, F: Format, C: Controller, O: Sink>(
    alloc: Global,
    ctl: &mut C,
    limits: RequestLimits,
    format: &F,
    records: &mut O,
    summary: &mut Summary,
) -> Result<RecordsEnd, Failure<'a>>
    ensures asked { AsksAtMost limits.part (C.seen ctl.old) (C.seen ctl.new) }
    ensures reads { ReadsRecords (F.texts format.now) limits.tries
        (change (C.seen ctl.old) (C.seen ctl.new) (printed (O.taken records.old) summary.old) (printed (O.taken records.new) summary.new)) result }
{
    let listed = list_page(
        alloc,
        ctl,
        limits,
        format,
        &Form::Bytes,
        Place::First,
        None,
        records,
        summary,
    );
    walk_of(listed)
}

/// Reads all sensor data records into memory, then lists with the names in them.
pub(crate) fn list_named<'a, F: Format, C: Controller, O: Sink>(
    alloc: Global,
    ctl: &mut C,
    limits: RequestLimits,
    format: &F,
    named: NameLookup<'a>,
    out: &mut O,
    summary: &mut Summary,
) -> Result<(), Failure<'a>>
    requires { IsNamed named }
    ensures faults { O.faults out.new ≡ O.faults out.old + write_faults result }
    ensures asked { AsksAtMost limits.part (C.seen ctl.old) (C.seen ctl.new) }
    ensures parts { IsHonest (C.seen ctl.old) → RetriesParts limits.tries (IsStateOf C.seen) (C.seen ctl.new) result }
    ensures runs { Runs (F.texts format.now) (Job.NameLookup named.entry) limits.tries
        (change (C.seen ctl.old) (C.seen ctl.new) (printed (O.taken out.old) summary.old) (printed (O.taken out.new) summary.new)) result }
{
    ipmi_bus::laws::what_is_found_is_a_row();
    ipmi_events::laws::records_are_found_again();
    let mut records = Written::new(Vec::new(alloc));
    let mut counted = Summary::new();
    let walked = read_records(alloc, ctl, limits, format, &mut records, &mut counted)?;
    let records = records.into_inner();
    match named {
        NameLookup::Events(selection, count, from) => {
            list_events(
                alloc, ctl, limits, format, selection, records, count, from, out, summary,
            )?;
            walked.end()
        }
        NameLookup::Devices => {
            print_devices(alloc, ctl, limits, format, &records, walked, out, summary)
        }
    }
}

/// Like [`list_named`], for all entries, in pages of these sizes and then in a page without a limit.
pub(crate) fn list_named_pages<'a, F: Format, C: Controller, O: Sink>(
    alloc: Global,
    ctl: &mut C,
    limits: RequestLimits,
    format: &F,
    selection: EntrySelection<'a>,
    from: Option<u16>,
    out: &mut O,
    summary: &mut Summary,
    sizes: &[u32],
) -> Result<(), Failure<'a>>
    requires { IsFrom from }
    ensures faults { O.faults out.new ≡ O.faults out.old + write_faults result }
    ensures asked { AsksAtMost limits.part (C.seen ctl.old) (C.seen ctl.new) }
    ensures runs { RunsNamedInPages (F.texts format.now) selection.entry from limits.tries sizes.now
        (change (C.seen ctl.old) (C.seen ctl.new) (printed (O.taken out.old) summary.old) (printed (O.taken out.new) summary.new)) result }
{
    ipmi_bus::laws::the_tail_is_a_walk();
    ipmi_bus::laws::what_is_found_is_a_row();
    ipmi_events::laws::records_are_found_again();
    let mut records = Written::new(Vec::new(alloc));
    let mut counted = Summary::new();
    let walked = read_records(alloc, ctl, limits, format, &mut records, &mut counted)?;
    let entries = EntryText::named(selection, Sensors::of(alloc, records.into_inner())?);
    let listing = Listing::new(Form::Entry(entries), from, None);
    list_pages(
        alloc,
        ctl,
        limits,
        format,
        &listing.form,
        listing.start,
        out,
        summary,
        sizes,
    )?;
    walked.end()
}
