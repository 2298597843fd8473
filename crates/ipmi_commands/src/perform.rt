//! Runs commands over any controller.
ghost use Rattle.std.specs.Prelude.{◌≡◌, ◌+◌, true, option_map};
ghost use Rattle.ipmi_commands.specs.Below.{AsksAtMost, IsCount, IsHonest, IsStateOf, start_of, write_faults};
ghost use Rattle.ipmi_commands.specs.declared.job.Form.{Form};
ghost use Rattle.ipmi_commands.specs.declared.job.Job.{Job};
ghost use Rattle.ipmi_commands.specs.declared.job.Listing.{Listing};
ghost use Rattle.ipmi_commands.specs.Prelude.{change, entries_job, IsFrom, IsJob, IsPlace, keeping_last, listing, lists_all, piece_of, printed, RetriesParts, Runs, RunsPaged, WritesPiece};

use crate::format::Format;
use crate::info::info_text;
use crate::inventory::inventory_in;
use crate::job::{EntryText, Form, Job, Listing, NameLookup};
use crate::kept::list_kept;
use crate::last::list_last;
use crate::limits::RequestLimits;
use crate::named::{list_named, list_named_pages};
use crate::pages::{list_page, list_pages};
use crate::summary::Summary;
use crate::tail::list_tail;
use ipmi_bus::{Controller, Place, Shelf};
use ipmi_command_line::Count;
use ipmi_output::{Failure, RecordName, Sink, write_all};
use ipmi_selection::Detail;
use std::alloc::Global;

/// Writes the text of an item, which has a fault or none, and counts the item.
pub fn write_piece<'a, O: Sink>(
    text: &[u8],
    has_fault: bool,
    out: &mut O,
    summary: &mut Summary,
) -> Result<(), Failure<'a>>
    ensures faults { O.faults out.new ≡ O.faults out.old + write_faults result }
    ensures piece { WritesPiece (piece_of text.now has_fault) (printed (O.taken out.old) summary.old)
        (printed (O.taken out.new) summary.new) result }
{
    write_all(out, text)?;
    summary.add(text, has_fault);
    Ok(())
}

/// Lists records along one walk.
fn list<'a, F: Format, C: Controller, O: Sink>(
    alloc: Global,
    ctl: &mut C,
    limits: RequestLimits,
    format: &F,
    listing: &Listing<'a>,
    out: &mut O,
    summary: &mut Summary,
) -> Result<(), Failure<'a>>
    requires { IsPlace listing.now.start }
    ensures faults { O.faults out.new ≡ O.faults out.old + write_faults result }
    ensures asked { AsksAtMost limits.part (C.seen ctl.old) (C.seen ctl.new) }
    ensures parts { IsHonest (C.seen ctl.old) → RetriesParts limits.tries (IsStateOf C.seen) (C.seen ctl.new) result }
    ensures runs { Runs (F.texts format.now) (Job.Records listing.now) limits.tries
        (change (C.seen ctl.old) (C.seen ctl.new) (printed (O.taken out.old) summary.old) (printed (O.taken out.new) summary.new)) result }
{
    list_page(
        alloc,
        ctl,
        limits,
        format,
        &listing.form,
        listing.start,
        listing.most,
        out,
        summary,
    )?;
    Ok(())
}

/// Lists entries, at most `most` of them if that is Some, starting at the id `from` or at the first entry.
fn list_first<'a, F: Format, C: Controller, O: Sink>(
    alloc: Global,
    ctl: &mut C,
    limits: RequestLimits,
    format: &F,
    entries: EntryText<'a>,
    from: Option<u16>,
    most: Option<u32>,
    out: &mut O,
    summary: &mut Summary,
) -> Result<(), Failure<'a>>
    requires { IsFrom from }
    ensures faults { O.faults out.new ≡ O.faults out.old + write_faults result }
    ensures asked { AsksAtMost limits.part (C.seen ctl.old) (C.seen ctl.new) }
    ensures runs { Runs (F.texts format.now) (Job.Records (listing (Form.Entry entries.entry) (start_of from) most)) limits.tries
        (change (C.seen ctl.old) (C.seen ctl.new) (printed (O.taken out.old) summary.old) (printed (O.taken out.new) summary.new)) result }
{
    let listing = Listing::new(Form::Entry(entries), from, most);
    list(alloc, ctl, limits, format, &listing, out, summary)
}

/// Lists the entries that `count` selects, starting at the id `from` or at the first entry. The last ones are kept in
/// memory along one walk.
pub(crate) fn list_entries<'a, F: Format, C: Controller, O: Sink>(
    alloc: Global,
    ctl: &mut C,
    limits: RequestLimits,
    format: &F,
    entries: EntryText<'a>,
    count: Count,
    from: Option<u16>,
    out: &mut O,
    summary: &mut Summary,
) -> Result<(), Failure<'a>>
    requires count { IsCount count }
    requires from { IsFrom from }
    ensures faults { O.faults out.new ≡ O.faults out.old + write_faults result }
    ensures asked { AsksAtMost limits.part (C.seen ctl.old) (C.seen ctl.new) }
    ensures runs { Runs (F.texts format.now) (keeping_last (entries_job entries.entry count from)) limits.tries
        (change (C.seen ctl.old) (C.seen ctl.new) (printed (O.taken out.old) summary.old) (printed (O.taken out.new) summary.new)) result }
{
    match count {
        Count::All => list_first(
            alloc, ctl, limits, format, entries, from, None, out, summary,
        ),
        Count::First(n) => {
            let most = Some(u32::from(n));
            list_first(
                alloc, ctl, limits, format, entries, from, most, out, summary,
            )
        }
        Count::Last(n) => list_kept(alloc, ctl, limits, format, entries, n, from, out, summary),
        Count::Tail(n) => list_tail(alloc, ctl, limits, format, entries, n, out, summary),
    }
}

/// Prints the info of the shelf.
fn print_info<'a, F: Format, C: Controller, O: Sink>(
    alloc: Global,
    ctl: &mut C,
    limits: RequestLimits,
    format: &F,
    shelf: Shelf,
    out: &mut O,
    summary: &mut Summary,
) -> Result<(), Failure<'a>>
    ensures faults { O.faults out.new ≡ O.faults out.old + write_faults result }
    ensures asked { AsksAtMost limits.part (C.seen ctl.old) (C.seen ctl.new) }
    ensures runs { Runs (F.texts format.now) (Job.Info shelf) limits.tries
        (change (C.seen ctl.old) (C.seen ctl.new) (printed (O.taken out.old) summary.old) (printed (O.taken out.new) summary.new)) result }
{
    match info_text(alloc, ctl, format, shelf, limits.tries())? {
        Some(text) => write_piece(text.as_slice(), false, out, summary),
        None => Err(Failure::NoInfo),
    }
}

/// The text of a name, if there is one.
fn text_of<'a>(name: &Option<RecordName<'a>>) -> Option<&'a str>
    ensures { option_map (λ text. text.now) result ≡ name.now }
{
    match name {
        Some(name) => Some(name.as_str()),
        None => None,
    }
}

/// Prints the inventory of one device with this name.
pub(crate) fn print_inventory<'a, F: Format, C: Controller, O: Sink>(
    alloc: Global,
    ctl: &mut C,
    limits: RequestLimits,
    format: &F,
    detail: Detail,
    id: u8,
    name: Option<&str>,
    out: &mut O,
    summary: &mut Summary,
) -> Result<(), Failure<'a>>
    ensures faults { O.faults out.new ≡ O.faults out.old + write_faults result }
    ensures asked { AsksAtMost limits.part (C.seen ctl.old) (C.seen ctl.new) }
    ensures parts { IsHonest (C.seen ctl.old) → RetriesParts limits.tries (IsStateOf C.seen) (C.seen ctl.new) result }
    ensures runs { let named = option_map (λ name. name.now) name.entry in
        Runs (F.texts format.now) (Job.Inventory detail id named) limits.tries
        (change (C.seen ctl.old) (C.seen ctl.new) (printed (O.taken out.old) summary.old) (printed (O.taken out.new) summary.new)) result }
{
    let piece = inventory_in(alloc, ctl, limits, format, detail, id, name)?;
    write_piece(piece.text.as_slice(), piece.has_fault, out, summary)
}

/// Prints all inventories: that of device 0 with this name, then those of the locators.
fn print_inventories<'a, F: Format, C: Controller, O: Sink>(
    alloc: Global,
    ctl: &mut C,
    limits: RequestLimits,
    format: &F,
    name: Option<&str>,
    out: &mut O,
    summary: &mut Summary,
) -> Result<(), Failure<'a>>
    ensures faults { O.faults out.new ≡ O.faults out.old + write_faults result }
    ensures asked { AsksAtMost limits.part (C.seen ctl.old) (C.seen ctl.new) }
    ensures parts { IsHonest (C.seen ctl.old) → RetriesParts limits.tries (IsStateOf C.seen) (C.seen ctl.new) result }
    ensures runs { let named = option_map (λ name. name.now) name.entry in
        Runs (F.texts format.now) (Job.AllInventories named) limits.tries
        (change (C.seen ctl.old) (C.seen ctl.new) (printed (O.taken out.old) summary.old) (printed (O.taken out.new) summary.new)) result }
{
    print_inventory(
        alloc,
        ctl,
        limits,
        format,
        Detail::Line,
        0,
        name,
        out,
        summary,
    )?;
    let form = Form::Device;
    list_page(
        alloc,
        ctl,
        limits,
        format,
        &form,
        Place::First,
        None,
        out,
        summary,
    )?;
    Ok(())
}

/// Does the job over the controller, in the form of output for which the job was made: another one may lack the names of sensors. Err says why it did not finish. Adds what it printed to `summary`, also if it
/// fails.
pub fn execute<'a, F: Format, C: Controller, O: Sink>(
    alloc: Global,
    ctl: &mut C,
    limits: RequestLimits,
    format: &F,
    job: Job<'a>,
    out: &mut O,
    summary: &mut Summary,
) -> Result<(), Failure<'a>>
    requires { IsJob job }
    ensures faults { O.faults out.new ≡ O.faults out.old + write_faults result }
    ensures asked { AsksAtMost limits.part (C.seen ctl.old) (C.seen ctl.new) }
    ensures parts { IsHonest (C.seen ctl.old) → RetriesParts limits.tries (IsStateOf C.seen) (C.seen ctl.new) result }
    ensures runs { Runs (F.texts format.now) job.entry limits.tries
        (change (C.seen ctl.old) (C.seen ctl.new) (printed (O.taken out.old) summary.old) (printed (O.taken out.new) summary.new)) result }
{
    match job {
        Job::Records(listing) => list(alloc, ctl, limits, format, &listing, out, summary),
        Job::Last(entries, wanted, from) => {
            list_last(
                alloc, ctl, limits, format, entries, wanted, from, out, summary,
            )
        }
        Job::LastKept(entries, wanted, from) => {
            list_kept(
                alloc, ctl, limits, format, entries, wanted, from, out, summary,
            )
        }
        Job::Tail(entries, wanted) => {
            list_tail(alloc, ctl, limits, format, entries, wanted, out, summary)
        }
        Job::NameLookup(named) => list_named(alloc, ctl, limits, format, named, out, summary),
        Job::Info(shelf) => print_info(alloc, ctl, limits, format, shelf, out, summary),
        Job::Inventory(detail, id, name) => {
            print_inventory(
                alloc,
                ctl,
                limits,
                format,
                detail,
                id,
                text_of(&name),
                out,
                summary,
            )
        }
        Job::AllInventories(name) => {
            print_inventories(alloc, ctl, limits, format, text_of(&name), out, summary)
        }
    }
}

/// Like [`execute`], for a listing in pages. Each page lists at most as many records as its number in `pages`, with a
/// new cursor that starts where the page before it stopped. After the last of these comes a page without a limit. The
/// names of sensors are read once, before the first page.
pub fn execute_pages<'a, F: Format, C: Controller, O: Sink>(
    alloc: Global,
    ctl: &mut C,
    limits: RequestLimits,
    format: &F,
    job: Job<'a>,
    out: &mut O,
    summary: &mut Summary,
    pages: &[u32],
) -> Result<(), Failure<'a>>
    requires job { IsJob job }
    requires listing { lists_all job ≡ true }
    ensures faults { O.faults out.new ≡ O.faults out.old + write_faults result }
    ensures asked { AsksAtMost limits.part (C.seen ctl.old) (C.seen ctl.new) }
    ensures parts { IsHonest (C.seen ctl.old) → RetriesParts limits.tries (IsStateOf C.seen) (C.seen ctl.new) result }
    ensures runs { RunsPaged (F.texts format.now) job.entry limits.tries pages.now
        (change (C.seen ctl.old) (C.seen ctl.new) (printed (O.taken out.old) summary.old) (printed (O.taken out.new) summary.new)) result }
{
    ipmi_bus::laws::the_tail_is_a_walk();
    match job {
        Job::NameLookup(NameLookup::Events(selection, _, from)) => {
            list_named_pages(
                alloc, ctl, limits, format, selection, from, out, summary, pages,
            )
        }
        Job::Records(listing) => {
            list_pages(
                alloc,
                ctl,
                limits,
                format,
                &listing.form,
                listing.start,
                out,
                summary,
                pages,
            )
        }
        // it lists all records of a shelf
        _ => unreachable!(),
    }
}
