//! Lists the last entries of the event log: one walk counts the entries, a second one lists the last of them.
ghost use Rattle.std.specs.Prelude.{◌≡◌, ◌+◌, ◌≤◌, ℕ, Option};
ghost use Rattle.ipmi_commands.specs.Below.{AsksAtMost, start_of, IsHonest, Sel, write_faults};
ghost use Rattle.ipmi_commands.specs.declared.job.Form.{Form};
ghost use Rattle.ipmi_commands.specs.declared.job.Job.{Job};
ghost use Rattle.ipmi_commands.specs.Prelude.{change, CountsEntries, ending_of, EndsListing, IsFresh, IsFrom, ListsAfter, most_on_walk, printed, Runs};

use crate::format::Format;
use crate::job::{EntryText, Form};
use crate::limits::RequestLimits;
use crate::listing::list_records;
use crate::pages::start_cursor;
use crate::summary::Summary;
use ipmi_bus::{Controller, Cursor, Shelf};
use ipmi_output::{Failure, Sink};
use std::alloc::Global;

/// Counts the entries, starting at the id `from` or at the first entry. Writes nothing.
fn count_entries<'a, F: Format, C: Controller, O: Sink>(
    alloc: Global,
    ctl: &mut C,
    limits: RequestLimits,
    format: &F,
    from: Option<u16>,
    out: &mut O,
    summary: &mut Summary,
) -> Result<u32, Failure<'a>>
    requires { IsFrom from }
    ensures faults { O.faults out.new ≡ O.faults out.old + write_faults (ending_of result) }
    ensures asked { AsksAtMost limits.part (C.seen ctl.old) (C.seen ctl.new) }
    ensures ends { EndsListing Form.Skipped (C.seen ctl.new) (ending_of result) }
    ensures calls { (C.seen ctl.new).calls ≤ (C.seen ctl.old).calls + most_on_walk Form.Skipped
        limits.tries }
    ensures honest { IsHonest (C.seen ctl.old) →
        CountsEntries (F.texts format.now) (start_of from) limits.tries (change (C.seen ctl.old) (C.seen ctl.new)
        (printed (O.taken out.old) summary.old) (printed (O.taken out.new) summary.new)) result }
{
    let mut cursor = start_cursor(alloc, limits, Shelf::Sel, from)?;
    list_records(
        alloc,
        &mut cursor,
        ctl,
        limits,
        format,
        &Form::Skipped,
        None,
        out,
        summary,
    )
}

/// Skips the first `passed` entries after the place of a new cursor, and lists those after them. If there are fewer
/// entries, because the log became shorter, it lists nothing.
fn list_rest<'a, F: Format, C: Controller, O: Sink>(
    alloc: Global,
    cursor: &mut Cursor,
    ctl: &mut C,
    limits: RequestLimits,
    format: &F,
    entries: EntryText<'a>,
    passed: u32,
    out: &mut O,
    summary: &mut Summary,
) -> Result<(), Failure<'a>>
    requires { (from : Option ℕ) × IsFresh limits Sel from cursor.old }
    ensures faults { O.faults out.new ≡ O.faults out.old + write_faults result }
    ensures asked { AsksAtMost limits.part (C.seen ctl.old) (C.seen ctl.new) }
    ensures ends { EndsListing (Form.Entry entries.entry) (C.seen ctl.new) result }
    ensures calls { (C.seen ctl.new).calls ≤ (C.seen ctl.old).calls + most_on_walk Form.Skipped
        limits.tries }
    ensures honest { IsHonest (C.seen ctl.old) →
        ListsAfter (F.texts format.now) entries.entry cursor.old.place passed limits.tries (change (C.seen ctl.old) (C.seen ctl.new)
        (printed (O.taken out.old) summary.old) (printed (O.taken out.new) summary.new)) result }
{
    let most = Some(passed);
    if list_records(
        alloc,
        cursor,
        ctl,
        limits,
        format,
        &Form::Skipped,
        most,
        out,
        summary,
    )? != passed
    {
        return Ok(());
    }
    list_records(
        alloc,
        cursor,
        ctl,
        limits,
        format,
        &Form::Entry(entries),
        None,
        out,
        summary,
    )?;
    Ok(())
}

/// Skips the first `passed` entries, starting at the id `from` or at the first entry, and lists those after them.
fn list_after<'a, F: Format, C: Controller, O: Sink>(
    alloc: Global,
    ctl: &mut C,
    limits: RequestLimits,
    format: &F,
    entries: EntryText<'a>,
    from: Option<u16>,
    passed: u32,
    out: &mut O,
    summary: &mut Summary,
) -> Result<(), Failure<'a>>
    requires { IsFrom from }
    ensures faults { O.faults out.new ≡ O.faults out.old + write_faults result }
    ensures asked { AsksAtMost limits.part (C.seen ctl.old) (C.seen ctl.new) }
    ensures ends { EndsListing (Form.Entry entries.entry) (C.seen ctl.new) result }
    ensures calls { (C.seen ctl.new).calls ≤ (C.seen ctl.old).calls + most_on_walk Form.Skipped
        limits.tries }
    ensures honest { IsHonest (C.seen ctl.old) →
        ListsAfter (F.texts format.now) entries.entry (start_of from) passed limits.tries (change (C.seen ctl.old) (C.seen ctl.new)
        (printed (O.taken out.old) summary.old) (printed (O.taken out.new) summary.new)) result }
{
    let mut cursor = start_cursor(alloc, limits, Shelf::Sel, from)?;
    list_rest(
        alloc,
        &mut cursor,
        ctl,
        limits,
        format,
        entries,
        passed,
        out,
        summary,
    )
}

/// Lists the last `wanted` entries. The first walk counts all entries, the second skips those before the last ones.
pub(crate) fn list_last<'a, F: Format, C: Controller, O: Sink>(
    alloc: Global,
    ctl: &mut C,
    limits: RequestLimits,
    format: &F,
    entries: EntryText<'a>,
    wanted: u16,
    from: Option<u16>,
    out: &mut O,
    summary: &mut Summary,
) -> Result<(), Failure<'a>>
    requires some { 1 ≤ wanted }
    requires from { IsFrom from }
    ensures faults { O.faults out.new ≡ O.faults out.old + write_faults result }
    ensures asked { AsksAtMost limits.part (C.seen ctl.old) (C.seen ctl.new) }
    ensures runs { Runs (F.texts format.now) (Job.Last entries.entry wanted from) limits.tries
        (change (C.seen ctl.old) (C.seen ctl.new) (printed (O.taken out.old) summary.old) (printed (O.taken out.new) summary.new)) result }
{
    match count_entries(alloc, ctl, limits, format, from, out, summary) {
        Ok(0) => Ok(()),
        Ok(count) => {
            let passed = count.saturating_sub(u32::from(wanted));
            list_after(
                alloc, ctl, limits, format, entries, from, passed, out, summary,
            )
        }
        Err(failure) => Err(failure),
    }
}
