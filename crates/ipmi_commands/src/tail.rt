//! Lists the last entries of the event log on a walk that begins where the log's info suggests.
ghost use Rattle.std.specs.Prelude.{◌≡◌, ◌+◌, ◌≤◌, ◌∷◌, [], IfErr, IfOk, length};
ghost use Rattle.ipmi_commands.specs.Below.{AsksAtMost, info_of, IsHonest, Sel, write_faults};
ghost use Rattle.ipmi_commands.specs.declared.job.Job.{Job};
ghost use Rattle.ipmi_commands.specs.Prelude.{AtRecord, change, Finds, id_in_run, IsFrom, is_tail, LacksValue, printed, Runs, tail_from};

use crate::format::Format;
use crate::job::EntryText;
use crate::kept::{LastEntries, keep_entries, list_kept, print_entries};
use crate::limits::{RequestLimits, Tries};
use crate::read_error::ReadError;
use crate::summary::Summary;
use ipmi_bus::{Controller, Ended, NO_NEXT_ID, Shelf, read_info};
use ipmi_output::{Failure, Sink};
use ipmi_records::Info;
use std::alloc::Global;

/// The id of the first of the last `wanted` of `count` entries, if their ids count them from 1. None if there are no more
/// than `wanted`, or if no walk can begin at that id.
fn id_in_run(wanted: u16, count: u16) -> Option<u16>
    requires { 1 ≤ wanted }
    ensures value { result ≡ id_in_run wanted count }
    ensures range { IsFrom result }
{
    if wanted < count && count - wanted + 1 < NO_NEXT_ID {
        return Some(count - wanted + 1);
    }
    None
}

/// The id at which the last `wanted` entries begin, as the info of the event log suggests. None if it suggests none, or if
/// there is no info.
fn tail_from<C: Controller>(
    ctl: &mut C,
    wanted: u16,
    tries: Tries,
) -> Result<Option<u16>, ReadError>
    requires { 1 ≤ wanted }
    ensures calls { (C.seen ctl.new).calls ≤ (C.seen ctl.old).calls + (tries.count + 1) }
    ensures asked { AsksAtMost 0 (C.seen ctl.old) (C.seen ctl.new) }
    ensures says { IfErr result (λ unread. LacksValue unread (C.seen ctl.new)) }
    ensures range { IfOk result IsFrom }
    ensures honest { IsHonest (C.seen ctl.old) →
        Finds (λ store start. start ≡ tail_from wanted (info_of Sel store)) (AtRecord 0 ∷ []) tries (C.seen ctl.old)
        (C.seen ctl.new) result }
{
    match read_info(ctl, Shelf::Sel, tries.count)? {
        Some(info) => Ok(id_in_run(wanted, Info::read(&info).record_count)),
        None => Ok(None),
    }
}

/// Whether these are the last `wanted` entries, after a walk that ended so. A cycle or a missing id shows that they are not; any
/// other failure is returned.
fn is_tail<'a>(
    wanted: u16,
    kept: &LastEntries,
    walked: Result<(), Failure<'a>>,
) -> Result<bool, Failure<'a>>
    ensures { result ≡ is_tail wanted (length kept.now.entries.items) walked.entry }
{
    match walked {
        Ok(()) => Ok(kept.count() == usize::from(wanted)),
        Err(Failure::Ended(Ended::Cycle(_) | Ended::Missing(_))) => Ok(false),
        Err(failure) => Err(failure),
    }
}

/// Lists the last `wanted` entries. They are printed when the walk is over that has them: the walk from the id that the
/// info of the event log suggests, or else the walk from the first entry.
pub(crate) fn list_tail<'a, F: Format, C: Controller, O: Sink>(
    alloc: Global,
    ctl: &mut C,
    limits: RequestLimits,
    format: &F,
    entries: EntryText<'a>,
    wanted: u16,
    out: &mut O,
    summary: &mut Summary,
) -> Result<(), Failure<'a>>
    requires { 1 ≤ wanted }
    ensures faults { O.faults out.new ≡ O.faults out.old + write_faults result }
    ensures asked { AsksAtMost limits.part (C.seen ctl.old) (C.seen ctl.new) }
    ensures runs { Runs (F.texts format.now) (Job.Tail entries.entry wanted) limits.tries
        (change (C.seen ctl.old) (C.seen ctl.new) (printed (O.taken out.old) summary.old) (printed (O.taken out.new) summary.new)) result }
{
    let Some(id) = tail_from(ctl, wanted, limits.tries())? else {
        return list_kept(
            alloc, ctl, limits, format, entries, wanted, None, out, summary,
        );
    };
    let mut kept = LastEntries::new(alloc, wanted);
    let walked = keep_entries(
        alloc,
        ctl,
        limits,
        format,
        &entries.selection,
        Some(id),
        &mut kept,
    );
    if is_tail(wanted, &kept, walked)? {
        return print_entries(alloc, format, &mut kept, &entries, out, summary);
    }
    list_kept(
        alloc, ctl, limits, format, entries, wanted, None, out, summary,
    )
}
