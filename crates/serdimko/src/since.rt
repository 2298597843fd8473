//! Prints the entries of the event log that earlier runs did not print.
ghost use Rattle.std.specs.Prelude.{◌≡◌, Err, MatchResult};
ghost use Rattle.ipmi_output.specs.Failure.{write_faults};
ghost use Rattle.ipmi_output.specs.Received.{ReceivesText};
ghost use Rattle.serdimko.specs.Out.{out_of, state};
ghost use Rattle.serdimko.specs.Since.{is_printed, mark_left, PrintsEntries, PrintsFailure, PrintsSince, said_of, selection_of};

use crate::closable::Output;
use crate::driver::Connection;
use crate::ending::end_run;
use crate::outcome::Outcome;
use crate::report::Report;
use crate::run_error::RunError;
use ipmi_bus::Controller;
use ipmi_command_line::Filters;
use ipmi_commands::{Continuity, Mark, NewEntries, RequestLimits, Summary, new_entries, print_new};
use ipmi_output::Part::Text;
use ipmi_output::{Failure, MessageSink, write_message};
use ipmi_selection::{Detail, EntrySelection};
use std::alloc::Global;
use std::io::Write;

/// Whether all texts of a run with this error, or without one, were printed and flushed; at most names are missing in them.
fn is_printed(error: &Option<RunError<'_>>) -> bool
    ensures { result ≡ is_printed error.now }
{
    match error {
        None | Some(RunError::Failed(Failure::NamesCycle(_) | Failure::NamesMissing(_))) => true,
        Some(_) => false,
    }
}

/// The mark that a run with this error, or without one, leaves.
fn mark_left(error: &Option<RunError<'_>>, mark: Mark) -> Option<Mark>
    ensures { result ≡ mark_left error.now mark }
{
    if is_printed(error) { Some(mark) } else { None }
}

/// The entries that pass the filters, each in a line.
fn selection_of(filters: &Filters) -> EntrySelection<'_>
    ensures { result ≡ selection_of filters.now }
{
    EntrySelection::in_detail(Detail::Line).with_filters(filters)
}

/// Says it if the entries do not follow those of earlier runs.
fn say_restarted<E: MessageSink>(continuity: Continuity, err: &mut E)
    ensures { ReceivesText (E.received err.old) (E.received err.new) (said_of continuity) }
{
    match continuity {
        Continuity::Restarted => {
            // there is nowhere left to report that this failed
            let _ = write_message(
                err,
                &[Text("the event log was cleared or overwritten: all its entries are printed")],
            );
        }
        Continuity::Started | Continuity::Continued | Continuity::Unchanged => {}
    }
}

/// Prints the new entries that pass the filters. Returns why the run did not finish, if it did not.
fn run_entries<'a, C: Connection, W: Write + Drop>(
    alloc: Global,
    ctl: &mut C,
    limits: RequestLimits,
    filters: &Filters,
    new: NewEntries,
    report: &Report<'_, '_>,
    out: &mut Output<W>,
) -> Option<RunError<'a>>
    ensures { PrintsEntries limits filters.now new report.now
        (state (C.seen ctl.old) (⟦<C as Connection>⟧.lost ctl.old) (out_of out.old))
        (state (C.seen ctl.new) (⟦<C as Connection>⟧.lost ctl.new) (out_of out.new)) result }
{
    let mut summary = Summary::new();
    let selection = selection_of(filters);
    let ending = print_new(
        alloc,
        ctl,
        limits,
        &report.format,
        selection,
        new,
        out,
        &mut summary,
    );
    let said = ctl.last_line(alloc);
    end_run(alloc, report, ending, said, &summary, out)
}

/// Ends a run that did not find the new entries. Returns why it did not finish.
fn run_failure<'a, C: Connection, W: Write + Drop>(
    alloc: Global,
    ctl: &mut C,
    failure: Failure<'a>,
    report: &Report<'_, '_>,
    out: &mut Output<W>,
) -> Option<RunError<'a>>
    requires { write_faults (Err failure) ≡ 0 }
    ensures { PrintsFailure failure.entry report.now
        (state (C.seen ctl.old) (⟦<C as Connection>⟧.lost ctl.old) (out_of out.old))
        (state (C.seen ctl.new) (⟦<C as Connection>⟧.lost ctl.new) (out_of out.new)) result }
{
    let summary = Summary::new();
    let said = ctl.last_line(alloc);
    end_run(alloc, report, Err(failure), said, &summary, out)
}

/// Finds the entries that earlier runs did not print, the last of which left this mark, and prints those that pass the filters. The
/// outcome has the mark of this run if all of them were printed.
pub(crate) fn print_since<C: Connection, W: Write + Drop, E: MessageSink>(
    alloc: Global,
    ctl: &mut C,
    limits: RequestLimits,
    filters: &Filters,
    mark: Option<Mark>,
    report: &Report<'_, '_>,
    out: &mut Output<W>,
    err: &mut E,
) -> Outcome
    ensures { PrintsSince limits filters.now mark report.now
        (state (C.seen ctl.old) (⟦<C as Connection>⟧.lost ctl.old) (out_of out.old))
        (state (C.seen ctl.new) (⟦<C as Connection>⟧.lost ctl.new) (out_of out.new))
        (E.received err.old) (E.received err.new) result }
{
    match new_entries(alloc, ctl, limits, &report.format, mark) {
        Ok(new) => {
            say_restarted(new.continuity(), err);
            let next = new.mark();
            let last = run_entries(alloc, ctl, limits, filters, new, report, out);
            let left = mark_left(&last, next);
            report.tell(&last, err).marked(left)
        }
        Err(failure) => {
            let last = run_failure(alloc, ctl, failure, report, out);
            report.tell(&last, err)
        }
    }
}
