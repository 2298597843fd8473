//! Prints what a command asks for from a controller, live or over an image, and reports how each run ended.
ghost use Rattle.std.specs.Prelude.{◌≡◌, ◌+◌, All, Err, IfSome, List, None, Ok, Option, option_map, ℕ, ⊤};
ghost use Rattle.serdimko.specs.Out.{out_of, state};
ghost use Rattle.ipmi_command_line.specs.Command.{IsTask};
ghost use Rattle.ipmi_bus.specs.Seen.{AsksAtMost};
ghost use Rattle.ipmi_commands.specs.Prelude.{change, IsFrom, IsJob, keeping_last, printed, RunsCommand};
ghost use Rattle.ipmi_output.specs.Failure.{write_faults};
ghost use Rattle.ipmi_raw.specs.LastWords.{IsLastLine};
ghost use Rattle.serdimko.specs.Query.{PrintsQuery};
ghost use Rattle.serdimko.specs.Settings.{IsQuery};
ghost use Rattle.serdimko.specs.Printing.{chosen_job, PrintsName, PrintsNames, PrintsSensors, PrintsTask, Each, PrintsBroken, RunsName, RunsTask, RunsThenEnds};

use crate::check::check;
use crate::closable::Output;
use crate::ending::end_run;
use crate::metrics::print_metrics;
use crate::outcome::Outcome;
use crate::report::Report;
use crate::run_error::RunError;
use crate::since::print_since;
use ipmi_bus::Controller;
use ipmi_check::Detail;
use ipmi_command_line::{Filters, Task, Tasks, Word, Words};
use ipmi_commands::{Format, Job, Mark, RequestLimits, Summary, execute};
use ipmi_image::SnapshotController;
use ipmi_metrics::Dialect;
use ipmi_output::{Failure, MessageSink, RecordName};
use ipmi_sensors::{FoundSensors, Sought, find_sensors, print_sensors};
use std::alloc::{AllocError, Global};
use std::io::Write;

/// A controller that may lose the connection to what it controls.
pub(crate) trait Connection: Controller {
    /// What its tool said at last, if the connection was lost.
    ghost lost: { Self → Option (List ℕ) };

    /// What its tools were handed are only requests that read or take a reservation.
    ghost only_requests: { Self → Type 0 };

    /// The same on a line.
    fn last_line(&self, alloc: Global) -> Result<Option<String>, AllocError>
        ensures { IsLastLine (lost self.now) result };

    /// Does nothing.
    fn asks_only(&self)
        ensures { ∥ only_requests self.now ∥₁ };
}

impl Connection for SnapshotController {
    ghost lost = { λ _. None };

    ghost only_requests = { λ _. ⊤ };

    fn last_line(&self, _alloc: Global) -> Result<Option<String>, AllocError> {
        Ok(None)
    }

    fn asks_only(&self) {}
}

/// What is printed of each image or controller.
#[derive(Drop)]
pub(crate) enum Query {
    /// What the task says, from this id on; of a listing, the records that pass the filters.
    Print(Task, Option<u16>, Filters),
    /// What each of these tasks says, one after another.
    Each(Tasks),
    /// The block of each sensor with one of these names, from this id on.
    Sensors(Words, Option<u16>),
    /// The verdict on the sensors that pass the filters, in this detail.
    Check(Filters, Detail),
    /// The metrics of the sensors that pass the filters, and of the event log.
    Metrics(Filters, Dialect),
    /// The entries of the event log that earlier runs did not print, the last of which left this mark; of these, those that pass the
    /// filters.
    New(Filters, Option<Mark>),
}

/// The job of the task, for the records that pass the filters, if any are given.
fn job_of<'a, F: Format>(
    format: &F,
    task: &'a Task,
    from: Option<u16>,
    filters: &'a Filters,
) -> Option<Job<'a>>
    requires task { IsTask task.now }
    requires from { IsFrom from }
    ensures value { result ≡ chosen_job (F.texts format.now) task.now from filters.now }
    ensures range { IfSome result (λ job. IsJob job) }
{
    match Job::of(format, task, from) {
        Some(job) if filters.are_given() => Some(job.choosing(filters)),
        other => other,
    }
}

/// Runs the job, which keeps last entries in memory. Without one, as for `image rewrite`, the run fails.
fn run_job<'a, F: Format, C: Controller, W: Write + Drop>(
    alloc: Global,
    ctl: &mut C,
    limits: RequestLimits,
    format: &F,
    job: Option<Job<'a>>,
    out: &mut Output<W>,
    summary: &mut Summary,
) -> Result<(), Failure<'a>>
    requires { IfSome job (λ job. IsJob job) }
    ensures faults { (out_of out.new).faults ≡ (out_of out.old).faults + write_faults result }
    ensures asked { AsksAtMost limits.part (C.seen ctl.old) (C.seen ctl.new) }
    ensures runs { RunsCommand (F.texts format.now) (option_map keeping_last job.entry) limits.tries (change (C.seen ctl.old) (C.seen ctl.new)
        (printed (out_of out.old).taken summary.old) (printed (out_of out.new).taken summary.new)) result }
{
    match job {
        Some(job) => execute(alloc, ctl, limits, format, job.keeping_last(), out, summary),
        None => Err(Failure::Usage),
    }
}

/// Prints what the task says. Returns why it did not finish, if it did not.
fn run_task<'a, C: Connection, W: Write + Drop>(
    alloc: Global,
    ctl: &mut C,
    limits: RequestLimits,
    task: &'a Task,
    from: Option<u16>,
    filters: &'a Filters,
    report: &Report<'_, '_>,
    out: &mut Output<W>,
) -> Option<RunError<'a>>
    requires task { IsTask task.now }
    requires from { IsFrom from }
    ensures { PrintsTask limits task.now from filters.now report.now
        (state (C.seen ctl.old) (⟦<C as Connection>⟧.lost ctl.old) (out_of out.old))
        (state (C.seen ctl.new) (⟦<C as Connection>⟧.lost ctl.new) (out_of out.new)) result }
{
    let mut summary = Summary::new();
    let job = job_of(&report.format, task, from, filters);
    let ending = run_job(alloc, ctl, limits, &report.format, job, out, &mut summary);
    let said = ctl.last_line(alloc);
    end_run(alloc, report, ending, said, &summary, out)
}

/// Prints what each of these tasks says, and reports how each run ended. After an error that the next run would meet too, nothing
/// more.
fn print_each_task<C: Connection, W: Write + Drop, E: MessageSink>(
    alloc: Global,
    ctl: &mut C,
    limits: RequestLimits,
    tasks: &[Task],
    report: &Report<'_, '_>,
    out: &mut Output<W>,
    err: &mut E,
) -> Outcome
    requires { All IsTask tasks.now }
    ensures { Each (RunsTask limits report.now) tasks.now
        (state (C.seen ctl.old) (⟦<C as Connection>⟧.lost ctl.old) (out_of out.old))
        (state (C.seen ctl.new) (⟦<C as Connection>⟧.lost ctl.new) (out_of out.new))
        (E.received err.old) (E.received err.new) result }
{
    let filters = Filters::new(alloc);
    let mut outcome = Outcome::of(&None);
    for task in tasks {
        let error = run_task(alloc, ctl, limits, task, None, &filters, report, out);
        let told = report.tell(&error, err);
        outcome = outcome.and(told);
        if !RunError::is_recoverable(&error) {
            return outcome;
        }
    }
    outcome
}

/// Prints the blocks of the found sensors with this name. Returns why it did not, also if there is none.
fn run_name<'a, W: Write + Drop>(
    alloc: Global,
    found: &FoundSensors,
    name: &'a str,
    report: &Report<'_, '_>,
    out: &mut Output<W>,
) -> Option<RunError<'a>>
    ensures { RunsThenEnds report.now (PrintsName report.now found.now name.entry.now) (Ok None)
        (out_of out.old) (out_of out.new) result }
{
    let mut summary = Summary::new();
    let ending = match print_sensors(alloc, found, name, &report.format, out, &mut summary) {
        Ok(()) if summary.pieces() == 0 => Err(Failure::NoName(RecordName::new(name))),
        ending => ending,
    };
    end_run(alloc, report, ending, Ok(None), &summary, out)
}

/// Prints the blocks of each name in turn, and reports each that no sensor has.
fn print_each_name<W: Write + Drop, E: MessageSink>(
    alloc: Global,
    found: &FoundSensors,
    names: &[Word],
    report: &Report<'_, '_>,
    out: &mut Output<W>,
    err: &mut E,
) -> Outcome
    ensures { Each (RunsName report.now found.now) names.now (out_of out.old) (out_of out.new)
        (E.received err.old) (E.received err.new) result }
{
    let mut outcome = Outcome::of(&None);
    for name in names {
        let error = run_name(alloc, found, name.as_str(), report, out);
        outcome = outcome.and(report.tell(&error, err));
        if !RunError::is_recoverable(&error) {
            return outcome;
        }
    }
    outcome
}

/// Prints the blocks of each name.
fn print_names<'a, W: Write + Drop>(
    alloc: Global,
    found: &FoundSensors,
    names: &[Word],
    report: &Report<'_, '_>,
    out: &mut Output<W>,
    summary: &mut Summary,
) -> Result<(), Failure<'a>>
    ensures faults { (out_of out.new).faults ≡ (out_of out.old).faults + write_faults result }
    ensures prints { PrintsNames report.now found.now names.now
        (printed (out_of out.old).taken summary.old) (printed (out_of out.new).taken summary.new) result }
{
    for name in names {
        match print_sensors(alloc, found, name.as_str(), &report.format, out, summary) {
            Ok(()) => {}
            Err(failure) => return Err(failure),
        }
    }
    Ok(())
}

/// Prints the blocks of each name after a search that ended with this failure. Returns why the run did not finish.
fn run_broken<'a, W: Write + Drop>(
    alloc: Global,
    found: &FoundSensors,
    names: &[Word],
    failure: Failure<'a>,
    said: Result<Option<String>, AllocError>,
    report: &Report<'_, '_>,
    out: &mut Output<W>,
) -> Option<RunError<'a>>
    requires { write_faults (Err failure) ≡ 0 }
    ensures { RunsThenEnds report.now (PrintsBroken report.now found.now names.now failure.entry) said
        (out_of out.old) (out_of out.new) result }
{
    let mut summary = Summary::new();
    let ending = match print_names(alloc, found, names, report, out, &mut summary) {
        Ok(()) => Err(failure),
        Err(other) => Err(other),
    };
    end_run(alloc, report, ending, said, &summary, out)
}

/// Finds the sensors with these names in one walk, and prints their blocks in the order of the names.
fn print_by_name<C: Connection, W: Write + Drop, E: MessageSink>(
    alloc: Global,
    ctl: &mut C,
    limits: RequestLimits,
    names: &[Word],
    from: Option<u16>,
    report: &Report<'_, '_>,
    out: &mut Output<W>,
    err: &mut E,
) -> Outcome
    requires { IsFrom from }
    ensures { PrintsSensors limits names.now from report.now
        (state (C.seen ctl.old) (⟦<C as Connection>⟧.lost ctl.old) (out_of out.old))
        (state (C.seen ctl.new) (⟦<C as Connection>⟧.lost ctl.new) (out_of out.new))
        (E.received err.old) (E.received err.new) result }
{
    let mut found = FoundSensors::new(alloc);
    match find_sensors(alloc, ctl, limits, Sought::Named(names), from, &mut found) {
        Ok(()) => print_each_name(alloc, &found, names, report, out, err),
        Err(failure) => {
            let said = ctl.last_line(alloc);
            let error = run_broken(alloc, &found, names, failure, said, report, out);
            report.tell(&error, err)
        }
    }
}

/// Prints what the query asks for from the controller, and reports how each run ended.
pub(crate) fn print_query<C: Connection, W: Write + Drop, E: MessageSink>(
    alloc: Global,
    ctl: &mut C,
    limits: RequestLimits,
    query: &Query,
    report: &Report<'_, '_>,
    out: &mut Output<W>,
    err: &mut E,
) -> Outcome
    requires { IsQuery query.now }
    ensures { PrintsQuery limits query.now report.now
        (state (C.seen ctl.old) (⟦<C as Connection>⟧.lost ctl.old) (out_of out.old))
        (state (C.seen ctl.new) (⟦<C as Connection>⟧.lost ctl.new) (out_of out.new))
        (E.received err.old) (E.received err.new) result }
{
    match query {
        Query::Print(task, from, filters) => {
            let error = run_task(alloc, ctl, limits, task, *from, filters, report, out);
            report.tell(&error, err)
        }
        Query::Each(tasks) => {
            print_each_task(alloc, ctl, limits, tasks.as_slice(), report, out, err)
        }
        Query::Sensors(names, from) => {
            let names = names.as_slice();
            print_by_name(alloc, ctl, limits, names, *from, report, out, err)
        }
        Query::Check(filters, detail) => {
            check(alloc, ctl, limits, filters, *detail, report, out)
        }
        Query::Metrics(filters, dialect) => {
            print_metrics(alloc, ctl, limits, filters, *dialect, report, out, err)
        }
        Query::New(filters, mark) => {
            print_since(alloc, ctl, limits, filters, *mark, report, out, err)
        }
    }
}
