//! Prints the metrics of the sensors of a controller, and of its event log.
ghost use Rattle.std.specs.Prelude.{◌≡◌, Ok, is_ok, option_map, true};
ghost use Rattle.ipmi_metrics.specs.Metrics.{IsMetricsText};
ghost use Rattle.serdimko.specs.Metrics.{Measures, ReadsLog};
ghost use Rattle.serdimko.specs.Out.{out_of, state};
ghost use Rattle.serdimko.specs.Printing.{PrintsEnd};

use crate::closable::Output;
use crate::driver::Connection;
use crate::ending::write_last;
use crate::outcome::Outcome;
use crate::report::Report;
use crate::run_error::RunError;
use ipmi_bus::{Controller, Shelf, read_info};
use ipmi_command_line::Filters;
use ipmi_commands::RequestLimits;
use ipmi_metrics::{Dialect, metrics_text};
use ipmi_output::{Failure, MessageSink};
use ipmi_sensors::{FoundSensors, Sought, find_sensors};
use std::alloc::Global;
use std::io::Write;

/// What was read of the event log after a search for sensors, and the first failure.
#[derive(Drop)]
pub(crate) struct LogRead<'a> {
    /// The info of the log, if there is one and it was read.
    pub(crate) info: Option<[u8; 14]>,
    /// How the search ended, or else the reading of the info.
    pub(crate) ending: Result<(), Failure<'a>>,
}

/// Reads the info of the event log, unless the search for sensors failed.
fn read_log<'a, C: Controller>(
    ctl: &mut C,
    searched: Result<(), Failure<'a>>,
    tries: u8,
) -> LogRead<'a>
    ensures { ReadsLog searched.entry tries (C.seen ctl.old) (C.seen ctl.new) result }
{
    if searched.is_err() {
        let ending = searched;
        return LogRead { info: None, ending };
    }
    match read_info(ctl, Shelf::Sel, tries) {
        Ok(info) => LogRead {
            info,
            ending: Ok(()),
        },
        Err(ended) => LogRead {
            info: None,
            ending: Err(Failure::Ended(ended)),
        },
    }
}

/// Prints the metrics of what was found and of the log's info, after which the run ends with this error or without one. Returns the error,
/// or that of the output.
fn print_text<'a, W: Write + Drop>(
    alloc: Global,
    found: &FoundSensors,
    info: Option<&[u8; 14]>,
    is_up: bool,
    dialect: Dialect,
    error: Option<RunError<'a>>,
    out: &mut Output<W>,
) -> Option<RunError<'a>>
    ensures { PrintsEnd true (IsMetricsText found.now (option_map (λ info. info.now) info.entry) is_up dialect)
        (out_of out.old) (out_of out.new) error.entry result }
{
    let Ok(text) = metrics_text(alloc, found, info, is_up, dialect) else {
        return Some(RunError::Failed(Failure::OutOfMemory));
    };
    write_last(text.as_bytes(), error, out)
}

/// Finds the sensors that pass the filters in one walk, reads the info of the event log, and prints their metrics. After a search that
/// failed it prints those of what was found, and that not all could be asked.
pub(crate) fn print_metrics<C: Connection, W: Write + Drop, E: MessageSink>(
    alloc: Global,
    ctl: &mut C,
    limits: RequestLimits,
    filters: &Filters,
    dialect: Dialect,
    report: &Report<'_, '_>,
    out: &mut Output<W>,
    err: &mut E,
) -> Outcome
    ensures { Measures limits filters.now dialect report.now
        (state (C.seen ctl.old) (⟦<C as Connection>⟧.lost ctl.old) (out_of out.old))
        (state (C.seen ctl.new) (⟦<C as Connection>⟧.lost ctl.new) (out_of out.new))
        (E.received err.old) (E.received err.new) result }
{
    let mut found = FoundSensors::new(alloc);
    let sought = Sought::Sensors(filters);
    let searched = find_sensors(alloc, ctl, limits, sought, None, &mut found);
    let is_up = searched.is_ok();
    let LogRead { info, ending } = read_log(ctl, searched, limits.tries().count);
    let said = ctl.last_line(alloc);
    let error = RunError::of_connection(RunError::of(ending, false, false), said);
    let last = print_text(alloc, &found, info.as_ref(), is_up, dialect, error, out);
    report.tell(&last, err)
}
