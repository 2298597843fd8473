//! Checks the sensors of a controller, and prints the verdict as plugins of monitoring systems do.
ghost use Rattle.std.specs.Prelude.{◌≡◌, ◌++◌, IfOk, option_map};
ghost use Rattle.ipmi_check.specs.Text.{IsCheckText};
ghost use Rattle.serdimko.specs.Out.{out_of, state};
ghost use Rattle.serdimko.specs.Printing.{Checks, message_of, PrintsVerdict, SaysVerdict};

use crate::closable::Output;
use crate::driver::Connection;
use crate::ending::{message_of, write_flushed};
use crate::outcome::Outcome;
use crate::report::Report;
use crate::run_error::RunError;
use ipmi_bus::Controller;
use ipmi_check::{Detail, Verdict, check_text, text_without_memory};
use ipmi_command_line::Filters;
use ipmi_commands::RequestLimits;
use ipmi_sensors::{FoundSensors, Sought, find_sensors};
use std::alloc::{AllocError, Global};
use std::io::Write;

/// The text of a check that found this, and failed with this error or with none.
fn text_of(
    alloc: Global,
    found: &FoundSensors,
    error: &Option<RunError<'_>>,
    detail: Detail,
    report: &Report<'_, '_>,
) -> Result<Vec<u8>, AllocError>
    ensures { IfOk result (λ text. IsCheckText report.now.format.lacks.now found.now (message_of report.now error.now) detail text.items) }
{
    let why = message_of(alloc, error, report)?;
    check_text(alloc, found, report.format.lacks, why.as_deref(), detail)
}

/// Prints the text of this verdict. Returns the exit status.
fn print<W: Write + Drop>(verdict: Verdict, text: &[u8], out: &mut Output<W>) -> u8
    ensures { SaysVerdict verdict text.now (out_of out.old) (out_of out.new) result }
{
    match write_flushed(out, text) {
        Ok(()) => verdict.status(),
        Err(_) => Verdict::Unknown.status(),
    }
}

/// Prints the verdict on what was found by a search that failed with this error or with none. Returns the exit status.
fn print_verdict<W: Write + Drop>(
    alloc: Global,
    found: &FoundSensors,
    error: &Option<RunError<'_>>,
    detail: Detail,
    report: &Report<'_, '_>,
    out: &mut Output<W>,
) -> u8
    ensures { PrintsVerdict report.now found.now error.now detail (out_of out.old) (out_of out.new) result }
{
    let lacks = report.format.lacks;
    match text_of(alloc, found, error, detail, report) {
        Ok(text) => print(
            Verdict::of(found, lacks, error.is_some()),
            text.as_slice(),
            out,
        ),
        Err(AllocError) => {
            let verdict = Verdict::of(found, lacks, true);
            print(verdict, text_without_memory(verdict).as_bytes(), out)
        }
    }
}

/// Finds the sensors that pass the filters in one walk, and prints the verdict on them.
pub(crate) fn check<C: Connection, W: Write + Drop>(
    alloc: Global,
    ctl: &mut C,
    limits: RequestLimits,
    filters: &Filters,
    detail: Detail,
    report: &Report<'_, '_>,
    out: &mut Output<W>,
) -> Outcome
    ensures { Checks limits filters.now detail report.now
        (state (C.seen ctl.old) (⟦<C as Connection>⟧.lost ctl.old) (out_of out.old))
        (state (C.seen ctl.new) (⟦<C as Connection>⟧.lost ctl.new) (out_of out.new)) result }
{
    let mut found = FoundSensors::new(alloc);
    let sought = Sought::Sensors(filters);
    let ending = find_sensors(alloc, ctl, limits, sought, None, &mut found);
    let said = ctl.last_line(alloc);
    let error = RunError::of_connection(RunError::of(ending, false, false), said);
    Outcome::of_verdict(print_verdict(alloc, &found, &error, detail, report, out))
}

/// The text of a check that could not begin, for the reason in the last of these lines.
pub(crate) fn unknown_text(alloc: Global, lines: &[u8]) -> Result<Vec<u8>, AllocError> {
    let text = String::from_utf8_lossy(alloc, lines)?;
    // nothing was said if memory ran out
    let why = text.lines().last().unwrap_or("out of memory");
    check_text(
        alloc,
        &FoundSensors::new(alloc),
        &[],
        Some(why),
        Detail::Plain,
    )
}
