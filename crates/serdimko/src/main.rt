//! Lists the contents of management controllers, live or saved as images: `ipmitool`'s commands `fru`, `sdr` and `sel`, with
//! help, and with messages that say what is wrong and where. It also saves a live controller as an image, and rewrites images.
#![tactic(auto)]

ghost use Rattle.std.specs.Prelude.{◌≤◌, IfSome};
ghost use Rattle.ipmi_command_line.specs.Request.{IsRequest};
ghost use Rattle.serdimko.specs.Settings.{IsQuery};

mod capture;
mod check;
mod closable;
mod columns;
mod driver;
mod ending;
mod help;
mod images;
mod live;
mod metrics;
mod mistake;
mod outcome;
mod reason;
mod report;
mod run_error;
mod since;

use capture::{Counter, Target, UNWRITTEN, capture_live, write_file};
use check::unknown_text;
use closable::{Closable, Output};
use driver::Query;
use help::{SHORT, VERSION, help_on};
use images::{ImageQuery, fail, image_of, print_images};
use ipmi_bus::Shelf;
use ipmi_check::{Detail, Verdict, text_without_memory};
use ipmi_command_line::{
    Action, Filters, Format, Limits, LiveTool, Request, Source, UsageError, UsageFault, Word,
    Words, request_of, takes_value,
};
use ipmi_commands::{LIVE_PART, Mark, RequestLimits, report};
use ipmi_image::WithRecords;
use ipmi_metrics::Dialect;
use ipmi_output::Part::{self, Escaped, Number, Text};
use ipmi_output::{Failure, MessageSink, Written, write_message};
use ipmi_program::{labels_of, read_image, read_input, read_words, wrong_label};
use live::{Live, controller_of, name_of, print_live};
use mistake::maybe_unquoted;
use outcome::Outcome;
use report::Settings;
use run_error::CLOSED;
use std::alloc::{AllocError, Global};
use std::env::{Env, FillError};
use std::fs::File;
use std::io::{self, BufWriter, ErrorKind, IsTerminal, Write};
use std::process::ExitCode;
use std::rt::Clock;
use std::time::SystemTime;

/// The exit status of an invalid command line.
const USAGE: u8 = 2;

/// Says that an image is read from a terminal.
const WAITING: &str =
    "waiting for an image from the terminal: write --image FILE to read a file, or use serdimko-live for a live machine";

/// The longest argument that is checked for UTF-8: 4096 bytes, as in a path.
const LONGEST_LOOKED_AT: usize = 4096;

fn main(rt: HostRuntime) -> ExitCode {
    let mut err = Written::new(rt.stderr());
    let status = match program(&rt, &mut err) {
        Ok(status) => status,
        Err(AllocError) if has_check(&rt) => print_unknown(&rt, Err(AllocError)),
        Err(AllocError) => report(Err(Failure::OutOfMemory), &mut err),
    };
    ExitCode::from(status)
}

/// Whether the command of this line is `check`, as far as a line shows that can't be read: its first word that is no option and no value
/// of one.
fn is_check(words: &Words) -> bool {
    let mut is_value = false;
    for word in words.as_slice().iter().skip(1) {
        let word = word.as_str();
        if is_value {
            is_value = false;
        } else if let Some(name) = word.strip_prefix("--") {
            is_value = takes_value(name);
        } else if !word.starts_with('-') {
            return word == "check";
        } else {
            is_value = word == "-o";
        }
    }
    false
}

/// Whether an argument is the word `check`: of a line whose words can't be read.
fn has_check<R: Env>(rt: &R) -> bool {
    let mut argument = *b"check";
    for place in 1..usize::MAX {
        match rt.arg(place, &mut argument) {
            Ok(len) if &argument[..len] == b"check".as_slice() => return true,
            Ok(_) | Err(FillError::TooLong) => {}
            Err(FillError::NotPresent) => break,
        }
    }
    false
}

/// Prints the text of a check that knows nothing, and returns its exit status.
fn print_unknown(rt: &HostRuntime, text: Result<Vec<u8>, AllocError>) -> u8 {
    let text = match &text {
        Ok(text) => text.as_slice(),
        Err(AllocError) => text_without_memory(Verdict::Unknown).as_bytes(),
    };
    // if this fails, the status still says it
    let _ = io::writer(rt).write_all(text);
    Verdict::Unknown.status()
}

/// Reports which argument is not UTF-8, counted from 1, unless it is too long to be checked, and returns the exit status.
fn refuse_argument<E: MessageSink>(rt: &HostRuntime, err: &mut E) -> u8 {
    let mut argument = [0; LONGEST_LOOKED_AT];
    for place in 1..usize::MAX {
        match rt.arg(place, &mut argument) {
            Ok(len) if str::from_utf8(&argument[..len]).is_err() => {
                let line = [Text("argument "), Number(place), Text(" is not UTF-8")];
                return refuse_line(rt, has_check(rt), &line, err);
            }
            Ok(_) | Err(FillError::TooLong) => {}
            Err(FillError::NotPresent) => break,
        }
    }
    let line = [Text("an argument is not UTF-8")];
    refuse_line(rt, has_check(rt), &line, err)
}

/// Reads the command line, runs it, and returns the exit status.
fn program<E: MessageSink>(rt: &HostRuntime, err: &mut E) -> Result<u8, AllocError> {
    match read_words(rt) {
        Ok(words) => run_line(rt, &words, err),
        Err(UsageFault::Memory) => Err(AllocError),
        Err(_) => Ok(refuse_argument(rt, err)),
    }
}

/// The seconds since 1970 by the host's clock.
fn clock<R: Clock>(rt: &R) -> Option<u32> {
    let now = SystemTime::now(rt).ok()?;
    let since = now.duration_since(SystemTime::UNIX_EPOCH).ok()?;
    u32::try_from(since.as_secs()).ok()
}

/// Runs a command line, unless it has no words and no image comes from standard input.
fn run_line<E: MessageSink>(
    rt: &HostRuntime,
    words: &Words,
    err: &mut E,
) -> Result<u8, AllocError> {
    if words.as_slice().len() < 2 && rt.stdin().is_terminal() {
        return Ok(refuse(&[Text(SHORT)], err));
    }
    let Some(clock) = clock(rt) else {
        let line = [Text("the clock can't be read")];
        return Ok(refuse_line(rt, is_check(words), &line, err));
    };
    match request_of(rt.alloc(), clock, words.as_slice()) {
        Ok(request) => run(rt, request, err),
        Err(UsageError::Memory) => Err(AllocError),
        Err(error) => {
            let text = format!(in rt.alloc(); "{error}")?;
            // what the user typed is escaped in it
            Ok(refuse_line(rt, is_check(words), &[Text(text.as_str())], err))
        }
    }
}

/// Does what a request asks for.
fn run<E: MessageSink>(rt: &HostRuntime, request: Request, err: &mut E) -> Result<u8, AllocError>
    requires { IsRequest request }
{
    let Request {
        action,
        filters,
        source,
        records,
        limits,
        format,
        strict,
    } = request;
    let records = records.as_ref();
    let settings = settings_of(limits, format, strict);
    let query = match action {
        Action::Help(topic) => {
            return print_text(rt, help_on(rt.alloc(), topic)?.as_str(), err);
        }
        Action::Version => return print_text(rt, VERSION, err),
        Action::Capture {
            output,
            quiet,
            partial,
        } => {
            let (file, may_replace) = (output.as_ref(), partial);
            let target = Target { file, may_replace };
            return run_capture(rt, &source, settings.limits, target, quiet, err);
        }
        Action::Rewrite => return run_rewrite(rt, &source, &settings, err),
        Action::Check { has_data } => {
            let query = Query::Check(filters, detail_of(has_data));
            return Ok(run_check(rt, &query, &source, records, &settings, err));
        }
        Action::Metrics { is_open, output } => {
            let query = Query::Metrics(filters, dialect_of(is_open));
            let file = output.as_ref();
            return run_metrics(rt, &query, &source, records, &settings, file, err);
        }
        Action::PrintNew(file) => {
            return run_since(rt, filters, &file, &source, records, &settings, err);
        }
        Action::Print(task, from) => Query::Print(task, from, filters),
        Action::PrintEach(tasks) => Query::Each(tasks),
        Action::GetSensors(names, from) => Query::Sensors(names, from),
    };
    run_query(rt, &query, &source, records, &settings, err)
}

/// What a check prints beside its verdict.
fn detail_of(has_data: bool) -> Detail {
    if has_data {
        Detail::PerformanceData
    } else {
        Detail::Plain
    }
}

/// The format of metrics.
fn dialect_of(is_open: bool) -> Dialect {
    if is_open {
        Dialect::OpenMetrics
    } else {
        Dialect::Prometheus
    }
}

fn settings_of(limits: Limits, format: Format, strict: bool) -> Settings
    requires { IfSome limits.part (λ n. (1 ≤ n) × (n ≤ 254)) }
{
    Settings {
        limits: RequestLimits::reading_ahead(limits.part.unwrap_or(LIVE_PART), limits.tries),
        format,
        strict,
    }
}

/// Prints what a query asks for, from each input.
fn run_query<E: MessageSink>(
    rt: &HostRuntime,
    query: &Query,
    source: &Source,
    records: Option<&Word>,
    settings: &Settings,
    err: &mut E,
) -> Result<u8, AllocError>
    requires { IsQuery query.now }
{
    let Some(outcome) = outcome_of(rt, query, source, records, settings, err)? else {
        return Ok(USAGE);
    };
    if let Query::Sensors(names, _) = query {
        advise(rt, outcome, names.as_slice(), err);
    }
    Ok(outcome.status)
}

/// Prints what a query asks for, from each input. None if the labels or the input are refused, which is reported.
fn outcome_of<E: MessageSink>(
    rt: &HostRuntime,
    query: &Query,
    source: &Source,
    records: Option<&Word>,
    settings: &Settings,
    err: &mut E,
) -> Result<Option<Outcome>, AllocError>
    requires { IsQuery query.now }
{
    if let Some(line) = wrong_label(rt.alloc(), settings.is_csv(), settings.labels())? {
        refuse(&line, err);
        return Ok(None);
    }
    tell_waiting(rt, source, err);
    let mut out = buffered_output(rt)?;
    let outcome = print_inputs(rt, query, source, records, settings, &mut out, err);
    discard(out);
    outcome
}

/// The mark in a cursor file; None: there is no file yet. Err is what is wrong with it.
fn mark_in(rt: &HostRuntime, name: &str) -> Result<Option<Mark>, &'static str> {
    let file = match File::open(rt, name) {
        Ok(file) => file,
        Err(error) => {
            return match error.kind() {
                ErrorKind::NotFound => Ok(None),
                _ => Err(" can't be read"),
            };
        }
    };
    let Ok(text) = read_image(rt.alloc(), file) else {
        return Err(" can't be read");
    };
    match Mark::read(text.as_slice()) {
        Some(mark) => Ok(Some(mark)),
        None => Err(" is no cursor file of serdimko: without it all entries are printed"),
    }
}

/// Prints the entries that earlier runs did not print, and then notes in the file where this run stopped. If not all could be printed,
/// or there was no change, the file stays as it is.
fn run_since<E: MessageSink>(
    rt: &HostRuntime,
    filters: Filters,
    file: &Word,
    source: &Source,
    records: Option<&Word>,
    settings: &Settings,
    err: &mut E,
) -> Result<u8, AllocError> {
    let mark = match mark_in(rt, file.as_str()) {
        Ok(mark) => mark,
        Err(what) => return Ok(refuse(&[Escaped(file.as_str()), Text(what)], err)),
    };
    let query = Query::New(filters, mark);
    let Some(outcome) = outcome_of(rt, &query, source, records, settings, err)? else {
        return Ok(USAGE);
    };
    match outcome.mark {
        Some(next) if mark != Some(next) => {
            let text = next.text(rt.alloc())?;
            Ok(save(rt, text.as_slice(), file, outcome.status, err))
        }
        _ => Ok(outcome.status),
    }
}

/// Checks the sensors, and always prints a verdict: what another command would report is the reason of UNKNOWN. Returns the exit status.
fn run_check<E: MessageSink>(
    rt: &HostRuntime,
    query: &Query,
    source: &Source,
    records: Option<&Word>,
    settings: &Settings,
    err: &mut E,
) -> u8
    requires { IsQuery query.now }
{
    tell_waiting(rt, source, err);
    let mut said = Vec::new(rt.alloc());
    let outcome = match buffered_output(rt) {
        Ok(mut out) => {
            let outcome = print_inputs(rt, query, source, records, settings, &mut out, &mut said);
            discard(out);
            outcome
        }
        Err(AllocError) => Err(AllocError),
    };
    match outcome {
        Ok(Some(outcome)) if outcome.has_verdict => {
            // that the records were read from the machine is no reason for the verdict
            if !said.is_empty() {
                let _ = err.offer(said.as_slice());
            }
            outcome.status
        }
        Ok(_) => print_unknown(rt, unknown_text(rt.alloc(), said.as_slice())),
        Err(AllocError) => print_unknown(rt, Err(AllocError)),
    }
}

/// Prints metrics, or writes them to a file in one step. The file stays as it is if there are none, as without an image.
fn run_metrics<E: MessageSink>(
    rt: &HostRuntime,
    query: &Query,
    source: &Source,
    records: Option<&Word>,
    settings: &Settings,
    file: Option<&Word>,
    err: &mut E,
) -> Result<u8, AllocError>
    requires { IsQuery query.now }
{
    let Some(file) = file else {
        return run_query(rt, query, source, records, settings, err);
    };
    tell_waiting(rt, source, err);
    let memory = Closable::new(Vec::new(rt.alloc()));
    let mut out = Written::new(BufWriter::new(rt.alloc(), memory).or(Err(AllocError))?);
    let outcome = print_inputs(rt, query, source, records, settings, &mut out, err);
    let (memory, _) = out.into_inner().into_parts();
    let text = memory.into_inner();
    match outcome? {
        Some(outcome) if text.is_empty() => Ok(outcome.status),
        Some(outcome) => Ok(save(rt, text.as_slice(), file, outcome.status, err)),
        None => Ok(USAGE),
    }
}

/// Writes a text to a file in one step, and returns this exit status, or another if that failed.
fn save<E: MessageSink>(rt: &HostRuntime, text: &[u8], file: &Word, status: u8, err: &mut E) -> u8 {
    if write_file(rt, file.as_str(), text).is_ok() {
        return status;
    }
    let _ = write_message(err, &[Text("cannot write "), Escaped(file.as_str())]);
    UNWRITTEN
}

/// Prints what a query asks for, from each input. None if there is no input, which is reported.
fn print_inputs<W: Write + Drop, E: MessageSink>(
    rt: &HostRuntime,
    query: &Query,
    source: &Source,
    records: Option<&Word>,
    settings: &Settings,
    out: &mut Output<W>,
    err: &mut E,
) -> Result<Option<Outcome>, AllocError>
    requires { IsQuery query.now }
{
    match source {
        Source::Images(images) => {
            let (query, images) = (ImageQuery::Print(query), images.as_slice());
            Ok(Some(print_images(rt, settings, query, images, out, err)))
        }
        Source::Live(tool, folder, host) => match live_of(rt, *tool, folder.as_str(), err)? {
            Some(live) => {
                let host = host.as_ref();
                let outcome = print_machine(rt, query, live, host, records, settings, out, err)?;
                Ok(Some(outcome))
            }
            None => Ok(None),
        },
    }
}

/// Prints each image in its canonical spelling.
fn run_rewrite<E: MessageSink>(
    rt: &HostRuntime,
    source: &Source,
    settings: &Settings,
    err: &mut E,
) -> Result<u8, AllocError> {
    tell_waiting(rt, source, err);
    match source {
        Source::Images(images) => {
            let mut out = buffered_output(rt)?;
            let (query, images) = (ImageQuery::Rewrite, images.as_slice());
            let outcome = print_images(rt, settings, query, images, &mut out, err);
            discard(out);
            Ok(outcome.status)
        }
        Source::Live(..) => Ok(refuse(&[Text("'image rewrite' needs an image")], err)),
    }
}

/// Says, where no sensor has one of the names, that the words may be one name.
fn advise<E: MessageSink>(rt: &HostRuntime, outcome: Outcome, names: &[Word], err: &mut E) {
    if !outcome.lacks_name {
        return;
    }
    // without memory there is no advice
    if let Ok(Some(line)) = maybe_unquoted(rt.alloc(), names) {
        let _ = write_message(err, &line);
    }
}

/// The live controller, unless its pipes are not there, which is reported.
fn live_of<'a, E: MessageSink>(
    rt: &HostRuntime,
    tool: LiveTool,
    folder: &'a str,
    err: &mut E,
) -> Result<Option<Live<'a>>, AllocError> {
    let live = Live::new(tool, folder);
    if live.has_pipes(rt)? {
        return Ok(Some(live));
    }
    let (before, after) = ("--live: cannot open the pipes in '", "': use serdimko-live");
    refuse(&[Text(before), Escaped(folder), Text(after)], err);
    Ok(None)
}

/// Saves the contents of a live controller.
fn run_capture<E: MessageSink>(
    rt: &HostRuntime,
    source: &Source,
    limits: RequestLimits,
    target: Target<'_>,
    quiet: bool,
    err: &mut E,
) -> Result<u8, AllocError> {
    let Source::Live(tool, folder, host) = source else {
        return Ok(refuse(&[Text("'capture' needs a live controller")], err));
    };
    let Some(live) = live_of(rt, *tool, folder.as_str(), err)? else {
        return Ok(USAGE);
    };
    let terminal = Some(rt.stderr()).filter(|stderr| !quiet && stderr.is_terminal());
    let mut counter = Counter::new(terminal);
    let mut controller = controller_of(rt, live, limits.tries().count);
    let mut out = buffered_output(rt)?;
    let status = capture_live(
        rt,
        &mut controller,
        limits,
        host.as_ref(),
        target,
        &mut counter,
        &mut out,
        err,
    );
    discard(out);
    status
}

/// Standard output, buffered.
fn buffered_output(rt: &HostRuntime) -> Result<Output<io::Printer<'_, HostRuntime>>, AllocError> {
    let writer = Closable::new(io::writer(rt));
    Ok(Written::new(BufWriter::new(rt.alloc(), writer).or(Err(AllocError))?))
}

/// Ends the output: bytes left by a failed flush are not written again.
fn discard<W: Write + Drop>(out: Output<W>) {
    let _ = out.into_inner().into_parts();
}

/// Prints what is asked for from the live controller, with the sensor data records of an image if one is named and has them.
fn print_machine<'a, W: Write + Drop, E: MessageSink>(
    rt: &HostRuntime,
    query: &Query,
    live: Live<'_>,
    host: Option<&'a Word>,
    records: Option<&'a Word>,
    settings: &'a Settings,
    out: &mut Output<W>,
    err: &mut E,
) -> Result<Outcome, AllocError>
    requires { IsQuery query.now }
{
    let alloc = rt.alloc();
    let mut machine = controller_of(rt, live, settings.limits.tries().count);
    let Some(file) = records else {
        return Ok(print_live(alloc, settings, host, query, &mut machine, out, err));
    };
    let labels = labels_of(alloc, settings.labels(), None)?;
    let report = settings.report(labels.as_slice(), file.as_str(), true);
    let image = match image_of(alloc, &read_input(rt, Some(file))) {
        Ok(snapshot) => snapshot.with_records(Shelf::Sdr),
        Err(error) => return Ok(fail(alloc, &report, error, out, err)),
    };
    let current = match image {
        Some(image) => WithRecords::of_current(image, machine, settings.limits.tries().count),
        None => Err(machine),
    };
    let mut machine = match current {
        Ok(mut machine) => {
            return Ok(print_live(alloc, settings, host, query, &mut machine, out, err));
        }
        Err(machine) => machine,
    };
    let line = [
        Escaped(file.as_str()),
        Text(" lacks sensor data records, or its info is not that of "),
        Escaped(name_of(host).0),
        Text(": they are read from there"),
    ];
    let _ = write_message(err, &line);
    Ok(print_live(alloc, settings, host, query, &mut machine, out, err))
}

/// Says that an image is read from a terminal, if it is.
fn tell_waiting<E: MessageSink>(rt: &HostRuntime, source: &Source, err: &mut E) {
    if let Source::Images(images) = source
        && images.as_slice().is_empty()
        && rt.stdin().is_terminal()
    {
        let _ = write_message(err, &[Text(WAITING)]);
    }
}

/// Reports what is wrong with the command line, for a check as its verdict, and returns the exit status.
fn refuse_line<E: MessageSink>(
    rt: &HostRuntime,
    is_check: bool,
    line: &[Part<'_>],
    err: &mut E,
) -> u8 {
    if !is_check {
        return refuse(line, err);
    }
    let mut said = Vec::new(rt.alloc());
    let text = match write_message(&mut said, line) {
        Ok(()) => unknown_text(rt.alloc(), said.as_slice()),
        Err(_) => Err(AllocError),
    };
    print_unknown(rt, text)
}

/// Reports what is wrong with the command line, and returns the exit status.
fn refuse<E: MessageSink>(line: &[Part<'_>], err: &mut E) -> u8 {
    // there is nowhere left to report that this failed
    let _ = write_message(err, line);
    USAGE
}

/// Prints a text on standard output, and returns the exit status.
fn print_text<E: MessageSink>(rt: &HostRuntime, text: &str, err: &mut E) -> Result<u8, AllocError> {
    Ok(match io::writer(rt).write_all(text.as_bytes()) {
        Ok(()) => 0,
        Err(error) if error.kind() == ErrorKind::BrokenPipe => CLOSED,
        Err(_) => report(Err(Failure::WriteFault), err),
    })
}
