//! Prints what a command asks for from each image, one after another.
ghost use Rattle.std.specs.Prelude.{◌≡◌, ◌+◌, ◌++◌, ◌==◌, [], false, if◌then◌else◌, MatchResult, None, OnErr, OnOk, option_map, Ok, Some, true};
ghost use Rattle.ipmi_output.specs.Sink.{TakesPart};
ghost use Rattle.ipmi_output.specs.Writer.{flush_faults};
ghost use Rattle.ipmi_program.specs.Input.{input_name};
ghost use Rattle.serdimko.specs.Images.{Fails, file_of, header, image_label, IsErrorOf, IsImageOf, IsImageQuery, PrintsEach, PrintsFile, PrintsFirst, PrintsImage, PrintsImages, PrintsInput, PrintsNamed, PrintsStore, Rewrites};
ghost use Rattle.serdimko.specs.Out.{out_of};

use crate::closable::{Output, is_closed};
use crate::columns::print_columns;
use crate::driver::{Query, print_query};
use crate::ending::{end_run, end_with};
use crate::outcome::Outcome;
use crate::report::{Report, Settings};
use crate::run_error::RunError;
use ipmi_command_line::Word;
use ipmi_commands::{RequestLimits, Summary, write_snapshot};
use ipmi_image::{ImageFault, Snapshot, SnapshotController, fault_cause};
use ipmi_output::Part::{Escaped, Text};
use ipmi_output::{Failure, MessageSink, SinkFault, write_message};
use ipmi_program::{InputFault, input_name, labels_of, read_input};
use std::alloc::{AllocError, Global};
use std::io::Write;

/// What is printed of each image.
#[derive(Clone, Copy)]
pub(crate) enum ImageQuery<'a> {
    /// What a query asks for.
    Print(&'a Query),
    /// The image, in its canonical spelling.
    Rewrite,
}

/// The file; None for `-`, which is standard input.
pub(crate) fn file_of(image: Option<&Word>) -> Option<&Word>
    ensures { option_map (λ file. file.now) result ≡ file_of (option_map (λ file. file.now) image.entry) }
{
    image.filter(|file| file.as_str() != "-")
}

/// Reports why nothing was printed, after the line at the end of objects.
pub(crate) fn fail<W: Write + Drop, E: MessageSink>(
    alloc: Global,
    report: &Report<'_, '_>,
    error: RunError<'_>,
    out: &mut Output<W>,
    err: &mut E,
) -> Outcome
    ensures { Fails report.now error.entry (out_of out.old) (out_of out.new) (E.received err.old) (E.received err.new) result }
{
    let last = end_with(alloc, report, 0, Some(error), out);
    report.tell(&last, err)
}

/// Prints the image in its canonical spelling.
fn rewrite<W: Write + Drop, E: MessageSink>(
    alloc: Global,
    image: &Snapshot,
    report: &Report<'_, '_>,
    out: &mut Output<W>,
    err: &mut E,
) -> Outcome
    ensures { Rewrites report.now image.now (out_of out.old) (out_of out.new) (E.received err.old) (E.received err.new) result }
{
    let mut summary = Summary::new();
    let ending = write_snapshot(alloc, image, out, &mut summary);
    let last = end_run(alloc, report, ending, Ok(None), &summary, out);
    report.tell(&last, err)
}

/// Prints what the query asks for from an image.
fn print_store<W: Write + Drop, E: MessageSink>(
    alloc: Global,
    limits: RequestLimits,
    query: ImageQuery<'_>,
    report: &Report<'_, '_>,
    image: Snapshot,
    out: &mut Output<W>,
    err: &mut E,
) -> Outcome
    requires { IsImageQuery query }
    ensures { PrintsStore limits query.entry report.now image (out_of out.old) (out_of out.new)
        (E.received err.old) (E.received err.new) result }
{
    let query = match query {
        ImageQuery::Rewrite => return rewrite(alloc, &image, report, out, err),
        ImageQuery::Print(query) => query,
    };
    let Ok(lacks) = Vec::from_slice(alloc, image.lacks()) else {
        return fail(
            alloc,
            report,
            RunError::Failed(Failure::OutOfMemory),
            out,
            err,
        );
    };
    let report = report.lacking(lacks.as_slice());
    let mut ctl = SnapshotController::new(image);
    ctl.keeps_its_store();
    let result = print_query(alloc, &mut ctl, limits, query, &report, out, err);
    ctl.keeps_its_store();
    drop(ctl);
    result
}

/// The image of an input. Err says why there is none.
pub(crate) fn image_of<'a>(
    alloc: Global,
    input: &Result<Vec<u8>, InputFault>,
) -> Result<Snapshot, RunError<'a>>
    ensures { MatchResult result (λ image. IsImageOf input.now image) (λ error. IsErrorOf input.now error) }
{
    let bytes = match input {
        Ok(bytes) => bytes.as_slice(),
        Err(fault) => return Err(RunError::unread(*fault)),
    };
    match Snapshot::read(alloc, bytes) {
        Ok(image) => Ok(image),
        Err(fault) => match fault_cause(alloc, bytes, fault) {
            Ok(cause) => Err(RunError::no_image(fault, cause)),
            Err(AllocError) => Err(RunError::no_image(ImageFault::Memory, None)),
        },
    }
}

/// Prints what the query asks for from the input, if that is an image.
fn print_input<W: Write + Drop, E: MessageSink>(
    alloc: Global,
    limits: RequestLimits,
    query: ImageQuery<'_>,
    report: &Report<'_, '_>,
    input: &Result<Vec<u8>, InputFault>,
    out: &mut Output<W>,
    err: &mut E,
) -> Outcome
    requires { IsImageQuery query }
    ensures { PrintsInput limits query.entry report.now input.now (out_of out.old) (out_of out.new)
        (E.received err.old) (E.received err.new) result }
{
    match image_of(alloc, input) {
        Ok(image) => print_store(alloc, limits, query, report, image, out, err),
        Err(error) => fail(alloc, report, error, out, err),
    }
}

/// The label with the name of one of several images.
fn image_label(is_only_input: bool, name: &str) -> Option<&str>
    ensures { option_map (λ name. name.now) result ≡ image_label is_only_input name.entry.now }
{
    if is_only_input { None } else { Some(name) }
}

/// Prints what the query asks for from the file, or from standard input.
fn print_named<W: Write + Drop, E: MessageSink>(
    rt: &HostRuntime,
    settings: &Settings,
    query: ImageQuery<'_>,
    file: Option<&Word>,
    is_only_input: bool,
    out: &mut Output<W>,
    err: &mut E,
) -> Outcome
    requires { IsImageQuery query }
    ensures { PrintsNamed settings.now query.entry (option_map (λ file. file.now) file.entry) is_only_input
        (out_of out.old) (out_of out.new) (E.received err.old) (E.received err.new) result }
{
    let alloc = rt.alloc();
    let name = input_name(file);
    let image = image_label(is_only_input, name);
    let Ok(labels) = labels_of(alloc, settings.labels(), image) else {
        let report = settings.report(&[], name, is_only_input);
        return report.tell(&Some(RunError::Failed(Failure::OutOfMemory)), err);
    };
    let report = settings.report(labels.as_slice(), name, is_only_input);
    let input = read_input(rt, file);
    print_input(alloc, settings.limits, query, &report, &input, out, err)
}

/// Prints `== NAME` before the texts of one of several images.
fn print_header<W: Write + Drop>(out: &mut Output<W>, name: &str) -> Result<(), SinkFault>
    ensures ok { OnOk result (((out_of out.new).taken ≡ (out_of out.old).taken ++ header name.now) × ((out_of out.new).held ≡ [])) }
    ensures err { OnErr result (TakesPart (out_of out.old).taken (out_of out.new).taken (header name.now)) }
    ensures faults { (out_of out.new).faults ≡ (out_of out.old).faults + flush_faults result }
{
    write_message(out, &[Text("== "), Escaped(name)])?;
    out.flush()
}

/// Prints the name of an image, and then what the query asks for.
fn print_headed<W: Write + Drop, E: MessageSink>(
    rt: &HostRuntime,
    settings: &Settings,
    query: ImageQuery<'_>,
    file: Option<&Word>,
    is_only_input: bool,
    out: &mut Output<W>,
    err: &mut E,
) -> Outcome
    requires { IsImageQuery query }
    ensures { PrintsFile true settings.now query.entry (option_map (λ file. file.now) file.entry) is_only_input
        (out_of out.old) (out_of out.new) (E.received err.old) (E.received err.new) result }
{
    let name = input_name(file);
    match print_header(out, name) {
        Ok(()) => print_named(rt, settings, query, file, is_only_input, out, err),
        Err(fault) => {
            let report = settings.report(&[], name, is_only_input);
            let error = RunError::of(Err(Failure::from(fault)), false, is_closed(out));
            report.tell(&error, err)
        }
    }
}

/// Prints what the query asks for from an image, after its name where texts of several are printed.
fn print_image<W: Write + Drop, E: MessageSink>(
    rt: &HostRuntime,
    settings: &Settings,
    query: ImageQuery<'_>,
    image: Option<&Word>,
    is_only_input: bool,
    out: &mut Output<W>,
    err: &mut E,
) -> Outcome
    requires { IsImageQuery query }
    ensures { PrintsImage settings.now query.entry is_only_input (option_map (λ image. image.now) image.entry)
        (out_of out.old) (out_of out.new) (E.received err.old) (E.received err.new) result }
{
    let file = file_of(image);
    if settings.is_headed(is_only_input) {
        return print_headed(rt, settings, query, file, is_only_input, out, err);
    }
    print_named(rt, settings, query, file, is_only_input, out, err)
}

/// Prints what the query asks for from each image, or from standard input if none is named; after a write fault nothing more.
fn print_each_image<W: Write + Drop, E: MessageSink>(
    rt: &HostRuntime,
    settings: &Settings,
    query: ImageQuery<'_>,
    images: &[Word],
    out: &mut Output<W>,
    err: &mut E,
) -> Outcome
    requires { IsImageQuery query }
    ensures { PrintsEach settings.now query.entry images.now (out_of out.old) (out_of out.new)
        (E.received err.old) (E.received err.new) result }
{
    if images.is_empty() {
        return print_image(rt, settings, query, None, true, out, err);
    }
    let is_only_input = images.len() == 1;
    let mut outcome = Outcome::of(&None);
    for image in images {
        let one = print_image(rt, settings, query, Some(image), is_only_input, out, err);
        outcome = outcome.and(one);
        if !one.is_output_open {
            return outcome;
        }
    }
    outcome
}

/// Prints the names of columns, if the output is CSV. Returns the error, if that failed.
fn print_first<'a, W: Write + Drop>(
    alloc: Global,
    settings: &Settings,
    query: ImageQuery<'_>,
    is_only_input: bool,
    out: &mut Output<W>,
) -> Option<RunError<'a>>
    ensures { PrintsFirst settings.now query.entry is_only_input (out_of out.old) (out_of out.new) result }
{
    match query {
        ImageQuery::Print(query) => {
            print_columns(alloc, settings, query, image_label(is_only_input, ""), out)
        }
        ImageQuery::Rewrite => None,
    }
}

/// Prints what the query asks for from each image, or from standard input if none is named; first the names of columns, if the
/// output is CSV.
pub(crate) fn print_images<W: Write + Drop, E: MessageSink>(
    rt: &HostRuntime,
    settings: &Settings,
    query: ImageQuery<'_>,
    images: &[Word],
    out: &mut Output<W>,
    err: &mut E,
) -> Outcome
    requires { IsImageQuery query }
    ensures { PrintsImages settings.now query.entry images.now (out_of out.old) (out_of out.new)
        (E.received err.old) (E.received err.new) result }
{
    match print_first(rt.alloc(), settings, query, images.len() < 2, out) {
        None => print_each_image(rt, settings, query, images, out, err),
        Some(error) => settings.report(&[], "", true).tell(&Some(error), err),
    }
}
