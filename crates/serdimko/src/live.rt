//! Prints what a command asks for from a live controller. A stock tool holds a session with it, and pipes in a folder lead to the tool.
ghost use Rattle.std.specs.Prelude.{◌≡◌, ◌*◌, None, Some, IfOk, is_none, option_map, string_bytes};
ghost use Rattle.std.specs.Duration.{as_nanos};
ghost use Rattle.ipmi_image.specs.WithRecords.{machine_of};
ghost use Rattle.ipmi_raw.specs.Controller.{last_words};
ghost use Rattle.ipmi_raw.specs.Handed.{OnlyRequests};
ghost use Rattle.ipmi_raw.specs.Piped.{no_units};
ghost use Rattle.serdimko.specs.Live.{name_of, pipe_name, PrintsLive, tool_of};
ghost use Rattle.serdimko.specs.Out.{out_of, state};
ghost use Rattle.serdimko.specs.Columns.{Then};
ghost use Rattle.serdimko.specs.Printing.{Reports};
ghost use Rattle.serdimko.specs.Query.{PrintsQuery};
ghost use Rattle.serdimko.specs.Settings.{IsQuery};

use crate::closable::Output;
use crate::columns::print_columns;
use crate::driver::{Connection, Query, print_query};
use crate::outcome::Outcome;
use crate::report::{Report, Settings};
use crate::run_error::RunError;
use ipmi_bus::Controller;
use ipmi_command_line::{LiveTool, Word};
use ipmi_commands::RequestLimits;
use ipmi_image::WithRecords;
use ipmi_output::{Failure, MessageSink};
use ipmi_program::labels_of;
use ipmi_raw::{Open, Piped, RawController, Tool, line_of_output};
use std::alloc::{AllocError, Global};
use std::fs::{self, File, Files, OpenOptions};
use std::io::{self, BufReader, Write};
use std::time::{Clock, Duration};

/// The pause in milliseconds after a busy answer, before the next call.
const PAUSE: u64 = 500;

/// The tool of a live controller, and the folder of its pipes.
#[derive(Clone, Copy)]
pub(crate) struct Live<'a> {
    tool: Tool,
    folder: &'a str,
}

/// The name in messages of the controller of this host, if that is known, and whether it isn't.
pub(crate) fn name_of<'a>(host: Option<&'a Word>) -> (&'a str, bool)
    ensures name { result.0.now ≡ name_of (option_map (λ name. name.now) host.entry) }
    ensures unknown { result.1 ≡ is_none (option_map (λ name. name.now) host.entry) }
{
    match host {
        Some(host) => (host.as_str(), false),
        None => ("the controller", true),
    }
}

/// The dialect of a tool.
fn tool_of(tool: LiveTool) -> Tool
    ensures { result ≡ tool_of tool }
{
    match tool {
        LiveTool::Ipmitool => Tool::Ipmitool,
        LiveTool::FreeIpmi => Tool::FreeIpmi,
    }
}

impl<'a> Live<'a> {
    /// The controller of this tool, whose pipes are in this folder.
    pub(crate) fn new(tool: LiveTool, folder: &'a str) -> Live<'a>
        ensures tool { result.tool ≡ tool_of tool }
        ensures folder { result.folder.now ≡ folder.entry.now }
    {
        let tool = tool_of(tool);
        Live { tool, folder }
    }

    /// Whether its pipes are there: each tool is asked for logical unit 0.
    pub(crate) fn has_pipes<R: Files + AllocGlobal>(&self, rt: &R) -> Result<bool, AllocError> {
        let requests = format!(in rt.alloc(); "{}/requests.0", self.folder)?;
        // pipes that can't be examined can't be opened either
        Ok(fs::exists(rt, requests.as_str()).unwrap_or(false))
    }
}

/// The pipes of a folder: `requests.0` and `replies.0` lead to the tool for logical unit 0, and so on.
#[derive(Drop)]
pub(crate) struct Pipes<'a, R> {
    rt: &'a R,
    folder: &'a str,
}

/// The name of a pipe in the folder: `requests` or `replies`, and the logical unit.
fn pipe_name(alloc: Global, folder: &str, stream: &str, lun: u8) -> Result<String, AllocError>
    ensures { IfOk result (λ name. string_bytes name ≡ pipe_name folder.now stream.now lun) }
{
    format!(in alloc; "{folder}/{stream}.{lun}")
}

impl<'a, R: Files + AllocGlobal> Open for Pipes<'a, R> {
    type Replies = BufReader<R::File>;

    type Requests = R::File;

    ghost opens = { λ old new lun streams. new ≡ old };

    fn open(&mut self, lun: u8) -> io::Result<(BufReader<R::File>, R::File)> {
        let alloc = self.rt.alloc();
        let requests = pipe_name(alloc, self.folder, "requests", lun)?;
        let replies = pipe_name(alloc, self.folder, "replies", lun)?;
        // each waits until the tool's side opens the same pipe, in this order
        let requests = OpenOptions::new()
            .write(true)
            .open(self.rt, requests.as_str())?;
        let replies = BufReader::new(alloc, File::open(self.rt, replies.as_str())?)?;
        Ok((replies, requests))
    }
}

impl<O: Open + Drop, K: Clock + Drop> Connection for RawController<Piped<O>, K> {
    ghost lost = { λ controller. last_words controller };

    ghost only_requests = { λ controller. OnlyRequests O.opens controller.peer.tool controller.peer.is_lost controller.peer.units };

    fn last_line(&self, alloc: Global) -> Result<Option<String>, AllocError> {
        match self.lost() {
            Some(text) => Ok(Some(line_of_output(alloc, text)?)),
            None => Ok(None),
        }
    }

    fn asks_only(&self) {}
}

impl<O: Open + Drop, K: Clock + Drop> Connection for WithRecords<RawController<Piped<O>, K>> {
    ghost lost = { λ controller. last_words (machine_of controller) };

    ghost only_requests = { λ controller. ⟦<RawController<Piped<O>, K> as Connection>⟧.only_requests (machine_of controller) };

    fn last_line(&self, alloc: Global) -> Result<Option<String>, AllocError> {
        self.machine().last_line(alloc)
    }

    fn asks_only(&self) {
        self.machine().asks_only();
    }
}

/// The controller that the pipes lead to, of which each thing may have so many troubles. Nothing is opened or sent yet.
pub(crate) fn controller_of<'a, R: Files + Clock + AllocGlobal>(
    rt: &'a R,
    live: Live<'a>,
    tries: u8,
) -> RawController<Piped<Pipes<'a, R>>, &'a R>
    ensures lost { last_words result ≡ None }
    ensures tool { result.peer.tool ≡ live.entry.tool }
    ensures folder { result.peer.opener.folder.now ≡ live.entry.folder.now }
    ensures units { result.peer.units ≡ no_units }
    ensures pause { as_nanos result.pause ≡ PAUSE * 1_000_000 }
    ensures tries { result.silence.tries ≡ tries }
    ensures silent { result.silence.silent ≡ 0 }
{
    let Live { tool, folder } = live;
    let pause = Duration::from_millis(PAUSE);
    RawController::new(Piped::new(tool, Pipes { rt, folder }), rt, pause, tries)
}

/// Prints what the query asks for, unless there is an error: then reports that.
fn print_unless<C: Connection, W: Write + Drop, E: MessageSink>(
    error: Option<RunError<'_>>,
    alloc: Global,
    machine: &mut C,
    limits: RequestLimits,
    query: &Query,
    report: &Report<'_, '_>,
    out: &mut Output<W>,
    err: &mut E,
) -> Outcome
    requires { IsQuery query.now }
    ensures { let old = state (⟦<C as Controller>⟧.seen machine.old) (⟦<C as Connection>⟧.lost machine.old) (out_of out.old) in
        let new = state (⟦<C as Controller>⟧.seen machine.new) (⟦<C as Connection>⟧.lost machine.new) (out_of out.new) in
        Then error.entry (PrintsQuery limits query.now report.now old new (E.received err.old) (E.received err.new) result)
        (λ error. (new ≡ old) × Reports report.now (Some error) (E.received err.old) (E.received err.new) result) }
{
    match error {
        None => print_query(alloc, machine, limits, query, report, out, err),
        Some(error) => report.tell(&Some(error), err),
    }
}

/// Prints what the query asks for from the machine of this host. Its tools are handed only requests that read or take a reservation.
pub(crate) fn print_live<'a, C: Connection, W: Write + Drop, E: MessageSink>(
    alloc: Global,
    settings: &'a Settings,
    host: Option<&'a Word>,
    query: &Query,
    machine: &mut C,
    out: &mut Output<W>,
    err: &mut E,
) -> Outcome
    requires { IsQuery query.now }
    ensures prints { PrintsLive settings.now (option_map (λ name. name.now) host.entry) query.now
        (state (⟦<C as Controller>⟧.seen machine.old) (⟦<C as Connection>⟧.lost machine.old) (out_of out.old))
        (state (⟦<C as Controller>⟧.seen machine.new) (⟦<C as Connection>⟧.lost machine.new) (out_of out.new))
        (E.received err.old) (E.received err.new) result }
    ensures requests { ∥ ⟦<C as Connection>⟧.only_requests machine.new ∥₁ }
{
    let (name, is_unknown) = name_of(host);
    let Ok(labels) = labels_of(alloc, settings.labels(), None) else {
        machine.asks_only();
        let report = settings.report(&[], name, is_unknown);
        return report.tell(&Some(RunError::Failed(Failure::OutOfMemory)), err);
    };
    let report = settings.report(labels.as_slice(), name, is_unknown);
    let limits = settings.limits.retrying_parts();
    let error = print_columns(alloc, settings, query, None, out);
    let outcome = print_unless(error, alloc, machine, limits, query, &report, out, err);
    machine.asks_only();
    outcome
}
