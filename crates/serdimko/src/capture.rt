//! Saves the contents of a live controller as an image.
ghost use Rattle.std.specs.Prelude.{◌≡◌, IfOk, map, MatchOption, OnErr, OnOk, Option, option_map, true};
ghost use Rattle.std.specs.List.{list_all};
ghost use Rattle.ipmi_capture.specs.Left.{IsStateOf, leaves_whole};
ghost use Rattle.ipmi_capture.specs.Lacks.{saved_of};
ghost use Rattle.ipmi_image.specs.Snapshot.{saved_text_of};
ghost use Rattle.ipmi_output.specs.Failure.{line_text};
ghost use Rattle.ipmi_output.specs.Received.{ReceivesText};
ghost use Rattle.ipmi_raw.specs.Controller.{last_words, seen_of};
ghost use Rattle.ipmi_raw.specs.Handed.{OnlyRequests};
ghost use Rattle.serdimko.specs.Captured.{Captures, EndsUnwritten, file_in, PrintsText, said_left, SavesImage, SavesText, SaysLines, SaysLost, status_of_image, WritesText};
ghost use Rattle.serdimko.specs.Out.{out_of};
ghost use Rattle.serdimko.specs.RunError.{no_reply_text};

use crate::closable::{Output, is_closed};
use crate::ending::write_flushed;
use crate::live::name_of;
use crate::run_error::{CLOSED, run_parts};
use ipmi_bus::Shelf;
use ipmi_capture::{Captured, Left, Progress, capture};
use ipmi_command_line::Word;
use ipmi_commands::RequestLimits;
use ipmi_image::{ImageFault, Snapshot, snapshot_text};
use ipmi_output::Part::{Escaped, Text};
use ipmi_output::{Failure, MessageSink, write_failure, write_message};
use ipmi_program::read_image;
use ipmi_raw::{Open, Peer, Piped, RawController, line_of_output};
use std::alloc::{AllocError, Global};
use std::fs::{self, File, Files};
use std::io::{self, ErrorKind, Write};
use std::time::Clock;

/// The exit status if the image is not whole.
const NOT_WHOLE: u8 = 1;

/// The exit status if a file can't be written.
pub(crate) const UNWRITTEN: u8 = 4;

/// Where an image is written.
#[derive(Clone, Copy)]
pub(crate) struct Target<'a> {
    /// The file; None is standard output.
    pub(crate) file: Option<&'a Word>,
    /// Whether an image that is not whole may replace a whole one.
    pub(crate) may_replace: bool,
}

/// Shows counts on a terminal; shows nothing without one.
#[derive(Drop)]
pub(crate) struct Counter<W> {
    terminal: Option<W>,
    records: u32,
    readings: u32,
    inventories: u32,
}

impl<W: Write> Counter<W> {
    /// Before the first item.
    pub(crate) fn new(terminal: Option<W>) -> Counter<W> {
        Counter {
            terminal,
            records: 0,
            readings: 0,
            inventories: 0,
        }
    }

    fn show(&mut self) {
        let (records, readings, inventories) = (self.records, self.readings, self.inventories);
        if let Some(terminal) = &mut self.terminal {
            // a failure to show progress is ignored
            let _ = write!(
                terminal,
                "\r{records} records, {readings} readings, {inventories} inventories"
            );
        }
    }

    /// Erases the line.
    fn clear(&mut self) {
        if let Some(terminal) = &mut self.terminal {
            let _ = terminal.write_all(b"\r\x1b[K");
        }
    }
}

impl<W: Write> Progress for Counter<W> {
    fn record(&mut self, _shelf: Shelf) {
        self.records = self.records.saturating_add(1);
        self.show();
    }

    fn reading(&mut self) {
        self.readings = self.readings.saturating_add(1);
        self.show();
    }

    fn inventory(&mut self) {
        self.inventories = self.inventories.saturating_add(1);
        self.show();
    }
}

/// Reports an item that is not in the image, after the name of the host, if that is known.
fn say_one<E: MessageSink>(
    alloc: Global,
    left: &Left,
    name: &str,
    is_unknown: bool,
    err: &mut E,
) -> Result<(), AllocError>
    ensures { OnOk result (ReceivesText (E.received err.old) (E.received err.new)
        (line_text (said_left is_unknown name.now left.now))) }
{
    let line = format!(in alloc; "{left}")?;
    // there is nowhere left to report that this failed
    let _ = write_message(err, &run_parts(Text(line.as_str()), name, is_unknown));
    Ok(())
}

/// Reports the items that are not in the image, one line each.
fn say_left<E: MessageSink>(
    alloc: Global,
    left: &[Left],
    name: &str,
    is_unknown: bool,
    err: &mut E,
) -> Result<(), AllocError>
    ensures { OnOk result (SaysLines (map (said_left is_unknown name.now) left.now) (E.received err.old) (E.received err.new)) }
{
    for left in left {
        say_one(alloc, left, name, is_unknown, err)?;
    }
    Ok(())
}

/// Reports that the connection was lost, with this line of the tool's last output.
fn say_lost<'a, E: MessageSink>(line: &'a str, name: &'a str, err: &mut E)
    ensures { ReceivesText (E.received err.old) (E.received err.new) (line_text (no_reply_text name.now line.now)) }
{
    let (name, line) = (Escaped(name), Escaped(line));
    // there is nowhere left to report that this failed
    let _ = write_message(err, &[Text("no reply from "), name, Text(": "), line]);
}

/// Writes the file in one step: writes another file, then renames it.
pub(crate) fn write_file<R: Files + AllocGlobal>(
    rt: &R,
    name: &str,
    text: &[u8],
) -> io::Result<()> {
    let partial = format!(in rt.alloc(); "{name}.part")?;
    let mut file = File::create(rt, partial.as_str())?;
    let written = file
        .write_all(text)
        .and_then(|()| fs::rename(rt, partial.as_str(), name));
    if written.is_err() {
        // it is not whole
        let _ = fs::remove_file(rt, partial.as_str());
    }
    written
}

/// The exit status after an image was written.
fn status_of_image(is_whole: bool) -> u8
    ensures { result ≡ status_of_image is_whole }
{
    if is_whole { 0 } else { NOT_WHOLE }
}

/// Reports that the output accepted no more, unless its reader closed it, and returns the exit status.
fn end_unwritten<E: MessageSink>(is_closed: bool, err: &mut E) -> u8
    ensures { EndsUnwritten is_closed (E.received err.old) (E.received err.new) result }
{
    if is_closed {
        return CLOSED;
    }
    // there is nowhere left to report that this failed
    let _ = write_failure(err, &Failure::WriteFault);
    UNWRITTEN
}

/// Writes the text of an image to the output, and returns the exit status.
fn print_text<W: Write + Drop, E: MessageSink>(
    text: &[u8],
    is_whole: bool,
    out: &mut Output<W>,
    err: &mut E,
) -> u8
    ensures { PrintsText is_whole text.now (out_of out.old) (out_of out.new) (E.received err.old) (E.received err.new) result }
{
    match write_flushed(out, text) {
        Ok(()) => status_of_image(is_whole),
        Err(_) => end_unwritten(is_closed(out), err),
    }
}

/// Whether the file is not there, or is known not to be a whole image.
fn is_no_whole_image<R: Files + AllocGlobal>(rt: &R, name: &str) -> bool {
    let file = match File::open(rt, name) {
        Ok(file) => file,
        Err(error) => return error.kind() == ErrorKind::NotFound,
    };
    match read_image(rt.alloc(), file) {
        Ok(bytes) => match Snapshot::read(rt.alloc(), bytes.as_slice()) {
            Ok(snapshot) => snapshot.is_partial(),
            Err(fault) => fault != ImageFault::Memory,
        },
        Err(_) => false,
    }
}

/// Writes the text of an image to a file, and returns the exit status. In place of a whole image it writes one that is not whole only
/// where it may replace it.
fn write_text<R: Files + AllocGlobal, E: MessageSink>(
    rt: &R,
    text: &[u8],
    is_whole: bool,
    may_replace: bool,
    name: &str,
    err: &mut E,
) -> u8
    ensures { WritesText is_whole may_replace name.now (E.received err.old) (E.received err.new) result }
{
    if !is_whole && !may_replace && !is_no_whole_image(rt, name) {
        let why = Text(" stays as it is, since this image is not whole: --partial replaces it");
        let _ = write_message(err, &[Escaped(name), why]);
        return NOT_WHOLE;
    }
    if write_file(rt, name, text).is_err() {
        let _ = write_message(err, &[Text("cannot write "), Escaped(name)]);
        return UNWRITTEN;
    }
    status_of_image(is_whole)
}

/// Writes the text of an image, and returns the exit status.
fn write_to<R: Files + AllocGlobal, W: Write + Drop, E: MessageSink>(
    rt: &R,
    text: &[u8],
    is_whole: bool,
    target: Target<'_>,
    out: &mut Output<W>,
    err: &mut E,
) -> u8
    ensures { SavesText (file_in target.entry) target.entry.may_replace is_whole text.now (out_of out.old) (out_of out.new)
        (E.received err.old) (E.received err.new) result }
{
    match target.file {
        None => print_text(text, is_whole, out, err),
        Some(file) => write_text(rt, text, is_whole, target.may_replace, file.as_str(), err),
    }
}

/// Writes the image with notes of the items left out, and returns the exit status.
fn write_captured<R: Files + AllocGlobal, W: Write + Drop, E: MessageSink>(
    rt: &R,
    captured: Captured,
    target: Target<'_>,
    out: &mut Output<W>,
    err: &mut E,
) -> Result<u8, AllocError>
    ensures saves { IfOk result (λ status. SavesText (file_in target.entry) target.entry.may_replace (list_all leaves_whole captured.left.items)
        (saved_text_of (saved_of captured.image captured.left.items)) (out_of out.old) (out_of out.new)
        (E.received err.old) (E.received err.new) status) }
    ensures err { OnErr result (out.new ≡ out.old) }
{
    let snapshot = captured.into_snapshot(rt.alloc())?;
    let is_whole = !snapshot.is_partial();
    let text = snapshot_text(rt.alloc(), &snapshot)?;
    let status = write_to(rt, text.as_slice(), is_whole, target, out, err);
    Ok(status)
}

/// Reports that the connection was lost, or the items left out and writes the image. Returns the exit status.
fn report_captured<R: Files + AllocGlobal, W: Write + Drop, E: MessageSink>(
    rt: &R,
    lost: Option<&[u8]>,
    captured: Captured,
    host: Option<&Word>,
    target: Target<'_>,
    out: &mut Output<W>,
    err: &mut E,
) -> Result<u8, AllocError>
    ensures { IfOk result (λ status. MatchOption (option_map (λ text. text.now) lost.entry)
        (SavesImage (option_map (λ name. name.now) host.entry) (file_in target.entry) target.entry.may_replace captured.image captured.left.items
        (out_of out.old) (out_of out.new) (E.received err.old) (E.received err.new) status)
        (λ text. SaysLost (option_map (λ name. name.now) host.entry) text (out_of out.old) (out_of out.new) (E.received err.old) (E.received err.new) status)) }
{
    let (name, is_unknown) = name_of(host);
    if let Some(text) = lost {
        let line = line_of_output(rt.alloc(), text)?;
        say_lost(line.as_str(), name, err);
        return Ok(NOT_WHOLE);
    }
    say_left(rt.alloc(), captured.left.as_slice(), name, is_unknown, err)?;
    write_captured(rt, captured, target, out, err)
}

/// Reads the contents of the live controller, writes them as an image, reports the items left out, and returns the exit status.
/// Through its peer a tool is handed only requests that read or take a reservation.
pub(crate) fn capture_live<
    R: Files + AllocGlobal,
    O: Open + Drop,
    K: Clock + Drop,
    T: Write + Drop,
    W: Write + Drop,
    E: MessageSink,
>(
    rt: &R,
    controller: &mut RawController<Piped<O>, K>,
    limits: RequestLimits,
    host: Option<&Word>,
    target: Target<'_>,
    counter: &mut Counter<T>,
    out: &mut Output<W>,
    err: &mut E,
) -> Result<u8, AllocError>
    requires { controller.old.silence.tries ≡ limits.tries.count }
    ensures captures { IfOk result (Captures (IsStateOf (seen_of {K = K} ⟦<Piped<O> as Peer>⟧.seen)) limits.part limits.tries.count
        (seen_of ⟦<Piped<O> as Peer>⟧.seen controller.old) (seen_of ⟦<Piped<O> as Peer>⟧.seen controller.new)
        (last_words controller.new) (option_map (λ name. name.now) host.entry) (file_in target.entry) target.entry.may_replace
        (out_of out.old) (out_of out.new) (E.received err.old) (E.received err.new)) }
    ensures requests { ∥ OnlyRequests O.opens controller.new.peer.tool controller.new.peer.is_lost controller.new.peer.units ∥₁ }
{
    let captured = capture(
        rt.alloc(),
        controller,
        limits.part(),
        limits.tries().count,
        counter,
    )?;
    counter.clear();
    report_captured(rt, controller.lost(), captured, host, target, out, err)
}
