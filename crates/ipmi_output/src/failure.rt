//! Why a run failed: the message and the exit status of each failure.
ghost use Rattle.std.specs.Prelude.{◌≡◌, Some};
ghost use Rattle.ipmi_output.specs.Failure.{ended_text, failure_of_image, failure_of_usage, failure_text, fault_line, fault_words, image_fault_text, inventory_text, message_text, status_of_failure};
ghost use Rattle.ipmi_output.specs.declared.failure.Failure.{Failure};

use crate::message::Message;
use crate::message::MessagePiece::{self, Byte, Number, Text, Word};
use crate::sink::SinkFault;
use ipmi_bus::{Ended, FruEnded};
use ipmi_command_line::UsageFault;
use ipmi_image::ImageFault;
use std::alloc::AllocError;
use std::error::Error;
use std::fmt;
use std::marker::Model;

/// A name given on the command line.
#[derive(Debug, Drop)]
pub struct RecordName<'a> {
    text: &'a str,
}

impl<'a> Model for RecordName<'a> {
    ghost use Rattle.std.specs.Prelude.{List, ℕ};

    ghost Value = { List ℕ };

    ghost view = { λ name. name.text.now };
}

impl<'a> RecordName<'a> {
    /// The name with this text.
    pub fn new(text: &'a str) -> RecordName<'a>
        ensures { result ≡ text.now }
    {
        RecordName { text }
    }

    /// Its text.
    pub fn as_str(&self) -> &'a str
        ensures { result.now ≡ self.now }
    {
        self.text
    }
}

/// Why a run failed. It displays as the program's message, without a line feed.
#[derive(Debug, Drop)]
pub enum Failure<'a> {
    /// The command line is invalid, or its command cannot be run over a controller.
    Usage,
    /// The input is not an image.
    Image(ImageFault),
    /// A record, a reading or an info was not read, for this reason.
    Ended(Ended),
    /// The inventory of the FRU device with this id was not read, for this reason.
    Inventory(u8, FruEnded),
    /// Everything was printed, but names of sensors may be missing: the sensor data records have a cycle at this id.
    NamesCycle(u16),
    /// Everything was printed, but names of sensors may be missing: a sensor data record has this next id, but no
    /// record has that id.
    NamesMissing(u16),
    /// No record has this name.
    NoName(RecordName<'a>),
    /// The controller has no such info.
    NoInfo,
    /// The output failed or accepted no more bytes.
    WriteFault,
    /// Out of memory.
    OutOfMemory,
}

impl<'a> Failure<'a> {
    /// The exit status: 1 if a record, a reading, an info or an inventory is missing or was not read, 2 for the
    /// command line, 3 for input that is not an image, 4 for the output, 5 if out of memory.
    pub fn status(&self) -> u8
        ensures { result ≡ status_of_failure self.now }
    {
        match self {
            Failure::OutOfMemory
            | Failure::Image(ImageFault::Memory)
            | Failure::Inventory(_, FruEnded::Memory) => 5,
            Failure::WriteFault => 4,
            Failure::Image(_) => 3,
            Failure::Usage => 2,
            Failure::Ended(_)
            | Failure::Inventory(_, _)
            | Failure::NamesCycle(_)
            | Failure::NamesMissing(_)
            | Failure::NoName(_)
            | Failure::NoInfo => 1,
        }
    }

    /// The message, in pieces.
    pub(crate) fn message(&self) -> Message<'a>
        ensures { message_text result ≡ failure_text self.now }
    {
        match self {
            Failure::Usage => text(
                "usage: ipmitool [--image FILE] [--from HEX4] [--part N] [--tries N] fru|sdr|sel WORDS",
            ),
            Failure::Image(fault) => of_image(*fault),
            Failure::Ended(ended) => of_record(*ended),
            Failure::Inventory(id, ended) => of_inventory(*id, *ended),
            Failure::NamesCycle(id) => {
                Message(
                    "names of sensors may be missing: sensor data records have a cycle at ",
                    Word(*id),
                    "",
                    NONE,
                )
            }
            Failure::NamesMissing(id) => {
                let before = "names of sensors may be missing: sensor data record ";
                Message(before, Word(*id), " not present", NONE)
            }
            Failure::NoName(name) => Message("no record named ", Text(name.as_str()), "", NONE),
            Failure::NoInfo => text("info not present"),
            Failure::WriteFault => text("write fault"),
            Failure::OutOfMemory => text("out of memory"),
        }
    }
}

impl<'a> fmt::Display for Failure<'a> {
    ghost output = { λ failure. Some (failure_text failure) };

    fn fmt<W: fmt::Write>(&self, f: &mut fmt::Formatter<W>) -> fmt::Result {
        let Message(before, subject, after, last) = self.message();
        write!(f, "{before}{subject}{after}{last}")
    }
}

impl<'a> Error for Failure<'a> {}

impl From<AllocError> for Failure<'_> {
    ghost from_gives = { λ _ failure. failure ≡ Failure.OutOfMemory };

    fn from(_error: AllocError) -> Self {
        Failure::OutOfMemory
    }
}

impl From<SinkFault> for Failure<'_> {
    ghost from_gives = { λ _ failure. failure ≡ Failure.WriteFault };

    fn from(_fault: SinkFault) -> Self {
        Failure::WriteFault
    }
}

impl From<Ended> for Failure<'_> {
    ghost from_gives = { λ ended failure. failure ≡ Failure.Ended ended };

    fn from(ended: Ended) -> Self {
        Failure::Ended(ended)
    }
}

impl From<ImageFault> for Failure<'_> {
    ghost from_gives = { λ fault failure. failure ≡ failure_of_image fault };

    fn from(fault: ImageFault) -> Self {
        if fault == ImageFault::Memory {
            return Failure::OutOfMemory;
        }
        Failure::Image(fault)
    }
}

impl From<UsageFault> for Failure<'_> {
    ghost from_gives = { λ fault failure. failure ≡ failure_of_usage fault };

    fn from(fault: UsageFault) -> Self {
        match fault {
            UsageFault::Memory => Failure::OutOfMemory,
            UsageFault::Line | UsageFault::Command | UsageFault::Option => Failure::Usage,
        }
    }
}

/// The empty piece.
const NONE: MessagePiece<'static> = Text("");

/// A message of one piece.
fn text<'a>(text: &'a str) -> Message<'a>
    ensures { message_text result ≡ text.now }
{
    Message(text, NONE, "", NONE)
}

/// Why a record, a reading or an info was not read.
fn of_record<'a>(ended: Ended) -> Message<'a>
    ensures { message_text result ≡ ended_text ended }
{
    match ended {
        Ended::Cycle(id) => Message("cycle at ", Word(id), "", NONE),
        Ended::Missing(id) => Message("record ", Word(id), " not present", NONE),
        Ended::Refused(id, code) => {
            Message("record ", Word(id), " refused with code ", Byte(code.0))
        }
        Ended::GaveUp(id) => Message("gave up at ", Word(id), "", NONE),
        Ended::Stalled(id) => Message("stalled at ", Word(id), "", NONE),
        Ended::Malformed(id) => Message("malformed record ", Word(id), "", NONE),
    }
}

/// Why the inventory of a device was not read.
fn of_inventory<'a>(id: u8, ended: FruEnded) -> Message<'a>
    ensures { message_text result ≡ inventory_text id ended }
{
    let id = Number(usize::from(id));
    match ended {
        FruEnded::Memory => text("out of memory"),
        FruEnded::Refused(code) => Message("fru ", id, " refused with code ", Byte(code.0)),
        FruEnded::GaveUp => Message("fru ", id, " gave up", NONE),
        FruEnded::Stalled => Message("fru ", id, " stalled", NONE),
        FruEnded::Words => Message("fru ", id, " uses words", NONE),
    }
}

/// The faulty line of an image, counted from 1. None if the fault is not in one line.
pub fn fault_line(fault: ImageFault) -> Option<usize>
    ensures { result ≡ fault_line fault }
{
    match fault {
        ImageFault::Line(line)
        | ImageFault::Hex(line)
        | ImageFault::Id(line)
        | ImageFault::Twice(line)
        | ImageFault::Length(line)
        | ImageFault::FirstId(line)
        | ImageFault::AfterEnd(line)
        | ImageFault::TooMany(line) => Some(line),
        ImageFault::Memory | ImageFault::Header | ImageFault::NoEnd => None,
    }
}

/// The fault of an image in words.
pub fn fault_words(fault: ImageFault) -> &'static str
    ensures { result.now ≡ fault_words fault }
{
    match fault {
        ImageFault::Memory => "out of memory",
        ImageFault::Header => "header",
        ImageFault::Line(_) => "not a line",
        ImageFault::Hex(_) => "hex",
        ImageFault::Id(_) => "id",
        ImageFault::Twice(_) => "twice",
        ImageFault::Length(_) => "length",
        ImageFault::FirstId(_) => "first id",
        ImageFault::NoEnd => "no end",
        ImageFault::AfterEnd(_) => "after end",
        ImageFault::TooMany(_) => "too many bytes",
    }
}

/// Why the input is not an image.
fn of_image<'a>(fault: ImageFault) -> Message<'a>
    ensures { message_text result ≡ image_fault_text fault }
{
    let words = Text(fault_words(fault));
    match fault_line(fault) {
        Some(line) => Message("image line ", Number(line), ": ", words),
        None if fault == ImageFault::Memory => Message("", words, "", NONE),
        None => Message("image: ", words, "", NONE),
    }
}
