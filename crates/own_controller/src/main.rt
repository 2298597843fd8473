//! An example program with its own controller. The controller has two records, the reading of the first one and an
//! inventory, all in memory and without an image. It returns at most eight bytes per call, and is busy at every third
//! call. The program uses the libraries to list the records, and to read one sensor as a number and the serial number of
//! the board. Another example of a controller is `RawController` of ipmi_raw.
#![tactic(auto)]

ghost use Rattle.std.specs.Prelude.{◌≡◌, ◌≤◌, MatchOption, length, drop};
ghost use Rattle.ipmi_bus.specs.Seen.{IsCall, failing_code};
ghost use Rattle.ipmi_bus.specs.Unclaimed.{calls_only};

use ipmi_bus::{
    Code, Controller, Cursor, Ended, Event, FruEnded, FruSize, NO_NEXT_ID, Part, Shelf, Tally,
    read_fru, read_reading,
};
use ipmi_command_line::{DEFAULT_PART, DEFAULT_TRIES, Kind, Task};
use ipmi_commands::{Job, RequestLimits, Summary, execute};
use ipmi_fru::{AreaFault, FruFault, FruView};
use ipmi_output::{Failure, Written};
use ipmi_plain::Plain;
use ipmi_records::SdrView;
use ipmi_text::{Factors, Fixed, Reading, convert, fru_text};
use std::alloc::{AllocError, Global};
use std::io;
use thiserror::Error;

/// A full sensor record: a temperature sensor with the name `Temp`.
const SENSOR: &[u8] =
    b"\x01\0\x51\x01\x2f\x20\0\x01\x07\x01\x7f\x44\x01\x01\x80\x02\x80\x32\x18\0\0\x01\0\0\x01\0\0\0\0\0\0\0\0\0\0\xff\0\0\x50\x46\0\0\0\0\0\0\0\xc4Temp";

/// A FRU device locator for device 0, with the name `Board`.
const LOCATOR: &[u8] = b"\x02\0\x51\x11\x10\x20\0\x80\0\0\x10\0\x07\x01\0\xc5Board";

/// An inventory: a header, and a board area with manufacturer, product and serial number.
const INVENTORY: &[u8] =
    b"\x01\0\0\x01\0\0\0\xfe\x01\x04\0\0\0\0\xc4ACME\xc2B1\xc7SN-0042\xc0\xc0\xc1\0\0\0\0\0\0\x50";

/// 40 degrees, in units of 10^-16.
const HOT: Fixed = Fixed(400_000_000_000_000_000);

/// The largest number of bytes in one answer.
const MOST: usize = 8;

/// The controller. It counts its calls, and does not claim to be honest.
#[derive(Drop)]
struct Board {
    tally: Tally,
    turn: u8,
}

impl Board {
    /// Counts a call for a part of `asked` bytes (0 if it is not for a part). Err if the board is busy.
    fn begin(&mut self, asked: u8) -> Result<(), Code>
        ensures counted { IsCall asked (calls_only self.old.tally.counts)
            (calls_only self.new.tally.counts) }
        ensures failure { self.new.tally.counts.last_failure ≡ failing_code result }
    {
        self.tally.count(Event::Called(asked));
        self.turn = self.turn.wrapping_add(1);
        if self.turn % 3 == 0 {
            return Err(self.tally.fail(Code::NODE_BUSY));
        }
        Ok(())
    }
}

/// Copies the bytes that start at the offset, as many as fit into `into`, but at most eight.
fn copy_part(bytes: &[u8], offset: usize, into: &mut [u8]) -> Option<u8>
    ensures { MatchOption result (into.new ≡ into.old)
        (λ got. (got ≤ length into.old) × (drop got into.new ≡ drop got into.old)) }
{
    let rest = bytes.get(offset..)?;
    let got = rest.len().min(into.len()).min(MOST);
    into[..got].copy_from_slice(&rest[..got]);
    Some(got as u8)
}

impl Controller for Board {
    ghost seen = { λ board. calls_only board.tally.counts };

    fn reserve(&mut self, _: Shelf) -> Result<u16, Code> {
        self.begin(0)?;
        Ok(1)
    }

    fn part(
        &mut self,
        shelf: Shelf,
        _: u16,
        id: u16,
        at: u8,
        into: &mut [u8],
    ) -> Result<Part, Code> {
        self.begin(into.len() as u8)?;
        let (next, record) = match (shelf, id) {
            (Shelf::Sdr, 0 | 1) => (2, SENSOR),
            (Shelf::Sdr, 2) => (NO_NEXT_ID, LOCATOR),
            _ => return Err(self.tally.fail(Code::NOT_PRESENT)),
        };
        match copy_part(record, usize::from(at), into) {
            Some(got) => Ok(Part { next, got }),
            None => Err(self.tally.fail(Code::OUT_OF_RANGE)),
        }
    }

    fn info(&mut self, _: Shelf) -> Result<[u8; 14], Code> {
        self.begin(0)?;
        Err(self.tally.fail(Code::NOT_PRESENT))
    }

    fn reading(&mut self, lun: u8, number: u8) -> Result<Reading, Code> {
        self.begin(0)?;
        if lun != 0 || number != 1 {
            return Err(self.tally.fail(Code::NOT_PRESENT));
        }
        Ok(Reading {
            raw: 45,
            flags: 0xC0,
            status: 0xC0,
            more: 0,
        })
    }

    fn fru_size(&mut self, id: u8) -> Result<FruSize, Code> {
        self.begin(0)?;
        if id != 0 {
            return Err(self.tally.fail(Code::NOT_PRESENT));
        }
        Ok(FruSize {
            size: INVENTORY.len() as u16,
            words: false,
        })
    }

    fn fru_part(&mut self, id: u8, at: u16, into: &mut [u8]) -> Result<u8, Code> {
        self.begin(into.len() as u8)?;
        if id != 0 {
            return Err(self.tally.fail(Code::NOT_PRESENT));
        }
        match copy_part(INVENTORY, usize::from(at), into) {
            Some(got) => Ok(got),
            None => Err(self.tally.fail(Code::OUT_OF_RANGE)),
        }
    }
}

/// Why reading a sensor failed.
#[derive(Clone, Copy, Debug, Error)]
enum SensorError {
    /// A record or the reading was not read.
    #[error("{0}")]
    Unread(#[from] Ended),
    /// No full sensor record has this name.
    #[error("no sensor has this name")]
    Unknown,
    /// The sensor has no reading now, or its record defines no value.
    #[error("the sensor has no value")]
    NoValue,
    /// Out of memory.
    #[error("memory ran out")]
    Memory(#[from] AllocError),
}

/// How to read a sensor: its LUN and number, and what converts its raw reading to a value.
#[derive(Clone, Copy)]
struct Conversion {
    lun: u8,
    number: u8,
    factors: Factors,
}

/// How to read the sensor of a full record with this name. None if the bytes are another record.
fn conversion_of(
    alloc: Global,
    bytes: &[u8],
    name: &str,
) -> Result<Option<Conversion>, AllocError> {
    let Ok(view) = SdrView::read(bytes) else {
        return Ok(None);
    };
    if view.name(alloc)?.as_deref() != Some(name) {
        return Ok(None);
    }
    match (&view, view.reading_of()) {
        (SdrView::Full(full), Some((lun, number))) => Ok(Some(Conversion {
            lun,
            number,
            factors: full.factors(),
        })),
        _ => Ok(None),
    }
}

/// The value of the sensor with this name.
fn value_named<C: Controller>(
    alloc: Global,
    ctl: &mut C,
    name: &str,
) -> Result<Fixed, SensorError> {
    let mut cursor = Cursor::start(alloc, Shelf::Sdr, None, DEFAULT_PART, DEFAULT_TRIES)?;
    // a walk has at most as many records as there are ids
    for _ in 0..=u16::MAX {
        let Some(record) = cursor.step(ctl)? else {
            break;
        };
        if let Some(found) = conversion_of(alloc, record.bytes, name)? {
            let reading = read_reading(ctl, record.id, found.lun, found.number, DEFAULT_TRIES)?;
            return value(reading, &found.factors);
        }
    }
    Err(SensorError::Unknown)
}

/// The value of an available reading.
fn value(reading: Option<Reading>, factors: &Factors) -> Result<Fixed, SensorError> {
    match reading {
        Some(reading) if reading.is_available() => {
            convert(factors, reading.raw).ok_or(SensorError::NoValue)
        }
        _ => Err(SensorError::NoValue),
    }
}

/// Why reading the serial number failed.
#[derive(Clone, Copy, Debug, Error)]
enum SerialError {
    /// The inventory was not read.
    #[error("the inventory was not read")]
    Unread(#[from] FruEnded),
    /// The bytes are not an inventory.
    #[error("the inventory has no valid header")]
    Header(#[from] FruFault),
    /// The board area is damaged.
    #[error("the board area is damaged")]
    Area(#[from] AreaFault),
    /// The inventory has no board area, or one without a serial number.
    #[error("the inventory has no serial number")]
    Missing,
    /// Out of memory.
    #[error("memory ran out")]
    Memory(#[from] AllocError),
}

/// The serial number of the board of device 0.
fn board_serial<C: Controller>(alloc: Global, ctl: &mut C) -> Result<String, SerialError> {
    let bytes = read_fru(alloc, ctl, 0, DEFAULT_PART, DEFAULT_TRIES)?;
    let board = FruView::read(&bytes)?.board().ok_or(SerialError::Missing)??;
    let serial = board.serial_number().ok_or(SerialError::Missing)?;
    Ok(fru_text(alloc, serial.code, board.language(), serial.bytes)?)
}

/// Prints why the listing is incomplete.
fn explain<R: Print>(rt: &R, failure: &Failure<'_>) -> io::Result<()> {
    match failure {
        Failure::Ended(Ended::GaveUp(id)) => {
            println!(rt; "The list ends early: the board stayed busy at record {id}.")
        }
        Failure::Ended(Ended::Missing(id)) => {
            println!(rt; "The list ends early: there is no record {id}.")
        }
        Failure::OutOfMemory => println!(rt; "The list ends early: memory ran out."),
        failure => println!(rt; "The list ends early: {failure}."),
    }
}

/// Lists all records, and then prints whether the board is hot, and the serial number.
fn program(rt: &HostRuntime) -> io::Result<()> {
    let mut ctl = Board {
        tally: Tally::new(),
        turn: 0,
    };
    let task = Task::List(Kind::All);
    // each task but `image rewrite` has a job
    let job = Job::of(&Plain, &task, None).unwrap();
    let limits = RequestLimits::new(DEFAULT_PART, DEFAULT_TRIES);
    let mut out = Written::new(io::writer(rt));
    let mut summary = Summary::new();
    if let Err(failure) = execute(
        rt.alloc(),
        &mut ctl,
        limits,
        &Plain,
        job,
        &mut out,
        &mut summary,
    ) {
        explain(rt, &failure)?;
    }
    match value_named(rt.alloc(), &mut ctl, "Temp") {
        Ok(value) if HOT.0 < value.0 => println!(rt; "Temp is above 40 degrees C")?,
        Ok(_) => println!(rt; "Temp is at most 40 degrees C")?,
        Err(error) => println!(rt; "No value of Temp: {error}")?,
    }
    match board_serial(rt.alloc(), &mut ctl) {
        Ok(serial) => println!(rt; "Board serial: {serial}"),
        Err(error) => println!(rt; "No board serial: {error}"),
    }
}

fn main(rt: HostRuntime) -> io::Result<()> {
    program(&rt)
}
