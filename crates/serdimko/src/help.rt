//! The output of `--help`, `help` and `--version`.
use ipmi_command_line::{COMMANDS, Topic};
use ipmi_text::SENSOR_TYPES;
use std::alloc::{AllocError, Global};

/// The version of this program, as in the file VERSION.
pub(crate) const VERSION: &str = "serdimko 0.3.0
proved with Rattle, logic dac8208d650f15bf
";

/// The message if there are no words and standard input is a terminal.
pub(crate) const SHORT: &str =
    "usage: serdimko [OPTIONS] COMMAND, for example: serdimko --image FILE sdr list
Commands: sdr, sensor, sel, fru, check, capture, image, help. More: serdimko --help";

/// The general help before the commands.
const BEFORE_COMMANDS: &str =
    "Prints what a management controller holds: sensors, event log and hardware
inventory. It reads a saved image, or asks a live controller (serdimko-live).

Usage: serdimko [OPTIONS] [COMMAND]

Commands (more on each: serdimko COMMAND --help):
";

/// The general help after the commands.
const AFTER_COMMANDS: &str = "
Options, anywhere, also after the command:
  --image FILE    the image is in this file; - or no option: standard input;
                  several: one after another, texts after a line '== FILE'
  --live TOOL:FOLDER  a live controller; serdimko-live gives this option
  --records IMAGE  with serdimko-live: sensor data records from this image, if
                  its info of them is the machine's
  --from HEX4     start at this record id, not 0000 or FFFF (sdr list, elist,
                  type, entity, hex, get; sensor; sel list, elist)
  --part N        ask for at most N bytes at once, 1 to 254 (default 64)
  --tries N       retries for one record or answer, 0 to 255 (default 5)
  --type TYPE     list only sensors of this type, a name or number (sdr type), or
                  events of such sensors
  --entity ID[.N]  list only what belongs to this entity
  --id HEX        the IDs of sel get or fru print in hex: 0001-0005,000a; in
                  listings, only records or events with these ids
  --exclude NAME  do not list records of this name; may come several times
  --since TIME    list only events at this time or later
  --until TIME    list only events at this time or earlier; TIME is
                  2026-11-30T12:00Z, or 2026-11-30, which is midnight in UTC,
                  or 2h or 3d, which is so long before --now
  --now TIME      this time in place of this computer's clock
  --worse warning|critical  list only events that are at least this bad
  --cursor-file FILE  sel list or elist prints the events after those of earlier
                  runs, which FILE remembers
  --strict        status 1 if a fault or a missing device was printed
  --json          an object in a line for each thing, and one at the end
  --csv           a line with the names of columns, and one for each thing
  --separator comma|semicolon  with --csv, the separator of values
  --label KEY=VALUE  with --json or --csv, a text in each object or line; may
                  come several times
  --output FILE   capture or metrics writes to this file (-o)
  --partial       capture replaces a whole image also by one that is not whole
  --quiet         capture shows no progress
  --perfdata      check adds performance data: values and ranges
  --openmetrics   metrics prints OpenMetrics
  -h, --help      print help
  -V, --version   print the version
  --              everything after this is a word

Examples:
  serdimko --image server.image sdr list
  serdimko --image server.image sel list last 20
  serdimko --image server.image fru print 0
  serdimko-live -I lanplus -H HOST -U USER -E -- sdr list
  serdimko-live -I lanplus -H HOST -U USER -E -- capture -o server.image

Exit status: 0 all was printed; 1 something is missing, or faulty (--strict);
2 the command line; 3 the image; 4 a write failed; 5 memory ran out;
141 the reader of the output closed it.
";

const SDR: &str = "Prints sensor data records.

  sdr list [KIND]      a line for each record: name, reading, status; also sdr
  sdr elist [KIND]     name, number, status, entity, reading
  sdr get NAME..       a block for each record of these names; quote a name with
                       spaces: sdr get 'CPU1 Temp' 'CPU2 Temp'
  sdr type TYPE        sdr elist of the sensors of this type, a name or number
  sdr type             the types of sensors
  sdr entity ID[.N]    sdr elist of the records of this entity
  sdr info             a summary of the repository
  sdr hex              each record as a line of an image

KIND is all, full, compact, event, generic, mclocator or fru; without it full
and compact records are listed, which are the sensors. --type TYPE,
--entity ID[.N], --id HEX[-HEX],.. and --exclude NAME list fewer of them: --type
and --entity leave out a record that can't be read, --exclude does not.
--from HEX4 starts at this record id, in the order of the next ids.
";

const SENSOR: &str = "Prints sensors in words.

  sensor list          a line for each sensor: name, number, entity, reading,
                       status, severity, thresholds from lower to upper; also
                       sensor
  sensor get NAME..    a block for each sensor of these names; quote a name with
                       spaces: sensor get 'CPU1 Temp' 'CPU2 Temp'

The thresholds are lnr, lcr, lnc, unc, ucr, unr: lower (l) or upper (u), and
non-recoverable (nr), critical (cr) or non-critical (nc); - where there is none.
The status is the worst that is passed, as unc; ok: none is, or there is none;
ns: none, or not captured; na: not a sensor of this controller. sdr list has no
l and u. The severity is that of the threshold or of the worst state: nominal,
warning or critical; -: no reading, or a state without words.
--type TYPE, --entity ID[.N], --id HEX[-HEX],.. and --exclude NAME list fewer
sensors.
--from HEX4 starts at this record id, in the order of the next ids.
";

const SEL: &str = "Prints the system event log.

  sel info              a summary of the log; also sel
  sel list              a line for each event, oldest first
  sel list [first] N    the N oldest
  sel list last N       the N newest
  sel elist ..          the same as sel list .., in words: the sensor's name, what
                        happened, the severity, and what the event's data say
  sel tail N            the N newest as in sel elist, without reading the whole
                        log: they begin where the log's info suggests, but if
                        there are not N from there on, this is sel elist last N
  sel get ID..          a block with all about each of these events
  sel get --id HEX      the same, by ids as sel list prints them: 0001-0005,000a

N is 0 to 65535, and 0 means all; sel tail takes no 0. ID is 1 to 65534. Both
are decimal, or 0x and four hex digits at most: 0016 is --id 0016, 0x16 or 22.
--from HEX4 starts at this record id, with sel list and sel elist.
--since TIME, --until TIME, --type TYPE, --id HEX[-HEX],.. and --worse SEVERITY
list fewer events; N counts only those. TIME is a date, 2026-11-30T12:00Z, or 2h
or 3d ago (before --now TIME). An event without a known time is left out by
--since and --until. SEVERITY is warning or critical: only events whose state is
at least this bad are listed, none that was deasserted, and neither OEM entries
nor events for which the standard has no words.
--cursor-file FILE prints the events after those that earlier runs with this
file printed, and then notes in it where this run stopped; of a log that was
cleared since, all. It goes with neither N, --from nor several images.
";

const FRU: &str = "Prints inventories of field replaceable units.

  fru print       that of device 0, and of each that a locator names; also fru
  fru print ID..  those of these devices; also fru print --id 00-05,0a
  fru list        a line for each of these devices: id, name, whether it is
                  present, and the product's name, part number and serial

ID is 0 to 254, decimal, or hex after 0x. --tries N counts for each part read.
With --strict the status is 1 if a fault is printed or a device not present.
";

const IMAGE: &str = "Prints the image as version 2, in a fixed order and spelling.

  image rewrite

Images with the same content give the same bytes.
";

const CHECK: &str =
    "Prints whether sensors are in trouble, in the form of monitoring plugins (Nagios,
Icinga): a line with the verdict, then a line for each sensor in trouble.

  serdimko-live -I lanplus -H HOST -U USER -E -- check
  serdimko --image FILE check --type fan

Status 0: OK. 1: WARNING, the worst sensor needs a look. 2: CRITICAL, a sensor
that was read needs help. 3: UNKNOWN, something was not read, a record can't be
judged, or there is no sensor; the line says why, also for a wrong command line.
Sensors without a reading, and those of other owners, are counted in the line.
--exclude NAME, --type, --entity and --id choose the sensors. --perfdata adds
the values of sensors with thresholds, and their ranges, after a bar.
";

const METRICS: &str = "Prints metrics of sensors and of the event log for Prometheus.

  serdimko-live -I lanplus -H HOST -U USER -E -- metrics -o FILE.prom
  serdimko --image FILE metrics --type fan

Each sensor has a value, as ipmi_temperature_celsius, and a state: 0 is nominal,
1 a warning, 2 critical, NaN not known. ipmi_up is 0 if not all sensors could be
asked; then, or if the log's info can't be read, the status is 1.
--openmetrics prints OpenMetrics. -o FILE writes another file and renames it.
--exclude NAME, --type, --entity and --id choose the sensors.
";

const CAPTURE: &str = "Saves what a live controller holds as an image: both repositories of records,
their infos, the readings of the sensors and the inventories that records name.

  serdimko-live -I lanplus -H HOST -U USER -E -- capture -o server.image

What the image lacks is said, and noted in it. If it lacks a record or the
bytes of an inventory, it is not whole: the status is 1, and -o replaces a
whole image only with --partial.
--tries N counts for each part of an inventory; --quiet shows no progress.
";

/// The general help, with a line for each command of the table.
fn general(alloc: Global) -> Result<String, AllocError> {
    let mut text = String::from_str(alloc, BEFORE_COMMANDS)?;
    for (.., help) in COMMANDS.iter() {
        text.push_str(help)?;
    }
    text.push_str(AFTER_COMMANDS)?;
    Ok(text)
}

/// The sensor types that have names, each with its number.
fn sensor_types(alloc: Global) -> Result<String, AllocError> {
    let mut text = String::new(alloc);
    for (place, name) in SENSOR_TYPES.iter().enumerate() {
        let code = place + 1;
        let line = format!(in alloc; "0x{code:02x}  {name}\n")?;
        text.push_str(line.as_str())?;
    }
    Ok(text)
}

/// The help text on a topic.
pub(crate) fn help_on(alloc: Global, topic: Topic) -> Result<String, AllocError> {
    String::from_str(
        alloc,
        match topic {
            Topic::General => return general(alloc),
            Topic::Sdr => SDR,
            Topic::Sensor => SENSOR,
            Topic::Sel => SEL,
            Topic::Fru => FRU,
            Topic::Check => CHECK,
            Topic::Metrics => METRICS,
            Topic::Capture => CAPTURE,
            Topic::Image => IMAGE,
            Topic::SensorTypes => return sensor_types(alloc),
        },
    )
}
