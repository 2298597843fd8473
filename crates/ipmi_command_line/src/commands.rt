//! The table of commands. What is read, suggested and printed as help comes from it.
ghost use Rattle.std.specs.Prelude.{◌≡◌, map, option_map};
ghost use Rattle.ipmi_command_line.specs.Commands.{begins_with, row_among, row_of, row_state, texts};

/// What a command does.
#[derive(Clone, Copy, Debug, PartialEq, Eq)]
pub enum Verb {
    /// The task that its words name, as in the reference program.
    Task,
    /// The blocks of the records with these names.
    GetRecords,
    /// The blocks of entries, whose ids are words, or the value of `--id`.
    GetEntries,
    /// Inventories, whose device ids are words, or the value of `--id`; without them all.
    PrintInventories,
    /// Entries in descriptive words.
    DescribeEvents,
    /// The newest entries in descriptive words, without a walk of the whole log.
    TailEvents,
    /// The sensors of a type, which is the word after its own. Without that word, the types.
    ListOfType,
    /// The records of an entity, which is the word after its own.
    ListOfEntity,
    /// Sensors in descriptive words.
    DescribeSensors,
    /// The blocks of the sensors with these names, in descriptive words.
    GetSensors,
    /// A line for each device.
    ListDevices,
    /// Whether a sensor is in trouble, as plugins of monitoring systems print it.
    Check,
    /// Metrics of sensors and of the event log.
    Metrics,
    /// A live controller saved as an image.
    Capture,
    /// An image in its canonical spelling.
    Rewrite,
    /// A help text.
    Help,
}

/// What may follow the words of a command.
#[derive(Clone, Copy, Debug, PartialEq, Eq)]
pub enum Operand {
    /// Nothing.
    Nothing,
    /// A kind of sensor data records, or nothing.
    Kind,
    /// A sensor type, or nothing.
    SensorType,
    /// An entity.
    Entity,
    /// One or more names.
    Names,
    /// A number of entries, after `first`, `last` or nothing; or nothing.
    Count,
    /// A number of entries, at least 1.
    EntryCount,
    /// The ids of one or more entries.
    EntryId,
    /// The ids of devices, or nothing.
    DeviceId,
    /// A command, or nothing.
    Topic,
}

/// A command: its words, what it does, what follows its words, the options that go with it, and its lines of the general
/// help, which are empty if those of another row have it. `--part`, `--tries` and, where its task takes one, `--from` go with
/// it too. A row is a tuple, as specs/ can then read the table.
pub type CommandRow = (
    &'static [&'static str],
    Verb,
    Operand,
    &'static [&'static str],
    &'static str,
);

/// The options of commands that print records.
const PRINTING: &[&str] = &["image", "live", "records", "separator", "label", "strict"];

/// The options of commands that list sensor data records.
const LISTING: &[&str] = &[
    "image",
    "live",
    "records",
    "separator",
    "label",
    "strict",
    "type",
    "entity",
    "id",
    "exclude",
];

/// The options of the command that lists those of a sensor type.
const LISTING_TYPE: &[&str] = &[
    "image",
    "live",
    "records",
    "separator",
    "label",
    "strict",
    "entity",
    "id",
    "exclude",
];

/// The options of the command that lists those of an entity.
const LISTING_ENTITY: &[&str] = &[
    "image",
    "live",
    "records",
    "separator",
    "label",
    "strict",
    "type",
    "id",
    "exclude",
];

/// The options of commands that list entries of the event log.
const LISTING_ENTRIES: &[&str] = &[
    "image",
    "live",
    "records",
    "separator",
    "label",
    "strict",
    "type",
    "id",
    "since",
    "until",
    "now",
    "worse",
    "cursor-file",
];

/// The options of commands that print entries or inventories by their ids.
const GETTING: &[&str] = &[
    "image",
    "live",
    "records",
    "separator",
    "label",
    "strict",
    "id",
];

/// The options of `check`.
const CHECKING: &[&str] = &[
    "image", "live", "records", "type", "entity", "id", "exclude", "perfdata",
];

/// The options of `metrics`.
const METERING: &[&str] = &[
    "image",
    "live",
    "records",
    "type",
    "entity",
    "id",
    "exclude",
    "openmetrics",
    "output",
];

/// The options of `capture`.
const CAPTURING: &[&str] = &["live", "output", "quiet", "partial"];

/// The options of `image rewrite`.
const REWRITING: &[&str] = &["image", "strict"];

/// No options.
const NONE: &[&str] = &[];

/// The commands. A command comes before one whose words begin it.
pub const COMMANDS: [CommandRow; 25] = [
    (
        &["sdr", "list"],
        Verb::Task,
        Operand::Kind,
        LISTING,
        "  sdr, sdr list [KIND]    a line for each sensor: name, reading, status\n",
    ),
    (
        &["sdr", "elist"],
        Verb::Task,
        Operand::Kind,
        LISTING,
        "  sdr elist [KIND]        the same with number and entity\n",
    ),
    (
        &["sdr", "type"],
        Verb::ListOfType,
        Operand::SensorType,
        LISTING_TYPE,
        "  sdr type [TYPE]         sdr elist of the sensors of TYPE; the types\n",
    ),
    (
        &["sdr", "entity"],
        Verb::ListOfEntity,
        Operand::Entity,
        LISTING_ENTITY,
        "  sdr entity ID[.N]       sdr elist of the records of this entity\n",
    ),
    (
        &["sdr", "get"],
        Verb::GetRecords,
        Operand::Names,
        PRINTING,
        "  sdr get NAME..          all about the sensors of these names\n",
    ),
    (
        &["sdr", "info"],
        Verb::Task,
        Operand::Nothing,
        PRINTING,
        "  sdr info                a summary of the sensor data repository\n",
    ),
    (
        &["sdr", "hex"],
        Verb::Task,
        Operand::Nothing,
        PRINTING,
        "  sdr hex                 each sensor data record as an image line (the default)\n",
    ),
    (&["sdr"], Verb::Task, Operand::Nothing, LISTING, ""),
    (
        &["sensor", "list"],
        Verb::DescribeSensors,
        Operand::Nothing,
        LISTING,
        "  sensor, sensor list     a line for each sensor: states in words, thresholds\n",
    ),
    (
        &["sensor", "get"],
        Verb::GetSensors,
        Operand::Names,
        PRINTING,
        "  sensor get NAME..       all about the sensors of these names, in words\n",
    ),
    (
        &["sensor"],
        Verb::DescribeSensors,
        Operand::Nothing,
        LISTING,
        "",
    ),
    (
        &["sel", "info"],
        Verb::Task,
        Operand::Nothing,
        PRINTING,
        "  sel, sel info           a summary of the event log\n",
    ),
    (
        &["sel", "list"],
        Verb::Task,
        Operand::Count,
        LISTING_ENTRIES,
        "  sel list [[first] N]    a line for each event, or for the N oldest\n  sel list last N         a line for each of the N newest events\n",
    ),
    (
        &["sel", "elist"],
        Verb::DescribeEvents,
        Operand::Count,
        LISTING_ENTRIES,
        "  sel elist ..            the same as sel list .., with names and in words\n",
    ),
    (
        &["sel", "tail"],
        Verb::TailEvents,
        Operand::EntryCount,
        PRINTING,
        "  sel tail N              the N newest in words, not reading the whole log\n",
    ),
    (
        &["sel", "get"],
        Verb::GetEntries,
        Operand::EntryId,
        GETTING,
        "  sel get ID..            all about the events of these ids\n",
    ),
    (&["sel"], Verb::Task, Operand::Nothing, PRINTING, ""),
    (
        &["fru", "print"],
        Verb::PrintInventories,
        Operand::DeviceId,
        GETTING,
        "  fru, fru print [ID..]   the inventory of each device, or of some\n",
    ),
    (
        &["fru", "list"],
        Verb::ListDevices,
        Operand::Nothing,
        PRINTING,
        "  fru list                a line for each device: name, product, part, serial\n",
    ),
    (&["fru"], Verb::Task, Operand::Nothing, PRINTING, ""),
    (
        &["check"],
        Verb::Check,
        Operand::Nothing,
        CHECKING,
        "  check                   whether a sensor is in trouble, for monitoring systems\n",
    ),
    (
        &["metrics"],
        Verb::Metrics,
        Operand::Nothing,
        METERING,
        "  metrics                 sensors and the log's state for Prometheus\n",
    ),
    (
        &["capture"],
        Verb::Capture,
        Operand::Nothing,
        CAPTURING,
        "  capture                 a live controller as an image (serdimko-live)\n",
    ),
    (
        &["image", "rewrite"],
        Verb::Rewrite,
        Operand::Nothing,
        REWRITING,
        "  image rewrite           the image as version 2, in a fixed order and spelling\n",
    ),
    (
        &["help"],
        Verb::Help,
        Operand::Topic,
        NONE,
        "  help [COMMAND]          this help, or more on a command\n",
    ),
];

/// Whether the words begin with these.
#[tactic(auto, using(crate::proofs::CommandLemmas::begins_with_is))]
pub(crate) fn begins_with(words: &[&str], own: &[&str]) -> bool
    ensures { result ≡ begins_with (texts words.now) (texts own.now) }
{
    words.starts_with(own)
}

/// The first command of a table that the words begin with.
fn row_among(table: &'static [CommandRow], words: &[&str]) -> Option<&'static CommandRow>
    ensures { option_map (λ row. row_state row.now) result ≡
        row_among (map row_state table.entry.now) (texts words.now) }
{
    table.iter().find(|row| begins_with(words, row.0))
}

/// The words of the command that is run if there are none.
const DEFAULT: [&str; 2] = ["sdr", "hex"];

/// The command that the words begin with.
#[tactic(auto, unfolding(crate::specs::Commands::row_of, crate::specs::Commands::commands))]
pub(crate) fn row_of(words: &[&str]) -> Option<&'static CommandRow>
    ensures { option_map (λ row. row_state row.now) result ≡ row_of (texts words.now) }
{
    match words {
        [] => row_among(&COMMANDS, &DEFAULT),
        _ => row_among(&COMMANDS, words),
    }
}
