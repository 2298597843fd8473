//! The command of a command line.
ghost use Rattle.std.specs.Prelude.{◌≡◌, ◌≤◌, ◌<◌, ◌⊎◌, Err, false, IfErr, IfOk, IfSome, IsSome, IsTrue, MatchResult, None, Ok, Some, length, option_map, true};
ghost use Rattle.clap.specs.Words.{found_of, rows_of};
ghost use Rattle.ipmi_command_line.specs.Arguments.{is_taken, rows_of_words};
ghost use Rattle.ipmi_command_line.specs.Command.{CommandState, IsCommand, IsTask, command_of_task, meaning_of, number_or, start_of_text};
ghost use Rattle.ipmi_command_line.specs.declared.command.UsageFault.{UsageFault};
ghost use Rattle.ipmi_command_line.specs.Task.{is_listing, takes_from};

use crate::arguments::{arguments, is_reference, value};
use crate::number::{decimal, digits};
use crate::table::task_of;
use crate::task::{Count, Task};
use crate::words::{Word, Words};
use clap::ArgMatches;
use clap::error::ErrorKind;
use ipmi_bus::LARGEST_PART;
use std::alloc::{AllocError, Global};
use std::marker::Model;
use thiserror::Error;

/// The smallest record id allowed on a command line; 0000h requests the first record.
pub(crate) const FIRST_ID: u16 = 1;

/// The largest record id allowed; FFFFh means that there is no next record.
pub(crate) const LAST_ID: u16 = 0xFFFE;

/// The largest number of bytes per request, if `--part` is not given.
pub const DEFAULT_PART: u8 = 32;

/// The number of retries for one record, reading, info or inventory, if `--tries` is not given.
pub const DEFAULT_TRIES: u8 = 5;

/// Why parsing a command line failed.
#[derive(Clone, Copy, Debug, PartialEq, Eq, Error)]
pub enum UsageFault {
    /// Out of memory.
    #[error("out of memory")]
    Memory,
    /// `clap` does not accept the options and words, such as an unknown option.
    #[error("the command line cannot be read")]
    Line,
    /// The words name no command, or a number among them is malformed or out of range.
    #[error("no such command")]
    Command,
    /// The value of an option is malformed or out of range, or the command does not take the option.
    #[error("an option that does not fit")]
    Option,
}

impl From<AllocError> for UsageFault {
    ghost from_gives = { λ _ e. e ≡ UsageFault.Memory };

    fn from(_error: AllocError) -> UsageFault {
        UsageFault::Memory
    }
}

/// The command of a command line. Its numbers are in their ranges. It has an id to start from only if its task takes
/// one.
#[derive(Debug, Drop)]
pub struct Command {
    task: Task,
    from: Option<u16>,
    part: u8,
    tries: u8,
    image: Option<Word>,
}

impl Model for Command {
    ghost Value = { CommandState };

    ghost view = { λ c. record { task = c.task; from = c.from; part = c.part; tries = c.tries; image = c.image } };

    ghost invariant = { λ c. IsCommand c.task c.from c.part };
}

impl Command {
    /// A command. The numbers must be in their ranges, and if there is a `from`, the task must take it.
    pub fn new(task: Task, from: Option<u16>, part: u8, tries: u8, image: Option<Word>) -> Command
        requires { IsCommand task from part }
        ensures { result ≡
            record { task = task; from = from; part = part; tries = tries; image = image } }
    {
        Command {
            task,
            from,
            part,
            tries,
            image,
        }
    }

    /// The task.
    pub fn task(&self) -> &Task
        ensures value { result.now ≡ self.now.task }
        ensures range { IsTask result.now }
    {
        &self.task
    }

    /// The id to start from, `--from`; only some tasks take one.
    pub fn from(&self) -> Option<u16>
        ensures value { result ≡ self.now.from }
        ensures range { IfSome result (λ id. (1 ≤ id) × (id ≤ 65534)) }
        ensures taken { IsSome result → IsTrue (takes_from self.now.task) }
    {
        self.from
    }

    /// The largest number of bytes per request, `--part`.
    pub fn part(&self) -> u8
        ensures value { result ≡ self.now.part }
        ensures range { (1 ≤ result) × (result ≤ 254) }
    {
        self.part
    }

    /// The number of troubles allowed for each record, reading, info or inventory, `--tries`.
    pub fn tries(&self) -> u8
        ensures { result ≡ self.now.tries }
    {
        self.tries
    }

    /// Whether it lists a whole shelf, without a count or a name, so that it can be done in pages.
    pub fn is_listing(&self) -> bool
        ensures { result ≡ is_listing self.now.task }
    {
        matches!(
            self.task,
            Task::Hex | Task::List(_) | Task::Elist(_) | Task::SelList(Count::All)
        )
    }

    /// The file of the image, `--image`. None for standard input.
    pub fn image(&self) -> Option<&Word>
        ensures { option_map (λ w. w.now) result ≡ self.now.image }
    {
        self.image.as_ref()
    }
}

/// The id in the text of `--from`: four hex digits, neither `0000` nor `FFFF`. None if the option is not given.
pub(crate) fn start_of_text(text: Option<&str>) -> Result<Option<u16>, UsageFault>
    ensures value { let meant = start_of_text (option_map (λ t. t.now) text.entry) in
        MatchResult result (λ from. meant ≡ Some from) (λ e. (e ≡ UsageFault.Option) × (meant ≡ None)) }
    ensures range { IfOk result (λ from. IfSome from (λ id. (1 ≤ id) × (id ≤ 65534))) }
{
    match text {
        Some(text) if text.len() == 4 => digits(text, 16, FIRST_ID, LAST_ID)
            .map(Some)
            .ok_or(UsageFault::Option),
        Some(_) => Err(UsageFault::Option),
        None => Ok(None),
    }
}

/// The number of an option, in decimal from `low` to `high`, or `default` if the option is not given.
pub(crate) fn number_or(
    text: Option<&str>,
    default: u8,
    low: u8,
    high: u8,
) -> Result<u8, UsageFault>
    requires { (low ≤ default) × (default ≤ high) }
    ensures value { let meant = number_or default low high (option_map (λ t. t.now) text.entry) in
        MatchResult result (λ n. meant ≡ Some n) (λ e. (e ≡ UsageFault.Option) × (meant ≡ None)) }
    ensures range { IfOk result (λ n. (low ≤ n) × (n ≤ high)) }
{
    let Some(text) = text else {
        return Ok(default);
    };
    Ok(decimal(text, u16::from(low), u16::from(high)).ok_or(UsageFault::Option)? as u8)
}

/// The command of a task and the options that were given.
fn command_of_task(
    alloc: Global,
    task: Task,
    matches: &ArgMatches<'_>,
) -> Result<Command, UsageFault>
    requires { IsTask task }
    ensures { let meant = command_of_task (rows_of (found_of matches.now)) (Some task) in
        MatchResult result (λ c. meant ≡ Ok c) (λ e. (e ≡ UsageFault.Memory) ⊎ (meant ≡ Err e)) }
{
    let from = start_of_text(value(matches, "from"))?;
    let part = number_or(value(matches, "part"), DEFAULT_PART, 1, LARGEST_PART)?;
    let tries = number_or(value(matches, "tries"), DEFAULT_TRIES, 0, u8::MAX)?;
    if from.is_some() && !task.takes_from() {
        return Err(UsageFault::Option);
    }
    let image = value(matches, "image")
        .map(|text| Word::new(alloc, text))
        .transpose()?;
    Ok(Command::new(task, from, part, tries, image))
}

/// The options and words of a command line. The first word is the program's name.
fn arguments_of<'a>(alloc: Global, words: &'a Words) -> Result<ArgMatches<'a>, UsageFault>
    ensures ok { IfOk result (λ m. (is_taken words.entry.now ≡ true) ×
        (rows_of (found_of m) ≡ rows_of_words words.entry.now)) }
    ensures err { IfErr result (λ e. (e ≡ UsageFault.Memory) ⊎
        ((e ≡ UsageFault.Line) × (is_taken words.entry.now ≡ false))) }
{
    match arguments(alloc, words.as_slice()) {
        Ok(matches) => Ok(matches),
        Err(error) => match error.kind() {
            ErrorKind::OutOfMemory => Err(UsageFault::Memory),
            _ => Err(UsageFault::Line),
        },
    }
}

/// Parses the words of a command line, the first of which is the program's name. The result is the command, or the
/// fault of the words, or `Memory`.
#[tactic(auto, using(crate::proofs::ArgumentLemmas::values_are), unfolding(crate::specs::Command::meaning_of))]
pub fn command_of(alloc: Global, words: &Words) -> Result<Command, UsageFault>
    requires { 0 < length words.now }
    ensures { MatchResult result (λ c. meaning_of words.now ≡ Ok c)
        (λ e. (e ≡ UsageFault.Memory) ⊎ (meaning_of words.now ≡ Err e)) }
{
    let matches = arguments_of(alloc, words)?;
    if !is_reference(&matches) {
        return Err(UsageFault::Line);
    }
    match task_of(alloc, matches.get_strs("words").unwrap_or(&[]))? {
        Some(task) => command_of_task(alloc, task, &matches),
        None => Err(UsageFault::Command),
    }
}
