//! What a command line of `serdimko` asks for.
ghost use Rattle.std.specs.Prelude.{◌≡◌, ◌≤◌, ◌⊎◌, ◌==◌, All, codes, false, if◌then◌else◌, IfOk, IfSome, length, map, MatchResult, None, option_map, Some, true};
ghost use Rattle.std.specs.List.{filter_map};
ghost use Rattle.clap.specs.Words.{first_of, found_of, rows_of};
ghost use Rattle.ipmi_command_line.specs.Options.{form_in, forms_of, option_state};
ghost use Rattle.ipmi_command_line.specs.Values.{values_of};
ghost use Rattle.ipmi_command_line.specs.Command.{IsTask, number_or, start_of_text};
ghost use Rattle.ipmi_command_line.specs.Commands.{row_of, row_state, texts};
ghost use Rattle.ipmi_command_line.specs.Request.{action_of, capture_of, events_of, format_in_form, format_in_text, format_of, goes_with, help_of, IsRequest, IsAction, has_option, limits_of, listed_of, live_at, live_of, misplaced, misplaced_in, metrics_of, named_of, new_of, numbered_of, part_of_text, printed_of, records_named, records_of, request_of, request_of_command, request_of_help, request_of_row, request_of_rows, request_of_words, rewrite_of, separator_of, short_request, asks_for_types, types_request, check_of, has_one_image, source_of, standard_inputs, start_of, tail_of, task_of_row, tasks_of, text_format, tool_of, topic_named, topic_of};
ghost use Rattle.ipmi_command_line.specs.declared.error.UsageError.{UsageError};

use crate::arguments::{arguments, has_value, is_given, value, value_count};
use crate::command::{DEFAULT_TRIES, number_or, start_of_text};
use crate::commands::{CommandRow, Verb, row_of};
use crate::error::UsageError;
use crate::filters::{Filters, filters_of};
use crate::mistake::{misplaced_option, refused, unknown_word, value_error, word_error};
use crate::number::{decimal, number};
use crate::numbered::{Numbered, tasks_of_ids, tasks_of_words};
use crate::options::{Form, Given, OPTIONS, OptionRow, form_in, is_present};
use crate::table::{oldest, task_of, task_of_four};
use crate::task::{Count, Kind, Task, Tasks};
use crate::words::{Word, Words};
use clap::ArgMatches;
use clap::error::ErrorKind;
use ipmi_bus::LARGEST_PART;
use std::alloc::{AllocError, Global};
use std::convert::AsStr;

/// What a help text describes.
#[derive(Clone, Copy, Debug, PartialEq, Eq)]
pub enum Topic {
    /// All commands.
    General,
    /// `sdr`.
    Sdr,
    /// `sensor`.
    Sensor,
    /// `sel`.
    Sel,
    /// `fru`.
    Fru,
    /// `check`.
    Check,
    /// `metrics`.
    Metrics,
    /// `capture`.
    Capture,
    /// `image`.
    Image,
    /// The sensor types that have names.
    SensorTypes,
}

/// What is to be done.
#[derive(Debug, Drop)]
pub enum Action {
    /// Print what the task says, from this id on.
    Print(Task, Option<u16>),
    /// Print what each of these tasks says, one after another.
    PrintEach(Tasks),
    /// Print the block of each sensor with one of these names, from this id on.
    GetSensors(Words, Option<u16>),
    /// Print the entries of the event log after those that earlier runs printed, as this file says.
    PrintNew(Word),
    /// Check the sensors that pass the filters.
    Check {
        /// Performance data follow the verdict.
        has_data: bool,
    },
    /// Print the metrics of the sensors that pass the filters, and of the event log.
    Metrics {
        /// As OpenMetrics.
        is_open: bool,
        /// The file; None is standard output.
        output: Option<Word>,
    },
    /// Save a live controller as an image.
    Capture {
        /// The file; None is standard output.
        output: Option<Word>,
        /// Progress is not shown.
        quiet: bool,
        /// An image that is not whole may replace a whole one.
        partial: bool,
    },
    /// Print an image in its canonical spelling.
    Rewrite,
    /// Print a help text.
    Help(Topic),
    /// Print the version.
    Version,
}

/// The tool that holds a session with a live controller.
#[derive(Clone, Copy, Debug, PartialEq, Eq)]
pub enum LiveTool {
    /// Stock `ipmitool`.
    Ipmitool,
    /// FreeIPMI's `ipmi-raw`.
    FreeIpmi,
}

/// Where the records come from.
#[derive(Debug, Drop)]
pub enum Source {
    /// Saved images, one after another; `-` is standard input, and so are none.
    Images(Words),
    /// A live controller: the tool, the folder of its pipes, and its host's name, if that is known.
    Live(LiveTool, Word, Option<Word>),
}

/// What a request may take of a controller.
#[derive(Clone, Copy, Debug, PartialEq, Eq)]
pub struct Limits {
    /// The largest number of bytes per request, 1 to 254, if one was given.
    pub part: Option<u8>,
    /// The number of retries for one record, reading or info, and for one inventory or each part of it.
    pub tries: u8,
}

/// What separates the values in a row.
#[derive(Clone, Copy, Debug, PartialEq, Eq)]
pub enum Separator {
    /// A comma.
    Comma,
    /// A semicolon, as spreadsheets take it where a comma begins the decimals.
    Semicolon,
}

/// How records are printed.
#[derive(Debug, Drop)]
pub enum Format {
    /// As text, as the reference program does.
    Plain,
    /// As text, in descriptive words.
    Descriptive,
    /// In this form, with these labels, `KEY=VALUE`, in each object or at the end of each row, whose values this separates.
    Labelled(Form, Separator, Words),
}

/// What a command line asks for.
#[derive(Debug, Drop)]
pub struct Request {
    /// What is to be done.
    pub action: Action,
    /// Which records a listing prints.
    pub filters: Filters,
    /// Where the records come from.
    pub source: Source,
    /// The image whose sensor data records stand for those of a live controller, if these are still the same.
    pub records: Option<Word>,
    /// What may be taken of a controller.
    pub limits: Limits,
    /// How records are printed.
    pub format: Format,
    /// Whether a fault or a missing device is a failure.
    pub strict: bool,
}

// ---- values

/// The id to start from.
fn start_of<'a>(matches: &ArgMatches<'a>) -> Result<Option<u16>, UsageError<'a>>
    ensures value { MatchResult result (λ from. start_of (rows_of (found_of matches.now)) ≡ Some from)
        (λ _. start_of (rows_of (found_of matches.now)) ≡ None) }
    ensures range { IfOk result (λ from. IfSome from (λ id. (1 ≤ id) × (id ≤ 65534))) }
{
    let text = value(matches, "from");
    match start_of_text(text) {
        Ok(from) => Ok(from),
        Err(_) => Err(value_error("from", text)),
    }
}

/// The largest number of bytes per request, if it was given.
fn part_of<'a>(matches: &ArgMatches<'a>) -> Result<Option<u8>, UsageError<'a>>
    ensures value { MatchResult result (λ part. part_of_text (first_of (codes "part") (rows_of (found_of matches.now))) ≡ Some part)
        (λ _. part_of_text (first_of (codes "part") (rows_of (found_of matches.now))) ≡ None) }
    ensures range { IfOk result (λ part. IfSome part (λ n. (1 ≤ n) × (n ≤ 254))) }
{
    let Some(text) = value(matches, "part") else {
        return Ok(None);
    };
    match decimal(text, 1, u16::from(LARGEST_PART)) {
        Some(part) => Ok(Some(part as u8)),
        None => Err(value_error("part", Some(text))),
    }
}

/// The number of retries.
fn tries_of<'a>(matches: &ArgMatches<'a>) -> Result<u8, UsageError<'a>>
    ensures { MatchResult result (λ tries. number_or 5 0 255 (first_of (codes "tries") (rows_of (found_of matches.now))) ≡ Some tries)
        (λ _. number_or 5 0 255 (first_of (codes "tries") (rows_of (found_of matches.now))) ≡ None) }
{
    let text = value(matches, "tries");
    match number_or(text, DEFAULT_TRIES, 0, u8::MAX) {
        Ok(tries) => Ok(tries),
        Err(_) => Err(value_error("tries", text)),
    }
}

/// What may be taken of a controller.
fn limits_of<'a>(matches: &ArgMatches<'a>) -> Result<Limits, UsageError<'a>>
    ensures value { MatchResult result (λ limits. limits_of (rows_of (found_of matches.now)) ≡ Some limits)
        (λ _. limits_of (rows_of (found_of matches.now)) ≡ None) }
    ensures range { IfOk result (λ limits. IfSome limits.part (λ n. (1 ≤ n) × (n ≤ 254))) }
{
    let part = part_of(matches)?;
    let tries = tries_of(matches)?;
    Ok(Limits { part, tries })
}

/// Copies of the words.
fn copies(alloc: Global, words: &[&str]) -> Result<Words, AllocError>
    ensures { IfOk result (λ copies. copies ≡ texts words.now) }
{
    let mut copies = Words::new(alloc);
    for word in words {
        copies.push(word)?;
    }
    Ok(copies)
}

/// Copies of all values of an option that may come several times.
#[tactic(auto, using(crate::proofs::ArgumentLemmas::values_are))]
pub(crate) fn copies_of(
    alloc: Global,
    matches: &ArgMatches<'_>,
    name: &str,
) -> Result<Words, AllocError>
    ensures { IfOk result (λ copies. copies ≡ values_of name.now (rows_of (found_of matches.now))) }
{
    copies(alloc, matches.get_strs(name).unwrap_or(&[]))
}

// ---- where the records come from

/// The tool with this name.
fn tool_of(name: &str) -> Option<LiveTool>
    ensures { result ≡ tool_of name.now }
{
    match name {
        "ipmitool" => Some(LiveTool::Ipmitool),
        "freeipmi" => Some(LiveTool::FreeIpmi),
        _ => None,
    }
}

/// The live controller of this tool at `FOLDER` or `FOLDER:HOST`.
fn live_at(alloc: Global, tool: LiveTool, place: &str) -> Result<Source, AllocError>
    ensures { IfOk result (λ live. live ≡ live_at tool place.now) }
{
    match place.split_once(':') {
        Some((folder, host)) => {
            let folder = Word::new(alloc, folder)?;
            Ok(Source::Live(tool, folder, Some(Word::new(alloc, host)?)))
        }
        None => Ok(Source::Live(tool, Word::new(alloc, place)?, None)),
    }
}

/// The live controller of `TOOL:FOLDER` or `TOOL:FOLDER:HOST`. None if it is malformed.
fn live_of(alloc: Global, text: &str) -> Result<Option<Source>, AllocError>
    ensures { IfOk result (λ live. live ≡ live_of text.now) }
{
    let Some((tool, place)) = text.split_once(':') else {
        return Ok(None);
    };
    if place.is_empty() {
        return Ok(None);
    }
    match tool_of(tool) {
        Some(tool) => Ok(Some(live_at(alloc, tool, place)?)),
        None => Ok(None),
    }
}

/// How many of the images are standard input.
fn standard_inputs(images: &[Word]) -> usize
    ensures { result ≡ standard_inputs images.now }
{
    images
        .iter()
        .filter(|image| Word::as_str(image) == "-")
        .count()
}

/// Where the records come from.
fn source_of<'a>(alloc: Global, matches: &ArgMatches<'a>) -> Result<Source, UsageError<'a>>
    ensures { let meant = source_of (values_of (codes "image") (rows_of (found_of matches.now)))
        (first_of (codes "live") (rows_of (found_of matches.now))) in
        MatchResult result (λ source. meant ≡ Some source) (λ e. (e ≡ UsageError.Memory) ⊎ (meant ≡ None)) }
{
    let images = copies_of(alloc, matches, "image")?;
    let Some(text) = value(matches, "live") else {
        if standard_inputs(images.as_slice()) > 1 {
            return Err(UsageError::StandardInputTwice);
        }
        return Ok(Source::Images(images));
    };
    if !images.as_slice().is_empty() {
        return Err(UsageError::ImageAndLive);
    }
    match live_of(alloc, text)? {
        Some(live) => Ok(live),
        None => Err(value_error("live", Some(text))),
    }
}

/// The image that has the sensor data records of a live controller, if one is named.
fn records_of<'a>(alloc: Global, matches: &ArgMatches<'a>) -> Result<Option<Word>, UsageError<'a>>
    ensures { let meant = records_of (rows_of (found_of matches.now)) in
        MatchResult result (λ records. meant ≡ Some records) (λ e. (e ≡ UsageError.Memory) ⊎ (meant ≡ None)) }
{
    let Some(name) = value(matches, "records") else {
        return Ok(None);
    };
    if !has_value(matches, "live") {
        return Err(UsageError::RecordsWithoutLive);
    }
    Ok(Some(Word::new(alloc, name)?))
}

// ---- what is to be done

/// The command that has this name as its first word, to print help on it.
fn topic_named(word: &str) -> Option<Topic>
    ensures { result ≡ topic_named word.now }
{
    match word {
        "sdr" => Some(Topic::Sdr),
        "sensor" => Some(Topic::Sensor),
        "sel" => Some(Topic::Sel),
        "fru" => Some(Topic::Fru),
        "check" => Some(Topic::Check),
        "metrics" => Some(Topic::Metrics),
        "capture" => Some(Topic::Capture),
        "image" => Some(Topic::Image),
        "help" => Some(Topic::General),
        _ => None,
    }
}

/// What `--help` prints beside these words.
#[tactic(auto, using(crate::proofs::CommandLemmas::topics))]
fn topic_of(words: &[&str]) -> Topic
    ensures { result ≡ topic_of (texts words.now) }
{
    match words {
        [] => Topic::General,
        [word] => topic_named(word).unwrap_or(Topic::General),
        [first, second, ..] => {
            let word = if *first == "help" { second } else { first };
            topic_named(word).unwrap_or(Topic::General)
        }
    }
}

/// What `help` prints, which is the first of these words. None if the word after it is no command.
#[tactic(auto, using(crate::proofs::CommandLemmas::helps))]
fn help_of(words: &[&str]) -> Option<Topic>
    ensures { result ≡ help_of (texts words.now) }
{
    match words {
        [] | [_] => Some(Topic::General),
        [_, word, ..] => topic_named(word),
    }
}

/// `sel elist` and how many entries.
#[tactic(auto, using(crate::proofs::CommandLemmas::events))]
fn events_of(words: &[&str]) -> Option<Task>
    ensures value { result ≡ events_of (texts words.now) }
    ensures range { IfSome result IsTask }
{
    match words {
        [] | [_] => None,
        [_, _] => Some(Task::SelList(Count::All)),
        [_, _, count] => number(count, 0, u16::MAX).map(|n| Task::SelList(oldest(n))),
        [_, _, end, count] => task_of_four("sel", "list", end, count),
        _ => None,
    }
}

/// `sel tail` and how many entries.
#[tactic(auto, using(crate::proofs::CommandLemmas::tails))]
fn tail_of(words: &[&str]) -> Option<Task>
    ensures value { result ≡ tail_of (texts words.now) }
    ensures range { IfSome result IsTask }
{
    match words {
        [] | [_] | [_, _] => None,
        [_, _, count] => number(count, 1, u16::MAX).map(|n| Task::SelList(Count::Tail(n))),
        _ => None,
    }
}

/// The task of a command that prints records.
fn task_of_row(alloc: Global, row: &CommandRow, words: &[&str]) -> Result<Option<Task>, AllocError>
    ensures value { IfOk result (λ task. task ≡ task_of_row (row_state row.now) (texts words.now)) }
    ensures range { IfOk result (λ task. IfSome task IsTask) }
{
    let (own, verb, ..) = *row;
    let is_whole = words.len() == own.len();
    match verb {
        Verb::Task | Verb::GetEntries | Verb::PrintInventories => task_of(alloc, words),
        Verb::DescribeEvents => Ok(events_of(words)),
        Verb::TailEvents => Ok(tail_of(words)),
        Verb::ListOfType | Verb::ListOfEntity if words.len() == 3 => {
            Ok(Some(Task::Elist(Kind::All)))
        }
        Verb::DescribeSensors if is_whole => Ok(Some(Task::List(Kind::Sensors))),
        Verb::ListDevices if is_whole => Ok(Some(Task::Fru(None))),
        _ => Ok(None),
    }
}

/// Prints what the task of a command says.
fn printed_of<'a>(
    alloc: Global,
    row: &CommandRow,
    words: &[&'a str],
    matches: &ArgMatches<'a>,
) -> Result<Action, UsageError<'a>>
    ensures value { let meant = printed_of (start_of (rows_of (found_of matches.now)))
        (task_of_row (row_state row.now) (texts words.now)) in
        MatchResult result (λ action. meant ≡ Some action) (λ e. (e ≡ UsageError.Memory) ⊎ (meant ≡ None)) }
    ensures range { IfOk result IsAction }
{
    let from = start_of(matches)?;
    let Some(task) = task_of_row(alloc, row, words)? else {
        return Err(word_error(alloc, row, words, None)?);
    };
    if from.is_some() && !task.takes_from() {
        return Err(UsageError::Misplaced("from", row.0));
    }
    Ok(Action::Print(task, from))
}

/// The tasks of the ids after the first two words, or of `--id`. None if they are no such ids, or if there are both.
fn tasks_of(
    alloc: Global,
    kind: Numbered,
    words: &[&str],
    id: Option<&str>,
) -> Result<Option<Tasks>, AllocError>
    ensures value { IfOk result (λ tasks. tasks ≡ tasks_of kind (texts words.now) (option_map (λ id. id.now) id.entry)) }
    ensures range { IfOk result (λ tasks. IfSome tasks (λ tasks. All IsTask tasks)) }
{
    match id {
        None => tasks_of_words(alloc, kind, words.get(2..).unwrap_or(&[])),
        Some(id) if words.len() == 2 => tasks_of_ids(alloc, kind, id),
        Some(_) => Ok(None),
    }
}

/// Prints what has the ids after the first two words, or those of `--id`. One id as a word is a task, and so is none.
fn numbered_of<'a>(
    alloc: Global,
    kind: Numbered,
    row: &CommandRow,
    words: &[&'a str],
    matches: &ArgMatches<'a>,
) -> Result<Action, UsageError<'a>>
    ensures value { let meant = numbered_of kind (row_state row.now) (texts words.now) (rows_of (found_of matches.now)) in
        MatchResult result (λ action. meant ≡ Some action) (λ e. (e ≡ UsageError.Memory) ⊎ (meant ≡ None)) }
    ensures range { IfOk result IsAction }
{
    let id = value(matches, "id");
    if id.is_none() && words.len() <= 3 {
        return printed_of(alloc, row, words, matches);
    }
    if has_value(matches, "from") {
        return Err(UsageError::Misplaced("from", row.0));
    }
    match tasks_of(alloc, kind, words, id)? {
        Some(tasks) => Ok(Action::PrintEach(tasks)),
        None => Err(word_error(alloc, row, words, id)?),
    }
}

/// Prints the records with the names after the first two words. One name is a task.
fn records_named<'a>(
    alloc: Global,
    row: &CommandRow,
    words: &[&'a str],
    matches: &ArgMatches<'a>,
) -> Result<Action, UsageError<'a>>
    ensures value { let meant = records_named (texts words.now) (rows_of (found_of matches.now)) in
        MatchResult result (λ action. meant ≡ Some action) (λ e. (e ≡ UsageError.Memory) ⊎ (meant ≡ None)) }
    ensures range { IfOk result IsAction }
{
    if words.len() != 3 {
        return named_of(alloc, row, words, matches);
    }
    let from = start_of(matches)?;
    let name = Word::new(alloc, words[2])?;
    Ok(Action::Print(Task::Get(name), from))
}

/// Prints the sensors with the names after the first two words.
fn named_of<'a>(
    alloc: Global,
    row: &CommandRow,
    words: &[&'a str],
    matches: &ArgMatches<'a>,
) -> Result<Action, UsageError<'a>>
    ensures value { let meant = named_of (texts words.now) (start_of (rows_of (found_of matches.now))) in
        MatchResult result (λ action. meant ≡ Some action) (λ e. (e ≡ UsageError.Memory) ⊎ (meant ≡ None)) }
    ensures range { IfOk result IsAction }
{
    let from = start_of(matches)?;
    let [_, _, _, ..] = words else {
        return Err(UsageError::Missing(row.0, row.2));
    };
    Ok(Action::GetSensors(copies(alloc, &words[2..])?, from))
}

/// Checks the sensors of an image or of a live controller.
fn check_of<'a>(
    alloc: Global,
    row: &CommandRow,
    words: &[&'a str],
    matches: &ArgMatches<'a>,
) -> Result<Action, UsageError<'a>>
    ensures value { let meant = check_of (length words.now == 1) (rows_of (found_of matches.now)) in
        MatchResult result (λ action. meant ≡ Some action) (λ e. (e ≡ UsageError.Memory) ⊎ (meant ≡ None)) }
    ensures range { IfOk result IsAction }
{
    if words.len() != 1 {
        return Err(word_error(alloc, row, words, None)?);
    }
    one_image(row, matches)?;
    let has_data = is_given(matches, "perfdata");
    Ok(Action::Check { has_data })
}

/// Prints metrics of an image or of a live controller.
fn metrics_of<'a>(
    alloc: Global,
    row: &CommandRow,
    words: &[&'a str],
    matches: &ArgMatches<'a>,
) -> Result<Action, UsageError<'a>>
    ensures value { let meant = metrics_of (length words.now == 1) (rows_of (found_of matches.now)) in
        MatchResult result (λ action. meant ≡ Some action) (λ e. (e ≡ UsageError.Memory) ⊎ (meant ≡ None)) }
    ensures range { IfOk result IsAction }
{
    if words.len() != 1 {
        return Err(word_error(alloc, row, words, None)?);
    }
    one_image(row, matches)?;
    let output = output_of(alloc, matches)?;
    Ok(Action::Metrics {
        is_open: is_given(matches, "openmetrics"),
        output,
    })
}

/// The file of `--output`, if it was given.
fn output_of(alloc: Global, matches: &ArgMatches<'_>) -> Result<Option<Word>, AllocError>
    ensures { IfOk result (λ output. output ≡ first_of (codes "output") (rows_of (found_of matches.now))) }
{
    match value(matches, "output") {
        Some(file) => Ok(Some(Word::new(alloc, file)?)),
        None => Ok(None),
    }
}

/// Saves a live controller.
fn capture_of<'a>(
    alloc: Global,
    row: &CommandRow,
    words: &[&'a str],
    matches: &ArgMatches<'a>,
) -> Result<Action, UsageError<'a>>
    ensures value { let meant = capture_of (length words.now == 1) (rows_of (found_of matches.now)) in
        MatchResult result (λ action. meant ≡ Some action) (λ e. (e ≡ UsageError.Memory) ⊎ (meant ≡ None)) }
    ensures range { IfOk result IsAction }
{
    if words.len() != 1 {
        return Err(word_error(alloc, row, words, None)?);
    }
    if !has_value(matches, "live") {
        return Err(UsageError::NotLive);
    }
    if has_value(matches, "from") {
        return Err(UsageError::Misplaced("from", row.0));
    }
    let output = output_of(alloc, matches)?;
    Ok(Action::Capture {
        output,
        quiet: is_given(matches, "quiet"),
        partial: is_given(matches, "partial"),
    })
}

/// Refuses an id to start from, and several images.
fn one_image<'a>(row: &CommandRow, matches: &ArgMatches<'a>) -> Result<(), UsageError<'a>>
    ensures { MatchResult result (λ _. has_one_image (rows_of (found_of matches.now)) ≡ true)
        (λ _. has_one_image (rows_of (found_of matches.now)) ≡ false) }
{
    if has_value(matches, "from") {
        return Err(UsageError::Misplaced("from", row.0));
    }
    if value_count(matches, "image") > 1 {
        return Err(UsageError::SeveralImages(row.0));
    }
    Ok(())
}

/// Prints an image in its canonical spelling.
fn rewrite_of<'a>(
    alloc: Global,
    row: &CommandRow,
    words: &[&'a str],
    matches: &ArgMatches<'a>,
) -> Result<Action, UsageError<'a>>
    ensures value { let meant = rewrite_of (length words.now == 2) (rows_of (found_of matches.now)) in
        MatchResult result (λ action. meant ≡ Some action) (λ e. (e ≡ UsageError.Memory) ⊎ (meant ≡ None)) }
    ensures range { IfOk result IsAction }
{
    if words.len() != 2 {
        return Err(word_error(alloc, row, words, None)?);
    }
    one_image(row, matches)?;
    Ok(Action::Rewrite)
}

/// Prints entries after those of earlier runs, in place of an action that prints all entries of one log.
fn new_of<'a>(
    alloc: Global,
    file: &str,
    has_one_log: bool,
    action: Action,
) -> Result<Action, UsageError<'a>>
    ensures value { let meant = new_of file.now has_one_log (Some action) in
        MatchResult result (λ action. meant ≡ Some action) (λ e. (e ≡ UsageError.Memory) ⊎ (meant ≡ None)) }
    ensures range { IfOk result IsAction }
{
    match action {
        Action::Print(Task::SelList(Count::All), None) if has_one_log => {
            Ok(Action::PrintNew(Word::new(alloc, file)?))
        }
        _ => Err(UsageError::CursorOfPart),
    }
}

/// Prints what the task of a command says, or only new entries.
fn listed_of<'a>(
    alloc: Global,
    row: &CommandRow,
    words: &[&'a str],
    matches: &ArgMatches<'a>,
) -> Result<Action, UsageError<'a>>
    ensures value { let meant = listed_of (row_state row.now) (texts words.now) (rows_of (found_of matches.now)) in
        MatchResult result (λ action. meant ≡ Some action) (λ e. (e ≡ UsageError.Memory) ⊎ (meant ≡ None)) }
    ensures range { IfOk result IsAction }
{
    let Some(file) = value(matches, "cursor-file") else {
        return printed_of(alloc, row, words, matches);
    };
    let action = printed_of(alloc, row, words, matches)?;
    new_of(alloc, file, value_count(matches, "image") <= 1, action)
}

/// What a command does.
fn action_of<'a>(
    alloc: Global,
    row: &CommandRow,
    words: &[&'a str],
    matches: &ArgMatches<'a>,
) -> Result<Action, UsageError<'a>>
    ensures value { let meant = action_of (row_state row.now) (texts words.now) (rows_of (found_of matches.now)) in
        MatchResult result (λ action. meant ≡ Some action) (λ e. (e ≡ UsageError.Memory) ⊎ (meant ≡ None)) }
    ensures range { IfOk result IsAction }
{
    match row.1 {
        Verb::GetEntries => numbered_of(alloc, Numbered::Entry, row, words, matches),
        Verb::PrintInventories => numbered_of(alloc, Numbered::Inventory, row, words, matches),
        Verb::GetRecords => records_named(alloc, row, words, matches),
        Verb::GetSensors => named_of(alloc, row, words, matches),
        Verb::Check => check_of(alloc, row, words, matches),
        Verb::Metrics => metrics_of(alloc, row, words, matches),
        Verb::Capture => capture_of(alloc, row, words, matches),
        Verb::Rewrite => rewrite_of(alloc, row, words, matches),
        _ => listed_of(alloc, row, words, matches),
    }
}

// ---- options

/// Whether an option is among those of a command.
#[tactic(auto, using(crate::proofs::CommandLemmas::has_option_is))]
fn has_option(options: &[&str], name: &str) -> bool
    ensures { result ≡ has_option (texts options.now) name.now }
{
    options.contains(&name)
}

/// Whether an option goes with a command that has these.
fn goes_with(options: &[&str], row: &OptionRow) -> bool
    ensures { result ≡ goes_with (texts options.now) (option_state row.now) }
{
    match row.2 {
        Given::Form(_) => has_option(options, "label"),
        _ => has_option(options, row.0),
    }
}

/// The first option of a table that was given and does not go with a command that has these.
fn misplaced_in(
    table: &'static [OptionRow],
    options: &[&str],
    matches: &ArgMatches<'_>,
) -> Option<&'static str>
    ensures { option_map (λ name. name.now) result ≡ misplaced_in (map option_state table.entry.now) (texts options.now) (rows_of (found_of matches.now)) }
{
    match table
        .iter()
        .find(|row| is_present(row, matches) && !goes_with(options, row))
    {
        Some(row) => Some(row.0),
        None => None,
    }
}

/// The first option that was given and does not go with a command that has these.
#[tactic(auto, unfolding(crate::specs::Request::misplaced, crate::specs::Options::options))]
fn misplaced(options: &[&str], matches: &ArgMatches<'_>) -> Option<&'static str>
    ensures { option_map (λ name. name.now) result ≡ misplaced (texts options.now) (rows_of (found_of matches.now)) }
{
    if has_value(matches, "image") && !has_option(options, "image") {
        return Some("image");
    }
    misplaced_in(&OPTIONS, options, matches)
}

/// What separates the values in a row, if this is said.
fn separator_of<'a>(matches: &ArgMatches<'a>) -> Result<Option<Separator>, UsageError<'a>>
    ensures { let text = first_of (codes "separator") (rows_of (found_of matches.now)) in
        MatchResult result (λ separator. separator_of text ≡ Some separator) (λ _. separator_of text ≡ None) }
{
    match value(matches, "separator") {
        None => Ok(None),
        Some("comma") => Ok(Some(Separator::Comma)),
        Some("semicolon") => Ok(Some(Separator::Semicolon)),
        other => Err(value_error("separator", other)),
    }
}

/// The form of text in which a command prints records.
fn text_format(verb: Verb) -> Format
    ensures { result ≡ text_format verb }
{
    match verb {
        Verb::DescribeEvents
        | Verb::TailEvents
        | Verb::DescribeSensors
        | Verb::GetSensors
        | Verb::ListDevices => Format::Descriptive,
        _ => Format::Plain,
    }
}

/// The forms of output that options of the table ask for.
fn forms_among(
    alloc: Global,
    table: &'static [OptionRow],
    matches: &ArgMatches<'_>,
) -> Result<Vec<Form>, AllocError>
    ensures { IfOk result (λ forms. forms.items ≡ filter_map (form_in (rows_of (found_of matches.now))) (map option_state table.entry.now)) }
{
    table
        .iter()
        .filter_map(|row| form_in(row, matches))
        .collect(alloc)
}

/// The forms of output that are asked for.
#[tactic(auto, unfolding(crate::specs::Options::options))]
fn forms_of(alloc: Global, matches: &ArgMatches<'_>) -> Result<Vec<Form>, AllocError>
    ensures { IfOk result (λ forms. forms.items ≡ forms_of (rows_of (found_of matches.now))) }
{
    forms_among(alloc, &OPTIONS, matches)
}

/// How records are printed as text, if no form of output is asked for.
fn format_in_text<'a>(
    verb: Verb,
    separator: Option<Separator>,
    matches: &ArgMatches<'a>,
) -> Result<Format, UsageError<'a>>
    ensures { let meant = format_in_text verb separator (rows_of (found_of matches.now)) in
        MatchResult result (λ format. meant ≡ Some format) (λ _. meant ≡ None) }
{
    if separator.is_some() {
        return Err(UsageError::SeparatorWithoutCsv);
    }
    if has_value(matches, "label") {
        return Err(UsageError::LabelInText);
    }
    Ok(text_format(verb))
}

/// How records are printed in a form of output.
fn format_in_form<'a>(
    alloc: Global,
    form: Form,
    separator: Option<Separator>,
    matches: &ArgMatches<'a>,
) -> Result<Format, UsageError<'a>>
    ensures { let meant = format_in_form form separator (rows_of (found_of matches.now)) in
        MatchResult result (λ format. meant ≡ Some format) (λ e. (e ≡ UsageError.Memory) ⊎ (meant ≡ None)) }
{
    if separator.is_some() && form != Form::Csv {
        return Err(UsageError::SeparatorWithoutCsv);
    }
    let labels = copies_of(alloc, matches, "label")?;
    Ok(Format::Labelled(form, separator.unwrap_or(Separator::Comma), labels))
}

/// How records are printed.
fn format_of<'a>(
    alloc: Global,
    verb: Verb,
    matches: &ArgMatches<'a>,
) -> Result<Format, UsageError<'a>>
    ensures { let meant = format_of verb (rows_of (found_of matches.now)) in
        MatchResult result (λ format. meant ≡ Some format) (λ e. (e ≡ UsageError.Memory) ⊎ (meant ≡ None)) }
{
    let separator = separator_of(matches)?;
    let forms = forms_of(alloc, matches)?;
    match forms.as_slice() {
        [] => format_in_text(verb, separator, matches),
        [form] => format_in_form(alloc, *form, separator, matches),
        _ => Err(UsageError::TwoForms),
    }
}

// ---- the request

/// A request that reads no records.
fn short_request(alloc: Global, action: Action) -> Request
    ensures { result ≡ short_request action }
{
    Request {
        action,
        filters: Filters::new(alloc),
        source: Source::Images(Words::new(alloc)),
        records: None,
        limits: Limits {
            part: None,
            tries: DEFAULT_TRIES,
        },
        format: Format::Plain,
        strict: false,
    }
}

/// The request of a command that reads records.
fn request_of_row<'a>(
    alloc: Global,
    clock: u32,
    row: &CommandRow,
    words: &[&'a str],
    matches: &ArgMatches<'a>,
) -> Result<Request, UsageError<'a>>
    ensures value { let meant = request_of_row clock (row_state row.now) (texts words.now) (rows_of (found_of matches.now)) in
        MatchResult result (λ request. meant ≡ Some request) (λ e. (e ≡ UsageError.Memory) ⊎ (meant ≡ None)) }
    ensures range { IfOk result IsRequest }
{
    if let Some(name) = misplaced(row.3, matches) {
        return Err(misplaced_option(row, name));
    }
    let action = action_of(alloc, row, words, matches)?;
    let filters = filters_of(alloc, clock, row.1, words, matches)?;
    let source = source_of(alloc, matches)?;
    let records = records_of(alloc, matches)?;
    let limits = limits_of(matches)?;
    let format = format_of(alloc, row.1, matches)?;
    Ok(Request {
        action,
        filters,
        source,
        records,
        limits,
        format,
        strict: is_given(matches, "strict"),
    })
}

/// The request for a help text. The first word is `help`.
fn request_of_help<'a>(alloc: Global, words: &[&'a str]) -> Result<Request, UsageError<'a>>
    ensures value { let meant = request_of_help (texts words.now) in
        MatchResult result (λ request. meant ≡ Some request) (λ e. (e ≡ UsageError.Memory) ⊎ (meant ≡ None)) }
    ensures range { IfOk result IsRequest }
{
    match help_of(words) {
        Some(topic) => Ok(short_request(alloc, Action::Help(topic))),
        None => Err(unknown_word(alloc, words.get(1..).unwrap_or(&[]))?),
    }
}

/// Whether the words of `sdr type` ask for the types.
#[tactic(auto, using(crate::proofs::CommandLemmas::asks))]
fn asks_for_types(words: &[&str]) -> bool
    ensures { result ≡ asks_for_types (texts words.now) }
{
    match words {
        [] | [_] => false,
        [_, _] => true,
        [_, _, word] => *word == "list",
        _ => false,
    }
}

/// The options that may stand beside a text that is always the same.
const BESIDE_TYPES: [&str; 4] = ["image", "live", "records", "strict"];

/// The request for the names of sensor types.
fn types_request<'a>(
    alloc: Global,
    row: &CommandRow,
    matches: &ArgMatches<'a>,
) -> Result<Request, UsageError<'a>>
    ensures value { let meant = types_request (rows_of (found_of matches.now)) in
        MatchResult result (λ request. meant ≡ Some request) (λ e. (e ≡ UsageError.Memory) ⊎ (meant ≡ None)) }
    ensures range { IfOk result IsRequest }
{
    if let Some(name) = misplaced(&BESIDE_TYPES, matches) {
        return Err(misplaced_option(row, name));
    }
    Ok(short_request(alloc, Action::Help(Topic::SensorTypes)))
}

/// The request of a command.
fn request_of_command<'a>(
    alloc: Global,
    clock: u32,
    row: &CommandRow,
    words: &[&'a str],
    matches: &ArgMatches<'a>,
) -> Result<Request, UsageError<'a>>
    ensures value { let meant = request_of_command clock (row_state row.now) (texts words.now) (rows_of (found_of matches.now)) in
        MatchResult result (λ request. meant ≡ Some request) (λ e. (e ≡ UsageError.Memory) ⊎ (meant ≡ None)) }
    ensures range { IfOk result IsRequest }
{
    match row.1 {
        Verb::Help => request_of_help(alloc, words),
        Verb::ListOfType if asks_for_types(words) => types_request(alloc, row, matches),
        _ => request_of_row(alloc, clock, row, words, matches),
    }
}

/// The request of these words and the options.
#[tactic(auto, unfolding(crate::specs::Request::request_of_words))]
fn request_of_words<'a>(
    alloc: Global,
    clock: u32,
    words: &[&'a str],
    matches: &ArgMatches<'a>,
) -> Result<Request, UsageError<'a>>
    ensures value { let meant = request_of_words clock (texts words.now) (rows_of (found_of matches.now)) in
        MatchResult result (λ request. meant ≡ Some request) (λ e. (e ≡ UsageError.Memory) ⊎ (meant ≡ None)) }
    ensures range { IfOk result IsRequest }
{
    match row_of(words) {
        Some(row) => request_of_command(alloc, clock, row, words, matches),
        None => Err(unknown_word(alloc, words)?),
    }
}

/// The request of the options and words that `clap` found.
#[tactic(auto, using(crate::proofs::ArgumentLemmas::values_are))]
fn request_of_matches<'a>(
    alloc: Global,
    clock: u32,
    matches: &ArgMatches<'a>,
) -> Result<Request, UsageError<'a>>
    ensures value { let meant = request_of_rows clock (rows_of (found_of matches.now)) in
        MatchResult result (λ request. meant ≡ Some request) (λ e. (e ≡ UsageError.Memory) ⊎ (meant ≡ None)) }
    ensures range { IfOk result IsRequest }
{
    let words = matches.get_strs("words").unwrap_or(&[]);
    if is_given(matches, "help") {
        return Ok(short_request(alloc, Action::Help(topic_of(words))));
    }
    if is_given(matches, "version") {
        return Ok(short_request(alloc, Action::Version));
    }
    request_of_words(alloc, clock, words, matches)
}

/// What the words of a command line ask for. The first is the program's name. Each option that is given is used or refused,
/// except beside help and the version. `clock` has the seconds since 1970: `2h` is so long before it. At Err a line has no
/// request, or memory ran out.
#[tactic(auto, unfolding(crate::specs::Request::request_of))]
pub fn request_of<'a, S: AsStr>(
    alloc: Global,
    clock: u32,
    words: &'a [S],
) -> Result<Request, UsageError<'a>>
    ensures value { MatchResult result (λ request. request_of clock (map S.text words.entry.now) ≡ Some request)
        (λ e. (e ≡ UsageError.Memory) ⊎ (request_of clock (map S.text words.entry.now) ≡ None)) }
    ensures range { IfOk result IsRequest }
{
    match arguments(alloc, words) {
        Ok(matches) => request_of_matches(alloc, clock, &matches),
        Err(error) => match error.kind() {
            ErrorKind::OutOfMemory => Err(UsageError::Memory),
            _ => Err(refused(alloc, &error, words)?),
        },
    }
}
