//! What is wrong with a command line that has no request.
ghost use Rattle.std.specs.Prelude.{◌≡◌, IfOk, option_map};
ghost use Rattle.ipmi_command_line.specs.Hints.{after_dash, is_beginning, is_near, is_slip, needs_image, option_named};

use crate::commands::{COMMANDS, CommandRow, Operand, Verb};
use crate::error::{Hint, UsageError, next_word};
use crate::number::{digits, number};
use crate::numbered::Numbered;
use crate::table::{KINDS, kind_of};
use clap::Error;
use ipmi_text::SENSOR_TYPES;
use std::alloc::{AllocError, Global};
use std::convert::AsStr;
use strsim::osa_distance;

/// Options with which stock `ipmitool` connects.
const CONNECTION: [&str; 20] = [
    "-I", "-H", "-U", "-E", "-p", "-f", "-t", "-b", "-B", "-d", "-K", "-m", "-T", "-z", "-L", "-N",
    "-A", "-C", "-R", "-k",
];

// ---- options

/// What `clap` says of an error: its first paragraph, and perhaps its tip after a semicolon.
fn said_of(alloc: Global, error: &Error, has_tip: bool) -> Result<String, AllocError> {
    let text = format!(in alloc; "{error}")?;
    let mut parts = text.as_str().split("\n\n");
    let first = parts.next().unwrap_or("");
    let first = first.strip_prefix("error: ").unwrap_or(first);
    let mut said = String::from_str(alloc, first.trim_end())?;
    let tip = parts.next().and_then(|part| part.strip_prefix("  tip: "));
    if let Some(tip) = tip.filter(|_| has_tip) {
        said.push_str("; ")?;
        said.push_str(tip)?;
    }
    Ok(said)
}

/// The option of stock `ipmitool` that the word is, or begins with.
fn hint_of_option<'a>(word: &str) -> Option<Hint<'a>> {
    if word.starts_with("-P") {
        return Some(Hint::Password);
    }
    let option = CONNECTION.iter().find(|option| word.starts_with(**option))?;
    Some(Hint::Connection(*option))
}

/// What a user of stock `ipmitool` may have meant.
fn hint_of_line<'a, S: AsStr>(words: &[S]) -> Hint<'a> {
    for word in words.get(1..).unwrap_or(&[]) {
        let word = word.as_str();
        if word == "--" {
            break;
        }
        if let Some(hint) = hint_of_option(word) {
            return hint;
        }
    }
    Hint::None
}

/// `clap` does not accept the options and words.
pub(crate) fn refused<'a, S: AsStr>(
    alloc: Global,
    error: &Error,
    words: &'a [S],
) -> Result<UsageError<'a>, AllocError> {
    let hint = hint_of_line(words);
    // a hint of our own is better than that of `clap`
    let said = said_of(alloc, error, matches!(hint, Hint::None))?;
    Ok(UsageError::Line(said, hint))
}

/// The digits of an id, as listings and messages print it.
fn bare_digits(text: &str) -> &str {
    let text = text.strip_prefix("0x").unwrap_or(text);
    text.strip_suffix('h').unwrap_or(text)
}

/// The value is none that the option takes.
pub(crate) fn value_error<'a>(option: &'static str, value: Option<&'a str>) -> UsageError<'a> {
    let value = value.unwrap_or("");
    let id = bare_digits(value);
    let is_longer = id.len() < value.len();
    let is_id = is_longer && id.len() <= 4 && digits(id, 16, 1, 0xFFFE).is_some();
    let hint = match option {
        "from" if value == "0000" => Hint::FirstRecord,
        "id" if is_id => Hint::HexId(id, Operand::Nothing),
        "from" if is_id && id.len() == 4 => Hint::HexId(id, Operand::Nothing),
        _ => Hint::None,
    };
    UsageError::Value(option, value, hint)
}

/// Whether the option names a live controller for a command that reads a saved image.
fn needs_image(verb: Verb, option: &str) -> bool
    ensures { result ≡ needs_image verb option.now }
{
    matches!(verb, Verb::Rewrite) && option == "live"
}

/// The option does not go with the command.
pub(crate) fn misplaced_option<'a>(row: &CommandRow, option: &'static str) -> UsageError<'a> {
    if needs_image(row.1, option) {
        return UsageError::NotSaved;
    }
    UsageError::Misplaced(option, row.0)
}

// ---- words

/// Whether the word is the beginning of the name, three letters or more.
fn is_beginning(word: &str, name: &str) -> bool
    ensures { result ≡ is_beginning word.now name.now }
{
    word.len() >= 3 && name.as_bytes().starts_with(word.as_bytes())
}

/// Whether one letter at most is wrong, missing, extra or swapped.
fn is_slip(alloc: Global, word: &str, name: &str) -> Result<bool, AllocError>
    ensures { IfOk result (λ slip. slip ≡ is_slip word.now name.now) }
{
    Ok(osa_distance(alloc, word, name)? <= 1)
}

/// Whether the word is the name in capital letters, its beginning, or the name with a slip.
fn is_near(alloc: Global, word: &str, name: &str) -> Result<bool, AllocError>
    ensures { IfOk result (λ near. near ≡ is_near word.now name.now) }
{
    if word.eq_ignore_ascii_case(name) {
        return Ok(true);
    }
    if is_beginning(word, name) {
        return Ok(true);
    }
    is_slip(alloc, word, name)
}

/// What follows the em dash or en dash that the word begins with.
fn after_dash(word: &str) -> Option<&str>
    ensures { option_map (λ rest. rest.now) result ≡ after_dash word.now }
{
    match word.strip_prefix("—") {
        Some(rest) => Some(rest),
        None => word.strip_prefix("–"),
    }
}

/// The option whose name is the word.
fn option_named(word: &str) -> Option<&'static str>
    ensures { option_map (λ option. option.now) result ≡ option_named word.now }
{
    match word {
        "version" => Some("--version"),
        _ => None,
    }
}

/// Whether the word looks like a file's name.
fn is_file(word: &str) -> bool {
    word == "-" || word.contains('.') || word.contains('/')
}

/// Words of stock `ipmitool` that no command has and none will have after these: what they do is more than to read sensors,
/// events and inventories.
const IPMITOOL: [(&[&str], &[&str]); 5] = [
    (
        &[],
        &[
            "channel",
            "chassis",
            "dcmi",
            "delloem",
            "ekanalyzer",
            "event",
            "exec",
            "firewall",
            "fwum",
            "gendev",
            "hpm",
            "i2c",
            "ime",
            "isol",
            "kontronoem",
            "lan",
            "lan6",
            "nm",
            "pef",
            "picmg",
            "power",
            "raw",
            "session",
            "set",
            "shell",
            "sol",
            "spd",
            "sunoem",
            "tsol",
            "user",
            "vita",
        ],
    ),
    (&["fru"], &["edit", "internaluse", "upgEkey", "write"]),
    (&["sdr"], &["fill"]),
    (&["sel"], &["add", "clear", "delete"]),
    (&["sensor"], &["thresh"]),
];

/// Whether the word is one of stock `ipmitool` after these.
fn is_of_ipmitool(word: &str, after: &[&str]) -> bool {
    for (before, words) in &IPMITOOL {
        if *before == after {
            return words.contains(&word);
        }
    }
    false
}

/// What the word means by itself that no command has after these.
fn hint_of_word<'a>(word: &'a str, after: &'static [&'static str]) -> Hint<'a> {
    if let Some(rest) = after_dash(word) {
        return Hint::Dash(rest);
    }
    if is_file(word) {
        return Hint::File;
    }
    if is_of_ipmitool(word, after) {
        return Hint::Ipmitool(after, word);
    }
    match (after, option_named(word)) {
        ([], Some(option)) => Hint::Word(option),
        (["sdr"], _) if kind_of(word).is_some() => Hint::Kind(word),
        _ => Hint::None,
    }
}

/// No command has the word after these.
fn unknown<'a>(
    alloc: Global,
    word: &'a str,
    after: &'static [&'static str],
) -> Result<UsageError<'a>, AllocError> {
    let hint = hint_of_word(word, after);
    if !matches!(hint, Hint::None) {
        return Ok(UsageError::UnknownWord(word, after, hint));
    }
    for row in COMMANDS.iter() {
        if let Some(name) = next_word(row, after) {
            if is_near(alloc, word, name)? {
                return Ok(UsageError::UnknownWord(word, after, Hint::Word(name)));
            }
        }
    }
    Ok(UsageError::UnknownWord(word, after, Hint::None))
}

/// The first words of the commands that always have two words.
const GROUP: [&str; 1] = ["image"];

/// No command begins with these words.
pub(crate) fn unknown_word<'a>(
    alloc: Global,
    words: &[&'a str],
) -> Result<UsageError<'a>, AllocError> {
    match words {
        [] => Ok(UsageError::Missing(&[], Operand::Topic)),
        ["image"] => Ok(UsageError::Missing(&GROUP, Operand::Topic)),
        ["image", word, ..] => unknown(alloc, word, &GROUP),
        [word, ..] => unknown(alloc, word, &[]),
    }
}

/// The word is no kind of record.
fn unknown_kind<'a>(alloc: Global, word: &'a str) -> Result<UsageError<'a>, AllocError> {
    if is_file(word) {
        return Ok(UsageError::WrongWord(word, Operand::Kind, Hint::File));
    }
    for (name, _) in &KINDS {
        if is_near(alloc, word, name)? {
            return Ok(UsageError::WrongWord(word, Operand::Kind, Hint::Word(*name)));
        }
    }
    Ok(UsageError::WrongWord(word, Operand::Kind, Hint::None))
}

/// The word is no sensor type.
pub(crate) fn unknown_type<'a>(alloc: Global, word: &'a str) -> Result<UsageError<'a>, AllocError> {
    for name in SENSOR_TYPES {
        if is_near(alloc, word, name)? {
            return Ok(UsageError::WrongWord(word, Operand::SensorType, Hint::Word(name)));
        }
    }
    Ok(UsageError::WrongWord(word, Operand::SensorType, Hint::SensorTypes))
}

/// The word is no number that the operand may be.
fn wrong_number<'a>(operand: Operand, word: &'a str) -> UsageError<'a> {
    let bare = bare_digits(word);
    let id = match operand {
        Operand::EntryId => digits(bare, 16, 1, 0xFFFE),
        Operand::DeviceId => digits(bare, 16, 0, 0xFE),
        _ => None,
    };
    let hint = if bare.len() <= 4 && id.is_some() {
        Hint::HexId(bare, operand)
    } else {
        Hint::None
    };
    UsageError::Number(word, operand, hint)
}

/// The word before a number of entries is neither `first` nor `last`.
fn unknown_end<'a>(
    alloc: Global,
    row: &CommandRow,
    word: &'a str,
) -> Result<UsageError<'a>, AllocError> {
    for end in ["first", "last"] {
        if is_near(alloc, word, end)? {
            return Ok(UsageError::UnknownWord(word, row.0, Hint::Word(end)));
        }
    }
    Ok(UsageError::Extra(word, row.0, Hint::None))
}

/// What is wrong with the number of `sel list`.
fn count_error<'a>(
    alloc: Global,
    row: &CommandRow,
    words: &[&'a str],
) -> Result<UsageError<'a>, AllocError> {
    let (word, rest) = match words {
        [] | ["first" | "last"] => return Ok(UsageError::Missing(row.0, row.2)),
        ["first" | "last", word, rest @ ..] => (word, rest),
        [word, rest @ ..] => (word, rest),
    };
    let is_number = number(word, 0, u16::MAX).is_some();
    match rest {
        [extra, ..] if is_number => Ok(UsageError::Extra(extra, row.0, Hint::None)),
        [_, ..] if words.first() == Some(word) => unknown_end(alloc, row, word),
        _ => Ok(wrong_number(row.2, word)),
    }
}

/// What is wrong with the number of `sel tail`.
fn tail_error<'a>(row: &CommandRow, words: &[&'a str]) -> UsageError<'a> {
    match words {
        [] => UsageError::Missing(row.0, row.2),
        [word] => wrong_number(row.2, word),
        [_, word, ..] => UsageError::Extra(word, row.0, Hint::None),
    }
}

/// What is wrong with the ids of entries or of devices.
fn id_error<'a>(
    row: &CommandRow,
    kind: Numbered,
    words: &[&'a str],
    id: Option<&'a str>,
) -> UsageError<'a> {
    match (words, id) {
        ([], Some(_)) => value_error("id", id),
        ([_, ..], Some(_)) => UsageError::TwoIds(row.0),
        ([], None) => UsageError::Missing(row.0, row.2),
        ([first, ..], None) => {
            let is_wrong = |word: &&&str| !kind.has(word);
            let word = words.iter().find(is_wrong).unwrap_or(first);
            wrong_number(row.2, word)
        }
    }
}

/// The first word that is an option typed with a typographic dash.
fn dashed<'a>(own: &'static [&'static str], words: &[&'a str]) -> Option<UsageError<'a>> {
    for word in words {
        if let Some(rest) = after_dash(word) {
            return Some(UsageError::Extra(word, own, Hint::Dash(rest)));
        }
    }
    None
}

/// What is wrong with the words after those of a command.
pub(crate) fn word_error<'a>(
    alloc: Global,
    row: &CommandRow,
    words: &[&'a str],
    id: Option<&'a str>,
) -> Result<UsageError<'a>, AllocError> {
    let (own, _, operand, ..) = *row;
    let after = words.get(own.len()..).unwrap_or(&[]);
    if let Some(error) = dashed(own, after) {
        return Ok(error);
    }
    match (operand, after) {
        (Operand::Count, _) => count_error(alloc, row, after),
        (Operand::EntryCount, _) => Ok(tail_error(row, after)),
        (Operand::EntryId, _) => Ok(id_error(row, Numbered::Entry, after, id)),
        (Operand::DeviceId, _) => Ok(id_error(row, Numbered::Inventory, after, id)),
        (_, []) => Ok(UsageError::Missing(own, operand)),
        (Operand::Kind, [word]) => unknown_kind(alloc, word),
        (Operand::Names | Operand::SensorType, [_, word, ..]) => {
            Ok(UsageError::Extra(word, own, Hint::Quotes))
        }
        (Operand::Kind | Operand::Entity, [_, word, ..]) => Ok(UsageError::Extra(
            word,
            own,
            Hint::None,
        )),
        (_, [word, ..]) if own.len() == 1 && !matches!(own, ["capture" | "check" | "metrics"]) =>
            unknown(alloc, word, own),
        (_, [word, ..]) if is_file(word) => Ok(UsageError::Extra(word, own, Hint::File)),
        (_, [word, ..]) => Ok(UsageError::Extra(word, own, Hint::None)),
    }
}
