//! Why `serdimko` refuses a command line.
ghost use Rattle.std.specs.Prelude.{◌≡◌};
ghost use Rattle.ipmi_command_line.specs.declared.error.UsageError.{UsageError};

use crate::commands::{COMMANDS, CommandRow, Operand, begins_with};
use crate::table::KINDS;
use std::alloc::AllocError;
use std::error::Error;
use std::fmt;

/// What the user may have meant.
#[derive(Clone, Copy, Debug)]
pub enum Hint<'a> {
    /// Nothing is known.
    None,
    /// This word.
    Word(&'static str),
    /// A password on the command line of stock `ipmitool`.
    Password,
    /// An option with which stock `ipmitool` connects.
    Connection(&'static str),
    /// An id as listings print it, with these hex digits. An entry's or a device's id also goes with `--id`.
    HexId(&'a str, Operand),
    /// The id `0000`, from which a walk begins.
    FirstRecord,
    /// A name with spaces that is not quoted.
    Quotes,
    /// A file.
    File,
    /// The list of sensor types.
    SensorTypes,
    /// A kind of sensor data records, without `list` before it.
    Kind(&'a str),
    /// An option whose first dash is typographic. What follows the dash.
    Dash(&'a str),
    /// A command of stock `ipmitool` that this program will not have: the words before, and this one.
    Ipmitool(&'static [&'static str], &'a str),
}

/// Why a command line is refused. It displays as one line, in which control characters of the user are escaped.
#[derive(Debug, Drop)]
pub enum UsageError<'a> {
    /// Out of memory.
    Memory,
    /// `clap` does not accept the options and words. This is what it says.
    Line(String, Hint<'a>),
    /// No command has this word after these words.
    UnknownWord(&'a str, &'static [&'static str], Hint<'a>),
    /// The word is none that the operand may be.
    WrongWord(&'a str, Operand, Hint<'a>),
    /// The command of these words lacks what follows them.
    Missing(&'static [&'static str], Operand),
    /// The command of these words takes no such word, or not so many.
    Extra(&'a str, &'static [&'static str], Hint<'a>),
    /// The word is no number that the operand may be.
    Number(&'a str, Operand, Hint<'a>),
    /// The option does not take this value.
    Value(&'static str, &'a str, Hint<'a>),
    /// The option does not go with the command of these words.
    Misplaced(&'static str, &'static [&'static str]),
    /// There are both words and `--id` for the ids of the command of these words.
    TwoIds(&'static [&'static str]),
    /// There is no live controller for `capture`.
    NotLive,
    /// There is a live controller for `image rewrite`.
    NotSaved,
    /// There are several images, and the command of these words takes one.
    SeveralImages(&'static [&'static str]),
    /// Standard input is an image twice.
    StandardInputTwice,
    /// There are both an image and a live controller.
    ImageAndLive,
    /// There is `--records` without a live controller.
    RecordsWithoutLive,
    /// There is `--label` without `--json` or `--csv`.
    LabelInText,
    /// There are two forms of output.
    TwoForms,
    /// There is `--separator` without `--csv`.
    SeparatorWithoutCsv,
    /// The time of `--since` is after that of `--until`.
    SinceAfterUntil,
    /// There is `--cursor-file` beside a number of entries, an id to start from, or several images.
    CursorOfPart,
}

impl From<AllocError> for UsageError<'_> {
    ghost from_gives = { λ _ e. e ≡ UsageError.Memory };

    fn from(_error: AllocError) -> Self {
        UsageError::Memory
    }
}

/// A text of the user. A control byte, below 20h or 7Fh, is written as `\x` and two upper-case hex digits, so that the message
/// stays one line.
#[derive(Clone, Copy)]
struct Escaped<'a>(&'a str);

impl fmt::Display for Escaped<'_> {
    fn fmt<W: fmt::Write>(&self, f: &mut fmt::Formatter<W>) -> fmt::Result {
        for c in self.0.chars() {
            if c.is_ascii_control() {
                write!(f, "\\x{:02X}", c as u32)?;
            } else {
                f.write_char(c)?;
            }
        }
        Ok(())
    }
}

/// Words with spaces between them.
#[derive(Clone, Copy)]
struct Spaced(&'static [&'static str]);

impl fmt::Display for Spaced {
    fn fmt<W: fmt::Write>(&self, f: &mut fmt::Formatter<W>) -> fmt::Result {
        let mut space = "";
        for word in self.0 {
            write!(f, "{space}{word}")?;
            space = " ";
        }
        Ok(())
    }
}

/// The word that the command has after these words, if it begins with them.
pub(crate) fn next_word(row: &CommandRow, after: &[&str]) -> Option<&'static str> {
    let (words, ..) = *row;
    if !begins_with(words, after) {
        return None;
    }
    words.get(after.len()).copied()
}

/// Writes the words that commands of the table have after these words.
fn write_next_words<W: fmt::Write>(
    f: &mut fmt::Formatter<W>,
    table: &'static [CommandRow],
    after: &[&str],
) -> fmt::Result {
    let mut last = "";
    for row in table {
        let word = next_word(row, after).unwrap_or(last);
        // rows that begin alike stand together
        if word != last {
            write!(f, " {word}")?;
        }
        last = word;
    }
    Ok(())
}

/// Writes the kinds of sensor data records that a word names.
fn write_kinds<W: fmt::Write>(f: &mut fmt::Formatter<W>) -> fmt::Result {
    f.write_str("a kind")?;
    for (place, (name, _)) in KINDS.iter().enumerate() {
        f.write_str(match place {
            0 => ": ",
            _ if place + 1 == KINDS.len() => " or ",
            _ => ", ",
        })?;
        f.write_str(name)?;
    }
    Ok(())
}

/// What follows the words of a command, as messages and help name it.
impl fmt::Display for Operand {
    fn fmt<W: fmt::Write>(&self, f: &mut fmt::Formatter<W>) -> fmt::Result {
        let words = match self {
            Operand::Kind => return write_kinds(f),
            Operand::Nothing => "nothing",
            Operand::SensorType => "a sensor type, which is a name or a number from 0 to 255",
            Operand::Entity => "an entity: ID or ID.INSTANCE, 0 to 255 and 0 to 127",
            Operand::Names => "a NAME",
            Operand::Count => "a number from 0 to 65535",
            Operand::EntryCount => "a number from 1 to 65535",
            Operand::EntryId => "an ID from 1 to 65534",
            Operand::DeviceId => "an ID from 0 to 254",
            Operand::Topic => "a command",
        };
        f.write_str(words)
    }
}

/// Writes which command of stock `ipmitool` the words are.
fn write_ipmitool<W: fmt::Write>(
    f: &mut fmt::Formatter<W>,
    after: &'static [&'static str],
    word: &str,
) -> fmt::Result {
    f.write_str(": this program only reads; write ipmitool")?;
    for word in after {
        write!(f, " {word}")?;
    }
    write!(f, " {}", Escaped(word))
}

impl fmt::Display for Hint<'_> {
    fn fmt<W: fmt::Write>(&self, f: &mut fmt::Formatter<W>) -> fmt::Result {
        match self {
            Hint::None => Ok(()),
            Hint::Word(word) => write!(f, ": did you mean '{word}'?"),
            Hint::Password => f.write_str(
                ": for a live machine put the password in IPMI_PASSWORD, and write serdimko-live -E ... -- COMMAND",
            ),
            Hint::Connection(option) => {
                write!(
                    f,
                    ": for a live machine write serdimko-live {option} ... -- COMMAND"
                )
            }
            Hint::HexId(digits, operand) => {
                let digits = Escaped(digits);
                match operand {
                    Operand::Nothing => write!(f, ": write {digits}"),
                    Operand::EntryId | Operand::DeviceId => {
                        write!(f, ": in hex write 0x{digits}, or --id {digits}")
                    }
                    _ => write!(f, ": in hex write 0x{digits}"),
                }
            }
            Hint::FirstRecord => f.write_str(": leave it out to begin with the first record"),
            Hint::Quotes => f.write_str(": quote a name that has spaces"),
            Hint::File => f.write_str(": a file comes after --image"),
            Hint::SensorTypes => f.write_str(": for the names write serdimko sdr type"),
            Hint::Kind(kind) => write!(f, ": did you mean 'sdr list {kind}'?"),
            Hint::Dash(rest) if rest.len() == 1 => {
                write!(
                    f,
                    ": an option begins with a plain dash, as -{}",
                    Escaped(rest)
                )
            }
            Hint::Dash(rest) => write!(
                f,
                ": an option begins with two plain dashes, as --{}",
                Escaped(rest)
            ),
            Hint::Ipmitool(after, word) => write_ipmitool(f, after, word),
        }
    }
}

/// What the value of an option must be.
fn rule_of(option: &str) -> &'static str {
    match option {
        "from" => "four hex digits from 0001 to FFFE",
        "part" => "a number from 1 to 254, decimal without leading zeros",
        "tries" => "a number from 0 to 255, decimal without leading zeros",
        "id" => { "a list of hex ids (events 1 to FFFE, devices 0 to FE), as 16 or 0001-0005,000A" }
        "since" | "until" => {
            "a date, a time with Z or an offset, from 1970 to 2106, or hours or days ago: 2026-11-30, 2026-11-30T12:00Z, 2h or 3d"
        }
        "now" => {
            "a date, or a time with Z or an offset, from 1970 to 2106: 2026-11-30 or 2026-11-30T12:00Z"
        }
        "worse" => "warning or critical",
        "live" => "TOOL:FOLDER, which serdimko-live gives",
        "separator" => "comma or semicolon",
        _ => "KEY=VALUE, with a key that no object and no earlier label has",
    }
}

impl fmt::Display for UsageError<'_> {
    fn fmt<W: fmt::Write>(&self, f: &mut fmt::Formatter<W>) -> fmt::Result {
        match self {
            UsageError::Memory => f.write_str("out of memory"),
            UsageError::Line(said, hint) => write!(f, "{}{hint}", Escaped(said.as_str())),
            UsageError::UnknownWord(word, after, hint) => write_unknown(f, word, after, hint),
            UsageError::WrongWord(word, operand, hint) => {
                write!(f, "'{}' is not {operand}{hint}", Escaped(word))
            }
            UsageError::Missing(words, operand) => write!(f, "'{}' needs {operand}", Spaced(words)),
            UsageError::Extra(word, words, hint) => {
                write!(
                    f,
                    "unexpected word '{}' with '{}'{hint}",
                    Escaped(word),
                    Spaced(words)
                )
            }
            UsageError::Number(word, operand, hint) => write!(
                f,
                "'{}' is not {operand}, in decimal without leading zeros or as 0x and up to four hex digits{hint}",
                Escaped(word)
            ),
            UsageError::Value(option, value, hint) => {
                write!(
                    f,
                    "--{option} '{}' is not {}{hint}",
                    Escaped(value),
                    rule_of(option)
                )
            }
            UsageError::Misplaced(option, words) => {
                write!(f, "--{option} does not go with '{}'", Spaced(words))
            }
            UsageError::TwoIds(words) => {
                write!(f, "'{}' takes an ID or --id, not both", Spaced(words))
            }
            UsageError::SeveralImages(words) => write!(f, "'{}' takes one image", Spaced(words)),
            _ => f.write_str(self.rule()),
        }
    }
}

/// Writes that no command has the word there, and what it may be.
fn write_unknown<W: fmt::Write>(
    f: &mut fmt::Formatter<W>,
    word: &str,
    after: &'static [&'static str],
    hint: &Hint<'_>,
) -> fmt::Result {
    let word = Escaped(word);
    if after.is_empty() {
        write!(f, "unknown command '{word}'")?;
    } else {
        write!(f, "unknown word '{word}' after '{}'", Spaced(after))?;
    }
    let Hint::None = hint else {
        return write!(f, "{hint}");
    };
    f.write_str(": use one of")?;
    write_next_words(f, &COMMANDS, after)
}

impl UsageError<'_> {
    /// The rule that options break together.
    fn rule(&self) -> &'static str {
        match self {
            UsageError::NotLive => "'capture' needs a live controller: see serdimko-live --help",
            UsageError::NotSaved => {
                "'image rewrite' needs a saved image: write serdimko --image FILE image rewrite"
            }
            UsageError::StandardInputTwice => "standard input is given twice",
            UsageError::ImageAndLive => "--image does not go with a live controller",
            UsageError::RecordsWithoutLive => "--records goes only with a live controller",
            UsageError::LabelInText => "--label goes only with --json or --csv",
            UsageError::TwoForms => "--json does not go with --csv",
            UsageError::SinceAfterUntil => "--since is later than --until",
            UsageError::CursorOfPart => {
                "--cursor-file goes with one whole log: not with a number of entries, --from or several images"
            }
            UsageError::SeparatorWithoutCsv => "--separator goes only with --csv",
            _ => "the command line can't be read: see serdimko --help",
        }
    }
}

impl Error for UsageError<'_> {}
