//! Parses the options and words of a command line with `clap`. Options may stand at any place.
ghost use Rattle.std.specs.Prelude.{◌≡◌, ◌⊎◌, IfOk, IfErr, false, fold, length, map, option_map, true};
ghost use Rattle.clap.specs.Words.{app_of, first_of, found_of, kind_of, rows_of};
ghost use Rattle.clap.specs.declared.error.kind.ErrorKind.TheVariants.{OutOfMemory};
ghost use Rattle.ipmi_command_line.specs.Arguments.{base, command_line, has_other, is_reference, is_taken, rows_of_words};
ghost use Rattle.ipmi_command_line.specs.Options.{option_state, with_option};
ghost use Rattle.ipmi_command_line.specs.Values.{has_value, is_given, values_of};

use crate::options::{ANYWHERE, OPTIONS, OptionRow, REFERENCE, is_any_present, option_rule};
use clap::{Arg, ArgAction, ArgMatches, Command, Error};
use std::alloc::{AllocError, Global};
use std::convert::AsStr;

/// The program without options. Its `--help` is an option like the others, as it may stand beside any command.
fn base<'a>(alloc: Global) -> Command<'a>
    ensures { app_of result ≡ base }
{
    Command::new(alloc, "serdimko").disable_help_flag(true)
}

/// The program with the options of a table too.
fn with_options<'a>(
    alloc: Global,
    program: Command<'a>,
    table: &'static [OptionRow],
) -> Result<Command<'a>, AllocError>
    ensures { IfOk result (λ c. app_of c ≡ fold with_option (app_of program.entry) (map option_state table.entry.now)) }
{
    let mut program = program;
    for row in table {
        program = program.arg(option_rule(alloc, row))?;
    }
    Ok(program)
}

/// The command line: all options, and any number of words.
#[tactic(auto, unfolding(crate::specs::Options::options, crate::specs::Options::reference_options, crate::specs::Options::options_anywhere))]
fn command_line<'a>(alloc: Global) -> Result<Command<'a>, AllocError>
    ensures { IfOk result (λ c. app_of c ≡ command_line) }
{
    let program = with_options(alloc, base(alloc), &REFERENCE)?;
    let program = with_options(alloc, program, &OPTIONS)?;
    let program = with_options(alloc, program, &ANYWHERE)?;
    program.arg(Arg::new(alloc, "words").action(ArgAction::Append))
}

/// The options and words of a command line. The first word is the program's name.
pub(crate) fn arguments<'a, S: AsStr>(
    alloc: Global,
    words: &'a [S],
) -> Result<ArgMatches<'a>, Error>
    ensures ok { IfOk result (λ m. (is_taken (map S.text words.entry.now) ≡ true) ×
        (rows_of (found_of m) ≡ rows_of_words (map S.text words.entry.now))) }
    ensures err { IfErr result (λ e. (kind_of e ≡ OutOfMemory) ⊎
        (is_taken (map S.text words.entry.now) ≡ false)) }
{
    command_line(alloc)?.try_get_matches_from(words)
}

/// The value of the option with this name, if it was given.
#[tactic(auto, using(crate::proofs::ArgumentLemmas::values))]
pub(crate) fn value<'a>(matches: &ArgMatches<'a>, name: &str) -> Option<&'a str>
    ensures { option_map (λ t. t.now) result ≡ first_of name.now (rows_of (found_of matches.now)) }
{
    matches.get_str(name)
}

/// Whether the option without a value was given.
pub(crate) fn is_given(matches: &ArgMatches<'_>, name: &str) -> bool
    ensures { result ≡ is_given name.now (rows_of (found_of matches.now)) }
{
    matches.get_count(name) > 0
}

/// Whether the option with a value was given.
pub(crate) fn has_value(matches: &ArgMatches<'_>, name: &str) -> bool
    ensures { result ≡ has_value name.now (rows_of (found_of matches.now)) }
{
    value(matches, name).is_some()
}

/// How often an option was given that may come several times.
#[tactic(auto, using(crate::proofs::ArgumentLemmas::value_count_is))]
pub(crate) fn value_count(matches: &ArgMatches<'_>, name: &str) -> usize
    ensures { result ≡ length (values_of name.now (rows_of (found_of matches.now))) }
{
    matches.get_strs(name).unwrap_or(&[]).len()
}

/// Whether there is an option that the reference program lacks.
#[tactic(auto, unfolding(crate::specs::Arguments::has_other, crate::specs::Options::options))]
fn has_other(matches: &ArgMatches<'_>) -> bool
    ensures { result ≡ has_other (rows_of (found_of matches.now)) }
{
    is_any_present(&OPTIONS, matches) || is_given(matches, "version") || is_given(matches, "help")
}

/// Whether there are only options of the reference program, and at most one image.
pub(crate) fn is_reference(matches: &ArgMatches<'_>) -> bool
    ensures { result ≡ is_reference (rows_of (found_of matches.now)) }
{
    !has_other(matches) && value_count(matches, "image") <= 1
}
