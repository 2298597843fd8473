//! The table of options. What is read and what is refused comes from it.
ghost use Rattle.std.specs.Prelude.{◌≡◌, false, map};
ghost use Rattle.std.specs.List.{list_any};
ghost use Rattle.clap.specs.Words.{found_of, rows_of, rule_of};
ghost use Rattle.ipmi_command_line.specs.Options.{form_in, is_named, is_present, option_rule, option_state, takes_value};

use crate::arguments::{has_value, is_given};
use clap::{Arg, ArgAction, ArgMatches};
use std::alloc::Global;

/// A form of output that an option asks for.
#[derive(Clone, Copy, Debug, PartialEq, Eq)]
pub enum Form {
    /// Objects, one in a line.
    Json,
    /// Rows of values.
    Csv,
}

/// The options that go with some commands only. The rows of the table of commands say which; a form of output goes with those that take
/// labels.
pub(crate) const OPTIONS: [OptionRow; 21] = [
    ("json", None, Given::Form(Form::Json)),
    ("csv", None, Given::Form(Form::Csv)),
    ("label", None, Given::Values),
    ("live", None, Given::Value),
    ("records", None, Given::Value),
    ("id", None, Given::Value),
    ("separator", None, Given::Value),
    ("type", None, Given::Value),
    ("entity", None, Given::Value),
    ("exclude", None, Given::Values),
    ("since", None, Given::Value),
    ("until", None, Given::Value),
    ("now", None, Given::Value),
    ("worse", None, Given::Value),
    ("cursor-file", None, Given::Value),
    ("output", Some('o'), Given::Value),
    ("strict", None, Given::Flag),
    ("quiet", None, Given::Flag),
    ("partial", None, Given::Flag),
    ("perfdata", None, Given::Flag),
    ("openmetrics", None, Given::Flag),
];

/// The options of the reference program.
pub(crate) const REFERENCE: [OptionRow; 4] = [
    ("image", None, Given::Values),
    ("from", None, Given::Value),
    ("part", None, Given::Value),
    ("tries", None, Given::Value),
];

/// The options that stand beside any command.
pub(crate) const ANYWHERE: [OptionRow; 2] = [
    ("version", Some('V'), Given::Flag),
    ("help", Some('h'), Given::Flag),
];

/// How an option is given.
#[derive(Clone, Copy, Debug, PartialEq, Eq)]
pub(crate) enum Given {
    /// Once, with a value.
    Value,
    /// Any number of times, each time with a value.
    Values,
    /// Without a value, any number of times.
    Flag,
    /// In the same way; it asks for this form of output.
    Form(Form),
}

/// An option: its name, its letter if it has one, and how it is given. A row is a tuple, as specs/ can then read the table.
pub(crate) type OptionRow = (&'static str, Option<char>, Given);

/// The rule for `clap` of an option.
pub(crate) fn option_rule<'a>(alloc: Global, row: &OptionRow) -> Arg<'a>
    ensures rule { rule_of result ≡ option_rule (option_state row.now) }
    ensures local { result.global ≡ false }
{
    let (name, letter, given) = *row;
    let rule = Arg::new(alloc, name).long(name);
    let rule = match given {
        Given::Value => rule,
        Given::Values => rule.action(ArgAction::Append),
        Given::Flag | Given::Form(_) => rule.action(ArgAction::Count),
    };
    match letter {
        Some(letter) => rule.short(letter),
        None => rule,
    }
}

/// Whether the option was given.
pub(crate) fn is_present(row: &OptionRow, matches: &ArgMatches<'_>) -> bool
    ensures { result ≡ is_present (rows_of (found_of matches.now)) (option_state row.now) }
{
    let (name, _, given) = *row;
    match given {
        Given::Value | Given::Values => has_value(matches, name),
        Given::Flag | Given::Form(_) => is_given(matches, name),
    }
}

/// Whether an option of the table was given.
pub(crate) fn is_any_present(table: &'static [OptionRow], matches: &ArgMatches<'_>) -> bool
    ensures { result ≡ list_any (is_present (rows_of (found_of matches.now))) (map option_state table.entry.now) }
{
    table.iter().any(|row| is_present(row, matches))
}

/// The form of output that the option asks for, if it was given.
pub(crate) fn form_in(row: &OptionRow, matches: &ArgMatches<'_>) -> Option<Form>
    ensures { result ≡ form_in (rows_of (found_of matches.now)) (option_state row.now) }
{
    match row.2 {
        Given::Form(form) if is_present(row, matches) => Some(form),
        _ => None,
    }
}

/// Whether the row has this name and takes a value.
fn is_named(row: &OptionRow, name: &str) -> bool
    ensures { result ≡ is_named name.now (option_state row.now) }
{
    row.0 == name && matches!(row.2, Given::Value | Given::Values)
}

/// Whether a row of the table has this name and takes a value.
fn is_among(table: &'static [OptionRow], name: &str) -> bool
    ensures { result ≡ list_any (is_named name.now) (map option_state table.entry.now) }
{
    table.iter().any(|row| is_named(row, name))
}

/// Whether an option of this name takes a value.
#[tactic(auto, unfolding(crate::specs::Options::options, crate::specs::Options::reference_options))]
pub fn takes_value(name: &str) -> bool
    ensures { result ≡ takes_value name.now }
{
    is_among(&REFERENCE, name) || is_among(&OPTIONS, name)
}
