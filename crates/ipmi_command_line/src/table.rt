//! The table of commands: the task for the words of a command line.
ghost use Rattle.std.specs.Prelude.{◌≡◌, IfOk, IfSome, map, option_map};
ghost use Rattle.ipmi_command_line.specs.Command.{IsCount, IsTask};
ghost use Rattle.ipmi_command_line.specs.Table.{inventory_of, kind_among, kind_of, newest, oldest, task_of, task_of_four, task_of_one, task_of_three, task_of_two};

use crate::command::{FIRST_ID, LAST_ID};
use crate::number::number;
use crate::task::{Count, Kind, Task};
use crate::words::Word;
use ipmi_bus::{LAST_FRU_DEVICE_ID, Shelf};
use std::alloc::{AllocError, Global};

/// A kind of sensor data records: the word that names it, and the kind. A row is a tuple, as specs/ can then read the table.
pub(crate) type KindRow = (&'static str, Kind);

/// The kinds of sensor data records that a word names.
pub(crate) const KINDS: [KindRow; 7] = [
    ("all", Kind::All),
    ("full", Kind::Full),
    ("compact", Kind::Compact),
    ("event", Kind::Event),
    ("generic", Kind::Generic),
    ("mclocator", Kind::Mc),
    ("fru", Kind::Fru),
];

/// The row of a table of kinds whose word this is.
fn kind_row(table: &'static [KindRow], word: &str) -> Option<&'static KindRow>
    ensures { option_map (λ row. row.now.1) result ≡ kind_among table.entry.now word.now }
{
    table.iter().find(|row| word == row.0)
}

/// The kind of sensor data record named by a word.
pub(crate) fn kind_of(word: &str) -> Option<Kind>
    ensures { result ≡ kind_of word.now }
{
    match kind_row(&KINDS, word) {
        Some(row) => Some(row.1),
        None => None,
    }
}

/// `fru print ID`.
fn inventory_of(word: &str) -> Option<Task>
    ensures value { result ≡ inventory_of word.now }
    ensures range { IfSome result IsTask }
{
    let id = number(word, 0, u16::from(LAST_FRU_DEVICE_ID))?;
    Some(Task::Fru(Some(id as u8)))
}

/// The `n` oldest entries, or all entries if `n` is 0.
pub(crate) fn oldest(n: u16) -> Count
    ensures value { result ≡ oldest n }
    ensures range { IsCount result }
{
    if n == 0 { Count::All } else { Count::First(n) }
}

/// The `n` newest entries, or all entries if `n` is 0.
fn newest(n: u16) -> Count
    ensures value { result ≡ newest n }
    ensures range { IsCount result }
{
    if n == 0 { Count::All } else { Count::Last(n) }
}

fn task_of_one(a: &str) -> Option<Task>
    ensures value { result ≡ task_of_one a.now }
    ensures range { IfSome result IsTask }
{
    match a {
        "fru" => Some(Task::Fru(None)),
        "sdr" => Some(Task::List(Kind::Sensors)),
        "sel" => Some(Task::Info(Shelf::Sel)),
        _ => None,
    }
}

fn task_of_two(a: &str, b: &str) -> Option<Task>
    ensures value { result ≡ task_of_two a.now b.now }
    ensures range { IfSome result IsTask }
{
    match (a, b) {
        ("fru", "print") => Some(Task::Fru(None)),
        ("sdr", "list") => Some(Task::List(Kind::Sensors)),
        ("sdr", "elist") => Some(Task::Elist(Kind::Sensors)),
        ("sdr", "hex") => Some(Task::Hex),
        ("sdr", "info") => Some(Task::Info(Shelf::Sdr)),
        ("sel", "info") => Some(Task::Info(Shelf::Sel)),
        ("sel", "list") => Some(Task::SelList(Count::All)),
        ("image", "rewrite") => Some(Task::Rewrite),
        _ => None,
    }
}

fn task_of_three(alloc: Global, a: &str, b: &str, c: &str) -> Result<Option<Task>, AllocError>
    ensures value { IfOk result (λ task. task ≡ task_of_three a.now b.now c.now) }
    ensures range { IfOk result (λ task. IfSome task IsTask) }
{
    Ok(match (a, b) {
        ("fru", "print") => inventory_of(c),
        ("sdr", "list") => kind_of(c).map(Task::List),
        ("sdr", "elist") => kind_of(c).map(Task::Elist),
        ("sdr", "get") => Some(Task::Get(Word::new(alloc, c)?)),
        ("sel", "list") => number(c, 0, u16::MAX).map(|n| Task::SelList(oldest(n))),
        ("sel", "get") => number(c, FIRST_ID, LAST_ID).map(Task::SelGet),
        _ => None,
    })
}

pub(crate) fn task_of_four(a: &str, b: &str, c: &str, d: &str) -> Option<Task>
    ensures value { result ≡ task_of_four a.now b.now c.now d.now }
    ensures range { IfSome result IsTask }
{
    match (a, b, c) {
        ("sel", "list", "first") => number(d, 0, u16::MAX).map(|n| Task::SelList(oldest(n))),
        ("sel", "list", "last") => number(d, 0, u16::MAX).map(|n| Task::SelList(newest(n))),
        _ => None,
    }
}

/// The task named by the words, without the program's name and the options. None if they name no task. No words at
/// all mean `sdr hex`.
#[tactic(auto, using(crate::proofs::TableLemmas::rows))]
pub(crate) fn task_of(alloc: Global, words: &[&str]) -> Result<Option<Task>, AllocError>
    ensures value { IfOk result (λ task. task ≡ task_of (map (λ word. word.now) words.now)) }
    ensures range { IfOk result (λ task. IfSome task IsTask) }
{
    match words {
        [] => Ok(Some(Task::Hex)),
        [a] => Ok(task_of_one(a)),
        [a, b] => Ok(task_of_two(a, b)),
        [a, b, c] => task_of_three(alloc, a, b, c),
        [a, b, c, d] => Ok(task_of_four(a, b, c, d)),
        _ => Ok(None),
    }
}
