//! What is printed by its number: entries of the event log by their record ids, and inventories by their device ids.
ghost use Rattle.std.specs.Prelude.{◌≡◌, ◌++◌, ◌≤◌, All, IfOk, IfSome, OnOk, flat_map, true};
ghost use Rattle.std.specs.List.{filter_map, list_all};
ghost use Rattle.ipmi_command_line.specs.Command.{IsTask};
ghost use Rattle.ipmi_command_line.specs.Commands.{texts};
ghost use Rattle.ipmi_command_line.specs.Numbered.{highest, is_in_range, is_number, lowest, task_numbered, task_of_word, tasks_in, tasks_of_ids, tasks_of_ranges, tasks_of_words};

use crate::command::{FIRST_ID, LAST_ID};
use crate::filters::{IdRange, ids_of};
use crate::number::number;
use crate::task::{Task, Tasks};
use ipmi_bus::LAST_FRU_DEVICE_ID;
use std::alloc::{AllocError, Global};

/// What a number names.
#[derive(Clone, Copy, Debug, PartialEq, Eq)]
pub(crate) enum Numbered {
    /// An entry of the event log.
    Entry,
    /// The inventory of a device.
    Inventory,
}

impl Numbered {
    /// The lowest number.
    fn lowest(self) -> u16
        ensures { result ≡ lowest self }
    {
        match self {
            Numbered::Entry => FIRST_ID,
            Numbered::Inventory => 0,
        }
    }

    /// The highest number.
    fn highest(self) -> u16
        ensures { result ≡ highest self }
    {
        match self {
            Numbered::Entry => LAST_ID,
            Numbered::Inventory => u16::from(LAST_FRU_DEVICE_ID),
        }
    }

    /// The task that prints what has this number.
    fn task(self, number: u16) -> Task
        requires { number ≤ highest self }
        ensures { result ≡ task_numbered self number }
    {
        match self {
            Numbered::Entry => Task::SelGet(number),
            Numbered::Inventory => Task::Fru(Some(number as u8)),
        }
    }

    /// The task that prints what has the number that the word is.
    fn task_of_word(self, word: &str) -> Option<Task>
        ensures { result ≡ task_of_word self word.now }
    {
        match number(word, self.lowest(), self.highest()) {
            Some(number) => Some(self.task(number)),
            None => None,
        }
    }

    /// Whether the word is such a number.
    pub(crate) fn has(self, word: &str) -> bool
        ensures { result ≡ is_number self word.now }
    {
        self.task_of_word(word).is_some()
    }

    /// Whether these are such numbers.
    fn has_range(self, range: &IdRange) -> bool
        ensures { result ≡ is_in_range self range.now }
    {
        self.lowest() <= range.first && range.last <= self.highest()
    }
}

/// Whether each word is such a number.
fn are_numbers(kind: Numbered, words: &[&str]) -> bool
    ensures { result ≡ list_all (λ word. is_number kind word.now) words.now }
{
    words.iter().all(|word| kind.has(word))
}

/// The tasks of the numbers that the words are.
fn tasks_among(alloc: Global, kind: Numbered, words: &[&str]) -> Result<Vec<Task>, AllocError>
    ensures { IfOk result (λ tasks. tasks.items ≡ filter_map (λ word. task_of_word kind word.now) words.now) }
{
    words
        .iter()
        .filter_map(|word| kind.task_of_word(word))
        .collect(alloc)
}

/// The tasks of the numbers that the words are. None if one of them is no such number.
pub(crate) fn tasks_of_words(
    alloc: Global,
    kind: Numbered,
    words: &[&str],
) -> Result<Option<Tasks>, AllocError>
    ensures value { IfOk result (λ tasks. tasks ≡ tasks_of_words kind (texts words.now)) }
    ensures range { IfOk result (λ tasks. IfSome tasks (λ tasks. All IsTask tasks)) }
{
    if !are_numbers(kind, words) {
        return Ok(None);
    }
    Ok(Some(Tasks::new(tasks_among(alloc, kind, words)?)))
}

/// Whether each range has only such numbers.
fn are_in_range(kind: Numbered, ranges: &[IdRange]) -> bool
    ensures { result ≡ list_all (is_in_range kind) ranges.now }
{
    ranges.iter().all(|range| kind.has_range(range))
}

/// Appends the tasks of a range of numbers.
fn push_range(tasks: &mut Vec<Task>, kind: Numbered, range: &IdRange) -> Result<(), AllocError>
    requires { range.now.last ≤ highest kind }
    ensures { OnOk result (tasks.new.items ≡ tasks.old.items ++ tasks_in kind range.now) }
{
    for number in range.first..range.last + 1 {
        tasks.push(kind.task(number))?;
    }
    Ok(())
}

/// The tasks of these ranges of numbers.
fn tasks_of_ranges(
    alloc: Global,
    kind: Numbered,
    ranges: &[IdRange],
) -> Result<Vec<Task>, AllocError>
    requires { list_all (is_in_range kind) ranges.now ≡ true }
    ensures { IfOk result (λ tasks. tasks.items ≡ flat_map (tasks_in kind) ranges.now) }
{
    let mut tasks = Vec::new(alloc);
    for range in ranges {
        push_range(&mut tasks, kind, range)?;
    }
    Ok(tasks)
}

/// The tasks of the ids and ranges of ids of `--id`. None if they can't be read, or if one is no such number.
pub(crate) fn tasks_of_ids(
    alloc: Global,
    kind: Numbered,
    text: &str,
) -> Result<Option<Tasks>, AllocError>
    ensures value { IfOk result (λ tasks. tasks ≡ tasks_of_ids kind text.now) }
    ensures range { IfOk result (λ tasks. IfSome tasks (λ tasks. All IsTask tasks)) }
{
    let Some(ids) = ids_of(alloc, text)? else {
        return Ok(None);
    };
    if !are_in_range(kind, ids.as_slice()) {
        return Ok(None);
    }
    Ok(Some(Tasks::new(tasks_of_ranges(alloc, kind, ids.as_slice())?)))
}
