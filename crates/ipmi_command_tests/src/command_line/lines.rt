//! Command lines of tests.
use ipmi_command_line::{Command, UsageFault, Words, command_of};
use std::alloc::Global;
use std::process::Abort;
use std::str::SplitWhitespace;

/// The words of a line that has only the program's name.
fn name_only(rt: &impl Abort, alloc: Global) -> Words {
    let mut words = Words::new(alloc);
    words.push("ipmitool").expect(rt, "memory");
    words
}

/// The command of these words, the first of which is the program's name.
pub(crate) fn command_of_words(
    rt: &impl Abort,
    alloc: Global,
    words: Words,
) -> Result<Command, UsageFault> {
    assert!(rt; 0 < words.as_slice().len(), "no word");
    let command = command_of(alloc, &words);
    drop(words);
    command
}

/// The command of a line, split at spaces.
pub(crate) fn read_line(rt: &impl Abort, alloc: Global, line: &str) -> Result<Command, UsageFault> {
    let mut words = name_only(rt, alloc);
    for word in line.split_whitespace() {
        words.push(word).expect(rt, "memory");
    }
    command_of_words(rt, alloc, words)
}

/// The command of a line, split at commas.
pub(crate) fn read_words(
    rt: &impl Abort,
    alloc: Global,
    line: &str,
) -> Result<Command, UsageFault> {
    let mut words = name_only(rt, alloc);
    for word in line.split(',') {
        words.push(word).expect(rt, "memory");
    }
    command_of_words(rt, alloc, words)
}

/// The command of a line without a fault, split at spaces.
pub(crate) fn command(rt: &impl Abort, alloc: Global, line: &str) -> Command {
    read_line(rt, alloc, line).expect(rt, line)
}

/// The same, but split at commas if there is one.
pub(crate) fn command_of_case(rt: &impl Abort, alloc: Global, line: &str) -> Command {
    if line.find(',').is_none() {
        return command(rt, alloc, line);
    }
    read_words(rt, alloc, line).expect(rt, line)
}
