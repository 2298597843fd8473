//! Each call that takes memory, once with ample memory, and once with requests refused.
use super::lines::command_of_words;
use ipmi_command_line::{Command, Task, UsageFault, Word, Words};
use std::alloc::{AllocError, Global};
use std::process::Abort;

const LINE: [&str; 6] = ["ipmitool", "--image", "server.image", "sdr", "get", "Fan 1"];

fn words(alloc: Global) -> Result<Words, AllocError> {
    let mut words = Words::new(alloc);
    for word in LINE {
        words.push(word)?;
    }
    Ok(words)
}

fn command(rt: &impl Abort, alloc: Global) -> Result<Command, UsageFault> {
    let words = words(alloc)?;
    command_of_words(rt, alloc, words)
}

fn assert_name(rt: &impl Abort, word: &Word) {
    let got = word.as_str();
    assert!(rt; got == "Fan 1", "the name: got {got}");
}

/// Asserts the name and the image of the command. It takes no memory.
fn assert_command(rt: &impl Abort, command: &Command) {
    match command.task() {
        Task::Get(name) => assert_name(rt, name),
        _ => panic!(rt; "another task"),
    }
    let image = command.image().expect(rt, "an image");
    let got = image.as_str();
    assert!(rt; got == "server.image", "the image: got {got}");
}

// With ample memory each call succeeds.
#[test]
fn not_always_out_of_memory(rt: HostRuntime) {
    assert_name(&rt, &Word::new(rt.alloc(), "Fan 1").expect(&rt, "memory"));
    assert_command(&rt, &command(&rt, rt.alloc()).expect(&rt, "a command"));
}

// With memory refused each call succeeds, or fails when out of memory.
#[test]
fn memory_may_be_refused(rt: HostRuntime) {
    if let Ok(word) = Word::new(rt.alloc(), "Fan 1") {
        assert_name(&rt, &word);
    }
    match command(&rt, rt.alloc()) {
        Ok(command) => assert_command(&rt, &command),
        Err(fault) => assert!(rt; fault == UsageFault::Memory, "{fault:?}"),
    }
}
