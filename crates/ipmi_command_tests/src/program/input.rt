//! Words and images as a program reads them.
use ipmi_program::{InputFault, MOST_BYTES, read_image, words_of};
use std::alloc::Global;
use std::io::{Error, ErrorKind, Read, Result};
use std::process::Abort;

/// The arguments of a process, split at spaces.
fn arguments(rt: &impl Abort, alloc: Global, line: &str) -> Vec<String> {
    let mut arguments = Vec::new(alloc);
    for word in line.split_whitespace() {
        let word = String::from_str(alloc, word).expect(rt, "memory");
        arguments.push(word).ok().expect(rt, "memory");
    }
    arguments
}

/// Asserts the words of a process with these arguments. Each has a space before it.
fn assert_words(rt: &impl Abort, alloc: Global, line: &str, wanted: &str) {
    let words = words_of(alloc, &arguments(rt, alloc, line)).expect(rt, line);
    let mut got = String::new(alloc);
    for word in words.as_slice() {
        got.push_str(" ").expect(rt, "memory");
        got.push_str(word.as_str()).expect(rt, "memory");
    }
    drop(words);
    assert!(rt; got.as_str() == wanted, "{line}: {got}");
}

#[test]
fn words_are_the_arguments(rt: HostRuntime) {
    assert_words(&rt, rt.alloc(), "serdimko sdr list", " serdimko sdr list");
    assert_words(&rt, rt.alloc(), "x", " x");
}

#[test]
fn without_arguments_the_program_has_a_name(rt: HostRuntime) {
    assert_words(&rt, rt.alloc(), "", " ipmitool");
}

#[test]
fn an_image_is_all_that_a_reader_has(rt: HostRuntime) {
    let bytes = read_image(rt.alloc(), b"ipmi-image 1\n".as_slice()).expect(&rt, "an image");
    assert!(rt;
        bytes.as_slice() == b"ipmi-image 1\n".as_slice(),
        "{bytes:?}"
    );
    let bytes = read_image(rt.alloc(), b"".as_slice()).expect(&rt, "no byte");
    assert!(rt; bytes.is_empty(), "{bytes:?}");
}

/// A reader that fails.
#[derive(Drop)]
struct Failing(ErrorKind);

impl Read for Failing {
    fn read(&mut self, _buf: &mut [u8]) -> Result<usize> {
        Err(Error::from(self.0))
    }
}

/// `(error of the reader, fault, text of the fault)`.
const FAULTS: [(ErrorKind, InputFault, &str); 8] = [
    (ErrorKind::OutOfMemory, InputFault::Memory, "out of memory"),
    (ErrorKind::NotFound, InputFault::NotFound, "no such file"),
    (
        ErrorKind::IsADirectory,
        InputFault::IsDirectory,
        "is a directory",
    ),
    (
        ErrorKind::NotADirectory,
        InputFault::NotDirectory,
        "part of its path is not a directory",
    ),
    (
        ErrorKind::FilesystemLoop,
        InputFault::LinkLoop,
        "too many symbolic links",
    ),
    (
        ErrorKind::InvalidFilename,
        InputFault::NameTooLong,
        "file name too long",
    ),
    (
        ErrorKind::PermissionDenied,
        InputFault::PermissionDenied,
        "permission denied",
    ),
    (ErrorKind::TimedOut, InputFault::Other, "input/output error"),
];

/// Asserts the fault of a reader that fails with this kind of error.
fn assert_fault(rt: &impl Abort, alloc: Global, kind: ErrorKind, wanted: InputFault, text: &str) {
    let result = read_image(alloc, Failing(kind));
    assert!(rt; result == Err(wanted), "{text}: {result:?}");
    let shown = format!(in alloc; "{wanted}").expect(rt, "memory");
    assert!(rt; shown.as_str() == text, "{text}: {shown}");
}

#[test]
fn a_fault_says_why_nothing_was_read(rt: HostRuntime) {
    for (kind, wanted, text) in FAULTS {
        assert_fault(&rt, rt.alloc(), kind, wanted, text);
    }
    assert_too_long(&rt, rt.alloc());
}

/// Asserts the fault that no error of a reader causes.
fn assert_too_long(rt: &impl Abort, alloc: Global) {
    let shown = format!(in alloc; "{}", InputFault::TooLong).expect(rt, "memory");
    assert!(rt; shown.as_str() == "longer than 64 MiB", "{shown}");
    assert!(rt; MOST_BYTES == 67108864, "{MOST_BYTES} bytes");
}
