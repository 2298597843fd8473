//! Splitting a case, reading bytes in hex, and comparing a text or a line with the expected one.
use ipmi_records::KnownReading;
use std::alloc::{AllocError, Global};
use std::process::Abort;

/// The text of a line before and after its first bar.
pub(crate) fn parts<'a>(rt: &impl Abort, line: &'a str) -> (&'a str, &'a str) {
    line.split_once('|').expect(rt, line)
}

/// The text of a line before, between and after its first two bars.
pub(crate) fn three_parts<'a>(rt: &impl Abort, line: &'a str) -> (&'a str, &'a str, &'a str) {
    let (first, rest) = parts(rt, line);
    let (second, third) = rest.split_once('|').expect(rt, line);
    (first, second, third)
}

/// The byte in two hex digits.
pub(crate) fn byte_of(rt: &impl Abort, digits: &str) -> u8 {
    u8::from_str_radix(digits, 16).expect(rt, digits)
}

/// The bytes of hex digits.
pub(crate) fn bytes_of(rt: &impl Abort, alloc: Global, digits: &str) -> Vec<u8> {
    hex::decode(alloc, digits).expect(rt, digits)
}

/// What is known of a reading: the digits of its four bytes, `none`, or `lacking` if it was not captured.
pub(crate) fn known_of(rt: &impl Abort, text: &str) -> KnownReading {
    if text == "lacking" {
        return KnownReading::NotCaptured;
    }
    KnownReading::from(ipmi_fixtures::answer_of(text).expect(rt, text))
}

/// Asserts that a call returned this text.
pub(crate) fn assert_text(
    rt: &impl Abort,
    got: Result<String, AllocError>,
    wanted: &str,
    case: &str,
) {
    let got = got.expect(rt, case);
    assert!(rt; got.as_str() == wanted, "{case}: got {got}");
}

/// Asserts that a call returned this text, or that memory was refused.
pub(crate) fn assert_text_or_refused(
    rt: &impl Abort,
    got: Result<String, AllocError>,
    wanted: &str,
) {
    if let Ok(got) = got {
        assert!(rt; got.as_str() == wanted, "wanted {wanted}: got {got}");
    }
}

/// Asserts that a call returned this text, followed by this end.
pub(crate) fn assert_text_with_end(
    rt: &impl Abort,
    got: Result<String, AllocError>,
    wanted: &str,
    end: &str,
    case: &str,
) {
    let got = got.expect(rt, case);
    let start = got.as_str().strip_suffix(end);
    assert!(rt; start == Some(wanted), "{case}: got {got}");
}

/// The bytes of hex digits on several lines.
pub(crate) fn bytes_of_lines(rt: &impl Abort, alloc: Global, lines: &str) -> Vec<u8> {
    let mut bytes = Vec::new(alloc);
    for line in lines.lines() {
        let part = bytes_of(rt, alloc, line);
        bytes.extend_from_slice(&part).expect(rt, "memory");
    }
    bytes
}

/// The line of a case at this index, counted from 0.
pub(crate) fn line_of<'a>(rt: &impl Abort, case: &'a str, place: usize) -> &'a str {
    case.lines().nth(place).expect(rt, case)
}

/// The id of four hex digits.
pub(crate) fn id_of(rt: &impl Abort, digits: &str) -> u16 {
    u16::from_str_radix(digits, 16).expect(rt, digits)
}

/// Asserts that a call returned the expected line, which ends with a line feed.
pub(crate) fn assert_line(rt: &impl Abort, got: Result<Vec<u8>, AllocError>, wanted: &str) {
    let got = got.expect(rt, wanted);
    let got = std::str::from_utf8(&got).expect(rt, wanted);
    assert!(rt;
        got.strip_suffix("\n") == Some(wanted),
        "wanted {wanted}: got {got}"
    );
}

/// Asserts that a call returned the expected line, or that memory was refused.
pub(crate) fn assert_line_or_refused(
    rt: &impl Abort,
    got: Result<Vec<u8>, AllocError>,
    wanted: &str,
) {
    if got.is_ok() {
        assert_line(rt, got, wanted);
    }
}
