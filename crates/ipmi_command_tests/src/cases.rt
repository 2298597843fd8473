//! Splitting a case into its parts. If a part is missing, the test fails and names the case.
use std::process::Abort;

/// A line before and after its first bar.
pub(crate) fn parts<'a>(rt: &impl Abort, line: &'a str) -> (&'a str, &'a str) {
    line.split_once('|').expect(rt, line)
}

/// The first line of a case, and the lines after it.
pub(crate) fn first_line<'a>(rt: &impl Abort, case: &'a str) -> (&'a str, &'a str) {
    case.split_once('\n').expect(rt, case)
}

/// The number in a text.
pub(crate) fn number(rt: &impl Abort, text: &str) -> u32 {
    text.parse::<u32>().expect(rt, text)
}

/// The byte of two hex digits.
pub(crate) fn byte_of(rt: &impl Abort, digits: &str) -> u8 {
    u8::from_str_radix(digits, 16).expect(rt, digits)
}

/// The two numbers of a text such as `8-71`.
pub(crate) fn range(rt: &impl Abort, text: &str) -> (usize, usize) {
    let (first, last) = text.split_once('-').expect(rt, text);
    (number(rt, first) as usize, number(rt, last) as usize)
}

/// A command over an image, and its expected outcome.
#[derive(Clone, Copy)]
pub(crate) struct Case<'a> {
    /// The first line, by which a failure names the case.
    pub line: &'a str,
    pub words: &'a str,
    /// The name of the image.
    pub image: &'a str,
    /// The rest of the first line.
    pub more: &'a str,
    pub wanted: &'a str,
}

/// Reads a case: `words|image|more`, then the expected lines.
pub(crate) fn case_of<'a>(rt: &impl Abort, case: &'a str) -> Case<'a> {
    let (line, wanted) = first_line(rt, case);
    let (words, rest) = parts(rt, line);
    let (image, more) = parts(rt, rest);
    Case {
        line,
        words,
        image,
        more,
        wanted,
    }
}
