//! Calls of a controller and its answers, as lines of text. No memory is taken here.
ghost use Rattle.std.specs.Prelude.{◌<◌, ◌≤◌};

use crate::cases::parts;
use ipmi_bus::{Code, Controller, Part, Shelf};
use std::process::Abort;
use std::str::SplitWhitespace;

/// The largest number of bytes requested by a call.
const MOST: usize = 17;

/// The most characters of an answer.
const LONGEST: usize = 48;

/// An answer as a text: its numbers and its bytes in hex, or `code` and the completion code.
#[derive(Drop)]
pub struct Answer {
    text: [u8; LONGEST],
    len: usize,
}

impl Answer {
    fn new() -> Answer {
        Answer {
            text: [0; LONGEST],
            len: 0,
        }
    }

    fn push(&mut self, byte: u8) {
        if self.len < LONGEST {
            self.text[self.len] = byte;
            self.len += 1;
        }
    }

    fn push_hex(&mut self, bytes: &[u8]) {
        for byte in bytes {
            let mut digits = [0; 2];
            let _ = hex::encode_to_slice([*byte], &mut digits);
            self.push(digits[0]);
            self.push(digits[1]);
        }
    }

    /// The bytes in hex.
    fn of_bytes(bytes: &[u8]) -> Answer {
        let mut answer = Answer::new();
        answer.push_hex(bytes);
        answer
    }

    /// A number in hex, and the bytes in hex.
    fn of_two(number: &[u8], bytes: &[u8]) -> Answer {
        let mut answer = Answer::of_bytes(number);
        answer.push(b' ');
        answer.push_hex(bytes);
        answer
    }

    /// Two numbers in hex, and the bytes in hex.
    fn of_three(first: &[u8], second: &[u8], bytes: &[u8]) -> Answer {
        let mut answer = Answer::of_two(first, second);
        answer.push(b' ');
        answer.push_hex(bytes);
        answer
    }

    /// The word `code`, and the code in hex.
    fn of_code(code: Code) -> Answer {
        let mut answer = Answer::new();
        for byte in b"code " {
            answer.push(*byte);
        }
        answer.push_hex(&[code.0]);
        answer
    }

    /// A part of a record: the next id, the number of its bytes, and the whole buffer.
    fn of_part(part: Result<Part, Code>, into: &[u8]) -> Answer {
        match part {
            Ok(part) => Answer::of_three(&part.next.to_be_bytes(), &[part.got], into),
            Err(code) => Answer::of_code(code),
        }
    }

    /// The same for a part of an inventory.
    fn of_fru_part(part: Result<u8, Code>, into: &[u8]) -> Answer {
        match part {
            Ok(got) => Answer::of_two(&[got], into),
            Err(code) => Answer::of_code(code),
        }
    }

    fn text(&self, rt: &impl Abort) -> &str {
        let text = self.text.get(..self.len).expect(rt, "a text");
        std::str::from_utf8(text).expect(rt, "text")
    }

    /// Asserts the text. A failure names the case.
    fn assert_text(&self, rt: &impl Abort, wanted: &str, case: &str) {
        let text = self.text(rt);
        assert!(rt; text == wanted, "{case}: got {text}");
    }
}

/// The rest of a line's words, and the line itself, which names the case.
#[derive(Drop)]
pub struct LineWords<'a> {
    line: &'a str,
    left: SplitWhitespace<'a>,
}

impl<'a> LineWords<'a> {
    /// All words of a line.
    pub fn of(line: &'a str) -> LineWords<'a> {
        LineWords {
            line,
            left: line.split_whitespace(),
        }
    }

    /// The next word.
    pub fn next(&mut self, rt: &impl Abort) -> &'a str {
        self.left.next().expect(rt, self.line)
    }

    /// The next word, a byte in hex.
    pub fn next_byte(&mut self, rt: &impl Abort) -> u8 {
        u8::from_str_radix(self.next(rt), 16).expect(rt, self.line)
    }

    fn next_number(&mut self, rt: &impl Abort) -> u16 {
        u16::from_str_radix(self.next(rt), 16).expect(rt, self.line)
    }

    /// The number of bytes requested.
    fn next_len(&mut self, rt: &impl Abort) -> usize
        ensures some { 0 < result }
        ensures fits { result ≤ 17 }
    {
        let len = usize::from(self.next_byte(rt));
        assert!(rt; 0 < len && len <= MOST, "{}: {len} bytes", self.line);
        len
    }

    fn next_shelf(&mut self, rt: &impl Abort) -> Shelf {
        match self.next(rt) {
            "sdr" => Shelf::Sdr,
            "sel" => Shelf::Sel,
            _ => panic!(rt; "{}: no shelf", self.line),
        }
    }
}

fn reserve<C: Controller>(rt: &impl Abort, ctl: &mut C, words: &mut LineWords) -> Answer {
    match ctl.reserve(words.next_shelf(rt)) {
        Ok(number) => Answer::of_bytes(&number.to_be_bytes()),
        Err(code) => Answer::of_code(code),
    }
}

fn part<C: Controller>(rt: &impl Abort, ctl: &mut C, words: &mut LineWords) -> Answer {
    let shelf = words.next_shelf(rt);
    let reservation = words.next_number(rt);
    let id = words.next_number(rt);
    let offset = words.next_byte(rt);
    let len = words.next_len(rt);
    let mut into = [0xEE; MOST];
    let into = &mut into[..len];
    let got = ctl.part(shelf, reservation, id, offset, into);
    Answer::of_part(got, into)
}

fn info<C: Controller>(rt: &impl Abort, ctl: &mut C, words: &mut LineWords) -> Answer {
    match ctl.info(words.next_shelf(rt)) {
        Ok(bytes) => Answer::of_bytes(&bytes),
        Err(code) => Answer::of_code(code),
    }
}

fn reading<C: Controller>(rt: &impl Abort, ctl: &mut C, words: &mut LineWords) -> Answer {
    let lun = words.next_byte(rt);
    let number = words.next_byte(rt);
    match ctl.reading(lun, number) {
        Ok(reading) => Answer::of_bytes(&[
            reading.raw,
            reading.flags,
            reading.status,
            reading.more,
        ]),
        Err(code) => Answer::of_code(code),
    }
}

fn fru_size<C: Controller>(rt: &impl Abort, ctl: &mut C, words: &mut LineWords) -> Answer {
    match ctl.fru_size(words.next_byte(rt)) {
        Ok(size) => Answer::of_two(&size.size.to_be_bytes(), &[u8::from(size.words)]),
        Err(code) => Answer::of_code(code),
    }
}

fn fru_part<C: Controller>(rt: &impl Abort, ctl: &mut C, words: &mut LineWords) -> Answer {
    let id = words.next_byte(rt);
    let offset = words.next_number(rt);
    let len = words.next_len(rt);
    let mut into = [0xEE; MOST];
    let into = &mut into[..len];
    let got = ctl.fru_part(id, offset, into);
    Answer::of_fru_part(got, into)
}

/// Makes the call of a line. Its numbers are in hex:
///
/// | line | answer |
/// |---|---|
/// | `reserve SHELF` | the reservation |
/// | `part SHELF RESERVATION ID OFFSET LEN` | the next id, the number of bytes returned, and LEN bytes |
/// | `info SHELF` | 14 bytes |
/// | `reading LUN NUMBER` | four bytes |
/// | `fru_size ID` | the size, and 01 for a device that is accessed by words |
/// | `fru_part ID OFFSET LEN` | the number of bytes returned, and LEN bytes |
///
/// A byte that was not returned is EEh.
pub fn ask<C: Controller>(rt: &impl Abort, ctl: &mut C, call: &str) -> Answer {
    let mut words = LineWords::of(call);
    match words.next(rt) {
        "reserve" => reserve(rt, ctl, &mut words),
        "part" => part(rt, ctl, &mut words),
        "info" => info(rt, ctl, &mut words),
        "reading" => reading(rt, ctl, &mut words),
        "fru_size" => fru_size(rt, ctl, &mut words),
        "fru_part" => fru_part(rt, ctl, &mut words),
        _ => panic!(rt; "{call} is no call"),
    }
}

/// Asserts the answer to the call of a line `call|answer`. A failure names the case.
pub fn assert_answer_of_case<C: Controller>(rt: &impl Abort, ctl: &mut C, line: &str, case: &str) {
    let (call, wanted) = parts(rt, line);
    ask(rt, ctl, call).assert_text(rt, wanted, case);
}

/// The same. The line is the case.
pub fn assert_answer<C: Controller>(rt: &impl Abort, ctl: &mut C, line: &str) {
    assert_answer_of_case(rt, ctl, line, line);
}

/// The same for each line.
pub fn assert_answers<C: Controller>(rt: &impl Abort, ctl: &mut C, lines: &str) {
    for line in lines.lines() {
        assert_answer(rt, ctl, line);
    }
}
