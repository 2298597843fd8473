//! Writes messages: why a run failed, and others. A message is one line, written piece by piece without first
//! building its text. So it needs no memory, and out of memory can be reported too.
ghost use Rattle.std.specs.Prelude.{◌≡◌, ◌<◌, Some, not, true};
ghost use Rattle.std.specs.Char.{is_ascii_control};
ghost use Rattle.std.specs.List.{list_all};
ghost use Rattle.std.specs.Fmt.{digit_glyph};
ghost use Rattle.ipmi_text.specs.Hex.{byte_h, upper_byte, word_h};
ghost use Rattle.ipmi_output.specs.Received.{WritesAll};
ghost use Rattle.ipmi_output.specs.Failure.{escaped_byte, escaped_name, failure_text, joined_parts, joined_pieces, line_text, part_text, piece_text, unreadable_text};

use crate::failure::Failure;
use crate::message_sink::{MessageSink, offer_all};
use crate::sink::SinkFault;
use ipmi_text::{ByteH, WordH};
use itoa::Buffer;
use std::fmt;

/// A piece of a message.
#[derive(Clone, Copy, Debug)]
pub(crate) enum MessagePiece<'a> {
    /// A text as it is.
    Text(&'a str),
    /// A number in decimal.
    Number(usize),
    /// A two-byte number as four upper-case hex digits and an `h`.
    Word(u16),
    /// A byte as two upper-case hex digits and an `h`.
    Byte(u8),
}

/// A message: its texts and pieces, in order.
pub(crate) struct Message<'a>(
    pub &'a str,
    pub MessagePiece<'a>,
    pub &'a str,
    pub MessagePiece<'a>,
);

impl<'a> fmt::Display for MessagePiece<'a> {
    ghost output = { λ piece. Some (piece_text piece) };

    fn fmt<W: fmt::Write>(&self, f: &mut fmt::Formatter<W>) -> fmt::Result {
        match self {
            MessagePiece::Text(text) => f.write_str(text),
            MessagePiece::Number(number) => fmt::Display::fmt(number, f),
            MessagePiece::Word(word) => fmt::Display::fmt(&WordH(*word), f),
            MessagePiece::Byte(byte) => fmt::Display::fmt(&ByteH(*byte), f),
        }
    }
}

/// A part of a message line.
#[derive(Clone, Copy, Debug)]
pub enum Part<'a> {
    /// A text as it is.
    Text(&'a str),
    /// A name, or other user input. A control byte, below 20h or 7Fh, is written as `\x` and two upper-case hex
    /// digits, so that the message stays one line. All other bytes are written as they are.
    Escaped(&'a str),
    /// A number in decimal.
    Number(usize),
    /// The message of a failure.
    Failure(&'a Failure<'a>),
}

/// Writes the parts as a line. After Err the sink has taken a prefix of the line.
pub fn write_message<E: MessageSink>(err: &mut E, parts: &[Part<'_>]) -> Result<(), SinkFault>
    ensures { WritesAll (E.received err.old) (E.received err.new) result
        (line_text (joined_parts parts.now)) }
{
    write_parts(err, parts)?;
    offer_all(err, b"\n")
}

/// Writes the message of the failure as a line ([`write_message`]).
pub fn write_failure<E: MessageSink>(err: &mut E, failure: &Failure<'_>) -> Result<(), SinkFault>
    ensures { WritesAll (E.received err.old) (E.received err.new) result
        (line_text (failure_text failure.now)) }
{
    write_message(err, &[Part::Failure(failure)])
}

/// Writes a line: the input with this name could not be read, or is too long ([`write_message`]).
pub fn write_unreadable<E: MessageSink>(err: &mut E, name: &str) -> Result<(), SinkFault>
    ensures { WritesAll (E.received err.old) (E.received err.new) result
        (line_text (unreadable_text name.now)) }
{
    write_message(err, &[Part::Text("cannot read "), Part::Escaped(name)])
}

/// Writes the parts, one after another.
fn write_parts<E: MessageSink>(err: &mut E, parts: &[Part<'_>]) -> Result<(), SinkFault>
    ensures { WritesAll (E.received err.old) (E.received err.new) result (joined_parts parts.now) }
{
    for part in parts {
        write_part(err, part)?;
    }
    Ok(())
}

/// Writes a part.
fn write_part<E: MessageSink>(err: &mut E, part: &Part<'_>) -> Result<(), SinkFault>
    ensures { WritesAll (E.received err.old) (E.received err.new) result (part_text part.now) }
{
    match part {
        Part::Text(text) => offer_all(err, text.as_bytes()),
        Part::Escaped(name) => write_escaped(err, name.as_bytes()),
        Part::Number(number) => offer_all(err, Buffer::new().format(*number).as_bytes()),
        Part::Failure(failure) => {
            let Message(before, subject, after, last) = failure.message();
            write_pieces(
                err,
                &[
                    MessagePiece::Text(before),
                    subject,
                    MessagePiece::Text(after),
                    last,
                ],
            )
        }
    }
}

/// Whether the name has no control byte.
fn is_plain(name: &[u8]) -> bool
    ensures { result ≡ list_all (λ byte. not (is_ascii_control byte)) name.now }
{
    name.iter().all(|byte| !byte.is_ascii_control())
}

/// Writes a name with its control bytes escaped.
fn write_escaped<E: MessageSink>(err: &mut E, name: &[u8]) -> Result<(), SinkFault>
    ensures { WritesAll (E.received err.old) (E.received err.new) result (escaped_name name.now) }
{
    if is_plain(name) {
        return offer_all(err, name);
    }
    for byte in name {
        write_byte(err, *byte)?;
    }
    Ok(())
}

/// Writes a byte of a name, escaped if it is a control byte.
fn write_byte<E: MessageSink>(err: &mut E, byte: u8) -> Result<(), SinkFault>
    ensures { WritesAll (E.received err.old) (E.received err.new) result (escaped_byte byte) }
{
    if byte.is_ascii_control() {
        let [high, low] = upper_byte(byte);
        offer_all(err, &[b'\\', b'x', high, low])
    } else {
        offer_all(err, &[byte])
    }
}

/// Writes the pieces, one after another.
fn write_pieces<E: MessageSink>(err: &mut E, pieces: &[MessagePiece<'_>]) -> Result<(), SinkFault>
    ensures { WritesAll (E.received err.old) (E.received err.new) result (joined_pieces pieces.now) }
{
    for piece in pieces {
        write_piece(err, piece)?;
    }
    Ok(())
}

/// Writes a piece.
fn write_piece<E: MessageSink>(err: &mut E, piece: &MessagePiece<'_>) -> Result<(), SinkFault>
    ensures { WritesAll (E.received err.old) (E.received err.new) result (piece_text piece.now) }
{
    match piece {
        MessagePiece::Text(text) => offer_all(err, text.as_bytes()),
        MessagePiece::Number(number) => offer_all(err, Buffer::new().format(*number).as_bytes()),
        MessagePiece::Word(word) => offer_all(err, &word_h(*word)),
        MessagePiece::Byte(byte) => offer_all(err, &byte_h(*byte)),
    }
}

/// A two-byte number as four upper-case hex digits and an `h`.
fn word_h(word: u16) -> [u8; 5]
    ensures { result ≡ word_h word }
{
    let [high, next] = upper_byte((word / 256) as u8);
    let [low, last, mark] = byte_h((word % 256) as u8);
    [high, next, low, last, mark]
}

/// A byte as two upper-case hex digits and an `h`.
fn byte_h(byte: u8) -> [u8; 3]
    ensures { result ≡ byte_h byte }
{
    let [high, low] = upper_byte(byte);
    [high, low, b'h']
}

/// A byte as two upper-case hex digits.
fn upper_byte(byte: u8) -> [u8; 2]
    ensures { result ≡ upper_byte byte }
{
    [upper_digit(byte / 16), upper_digit(byte % 16)]
}

/// An upper-case hex digit.
fn upper_digit(n: u8) -> u8
    requires { n < 16 }
    ensures { result ≡ digit_glyph true n }
{
    if n < 10 { b'0' + n } else { b'A' + (n - 10) }
}
