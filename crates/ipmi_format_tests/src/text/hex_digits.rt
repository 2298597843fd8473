//! Bytes and words in hex digits: in lower case, and in upper case with an `h`.
use crate::cases::{assert_text, byte_of, id_of, three_parts};
use ipmi_text::{ByteH, HexByte, HexWord, WordH};
use std::alloc::Global;
use std::process::Abort;

/// `digits in any case|in lower case|in upper case`.
const BYTES: &str = "00|00|00h
09|09|09h
0a|0a|0Ah
0F|0f|0Fh
10|10|10h
9C|9c|9Ch
a0|a0|A0h
FF|ff|FFh";

/// Asserts the digits of a byte.
fn assert_byte(rt: &impl Abort, alloc: Global, line: &str) {
    let (digits, lower, upper) = three_parts(rt, line);
    let byte = byte_of(rt, digits);
    let displayed = HexByte(byte);
    assert_text(rt, format!(in alloc; "{displayed}"), lower, line);
    let displayed = ByteH(byte);
    assert_text(rt, format!(in alloc; "{displayed}"), upper, line);
}

#[test]
fn a_byte_is_two_hex_digits(rt: HostRuntime) {
    for line in BYTES.lines() {
        assert_byte(&rt, rt.alloc(), line);
    }
}

/// `digits in any case|in lower case|in upper case`. The high byte comes first.
const WORDS: &str = "0000|0000|0000h
0001|0001|0001h
00A0|00a0|00A0h
0b00|0b00|0B00h
1A2b|1a2b|1A2Bh
fffe|fffe|FFFEh
FFFF|ffff|FFFFh";

fn assert_word(rt: &impl Abort, alloc: Global, line: &str) {
    let (digits, lower, upper) = three_parts(rt, line);
    let word = id_of(rt, digits);
    let displayed = HexWord(word);
    assert_text(rt, format!(in alloc; "{displayed}"), lower, line);
    let displayed = WordH(word);
    assert_text(rt, format!(in alloc; "{displayed}"), upper, line);
}

#[test]
fn a_word_is_four_hex_digits(rt: HostRuntime) {
    for line in WORDS.lines() {
        assert_word(&rt, rt.alloc(), line);
    }
}
