//! Decimals, and the decimals of raw readings by their factors.
use crate::cases::{assert_text, parts};
use ipmi_text::{Factors, Fixed, convert, fixed_text};
use std::alloc::{AllocError, Global};
use std::process::Abort;
use std::str::{FromStr, SplitWhitespace};

/// `units of 10^-16|decimal`.
const DECIMALS: &str = "0|0
1|0.0000000000000001
-1|-0.0000000000000001
-15000000000000000|-1.5
10000000000000000|1
-10000000000000000|-1
9999999999999999|0.9999999999999999
10000000000000001|1.0000000000000001
1000000000000000|0.1
120600000000000000|12.06
-600000000000000|-0.06
120000000000000000|12
-512013056000000000000000000000000|-51201305600000000
170141183460469231731687303715884105727|17014118346046923173168.7303715884105727
-170141183460469231731687303715884105728|-17014118346046923173168.7303715884105728
100000000000000000000000000000000000000|10000000000000000000000
-100000000000000000000000000000000000000|-10000000000000000000000
1000000000000000000|100
18446744073709551616|1844.6744073709551616
12345678901234567890|1234.567890123456789";

/// `analog format, linearization, M, B, K1, K2, raw reading|decimal`.
const READINGS: &str = "0 0 6 0 0 -2 201|12.06
0 0 6 0 0 -2 200|12
1 0 6 0 0 -2 255|0
2 0 6 0 0 -2 255|-0.06
0 1 6 0 0 -2 201|no value
0 127 6 0 0 -2 201|no value
3 0 6 0 0 -2 201|no value
0 0 -512 -512 7 7 255|-51201305600000000
0 0 0 1 -8 -8 0|0.0000000000000001
1 0 1 0 0 0 128|-127
2 0 1 0 0 0 128|-128
2 0 1 0 0 0 127|127
1 0 1 0 0 0 127|127
0 0 1 5 1 -1 45|9.5";

/// `analog format, linearization, M, B, K1, K2|whether each is in its range`.
const FACTORS: &str = "0 0 -512 -512 -8 -8|in range
3 127 511 511 7 7|in range
0 0 0 0 0 0|in range
4 0 0 0 0 0|out of range
0 128 0 0 0 0|out of range
0 0 512 0 0 0|out of range
0 0 -513 0 0 0|out of range
0 0 0 512 0 0|out of range
0 0 0 -513 0 0|out of range
0 0 0 0 8 0|out of range
0 0 0 0 -9 0|out of range
0 0 0 0 0 8|out of range
0 0 0 0 0 -9|out of range
255 255 32767 -32768 127 -128|out of range";

fn assert_decimal(rt: &impl Abort, alloc: Global, line: &str) {
    let (units, wanted) = parts(rt, line);
    let units = units.parse::<i128>().expect(rt, line);
    assert_text(rt, fixed_text(alloc, Fixed(units)), wanted, line);
}

/// The number in the next word of a line.
fn next_number<N: FromStr<Err: Drop>>(
    rt: &impl Abort,
    words: &mut SplitWhitespace<'_>,
    line: &str,
) -> N {
    let word = words.next().expect(rt, line);
    match word.parse::<N>() {
        Ok(number) => number,
        Err(_) => panic!(rt; "{line}: no number: {word}"),
    }
}

/// The factors in six words of a line, if they are in range.
fn factors_of(rt: &impl Abort, words: &mut SplitWhitespace<'_>, line: &str) -> Option<Factors> {
    let format = next_number::<u8>(rt, words, line);
    let linear = next_number::<u8>(rt, words, line);
    let m = next_number::<i16>(rt, words, line);
    let b = next_number::<i16>(rt, words, line);
    let k1 = next_number::<i8>(rt, words, line);
    let k2 = next_number::<i8>(rt, words, line);
    Factors::new(format, linear, m, b, k1, k2)
}

/// Asserts whether factors are in range.
fn assert_range(rt: &impl Abort, line: &str) {
    let (words, wanted) = parts(rt, line);
    let got = match factors_of(rt, &mut words.split_whitespace(), line) {
        Some(_) => "in range",
        None => "out of range",
    };
    assert!(rt; got == wanted, "{line}: got {got}");
}

/// The decimal of a raw reading, or `no value`.
fn reading_text(alloc: Global, factors: &Factors, raw: u8) -> Result<String, AllocError> {
    match convert(factors, raw) {
        Some(value) => fixed_text(alloc, value),
        None => format!(in alloc; "no value"),
    }
}

fn assert_reading(rt: &impl Abort, alloc: Global, line: &str) {
    let (words, wanted) = parts(rt, line);
    let mut words = words.split_whitespace();
    let factors = factors_of(rt, &mut words, line).expect(rt, line);
    let raw = next_number::<u8>(rt, &mut words, line);
    assert_text(rt, reading_text(alloc, &factors, raw), wanted, line);
}

#[test]
fn each_number_has_its_decimal(rt: HostRuntime) {
    for line in DECIMALS.lines() {
        assert_decimal(&rt, rt.alloc(), line);
    }
}

#[test]
fn each_reading_has_its_decimal(rt: HostRuntime) {
    for line in READINGS.lines() {
        assert_reading(&rt, rt.alloc(), line);
    }
}

#[test]
fn factors_out_of_their_ranges_are_refused(rt: HostRuntime) {
    for line in FACTORS.lines() {
        assert_range(&rt, line);
    }
}
