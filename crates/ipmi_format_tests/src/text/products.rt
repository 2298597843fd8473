//! The formula of a reading, computed again by repeated multiplication, for many factors and raw bytes.
use crate::cases::parts;
use ipmi_text::{Factors, Fixed, convert};
use std::process::Abort;

/// `analog format, raw byte|number`. Format 0 is unsigned, 1 is ones' complement and 2 is two's complement.
const NUMBERS: &str = "0 0|0
0 1|1
0 127|127
0 128|128
0 200|200
0 255|255
1 0|0
1 1|1
1 127|127
1 128|-127
1 200|-55
1 255|0
2 0|0
2 1|1
2 127|127
2 128|-128
2 200|-56
2 255|-1";

const SLOPES: [i16; 8] = [-512, -511, -7, -1, 0, 1, 6, 511];

const OFFSETS: [i16; 5] = [-512, -1, 0, 1, 511];

const EXPONENTS: [i8; 16] = [-8, -7, -6, -5, -4, -3, -2, -1, 0, 1, 2, 3, 4, 5, 6, 7];

/// A raw byte, its number, and the factors of a linear sensor.
#[derive(Clone, Copy, Debug)]
struct Case {
    format: u8,
    raw: u8,
    number: i128,
    m: i16,
    b: i16,
    k1: i8,
    k2: i8,
}

fn times_ten(number: i128, count: i8) -> i128 {
    let mut number = number;
    for _ in 0..count {
        number = number.wrapping_mul(10);
    }
    number
}

/// The reading in units of 10^-16. B is multiplied by ten K1 + 8 times, and M times the number 8 times. Their sum is
/// multiplied by ten K2 + 8 times.
fn product(case: &Case) -> i128 {
    let slope = times_ten((case.m as i128).wrapping_mul(case.number), 8);
    let offset = times_ten(case.b as i128, case.k1.wrapping_add(8));
    times_ten(slope.wrapping_add(offset), case.k2.wrapping_add(8))
}

/// Asserts the reading of a case.
fn assert_reading(rt: &impl Abort, case: &Case) {
    let factors = Factors::new(case.format, 0, case.m, case.b, case.k1, case.k2);
    let value = convert(&factors.expect(rt, "factors"), case.raw);
    assert!(rt;
        value == Some(Fixed(product(case))),
        "{case:?}: got {value:?}"
    );
}

/// The same with each pair of exponents.
fn assert_readings_of_exponents(rt: &impl Abort, case: Case) {
    for k1 in EXPONENTS {
        for k2 in EXPONENTS {
            assert_reading(rt, &Case { k1, k2, ..case });
        }
    }
}

/// The same with each slope, offset and pair of exponents.
fn assert_readings_of_factors(rt: &impl Abort, case: Case) {
    for m in SLOPES {
        for b in OFFSETS {
            assert_readings_of_exponents(rt, Case { m, b, ..case });
        }
    }
}

/// The case of a line, with all factors zero.
fn case_of(rt: &impl Abort, line: &str) -> Case {
    let (bits, number) = parts(rt, line);
    let (format, raw) = bits.split_once(' ').expect(rt, line);
    Case {
        format: format.parse::<u8>().expect(rt, line),
        raw: raw.parse::<u8>().expect(rt, line),
        number: number.parse::<i128>().expect(rt, line),
        m: 0,
        b: 0,
        k1: 0,
        k2: 0,
    }
}

/// Asserts the readings of the raw byte of a line.
fn assert_readings_of_line(rt: &impl Abort, line: &str) {
    assert_readings_of_factors(rt, case_of(rt, line));
}

// 18 raw bytes, 8 slopes, 5 offsets, and 16 times 16 exponents: 184,320 readings.
#[test]
fn repeated_multiplication_gives_the_same_readings(rt: HostRuntime) {
    for line in NUMBERS.lines() {
        assert_readings_of_line(&rt, line);
    }
    let lines = NUMBERS.lines().count();
    assert!(rt; lines == 18, "{lines} raw bytes");
}
