//! The fields that only a full record has: the numbers of its formula, its factors and its thresholds.
use super::examples::{changed, full_of};
use crate::cases::assert_text;
use ipmi_records::{FullSensor, Threshold};
use std::process::Abort;

/// Other factors, and other lower thresholds, which are not readable.
const CHANGES: &str = "7=fe,10=83,21=81,23=18,24=8c,26=80,27=02,28=40,30=7f,40=11,41=22,42=33";

/// The numbers of a reading's formula, from the analog format to K2.
fn formula(full: &FullSensor<'_>) -> [i16; 6] {
    [
        full.analog_format() as i16,
        full.linearization() as i16,
        full.m(),
        full.b(),
        full.k1() as i16,
        full.k2() as i16,
    ]
}

/// Asserts whether a threshold is readable, and its value.
fn assert_threshold(
    rt: &impl Abort,
    full: &FullSensor<'_>,
    threshold: Threshold,
    wanted: (bool, u8),
) {
    let got = (full.is_readable(threshold), full.threshold(threshold));
    assert!(rt; got == wanted, "{threshold:?}: got {got:?}");
}

#[test]
fn a_full_record_has_the_numbers_of_its_formula(rt: HostRuntime) {
    let bytes = changed(&rt, CHANGES);
    let numbers = formula(&full_of(&rt, &bytes));
    assert!(rt; numbers == [2, 0x0c, -511, 258, -1, 7], "got {numbers:?}");
}

#[test]
fn a_full_record_has_its_factors(rt: HostRuntime) {
    let bytes = changed(&rt, CHANGES);
    let factors = full_of(&rt, &bytes).factors();
    assert_text(
        &rt,
        format!(in rt.alloc(); "{factors:?}"),
        "Factors { format: 2, linear: 12, m: -511, b: 258, k1: -1, k2: 7 }",
        CHANGES,
    );
}

#[test]
fn a_full_record_has_its_thresholds(rt: HostRuntime) {
    let bytes = changed(&rt, CHANGES);
    let full = full_of(&rt, &bytes);
    assert_threshold(&rt, &full, Threshold::UpperNonRecoverable, (true, 0x5f));
    assert_threshold(&rt, &full, Threshold::UpperCritical, (true, 0x5a));
    assert_threshold(&rt, &full, Threshold::UpperNonCritical, (true, 0x55));
    assert_threshold(&rt, &full, Threshold::LowerNonRecoverable, (false, 0x11));
    assert_threshold(&rt, &full, Threshold::LowerCritical, (false, 0x22));
    assert_threshold(&rt, &full, Threshold::LowerNonCritical, (false, 0x33));
}
