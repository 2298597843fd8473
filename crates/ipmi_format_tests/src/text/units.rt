//! The texts of units: each base unit, and units with a rate, a modifier unit or a percentage.
use crate::cases::{assert_text, parts};
use hex::FromHex;
use ipmi_text::unit_text;
use std::alloc::Global;
use std::process::Abort;

/// `sensor units 1, base unit, modifier unit|text`.
const UNITS: &str = "000000|
000100|degrees C
000200|degrees F
000300|degrees K
000400|Volts
000500|Amps
000600|Watts
000700|Joules
000800|Coulombs
000900|VA
000a00|Nits
000b00|lumen
000c00|lux
000d00|Candela
000e00|kPa
000f00|PSI
001000|Newton
001100|CFM
001200|RPM
001300|Hz
001400|microsecond
001500|millisecond
001600|second
001700|minute
001800|hour
181200|RPM per s
010000|%
000000|
000100|degrees C
000118|degrees C
010100|% degrees C
021118|CFM/hour
040618|Watts*hour
060618|Watts
020018|/hour
040018|*hour
020000|/
040600|Watts*
080700|Joules per us
100700|Joules per ms
200700|Joules per min
280700|Joules per hour
300700|Joules per day
380700|Joules
190000|% per s
db07ff|% Joules/unit 0xff per s
c01900|unit 0x19";

fn assert_unit(rt: &impl Abort, alloc: Global, line: &str) {
    let (digits, wanted) = parts(rt, line);
    let [units1, base, modifier] = <[u8; 3]>::from_hex(digits).expect(rt, line);
    assert_text(rt, unit_text(alloc, units1, base, modifier), wanted, line);
}

#[test]
fn each_unit_has_its_text(rt: HostRuntime) {
    for line in UNITS.lines() {
        assert_unit(&rt, rt.alloc(), line);
    }
}
