//! Each call that makes a text, with ample memory and with requests refused.
use crate::cases::{assert_text, assert_text_or_refused};
use ipmi_text::{
    Fixed, Units, chassis_text, event_text, fixed_text, fru_text, minutes_text, push_fixed,
    push_sdr_text, push_units, sdr_text, sensor_type_text, unit_text, utc_text,
};
use std::alloc::{AllocError, Global};

/// A decimal, units and an ID string, appended to an empty text.
fn appended(alloc: Global) -> Result<String, AllocError> {
    let mut text = String::new(alloc);
    let units = Units {
        units1: 0,
        base: 1,
        modifier: 0,
    };
    push_fixed(&mut text, Fixed(-15_000_000_000_000_000))?;
    push_units(&mut text, units)?;
    push_sdr_text(alloc, &mut text, 0xc4, b" Max")?;
    Ok(text)
}

/// Each call that takes memory, with its text.
fn calls_that_take_memory(alloc: Global) -> [(Result<String, AllocError>, &'static str); 11] {
    [
        (fru_text(alloc, 2, 0, b"\x29\xdc\xa6"), "IPMI"),
        (fru_text(alloc, 3, 0, b"CPU"), "CPU"),
        (sdr_text(alloc, 0x43, b"\x12\x3b"), "123"),
        (fixed_text(alloc, Fixed(-15_000_000_000_000_000)), "-1.5"),
        (unit_text(alloc, 0x18, 0x12, 0), "RPM per s"),
        (sensor_type_text(alloc, 0x04), "Fan"),
        (event_text(alloc, 0x01, 0x09), "Upper Critical going high"),
        (chassis_text(alloc, 0x17), "Rack Mount Chassis"),
        (utc_text(alloc, 0x22bb_5951), "1988-06-19 06:04:01"),
        (minutes_text(alloc, 1), "1996-01-01 00:01"),
        (appended(alloc), "-1.5 degrees C Max"),
    ]
}

// With ample memory each call returns its text.
#[test]
fn not_always_out_of_memory(rt: HostRuntime) {
    for (text, wanted) in calls_that_take_memory(rt.alloc()) {
        assert_text(&rt, text, wanted, wanted);
    }
}

// With memory refused each call returns its text, or fails when out of memory.
#[test]
fn memory_may_be_refused(rt: HostRuntime) {
    for (text, wanted) in calls_that_take_memory(rt.alloc()) {
        assert_text_or_refused(&rt, text, wanted);
    }
}
