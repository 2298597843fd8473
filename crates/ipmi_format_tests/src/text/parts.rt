//! Texts that are displayed within another text, or appended to one.
use crate::cases::assert_text;
use ipmi_text::{
    EventWords, Fixed, SensorType, Units, UtcTime, push_fixed, push_sdr_text, push_units,
};
use std::alloc::{AllocError, Global};

/// Units of three bytes.
fn units(units1: u8, base: u8, modifier: u8) -> Units {
    Units {
        units1,
        base,
        modifier,
    }
}

/// A value of each type that is displayed, in one text.
fn displayed(alloc: Global) -> Result<String, AllocError> {
    let kind = SensorType(0x04);
    let words = EventWords {
        event: 0x01,
        data1: 0x59,
    };
    let time = UtcTime::of(0x22bb_5951);
    let units = units(0x18, 0x12, 0x00);
    format!(in alloc; "{kind} | {words} | {time} | {units}")
}

#[test]
fn values_are_displayed_in_a_text(rt: HostRuntime) {
    let wanted = "Fan | Upper Critical going high | 1988-06-19 06:04:01 | RPM per s";
    assert_text(&rt, displayed(rt.alloc()), wanted, "displayed");
}

/// A decimal, units and ID strings after other texts.
fn appended(alloc: Global) -> Result<String, AllocError> {
    let mut text = String::from_str(alloc, "at ")?;
    push_fixed(&mut text, Fixed(-15_000_000_000_000_000))?;
    push_units(&mut text, units(0x00, 0x01, 0x00))?;
    push_units(&mut text, units(0x00, 0x00, 0x00))?;
    push_units(&mut text, units(0x0a, 0x07, 0x16))?;
    push_units(&mut text, units(0x01, 0x00, 0x00))?;
    text.push_str(" of ")?;
    push_sdr_text(alloc, &mut text, 0xc4, b"CPU1 Temp")?;
    text.push_str(", ")?;
    push_sdr_text(alloc, &mut text, 0x43, b"\x12\x3b")?;
    text.push_str(", ")?;
    push_sdr_text(alloc, &mut text, 0xc4, b"A\x7f\0B")?;
    Ok(text)
}

#[test]
fn parts_are_appended(rt: HostRuntime) {
    assert_text(
        &rt,
        appended(rt.alloc()),
        "at -1.5 degrees C Joules/second per us % of CPU1, 123, A.",
        "appended",
    );
}
