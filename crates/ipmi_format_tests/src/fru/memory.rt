//! The text of an inventory and the line of its device, with ample memory and with requests refused.
use crate::cases::{assert_text, assert_text_or_refused};
use ipmi_fru::{elsewhere_line, fru_line, print_fru, push_fru};
use std::alloc::{AllocError, Global};

/// An inventory with each kind of printed item.
const MIXED: [u8; 91] = [
    0x01, 0x00, 0x01, 0x02, 0x04, 0x05, 0x00, 0xf3, 0x01, 0x01, 0x17, 0xc2, 0x41, 0x42, 0xc1, 0xe1,
    0x01, 0x02, 0x00, 0x01, 0x00, 0x00, 0x83, 0x29, 0xdc, 0xa6, 0x41, 0x12, 0x01, 0xab, 0xc1, 0x0e,
    0x02, 0x01, 0x00, 0x00, 0x00, 0x00, 0x00, 0x00, 0x01, 0x02, 0x0d, 0xe8, 0x08, 0x01, 0xb0, 0x04,
    0x3c, 0x00, 0x3c, 0x00, 0x78, 0x00, 0x00, 0x00, 0x71, 0x02, 0x02, 0x02, 0x0d, 0x0e, 0xe1, 0x02,
    0x4a, 0x01, 0x2c, 0x01, 0x59, 0x01, 0x00, 0x00, 0x0a, 0x00, 0x14, 0x00, 0x03, 0x02, 0x03, 0x3c,
    0xbc, 0x01, 0x61, 0x62, 0xc0, 0x02, 0x01, 0xa6, 0x97, 0x5a, 0xc0,
];

const MIXED_LINES: &str = "Chassis Type: Rack Mount Chassis
Chassis Part Number: AB
Board Mfg Date: 1996-01-01 00:01
Board Mfg: IPMI
Board Product: 12
Board Serial: ab
Product fault: version
DC Output 1: nominal 12 V, negative deviation 0.6 V, positive deviation 0.6 V, ripple 120 mV, current 0 to 625 mA
DC Load 2: nominal 3.3 V, 3 to 3.45 V, ripple 0 mV, current 10 to 20 mA
Management Access 0x01: ab
Record 0xc0: 5a
Record fault: outside
";

/// The line of a device with that inventory. Its product area has another version, so the line has the board.
const MIXED_LINE: &str = "1 | - | present | 12 | - | ab\n";

/// The line of a device that is elsewhere.
const ELSEWHERE_LINE: &str = "- | PSU2 | elsewhere | - | - | -\n";

/// A line, and the text appended to it for an empty inventory.
const APPENDED_LINES: &str = "FRU 1\nFRU fault: header short\n";

fn appended_text(alloc: Global) -> Result<String, AllocError> {
    let mut text = String::from_str(alloc, "FRU 1\n")?;
    push_fru(alloc, &mut text, &[])?;
    Ok(text)
}

// With ample memory the text is whole.
#[test]
fn not_always_out_of_memory(rt: HostRuntime) {
    assert_text(&rt, print_fru(rt.alloc(), &MIXED), MIXED_LINES, "mixed");
    assert_text(&rt, appended_text(rt.alloc()), APPENDED_LINES, "appended");
    let line = fru_line(rt.alloc(), 1, None, Some(&MIXED));
    assert_text(&rt, line, MIXED_LINE, "line");
    let line = elsewhere_line(rt.alloc(), "PSU2");
    assert_text(&rt, line, ELSEWHERE_LINE, "elsewhere");
}

// With memory refused the text is whole, or the call fails when out of memory.
#[test]
fn memory_may_be_refused(rt: HostRuntime) {
    assert_text_or_refused(&rt, print_fru(rt.alloc(), &MIXED), MIXED_LINES);
    assert_text_or_refused(&rt, appended_text(rt.alloc()), APPENDED_LINES);
    let line = fru_line(rt.alloc(), 1, None, Some(&MIXED));
    assert_text_or_refused(&rt, line, MIXED_LINE);
    let line = elsewhere_line(rt.alloc(), "PSU2");
    assert_text_or_refused(&rt, line, ELSEWHERE_LINE);
}
