//! Whether a reading is available, by the flags of the answer.
use ipmi_text::Reading;
use std::process::Abort;

/// Flags and whether the reading is available. Bit 6: scanning is enabled. Bit 5: the reading is unavailable.
const FLAGS: [(u8, bool); 6] = [
    (0x00, false),
    (0x20, false),
    (0x40, true),
    (0x60, false),
    (0xC0, true),
    (0x9F, false),
];

fn assert_available(rt: &impl Abort, flags: u8, wanted: bool) {
    let reading = Reading {
        raw: 0,
        flags,
        status: 0,
        more: 0,
    };
    assert!(rt; reading.is_available() == wanted, "flags {flags:#04x}");
}

#[test]
fn readings_are_available_by_their_flags(rt: HostRuntime) {
    for (flags, wanted) in FLAGS {
        assert_available(&rt, flags, wanted);
    }
}
