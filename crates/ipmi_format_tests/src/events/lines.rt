//! Lines of entries, with events in words.
use super::records::sensors;
use crate::cases::parts;
use hex::FromHex;
use ipmi_events::{Sensors, event_line};
use ipmi_records::SelView;
use std::alloc::Global;
use std::process::Abort;

/// `entry|line`. The entry begins with its id.
const LINES: &str = "01000201000020200004010101595f5a|\
    0001 | 1987-01-05 18:48:33 | CPU Temp | Upper Critical going high | Asserted | critical | \
    Reading 95 degrees C > threshold 90
01000201000020200004010101572d5a|\
    0001 | 1987-01-05 18:48:33 | CPU Temp | Upper Non-critical going high | Asserted | warning | \
    Reading 45 degrees C, threshold 90
01000201000020200004010181495fff|\
    0001 | 1987-01-05 18:48:33 | CPU Temp | Upper Critical going high | Deasserted | nominal | Reading 95 degrees C
01000201000020200004010181575455|\
    0001 | 1987-01-05 18:48:33 | CPU Temp | Upper Non-critical going high | Deasserted | nominal | \
    Reading 84 degrees C, threshold 85
020002000000202000040c126f00ffff|0002 | +536870912 s | DIMM 3 | \
    Correctable ECC / other correctable memory error | Asserted | warning
0300020100002020000404318301ffff|0003 | 1987-01-05 18:48:33 | Fan AA | State Asserted | Deasserted | nominal
0400020100002020000401770107ffff|\
    0004 | 1987-01-05 18:48:33 | Temperature #0x77 | Upper Non-critical going high | Asserted | warning
0500020100002040000401010107ffff|\
    0005 | 1987-01-05 18:48:33 | Temperature #0x01 | Upper Non-critical going high | Asserted | warning
0600020100002041f30412ff6f01ffff|0006 | 1987-01-05 18:48:33 | Agent 1 | OEM System Boot Event | Asserted | nominal
0700020100002041f00412ff6f01ffff|\
    0007 | 1987-01-05 18:48:33 | System Event #0xff | OEM System Boot Event | Asserted | nominal
080002010000202000040c506f01ffff|\
    0008 | 1987-01-05 18:48:33 | Memory #0x50 | Uncorrectable ECC / other uncorrectable memory error | Asserted | critical
0900020100002020000401407003ffff|0009 | 1987-01-05 18:48:33 | Inlet | offset 3 of type 0x70 | Asserted | -
0300c0ffffffff571300010203040506|0003 | unspecified | OEM record 0xc0 | 001357 | 010203040506
0400e00102030405060708090a0b0c0d|0004 | OEM record 0xe0 | 0102030405060708090a0b0c0d
0700030102030405060708090a0b0c0d|0007 | record type 0x03 | 0102030405060708090a0b0c0d";

fn assert_line(rt: &impl Abort, alloc: Global, sensors: &Sensors, case: &str) {
    let (digits, wanted) = parts(rt, case);
    let bytes = <[u8; 16]>::from_hex(digits).expect(rt, case);
    let entry = SelView::read(&bytes);
    let line = event_line(alloc, entry.id(), &entry, sensors).expect(rt, case);
    let text = line.as_str().strip_suffix("\n");
    assert!(rt; text == Some(wanted), "{case}: got {line}");
}

#[test]
fn each_entry_has_its_line(rt: HostRuntime) {
    let sensors = sensors(&rt, rt.alloc());
    for case in LINES.lines() {
        assert_line(&rt, rt.alloc(), &sensors, case);
    }
    drop(sensors);
}
