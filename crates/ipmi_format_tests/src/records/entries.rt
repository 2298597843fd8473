//! Lines and blocks of the event log's entries, and the block of an info.
use super::examples::EVENT_BLOCK;
use crate::cases::{assert_text, assert_text_with_end, id_of, parts, three_parts};
use hex::FromHex;
use ipmi_fixtures::{EVENT, INFO, INFO_BLOCK};
use ipmi_records::{Info, SelView, info_block, sel_block, sel_line};
use std::alloc::Global;
use std::process::Abort;

/// `id|entry|line`.
const LINES: &str = "0001|01000201000020200004013001595f5a|\
    0001 | 1987-01-05 18:48:33 | Temperature #0x30 | Upper Critical going high | Asserted
0002|02000200000020200004013081570000|\
    0002 | +536870912 s | Temperature #0x30 | Upper Non-critical going high | Deasserted
0003|0300c0ffffffff571300010203040506|0003 | unspecified | OEM record 0xc0 | 001357 | 010203040506
0004|0400e00102030405060708090a0b0c0d|0004 | OEM record 0xe0 | 0102030405060708090a0b0c0d
abcd|0400ff0102030405060708090a0b0cff|abcd | OEM record 0xff | 0102030405060708090a0b0cff
0005|0500df00000000fedcba010203040506|0005 | +0 s | OEM record 0xdf | badcfe | 010203040506
0006|0600bf0102030405060708090a0b0c0d|0006 | record type 0xbf | 0102030405060708090a0b0c0d
0007|0700030102030405060708090a0b0c0d|0007 | record type 0x03 | 0102030405060708090a0b0c0d
0008|08000001020304050607080900000000|0008 | record type 0x00 | 01020304050607080900000000
0009|090002010000202000041201efa30000|\
    0009 | 1987-01-05 18:48:33 | System Event #0x01 | event 0x6f offset 0x3 | Deasserted
000a|0a0002ffffffff2000042dff010c0000|000a | unspecified | sensor type 0x2d #0xff | event 0x01 offset 0xc | Asserted";

/// `id|entry`, then the block. An empty line ends a case.
const BLOCKS: &str = "0003|0300c0ffffffff571300010203040506
Record: 0003h
Type: C0h
Time: unspecified
Manufacturer: 001357
Data: 010203040506

0004|0400e00102030405060708090a0b0c0d
Record: 0004h
Type: E0h
Data: 0102030405060708090a0b0c0d

abcd|0700030102030405060708090a0b0c0d
Record: ABCDh
Type: 03h
Data: 0102030405060708090a0b0c0d

0009|090002010000202ca1cf1201efa3b4c5
Record: 0009h
Type: 02h
Time: 1987-01-05 18:48:33
Generator: A12Ch
Revision: CFh
Sensor: System Event #0x01
Event: event 0x6f offset 0x3
Direction: Deasserted
Data: a3b4c5";

/// The answer of Get SEL Info after entries were lost.
const OVERFLOW_INFO: [u8; 14] = [
    0x01, 0x34, 0x12, 0xff, 0xff, 0x00, 0x00, 0x00, 0x00, 0x01, 0x00, 0x00, 0x20, 0x80,
];

/// The block of that info.
const OVERFLOW_INFO_BLOCK: &str = "Version: 0x01
Records: 4660
Free Space: 65535
Last Addition: +0 s
Last Erase: 1987-01-05 18:48:33
Overflow: yes
Support: 0x80
";

fn assert_line(rt: &impl Abort, alloc: Global, case: &str) {
    let (id, digits, wanted) = three_parts(rt, case);
    let bytes = <[u8; 16]>::from_hex(digits).expect(rt, case);
    let line = sel_line(alloc, id_of(rt, id), &SelView::read(&bytes));
    assert_text_with_end(rt, line, wanted, "\n", case);
}

fn assert_block(rt: &impl Abort, alloc: Global, case: &str) {
    let (head, wanted) = case.split_once('\n').expect(rt, case);
    let (id, digits) = parts(rt, head);
    let bytes = <[u8; 16]>::from_hex(digits).expect(rt, case);
    let block = sel_block(alloc, id_of(rt, id), &SelView::read(&bytes));
    assert_text_with_end(rt, block, wanted, "\n\n", case);
}

#[test]
fn each_entry_has_its_line(rt: HostRuntime) {
    for case in LINES.lines() {
        assert_line(&rt, rt.alloc(), case);
    }
}

#[test]
fn each_entry_has_its_block(rt: HostRuntime) {
    for case in BLOCKS.split("\n\n") {
        assert_block(&rt, rt.alloc(), case);
    }
}

#[test]
fn an_event_has_its_block(rt: HostRuntime) {
    let block = sel_block(rt.alloc(), 1, &SelView::read(&EVENT));
    assert_text(&rt, block, EVENT_BLOCK, "the event");
}

#[test]
fn each_info_has_its_block(rt: HostRuntime) {
    let alloc = rt.alloc();
    assert_text(&rt, info_block(alloc, &INFO), INFO_BLOCK, "the info");
    assert_text(
        &rt,
        info_block(alloc, &OVERFLOW_INFO),
        OVERFLOW_INFO_BLOCK,
        "the info of an overflow",
    );
}

#[test]
fn an_info_has_its_numbers(rt: HostRuntime) {
    let wanted = Info {
        version: 0x51,
        record_count: 3,
        free_space: 1024,
        last_addition: 0x2000_0001,
        last_erase: u32::MAX,
        overflow: false,
        support: 2,
    };
    assert_eq!(&rt; Info::read(&INFO), wanted);
}
