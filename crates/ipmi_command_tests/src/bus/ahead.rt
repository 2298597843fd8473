//! A cursor that reads ahead: what it asks for, and which bytes it takes.
use crate::bus::cursor::{assert_last_record, records_in_order};
use crate::controllers::{Endless, Replay, Reply, assert_last_request};
use ipmi_bus::{Code, Cursor, Ended, Shelf};
use std::alloc::Global;
use std::process::Abort;

/// A cursor over sensor data records that reads ahead in parts of this size.
fn cursor(rt: &impl Abort, alloc: Global, part: u8) -> Cursor {
    let mut cursor = Cursor::start(alloc, Shelf::Sdr, None, part.clamp(1, 254), 5).expect(
        rt, "memory",
    );
    cursor.read_ahead(true);
    cursor
}

/// Asserts that the first step over these replies returns a record of five bytes, and that its last request was for `room`
/// bytes from `offset` on.
fn assert_read(
    rt: &impl Abort,
    alloc: Global,
    part: u8,
    replies: &[Reply],
    offset: u16,
    room: usize,
) {
    let mut ctl = Replay::new(replies);
    let mut cursor = cursor(rt, alloc, part);
    match cursor.step(&mut ctl) {
        Ok(Some(record)) => assert_last_record(rt, &record),
        _ => panic!(rt; "no record"),
    }
    assert_last_request(rt, &ctl, offset, room);
    let (calls, wanted) = (ctl.calls as usize, replies.len());
    assert!(rt; calls == wanted, "{calls} calls, not {wanted}");
    drop(cursor);
}

#[test]
fn the_first_request_is_for_64_bytes(rt: HostRuntime) {
    let replies = [
        Reply::Reserves(1),
        Reply::Gives(&[0x01, 0x00, 0x51, 0xC0, 0x00], 0xFFFF),
    ];
    assert_read(&rt, rt.alloc(), 254, &replies, 0, 64);
    assert_read(&rt, rt.alloc(), 20, &replies, 0, 20);
}

#[test]
fn a_short_part_is_kept(rt: HostRuntime) {
    let replies = [
        Reply::Reserves(1),
        Reply::Gives(&[0x01, 0x00], 0xFFFF),
        Reply::Gives(&[0x51, 0xC0, 0x00], 0xFFFF),
    ];
    assert_read(&rt, rt.alloc(), 254, &replies, 2, 62);
}

// A controller that is not honest gives two bytes more than the header says.
#[test]
fn bytes_after_the_record_are_left_out(rt: HostRuntime) {
    let replies = [
        Reply::Reserves(1),
        Reply::Gives(&[0x01, 0x00, 0x51, 0xC0, 0x00, 0xAA, 0xBB], 0xFFFF),
    ];
    assert_read(&rt, rt.alloc(), 254, &replies, 0, 64);
}

/// The record of five bytes that the tests read.
const RECORD: Reply = Reply::Gives(&[0x01, 0x00, 0x51, 0xC0, 0x00], 0xFFFF);

// 64 bytes are too many, so 32 are asked for. If they are too many as well, the header is.
#[test]
fn a_code_for_a_smaller_part_halves_it(rt: HostRuntime) {
    let (long, large) = (Reply::Fails(0xC7), Reply::Fails(0xCA));
    let replies = [Reply::Reserves(1), large, RECORD];
    assert_read(&rt, rt.alloc(), 254, &replies, 0, 32);
    let replies = [Reply::Reserves(1), large, long, RECORD];
    assert_read(&rt, rt.alloc(), 254, &replies, 0, 5);
    let replies = [Reply::Reserves(1), large, RECORD];
    assert_read(&rt, rt.alloc(), 32, &replies, 0, 5);
}

/// Asserts that a refusal to read ahead with this code is kept from the caller: the header is asked for. If that is refused
/// too, the step ends with the code of the second refusal.
fn assert_kept_back(rt: &impl Abort, alloc: Global, code: u8) {
    let replies = [Reply::Reserves(1), Reply::Fails(code), RECORD];
    assert_read(rt, alloc, 254, &replies, 0, 5);
    let replies = [Reply::Reserves(1), Reply::Fails(code), Reply::Fails(0xD3)];
    let mut ctl = Replay::new(&replies);
    let mut cursor = cursor(rt, alloc, 254);
    let step = cursor.step(&mut ctl);
    let wanted = Ended::Refused(0, Code(0xD3));
    assert!(rt;
        matches!(step, Err(ended) if ended == wanted),
        "{code:02X}h: {step:?}"
    );
    drop(cursor);
}

#[test]
fn a_refusal_to_read_ahead_is_kept_back(rt: HostRuntime) {
    for code in [0xC1u8, 0xC9, 0xCC, 0xD4, 0xFF] {
        assert_kept_back(&rt, rt.alloc(), code);
    }
}

// After it the rest of the header is asked for.
#[test]
fn a_refusal_after_a_short_part_is_kept_back(rt: HostRuntime) {
    let replies = [
        Reply::Reserves(1),
        Reply::Gives(&[0x01, 0x00], 0xFFFF),
        Reply::Fails(0xFF),
        Reply::Gives(&[0x51, 0xC0, 0x00], 0xFFFF),
    ];
    assert_read(&rt, rt.alloc(), 254, &replies, 2, 3);
}

/// Asserts how the first step ends over these replies, and the number of its calls.
fn assert_ends(rt: &impl Abort, alloc: Global, replies: &[Reply], wanted: Ended) {
    let mut ctl = Replay::new(replies);
    let mut cursor = cursor(rt, alloc, 254);
    let step = cursor.step(&mut ctl);
    assert!(rt;
        matches!(step, Err(ended) if ended == wanted),
        "{step:?}, not {wanted:?}"
    );
    let (calls, all) = (ctl.calls as usize, replies.len());
    assert!(rt; calls == all, "{calls} calls, not {all}");
    drop(cursor);
}

// A refusal of the bytes after the header is told, and so is that of the header. A trouble stays one.
#[test]
fn other_failures_are_told(rt: HostRuntime) {
    let rest = [
        Reply::Reserves(1),
        Reply::Gives(&[0x01, 0x00, 0x51, 0xC0, 0x02], 0xFFFF),
        Reply::Fails(0xFF),
    ];
    assert_ends(&rt, rt.alloc(), &rest, Ended::Refused(0, Code(0xFF)));
    let busy = [
        Reply::Reserves(1),
        Reply::Fails(0xC0),
        Reply::Fails(0xC3),
        Reply::Fails(0x81),
        Reply::Fails(0xC0),
        Reply::Fails(0xC0),
        Reply::Fails(0xC0),
    ];
    assert_ends(&rt, rt.alloc(), &busy, Ended::GaveUp(0));
}

// A cancelled reservation is requested again, and then as many bytes. A record that is absent is not asked for again.
#[test]
fn other_codes_do_not_end_it(rt: HostRuntime) {
    let replies = [
        Reply::Reserves(1),
        Reply::Fails(0xC5),
        Reply::Reserves(2),
        Reply::Fails(0xC0),
        RECORD,
    ];
    assert_read(&rt, rt.alloc(), 254, &replies, 0, 64);
    let replies = [Reply::Reserves(1), Reply::Fails(0xCB)];
    let mut ctl = Replay::new(&replies);
    let mut cursor = cursor(&rt, rt.alloc(), 254);
    let step = cursor.step(&mut ctl);
    assert!(rt; matches!(step, Ok(None)), "{step:?}");
    drop(cursor);
}

// 5 + 252 bytes are one more than the longest record has.
#[test]
fn a_record_too_long_is_malformed(rt: HostRuntime) {
    let replies = [
        Reply::Reserves(1),
        Reply::Gives(&[0x01, 0x00, 0x51, 0xC0, 0xFC, 0x00, 0x00], 0xFFFF),
    ];
    let mut ctl = Replay::new(&replies);
    let mut cursor = cursor(&rt, rt.alloc(), 254);
    let step = cursor.step(&mut ctl);
    assert!(rt; matches!(step, Err(Ended::Malformed(0))), "{step:?}");
    drop(cursor);
}

// A reservation, one call for each of the ids 0000h to FFFEh, and none at the end.
#[test]
fn a_record_is_one_call(rt: HostRuntime) {
    let mut ctl = Endless::new();
    let mut cursor = cursor(&rt, rt.alloc(), 64);
    let records = records_in_order(&mut cursor, &mut ctl);
    assert!(rt; records == 65_535, "{records} records");
    assert!(rt; ctl.calls == 65_536, "{} calls", ctl.calls);
    drop(cursor);
}
