//! Plain and their classes, the ends of a listing, a later step, parts and ids.
use crate::bus::listings::{assert_listing, listing, listing_by_bytes};
use crate::commands::outcome::{Outcome, assert_outcome};
use crate::commands::over_images::over;
use crate::controllers::{Counting, Endless, Replay, Reply, assert_last_request};
use ipmi_bus::{Code, CodeClass, Cursor, Ended, Event, Place, Record, Shelf, Tally};
use std::alloc::Global;
use std::process::Abort;

/// Asserts the class of a code. This table is independent of the one in the code.
fn assert_class(rt: &impl Abort, code: u8) {
    let wanted = match code {
        0xC5 => CodeClass::Cancelled,
        0x81 | 0xC0 | 0xC3 => CodeClass::Busy,
        0xC7 | 0xC8 | 0xCA => CodeClass::SmallerPart,
        0xCB => CodeClass::NotPresent,
        _ => CodeClass::Refusal,
    };
    let class = Code(code).class();
    assert!(rt; class == wanted, "code {code:02X}h: got {class:?}");
}

#[test]
fn every_code_has_its_class(rt: HostRuntime) {
    for code in 0..=255u8 {
        assert_class(&rt, code);
    }
}

#[test]
fn a_tally_takes_no_room(rt: HostRuntime) {
    let mut tally = Tally::new();
    tally.count(Event::Called(1));
    let size = size_of::<Tally>();
    assert!(rt; size == 0, "{size} bytes");
}

/// The answers of a controller, the tries, the message of the listing, and the number of calls.
#[derive(Clone, Copy, Debug)]
struct Case {
    replies: &'static [Reply],
    tries: u8,
    said: &'static str,
    calls: u32,
}

const ENDINGS: [Case; 9] = [
    Case {
        replies: &[Reply::Fails(0xC5)],
        tries: 0,
        said: "gave up at 0000h\n",
        calls: 1,
    },
    Case {
        replies: &[Reply::Fails(0xCB)],
        tries: 5,
        said: "record 0000h refused with code CBh\n",
        calls: 1,
    },
    Case {
        replies: &[Reply::Fails(0xC7)],
        tries: 5,
        said: "record 0000h refused with code C7h\n",
        calls: 1,
    },
    Case {
        replies: &[Reply::Reserves(1), Reply::Fails(0xD4)],
        tries: 5,
        said: "record 0000h refused with code D4h\n",
        calls: 2,
    },
    Case {
        replies: &[Reply::Reserves(1), Reply::Fails(0xCA)],
        tries: 5,
        said: "stalled at 0000h\n",
        calls: 4,
    },
    Case {
        replies: &[Reply::Reserves(1), Reply::Gives(&[], 0xFFFF)],
        tries: 5,
        said: "stalled at 0000h\n",
        calls: 2,
    },
    Case {
        replies: &[
            Reply::Reserves(1),
            Reply::Gives(&[0x01, 0x00, 0x51, 0xC0, 0xFC], 0xFFFF),
        ],
        tries: 5,
        said: "malformed record 0000h\n",
        calls: 2,
    },
    Case {
        replies: &[
            Reply::Reserves(1),
            Reply::Fails(0xC5),
            Reply::Reserves(2),
            Reply::Fails(0xC5),
            Reply::Reserves(3),
            Reply::Fails(0xC5),
            Reply::Reserves(4),
            Reply::Fails(0xC5),
            Reply::Reserves(5),
            Reply::Fails(0xC5),
            Reply::Reserves(6),
            Reply::Fails(0xC5),
        ],
        tries: 5,
        said: "gave up at 0000h\n",
        calls: 12,
    },
    Case {
        replies: &[Reply::Reserves(1), Reply::Fails(0xC0)],
        tries: 5,
        said: "gave up at 0000h\n",
        calls: 7,
    },
];

/// Asserts that a listing ended before its first line, with this message after this many calls.
fn assert_ending(rt: &impl Abort, alloc: Global, outcome: Outcome, case: &Case, name: &str) {
    let calls = case.calls;
    let said = case.said;
    let wanted = format!(in alloc; "1 {calls}\n{said}--\n").expect(rt, "memory");
    assert_outcome(rt, alloc, outcome, wanted.as_str(), name);
}

/// Asserts how a listing over these replies ends.
fn assert_ending_of_case(rt: &impl Abort, alloc: Global, case: &Case) {
    let mut ctl = Counting::new(Replay::new(case.replies));
    let outcome = listing(alloc, &mut ctl, case.tries);
    let name = format!(in alloc; "{case:?}").expect(rt, "memory");
    assert_ending(rt, alloc, outcome, case, name.as_str());
}

#[test]
fn answers_end_a_listing_by_name(rt: HostRuntime) {
    for case in &ENDINGS {
        assert_ending_of_case(&rt, rt.alloc(), case);
    }
}

#[test]
fn a_short_part_is_kept(rt: HostRuntime) {
    let replies = [
        Reply::Reserves(1),
        Reply::Gives(&[0x01, 0x00], 0xFFFF),
        Reply::Gives(&[0x51, 0xC0, 0x00], 0xFFFF),
    ];
    let mut ctl = Counting::new(Replay::new(&replies));
    let outcome = listing(rt.alloc(), &mut ctl, 5);
    let line = "sdr 0001 ffff 010051c000\n";
    assert_listing(&rt, rt.alloc(), outcome, line, 3, "a short part");
    assert_last_request(&rt, &ctl.inner, 2, 3);
}

/// The image line of a record of 256 bytes, the longest.
fn longest_line(rt: &impl Abort, alloc: Global) -> String {
    let bytes = "a5".repeat(alloc, 251).expect(rt, "memory");
    format!(in alloc; "sdr 0001 ffff 010051c0fb{bytes}\n").expect(rt, "memory")
}

/// Asserts that the record of a line, read in parts of one byte, gives that line after this many calls.
fn assert_listing_by_bytes(rt: &impl Abort, alloc: Global, line: &str, calls: u32) {
    let image = format!(in alloc; "ipmi-image 1\n{line}end\n").expect(rt, "memory");
    let outcome = listing_by_bytes(alloc, over(rt, alloc, &image));
    assert_listing(rt, alloc, outcome, line, calls, "the longest record");
}

// A reservation, and a call for each of the 256 bytes.
#[test]
fn the_longest_record_is_read(rt: HostRuntime) {
    let line = longest_line(&rt, rt.alloc());
    assert_listing_by_bytes(&rt, rt.alloc(), &line, 257);
}

/// A cursor over sensor data records that asks for parts of 32 bytes.
fn cursor(rt: &impl Abort, alloc: Global, tries: u8) -> Cursor {
    Cursor::start(alloc, Shelf::Sdr, None, 32, tries).expect(rt, "memory")
}

fn assert_place(rt: &impl Abort, cursor: &Cursor, wanted: Place) {
    let place = cursor.resume_at();
    assert!(rt; place == wanted, "wanted {wanted:?}: got {place:?}");
}

/// Asserts a record of five bytes that is the last.
pub(super) fn assert_last_record(rt: &impl Abort, record: &Record) {
    assert!(rt; record.id == 1, "{record:?}");
    assert!(rt; record.next == 0xFFFF, "{record:?}");
    assert!(rt;
        record.bytes == [0x01, 0x00, 0x51, 0xC0, 0x00].as_slice(),
        "{record:?}"
    );
}

fn assert_step(rt: &impl Abort, cursor: &mut Cursor, ctl: &mut Replay) {
    match cursor.step(ctl) {
        Ok(Some(record)) => assert_last_record(rt, &record),
        _ => panic!(rt; "no record"),
    }
}

#[test]
fn a_later_step_tries_again(rt: HostRuntime) {
    let replies = [
        Reply::Fails(0xC5),
        Reply::Reserves(1),
        Reply::Gives(&[0x01, 0x00, 0x51, 0xC0, 0x00], 0xFFFF),
    ];
    let mut ctl = Replay::new(&replies);
    let mut cursor = cursor(&rt, rt.alloc(), 0);
    let step = cursor.step(&mut ctl);
    assert!(rt; matches!(step, Err(Ended::GaveUp(0))), "first: {step:?}");
    assert_place(&rt, &cursor, Place::First);
    assert_step(&rt, &mut cursor, &mut ctl);
    assert_place(&rt, &cursor, Place::End);
    let step = cursor.step(&mut ctl);
    assert!(rt; matches!(step, Ok(None)), "third: {step:?}");
    assert!(rt; ctl.calls == 3, "{} calls", ctl.calls);
}

fn next_id(cursor: &mut Cursor, ctl: &mut Endless) -> Option<u16> {
    match cursor.step(ctl) {
        Ok(Some(record)) => Some(record.id),
        _ => None,
    }
}

/// The number of records that a cursor returns while their ids count up from 0000h.
pub(super) fn records_in_order(cursor: &mut Cursor, ctl: &mut Endless) -> u32 {
    let mut count = 0u32;
    for _ in 0..70_000u32 {
        match next_id(cursor, ctl) {
            Some(id) if u32::from(id) == count => count = count.saturating_add(1),
            _ => break,
        }
    }
    count
}

#[test]
fn every_id_is_handed_out_once(rt: HostRuntime) {
    let mut ctl = Endless::new();
    let mut cursor = cursor(&rt, rt.alloc(), 5);
    let records = records_in_order(&mut cursor, &mut ctl);
    assert!(rt; records == 65_535, "{records} records");
    assert_place(&rt, &cursor, Place::End);
    assert!(rt; ctl.calls == 65_536, "{} calls", ctl.calls);
}
