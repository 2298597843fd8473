//! Readings, infos and inventories read from replayed answers, and the number of calls.
use crate::controllers::{Replay, Reply, assert_last_request};
use ipmi_bus::{
    Code, Ended, FruEnded, FruSize, Shelf, read_fru, read_fru_retrying_parts, read_info,
    read_reading,
};
use ipmi_fixtures::INFO;
use ipmi_text::Reading;
use std::alloc::Global;
use std::fmt::Debug;
use std::process::Abort;

/// Replies and a number of tries, and the result after this many calls.
#[derive(Clone, Copy, Debug)]
struct Case<T> {
    replies: &'static [Reply],
    tries: u8,
    wanted: T,
    calls: u32,
}

/// Asserts the result and the number of calls.
fn assert_case<T: Debug + PartialEq>(rt: &impl Abort, case: &Case<T>, got: &T, calls: u32) {
    assert!(rt; *got == case.wanted, "{case:?}: {got:?}");
    assert!(rt; calls == case.calls, "{case:?}: {calls} calls");
}

const READING: Reading = Reading {
    raw: 0x2D,
    flags: 0xC0,
    status: 0x00,
    more: 0x00,
};

const READINGS: [Case<Result<Option<Reading>, Ended>>; 6] = [
    Case {
        replies: &[Reply::Reads(READING)],
        tries: 0,
        wanted: Ok(Some(READING)),
        calls: 1,
    },
    Case {
        replies: &[
            Reply::Fails(0xC0),
            Reply::Fails(0xC5),
            Reply::Reads(READING),
        ],
        tries: 2,
        wanted: Ok(Some(READING)),
        calls: 3,
    },
    Case {
        replies: &[Reply::Fails(0xCB)],
        tries: 0,
        wanted: Ok(None),
        calls: 1,
    },
    Case {
        replies: &[Reply::Fails(0xC3)],
        tries: 1,
        wanted: Err(Ended::GaveUp(7)),
        calls: 2,
    },
    Case {
        replies: &[Reply::Fails(0xC7)],
        tries: 5,
        wanted: Err(Ended::Refused(7, Code(0xC7))),
        calls: 1,
    },
    Case {
        replies: &[Reply::Fails(0xD4)],
        tries: 5,
        wanted: Err(Ended::Refused(7, Code(0xD4))),
        calls: 1,
    },
];

/// Asserts a reading that is read for record 0007h.
fn assert_reading(rt: &impl Abort, case: &Case<Result<Option<Reading>, Ended>>) {
    let mut ctl = Replay::new(case.replies);
    let reading = read_reading(&mut ctl, 7, 0, 1, case.tries);
    assert_case(rt, case, &reading, ctl.calls);
}

#[test]
fn a_reading_is_asked_for_until_it_comes(rt: HostRuntime) {
    for case in &READINGS {
        assert_reading(&rt, case);
    }
}

const INFOS: [Case<Result<Option<[u8; 14]>, Ended>>; 5] = [
    Case {
        replies: &[Reply::Tells(INFO)],
        tries: 0,
        wanted: Ok(Some(INFO)),
        calls: 1,
    },
    Case {
        replies: &[Reply::Fails(0x81), Reply::Tells(INFO)],
        tries: 1,
        wanted: Ok(Some(INFO)),
        calls: 2,
    },
    Case {
        replies: &[Reply::Fails(0xCB)],
        tries: 0,
        wanted: Ok(None),
        calls: 1,
    },
    Case {
        replies: &[Reply::Fails(0xC5)],
        tries: 0,
        wanted: Err(Ended::GaveUp(0)),
        calls: 1,
    },
    Case {
        replies: &[Reply::Fails(0xC1)],
        tries: 5,
        wanted: Err(Ended::Refused(0, Code(0xC1))),
        calls: 1,
    },
];

/// Asserts the info of the event log.
fn assert_info(rt: &impl Abort, case: &Case<Result<Option<[u8; 14]>, Ended>>) {
    let mut ctl = Replay::new(case.replies);
    let info = read_info(&mut ctl, Shelf::Sel, case.tries);
    assert_case(rt, case, &info, ctl.calls);
}

#[test]
fn an_info_is_asked_for_until_it_comes(rt: HostRuntime) {
    for case in &INFOS {
        assert_info(&rt, case);
    }
}

const EIGHT_BYTES: Reply = Reply::Has(FruSize {
    size: 8,
    words: false,
});

const ENDED_INVENTORIES: [Case<FruEnded>; 7] = [
    Case {
        replies: &[Reply::Has(FruSize {
            size: 8,
            words: true,
        })],
        tries: 5,
        wanted: FruEnded::Words,
        calls: 1,
    },
    Case {
        replies: &[EIGHT_BYTES, Reply::Gives(&[], 0)],
        tries: 5,
        wanted: FruEnded::Stalled,
        calls: 2,
    },
    Case {
        replies: &[EIGHT_BYTES, Reply::Fails(0xCA)],
        tries: 5,
        wanted: FruEnded::Stalled,
        calls: 5,
    },
    Case {
        replies: &[Reply::Fails(0xCB)],
        tries: 5,
        wanted: FruEnded::Refused(Code(0xCB)),
        calls: 1,
    },
    Case {
        replies: &[Reply::Fails(0xC7)],
        tries: 5,
        wanted: FruEnded::Refused(Code(0xC7)),
        calls: 1,
    },
    Case {
        replies: &[EIGHT_BYTES, Reply::Fails(0xD4)],
        tries: 5,
        wanted: FruEnded::Refused(Code(0xD4)),
        calls: 2,
    },
    Case {
        replies: &[Reply::Fails(0xC0)],
        tries: 5,
        wanted: FruEnded::GaveUp,
        calls: 6,
    },
];

/// Asserts why reading an inventory in parts of 32 bytes fails.
fn assert_inventory_end(rt: &impl Abort, alloc: Global, case: &Case<FruEnded>) {
    let mut ctl = Replay::new(case.replies);
    match read_fru(alloc, &mut ctl, 0, 32, case.tries) {
        Ok(bytes) => panic!(rt; "{case:?}: {bytes:?}"),
        Err(ended) => assert_case(rt, case, &ended, ctl.calls),
    }
}

#[test]
fn an_inventory_ends_by_name(rt: HostRuntime) {
    for case in &ENDED_INVENTORIES {
        assert_inventory_end(&rt, rt.alloc(), case);
    }
}

/// An inventory of three bytes in two parts, with two busy answers on the way.
const TWO_TROUBLES: [Reply; 5] = [
    Reply::Fails(0x81),
    Reply::Has(FruSize {
        size: 3,
        words: false,
    }),
    Reply::Gives(&[1, 2], 0),
    Reply::Fails(0xC0),
    Reply::Gives(&[3], 0),
];

#[test]
fn an_inventory_is_read_in_parts(rt: HostRuntime) {
    let mut ctl = Replay::new(&TWO_TROUBLES);
    let bytes = read_fru(rt.alloc(), &mut ctl, 0, 2, 2).expect(&rt, "an inventory");
    assert!(rt; bytes.as_slice() == [1, 2, 3].as_slice(), "{bytes:?}");
    assert!(rt; ctl.calls == 5, "{} calls", ctl.calls);
    assert_last_request(&rt, &ctl, 2, 1);
}

#[test]
fn an_inventory_meets_as_many_troubles_as_there_are_tries(rt: HostRuntime) {
    let mut ctl = Replay::new(&TWO_TROUBLES);
    let ended = read_fru(rt.alloc(), &mut ctl, 0, 2, 1).err();
    assert!(rt; ended == Some(FruEnded::GaveUp), "{ended:?}");
}

#[test]
fn each_part_of_an_inventory_is_retried(rt: HostRuntime) {
    let mut ctl = Replay::new(&TWO_TROUBLES);
    let bytes = read_fru_retrying_parts(rt.alloc(), &mut ctl, 0, 2, 1).expect(&rt, "an inventory");
    assert!(rt; bytes.as_slice() == [1, 2, 3].as_slice(), "{bytes:?}");
    assert!(rt; ctl.calls == 5, "{} calls", ctl.calls);
}

// A part that is busy twice is too much for one try. The trouble before its size counts for the first part.
#[test]
fn a_part_of_an_inventory_is_given_up(rt: HostRuntime) {
    let mut ctl = Replay::new(&[Reply::Fails(0x81), EIGHT_BYTES, Reply::Fails(0xC0)]);
    let ended = read_fru_retrying_parts(rt.alloc(), &mut ctl, 0, 2, 1).err();
    assert!(rt; ended == Some(FruEnded::GaveUp), "{ended:?}");
    assert!(rt; ctl.calls == 3, "{} calls", ctl.calls);
}

const ONE_BYTE: [Reply; 2] = [
    Reply::Has(FruSize {
        size: 1,
        words: false,
    }),
    Reply::Gives(&[7], 0),
];

fn assert_one_byte(rt: &impl Abort, bytes: &[u8]) {
    assert!(rt; bytes == [7].as_slice(), "{bytes:?}");
}

#[test]
fn not_always_out_of_memory(rt: HostRuntime) {
    let mut ctl = Replay::new(&ONE_BYTE);
    let bytes = read_fru(rt.alloc(), &mut ctl, 0, 32, 5).expect(&rt, "an inventory");
    assert_one_byte(&rt, &bytes);
}

// If memory is refused, only the size was requested.
#[test]
fn memory_may_be_refused(rt: HostRuntime) {
    let mut ctl = Replay::new(&ONE_BYTE);
    match read_fru(rt.alloc(), &mut ctl, 0, 32, 5) {
        Ok(bytes) => assert_one_byte(&rt, &bytes),
        Err(ended) => {
            assert!(rt; ended == FruEnded::Memory, "{ended:?}");
            assert!(rt; ctl.calls == 1, "{} calls", ctl.calls);
        }
    }
}
