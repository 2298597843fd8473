//! Commands over answers that no image gives: empty parts, sizes in words, records that never end.
use super::outcome::assert_outcome_of_one;
use crate::command_line::lines::command;
use crate::controllers::{Counting, Endless, Replay, Reply};
use ipmi_bus::FruSize;
use std::alloc::Global;
use std::process::Abort;

/// Words, the answers to their calls, and the outcome.
#[derive(Clone, Copy, Debug)]
struct Case {
    words: &'static str,
    replies: &'static [Reply],
    wanted: &'static str,
}

const EIGHT: Reply = Reply::Has(FruSize {
    size: 8,
    words: false,
});

/// Asserts the outcome of the words over these answers.
fn assert_outcome_over_answers(rt: &impl Abort, alloc: Global, case: &Case) {
    let ctl = Counting::new(Replay::new(case.replies));
    let command = command(rt, alloc, case.words);
    let name = format!(in alloc; "{case:?}").expect(rt, "memory");
    assert_outcome_of_one(rt, alloc, ctl, command, case.wanted, name.as_str());
}

/// The same for each case.
fn assert_outcomes_over_answers(rt: &impl Abort, alloc: Global, cases: &[Case]) {
    for case in cases {
        assert_outcome_over_answers(rt, alloc, case);
    }
}

const STALLED: [Case; 7] = [
    Case {
        words: "fru print 0",
        replies: &[Reply::Has(FruSize {
            size: 8,
            words: true,
        })],
        wanted: "1 1\nfru 0 uses words\n--\n",
    },
    Case {
        words: "fru print 254",
        replies: &[Reply::Has(FruSize {
            size: 0,
            words: true,
        })],
        wanted: "1 1\nfru 254 uses words\n--\n",
    },
    Case {
        words: "fru print 0",
        replies: &[EIGHT, Reply::Gives(&[], 0)],
        wanted: "1 2\nfru 0 stalled\n--\n",
    },
    Case {
        words: "fru print 7",
        replies: &[EIGHT, Reply::Gives(&[1, 0, 0], 0), Reply::Gives(&[], 0)],
        wanted: "1 3\nfru 7 stalled\n--\n",
    },
    Case {
        words: "fru print 0",
        replies: &[EIGHT, Reply::Fails(0xCA)],
        wanted: "1 5\nfru 0 stalled\n--\n",
    },
    Case {
        words: "--part 3 fru print 0",
        replies: &[EIGHT, Reply::Fails(0xC7)],
        wanted: "1 3\nfru 0 stalled\n--\n",
    },
    Case {
        words: "--part 1 --tries 0 fru print 0",
        replies: &[EIGHT, Reply::Fails(0xC8)],
        wanted: "1 2\nfru 0 stalled\n--\n",
    },
];

// An inventory that is accessed by words is not read. An empty part ends it, and so does a part of one byte that is too
// long. After eight bytes, four, two and one are requested, and after three bytes one.
#[test]
fn an_inventory_by_words_or_without_bytes_is_named(rt: HostRuntime) {
    assert_outcomes_over_answers(&rt, rt.alloc(), &STALLED);
}

const REFUSED: [Case; 7] = [
    Case {
        words: "fru print 0",
        replies: &[Reply::Fails(0xC7)],
        wanted: "1 1\nfru 0 refused with code C7h\n--\n",
    },
    Case {
        words: "fru print 0",
        replies: &[Reply::Fails(0xCA)],
        wanted: "1 1\nfru 0 refused with code CAh\n--\n",
    },
    Case {
        words: "fru print 0",
        replies: &[EIGHT, Reply::Fails(0xC9)],
        wanted: "1 2\nfru 0 refused with code C9h\n--\n",
    },
    Case {
        words: "fru print 0",
        replies: &[Reply::Fails(0xCB)],
        wanted: "0 1\n--\nFRU 0\nnot present\n\n",
    },
    Case {
        words: "fru print 0",
        replies: &[EIGHT, Reply::Fails(0xCB)],
        wanted: "0 2\n--\nFRU 0\nnot present\n\n",
    },
    Case {
        words: "fru print 0",
        replies: &[EIGHT, Reply::Gives(&[1, 0, 0], 0), Reply::Fails(0xCB)],
        wanted: "0 3\n--\nFRU 0\nnot present\n\n",
    },
    Case {
        words: "--tries 1 fru print 0",
        replies: &[
            EIGHT,
            Reply::Fails(0x81),
            Reply::Gives(&[1, 0, 0, 0], 0),
            Reply::Fails(0xC3),
        ],
        wanted: "1 4\nfru 0 gave up\n--\n",
    },
];

// A size has no parts, so nothing smaller can be requested. CBh means the same at each call.
#[test]
fn an_inventory_is_refused_by_code(rt: HostRuntime) {
    assert_outcomes_over_answers(&rt, rt.alloc(), &REFUSED);
}

const DISHONEST: [Case; 4] = [
    Case {
        words: "fru print 0",
        replies: &[Reply::Has(FruSize {
            size: 0,
            words: false,
        })],
        wanted: "0 1\n--\nFRU 0\nFRU fault: header short\n\n",
    },
    Case {
        words: "fru print 0",
        replies: &[
            Reply::Has(FruSize {
                size: 65_535,
                words: false,
            }),
            Reply::Gives(&[0; 32], 0),
        ],
        wanted: "0 2049\n--\nFRU 0\nFRU fault: header version\n\n",
    },
    Case {
        words: "--part 254 fru print 0",
        replies: &[
            Reply::Has(FruSize {
                size: 65_535,
                words: false,
            }),
            Reply::Gives(&[0xFF; 254], 0),
        ],
        wanted: "0 260\n--\nFRU 0\nFRU fault: header version\n\n",
    },
    Case {
        words: "fru print 0",
        replies: &[
            EIGHT,
            Reply::Gives(&[1], 0),
            Reply::Gives(&[0], 0),
            Reply::Gives(&[0], 0),
            Reply::Gives(&[0], 0),
            Reply::Gives(&[0], 0),
            Reply::Gives(&[0], 0),
            Reply::Gives(&[0], 0),
            Reply::Gives(&[0xFF, 1, 2], 0),
        ],
        wanted: "0 9\n--\nFRU 0\n\n",
    },
];

// An empty inventory, the longest one, and parts of one byte, whatever number was requested. 65,535 bytes take 2,048 parts
// of 32 bytes, or 259 of 254. The last part is for the eighth byte only.
#[test]
fn an_inventory_of_any_size_is_printed(rt: HostRuntime) {
    assert_outcomes_over_answers(&rt, rt.alloc(), &DISHONEST);
}

const RESERVED: Reply = Reply::Reserves(1);

/// The header of a locator of FRU device 1 without a name. Eleven bytes follow it.
const LOCATOR_HEADER: Reply = Reply::Gives(&[0x01, 0x00, 0x51, 0x11, 0x0B], 0xFFFF);

/// The bytes after that header.
const LOCATOR_BODY: Reply = Reply::Gives(
    &[
        0x20, 0x01, 0x80, 0x00, 0x00, 0x00, 0x00, 0x0A, 0x01, 0x00, 0xC0,
    ],
    0xFFFF,
);

const WALKS: [Case; 14] = [
    Case {
        words: "sdr get Foo",
        replies: &[RESERVED, Reply::Gives(&[], 0)],
        wanted: "1 2\nstalled at 0000h\n--\n",
    },
    Case {
        words: "sdr get Foo",
        replies: &[RESERVED, LOCATOR_HEADER, Reply::Gives(&[], 0)],
        wanted: "1 3\nstalled at 0000h\n--\n",
    },
    Case {
        words: "sdr get Foo",
        replies: &[RESERVED, Reply::Fails(0xCA)],
        wanted: "1 4\nstalled at 0000h\n--\n",
    },
    Case {
        words: "sdr get Foo",
        replies: &[RESERVED, Reply::Gives(&[0x01, 0x00, 0x51, 0xC0, 0xFC], 0)],
        wanted: "1 2\nmalformed record 0000h\n--\n",
    },
    Case {
        words: "sdr get Foo",
        replies: &[Reply::Fails(0xCB)],
        wanted: "1 1\nrecord 0000h refused with code CBh\n--\n",
    },
    Case {
        words: "sdr get Foo",
        replies: &[RESERVED, LOCATOR_HEADER, LOCATOR_BODY],
        wanted: "1 3\nno record named Foo\n--\n",
    },
    Case {
        words: "sel list last 1",
        replies: &[RESERVED, Reply::Gives(&[], 0)],
        wanted: "1 2\nstalled at 0000h\n--\n",
    },
    Case {
        words: "sel list last 1",
        replies: &[RESERVED, Reply::Fails(0xC8)],
        wanted: "1 6\nstalled at 0000h\n--\n",
    },
    Case {
        words: "sel list last 1",
        replies: &[RESERVED, Reply::Gives(&[7; 16], 0x0707)],
        wanted: "1 2\ncycle at 0707h\n--\n",
    },
    Case {
        words: "sel list last 1",
        replies: &[
            RESERVED,
            Reply::Gives(&[7; 16], 0xFFFF),
            RESERVED,
            Reply::Gives(&[9; 16], 0xFFFF),
        ],
        wanted: "0 4\n--\n0909 | record type 0x09 | 09090909090909090909090909\n",
    },
    Case {
        words: "fru",
        replies: &[
            EIGHT,
            Reply::Gives(&[2; 8], 0),
            RESERVED,
            Reply::Gives(&[], 0),
        ],
        wanted: "1 4\nstalled at 0000h\n--\nFRU 0\nFRU fault: header version\n\n",
    },
    Case {
        words: "fru",
        replies: &[
            EIGHT,
            Reply::Gives(&[2; 8], 0),
            RESERVED,
            LOCATOR_HEADER,
            LOCATOR_BODY,
            Reply::Has(FruSize {
                size: 8,
                words: true,
            }),
        ],
        wanted: "1 6\nfru 1 uses words\n--\nFRU 0\nFRU fault: header version\n\n",
    },
    Case {
        words: "fru",
        replies: &[
            EIGHT,
            Reply::Gives(&[2; 8], 0),
            RESERVED,
            LOCATOR_HEADER,
            LOCATOR_BODY,
            EIGHT,
            Reply::Gives(&[], 0),
        ],
        wanted: "1 7\nfru 1 stalled\n--\nFRU 0\nFRU fault: header version\n\n",
    },
    Case {
        words: "fru",
        replies: &[
            Reply::Fails(0xCB),
            RESERVED,
            LOCATOR_HEADER,
            LOCATOR_BODY,
            Reply::Fails(0xCB),
        ],
        wanted: "0 5\n--\nFRU 0\nnot present\n\nFRU 1 ()\nnot present\n\n",
    },
];

// Of a record five bytes, two and one are requested, and of an entry sixteen, eight, four, two and one. The second walk
// prints the entries that it finds.
#[test]
fn a_walk_over_written_answers_ends_by_name(rt: HostRuntime) {
    assert_outcomes_over_answers(&rt, rt.alloc(), &WALKS);
}

const ALWAYS_CANCELLED: [Case; 3] = [
    Case {
        words: "sdr get Foo",
        replies: &CANCELLED,
        wanted: "1 12\ngave up at 0000h\n--\n",
    },
    Case {
        words: "sel list last 2",
        replies: &CANCELLED,
        wanted: "1 12\ngave up at 0000h\n--\n",
    },
    Case {
        words: "fru print 9",
        replies: &[Reply::Fails(0xC5)],
        wanted: "1 6\nfru 9 gave up\n--\n",
    },
];

/// A reservation each time, under which a part is cancelled.
const CANCELLED: [Reply; 12] = [
    RESERVED,
    Reply::Fails(0xC5),
    RESERVED,
    Reply::Fails(0xC5),
    RESERVED,
    Reply::Fails(0xC5),
    RESERVED,
    Reply::Fails(0xC5),
    RESERVED,
    Reply::Fails(0xC5),
    RESERVED,
    Reply::Fails(0xC5),
];

// Five tries after the first one.
#[test]
fn a_sixth_cancelled_part_is_the_last(rt: HostRuntime) {
    assert_outcomes_over_answers(&rt, rt.alloc(), &ALWAYS_CANCELLED);
}

/// Asserts the outcome of the words over records without a last one.
fn assert_outcome_over_endless(rt: &impl Abort, alloc: Global, words: &str, wanted: &str) {
    let ctl = Counting::new(Endless::new());
    assert_outcome_of_one(rt, alloc, ctl, command(rt, alloc, words), wanted, words);
}

const NO_NAME: &str = "1 65536
no record named Foo
--
";

const NEWEST: &str = "0 524282
--
fffd | record type 0x51 | c000fdff51c000fdff51c000fd
fffe | record type 0x51 | c000feff51c000feff51c000fe
";

const REFUSED_DEVICE: &str = "1 1
fru 0 refused with code FFh
--
";

// 65,535 records take one call each. As many entries take four each, since a part has at most five bytes here. They are
// counted first, and then all but two are skipped.
#[test]
fn a_walk_without_a_last_record_ends(rt: HostRuntime) {
    assert_outcome_over_endless(&rt, rt.alloc(), "sdr get Foo", NO_NAME);
    assert_outcome_over_endless(&rt, rt.alloc(), "sel list last 2", NEWEST);
    assert_outcome_over_endless(&rt, rt.alloc(), "fru", REFUSED_DEVICE);
}
