//! Captures over answers that no image gives: sizes in words, empty parts, a record with the id FFFFh.
use super::captures::assert_capture;
use crate::controllers::{Replay, Reply};
use ipmi_bus::FruSize;
use std::alloc::Global;
use std::process::Abort;

/// The answers to the calls, the captured image, and the items left out.
#[derive(Clone, Copy, Debug)]
struct Case {
    replies: &'static [Reply],
    image: &'static str,
    left: &'static str,
}

/// Asserts the capture over these answers.
fn assert_capture_over_answers(rt: &impl Abort, alloc: Global, case: &Case) {
    let mut ctl = Replay::new(case.replies);
    assert_capture(rt, alloc, &mut ctl, 254, 0, case.image, case.left);
    drop(ctl);
}

const RESERVED: Reply = Reply::Reserves(1);

/// There is no such item.
const NONE: Reply = Reply::Fails(0xCB);

const EIGHT: Reply = Reply::Has(FruSize {
    size: 8,
    words: false,
});

const NOTHING: &str = "ipmi-image 2
end
";

const INVENTORIES: [Case; 4] = [
    Case {
        replies: &[
            NONE,
            RESERVED,
            NONE,
            NONE,
            RESERVED,
            NONE,
            Reply::Has(FruSize {
                size: 8,
                words: true,
            }),
        ],
        image: NOTHING,
        left: "fru 00: uses words\nnot whole\n",
    },
    Case {
        replies: &[
            NONE,
            RESERVED,
            NONE,
            NONE,
            RESERVED,
            NONE,
            EIGHT,
            Reply::Gives(&[], 0),
        ],
        image: NOTHING,
        left: "fru 00: stalled\nnot whole\n",
    },
    Case {
        replies: &[
            NONE,
            RESERVED,
            NONE,
            NONE,
            RESERVED,
            NONE,
            EIGHT,
            Reply::Gives(&[1, 0, 0], 0),
            Reply::Gives(&[], 0),
        ],
        image: NOTHING,
        left: "fru 00: stalled\nnot whole\n",
    },
    Case {
        replies: &[
            NONE,
            RESERVED,
            NONE,
            NONE,
            RESERVED,
            NONE,
            Reply::Has(FruSize {
                size: 0,
                words: false,
            }),
        ],
        image: NOTHING,
        left: "fru 00: empty\n",
    },
];

// Both shelves are empty: no info, a reservation, and no first record. Then comes the size of device 0.
#[test]
fn an_inventory_by_words_or_that_stalls_is_missed(rt: HostRuntime) {
    for case in &INVENTORIES {
        assert_capture_over_answers(&rt, rt.alloc(), case);
    }
}

const RECORDS: [Case; 5] = [
    Case {
        replies: &[
            NONE,
            RESERVED,
            Reply::Gives(&[0xFF, 0xFF, 0x51, 0xC0, 0x00], 0xFFFF),
            NONE,
            RESERVED,
            NONE,
        ],
        image: NOTHING,
        left: "sdr: malformed record FFFFh\nnot whole\n",
    },
    Case {
        replies: &[
            NONE,
            RESERVED,
            NONE,
            NONE,
            RESERVED,
            Reply::Gives(
                &[
                    0xFF, 0xFF, 0x02, 0, 0, 0, 0, 0x20, 0, 4, 1, 0x30, 1, 0x59, 0x5F, 0x5A,
                ],
                0xFFFF,
            ),
            NONE,
        ],
        image: NOTHING,
        left: "sel: malformed record FFFFh\nnot whole\n",
    },
    Case {
        replies: &[NONE, RESERVED, Reply::Gives(&[], 0), NONE, RESERVED, NONE],
        image: NOTHING,
        left: "sdr: stalled at 0000h\nnot whole\n",
    },
    Case {
        replies: &[
            NONE,
            RESERVED,
            NONE,
            NONE,
            RESERVED,
            Reply::Gives(&[], 0),
            NONE,
        ],
        image: NOTHING,
        left: "sel: stalled at 0000h\nnot whole\n",
    },
    Case {
        replies: &[
            NONE,
            RESERVED,
            Reply::Gives(&[0x01, 0x00, 0x51, 0xC0, 0x00], 7),
            Reply::Gives(&[], 0),
            NONE,
            RESERVED,
            NONE,
        ],
        image: "ipmi-image 2
sdr 0001 0007 010051c000
end
",
        left: "sdr: stalled at 0007h\nnot whole\n",
    },
];

// An image can't hold the id FFFFh. Of a record that stalls no byte comes. The infos and device 0 are absent.
#[test]
fn a_record_that_is_malformed_or_stalls_is_missed(rt: HostRuntime) {
    for case in &RECORDS {
        assert_capture_over_answers(&rt, rt.alloc(), case);
    }
}
