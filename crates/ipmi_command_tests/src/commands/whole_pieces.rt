//! A change to a second image and back, at any two calls of a command. Each piece of the output is a whole piece of one of
//! the images.
use super::changing::outcome_over;
use super::outcome::text_of;
use super::over_images::Two;
use std::alloc::Global;
use std::process::Abort;

/// Moods that change to the second image after `before` calls, and back after `between` more.
fn there_and_back(rt: &impl Abort, alloc: Global, before: usize, between: usize) -> String {
    let before = ".".repeat(alloc, before).expect(rt, "memory");
    let between = ".".repeat(alloc, between).expect(rt, "memory");
    format!(in alloc; "{before}x{between}y").expect(rt, "memory")
}

/// Whether a piece, with this end, is one of the texts.
fn is_one_of(piece: &str, texts: &str, end: &str) -> bool {
    for text in texts.split_terminator(end) {
        if text == piece {
            return true;
        }
    }
    false
}

/// Asserts that each piece of an output has this end, and is one of the texts.
fn assert_pieces(rt: &impl Abort, out: &str, end: &str, texts: &str, case: &str) {
    for piece in out.split_terminator(end) {
        assert!(rt; is_one_of(piece, texts, end), "{case}: {piece}");
    }
    assert!(rt; out.is_empty() || out.ends_with(end), "{case}: {out}");
}

/// A command over two images, the end of each piece of its output, and all pieces that the images can have.
#[derive(Clone, Copy)]
struct Pieces<'a> {
    words: &'a str,
    two: Two<'a>,
    end: &'a str,
    texts: &'a str,
}

/// Asserts the pieces of an output when the image changes after `before` calls, and back after `between` more.
fn assert_pieces_of_change(
    rt: &impl Abort,
    alloc: Global,
    pieces: &Pieces,
    before: usize,
    between: usize,
) {
    let words = pieces.words;
    let letters = there_and_back(rt, alloc, before, between);
    let case = format!(in alloc; "{words}: {letters}").expect(rt, "memory");
    let case = case.as_str();
    let outcome = outcome_over(rt, alloc, words, pieces.two, letters.as_str());
    let status = outcome.status;
    assert!(rt; status < 2, "{case}: status {status}");
    let out = text_of(rt, &outcome.out, case);
    assert_pieces(rt, out, pieces.end, pieces.texts, case);
    drop(outcome);
}

/// The same for each change within the first twelve calls, and each change back within the next twelve.
fn assert_pieces_of_each_change(rt: &impl Abort, alloc: Global, pieces: &Pieces) {
    for before in 0..12 {
        for between in 0..12 {
            assert_pieces_of_change(rt, alloc, pieces, before, between);
        }
    }
}

const LINES: &str =
    "0001 | 1987-01-05 18:48:33 | Temperature #0x30 | Upper Critical going high | Asserted
0002 | +536870912 s | Temperature #0x30 | Upper Non-critical going high | Deasserted
0003 | unspecified | OEM record 0xc0 | 001357 | 010203040506
0001 | OEM record 0xe0 | 01010101010101010101010101
0002 | OEM record 0xe1 | 02020202020202020202020202
0003 | OEM record 0xe2 | 03030303030303030303030303
";

const BOTH_BLOCKS: &str = "Record: 0002h
Type: FRU locator
Name: PSU1
Address: 20h
Entity: 10.1

Record: 0002h
Type: FRU locator
Name: PSU1
Address: 20h
Entity: 10.3

";

const DEVICES: &str = "FRU 0
Chassis Type: Rack Mount Chassis

FRU 0
Chassis Type: Other

FRU 1 (PSU1)
FRU fault: header short

FRU 1 (FAN1)
FRU fault: header short

FRU 2 (PSU2)
Chassis fault: outside

FRU 2 (PSU2)
FRU fault: header checksum

FRU 2 (FAN2)
Chassis fault: outside

FRU 2 (FAN2)
FRU fault: header checksum

";

const PIECES: [Pieces<'static>; 4] = [
    Pieces {
        words: "sel list last 2",
        two: Two {
            first: "log",
            second: "another log",
        },
        end: "\n",
        texts: LINES,
    },
    Pieces {
        words: "sel list last 3",
        two: Two {
            first: "log",
            second: "turned log",
        },
        end: "\n",
        texts: LINES,
    },
    Pieces {
        words: "sdr,get,PSU1",
        two: Two {
            first: "sensor and locator",
            second: "another sensor and locator",
        },
        end: "\n\n",
        texts: BOTH_BLOCKS,
    },
    Pieces {
        words: "fru",
        two: Two {
            first: "two locators",
            second: "two other locators",
        },
        end: "\n\n",
        texts: DEVICES,
    },
];

// A turned log has its entries in another order. A device may have a name from one image and an inventory from the other.
#[test]
fn no_record_is_of_two_images(rt: HostRuntime) {
    for pieces in &PIECES {
        assert_pieces_of_each_change(&rt, rt.alloc(), pieces);
    }
}
