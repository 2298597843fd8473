//! Inventories that are cut off, or have one wrong bit.
use super::examples::{BOARD, OUTPUT};
use crate::cases::{assert_text, bytes_of};
use hex::FromHex;
use ipmi_fru::print_fru;
use std::alloc::Global;
use std::process::Abort;

/// The text of the whole board.
const BOARD_LINES: &str =
    "Board Mfg Date: 1996-01-01 00:01\nBoard Mfg: IPMI\nBoard Product: 123-\nBoard Serial: Aé\n";

/// The text of the whole output.
const OUTPUT_LINES: &str =
    "DC Output 1: nominal 12 V, negative deviation 0.6 V, positive deviation 0.6 V, ripple 120 mV, \
    current 0 to 62500 mA\n";

/// Asserts the text of the first `len` bytes of an inventory.
fn assert_text_of_cut(rt: &impl Abort, alloc: Global, bytes: &[u8], len: usize, wanted: &str) {
    let cut = bytes.get(..len).expect(rt, wanted);
    let case = format!(in alloc; "the first {len} bytes").expect(rt, "memory");
    assert_text(rt, print_fru(alloc, cut), wanted, case.as_str());
}

/// The text of the first `len` bytes of the board.
fn cut_board(len: usize) -> &'static str {
    match len {
        0..=7 => "FRU fault: header short\n",
        8..=31 => "Board fault: outside\n",
        _ => BOARD_LINES,
    }
}

/// The text of the first `len` bytes of the output.
fn cut_output(len: usize) -> &'static str {
    match len {
        0..=7 => "FRU fault: header short\n",
        8..=25 => "Record fault: outside\n",
        _ => OUTPUT_LINES,
    }
}

/// The text of the board with a wrong bit in the byte at this place.
fn altered_board(place: usize) -> &'static str {
    match place {
        0 => "FRU fault: header version\n",
        1..=7 => "FRU fault: header checksum\n",
        8 => "Board fault: version\n",
        _ => "Board fault: checksum\n",
    }
}

/// Asserts the text of the board with the lowest bit of one byte flipped.
fn assert_text_of_altered(rt: &impl Abort, alloc: Global, place: usize) {
    let mut board = <[u8; 32]>::from_hex(BOARD).expect(rt, "32 bytes");
    let byte = board.get_mut(place).expect(rt, "a byte");
    *byte ^= 1;
    let case = format!(in alloc; "byte {place} altered").expect(rt, "memory");
    assert_text(
        rt,
        print_fru(alloc, &board),
        altered_board(place),
        case.as_str(),
    );
}

#[test]
fn a_board_that_is_cut_short_has_a_fault(rt: HostRuntime) {
    let board = bytes_of(&rt, rt.alloc(), BOARD);
    assert!(rt; board.len() == 32, "{} bytes", board.len());
    for len in 0..=32 {
        assert_text_of_cut(&rt, rt.alloc(), &board, len, cut_board(len));
    }
}

#[test]
fn a_record_that_is_cut_short_has_a_fault(rt: HostRuntime) {
    let output = bytes_of(&rt, rt.alloc(), OUTPUT);
    assert!(rt; output.len() == 26, "{} bytes", output.len());
    for len in 0..=26 {
        assert_text_of_cut(&rt, rt.alloc(), &output, len, cut_output(len));
    }
}

#[test]
fn a_board_with_a_wrong_bit_has_a_fault(rt: HostRuntime) {
    for place in 0..32 {
        assert_text_of_altered(&rt, rt.alloc(), place);
    }
}
