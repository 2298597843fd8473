//! The fault of bytes that are not a record, and the kind of a record: by type, by length, and by the length in its
//! header.
use super::examples::with_byte;
use crate::cases::{byte_of, bytes_of, parts, three_parts};
use ipmi_fixtures::CPU_TEMP;
use ipmi_records::{SdrFault, SdrView};
use std::alloc::Global;
use std::process::Abort;

/// `bytes|first fault, or kind of the record`.
const FAULTS: &str = "010051c0|short
010051c001|length
010051c00000|length
0100510101|length
0100510100|body short
010099c000|other
|short";

/// `record type|least length|kind`.
const LEAST_LENGTHS: &str = "01|48|full
02|32|compact
03|17|event-only
10|16|generic
11|16|FRU
12|16|controller
00|5|other
04|5|other
0f|5|other
13|5|other
c0|5|other
ff|5|other";

fn kind_of_record(view: &SdrView<'_>) -> &'static str {
    match view {
        SdrView::Full(_) => "full",
        SdrView::Compact(_) => "compact",
        SdrView::EventOnly(_) => "event-only",
        SdrView::Generic(_) => "generic",
        SdrView::Fru(_) => "FRU",
        SdrView::Controller(_) => "controller",
        SdrView::Other(_) => "other",
    }
}

/// The kind of a record, or the fault of bytes that are not one.
fn kind_of(bytes: &[u8]) -> &'static str {
    match SdrView::read(bytes) {
        Ok(view) => kind_of_record(&view),
        Err(SdrFault::Short) => "short",
        Err(SdrFault::Length) => "length",
        Err(SdrFault::BodyShort) => "body short",
    }
}

/// Asserts the kind of a record, or the fault.
fn assert_kind_or_fault(rt: &impl Abort, alloc: Global, line: &str) {
    let (digits, wanted) = parts(rt, line);
    let bytes = bytes_of(rt, alloc, digits);
    let kind = kind_of(&bytes);
    assert!(rt; kind == wanted, "{line}: got {kind}");
}

/// Asserts the kind or the fault of the first `len` bytes of a record.
fn assert_kind_of_cut(rt: &impl Abort, record: &[u8; 56], len: usize, wanted: &str) {
    let cut = record.get(..len).expect(rt, wanted);
    let kind = kind_of(cut);
    assert!(rt; kind == wanted, "{len} bytes, {wanted}: got {kind}");
}

/// The same with the length in the header set to `len`.
fn assert_kind_of_len(rt: &impl Abort, record: [u8; 56], len: u8, wanted: &str) {
    let record = with_byte(rt, record, 5, len.wrapping_sub(5));
    assert_kind_of_cut(rt, &record, len as usize, wanted);
}

/// The kind or the fault of the first `len` bytes of `CPU_TEMP`.
fn cut_record(len: usize) -> &'static str {
    match len {
        0..=4 => "short",
        5..=55 => "length",
        _ => "full",
    }
}

/// Asserts the kind of a record of the least length, and the fault of one byte less.
fn assert_least_length(rt: &impl Abort, line: &str) {
    let (kind, least, wanted) = three_parts(rt, line);
    let least = least.parse::<u8>().expect(rt, line);
    let record = with_byte(rt, CPU_TEMP, 4, byte_of(rt, kind));
    assert_kind_of_len(rt, record, least, wanted);
    if least > 5 {
        assert_kind_of_len(rt, record, least - 1, "body short");
    }
}

#[test]
fn the_first_fault_is_found(rt: HostRuntime) {
    for line in FAULTS.lines() {
        assert_kind_or_fault(&rt, rt.alloc(), line);
    }
}

#[test]
fn a_record_that_is_cut_short_has_a_fault(rt: HostRuntime) {
    for len in 0..57 {
        assert_kind_of_cut(&rt, &CPU_TEMP, len, cut_record(len));
    }
}

#[test]
fn a_full_record_has_48_bytes_or_more(rt: HostRuntime) {
    for len in 5..57 {
        let wanted = if len < 48 { "body short" } else { "full" };
        assert_kind_of_len(&rt, CPU_TEMP, len, wanted);
    }
}

#[test]
fn each_type_has_its_least_length(rt: HostRuntime) {
    for line in LEAST_LENGTHS.lines() {
        assert_least_length(&rt, line);
    }
}
