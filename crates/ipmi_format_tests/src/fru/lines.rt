//! Lines of FRU devices, put together by hand.
use super::examples::{BOARD, OUTPUT};
use crate::cases::{assert_text_with_end, bytes_of, parts};
use ipmi_fru::{elsewhere_line, fru_line};
use std::alloc::Global;
use std::process::Abort;

/// A board, and a product of the fields AB, nothing, PQ, V1 and SX.
const BOARD_AND_PRODUCT: &str = "01000001040000fa0103000100008329dca642123bc441e90042c1000000004d\
    010319c24142c0c25051c25631c25358c100000000000004";

/// The same with a wrong checksum of the product.
const FAULTY_PRODUCT: &str = "01000001040000fa0103000100008329dca642123bc441e90042c1000000004d\
    010319c24142c0c25051c25631c25358c100000000000005";

/// `inventory|line` of device 7, PSU 1. The line is given from after the name.
const LINES: &str = "01000000000000ff|present | - | - | -
01000000010000fe010219c24142c24344c1000000000095|present | CD | - | -
|faulty | - | - | -
02000000000000fe|faulty | - | - | -
01000000000000fe|faulty | - | - | -";

/// The same of inventories with both areas. The board's fields are MF, BN, BS and BP, in the last case MF alone. The
/// product has a name; a serial number; a manufacturer and a version; the same two.
const BOTH_AREAS: &str =
    "01000001040000fa010300000000c24d46c2424ec24253c24250c0c100000029010200c0c2504ec0c0c0c100000000dc|present | PN | - | -
01000001040000fa010300000000c24d46c2424ec24253c24250c0c100000029010200c0c0c0c0c25358c100000000cf|present | - | - | SX
01000001040000fa010300000000c24d46c2424ec24253c24250c0c100000029010200c2504dc0c0c25631c0c1000054|present | BN | BP | BS
01000001030000fb010200000000c24d46c0c0c0c10000a7010200c2504dc0c0c25631c0c1000054|present | - | - | -";

/// Asserts the line of device 7, PSU 1, with this inventory.
fn assert_line(rt: &impl Abort, alloc: Global, inventory: &str, wanted: &str) {
    let bytes = bytes_of(rt, alloc, inventory);
    let line = fru_line(alloc, 7, Some("PSU 1"), Some(&bytes));
    assert_text_with_end(rt, line, wanted, "\n", wanted);
}

/// The same for a case.
fn assert_line_of_case(rt: &impl Abort, alloc: Global, case: &str) {
    let (inventory, wanted) = parts(rt, case);
    let wanted = format!(in alloc; "7 | PSU 1 | {wanted}").expect(rt, case);
    assert_line(rt, alloc, inventory, wanted.as_str());
}

#[test]
fn each_inventory_has_its_line(rt: HostRuntime) {
    for case in LINES.lines() {
        assert_line_of_case(&rt, rt.alloc(), case);
    }
}

// The columns are of one area, so the name and the serial number are never of two devices.
#[test]
fn the_columns_are_of_the_product_or_of_the_board(rt: HostRuntime) {
    let line = "7 | PSU 1 | present | - | PQ | SX";
    assert_line(&rt, rt.alloc(), BOARD_AND_PRODUCT, line);
    for case in BOTH_AREAS.lines() {
        assert_line_of_case(&rt, rt.alloc(), case);
    }
}

#[test]
fn the_board_is_shown_where_there_is_no_product(rt: HostRuntime) {
    let line = "7 | PSU 1 | present | 123- | - | A\u{e9}";
    assert_line(&rt, rt.alloc(), BOARD, line);
    assert_line(&rt, rt.alloc(), FAULTY_PRODUCT, line);
    assert_line(&rt, rt.alloc(), OUTPUT, "7 | PSU 1 | present | - | - | -");
}

#[test]
fn a_device_may_have_no_name_and_no_inventory(rt: HostRuntime) {
    let line = fru_line(rt.alloc(), 255, None, None);
    assert_text_with_end(
        &rt,
        line,
        "255 | - | not present | - | - | -",
        "\n",
        "no name",
    );
    let line = fru_line(rt.alloc(), 0, Some(""), None);
    assert_text_with_end(
        &rt,
        line,
        "0 | - | not present | - | - | -",
        "\n",
        "an empty name",
    );
}

#[test]
fn a_device_that_is_elsewhere_has_no_id(rt: HostRuntime) {
    let line = elsewhere_line(rt.alloc(), "PSU 1");
    let wanted = "- | PSU 1 | elsewhere | - | - | -";
    assert_text_with_end(&rt, line, wanted, "\n", "a name");
    let line = elsewhere_line(rt.alloc(), "");
    let wanted = "- | - | elsewhere | - | - | -";
    assert_text_with_end(&rt, line, wanted, "\n", "no name");
}
