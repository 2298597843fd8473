//! An inventory of 512 bytes, the parts of its text, and the parts that are printed.
use super::outcome::assert_outcome;
use super::over_images::outcome_over;
use std::alloc::Global;
use std::process::Abort;

/// An image of an inventory of 512 bytes, 32 in a line: a header, a chassis area of 64 bytes, a board area and a
/// product area of 128 each, and two multirecords of 45 and 139 bytes. No byte is left over.
pub(super) const INVENTORY: &str = "ipmi-image 1
fru 00 01000109192900b3010817d1434841535349532d504152542d30303031d54348
fru 00 41535349532d53455249414c2d303030303031c65241434b2037c10000000000
fru 00 0000000000000092011019010000c441434d45ce4d61696e626f617264203930
fru 00 30308329dca642123b02abcde24649525354204f462054574f20424f41524453
fru 00 2c20544845205550504552204f4e45c100000000000000000000000000000000
fru 00 0000000000000000000000000000000000000000000000000000000000000000
fru 00 00000000000000d0011019c441434d45c6536572766572c3502d31c25632c353
fru 00 2d33c3412d34c3462d35ea54574f20504f57455220535550504c4945532c2046
fru 00 4f55522046414e5320414e44204f4e45204c4f434bc100000000000000000000
fru 00 0000000000000000000000000000000000000000000000000000000000000000
fru 00 00000000000000c9c00228cc4a0102030405060708090a0b0c0d0e0f10111213
fru 00 1415161718191a1b1c1d1e1f202122232425262728038286c332013031323334
fru 00 3536373839303132333435363738393031323334353637383930313233343536
fru 00 3738393031323334353637383930313233343536373839303132333435363738
fru 00 3930313233343536373839303132333435363738393031323334353637383930
fru 00 3132333435363738393031323334353637383930313233343536373839303132
end
";

const CHASSIS: &str = "Chassis Type: Rack Mount Chassis
Chassis Part Number: CHASSIS-PART-0001
Chassis Serial: CHASSIS-SERIAL-000001
Chassis Extra: RACK 7
";

const BOARD: &str = "Board Mfg Date: 1996-01-01 00:01
Board Mfg: ACME
Board Product: Mainboard 9000
Board Serial: IPMI
Board Part Number: 123-
Board FRU ID: abcd
Board Extra: FIRST OF TWO BOARDS, THE UPPER ONE
";

const PRODUCT: &str = "Product Manufacturer: ACME
Product Name: Server
Product Part Number: P-1
Product Version: V2
Product Serial: S-3
Product Asset Tag: A-4
Product FRU ID: F-5
Product Extra: TWO POWER SUPPLIES, FOUR FANS AND ONE LOCK
";

const FIRST: &str =
    "Record 0xc0: 0102030405060708090a0b0c0d0e0f101112131415161718191a1b1c1d1e1f202122232425262728
";

const SECOND: &str =
    "Management Access 0x01: 012345678901234567890123456789012345678901234567890123456789012345678901234567890123456789\
    0123456789012345678901234567890123456789012
";

/// The position of a byte's digits in the image.
pub(super) fn digits_at(place: usize) -> usize {
    let line = 20_usize.saturating_add((place / 32).saturating_mul(72));
    line.saturating_add((place % 32).saturating_mul(2))
}

fn push(rt: &impl Abort, text: &mut String, part: &str) {
    text.push_str(part).expect(rt, "memory");
}

/// Appends a part of the text: the part of the inventory with this name, or the line of a fault.
fn push_part(rt: &impl Abort, text: &mut String, part: &str) {
    match part {
        "chassis" => push(rt, text, CHASSIS),
        "board" => push(rt, text, BOARD),
        "product" => push(rt, text, PRODUCT),
        "first" => push(rt, text, FIRST),
        "second" => push(rt, text, SECOND),
        fault => {
            push(rt, text, fault);
            push(rt, text, "\n");
        }
    }
}

/// The text of several parts, which are separated by bars.
pub(super) fn text_of_parts(rt: &impl Abort, alloc: Global, parts: &str) -> String {
    let mut text = String::new(alloc);
    for part in parts.split('|') {
        push_part(rt, &mut text, part);
    }
    text
}

/// Asserts the parts of the text of an inventory, after a call for its size and one for each 32 bytes.
pub(super) fn assert_parts(
    rt: &impl Abort,
    alloc: Global,
    image: &str,
    len: usize,
    parts: &str,
    case: &str,
) {
    let outcome = outcome_over(rt, alloc, "fru print 0", image);
    let calls = len.div_ceil(32).saturating_add(1);
    let text = text_of_parts(rt, alloc, parts);
    let wanted = format!(in alloc; "0 {calls}\n--\nFRU 0\n{text}\n").expect(rt, "memory");
    assert_outcome(rt, alloc, outcome, wanted.as_str(), case);
}

#[test]
fn an_inventory_of_512_bytes_is_printed(rt: HostRuntime) {
    let parts = "chassis|board|product|first|second";
    assert_parts(&rt, rt.alloc(), INVENTORY, 512, parts, "whole");
}
