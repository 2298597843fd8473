//! The inventory of one device: its text, its calls, and the effect of troubles and refusals.
use super::outcome::assert_outcome;
use super::over_images::outcome_over;
use super::printed::assert_outputs;
use super::saved::EMPTY;
use crate::cases::first_line;
use std::alloc::Global;
use std::process::Abort;

/// Asserts the text of device 0's inventory, after two calls. The case is the bytes in a line, then the text.
fn assert_inventory_text(rt: &impl Abort, alloc: Global, case: &str) {
    let (hex, text) = first_line(rt, case);
    let image = format!(in alloc; "ipmi-image 1\nfru 00 {hex}\nend\n").expect(rt, "memory");
    let wanted = format!(in alloc; "0 2\n--\nFRU 0\n{text}\n").expect(rt, "memory");
    let outcome = outcome_over(rt, alloc, "fru print 0", image.as_str());
    assert_outcome(rt, alloc, outcome, wanted.as_str(), hex);
}

/// The same for each case.
fn assert_inventory_texts(rt: &impl Abort, alloc: Global, cases: &str) {
    for case in cases.split("====\n") {
        assert_inventory_text(rt, alloc, case);
    }
}

const AREAS: &str = "01000001000000fe0103000100008329dca642123bc441e90042c1000000004d
Board Mfg Date: 1996-01-01 00:01
Board Mfg: IPMI
Board Product: 123-
Board Serial: Aé
====
01000001000000fe0103000100008329dca642123bc441e90042c1000000004e
Board fault: checksum
====
01000001000000ff0103000100008329dca642123bc441e90042c1000000004d
FRU fault: header checksum
====
01000100000000fe010117c100000026
Chassis Type: Rack Mount Chassis
====
01000100000000fe010117c500000022
Chassis fault: field past end
====
01000100000000fe
Chassis fault: outside
====
01000100000000fe020117c100000026
Chassis fault: version
====
01000100000000fe010017c100000026
Chassis fault: length
====
01000000010000fe010219c24142c24344c1000000000095
Product Manufacturer: AB
Product Name: CD
====
01000000000000ff
====
00
FRU fault: header short
====
02000000000000fe
FRU fault: header version
";

// A fault is a line. The rest of the inventory is still printed.
#[test]
fn the_areas_of_an_inventory_are_printed(rt: HostRuntime) {
    assert_inventory_texts(&rt, rt.alloc(), AREAS);
}

const MULTIRECORDS: &str = "01000000000100fe01820d432d01b0043c003c007800000024f4
DC Output 1: nominal 12 V, negative deviation 0.6 V, positive deviation 0.6 V, ripple 120 mV, current 0 to 62500 mA
====
01000000000100fe01820d432d01b0043c003c007800000024
Record fault: outside
====
01000000000100fe01820d432e01b0043c003c007800000024f4
Record fault: header checksum
====
01000000000100fe01820d432d01b0043c003c007800000024f5
Record fault: data checksum
====
01000000000100fe0302029e5b0161c0820000be
Management Access 0x01: a
Record 0xc0: \n";

#[test]
fn the_multirecords_of_an_inventory_are_printed(rt: HostRuntime) {
    assert_inventory_texts(&rt, rt.alloc(), MULTIRECORDS);
}

/// `words|image|moods`, then the outcome.
const DEVICES: &str = "fru print 0|inventory|
0 2
--
FRU 0
Chassis Type: Rack Mount Chassis

====
--part 1 fru print 0|inventory|
0 17
--
FRU 0
Chassis Type: Rack Mount Chassis

====
--part 5 fru print 0x0|inventory|
0 5
--
FRU 0
Chassis Type: Rack Mount Chassis

====
fru print 0|inventory on three lines|
0 2
--
FRU 0
Chassis Type: Rack Mount Chassis

====
fru print 254|inventory on three lines|
0 2
--
FRU 254
FRU fault: header short

====
fru print 1|locator to nowhere|
0 2
--
FRU 1
FRU fault: header short

====
fru print 5|three|
0 1
--
FRU 5
not present

";

// There is a call for the size, and one for each part. No locator is requested.
#[test]
fn the_inventory_of_a_device_is_printed_by_its_id(rt: HostRuntime) {
    assert_outputs(&rt, rt.alloc(), DEVICES);
}

/// Asserts the text of a device without an inventory, after one call for its size.
fn assert_not_present(rt: &impl Abort, alloc: Global, id: u8) {
    let words = format!(in alloc; "fru print {id}").expect(rt, "memory");
    let outcome = outcome_over(rt, alloc, words.as_str(), EMPTY);
    let wanted = format!(in alloc; "0 1\n--\nFRU {id}\nnot present\n\n").expect(rt, "memory");
    assert_outcome(rt, alloc, outcome, wanted.as_str(), words.as_str());
}

#[test]
fn a_device_of_any_id_may_have_no_inventory(rt: HostRuntime) {
    for id in 0..255 {
        assert_not_present(&rt, rt.alloc(), id);
    }
}

/// `words|image|moods`, then the outcome.
const MOODS: &str = "--tries 0 fru print 0|inventory|B
1 1
fru 0 gave up
--
====
--tries 0 fru print 0|inventory|.C
1 2
fru 0 gave up
--
====
--tries 1 --part 4 fru print 0|inventory|B..C
1 4
fru 0 gave up
--
====
--tries 2 --part 4 fru print 0|inventory|B..C
0 7
--
FRU 0
Chassis Type: Rack Mount Chassis

====
fru print 0|inventory|R
1 1
fru 0 refused with code D4h
--
====
fru print 0|inventory|.R
1 2
fru 0 refused with code D4h
--
====
fru print 5|three|B
0 2
--
FRU 5
not present

====
fru print 0|inventory|.L
0 4
--
FRU 0
Chassis Type: Rack Mount Chassis

====
fru print 0|inventory|.11111111
0 10
--
FRU 0
Chassis Type: Rack Mount Chassis

";

// Troubles are counted over the whole inventory. A part of 16 bytes that is too long becomes two parts of 8. After eight
// parts of one byte there is a part of eight bytes.
#[test]
fn an_inventory_is_asked_for_until_it_comes(rt: HostRuntime) {
    assert_outputs(&rt, rt.alloc(), MOODS);
}
