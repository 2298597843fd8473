//! Lines that belong together: inventories on several lines, ids in either case, and dashes.
use super::images::assert_answers_of_text;

/// The lines of inventory 00 have lines of another kind and of inventory 01 between them.
const APART: &str = "ipmi-image 1
fru 00 0102
sdr 0001 ffff 010051c000
fru 01 ff
fru 00 03
end
";

/// `call|answer`.
const APART_ANSWERS: &str = "fru_size 0|0003 00
fru_part 0 0 4|03 010203ee
fru_size 1|0001 00
fru_part 1 0 4|01 ffeeeeee";

#[test]
fn lines_of_an_inventory_are_joined(rt: HostRuntime) {
    assert_answers_of_text(&rt, rt.alloc(), APART, APART_ANSWERS);
}

const EITHER_CASE: &str = "ipmi-image 1
sdr ABCD aBcE CDAB51C000
fru 0A 0B
reading 3 EF 2DC00000
fru 0a 0b
end
";

/// `call|answer`.
const EITHER_CASE_ANSWERS: &str = "part sdr 0 abcd 0 6|abce 05 cdab51c000ee
fru_size 0a|0002 00
fru_part 0a 0 3|02 0b0bee
reading 3 ef|2dc00000";

#[test]
fn hex_digits_are_of_either_case(rt: HostRuntime) {
    assert_answers_of_text(&rt, rt.alloc(), EITHER_CASE, EITHER_CASE_ANSWERS);
}

const DASHES: &str = "ipmi-image 2
sdr 0001 - 010051c000
sel 0005 - 05000201000020200004013001595f5a
sdr 0003 - 030051c000
sdr 0002 0001 020051c000
sel 0009 - 09000201000020200004013001595f5a
sdr 0004 - 040051c000
end
";

/// `call|answer`.
const DASHES_ANSWERS: &str = "part sdr 0 1 0 1|0003 01 01
part sdr 0 3 0 1|0002 01 03
part sdr 0 2 0 1|0001 01 02
part sdr 0 4 0 1|ffff 01 04
part sel 0 5 0 1|0009 01 05
part sel 0 9 0 1|ffff 01 09";

// In version 2 a dash is the id of the next row of the same shelf, and FFFFh in the last row.
#[test]
fn a_dash_is_the_following_row_of_the_shelf(rt: HostRuntime) {
    assert_answers_of_text(&rt, rt.alloc(), DASHES, DASHES_ANSWERS);
}
