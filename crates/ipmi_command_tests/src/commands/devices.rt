//! The inventories of device 0 and of all locators.
use super::printed::assert_outputs;

/// `words|image|moods`, then the outcome.
const ALL: &str = "fru|inventories|
0 10
--
FRU 0
Chassis Type: Rack Mount Chassis

FRU 1 (PSU1)
FRU fault: header short

====
fru print|inventories|
0 10
--
FRU 0
Chassis Type: Rack Mount Chassis

FRU 1 (PSU1)
FRU fault: header short

====
fru|two locators|
0 11
--
FRU 0
Chassis Type: Rack Mount Chassis

FRU 1 (PSU1)
FRU fault: header short

FRU 2 (PSU2)
Chassis fault: outside

====
--part 1 fru|two locators|
0 69
--
FRU 0
Chassis Type: Rack Mount Chassis

FRU 1 (PSU1)
FRU fault: header short

FRU 2 (PSU2)
Chassis fault: outside

";

// Device 0 takes two calls, its size and its bytes. After a reservation the sensor takes three and the locator two; no
// reading is asked for. In parts of one byte the three inventories take 17, 2 and 9 calls, and the locators 20 each.
#[test]
fn device_0_comes_before_the_locators(rt: HostRuntime) {
    assert_outputs(&rt, rt.alloc(), ALL);
}

/// `words|image|moods`, then the outcome.
const NOT_PRESENT: &str = "fru print|one inventory|
0 9
--
FRU 0
Chassis Type: Rack Mount Chassis

FRU 1 (PSU1)
not present

====
fru|empty|
0 3
--
FRU 0
not present

====
fru|sensor|
0 5
--
FRU 0
not present

====
fru|sensor and locator|
0 8
--
FRU 0
not present

FRU 1 (PSU1)
not present

";

// The call for the size shows that there is no inventory.
#[test]
fn a_device_may_have_no_inventory(rt: HostRuntime) {
    assert_outputs(&rt, rt.alloc(), NOT_PRESENT);
}

/// `words|image|moods`, then the outcome.
const ELSEWHERE: &str = "fru print|inventory elsewhere|
0 8
--
FRU 0
Chassis Type: Rack Mount Chassis

FRU (PSU1): elsewhere, not read

====
fru|elsewhere in three ways|
0 8
--
FRU 0
not present

FRU (AB): elsewhere, not read

FRU (CD): elsewhere, not read

FRU (EF): elsewhere, not read

";

// At another address, at another LUN, or not logical. No call asks for such a device.
#[test]
fn a_device_that_is_elsewhere_is_named(rt: HostRuntime) {
    assert_outputs(&rt, rt.alloc(), ELSEWHERE);
}

/// `words|image|moods`, then the outcome.
const SORTS: &str = "fru|locators of each sort|
0 17
--
FRU 0
Chassis Type: Rack Mount Chassis

FRU (CD): elsewhere, not read

FRU 2 ()
FRU fault: header short

FRU 255 (EF)
not present

";

// The first locator is for device 0, which was already printed. The second is for a device 0 elsewhere. The fifth is too
// short, and the sixth is for a controller. No image has an inventory of device 255.
#[test]
fn locators_of_each_sort_are_printed(rt: HostRuntime) {
    assert_outputs(&rt, rt.alloc(), SORTS);
}

/// `words|image|moods`, then the outcome.
const NAMES: &str = "fru|names of each sort|
0 20
--
FRU 0
not present

FRU 1 (123)
not present

FRU 2 (IPMI)
not present

FRU 3 (abcd)
not present

FRU 4 (Aé.)
not present

FRU 5 (IP)
not present

FRU 6 (A)
not present

";

// BCD plus, 6-bit ASCII, two-byte characters in hex, and Latin-1 with a dot for a control byte. Then a name that is
// cut short, and a name that ends at a byte 00h.
#[test]
fn a_device_has_the_name_of_its_locator(rt: HostRuntime) {
    assert_outputs(&rt, rt.alloc(), NAMES);
}

/// `words|image|moods`, then the outcome.
const ENDED: &str = "fru|locator to nowhere|
1 7
record 0009h not present
--
FRU 0
not present

FRU 1 (PSU1)
FRU fault: header short

====
fru|locators in a cycle|
1 8
cycle at 0007h
--
FRU 0
not present

FRU 1 (AB)
not present

FRU 2 (CD)
not present

====
fru|cycle at zero|
1 3
cycle at 0000h
--
FRU 0
not present

";

#[test]
fn inventories_are_printed_before_a_walk_ends_by_name(rt: HostRuntime) {
    assert_outputs(&rt, rt.alloc(), ENDED);
}
