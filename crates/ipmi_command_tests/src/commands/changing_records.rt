//! Records, infos and inventories that change at a call, or at every call. Each printed piece is of one image, or a message
//! names what was not read.
use super::changing::assert_outcomes_of_changes;

/// `words|first image|second image|moods`, then the outcome.
const BLOCKS: &str = "sdr,get,PSU1|sensor and locator|another sensor and locator|x
0 6
--
Record: 0002h
Type: FRU locator
Name: PSU1
Address: 20h
Entity: 10.3

====
sdr,get,PSU1|sensor and locator|another sensor and locator|.x
0 9
--
Record: 0002h
Type: FRU locator
Name: PSU1
Address: 20h
Entity: 10.3

====
sdr,get,PSU1|sensor and locator|another sensor and locator|..x
0 9
--
Record: 0002h
Type: FRU locator
Name: PSU1
Address: 20h
Entity: 10.3

====
sdr,get,PSU1|sensor and locator|another sensor and locator|...x
0 10
--
Record: 0002h
Type: FRU locator
Name: PSU1
Address: 20h
Entity: 10.3

====
sdr,get,PSU1|sensor and locator|another sensor and locator|....x
0 9
--
Record: 0002h
Type: FRU locator
Name: PSU1
Address: 20h
Entity: 10.3

====
sdr,get,PSU1|sensor and locator|another sensor and locator|.....x
0 9
--
Record: 0002h
Type: FRU locator
Name: PSU1
Address: 20h
Entity: 10.3

====
sdr,get,PSU1|sensor and locator|another sensor and locator|......x
0 6
--
Record: 0002h
Type: FRU locator
Name: PSU1
Address: 20h
Entity: 10.1

====
sdr,get,CPU Temp|sensor and locator|another sensor and locator|x
0 7
--
Record: 0001h
Type: full
Name: CPU Temp
Owner: 20h LUN 0
Sensor: 01h
Entity: 3.1
Kind: Temperature
Event type: 01h
Reading: 48 degrees C
Status: ok
Upper non-recoverable: 96 degrees C
Upper critical: 91 degrees C
Upper non-critical: 86 degrees C

====
sdr,get,CPU Temp|sensor and locator|another sensor and locator|...x
0 11
--
Record: 0001h
Type: full
Name: CPU Temp
Owner: 20h LUN 0
Sensor: 01h
Entity: 3.1
Kind: Temperature
Event type: 01h
Reading: 48 degrees C
Status: ok
Upper non-recoverable: 96 degrees C
Upper critical: 91 degrees C
Upper non-critical: 86 degrees C

====
sdr,get,CPU Temp|sensor and locator|another sensor and locator|....x
0 10
--
Record: 0001h
Type: full
Name: CPU Temp
Owner: 20h LUN 0
Sensor: 01h
Entity: 3.1
Kind: Temperature
Event type: 01h
Reading: 48 degrees C
Status: ok
Upper non-recoverable: 95 degrees C
Upper critical: 90 degrees C
Upper non-critical: 85 degrees C

====
sdr,get,CPU Temp|sensor and locator|another sensor and locator|.....x
0 10
--
Record: 0001h
Type: full
Name: CPU Temp
Owner: 20h LUN 0
Sensor: 01h
Entity: 3.1
Kind: Temperature
Event type: 01h
Reading: 45 degrees C
Status: ok
Upper non-recoverable: 95 degrees C
Upper critical: 90 degrees C
Upper non-critical: 85 degrees C

====
sdr,get,PSU1|sensor and locator|empty|....x
1 5
record 0002h not present
--
====
sdr,get,PSU1|sensor and locator|empty|.x
1 2
no record named PSU1
--
";

// After a change a record begins again with a reservation. A reading is always of the changed image.
#[test]
fn a_block_is_of_one_record(rt: HostRuntime) {
    assert_outcomes_of_changes(&rt, rt.alloc(), BLOCKS);
}

/// `words|first image|second image|moods`, then the outcome.
const INFOS_AND_INVENTORIES: &str = "sel info|log|another log|x
0 1
--
Version: 0x02
Records: 65535
Free Space: 65535
Last Addition: +0 s
Last Erase: +536870912 s
Overflow: yes
Support: 0x82
====
sel info|log|another log|.x
0 1
--
Version: 0x51
Records: 3
Free Space: 1024
Last Addition: 1987-01-05 18:48:33
Last Erase: unspecified
Overflow: no
Support: 0x02
====
sel info|log|three|x
1 1
info not present
--
====
fru print 0|inventory|another inventory|x
0 2
--
FRU 0
Chassis Type: Other

====
fru print 0|inventory|another inventory|.x
0 2
--
FRU 0
Chassis Type: Other

====
fru print 0|inventory|another inventory|..x
0 2
--
FRU 0
Chassis Type: Rack Mount Chassis

====
--part 8 fru print 0|inventory|another inventory|..x
0 3
--
FRU 0
Chassis Type: Other

====
--part 8 fru print 0|inventory|another inventory|.x.y
0 3
--
FRU 0
Chassis Type: Other

====
fru print 0|inventory|three|.x
0 2
--
FRU 0
not present

====
fru print 0|inventory|short inventory|x
0 2
--
FRU 0
Chassis fault: outside

====
fru print 0|inventory|short inventory|.x
1 3
fru 0 refused with code C9h
--
====
fru print 0|short inventory|inventory|.x
0 2
--
FRU 0
Chassis fault: outside

";

// An info takes one call. Inventories have no reservations: the size and each part are of the image at that call. Past
// the end of a shorter inventory the rest is refused.
#[test]
fn infos_and_inventories_may_change(rt: HostRuntime) {
    assert_outcomes_of_changes(&rt, rt.alloc(), INFOS_AND_INVENTORIES);
}

/// `words|first image|second image|moods`, then the outcome.
const ALWAYS: &str = "sdr,get,PSU1|sensor and locator|another sensor and locator|xyxyxyxyxyxyxyxyxy
1 18
gave up at 0000h
--
====
fru|two locators|two other locators|xyxyxyxyxyxyxyxyxyxy
1 20
gave up at 0000h
--
FRU 0
Chassis Type: Rack Mount Chassis

====
sel list last 2|log|another log|xyxyxyxy
0 8
--
0002 | OEM record 0xe1 | 02020202020202020202020202
0003 | unspecified | OEM record 0xc0 | 001357 | 010203040506
====
sel list last 3|log|another log|yxyxyxyx
0 8
--
0001 | OEM record 0xe0 | 01010101010101010101010101
0002 | +536870912 s | Temperature #0x30 | Upper Non-critical going high | Deasserted
0003 | OEM record 0xe2 | 03030303030303030303030303
";

// A record of two parts needs a current reservation, but never has one: three calls for each of six tries. An entry needs
// none.
#[test]
fn an_image_may_change_at_every_call(rt: HostRuntime) {
    assert_outcomes_of_changes(&rt, rt.alloc(), ALWAYS);
}
