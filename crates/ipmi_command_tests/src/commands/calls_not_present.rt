//! Each call of a command, answered with `not present`, CBh.
use super::outcome::assert_outcome_of_one;
use super::over_images::interrupting;
use super::saved::image_named;
use crate::cases::{case_of, number};
use crate::command_line::lines::command_of_case;
use std::alloc::Global;
use std::process::Abort;

/// Asserts the outcome of a command over an image, with one call answered with CBh.
fn assert_outcome_without_call(rt: &impl Abort, alloc: Global, case: &str) {
    let case = case_of(rt, case);
    let call = number(rt, case.more);
    let ctl = interrupting(rt, alloc, image_named(rt, case.image), call, 0xCB);
    let command = command_of_case(rt, alloc, case.words);
    assert_outcome_of_one(rt, alloc, ctl, command, case.wanted, case.line);
}

/// The same for each case.
fn assert_outcomes(rt: &impl Abort, alloc: Global, cases: &str) {
    for case in cases.split("====\n") {
        assert_outcome_without_call(rt, alloc, case);
    }
}

/// `words|image|number of the call`, then the outcome.
const OF_A_NAME: &str = "sdr,get,CPU Temp|sensor and locator|1
1 1
record 0000h refused with code CBh
--
====
sdr,get,CPU Temp|sensor and locator|2
1 2
no record named CPU Temp
--
====
sdr,get,CPU Temp|sensor and locator|3
1 3
no record named CPU Temp
--
====
sdr,get,CPU Temp|sensor and locator|4
1 4
no record named CPU Temp
--
====
sdr,get,CPU Temp|sensor and locator|5
0 7
--
Record: 0001h
Type: full
Name: CPU Temp
Owner: 20h LUN 0
Sensor: 01h
Entity: 3.1
Kind: Temperature
Event type: 01h
Reading: no reading
Status: ns
Upper non-recoverable: 95 degrees C
Upper critical: 90 degrees C
Upper non-critical: 85 degrees C

====
sdr,get,CPU Temp|sensor and locator|6
1 6
record 0002h not present
--
Record: 0001h
Type: full
Name: CPU Temp
Owner: 20h LUN 0
Sensor: 01h
Entity: 3.1
Kind: Temperature
Event type: 01h
Reading: 45 degrees C
Status: ok
Upper non-recoverable: 95 degrees C
Upper critical: 90 degrees C
Upper non-critical: 85 degrees C

====
sdr,get,CPU Temp|sensor and locator|7
1 7
record 0002h not present
--
Record: 0001h
Type: full
Name: CPU Temp
Owner: 20h LUN 0
Sensor: 01h
Entity: 3.1
Kind: Temperature
Event type: 01h
Reading: 45 degrees C
Status: ok
Upper non-recoverable: 95 degrees C
Upper critical: 90 degrees C
Upper non-critical: 85 degrees C

";

// A reservation is refused. Without its first record the shelf is empty, and without the second one the chain is
// broken. A sensor may have no reading.
#[test]
fn a_named_record_may_be_away(rt: HostRuntime) {
    assert_outcomes(&rt, rt.alloc(), OF_A_NAME);
}

/// `words|image|number of the call`, then the outcome.
const OF_THE_NEWEST: &str = "sel list last 2|log|1
1 1
record 0000h refused with code CBh
--
====
sel list last 2|log|2
0 2
--
====
sel list last 2|log|3
1 3
record 0002h not present
--
====
sel list last 2|log|4
1 4
record 0003h not present
--
====
sel list last 2|log|5
1 5
record 0000h refused with code CBh
--
====
sel list last 2|log|6
0 6
--
====
sel list last 2|log|7
1 7
record 0002h not present
--
====
sel list last 2|log|8
1 8
record 0003h not present
--
0002 | +536870912 s | Temperature #0x30 | Upper Non-critical going high | Deasserted
";

// The first four calls are those of the first walk, which counts. If the first entry is gone before the second walk, the log
// is empty.
#[test]
fn a_counted_entry_may_be_away(rt: HostRuntime) {
    assert_outcomes(&rt, rt.alloc(), OF_THE_NEWEST);
}

/// `words|image|number of the call`, then the outcome.
const OF_A_DEVICE: &str = "fru print 0|inventory|1
0 1
--
FRU 0
not present

====
fru print 0|inventory|2
0 2
--
FRU 0
not present

====
--part 8 fru print 0|inventory|3
0 3
--
FRU 0
not present

====
sel info|log|1
1 1
info not present
--
====
sdr info|infos|1
1 1
info not present
--
";

// The call for the size, and the calls for parts of eight bytes.
#[test]
fn a_device_may_be_away(rt: HostRuntime) {
    assert_outcomes(&rt, rt.alloc(), OF_A_DEVICE);
}

/// `words|image|number of the call`, then the outcome.
const OF_ALL_DEVICES: &str = "fru|two locators|1
0 10
--
FRU 0
not present

FRU 1 (PSU1)
FRU fault: header short

FRU 2 (PSU2)
Chassis fault: outside

====
fru|two locators|2
0 11
--
FRU 0
not present

FRU 1 (PSU1)
FRU fault: header short

FRU 2 (PSU2)
Chassis fault: outside

====
fru|two locators|3
1 3
record 0000h refused with code CBh
--
FRU 0
Chassis Type: Rack Mount Chassis

====
fru|two locators|4
0 4
--
FRU 0
Chassis Type: Rack Mount Chassis

====
fru|two locators|5
0 5
--
FRU 0
Chassis Type: Rack Mount Chassis

====
fru|two locators|6
0 10
--
FRU 0
Chassis Type: Rack Mount Chassis

FRU 1 (PSU1)
not present

FRU 2 (PSU2)
Chassis fault: outside

====
fru|two locators|7
0 11
--
FRU 0
Chassis Type: Rack Mount Chassis

FRU 1 (PSU1)
not present

FRU 2 (PSU2)
Chassis fault: outside

====
fru|two locators|8
1 8
record 0002h not present
--
FRU 0
Chassis Type: Rack Mount Chassis

FRU 1 (PSU1)
FRU fault: header short

====
fru|two locators|9
1 9
record 0002h not present
--
FRU 0
Chassis Type: Rack Mount Chassis

FRU 1 (PSU1)
FRU fault: header short

====
fru|two locators|10
0 10
--
FRU 0
Chassis Type: Rack Mount Chassis

FRU 1 (PSU1)
FRU fault: header short

FRU 2 (PSU2)
not present

====
fru|two locators|11
0 11
--
FRU 0
Chassis Type: Rack Mount Chassis

FRU 1 (PSU1)
FRU fault: header short

FRU 2 (PSU2)
not present

";

// The command continues after an inventory that is not present. It ends at a missing locator, unless that is the first
// record.
#[test]
fn a_device_or_a_locator_may_be_away(rt: HostRuntime) {
    assert_outcomes(&rt, rt.alloc(), OF_ALL_DEVICES);
}
