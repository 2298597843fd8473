//! The blocks of the records with a name: which are printed, with which reading, and the end of a walk without such a record.
use super::printed::assert_outputs;

/// `words|image|moods`, then the outcome.
const FOUND: &str = "sdr,get,PSU1|sensor and locator|
0 6
--
Record: 0002h
Type: FRU locator
Name: PSU1
Address: 20h
Entity: 10.1

====
sdr,get,CPU Temp|sensor|
0 5
--
Record: 0001h
Type: full
Name: CPU Temp
Owner: 20h LUN 0
Sensor: 01h
Entity: 3.1
Kind: Temperature
Event type: 01h
Reading: 45 degrees C
Status: ok
Upper non-recoverable: 95 degrees C
Upper critical: 90 degrees C
Upper non-critical: 85 degrees C

====
sdr,get,CPU Temp|sensor and locator|
0 7
--
Record: 0001h
Type: full
Name: CPU Temp
Owner: 20h LUN 0
Sensor: 01h
Entity: 3.1
Kind: Temperature
Event type: 01h
Reading: 45 degrees C
Status: ok
Upper non-recoverable: 95 degrees C
Upper critical: 90 degrees C
Upper non-critical: 85 degrees C

====
sdr,get,PSU1|fault and locator|
0 4
--
Record: 0002h
Type: FRU locator
Name: PSU1
Address: 20h
Entity: 10.1

====
--from,0002,sdr,get,PSU1|sensor and locator|
0 3
--
Record: 0002h
Type: FRU locator
Name: PSU1
Address: 20h
Entity: 10.1

====
--part,1,sdr,get,PSU1|sensor and locator|
0 77
--
Record: 0002h
Type: FRU locator
Name: PSU1
Address: 20h
Entity: 10.1

====
sdr,get,PSU1|twins|
0 5
--
Record: 0001h
Type: FRU locator
Name: PSU1
Address: 20h
Entity: 10.1

Record: 0002h
Type: FRU locator
Name: PSU1
Address: 20h
Entity: 10.2

";

// A sensor with the name takes a call for its reading. Each record with the name has a block.
#[test]
fn a_record_is_shown_by_its_name(rt: HostRuntime) {
    assert_outputs(&rt, rt.alloc(), FOUND);
}

/// `words|image|moods`, then the outcome.
const WITHOUT_READINGS: &str = "sdr,get,CPU Temp|sensor without reading|
0 5
--
Record: 0001h
Type: full
Name: CPU Temp
Owner: 20h LUN 0
Sensor: 01h
Entity: 3.1
Kind: Temperature
Event type: 01h
Reading: no reading
Status: ns
Upper non-recoverable: 95 degrees C
Upper critical: 90 degrees C
Upper non-critical: 85 degrees C

====
sdr,get,CPU Temp|sensor of another owner|
0 4
--
Record: 0001h
Type: full
Name: CPU Temp
Owner: 22h LUN 0
Sensor: 01h
Entity: 3.1
Kind: Temperature
Event type: 01h
Reading: other owner
Status: na
Upper non-recoverable: 95 degrees C
Upper critical: 90 degrees C
Upper non-critical: 85 degrees C

";

// The reading of another owner's sensor is not asked for.
#[test]
fn a_sensor_without_a_reading_has_its_thresholds(rt: HostRuntime) {
    assert_outputs(&rt, rt.alloc(), WITHOUT_READINGS);
}

/// `words|image|moods`, then the outcome.
const NOT_FOUND: &str = "sdr,get,Foo|sensor|
1 4
no record named Foo
--
====
sdr,get,Foo|sensor and locator|
1 6
no record named Foo
--
====
sdr,get,psu1|sensor and locator|
1 6
no record named psu1
--
====
sdr,get,CPU|sensor and locator|
1 6
no record named CPU
--
====
sdr,get,CPU Temp |sensor and locator|
1 6
no record named CPU Temp 
--
====
--from,0002,sdr,get,CPU Temp|sensor and locator|
1 3
no record named CPU Temp
--
====
sdr,get,Foo|empty|
1 2
no record named Foo
--
====
sdr,get,Foo|log|
1 2
no record named Foo
--
";

// The walk goes to its end, and no reading is asked for.
#[test]
fn a_name_that_no_record_has_is_told_after_the_last_one(rt: HostRuntime) {
    assert_outputs(&rt, rt.alloc(), NOT_FOUND);
}

/// `words|image|moods`, then the outcome.
const ENDED: &str = "sdr,get,Foo|cycle|
1 3
cycle at 0007h
--
====
sdr,get,Foo|cycle at zero|
1 2
cycle at 0000h
--
====
sdr,get,Foo|locator to nowhere|
1 4
record 0009h not present
--
====
--from,0009,sdr,get,PSU1|sensor and locator|
1 2
record 0009h not present
--
====
sdr,get,PSU1|locator to nowhere|
1 4
record 0009h not present
--
Record: 0001h
Type: FRU locator
Name: PSU1
Address: 20h
Entity: 10.1

";

// No message says that the name was not found, since the walk was not finished.
#[test]
fn a_walk_that_ends_by_name_says_nothing_of_the_record(rt: HostRuntime) {
    assert_outputs(&rt, rt.alloc(), ENDED);
}

/// `words|image|moods`, then the outcome.
const OF_NO_CHARACTER: &str = "sdr,get,|nameless|
0 4
--
Record: 0001h
Type: FRU locator
Name: 
Address: 20h
Entity: 10.1

====
sdr,get,|three|
1 6
no record named 
--
";

// The locator's name is empty. A record of another type has no name at all.
#[test]
fn a_name_may_be_the_empty_text(rt: HostRuntime) {
    assert_outputs(&rt, rt.alloc(), OF_NO_CHARACTER);
}

/// `words|image|moods`, then the outcome.
const OF_EACH_SORT: &str = "sdr,get,123|names of each sort|
0 13
--
Record: 0001h
Type: FRU locator
Name: 123
Address: 20h
Entity: 10.1

====
sdr,get,IPMI|names of each sort|
0 13
--
Record: 0002h
Type: FRU locator
Name: IPMI
Address: 20h
Entity: 10.2

====
sdr,get,abcd|names of each sort|
0 13
--
Record: 0003h
Type: FRU locator
Name: abcd
Address: 20h
Entity: 10.3

====
sdr,get,Aé.|names of each sort|
0 13
--
Record: 0004h
Type: FRU locator
Name: Aé.
Address: 20h
Entity: 10.4

====
sdr,get,IP|names of each sort|
0 13
--
Record: 0005h
Type: FRU locator
Name: IP
Address: 20h
Entity: 10.5

====
sdr,get,A|names of each sort|
0 13
--
Record: 0006h
Type: FRU locator
Name: A
Address: 20h
Entity: 10.6

";

// BCD plus, 6-bit ASCII, two-byte characters in hex, and Latin-1.
#[test]
fn a_name_is_asked_for_as_it_is_printed(rt: HostRuntime) {
    assert_outputs(&rt, rt.alloc(), OF_EACH_SORT);
}

/// `words|image|moods`, then the outcome.
const OF_CONTROL_BYTES: &str = "sdr,get,a.b|control bytes|
0 3
--
Record: 0001h
Type: FRU locator
Name: a.b
Address: 20h
Entity: 10.1

====
sdr,get,a\u{7}b|control bytes|
1 3
no record named a\u{7}b
--
====
sdr,get,\u{1b}[31m\té|control bytes|
1 3
no record named \u{1b}[31m\té
--
";

// A control byte is a dot in the printed name, by which the record is found. A message repeats the name of the command
// line.
#[test]
fn a_record_has_its_printed_name(rt: HostRuntime) {
    assert_outputs(&rt, rt.alloc(), OF_CONTROL_BYTES);
}
