//! The names of sensor types, of chassis types and of events, and the codes that have none.
use crate::cases::{assert_text, byte_of, parts};
use ipmi_text::{SensorType, chassis_text, event_text, sensor_type_text};
use std::alloc::Global;
use std::process::Abort;

/// `sensor type|name`.
const SENSOR_TYPES: &str = "01|Temperature
02|Voltage
03|Current
04|Fan
05|Physical Security
06|Platform Security
07|Processor
08|Power Supply
09|Power Unit
0a|Cooling Device
0b|Other Units-based Sensor
0c|Memory
0d|Drive Slot
0e|POST Memory Resize
0f|System Firmware Progress
10|Event Logging Disabled
11|Watchdog 1
12|System Event
13|Critical Interrupt
14|Button
15|Module
16|Microcontroller
17|Add-in Card
18|Chassis
19|Chip Set
1a|Other FRU
1b|Cable
1c|Terminator
1d|System Boot Initiated
1e|Boot Error
1f|OS Boot
20|OS Stop
21|Slot
22|System ACPI Power State
23|Watchdog 2
24|Platform Alert
25|Entity Presence
26|Monitor ASIC
27|LAN
28|Management Subsystem Health
29|Battery
2a|Session Audit
2b|Version Change
2c|FRU State
00|sensor type 0x00
2d|sensor type 0x2d
ff|sensor type 0xff";

/// `chassis type|name`.
const CHASSIS_TYPES: &str = "01|Other
02|Unknown
03|Desktop
04|Low Profile Desktop
05|Pizza Box
06|Mini Tower
07|Tower
08|Portable
09|Laptop
0a|Notebook
0b|Hand Held
0c|Docking Station
0d|All in One
0e|Sub Notebook
0f|Space-saving
10|Lunch Box
11|Main Server Chassis
12|Expansion Chassis
13|SubChassis
14|Bus Expansion Chassis
15|Peripheral Chassis
16|RAID Chassis
17|Rack Mount Chassis
00|type 0x00
18|type 0x18
ff|type 0xff";

/// `event/reading type and event data 1|event`. The low half of event data 1 is the offset.
const EVENTS: &str = "0100|Lower Non-critical going low
0101|Lower Non-critical going high
0102|Lower Critical going low
0103|Lower Critical going high
0104|Lower Non-recoverable going low
0105|Lower Non-recoverable going high
0106|Upper Non-critical going low
0107|Upper Non-critical going high
0108|Upper Critical going low
0109|Upper Critical going high
010a|Upper Non-recoverable going low
010b|Upper Non-recoverable going high
0150|Lower Non-critical going low
0151|Lower Non-critical going high
0152|Lower Critical going low
0153|Lower Critical going high
0154|Lower Non-recoverable going low
0155|Lower Non-recoverable going high
0156|Upper Non-critical going low
0157|Upper Non-critical going high
0158|Upper Critical going low
0159|Upper Critical going high
015a|Upper Non-recoverable going low
015b|Upper Non-recoverable going high
010c|event 0x01 offset 0xc
015f|event 0x01 offset 0xf
6f02|event 0x6f offset 0x2
0000|event 0x00 offset 0x0
fffa|event 0xff offset 0xa";

fn assert_sensor_type(rt: &impl Abort, alloc: Global, line: &str) {
    let (code, wanted) = parts(rt, line);
    let text = sensor_type_text(alloc, byte_of(rt, code));
    assert_text(rt, text, wanted, line);
}

fn assert_chassis_type(rt: &impl Abort, alloc: Global, line: &str) {
    let (code, wanted) = parts(rt, line);
    let text = chassis_text(alloc, byte_of(rt, code));
    assert_text(rt, text, wanted, line);
}

fn assert_event(rt: &impl Abort, alloc: Global, line: &str) {
    let (bytes, wanted) = parts(rt, line);
    let (event, data) = bytes.split_at_checked(2).expect(rt, line);
    let text = event_text(alloc, byte_of(rt, event), byte_of(rt, data));
    assert_text(rt, text, wanted, line);
}

#[test]
fn each_sensor_type_has_its_name(rt: HostRuntime) {
    for line in SENSOR_TYPES.lines() {
        assert_sensor_type(&rt, rt.alloc(), line);
    }
}

#[test]
fn a_sensor_type_is_found_by_its_name(rt: HostRuntime) {
    let found = |name| SensorType::named(name).map(|kind| kind.0);
    assert!(&rt; found("Temperature") == Some(0x01), "the first");
    assert!(&rt;
        found("fru state") == Some(0x2C),
        "the last, in small letters"
    );
    assert!(&rt; found("POWER SUPPLY") == Some(0x08), "in capital letters");
    assert!(&rt; found("Power").is_none(), "the beginning of a name");
    assert!(&rt; found("").is_none(), "no name");
}

#[test]
fn each_chassis_type_has_its_name(rt: HostRuntime) {
    for line in CHASSIS_TYPES.lines() {
        assert_chassis_type(&rt, rt.alloc(), line);
    }
}

#[test]
fn each_event_has_its_text(rt: HostRuntime) {
    for line in EVENTS.lines() {
        assert_event(&rt, rt.alloc(), line);
    }
}
