//! The words of events, compared with a second list, which another person typed from the standard. If the tables shorten
//! the standard's words, the list has the short ones.
use crate::cases::{assert_text, byte_of, parts};
use ipmi_events::{EventInWords, event_words};
use std::alloc::Global;
use std::process::Abort;

/// The event/reading type of sensor-specific events.
const SENSOR_SPECIFIC: u8 = 0x6f;

/// `event/reading type, offset|words` of generic types (IPMI v2.0, table 42-2).
const GENERIC: &str = "01 00|Lower Non-critical going low
01 01|Lower Non-critical going high
01 02|Lower Critical going low
01 03|Lower Critical going high
01 04|Lower Non-recoverable going low
01 05|Lower Non-recoverable going high
01 06|Upper Non-critical going low
01 07|Upper Non-critical going high
01 08|Upper Critical going low
01 09|Upper Critical going high
01 0a|Upper Non-recoverable going low
01 0b|Upper Non-recoverable going high
02 00|Transition to Idle
02 01|Transition to Active
02 02|Transition to Busy
03 00|State Deasserted
03 01|State Asserted
04 00|Predictive Failure deasserted
04 01|Predictive Failure asserted
05 00|Limit Not Exceeded
05 01|Limit Exceeded
06 00|Performance Met
06 01|Performance Lags
07 00|transition to OK
07 01|transition to Non-Critical from OK
07 02|transition to Critical from less severe
07 03|transition to Non-recoverable from less severe
07 04|transition to Non-Critical from more severe
07 05|transition to Critical from Non-recoverable
07 06|transition to Non-recoverable
07 07|Monitor
07 08|Informational
08 00|Device Removed / Device Absent
08 01|Device Inserted / Device Present
09 00|Device Disabled
09 01|Device Enabled
0a 00|transition to Running
0a 01|transition to In Test
0a 02|transition to Power Off
0a 03|transition to On Line
0a 04|transition to Off Line
0a 05|transition to Off Duty
0a 06|transition to Degraded
0a 07|transition to Power Save
0a 08|Install Error
0b 00|Fully Redundant
0b 01|Redundancy Lost
0b 02|Redundancy Degraded
0b 03|Non-redundant: Sufficient Resources from Redundant
0b 04|Non-redundant: Sufficient Resources from Insufficient Resources
0b 05|Non-redundant: Insufficient Resources
0b 06|Redundancy Degraded from Fully Redundant
0b 07|Redundancy Degraded from Non-redundant
0c 00|D0 Power State
0c 01|D1 Power State
0c 02|D2 Power State
0c 03|D3 Power State";

/// `sensor type, offset|words` of sensor-specific events (IPMI v2.0, table 42-3).
const SPECIFIC: &str = "05 00|General Chassis Intrusion
05 01|Drive Bay intrusion
05 02|I/O Card area intrusion
05 03|Processor area intrusion
05 04|LAN Leash Lost (system is unplugged from LAN)
05 05|Unauthorized dock
05 06|FAN area intrusion
06 00|Secure Mode (Front Panel Lockout) Violation attempt
06 01|Pre-boot Password Violation - user password
06 02|Pre-boot Password Violation attempt - setup password
06 03|Pre-boot Password Violation - network boot password
06 04|Other pre-boot Password Violation
06 05|Out-of-band Access Password Violation
07 00|IERR
07 01|Thermal Trip
07 02|FRB1/BIST failure
07 03|FRB2/Hang in POST failure
07 04|FRB3/Processor Startup/Initialization failure
07 05|Configuration Error
07 06|SM BIOS Uncorrectable CPU-complex Error
07 07|Processor Presence detected
07 08|Processor disabled
07 09|Terminator Presence Detected
07 0a|Processor Automatically Throttled
07 0b|Machine Check Exception (Uncorrectable)
07 0c|Correctable Machine Check Error
08 00|Presence detected
08 01|Power Supply Failure detected
08 02|Predictive Failure
08 03|Power Supply input lost (AC/DC)
08 04|Power Supply input lost or out-of-range
08 05|Power Supply input out-of-range, but present
08 06|Configuration error
08 07|Power Supply Inactive
09 00|Power Off / Power Down
09 01|Power Cycle
09 02|240VA Power Down
09 03|Interlock Power Down
09 04|AC lost / Power input lost
09 05|Soft Power Control Failure
09 06|Power Unit Failure detected
09 07|Predictive Failure
0c 00|Correctable ECC / other correctable memory error
0c 01|Uncorrectable ECC / other uncorrectable memory error
0c 02|Parity
0c 03|Memory Scrub Failed
0c 04|Memory Device Disabled
0c 05|Correctable ECC / other correctable memory error logging limit reached
0c 06|Presence detected
0c 07|Configuration error
0c 08|Spare
0c 09|Memory Automatically Throttled
0c 0a|Critical Overtemperature
0d 00|Drive Presence
0d 01|Drive Fault
0d 02|Predictive Failure
0d 03|Hot Spare
0d 04|Consistency Check / Parity Check in progress
0d 05|In Critical Array
0d 06|In Failed Array
0d 07|Rebuild/Remap in progress
0d 08|Rebuild/Remap Aborted
0f 00|System Firmware Error
0f 01|System Firmware Hang
0f 02|System Firmware Progress
10 00|Correctable Memory Error Logging Disabled
10 01|Event Type Logging Disabled
10 02|Log Area Reset/Cleared
10 03|All Event Logging Disabled
10 04|SEL Full
10 05|SEL Almost Full
10 06|Correctable Machine Check Error Logging Disabled
11 00|BIOS Watchdog Reset
11 01|OS Watchdog Reset
11 02|OS Watchdog Shut Down
11 03|OS Watchdog Power Down
11 04|OS Watchdog Power Cycle
11 05|OS Watchdog NMI / Diagnostic Interrupt
11 06|OS Watchdog Expired, status only
11 07|OS Watchdog pre-timeout Interrupt, non-NMI
12 00|System Reconfigured
12 01|OEM System Boot Event
12 02|Undetermined system hardware failure
12 03|Entry added to Auxiliary Log
12 04|PEF Action
12 05|Timestamp Clock Synch
13 00|Front Panel NMI / Diagnostic Interrupt
13 01|Bus Timeout
13 02|I/O channel check NMI
13 03|Software NMI
13 04|PCI PERR
13 05|PCI SERR
13 06|EISA Fail Safe Timeout
13 07|Bus Correctable Error
13 08|Bus Uncorrectable Error
13 09|Fatal NMI
13 0a|Bus Fatal Error
13 0b|Bus Degraded
14 00|Power Button pressed
14 01|Sleep Button pressed
14 02|Reset Button pressed
14 03|FRU latch open
14 04|FRU service request button
19 00|Soft Power Control Failure
19 01|Thermal Trip
1b 00|Cable/Interconnect is connected
1b 01|Configuration Error - Incorrect cable connected / Incorrect interconnection
1d 00|Initiated by power up
1d 01|Initiated by hard reset
1d 02|Initiated by warm reset
1d 03|User requested PXE boot
1d 04|Automatic boot to diagnostic
1d 05|OS / run-time software initiated hard reset
1d 06|OS / run-time software initiated warm reset
1d 07|System Restart
1e 00|No bootable media
1e 01|Non-bootable diskette left in drive
1e 02|PXE Server not found
1e 03|Invalid boot sector
1e 04|Timeout waiting for user selection of boot source
1f 00|A: boot completed
1f 01|C: boot completed
1f 02|PXE boot completed
1f 03|Diagnostic boot completed
1f 04|CD-ROM boot completed
1f 05|ROM boot completed
1f 06|boot completed - boot device not specified
1f 07|Base OS/Hypervisor Installation started
1f 08|Base OS/Hypervisor Installation completed
1f 09|Base OS/Hypervisor Installation aborted
1f 0a|Base OS/Hypervisor Installation failed
20 00|Critical stop during OS load / initialization
20 01|Run-time Critical Stop
20 02|OS Graceful Stop
20 03|OS Graceful Shutdown
20 04|Soft Shutdown initiated by PEF
20 05|Agent Not Responding
21 00|Fault Status asserted
21 01|Identify Status asserted
21 02|Slot / Connector Device installed/attached
21 03|Slot / Connector Ready for Device Installation
21 04|Slot / Connector Ready for Device Removal
21 05|Slot Power is Off
21 06|Slot / Connector Device Removal Request
21 07|Interlock asserted
21 08|Slot is Disabled
21 09|Slot holds spare device
22 00|S0 / G0 working
22 01|S1 sleeping with system h/w & processor context maintained
22 02|S2 sleeping, processor context lost
22 03|S3 sleeping, processor & h/w context lost, memory retained
22 04|S4 non-volatile sleep / suspend-to disk
22 05|S5 / G2 soft-off
22 06|S4 / S5 soft-off, particular S4 / S5 state cannot be determined
22 07|G3 / Mechanical Off
22 08|Sleeping in an S1, S2, or S3 state
22 09|G1 sleeping
22 0a|S5 entered by override
22 0b|Legacy ON state
22 0c|Legacy OFF state
22 0e|Unknown
23 00|Timer expired, status only
23 01|Hard Reset
23 02|Power Down
23 03|Power Cycle
23 08|Timer interrupt
24 00|platform generated page
24 01|platform generated LAN alert
24 02|Platform Event Trap generated
24 03|platform generated SNMP trap, OEM format
25 00|Entity Present
25 01|Entity Absent
25 02|Entity Disabled
27 00|LAN Heartbeat Lost
27 01|LAN Heartbeat
28 00|sensor access degraded or unavailable
28 01|controller access degraded or unavailable
28 02|management controller off-line
28 03|management controller unavailable
28 04|Sensor failure
28 05|FRU failure
29 00|battery low (predictive failure)
29 01|battery failed
29 02|battery presence detected
2a 00|Session Activated
2a 01|Session Deactivated
2a 02|Invalid Username or Password
2a 03|Invalid password disable
2b 00|Hardware change detected
2b 01|Firmware or software change detected
2b 02|Hardware incompatibility detected
2b 03|Firmware or software incompatibility detected
2b 04|Entity is of an invalid or unsupported hardware version
2b 05|Entity contains an invalid or unsupported firmware or software version
2b 06|Hardware Change detected was successful
2b 07|Software or F/W Change detected was successful
2c 00|FRU Not Installed
2c 01|FRU Inactive
2c 02|FRU Activation Requested
2c 03|FRU Activation In Progress
2c 04|FRU Active
2c 05|FRU Deactivation Requested
2c 06|FRU Deactivation In Progress
2c 07|FRU Communication Lost";

/// `event/reading type|number of offsets with words`.
const GENERIC_COUNTS: &str = "01|12
02|3
03|2
04|2
05|2
06|2
07|9
08|2
09|2
0a|9
0b|8
0c|4";

/// `sensor type|number of sensor-specific offsets with words`.
const SPECIFIC_COUNTS: &str = "05|7
06|6
07|13
08|8
09|8
0c|11
0d|9
0f|3
10|7
11|8
12|6
13|12
14|5
19|2
1b|2
1d|8
1e|5
1f|11
20|6
21|10
22|14
23|5
24|4
25|3
27|2
28|6
29|3
2a|4
2b|8
2c|8";

/// `event/reading type and sensor type, offset|printed text`.
const WITHOUT_WORDS: &str = "0001 00|offset 0 of type 0x00
0101 0c|offset 12 of type 0x01
0c01 04|offset 4 of type 0x0c
0d01 00|offset 0 of type 0x0d
6f00 00|offset 0 of type 0x6f
6f01 00|offset 0 of type 0x6f
6f22 0d|offset 13 of type 0x6f
6f23 04|offset 4 of type 0x6f
6f2d 00|offset 0 of type 0x6f
6fff ff|offset 255 of type 0x6f
7023 00|offset 0 of type 0x70
ff23 08|offset 8 of type 0xff";

/// Asserts the words of an event, and that they are printed.
fn assert_words(rt: &impl Abort, alloc: Global, event: EventInWords, wanted: &str, case: &str) {
    let words = event_words(event.event_type, event.sensor_type, event.offset);
    assert!(rt; words == Some(wanted), "{case}: got {words:?}");
    assert_text(rt, format!(in alloc; "{event}"), wanted, case);
}

/// Asserts the words of an event of a generic type.
fn assert_generic_words(rt: &impl Abort, alloc: Global, case: &str) {
    let (code, wanted) = parts(rt, case);
    let (event_type, offset) = code.split_once(' ').expect(rt, case);
    let event = EventInWords {
        event_type: byte_of(rt, event_type),
        sensor_type: 0x01,
        offset: byte_of(rt, offset),
    };
    assert_words(rt, alloc, event, wanted, case);
}

#[test]
fn generic_events_have_the_words_of_the_second_list(rt: HostRuntime) {
    for case in GENERIC.lines() {
        assert_generic_words(&rt, rt.alloc(), case);
    }
}

/// Asserts the words of a sensor-specific event.
fn assert_specific_words(rt: &impl Abort, alloc: Global, case: &str) {
    let (code, wanted) = parts(rt, case);
    let (sensor_type, offset) = code.split_once(' ').expect(rt, case);
    let event = EventInWords {
        event_type: SENSOR_SPECIFIC,
        sensor_type: byte_of(rt, sensor_type),
        offset: byte_of(rt, offset),
    };
    assert_words(rt, alloc, event, wanted, case);
}

#[test]
fn sensor_specific_events_have_the_words_of_the_second_list(rt: HostRuntime) {
    for case in SPECIFIC.lines() {
        assert_specific_words(&rt, rt.alloc(), case);
    }
}

/// Asserts the number of offsets with words of a type.
fn assert_count(rt: &impl Abort, event_type: u8, sensor_type: u8, wanted: usize) {
    let count = (0..=u8::MAX)
        .filter(|offset| event_words(event_type, sensor_type, *offset).is_some())
        .count();
    assert!(rt; count == wanted, "{event_type} {sensor_type}: got {count}");
}

/// The same for a generic type of the table.
fn assert_generic_count(rt: &impl Abort, case: &str) {
    let (event_type, count) = parts(rt, case);
    let count = count.parse::<usize>().expect(rt, case);
    assert_count(rt, byte_of(rt, event_type), 0x01, count);
}

/// The same for a sensor type of the table.
fn assert_specific_count(rt: &impl Abort, case: &str) {
    let (sensor_type, count) = parts(rt, case);
    let count = count.parse::<usize>().expect(rt, case);
    assert_count(rt, SENSOR_SPECIFIC, byte_of(rt, sensor_type), count);
}

#[test]
fn each_type_has_its_count_of_words(rt: HostRuntime) {
    for case in GENERIC_COUNTS.lines() {
        assert_generic_count(&rt, case);
    }
    for case in SPECIFIC_COUNTS.lines() {
        assert_specific_count(&rt, case);
    }
}

/// Asserts that a type has as many words as the list has lines for it.
fn assert_count_of_list(
    rt: &impl Abort,
    alloc: Global,
    list: &str,
    code: u8,
    event_type: u8,
    sensor_type: u8,
) {
    let start = format!(in alloc; "{code:02x} ").expect(rt, "memory");
    let wanted = list
        .lines()
        .filter(|line| line.starts_with(start.as_str()))
        .count();
    assert_count(rt, event_type, sensor_type, wanted);
}

#[test]
fn no_more_generic_events_have_words(rt: HostRuntime) {
    for code in 0..SENSOR_SPECIFIC {
        assert_count_of_list(&rt, rt.alloc(), GENERIC, code, code, 0x01);
    }
    for code in SENSOR_SPECIFIC + 1..=u8::MAX {
        assert_count_of_list(&rt, rt.alloc(), GENERIC, code, code, 0x01);
    }
}

#[test]
fn no_more_sensor_specific_events_have_words(rt: HostRuntime) {
    for code in 0..=u8::MAX {
        assert_count_of_list(&rt, rt.alloc(), SPECIFIC, code, SENSOR_SPECIFIC, code);
    }
}

/// Asserts that an event has no words, and the text printed instead.
fn assert_no_words(rt: &impl Abort, alloc: Global, case: &str) {
    let (code, wanted) = parts(rt, case);
    let (types, offset) = code.split_once(' ').expect(rt, case);
    let (event_type, sensor_type) = types.split_at_checked(2).expect(rt, case);
    let event = EventInWords {
        event_type: byte_of(rt, event_type),
        sensor_type: byte_of(rt, sensor_type),
        offset: byte_of(rt, offset),
    };
    let words = event_words(event.event_type, event.sensor_type, event.offset);
    assert!(rt; words.is_none(), "{case}: got {words:?}");
    assert_text(rt, format!(in alloc; "{event}"), wanted, case);
}

#[test]
fn an_event_without_words_has_its_offset_and_type(rt: HostRuntime) {
    for case in WITHOUT_WORDS.lines() {
        assert_no_words(&rt, rt.alloc(), case);
    }
}
