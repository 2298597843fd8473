//! Commands in words over a saved image: their output and the number of their calls.
use super::outcome::{Outcome, assert_outcome, execute_in};
use super::over_images::scripted;
use super::saved::image_in;
use crate::cases::{Case, case_of};
use crate::command_line::lines::command_of_case;
use crate::controllers::Counting;
use ipmi_bus::Controller;
use ipmi_command_line::Command;
use ipmi_commands::{Summary, report};
use ipmi_output::Written;
use ipmi_program::Wording;
use std::alloc::Global;
use std::process::Abort;

/// Each image comes after a line with its name and before a line of dashes. The sensor is `CPU_TEMP`. In `cycle` its next id
/// is its own id, and `nowhere` has a next id that no record has. The first event of a log is of this sensor. Of the sensors
/// with statuses, H has no reading, and I has another owner. Of the shared ones, four memory sensors, starting with number
/// 10h, have one record, `DIMM `, and three fans, starting with 30h, an event-only record, `Fan`. The memory sensor 50h has
/// no name, and 14h has no record.
const IMAGES: &str = "sensor
ipmi-image 1
sdr 0001 ffff CPU_TEMP
reading 0 01 2dc00000
end
--
log
ipmi-image 1
sdr 0001 ffff CPU_TEMP
sel 0001 0002 01000201000020200004010101595f5a
sel 0002 0003 020002010000202000040d406f01ffff
sel 0003 ffff 0300c0ffffffff571300010203040506
end
--
cycle
ipmi-image 1
sdr 0001 0001 CPU_TEMP
sel 0001 0002 01000201000020200004010101595f5a
sel 0002 0003 020002010000202000040d406f01ffff
sel 0003 ffff 0300c0ffffffff571300010203040506
end
--
nowhere
ipmi-image 1
sdr 0001 0009 CPU_TEMP
sel 0001 0002 01000201000020200004010101595f5a
sel 0002 0003 020002010000202000040d406f01ffff
sel 0003 ffff 0300c0ffffffff571300010203040506
end
--
no sensor
ipmi-image 1
sel 0001 0002 01000201000020200004010101595f5a
sel 0002 ffff 02000200000020200004013081570000
end
--
statuses
ipmi-image 1
sdr 0001 0002 \
    010051012c20000103017f680101000000003838000100000100000000000000000000005f5a550000000202000000c141
sdr 0002 0003 \
    020051012c20000203017f680101000000003838000100000100000000000000000000005f5a550000000202000000c142
sdr 0003 0004 \
    030051012c20000303017f680101000000003838000100000100000000000000000000005f5a550000000202000000c143
sdr 0004 0005 \
    040051012c20000403017f680101000000003838000100000100000000000000000000005f5a550000000202000000c144
sdr 0005 0006 \
    050051012c20000503017f680101000000003838000100000100000000000000000000005f5a550000000202000000c145
sdr 0006 0007 \
    060051012c20000603017f680101000000003838000100000100000000000000000000005f5a550000000202000000c146
sdr 0007 0008 \
    070051012c20000703017f680101000000003838000100000100000000000000000000005f5a550000000202000000c147
sdr 0008 0009 \
    080051012c20000803017f680101000000003838000100000100000000000000000000005f5a550000000202000000c148
sdr 0009 ffff \
    090051012c22000903017f680101000000003838000100000100000000000000000000005f5a550000000202000000c149
reading 0 01 2dc00400
reading 0 02 2dc00200
reading 0 03 2dc00100
reading 0 04 2dc00000
reading 0 05 2dc00800
reading 0 06 2dc01000
reading 0 07 2dc02000
reading 0 09 2dc00000
end
--
shared
ipmi-image 1
sdr 0002 0003 0200510220200010200100000c6f0000000000000000000401000000000000c544494d4d20
sdr 0003 0009 030051030f2000301d01040313190000c346616e
sdr 0009 ffff 090051021b200050200100000c6f0000000000000000000000000000000000c0
sel 0001 0002 010002010000202000040c116f06ffff
sel 0002 0003 0200020100002020000404310301ffff
sel 0003 0004 030002010000202000040c506f06ffff
sel 0004 ffff 040002010000202000040c146f06ffff
end
--
";

/// The outcome of a command in this wording over the controller.
pub(super) fn outcome_in<C: Controller + Drop>(
    alloc: Global,
    mut ctl: Counting<C>,
    command: Command,
    wording: Wording<'_>,
) -> Outcome {
    let mut out = Written::new(Vec::new(alloc));
    let mut err = Vec::new(alloc);
    let mut summary = Summary::new();
    let ending = execute_in(alloc, &mut ctl, &command, wording, &mut out, &mut summary);
    let status = report(ending, &mut err);
    let calls = ctl.calls;
    drop(ctl);
    drop(command);
    Outcome {
        out: out.into_inner(),
        err,
        status,
        calls,
    }
}

/// Asserts the outcome of a case in words over this image.
pub(super) fn assert_output_in_words_over(
    rt: &impl Abort,
    alloc: Global,
    image: &str,
    case: Case<'_>,
) {
    let ctl = scripted(rt, alloc, image, case.more);
    let command = command_of_case(rt, alloc, case.words);
    let outcome = outcome_in(alloc, ctl, command, Wording::Descriptive);
    assert_outcome(rt, alloc, outcome, case.wanted, case.line);
}

/// The same over the image that the case names.
fn assert_output_in_words(rt: &impl Abort, alloc: Global, case: &str) {
    let case = case_of(rt, case);
    assert_output_in_words_over(rt, alloc, image_in(rt, IMAGES, case.image), case);
}

/// The same for each case.
fn assert_outputs_in_words(rt: &impl Abort, alloc: Global, cases: &str) {
    for case in cases.split("====\n") {
        assert_output_in_words(rt, alloc, case);
    }
}

/// `words|image|moods`, then the outcome.
const EVENTS: &str = "sel list|log|
0 8
--
0001 | 1987-01-05 18:48:33 | CPU Temp | Upper Critical going high | Asserted | critical | Reading 95 degrees C > threshold 90
0002 | 1987-01-05 18:48:33 | Drive Slot #0x40 | Drive Fault | Asserted | critical
0003 | unspecified | OEM record 0xc0 | 001357 | 010203040506
====
sel list first 2|log|
0 7
--
0001 | 1987-01-05 18:48:33 | CPU Temp | Upper Critical going high | Asserted | critical | Reading 95 degrees C > threshold 90
0002 | 1987-01-05 18:48:33 | Drive Slot #0x40 | Drive Fault | Asserted | critical
====
sel list last 1|log|
0 8
--
0003 | unspecified | OEM record 0xc0 | 001357 | 010203040506
====
--from 0002 sel list|log|
0 7
--
0002 | 1987-01-05 18:48:33 | Drive Slot #0x40 | Drive Fault | Asserted | critical
0003 | unspecified | OEM record 0xc0 | 001357 | 010203040506
====
sel list|no sensor|
0 5
--
0001 | 1987-01-05 18:48:33 | Temperature #0x01 | Upper Critical going high | Asserted | critical | Reading raw 0x5f > threshold raw 0x5a
0002 | +536870912 s | Temperature #0x30 | Upper Non-critical going high | Deasserted | nominal | Reading raw 0x00, threshold raw 0x00
";

// A reservation, a header and two parts of the sensor come first, or a reservation and the answer that there is none.
#[test]
fn events_have_the_names_of_their_sensors(rt: HostRuntime) {
    assert_outputs_in_words(&rt, rt.alloc(), EVENTS);
}

/// `words|image|moods`, then the outcome.
const ENDED: &str = "sel list|cycle|
1 8
names of sensors may be missing: sensor data records have a cycle at 0001h
--
0001 | 1987-01-05 18:48:33 | CPU Temp | Upper Critical going high | Asserted | critical | Reading 95 degrees C > threshold 90
0002 | 1987-01-05 18:48:33 | Drive Slot #0x40 | Drive Fault | Asserted | critical
0003 | unspecified | OEM record 0xc0 | 001357 | 010203040506
====
sel list last 2|cycle|
1 8
names of sensors may be missing: sensor data records have a cycle at 0001h
--
0002 | 1987-01-05 18:48:33 | Drive Slot #0x40 | Drive Fault | Asserted | critical
0003 | unspecified | OEM record 0xc0 | 001357 | 010203040506
====
sel list|nowhere|
1 9
names of sensors may be missing: sensor data record 0009h not present
--
0001 | 1987-01-05 18:48:33 | CPU Temp | Upper Critical going high | Asserted | critical | Reading 95 degrees C > threshold 90
0002 | 1987-01-05 18:48:33 | Drive Slot #0x40 | Drive Fault | Asserted | critical
0003 | unspecified | OEM record 0xc0 | 001357 | 010203040506
====
sel list 1|nowhere|
1 7
names of sensors may be missing: sensor data record 0009h not present
--
0001 | 1987-01-05 18:48:33 | CPU Temp | Upper Critical going high | Asserted | critical | Reading 95 degrees C > threshold 90
";

// Sensors found before the walk ended keep their names.
#[test]
fn a_walk_of_the_sensors_that_is_not_whole_is_told_at_the_end(rt: HostRuntime) {
    assert_outputs_in_words(&rt, rt.alloc(), ENDED);
}

/// `words|image|moods`, then the outcome.
const TROUBLES: &str = "--tries 1 sel list|log|.B
0 9
--
0001 | 1987-01-05 18:48:33 | CPU Temp | Upper Critical going high | Asserted | critical | Reading 95 degrees C > threshold 90
0002 | 1987-01-05 18:48:33 | Drive Slot #0x40 | Drive Fault | Asserted | critical
0003 | unspecified | OEM record 0xc0 | 001357 | 010203040506
====
--tries 1 sel list|log|..C
0 11
--
0001 | 1987-01-05 18:48:33 | CPU Temp | Upper Critical going high | Asserted | critical | Reading 95 degrees C > threshold 90
0002 | 1987-01-05 18:48:33 | Drive Slot #0x40 | Drive Fault | Asserted | critical
0003 | unspecified | OEM record 0xc0 | 001357 | 010203040506
====
--tries 1 sel list|log|....B
0 9
--
0001 | 1987-01-05 18:48:33 | CPU Temp | Upper Critical going high | Asserted | critical | Reading 95 degrees C > threshold 90
0002 | 1987-01-05 18:48:33 | Drive Slot #0x40 | Drive Fault | Asserted | critical
0003 | unspecified | OEM record 0xc0 | 001357 | 010203040506
====
--tries 0 sel list|log|.B
1 2
gave up at 0000h
--
====
sel list|log|.R
1 2
record 0000h refused with code D4h
--
====
sel list|log|.....R
1 6
record 0000h refused with code D4h
--
====
sel list|log|......R
1 7
record 0002h refused with code D4h
--
0001 | 1987-01-05 18:48:33 | CPU Temp | Upper Critical going high | Asserted | critical | Reading 95 degrees C > threshold 90
";

// After a lost reservation there is a new one, and the record is read again from its beginning.
#[test]
fn troubles_on_either_walk_are_overcome_or_told(rt: HostRuntime) {
    assert_outputs_in_words(&rt, rt.alloc(), TROUBLES);
}

/// `words|image|moods`, then the outcome.
const SENSORS: &str = "sdr list|sensor|
0 5
--
CPU Temp         | 01h | processor 1 | 45 degrees C      | ok  | nominal  | - | - | - | 85 | 90 | 95
====
sdr list|log|
0 5
--
CPU Temp         | 01h | processor 1 | no reading        | ns  | -        | - | - | - | 85 | 90 | 95
====
sdr,get,CPU Temp|sensor|
0 5
--
Record: 0001h
Name: CPU Temp
Sensor: 01h
Owner: 20h LUN 0
Entity: processor 1
Kind: Temperature
Reading: 45 degrees C
Status: ok
Upper non-recoverable: 95 degrees C
Upper critical: 90 degrees C
Upper non-critical: 85 degrees C

====
sdr,get,Foo|sensor|
1 4
no record named Foo
--
====
sdr elist|sensor|
0 5
--
CPU Temp         | 01h | ok  | 3.1   | 45 degrees C
";

// A record without a text in words is printed as in codes.
#[test]
fn sensors_have_a_line_and_a_block(rt: HostRuntime) {
    assert_outputs_in_words(&rt, rt.alloc(), SENSORS);
}

/// `words|image|moods`, then the outcome.
const STATUSES: &str = "sdr list|statuses|
0 36
--
A                | 01h | processor 1 | 45 degrees C      | lnr | critical | - | - | - | 85 | 90 | 95
B                | 02h | processor 1 | 45 degrees C      | lcr | critical | - | - | - | 85 | 90 | 95
C                | 03h | processor 1 | 45 degrees C      | lnc | warning  | - | - | - | 85 | 90 | 95
D                | 04h | processor 1 | 45 degrees C      | ok  | nominal  | - | - | - | 85 | 90 | 95
E                | 05h | processor 1 | 45 degrees C      | unc | warning  | - | - | - | 85 | 90 | 95
F                | 06h | processor 1 | 45 degrees C      | ucr | critical | - | - | - | 85 | 90 | 95
G                | 07h | processor 1 | 45 degrees C      | unr | critical | - | - | - | 85 | 90 | 95
H                | 08h | processor 1 | no reading        | ns  | -        | - | - | - | 85 | 90 | 95
I                | 09h | processor 1 | other owner       | na  | -        | - | - | - | 85 | 90 | 95
";

// A reservation, three calls for each record, and one for each reading except that of the other owner.
#[test]
fn sensors_have_each_status(rt: HostRuntime) {
    assert_outputs_in_words(&rt, rt.alloc(), STATUSES);
}

/// `words|image|moods`, then the outcome.
const SHARED_EVENTS: &str = "sel list|shared|
0 12
--
0001 | 1987-01-05 18:48:33 | DIMM 2 | Presence detected | Asserted | nominal
0002 | 1987-01-05 18:48:33 | Fan AA | State Asserted | Asserted | warning
0003 | 1987-01-05 18:48:33 | Memory #0x50 | Presence detected | Asserted | nominal
0004 | 1987-01-05 18:48:33 | Memory #0x14 | Presence detected | Asserted | nominal
";

// Two calls for each record, after a reservation. The numbers of the memory sensors begin at 1, and the letters of the fans at Z.
#[test]
fn events_have_the_suffixes_of_sensors_that_share_a_record(rt: HostRuntime) {
    assert_outputs_in_words(&rt, rt.alloc(), SHARED_EVENTS);
}

/// `words|image|moods`, then the outcome.
const SHARED_SENSORS: &str = "sdr list|shared|
0 9
--
DIMM             | 10h | memory device 1 | no reading        | ns  | -        | - | - | - | - | - | -
                 | 50h | memory device 1 | no reading        | ns  | -        | - | - | - | - | - | -
====
sdr list all|shared|
0 9
--
DIMM             | 10h | memory device 1 | no reading        | ns  | -        | - | - | - | - | - | -
Fan              | event only        | na
                 | 50h | memory device 1 | no reading        | ns  | -        | - | - | - | - | - | -
====
sdr,get,DIMM |shared|
0 8
--
Record: 0002h
Name: DIMM \n\
Sensor: 10h
Shared by: 4 sensors
Owner: 20h LUN 0
Entity: memory device 1
Kind: Memory
Reading: no reading
Status: ns

====
sdr,get,DIMM 1|shared|
1 7
no record named DIMM 1
--
";

// A record is found by its name, even if several sensors share it.
#[test]
fn a_shared_record_has_its_own_name(rt: HostRuntime) {
    assert_outputs_in_words(&rt, rt.alloc(), SHARED_SENSORS);
}
