//! Blocks of sensor data records.
use super::examples::{answer_of, record_of};
use crate::cases::{assert_text, assert_text_with_end, id_of, three_parts};
use ipmi_fixtures::{CPU_TEMP, CPU_TEMP_BLOCK, reading_of};
use ipmi_records::{KnownReading, SdrView, sdr_block, sdr_block_with};
use std::alloc::Global;
use std::process::Abort;

/// `id|reading|record`, then the block. An empty line ends a case. A record is given by its digits, or as `CPU_TEMP` with
/// changes.
const BLOCKS: &str = "0001|none|CPU_TEMP
Record: 0001h
Type: full
Name: CPU Temp
Owner: 20h LUN 0
Sensor: 01h
Entity: 3.1
Kind: Temperature
Event type: 01h
Reading: no reading
Status: ns
Upper non-recoverable: 95 degrees C
Upper critical: 90 degrees C
Upper non-critical: 85 degrees C

0002|none|020051110f200180000000000a0100c450535531
Record: 0002h
Type: FRU locator
Name: PSU1
Address: 20h
Entity: 10.1

abcd|none|020051110f200100000000000a0100c450535531
Record: ABCDh
Type: FRU locator
Name: PSU1
Address: 20h
Entity: 10.1

0003|00400182|030051021b20000507010000056f000000000000000000000000000000000000
Record: 0003h
Type: compact
Name:\x20
Owner: 20h LUN 0
Sensor: 05h
Entity: 7.1
Kind: Physical Security
Event type: 6Fh
Reading: states 0x0201
Status: ok

0003|none|030051021b20ff05070100000501000000003f00000000000000000000000000
Record: 0003h
Type: compact
Name:\x20
Owner: 20h LUN 3
Sensor: 05h
Entity: 7.1
Kind: Physical Security
Event type: 01h
Reading: no reading
Status: ns

0005|none|05005103102000302281126f00000000c445565431
Record: 0005h
Type: event-only
Name: EVT1
Owner: 20h LUN 0
Sensor: 30h
Entity: 34.1
Kind: System Event
Event type: 6Fh

0006|none|020051100f200180000000000a0100c450535531
Record: 0006h
Type: generic locator
Name: PSU1
Address: 20h
Entity: 10.1

0007|none|020051120f2c0180000000000a0100c450535531
Record: 0007h
Type: controller locator
Name: PSU1
Address: 2Ch
Entity: 10.1

0001|none|010051c001aa
Record: 0001h
Type: record type 0xc0

1234|2dc00000|CPU_TEMP 6=22,7=82,8=fa,10=85,13=c5
Record: 1234h
Type: full
Name: CPU Temp
Owner: 22h LUN 2
Sensor: FAh
Entity: 3.5
Kind: sensor type 0xc5
Event type: 01h
Reading: other owner
Status: na
Upper non-recoverable: 95 degrees C
Upper critical: 90 degrees C
Upper non-critical: 85 degrees C

0001|2dc00000|CPU_TEMP 19=20,40=02,41=05,42=0a
Record: 0001h
Type: full
Name: CPU Temp
Owner: 20h LUN 0
Sensor: 01h
Entity: 3.1
Kind: Temperature
Event type: 01h
Reading: 45 degrees C
Status: ok
Upper non-recoverable: 95 degrees C

0001|2dc00000|CPU_TEMP 19=10,40=02,41=05,42=0a
Record: 0001h
Type: full
Name: CPU Temp
Owner: 20h LUN 0
Sensor: 01h
Entity: 3.1
Kind: Temperature
Event type: 01h
Reading: 45 degrees C
Status: ok
Upper critical: 90 degrees C

0001|2dc00000|CPU_TEMP 19=08,40=02,41=05,42=0a
Record: 0001h
Type: full
Name: CPU Temp
Owner: 20h LUN 0
Sensor: 01h
Entity: 3.1
Kind: Temperature
Event type: 01h
Reading: 45 degrees C
Status: ok
Upper non-critical: 85 degrees C

0001|2dc00000|CPU_TEMP 19=04,40=02,41=05,42=0a
Record: 0001h
Type: full
Name: CPU Temp
Owner: 20h LUN 0
Sensor: 01h
Entity: 3.1
Kind: Temperature
Event type: 01h
Reading: 45 degrees C
Status: ok
Lower non-recoverable: 2 degrees C

0001|2dc00000|CPU_TEMP 19=02,40=02,41=05,42=0a
Record: 0001h
Type: full
Name: CPU Temp
Owner: 20h LUN 0
Sensor: 01h
Entity: 3.1
Kind: Temperature
Event type: 01h
Reading: 45 degrees C
Status: ok
Lower critical: 5 degrees C

0001|2dc00000|CPU_TEMP 19=01,40=02,41=05,42=0a
Record: 0001h
Type: full
Name: CPU Temp
Owner: 20h LUN 0
Sensor: 01h
Entity: 3.1
Kind: Temperature
Event type: 01h
Reading: 45 degrees C
Status: ok
Lower non-critical: 10 degrees C

0001|2dc00000|CPU_TEMP 19=3f,40=02,41=05,42=0a
Record: 0001h
Type: full
Name: CPU Temp
Owner: 20h LUN 0
Sensor: 01h
Entity: 3.1
Kind: Temperature
Event type: 01h
Reading: 45 degrees C
Status: ok
Upper non-recoverable: 95 degrees C
Upper critical: 90 degrees C
Upper non-critical: 85 degrees C
Lower non-recoverable: 2 degrees C
Lower critical: 5 degrees C
Lower non-critical: 10 degrees C

0001|2dc00000|CPU_TEMP 19=c0,40=02,41=05,42=0a
Record: 0001h
Type: full
Name: CPU Temp
Owner: 20h LUN 0
Sensor: 01h
Entity: 3.1
Kind: Temperature
Event type: 01h
Reading: 45 degrees C
Status: ok

0001|2dc03f00|CPU_TEMP 14=02,19=3f,40=02,41=05,42=0a
Record: 0001h
Type: full
Name: CPU Temp
Owner: 20h LUN 0
Sensor: 01h
Entity: 3.1
Kind: Temperature
Event type: 02h
Reading: 45 degrees C
Status: ok

0001|2dc00000|CPU_TEMP 19=11,24=01,40=02,41=05,42=0a
Record: 0001h
Type: full
Name: CPU Temp
Owner: 20h LUN 0
Sensor: 01h
Entity: 3.1
Kind: Temperature
Event type: 01h
Reading: raw 0x2d
Status: ok
Upper critical: raw 0x5a
Lower non-critical: raw 0x0a

0001|2dc00201|CPU_TEMP 19=22,21=c0,40=02,41=05,42=0a
Record: 0001h
Type: full
Name: CPU Temp
Owner: 20h LUN 0
Sensor: 01h
Entity: 3.1
Kind: Temperature
Event type: 01h
Reading: states 0x0102
Status: cr
Upper non-recoverable: raw 0x5f
Lower critical: raw 0x05";

fn assert_block(rt: &impl Abort, alloc: Global, case: &str) {
    let (head, wanted) = case.split_once('\n').expect(rt, case);
    let (id, answer, record) = three_parts(rt, head);
    let bytes = record_of(rt, alloc, record);
    let view = SdrView::read(&bytes).expect(rt, case);
    let block = sdr_block(alloc, id_of(rt, id), &view, answer_of(rt, answer));
    assert_text_with_end(rt, block, wanted, "\n\n", case);
}

#[test]
fn each_record_has_its_block(rt: HostRuntime) {
    for case in BLOCKS.split("\n\n") {
        assert_block(&rt, rt.alloc(), case);
    }
}

/// The block of a compact sensor whose reading was not captured.
const LACKING_BLOCK: &str = "Record: 0003h
Type: compact
Name: \n\
Owner: 20h LUN 0
Sensor: 05h
Entity: 7.1
Kind: Physical Security
Event type: 6Fh
Reading: not captured
Status: ns

";

#[test]
fn a_reading_that_was_not_captured_has_its_block(rt: HostRuntime) {
    let digits = "030051021b20000507010000056f000000000000000000000000000000000000";
    let bytes = record_of(&rt, rt.alloc(), digits);
    let view = SdrView::read(&bytes).expect(&rt, digits);
    let block = sdr_block_with(rt.alloc(), 3, &view, KnownReading::NotCaptured);
    assert_text(&rt, block, LACKING_BLOCK, digits);
}

#[test]
fn a_record_with_a_reading_has_its_block(rt: HostRuntime) {
    let view = SdrView::read(&CPU_TEMP).expect(&rt, "a record");
    let answer = Some(reading_of([0x2d, 0xc0, 0, 0]));
    let block = sdr_block(rt.alloc(), 1, &view, answer);
    assert_text(&rt, block, CPU_TEMP_BLOCK, "CPU Temp");
}
