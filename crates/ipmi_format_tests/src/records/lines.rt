//! Lines and extended lines of records of every kind, and the lines of faults.
use super::examples::{answer_of, record_of};
use crate::cases::{assert_text, assert_text_with_end, line_of, parts};
use ipmi_fixtures::CPU_TEMP;
use ipmi_records::{
    KnownReading, SdrFault, SdrView, sdr_eline, sdr_eline_with, sdr_fault_line, sdr_line,
    sdr_line_with,
};
use ipmi_text::Reading;
use std::alloc::Global;
use std::process::Abort;

/// `record|reading`, then the line, then the extended line. An empty line ends a case. A record is given by its digits, or
/// as `CPU_TEMP`.
const LINES: &str = "CPU_TEMP|2dc00000
CPU Temp         | 45 degrees C      | ok
CPU Temp         | 01h | ok  | 3.1   | 45 degrees C

CPU_TEMP|none
CPU Temp         | no reading        | ns
CPU Temp         | 01h | ns  | 3.1   | no reading

020051110f200180000000000a0100c450535531|none
PSU1             | FRU 1             | na
PSU1             | --h | na  | 10.1  | FRU 1

020051110f200180000000000a0100c450535531|2dc00000
PSU1             | FRU 1             | na
PSU1             | --h | na  | 10.1  | FRU 1

030051021b20000507010000056f000000000000000000000000000000000000|00400182
                 | states 0x0201     | ok
                 | 05h | ok  | 7.1   | states 0x0201

030051021b20000507010000056f000000000000000000000000000000000000|none
                 | no reading        | ns
                 | 05h | ns  | 7.1   | no reading

030051021b24000507010000056f000000000000000000000000000000000000|00400182
                 | other owner       | na
                 | 05h | na  | 7.1   | other owner

030051021b200005070100000501000000000000000000000000000000000000|00400182
                 | states 0x0201     | nc
                 | 05h | nc  | 7.1   | states 0x0201

030051021b200005070100000501000000000000000000000000000000000000|00600182
                 | no reading        | ns
                 | 05h | ns  | 7.1   | no reading

030051021b2000af07010000056f000000000000000000000000000000000000|0040ffff
                 | states 0x7fff     | ok
                 | AFh | ok  | 7.1   | states 0x7fff

05005103102000302281126f00000000c445565431|2dc00000
EVT1             | event only        | na
EVT1             | 30h | na  | 34.1  | event only

020051110f200100000000000a0100c450535531|none
PSU1             | elsewhere         | na
PSU1             | --h | na  | 10.1  | elsewhere

020051110f200188000000000a0100c450535531|none
PSU1             | elsewhere         | na
PSU1             | --h | na  | 10.1  | elsewhere

020051110f200190000000000a0100c450535531|none
PSU1             | elsewhere         | na
PSU1             | --h | na  | 10.1  | elsewhere

020051110f2001e7000000000a0100c450535531|none
PSU1             | FRU 1             | na
PSU1             | --h | na  | 10.1  | FRU 1

020051110f210180000000000a0100c450535531|none
PSU1             | elsewhere         | na
PSU1             | --h | na  | 10.1  | elsewhere

020051110f20ff80000000000a0100c450535531|none
PSU1             | FRU 255           | na
PSU1             | --h | na  | 10.1  | FRU 255

020051100f200180000000000a0100c450535531|none
PSU1             | generic device    | na
PSU1             | --h | na  | 10.1  | generic device

020051120f2c0180000000000a0100c450535531|none
PSU1             | controller 2Ch    | na
PSU1             | --h | na  | 10.1  | controller 2Ch

020051110f20018000000000ffff00c450535531|none
PSU1             | FRU 1             | na
PSU1             | --h | na  | 255.127 | FRU 1

010051c001aa|none
                 | record type 0xc0  | na
                 | --h | na  | -     | record type 0xc0

0400510900|2dc00000
                 | record type 0x09  | na
                 | --h | na  | -     | record type 0x09

020051110d200180000000000a010002abcd|none
abcd             | FRU 1             | na
abcd             | --h | na  | 10.1  | FRU 1

020051110d200180000000000a010043123b|none
123              | FRU 1             | na
123              | --h | na  | 10.1  | FRU 1

020051110e200180000000000a01008429dca6|none
IPMI             | FRU 1             | na
IPMI             | --h | na  | 10.1  | FRU 1

020051110f200180000000000a0100c441e90042|none
Aé               | FRU 1             | na
Aé               | --h | na  | 10.1  | FRU 1

020051110b200180000000000a0100c0|none
                 | FRU 1             | na
                 | --h | na  | 10.1  | FRU 1

020051111b200180000000000a0100d04142434445464748494a4b4c4d4e4f50|none
ABCDEFGHIJKLMNOP | FRU 1             | na
ABCDEFGHIJKLMNOP | --h | na  | 10.1  | FRU 1

020051111b200180000000000a010095a13892a579a2a9bab2adfbc2b13cd3b5|none
ABCDEFGHIJKLMNOPQRSTU | FRU 1             | na
ABCDEFGHIJKLMNOPQRSTU | --h | na  | 10.1  | FRU 1

020051111b200180000000000a0100d0e9e9e9e9e9e9e9e9e9e9e9e9e9e9e9e9|none
éééééééééééééééé | FRU 1             | na
éééééééééééééééé | --h | na  | 10.1  | FRU 1

020051111a200180000000000a0100cfe9e9e9e9e9e9e9e9e9e9e9e9e9e9e9|none
ééééééééééééééé  | FRU 1             | na
ééééééééééééééé  | --h | na  | 10.1  | FRU 1

020051110e200180000000000a0100c3417f42|none
A.B              | FRU 1             | na
A.B              | --h | na  | 10.1  | FRU 1";

/// A record, a reading, and both lines.
#[derive(Drop)]
struct Case<'a> {
    record: Vec<u8>,
    answer: Option<Reading>,
    line: &'a str,
    extended_line: &'a str,
}

/// The case of three lines.
fn case_of<'a>(rt: &impl Abort, alloc: Global, lines: &'a str) -> Case<'a> {
    let (record, answer) = parts(rt, line_of(rt, lines, 0));
    Case {
        record: record_of(rt, alloc, record),
        answer: answer_of(rt, answer),
        line: line_of(rt, lines, 1),
        extended_line: line_of(rt, lines, 2),
    }
}

fn assert_line(rt: &impl Abort, alloc: Global, lines: &str) {
    let case = case_of(rt, alloc, lines);
    let view = SdrView::read(&case.record).expect(rt, lines);
    let line = sdr_line(alloc, &view, case.answer);
    assert_text_with_end(rt, line, case.line, "\n", lines);
}

fn assert_extended_line(rt: &impl Abort, alloc: Global, lines: &str) {
    let case = case_of(rt, alloc, lines);
    let view = SdrView::read(&case.record).expect(rt, lines);
    let line = sdr_eline(alloc, &view, case.answer);
    assert_text_with_end(rt, line, case.extended_line, "\n", lines);
}

fn assert_fault_line(rt: &impl Abort, alloc: Global, id: u16, fault: SdrFault, wanted: &str) {
    assert_text_with_end(rt, sdr_fault_line(alloc, id, fault), wanted, "\n", wanted);
}

#[test]
fn each_record_has_its_line(rt: HostRuntime) {
    for lines in LINES.split("\n\n") {
        assert_line(&rt, rt.alloc(), lines);
    }
}

#[test]
fn each_record_has_its_extended_line(rt: HostRuntime) {
    for lines in LINES.split("\n\n") {
        assert_extended_line(&rt, rt.alloc(), lines);
    }
}

#[test]
fn a_reading_that_was_not_captured_has_its_lines(rt: HostRuntime) {
    let view = SdrView::read(&CPU_TEMP).expect(&rt, "a record");
    let lacking = KnownReading::NotCaptured;
    let line = sdr_line_with(rt.alloc(), &view, lacking);
    let wanted = "CPU Temp         | not captured      | ns\n";
    assert_text(&rt, line, wanted, "line");
    let line = sdr_eline_with(rt.alloc(), &view, lacking);
    let wanted = "CPU Temp         | 01h | ns  | 3.1   | not captured\n";
    assert_text(&rt, line, wanted, "extended line");
}

#[test]
fn each_fault_has_its_line(rt: HostRuntime) {
    let alloc = rt.alloc();
    assert_fault_line(&rt, alloc, 0x0001, SdrFault::Short, "record 0001h: short");
    assert_fault_line(
        &rt,
        alloc,
        0xabcd,
        SdrFault::Length,
        "record ABCDh: wrong length",
    );
    assert_fault_line(
        &rt,
        alloc,
        0xff0e,
        SdrFault::BodyShort,
        "record FF0Eh: body too short",
    );
}
