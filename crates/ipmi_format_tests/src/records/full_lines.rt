//! Lines of full records: each case of the reading column, each bit of the status, and the factors.
use super::examples::{answer_of, changed};
use crate::cases::{assert_text_with_end, three_parts};
use ipmi_records::{SdrView, sdr_line};
use std::alloc::Global;
use std::process::Abort;

/// `changes of CPU_TEMP|reading|line`.
const LINES: &str = "|none|CPU Temp         | no reading        | ns
|2dc00000|CPU Temp         | 45 degrees C      | ok
6=21|2dc00000|CPU Temp         | other owner       | na
6=22|none|CPU Temp         | other owner       | na
6=22|2d003f00|CPU Temp         | other owner       | na
|2de03f00|CPU Temp         | no reading        | ns
|2d603f00|CPU Temp         | no reading        | ns
|2d803f00|CPU Temp         | no reading        | ns
|2d003f00|CPU Temp         | no reading        | ns
|2d203f00|CPU Temp         | no reading        | ns
|2dbf3f00|CPU Temp         | no reading        | ns
|2dff3f00|CPU Temp         | no reading        | ns
|2d400000|CPU Temp         | 45 degrees C      | ok
|2d5f0000|CPU Temp         | 45 degrees C      | ok
|2ddf0000|CPU Temp         | 45 degrees C      | ok
21=c0|2d400182|CPU Temp         | states 0x0201     | nc
21=c0,14=6f|2d4001ff|CPU Temp         | states 0x7f01     | ok
21=c0,24=01|2d403f80|CPU Temp         | states 0x003f     | nr
24=01|2dc00000|CPU Temp         | raw 0x2d          | ok
24=7f|fe400200|CPU Temp         | raw 0xfe          | cr
24=80|2dc00000|CPU Temp         | 45 degrees C      | ok
22=00|2dc00000|CPU Temp         | 45                | ok
21=01,22=00|2dc00000|CPU Temp         | 45 %              | ok
21=18,22=12|2dc00000|CPU Temp         | 45 RPM per s      | ok
21=02,22=04,23=18|2dc00000|CPU Temp         | 45 Volts/hour     | ok
21=04,22=06,23=18|2dc00000|CPU Temp         | 45 Watts*hour     | ok
|2dc02000|CPU Temp         | 45 degrees C      | nr
|2dc01000|CPU Temp         | 45 degrees C      | cr
|2dc00800|CPU Temp         | 45 degrees C      | nc
|2dc00400|CPU Temp         | 45 degrees C      | nr
|2dc00200|CPU Temp         | 45 degrees C      | cr
|2dc00100|CPU Temp         | 45 degrees C      | nc
|2dc04000|CPU Temp         | 45 degrees C      | ok
|2dc08000|CPU Temp         | 45 degrees C      | ok
|2dc0c000|CPU Temp         | 45 degrees C      | ok
|2dc03f00|CPU Temp         | 45 degrees C      | nr
|2dc01b00|CPU Temp         | 45 degrees C      | cr
|2dc00900|CPU Temp         | 45 degrees C      | nc
|2dc01800|CPU Temp         | 45 degrees C      | cr
|2dc03800|CPU Temp         | 45 degrees C      | nr
|2dc00300|CPU Temp         | 45 degrees C      | cr
|2dc00700|CPU Temp         | 45 degrees C      | nr
|2dc01100|CPU Temp         | 45 degrees C      | cr
|2dc02100|CPU Temp         | 45 degrees C      | nr
14=00|2dc03f00|CPU Temp         | 45 degrees C      | ok
14=02|2dc03f00|CPU Temp         | 45 degrees C      | ok
14=6f|2dc03f00|CPU Temp         | 45 degrees C      | ok
14=81|2dc03f00|CPU Temp         | 45 degrees C      | ok
22=04,25=06,30=e0|c9c00000|CPU Temp         | 12.06 Volts       | ok
22=04,25=06,30=e0|c8c00000|CPU Temp         | 12 Volts          | ok
|ffc00000|CPU Temp         | 255 degrees C     | ok
|80c00000|CPU Temp         | 128 degrees C     | ok
21=40|7fc00000|CPU Temp         | 127 degrees C     | ok
21=40|80c00000|CPU Temp         | -127 degrees C    | ok
21=40|fec00000|CPU Temp         | -1 degrees C      | ok
21=40|ffc00000|CPU Temp         | 0 degrees C       | ok
21=80|7fc00000|CPU Temp         | 127 degrees C     | ok
21=80|80c00000|CPU Temp         | -128 degrees C    | ok
21=80|ffc00000|CPU Temp         | -1 degrees C      | ok
21=80,22=00,25=06,30=e0|ffc00000|CPU Temp         | -0.06             | ok
21=40,27=ff,28=c0,30=ef|fec00000|CPU Temp         | -0.011 degrees C  | ok
21=40,27=ff,28=c0,30=ef|80c00000|CPU Temp         | -1.271 degrees C  | ok
21=80,27=ff,28=c0,30=ef|80c00000|CPU Temp         | -1.281 degrees C  | ok
25=ff,26=c0|2dc00000|CPU Temp         | -45 degrees C     | ok
25=00,26=80|2dc00000|CPU Temp         | -23040 degrees C  | ok
25=ff,26=40|2dc00000|CPU Temp         | 22995 degrees C   | ok
26=3f|2dc00000|CPU Temp         | 45 degrees C      | ok
27=ff,28=c0|2dc00000|CPU Temp         | 44 degrees C      | ok
27=00,28=80|2dc00000|CPU Temp         | -467 degrees C    | ok
27=ff,28=40|2dc00000|CPU Temp         | 556 degrees C     | ok
28=3f|2dc00000|CPU Temp         | 45 degrees C      | ok
27=01,30=0f|2dc00000|CPU Temp         | 45.1 degrees C    | ok
27=01,30=08|2dc00000|CPU Temp         | 45.00000001 degrees C | ok
27=01,30=07|2dc00000|CPU Temp         | 10000045 degrees C | ok
30=80|2dc00000|CPU Temp         | 0.00000045 degrees C | ok
30=f0|2dc00000|CPU Temp         | 4.5 degrees C     | ok
30=70|2dc00000|CPU Temp         | 450000000 degrees C | ok
27=01,30=1f|2dc00000|CPU Temp         | 451 degrees C     | ok
27=01,30=f1|2dc00000|CPU Temp         | 5.5 degrees C     | ok
27=ff,28=c0,30=0f|2dc00000|CPU Temp         | 44.9 degrees C    | ok
25=00,26=80,27=00,28=80,30=77|ffc00000|CPU Temp         | -51201305600000000 degrees C | ok
25=00,27=01,30=88|2dc00000|CPU Temp         | 0.0000000000000001 degrees C | ok";

/// Asserts the line of `CPU_TEMP` with changes.
fn assert_line(rt: &impl Abort, alloc: Global, case: &str) {
    let (changes, answer, wanted) = three_parts(rt, case);
    let bytes = changed(rt, changes);
    let view = SdrView::read(&bytes).expect(rt, case);
    let line = sdr_line(alloc, &view, answer_of(rt, answer));
    assert_text_with_end(rt, line, wanted, "\n", case);
}

#[test]
fn each_full_record_has_its_line(rt: HostRuntime) {
    for case in LINES.lines() {
        assert_line(&rt, rt.alloc(), case);
    }
}
