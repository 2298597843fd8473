//! Listings that read records ahead: the same lines, by fewer calls.
use super::over_images::scripted;
use super::saved::image_named;
use crate::cases::{case_of, number};
use crate::command_line::lines::command;
use crate::writers::assert_written_text;
use ipmi_command_line::Command;
use ipmi_commands::{Job, LIVE_PART, RequestLimits, Summary, execute};
use ipmi_output::Written;
use ipmi_program::Wording;
use std::alloc::Global;
use std::process::Abort;

/// Asserts the lines of a command over the image, and the number of its calls, of which the first have these moods.
fn assert_calls(
    rt: &impl Abort,
    alloc: Global,
    command: &Command,
    image: &str,
    moods: &str,
    calls: u32,
    lines: &str,
) {
    let mut ctl = scripted(rt, alloc, image, moods);
    let limits = RequestLimits::reading_ahead(LIVE_PART, 5);
    let mut out = Written::new(Vec::new(alloc));
    let mut summary = Summary::new();
    let job = Job::of(&Wording::Plain, command.task(), command.from()).expect(rt, lines);
    let ended = execute(
        alloc,
        &mut ctl,
        limits,
        &Wording::Plain,
        job,
        &mut out,
        &mut summary,
    );
    assert!(rt; ended.is_ok(), "{lines}");
    let got = ctl.calls;
    assert!(rt; got == calls, "{moods}: {got} calls");
    let out = out.into_inner();
    assert_written_text(rt, &out, lines);
    drop(out);
    drop(ctl);
}

/// The same for a case: `words|image|moods:calls ..`, then the lines.
fn assert_calls_of_case(rt: &impl Abort, alloc: Global, case: &str) {
    let case = case_of(rt, case);
    let image = image_named(rt, case.image);
    let command = command(rt, alloc, case.words);
    for one in case.more.split_whitespace() {
        let (moods, calls) = one.split_once(':').expect(rt, one);
        assert_calls(
            rt,
            alloc,
            &command,
            image,
            moods,
            number(rt, calls),
            case.wanted,
        );
    }
    drop(command);
}

/// The same for each case.
fn assert_calls_of_cases(rt: &impl Abort, alloc: Global, cases: &str) {
    for case in cases.split("====\n") {
        assert_calls_of_case(rt, alloc, case);
    }
}

/// `words|image|moods:calls ..`, then the lines.
const LISTED: &str = "sdr hex|three|.:4 .R:7 ..R:6
sdr 0001 0002 010051c001aa
sdr 0002 0003 020051c002bbcc
sdr 0003 ffff 030051c000
====
sdr hex|sensor and locator|.:3 .B:4 .C:5 .1:4 .1C:6 .L:5 ..L:4 .LL:10 .R:7
sdr 0001 0002 \
    010051013320000103017f680101000000003838000100000100000000000000000000005f5a550000000202000000c84350552054656d70
sdr 0002 ffff 020051110f200180000000000a0100c450535531
====
sdr list all|sensor and locator|.:4 .L:6
CPU Temp         | 45 degrees C      | ok
PSU1             | FRU 1             | na
====
sel list 2|log|.:3
0001 | 1987-01-05 18:48:33 | Temperature #0x30 | Upper Critical going high | Asserted
0002 | +536870912 s | Temperature #0x30 | Upper Non-critical going high | Deasserted
";

// A reservation, a call for each record or entry, and one for the reading of the sensor. A busy answer is one call more, and a
// cancelled reservation two. After one byte the rest is one call, and is lost if the reservation is. A code for a smaller part (L) is
// one call more; after it parts have 32 bytes, and after the second one 16, and the header is asked for alone. After a refusal (R) it
// is too, and parts have 32 bytes. The sensor has 56 bytes, the locator 20, the three records 6, 7 and 5. A controller that refuses
// more than 32 bytes answers as in `.L`.
#[test]
fn a_record_is_one_call(rt: HostRuntime) {
    assert_calls_of_cases(&rt, rt.alloc(), LISTED);
}
