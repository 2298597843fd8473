//! Each call that makes a text of a record, an entry or an info, with ample memory and with requests refused.
use super::examples::{EVENT_BLOCK, EVENT_LINE};
use crate::cases::{assert_text, assert_text_or_refused};
use ipmi_fixtures::{CPU_TEMP, CPU_TEMP_BLOCK, EVENT, INFO, INFO_BLOCK, reading_of};
use ipmi_records::{
    SdrFault, SdrView, SelView, info_block, sdr_block, sdr_eline, sdr_fault_line, sdr_line,
    sel_block, sel_line,
};
use std::alloc::{AllocError, Global};
use std::process::Abort;

/// A text, or out of memory.
type Made = Result<String, AllocError>;

/// The calls that take memory over a sensor data record, each with its text.
fn calls_over_a_record(alloc: Global, view: &SdrView<'_>) -> [(Made, &'static str); 4] {
    let answer = Some(reading_of([0x2d, 0xc0, 0, 0]));
    [
        (
            sdr_line(alloc, view, answer),
            "CPU Temp         | 45 degrees C      | ok\n",
        ),
        (
            sdr_eline(alloc, view, answer),
            "CPU Temp         | 01h | ok  | 3.1   | 45 degrees C\n",
        ),
        (sdr_block(alloc, 1, view, answer), CPU_TEMP_BLOCK),
        (
            sdr_fault_line(alloc, 1, SdrFault::BodyShort),
            "record 0001h: body too short\n",
        ),
    ]
}

/// The calls that take memory over an entry or an info, each with its text.
fn calls_over_the_log(alloc: Global) -> [(Made, &'static str); 3] {
    let view = SelView::read(&EVENT);
    [
        (sel_line(alloc, 1, &view), EVENT_LINE),
        (sel_block(alloc, 1, &view), EVENT_BLOCK),
        (info_block(alloc, &INFO), INFO_BLOCK),
    ]
}

/// Asserts that a name is that of `CPU_TEMP`.
fn assert_name(rt: &impl Abort, name: Option<String>) {
    let name = name.expect(rt, "a name");
    assert!(rt; name.as_str() == "CPU Temp", "got {name}");
}

/// The same, unless memory was refused.
fn assert_name_or_refused(rt: &impl Abort, name: Result<Option<String>, AllocError>) {
    if let Ok(name) = name {
        assert_name(rt, name);
    }
}

// With ample memory each call returns its text.
#[test]
fn not_always_out_of_memory(rt: HostRuntime) {
    let view = SdrView::read(&CPU_TEMP).expect(&rt, "a record");
    for (text, wanted) in calls_over_a_record(rt.alloc(), &view) {
        assert_text(&rt, text, wanted, wanted);
    }
    for (text, wanted) in calls_over_the_log(rt.alloc()) {
        assert_text(&rt, text, wanted, wanted);
    }
    assert_name(&rt, view.name(rt.alloc()).expect(&rt, "memory"));
}

// With memory refused each call returns its text, or fails when out of memory.
#[test]
fn memory_may_be_refused(rt: HostRuntime) {
    let view = SdrView::read(&CPU_TEMP).expect(&rt, "a record");
    for (text, wanted) in calls_over_a_record(rt.alloc(), &view) {
        assert_text_or_refused(&rt, text, wanted);
    }
    for (text, wanted) in calls_over_the_log(rt.alloc()) {
        assert_text_or_refused(&rt, text, wanted);
    }
    assert_name_or_refused(&rt, view.name(rt.alloc()));
}
