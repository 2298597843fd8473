//! Writers as sinks: the bytes taken by one call, and whole texts.
use crate::writers::{Limited, assert_written_text};
use ipmi_output::{Sink, SinkFault, Written, write_all};

const LINE: &str = "sdr 0001 0002 010051c001aa\n";

#[test]
fn one_call_takes_what_the_writer_takes(rt: HostRuntime) {
    let mut out = Written::new(Limited::slow(rt.alloc(), 3));
    let result = out.write(LINE.as_bytes());
    assert!(rt; result == Ok(3), "{result:?}");
    assert_written_text(&rt, &out.into_inner().got, "sdr");
}

#[test]
fn a_vector_gets_all_bytes_after_its_own(rt: HostRuntime) {
    let begun = b"> ".as_slice().to_vec(rt.alloc()).expect(&rt, "memory");
    let mut out = Written::new(begun);
    let result = write_all(&mut out, LINE.as_bytes());
    assert!(rt; result == Ok(()), "a line: {result:?}");
    let result = write_all(&mut out, b"");
    assert!(rt; result == Ok(()), "no byte: {result:?}");
    assert_written_text(&rt, &out.into_inner(), "> sdr 0001 0002 010051c001aa\n");
}

#[test]
fn a_slow_writer_gets_all_bytes(rt: HostRuntime) {
    let mut out = Written::new(Limited::slow(rt.alloc(), 3));
    let result = write_all(&mut out, LINE.as_bytes());
    assert!(rt; result == Ok(()), "{result:?}");
    assert_written_text(&rt, &out.into_inner().got, LINE);
}

#[test]
fn a_writer_that_fails_keeps_what_it_took(rt: HostRuntime) {
    let mut out = Written::new(Limited::failing_after(rt.alloc(), 10));
    let result = write_all(&mut out, LINE.as_bytes());
    assert!(rt; result == Err(SinkFault), "{result:?}");
    assert_written_text(&rt, &out.into_inner().got, "sdr 0001 0");
}

#[test]
fn a_writer_that_takes_nothing_is_at_fault(rt: HostRuntime) {
    let mut out = Written::new(Limited::full_after(rt.alloc(), 0));
    let result = out.write(LINE.as_bytes());
    assert!(rt; result == Ok(0), "one call: {result:?}");
    let result = write_all(&mut out, LINE.as_bytes());
    assert!(rt; result == Err(SinkFault), "all calls: {result:?}");
}

#[test]
fn a_fault_has_a_message(rt: HostRuntime) {
    let text = format!(in rt.alloc(); "{SinkFault}").expect(&rt, "memory");
    assert!(rt; text.as_str() == "write fault", "got {text}");
}
