//! A listing in which one call is answered with a busy code.
use crate::bus::listings::{assert_listing, listing};
use crate::commands::over_images::interrupting;
use crate::commands::saved::{THREE_LINES, THREE_ROWS};
use std::alloc::Global;
use std::process::Abort;

/// Asserts that a listing of the three records is complete despite the code at this call: three lines after seven calls,
/// with one try.
fn assert_one_call_more(rt: &impl Abort, alloc: Global, call: u32, code: u8) {
    let mut ctl = interrupting(rt, alloc, THREE_ROWS, call, code);
    let outcome = listing(alloc, &mut ctl, 1);
    drop(ctl);
    let case = format!(in alloc; "code {code:02X}h at call {call}").expect(rt, "memory");
    assert_listing(rt, alloc, outcome, THREE_LINES, 7, case.as_str());
}

/// The same at each of the six calls: the reservation, two calls for the first record, two for the second, one for the
/// third.
fn assert_one_call_more_at_each(rt: &impl Abort, alloc: Global, code: u8) {
    for call in 1..=6 {
        assert_one_call_more(rt, alloc, call, code);
    }
}

#[test]
fn a_busy_code_is_one_call_more(rt: HostRuntime) {
    assert_one_call_more_at_each(&rt, rt.alloc(), 0xC3);
    assert_one_call_more_at_each(&rt, rt.alloc(), 0x81);
}
