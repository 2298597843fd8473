//! A long inventory cut off at each of its bytes. The text has the whole parts, and faults for the others.
use super::long_inventory::{INVENTORY, assert_parts, digits_at};
use crate::cases::{parts, range};
use std::alloc::Global;
use std::process::Abort;

/// The image of the first bytes of the inventory.
fn cut_image(rt: &impl Abort, alloc: Global, len: usize) -> String {
    let end = digits_at(len.saturating_sub(1)).saturating_add(2);
    let rows = INVENTORY.get(..end).expect(rt, "rows");
    format!(in alloc; "{rows}\nend\n").expect(rt, "memory")
}

/// `first length-last length|part of the text|part of the text ..`.
const CUT_SHORT: &str = "1-7|FRU fault: header short
8-71|Chassis fault: outside|Board fault: outside|Product fault: outside|Record fault: outside
72-199|chassis|Board fault: outside|Product fault: outside|Record fault: outside
200-327|chassis|board|Product fault: outside|Record fault: outside
328-372|chassis|board|product|Record fault: outside
373-511|chassis|board|product|first|Record fault: outside
512-512|chassis|board|product|first|second";

/// Asserts the parts of the text of the first `len` bytes.
fn assert_parts_of_length(rt: &impl Abort, alloc: Global, len: usize, wanted: &str) {
    let image = cut_image(rt, alloc, len);
    let case = format!(in alloc; "{len} bytes").expect(rt, "memory");
    assert_parts(rt, alloc, image.as_str(), len, wanted, case.as_str());
}

/// The same for each length of a line.
fn assert_parts_of_line(rt: &impl Abort, alloc: Global, line: &str) {
    let (lengths, wanted) = parts(rt, line);
    let (first, last) = range(rt, lengths);
    for len in first..=last {
        assert_parts_of_length(rt, alloc, len, wanted);
    }
}

// Each area that is cut off has the fault `outside`, and so has the first such record.
#[test]
fn an_inventory_cut_short_is_printed_as_far_as_it_goes(rt: HostRuntime) {
    for line in CUT_SHORT.lines() {
        assert_parts_of_line(&rt, rt.alloc(), line);
    }
}
