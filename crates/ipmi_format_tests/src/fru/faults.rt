//! Whether an inventory has a fault, and whether its header has one.
use crate::cases::{bytes_of, three_parts};
use ipmi_fru::{FruView, has_fault};
use std::alloc::Global;
use std::process::Abort;

/// `what it is|where its fault is|inventory`.
const INVENTORIES: &str = "no areas|nowhere|01000000000000ff
a board|nowhere|01000001000000fe0103000100008329dca642123bc441e90042c1000000004d
a product|nowhere|01000000010000fe010219c24142c24344c1000000000095
an output|nowhere|01000000000100fe01820d432d01b0043c003c007800000024f4
an internal use area that is outside|nowhere|01ff000000000000
two records, the second marked as the last, and a wrong third|nowhere|01000000000100fec00201023bfec18f0000b0c2820000bd
no bytes|header|
seven bytes|header|01000000000000
a header of version 2|header|02000000000000fe
a wrong checksum of the header|header|01000001000000ff0103000100008329dca642123bc441e90042c1000000004d
a chassis that is outside|area|01000100000000fe
a chassis of version 2|area|01000100000000fe020117c100000026
a chassis of no bytes|area|01000100000000fe010017c100000026
a wrong checksum of the chassis|area|01000100000000fe010117c100000027
a field of the chassis past its end|area|01000100000000fe010117c500000022
a wrong checksum of the board|area|01000001000000fe0103000100008329dca642123bc441e90042c1000000004e
a field of the board past its end|area|01000001000000fe010200006621c241423f0000000000f2
a wrong checksum of the product|area|01000000010000fe010219c24142c24344c1000000000096
a wrong checksum of the product after a board|area|01000001040000fa0103000100008329dca642123bc441e90042c1000000004d010219c24142c24344c1000000000096
a record that is outside|record|01000000000100fe01820d432d01b0043c003c007800000024
no record|record|01000000000100fe
a wrong checksum of a record's header|record|01000000000100fe01820d432e01b0043c003c007800000024f4
a wrong checksum of a record's data|record|01000000000100fe01820d432d01b0043c003c007800000024f5
a wrong checksum of the second record's header|record|01000000000100fec00201023bfec18f0000b1";

/// Asserts where an inventory has a fault.
fn assert_fault(rt: &impl Abort, alloc: Global, case: &str) {
    let (_, place, digits) = three_parts(rt, case);
    let bytes = bytes_of(rt, alloc, digits);
    assert!(rt; has_fault(&bytes) == (place != "nowhere"), "{case}");
    assert!(rt;
        FruView::read(&bytes).is_err() == (place == "header"),
        "{case}"
    );
}

#[test]
fn each_inventory_has_its_fault_or_none(rt: HostRuntime) {
    for case in INVENTORIES.lines() {
        assert_fault(&rt, rt.alloc(), case);
    }
}
