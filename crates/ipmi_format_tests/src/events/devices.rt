//! The names of FRU devices.
use crate::cases::{byte_of, parts};
use ipmi_events::device_name;
use std::alloc::Global;
use std::process::Abort;

/// `records|id of the device|name`, which is `(none)` without a locator. Some locators are for another device, not logical,
/// at another address or LUN, for a controller, too short for their type, or without their last byte. The first of two
/// locators counts.
const NAMES: &str = "\
010051110f200180000000000a0100c450535531|01|PSU1
010051110f200180000000000a0100c450535531|00|(none)
010051110d200000000000000a0100c24142|00|(none)
010051110d220080000000000a0100c24142|00|(none)
010051110d200088000000000a0100c24142|00|(none)
010051120d200080000000000a0100c24142|00|(none)
0100511100|00|(none)
010051110d200080000000000a0100c241|00|(none)
|00|(none)
010051110b200080000000000a0100c0|00|
010051110d200087000000000a0100c24142|00|AB
010051110d200080000000000a0100c24142020051110d200080000000000a0100c24344|00|AB
0100511100020051110d220080000000000a0100c24142030051110d200080000000000a0100c24344|00|CD
010051110d20ff80000000000a0100c24142|ff|AB";

fn assert_device_name(rt: &impl Abort, alloc: Global, case: &str) {
    let (digits, rest) = parts(rt, case);
    let (id, wanted) = parts(rt, rest);
    let records = hex::decode(alloc, digits).expect(rt, case);
    let name = device_name(alloc, &records, byte_of(rt, id)).expect(rt, case);
    assert_eq!(rt; name.as_deref().unwrap_or("(none)"), wanted, "{case}");
}

#[test]
fn a_device_has_the_name_of_its_first_locator(rt: HostRuntime) {
    for case in NAMES.lines() {
        assert_device_name(&rt, rt.alloc(), case);
    }
}
