//! The requests for a record: Get Sensor Reading for a sensor of the controller itself, and the inventory for a FRU
//! device of it.
use super::examples::changed;
use crate::cases::{assert_text, parts};
use ipmi_fixtures::PSU1;
use ipmi_records::SdrView;
use std::alloc::Global;
use std::process::Abort;

/// `changes of CPU_TEMP|LUN and number of the sensor|FRU device` of the requests.
const ASKED: &str = "7=00|Some((0, 1))|None
7=03|Some((3, 1))|None
7=f2|Some((2, 1))|None
8=ff|Some((0, 255))|None
6=21|None|None
6=00|None|None
4=02|Some((0, 1))|None
4=03|None|None
4=10|None|None
4=11|None|None
4=12|None|None
4=c0|None|None
4=11,6=20,7=00,8=80|None|Some(0)
4=11,6=20,7=ff,8=e7|None|Some(255)
4=11,6=20,7=01,8=00|None|None
4=11,6=20,7=01,8=7f|None|None
4=11,6=20,7=01,8=88|None|None
4=11,6=20,7=01,8=90|None|None
4=11,6=20,7=01,8=98|None|None
4=11,6=21,7=01,8=80|None|None
4=11,6=00,7=01,8=80|None|None
|Some((0, 1))|None";

fn assert_requests(rt: &impl Abort, alloc: Global, line: &str) {
    let (changes, wanted) = parts(rt, line);
    let bytes = changed(rt, changes);
    let view = SdrView::read(&bytes).expect(rt, line);
    let reading = view.reading_of();
    let inventory = view.fru_of();
    let asked = format!(in alloc; "{reading:?}|{inventory:?}");
    assert_text(rt, asked, wanted, line);
}

#[test]
fn only_the_controller_itself_is_asked(rt: HostRuntime) {
    for line in ASKED.lines() {
        assert_requests(&rt, rt.alloc(), line);
    }
}

#[test]
fn the_inventory_of_a_fru_device_is_asked_for_by_its_id(rt: HostRuntime) {
    let view = SdrView::read(&PSU1).expect(&rt, "a record");
    let device = view.fru_of();
    assert!(rt; device == Some(1), "got {device:?}");
}
