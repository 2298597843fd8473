//! The texts of the ten requests, from the tables of IPMI v2.0.
use ipmi_bus::Shelf;
use ipmi_raw::{InventoryPart, RecordPart, Request, freeipmi, ipmitool};
use std::process::Abort;

/// Asserts the texts of a request: for `ipmitool exec` and for FreeIPMI's `ipmi-raw`.
fn assert_request_texts(rt: &impl Abort, request: Request, exec: &str, raw: &str) {
    let line = ipmitool::request_text(request);
    assert!(rt; line.as_slice() == exec.as_bytes(), "{exec}");
    let line = freeipmi::request_text(request);
    assert!(rt; line.as_slice() == raw.as_bytes(), "{raw}");
}

/// A request for a part of a record.
fn part(shelf: Shelf, offset: u8, count: u8) -> Request {
    Request::Get(RecordPart {
        shelf,
        reservation: 0x1234,
        id: 0xABCD,
        offset,
        count,
    })
}

#[test]
fn requests_without_data(rt: HostRuntime) {
    let sdr = Shelf::Sdr;
    let sel = Shelf::Sel;
    assert_request_texts(
        &rt,
        Request::DeviceId,
        "raw 0x06 0x01\necho .\n",
        "00 06 01\n",
    );
    assert_request_texts(
        &rt,
        Request::Info(sdr),
        "raw 0x0a 0x20\necho .\n",
        "00 0A 20\n",
    );
    assert_request_texts(
        &rt,
        Request::Reserve(sdr),
        "raw 0x0a 0x22\necho .\n",
        "00 0A 22\n",
    );
    assert_request_texts(
        &rt,
        Request::Info(sel),
        "raw 0x0a 0x40\necho .\n",
        "00 0A 40\n",
    );
    assert_request_texts(
        &rt,
        Request::Reserve(sel),
        "raw 0x0a 0x42\necho .\n",
        "00 0A 42\n",
    );
}

#[test]
fn parts_of_sensor_data_records(rt: HostRuntime) {
    assert_request_texts(
        &rt,
        crate::raw::cases::get_sdr(),
        "raw 0x0a 0x23 0x01 0x00 0x00 0x00 0x00 0x16\necho .\n",
        "00 0A 23 01 00 00 00 00 16\n",
    );
    assert_request_texts(
        &rt,
        part(Shelf::Sdr, 5, 254),
        "raw 0x0a 0x23 0x34 0x12 0xcd 0xab 0x05 0xfe\necho .\n",
        "00 0A 23 34 12 CD AB 05 FE\n",
    );
    assert_request_texts(
        &rt,
        part(Shelf::Sdr, 0, 16),
        "raw 0x0a 0x23 0x34 0x12 0xcd 0xab 0x00 0x10\necho .\n",
        "00 0A 23 34 12 CD AB 00 10\n",
    );
}

#[test]
fn a_whole_event_is_asked_for_as_such(rt: HostRuntime) {
    assert_request_texts(
        &rt,
        part(Shelf::Sel, 0, 15),
        "raw 0x0a 0x43 0x34 0x12 0xcd 0xab 0x00 0x0f\necho .\n",
        "00 0A 43 34 12 CD AB 00 0F\n",
    );
    assert_request_texts(
        &rt,
        part(Shelf::Sel, 0, 16),
        "raw 0x0a 0x43 0x34 0x12 0xcd 0xab 0x00 0xff\necho .\n",
        "00 0A 43 34 12 CD AB 00 FF\n",
    );
    assert_request_texts(
        &rt,
        part(Shelf::Sel, 1, 16),
        "raw 0x0a 0x43 0x34 0x12 0xcd 0xab 0x01 0x10\necho .\n",
        "00 0A 43 34 12 CD AB 01 10\n",
    );
}

#[test]
fn inventories(rt: HostRuntime) {
    assert_request_texts(
        &rt,
        Request::InventorySize(0xFE),
        "raw 0x0a 0x10 0xfe\necho .\n",
        "00 0A 10 FE\n",
    );
    assert_request_texts(
        &rt,
        Request::ReadInventory(InventoryPart {
            id: 3,
            offset: 0x0102,
            count: 16,
        }),
        "raw 0x0a 0x11 0x03 0x02 0x01 0x10\necho .\n",
        "00 0A 11 03 02 01 10\n",
    );
}

#[test]
fn readings_at_each_logical_unit(rt: HostRuntime) {
    let exec = "raw 0x04 0x2d 0x30\necho .\n";
    assert_request_texts(&rt, Request::Reading(0, 0x30), exec, "00 04 2D 30\n");
    assert_request_texts(&rt, Request::Reading(1, 0x30), exec, "01 04 2D 30\n");
    assert_request_texts(&rt, Request::Reading(2, 0x30), exec, "02 04 2D 30\n");
    assert_request_texts(&rt, Request::Reading(3, 0x30), exec, "03 04 2D 30\n");
}
