//! Building images record by record.
use super::images::{ANSWERS, REWRITTEN, assert_answers_of_image};
use super::rewritten::assert_text;
use ipmi_bus::{Record, Shelf};
use ipmi_fixtures::{EVENT, INFO};
use ipmi_image::{ImageBuilder, image_text};
use ipmi_text::Reading;
use std::alloc::Global;
use std::process::Abort;

/// The sensor data records of `SAVED`.
const FIRST: [u8; 6] = [0x01, 0x00, 0x51, 0xc0, 0x01, 0xaa];

const SECOND: [u8; 7] = [0x02, 0x00, 0x51, 0xc0, 0x02, 0xbb, 0xcc];

/// The info of the event log of `SAVED`.
const SEL_INFO: [u8; 14] = [
    0x51, 0x01, 0x00, 0x00, 0x02, 0x01, 0x00, 0x00, 0x00, 0xff, 0xff, 0xff, 0xff, 0x00,
];

/// Puts a record, and returns whether it was accepted.
fn put(
    rt: &impl Abort,
    image: &mut ImageBuilder,
    shelf: Shelf,
    id: u16,
    next: u16,
    bytes: &[u8],
) -> bool {
    let record = Record { id, next, bytes };
    image.put_record(shelf, &record).expect(rt, "memory")
}

/// Puts the records of `SAVED`.
fn put_records(rt: &impl Abort, image: &mut ImageBuilder) {
    assert!(rt; put(rt, image, Shelf::Sdr, 0x0001, 0x0002, &FIRST));
    assert!(rt; put(rt, image, Shelf::Sdr, 0x0002, 0xffff, &SECOND));
    assert!(rt; put(rt, image, Shelf::Sel, 0x0001, 0xffff, &EVENT));
}

/// All of `SAVED`.
fn saved(rt: &impl Abort, alloc: Global) -> ImageBuilder {
    let mut image = ImageBuilder::new(alloc);
    let bytes = FIRST.to_vec(alloc).expect(rt, "memory");
    image.put_inventory(0, bytes).expect(rt, "memory");
    let reading = Reading {
        raw: 0x2d,
        flags: 0xc0,
        status: 0,
        more: 0,
    };
    image.put_reading(0, 1, reading).expect(rt, "memory");
    put_records(rt, &mut image);
    image.put_info(Shelf::Sdr, INFO);
    image.put_info(Shelf::Sel, SEL_INFO);
    image
}

/// Asserts the text of the built image.
fn assert_built_text(
    rt: &impl Abort,
    alloc: Global,
    image: ImageBuilder,
    wanted: &str,
    case: &str,
) {
    let image = image.finish();
    let text = image_text(alloc, &image).expect(rt, "memory");
    drop(image);
    assert_text(rt, &text, wanted, case);
}

#[test]
fn what_is_put_is_in_the_image(rt: HostRuntime) {
    let alloc = rt.alloc();
    assert_built_text(
        &rt,
        alloc,
        ImageBuilder::new(alloc),
        "ipmi-image 2\nend\n",
        "nothing",
    );
    assert_built_text(&rt, alloc, saved(&rt, alloc), REWRITTEN, "all of it");
}

#[test]
fn a_controller_answers_from_what_was_put(rt: HostRuntime) {
    assert_answers_of_image(&rt, saved(&rt, rt.alloc()).finish(), ANSWERS);
}

const ONE_RECORD: &str = "ipmi-image 2
sdr 0001 0007 010051c001aa
end
";

#[test]
fn a_record_that_may_not_be_there_is_not_put(rt: HostRuntime) {
    let alloc = rt.alloc();
    let mut image = ImageBuilder::new(alloc);
    // an invalid id, an id other than that of the bytes, an entry of the other shelf, and a byte too few
    assert!(rt; !put(&rt, &mut image, Shelf::Sdr, 0xffff, 7, &FIRST));
    assert!(rt; !put(&rt, &mut image, Shelf::Sdr, 0x0003, 7, &FIRST));
    assert!(rt; !put(&rt, &mut image, Shelf::Sel, 0x0001, 7, &FIRST));
    assert!(rt; !put(&rt, &mut image, Shelf::Sdr, 0x0001, 7, &FIRST[..5]));
    assert!(rt; put(&rt, &mut image, Shelf::Sdr, 0x0001, 7, &FIRST));
    // the same id again, and that of a first record
    assert!(rt; !put(&rt, &mut image, Shelf::Sdr, 0x0001, 7, &FIRST));
    assert!(rt; !put(&rt, &mut image, Shelf::Sdr, 0x0000, 7, &FIRST));
    assert_built_text(&rt, alloc, image, ONE_RECORD, "one record");
}

#[test]
fn records_are_found_by_place_and_cleared(rt: HostRuntime) {
    let alloc = rt.alloc();
    let mut image = ImageBuilder::new(alloc);
    put_records(&rt, &mut image);
    assert!(rt; image.record_bytes(Shelf::Sdr, 1) == Some(SECOND.as_slice()));
    assert!(rt; image.record_bytes(Shelf::Sdr, 2).is_none());
    image.clear_records(alloc, Shelf::Sel);
    assert!(rt; image.record_bytes(Shelf::Sel, 0).is_none());
    image.clear_records(alloc, Shelf::Sdr);
    assert!(rt; put(&rt, &mut image, Shelf::Sdr, 0x0001, 7, &FIRST));
    assert_built_text(&rt, alloc, image, ONE_RECORD, "cleared");
}
