//! The answers of a controller over an image.
use super::calls::{assert_answer, assert_answers};
use super::images::{ANSWERS, SAVED, assert_answers_of_text, over};
use ipmi_bus::{Code, Controller, Part, Shelf};
use ipmi_image::ImageController;
use std::alloc::Global;
use std::process::Abort;

/// `call|answer`.
const OF_THE_EVENT_LOG: &str = "info sel|510100000201000000ffffffff00
part sel 0 1 0 11|ffff 10 01000201000020200004013001595f5aee";

#[test]
fn each_call_is_answered_from_the_image(rt: HostRuntime) {
    let mut ctl = over(&rt, rt.alloc(), SAVED);
    assert_answers(&rt, &mut ctl, ANSWERS);
    assert_answers(&rt, &mut ctl, OF_THE_EVENT_LOG);
    drop(ctl);
}

/// `call|answer`.
const EMPTY_ANSWERS: &str = "reserve sdr|0001
part sdr 0 1 0 8|code cb
info sdr|code cb
reading 0 1|code cb
fru_size 0|code cb
fru_part 0 0 8|code cb
part sdr 1 0 0 1|code cb";

#[test]
fn an_empty_image_has_only_reservations(rt: HostRuntime) {
    assert_answers_of_text(&rt, rt.alloc(), "ipmi-image 1\nend\n", EMPTY_ANSWERS);
}

/// `call|answer`.
const PARTS: &str = "reserve sdr|0001
part sdr 1 1 0 8|0002 06 010051c001aaeeee
part sdr 1 1 0 5|0002 05 010051c001
part sdr 1 1 0 1|0002 01 01
part sdr 1 1 2 3|0002 03 51c001
part sdr 1 1 4 8|0002 02 01aaeeeeeeeeeeee
part sdr 1 0 0 3|0002 03 010051
part sdr 1 0 5 8|0002 01 aaeeeeeeeeeeeeee
part sdr 1 2 0 7|ffff 07 020051c002bbcc
part sdr 1 2 6 2|ffff 01 ccee";

// Id 0000h requests the first record.
#[test]
fn a_part_is_as_long_as_asked_or_as_the_record_has(rt: HostRuntime) {
    assert_answers_of_text(&rt, rt.alloc(), SAVED, PARTS);
}

/// `call|answer`.
const FRU_PARTS: &str = "fru_part 0 0 3|03 010051
fru_part 0 2 3|03 51c001
fru_part 0 4 3|02 01aaee";

#[test]
fn an_inventory_is_given_as_long_as_asked_or_as_it_is(rt: HostRuntime) {
    assert_answers_of_text(&rt, rt.alloc(), SAVED, FRU_PARTS);
}

/// `call|answer`.
const RESERVATIONS: &str = "part sdr 0 1 0 1|0002 01 01
part sdr 0 1 2 1|code c5
reserve sdr|0001
reserve sel|0002
part sdr 1 1 2 1|0002 01 51
reserve sdr|0003
part sdr 3 1 2 1|0002 01 51
part sdr 3 1 0 1|0002 01 01
part sdr 1 1 2 1|code c5
part sdr 1 1 0 1|0002 01 01
part sdr 2 1 2 1|code c5
part sdr 2 1 0 1|0002 01 01
part sdr 4 1 2 1|code c5
part sdr 4 1 0 1|0002 01 01
part sel 2 1 2 1|ffff 01 02
part sel 2 1 0 1|ffff 01 01
part sel 1 1 2 1|code c5
part sel 1 1 0 1|ffff 01 01
part sel 3 1 2 1|code c5
part sel 3 1 0 1|ffff 01 01";

// The last reservation of a shelf is valid. Without it only the first byte of a record is given.
#[test]
fn the_last_reservation_of_a_shelf_serves(rt: HostRuntime) {
    assert_answers_of_text(&rt, rt.alloc(), SAVED, RESERVATIONS);
}

/// `call|answer`.
const PAST_THE_END: &str = "reserve sdr|0001
part sdr 1 1 5 1|0002 01 aa
part sdr 1 1 6 1|code c9
part sdr 2 1 6 1|code c5
part sdr 1 1 7 1|code c9
part sdr 2 1 7 1|code c5
part sdr 1 1 ff 1|code c9
part sdr 2 1 ff 1|code c5
fru_part 0 5 1|01 aa
fru_part 0 6 1|code c9
fru_part 0 7 1|code c9
fru_part 0 ff 1|code c9
fru_part 0 100 1|code c9
fru_part 0 ffff 1|code c9";

// If both are wrong, the answer is about the reservation.
#[test]
fn there_is_no_byte_past_the_end(rt: HostRuntime) {
    assert_answers_of_text(&rt, rt.alloc(), SAVED, PAST_THE_END);
}

/// The byte requested by a call.
#[derive(Clone, Copy, Debug)]
struct Asked {
    shelf: Shelf,
    reservation: u16,
    id: u16,
    offset: u8,
}

/// Asserts that the record of this byte is not present.
fn assert_no_byte(rt: &impl Abort, ctl: &mut ImageController, asked: Asked) {
    let mut into = [0xEE];
    let part = ctl.part(
        asked.shelf,
        asked.reservation,
        asked.id,
        asked.offset,
        &mut into,
    );
    assert!(rt; part == Err(Code(0xCB)), "{asked:?}: {part:?}");
}

/// Asserts that there is no such record, for any reservation and offset.
fn assert_no_record(rt: &impl Abort, ctl: &mut ImageController, shelf: Shelf, id: u16) {
    for reservation in 0..3 {
        for offset in [0, 1, 255] {
            let asked = Asked {
                shelf,
                reservation,
                id,
                offset,
            };
            assert_no_byte(rt, ctl, asked);
        }
    }
}

/// `call|answer`.
const ABSENT: &str = "reading 0 0|code cb
reading 0 2|code cb
reading 1 1|code cb
reading 4 1|code cb
reading ff ff|code cb
fru_size 1|code cb
fru_size fe|code cb
fru_size ff|code cb
fru_part 1 0 1|code cb
fru_part 1 1 1|code cb
fru_part 1 ffff 1|code cb
fru_part fe 0 1|code cb
fru_part fe 1 1|code cb
fru_part fe ffff 1|code cb
fru_part ff 0 1|code cb
fru_part ff 1 1|code cb
fru_part ff ffff 1|code cb";

/// Asserts that there are no records with other ids. Reservation 1 was given before.
fn assert_no_other_records(rt: &impl Abort, ctl: &mut ImageController) {
    assert_no_record(rt, ctl, Shelf::Sdr, 0x0003);
    assert_no_record(rt, ctl, Shelf::Sdr, 0x0100);
    assert_no_record(rt, ctl, Shelf::Sdr, 0xFFFF);
    assert_no_record(rt, ctl, Shelf::Sel, 0x0002);
}

#[test]
fn what_the_image_has_not_is_not_present(rt: HostRuntime) {
    let mut ctl = over(&rt, rt.alloc(), SAVED);
    assert_answer(&rt, &mut ctl, "reserve sdr|0001");
    assert_no_other_records(&rt, &mut ctl);
    assert_answers(&rt, &mut ctl, ABSENT);
    drop(ctl);
}

/// An image of a record of 256 bytes and an inventory of 300.
fn long_image(rt: &impl Abort, alloc: Global) -> String {
    let record = "00".repeat(alloc, 251).expect(rt, "memory");
    let inventory = "00".repeat(alloc, 300).expect(rt, "memory");
    format!(in alloc;
        "ipmi-image 1\nsdr 0001 ffff 010051c0fb{record}\nfru 00 {inventory}\nend\n"
    ).expect(rt, "memory")
}

/// Asserts the length of a part if 254 bytes are requested from this offset.
fn assert_part_length(rt: &impl Abort, ctl: &mut ImageController, offset: u8, got: u8) {
    let part = ctl.part(Shelf::Sdr, 1, 1, offset, &mut [0xEE; 254]);
    assert!(rt;
        part == Ok(Part { next: 0xFFFF, got }),
        "{offset}: {part:?}"
    );
}

/// The same for a part of the inventory.
fn assert_fru_part_length(rt: &impl Abort, ctl: &mut ImageController, offset: u16, wanted: u8) {
    let got = ctl.fru_part(0, offset, &mut [0xEE; 254]);
    assert!(rt; got == Ok(wanted), "{offset}: {got:?}");
}

/// Asserts that a part has the remaining bytes, at most 254.
fn assert_part_lengths(rt: &impl Abort, ctl: &mut ImageController) {
    for (offset, got) in [(0, 254), (1, 254), (2, 254), (3, 253), (255, 1)] {
        assert_part_length(rt, ctl, offset, got);
    }
}

/// The same for parts of the inventory.
fn assert_fru_part_lengths(rt: &impl Abort, ctl: &mut ImageController) {
    for (offset, got) in [(0, 254), (46, 254), (47, 253), (256, 44), (299, 1)] {
        assert_fru_part_length(rt, ctl, offset, got);
    }
}

#[test]
fn the_longest_part_of_a_record_has_254_bytes(rt: HostRuntime) {
    let mut ctl = over(&rt, rt.alloc(), &long_image(&rt, rt.alloc()));
    assert_answer(&rt, &mut ctl, "reserve sdr|0001");
    assert_part_lengths(&rt, &mut ctl);
    drop(ctl);
}

#[test]
fn the_longest_part_of_an_inventory_has_254_bytes(rt: HostRuntime) {
    let mut ctl = over(&rt, rt.alloc(), &long_image(&rt, rt.alloc()));
    assert_fru_part_lengths(&rt, &mut ctl);
    drop(ctl);
}

/// Asserts that the next reservation has this number. It is for the event log if the number is divisible by three.
fn assert_reservation(rt: &impl Abort, ctl: &mut ImageController, number: u16) {
    let shelf = if number % 3 == 0 {
        Shelf::Sel
    } else {
        Shelf::Sdr
    };
    let given = ctl.reserve(shelf);
    assert!(rt; given == Ok(number), "{number}: {given:?}");
}

/// The same for each number.
fn assert_reservations(rt: &impl Abort, ctl: &mut ImageController) {
    for number in 1..=65_535 {
        assert_reservation(rt, ctl, number);
    }
}

// After FFFFh comes 1.
#[test]
fn reservations_are_numbered_over_both_shelves(rt: HostRuntime) {
    let mut ctl = over(&rt, rt.alloc(), SAVED);
    assert_reservations(&rt, &mut ctl);
    assert_answers(&rt, &mut ctl, "reserve sel|0001\nreserve sdr|0002");
    drop(ctl);
}

/// `call|answer`.
const OF_OTHER_LINES: &str = "part sel 0 0 0 3|ffff 03 010002
part sdr 0 1 1 1|code c5
part sel 0 1 1 1|code c5
reserve sel|0001
part sel 1 0 2 2|ffff 02 0201
part sel 1 1 f 2|ffff 01 5aee
part sel 1 1 10 1|code c9
part sel 2 1 10 1|code c5
part sdr 1 1 2 1|code c5";

// Id 0000h also requests the first entry.
#[test]
fn the_event_log_is_asked_as_the_other_shelf(rt: HostRuntime) {
    assert_answers_of_text(&rt, rt.alloc(), SAVED, OF_OTHER_LINES);
}

/// Ids and numbers at the ends of their ranges.
const ENDS: &str = "ipmi-image 2
sdr 0000 - 000051c000
sdr fffe 0000 010051c001aa
reading 3 ff 2dc00000
reading 0 00 2ec00001
fru fe 0a
fru 00 0b
info sel 510100000201000000ffffffff00
end
";

/// `call|answer`.
const ENDS_ANSWERS: &str = "part sdr 0 0 0 5|fffe 05 000051c000
part sdr 0 fffe 0 8|0000 06 010051c001aaeeee
part sdr 0 1 0 1|code cb
part sel 0 0 0 1|code cb
info sdr|code cb
info sel|510100000201000000ffffffff00
reading 3 ff|2dc00000
reading 0 0|2ec00001
reading 3 0|code cb
reading 4 ff|code cb
fru_size fe|0001 00
fru_size 0|0001 00
fru_part fe 0 2|01 0aee
fru_part 0 0 2|01 0bee";

#[test]
fn what_is_at_the_end_of_a_range_is_found(rt: HostRuntime) {
    assert_answers_of_text(&rt, rt.alloc(), ENDS, ENDS_ANSWERS);
}
