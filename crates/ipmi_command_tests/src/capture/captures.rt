//! Captures of controllers over an image: the text of the captured image, and a line for each item left out.
use ipmi_bus::{Code, Controller, Ended, FruEnded, Shelf};
use ipmi_capture::{Captured, Left, Progress, Unread, capture};
use ipmi_image::{Image, ImageController, Mood, Scripted, WithRecords, image_text};
use std::alloc::Global;
use std::process::Abort;

/// A compact sensor 30h at LUN 0, a locator of FRU device 1, and one item of each other kind.
pub(crate) const SAVED: &str = "ipmi-image 2
sdr 0001 - 010051021b2000300000000000000000000000000000000000000000000000c0
sdr 0002 - 020051110b20018000000000000000c0
sel 0001 - 01000201000020200004013001595f5a
fru 00 0100
fru 01 010203
reading 0 30 2dc00000
info sdr 510300000401000020ffffffff02
info sel 510100000201000000ffffffff00
end
";

/// `SAVED` without the reading.
const WITHOUT_READING: &str = "ipmi-image 2
sdr 0001 - 010051021b2000300000000000000000000000000000000000000000000000c0
sdr 0002 - 020051110b20018000000000000000c0
sel 0001 - 01000201000020200004013001595f5a
fru 00 0100
fru 01 010203
info sdr 510300000401000020ffffffff02
info sel 510100000201000000ffffffff00
end
";

/// `SAVED` without the inventory of device 0.
const WITHOUT_INVENTORY: &str = "ipmi-image 2
sdr 0001 - 010051021b2000300000000000000000000000000000000000000000000000c0
sdr 0002 - 020051110b20018000000000000000c0
sel 0001 - 01000201000020200004013001595f5a
fru 01 010203
reading 0 30 2dc00000
info sdr 510300000401000020ffffffff02
info sel 510100000201000000ffffffff00
end
";

/// `SAVED` with another time of the last addition of a sensor data record.
const EARLIER: &str = "ipmi-image 2
sdr 0001 - 010051021b2000300000000000000000000000000000000000000000000000c0
sdr 0002 - 020051110b20018000000000000000c0
sel 0001 - 01000201000020200004013001595f5a
fru 00 0100
fru 01 010203
reading 0 30 2dc00000
info sdr 510300000400000020ffffffff02
info sel 510100000201000000ffffffff00
end
";

/// The number of records, readings and inventories reported as progress.
#[derive(Default, Drop)]
pub(crate) struct Came {
    records: u32,
    readings: u32,
    inventories: u32,
}

impl Progress for Came {
    fn record(&mut self, _shelf: Shelf) {
        self.records = self.records.saturating_add(1);
    }

    fn reading(&mut self) {
        self.readings = self.readings.saturating_add(1);
    }

    fn inventory(&mut self) {
        self.inventories = self.inventories.saturating_add(1);
    }
}

fn image(rt: &impl Abort, alloc: Global, text: &str) -> Image {
    Image::read(alloc, text.as_bytes()).expect(rt, text)
}

/// A line for each item left out, and `not whole` if the image is not whole.
fn left_out_text(rt: &impl Abort, alloc: Global, captured: &Captured) -> String {
    let mut text = String::new(alloc);
    for left in captured.left.as_slice() {
        let line = left.to_string(alloc).expect(rt, "memory");
        text.push_str(line.as_str()).expect(rt, "memory");
        text.push('\n').expect(rt, "memory");
    }
    if !captured.is_whole {
        text.push_str("not whole\n").expect(rt, "memory");
    }
    text
}

/// Asserts the captured image and the items left out.
pub(crate) fn assert_capture<C: Controller>(
    rt: &impl Abort,
    alloc: Global,
    ctl: &mut C,
    part: u8,
    tries: u8,
    wanted: &str,
    left: &str,
) -> Came {
    let mut came = Came::default();
    let part = part.clamp(1, 254);
    let captured = capture(alloc, ctl, part, tries, &mut came).expect(rt, "memory");
    let text = image_text(alloc, &captured.image).expect(rt, "memory");
    let got = std::str::from_utf8(&text).expect(rt, wanted);
    assert!(rt; got == wanted, "got {got}");
    let got = left_out_text(rt, alloc, &captured);
    assert!(rt; got.as_str() == left, "got {got}");
    drop(captured);
    came
}

/// `plain` plain moods, and then the moods of these words: `busy`, `cancel`, `plain`, `grant` for parts of 3 bytes, `byte` for
/// one of a byte, `refuse` with C1h, `none` for CCh, `change` to `WITHOUT_READING`, `lose` to `WITHOUT_INVENTORY`, and `restore`
/// to `SAVED`.
fn moods(rt: &impl Abort, alloc: Global, plain: u8, words: &str) -> Vec<Mood> {
    let mut list = Vec::new(alloc);
    for _ in 0..plain {
        list.push(Mood::Grant(254)).ok().expect(rt, "memory");
    }
    for word in words.split_whitespace() {
        let mood = match word {
            "busy" => Mood::Busy,
            "cancel" => Mood::Cancel,
            "grant" => Mood::Grant(3),
            "refuse" => Mood::Refuse(Code(0xC1)),
            "none" => Mood::Refuse(Code(0xCC)),
            "byte" => Mood::Grant(1),
            "change" => Mood::Change(image(rt, alloc, WITHOUT_READING)),
            "lose" => Mood::Change(image(rt, alloc, WITHOUT_INVENTORY)),
            "restore" => Mood::Change(image(rt, alloc, SAVED)),
            _ => Mood::Grant(254),
        };
        list.push(mood).ok().expect(rt, "memory");
    }
    list
}

/// Asserts the capture of a controller over `SAVED`. Its calls have `plain` plain moods, then these moods.
fn assert_capture_in_moods(
    rt: &impl Abort,
    alloc: Global,
    plain: u8,
    words: &str,
    wanted: &str,
    left: &str,
) {
    let mut ctl = Scripted::new(image(rt, alloc, SAVED), moods(rt, alloc, plain, words));
    assert_capture(rt, alloc, &mut ctl, 254, 3, wanted, left);
    drop(ctl);
}

/// Asserts the capture of a plain controller over the image of this text, and the number of records reported.
fn assert_plain_capture(
    rt: &impl Abort,
    alloc: Global,
    text: &str,
    wanted: &str,
    left: &str,
    records: u32,
) {
    let mut ctl = ImageController::new(image(rt, alloc, text));
    let came = assert_capture(rt, alloc, &mut ctl, 254, 3, wanted, left);
    assert!(rt; came.records == records, "got {}", came.records);
    drop(ctl);
}

#[test]
fn all_of_a_plain_controller_comes(rt: HostRuntime) {
    let alloc = rt.alloc();
    let mut ctl = ImageController::new(image(&rt, alloc, SAVED));
    let came = assert_capture(&rt, alloc, &mut ctl, 254, 0, SAVED, "");
    assert!(&rt; came.records == 3 && came.readings == 1 && came.inventories == 2);
    drop(ctl);
}

#[test]
fn all_comes_in_parts_of_one_byte(rt: HostRuntime) {
    let alloc = rt.alloc();
    let mut ctl = ImageController::new(image(&rt, alloc, SAVED));
    assert_capture(&rt, alloc, &mut ctl, 1, 0, SAVED, "");
    drop(ctl);
}

#[test]
fn all_comes_through_troubles(rt: HostRuntime) {
    let alloc = rt.alloc();
    assert_capture_in_moods(
        &rt,
        alloc,
        0,
        "busy plain grant cancel grant grant plain busy grant grant",
        SAVED,
        "",
    );
    assert_capture_in_moods(
        &rt,
        alloc,
        5,
        "busy plain busy plain busy plain busy plain",
        SAVED,
        "",
    );
}

/// An inventory of 114 bytes.
const SIX_PARTS: &str = "ipmi-image 2
fru 00 000102030405060708090a0b0c0d0e0f101112131415161718191a1b1c1d1e1f202122232425262728292a2b2c2d2e2f303132333435363738393a3b3c3d3e3f
fru 00 404142434445464748494a4b4c4d4e4f505152535455565758595a5b5c5d5e5f606162636465666768696a6b6c6d6e6f7071
end
";

// One call in 7 is busy. There are no records and no infos, which takes 6 calls. The size is busy, and comes with call 8. Five parts
// of 19 bytes come till call 13. The sixth part is busy, and comes with call 15.
#[test]
fn troubles_are_counted_for_each_part_of_an_inventory(rt: HostRuntime) {
    let alloc = rt.alloc();
    let moods = moods(
        &rt,
        alloc,
        6,
        "busy plain plain plain plain plain plain busy",
    );
    let mut ctl = Scripted::new(image(&rt, alloc, SIX_PARTS), moods);
    assert_capture(&rt, alloc, &mut ctl, 19, 1, SIX_PARTS, "");
    drop(ctl);
}

// The calls over `SAVED`: an info, a reservation, two records; an info, a reservation, the entry; the reading; the size and the bytes of
// both inventories.

#[test]
fn what_is_refused_leaves_the_image_whole(rt: HostRuntime) {
    let alloc = rt.alloc();
    assert_capture_in_moods(
        &rt,
        alloc,
        7,
        "refuse",
        WITHOUT_READING,
        "reading 0 30: refused with code C1h\n",
    );
    assert_capture_in_moods(
        &rt,
        alloc,
        8,
        "none none",
        WITHOUT_INVENTORY,
        "fru 00: size refused with code CCh\n",
    );
}

#[test]
fn an_inventory_that_breaks_off_is_missed(rt: HostRuntime) {
    let alloc = rt.alloc();
    let left = "fru 00: refused with code C1h\nnot whole\n";
    assert_capture_in_moods(&rt, alloc, 9, "refuse", WITHOUT_INVENTORY, left);
}

#[test]
fn an_inventory_that_is_cut_off_is_missed(rt: HostRuntime) {
    let alloc = rt.alloc();
    let left = "fru 00: cut off\nnot whole\n";
    assert_capture_in_moods(&rt, alloc, 9, "byte lose restore", WITHOUT_INVENTORY, left);
}

#[test]
fn an_inventory_that_is_gone_is_absent(rt: HostRuntime) {
    let alloc = rt.alloc();
    assert_capture_in_moods(&rt, alloc, 9, "byte lose", WITHOUT_INVENTORY, "");
    assert_capture_in_moods(
        &rt,
        alloc,
        9,
        "byte lose busy busy cancel",
        WITHOUT_INVENTORY,
        "",
    );
}

// After CBh the size is requested once more, and neither it nor CBh comes.
#[test]
fn an_inventory_that_may_be_there_is_missed(rt: HostRuntime) {
    let alloc = rt.alloc();
    let left = "fru 00: gave up\nnot whole\n";
    let moods = "byte lose busy busy busy busy";
    assert_capture_in_moods(&rt, alloc, 9, moods, WITHOUT_INVENTORY, left);
    let left = "fru 00: refused with code C1h\nnot whole\n";
    assert_capture_in_moods(&rt, alloc, 9, "byte lose refuse", WITHOUT_INVENTORY, left);
}

#[test]
fn what_is_given_up_is_missed(rt: HostRuntime) {
    let alloc = rt.alloc();
    assert_capture_in_moods(
        &rt,
        alloc,
        7,
        "busy busy busy busy",
        WITHOUT_READING,
        "reading 0 30: gave up\n",
    );
}

const ENTRY_REFUSED: &str = "ipmi-image 2
sdr 0001 0002 010051021b2000300000000000000000000000000000000000000000000000c0
sel 0001 - 01000201000020200004013001595f5a
fru 00 0100
reading 0 30 2dc00000
info sdr 510300000401000020ffffffff02
info sel 510100000201000000ffffffff00
end
";

// The request for the record, and the one for its header.
#[test]
fn after_a_record_that_is_refused_the_rest_comes(rt: HostRuntime) {
    let alloc = rt.alloc();
    let left = "sdr: record 0002h refused with code C1h\nnot whole\n";
    assert_capture_in_moods(&rt, alloc, 3, "refuse refuse", ENTRY_REFUSED, left);
    assert_capture_in_moods(&rt, alloc, 3, "refuse", SAVED, "");
}

#[test]
fn a_changed_controller_is_read_as_it_is(rt: HostRuntime) {
    assert_capture_in_moods(&rt, rt.alloc(), 3, "change", WITHOUT_READING, "");
}

// The records are those of `SAVED` as soon as the first info was read. So the machine's info, which has another time now, does not tell
// that it has the records of the image.
#[test]
fn an_info_is_not_newer_than_the_records(rt: HostRuntime) {
    let alloc = rt.alloc();
    let moods = moods(&rt, alloc, 1, "restore");
    let mut ctl = Scripted::new(image(&rt, alloc, EARLIER), moods);
    assert_capture(&rt, alloc, &mut ctl, 254, 3, EARLIER, "");
    assert!(&rt; WithRecords::of_current(image(&rt, alloc, EARLIER), ctl, 3).is_err());
}

const LOST: &str = "ipmi-image 2
sdr 0001 0007 010051c000
end
";

const TURNED: &str = "ipmi-image 2
sdr 0005 - 050051c000
sdr 0006 0005 060051c000
end
";

#[test]
fn a_chain_that_breaks_off_is_not_whole_and_one_that_turns_is(rt: HostRuntime) {
    let alloc = rt.alloc();
    assert_plain_capture(
        &rt,
        alloc,
        LOST,
        LOST,
        "sdr: record 0007h not present\nnot whole\n",
        // four times
        4,
    );
    assert_plain_capture(&rt, alloc, TURNED, TURNED, "sdr: cycle at 0005h\n", 2);
}

/// `WITHOUT_READING` without the info of the sensor data records.
const WITHOUT_INFO: &str = "ipmi-image 2
sdr 0001 - 010051021b2000300000000000000000000000000000000000000000000000c0
sdr 0002 - 020051110b20018000000000000000c0
sel 0001 - 01000201000020200004013001595f5a
fru 00 0100
fru 01 010203
info sel 510100000201000000ffffffff00
end
";

#[test]
fn a_shelf_is_begun_again_where_a_record_is_gone(rt: HostRuntime) {
    let alloc = rt.alloc();
    // an info, which is absent, a reservation, a record, a missing record, and a reservation
    let moods = moods(&rt, alloc, 4, "change");
    let mut ctl = Scripted::new(image(&rt, alloc, LOST), moods);
    let came = assert_capture(&rt, alloc, &mut ctl, 254, 3, WITHOUT_INFO, "");
    assert!(&rt; came.records == 4, "got {}", came.records);
    drop(ctl);
}

#[test]
fn the_shelf_that_is_given_up_is_missed(rt: HostRuntime) {
    let left = "sel: gave up at 0000h\nnot whole\n";
    assert_capture_in_moods(&rt, rt.alloc(), 5, "busy busy busy busy", WITHOUT_SEL, left);
}

/// `SAVED` without the event log.
const WITHOUT_SEL: &str = "ipmi-image 2
sdr 0001 - 010051021b2000300000000000000000000000000000000000000000000000c0
sdr 0002 - 020051110b20018000000000000000c0
fru 00 0100
fru 01 010203
reading 0 30 2dc00000
info sdr 510300000401000020ffffffff02
info sel 510100000201000000ffffffff00
end
";

/// Asserts the line of an item left out.
fn assert_line(rt: &impl Abort, alloc: Global, left: Left, wanted: &str) {
    let line = left.to_string(alloc).expect(rt, "memory");
    assert!(rt; line.as_str() == wanted, "got {line}");
}

#[test]
fn each_end_of_a_shelf_has_its_line(rt: HostRuntime) {
    let (alloc, code) = (rt.alloc(), Code(0xD4));
    let sdr = |ended| Left::Records(Shelf::Sdr, ended);
    assert_line(&rt, alloc, sdr(Ended::Cycle(0)), "sdr: cycle at 0000h");
    assert_line(
        &rt,
        alloc,
        sdr(Ended::Missing(0x00AB)),
        "sdr: record 00ABh not present",
    );
    assert_line(
        &rt,
        alloc,
        sdr(Ended::Refused(0x1F, code)),
        "sdr: record 001Fh refused with code D4h",
    );
    assert_line(
        &rt,
        alloc,
        sdr(Ended::GaveUp(0xFFFE)),
        "sdr: gave up at FFFEh",
    );
    assert_line(&rt, alloc, sdr(Ended::Stalled(2)), "sdr: stalled at 0002h");
    assert_line(
        &rt,
        alloc,
        sdr(Ended::Malformed(16)),
        "sdr: malformed record 0010h",
    );
}

#[test]
fn each_value_and_inventory_left_out_has_its_line(rt: HostRuntime) {
    let (alloc, code) = (rt.alloc(), Code(0xD4));
    let left = Left::Info(Shelf::Sel, Unread::Refused(Code(7)));
    assert_line(&rt, alloc, left, "info sel: refused with code 07h");
    let left = Left::Info(Shelf::Sdr, Unread::GaveUp);
    assert_line(&rt, alloc, left, "info sdr: gave up");
    let left = Left::Reading {
        lun: 3,
        number: 0x0A,
        unread: Unread::Refused(code),
    };
    assert_line(&rt, alloc, left, "reading 3 0a: refused with code D4h");
    assert_line(
        &rt,
        alloc,
        Left::Size(0xFE, code),
        "fru fe: size refused with code D4h",
    );
    assert_line(&rt, alloc, Left::Empty(0), "fru 00: empty");
    assert_line(&rt, alloc, Left::CutOff(10), "fru 0a: cut off");
    let fru = |ended| Left::Inventory(9, ended);
    assert_line(
        &rt,
        alloc,
        fru(FruEnded::Refused(code)),
        "fru 09: refused with code D4h",
    );
    assert_line(&rt, alloc, fru(FruEnded::GaveUp), "fru 09: gave up");
    assert_line(&rt, alloc, fru(FruEnded::Stalled), "fru 09: stalled");
    assert_line(&rt, alloc, fru(FruEnded::Words), "fru 09: uses words");
    assert_line(&rt, alloc, fru(FruEnded::Memory), "fru 09: out of memory");
}
