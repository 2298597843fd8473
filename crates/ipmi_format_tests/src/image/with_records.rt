//! A controller whose sensor data records come from an image.
use super::calls::assert_answers;
use super::images::{OTHER, SAVED, image, over};
use ipmi_image::WithRecords;
use std::alloc::Global;
use std::process::Abort;

/// Records of another image, with the number of records and the times of the info of `OTHER`. The free space differs.
const RECORDS: &str = "ipmi-image 1
sdr 0001 0002 010051c001aa
sdr 0002 ffff 020051c002bbcc
info sdr 510100990501000020ffffffff02
end
";

/// `call|answer`. The records are those of `RECORDS`, all else is that of `OTHER`.
const ANSWERS: &str = "reserve sdr|0001
part sdr 0 1 0 8|0002 06 010051c001aaeeee
part sdr 1 2 2 8|ffff 05 51c002bbcceeeeee
part sdr 1 3 0 8|code cb
part sdr 7 1 2 1|code c9
part sdr 1 1 6 1|code c9
info sdr|510100000501000020ffffffff02
reserve sel|0001
part sel 1 0 0 8|code cb
reading 0 1|2ec00001
fru_size 0|0002 00
fru_part 0 0 8|02 0a0beeeeeeeeeeee";

// A reservation that is not the last one is refused, as are bytes past the end.
#[test]
fn records_are_the_images_and_all_else_is_the_machines(rt: HostRuntime) {
    let alloc = rt.alloc();
    let records = image(&rt, alloc, RECORDS);
    let mut ctl = WithRecords::of_current(records, over(&rt, alloc, OTHER), 0)
        .ok()
        .expect(&rt, "records");
    assert_answers(&rt, &mut ctl, ANSWERS);
    drop(ctl);
}

/// Asserts that the records of the image are not taken for those of `OTHER`.
fn assert_is_refused(rt: &impl Abort, alloc: Global, text: &str) {
    let machine = WithRecords::of_current(image(rt, alloc, text), over(rt, alloc, OTHER), 0);
    assert!(rt; machine.is_err(), "{text}");
    drop(machine);
}

/// Infos of an image that are not that of `OTHER`: another number of records, another time of the last addition, and of the last erasure.
const INFOS: &str = "510200000501000020ffffffff02
510100000502000020ffffffff02
510100000501000020ffffff7f02";

#[test]
fn records_with_another_info_are_not_used(rt: HostRuntime) {
    let alloc = rt.alloc();
    assert_is_refused(&rt, alloc, SAVED);
    assert_is_refused(&rt, alloc, "ipmi-image 1\nend\n");
    for info in INFOS.lines() {
        let text = format!(in alloc; "ipmi-image 1\ninfo sdr {info}\nend\n").expect(&rt, "memory");
        assert_is_refused(&rt, alloc, text.as_str());
    }
}
