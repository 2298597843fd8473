//! Images of version 3, which note what a capture left out.
use super::calls::assert_answers;
use super::faults::image_of;
use super::rewritten::assert_text;
use crate::cases::parts;
use ipmi_bus::Shelf;
use ipmi_image::{ImageFault, Snapshot, SnapshotController, fault_cause, snapshot_text};
use std::alloc::Global;
use std::process::Abort;

/// An item of each kind is lacking, one of them with a code that no request ends with.
const LACKING: &str = "ipmi-image 3
lacks sdr 0003 d4
lacks sel 0000 c0
lacks info sdr c1
lacks reading 1 0a c3
lacks size 05 d4
lacks fru 07 ce
lacks fru 08 cb
sdr 0001 - 010051c001aa
sdr 0002 0003 020051c002bbcc
fru 08 0b0c
reading 0 0a 2dc0c000
end
";

/// `call|answer`.
const ANSWERS: &str = "part sdr 0 1 0 8|0002 06 010051c001aaeeee
part sdr 0 2 0 8|0003 07 020051c002bbccee
part sdr 0 3 0 8|code d4
part sel 0 0 0 10|code c0
part sel 0 3 0 10|code c0
part sdr 0 9 0 8|code d4
info sdr|code c1
info sel|code cb
reading 1 a|code cb
reading 0 a|2dc0c000
reading 1 b|code cb
fru_size 5|code d4
fru_part 5 0 8|code d4
fru_size 7|code ce
fru_size 8|0002 00
fru_part 8 0 8|02 0b0ceeeeeeeeeeee
fru_size 0|code d4
reserve sdr|0001";

fn snapshot(rt: &impl Abort, alloc: Global, text: &str) -> Snapshot {
    Snapshot::read(alloc, text.as_bytes()).expect(rt, text)
}

#[test]
fn a_request_for_a_lacking_item_ends_with_its_code(rt: HostRuntime) {
    let mut ctl = SnapshotController::new(snapshot(&rt, rt.alloc(), LACKING));
    assert_answers(&rt, &mut ctl, ANSWERS);
    drop(ctl);
}

/// Asserts the text of a snapshot.
fn assert_snapshot_text(rt: &impl Abort, alloc: Global, text: &str, wanted: &str) {
    let snapshot = snapshot(rt, alloc, text);
    let bytes = snapshot_text(alloc, &snapshot).expect(rt, "memory");
    drop(snapshot);
    assert_text(rt, &bytes, wanted, text);
}

/// `text|text of the snapshot`. A semicolon is a line feed.
const TEXTS: &str = "ipmi-image 3;end;|ipmi-image 2;end;
ipmi-image 1;fru 01 0A;end;|ipmi-image 2;fru 01 0a;end;
ipmi-image 3;lacks size FE CB;fru 01 0a;fru 01 0b;end;|ipmi-image 3;lacks size fe cb;fru 01 0a0b;end;
ipmi-image 3;lacks reading 3 fF 00;lacks info sel C0;end;|ipmi-image 3;lacks reading 3 ff 00;lacks info sel c0;end;";

#[test]
fn a_snapshot_is_written_in_one_spelling(rt: HostRuntime) {
    let alloc = rt.alloc();
    assert_snapshot_text(&rt, alloc, LACKING, LACKING);
    for case in TEXTS.lines() {
        let (text, wanted) = parts(&rt, case);
        let text = text.replace(alloc, ";", "\n").expect(&rt, "memory");
        let wanted = wanted.replace(alloc, ";", "\n").expect(&rt, "memory");
        assert_snapshot_text(&rt, alloc, text.as_str(), wanted.as_str());
    }
}

/// The fault of a text, if it has one.
fn fault_in(alloc: Global, text: &[u8]) -> Option<ImageFault> {
    Snapshot::read(alloc, text).err()
}

/// The fault of an image, or `read` if it has none.
fn verdict(rt: &impl Abort, alloc: Global, text: &str) -> String {
    match fault_in(alloc, &image_of(rt, alloc, text, "")) {
        Some(fault) => fault.to_string(alloc).expect(rt, "memory"),
        None => String::from_str(alloc, "read").expect(rt, "memory"),
    }
}

/// `image|fault`. A semicolon is a line feed.
const FAULTS: &str = "ipmi-image 3;|no end
ipmi-image 3|header
ipmi-image 4;end;|header
ipmi-image 3;end;|read
ipmi-image 3;lacks sdr 0001 d4;end;|read
ipmi-image 3;lacks sdr 0001 d4|no end
ipmi-image 3;lacks sdr 0001 d4;|no end
ipmi-image 3;lacks sdr 001 d4;end;|line 2: not a line
ipmi-image 3;lacks sdr 0001;end;|line 2: not a line
ipmi-image 3;lacks sdr 0001 d4 00;end;|line 2: not a line
ipmi-image 3;lacks sdr 0001 dg;end;|line 2: not a line
ipmi-image 3;lacks sdr 0001 4;end;|line 2: not a line
ipmi-image 3;lacks fru 5 d4;end;|line 2: not a line
ipmi-image 3;lacks size 005 d4;end;|line 2: not a line
ipmi-image 3;lacks info fru d4;end;|line 2: not a line
ipmi-image 3;lacks info sel d4;end;|read
ipmi-image 3;lacks reading 0 0a d4;end;|read
ipmi-image 3;lacks reading 00 0a d4;end;|line 2: not a line
ipmi-image 3;lacks reading 0 d4;end;|line 2: not a line
ipmi-image 3;lacks SDR 0001 d4;end;|line 2: not a line
ipmi-image 3;lacks;end;|line 2: not a line
ipmi-image 3; lacks fru 05 d4;end;|line 2: not a line
ipmi-image 3;lacks fru 05 d4;lacks fru 6 d4;end;|line 3: not a line
ipmi-image 3;lacks fru 05 d4;sdr 0001 - 010051c001;end;|line 3: length
ipmi-image 3;lacks fru 05 d4;lacks fru 06 d4;reading 4 00 00000000;end;|line 4: id
ipmi-image 3;lacks fru 05 d4;end;end;|line 4: after end
ipmi-image 3;sdr 0001 - 010051c000;lacks fru 05 d4;end;|line 3: not a line
ipmi-image 2;lacks fru 05 d4;end;|line 2: not a line
ipmi-image 2;sdr 0001 - 010051c001;end;|line 2: length
ipmi-image 1;sdr 0001 - 010051c000;end;|line 2: not a line";

#[test]
fn the_first_faulty_line_is_the_fault(rt: HostRuntime) {
    for case in FAULTS.lines() {
        let (text, wanted) = parts(&rt, case);
        let got = verdict(&rt, rt.alloc(), text);
        assert!(&rt; got.as_str() == wanted, "{case}: got {got}");
    }
}

/// `image|cause`. A semicolon is a line feed.
const CAUSES: &str = "ipmi-image 3;lacks sdr 001 d4;end;|Line(Lack)
ipmi-image 3;sdr 0001 - 010051c000;lacks fru 05 d4;end;|Line(Lack)
ipmi-image 3;lacks fru 05 d4;sdr 0001 - 010051c001;end;|Rule(SdrLen)
ipmi-image 3;lacks fru 05 d4;sdr 0001 010051c001;end;|Line(RowFields)
ipmi-image 3;lacks fru 05 d4;end|Rule(CutEnd)
ipmi-image 4;end;|Beginning(Header)
ipmi-image 2;lacks fru 05 d4;end;|Line(FirstWord)";

#[test]
fn a_fault_has_a_cause(rt: HostRuntime) {
    let alloc = rt.alloc();
    for case in CAUSES.lines() {
        let (text, wanted) = parts(&rt, case);
        let image = image_of(&rt, alloc, text, "");
        let fault = fault_in(alloc, &image).expect(&rt, case);
        let cause = fault_cause(alloc, &image, fault)
            .expect(&rt, "memory")
            .expect(&rt, case);
        let got = format!(in alloc; "{cause:?}").expect(&rt, "memory");
        assert!(&rt; got.as_str() == wanted, "{case}: got {got}");
    }
}

/// `lines after the first|is the image partial, has it all sensor data records, has it all events`. A semicolon is a line feed.
const LACKS: &str = ";|no yes yes
lacks info sdr d4;lacks info sel d4;lacks reading 0 00 c0;lacks size 00 d4;|no yes yes
lacks sdr 0001 d4;|yes no yes
lacks sel 0001 d4;|yes yes no
lacks size 00 d4;lacks fru 00 ce;|yes yes yes";

fn yes_or_no(is: bool) -> &'static str {
    if is { "yes" } else { "no" }
}

#[test]
fn an_image_is_partial_if_a_record_or_an_inventory_is_lacking(rt: HostRuntime) {
    let alloc = rt.alloc();
    for case in LACKS.lines() {
        let (lines, wanted) = parts(&rt, case);
        let lines = lines.trim_start_matches(';');
        let text = format!(in alloc; "ipmi-image 3;{lines}end;").expect(&rt, "memory");
        let image = image_of(&rt, alloc, text.as_str(), "");
        let partial = Snapshot::read(alloc, &image).expect(&rt, case).is_partial();
        let sdr = Snapshot::read(alloc, &image).expect(&rt, case);
        let sel = Snapshot::read(alloc, &image).expect(&rt, case);
        let words = [
            yes_or_no(partial),
            yes_or_no(sdr.with_records(Shelf::Sdr).is_some()),
            yes_or_no(sel.with_records(Shelf::Sel).is_some()),
        ];
        let got = words.join(alloc, " ").expect(&rt, "memory");
        assert!(&rt; got.as_str() == wanted, "{case}: got {got}");
    }
}
