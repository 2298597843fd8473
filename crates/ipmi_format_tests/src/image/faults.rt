//! Images with and without a fault.
use super::images::fault_of;
use crate::cases::parts;
use std::alloc::Global;
use std::process::Abort;

/// Appends the text to an image. A semicolon is a line feed, and a tilde is FFh, a byte that UTF-8 never has.
fn push_lines(rt: &impl Abort, image: &mut Vec<u8>, text: &str) {
    for byte in text.bytes() {
        let byte = match byte {
            b';' => b'\n',
            b'~' => 0xFF,
            _ => byte,
        };
        image.push(byte).expect(rt, "memory");
    }
}

/// The image of two texts, one after the other.
pub fn image_of(rt: &impl Abort, alloc: Global, first: &str, second: &str) -> Vec<u8> {
    let mut image = Vec::new(alloc);
    push_lines(rt, &mut image, first);
    push_lines(rt, &mut image, second);
    image
}

/// The fault of an image, or `read` if it has none.
fn verdict(rt: &impl Abort, alloc: Global, first: &str, second: &str) -> String {
    match fault_of(alloc, &image_of(rt, alloc, first, second)) {
        Some(fault) => fault.to_string(alloc).expect(rt, "memory"),
        None => String::from_str(alloc, "read").expect(rt, "memory"),
    }
}

/// Asserts the fault of an image: the lines before, and those of the case.
fn assert_verdict(rt: &impl Abort, alloc: Global, before: &str, case: &str) {
    let (lines, wanted) = parts(rt, case);
    let got = verdict(rt, alloc, before, lines);
    assert!(rt; got.as_str() == wanted, "{case}: got {got}");
}

/// The same for each case.
pub fn assert_verdicts(rt: &impl Abort, alloc: Global, before: &str, cases: &str) {
    for case in cases.lines() {
        assert_verdict(rt, alloc, before, case);
    }
}

/// `image|fault`. A semicolon is a line feed.
const FIRST_LINES: &str = "|header
ipmi-image 1|header
ipmi-image 3;end;|header
ipmi-image 1\r;end;|header
ipmi-image 1 ;end;|header
ipmi-image  1;end;|header
Ipmi-image 1;end;|header
;ipmi-image 1;end;|header
ipmi-image 1;|no end
ipmi-image 1;end;|read
ipmi-image 2;end;|read";

#[test]
fn the_first_line_is_the_version(rt: HostRuntime) {
    assert_verdicts(&rt, rt.alloc(), "", FIRST_LINES);
}

/// `records up to the end of the image|fault`.
const ROWS: &str = "sdr 0001 ffff;end;|line 2: not a line
sdr 0001 ffff 010051c00;end;|line 2: hex
sdr 0001 0000 010051c000;sdr 0000 ffff 000051c000;end;|line 3: id
sdr ffff ffff ffff51c000;end;|line 2: id
sel 0001 ffff 0100;end;|line 2: length
sel 0001 ffff 01000201000020200004013001595f5a00;end;|line 2: length
sdr 0001 ffff 010051c001;end;|line 2: length
sdr 0001 ffff 010051c000aa;end;|line 2: length
sdr 0001 ffff 01005100;end;|line 2: length
sdr 0002 ffff 010051c000;end;|line 2: first id
sdr 0100 ffff 010051c000;end;|line 2: first id
sel 0002 ffff 01000201000020200004013001595f5a;end;|line 2: first id
sdr 0001 ffff 010051c000;sdr 0001 ffff 010051c000;end;|line 3: twice
sdr 0001 - 010051c000;end;|line 2: not a line
sel 0001 0000 01000201000020200004013001595f5a;sel 0000 ffff 00000201000020200004013001595f5a;end;|line 3: id
sel 0001 ffff 01000201000020200004013001595f5a;sel 0001 ffff 01000201000020200004013001595f5a;end;|line 3: twice
sdr 0001 ffff ;end;|line 2: not a line";

#[test]
fn a_fault_of_a_record_names_its_line(rt: HostRuntime) {
    assert_verdicts(&rt, rt.alloc(), "ipmi-image 1;", ROWS);
}

/// `inventories, readings and infos up to the end of the image|fault`.
const OTHERS: &str = "reading 4 01 2dc00000;end;|line 2: id
reading 0 01 2dc000;end;|line 2: length
reading 0 01 2dc0000000;end;|line 2: length
fru ff 00;end;|line 2: id
reading 0 01 2dc00000;reading 0 01 2dc00000;end;|line 3: twice
info sel 510300000401000020ffffffff02;info sel 510300000401000020ffffffff02;end;|line 3: twice
info sdr 510300000401000020ffffffff02;info sdr 510300000401000020ffffffff02;end;|line 3: twice
info sdr 00;end;|line 2: length
info sdr 510300000401000020ffffffff0200;end;|line 2: length
info fru 00;end;|line 2: not a line";

#[test]
fn a_fault_of_another_line_names_its_line(rt: HostRuntime) {
    assert_verdicts(&rt, rt.alloc(), "ipmi-image 1;", OTHERS);
}

/// `lines after the first|fault`, of images that end well or not.
const ENDS: &str = "frob|no end
end;x|line 3: after end
end ;|line 2: not a line
;end;|line 2: not a line
fru 00 00|no end
fru 00 00;|no end
end;;|line 3: after end
end;fru 00 00;end;|line 3: after end";

#[test]
fn the_line_end_is_the_last_one(rt: HostRuntime) {
    assert_verdicts(&rt, rt.alloc(), "ipmi-image 1;", ENDS);
}

/// `lines after the first|fault`, with a character too many, too few or another.
const SPELLINGS: &str = "sdr  0001 ffff 010051c000;end;|line 2: not a line
sdr 0001 ffff 010051c000 ;end;|line 2: not a line
 sdr 0001 ffff 010051c000;end;|line 2: not a line
sdr 0001\tffff 010051c000;end;|line 2: not a line
sdr 0001 ffff 010051c000\r;end;|line 2: hex
sdr 0001 ffff 0x0051c000;end;|line 2: hex
SDR 0001 ffff 010051c000;end;|line 2: not a line
sdr;end;|line 2: not a line
sdr 001 ffff 010051c000;end;|line 2: not a line
sdr 0001 0ffff 010051c000;end;|line 2: not a line
fru 0 00;end;|line 2: not a line
fru 00 00 00;end;|line 2: not a line
fru 00 ;end;|line 2: not a line
reading 00 01 2dc00000;end;|line 2: not a line
reading 0 1 2dc00000;end;|line 2: not a line
reading 0 01;end;|line 2: not a line
info sdr;end;|line 2: not a line
frob;end;|line 2: not a line
end x;|line 2: not a line
end\r;|line 2: not a line
End;|line 2: not a line";

// Single spaces separate fields. Words are case-sensitive. A carriage return is an ordinary character.
#[test]
fn a_line_is_taken_to_the_letter(rt: HostRuntime) {
    assert_verdicts(&rt, rt.alloc(), "ipmi-image 1;", SPELLINGS);
}

/// `lines after the first|fault`, with a letter of two bytes or more.
const TWO_BYTES: &str = "sdr 00é ffff 010051c000;end;|line 2: hex
sdr 000é ffff 010051c000;end;|line 2: not a line
sdr 0001 é00 010051c000;end;|line 2: hex
sdr 0001 ffff 010051c0é;end;|line 2: hex
fru é 00;end;|line 2: hex
reading é 01 2dc00000;end;|line 2: not a line
reading 0 é 2dc00000;end;|line 2: hex
sdré 0001 ffff 010051c000;end;|line 2: not a line
ende\u{301};|line 2: not a line
end\u{a0};|line 2: not a line";

// A letter of two bytes counts as two characters. Neither is a hex digit.
#[test]
fn each_byte_is_a_character(rt: HostRuntime) {
    assert_verdicts(&rt, rt.alloc(), "ipmi-image 1;", TWO_BYTES);
}

/// `image|fault`, with bytes at the start or in the first line that are not UTF-8. A tilde is FFh.
const NO_TEXT_FIRST: &str = "~|header
~;end;|header
~ipmi-image 1;end;|header
ipmi-image ~;end;|header
ipmi-image 1~;end;|header";

/// `lines after the first|fault`, with bytes that are not UTF-8.
const NO_TEXT: &str = "~|no end
fru 00 00;~|no end
~;end;|line 2: not a line
sdr~ 0001 ffff 010051c000;end;|line 2: not a line
sdr 0001~ffff 010051c000;end;|line 2: not a line
sdr 00~ ffff 010051c000;end;|line 2: not a line
sdr 00~~ ffff 010051c000;end;|line 2: hex
sdr 0001 ~~~~ 010051c000;end;|line 2: hex
sdr 0001 ffff 0100~~c000;end;|line 2: hex
sel 0001 ffff ~;end;|line 2: hex
fru ~~ 00;end;|line 2: hex
fru 00 00;fru 00 ~~;end;|line 3: hex
reading ~ 01 2dc00000;end;|line 2: hex
reading 0 ~~ 2dc00000;end;|line 2: hex
info ~~~ 510300000401000020ffffffff02;end;|line 2: not a line
info sdr ~~;end;|line 2: hex
end~;|line 2: not a line
end;~|line 3: after end
end;~;|line 3: after end";

// An image may have bytes that are not UTF-8. They are neither digits nor separators nor words.
#[test]
fn bytes_that_are_no_utf8_have_a_fault(rt: HostRuntime) {
    assert_verdicts(&rt, rt.alloc(), "", NO_TEXT_FIRST);
    assert_verdicts(&rt, rt.alloc(), "ipmi-image 1;", NO_TEXT);
}

/// `lines after the first|fault`, with several faults.
const SEVERAL: &str = "sdr 000g fff 010;end;|line 2: not a line
info fru 0;end;|line 2: not a line
sdr ffff ffff 01g0;end;|line 2: hex
fru ff 0;end;|line 2: hex
reading 4 01 2d;end;|line 2: id
sdr 0000 ffff 000051c000;sdr 0000 ffff 00;end;|line 3: id
sdr 0001 ffff 010051c000;sdr 0001 ffff 01;end;|line 3: twice
reading 0 01 2dc00000;reading 0 01 2d;end;|line 3: twice
sdr 0002 ffff 0100;end;|line 2: length
sel 0001 ffff 01;frob;|line 2: length";

#[test]
fn the_first_fault_decides(rt: HostRuntime) {
    assert_verdicts(&rt, rt.alloc(), "ipmi-image 1;", SEVERAL);
}

/// `lines after the first|fault`, without a fault.
const CLEAN: &str = "sdr 0000 0000 000051c000;end;|read
sdr 0001 0000 010051c000;sdr 0002 0001 ffff51c000;end;|read
sdr 0001 ffff 010051c000;sel 0001 ffff 01000201000020200004013001595f5a;end;|read
reading 0 01 2dc00000;reading 1 01 2dc00000;reading 0 02 2dc00000;end;|read
reading 3 ff 2dc00000;end;|read
fru fe 00;end;|read
info sdr 510300000401000020ffffffff02;info sel 510300000401000020ffffffff02;end;|read";

// Two lines of different kinds may have the same id.
#[test]
fn a_line_of_another_kind_or_shelf_is_no_fault(rt: HostRuntime) {
    assert_verdicts(&rt, rt.alloc(), "ipmi-image 1;", CLEAN);
}

/// `lines after the first|fault`, with digits of both cases.
const EITHER_CASE: &str = "sdr 00AB ffff AB0051C000;sdr 00ab ffff ab0051c000;end;|line 3: twice
reading 0 0A 2dc00000;reading 0 0a 2dc00000;end;|line 3: twice
fru FF 00;end;|line 2: id";

#[test]
fn an_id_is_the_same_in_either_case(rt: HostRuntime) {
    assert_verdicts(&rt, rt.alloc(), "ipmi-image 1;", EITHER_CASE);
}

/// `image of version 2|fault`.
const DASHES: &str = "ipmi-image 2;sdr - ffff 010051c000;end;|line 2: not a line
ipmi-image 2;sdr 0001 -- 010051c000;end;|line 2: not a line
ipmi-image 2;sdr 0001 - -;end;|line 2: hex";

#[test]
fn a_dash_is_for_a_next_id(rt: HostRuntime) {
    assert_verdicts(&rt, rt.alloc(), "", DASHES);
}
