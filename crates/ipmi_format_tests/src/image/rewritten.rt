//! Images in the one spelling of version 2, and the lines of single records.
ghost use Rattle.std.specs.Prelude.{◌≤◌, length};

use super::images::{REWRITTEN, SAVED, image};
use ipmi_bus::Record;
use ipmi_fixtures::THREE_ROWS;
use ipmi_image::{LineBuffer, image_text, record_line};
use std::alloc::Global;
use std::process::Abort;

/// Asserts that bytes are this text. A failure names the case.
pub fn assert_text(rt: &impl Abort, bytes: &[u8], wanted: &str, case: &str) {
    let got = std::str::from_utf8(bytes).expect(rt, case);
    assert!(rt; got == wanted, "{case}: got {got}");
}

/// The text as which the image of a text is rewritten.
fn written_again(rt: &impl Abort, alloc: Global, text: &str) -> Vec<u8> {
    let image = image(rt, alloc, text);
    let bytes = image_text(alloc, &image).expect(rt, "memory");
    drop(image);
    bytes
}

/// Asserts the text as which the image of `text` is rewritten.
pub fn assert_image_text(rt: &impl Abort, alloc: Global, text: &str, wanted: &str) {
    assert_text(rt, &written_again(rt, alloc, text), wanted, text);
}

/// The same, and that this text is rewritten as itself.
fn assert_rewrite(rt: &impl Abort, alloc: Global, text: &str, wanted: &str) {
    assert_image_text(rt, alloc, text, wanted);
    assert_image_text(rt, alloc, wanted, wanted);
}

const THREE_ROWS_REWRITTEN: &str = "ipmi-image 2
sdr 0001 - 010051c001aa
sdr 0002 - 020051c002bbcc
sdr 0003 - 030051c000
end
";

#[test]
fn next_ids_are_dashes_where_the_rows_follow_each_other(rt: HostRuntime) {
    assert_rewrite(&rt, rt.alloc(), THREE_ROWS, THREE_ROWS_REWRITTEN);
}

const CYCLE: &str = "ipmi-image 1
sdr 0007 0009 070051c000
sdr 0009 0007 090051c000
end
";

const CYCLE_REWRITTEN: &str = "ipmi-image 2
sdr 0007 - 070051c000
sdr 0009 0007 090051c000
end
";

const FALLING: &str = "ipmi-image 2
sdr 0005 0001 050051c000
sdr 0001 ffff 010051c000
end
";

const FALLING_REWRITTEN: &str = "ipmi-image 2
sdr 0005 - 050051c000
sdr 0001 - 010051c000
end
";

const BACKWARD: &str = "ipmi-image 2
sdr 0005 ffff 050051c000
sdr 0001 0005 010051c000
end
";

#[test]
fn rows_keep_their_order(rt: HostRuntime) {
    assert_rewrite(&rt, rt.alloc(), CYCLE, CYCLE_REWRITTEN);
    assert_rewrite(&rt, rt.alloc(), FALLING, FALLING_REWRITTEN);
    assert_rewrite(&rt, rt.alloc(), BACKWARD, BACKWARD);
}

const MIXED: &str = "ipmi-image 1
info sel 510100000201000000FFFFFFFF00
reading 3 EF 2DC00000
reading 0 01 00000000
fru 0A 0B
fru 00 FF
fru 0a 0c
sel ABCD ABCD CDAB0201000020200004013001595F5A
end
";

const MIXED_REWRITTEN: &str = "ipmi-image 2
sel abcd abcd cdab0201000020200004013001595f5a
fru 0a 0b0c
fru 00 ff
reading 3 ef 2dc00000
reading 0 01 00000000
info sel 510100000201000000ffffffff00
end
";

// The lines are ordered by kind, and the lines of an inventory are joined.
#[test]
fn lines_are_ordered_by_their_kind(rt: HostRuntime) {
    assert_rewrite(&rt, rt.alloc(), SAVED, REWRITTEN);
    assert_rewrite(&rt, rt.alloc(), MIXED, MIXED_REWRITTEN);
    assert_rewrite(
        &rt,
        rt.alloc(),
        "ipmi-image 1\nend\n",
        "ipmi-image 2\nend\n",
    );
}

/// An image whose first line is 64 bytes of an inventory, and then this text.
fn with_64_bytes(rt: &impl Abort, alloc: Global, after: &str) -> String {
    let bytes = "a5".repeat(alloc, 64).expect(rt, "memory");
    format!(in alloc; "ipmi-image 2\nfru 00 {bytes}{after}").expect(rt, "memory")
}

// 64 bytes fit on a line. The 65th byte is on a second line.
#[test]
fn a_line_has_64_bytes_of_an_inventory_at_most(rt: HostRuntime) {
    let one_line = with_64_bytes(&rt, rt.alloc(), "\nend\n");
    assert_rewrite(&rt, rt.alloc(), &one_line, &one_line);
    let two_lines = with_64_bytes(&rt, rt.alloc(), "\nfru 00 3c\nend\n");
    assert_rewrite(&rt, rt.alloc(), &two_lines, &two_lines);
    let long_line = with_64_bytes(&rt, rt.alloc(), "3c\nend\n");
    assert_rewrite(&rt, rt.alloc(), &long_line, &two_lines);
}

const INFOS: &str = "ipmi-image 1
info sel 510100000201000000ffffffff00
info sdr 510300000401000020ffffffff02
sel 0000 ffff 00000201000020200004013001595f5a
sdr 0001 0001 010051c000
sdr 0002 0000 020051c000
end
";

const INFOS_REWRITTEN: &str = "ipmi-image 2
sdr 0001 0001 010051c000
sdr 0002 0000 020051c000
sel 0000 - 00000201000020200004013001595f5a
info sdr 510300000401000020ffffffff02
info sel 510100000201000000ffffffff00
end
";

#[test]
fn the_shelves_are_in_one_order(rt: HostRuntime) {
    assert_rewrite(&rt, rt.alloc(), INFOS, INFOS_REWRITTEN);
}

/// Asserts the line of a record.
fn assert_record_line(rt: &impl Abort, line: &mut LineBuffer, lent: &Record<'_>, wanted: &str)
    requires { length lent.now.bytes.now ≤ 256 }
{
    record_line(lent, line);
    assert_text(rt, line.as_slice(), wanted, wanted);
}

// All lines use one buffer. The next id is never a dash, and nothing remains of the previous line.
#[test]
fn a_single_record_has_a_line(rt: HostRuntime) {
    let mut line = LineBuffer::new();
    let first = Record {
        id: 0x000A,
        next: 0xABCD,
        bytes: &[0x0A, 0x00, 0x51, 0xC0, 0x02, 0xBB, 0xCC],
    };
    assert_record_line(&rt, &mut line, &first, "sdr 000a abcd 0a0051c002bbcc\n");
    let last = Record {
        id: 0xABCD,
        next: 0xFFFF,
        bytes: &[0xCD, 0xAB, 0x51, 0xC0, 0x00],
    };
    assert_record_line(&rt, &mut line, &last, "sdr abcd ffff cdab51c000\n");
}
