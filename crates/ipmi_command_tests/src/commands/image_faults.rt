//! Images with a fault: too long, cut short, or with an invalid line. Each fault has a message.
use super::answers::{assert_answer, assert_answers};
use super::saved::{THREE_LINES, THREE_ROWS};
use crate::command_line::lines::command;
use std::alloc::Global;
use std::process::Abort;

const FAULTS: &str = "--
3
image: header
--
====
ipmi-image 1
--
3
image: no end
--
====
ipmi-image 1
sdr 0001 0002 010051c001aa
sdr 0002 0003 020051c002bbcc
sdr 0003 ffff 030051c000
--
3
image: no end
--
====
ipmi-image 1
sdr 0001 ffff
end
--
3
image line 2: not a line
--
====
ipmi-image 1
sdr 0001 ffff 010051c00
end
--
3
image line 2: hex
--
====
ipmi-image 1
sdr 0001 0000 010051c000
sdr 0000 ffff 000051c000
end
--
3
image line 3: id
--
====
ipmi-image 1
reading 4 01 2dc00000
end
--
3
image line 2: id
--
====
ipmi-image 1
fru ff 00
end
--
3
image line 2: id
--
====
ipmi-image 1
sdr 0001 0002 010051c001aa
sdr 0002 0003 020051c002bbcc
sdr 0002 0003 020051c002bbcc
sdr 0003 ffff 030051c000
end
--
3
image line 4: twice
--
====
ipmi-image 1
sel 0001 ffff 0100
end
--
3
image line 2: length
--
====
ipmi-image 1
sdr 0002 ffff 010051c000
end
--
3
image line 2: first id
--
====
ipmi-image 1
sdr 0001 0002 010051c001aa
sdr 0002 0003 020051c002bbcc
sdr 0003 ffff 030051c000
end

--
3
image line 6: after end
--
";

// An image or more for each fault that a short image can have.
#[test]
fn each_fault_has_a_message(rt: HostRuntime) {
    assert_answers(&rt, rt.alloc(), "sdr hex", FAULTS);
}

/// An image of a text with zero bytes inside.
fn padded(rt: &impl Abort, alloc: Global, before: &str, zeros: usize, after: &str) -> String {
    let zeros = "00".repeat(alloc, zeros).expect(rt, "memory");
    format!(in alloc; "{before}{zeros}{after}").expect(rt, "memory")
}

/// Asserts the answer to `sdr hex` over an image.
fn assert_listing(rt: &impl Abort, alloc: Global, image: &[u8], wanted: &str, case: &str) {
    let line = Ok(command(rt, alloc, "sdr hex"));
    assert_answer(rt, alloc, line, image, wanted, case);
}

// A record of 257 bytes, and an inventory of 65,536.
#[test]
fn long_images_have_messages_too(rt: HostRuntime) {
    let start = "ipmi-image 1\nsdr 0001 ffff 010051c0fc";
    let record = padded(&rt, rt.alloc(), start, 252, "\nend\n");
    let wanted = "3\nimage line 2: length\n--\n";
    assert_listing(&rt, rt.alloc(), record.as_bytes(), wanted, "record");
    let end = "\nfru 00 00\nend\n";
    let inventory = padded(&rt, rt.alloc(), "ipmi-image 1\nfru 00 ", 65_535, end);
    let wanted = "3\nimage line 3: too many bytes\n--\n";
    assert_listing(&rt, rt.alloc(), inventory.as_bytes(), wanted, "inventory");
}

/// The same over the first bytes of the three records.
fn assert_listing_of_cut(rt: &impl Abort, alloc: Global, len: usize, wanted: &str) {
    let image = THREE_ROWS.get(..len).expect(rt, "a part");
    assert_listing(rt, alloc, image.as_bytes(), wanted, image);
}

#[test]
fn an_image_cut_short_is_not_listed(rt: HostRuntime) {
    let len = THREE_ROWS.len();
    assert!(rt; len == 98, "{len} bytes");
    for len in 0..13 {
        assert_listing_of_cut(&rt, rt.alloc(), len, "3\nimage: header\n--\n");
    }
    for len in 13..98 {
        assert_listing_of_cut(&rt, rt.alloc(), len, "3\nimage: no end\n--\n");
    }
    let whole = format!(in rt.alloc(); "0\n--\n{THREE_LINES}").expect(&rt, "memory");
    assert_listing_of_cut(&rt, rt.alloc(), 98, whole.as_str());
}
