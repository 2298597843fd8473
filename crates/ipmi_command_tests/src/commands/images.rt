//! Images that are listed in hex, or written again.
use super::answers::assert_answers;
use super::over_images::image_of;
use crate::writers::{Limited, assert_written_text};
use ipmi_commands::{Summary, write_image};
use ipmi_output::{Failure, Written};
use std::alloc::Global;
use std::process::Abort;

const ENDS: &str = "ipmi-image 1
sdr 0001 0002 010051c001aa
sdr 0002 0003 020051c002bbcc
sdr 0003 ffff 030051c000
end
--
0
--
sdr 0001 0002 010051c001aa
sdr 0002 0003 020051c002bbcc
sdr 0003 ffff 030051c000
====
ipmi-image 1
end
--
0
--
====
ipmi-image 2
end
--
0
--
====
ipmi-image 1
sdr 0001 0009 010051c000
end
--
1
record 0009h not present
--
sdr 0001 0009 010051c000
====
ipmi-image 1
sdr 0007 0009 070051c000
sdr 0009 0007 090051c000
end
--
1
cycle at 0007h
--
sdr 0007 0009 070051c000
sdr 0009 0007 090051c000
====
ipmi-image 1
sdr 0001 0000 010051c000
end
--
1
cycle at 0000h
--
sdr 0001 0000 010051c000
";

#[test]
fn images_are_listed_to_their_end(rt: HostRuntime) {
    assert_answers(&rt, rt.alloc(), "sdr hex", ENDS);
}

const DASHES: &str = "ipmi-image 2
sdr 0001 - 010051c000
sdr 0003 - 030051c000
end
--
0
--
sdr 0001 0003 010051c000
sdr 0003 ffff 030051c000
====
ipmi-image 1
sdr 0001 - 010051c000
sdr 0003 - 030051c000
end
--
3
image line 2: not a line
--
";

// A dash is the id of the next row, and ffff in the last row.
#[test]
fn dashes_are_for_version_2(rt: HostRuntime) {
    assert_answers(&rt, rt.alloc(), "sdr hex", DASHES);
}

const WRITTEN_AGAIN: &str = "ipmi-image 1
sdr 0001 0002 010051c001aa
sdr 0002 0003 020051c002bbcc
sdr 0003 ffff 030051c000
end
--
0
--
ipmi-image 2
sdr 0001 - 010051c001aa
sdr 0002 - 020051c002bbcc
sdr 0003 - 030051c000
end
====
ipmi-image 2
sdr 0001 - 010051c001aa
sdr 0002 - 020051c002bbcc
sdr 0003 - 030051c000
end
--
0
--
ipmi-image 2
sdr 0001 - 010051c001aa
sdr 0002 - 020051c002bbcc
sdr 0003 - 030051c000
end
====
ipmi-image 1
end
--
0
--
ipmi-image 2
end
====
ipmi-image 1
sdr 0007 0009 070051c000
sdr 0009 0007 090051c000
end
--
0
--
ipmi-image 2
sdr 0007 - 070051c000
sdr 0009 0007 090051c000
end
====
ipmi-image 3
end
--
3
image: header
--
";

// A dash means the next row's id, and in the last row none.
#[test]
fn images_are_written_again(rt: HostRuntime) {
    assert_answers(&rt, rt.alloc(), "image rewrite", WRITTEN_AGAIN);
}

const MIXED: &str = "ipmi-image 1
reading 0 01 2DC0C000
fru 00 0100
sdr 0001 ffff 010051c000
fru 00 0001
end
";

const REWRITTEN: &str = "ipmi-image 2
sdr 0001 - 010051c000
fru 00 01000001
reading 0 01 2dc0c000
end
";

/// What was taken of an image, whether its writing ended well or by a write fault, and what was counted.
#[derive(Drop)]
struct Rewritten {
    text: Vec<u8>,
    is_whole: bool,
    is_fault: bool,
    counts: (u64, u64),
}

/// Writes the image to this writer.
fn rewritten_in(rt: &impl Abort, alloc: Global, writer: Limited) -> Rewritten {
    let image = image_of(rt, alloc, MIXED);
    let mut out = Written::new(writer);
    let mut summary = Summary::new();
    let ending = write_image(alloc, &image, &mut out, &mut summary);
    drop(image);
    Rewritten {
        text: out.into_inner().got,
        is_whole: ending.is_ok(),
        is_fault: matches!(ending, Err(Failure::WriteFault)),
        counts: (summary.pieces(), summary.faults()),
    }
}

// The whole text is one item, whether it is taken at once or in parts.
#[test]
fn an_image_is_one_item(rt: HostRuntime) {
    for most in [1, 7, 77] {
        let rewritten = rewritten_in(&rt, rt.alloc(), Limited::slow(rt.alloc(), most));
        assert_written_text(&rt, &rewritten.text, REWRITTEN);
        assert!(&rt;
            rewritten.is_whole && rewritten.counts == (1, 0),
            "{most} bytes a call"
        );
    }
}

/// Asserts that an output that fails after `room` bytes has this part of the text, which does not count.
fn assert_cut_image(rt: &impl Abort, alloc: Global, room: usize, part: &str) {
    let rewritten = rewritten_in(rt, alloc, Limited::failing_after(alloc, room));
    assert_written_text(rt, &rewritten.text, part);
    assert!(rt;
        rewritten.is_fault && rewritten.counts == (0, 0),
        "{room} bytes"
    );
}

#[test]
fn a_part_of_an_image_is_no_item(rt: HostRuntime) {
    assert_cut_image(&rt, rt.alloc(), 0, "");
    assert_cut_image(&rt, rt.alloc(), 5, "ipmi-");
    assert_cut_image(&rt, rt.alloc(), 13, "ipmi-image 2\n");
}
