//! The entries of the event log that earlier runs did not print, and the texts of marks.
use super::over_images::over;
use super::saved::image_in;
use crate::writers::assert_written_text;
use ipmi_commands::{Continuity, Mark, RequestLimits, Summary, new_entries, print_new};
use ipmi_output::Written;
use ipmi_program::Wording;
use ipmi_selection::{Detail, EntrySelection};
use std::alloc::Global;
use std::process::Abort;

/// Each image comes after a line with its name and before a line of dashes. `more` has two entries after those of `two`, and `again`
/// none, but another info. `cleared` begins anew, and `other` has the ids of `two` with other bytes. `last` lacks the first entry.
const IMAGES: &str = "two
ipmi-image 1
sel 0001 0002 0100e001010101010101010101010101
sel 0002 ffff 0200e002020202020202020202020202
info sel 5102000000000000000000000002
end
--
more
ipmi-image 1
sel 0001 0002 0100e001010101010101010101010101
sel 0002 0003 0200e002020202020202020202020202
sel 0003 0004 0300e003030303030303030303030303
sel 0004 ffff 0400e004040404040404040404040404
info sel 5104000000000000000000000002
end
--
again
ipmi-image 1
sel 0001 0002 0100e001010101010101010101010101
sel 0002 ffff 0200e002020202020202020202020202
info sel 5102000000000000000000000102
end
--
cleared
ipmi-image 1
sel 0001 ffff 0100e001010101010101010101010101
info sel 5101000000000000000000000202
end
--
other
ipmi-image 1
sel 0001 0002 0100e003030303030303030303030303
sel 0002 ffff 0200e004040404040404040404040404
info sel 5102000000000000000000000202
end
--
last
ipmi-image 1
sel 0002 0003 0200e002020202020202020202020202
sel 0003 ffff 0300e003030303030303030303030303
info sel 5102000000000000000000000302
end
--
none
ipmi-image 1
info sel 5100000000000000000000000002
end
--
no info
ipmi-image 1
sel 0001 ffff 0100e001010101010101010101010101
end
";

/// Asserts how the entries of the image follow those before, the number of calls, and their lines. Returns the mark.
fn assert_new(
    rt: &impl Abort,
    alloc: Global,
    name: &str,
    mark: Option<Mark>,
    wanted: (Continuity, u32),
    lines: &str,
) -> Mark {
    let mut ctl = over(rt, alloc, image_in(rt, IMAGES, name));
    let limits = RequestLimits::new(32, 5);
    let mut out = Written::new(Vec::new(alloc));
    let mut summary = Summary::new();
    let new = match new_entries(alloc, &mut ctl, limits, &Wording::Plain, mark) {
        Ok(new) => new,
        Err(_) => panic!(rt; "{name}: not read"),
    };
    assert!(rt; new.continuity() == wanted.0, "{name}");
    let mark = new.mark();
    let selection = EntrySelection::in_detail(Detail::Line);
    let ended = print_new(
        alloc,
        &mut ctl,
        limits,
        &Wording::Plain,
        selection,
        new,
        &mut out,
        &mut summary,
    );
    assert!(rt; ended.is_ok(), "{name}");
    assert!(rt; ctl.calls == wanted.1, "{name}: {}", ctl.calls);
    assert_written_text(rt, &out.into_inner(), lines);
    mark
}

const FIRST: &str = "0001 | OEM record 0xe0 | 01010101010101010101010101\n";

const SECOND: &str = "0002 | OEM record 0xe0 | 02020202020202020202020202\n";

const LATER: &str = "0003 | OEM record 0xe0 | 03030303030303030303030303
0004 | OEM record 0xe0 | 04040404040404040404040404
";

const BOTH: &str = "0001 | OEM record 0xe0 | 01010101010101010101010101
0002 | OEM record 0xe0 | 02020202020202020202020202
";

const OTHERS: &str = "0001 | OEM record 0xe0 | 03030303030303030303030303
0002 | OEM record 0xe0 | 04040404040404040404040404
";

// The info, a reservation and each entry; then the entry of the mark and those after it, or only the info.
#[test]
fn runs_print_each_entry_once(rt: HostRuntime) {
    let alloc = rt.alloc();
    let started = assert_new(&rt, alloc, "two", None, (Continuity::Started, 4), BOTH);
    assert_new(
        &rt,
        alloc,
        "two",
        Some(started),
        (Continuity::Unchanged, 1),
        "",
    );
    let more = (Continuity::Continued, 5);
    let later = assert_new(&rt, alloc, "more", Some(started), more, LATER);
    assert_new(
        &rt,
        alloc,
        "more",
        Some(later),
        (Continuity::Unchanged, 1),
        "",
    );
    let again = (Continuity::Continued, 3);
    assert_new(&rt, alloc, "again", Some(started), again, "");
}

// The walk from the mark's id, which no entry has or another one, and then all entries.
#[test]
fn another_log_is_printed_from_its_first_entry(rt: HostRuntime) {
    let alloc = rt.alloc();
    let started = assert_new(&rt, alloc, "two", None, (Continuity::Started, 4), BOTH);
    let cleared = (Continuity::Restarted, 5);
    assert_new(&rt, alloc, "cleared", Some(started), cleared, FIRST);
    let other = (Continuity::Restarted, 6);
    assert_new(&rt, alloc, "other", Some(started), other, OTHERS);
    let last = (Continuity::Continued, 4);
    let third = "0003 | OEM record 0xe0 | 03030303030303030303030303\n";
    assert_new(&rt, alloc, "last", Some(started), last, third);
}

// After an empty log all entries are new; without an info the entry decides.
#[test]
fn a_log_may_be_empty_or_without_info(rt: HostRuntime) {
    let alloc = rt.alloc();
    let empty = assert_new(&rt, alloc, "none", None, (Continuity::Started, 3), "");
    let first = (Continuity::Continued, 4);
    assert_new(&rt, alloc, "two", Some(empty), first, BOTH);
    let known = assert_new(&rt, alloc, "no info", None, (Continuity::Started, 3), FIRST);
    let same = (Continuity::Continued, 3);
    assert_new(&rt, alloc, "no info", Some(known), same, "");
    let second = (Continuity::Continued, 4);
    assert_new(&rt, alloc, "two", Some(known), second, SECOND);
}

/// The text of the mark after `two`: 01 and its last entry's id and bytes, 01 and its info.
const TEXT: &str =
    "serdimko-cursor 1 0100020200e002020202020202020202020202015102000000000000000000000002\n";

// Of a text that was cut there is no mark.
#[test]
fn marks_are_lines(rt: HostRuntime) {
    let alloc = rt.alloc();
    let mark = assert_new(&rt, alloc, "two", None, (Continuity::Started, 4), BOTH);
    let text = mark.text(alloc).expect(&rt, "memory");
    assert_written_text(&rt, &text, TEXT);
    assert!(&rt; Mark::read(&text) == Some(mark), "read back");
    for len in 0..text.len() {
        assert!(&rt; Mark::read(&text[..len]).is_none(), "{len} bytes");
    }
    assert!(&rt; Mark::read(b"ipmi-image 1\nend\n").is_none(), "an image");
}
