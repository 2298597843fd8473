//! How many items a run printed, and how many of them have a fault.
use super::outcome::execute_in;
use super::over_images::image_of;
use crate::command_line::lines::command;
use ipmi_commands::Summary;
use ipmi_image::ImageController;
use ipmi_output::Written;
use ipmi_program::Wording;
use std::alloc::Global;
use std::process::Abort;

/// A sound sensor; a full and a compact record that are too short; and locators of five devices. The first has a board area
/// with a wrong checksum, the second a header that is too short, the third no inventory; the fourth is elsewhere, and the
/// fifth is sound, as device 0 is.
const IMAGE: &str = "ipmi-image 1
sdr 0001 0002 CPU_TEMP
sdr 0002 0003 0200510100
sdr 0003 0004 0300510200
sdr 0004 0005 040051110d200180000000000a0100c24142
sdr 0005 0006 050051110d200280000000000a0100c24344
sdr 0006 0007 060051110d200380000000000a0100c24546
sdr 0007 0008 070051110d200100000000000a0100c24748
sdr 0008 ffff 080051110d200480000000000a0100c2494a
reading 0 01 2dc00000
fru 00 01000100000000fe010117c100000026
fru 01 01000001000000fe0103000100008329dca642123bc441e90042c1000000004e
fru 02 01
fru 04 01000000010000fe010219c24142c24344c1000000000095
end
";

/// The number of printed items, and how many of them have a fault.
fn counts_of(rt: &impl Abort, alloc: Global, line: &str, wording: Wording<'_>) -> (u64, u64) {
    let mut ctl = ImageController::new(image_of(rt, alloc, IMAGE));
    let command = command(rt, alloc, line);
    let mut out = Written::new(Vec::new(alloc));
    let mut summary = Summary::new();
    let ending = execute_in(alloc, &mut ctl, &command, wording, &mut out, &mut summary);
    let is_done = ending.is_ok();
    drop((ctl, command, out));
    assert!(rt; is_done, "{line} fails in {wording:?}");
    (summary.pieces(), summary.faults())
}

/// Asserts these numbers of a command in codes, in words and in JSON.
fn assert_counts(rt: &impl Abort, alloc: Global, line: &str, wanted: [(u64, u64); 3]) {
    let wordings = [Wording::Plain, Wording::Descriptive, Wording::Json(&[])];
    for (wording, (pieces, faults)) in wordings.into_iter().zip(wanted) {
        let got = counts_of(rt, alloc, line, wording);
        assert!(rt;
            got.0 == pieces && got.1 == faults,
            "{line} in {wording:?}: {} items, {} faults",
            got.0,
            got.1
        );
    }
}

#[test]
fn records_that_are_not_chosen_do_not_count(rt: HostRuntime) {
    assert_counts(&rt, rt.alloc(), "sdr list all", [(8, 2), (8, 2), (8, 2)]);
    assert_counts(&rt, rt.alloc(), "sdr list full", [(2, 1), (2, 1), (2, 1)]);
}

// A line in words names only a fault of the header.
#[test]
fn a_fault_counts_if_the_form_names_it(rt: HostRuntime) {
    assert_counts(&rt, rt.alloc(), "fru print", [(6, 3), (6, 2), (6, 3)]);
    assert_counts(&rt, rt.alloc(), "fru print 1", [(1, 1), (1, 1), (1, 1)]);
    assert_counts(&rt, rt.alloc(), "fru print 4", [(1, 0), (1, 0), (1, 0)]);
}
