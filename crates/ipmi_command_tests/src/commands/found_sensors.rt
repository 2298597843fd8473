//! Sensors that one walk finds by several names, and the blocks that are printed of them in the order of the names.
use super::over_images::scripted;
use crate::writers::assert_written_text;
use ipmi_bus::Ended;
use ipmi_command_line::Words;
use ipmi_commands::{RequestLimits, Summary};
use ipmi_fixtures::{CPU_TEMP_BLOCK, PSU1_BLOCK};
use ipmi_output::{Failure, Written};
use ipmi_program::Wording;
use ipmi_sensors::{FoundSensors, Sought, find_sensors, print_sensors};
use std::alloc::Global;
use std::process::Abort;

/// Records with the names `CPU Temp`, `PSU1` and again `PSU1`. Their walk makes 8 calls, and one for the reading: a
/// reservation, then three parts of the first record and two of each other.
const SENSORS: &str = "ipmi-image 1
sdr 0001 0002 CPU_TEMP
sdr 0002 0003 020051110f200180000000000a0100c450535531
sdr 0003 ffff 030051110f200180000000000a0100c450535531
reading 0 01 2dc00000
end
";

/// The block of the third record.
const SECOND_PSU1_BLOCK: &str = "Record: 0003h
Type: FRU locator
Name: PSU1
Address: 20h
Entity: 10.1

";

/// The names, in another order than their records. No record has the second.
const NAMES: [&str; 3] = ["PSU1", "Fan", "CPU Temp"];

/// What a search found, how it ended, and the number of its calls.
#[derive(Drop)]
struct Search {
    found: FoundSensors,
    ending: Result<(), Failure<'static>>,
    calls: u32,
}

fn names(rt: &impl Abort, alloc: Global) -> Words {
    let mut names = Words::new(alloc);
    for name in NAMES {
        names.push(name).expect(rt, "memory");
    }
    names
}

/// A search for the names over a controller whose first calls have these moods, with one retry.
fn search_in_moods(rt: &impl Abort, alloc: Global, moods: &str) -> Search {
    let mut ctl = scripted(rt, alloc, SENSORS, moods);
    let names = names(rt, alloc);
    let limits = RequestLimits::new(32, 1);
    let mut found = FoundSensors::new(alloc);
    let sought = Sought::Named(names.as_slice());
    let ending = find_sensors(alloc, &mut ctl, limits, sought, None, &mut found);
    let calls = ctl.calls;
    drop(ctl);
    drop(names);
    Search {
        found,
        ending,
        calls,
    }
}

/// The blocks in the order of the names, and after each name the number of blocks so far.
fn assert_blocks(
    rt: &impl Abort,
    alloc: Global,
    found: &FoundSensors,
    wanted: &str,
    pieces: &[u64],
) {
    let mut out = Written::new(Vec::new(alloc));
    let mut summary = Summary::new();
    for (name, count) in NAMES.iter().zip(pieces) {
        let printed = print_sensors(alloc, found, name, &Wording::Plain, &mut out, &mut summary);
        assert!(rt; printed.is_ok(), "{name}: printed");
        assert!(rt; summary.pieces() == *count, "{name}: pieces");
    }
    assert!(rt; summary.faults() == 0, "faults");
    let out = out.into_inner();
    assert_written_text(rt, &out, wanted);
    drop(out);
}

#[test]
fn one_walk_finds_all_names(rt: HostRuntime) {
    let alloc = rt.alloc();
    let search = search_in_moods(&rt, alloc, "");
    assert!(&rt; matches!(&search.ending, Ok(())), "ending");
    assert!(&rt; search.calls == 9, "{} calls", search.calls);
    let blocks = [PSU1_BLOCK, SECOND_PSU1_BLOCK, CPU_TEMP_BLOCK].concat(alloc);
    assert_blocks(
        &rt,
        alloc,
        &search.found,
        &blocks.expect(&rt, "memory"),
        &[2, 2, 3],
    );
    drop(search);
}

/// The reading is given up: nothing is found.
#[test]
fn a_reading_that_is_given_up_ends_the_search(rt: HostRuntime) {
    let search = search_in_moods(&rt, rt.alloc(), "....BB");
    let gave_up = matches!(&search.ending, Err(Failure::Ended(Ended::GaveUp(1))));
    assert!(&rt; gave_up && search.calls == 6, "ending");
    assert_blocks(&rt, rt.alloc(), &search.found, "", &[0, 0, 0]);
    drop(search);
}

/// The second record is given up: the first is found.
#[test]
fn what_was_found_before_a_failure_is_kept(rt: HostRuntime) {
    let search = search_in_moods(&rt, rt.alloc(), ".....BB");
    let gave_up = matches!(&search.ending, Err(Failure::Ended(Ended::GaveUp(2))));
    assert!(&rt; gave_up && search.calls == 7, "ending");
    assert_blocks(&rt, rt.alloc(), &search.found, CPU_TEMP_BLOCK, &[0, 0, 1]);
    drop(search);
}
