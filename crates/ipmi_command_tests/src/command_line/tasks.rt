//! The task of a command line.
use super::lines::{command, read_words};
use super::options::assert_task;
use crate::cases::parts;
use std::alloc::Global;
use std::process::Abort;

/// Asserts that a line is this task with no option.
fn assert_plain_task(rt: &impl Abort, alloc: Global, case: &str) {
    let (words, task) = parts(rt, case);
    assert_task(rt, alloc, command(rt, alloc, words), task, case);
}

/// The same for each line.
fn assert_plain_tasks(rt: &impl Abort, alloc: Global, cases: &str) {
    for case in cases.lines() {
        assert_plain_task(rt, alloc, case);
    }
}

/// `words|task`.
const BARE: &str = "|Hex
sdr hex|Hex";

#[test]
fn no_words_are_sdr_hex(rt: HostRuntime) {
    assert_plain_tasks(&rt, rt.alloc(), BARE);
}

/// `words|task`.
const INVENTORIES: &str = "fru|Fru(None)
fru print|Fru(None)
fru print 0|Fru(Some(0))
fru print 0x0|Fru(Some(0))
fru print 0x0000|Fru(Some(0))
fru print 254|Fru(Some(254))
fru print 0xfe|Fru(Some(254))
fru print 0xFE|Fru(Some(254))
fru print 0x00fE|Fru(Some(254))";

#[test]
fn fru_is_one_inventory_or_every_one(rt: HostRuntime) {
    assert_plain_tasks(&rt, rt.alloc(), INVENTORIES);
}

/// `words|task`.
const SENSOR_DATA_RECORDS: &str = "sdr|List(Sensors)
sdr list|List(Sensors)
sdr elist|Elist(Sensors)
sdr list all|List(All)
sdr elist all|Elist(All)
sdr list full|List(Full)
sdr elist full|Elist(Full)
sdr list compact|List(Compact)
sdr elist compact|Elist(Compact)
sdr list event|List(Event)
sdr elist event|Elist(Event)
sdr list generic|List(Generic)
sdr elist generic|Elist(Generic)
sdr list mclocator|List(Mc)
sdr elist mclocator|Elist(Mc)
sdr list fru|List(Fru)
sdr elist fru|Elist(Fru)
sdr info|Info(Sdr)";

#[test]
fn sdr_lists_records_of_a_kind(rt: HostRuntime) {
    assert_plain_tasks(&rt, rt.alloc(), SENSOR_DATA_RECORDS);
}

/// `words|task`.
const NAMES: &str = "sdr,get,CPU Temp|Get(CPU Temp)
sdr,get,|Get()
sdr,get,list|Get(list)
sdr,get,Größe|Get(Größe)
sdr,get,0|Get(0)
sdr,get,-|Get(-)
sdr,get,a=b|Get(a=b)
sdr,get,--,--part|Get(--part)";

/// The same for a line that is split at commas.
fn assert_plain_task_with_commas(rt: &impl Abort, alloc: Global, case: &str) {
    let (words, task) = parts(rt, case);
    let command = read_words(rt, alloc, words).expect(rt, case);
    assert_task(rt, alloc, command, task, case);
}

#[test]
fn a_name_is_any_word(rt: HostRuntime) {
    for case in NAMES.lines() {
        assert_plain_task_with_commas(&rt, rt.alloc(), case);
    }
}

/// `words|task`.
const EVENT_LOG: &str = "sel|Info(Sel)
sel info|Info(Sel)
sel get 1|SelGet(1)
sel get 0x1|SelGet(1)
sel get 0x0001|SelGet(1)
sel get 9|SelGet(9)
sel get 0x9|SelGet(9)
sel get 0x09|SelGet(9)
sel get 65534|SelGet(65534)
sel get 0xfffe|SelGet(65534)
sel get 0xFFFE|SelGet(65534)";

#[test]
fn sel_is_info_or_one_entry(rt: HostRuntime) {
    assert_plain_tasks(&rt, rt.alloc(), EVENT_LOG);
}

/// `words|task`.
const COUNTS: &str = "sel list|SelList(All)
sel list 0|SelList(All)
sel list 0x0|SelList(All)
sel list first 0|SelList(All)
sel list last 0|SelList(All)
sel list last 0x0000|SelList(All)
sel list 1|SelList(First(1))
sel list first 1|SelList(First(1))
sel list first 0x001|SelList(First(1))
sel list 65535|SelList(First(65535))
sel list 0xffff|SelList(First(65535))
sel list first 65535|SelList(First(65535))
sel list last 10|SelList(Last(10))
sel list last 0xa|SelList(Last(10))
sel list last 0x0A|SelList(Last(10))
sel list last 65535|SelList(Last(65535))
sel list last 0xFFFF|SelList(Last(65535))";

// The count 0 lists all.
#[test]
fn sel_lists_the_oldest_or_the_newest_entries(rt: HostRuntime) {
    assert_plain_tasks(&rt, rt.alloc(), COUNTS);
}

#[test]
fn image_rewrite_is_a_task(rt: HostRuntime) {
    assert_plain_task(&rt, rt.alloc(), "image rewrite|Rewrite");
}

/// `words|whether they are a listing`.
const LISTINGS: &str = "|true
sdr|true
sdr list fru|true
sdr elist|true
sdr hex|true
sel list|true
sel list 0|true
fru|false
fru print 0|false
sdr get Fan|false
sdr info|false
sel|false
sel list 1|false
sel list last 2|false
sel get 1|false
image rewrite|false";

/// Asserts whether a line is a listing.
fn assert_listing(rt: &impl Abort, alloc: Global, case: &str) {
    let (words, wanted) = parts(rt, case);
    let command = command(rt, alloc, words);
    let is_listing = command.is_listing();
    drop(command);
    assert!(rt;
        is_listing == (wanted == "true"),
        "{case}: got {is_listing}"
    );
}

#[test]
fn some_commands_are_listings(rt: HostRuntime) {
    for case in LISTINGS.lines() {
        assert_listing(&rt, rt.alloc(), case);
    }
}
