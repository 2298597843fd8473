//! Commands that print objects, over a saved image: their output and the number of their calls.
ghost use Rattle.std.specs.Prelude.{◌≡◌, true};
ghost use Rattle.ipmi_command_line.specs.Task.{is_listing};

use super::in_words::outcome_in;
use super::outcome::{Outcome, assert_outcome};
use super::over_images::{over, scripted};
use super::pages::sizes;
use super::saved::image_in;
use crate::cases::{Case, case_of};
use crate::command_line::lines::command_of_case;
use crate::controllers::Counting;
use ipmi_bus::Controller;
use ipmi_command_line::Command;
use ipmi_commands::{Job, RequestLimits, Summary, execute_pages, report};
use ipmi_json::Label;
use ipmi_output::Written;
use ipmi_program::Wording;
use std::alloc::Global;
use std::process::Abort;

/// Each image comes after a line with its name and before a line of dashes. The sensor is `CPU_TEMP`, and the record after
/// it is too short for its type. Device 0 has an inventory of one byte, device 1 has none, and the last device is not this
/// controller's.
const IMAGES: &str = "all
ipmi-image 1
sdr 0001 0002 CPU_TEMP
sdr 0002 ffff 0200510100
sel 0001 0002 01000201000020200004010101595f5a
sel 0002 ffff 0200c0ffffffff571300010203040506
reading 0 01 2dc00000
info sel 510c00983a00105e5f0000000082
fru 00 00
end
--
devices
ipmi-image 1
sdr 0002 0003 020051110f200180000000000a0100c450535531
sdr 0003 ffff 030051110f220280000000000a0200c446525532
fru 00 00
end
--
";

/// Asserts the outcome of a case with a label.
fn assert_objects_of_case(rt: &impl Abort, alloc: Global, case: Case<'_>) {
    let labels = [Label {
        key: "host",
        value: "web 17",
    }];
    let command = command_of_case(rt, alloc, case.words);
    let ctl = scripted(rt, alloc, image_in(rt, IMAGES, case.image), case.more);
    let outcome = outcome_in(alloc, ctl, command, Wording::Json(&labels));
    assert_outcome(rt, alloc, outcome, case.wanted, case.line);
}

/// The same for each case.
fn assert_objects(rt: &impl Abort, alloc: Global, cases: &str) {
    for case in cases.split("====\n") {
        assert_objects_of_case(rt, alloc, case_of(rt, case));
    }
}

/// `words|image|moods`, then the outcome.
const RECORDS: &str = r#"sdr list|all|
0 6
--
{"object":"sdr_record","record_id":1,"record_type":1,"kind":"full","name":"CPU Temp","owner_id":32,"owner_lun":0,"sensor_number":1,"entity_id":3,"entity_name":"processor","entity_instance":1,"sensor_type":1,"sensor_type_name":"Temperature","event_type":1,"reading":45,"unit":"degrees C","reading_raw":45,"states":0,"state_words":null,"status":"ok","status_words":"ok","severity":"nominal","severity_reason":null,"upper_non_recoverable":95,"upper_critical":90,"upper_non_critical":85,"lower_non_recoverable":null,"lower_critical":null,"lower_non_critical":null,"raw":"010051013320000103017f680101000000003838000100000100000000000000000000005f5a550000000202000000c84350552054656d70","host":"web 17"}
{"object":"sdr_record","record_id":2,"record_type":1,"kind":"faulty","fault":"body_too_short","raw":"0200510100","host":"web 17"}
====
sdr elist all|all|
0 6
--
{"object":"sdr_record","record_id":1,"record_type":1,"kind":"full","name":"CPU Temp","owner_id":32,"owner_lun":0,"sensor_number":1,"entity_id":3,"entity_name":"processor","entity_instance":1,"sensor_type":1,"sensor_type_name":"Temperature","event_type":1,"reading":45,"unit":"degrees C","reading_raw":45,"states":0,"state_words":null,"status":"ok","status_words":"ok","severity":"nominal","severity_reason":null,"upper_non_recoverable":95,"upper_critical":90,"upper_non_critical":85,"lower_non_recoverable":null,"lower_critical":null,"lower_non_critical":null,"raw":"010051013320000103017f680101000000003838000100000100000000000000000000005f5a550000000202000000c84350552054656d70","host":"web 17"}
{"object":"sdr_record","record_id":2,"record_type":1,"kind":"faulty","fault":"body_too_short","raw":"0200510100","host":"web 17"}
====
sdr,get,CPU Temp|all|
0 6
--
{"object":"sdr_record","record_id":1,"record_type":1,"kind":"full","name":"CPU Temp","owner_id":32,"owner_lun":0,"sensor_number":1,"entity_id":3,"entity_name":"processor","entity_instance":1,"sensor_type":1,"sensor_type_name":"Temperature","event_type":1,"reading":45,"unit":"degrees C","reading_raw":45,"states":0,"state_words":null,"status":"ok","status_words":"ok","severity":"nominal","severity_reason":null,"upper_non_recoverable":95,"upper_critical":90,"upper_non_critical":85,"lower_non_recoverable":null,"lower_critical":null,"lower_non_critical":null,"raw":"010051013320000103017f680101000000003838000100000100000000000000000000005f5a550000000202000000c84350552054656d70","host":"web 17"}
====
sdr,get,Foo|all|
1 5
no record named Foo
--
====
--tries 0 sdr list|all|....B
1 5
gave up at 0001h
--
====
sdr hex|all|
0 5
--
{"object":"sdr_raw","record_id":1,"next_record_id":2,"raw":"010051013320000103017f680101000000003838000100000100000000000000000000005f5a550000000202000000c84350552054656d70","host":"web 17"}
{"object":"sdr_raw","record_id":2,"next_record_id":65535,"raw":"0200510100","host":"web 17"}
"#;

// A faulty record is listed by its type, as in the text form.
#[test]
fn records_have_an_object(rt: HostRuntime) {
    assert_objects(&rt, rt.alloc(), RECORDS);
}

/// `words|image|moods`, then the outcome.
const ENTRIES: &str = r#"sel list|all|
0 8
--
{"object":"sel_entry","record_id":1,"record_type":2,"kind":"event","timestamp":"1987-01-05T18:48:33Z","timestamp_raw":536870913,"generator_id":32,"event_revision":4,"sensor_type":1,"sensor_type_name":"Temperature","sensor_number":1,"sensor_name":"CPU Temp","event_type":1,"event":"Upper Critical going high","event_words":"Upper Critical going high","direction":"asserted","severity":"critical","severity_reason":"Upper Critical going high","event_data":"595f5a","event_details":"Reading 95 degrees C > threshold 90","raw":"01000201000020200004010101595f5a","host":"web 17"}
{"object":"sel_entry","record_id":2,"record_type":192,"kind":"oem_timestamped","timestamp":null,"timestamp_raw":4294967295,"manufacturer_id":4951,"oem_data":"010203040506","raw":"0200c0ffffffff571300010203040506","host":"web 17"}
====
sel list last 1|all|
0 8
--
{"object":"sel_entry","record_id":2,"record_type":192,"kind":"oem_timestamped","timestamp":null,"timestamp_raw":4294967295,"manufacturer_id":4951,"oem_data":"010203040506","raw":"0200c0ffffffff571300010203040506","host":"web 17"}
====
sel get 1|all|
0 7
--
{"object":"sel_entry","record_id":1,"record_type":2,"kind":"event","timestamp":"1987-01-05T18:48:33Z","timestamp_raw":536870913,"generator_id":32,"event_revision":4,"sensor_type":1,"sensor_type_name":"Temperature","sensor_number":1,"sensor_name":"CPU Temp","event_type":1,"event":"Upper Critical going high","event_words":"Upper Critical going high","direction":"asserted","severity":"critical","severity_reason":"Upper Critical going high","event_data":"595f5a","event_details":"Reading 95 degrees C > threshold 90","raw":"01000201000020200004010101595f5a","host":"web 17"}
====
sel list|all|......R
1 7
record 0000h refused with code D4h
--
"#;

// The sensor data records are walked first.
#[test]
fn entries_have_an_object_with_the_name_of_the_sensor(rt: HostRuntime) {
    assert_objects(&rt, rt.alloc(), ENTRIES);
}

/// `words|image|moods`, then the outcome.
const DEVICES: &str = r#"fru print|devices|
0 8
--
{"object":"fru","fru_device_id":0,"name":null,"state":"faulty","fault":"header_short","chassis":null,"chassis_fault":null,"board":null,"board_fault":null,"product":null,"product_fault":null,"records":null,"records_fault":null,"size":1,"raw":"00","host":"web 17"}
{"object":"fru","fru_device_id":1,"name":"PSU1","state":"not_present","fault":null,"chassis":null,"chassis_fault":null,"board":null,"board_fault":null,"product":null,"product_fault":null,"records":null,"records_fault":null,"size":null,"raw":null,"host":"web 17"}
{"object":"fru","fru_device_id":null,"name":"FRU2","state":"elsewhere","fault":null,"chassis":null,"chassis_fault":null,"board":null,"board_fault":null,"product":null,"product_fault":null,"records":null,"records_fault":null,"size":null,"raw":null,"host":"web 17"}
====
fru print 0|devices|
0 2
--
{"object":"fru","fru_device_id":0,"name":null,"state":"faulty","fault":"header_short","chassis":null,"chassis_fault":null,"board":null,"board_fault":null,"product":null,"product_fault":null,"records":null,"records_fault":null,"size":1,"raw":"00","host":"web 17"}
====
sel info|all|
0 1
--
{"object":"sel_info","version":81,"record_count":12,"free_space":15000,"last_addition":"2020-09-13T12:26:40Z","last_addition_raw":1600000000,"last_erase":null,"last_erase_raw":0,"overflow":true,"operation_support":130,"host":"web 17"}
====
sdr info|all|
1 1
info not present
--
"#;

#[test]
fn devices_and_infos_have_an_object(rt: HostRuntime) {
    assert_objects(&rt, rt.alloc(), DEVICES);
}

/// The outcome of a listing over the controller in pages of these sizes, with no label.
fn outcome_in_pages<C: Controller + Drop>(
    alloc: Global,
    ctl: Counting<C>,
    command: &Command,
    pages: &[u32],
) -> Outcome
    requires { is_listing command.now.task ≡ true }
{
    let mut ctl = ctl;
    let mut out = Written::new(Vec::new(alloc));
    let mut err = Vec::new(alloc);
    let mut summary = Summary::new();
    let limits = RequestLimits::of(command);
    let format = Wording::Json(&[]);
    let job = Job::of(&format, command.task(), command.from()).unwrap();
    let ending = execute_pages(
        alloc,
        &mut ctl,
        limits,
        &format,
        job,
        &mut out,
        &mut summary,
        pages,
    );
    let status = report(ending, &mut err);
    let calls = ctl.calls;
    drop(ctl);
    Outcome {
        out: out.into_inner(),
        err,
        status,
        calls,
    }
}

/// Asserts the outcome of a case in pages of its sizes.
fn assert_objects_in_pages(rt: &impl Abort, alloc: Global, case: &str) {
    let case = case_of(rt, case);
    let ctl = over(rt, alloc, image_in(rt, IMAGES, case.image));
    let command = command_of_case(rt, alloc, case.words);
    if !command.is_listing() {
        panic!(rt; "{}: no listing", case.line);
    }
    let outcome = outcome_in_pages(alloc, ctl, &command, &sizes(rt, alloc, case.more));
    drop(command);
    assert_outcome(rt, alloc, outcome, case.wanted, case.line);
}

/// `words|image|size of each page`, then the outcome.
const IN_PAGES: &str = r#"sel list|all|1
0 9
--
{"object":"sel_entry","record_id":1,"record_type":2,"kind":"event","timestamp":"1987-01-05T18:48:33Z","timestamp_raw":536870913,"generator_id":32,"event_revision":4,"sensor_type":1,"sensor_type_name":"Temperature","sensor_number":1,"sensor_name":"CPU Temp","event_type":1,"event":"Upper Critical going high","event_words":"Upper Critical going high","direction":"asserted","severity":"critical","severity_reason":"Upper Critical going high","event_data":"595f5a","event_details":"Reading 95 degrees C > threshold 90","raw":"01000201000020200004010101595f5a"}
{"object":"sel_entry","record_id":2,"record_type":192,"kind":"oem_timestamped","timestamp":null,"timestamp_raw":4294967295,"manufacturer_id":4951,"oem_data":"010203040506","raw":"0200c0ffffffff571300010203040506"}
====
sdr hex|all|1 0
0 6
--
{"object":"sdr_raw","record_id":1,"next_record_id":2,"raw":"010051013320000103017f680101000000003838000100000100000000000000000000005f5a550000000202000000c84350552054656d70"}
{"object":"sdr_raw","record_id":2,"next_record_id":65535,"raw":"0200510100"}
"#;

// The second page has a reservation of its own, and the names are read once.
#[test]
fn objects_are_listed_in_pages(rt: HostRuntime) {
    for case in IN_PAGES.split("====\n") {
        assert_objects_in_pages(&rt, rt.alloc(), case);
    }
}
