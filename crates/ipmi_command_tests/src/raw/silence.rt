//! Machines that don't answer, in both dialects. A thing may have two troubles, and is given up at the third.
use crate::raw::calls::{Call, assert_call};
use crate::raw::tools::{Script, Sleeper, TRIES, controller, controller_of};
use ipmi_bus::Shelf;
use ipmi_raw::Tool;
use std::alloc::Global;
use std::cell::Cell;
use std::process::Abort;

const SIZE: Call = Call::FruSize(7);

const RESERVE: Call = Call::Reserve(Shelf::Sdr);

/// A call, and its result.
type Step<'s> = (Call, &'s str);

/// Asserts the results of calls in order, and the tool's last output if the connection is lost after them.
fn assert_steps(
    rt: &impl Abort,
    alloc: Global,
    tool: Tool,
    scripts: &[Script<'_>],
    steps: &[Step<'_>],
    lost: Option<&str>,
) {
    let sleeper = Sleeper(Cell::new(0));
    let mut ctl = controller(tool, scripts, &sleeper);
    for (call, wanted) in steps {
        assert_call(rt, alloc, &mut ctl, *call, wanted);
    }
    assert!(rt; ctl.lost() == lost.map(str::as_bytes), "{tool:?}: lost");
}

/// A machine that is on for one request. At the third silent one it is asked for its id. The tools would send and
/// print more.
#[test]
fn a_machine_that_dies_costs_three_requests_and_a_probe(rt: HostRuntime) {
    let steps = [
        (RESERVE, "1234"),
        (SIZE, "code c3"),
        (SIZE, "code c3"),
        (SIZE, "code ff"),
        (RESERVE, "code ff"),
    ];
    let lines = "00 0A 22\n00 0A 10 07\n00 0A 10 07\n00 0A 10 07\n00 06 01\n00 0A 22\n";
    let printed = "rcvd: 22 00 34 12 \nipmi_cmd_raw: message timeout\nipmi_cmd_raw: BMC busy\n\
        ipmi_cmd_raw: driver timeout\nipmi_cmd_raw: session timeout\nrcvd: 22 00 34 12 \n";
    let scripts = [(0, lines, printed)];
    let last = Some("ipmi_cmd_raw: session timeout\n");
    assert_steps(&rt, rt.alloc(), Tool::FreeIpmi, &scripts, &steps, last);
    let words = "raw 0x0a 0x22\necho .\nraw 0x0a 0x10 0x07\necho .\nraw 0x0a 0x10 0x07\necho .\n\
        raw 0x0a 0x10 0x07\necho .\nraw 0x06 0x01\necho .\nraw 0x0a 0x22\necho .\n";
    let printed = " 34 12\n. \n\
        Unable to send RAW command (channel=0x0 netfn=0xa lun=0x0 cmd=0x10)\n. \n\
        Unable to send RAW command (channel=0x0 netfn=0xa lun=0x0 cmd=0x10)\n. \n\
        Unable to send RAW command (channel=0x0 netfn=0xa lun=0x0 cmd=0x10)\n. \n\
        Unable to send RAW command (channel=0x0 netfn=0x6 lun=0x0 cmd=0x1)\n. \n 34 12\n. \n";
    let scripts = [(0, words, printed)];
    let last = Some("Unable to send RAW command (channel=0x0 netfn=0x6 lun=0x0 cmd=0x1)\n. \n");
    assert_steps(&rt, rt.alloc(), Tool::Ipmitool, &scripts, &steps, last);
}

/// An answer ends the row of silent requests, also one by a code, as C3h.
#[test]
fn after_an_answer_silence_counts_from_the_start(rt: HostRuntime) {
    let steps = [
        (SIZE, "code c3"),
        (SIZE, "code c3"),
        (RESERVE, "1234"),
        (SIZE, "code c3"),
        (SIZE, "code c3"),
        (SIZE, "code c3"),
        (SIZE, "code c3"),
        (SIZE, "code c3"),
        (RESERVE, "1234"),
    ];
    let lines =
        "00 0A 10 07\n00 0A 10 07\n00 0A 22\n00 0A 10 07\n00 0A 10 07\n00 0A 10 07\n00 0A 10 07\n\
        00 0A 10 07\n00 0A 22\n";
    let printed =
        "ipmi_cmd_raw: session timeout\nipmi_cmd_raw: session timeout\nrcvd: 22 00 34 12 \n\
        ipmi_cmd_raw: session timeout\nipmi_cmd_raw: session timeout\nrcvd: 10 C3 \n\
        ipmi_cmd_raw: session timeout\nipmi_cmd_raw: session timeout\nrcvd: 22 00 34 12 \n";
    let scripts = [(0, lines, printed)];
    assert_steps(&rt, rt.alloc(), Tool::FreeIpmi, &scripts, &steps, None);
}

/// A machine that only leaves some requests without an answer. Its id may be refused.
#[test]
fn where_the_probe_is_answered_calls_go_on(rt: HostRuntime) {
    let steps = [
        (SIZE, "code c3"),
        (SIZE, "code c3"),
        (SIZE, "code c3"),
        (SIZE, "code c3"),
        (SIZE, "code c3"),
        (SIZE, "code c3"),
        (RESERVE, "1234"),
    ];
    let lines =
        "00 0A 10 07\n00 0A 10 07\n00 0A 10 07\n00 06 01\n00 0A 10 07\n00 0A 10 07\n00 0A 10 07\n\
        00 06 01\n00 0A 22\n";
    let printed =
        "ipmi_cmd_raw: session timeout\nipmi_cmd_raw: session timeout\nipmi_cmd_raw: session timeout\n\
        rcvd: 01 00 20 01 02 30 02 BF 57 01 00 34 12 \n\
        ipmi_cmd_raw: session timeout\nipmi_cmd_raw: session timeout\nipmi_cmd_raw: session timeout\n\
        rcvd: 01 C0 \nrcvd: 22 00 34 12 \n";
    let scripts = [(0, lines, printed)];
    assert_steps(&rt, rt.alloc(), Tool::FreeIpmi, &scripts, &steps, None);
}

/// What comes for the probe may be no reply. Then the connection is lost too.
#[test]
fn a_tool_that_ends_at_the_probe_has_lost_the_connection(rt: HostRuntime) {
    let steps = [(SIZE, "code c3"), (SIZE, "code c3"), (SIZE, "code ff")];
    let lines = "00 0A 10 07\n00 0A 10 07\n00 0A 10 07\n00 06 01\n";
    let printed =
        "ipmi_cmd_raw: session timeout\nipmi_cmd_raw: session timeout\nipmi_cmd_raw: session timeout\n\
        ipmi-raw: connection timeout\n";
    let scripts = [(0, lines, printed)];
    let last = Some("ipmi-raw: connection timeout\n");
    assert_steps(&rt, rt.alloc(), Tool::FreeIpmi, &scripts, &steps, last);
}

/// Each controller answers Get Device ID at unit 0, so that is asked wherever the silent requests went.
#[test]
fn the_probe_goes_to_unit_0(rt: HostRuntime) {
    let reading = Call::Reading(1, 0x30);
    let steps = [
        (reading, "code c3"),
        (reading, "code c3"),
        (reading, "code c3"),
    ];
    let words =
        "raw 0x04 0x2d 0x30\necho .\nraw 0x04 0x2d 0x30\necho .\nraw 0x04 0x2d 0x30\necho .\n";
    let printed = "Unable to send RAW command (channel=0x0 netfn=0x4 lun=0x1 cmd=0x2d)\n. \n\
        Unable to send RAW command (channel=0x0 netfn=0x4 lun=0x1 cmd=0x2d)\n. \n\
        Unable to send RAW command (channel=0x0 netfn=0x4 lun=0x1 cmd=0x2d)\n. \n";
    let id = (0, "raw 0x06 0x01\necho .\n", " 20 01 02 30 02\n. \n");
    let scripts = [id, (1, words, printed)];
    assert_steps(&rt, rt.alloc(), Tool::Ipmitool, &scripts, &steps, None);
}

/// Without tries the first silent request is the last, and with 255 it is request number 256.
#[test]
fn the_number_of_tries_is_that_of_the_controller(rt: HostRuntime) {
    let alloc = rt.alloc();
    for tries in [0, TRIES, 255] {
        let requests = usize::from(tries) + 1;
        let lines = "00 0A 10 07\n"
            .repeat(alloc, requests)
            .expect(&rt, "memory");
        let lines = format!(in alloc; "{lines}00 06 01\n").expect(&rt, "memory");
        let printed = "ipmi_cmd_raw: session timeout\n"
            .repeat(alloc, requests + 1)
            .expect(&rt, "memory");
        let sleeper = Sleeper(Cell::new(0));
        let scripts = [(0, lines.as_str(), printed.as_str())];
        let mut ctl = controller_of(Tool::FreeIpmi, &scripts, &sleeper, tries);
        for _ in 0..tries {
            assert_call(&rt, alloc, &mut ctl, SIZE, "code c3");
        }
        assert_call(&rt, alloc, &mut ctl, SIZE, "code ff");
        assert!(&rt; ctl.lost().is_some(), "{tries} tries");
    }
}
