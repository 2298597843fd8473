//! Calls of a controller that is asked through a tool, in both dialects. The numbers are from the tables of IPMI v2.0.
use crate::raw::calls::{Call, assert_call};
use crate::raw::tools::{Script, Sleeper, controller};
use ipmi_bus::Shelf;
use ipmi_raw::Tool;
use std::alloc::Global;
use std::cell::Cell;
use std::process::Abort;

/// The outcome of a call: its result, the tool's last output if the connection is lost, and the milliseconds of sleep.
type Outcome<'s> = (&'s str, Option<&'s str>, u128);

/// Asserts the outcome of a call through a tool with this script.
fn assert_call_through(
    rt: &impl Abort,
    alloc: Global,
    tool: Tool,
    script: Script<'_>,
    call: Call,
    outcome: Outcome<'_>,
) {
    let (wanted, lost, slept) = outcome;
    let sleeper = Sleeper(Cell::new(0));
    let scripts = [script];
    let mut ctl = controller(tool, &scripts, &sleeper);
    assert_call(rt, alloc, &mut ctl, call, wanted);
    assert!(rt;
        ctl.lost() == lost.map(str::as_bytes),
        "{call:?} gives {wanted}: lost"
    );
    drop(ctl);
    assert!(rt; sleeper.0.get() == slept, "{call:?} gives {wanted}: sleeps");
}

/// `(call, (ipmitool's input, its output), (input of FreeIPMI's tool, its output), result)`.
const CALLS: &[(Call, (&str, &str), (&str, &str), &str)] = &[
    (
        Call::Reserve(Shelf::Sdr),
        ("raw 0x0a 0x22\necho .\n", " 34 12\n. \n"),
        ("00 0A 22\n", "rcvd: 22 00 34 12 \n"),
        "1234",
    ),
    (
        Call::Reserve(Shelf::Sel),
        ("raw 0x0a 0x42\necho .\n", " 01 00\n. \n"),
        ("00 0A 42\n", "rcvd: 42 00 01 00 \n"),
        "0001",
    ),
    (
        Call::Part(Shelf::Sdr, 0, 5),
        (
            "raw 0x0a 0x23 0x02 0x01 0x34 0x12 0x00 0x05\necho .\n",
            " 02 00 01 00 51 01 2f\n. \n",
        ),
        (
            "00 0A 23 02 01 34 12 00 05\n",
            "rcvd: 23 00 02 00 01 00 51 01 2F \n",
        ),
        "0002 010051012f",
    ),
    (
        Call::Part(Shelf::Sdr, 5, 8),
        (
            "raw 0x0a 0x23 0x02 0x01 0x34 0x12 0x05 0x08\necho .\n",
            " ff ff 20\n. \n",
        ),
        ("00 0A 23 02 01 34 12 05 08\n", "rcvd: 23 00 FF FF 20 \n"),
        "ffff 20",
    ),
    (
        Call::Part(Shelf::Sel, 0, 16),
        (
            "raw 0x0a 0x43 0x02 0x01 0x34 0x12 0x00 0xff\necho .\n",
            " ff ff 01 00 02 78 56 34 12 20 00 04 01 30 01 55\n 00 ff\n. \n",
        ),
        (
            "00 0A 43 02 01 34 12 00 FF\n",
            "rcvd: 43 00 FF FF 01 00 02 78 56 34 12 20 00 04 01 30 01 55 00 FF \n",
        ),
        "ffff 010002785634122000040130015500ff",
    ),
    (
        Call::Info(Shelf::Sdr),
        (
            "raw 0x0a 0x20\necho .\n",
            " 51 02 00 00 01 01 02 03 04 05 06 07 08 2f\n. \n",
        ),
        (
            "00 0A 20\n",
            "rcvd: 20 00 51 02 00 00 01 01 02 03 04 05 06 07 08 2F \n",
        ),
        "510200000101020304050607082f",
    ),
    (
        Call::Info(Shelf::Sel),
        (
            "raw 0x0a 0x40\necho .\n",
            " 51 03 00 00 02 01 02 03 04 05 06 07 08 0f\n. \n",
        ),
        (
            "00 0A 40\n",
            "rcvd: 40 00 51 03 00 00 02 01 02 03 04 05 06 07 08 0F \n",
        ),
        "510300000201020304050607080f",
    ),
    (
        Call::Reading(0, 0x30),
        ("raw 0x04 0x2d 0x30\necho .\n", " 41 c0 c1 80\n. \n"),
        ("00 04 2D 30\n", "rcvd: 2D 00 41 C0 C1 80 \n"),
        "41c0c180",
    ),
    (
        Call::Reading(0, 0x30),
        ("raw 0x04 0x2d 0x30\necho .\n", " 41 c0 c1\n. \n"),
        ("00 04 2D 30\n", "rcvd: 2D 00 41 C0 C1 \n"),
        "41c0c100",
    ),
    (
        Call::Reading(0, 0x30),
        ("raw 0x04 0x2d 0x30\necho .\n", " 41 e0\n. \n"),
        ("00 04 2D 30\n", "rcvd: 2D 00 41 E0 \n"),
        "41e00000",
    ),
    (
        Call::FruSize(7),
        ("raw 0x0a 0x10 0x07\necho .\n", " 00 08 00\n. \n"),
        ("00 0A 10 07\n", "rcvd: 10 00 00 08 00 \n"),
        "0800 by bytes",
    ),
    (
        Call::FruSize(7),
        ("raw 0x0a 0x10 0x07\necho .\n", " 00 08 fe\n. \n"),
        ("00 0A 10 07\n", "rcvd: 10 00 00 08 FE \n"),
        "0800 by bytes",
    ),
    (
        Call::FruSize(7),
        ("raw 0x0a 0x10 0x07\necho .\n", " 00 08 01\n. \n"),
        ("00 0A 10 07\n", "rcvd: 10 00 00 08 01 \n"),
        "0800 by words",
    ),
    (
        Call::FruPart(7, 4),
        (
            "raw 0x0a 0x11 0x07 0x02 0x01 0x04\necho .\n",
            " 03 aa bb cc\n. \n",
        ),
        ("00 0A 11 07 02 01 04\n", "rcvd: 11 00 03 AA BB CC \n"),
        "aabbcc",
    ),
    (
        Call::FruPart(7, 4),
        ("raw 0x0a 0x11 0x07 0x02 0x01 0x04\necho .\n", " 00\n. \n"),
        ("00 0A 11 07 02 01 04\n", "rcvd: 11 00 00 \n"),
        "",
    ),
];

#[test]
fn what_a_reply_says_is_given(rt: HostRuntime) {
    for (call, (words, printed), (line, received), wanted) in CALLS {
        let outcome = (*wanted, None, 0);
        assert_call_through(
            &rt,
            rt.alloc(),
            Tool::Ipmitool,
            (0, words, printed),
            *call,
            outcome,
        );
        assert_call_through(
            &rt,
            rt.alloc(),
            Tool::FreeIpmi,
            (0, line, received),
            *call,
            outcome,
        );
    }
}

/// `(call, code of the reply, code of the result, milliseconds of sleep)`.
const REFUSALS: &[(Call, &str, &str, u128)] = &[
    (Call::Reserve(Shelf::Sdr), "D4", "d4", 0),
    (Call::Part(Shelf::Sdr, 5, 8), "C5", "c5", 0),
    (Call::Part(Shelf::Sdr, 5, 8), "CA", "ca", 0),
    (Call::Part(Shelf::Sdr, 5, 8), "CB", "cb", 0),
    (Call::Part(Shelf::Sdr, 5, 8), "CC", "cc", 0),
    (Call::Part(Shelf::Sdr, 5, 8), "FF", "ff", 0),
    (Call::Part(Shelf::Sdr, 5, 8), "C0", "c0", 500),
    (Call::Part(Shelf::Sel, 5, 8), "81", "81", 500),
    (Call::Part(Shelf::Sel, 5, 8), "C3", "c3", 500),
    (Call::Info(Shelf::Sdr), "CC", "cc", 0),
    (Call::Reading(0, 0x30), "CB", "cb", 0),
    (Call::Reading(0, 0x30), "CC", "cb", 0),
    (Call::Reading(0, 0x30), "CD", "cb", 0),
    (Call::Reading(0, 0x30), "D5", "cb", 0),
    (Call::Reading(0, 0x30), "C9", "c9", 0),
    (Call::Reading(0, 0x30), "CE", "ce", 0),
    (Call::Reading(0, 0x30), "C0", "c0", 500),
    (Call::FruSize(7), "CB", "cb", 0),
    (Call::FruSize(7), "CC", "cb", 0),
    (Call::FruSize(7), "CD", "cd", 0),
    (Call::FruSize(7), "D5", "d5", 0),
    (Call::FruPart(7, 4), "CC", "cc", 0),
    (Call::FruPart(7, 4), "81", "81", 500),
];

/// The line that makes FreeIPMI's tool send the request, and the command byte in its reply.
fn line_of(call: Call) -> (&'static str, &'static str) {
    match call {
        Call::Reserve(Shelf::Sdr) => ("00 0A 22\n", "22"),
        Call::Reserve(Shelf::Sel) => ("00 0A 42\n", "42"),
        Call::Part(Shelf::Sdr, _, _) => ("00 0A 23 02 01 34 12 05 08\n", "23"),
        Call::Part(Shelf::Sel, _, _) => ("00 0A 43 02 01 34 12 05 08\n", "43"),
        Call::Info(Shelf::Sdr) => ("00 0A 20\n", "20"),
        Call::Info(Shelf::Sel) => ("00 0A 40\n", "40"),
        Call::Reading(_, _) => ("00 04 2D 30\n", "2D"),
        Call::FruSize(_) => ("00 0A 10 07\n", "10"),
        Call::FruPart(_, _) => ("00 0A 11 07 02 01 04\n", "11"),
    }
}

#[test]
fn a_call_fails_with_the_code_of_its_reply(rt: HostRuntime) {
    let alloc = rt.alloc();
    for (call, code, wanted, slept) in REFUSALS {
        let (line, command) = line_of(*call);
        let printed = format!(in alloc; "rcvd: {command} {code} \n").expect(&rt, "memory");
        let wanted = format!(in alloc; "code {wanted}").expect(&rt, "memory");
        let script = (0, line, printed.as_str());
        assert_call_through(
            &rt,
            alloc,
            Tool::FreeIpmi,
            script,
            *call,
            (&wanted, None, *slept),
        );
    }
}

#[test]
fn without_reservations_0000h_stands_for_one(rt: HostRuntime) {
    for (shelf, line, printed) in [
        (Shelf::Sdr, "00 0A 22\n", "rcvd: 22 C1 \n"),
        (Shelf::Sel, "00 0A 42\n", "rcvd: 42 C1 \n"),
    ] {
        assert_call_through(
            &rt,
            rt.alloc(),
            Tool::FreeIpmi,
            (0, line, printed),
            Call::Reserve(shelf),
            ("0000", None, 0),
        );
    }
}

#[test]
fn codes_and_silence_of_ipmitool(rt: HostRuntime) {
    let call = Call::FruSize(7);
    let refusal =
        "Unable to send RAW command (channel=0x0 netfn=0xa lun=0x0 cmd=0x10 rsp=0xcc): Invalid data field in request\n. \n";
    let silence = "Unable to send RAW command (channel=0x0 netfn=0xa lun=0x0 cmd=0x10)\n. \n";
    let words = "raw 0x0a 0x10 0x07\necho .\n";
    let alloc = rt.alloc();
    assert_call_through(
        &rt,
        alloc,
        Tool::Ipmitool,
        (0, words, refusal),
        call,
        ("code cb", None, 0),
    );
    assert_call_through(
        &rt,
        alloc,
        Tool::Ipmitool,
        (0, words, silence),
        call,
        ("code c3", None, 500),
    );
}

#[test]
fn silence_of_freeipmi(rt: HostRuntime) {
    let script = (0, "00 0A 10 07\n", "ipmi_cmd_raw: session timeout\n");
    assert_call_through(
        &rt,
        rt.alloc(),
        Tool::FreeIpmi,
        script,
        Call::FruSize(7),
        ("code c3", None, 500),
    );
}

/// `(call, text that is not a reply to it)`.
const OTHERS: &[(Call, &str)] = &[
    (Call::Reserve(Shelf::Sdr), ""),
    (Call::Reserve(Shelf::Sdr), "rcvd: 22 00 34 12"),
    (Call::Reserve(Shelf::Sdr), "rcvd: 22 00 34 \n"),
    (Call::Reserve(Shelf::Sdr), "rcvd: 22 00 34 12 00 \n"),
    (Call::Reserve(Shelf::Sdr), "rcvd: 42 00 34 12 \n"),
    (Call::Reserve(Shelf::Sdr), "ipmi-raw: connection timeout\n"),
    (Call::Part(Shelf::Sdr, 5, 8), "rcvd: 23 00 02 \n"),
    (
        Call::Part(Shelf::Sdr, 5, 8),
        "rcvd: 23 00 02 00 01 02 03 04 05 06 07 08 09 \n",
    ),
    (
        Call::Info(Shelf::Sel),
        "rcvd: 40 00 51 03 00 00 02 01 02 03 04 05 06 07 08 \n",
    ),
    (
        Call::Info(Shelf::Sel),
        "rcvd: 40 00 51 03 00 00 02 01 02 03 04 05 06 07 08 0F 00 \n",
    ),
    (Call::Reading(0, 0x30), "rcvd: 2D 00 41 \n"),
    (Call::Reading(0, 0x30), "rcvd: 2D 00 41 C0 C1 80 00 \n"),
    (Call::FruSize(7), "rcvd: 10 00 00 08 \n"),
    (Call::FruSize(7), "rcvd: 10 00 00 08 00 00 \n"),
    (Call::FruPart(7, 4), "rcvd: 11 00 \n"),
    (Call::FruPart(7, 4), "rcvd: 11 00 03 AA BB \n"),
    (Call::FruPart(7, 4), "rcvd: 11 00 02 AA BB CC \n"),
    (Call::FruPart(7, 4), "rcvd: 11 00 05 AA BB CC DD EE \n"),
];

#[test]
fn where_no_reply_comes_the_connection_is_lost(rt: HostRuntime) {
    for (call, text) in OTHERS {
        let (line, _) = line_of(*call);
        let outcome = ("code ff", Some(*text), 0);
        assert_call_through(
            &rt,
            rt.alloc(),
            Tool::FreeIpmi,
            (0, line, text),
            *call,
            outcome,
        );
    }
    let text = "Error: Unable to establish LAN session\n";
    let script = (0, "", text);
    let outcome = ("code ff", Some(text), 0);
    assert_call_through(
        &rt,
        rt.alloc(),
        Tool::Ipmitool,
        script,
        Call::Info(Shelf::Sdr),
        outcome,
    );
}

#[test]
fn nothing_is_sent_once_the_connection_is_lost(rt: HostRuntime) {
    let sleeper = Sleeper(Cell::new(0));
    let line = "00 0A 22\n00 0A 22\n";
    let printed = "out of memory\nrcvd: 22 00 34 12 \n";
    let scripts = [(0, line, printed)];
    let mut ctl = controller(Tool::FreeIpmi, &scripts, &sleeper);
    for call in [
        Call::Reserve(Shelf::Sdr),
        Call::Reserve(Shelf::Sdr),
        Call::Part(Shelf::Sel, 0, 16),
        Call::Info(Shelf::Sel),
        Call::Reading(0, 0x30),
        Call::FruSize(7),
        Call::FruPart(7, 4),
    ] {
        assert_call(&rt, rt.alloc(), &mut ctl, call, "code ff");
        let said = ctl.lost().expect(&rt, "it is lost");
        assert!(&rt; said == b"out of memory\n".as_slice(), "{said:?}");
    }
}

#[test]
fn ipmitool_is_opened_once_for_each_logical_unit(rt: HostRuntime) {
    let sleeper = Sleeper(Cell::new(0));
    let words = "raw 0x04 0x2d 0x30\necho .\nraw 0x04 0x2d 0x31\necho .\n";
    let scripts = [
        (0, words, " 01 c0\n. \n 02 c0\n. \n"),
        (1, words, " 11 c0\n. \n 12 c0\n. \n"),
        (2, words, " 21 c0\n. \n 22 c0\n. \n"),
        (3, words, " 31 c0\n. \n 32 c0\n. \n"),
    ];
    let mut ctl = controller(Tool::Ipmitool, &scripts, &sleeper);
    for (lun, number, wanted) in [
        (1, 0x30, "11c00000"),
        (0, 0x30, "01c00000"),
        (3, 0x30, "31c00000"),
        (1, 0x31, "12c00000"),
        (2, 0x30, "21c00000"),
        (3, 0x31, "32c00000"),
        (0, 0x31, "02c00000"),
        (2, 0x31, "22c00000"),
    ] {
        assert_call(
            &rt,
            rt.alloc(),
            &mut ctl,
            Call::Reading(lun, number),
            wanted,
        );
    }
    assert_call(&rt, rt.alloc(), &mut ctl, Call::Reading(4, 0x30), "code ff");
    assert!(&rt; ctl.lost() == Some(b"".as_slice()), "there is no unit 4");
}

#[test]
fn a_tool_that_does_not_open_is_no_connection(rt: HostRuntime) {
    let sleeper = Sleeper(Cell::new(0));
    let scripts = [(0, "raw 0x0a 0x20\necho .\n", "\n. \n")];
    let mut ctl = controller(Tool::Ipmitool, &scripts, &sleeper);
    assert_call(&rt, rt.alloc(), &mut ctl, Call::Reading(1, 0x30), "code ff");
    assert!(&rt; ctl.lost() == Some(b"".as_slice()), "no tool for unit 1");
}

#[test]
fn freeipmi_is_one_tool_for_all_logical_units(rt: HostRuntime) {
    let sleeper = Sleeper(Cell::new(0));
    let lines = "01 04 2D 30\n00 04 2D 30\n03 04 2D 30\n";
    let replies = "rcvd: 2D 00 11 C0 \nrcvd: 2D 00 01 C0 \nrcvd: 2D 00 31 C0 \n";
    let scripts = [(0, lines, replies)];
    let mut ctl = controller(Tool::FreeIpmi, &scripts, &sleeper);
    for (lun, wanted) in [(1, "11c00000"), (0, "01c00000"), (3, "31c00000")] {
        assert_call(&rt, rt.alloc(), &mut ctl, Call::Reading(lun, 0x30), wanted);
    }
}
