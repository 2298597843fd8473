//! Commands over an image that is asked through a tool, in both dialects. Each prints the same as over the image itself.
use crate::raw::calls::{Call, assert_call};
use crate::raw::memory::controller_over;
use crate::raw::tools::Sleeper;
use ipmi_bus::Shelf;
use ipmi_command_line::{Command, Words, command_of};
use ipmi_image::Image;
use ipmi_output::Written;
use ipmi_plain::run;
use ipmi_raw::Tool;
use std::alloc::Global;
use std::cell::Cell;
use std::process::Abort;

/// A sensor and a FRU device, three entries, two inventories, readings at two logical units, and an info.
const IMAGE: &str = "ipmi-image 1
sdr 0001 0002 \
    010051013320000103017f680101000000003838000100000100000000000000000000005f5a550000000202000000c84350552054656d70
sdr 0002 ffff 020051110f200180000000000a0100c450535531
sel 0001 0002 01000201000020200004013001595f5a
sel 0002 0003 02000200000020200004013081570000
sel 0003 ffff 0300c0ffffffff571300010203040506
fru 00 01000100000000fe010117c100000026
fru 01 01
reading 0 01 2dc00000
reading 1 01 11e00102
info sel 510300000401000020ffffffff02
end
";

/// The words, split at commas, then the expected output.
const LISTINGS: &str = "sdr,list,all
CPU Temp         | 45 degrees C      | ok
PSU1             | FRU 1             | na
====
sdr,list,all,--part,254
CPU Temp         | 45 degrees C      | ok
PSU1             | FRU 1             | na
====
sdr,elist,--part,1
CPU Temp         | 01h | ok  | 3.1   | 45 degrees C
====
sdr,hex
sdr 0001 0002 010051013320000103017f680101000000003838000100000100000000000000000000005f5a550000000202000000c84350552054656d70
sdr 0002 ffff 020051110f200180000000000a0100c450535531
====
sel,list
0001 | 1987-01-05 18:48:33 | Temperature #0x30 | Upper Critical going high | Asserted
0002 | +536870912 s | Temperature #0x30 | Upper Non-critical going high | Deasserted
0003 | unspecified | OEM record 0xc0 | 001357 | 010203040506
====
sel,list,last,2,--part,254
0002 | +536870912 s | Temperature #0x30 | Upper Non-critical going high | Deasserted
0003 | unspecified | OEM record 0xc0 | 001357 | 010203040506
====
sel,info
Version: 0x51
Records: 3
Free Space: 1024
Last Addition: 1987-01-05 18:48:33
Last Erase: unspecified
Overflow: no
Support: 0x02
====
fru
FRU 0
Chassis Type: Rack Mount Chassis

FRU 1 (PSU1)
FRU fault: header short

====
fru,print,0,--part,3
FRU 0
Chassis Type: Rack Mount Chassis

";

/// The command of these words.
fn command(rt: &impl Abort, alloc: Global, line: &str) -> Command {
    let mut words = Words::new(alloc);
    words.push("ipmitool").expect(rt, "memory");
    for word in line.split(',') {
        words.push(word).expect(rt, "memory");
    }
    assert!(rt; 0 < words.as_slice().len(), "no word");
    let command = command_of(alloc, &words).expect(rt, line);
    drop(words);
    command
}

/// Asserts the output of a command over the image, asked through the tool.
fn assert_output(rt: &impl Abort, alloc: Global, tool: Tool, line: &str, wanted: &str) {
    let image = Image::read(alloc, IMAGE.as_bytes()).expect(rt, "an image");
    let sleeper = Sleeper(Cell::new(0));
    let mut ctl = controller_over(tool, image, &sleeper);
    let mut out = Written::new(Vec::new(alloc));
    let mut err = Vec::new(alloc);
    let command = command(rt, alloc, line);
    let status = run(alloc, &mut ctl, &command, &mut out, &mut err);
    assert!(rt; status == 0 && err.is_empty(), "{line} ends with {status}");
    assert!(rt; ctl.lost().is_none(), "{line} loses the connection");
    let printed = out.into_inner();
    assert!(rt;
        printed.as_slice() == wanted.as_bytes(),
        "{tool:?}: {line} prints another text"
    );
}

#[test]
fn each_command_prints_what_it_prints_over_the_image(rt: HostRuntime) {
    for listing in LISTINGS.split("====\n") {
        let (line, wanted) = listing.split_once('\n').expect(&rt, "a line");
        assert_output(&rt, rt.alloc(), Tool::Ipmitool, line, wanted);
        assert_output(&rt, rt.alloc(), Tool::FreeIpmi, line, wanted);
    }
}

/// `(call, result)`, in order. The image has no record 1234h.
const CALLS: &[(Call, &str)] = &[
    (Call::Reserve(Shelf::Sdr), "0001"),
    (Call::Reserve(Shelf::Sel), "0002"),
    (Call::Part(Shelf::Sdr, 0, 5), "code cb"),
    (Call::Part(Shelf::Sel, 0, 16), "code cb"),
    (Call::Info(Shelf::Sdr), "code cb"),
    (Call::Info(Shelf::Sel), "510300000401000020ffffffff02"),
    (Call::Reading(0, 1), "2dc00000"),
    (Call::Reading(1, 1), "11e00102"),
    (Call::Reading(2, 1), "code cb"),
    (Call::Reading(4, 1), "code cb"),
    (Call::FruSize(0), "0010 by bytes"),
    (Call::FruSize(2), "code cb"),
    (Call::FruPart(0, 16), "code c9"),
];

#[test]
fn calls_are_answered_by_the_image(rt: HostRuntime) {
    for tool in [Tool::Ipmitool, Tool::FreeIpmi] {
        let image = Image::read(rt.alloc(), IMAGE.as_bytes()).expect(&rt, "an image");
        let sleeper = Sleeper(Cell::new(0));
        let mut ctl = controller_over(tool, image, &sleeper);
        for (call, wanted) in CALLS {
            assert_call(&rt, rt.alloc(), &mut ctl, *call, wanted);
        }
        assert!(&rt; ctl.lost().is_none(), "{tool:?} loses the connection");
    }
}
