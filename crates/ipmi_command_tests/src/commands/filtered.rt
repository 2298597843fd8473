//! Listings of the sensor data records, and of the entries of the event log, that pass filters.
use super::over_images::over;
use crate::cases::parts;
use crate::command_line::lines::command_of_case;
use crate::writers::assert_written_text;
use ipmi_command_line::{Command, Filters, Words, request_of};
use ipmi_commands::{Job, LIVE_PART, RequestLimits, Summary, execute};
use ipmi_output::Written;
use ipmi_program::Wording;
use std::alloc::Global;
use std::process::Abort;

/// A temperature sensor of entity 3.1, a FRU device of entity 10.1, and a record that is too short. An event of a temperature sensor, one
/// of a fan 16 seconds later, one of the time before the clock was set, an OEM entry without a time, an event whose time is not known, and one with the last stamp
/// that counts from the start of the clock.
const RECORDS: &str = "ipmi-image 1
sdr 0001 0002 CPU_TEMP
sdr 0002 0003 020051110f200180000000000a0100c450535531
sdr 0003 ffff 0300510100
reading 0 01 2dc00000
sel 0001 0002 01000201000020200004013001595f5a
sel 0002 0003 02000211000020200004043101521020
sel 0003 0004 03000205000000200004013001595f5a
sel 0004 0005 0400e000000000000000000000000000
sel 0005 0006 050002ffffffff200004013001595f5a
sel 0006 ffff 06000200000020200004013001595f5a
end
";

/// Asserts the lines of a command over these records, the number of its calls, and how many lines there are and have a fault.
fn assert_listing(
    rt: &impl Abort,
    alloc: Global,
    records: &str,
    command: &Command,
    filters: &Filters,
    numbers: &str,
    lines: &str,
) {
    let mut ctl = over(rt, alloc, records);
    let limits = RequestLimits::reading_ahead(LIVE_PART, 5);
    let mut out = Written::new(Vec::new(alloc));
    let mut summary = Summary::new();
    let job = Job::of(&Wording::Plain, command.task(), command.from()).expect(rt, lines);
    let ended = execute(
        alloc,
        &mut ctl,
        limits,
        &Wording::Plain,
        job.keeping_last().choosing(filters),
        &mut out,
        &mut summary,
    );
    assert!(rt; ended.is_ok(), "{lines}");
    let (calls, pieces, faults) = (ctl.calls, summary.pieces(), summary.faults());
    let got = format!(in alloc; "{calls} {pieces} {faults}").expect(rt, "memory");
    assert!(rt; got.as_str() == numbers, "{lines}: got {got}");
    let out = out.into_inner();
    assert_written_text(rt, &out, lines);
    drop(out);
    drop(ctl);
}

/// The words of a line after the program's name, split at commas.
fn words_of(rt: &impl Abort, alloc: Global, line: &str) -> Words {
    let mut words = Words::new(alloc);
    words.push("serdimko").expect(rt, "memory");
    for word in line.split(',') {
        words.push(word).expect(rt, "memory");
    }
    words
}

/// The same for a case: the words and the numbers, then the lines.
fn assert_case(rt: &impl Abort, alloc: Global, records: &str, case: &str) {
    let (first, lines) = case.split_once('\n').expect(rt, case);
    let (line, numbers) = parts(rt, first);
    let words = words_of(rt, alloc, line);
    let request = request_of(alloc, 0, words.as_slice()).ok().expect(rt, line);
    let command = command_of_case(rt, alloc, line.split_once(",--").map_or(line, |cut| cut.0));
    assert_listing(
        rt,
        alloc,
        records,
        &command,
        &request.filters,
        numbers,
        lines,
    );
    drop(command);
    drop(request);
    drop(words);
}

/// `words|calls lines faults`, then the lines. A reservation, each record and each entry are a call, and so is the reading of the sensor,
/// if that is chosen.
const LISTED: &str = "sdr,list,all|5 3 1
CPU Temp         | 45 degrees C      | ok
PSU1             | FRU 1             | na
record 0003h: body too short
====
sdr,list,all,--type,temperature|5 1 0
CPU Temp         | 45 degrees C      | ok
====
sdr,list,all,--type,2|4 0 0
====
sdr,list,all,--entity,10|4 1 0
PSU1             | FRU 1             | na
====
sdr,list,all,--entity,3.1|5 1 0
CPU Temp         | 45 degrees C      | ok
====
sdr,list,all,--entity,3.2|4 0 0
====
sdr,list,all,--id,0003,--exclude,PSU1|4 1 1
record 0003h: body too short
====
sdr,list,all,--id,0001-0002|5 2 0
CPU Temp         | 45 degrees C      | ok
PSU1             | FRU 1             | na
====
sdr,list,all,--exclude,PSU1|5 2 1
CPU Temp         | 45 degrees C      | ok
record 0003h: body too short
====
sdr,list,all,--exclude,CPU Temp,--exclude,PSU1|4 1 1
record 0003h: body too short
====
sdr,list,fru,--type,1|4 0 0
====
sdr,list,full,--entity,3|5 1 0
CPU Temp         | 45 degrees C      | ok
====
sel,list,--type,fan|7 1 0
0002 | 1987-01-05 18:48:49 | Fan #0x31 | Lower Critical going low | Asserted
====
sel,list,--since,1970-01-01|7 2 0
0001 | 1987-01-05 18:48:33 | Temperature #0x30 | Upper Critical going high | Asserted
0002 | 1987-01-05 18:48:49 | Fan #0x31 | Lower Critical going low | Asserted
====
sel,list,--since,1987-01-05T18:48:34Z,--until,1987-01-05T18:48:49Z|7 1 0
0002 | 1987-01-05 18:48:49 | Fan #0x31 | Lower Critical going low | Asserted
====
sel,list,--until,1987-01-05T18:48:33Z|7 1 0
0001 | 1987-01-05 18:48:33 | Temperature #0x30 | Upper Critical going high | Asserted
====
sel,list,--until,1987-01-05|7 0 0
====
sel,list,--type,1,--id,0002-0003|7 1 0
0003 | +5 s | Temperature #0x30 | Upper Critical going high | Asserted
====
sel,list,--id,0007|7 0 0
====
sel,list,1,--type,fan|3 1 0
0002 | 1987-01-05 18:48:49 | Fan #0x31 | Lower Critical going low | Asserted
====
sel,list,first,2,--type,temperature|4 2 0
0001 | 1987-01-05 18:48:33 | Temperature #0x30 | Upper Critical going high | Asserted
0003 | +5 s | Temperature #0x30 | Upper Critical going high | Asserted
====
sel,list,2,--type,fan|7 1 0
0002 | 1987-01-05 18:48:49 | Fan #0x31 | Lower Critical going low | Asserted
====
sel,list,0,--type,fan|7 1 0
0002 | 1987-01-05 18:48:49 | Fan #0x31 | Lower Critical going low | Asserted
====
sel,list,last,1,--type,fan|7 1 0
0002 | 1987-01-05 18:48:49 | Fan #0x31 | Lower Critical going low | Asserted
====
sel,list,last,1,--id,0001-0003|7 1 0
0003 | +5 s | Temperature #0x30 | Upper Critical going high | Asserted
====
sel,list,last,3,--since,1970-01-01|7 2 0
0001 | 1987-01-05 18:48:33 | Temperature #0x30 | Upper Critical going high | Asserted
0002 | 1987-01-05 18:48:49 | Fan #0x31 | Lower Critical going low | Asserted
====
sel,list,last,1,--since,2000-01-01|7 0 0
";

#[test]
fn only_what_passes_is_listed(rt: HostRuntime) {
    for case in LISTED.split("====\n") {
        assert_case(&rt, rt.alloc(), RECORDS, case);
    }
}

/// A threshold that is non-critical, a critical one, and one that is no longer passed; a power supply that is present, and one without
/// input; an OEM entry; a correctable memory error; an event of an OEM type, one of a reserved offset, and a state whose meaning is the
/// vendor's.
const EVENTS: &str = "ipmi-image 1
sel 0001 0002 0100020100002020000401300100ffff
sel 0002 0003 0200020200002020000404310102ffff
sel 0003 0004 0300020300002020000404318102ffff
sel 0004 0005 0400020400002020000408636f00ffff
sel 0005 0006 0500020500002020000408636f03ffff
sel 0006 0007 0600e000000000000000000000000000
sel 0007 0008 070002070000202000040c106f00ffff
sel 0008 0009 080002080000202000040c107000ffff
sel 0009 000a 0900020900002020000408636f0effff
sel 000a ffff 0a00020a00002020000408630301ffff
end
";

/// The same for these events.
const WORSE: &str = "sel,list,--worse,warning|11 5 0
0001 | 1987-01-05 18:48:33 | Temperature #0x30 | Lower Non-critical going low | Asserted
0002 | 1987-01-05 18:48:34 | Fan #0x31 | Lower Critical going low | Asserted
0005 | 1987-01-05 18:48:37 | Power Supply #0x63 | event 0x6f offset 0x3 | Asserted
0007 | 1987-01-05 18:48:39 | Memory #0x10 | event 0x6f offset 0x0 | Asserted
000a | 1987-01-05 18:48:42 | Power Supply #0x63 | event 0x03 offset 0x1 | Asserted
====
sel,list,--worse,critical|11 2 0
0002 | 1987-01-05 18:48:34 | Fan #0x31 | Lower Critical going low | Asserted
0005 | 1987-01-05 18:48:37 | Power Supply #0x63 | event 0x6f offset 0x3 | Asserted
====
sel,list,last,1,--worse,critical|11 1 0
0005 | 1987-01-05 18:48:37 | Power Supply #0x63 | event 0x6f offset 0x3 | Asserted
====
sel,list,--worse,warning,--type,memory|11 1 0
0007 | 1987-01-05 18:48:39 | Memory #0x10 | event 0x6f offset 0x0 | Asserted
";

#[test]
fn only_events_as_bad_as_this_are_listed(rt: HostRuntime) {
    for case in WORSE.split("====\n") {
        assert_case(&rt, rt.alloc(), EVENTS, case);
    }
}
