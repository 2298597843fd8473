//! Command lines with a fault. Each is answered with the usage line.
use super::lines::{read_line, read_words};
use crate::commands::answers::assert_usage_answer;
use ipmi_command_line::{Command, UsageFault};
use std::alloc::{AllocError, Global};
use std::process::Abort;

fn assert_fault(
    rt: &impl Abort,
    got: &Result<Command, UsageFault>,
    wanted: UsageFault,
    line: &str,
) {
    match got {
        Ok(_) => panic!(rt; "{line}: taken as a command"),
        Err(fault) => assert!(rt; *fault == wanted, "{line}: got {fault:?}"),
    }
}

/// Asserts the fault of a line, and that it is answered with the usage line.
fn assert_fault_of_line(rt: &impl Abort, alloc: Global, line: &str, fault: UsageFault) {
    let got = read_line(rt, alloc, line);
    assert_fault(rt, &got, fault, line);
    assert_usage_answer(rt, alloc, got, line);
}

/// The same for each line.
fn assert_fault_of_lines(rt: &impl Abort, alloc: Global, lines: &str, fault: UsageFault) {
    for line in lines.lines() {
        assert_fault_of_line(rt, alloc, line, fault);
    }
}

/// The same for a line of unknown words, split at commas.
fn assert_no_command(rt: &impl Abort, alloc: Global, line: &str) {
    let got = read_words(rt, alloc, line);
    assert_fault(rt, &got, UsageFault::Command, line);
    assert_usage_answer(rt, alloc, got, line);
}

const OTHER_WORDS: &str = "hex
help
image
ipmitool
SDR
sdr frob
sdr Hex
sdr get
sdr first
sel hex
sel get
sel first
hex sdr
fru list
print fru
image hex
image info
sdr rewrite
sdr hex all
sdr info all
sdr list frob
sdr list Full
sdr list mc
sdr elist frob
sel info 1
sel elist 1
sel list first
sel list last
sel list all
sel first 1
fru print all
fru get 1
image rewrite all
sdr get CPU Temp
sdr list all all
sdr list first 1
sel list oldest 1
sel list first 1 2
sel get first 1
fru print 0 1
image rewrite a b c";

/// Words split at commas. Some are empty or have a space.
const ODD_WORDS: &str = "
sdr,hex,
,sdr
sel,get,
sel,get, 1";

#[test]
fn other_words_are_no_command(rt: HostRuntime) {
    assert_fault_of_lines(&rt, rt.alloc(), OTHER_WORDS, UsageFault::Command);
    for line in ODD_WORDS.lines() {
        assert_no_command(&rt, rt.alloc(), line);
    }
}

const NUMBERS: &str = "fru print 255
fru print 0xff
fru print 0x00ff
fru print 256
fru print 00
fru print 01
fru print +1
fru print 1a
fru print fe
sel get 0
sel get 0x0
sel get 0x0000
sel get 65535
sel get 0xffff
sel get 65536
sel get 007
sel get 0x
sel get 0x00001
sel get 0X1
sel get x1
sel get 0xg
sel get 0x+1
sel get 0x0x1
sel list 65536
sel list 00
sel list 18446744073709551616
sel list 1_000
sel list first 65536
sel list first 0x10000
sel list last 65536
sel list last 01
sel list last ten";

#[test]
fn numbers_out_of_range_or_unreadable_are_no_command(rt: HostRuntime) {
    assert_fault_of_lines(&rt, rt.alloc(), NUMBERS, UsageFault::Command);
}

const OPTIONS: &str = "--from 0000
--from ffff
--from FFFF
--from 1
--from 001
--from 00001
--from 0x01
--from 000g
--from +001
--from=-001
--part 0
--part 255
--part 256
--part 65568
--part 01
--part 0x20
--part +5
--part=-5
--part five
--tries 256
--tries 00
--tries 0x5
--tries 18446744073709551621
--tries=
--from=
--part=";

#[test]
fn options_out_of_range_or_unreadable_are_faults(rt: HostRuntime) {
    assert_fault_of_lines(&rt, rt.alloc(), OPTIONS, UsageFault::Option);
}

const STARTS: &str = "fru --from 0002
fru print --from 0002
fru print 0 --from 0002
sdr info --from 0002
sel --from 0002
sel info --from 0002
sel get 2 --from 0002
--from 0001 image rewrite";

#[test]
fn other_commands_take_no_start(rt: HostRuntime) {
    assert_fault_of_lines(&rt, rt.alloc(), STARTS, UsageFault::Option);
}

const UNREADABLE: &str = "--help
-h
sdr hex --help
--version
-V
--nope
--nope=1
-x
-1
--fro 0002
--from 0002 --from 0002
--part 1 sdr --part 1
--tries 1 --tries 2
--image a --image b
sdr hex --part
--from
--tries
--image
--tries -7
--part --tries 5
fru print -1
sdr get -h";

#[test]
fn some_lines_cannot_be_read(rt: HostRuntime) {
    assert_fault_of_lines(&rt, rt.alloc(), UNREADABLE, UsageFault::Line);
}

const UNREADABLE_WITH_OTHERS: &str = "--nope sdr frob --part 0
sdr frob --part
--part 0 --part 0
--help --from 0000";

const NO_COMMAND_WITH_OPTIONS: &str = "sdr frob --part 0
--from 0000 frob
sel get 0 --tries 256
--from 0002 fru print 255";

const SEVERAL_OPTIONS: &str = "--from 0000 --part 0 --tries 256 sdr hex
--from 0000 sel info";

// The order of faults: an unreadable line, unknown words, an option that is out of range or not allowed.
#[test]
fn the_first_fault_counts(rt: HostRuntime) {
    assert_fault_of_lines(&rt, rt.alloc(), UNREADABLE_WITH_OTHERS, UsageFault::Line);
    assert_fault_of_lines(
        &rt,
        rt.alloc(),
        NO_COMMAND_WITH_OPTIONS,
        UsageFault::Command,
    );
    assert_fault_of_lines(&rt, rt.alloc(), SEVERAL_OPTIONS, UsageFault::Option);
}

#[test]
fn want_of_memory_is_a_usage_fault(rt: HostRuntime) {
    let fault = UsageFault::from(AllocError);
    assert!(rt; fault == UsageFault::Memory, "{fault:?}");
    let text = format!(in rt.alloc(); "{fault}").expect(&rt, "memory");
    assert!(rt; text.as_str() == "out of memory", "got {text}");
}
