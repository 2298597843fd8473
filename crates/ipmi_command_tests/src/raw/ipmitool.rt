//! The output of `ipmitool exec` for replies to Get SDR, with the end mark.
use crate::raw::cases::{Reader, assert_replies, assert_reply, get_sdr};
use ipmi_raw::Request;
use std::alloc::Global;
use std::process::Abort;

/// `text|reply`. A semicolon is a line feed.
const DATA: &str = ";. ;|data 
 02;. ;|data 02
 0a f9;. ;|data 0af9
 02 00 01 00 51;. ;|data 0200010051
 00 01 02 03 04 05 06 07 08 09 0a 0b 0c 0d 0e;. ;|data 000102030405060708090a0b0c0d0e
 00 01 02 03 04 05 06 07 08 09 0a 0b 0c 0d 0e 0f;. ;|data 000102030405060708090a0b0c0d0e0f
 00 01 02 03 04 05 06 07 08 09 0a 0b 0c 0d 0e 0f; 10;. ;|data 000102030405060708090a0b0c0d0e0f10
 00 01 02 03 04 05 06 07 08 09 0a 0b 0c 0d 0e 0f; 10 11 12 13 14 15 16 17 18 19 1a 1b 1c 1d 1e 1f;. ;|data 000102030405060708090a0b0c0d0e0f101112131415161718191a1b1c1d1e1f
 00 01 02 03 04 05 06 07 08 09 0a 0b 0c 0d 0e 0f; 10 11 12 13 14 15 16 17 18 19 1a 1b 1c 1d 1e 1f; 20;. ;|data 000102030405060708090a0b0c0d0e0f101112131415161718191a1b1c1d1e1f20";

/// `text|reply`. A semicolon is a line feed.
const OTHERS: &str = "|none
;|none
. ;|none
 02|none
 02;|none
 02;. |none
 02;.;|none
 02;. ;;|none
 02;. ; 03;. ;|none
02;. ;|none
 2;. ;|none
 02 ;. ;|none
 0A;. ;|none
 0g;. ;|none
 02; 03;. ;|none
 00 01 02 03 04 05 06 07 08 09 0a 0b 0c 0d 0e 0f 10;. ;|none
 00 01 02 03 04 05 06 07 08 09 0a 0b 0c 0d 0e 0f;;. ;|none
 00 01 02 03 04 05 06 07 08 09 0a 0b 0c 0d 0e 0f;|none
Error: Unable to establish LAN session;|none
Error: Unable to establish LAN session;. ;|none";

/// `text|reply`. A semicolon is a line feed.
const REFUSALS: &str =
    "Unable to send RAW command (channel=0x0 netfn=0xa lun=0x0 cmd=0x23 rsp=0xcb): Requested sensor, data, or record not found;. ;|code cb
Unable to send RAW command (channel=0x0 netfn=0xa lun=0x0 cmd=0x23 rsp=0xc5): Reservation cancelled or invalid;. ;|code c5
Unable to send RAW command (channel=0x0 netfn=0xa lun=0x0 cmd=0x23 rsp=0x1): Unknown (0x01);. ;|code 01
Unable to send RAW command (channel=0x0 netfn=0xa lun=0x0 cmd=0x23 rsp=0xf): Unknown (0x0F);. ;|code 0f
Unable to send RAW command (channel=0x0 netfn=0xa lun=0x0 cmd=0x23 rsp=0x10): Unknown (0x10);. ;|code 10
Unable to send RAW command (channel=0x0 netfn=0xa lun=0x0 cmd=0x23 rsp=0xff): Unspecified error;. ;|code ff
Unable to send RAW command (channel=0x0 netfn=0xa lun=0x0 cmd=0x23 rsp=0xcb): ;. ;|code cb
Unable to send RAW command (channel=0x0 netfn=0xa lun=0x0 cmd=0x23);. ;|silent";

/// `text|reply`. A semicolon is a line feed.
const OTHER_REFUSALS: &str =
    "Unable to send RAW command (channel=0x0 netfn=0xa lun=0x0 cmd=0x23 rsp=0xcb): Requested sensor, data, or record not found;|none
Unable to send RAW command (channel=0x0 netfn=0xa lun=0x0 cmd=0x43 rsp=0xcb): Requested sensor, data, or record not found;. ;|none
Unable to send RAW command (channel=0x0 netfn=0x4 lun=0x0 cmd=0x23 rsp=0xcb): Requested sensor, data, or record not found;. ;|none
Unable to send RAW command (channel=0x0 netfn=0xa lun=0x1 cmd=0x23 rsp=0xcb): Requested sensor, data, or record not found;. ;|none
Unable to send RAW command (channel=0x0 netfn=0xa lun=0x0 cmd=0x23 rsp=0xCB): Requested sensor, data, or record not found;. ;|none
Unable to send RAW command (channel=0x0 netfn=0xa lun=0x0 cmd=0x23 rsp=0x01): Unknown (0x01);. ;|none
Unable to send RAW command (channel=0x0 netfn=0xa lun=0x0 cmd=0x23 rsp=0x0): Command completed normally;. ;|none
Unable to send RAW command (channel=0x0 netfn=0xa lun=0x0 cmd=0x23 rsp=0x1cb): Unknown;. ;|none
Unable to send RAW command (channel=0x0 netfn=0xa lun=0x0 cmd=0x23 rsp=0x): Unknown;. ;|none
Unable to send RAW command (channel=0x0 netfn=0xa lun=0x0 cmd=0x23 rsp=0xcb);. ;|none
Unable to send RAW command (channel=0x0 netfn=0xa lun=0x0 cmd=0x23 rsp=0xcb): Requested; 02;. ;|none
Unable to send RAW command (channel=0x0 netfn=0xa lun=0x0 cmd=0x23);|none
Unable to send RAW command (channel=0x0 netfn=0xa lun=0x0 cmd=0x23)|none
Unable to send RAW command (channel=0x0 netfn=0xa|none";

/// `text|reply` to Get Sensor Reading at LUN 1.
const READINGS: &str = " 41 c0 c0 00;. ;|data 41c0c000
Unable to send RAW command (channel=0x0 netfn=0x4 lun=0x1 cmd=0x2d rsp=0xcd): Command illegal for specified sensor or record type;. ;|code cd
Unable to send RAW command (channel=0x0 netfn=0x4 lun=0x1 cmd=0x2d);. ;|silent
Unable to send RAW command (channel=0x0 netfn=0x4 lun=0x0 cmd=0x2d);. ;|none";

#[test]
fn data_is_read(rt: HostRuntime) {
    assert_replies(&rt, rt.alloc(), Reader::Ipmitool, get_sdr(), DATA);
}

#[test]
fn other_texts_are_not(rt: HostRuntime) {
    assert_replies(&rt, rt.alloc(), Reader::Ipmitool, get_sdr(), OTHERS);
}

#[test]
fn codes_and_silence_are_read(rt: HostRuntime) {
    assert_replies(&rt, rt.alloc(), Reader::Ipmitool, get_sdr(), REFUSALS);
}

#[test]
fn codes_and_silence_of_others_are_not(rt: HostRuntime) {
    assert_replies(&rt, rt.alloc(), Reader::Ipmitool, get_sdr(), OTHER_REFUSALS);
}

#[test]
fn a_reading_has_its_own_command_and_unit(rt: HostRuntime) {
    let request = Request::Reading(1, 0x30);
    assert_replies(&rt, rt.alloc(), Reader::Ipmitool, request, READINGS);
}

/// Asserts the reply in a text of fifteen lines of sixteen bytes A7h, and one of `last` bytes.
fn assert_long_reply(rt: &impl Abort, alloc: Global, last: usize, wanted: &str) {
    let line = " a7".repeat(alloc, 16).expect(rt, "memory");
    let lines = format!(in alloc; "{line}\n").expect(rt, "memory");
    let lines = lines.repeat(alloc, 15).expect(rt, "memory");
    let rest = " a7".repeat(alloc, last).expect(rt, "memory");
    let text = format!(in alloc; "{lines}{rest}\n. \n").expect(rt, "memory");
    assert_reply(
        rt,
        alloc,
        Reader::Ipmitool,
        get_sdr(),
        text.as_bytes(),
        wanted,
    );
}

#[test]
fn a_reply_has_255_bytes_at_most(rt: HostRuntime) {
    let alloc = rt.alloc();
    let digits = "a7".repeat(alloc, 255).expect(&rt, "memory");
    let wanted = format!(in alloc; "data {digits}").expect(&rt, "memory");
    assert_long_reply(&rt, alloc, 15, &wanted);
    assert_long_reply(&rt, alloc, 16, "none");
}
