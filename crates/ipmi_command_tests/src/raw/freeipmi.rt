//! The output of FreeIPMI's `ipmi-raw` for replies to Get SDR.
use crate::raw::cases::{Reader, assert_replies, assert_reply, get_sdr};
use std::alloc::Global;
use std::process::Abort;

/// `text|reply`. A semicolon is a line feed.
const REPLIES: &str = "rcvd: 23 00 ;|data 
rcvd: 23 00 02 00 01 ;|data 020001
rcvd: 23 00 0A F9 ;|data 0af9
rcvd: 23 00 00 01 02 03 04 05 06 07 08 09 0A 0B 0C 0D 0E 0F 10 ;|data 000102030405060708090a0b0c0d0e0f10
rcvd: 23 CB ;|code cb
rcvd: 23 01 ;|code 01
rcvd: 23 C5 02 00 ;|code c5
ipmi_cmd_raw: session timeout;|silent
ipmi_cmd_raw: message timeout;|silent
ipmi_cmd_raw: driver timeout;|silent
ipmi_cmd_raw: BMC busy;|silent";

/// `text|reply`. A semicolon is a line feed.
const OTHERS: &str = "|none
;|none
rcvd: ;|none
rcvd: 23 ;|none
rcvd: 43 00 02 00 ;|none
rcvd: 23 00 0a f9 ;|none
rcvd: 23 00 02 00 01;|none
rcvd: 23 00 02 00 01 |none
rcvd: 23 00 02 00 01 ;;|none
rcvd: 23 00 02 00 0 ;|none
rcvd: 23 00  02 ;|none
rcvd:23 00 02 ;|none
rcvd: 23 00 ;rcvd: 23 00 ;|none
sent: 23 00 ;|none
ipmi_cmd_raw: session timeout|none
ipmi_cmd_raw: BMC busy|none
ipmi_cmd_raw: session timeout;;|none
ipmi_cmd_raw: connection timeout;|none
ipmi_ctx_open_outofband: BMC busy;|none
ipmi_cmd_raw: driver busy;|none";

#[test]
fn replies_are_read(rt: HostRuntime) {
    assert_replies(&rt, rt.alloc(), Reader::FreeIpmi, get_sdr(), REPLIES);
}

#[test]
fn other_texts_are_not(rt: HostRuntime) {
    assert_replies(&rt, rt.alloc(), Reader::FreeIpmi, get_sdr(), OTHERS);
}

/// Asserts the reply in a text of `count` bytes A7h.
fn assert_long_reply(rt: &impl Abort, alloc: Global, count: usize, wanted: &str) {
    let bytes = " A7".repeat(alloc, count).expect(rt, "memory");
    let text = format!(in alloc; "rcvd: 23 00{bytes} \n").expect(rt, "memory");
    assert_reply(
        rt,
        alloc,
        Reader::FreeIpmi,
        get_sdr(),
        text.as_bytes(),
        wanted,
    );
}

#[test]
fn a_reply_has_255_bytes_at_most(rt: HostRuntime) {
    let alloc = rt.alloc();
    let digits = "a7".repeat(alloc, 255).expect(&rt, "memory");
    let wanted = format!(in alloc; "data {digits}").expect(&rt, "memory");
    assert_long_reply(&rt, alloc, 255, &wanted);
    assert_long_reply(&rt, alloc, 256, "none");
}
