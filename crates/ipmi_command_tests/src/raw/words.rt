//! The start of a text, and the dialects of the tools.
use crate::raw::cases::get_sdr;
use ipmi_bus::{Code, Shelf};
use ipmi_raw::words::{first_byte, strip};
use ipmi_raw::{Reply, ReplyBytes, Request, Tool, line_of_output};

#[test]
fn the_front_of_a_text_is_taken_off(rt: HostRuntime) {
    assert!(&rt;
        strip(b"raw", b"raw 0x0a") == Some(b" 0x0a".as_slice()),
        "raw"
    );
    assert!(&rt; strip(b"", b"raw") == Some(b"raw".as_slice()), "nothing");
    assert!(&rt; strip(b"raw", b"ra").is_none(), "a short text");
    assert!(&rt; strip(b"raw", b"row").is_none(), "another text");
}

#[test]
fn a_byte_has_two_digits_of_the_tools_case(rt: HostRuntime) {
    let rest = b" 01".as_slice();
    assert!(&rt;
        first_byte(Tool::Ipmitool, b"a7 01") == Some((0xA7, rest)),
        "a7"
    );
    assert!(&rt;
        first_byte(Tool::FreeIpmi, b"A7 01") == Some((0xA7, rest)),
        "A7"
    );
    assert!(&rt;
        first_byte(Tool::FreeIpmi, b"a7 01").is_none(),
        "another case"
    );
    assert!(&rt; first_byte(Tool::Ipmitool, b"a").is_none(), "one digit");
    assert!(&rt; Tool::Ipmitool.digits()[10] == b'a', "ipmitool's digits");
    assert!(&rt; Tool::FreeIpmi.digits()[10] == b'A', "FreeIPMI's digits");
}

#[test]
fn a_tool_has_its_dialect(rt: HostRuntime) {
    let info = Request::Info(Shelf::Sel);
    let words = Tool::Ipmitool.request_text(info);
    assert!(&rt;
        words.as_slice() == b"raw 0x0a 0x40\necho .\n".as_slice(),
        "ipmitool"
    );
    let line = Tool::FreeIpmi.request_text(info);
    assert!(&rt; line.as_slice() == b"00 0A 40\n".as_slice(), "FreeIPMI");
    assert!(&rt;
        Tool::Ipmitool.ending() == b"\n. \n".as_slice(),
        "ipmitool's end"
    );
    assert!(&rt;
        Tool::FreeIpmi.ending() == b" \n".as_slice(),
        "FreeIPMI's end"
    );
    let printed = b" a7\n. \n";
    assert!(&rt;
        matches!(
            Tool::Ipmitool.read_reply(info, printed),
            Some(Reply::Data(_))
        ),
        "ipmitool's reply"
    );
    let printed = b"rcvd: 40 CB \n";
    assert!(&rt;
        matches!(
            Tool::FreeIpmi.read_reply(info, printed),
            Some(Reply::Refused(0xCB))
        ),
        "FreeIPMI's reply"
    );
}

#[test]
fn a_reply_has_these_bytes(rt: HostRuntime) {
    assert!(&rt;
        ReplyBytes::new(&[1, 2]).as_slice() == [1, 2].as_slice(),
        "two"
    );
    assert!(&rt;
        ReplyBytes::new(&[0xA7; 255]).as_slice() == [0xA7; 255].as_slice(),
        "all"
    );
}

#[test]
fn some_codes_say_that_there_is_none(rt: HostRuntime) {
    let reading = Request::Reading(0, 0x30);
    let size = Request::InventorySize(0);
    for (request, code, given) in [
        (reading, 0xCC, 0xCB),
        (reading, 0xCD, 0xCB),
        (reading, 0xD5, 0xCB),
        (reading, 0xC9, 0xC9),
        (size, 0xCC, 0xCB),
        (size, 0xCD, 0xCD),
        (get_sdr(), 0xCC, 0xCC),
    ] {
        assert!(&rt; request.code_given(code) == Code(given), "{code}");
    }
}

/// What a tool printed, and the line that a message has of it.
const LAST_WORDS: [(&[u8], &str); 5] = [
    (b"", "the tool said nothing"),
    (b".\n \n.\n", "the tool said nothing"),
    (
        b"Error: Unable to establish session\n",
        "Error: Unable to establish session",
    ),
    (b" one \n\ntwo\n.\nthree\nfour\n", "one; two; three"),
    (b"a\xFF", "a\u{fffd}"),
];

#[test]
fn what_a_tool_said_is_cut(rt: HostRuntime) {
    let line = line_of_output(rt.alloc(), &[b'x'; 201]).expect(&rt, "memory");
    assert!(&rt; line.len() == 200, "{line}");
}

#[test]
fn what_a_tool_said_is_a_line(rt: HostRuntime) {
    for (text, wanted) in LAST_WORDS {
        let line = line_of_output(rt.alloc(), text).expect(&rt, "memory");
        assert!(&rt; line.as_str() == wanted, "{wanted}: got {line}");
    }
}
