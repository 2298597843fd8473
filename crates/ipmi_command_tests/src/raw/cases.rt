//! The replies read from texts.
use ipmi_bus::Shelf;
use ipmi_raw::{RecordPart, Reply, Request};
use std::alloc::Global;
use std::process::Abort;

/// The reader of a tool's replies.
#[derive(Clone, Copy)]
pub enum Reader {
    Ipmitool,
    FreeIpmi,
}

/// Get SDR of the first 22 bytes of the first record: network function 0Ah, command 23h.
pub fn get_sdr() -> Request {
    Request::Get(RecordPart {
        shelf: Shelf::Sdr,
        reservation: 1,
        id: 0,
        offset: 0,
        count: 22,
    })
}

/// Reads the reply in a text.
fn read(reader: Reader, request: Request, text: &[u8]) -> Option<Reply> {
    match reader {
        Reader::Ipmitool => ipmi_raw::ipmitool::read_reply(request, text),
        Reader::FreeIpmi => ipmi_raw::freeipmi::read_reply(request, text),
    }
}

/// A reply as a text: `data` and the bytes, `code` and the code, `silent`, or `none`.
fn words(rt: &impl Abort, alloc: Global, reply: Option<Reply>) -> String {
    let text = match reply {
        Some(Reply::Data(bytes)) => {
            let digits = hex::encode(alloc, bytes.as_slice()).expect(rt, "memory");
            format!(in alloc; "data {digits}")
        }
        Some(Reply::Refused(code)) => format!(in alloc; "code {code:02x}"),
        Some(Reply::Silent) => String::from_str(alloc, "silent"),
        None => String::from_str(alloc, "none"),
    };
    text.expect(rt, "memory")
}

/// Asserts the reply in a text.
pub fn assert_reply(
    rt: &impl Abort,
    alloc: Global,
    reader: Reader,
    request: Request,
    text: &[u8],
    wanted: &str,
) {
    let got = words(rt, alloc, read(reader, request, text));
    assert!(rt; got.as_str() == wanted, "wanted {wanted}: got {got}");
}

/// Asserts the reply of a case `text|reply`. A semicolon in the text is a line feed.
fn assert_reply_of_case(
    rt: &impl Abort,
    alloc: Global,
    reader: Reader,
    request: Request,
    case: &str,
) {
    let (line, wanted) = case.split_once('|').expect(rt, case);
    let mut text = Vec::new(alloc);
    for byte in line.bytes() {
        let byte = if byte == b';' { b'\n' } else { byte };
        text.push(byte).expect(rt, "memory");
    }
    let got = words(rt, alloc, read(reader, request, &text));
    assert!(rt; got.as_str() == wanted, "{case}: got {got}");
}

/// The same for each case.
pub fn assert_replies(
    rt: &impl Abort,
    alloc: Global,
    reader: Reader,
    request: Request,
    cases: &str,
) {
    for case in cases.lines() {
        assert_reply_of_case(rt, alloc, reader, request, case);
    }
}
