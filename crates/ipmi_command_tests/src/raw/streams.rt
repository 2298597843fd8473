//! Reading the output of a tool up to the end of a reply.
use crate::raw::tools::Wanted;
use ipmi_output::Written;
use ipmi_raw::{Heard, Lost, Piped, ReplyText, Streams, Tool};
use std::alloc::Global;
use std::io::{self, Error, ErrorKind, Read, Write};
use std::process::Abort;

/// A request. These tests send it to both kinds of tools.
const REQUEST: &[u8] = b"raw 0x0a 0x22\necho .\n";

/// Asserts the result of one request to a tool that prints this, and the text of its reply.
fn assert_exchange(
    rt: &impl Abort,
    tool: Tool,
    printed: &[u8],
    wanted: Result<(), Lost>,
    text: &[u8],
) {
    let mut streams = Streams {
        replies: Heard::new(printed),
        requests: Written::new(Wanted(REQUEST, b"")),
    };
    let mut reply = ReplyText::new();
    let result = streams.exchange(tool, REQUEST, &mut reply);
    assert!(rt; result == wanted, "{printed:?}");
    assert!(rt; reply.as_slice() == text, "{printed:?}");
}

#[test]
fn a_reply_of_ipmitool_ends_with_the_mark(rt: HostRuntime) {
    for text in [
        b" 34 12\n. \n".as_slice(),
        b"\n. \n".as_slice(),
        b". \n".as_slice(),
        b" 00 01 02 03 04 05 06 07 08 09 0a 0b 0c 0d 0e 0f\n 10\n. \n".as_slice(),
        b"Error: . \n. \n".as_slice(),
    ] {
        assert_exchange(&rt, Tool::Ipmitool, text, Ok(()), text);
    }
}

#[test]
fn a_reply_of_freeipmi_is_a_line(rt: HostRuntime) {
    let text = b"rcvd: 22 00 34 12 \n";
    assert_exchange(&rt, Tool::FreeIpmi, text, Ok(()), text);
    assert_exchange(&rt, Tool::FreeIpmi, b"\n", Ok(()), b"\n");
}

#[test]
fn where_no_end_comes_the_connection_is_lost(rt: HostRuntime) {
    for text in [
        b"".as_slice(),
        b" 34 12".as_slice(),
        b" 34 12\n".as_slice(),
        b" 34 12\n.".as_slice(),
        b" 34 12. \n".as_slice(),
        b"Error: Unable to establish LAN session\n".as_slice(),
    ] {
        assert_exchange(&rt, Tool::Ipmitool, text, Err(Lost), text);
    }
    let cut = b"rcvd: 22 00";
    assert_exchange(&rt, Tool::FreeIpmi, cut, Err(Lost), cut);
}

#[test]
fn no_more_than_there_is_room_for_is_read(rt: HostRuntime) {
    let text = "x".repeat(rt.alloc(), 1500).expect(&rt, "memory");
    let text = text.as_bytes();
    assert_exchange(&rt, Tool::Ipmitool, text, Err(Lost), &text[..1024]);
    assert_exchange(&rt, Tool::FreeIpmi, text, Err(Lost), &text[..1024]);
}

#[test]
fn replies_are_read_one_by_one(rt: HostRuntime) {
    let printed = b" 34 12\n. \n 35 12\n. \n";
    let mut streams = Streams {
        replies: Heard::new(printed.as_slice()),
        requests: Written::new(Wanted(b"one\ntwo\n", b"")),
    };
    let mut reply = ReplyText::new();
    let first = streams.exchange(Tool::Ipmitool, b"one\n", &mut reply);
    assert!(&rt; first.is_ok(), "the first");
    assert!(&rt; reply.as_slice() == b" 34 12\n. \n".as_slice(), "the first");
    let second = streams.exchange(Tool::Ipmitool, b"two\n", &mut reply);
    assert!(&rt; second.is_ok(), "the second");
    assert!(&rt;
        reply.as_slice() == b" 35 12\n. \n".as_slice(),
        "the second"
    );
}

#[test]
fn a_tool_that_takes_no_request_may_say_why(rt: HostRuntime) {
    let printed = b"Could not open device\n. \n";
    let mut streams = Streams {
        replies: Heard::new(printed.as_slice()),
        requests: Written::new(Wanted(b"", b"")),
    };
    let mut reply = ReplyText::new();
    let result = streams.exchange(Tool::Ipmitool, REQUEST, &mut reply);
    assert!(&rt; result == Err(Lost), "it takes none");
    assert!(&rt; reply.as_slice() == printed.as_slice(), "it says why");
}

/// Accepts each request, and fails to flush it.
#[derive(Drop)]
struct Stuck;

impl Write for Stuck {
    fn write(&mut self, buf: &[u8]) -> io::Result<usize> {
        Ok(buf.len())
    }

    fn flush(&mut self) -> io::Result<()> {
        Err(Error::from(ErrorKind::BrokenPipe))
    }
}

#[test]
fn a_request_that_is_not_handed_on_is_not_sent(rt: HostRuntime) {
    let printed = b" 34 12\n. \n";
    let mut streams = Streams {
        replies: Heard::new(printed.as_slice()),
        requests: Written::new(Stuck),
    };
    let mut reply = ReplyText::new();
    let result = streams.exchange(Tool::Ipmitool, REQUEST, &mut reply);
    assert!(&rt; result == Err(Lost), "it is not handed on");
    assert!(&rt; reply.as_slice() == printed.as_slice(), "what is printed");
}

/// Gives one byte at each second call, and is interrupted at the others. After its text it fails.
#[derive(Drop)]
struct Halting {
    text: &'static [u8],
    gives: bool,
}

impl Read for Halting {
    fn read(&mut self, buf: &mut [u8]) -> io::Result<usize> {
        self.gives = !self.gives;
        if self.gives {
            return Err(Error::from(ErrorKind::Interrupted));
        }
        match (self.text, buf) {
            ([byte, rest @ ..], [first, ..]) => {
                *first = *byte;
                self.text = rest;
                Ok(1)
            }
            _ => Err(Error::from(ErrorKind::Other)),
        }
    }
}

/// Asserts the result of a request to a tool whose output comes with interrupts.
fn assert_halting_exchange(rt: &impl Abort, text: &'static [u8], wanted: Result<(), Lost>) {
    let reader = Halting { text, gives: false };
    let mut streams = Streams {
        replies: Heard::new(reader),
        requests: Written::new(Wanted(REQUEST, b"")),
    };
    let mut reply = ReplyText::new();
    let result = streams.exchange(Tool::Ipmitool, REQUEST, &mut reply);
    assert!(rt; result == wanted, "{text:?}");
    assert!(rt; reply.as_slice() == text, "{text:?}");
}

#[test]
fn reading_goes_on_where_it_is_interrupted_and_not_where_it_fails(rt: HostRuntime) {
    assert_halting_exchange(&rt, b" 34 12\n. \n", Ok(()));
    assert_halting_exchange(&rt, b" 34 12\n. ", Err(Lost));
}
