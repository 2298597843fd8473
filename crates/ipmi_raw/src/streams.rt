//! The two streams of a tool: its input for requests and its output with replies.
ghost use Rattle.std.specs.Prelude.{◌≡◌, ◌++◌, MatchBool, OnOk};
ghost use Rattle.std.specs.Io.KnownBytes.{Consumes};
ghost use Rattle.ipmi_output.specs.Writer.{taken_of};
ghost use Rattle.ipmi_raw.specs.Heard.{given_of, reader_of};
ghost use Rattle.ipmi_raw.specs.Streams.{HandsOver, IsEnded, IsNotEndedWithin};

use crate::heard::Heard;
use crate::peer::{Lost, REPLY_ROOM, ReplyText};
use crate::tool::Tool;
use ipmi_output::{Written, write_all};
use std::io::{Read, Write};

/// ipmitool's output for the end mark of a reply.
const MARK: &[u8] = b". \n";

/// Whether the tool's output has reached the end of a reply.
fn is_ended(tool: Tool, text: &[u8]) -> bool
    ensures { MatchBool result (IsEnded tool text.now) (¬ IsEnded tool text.now) }
{
    match tool {
        Tool::Ipmitool => text == MARK || text.ends_with(b"\n. \n"),
        Tool::FreeIpmi => text.ends_with(b"\n"),
    }
}

/// Reads the tool's output, up to the end of a reply.
fn read_reply<R: Read>(tool: Tool, reader: &mut Heard<R>, reply: &mut ReplyText) -> Result<(), Lost>
    ensures given { given_of reader.new ≡ given_of reader.old ++ reply.new.items }
    ensures read { Consumes (R.remaining (reader_of reader.old)) (R.remaining (reader_of reader.new)) reply.new.items }
    ensures ended { OnOk result (IsEnded tool reply.new.items) }
    ensures first { IsNotEndedWithin tool reply.new.items }
{
    reply.clear();
    for _ in 0..REPLY_ROOM {
        let Some(byte) = reader.read_byte() else {
            return Err(Lost);
        };
        reply.push(byte);
        if is_ended(tool, reply.as_slice()) {
            return Ok(());
        }
    }
    Err(Lost)
}

/// Hands the text of a request to the tool's input.
fn send<W: Write>(requests: &mut Written<W>, request: &[u8]) -> Result<(), Lost>
    ensures { HandsOver result request.now (taken_of requests.old) (taken_of requests.new) }
{
    match write_all(requests, request) {
        Ok(()) => requests.flush_writer().or(Err(Lost)),
        Err(_) => Err(Lost),
    }
}

/// The two streams of a tool.
#[derive(Drop)]
pub struct Streams<R, W> {
    /// The tool's output, in a `Heard`.
    pub replies: R,
    /// The tool's input, in a `Written`.
    pub requests: W,
}

impl<R: Read, W: Write> Streams<Heard<R>, Written<W>> {
    /// Hands the text of a request to the tool, and stores the tool's output in `reply`, up to the end of a reply. The
    /// connection is lost if the tool does not accept the request, if its output ends, or if the output does not fit into
    /// `reply`. A tool that does not accept a request may have printed the reason.
    ///
    /// The tool is handed nothing else. If the connection is lost, it is handed a first part of the request, perhaps
    /// all or none.
    pub fn exchange(
        &mut self,
        tool: Tool,
        request: &[u8],
        reply: &mut ReplyText,
    ) -> Result<(), Lost>
        ensures sent { HandsOver result request.now (taken_of self.old.requests) (taken_of self.new.requests) }
        ensures given { given_of self.new.replies ≡ given_of self.old.replies ++ reply.new.items }
        ensures read { Consumes (R.remaining (reader_of self.old.replies)) (R.remaining (reader_of self.new.replies)) reply.new.items }
        ensures ended { OnOk result (IsEnded tool reply.new.items) }
        ensures first { IsNotEndedWithin tool reply.new.items }
    {
        let sent = send(&mut self.requests, request);
        let read = read_reply(tool, &mut self.replies, reply);
        read.and(sent)
    }
}
