//! The dialect of FreeIPMI's `ipmi-raw`, which reads one line per request and prints one line per reply.
ghost use Rattle.std.specs.Prelude.{◌≡◌};
ghost use Rattle.std.specs.Bool.{Decides};
ghost use Rattle.ipmi_raw.specs.FreeIpmi.{IsReplyText, IsSilence, request_text};
ghost use Rattle.ipmi_raw.specs.Reply.{ReadsReply};

use crate::line::{Line, push, push_bytes, push_digits};
use crate::reply::{Reply, read_words};
use crate::request::Request;
use crate::tool::Tool;
use crate::words::{first_word, strip};

/// Whether the text is a message of the tool that no answer came in time, or that the controller was too busy for one.
fn is_silence(text: &[u8]) -> bool
    ensures { Decides result (IsSilence text.now) }
{
    text == b"ipmi_cmd_raw: session timeout\n".as_slice()
        || text == b"ipmi_cmd_raw: message timeout\n".as_slice()
        || text == b"ipmi_cmd_raw: driver timeout\n".as_slice()
        || text == b"ipmi_cmd_raw: BMC busy\n".as_slice()
}

/// The line that sends the request.
pub fn request_text(request: Request) -> Line
    ensures { result.items ≡ request_text request }
{
    let mut line = Line::new();
    push_digits(&mut line, Tool::FreeIpmi, request.lun());
    push_bytes(
        &mut line,
        Tool::FreeIpmi,
        b" ",
        &[request.network_function(), request.command()],
    );
    push_bytes(&mut line, Tool::FreeIpmi, b" ", request.data().as_slice());
    push(&mut line, b"\n");
    line
}

/// Reads the reply to the request from its text, a line with its line feed. None if the text is not of a reply.
pub fn read_reply(request: Request, text: &[u8]) -> Option<Reply>
    ensures { ReadsReply (IsReplyText request) text.now result }
{
    if is_silence(text) {
        return Some(Reply::Silent);
    }
    let rest = strip(b"rcvd:", text)?;
    let (command, rest) = first_word(Tool::FreeIpmi, rest)?;
    if command != request.command() {
        return None;
    }
    let (code, rest) = first_word(Tool::FreeIpmi, rest)?;
    let bytes = read_words(Tool::FreeIpmi, rest)?;
    Some(match code {
        0 => Reply::Data(bytes),
        code => Reply::Refused(code),
    })
}
