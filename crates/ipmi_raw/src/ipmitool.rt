//! The dialect of `ipmitool exec`, which reads its own commands, one per line. It does not mark the end of a reply,
//! so after each request an `echo` asks it to print a mark.
ghost use Rattle.std.specs.Prelude.{ℕ, List, ◌≡◌, ◌≢◌, ◌<◌, ◌++◌, MatchBool, MatchOption, codes};
ghost use Rattle.ipmi_raw.specs.Ipmitool.{IsMeaning, IsReplyText, refusal, request_text};
ghost use Rattle.ipmi_raw.specs.Reply.{ReadsReply};
ghost use Rattle.ipmi_raw.specs.Words.{ending, number};
ghost use Rattle.ipmi_raw.specs.declared.tool.Tool.TheVariants.{Ipmitool};

use crate::line::{Line, push, push_bytes, push_number};
use crate::reply::{Reply, read_words};
use crate::request::Request;
use crate::tool::Tool;
use crate::words::{digit_value, strip};

/// The rest of the tool's output after a timeout, including the mark.
const SILENCE: &[u8] = b")\n. \n";

/// The lines that send the request and then request the end mark.
pub fn request_text(request: Request) -> Line
    ensures { result.items ≡ request_text request }
{
    let mut line = Line::new();
    push(&mut line, b"raw");
    push_bytes(
        &mut line,
        Tool::Ipmitool,
        b" 0x",
        &[request.network_function(), request.command()],
    );
    push_bytes(&mut line, Tool::Ipmitool, b" 0x", request.data().as_slice());
    push(&mut line, b"\necho .\n");
    line
}

/// The tool's message for a request that returned no data, up to the completion code.
pub fn refusal(request: Request) -> Line
    ensures { result.items ≡ refusal request }
{
    let mut line = Line::new();
    push(
        &mut line,
        b"Unable to send RAW command (channel=0x0 netfn=0x",
    );
    push_number(&mut line, Tool::Ipmitool, request.network_function());
    push(&mut line, b" lun=0x");
    push_number(&mut line, Tool::Ipmitool, request.lun());
    push(&mut line, b" cmd=0x");
    push_number(&mut line, Tool::Ipmitool, request.command());
    line
}

/// The completion code at the front, and the text after it and the closing bracket.
fn first_code(text: &[u8]) -> Option<(u8, &[u8])>
    ensures { MatchOption result
        ((code : ℕ) (after : List ℕ) → code < 256 → text.now ≢ number Ipmitool code ++ (codes "): " ++ after))
        (λ found. (found.0 < 256) × (text.now ≡ number Ipmitool found.0 ++ (codes "): " ++ found.1.now))) }
{
    let [first, rest @ ..] = text else {
        return None;
    };
    let high = digit_value(Tool::Ipmitool, *first)?;
    if let Some(after) = strip(b"): ", rest) {
        return Some((high, after));
    }
    if high == 0 {
        return None;
    }
    let [second, rest @ ..] = rest else {
        return None;
    };
    let low = digit_value(Tool::Ipmitool, *second)?;
    let after = strip(b"): ", rest)?;
    Some((high * 16 + low, after))
}

/// Whether the text is the tool's explanation of a completion code, followed by the end mark.
fn is_meaning(text: &[u8]) -> bool
    ensures { MatchBool result
        ((meaning : List ℕ) × IsMeaning meaning × (text.now ≡ meaning ++ ending Ipmitool))
        ((meaning : List ℕ) → IsMeaning meaning → text.now ≢ meaning ++ ending Ipmitool) }
{
    let Some(meaning) = text.strip_suffix(Tool::Ipmitool.ending()) else {
        return false;
    };
    !meaning.contains(&b'\n')
}

/// Reads the reply to the request from its text, which includes the end mark. None if the text is not of a reply.
pub fn read_reply(request: Request, text: &[u8]) -> Option<Reply>
    ensures { ReadsReply (IsReplyText request) text.now result }
{
    if let Some(bytes) = read_words(Tool::Ipmitool, text) {
        return Some(Reply::Data(bytes));
    }
    let refusal = refusal(request);
    let rest = strip(refusal.as_slice(), text)?;
    if rest == SILENCE {
        return Some(Reply::Silent);
    }
    let rest = strip(b" rsp=0x", rest)?;
    let (code, rest) = first_code(rest)?;
    if code == 0 {
        return None;
    }
    if is_meaning(rest) {
        Some(Reply::Refused(code))
    } else {
        None
    }
}
