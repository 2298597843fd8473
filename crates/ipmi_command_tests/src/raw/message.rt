//! The message of a request, read from the input of a tool.
ghost use Rattle.std.specs.Prelude.{ℕ, List, ◌≡◌, ◌≤◌, ◌++◌, MatchOption, length};
ghost use Rattle.ipmi_text.specs.Bytes.{AreBytes};
ghost use Rattle.ipmi_raw.specs.Peer.{request_text};
ghost use Rattle.ipmi_raw.specs.Request.{IsRequest, message_of};
ghost use Rattle.ipmi_raw.specs.Words.{bytes_after};
ghost use Rattle.ipmi_raw.specs.declared.request.Request.{Request};

use arrayvec::ArrayVec;
use ipmi_raw::Tool;
use ipmi_raw::words::{first_byte, strip};

/// The most bytes of a message.
const LARGEST_MESSAGE_LEN: usize = 8;

/// Network function, command and data.
pub type Message = ArrayVec<u8, LARGEST_MESSAGE_LEN>;

/// Reads the bytes in a text. The same text comes before the digits of each.
fn read_bytes(tool: Tool, before: &[u8], end: &[u8], text: &[u8]) -> Option<Message>
    ensures { (bytes : List ℕ) → length bytes ≤ 8 → AreBytes bytes → text.now ≡ bytes_after tool before.now bytes ++ end.now →
        MatchOption result ⊥ (λ message. message.items ≡ bytes) }
{
    let mut bytes = Message::new();
    let mut rest = text;
    for _ in 0..LARGEST_MESSAGE_LEN {
        if rest == end {
            return Some(bytes);
        }
        let digits = strip(before, rest)?;
        let (byte, after) = first_byte(tool, digits)?;
        bytes.push(byte);
        rest = after;
    }
    if rest == end { Some(bytes) } else { None }
}

/// The message of the request in the text.
pub fn read_message(tool: Tool, text: &[u8]) -> Option<Message>
    ensures { (sent : Request) → IsRequest sent → request_text tool sent ≡ text.now →
        MatchOption result ⊥ (λ message. message.items ≡ message_of sent) }
{
    match tool {
        Tool::Ipmitool => read_bytes(tool, b" 0x", b"\necho .\n", strip(b"raw", text)?),
        Tool::FreeIpmi => {
            let (_, rest) = first_byte(tool, text)?;
            read_bytes(tool, b" ", b"\n", rest)
        }
    }
}
