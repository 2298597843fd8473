//! The replies of a management controller, and the bytes of a reply in a tool's text.
ghost use Rattle.std.specs.Prelude.{ℕ, List, ◌≡◌, ◌≢◌, ◌<◌, ◌≤◌, MatchBool, MatchOption, length};
ghost use Rattle.ipmi_raw.specs.Answer.{given, IsDataIfAny, IsDataOf};
ghost use Rattle.ipmi_raw.specs.Words.{AreData, words_from};

use crate::request::Request;
use crate::tool::Tool;
use crate::words::next_word;
use arrayvec::ArrayVec;
use ipmi_bus::INFO_LEN;
use std::marker::Model;

/// The largest number of bytes in a reply after its completion code.
const LARGEST_REPLY_LEN: usize = 255;

/// The bytes of a reply after its completion code: at most 255.
#[derive(Drop)]
pub struct ReplyBytes {
    bytes: ArrayVec<u8, 255>,
}

impl Model for ReplyBytes {
    ghost use Rattle.std.specs.Prelude.{List, ℕ};

    ghost Value = { List ℕ };

    ghost view = { λ reply. reply.bytes.items };
}

impl ReplyBytes {
    /// These bytes.
    pub fn new(bytes: &[u8]) -> ReplyBytes
        requires { length bytes.now ≤ 255 }
        ensures value { result ≡ bytes.now }
        ensures data { AreData result }
    {
        let mut copied = ArrayVec::new();
        for byte in bytes {
            copied.push(*byte);
        }
        ReplyBytes { bytes: copied }
    }

    /// The bytes.
    pub fn as_slice(&self) -> &[u8]
        ensures { result.now ≡ self.now }
    {
        self.bytes.as_slice()
    }
}

/// The reply to a request.
#[derive(Drop)]
pub enum Reply {
    /// The bytes after the completion code 00h.
    Data(ReplyBytes),
    /// A completion code other than 00h (IPMI v2.0, section 5.2).
    Refused(u8),
    /// The controller did not reply before the tool's timeout.
    Silent,
}

/// The bytes of which this is the whole text, as words with the tool's ending.
pub(crate) fn read_words(tool: Tool, text: &[u8]) -> Option<ReplyBytes>
    ensures { MatchOption result
        ((bytes : List ℕ) → AreData bytes → text.now ≢ words_from tool 0 bytes)
        (λ bytes. AreData bytes × (text.now ≡ words_from tool 0 bytes)) }
{
    let mut bytes = ArrayVec::new();
    let mut rest = text;
    for i in 0..LARGEST_REPLY_LEN {
        if rest == tool.ending() {
            return Some(ReplyBytes { bytes });
        }
        let (byte, after) = next_word(tool, i, rest)?;
        bytes.push(byte);
        rest = after;
    }
    if rest == tool.ending() {
        Some(ReplyBytes { bytes })
    } else {
        None
    }
}

impl Reply {
    /// Whether it can be a reply to the request. If it has data, the number of bytes must be as in the standard, and
    /// for a record or an inventory at most the number asked for.
    pub(crate) fn is_to(&self, request: Request) -> bool
        ensures { MatchBool result (IsDataIfAny request (given request self.now)) (¬ IsDataIfAny request (given request self.now)) }
    {
        match self {
            Reply::Data(bytes) => is_data_of(request, bytes.as_slice()),
            Reply::Refused(_) | Reply::Silent => true,
        }
    }
}

/// Whether these bytes can be the data of a reply to the request.
fn is_data_of(request: Request, bytes: &[u8]) -> bool
    ensures { MatchBool result (IsDataOf request bytes.now) (¬ IsDataOf request bytes.now) }
{
    match request {
        Request::DeviceId => true,
        Request::Reserve(_) => bytes.len() == 2,
        Request::Get(part) => 2 <= bytes.len() && bytes.len() <= 2 + usize::from(part.count),
        Request::Info(_) => bytes.len() == INFO_LEN,
        Request::InventorySize(_) => bytes.len() == 3,
        Request::ReadInventory(part) => match bytes {
            [count, data @ ..] => data.len() == usize::from(*count) && *count <= part.count,
            [] => false,
        },
        Request::Reading(_, _) => 2 <= bytes.len() && bytes.len() <= 4,
    }
}
