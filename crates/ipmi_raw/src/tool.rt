//! The tools that pass on requests, and how they print hex.
ghost use Rattle.std.specs.Prelude.{◌≡◌};
ghost use Rattle.ipmi_raw.specs.Peer.{IsReplyText, request_text};
ghost use Rattle.ipmi_raw.specs.Reply.{ReadsReply};
ghost use Rattle.ipmi_raw.specs.Words.{digits, ending};

use crate::line::Line;
use crate::reply::Reply;
use crate::request::Request;
use crate::{freeipmi, ipmitool};

/// A tool that passes on requests.
#[derive(Clone, Copy, Debug, PartialEq, Eq)]
pub enum Tool {
    /// `ipmitool exec`.
    Ipmitool,
    /// `ipmi-raw` of FreeIPMI.
    FreeIpmi,
}

impl Tool {
    /// The hex digits, in the tool's letter case.
    pub fn digits(self) -> &'static [u8; 16]
        ensures { result.now ≡ digits self }
    {
        match self {
            Tool::Ipmitool => b"0123456789abcdef",
            Tool::FreeIpmi => b"0123456789ABCDEF",
        }
    }

    /// The tool's output after the last byte of a reply.
    pub fn ending(self) -> &'static [u8]
        ensures { result.now ≡ ending self }
    {
        match self {
            Tool::Ipmitool => b"\n. \n",
            Tool::FreeIpmi => b" \n",
        }
    }

    /// The text that makes the tool send the request.
    pub fn request_text(self, request: Request) -> Line
        ensures { result.items ≡ request_text self request }
    {
        match self {
            Tool::Ipmitool => ipmitool::request_text(request),
            Tool::FreeIpmi => freeipmi::request_text(request),
        }
    }

    /// Reads the reply to the request from the tool's output. None if the text is not of a reply.
    pub fn read_reply(self, request: Request, text: &[u8]) -> Option<Reply>
        ensures { ReadsReply (IsReplyText self request) text.now result }
    {
        match self {
            Tool::Ipmitool => ipmitool::read_reply(request, text),
            Tool::FreeIpmi => freeipmi::read_reply(request, text),
        }
    }
}
