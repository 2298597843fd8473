//! A peer passes requests to a controller and returns the replies, as texts of one of the tools.
ghost use Rattle.std.specs.Prelude.{List, Result, ◌≡◌, ℕ, IsOk};
ghost use Rattle.ipmi_bus.specs.Seen.{IsHonest, Seen};
ghost use Rattle.ipmi_raw.specs.Peer.{Replies};
ghost use Rattle.ipmi_raw.specs.Request.{IsRequest};
ghost use Rattle.ipmi_raw.specs.declared.peer.Lost.{Lost};
ghost use Rattle.ipmi_raw.specs.declared.request.Request.{Request};
ghost use Rattle.ipmi_raw.specs.declared.tool.Tool.{Tool};

use crate::request::Request;
use crate::tool::Tool;
use arrayvec::ArrayVec;
use thiserror::Error;

/// The size of a buffer for the longest reply, or for the error output of a tool.
pub(crate) const REPLY_ROOM: usize = 1024;

/// The output of a tool for a request.
pub type ReplyText = ArrayVec<u8, REPLY_ROOM>;

/// No reply came: the tool has ended, does not accept a request, or its output does not end as a reply does.
#[derive(Clone, Copy, Debug, PartialEq, Eq, Error)]
#[error("the connection is lost")]
pub struct Lost;

/// A peer passes requests to a controller and returns the replies, as texts of one of the tools.
///
/// The clause `honest` holds for a peer with an honest controller at the other end, which may be silent, but not when
/// it is asked for its device's id. A peer counts no calls.
pub trait Peer {
    /// The state of the controller at the other end that contracts see. It has no cost at run time.
    ghost seen: { Self → Seen };

    /// The tool.
    ghost tool: { Self → Tool };

    /// What is known of an exchange, even if the controller is not honest. It relates the peer before and after, the
    /// request, whether a reply came, and the tool's output.
    ghost brings: { Self → Self → Request → Result (Unit {0}) Lost → List ℕ → Type 0 };

    /// The tool whose texts the peer passes on.
    fn tool(&self) -> Tool
        ensures { result ≡ tool self.now };

    /// Sends the request to the controller, and stores the tool's output in `reply`, up to the end of the reply. If the
    /// connection is lost, that is the output so far.
    fn exchange(&mut self, request: Request, reply: &mut ReplyText) -> Result<(), Lost>
        ensures tool { tool self.new ≡ tool self.old }
        ensures brings { brings self.old self.new request result reply.new.items }
        ensures honest { IsHonest (seen self.old) → IsRequest request →
            IsOk result × Replies (tool self.old) request reply.new.items (seen self.old) (seen self.new) };
}
