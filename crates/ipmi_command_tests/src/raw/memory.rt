//! A peer in memory: a tool over an image.
ghost use Rattle.std.specs.Prelude.{◌≡◌, ⊤};
ghost use Rattle.ipmi_image.specs.Controllers.{seen_of};
ghost use Rattle.ipmi_bus.specs.Seen.{IsPlain};

use crate::raw::answer::answer;
use crate::raw::asked::asked_by;
use crate::raw::message::read_message;
use crate::raw::printed::print_reply;
use ipmi_bus::Controller;
use ipmi_command_line::DEFAULT_TRIES;
use ipmi_image::{Image, ImageController};
use ipmi_raw::{Lost, Peer, RawController, ReplyText, Request, Tool};
use std::time::{Clock, Duration};

/// A tool over an image. It reads the text of each request, and prints the text of the reply.
#[derive(Drop)]
pub struct MemoryPeer {
    tool: Tool,
    ctl: ImageController,
}

impl MemoryPeer {
    /// The tool over the image.
    pub fn new(tool: Tool, image: Image) -> MemoryPeer
        ensures tool { ⟦<MemoryPeer as Peer>⟧.tool result ≡ tool }
        ensures plain { IsPlain (⟦<MemoryPeer as Peer>⟧.seen result) }
        ensures store { (⟦<MemoryPeer as Peer>⟧.seen result).store ≡ image }
    {
        MemoryPeer {
            tool,
            ctl: ImageController::new(image),
        }
    }
}

impl Peer for MemoryPeer {
    ghost seen = { λ peer. seen_of peer.ctl };

    ghost tool = { λ peer. peer.tool };

    ghost brings = { λ old new request came reply. ⊤ };

    fn tool(&self) -> Tool {
        self.tool
    }

    fn exchange(&mut self, request: Request, reply: &mut ReplyText) -> Result<(), Lost> {
        reply.clear();
        let text = self.tool.request_text(request);
        let Some(message) = read_message(self.tool, text.as_slice()) else {
            return Err(Lost);
        };
        let Some(asked) = asked_by(request.lun(), message.as_slice()) else {
            return Err(Lost);
        };
        let answer = answer(&mut self.ctl, asked);
        print_reply(self.tool, asked, &answer, reply);
        Ok(())
    }
}

/// A controller that is asked through a tool over the image. It is plain and has the image's store, so all promises for
/// listings over a plain controller hold here too, with requests and replies as texts.
pub fn controller_over<K: Clock>(tool: Tool, image: Image, clock: K) -> RawController<MemoryPeer, K>
    ensures plain { IsPlain (⟦<RawController<MemoryPeer, K> as Controller>⟧.seen result) }
    ensures store { (⟦<RawController<MemoryPeer, K> as Controller>⟧.seen result).store ≡ image }
{
    let peer = MemoryPeer::new(tool, image);
    RawController::new(peer, clock, Duration::ZERO, DEFAULT_TRIES)
}
