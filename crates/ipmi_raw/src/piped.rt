//! A peer over streams: a tool for all logical units of a controller, or one for each.
ghost use Rattle.std.specs.Prelude.{ℕ, ◌≡◌, ◌<◌, ◌≤◌, [], false, true, None, Some, Option, MatchResult, IsErr, IsOk, is_err, OnOk};
ghost use Rattle.ipmi_bus.specs.Prelude.{IsHonest, zero_counts};
ghost use Rattle.ipmi_bus.specs.Unclaimed.{calls_only};
ghost use Rattle.ipmi_raw.specs.Peer.{Replies, request_text};
ghost use Rattle.ipmi_raw.specs.Request.{IsRequest, lun_of};
ghost use Rattle.ipmi_raw.specs.Streams.{IsEnded, IsNotEndedWithin};
ghost use Rattle.ipmi_raw.specs.Piped.{AreReady, IsFirst, IsOverUnit, no_units, streams_of, unit_of, with_streams};
ghost use Rattle.ipmi_raw.specs.Handed.{OnlyRequests};

use crate::heard::Heard;
use crate::peer::{Lost, Peer, ReplyText};
use crate::request::Request;
use crate::streams::Streams;
use crate::tool::Tool;
use ipmi_output::Written;
use std::io::{self, Read, Write};
use std::mem;

/// The first request sent to ipmitool: Get Device ID (IPMI v2.0, section 20.1). It makes the tool open its session,
/// so that warnings printed then are not taken for a reply.
const FIRST_REQUEST: &[u8] = b"raw 0x06 0x01\necho .\n";

/// The last logical unit that a message has room for (IPMI v2.0, section 7.2).
const LAST_UNIT: u8 = 3;

/// Opens the streams of a tool.
pub trait Open {
    /// The tool's output. It is read byte by byte.
    type Replies: Read + Drop;
    /// The tool's input.
    type Requests: Write + Drop;

    /// What is known of an opening. It relates the opener before and after, the logical unit, and the streams: the tool's
    /// output and its input, or none if the opening failed.
    ghost opens: { Self → Self → ℕ → Option (Self.Replies × Self.Requests) → Type 0 };

    /// Opens the streams of the tool that sends requests to this logical unit, 0 to 3: its output and its input.
    fn open(&mut self, lun: u8) -> io::Result<(Self::Replies, Self::Requests)>
        ensures { MatchResult result (λ streams. opens self.old self.new lun (Some streams))
            (λ error. opens self.old self.new lun None) };
}

/// The streams of the tools opened by an `Open`, one tool for each logical unit (IPMI v2.0, section 7.2).
#[derive(Drop)]
struct Units<R, W> {
    zero: Option<Streams<R, W>>,
    one: Option<Streams<R, W>>,
    two: Option<Streams<R, W>>,
    three: Option<Streams<R, W>>,
}

impl<R: Drop, W: Drop> Units<R, W> {
    /// Replaces the streams of a unit, and returns the old ones. A unit above 3 has none.
    fn replace(&mut self, unit: u8, streams: Option<Streams<R, W>>) -> Option<Streams<R, W>>
        ensures was { result ≡ streams_of unit self.old }
        ensures now { self.new ≡ with_streams unit streams self.old }
    {
        if unit == 0 {
            mem::replace(&mut self.zero, streams)
        } else if unit == 1 {
            mem::replace(&mut self.one, streams)
        } else if unit == 2 {
            mem::replace(&mut self.two, streams)
        } else if unit == 3 {
            mem::replace(&mut self.three, streams)
        } else {
            None
        }
    }
}

/// A peer over the streams of a tool, which it opens when a request is to be sent.
///
/// A request to `ipmi-raw` names its logical unit. `ipmitool exec` sends all its requests to one unit, so there is
/// one such tool for each unit used. With ipmitool, a request to a unit above 3 loses the connection.
///
/// All that a tool is handed are whole requests, one after another, and at most a first part of the request over which the
/// connection is lost. Nothing is sent afterwards. Streams stay open even then.
#[derive(Drop)]
pub struct Piped<O: Open> {
    tool: Tool,
    opener: O,
    units: Units<Heard<O::Replies>, Written<O::Requests>>,
    is_lost: bool,
    pub ghost handed: { ∥ OnlyRequests O.opens tool is_lost units ∥₁ },
}

impl<O: Open> Piped<O> {
    /// A peer whose streams are opened by `opener`. It opened none yet.
    pub fn new(tool: Tool, opener: O) -> Piped<O>
        ensures tool { ⟦<Piped<O> as Peer>⟧.tool result ≡ tool }
        ensures opener { result.opener ≡ opener }
        ensures units { result.units ≡ no_units }
        ensures open { result.is_lost ≡ false }
    {
        Piped {
            tool,
            opener,
            units: Units {
                zero: None,
                one: None,
                two: None,
                three: None,
            },
            is_lost: false,
        }
    }
}

/// The unit whose streams carry a request to this logical unit.
fn unit_of(tool: Tool, lun: u8) -> u8
    ensures { result ≡ unit_of tool lun }
{
    match tool {
        Tool::Ipmitool => lun,
        Tool::FreeIpmi => 0,
    }
}

/// Sends ipmitool its first request.
fn begin<R: Read, W: Write>(
    streams: &mut Streams<Heard<R>, Written<W>>,
    tool: Tool,
    reply: &mut ReplyText,
) -> Result<(), Lost>
    requires { reply.old.items ≡ [] }
    ensures over { IsFirst R.remaining tool result reply.new.items streams.old streams.new }
    ensures first { IsNotEndedWithin tool reply.new.items }
{
    match tool {
        Tool::Ipmitool => streams.exchange(tool, FIRST_REQUEST, reply),
        Tool::FreeIpmi => Ok(()),
    }
}

/// The streams for a request, or the streams that lost the connection when they were opened; none if the opening failed.
type Ready<R, W> = Result<Streams<Heard<R>, Written<W>>, Option<Streams<Heard<R>, Written<W>>>>;

/// The streams of the tool that sends requests to the unit. Opens them if they are not open. Then `reply` receives what
/// ipmitool prints when it opens its session.
fn opened<O: Open>(
    streams: Option<Streams<Heard<O::Replies>, Written<O::Requests>>>,
    opener: &mut O,
    tool: Tool,
    unit: u8,
    reply: &mut ReplyText,
) -> Ready<O::Replies, O::Requests>
    requires { reply.old.items ≡ [] }
    ensures ready { AreReady O.opens O.Replies.remaining tool unit streams result reply.new.items opener.old opener.new }
    ensures first { IsNotEndedWithin tool reply.new.items }
{
    if let Some(streams) = streams {
        return Ok(streams);
    }
    let Ok((replies, requests)) = opener.open(unit) else {
        return Err(None);
    };
    let replies = Heard::new(replies);
    let requests = Written::new(requests);
    let mut streams = Streams { replies, requests };
    match begin(&mut streams, tool, reply) {
        Ok(()) => Ok(streams),
        Err(_) => Err(Some(streams)),
    }
}

impl<O: Open> Peer for Piped<O> {
    ghost seen = { λ piped. calls_only zero_counts };

    ghost tool = { λ piped. piped.tool };

    ghost brings = { λ old new request result reply. OnOk result (IsEnded old.tool reply) × IsNotEndedWithin old.tool reply
        × (old.is_lost ≡ false → unit_of old.tool (lun_of request) < 4
        → IsOverUnit O.opens O.Replies.remaining old.tool (unit_of old.tool (lun_of request)) (request_text old.tool request)
        result reply old.opener new.opener old.units new.units × (new.is_lost ≡ is_err result))
        × (old.is_lost ≡ true → IsErr result × (reply ≡ []) × (new ≡ old))
        × (4 ≤ unit_of old.tool (lun_of request) → IsErr result × (reply ≡ []) × (new ≡ old)) };

    fn tool(&self) -> Tool {
        self.tool
    }

    fn exchange(&mut self, request: Request, reply: &mut ReplyText) -> Result<(), Lost>
        ensures tool { ⟦<Piped<O> as Peer>⟧.tool self.new ≡ ⟦<Piped<O> as Peer>⟧.tool self.old }
        ensures honest { IsHonest (calls_only zero_counts) → IsRequest request →
            IsOk result × Replies (⟦<Piped<O> as Peer>⟧.tool self.old) request reply.new.items
            (calls_only zero_counts) (calls_only zero_counts) }
        ensures brings { ⟦<Piped<O> as Peer>⟧.brings self.old self.new request result reply.new.items }
    {
        reply.clear();
        let unit = unit_of(self.tool, request.lun());
        if self.is_lost || LAST_UNIT < unit {
            return Err(Lost);
        }
        let text = self.tool.request_text(request);
        let open = self.units.replace(unit, None);
        match opened(open, &mut self.opener, self.tool, unit, reply) {
            Ok(mut streams) => {
                let came = streams.exchange(self.tool, text.as_slice(), reply);
                self.units.replace(unit, Some(streams));
                self.is_lost = came.is_err();
                came
            }
            Err(streams) => {
                self.units.replace(unit, streams);
                self.is_lost = true;
                Err(Lost)
            }
        }
    }
}
