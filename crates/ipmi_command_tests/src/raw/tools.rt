//! Tools for tests: the input that each expects, and its output.
ghost use Rattle.std.specs.Prelude.{◌≤◌, ⊤, IfOk, length};

use ipmi_raw::{Open, Piped, RawController, Tool};
use std::cell::Cell;
use std::io::{self, Chain, Error, ErrorKind, Read, Write};
use std::time::{Clock, Duration};

/// The input that a tool expects, in two pieces. It accepts no other bytes, as if it had ended.
#[derive(Drop)]
pub struct Wanted<'s>(pub &'s [u8], pub &'s [u8]);

impl Write for Wanted<'_> {
    fn write(&mut self, buf: &[u8]) -> io::Result<usize> {
        if self.0.is_empty() {
            self.0 = self.1;
            self.1 = b"";
        }
        match self.0.strip_prefix(buf) {
            Some(rest) => {
                self.0 = rest;
                Ok(buf.len())
            }
            None => Err(Error::from(ErrorKind::BrokenPipe)),
        }
    }

    fn flush(&mut self) -> io::Result<()> {
        Ok(())
    }
}

/// A tool: its logical unit, its expected input, and its output.
pub type Script<'s> = (u8, &'s str, &'s str);

/// The first request to ipmitool, which opens its session, and its output. A warning comes before the reply.
const FIRST: (&[u8], &[u8]) = (
    b"raw 0x06 0x01\necho .\n",
    b"Unable to Get Channel Cipher Suites\n 20 81 02 30 02\n. \n",
);

/// The tools that can be opened.
#[derive(Drop)]
pub struct Scripts<'s>(pub Tool, pub &'s [Script<'s>]);

impl<'s> Open for Scripts<'s> {
    type Replies = Chain<&'s [u8], &'s [u8]>;

    type Requests = Wanted<'s>;

    ghost opens = { λ old new lun streams. ⊤ };

    fn open(&mut self, lun: u8) -> io::Result<(Chain<&'s [u8], &'s [u8]>, Wanted<'s>)> {
        let (request, reply): (&[u8], &[u8]) = match self.0 {
            Tool::Ipmitool => FIRST,
            Tool::FreeIpmi => (b"", b""),
        };
        for (unit, requests, replies) in self.1 {
            if *unit == lun {
                let replies = reply.chain(replies.as_bytes());
                return Ok((replies, Wanted(request, requests.as_bytes())));
            }
        }
        Err(Error::from(ErrorKind::NotFound))
    }
}

/// A clock that counts the milliseconds of sleep, and no other time.
#[derive(Drop)]
pub struct Sleeper(pub Cell<u128>);

impl Clock for Sleeper {
    fn monotonic(&self) -> io::Result<Duration> {
        Ok(Duration::ZERO)
    }

    fn since_1970(&self) -> io::Result<Duration> {
        Ok(Duration::ZERO)
    }

    fn sleep(&self, duration: Duration) {
        self.0
            .set(self.0.get().saturating_add(duration.as_millis()));
    }
}

/// The controller that is asked through these tools.
pub type Asked<'s, 'c> = RawController<Piped<Scripts<'s>>, &'c Sleeper>;

/// The troubles that one thing may have.
pub const TRIES: u8 = 2;

/// A controller over these tools, with a pause of half a second and two tries.
pub fn controller<'s, 'c>(
    tool: Tool,
    scripts: &'s [Script<'s>],
    sleeper: &'c Sleeper,
) -> Asked<'s, 'c> {
    controller_of(tool, scripts, sleeper, TRIES)
}

/// A controller over these tools, with a pause of half a second and so many tries.
pub fn controller_of<'s, 'c>(
    tool: Tool,
    scripts: &'s [Script<'s>],
    sleeper: &'c Sleeper,
    tries: u8,
) -> Asked<'s, 'c> {
    RawController::new(
        Piped::new(tool, Scripts(tool, scripts)),
        sleeper,
        Duration::from_millis(500),
        tries,
    )
}
