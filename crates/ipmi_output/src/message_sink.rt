//! Where messages go: `MessageSink`, for any writer and for `Written`; and a function that writes a whole text there.
ghost use Rattle.std.specs.Prelude.{ℕ, ◌≤◌, ◌<◌, length, IfOk, Some};
ghost use Rattle.ipmi_output.specs.Received.{Received, Receives, WritesAll, of_writer};

use crate::sink::{Sink, SinkFault, Written};
use std::io::Write;

/// A sink for messages. Each call takes some of the bytes offered. Every writer is one. For a [`Written`], contracts
/// also know how many calls were faults.
pub trait MessageSink {
    /// The bytes taken so far, and the number of calls that took none or failed, as far as known.
    ghost received: { Self → Received };

    /// Takes the first `n` bytes and returns `Ok(n)`. If it fails, it takes none.
    fn offer(&mut self, bytes: &[u8]) -> Result<usize, SinkFault>
        requires { 0 < length bytes.now }
        ensures bound { IfOk result (λ n. n ≤ length bytes.now) }
        ensures received { Receives (received self.old) (received self.new) result bytes.now };
}

impl<W: Write> MessageSink for W {
    ghost received = { λ w. of_writer (W.contents w) };

    fn offer(&mut self, bytes: &[u8]) -> Result<usize, SinkFault> {
        self.write(bytes).or(Err(SinkFault))
    }
}

impl<W: Write> MessageSink for Written<W> {
    ghost received = { λ s. record { taken = Some (⟦<Written<W> as Sink>⟧.taken s); faults = Some (⟦<Written<W> as Sink>⟧.faults s) } };

    fn offer(&mut self, bytes: &[u8]) -> Result<usize, SinkFault> {
        Sink::write(self, bytes)
    }
}

/// Writes all bytes, in as many calls as necessary, until one fails or takes none.
pub(crate) fn offer_all<E: MessageSink>(err: &mut E, bytes: &[u8]) -> Result<(), SinkFault>
    ensures { WritesAll (E.received err.old) (E.received err.new) result bytes.now }
{
    let mut done = 0;
    while done < bytes.len() {
        let taken = err.offer(&bytes[done..])?;
        if taken == 0 {
            return Err(SinkFault);
        }
        done += taken;
    }
    Ok(())
}
