//! Where output goes: `Sink`, which `Written` makes of any writer; and a function that writes a whole text there.
ghost use Rattle.std.specs.Prelude.{◌≡◌, ℕ, ◌≤◌, ◌<◌, ◌+◌, List, [], ◌++◌, length, IfOk, OnOk, OnErr, IsSome, Some, option_map, unwrap_or};
ghost use Rattle.std.specs.Borrow.{ftrue};
ghost use Rattle.ipmi_output.specs.Sink.{taken_by, faults_by, TakesPart};

use std::io::{BufWriter, Write};
use std::marker::Model;
use std::snapshot::Snapshot;
use thiserror::Error;

/// A call of a sink failed, or took no byte.
#[derive(Clone, Copy, Debug, PartialEq, Eq, Error)]
#[error("write fault")]
pub struct SinkFault;

/// A sink for bytes. Each call takes some of the bytes offered.
pub trait Sink {
    /// The bytes taken so far.
    ghost taken: { Self → List ℕ };

    /// The number of calls that took none or failed.
    ghost faults: { Self → ℕ };

    /// Takes the first `n` bytes and returns `Ok(n)`. If it fails, it takes none.
    fn write(&mut self, bytes: &[u8]) -> Result<usize, SinkFault>
        requires { 0 < length bytes.now }
        ensures bound { IfOk result (λ n. n ≤ length bytes.now) }
        ensures bytes { taken self.new ≡ taken self.old ++ taken_by result bytes.now }
        ensures count { faults self.new ≡ faults self.old + faults_by result };
}

/// The effect of all calls of a sink so far. Only contracts see it, so it has no cost at run time.
#[derive(Drop)]
struct History {
    /// The bytes taken so far, in order.
    pub ghost taken: { List ℕ },
    /// The number of calls that took none or failed.
    pub ghost faults: { ℕ },
}

impl Model for History {
    ghost also_owns = { λ _. ftrue };
}

/// A call of a sink: the history before it, if there was one; the bytes offered; and the result.
#[derive(Clone, Copy)]
struct Call<'h, 'b>(Option<&'h History>, &'b [u8], Result<usize, SinkFault>);

impl History {
    /// The history after the call.
    fn after(_call: &Call<'_, '_>) -> History
        ensures { (result.taken ≡ unwrap_or (option_map (λ h. h.now.taken) _call.now.0) []
            ++ taken_by _call.now.2 _call.now.1.now)
            × (result.faults ≡ unwrap_or (option_map (λ h. h.now.faults) _call.now.0) 0
            + faults_by _call.now.2) }
    {
        History {}
    }
}

/// A writer as a sink. Each call makes one call of the writer.
#[derive(Drop)]
pub struct Written<W: Write> {
    writer: W,
    // the writer as passed to `new`
    begun: Snapshot<W>,
    history: History,
    ghost told: { ((w : W) → IsSome (W.contents w)) → W.contents writer ≡ Some (unwrap_or (W.contents begun.value) [] ++ history.taken) },
}

impl<W: Write> Sink for Written<W> {
    ghost taken = { λ s. unwrap_or (W.contents s.begun.value) [] ++ s.history.taken };

    ghost faults = { λ s. s.history.faults };

    fn write(&mut self, bytes: &[u8]) -> Result<usize, SinkFault> {
        let answer = self.writer.write(bytes).or(Err(SinkFault));
        let before = Some(&self.history);
        self.history = History::after(&Call(before, bytes, answer));
        answer
    }
}

impl<W: Write> Written<W> {
    ghost use Rattle.ipmi_output.specs.Writer.{flush_faults, writer_of};

    /// A sink over the writer. The bytes that the writer already holds count as taken. There are no faults yet.
    pub fn new(writer: W) -> Written<W>
        ensures writer { writer_of result ≡ writer }
        ensures taken { ⟦<Written<W> as Sink>⟧.taken result ≡ unwrap_or (W.contents writer) [] }
        ensures faults { ⟦<Written<W> as Sink>⟧.faults result ≡ 0 }
    {
        let begun = Snapshot::of(&writer);
        Written {
            writer,
            begun,
            // before the first call: a call with no bytes, which took none and was not a fault
            history: History::after(&Call(None, &[], Ok(1))),
        }
    }

    /// The writer.
    pub fn get_ref(&self) -> &W
        ensures { result.now ≡ writer_of self.now }
    {
        &self.writer
    }

    /// Flushes the writer. A failure counts as a fault. The bytes taken do not change.
    pub fn flush_writer(&mut self) -> Result<(), SinkFault>
        ensures taken { ⟦<Written<W> as Sink>⟧.taken self.new ≡ ⟦<Written<W> as Sink>⟧.taken self.old }
        ensures faults { ⟦<Written<W> as Sink>⟧.faults self.new ≡ ⟦<Written<W> as Sink>⟧.faults self.old + flush_faults result }
    {
        let flushed = self.writer.flush().or(Err(SinkFault));
        if flushed.is_err() {
            let before = Some(&self.history);
            self.history = History::after(&Call(before, &[], Err(SinkFault)));
        }
        flushed
    }

    /// Returns the writer. If contracts see the contents of a writer, as for a `Vec<u8>`, these are the bytes taken.
    pub fn into_inner(self) -> W
        ensures writer { result ≡ writer_of self }
        ensures bytes { ((w : W) → IsSome (W.contents w)) →
            W.contents result ≡ Some (⟦<Written<W> as Sink>⟧.taken self) }
    {
        self.writer
    }
}

impl<W: Write + Drop> Written<BufWriter<W>> {
    ghost use Rattle.std.specs.Io.Buffered.{writer_buffer};
    ghost use Rattle.ipmi_output.specs.Writer.{flush_faults, writer_of};

    /// Flushes the buffer to the underlying writer. A failure counts as a fault. The bytes taken do not change.
    pub fn flush(&mut self) -> Result<(), SinkFault>
        ensures empty { OnOk result (writer_buffer (writer_of self.new) ≡ []) }
        ensures taken { ⟦<Written<BufWriter<W>> as Sink>⟧.taken self.new ≡ ⟦<Written<BufWriter<W>> as Sink>⟧.taken self.old }
        ensures faults { ⟦<Written<BufWriter<W>> as Sink>⟧.faults self.new ≡
            ⟦<Written<BufWriter<W>> as Sink>⟧.faults self.old + flush_faults result }
    {
        let answer = self.writer.flush().or(Err(SinkFault));
        if answer.is_err() {
            let before = Some(&self.history);
            self.history = History::after(&Call(before, &[], Err(SinkFault)));
        }
        answer
    }
}

/// Writes all bytes, in as many calls as necessary, until one fails or takes none.
#[tactic(auto, using(crate::proofs::MessageLemmas::next_bytes))]
pub fn write_all<O: Sink>(out: &mut O, bytes: &[u8]) -> Result<(), SinkFault>
    ensures ok { OnOk result ((O.taken out.new ≡ O.taken out.old ++ bytes.now) ×
        (O.faults out.new ≡ O.faults out.old)) }
    ensures some { OnErr result (0 < length bytes.now) }
    ensures err { OnErr result (TakesPart (O.taken out.old) (O.taken out.new) bytes.now ×
        (O.faults out.new ≡ O.faults out.old + 1)) }
{
    let mut done = 0;
    while done < bytes.len() {
        let taken = out.write(&bytes[done..])?;
        if taken == 0 {
            return Err(SinkFault);
        }
        done += taken;
    }
    Ok(())
}
