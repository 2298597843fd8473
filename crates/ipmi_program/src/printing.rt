//! Flushes the output of a run.
ghost use Rattle.std.specs.Prelude.{◌≡◌, ◌⊎◌, ◌+◌, Err, [], IsSome, unwrap_or};
ghost use Rattle.std.specs.Io.Buffered.{writer_buffer, writer_inner};
ghost use Rattle.ipmi_output.specs.Failure.{write_faults};
ghost use Rattle.ipmi_output.specs.declared.failure.Failure.{Failure};
ghost use Rattle.ipmi_output.specs.Writer.{writer_of};
ghost use Rattle.ipmi_program.specs.Printing.{IsFlushed};

use ipmi_output::{Failure, Sink, Written};
use std::io::{BufWriter, Write};

/// Flushes the output of a run with this ending to the writer below the buffer, unless the run already ended with a
/// write fault. If the flush fails, the run ends with a write fault.
pub fn flush<'a, W: Write + Drop>(
    ending: Result<(), Failure<'a>>,
    out: &mut Written<BufWriter<W>>,
) -> Result<(), Failure<'a>>
    ensures faults { ⟦<Written<BufWriter<W>> as Sink>⟧.faults out.new + write_faults ending.entry ≡
        ⟦<Written<BufWriter<W>> as Sink>⟧.faults out.old + write_faults result }
    ensures taken { ⟦<Written<BufWriter<W>> as Sink>⟧.taken out.new ≡ ⟦<Written<BufWriter<W>> as Sink>⟧.taken out.old }
    ensures ends { (result ≡ ending.entry) ⊎ (result ≡ Err Failure.WriteFault) }
    ensures flushed { IsFlushed (writer_buffer (writer_of out.new)) result }
{
    if !matches!(ending, Err(Failure::WriteFault)) {
        out.flush()?;
    }
    ending
}
