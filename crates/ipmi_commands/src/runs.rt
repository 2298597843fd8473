//! Writes the text of a whole image, and reports how a run ended.
ghost use Rattle.std.specs.Prelude.{◌≡◌, ◌+◌};
ghost use Rattle.ipmi_commands.specs.Below.{write_faults};
ghost use Rattle.ipmi_commands.specs.Prelude.{IsRewriting, IsSaving, printed, Says};

use crate::perform::write_piece;
use crate::summary::Summary;
use ipmi_image::{Image, Snapshot, image_text, snapshot_text};
use ipmi_output::{Failure, MessageSink, Sink, write_failure};
use std::alloc::Global;

/// Writes to `err` why a run did not finish, and returns the exit status. If it did finish, writes nothing and
/// returns 0.
pub fn report<E: MessageSink>(ending: Result<(), Failure<'_>>, err: &mut E) -> u8
    ensures { Says (E.received err.old) (E.received err.new) result (λ e. e ≡ ending.entry) }
{
    match ending {
        Ok(()) => 0,
        Err(failure) => {
            // there is nowhere left to report that this failed
            let _ = write_failure(err, &failure);
            failure.status()
        }
    }
}

/// Writes the canonical text of the image, which counts as one item, and adds it to `summary`.
pub fn write_image<'a, O: Sink>(
    alloc: Global,
    image: &Image,
    out: &mut O,
    summary: &mut Summary,
) -> Result<(), Failure<'a>>
    ensures faults { O.faults out.new ≡ O.faults out.old + write_faults result }
    ensures answers { IsRewriting image.now (printed (O.taken out.old) summary.old) (printed (O.taken out.new) summary.new) result }
{
    write_piece(&image_text(alloc, image)?, false, out, summary)
}

/// Writes the text of the snapshot, which counts as one item, and adds it to `summary`.
pub fn write_snapshot<'a, O: Sink>(
    alloc: Global,
    snapshot: &Snapshot,
    out: &mut O,
    summary: &mut Summary,
) -> Result<(), Failure<'a>>
    ensures faults { O.faults out.new ≡ O.faults out.old + write_faults result }
    ensures answers { IsSaving snapshot.now (printed (O.taken out.old) summary.old) (printed (O.taken out.new) summary.new) result }
{
    write_piece(&snapshot_text(alloc, snapshot)?, false, out, summary)
}
