//! Writes the text of each record that a cursor returns.
ghost use Rattle.std.specs.Prelude.{◌≡◌, ◌≤◌, ◌+◌};
ghost use Rattle.std.specs.FinSet as set;
ghost use Rattle.ipmi_commands.specs.Below.{AsksAtMost, IsHonest, IsStateOf, write_faults};
ghost use Rattle.ipmi_commands.specs.Prelude.{change, ending_of, EndsListing, is_reached, Lists, printed, ReachesEnd, RetriesParts, shelf_of, WritesWhole};

use crate::format::Format;
use crate::job::Form;
use crate::limits::RequestLimits;
use crate::piece::row_text;
use crate::summary::Summary;
use ipmi_bus::{Controller, Cursor};
use ipmi_image::LineBuffer;
use ipmi_output::{Failure, Sink, write_all};
use std::alloc::Global;

/// Whether the limit is reached.
pub(crate) fn is_reached(most: Option<u32>, count: u32) -> bool
    ensures { result ≡ is_reached most count }
{
    most == Some(count)
}

/// Writes the text of each record, starting at the cursor's place, while the record is borrowed. Stops after `most`
/// records that the form counts if that is Some. Returns their number.
pub(crate) fn list_records<'a, F: Format, C: Controller, O: Sink>(
    alloc: Global,
    cursor: &mut Cursor,
    ctl: &mut C,
    limits: RequestLimits,
    format: &F,
    form: &Form<'a>,
    most: Option<u32>,
    out: &mut O,
    summary: &mut Summary,
) -> Result<u32, Failure<'a>>
    requires shelf { cursor.old.shelf ≡ shelf_of form.now }
    requires tries { cursor.old.tries ≡ limits.tries.count }
    requires room { set.len cursor.old.ids ≤ 65536 }
    requires part { cursor.old.part ≤ limits.part }
    ensures faults { O.faults out.new ≡ O.faults out.old + write_faults (ending_of result) }
    ensures asked { AsksAtMost limits.part (C.seen ctl.old) (C.seen ctl.new) }
    ensures ends { EndsListing form.now (C.seen ctl.new) (ending_of result) }
    ensures parts { IsHonest (C.seen ctl.old) → RetriesParts limits.tries (IsStateOf C.seen) (C.seen ctl.new) (ending_of result) }
    ensures whole { WritesWhole form.now (O.taken out.old) (O.taken out.new) (ending_of result) }
    ensures reaches { ReachesEnd most cursor.new result }
    ensures lists { Lists (F.texts format.now) form.now limits.tries most cursor.old cursor.new
        (change (C.seen ctl.old) (C.seen ctl.new) (printed (O.taken out.old) summary.old) (printed (O.taken out.new) summary.new)) result }
{
    let mut count = 0;
    let mut wrote = false;
    let mut line = LineBuffer::new();
    'records: loop {
        if is_reached(most, count) {
            return form.end(wrote, count);
        }
        let record = match cursor.step(ctl) {
            Ok(Some(record)) => record,
            Ok(None) => return form.end(wrote, count),
            Err(ended) => return Err(Failure::Ended(ended)),
        };
        let counted = count + u32::from(form.counts(&record));
        let text = match row_text(alloc, ctl, limits, format, form, &record, &mut line) {
            Ok(text) => text,
            Err(unread) => return Err(Failure::from(unread)),
        };
        let bytes = text.bytes(&line);
        match write_all(out, bytes) {
            Ok(()) => {
                summary.add(bytes, text.has_fault());
                wrote |= !bytes.is_empty();
                count = counted;
                // dropped here, so that there is one path back to the start of the loop, with or without a text
                drop(text);
            }
            Err(_) => return Err(Failure::WriteFault),
        }
    }
}
