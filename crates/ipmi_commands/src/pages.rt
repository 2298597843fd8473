//! Lists records in pages, each with a cursor of its own.
ghost use Rattle.std.specs.Prelude.{◌≡◌, ◌≢◌, ◌+◌, ◌*◌, ◌≤◌, None, Some, IfOk};
ghost use Rattle.ipmi_commands.specs.Below.{AsksAtMost, End, start_of, IsHonest, IsStateOf, write_faults};
ghost use Rattle.ipmi_commands.specs.Prelude.{ArePages, change, ending_of, EndsListing, IsFresh, IsFrom, IsPage, IsPlace, most_on_walk, pages_made, printed, RetriesParts, WritesWhole};

use crate::format::Format;
use crate::job::Form;
use crate::limits::RequestLimits;
use crate::listing::{is_reached, list_records};
use crate::summary::Summary;
use ipmi_bus::{Controller, Cursor, Ended, FIRST_RECORD_ID, Place, Shelf};
use ipmi_output::{Failure, Sink};
use std::alloc::{AllocError, Global};

/// A cursor over the records of the shelf, starting at the id `from` or at the first record. It has these limits.
pub fn start_cursor(
    alloc: Global,
    limits: RequestLimits,
    shelf: Shelf,
    from: Option<u16>,
) -> Result<Cursor, AllocError>
    requires { IsFrom from }
    ensures { IfOk result (λ cursor. IsFresh limits shelf from cursor) }
{
    ipmi_bus::laws::a_part_size_has_few_digits();
    let mut cursor = Cursor::start(alloc, shelf, from, limits.part(), limits.tries().count)?;
    cursor.read_ahead(limits.reads_ahead());
    Ok(cursor)
}

/// Lists records with a new cursor, starting at the id `from` or at the first record, at most `most` of them if that
/// is Some. Returns the place where the next page begins.
fn list_from<'a, F: Format, C: Controller, O: Sink>(
    alloc: Global,
    ctl: &mut C,
    limits: RequestLimits,
    format: &F,
    form: &Form<'a>,
    from: Option<u16>,
    most: Option<u32>,
    out: &mut O,
    summary: &mut Summary,
) -> Result<Place, Failure<'a>>
    requires { IsFrom from }
    ensures faults { O.faults out.new ≡ O.faults out.old + write_faults (ending_of result) }
    ensures asked { AsksAtMost limits.part (C.seen ctl.old) (C.seen ctl.new) }
    ensures ends { EndsListing form.now (C.seen ctl.new) (ending_of result) }
    ensures parts { IsHonest (C.seen ctl.old) → RetriesParts limits.tries (IsStateOf C.seen) (C.seen ctl.new) (ending_of result) }
    ensures whole { WritesWhole form.now (O.taken out.old) (O.taken out.new) (ending_of result) }
    ensures place { IfOk result (λ next. IsPlace next) }
    ensures reaches { most ≡ None → IfOk result (λ next. next ≡ End) }
    ensures calls { (C.seen ctl.new).calls ≤ (C.seen ctl.old).calls + most_on_walk form.now
        limits.tries }
    ensures honest { most ≢ Some 0 → IsHonest (C.seen ctl.old) →
        IsPage (F.texts format.now) form.now (start_of from) limits.tries most (change (C.seen ctl.old) (C.seen ctl.new)
        (printed (O.taken out.old) summary.old) (printed (O.taken out.new) summary.new)) result }
{
    let mut cursor = start_cursor(alloc, limits, form.shelf(), from)?;
    list_records(
        alloc,
        &mut cursor,
        ctl,
        limits,
        format,
        form,
        most,
        out,
        summary,
    )?;
    Ok(cursor.resume_at())
}

/// Lists records with a new cursor, starting at `place`, at most `most` of them if that is Some. Returns the place
/// where the next page begins.
pub(crate) fn list_page<'a, F: Format, C: Controller, O: Sink>(
    alloc: Global,
    ctl: &mut C,
    limits: RequestLimits,
    format: &F,
    form: &Form<'a>,
    place: Place,
    most: Option<u32>,
    out: &mut O,
    summary: &mut Summary,
) -> Result<Place, Failure<'a>>
    requires { IsPlace place }
    ensures faults { O.faults out.new ≡ O.faults out.old + write_faults (ending_of result) }
    ensures asked { AsksAtMost limits.part (C.seen ctl.old) (C.seen ctl.new) }
    ensures ends { EndsListing form.now (C.seen ctl.new) (ending_of result) }
    ensures parts { IsHonest (C.seen ctl.old) → RetriesParts limits.tries (IsStateOf C.seen) (C.seen ctl.new) (ending_of result) }
    ensures whole { WritesWhole form.now (O.taken out.old) (O.taken out.new) (ending_of result) }
    ensures place { IfOk result (λ next. IsPlace next) }
    ensures reaches { most ≡ None → IfOk result (λ next. next ≡ End) }
    ensures calls { (C.seen ctl.new).calls ≤ (C.seen ctl.old).calls + most_on_walk form.now
        limits.tries }
    ensures none { most ≡ Some 0 → C.seen ctl.new ≡ C.seen ctl.old }
    ensures honest { IsHonest (C.seen ctl.old) →
        IsPage (F.texts format.now) form.now place limits.tries most (change (C.seen ctl.old) (C.seen ctl.new)
        (printed (O.taken out.old) summary.old) (printed (O.taken out.new) summary.new)) result }
{
    if is_reached(most, 0) {
        return form.end(false, place);
    }
    match place {
        Place::First => list_from(alloc, ctl, limits, format, form, None, most, out, summary),
        Place::Id(FIRST_RECORD_ID) => Err(Failure::Ended(Ended::Cycle(FIRST_RECORD_ID))),
        Place::Id(id) => list_from(
            alloc,
            ctl,
            limits,
            format,
            form,
            Some(id),
            most,
            out,
            summary,
        ),
        Place::End => form.end(false, place),
    }
}

/// Lists records in pages of these sizes, and then in a page without a limit, starting at `start`.
pub(crate) fn list_pages<'a, F: Format, C: Controller, O: Sink>(
    alloc: Global,
    ctl: &mut C,
    limits: RequestLimits,
    format: &F,
    form: &Form<'a>,
    start: Place,
    out: &mut O,
    summary: &mut Summary,
    sizes: &[u32],
) -> Result<(), Failure<'a>>
    requires { IsPlace start }
    ensures faults { O.faults out.new ≡ O.faults out.old + write_faults result }
    ensures asked { AsksAtMost limits.part (C.seen ctl.old) (C.seen ctl.new) }
    ensures ends { EndsListing form.now (C.seen ctl.new) result }
    ensures parts { IsHonest (C.seen ctl.old) → RetriesParts limits.tries (IsStateOf C.seen) (C.seen ctl.new) result }
    ensures calls { (C.seen ctl.new).calls ≤ (C.seen ctl.old).calls + pages_made sizes.now *
        most_on_walk form.now limits.tries }
    ensures honest { IsHonest (C.seen ctl.old) →
        ArePages (F.texts format.now) form.now limits.tries start sizes.now (change (C.seen ctl.old) (C.seen ctl.new)
        (printed (O.taken out.old) summary.old) (printed (O.taken out.new) summary.new)) result }
{
    let mut place = start;
    'pages: for size in sizes {
        match list_page(
            alloc,
            ctl,
            limits,
            format,
            form,
            place,
            Some(*size),
            out,
            summary,
        ) {
            Ok(next) => place = next,
            Err(failure) => return Err(failure),
        }
    }
    list_page(alloc, ctl, limits, format, form, place, None, out, summary)?;
    Ok(())
}
