//! Reads the records of a shelf into an image.
ghost use Rattle.std.specs.Prelude.{◌≡◌, ◌+◌, ◌<◌, ◌≤◌, IfOk, [], Some};
ghost use Rattle.ipmi_capture.specs.Accounted.{HasEnded};
ghost use Rattle.ipmi_capture.specs.Below.{AsksAtMost, IsHonest, StaysHonest, rows_of, with_rows};
ghost use Rattle.ipmi_capture.specs.Left.{IsStateOf};
ghost use Rattle.ipmi_capture.specs.Phases.{most_on_shelf, most_on_walk, Walks, WalksWhile};

use crate::capturing::Asking;
use crate::progress::Progress;
use ipmi_bus::{Controller, Cursor, Ended, Shelf};
use ipmi_image::ImageBuilder;
use std::alloc::AllocError;

/// The number of times that a shelf is read again after a next id without a record.
const TIMES_AGAIN: u32 = 3;

/// Puts the records of the shelf into the image, following their next ids. Returns why it stopped; None after the last record.
/// A record with id FFFFh is malformed, as an image can't hold it.
fn walk_shelf<C: Controller, P: Progress>(
    asking: Asking,
    ctl: &mut C,
    shelf: Shelf,
    image: &mut ImageBuilder,
    progress: &mut P,
) -> Result<Option<Ended>, AllocError>
    requires some { 0 < asking.part }
    requires fits { asking.part < 255 }
    requires none { rows_of shelf image.old ≡ [] }
    ensures beside { image.new ≡ with_rows shelf (rows_of shelf image.new) image.old }
    ensures calls { (C.seen ctl.new).calls ≤ (C.seen ctl.old).calls + most_on_walk shelf
        asking.tries }
    ensures asked { AsksAtMost asking.part (C.seen ctl.old) (C.seen ctl.new) }
    ensures ends { IfOk result (λ ended. HasEnded shelf (rows_of shelf image.new) ended (C.seen ctl.new)) }
    ensures stays { IsHonest (C.seen ctl.old) → StaysHonest (C.seen ctl.old) (C.seen ctl.new) }
    ensures honest { IsHonest (C.seen ctl.old) → IfOk result (λ ended.
        Walks (IsStateOf C.seen) shelf asking.tries (C.seen ctl.old) (C.seen ctl.new) (rows_of shelf image.new) ended) }
    ensures meanwhile { IsHonest (C.seen ctl.old) → IfOk result (λ ended.
        WalksWhile shelf (C.seen ctl.old) (C.seen ctl.new) (rows_of shelf image.new) ended) }
{
    let mut cursor = Cursor::start(asking.alloc, shelf, None, asking.part, asking.tries)?;
    cursor.read_ahead(true);
    'records: loop {
        let record = match cursor.step(ctl) {
            Ok(Some(record)) => record,
            Ok(None) => return Ok(None),
            Err(ended) => return Ok(Some(ended)),
        };
        match image.put_record(shelf, &record) {
            Ok(true) => progress.record(shelf),
            Ok(false) => return Ok(Some(Ended::Malformed(record.id))),
            Err(_) => return Err(AllocError),
        }
    }
}

/// Puts the records of the shelf into the image. If a next id has no record, the shelf may have changed, so it starts again,
/// up to three times.
pub(crate) fn capture_shelf<C: Controller, P: Progress>(
    asking: Asking,
    ctl: &mut C,
    shelf: Shelf,
    image: &mut ImageBuilder,
    progress: &mut P,
) -> Result<Option<Ended>, AllocError>
    requires some { 0 < asking.part }
    requires fits { asking.part < 255 }
    requires none { rows_of shelf image.old ≡ [] }
    ensures beside { image.new ≡ with_rows shelf (rows_of shelf image.new) image.old }
    ensures calls { (C.seen ctl.new).calls ≤ (C.seen ctl.old).calls + most_on_shelf shelf
        asking.tries }
    ensures asked { AsksAtMost asking.part (C.seen ctl.old) (C.seen ctl.new) }
    ensures ends { IfOk result (λ ended. HasEnded shelf (rows_of shelf image.new) ended (C.seen ctl.new)) }
    ensures stays { IsHonest (C.seen ctl.old) → StaysHonest (C.seen ctl.old) (C.seen ctl.new) }
    ensures honest { IsHonest (C.seen ctl.old) → IfOk result (λ ended.
        Walks (IsStateOf C.seen) shelf asking.tries (C.seen ctl.old) (C.seen ctl.new) (rows_of shelf image.new) ended) }
    ensures meanwhile { IsHonest (C.seen ctl.old) → IfOk result (λ ended.
        WalksWhile shelf (C.seen ctl.old) (C.seen ctl.new) (rows_of shelf image.new) ended) }
{
    'walks: for _ in 0..TIMES_AGAIN {
        match walk_shelf(asking, ctl, shelf, image, progress) {
            Ok(Some(Ended::Missing(_))) => image.clear_records(asking.alloc, shelf),
            Ok(ended) => return Ok(ended),
            Err(_) => return Err(AllocError),
        }
    }
    walk_shelf(asking, ctl, shelf, image, progress)
}
