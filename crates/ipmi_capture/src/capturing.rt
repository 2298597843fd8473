//! Captures a controller: reads its contents into an image.
ghost use Rattle.std.specs.Prelude.{◌≡◌, ◌+◌, ◌<◌, ◌≤◌, All, IfOk, IsTrue, None, OnOk, []};
ghost use Rattle.std.specs.List.{list_all};
ghost use Rattle.ipmi_capture.specs.Accounted.{BothEndOrTurn, IsAccountedFor, IsListedOrAbsent, IsShelfRead};
ghost use Rattle.ipmi_capture.specs.Below.{AsksAtMost, empty_store, info_of, IsHonest, IsPlain, IsStore, rows_of, StaysHonest, with_info, with_rows};
ghost use Rattle.ipmi_capture.specs.Capture.{IsCaptureBut, IsCaptureOf};
ghost use Rattle.ipmi_capture.specs.Left.{AreCounted, IsLeftOut, IsStateOf, IsTrueOf, LacksInfo, leaves_nothing, leaves_whole, PlainLeaves, SameOrLeft};
ghost use Rattle.ipmi_capture.specs.Meanwhile.{IsCaptureWhile, IsTrueWhile, OfHeld};
ghost use Rattle.ipmi_capture.specs.Phases.{Adds, AreWalk, Captures, HasLog, IsEndOf, most_calls, most_on_shelf};

use crate::inventories::capture_inventories;
use crate::left::{Left, is_whole, note};
use crate::named::Named;
use crate::progress::Progress;
use crate::values::{capture_info, capture_readings};
use crate::walks::capture_shelf;
use ipmi_bus::{Controller, Shelf};
use ipmi_image::{Image, ImageBuilder};
use std::alloc::{AllocError, Global};

/// The settings for requests: the largest part in bytes, and the number of troubles allowed for each item, or part of an inventory.
#[derive(Clone, Copy)]
pub(crate) struct Asking {
    pub(crate) alloc: Global,
    pub(crate) part: u8,
    pub(crate) tries: u8,
}

/// The result of a capture.
#[derive(Drop)]
pub struct Captured {
    /// The image of what was read.
    pub image: Image,
    /// The items left out, each with the reason.
    pub left: Vec<Left>,
    /// Whether only infos, readings, sizes that the controller refused, inventories without bytes, and cycles are left out. A lost
    /// connection refuses all later requests; then `RawController::lost` of `ipmi_raw` is Some.
    pub is_whole: bool,
}

/// Puts the records of a shelf into the image, and notes why it stopped before FFFFh, if it did.
fn note_shelf<C: Controller, P: Progress>(
    asking: Asking,
    ctl: &mut C,
    shelf: Shelf,
    image: &mut ImageBuilder,
    left: &mut Vec<Left>,
    progress: &mut P,
) -> Result<(), AllocError>
    requires some { 0 < asking.part }
    requires fits { asking.part < 255 }
    requires none { rows_of shelf image.old ≡ [] }
    ensures beside { image.new ≡ with_rows shelf (rows_of shelf image.new) image.old }
    ensures lacks { OnOk result (Adds (IsEndOf shelf (rows_of shelf image.new)) left.old.items left.new.items) }
    ensures accounted { OnOk result (IsShelfRead (IsStateOf C.seen) shelf left.new.items (rows_of shelf image.new)) }
    ensures calls { (C.seen ctl.new).calls ≤ (C.seen ctl.old).calls + most_on_shelf shelf asking.tries }
    ensures asked { AsksAtMost asking.part (C.seen ctl.old) (C.seen ctl.new) }
    ensures stays { IsHonest (C.seen ctl.old) → StaysHonest (C.seen ctl.old) (C.seen ctl.new) }
    ensures honest { IsHonest (C.seen ctl.old) → OnOk result (Captures (IsStateOf C.seen) asking.tries (C.seen ctl.old) (C.seen ctl.new)
        left.old.items left.new.items (AreWalk shelf left.new.items (C.seen ctl.old).store (rows_of shelf image.new))) }
    ensures meanwhile { IsHonest (C.seen ctl.old) → OnOk result
        (HasLog shelf left.new.items (C.seen ctl.old) (C.seen ctl.new) (rows_of shelf image.new)) }
{
    match capture_shelf(asking, ctl, shelf, image, progress) {
        Ok(Some(ended)) => note(left, Some(Left::Records(shelf, ended))),
        Ok(None) => Ok(()),
        Err(_) => Err(AllocError),
    }
}

/// Puts the info of a shelf into the image, and notes if it was left out.
fn note_info<C: Controller>(
    asking: Asking,
    ctl: &mut C,
    shelf: Shelf,
    image: &mut ImageBuilder,
    left: &mut Vec<Left>,
) -> Result<(), AllocError>
    requires none { info_of shelf image.old ≡ None }
    ensures beside { image.new ≡ with_info shelf (info_of shelf image.new) image.old }
    ensures lacks { OnOk result (Adds (λ l. LacksInfo shelf l × (info_of shelf image.new ≡ None))
        left.old.items left.new.items) }
    ensures accounted { OnOk result (IsListedOrAbsent (IsStateOf C.seen) (LacksInfo shelf) left.new.items (info_of shelf image.new)) }
    ensures calls { (C.seen ctl.new).calls ≤ (C.seen ctl.old).calls + (asking.tries + 1) }
    ensures asked { AsksAtMost asking.part (C.seen ctl.old) (C.seen ctl.new) }
    ensures stays { IsHonest (C.seen ctl.old) → StaysHonest (C.seen ctl.old) (C.seen ctl.new) }
    ensures honest { IsHonest (C.seen ctl.old) → OnOk result (Captures (IsStateOf C.seen) asking.tries (C.seen ctl.old) (C.seen ctl.new)
        left.old.items left.new.items (SameOrLeft (LacksInfo shelf) left.new.items (info_of shelf image.new) (info_of shelf (C.seen ctl.old).store))) }
    ensures meanwhile { IsHonest (C.seen ctl.old) → OnOk result (OfHeld (C.seen ctl.old) (C.seen ctl.new) (λ store.
        SameOrLeft (LacksInfo shelf) left.new.items (info_of shelf image.new) (info_of shelf store))) }
{
    let lacks = capture_info(asking, ctl, shelf, image);
    note(left, lacks)
}

/// Puts the items of the controller into an empty image, and notes those that are left out.
fn capture_into<C: Controller, P: Progress>(
    asking: Asking,
    ctl: &mut C,
    image: &mut ImageBuilder,
    left: &mut Vec<Left>,
    progress: &mut P,
) -> Result<(), AllocError>
    requires some { 0 < asking.part }
    requires fits { asking.part < 255 }
    requires empty { image.old ≡ empty_store }
    requires none { left.old.items ≡ [] }
    ensures calls { (C.seen ctl.new).calls ≤ (C.seen ctl.old).calls + most_calls asking.tries }
    ensures asked { AsksAtMost asking.part (C.seen ctl.old) (C.seen ctl.new) }
    ensures lacks { OnOk result (All (IsLeftOut image.new) left.new.items) }
    ensures accounted { OnOk result (IsAccountedFor (IsStateOf C.seen) left.new.items image.new) }
    ensures stays { IsHonest (C.seen ctl.old) → StaysHonest (C.seen ctl.old) (C.seen ctl.new) }
    ensures counts { IsHonest (C.seen ctl.old) →
        OnOk result (AreCounted (IsStateOf C.seen) asking.tries left.new.items (C.seen ctl.old) (C.seen ctl.new)) }
    ensures honest { IsHonest (C.seen ctl.old) →
        (C.seen ctl.new).stores_added ≡ (C.seen ctl.old).stores_added →
        OnOk result (IsStore image.new → IsCaptureBut left.new.items image.new (C.seen ctl.old).store) }
    ensures meanwhile { IsHonest (C.seen ctl.old) →
        OnOk result (IsStore image.new → IsCaptureWhile left.new.items image.new (C.seen ctl.old) (C.seen ctl.new)) }
    ensures told { IsHonest (C.seen ctl.old) →
        (C.seen ctl.new).stores_added ≡ (C.seen ctl.old).stores_added →
        OnOk result (All (IsTrueOf (C.seen ctl.old).store) left.new.items) }
    ensures told_while { IsHonest (C.seen ctl.old) →
        OnOk result (All (IsTrueWhile (C.seen ctl.old) (C.seen ctl.new)) left.new.items) }
    ensures plain { IsPlain (C.seen ctl.old) →
        OnOk result (All (PlainLeaves (C.seen ctl.old).store) left.new.items) }
{
    note_info(asking, ctl, Shelf::Sdr, image, left)?;
    note_shelf(asking, ctl, Shelf::Sdr, image, left, progress)?;
    note_info(asking, ctl, Shelf::Sel, image, left)?;
    note_shelf(asking, ctl, Shelf::Sel, image, left, progress)?;
    let named = Named::of(asking.alloc, image)?;
    capture_readings(asking, ctl, &named, image, left, progress)?;
    capture_inventories(asking, ctl, &named, image, left, progress)?;
    Ok(())
}

/// Reads the contents of the controller: of each shelf the info and then the records along their next ids; the inventory of
/// device 0, and once each the readings of the sensors and the inventories of the devices that records name. A request is
/// for at most `part` bytes. Each item may have `tries` troubles, and so may each part of an inventory. After a refusal it continues
/// with the next item.
///
/// Over any controller, an item left out is not in the image; of a shelf, the first records may be, and they end as is noted. Nothing
/// is missing without a note: the records of a shelf end with FFFFh, and an info, or a reading or inventory that a record names, is in
/// the image, or the controller answered that there is none. In a whole image a shelf may also turn to an id of its own, which is
/// noted. Over an honest controller, each
/// item given up or refused has a stretch of the run of its own: with `tries` + 1 troubles and no refusal, or with at most `tries`
/// troubles and one refusal, with the item's code. A size has two. If it adds no store meanwhile, the image has exactly the
/// controller's items, except those left out. A walk that does not end with FFFFh is noted with its end. Such an end is true of the
/// store, and so is an inventory noted as empty; nothing stalls, is malformed, cut off, or uses words. If nothing was left out, the
/// image is a capture. Over a plain controller only inventories without bytes are left out.
///
/// Whatever stores it adds meanwhile, each record, info and reading of the image is that of a store that the controller held during
/// the capture. The info of a shelf is that of a store held up to some state, and the records are those of stores held from then on, so
/// an info is never newer than a record. A walk and an inventory are the controller's, except those left out, if the rows of the shelf
/// did not change from that state on, or that inventory did not change. If the walk of a shelf ended with FFFFh then and only grew, the
/// image has the whole walk of one such store, which begins with all records of that walk; or it has the first records of it, and
/// the others were given up or refused. An end that is noted is true of the shelf, unless its rows changed otherwise than by growing.
/// An inventory noted as empty was there, and is empty unless it changed; one is cut off only if it was there and at another time was
/// not. Nothing stalls, is malformed, or uses words.
pub fn capture<C: Controller, P: Progress>(
    alloc: Global,
    ctl: &mut C,
    part: u8,
    tries: u8,
    progress: &mut P,
) -> Result<Captured, AllocError>
    requires some { 0 < part }
    requires fits { part < 255 }
    ensures calls { (C.seen ctl.new).calls ≤ (C.seen ctl.old).calls + most_calls tries }
    ensures asked { AsksAtMost part (C.seen ctl.old) (C.seen ctl.new) }
    ensures lacks { IfOk result (λ c. All (IsLeftOut c.image) c.left.items) }
    ensures accounted { IfOk result (λ c. IsAccountedFor (IsStateOf C.seen) c.left.items c.image) }
    ensures whole { IfOk result (λ c. c.is_whole ≡ list_all leaves_whole c.left.items) }
    ensures ends { IfOk result (λ c. IsTrue c.is_whole → BothEndOrTurn (IsStateOf C.seen) c.left.items c.image) }
    ensures stays { IsHonest (C.seen ctl.old) → StaysHonest (C.seen ctl.old) (C.seen ctl.new) }
    ensures counts { IsHonest (C.seen ctl.old) →
        IfOk result (λ c. AreCounted (IsStateOf C.seen) tries c.left.items (C.seen ctl.old) (C.seen ctl.new)) }
    ensures honest { IsHonest (C.seen ctl.old) →
        (C.seen ctl.new).stores_added ≡ (C.seen ctl.old).stores_added →
        IfOk result (λ c. IsCaptureBut c.left.items c.image (C.seen ctl.old).store) }
    ensures meanwhile { IsHonest (C.seen ctl.old) →
        IfOk result (λ c. IsCaptureWhile c.left.items c.image (C.seen ctl.old) (C.seen ctl.new)) }
    ensures all { IsHonest (C.seen ctl.old) →
        (C.seen ctl.new).stores_added ≡ (C.seen ctl.old).stores_added →
        IfOk result (λ c. IsTrue (list_all leaves_nothing c.left.items) →
        IsCaptureOf c.image (C.seen ctl.old).store) }
    ensures told { IsHonest (C.seen ctl.old) →
        (C.seen ctl.new).stores_added ≡ (C.seen ctl.old).stores_added →
        IfOk result (λ c. All (IsTrueOf (C.seen ctl.old).store) c.left.items) }
    ensures told_while { IsHonest (C.seen ctl.old) →
        IfOk result (λ c. All (IsTrueWhile (C.seen ctl.old) (C.seen ctl.new)) c.left.items) }
    ensures plain { IsPlain (C.seen ctl.old) →
        IfOk result (λ c. All (PlainLeaves (C.seen ctl.old).store) c.left.items) }
{
    let asking = Asking { alloc, part, tries };
    let mut image = ImageBuilder::new(alloc);
    let mut left = Vec::new(alloc);
    capture_into(asking, ctl, &mut image, &mut left, progress)?;
    let is_whole = is_whole(&left);
    Ok(Captured {
        image: image.finish(),
        left,
        is_whole,
    })
}
