//! Reads infos and sensor readings into an image.
ghost use Rattle.std.specs.Prelude.{◌≡◌, ◌+◌, ◌*◌, ◌<◌, ◌≤◌, IfOk, IfSome, MatchOption, OnErr, OnOk, [], None, Some, ⊤};
ghost use Rattle.std.specs.Option.{option_to_list};
ghost use Rattle.ipmi_capture.specs.Accounted.{IsAbsent};
ghost use Rattle.ipmi_capture.specs.Below.{AsksAtMost, info_of, IsHonest, StaysHonest, reading_of, with_info};
ghost use Rattle.ipmi_capture.specs.Capture.{ReadingOrLeft};
ghost use Rattle.ipmi_capture.specs.Left.{IsStateOf, LacksInfo, LacksReading, SameOrLeft};
ghost use Rattle.ipmi_capture.specs.Meanwhile.{OfHeld};
ghost use Rattle.ipmi_capture.specs.Phases.{Adds, AreReadingsAccounted, Captures, HasRead, HasReadings, HasReadingsWhile, IsUnread};

use crate::capturing::Asking;
use crate::left::{Left, Unread, note};
use crate::named::{Named, SENSOR_PLACES};
use crate::progress::Progress;
use ipmi_bus::{Controller, Shelf, read_info, read_reading};
use ipmi_image::ImageBuilder;
use std::alloc::AllocError;

/// Puts the info of the shelf into the image, if the controller has one. Returns the item left out, if any.
pub(crate) fn capture_info<C: Controller>(
    asking: Asking,
    ctl: &mut C,
    shelf: Shelf,
    image: &mut ImageBuilder,
) -> Option<Left>
    requires none { info_of shelf image.old ≡ None }
    ensures beside { image.new ≡ with_info shelf (info_of shelf image.new) image.old }
    ensures lacks { IfSome result (λ left. LacksInfo shelf left × (info_of shelf image.new ≡ None)) }
    ensures none { MatchOption result (info_of shelf image.new ≡ None → IsAbsent (C.seen ctl.new)) (λ left. ⊤) }
    ensures calls { (C.seen ctl.new).calls ≤ (C.seen ctl.old).calls + (asking.tries + 1) }
    ensures asked { AsksAtMost asking.part (C.seen ctl.old) (C.seen ctl.new) }
    ensures stays { IsHonest (C.seen ctl.old) → StaysHonest (C.seen ctl.old) (C.seen ctl.new) }
    ensures honest { IsHonest (C.seen ctl.old) → Captures (IsStateOf C.seen) asking.tries (C.seen ctl.old) (C.seen ctl.new) []
        (option_to_list result) (SameOrLeft (LacksInfo shelf) (option_to_list result)
        (info_of shelf image.new) (info_of shelf (C.seen ctl.old).store)) }
    ensures meanwhile { IsHonest (C.seen ctl.old) → OfHeld (C.seen ctl.old) (C.seen ctl.new) (λ store.
        SameOrLeft (LacksInfo shelf) (option_to_list result) (info_of shelf image.new) (info_of shelf store)) }
{
    match read_info(ctl, shelf, asking.tries) {
        Ok(Some(info)) => {
            image.put_info(shelf, info);
            None
        }
        Ok(None) => None,
        Err(ended) => Some(Left::Info(shelf, Unread::of(ended))),
    }
}

/// Puts the reading of the sensor into the image, if it has one. Returns the item left out, if any.
fn capture_reading<C: Controller, P: Progress>(
    asking: Asking,
    ctl: &mut C,
    lun: u8,
    number: u8,
    image: &mut ImageBuilder,
    progress: &mut P,
) -> Result<Option<Left>, AllocError>
    requires lun { lun < 4 }
    requires none { reading_of lun number image.old ≡ None }
    ensures image { OnOk result (HasRead lun number (reading_of lun number image.new) image.old image.new) }
    ensures err { OnErr result (image.new ≡ image.old) }
    ensures lacks { IfOk result (λ o. IfSome o (λ left.
        LacksReading lun number left × (reading_of lun number image.new ≡ None))) }
    ensures none { IfOk result (λ o. MatchOption o
        (reading_of lun number image.new ≡ None → IsAbsent (C.seen ctl.new)) (λ left. ⊤)) }
    ensures calls { (C.seen ctl.new).calls ≤ (C.seen ctl.old).calls + (asking.tries + 1) }
    ensures asked { AsksAtMost asking.part (C.seen ctl.old) (C.seen ctl.new) }
    ensures stays { IsHonest (C.seen ctl.old) → StaysHonest (C.seen ctl.old) (C.seen ctl.new) }
    ensures honest { IsHonest (C.seen ctl.old) → IfOk result (λ left. Captures (IsStateOf C.seen) asking.tries (C.seen ctl.old) (C.seen ctl.new) []
        (option_to_list left) (ReadingOrLeft (option_to_list left) image.new (C.seen ctl.old).store (lun, number))) }
    ensures meanwhile { IsHonest (C.seen ctl.old) → IfOk result (λ left. OfHeld (C.seen ctl.old) (C.seen ctl.new) (λ store.
        ReadingOrLeft (option_to_list left) image.new store (lun, number))) }
{
    match read_reading(ctl, 0, lun, number, asking.tries) {
        Ok(Some(reading)) => {
            image.put_reading(lun, number, reading)?;
            progress.reading();
            Ok(None)
        }
        Ok(None) => Ok(None),
        Err(ended) => {
            let unread = Unread::of(ended);
            Ok(Some(Left::Reading {
                lun,
                number,
                unread,
            }))
        }
    }
}

/// Puts the readings of all named sensors into the image.
pub(crate) fn capture_readings<C: Controller, P: Progress>(
    asking: Asking,
    ctl: &mut C,
    named: &Named,
    image: &mut ImageBuilder,
    left: &mut Vec<Left>,
    progress: &mut P,
) -> Result<(), AllocError>
    requires none { image.old.readings ≡ [] }
    ensures beside { image.new ≡ record image.old { readings = image.new.readings } }
    ensures lacks { OnOk result (Adds (IsUnread image.new) left.old.items left.new.items) }
    ensures accounted { OnOk result (AreReadingsAccounted (IsStateOf C.seen) named.now.sensors.items
        left.new.items image.new) }
    ensures calls { (C.seen ctl.new).calls ≤ (C.seen ctl.old).calls + 1024 * (asking.tries + 1) }
    ensures asked { AsksAtMost asking.part (C.seen ctl.old) (C.seen ctl.new) }
    ensures stays { IsHonest (C.seen ctl.old) → StaysHonest (C.seen ctl.old) (C.seen ctl.new) }
    ensures honest { IsHonest (C.seen ctl.old) → OnOk result (Captures (IsStateOf C.seen) asking.tries (C.seen ctl.old) (C.seen ctl.new)
        left.old.items left.new.items (HasReadings named.now.sensors.items left.new.items image.new (C.seen ctl.old).store)) }
    ensures meanwhile { IsHonest (C.seen ctl.old) → OnOk result
        (HasReadingsWhile named.now.sensors.items left.new.items image.new (C.seen ctl.old) (C.seen ctl.new)) }
{
    'places: for place in 0..SENSOR_PLACES {
        if !named.has_sensor(place) {
            continue;
        }
        let lun = (place / 256) as u8;
        let number = (place % 256) as u8;
        let lacks = match capture_reading(asking, ctl, lun, number, image, progress) {
            Ok(lacks) => lacks,
            Err(_) => return Err(AllocError),
        };
        match note(left, lacks) {
            Ok(()) => {}
            Err(_) => return Err(AllocError),
        }
    }
    Ok(())
}
