//! Reads inventories of FRU devices into an image.
ghost use Rattle.std.specs.Prelude.{◌≡◌, ◌+◌, ◌*◌, ◌<◌, ◌≤◌, IfOk, IfSome, MatchOption, OnErr, OnOk, [], None, Some, false, vec_len, ℕ, ⊤};
ghost use Rattle.std.specs.Option.{option_to_list};
ghost use Rattle.ipmi_capture.specs.Accounted.{IsAbsent};
ghost use Rattle.ipmi_capture.specs.Below.{as_inventory, AsksAtMost, class_of, FruEnded, inventory_of, IsHonest, IsPlain, Keeps, not_present, ReadsRetryingParts, Seen, SizeFails, StaysHonest};
ghost use Rattle.ipmi_capture.specs.Capture.{InventoryOrLeft};
ghost use Rattle.ipmi_capture.specs.Left.{CountsGrow, IsStateOf, LacksInventory};
ghost use Rattle.ipmi_capture.specs.Phases.{Adds, AreInventoriesAccounted, Captures, IsLeftAfter, IsLeftAgain, IsLeftBy, NoneIsLeft, IsNotSize, IsUnkept, HasInventories, HasInventoriesWhile, HasInventory, most_for_inventory, SizeCame, SizeSays};

use crate::capturing::Asking;
use crate::left::{Left, note};
use crate::named::Named;
use crate::progress::Progress;
use ipmi_bus::{
    Code, CodeClass, Controller, FruEnded, LAST_FRU_DEVICE_ID, read_fru_retrying_parts,
};
use ipmi_image::ImageBuilder;
use std::alloc::AllocError;

/// FFh, which is not the id of a FRU device.
const NO_DEVICE: u8 = LAST_FRU_DEVICE_ID + 1;

/// How to proceed after a failed request for the size: Ok if it is to be repeated, otherwise Err.
fn fail_size(code: Code, troubles: u16, tries: u8) -> Result<(), FruEnded>
    ensures { SizeFails (class_of code.0) code troubles tries result }
{
    match code.class() {
        CodeClass::Cancelled | CodeClass::Busy if troubles < u16::from(tries) => Ok(()),
        CodeClass::Cancelled | CodeClass::Busy => Err(FruEnded::GaveUp),
        CodeClass::SmallerPart | CodeClass::NotPresent | CodeClass::Refusal => {
            Err(FruEnded::Refused(code))
        }
    }
}

/// Requests the size of the inventory. The request is repeated after a trouble, at most `tries` times.
fn ask_size<C: Controller>(ctl: &mut C, id: u8, tries: u8) -> Result<(), FruEnded>
    ensures calls { (C.seen ctl.new).calls ≤ (C.seen ctl.old).calls + (tries + 1) }
    ensures asked { AsksAtMost 0 (C.seen ctl.old) (C.seen ctl.new) }
    ensures says { SizeSays result (C.seen ctl.new) }
    ensures honest { IsHonest (C.seen ctl.old) → SizeCame id tries (C.seen ctl.old) (C.seen ctl.new) result }
{
    let mut troubles = 0;
    'asking: loop {
        match ctl.fru_size(id) {
            Ok(_) => return Ok(()),
            Err(code) => fail_size(code, troubles, tries)?,
        }
        troubles += 1;
    }
}

/// The item left out after a refusal with this code; None if there is no inventory. Either the size or a part may have been
/// refused, so the size is requested once more. If it is given after CBh, the inventory was cut off. Only if CBh comes again, there is
/// no inventory.
fn left_by_refusal<C: Controller>(ctl: &mut C, id: u8, code: Code, tries: u8) -> Option<Left>
    ensures calls { (C.seen ctl.new).calls ≤ (C.seen ctl.old).calls + (tries + 1) }
    ensures asked { AsksAtMost 0 (C.seen ctl.old) (C.seen ctl.new) }
    ensures stays { IsHonest (C.seen ctl.old) → StaysHonest (C.seen ctl.old) (C.seen ctl.new) }
    ensures counts { IsHonest (C.seen ctl.old) → CountsGrow (C.seen ctl.old) (C.seen ctl.new) }
    ensures left { MatchOption result ((code ≡ not_present) × IsAbsent (C.seen ctl.new))
        (IsLeftBy id (FruEnded.Refused code) (C.seen ctl.new)) }
    ensures why { IfSome result (IsNotSize code (C.seen ctl.new)) }
    ensures again { IsHonest (C.seen ctl.old) →
        IfSome result (IsLeftAgain (FruEnded.Refused code) tries (C.seen ctl.old) (C.seen ctl.new)) }
    ensures plain { IsPlain (C.seen ctl.old) → inventory_of id (C.seen ctl.old).store ≡ None → code ≡ not_present →
        result ≡ None }
{
    let is_absent = code == Code::NOT_PRESENT;
    match ask_size(ctl, id, tries) {
        Ok(()) if is_absent => Some(Left::CutOff(id)),
        Err(ended) if ended == FruEnded::Refused(code) => {
            (!is_absent).then_some(Left::Size(id, code))
        }
        Err(ended) if is_absent => Some(Left::Inventory(id, ended)),
        _ => Some(Left::Inventory(id, FruEnded::Refused(code))),
    }
}

/// The item left out if an inventory was not read.
fn left_by<C: Controller>(
    ctl: &mut C,
    id: u8,
    ended: FruEnded,
    tries: u8,
) -> Result<Option<Left>, AllocError>
    ensures calls { (C.seen ctl.new).calls ≤ (C.seen ctl.old).calls + (tries + 1) }
    ensures asked { AsksAtMost 0 (C.seen ctl.old) (C.seen ctl.new) }
    ensures stays { IsHonest (C.seen ctl.old) → StaysHonest (C.seen ctl.old) (C.seen ctl.new) }
    ensures counts { IsHonest (C.seen ctl.old) → CountsGrow (C.seen ctl.old) (C.seen ctl.new) }
    ensures left { IfOk result (λ o. MatchOption o ((ended ≡ FruEnded.Refused not_present) × IsAbsent (C.seen ctl.new))
        (IsLeftBy id ended (C.seen ctl.new))) }
    ensures again { IsHonest (C.seen ctl.old) →
        IfOk result (λ o. IfSome o (IsLeftAgain ended tries (C.seen ctl.old) (C.seen ctl.new))) }
    ensures plain { IsPlain (C.seen ctl.old) → inventory_of id (C.seen ctl.old).store ≡ None →
        ended ≡ FruEnded.Refused not_present → result ≡ Ok None }
{
    match ended {
        FruEnded::Memory => Err(AllocError),
        FruEnded::Refused(code) => Ok(left_by_refusal(ctl, id, code, tries)),
        ended => Ok(Some(Left::Inventory(id, ended))),
    }
}

/// Puts the inventory that was read into the image. Returns the item left out, if any.
fn take_inventory<C: Controller, P: Progress>(
    tries: u8,
    ctl: &mut C,
    id: u8,
    read: Result<Vec<u8>, FruEnded>,
    image: &mut ImageBuilder,
    progress: &mut P,
) -> Result<Option<Left>, AllocError>
    requires id { id < 255 }
    requires fits { IfOk read (λ bytes. vec_len bytes ≤ 65535) }
    requires none { inventory_of id image.old ≡ None }
    ensures image { OnOk result (HasInventory id (inventory_of id image.new) image.old image.new) }
    ensures err { OnErr result (image.new ≡ image.old) }
    ensures left { IfOk result (λ o. MatchOption o
        (NoneIsLeft (as_inventory read) (C.seen ctl.new) (inventory_of id image.new))
        (λ left. IsLeftAfter id (as_inventory read) (C.seen ctl.new) left × (inventory_of id image.new ≡ None))) }
    ensures calls { (C.seen ctl.new).calls ≤ (C.seen ctl.old).calls + (tries + 1) }
    ensures asked { AsksAtMost 0 (C.seen ctl.old) (C.seen ctl.new) }
    ensures stays { IsHonest (C.seen ctl.old) → StaysHonest (C.seen ctl.old) (C.seen ctl.new) }
    ensures honest { (s : Seen) → IsStateOf C.seen s → ReadsRetryingParts (IsStateOf C.seen) id tries s (C.seen ctl.old) (as_inventory read) →
        IfOk result (λ left. Captures (IsStateOf C.seen) tries s (C.seen ctl.new) []
        (option_to_list left) (InventoryOrLeft (option_to_list left) image.new s.store id)) }
    ensures meanwhile { (s : Seen) → ReadsRetryingParts (IsStateOf C.seen) id tries s (C.seen ctl.old) (as_inventory read) →
        IfOk result (λ left. Keeps (inventory_of id) s (C.seen ctl.new) →
        InventoryOrLeft (option_to_list left) image.new s.store id) }
{
    match read {
        Ok(bytes) => {
            if bytes.is_empty() {
                return Ok(Some(Left::Empty(id)));
            }
            image.put_inventory(id, bytes)?;
            progress.inventory();
            Ok(None)
        }
        Err(ended) => left_by(ctl, id, ended, tries),
    }
}

/// Puts the inventory of the device into the image, if it has one. Returns the item left out, if any.
fn capture_inventory<C: Controller, P: Progress>(
    asking: Asking,
    ctl: &mut C,
    id: u8,
    image: &mut ImageBuilder,
    progress: &mut P,
) -> Result<Option<Left>, AllocError>
    requires some { 0 < asking.part }
    requires fits { asking.part < 255 }
    requires id { id < 255 }
    requires none { inventory_of id image.old ≡ None }
    ensures image { OnOk result (HasInventory id (inventory_of id image.new) image.old image.new) }
    ensures err { OnErr result (image.new ≡ image.old) }
    ensures lacks { IfOk result (λ o. IfSome o (λ left.
        LacksInventory id left × (inventory_of id image.new ≡ None))) }
    ensures none { IfOk result (λ o. MatchOption o
        (inventory_of id image.new ≡ None → IsAbsent (C.seen ctl.new)) (λ left. ⊤)) }
    ensures calls { (C.seen ctl.new).calls ≤ (C.seen ctl.old).calls + most_for_inventory asking.tries }
    ensures asked { AsksAtMost asking.part (C.seen ctl.old) (C.seen ctl.new) }
    ensures stays { IsHonest (C.seen ctl.old) → StaysHonest (C.seen ctl.old) (C.seen ctl.new) }
    ensures honest { IsHonest (C.seen ctl.old) → IfOk result (λ left. Captures (IsStateOf C.seen) asking.tries (C.seen ctl.old) (C.seen ctl.new) []
        (option_to_list left) (InventoryOrLeft (option_to_list left) image.new (C.seen ctl.old).store id)) }
    ensures meanwhile { IsHonest (C.seen ctl.old) → IfOk result (λ left. Keeps (inventory_of id) (C.seen ctl.old) (C.seen ctl.new) →
        InventoryOrLeft (option_to_list left) image.new (C.seen ctl.old).store id) }
{
    let read = read_fru_retrying_parts(asking.alloc, ctl, id, asking.part, asking.tries);
    take_inventory(asking.tries, ctl, id, read, image, progress)
}

/// Puts the inventories of device 0 and of all named devices into the image.
pub(crate) fn capture_inventories<C: Controller, P: Progress>(
    asking: Asking,
    ctl: &mut C,
    named: &Named,
    image: &mut ImageBuilder,
    left: &mut Vec<Left>,
    progress: &mut P,
) -> Result<(), AllocError>
    requires some { 0 < asking.part }
    requires fits { asking.part < 255 }
    requires none { image.old.inventories ≡ [] }
    ensures beside { image.new ≡ record image.old { inventories = image.new.inventories } }
    ensures lacks { OnOk result (Adds (IsUnkept image.new) left.old.items left.new.items) }
    ensures accounted { OnOk result (AreInventoriesAccounted (IsStateOf C.seen) named.now.devices.items
        left.new.items image.new) }
    ensures calls { (C.seen ctl.new).calls ≤ (C.seen ctl.old).calls + 255 * most_for_inventory asking.tries }
    ensures asked { AsksAtMost asking.part (C.seen ctl.old) (C.seen ctl.new) }
    ensures stays { IsHonest (C.seen ctl.old) → StaysHonest (C.seen ctl.old) (C.seen ctl.new) }
    ensures honest { IsHonest (C.seen ctl.old) → OnOk result (Captures (IsStateOf C.seen) asking.tries (C.seen ctl.old) (C.seen ctl.new)
        left.old.items left.new.items (HasInventories named.now.devices.items left.new.items image.new (C.seen ctl.old).store)) }
    ensures meanwhile { IsHonest (C.seen ctl.old) → OnOk result
        (HasInventoriesWhile named.now.devices.items left.new.items image.new (C.seen ctl.old) (C.seen ctl.new)) }
{
    'devices: for id in 0..NO_DEVICE {
        if !named.has_device(id) {
            continue;
        }
        let lacks = match capture_inventory(asking, ctl, id, image, progress) {
            Ok(lacks) => lacks,
            Err(_) => return Err(AllocError),
        };
        match note(left, lacks) {
            Ok(()) => {}
            Err(_) => return Err(AllocError),
        }
    }
    Ok(())
}
