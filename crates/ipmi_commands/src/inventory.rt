//! Prints the inventories of FRU devices.
ghost use Rattle.std.specs.Prelude.{◌≡◌, ◌+◌, ◌≤◌, ◌∷◌, [], None, Some, Err, IfErr, IfOk, option_map, string_bytes};
ghost use Rattle.ipmi_commands.specs.Below.{as_inventory, AsksAtMost, LastFailed, NotPresent, LastFruCallSays, Seen, IsHonest, IsStateOf, inventory_of, fru_of, printed_name, sdr_view_of};
ghost use Rattle.ipmi_commands.specs.declared.job.Form.{Form};
ghost use Rattle.ipmi_commands.specs.Prelude.{LacksInventory, inventory_call_bound, is_absent, Finds, FindsLocator, IsCountedDevice, is_faulty_device, IsPieceOver, AtInventory, device_points, locator_points, NoneIsTrue, OfInventory, OfRow, shown, ShowsDevice, ShowsInventory, ShowsLocator, ReadsFor, RetriesParts, failure_of, unread_inventory};

use crate::format::Format;
use crate::limits::RequestLimits;
use crate::piece::Piece;
use crate::read_error::ReadError;
use ipmi_bus::{Code, Controller, FruEnded, read_fru, read_fru_retrying_parts};
use ipmi_records::{SdrView, push_name};
use ipmi_selection::Detail;
use std::alloc::{AllocError, Global};

/// Whether the controller has no such inventory.
fn is_absent(ended: FruEnded) -> bool
    ensures { result ≡ is_absent ended }
{
    ended == FruEnded::Refused(Code::NOT_PRESENT)
}

/// The result for an inventory that was not read: None if the controller has no such inventory, otherwise Err with
/// the reason.
fn unread_inventory(id: u8, ended: FruEnded) -> Result<Option<Vec<u8>>, ReadError>
    ensures is { result ≡ unread_inventory id ended }
    ensures says { (seen : Seen) → LastFruCallSays ended seen →
        IfErr result (λ unread. LacksInventory unread seen) }
    ensures none { (seen : Seen) → LastFruCallSays ended seen →
        IfOk result (λ found. (found ≡ None) × LastFailed (λ class. class ≡ NotPresent) seen) }
{
    if !is_absent(ended) {
        return Err(ReadError::Inventory(id, ended));
    }
    Ok(None)
}

/// The bytes of a device's inventory, with the retries of these limits for it or for each of its parts.
fn read_bytes<C: Controller>(
    alloc: Global,
    ctl: &mut C,
    limits: RequestLimits,
    id: u8,
) -> Result<Vec<u8>, FruEnded>
    ensures calls { (C.seen ctl.new).calls ≤ (C.seen ctl.old).calls + inventory_call_bound limits.tries 65535 }
    ensures asked { AsksAtMost limits.part (C.seen ctl.old) (C.seen ctl.new) }
    ensures says { IfErr result (λ ended. LastFruCallSays ended (C.seen ctl.new)) }
    ensures honest { IsHonest (C.seen ctl.old) → ReadsFor limits.tries.for_each_part (IsStateOf C.seen) id
        limits.tries.count (C.seen ctl.old) (C.seen ctl.new) (as_inventory result) }
{
    let (part, tries) = (limits.part(), limits.tries());
    if tries.for_each_part {
        return read_fru_retrying_parts(alloc, ctl, id, part, tries.count);
    }
    read_fru(alloc, ctl, id, part, tries.count)
}

/// The bytes of a device's inventory. None if the controller has no such inventory.
fn read_inventory<C: Controller>(
    alloc: Global,
    ctl: &mut C,
    limits: RequestLimits,
    id: u8,
) -> Result<Option<Vec<u8>>, ReadError>
    ensures calls { (C.seen ctl.new).calls ≤ (C.seen ctl.old).calls + inventory_call_bound limits.tries
        65535 }
    ensures asked { AsksAtMost limits.part (C.seen ctl.old) (C.seen ctl.new) }
    ensures says { IfErr result (λ unread. LacksInventory unread (C.seen ctl.new)) }
    ensures parts { IsHonest (C.seen ctl.old) → IfErr result (λ unread.
        RetriesParts limits.tries (IsStateOf C.seen) (C.seen ctl.new) (Err (failure_of unread))) }
    ensures none { IfOk result (λ found. NoneIsTrue found (C.seen ctl.new)) }
    ensures honest { IsHonest (C.seen ctl.old) →
        Finds (λ store found. option_map (λ bytes. bytes.items) found ≡ inventory_of id store)
        (AtInventory id ∷ []) limits.tries (C.seen ctl.old) (C.seen ctl.new) result }
{
    match read_bytes(alloc, ctl, limits, id) {
        Ok(bytes) => Ok(Some(bytes)),
        Err(ended) => unread_inventory(id, ended),
    }
}

/// Whether a device is missing, or has a fault that its text names.
fn is_faulty_device<F: Format>(format: &F, detail: Detail, inventory: Option<&[u8]>) -> bool
    ensures { result ≡ is_faulty_device (F.texts format.now) detail (option_map (λ bytes. bytes.now) inventory.entry) }
{
    match inventory {
        None => true,
        Some(bytes) => format.names_fault(detail, bytes),
    }
}

/// Reads the inventory of a device, and returns its text with this name.
pub(crate) fn inventory_in<F: Format, C: Controller>(
    alloc: Global,
    ctl: &mut C,
    limits: RequestLimits,
    format: &F,
    detail: Detail,
    id: u8,
    name: Option<&str>,
) -> Result<Piece, ReadError>
    ensures calls { (C.seen ctl.new).calls ≤ (C.seen ctl.old).calls + inventory_call_bound limits.tries
        65535 }
    ensures asked { AsksAtMost limits.part (C.seen ctl.old) (C.seen ctl.new) }
    ensures says { IfErr result (λ unread. LacksInventory unread (C.seen ctl.new)) }
    ensures parts { IsHonest (C.seen ctl.old) → IfErr result (λ unread.
        RetriesParts limits.tries (IsStateOf C.seen) (C.seen ctl.new) (Err (failure_of unread))) }
    ensures shows { let named = option_map (λ name. name.now) name.entry in
        IfOk result (λ piece. ShowsInventory (F.texts format.now) detail id named (C.seen ctl.new) (shown piece)) }
    ensures honest { let named = option_map (λ name. name.now) name.entry in IsHonest (C.seen ctl.old) →
        Finds (λ store piece. IsPieceOver (F.texts format.now) store (OfInventory detail id named) (shown piece))
        (AtInventory id ∷ []) limits.tries (C.seen ctl.old) (C.seen ctl.new) result }
{
    let inventory = read_inventory(alloc, ctl, limits, id)?;
    let text = format.device(alloc, detail, id, name, inventory.as_deref())?;
    let has_fault = is_faulty_device(format, detail, inventory.as_deref());
    Ok(Piece { text, has_fault })
}

/// The name of a locator, as printed.
fn name_of(alloc: Global, view: &SdrView<'_>) -> Result<String, AllocError>
    ensures { IfOk result (λ text. string_bytes text ≡ printed_name view.now) }
{
    let mut name = String::new(alloc);
    push_name(alloc, &mut name, view)?;
    Ok(name)
}

/// The text for a locator's device: its inventory, or that it is elsewhere. Empty for device 0, which was already
/// printed.
fn device_piece<F: Format, C: Controller>(
    alloc: Global,
    ctl: &mut C,
    limits: RequestLimits,
    format: &F,
    view: &SdrView<'_>,
) -> Result<Piece, ReadError>
    ensures calls { (C.seen ctl.new).calls ≤ (C.seen ctl.old).calls + inventory_call_bound limits.tries
        65535 }
    ensures asked { AsksAtMost limits.part (C.seen ctl.old) (C.seen ctl.new) }
    ensures says { IfErr result (λ unread. LacksInventory unread (C.seen ctl.new)) }
    ensures parts { IsHonest (C.seen ctl.old) → IfErr result (λ unread.
        RetriesParts limits.tries (IsStateOf C.seen) (C.seen ctl.new) (Err (failure_of unread))) }
    ensures shows { IfOk result (λ piece. ShowsDevice (F.texts format.now) (printed_name view.now) (fru_of view.now)
        (C.seen ctl.new) (shown piece)) }
    ensures honest { IsHonest (C.seen ctl.old) →
        Finds (λ store piece. IsCountedDevice (F.texts format.now) store (printed_name view.now) (fru_of view.now)
        (shown piece)) (device_points (fru_of view.now)) limits.tries (C.seen ctl.old)
        (C.seen ctl.new) result }
{
    let name = name_of(alloc, view)?;
    match view.fru_of() {
        None => Ok(Piece::sound(format.elsewhere(alloc, &name)?)),
        Some(0) => Ok(Piece::sound(Vec::new(alloc))),
        Some(id) => inventory_in(alloc, ctl, limits, format, Detail::Line, id, Some(&name)),
    }
}

/// The text for a sensor data record in a listing of inventories: that of the device for a FRU device locator, empty
/// for any other record.
pub(crate) fn locator_piece<F: Format, C: Controller>(
    alloc: Global,
    ctl: &mut C,
    limits: RequestLimits,
    format: &F,
    bytes: &[u8],
) -> Result<Piece, ReadError>
    ensures calls { (C.seen ctl.new).calls ≤ (C.seen ctl.old).calls + inventory_call_bound limits.tries
        65535 }
    ensures asked { AsksAtMost limits.part (C.seen ctl.old) (C.seen ctl.new) }
    ensures says { IfErr result (λ unread. LacksInventory unread (C.seen ctl.new)) }
    ensures parts { IsHonest (C.seen ctl.old) → IfErr result (λ unread.
        RetriesParts limits.tries (IsStateOf C.seen) (C.seen ctl.new) (Err (failure_of unread))) }
    ensures shows { IfOk result (λ piece. ShowsLocator (F.texts format.now) (sdr_view_of bytes.now) (C.seen ctl.new)
        (shown piece)) }
    ensures honest { IsHonest (C.seen ctl.old) →
        FindsLocator (F.texts format.now) bytes.now limits.tries (C.seen ctl.old) (C.seen ctl.new) result }
{
    let Ok(view) = SdrView::read(bytes) else {
        return Ok(Piece::sound(Vec::new(alloc)));
    };
    match &view {
        SdrView::Fru(_) => device_piece(alloc, ctl, limits, format, &view),
        _ => Ok(Piece::sound(Vec::new(alloc))),
    }
}
