//! The text of an inventory, line by line.
ghost use Rattle.std.specs.Prelude.{IfOk, OnOk, string_bytes};
ghost use Rattle.ipmi_text.specs.Appended.{Appends};
ghost use Rattle.ipmi_fru.specs.Prelude.{IsFruText, IsTextOfAreas};

use crate::area::AreaKind;
use crate::area_text::{push_found, push_line};
use crate::header::FruView;
use crate::record_text::push_records;
use std::alloc::{AllocError, Global};

/// The bytes of text that most inventories have at most for each of their bytes.
const TEXT_PER_BYTE: usize = 2;

/// Appends the text of an inventory with a header without a fault.
fn push_inventory(alloc: Global, text: &mut String, inventory: &FruView) -> Result<(), AllocError>
    ensures { OnOk result (Appends (IsTextOfAreas inventory.now) (string_bytes text.old)
        (string_bytes text.new)) }
{
    push_found(alloc, text, AreaKind::Chassis, inventory.chassis())?;
    push_found(alloc, text, AreaKind::Board, inventory.board())?;
    push_found(alloc, text, AreaKind::Product, inventory.product())?;
    push_records(alloc, text, inventory.records())
}

/// Appends the text of an inventory, one line per item: chassis, board and product, then the records with their volts,
/// millivolts and milliamperes (Platform Management FRU Information Storage Definition v1.0; the lines and labels are
/// this project's own). For an area with a fault, one line names the fault, and the other areas and the records are
/// still printed. For a record with a fault, one line names the fault and ends the text. For a header with a fault,
/// one line names the fault, and nothing else is printed. Fails only when out of memory; a part may then be appended.
pub fn push_fru(alloc: Global, text: &mut String, bytes: &[u8]) -> Result<(), AllocError>
    ensures { OnOk result (Appends (IsFruText bytes.now) (string_bytes text.old) (string_bytes text.new)) }
{
    text.reserve(TEXT_PER_BYTE * bytes.len())?;
    match FruView::read(bytes) {
        Ok(inventory) => push_inventory(alloc, text, &inventory),
        Err(fault) => push_line(text, "FRU fault", fault.name()),
    }
}

/// The text of an inventory, as `push_fru` appends it.
pub fn print_fru(alloc: Global, bytes: &[u8]) -> Result<String, AllocError>
    ensures { IfOk result (λ text. IsFruText bytes.now (string_bytes text)) }
{
    let mut text = String::new(alloc);
    push_fru(alloc, &mut text, bytes)?;
    Ok(text)
}
