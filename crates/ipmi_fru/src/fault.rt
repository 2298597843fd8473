//! Whether an inventory has a fault.
ghost use Rattle.std.specs.Prelude.{◌≡◌, ◌||◌};
ghost use Rattle.ipmi_fru.specs.Prelude.{Board, Chassis, Product, has_area_fault, has_fault, has_record_fault};

use crate::area::AreaKind;
use crate::header::FruView;

/// Whether there is an area of the kind, and it has a fault.
#[tactic(auto, using(crate::proofs::FaultLemmas::fault_found))]
fn has_area_fault(inventory: &FruView, kind: AreaKind) -> bool
    ensures { result ≡ has_area_fault kind inventory.now }
{
    matches!(inventory.area(kind), Some(Err(_)))
}

/// Whether the records end with a fault.
fn has_record_fault(inventory: &FruView) -> bool
    ensures { result ≡ has_record_fault inventory.now }
{
    'records: for item in inventory.records() {
        if item.is_err() {
            return true;
        }
    }
    false
}

/// Whether an area or the records of an inventory have a fault.
fn has_faulty_part(inventory: &FruView) -> bool
    ensures { result ≡ (has_area_fault Chassis inventory.now || (has_area_fault Board inventory.now
        || (has_area_fault Product inventory.now || has_record_fault inventory.now))) }
{
    has_area_fault(inventory, AreaKind::Chassis)
        || has_area_fault(inventory, AreaKind::Board)
        || has_area_fault(inventory, AreaKind::Product)
        || has_record_fault(inventory)
}

/// Whether an inventory has a fault: its header, its chassis, board or product area, or its multirecord area, up to the
/// record marked as the last (Platform Management FRU Information Storage Definition v1.0, sections 8, 10 to 13 and
/// 16). Exactly then the text of `print_fru` has a line that names a fault. Nothing is allocated.
pub fn has_fault(bytes: &[u8]) -> bool
    ensures { result ≡ has_fault bytes.now }
{
    match FruView::read(bytes) {
        Ok(inventory) => has_faulty_part(&inventory),
        Err(_) => true,
    }
}
