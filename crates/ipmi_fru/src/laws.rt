//! Laws of fields, records and texts. Each law is the contract of a function that computes nothing.
ghost use Rattle.std.specs.Prelude.{◌≡◌, ℕ, List, None, Option, Result, Some, is_err};
ghost use Rattle.std.specs.List.{list_any};
ghost use Rattle.ipmi_text.specs.Bytes.{AreBytes};
ghost use Rattle.ipmi_fru.specs.Prelude.{Area, AreaFault, AreaField, AreaKind, HasItems, IsFound, Spells, MultiFault, MultiRecord, IsRecordList, IsFruLine, IsFruText, has_area_fault, has_record_fault, is_fault_found};

/// Bytes encode at most one list of fields.
#[tactic(auto, using(crate::proofs::UniqueLemmas::one_list_of_fields))]
pub fn one_list_of_fields()
    ensures { (bytes : List ℕ) (a b : List AreaField) → Spells bytes a → Spells bytes b → a ≡ b }
{}

/// Bytes encode at most one list of records, with one end.
#[tactic(auto, using(crate::proofs::UniqueLemmas::one_list_of_records))]
pub fn one_list_of_records()
    ensures { (bytes : List ℕ) (a b : List MultiRecord) (e f : Option MultiFault) →
        IsRecordList bytes a e → IsRecordList bytes b f → (a ≡ b) × (e ≡ f) }
{}

/// An area has a fault exactly if its fault is found, and the records have one exactly if one of their items is a fault.
/// These are the faults that the text of an inventory names.
pub fn each_fault_is_found()
    ensures areas { (kind : AreaKind) (bytes : List ℕ) (found : Option (Result Area AreaFault)) →
        IsFound kind bytes found → has_area_fault kind bytes ≡ is_fault_found found }
    ensures records { (bytes : List ℕ) (items : List (Result MultiRecord MultiFault)) →
        HasItems bytes items → has_record_fault bytes ≡ list_any is_err items }
{}

/// An inventory has at most one text, so the result of `print_fru` is the only one.
pub fn one_fru_text()
    ensures { (bytes text other : List ℕ) → IsFruText bytes text → IsFruText bytes other →
        text ≡ other }
{
    ipmi_text::laws::one_decimal_of_a_value();
    ipmi_text::laws::one_minutes_text();
}

/// A device has at most one line for an id, a name and an inventory, so the result of `fru_line` is the only one.
pub fn one_fru_line()
    ensures { (id : ℕ) (name inventory : Option (List ℕ)) (text other : List ℕ) →
        IsFruLine id name inventory text → IsFruLine id name inventory other → text ≡ other }
{
    ipmi_text::laws::one_decimal_of_a_value();
    ipmi_text::laws::one_minutes_text();
}

/// All bytes have a text as an inventory.
pub fn each_inventory_has_a_text()
    ensures { (bytes : List ℕ) → AreBytes bytes → (text : List ℕ) × IsFruText bytes text }
{
    ipmi_text::laws::each_value_has_a_decimal();
    ipmi_text::laws::each_time_has_a_text();
}

/// A device has a line for all bytes of its inventory, and without an inventory.
pub fn each_device_has_a_line()
    ensures bare { (id : ℕ) (name : Option (List ℕ)) →
        (text : List ℕ) × IsFruLine id name None text }
    ensures present { (id : ℕ) (name : Option (List ℕ)) (bytes : List ℕ) → AreBytes bytes →
        (text : List ℕ) × IsFruLine id name (Some bytes) text }
{
    ipmi_text::laws::each_value_has_a_decimal();
    ipmi_text::laws::each_time_has_a_text();
}
