//! Laws of members and of lines. They follow from the definitions, so they hold for any code that tells such members or writes such
//! a text.
ghost use Rattle.ipmi_json.specs.Keys.{IsLineOfObjectKeys};
ghost use Rattle.ipmi_json.specs.Laws.{DeviceLineIsUnique, DeviceMembersAreUnique, EntryLineIsUnique, EntryMembersAreUnique, ForEachLine, InfoLineIsUnique, InfoMembersAreUnique, IsOneLine, NoDeviceLineIsEmpty, NoEntryLineIsEmpty, NoInfoLineIsEmpty, NoObjectLineIsEmpty, NoRecordLineIsEmpty, ObjectLineIsUnique, RecordLineIsUnique, RecordMembersAreUnique};

/// A record, an entry, an info and a device each have at most one list of members, so what `tell_record`, `tell_entry`, `tell_info` and
/// `tell_device` tell is the only one.
pub fn one_list_of_members()
    ensures record_is { RecordMembersAreUnique }
    ensures entry_is { EntryMembersAreUnique }
    ensures info_is { InfoMembersAreUnique }
    ensures device_is { DeviceMembersAreUnique }
{
    ipmi_text::laws::one_decimal_of_a_value();
    ipmi_text::laws::one_minutes_text();
    ipmi_text::laws::one_utc_text();
    ipmi_events::laws::one_text_of_details();
}

/// An object has at most one line for labels, so the results of `sdr_fault_line`, `sdr_raw_line`, `fru_elsewhere_line` and
/// `end_line` are the only ones.
#[tactic(auto, using(crate::proofs::LineLawLemmas::one_object))]
pub fn one_object_line()
    ensures { ObjectLineIsUnique }
{}

/// A record has at most one line for an id, a reading and labels, so the result of `sdr_record_line` is the only one.
pub fn one_record_line()
    ensures { RecordLineIsUnique }
{
    ipmi_text::laws::one_decimal_of_a_value();
}

/// An entry has at most one line for an id, a table of sensors and labels, so the result of `sel_entry_line` is the only
/// one.
pub fn one_entry_line()
    ensures { EntryLineIsUnique }
{
    ipmi_text::laws::one_utc_text();
    ipmi_events::laws::one_text_of_details();
}

/// An info has at most one line for labels, so the results of `sdr_info_line` and `sel_info_line` are the only ones.
pub fn one_info_line()
    ensures { InfoLineIsUnique }
{
    ipmi_text::laws::one_utc_text();
}

/// A device has at most one line for an id, a name, an inventory and labels, so the result of `fru_line` is the only one.
pub fn one_fru_line()
    ensures { DeviceLineIsUnique }
{
    ipmi_text::laws::one_decimal_of_a_value();
    ipmi_text::laws::one_minutes_text();
}

/// No line is empty.
pub fn no_line_is_empty()
    ensures object { NoObjectLineIsEmpty }
    ensures sdr_record { NoRecordLineIsEmpty }
    ensures entry { NoEntryLineIsEmpty }
    ensures info { NoInfoLineIsEmpty }
    ensures device { NoDeviceLineIsEmpty }
{}

/// Each key of an object is one that `is_object_key` knows, so with a label of another key no object has a key twice.
pub fn each_key_is_an_object_key()
    ensures { ForEachLine IsLineOfObjectKeys }
{}

/// Each line has exactly one line feed, its last byte, whatever the texts in it are.
pub fn each_line_has_one_line_feed()
    ensures { ForEachLine (λ labels text. IsOneLine text) }
{}
