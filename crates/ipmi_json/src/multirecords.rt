//! What is told of multirecords.
ghost use Rattle.std.specs.Prelude.{◌≡◌, ◌≤◌, IfOk, None, OnOk, length, option_map};
ghost use Rattle.ipmi_fru.specs.Prelude.{form_of, items_left, record_of};
ghost use Rattle.ipmi_json.specs.Members.{IsItem, Tells, TellsSome, TellsSomeItems};
ghost use Rattle.ipmi_json.specs.Multirecords.{AreFormMembers, AreObjects, AreRangeMembers, AreRecordMembers, IsRecordObject, access_members, current_members, dc_word, fault_among, high_key, low_key, number_members, record_fault_word, record_head, record_type_name, records_among};

use crate::decimal::decimal_or_null;
use crate::members::{Members, put_members};
use crate::object::{Value, text_or_null};
use crate::record::put_raw;
use ipmi_fru::{
    DcFields, DcKind, MultiFault, MultiView, RecordForm, Records, access_text, form_of,
};
use std::alloc::{AllocError, Global};

/// The names of record types, starting with 00h (Platform Management FRU Information Storage Definition v1.0, table 16-2).
/// 0Bh to BFh are reserved.
const RECORD_TYPES: [&str; 11] = [
    "power_supply",
    "dc_output",
    "dc_load",
    "management_access",
    "base_compatibility",
    "extended_compatibility",
    "asf_fixed_smbus_device",
    "asf_legacy_device_alerts",
    "asf_remote_control",
    "extended_dc_output",
    "extended_dc_load",
];

/// The capacity for most decimals.
const DECIMAL_CAPACITY: usize = 32;

/// The first OEM type.
const FIRST_OEM_TYPE: u8 = 0xC0;

/// The name of a record type, if it has one.
fn record_type_name(kind: u8) -> Option<&'static str>
    ensures { option_map (λ name. name.now) result ≡ record_type_name kind }
{
    if kind >= FIRST_OEM_TYPE {
        return Some("oem");
    }
    RECORD_TYPES.get(usize::from(kind)).copied()
}

/// Tells the first members of each record.
fn tell_head<M: Members>(
    out: &mut M,
    kind: &'static str,
    view: &MultiView,
) -> Result<(), AllocError>
    ensures { OnOk result (Tells M.told (record_head kind.entry.now (record_of view.now)) out.old out.new) }
{
    put_members(
        out,
        &[
            ("kind", Value::Text(kind)),
            ("type", Value::Integer(u64::from(view.kind))),
            ("type_name", text_or_null(record_type_name(view.kind))),
        ],
    )
}

/// Tells the number of an output or a load, and whether an output is a standby output.
fn tell_number<M: Members>(out: &mut M, kind: DcKind, fields: &DcFields) -> Result<(), AllocError>
    ensures { OnOk result (Tells M.told (number_members kind fields.now) out.old out.new) }
{
    let number = ("number", Value::Integer(u64::from(fields.number)));
    match kind {
        DcKind::Output => put_members(out, &[number, ("standby", Value::Bool(fields.standby))]),
        DcKind::Load => put_members(out, &[number]),
    }
}

/// The word for an output or a load.
fn dc_word(kind: DcKind) -> &'static str
    ensures { result.now ≡ dc_word kind }
{
    match kind {
        DcKind::Output => "dc_output",
        DcKind::Load => "dc_load",
    }
}

/// The key of the negative deviation of an output, or of the minimum voltage of a load.
fn low_key(kind: DcKind) -> &'static str
    ensures { result.now ≡ low_key kind }
{
    match kind {
        DcKind::Output => "negative_deviation_volts",
        DcKind::Load => "minimum_volts",
    }
}

/// The key of the positive deviation of an output, or of the maximum voltage of a load.
fn high_key(kind: DcKind) -> &'static str
    ensures { result.now ≡ high_key kind }
{
    match kind {
        DcKind::Output => "positive_deviation_volts",
        DcKind::Load => "maximum_volts",
    }
}

/// Tells the currents of an output or a load.
fn tell_currents<M: Members>(out: &mut M, fields: &DcFields) -> Result<(), AllocError>
    ensures { OnOk result (Tells M.told (current_members fields.now) out.old out.new) }
{
    let ripple = u64::from(fields.ripple);
    let least = u64::from(fields.least_current);
    let greatest = u64::from(fields.greatest_current);
    put_members(
        out,
        &[
            ("ripple_millivolts", Value::Integer(ripple)),
            ("minimum_milliamperes", Value::Integer(least)),
            ("maximum_milliamperes", Value::Integer(greatest)),
        ],
    )
}

/// Tells the voltages and the currents of an output or a load.
fn tell_ranges<M: Members>(
    alloc: Global,
    out: &mut M,
    kind: DcKind,
    fields: &DcFields,
) -> Result<(), AllocError>
    ensures { OnOk result (TellsSome M.told (AreRangeMembers kind fields.now) out.old out.new) }
{
    let mut text = String::with_capacity(alloc, DECIMAL_CAPACITY)?;
    out.put(
        "nominal_volts",
        decimal_or_null(&mut text, Some(fields.nominal))?,
    )?;
    out.put(low_key(kind), decimal_or_null(&mut text, Some(fields.low))?)?;
    out.put(
        high_key(kind),
        decimal_or_null(&mut text, Some(fields.high))?,
    )?;
    tell_currents(out, fields)
}

/// Tells the members of a management access record.
fn tell_access<M: Members>(alloc: Global, out: &mut M, bytes: &[u8]) -> Result<(), AllocError>
    requires { 1 ≤ length bytes.now }
    ensures { OnOk result (Tells M.told (access_members bytes.now) out.old out.new) }
{
    let value = access_text(alloc, bytes)?;
    put_members(
        out,
        &[
            ("subtype", Value::Integer(u64::from(bytes[0]))),
            ("value", Value::Text(value.as_str())),
        ],
    )
}

/// Tells the members of a record by its form.
fn tell_by_form<M: Members>(
    alloc: Global,
    out: &mut M,
    form: RecordForm,
    view: &MultiView,
) -> Result<(), AllocError>
    requires { form ≡ form_of (record_of view.now) }
    ensures { OnOk result (TellsSome M.told (AreFormMembers form (record_of view.now)) out.old out.new) }
{
    match form {
        RecordForm::Dc(kind) => {
            let fields = DcFields::of(view.bytes);
            tell_head(out, dc_word(kind), view)?;
            tell_number(out, kind, &fields)?;
            tell_ranges(alloc, out, kind, &fields)
        }
        RecordForm::Access => {
            tell_head(out, "management_access", view)?;
            tell_access(alloc, out, view.bytes)
        }
        RecordForm::Other => tell_head(out, "other", view),
    }
}

/// Tells the object of a record.
fn tell_item<M: Members>(alloc: Global, out: &mut M, view: &MultiView) -> Result<(), AllocError>
    ensures { OnOk result (TellsSomeItems M.told (IsItem (IsRecordObject (record_of view.now))) out.old out.new) }
{
    out.begin_item()?;
    tell_by_form(alloc, out, form_of(view), view)?;
    put_raw(alloc, out, view.bytes)?;
    out.end()
}

/// Tells the objects of records, and returns the fault after the last one.
fn tell_objects<M: Members>(
    alloc: Global,
    out: &mut M,
    records: Records,
) -> Result<Option<MultiFault>, AllocError>
    ensures objects { OnOk result (TellsSomeItems M.told (AreObjects (records_among (items_left records.entry)))
        out.old out.new) }
    ensures fault { IfOk result (λ fault. fault ≡ fault_among None (items_left records.entry)) }
{
    let mut end = None;
    'records: for item in records {
        match item {
            Ok(view) => tell_item(alloc, out, &view)?,
            Err(fault) => end = Some(fault),
        }
    }
    Ok(end)
}

/// The word for the fault of a record.
fn record_fault_word(fault: MultiFault) -> &'static str
    ensures { result.now ≡ record_fault_word fault }
{
    match fault {
        MultiFault::Outside => "outside",
        MultiFault::HeaderSum => "header_checksum",
        MultiFault::DataSum => "data_checksum",
    }
}

/// The word for the fault after the last record, if there is one.
fn end_word(end: Option<MultiFault>) -> Option<&'static str>
    ensures { option_map (λ word. word.now) result ≡ option_map record_fault_word end }
{
    match end {
        Some(fault) => Some(record_fault_word(fault)),
        None => None,
    }
}

/// Tells the records of an inventory, and the fault after the last one.
pub(crate) fn tell_records<M: Members>(
    alloc: Global,
    out: &mut M,
    records: Records,
) -> Result<(), AllocError>
    ensures { OnOk result (TellsSome M.told (AreRecordMembers (items_left records.entry)) out.old out.new) }
{
    out.begin_list("records")?;
    let end = tell_objects(alloc, out, records)?;
    out.end_list()?;
    out.put("records_fault", text_or_null(end_word(end)))
}
