//! What is told of areas.
ghost use Rattle.std.specs.Prelude.{◌≡◌, ◌∷◌, [], IfOk, OnOk, drop, map, option_map, string_bytes};
ghost use Rattle.ipmi_fru.specs.Prelude.{language_of};
ghost use Rattle.ipmi_json.specs.Areas.{AreAreaMembers, AreLeadMembers, IsAreaObject, IsAreaValue, area_fault_word, extra_texts, fault_found, field_keys, field_members, first_value};
ghost use Rattle.ipmi_json.specs.Members.{IsMember, Tells, TellsSome};

use crate::members::{Members, put_members};
use crate::object::{Value, text_or_null, text_unless_empty};
use crate::time::minute_text;
use ipmi_fru::{AreaFault, AreaKind, AreaView, Fields};
use ipmi_text::{chassis_text, fru_text};
use std::alloc::{AllocError, Global};

/// The keys of an area's fields, in their order.
fn field_keys(kind: AreaKind) -> &'static [&'static str]
    ensures { map (λ key. key.now) result.now ≡ field_keys kind }
{
    match kind {
        AreaKind::Chassis => &["part_number", "serial_number"],
        AreaKind::Board => &[
            "manufacturer",
            "product_name",
            "serial_number",
            "part_number",
            "fru_file_id",
        ],
        AreaKind::Product => &[
            "manufacturer",
            "name",
            "part_number",
            "version",
            "serial_number",
            "asset_tag",
            "fru_file_id",
        ],
    }
}

/// Takes the first of the fields that are left, and tells its text under a key; null where there is none.
fn put_first<M: Members>(
    alloc: Global,
    out: &mut M,
    language: u8,
    key: &'static str,
    left: &mut Fields,
) -> Result<(), AllocError>
    ensures value { OnOk result
        (Tells M.told ((key.entry.now, first_value language left.old) ∷ []) out.old out.new) }
    ensures left { left.new ≡ drop 1 left.old }
{
    let Some(field) = left.next() else {
        return out.put(key, Value::Null);
    };
    let text = fru_text(alloc, field.code, language, field.bytes)?;
    out.put(key, text_unless_empty(text.as_str()))
}

/// The texts of fields.
fn extra_texts(alloc: Global, language: u8, left: Fields) -> Result<Vec<String>, AllocError>
    ensures { IfOk result (λ texts. map (λ text. string_bytes text) texts.items ≡
        extra_texts language left.entry) }
{
    let mut texts = Vec::new(alloc);
    'fields: for field in left {
        texts.push(fru_text(alloc, field.code, language, field.bytes)?)?;
    }
    Ok(texts)
}

/// Tells a member for each key with its field, and the fields after those.
fn tell_fields<M: Members>(
    alloc: Global,
    out: &mut M,
    area: &AreaView,
    keys: &[&'static str],
) -> Result<(), AllocError>
    ensures { OnOk result (Tells M.told (field_members (language_of area.now.kind area.now.bytes)
        (map (λ key. key.now) keys.now) area.now.fields) out.old out.new) }
{
    let language = area.language();
    let mut left = area.fields();
    'keys: for key in keys {
        put_first(alloc, out, language, key, &mut left)?;
    }
    let extra = extra_texts(alloc, language, left)?;
    out.put("extra", Value::Texts(extra.as_slice()))
}

/// Tells the members before the fields: the type of a chassis, the language of a board or product, the date of a board.
fn tell_lead<M: Members>(alloc: Global, out: &mut M, area: &AreaView) -> Result<(), AllocError>
    ensures { OnOk result
        (TellsSome M.told (AreLeadMembers area.now.kind area.now.bytes) out.old out.new) }
{
    let language = Value::Integer(u64::from(area.language()));
    match area.kind() {
        AreaKind::Chassis => {
            let name = chassis_text(alloc, area.chassis_type())?;
            let kind = Value::Integer(u64::from(area.chassis_type()));
            let name = Value::Text(name.as_str());
            put_members(out, &[("type", kind), ("type_name", name)])
        }
        AreaKind::Board => {
            let minutes = area.minutes();
            let time = minute_text(alloc, minutes)?;
            put_members(
                out,
                &[
                    ("language", language),
                    ("manufactured", text_or_null(time.as_deref())),
                    ("manufactured_raw", Value::Integer(u64::from(minutes))),
                ],
            )
        }
        AreaKind::Product => put_members(out, &[("language", language)]),
    }
}

/// Tells the object of an area under a key.
fn tell_object<M: Members>(
    alloc: Global,
    out: &mut M,
    key: &'static str,
    area: &AreaView,
) -> Result<(), AllocError>
    ensures { OnOk result
        (TellsSome M.told (IsMember key.entry.now (IsAreaObject area.now)) out.old out.new) }
{
    out.begin(key)?;
    tell_lead(alloc, out, area)?;
    tell_fields(alloc, out, area, field_keys(area.kind()))?;
    out.end()
}

/// The word for the fault of an area.
fn area_fault_word(fault: AreaFault) -> &'static str
    ensures { result.now ≡ area_fault_word fault }
{
    match fault {
        AreaFault::Outside => "outside",
        AreaFault::Version => "version",
        AreaFault::Length => "length",
        AreaFault::Sum => "checksum",
        AreaFault::FieldPastEnd => "field_past_end",
    }
}

/// The fault of an area, if it has one.
fn fault_found(found: &Option<Result<AreaView, AreaFault>>) -> Option<&'static str>
    ensures { option_map (λ word. word.now) result ≡ fault_found found.now }
{
    match found {
        Some(Err(fault)) => Some(area_fault_word(*fault)),
        Some(Ok(_)) | None => None,
    }
}

/// Tells the value of an area under a key; null if there is none, or if it has a fault.
fn tell_value<M: Members>(
    alloc: Global,
    out: &mut M,
    key: &'static str,
    found: &Option<Result<AreaView, AreaFault>>,
) -> Result<(), AllocError>
    ensures { OnOk result
        (TellsSome M.told (IsMember key.entry.now (IsAreaValue found.now)) out.old out.new) }
{
    match found {
        Some(Ok(area)) => tell_object(alloc, out, key, area),
        Some(Err(_)) => out.put(key, Value::Null),
        None => out.put(key, Value::Null),
    }
}

/// Tells an area under its key, and its fault under another.
pub(crate) fn tell_area<M: Members>(
    alloc: Global,
    out: &mut M,
    key: &'static str,
    fault_key: &'static str,
    found: &Option<Result<AreaView, AreaFault>>,
) -> Result<(), AllocError>
    ensures { OnOk result (TellsSome M.told
        (AreAreaMembers key.entry.now fault_key.entry.now found.now) out.old out.new) }
{
    tell_value(alloc, out, key, found)?;
    out.put(fault_key, text_or_null(fault_found(found)))
}
