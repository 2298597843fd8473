//! What is told of inventories, and their objects.
ghost use Rattle.std.specs.Prelude.{◌≡◌, IfOk, None, OnOk, Some, option_map};
ghost use Rattle.ipmi_json.specs.Fru.{AreContentMembers, AreFruMembers, AreReadMembers, IsFruLine, bare_members, bytes_members, device_members, elsewhere_members, header_fault_word, no_content};
ghost use Rattle.ipmi_json.specs.Members.{Tells, TellsSome};
ghost use Rattle.ipmi_json.specs.Object.{integer_or_null, IsLineOf, json_of};

use crate::areas::tell_area;
use crate::members::{Members, put_members};
use crate::multirecords::tell_records;
use crate::object::{Label, Value, begin, finish, text_if_any, text_or_null};
use ipmi_fru::{FruFault, FruView};
use std::alloc::{AllocError, Global};

/// The id of a device, or null.
fn id_or_null(id: Option<u8>) -> Value<'static>
    ensures { json_of result ≡ integer_or_null id }
{
    match id {
        Some(id) => Value::Integer(u64::from(id)),
        None => Value::Null,
    }
}

/// Tells the first members of a device.
fn tell_head<M: Members>(
    out: &mut M,
    id: Option<u8>,
    name: Option<&str>,
    state: &'static str,
    fault: Option<&'static str>,
) -> Result<(), AllocError>
    ensures { OnOk result (Tells M.told (device_members id (option_map (λ name. name.now) name.entry)
        state.entry.now (option_map (λ word. word.now) fault.entry)) out.old out.new) }
{
    put_members(
        out,
        &[
            ("object", Value::Text("fru")),
            ("fru_device_id", id_or_null(id)),
            ("name", text_if_any(name)),
            ("state", Value::Text(state)),
            ("fault", text_or_null(fault)),
        ],
    )
}

/// Tells that no area and no record can be read.
fn tell_no_content<M: Members>(out: &mut M) -> Result<(), AllocError>
    ensures { OnOk result (Tells M.told no_content out.old out.new) }
{
    put_members(
        out,
        &[
            ("chassis", Value::Null),
            ("chassis_fault", Value::Null),
            ("board", Value::Null),
            ("board_fault", Value::Null),
            ("product", Value::Null),
            ("product_fault", Value::Null),
            ("records", Value::Null),
            ("records_fault", Value::Null),
        ],
    )
}

/// Tells the areas and the records of an inventory.
fn tell_content<M: Members>(
    alloc: Global,
    out: &mut M,
    inventory: &FruView,
) -> Result<(), AllocError>
    ensures { OnOk result (TellsSome M.told (AreContentMembers inventory.now) out.old out.new) }
{
    tell_area(alloc, out, "chassis", "chassis_fault", &inventory.chassis())?;
    tell_area(alloc, out, "board", "board_fault", &inventory.board())?;
    tell_area(alloc, out, "product", "product_fault", &inventory.product())?;
    tell_records(alloc, out, inventory.records())
}

/// Tells the size and the bytes of an inventory.
fn tell_bytes<M: Members>(
    alloc: Global,
    out: &mut M,
    bytes: Option<&[u8]>,
) -> Result<(), AllocError>
    ensures { OnOk result (Tells M.told (bytes_members (option_map (λ bytes. bytes.now) bytes.entry))
        out.old out.new) }
{
    match bytes {
        Some(bytes) => {
            let raw = hex::encode(alloc, bytes)?;
            put_members(
                out,
                &[
                    ("size", Value::Integer(bytes.len() as u64)),
                    ("raw", Value::Text(raw.as_str())),
                ],
            )
        }
        None => put_members(out, &[("size", Value::Null), ("raw", Value::Null)]),
    }
}

/// Tells the members of a device whose inventory has no areas or records that can be read.
fn tell_bare<M: Members>(
    alloc: Global,
    out: &mut M,
    id: Option<u8>,
    name: Option<&str>,
    state: &'static str,
    fault: Option<&'static str>,
    bytes: Option<&[u8]>,
) -> Result<(), AllocError>
    ensures { OnOk result (Tells M.told (bare_members id (option_map (λ name. name.now) name.entry)
        state.entry.now (option_map (λ word. word.now) fault.entry)
        (option_map (λ bytes. bytes.now) bytes.entry)) out.old out.new) }
{
    tell_head(out, id, name, state, fault)?;
    tell_no_content(out)?;
    tell_bytes(alloc, out, bytes)
}

/// Tells the members of a device whose inventory can be read.
fn tell_read<M: Members>(
    alloc: Global,
    out: &mut M,
    id: u8,
    name: Option<&str>,
    bytes: &[u8],
    inventory: &FruView,
) -> Result<(), AllocError>
    requires { inventory.now ≡ bytes.now }
    ensures { OnOk result (TellsSome M.told
        (AreReadMembers id (option_map (λ name. name.now) name.entry) bytes.now) out.old out.new) }
{
    tell_head(out, Some(id), name, "read", None)?;
    tell_content(alloc, out, inventory)?;
    tell_bytes(alloc, out, Some(bytes))
}

/// The word for the fault of a header.
fn header_fault_word(fault: FruFault) -> &'static str
    ensures { result.now ≡ header_fault_word fault }
{
    match fault {
        FruFault::Short => "header_short",
        FruFault::HeaderVersion => "header_version",
        FruFault::HeaderSum => "header_checksum",
    }
}

/// Tells the members of a FRU device: its id, its name from a locator, and its inventory. `inventory` has the bytes of the
/// inventory; None if it is not present. An area is an object under its key; the records are a list of objects.
pub fn tell_device<M: Members>(
    alloc: Global,
    out: &mut M,
    id: u8,
    name: Option<&str>,
    inventory: Option<&[u8]>,
) -> Result<(), AllocError>
    ensures { OnOk result (TellsSome M.told (AreFruMembers id (option_map (λ name. name.now) name.entry)
        (option_map (λ bytes. bytes.now) inventory.entry)) out.old out.new) }
{
    let Some(bytes) = inventory else {
        return tell_bare(alloc, out, Some(id), name, "not_present", None, None);
    };
    match FruView::read(bytes) {
        Ok(inventory) => tell_read(alloc, out, id, name, bytes, &inventory),
        Err(fault) => {
            let fault = Some(header_fault_word(fault));
            tell_bare(alloc, out, Some(id), name, "faulty", fault, Some(bytes))
        }
    }
}

/// The line of a FRU device: its object, of the members that `tell_device` tells.
pub fn fru_line(
    alloc: Global,
    id: u8,
    name: Option<&str>,
    inventory: Option<&[u8]>,
    labels: &[Label],
) -> Result<Vec<u8>, AllocError>
    ensures { IfOk result (λ line. IsFruLine id (option_map (λ name. name.now) name.entry)
        (option_map (λ bytes. bytes.now) inventory.entry) labels.now line.items) }
{
    let mut out = begin(alloc)?;
    tell_device(alloc, &mut out, id, name, inventory)?;
    finish(out, labels)
}

/// Tells the members of a FRU device that is not reached through the controller itself, with its locator's name.
pub fn tell_device_elsewhere<M: Members>(
    alloc: Global,
    out: &mut M,
    name: Option<&str>,
) -> Result<(), AllocError>
    ensures { OnOk result (Tells M.told (elsewhere_members (option_map (λ name. name.now) name.entry))
        out.old out.new) }
{
    tell_bare(alloc, out, None, name, "elsewhere", None, None)
}

/// The line of a FRU device that is not reached through the controller itself, with its locator's name.
pub fn fru_elsewhere_line(
    alloc: Global,
    name: Option<&str>,
    labels: &[Label],
) -> Result<Vec<u8>, AllocError>
    ensures { IfOk result (λ line. IsLineOf (elsewhere_members
        (option_map (λ name. name.now) name.entry)) labels.now line.items) }
{
    let mut out = begin(alloc)?;
    tell_device_elsewhere(alloc, &mut out, name)?;
    finish(out, labels)
}
