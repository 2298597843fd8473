//! What is told of infos, and the objects of infos and of the end of a listing.
ghost use Rattle.std.specs.Prelude.{IfOk, OnOk, codes, option_map};
ghost use Rattle.ipmi_json.specs.Info.{AreInfoMembers, IsInfoLine, end_members};
ghost use Rattle.ipmi_json.specs.Members.{TellsSome};
ghost use Rattle.ipmi_json.specs.Object.{IsLineOf};

use crate::members::{Members, put_members};
use crate::object::{Label, Value, begin, finish, text_or_null};
use crate::time::time_text;
use ipmi_records::Info;
use std::alloc::{AllocError, Global};

/// The capacity for a point in time.
const TIME_CAPACITY: usize = 24;

/// Tells the members of an info, from its bytes without the completion code. `name` is that of its object: `sdr_info` for the answer
/// of Get SDR Repository Info (IPMI v2.0, section 33.9), `sel_info` for that of Get SEL Info (section 31.2).
pub fn tell_info<M: Members>(
    alloc: Global,
    out: &mut M,
    name: &'static str,
    bytes: &[u8; 14],
) -> Result<(), AllocError>
    ensures { OnOk result (TellsSome M.told (AreInfoMembers name.entry.now bytes.now) out.old out.new) }
{
    let info = Info::read(bytes);
    let count = u64::from(info.record_count);
    let mut text = String::with_capacity(alloc, TIME_CAPACITY)?;
    out.put("object", Value::Text(name))?;
    out.put("version", Value::Integer(u64::from(info.version)))?;
    out.put("record_count", Value::Integer(count))?;
    out.put("free_space", Value::Integer(u64::from(info.free_space)))?;
    out.put(
        "last_addition",
        text_or_null(time_text(&mut text, info.last_addition)?),
    )?;
    out.put(
        "last_addition_raw",
        Value::Integer(u64::from(info.last_addition)),
    )?;
    out.put(
        "last_erase",
        text_or_null(time_text(&mut text, info.last_erase)?),
    )?;
    out.put("last_erase_raw", Value::Integer(u64::from(info.last_erase)))?;
    out.put("overflow", Value::Bool(info.overflow))?;
    out.put("operation_support", Value::Integer(u64::from(info.support)))
}

/// The line of an info, from its bytes.
fn info_line(
    alloc: Global,
    name: &'static str,
    bytes: &[u8; 14],
    labels: &[Label],
) -> Result<Vec<u8>, AllocError>
    ensures { IfOk result (λ line. IsInfoLine name.entry.now bytes.now labels.now line.items) }
{
    let mut out = begin(alloc)?;
    tell_info(alloc, &mut out, name, bytes)?;
    finish(out, labels)
}

/// The line of the answer of Get SDR Repository Info (IPMI v2.0, section 33.9), without its completion code.
pub fn sdr_info_line(
    alloc: Global,
    bytes: &[u8; 14],
    labels: &[Label],
) -> Result<Vec<u8>, AllocError>
    ensures { IfOk result
        (λ line. IsInfoLine (codes "sdr_info") bytes.now labels.now line.items) }
{
    info_line(alloc, "sdr_info", bytes, labels)
}

/// The line of the answer of Get SEL Info (IPMI v2.0, section 31.2), without its completion code.
pub fn sel_info_line(
    alloc: Global,
    bytes: &[u8; 14],
    labels: &[Label],
) -> Result<Vec<u8>, AllocError>
    ensures { IfOk result
        (λ line. IsInfoLine (codes "sel_info") bytes.now labels.now line.items) }
{
    info_line(alloc, "sel_info", bytes, labels)
}

/// The last line of a listing: its status, why it ended, its message, and the number of objects before. A listing without it was cut off.
pub fn end_line(
    alloc: Global,
    status: u8,
    reason: &'static str,
    message: Option<&str>,
    count: u64,
    labels: &[Label],
) -> Result<Vec<u8>, AllocError>
    ensures { IfOk result (λ line. IsLineOf (end_members status reason.entry.now
        (option_map (λ text. text.now) message.entry) count) labels.now line.items) }
{
    let mut out = begin(alloc)?;
    put_members(
        &mut out,
        &[
            ("object", Value::Text("end")),
            ("status", Value::Integer(u64::from(status))),
            ("reason", Value::Text(reason)),
            ("message", text_or_null(message)),
            ("count", Value::Integer(count)),
        ],
    )?;
    finish(out, labels)
}
