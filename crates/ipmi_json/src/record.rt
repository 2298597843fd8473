//! Members that the objects of records and of entries both have.
ghost use Rattle.std.specs.Prelude.{◌≡◌, OnOk, option_map};
ghost use Rattle.ipmi_json.specs.Members.{Tells};
ghost use Rattle.ipmi_json.specs.Record.{head_members, raw_members, severity_members, severity_value};
ghost use Rattle.ipmi_json.specs.Object.{json_of};

use crate::digits::hex_text;
use crate::members::Members;
use crate::object::{Value, text_or_null};
use ipmi_events::Severity;
use std::alloc::{AllocError, Global};

/// The most bytes of a sensor data record: five, and as many as a byte can count.
const MOST_BYTES: usize = 260;

/// The digits of so many bytes.
const MOST_DIGITS: usize = 520;

/// Tells the first members of each record and entry: the name of its object, its id, its type and the word for its kind.
pub(crate) fn tell_head<M: Members>(
    out: &mut M,
    object: &'static str,
    id: u16,
    record_type: u8,
    kind: &'static str,
) -> Result<(), AllocError>
    ensures { OnOk result
        (Tells M.told (head_members object.entry.now id record_type kind.entry.now) out.old out.new) }
{
    out.put("object", Value::Text(object))?;
    out.put("record_id", Value::Integer(u64::from(id)))?;
    out.put("record_type", Value::Integer(u64::from(record_type)))?;
    out.put("kind", Value::Text(kind))
}

/// A severity, or null.
fn severity_value(severity: Option<Severity>) -> Value<'static>
    ensures { json_of result ≡ severity_value severity }
{
    match severity {
        Some(severity) => Value::Text(severity.as_str()),
        None => Value::Null,
    }
}

/// Tells a severity, or null, and what makes it worse than nominal, or null.
pub(crate) fn tell_severity<M: Members>(
    out: &mut M,
    severity: Option<Severity>,
    reason: Option<&'static str>,
) -> Result<(), AllocError>
    ensures { OnOk result
        (Tells M.told (severity_members severity (option_map (λ s. s.now) reason.entry)) out.old out.new) }
{
    out.put("severity", severity_value(severity))?;
    out.put("severity_reason", text_or_null(reason))
}

/// Tells the bytes in hex, the last member of each.
pub(crate) fn put_raw<M: Members>(
    alloc: Global,
    out: &mut M,
    bytes: &[u8],
) -> Result<(), AllocError>
    ensures { OnOk result (Tells M.told (raw_members bytes.now) out.old out.new) }
{
    if bytes.len() > MOST_BYTES {
        let raw = hex::encode(alloc, bytes)?;
        return out.put("raw", Value::Text(raw.as_str()));
    }
    let mut digits = [0; MOST_DIGITS];
    let raw = hex_text(bytes, &mut digits[..2 * bytes.len()]);
    out.put("raw", Value::Text(raw))
}
