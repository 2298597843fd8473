//! What is told the members of a thing: an entry, a record, an info or an inventory. Each thing tells them once, and each format
//! is a listener: JSON writes an object, and a table may write a row.
ghost use Rattle.std.specs.Prelude.{◌∷◌, [], List, IfSome, OnOk};
ghost use Rattle.json.specs.Json.{string};
ghost use Rattle.ipmi_json.specs.Members.{BeginsObject, BeginsItem, BeginsList, EndsObject, EndsList, Nesting, Tells};
ghost use Rattle.ipmi_json.specs.Object.{Pair, json_of, pairs_of};
ghost use Rattle.ipmi_json.specs.Open.{written};

use crate::object::{Member, Value, set_printed, write_value};
use json::Writer;
use std::alloc::AllocError;
use std::fmt::Display;

/// What is told the members of a thing, one after another. Entries, records and infos are flat: each value is a member of the thing
/// itself, so the six thresholds of a sensor are six members. Only an inventory has objects in it. A listener without nesting may
/// name their members by both keys, as `board.serial_number`, and pass over a list.
pub trait Members {
    /// That these members were told so far, in this order, with what is around them.
    ghost told: { Self → Nesting → List Pair → Type 0 };

    /// Tells a member.
    fn put(&mut self, key: &'static str, value: Value<'_>) -> Result<(), AllocError>
        ensures { OnOk result
            (Tells told ((key.entry.now, json_of value.entry) ∷ []) self.old self.new) };

    /// Begins an object under a key. Its members come next.
    fn begin(&mut self, key: &'static str) -> Result<(), AllocError>
        ensures { OnOk result (BeginsObject told key.entry.now self.old self.new) };

    /// Begins a list of objects under a key.
    fn begin_list(&mut self, key: &'static str) -> Result<(), AllocError>
        ensures { OnOk result (BeginsList told key.entry.now self.old self.new) };

    /// Begins an object of a list. Its members come next.
    fn begin_item(&mut self) -> Result<(), AllocError>
        ensures { OnOk result (BeginsItem told self.old self.new) };

    /// Ends an object.
    fn end(&mut self) -> Result<(), AllocError>
        ensures { OnOk result (EndsObject told self.old self.new) };

    /// Ends a list.
    fn end_list(&mut self) -> Result<(), AllocError>
        ensures { OnOk result (EndsList told self.old self.new) };
}

/// A JSON object whose beginning was written, up to the members so far.
impl Members for Writer {
    ghost told = { written };

    #[inline(always)]
    fn put(&mut self, key: &'static str, value: Value<'_>) -> Result<(), AllocError> {
        self.key(key)?;
        write_value(self, value)
    }

    fn begin(&mut self, key: &'static str) -> Result<(), AllocError> {
        self.key(key)?;
        self.begin_object()
    }

    fn begin_list(&mut self, key: &'static str) -> Result<(), AllocError> {
        self.key(key)?;
        self.begin_array()
    }

    fn begin_item(&mut self) -> Result<(), AllocError> {
        self.begin_object()
    }

    fn end(&mut self) -> Result<(), AllocError> {
        self.end_object()
    }

    fn end_list(&mut self) -> Result<(), AllocError> {
        self.end_array()
    }
}

/// Tells what a value prints as the text under a key. `text` is used for it.
#[inline(always)]
pub(crate) fn put_printed<M: Members, D: Display + Drop>(
    out: &mut M,
    text: &mut String,
    key: &'static str,
    value: D,
) -> Result<(), AllocError>
    ensures { OnOk result (IfSome (D.output value)
        (λ printed. Tells M.told ((key.entry.now, string printed) ∷ []) out.old out.new)) }
{
    set_printed(text, value)?;
    out.put(key, Value::Text(text.as_str()))
}

/// Tells members.
pub(crate) fn put_members<M: Members>(out: &mut M, members: &[Member]) -> Result<(), AllocError>
    ensures { OnOk result (Tells M.told (pairs_of members.now) out.old out.new) }
{
    for member in members {
        out.put(member.0, member.1)?;
    }
    Ok(())
}
