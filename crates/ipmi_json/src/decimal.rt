//! Exact decimals.
ghost use Rattle.std.specs.Prelude.{◌≡◌, ◌*◌, ◌^◌, IfOk, IfSome, OnOk, option_map, pos, string_bytes};
ghost use Rattle.ipmi_text.specs.Decimal.{IsDecimalOf};
ghost use Rattle.ipmi_json.specs.Object.{IsDecimalOrNull, json_of};

use crate::number::Number;
use crate::object::Value;
use ipmi_text::{Fixed, push_fixed};
use std::alloc::AllocError;

/// 1 in units of 10^-16.
const ONE: u64 = 10_000_000_000_000_000;

/// Replaces a text with the exact decimal of a value.
fn set_decimal(text: &mut String, value: Fixed) -> Result<(), AllocError>
    ensures { OnOk result (IsDecimalOf value.0 (string_bytes text.new)) }
{
    text.clear();
    push_fixed(text, value)
}

/// The whole number that a value is. None for another value, and for one that is below zero or does not fit.
fn whole_of(value: Fixed) -> Option<u64>
    ensures { IfSome result (λ n. value.0 ≡ pos (n * 10 ^ 16)) }
{
    let units = u64::try_from(value.0).ok()?;
    if units % ONE == 0 {
        Some(units / ONE)
    } else {
        None
    }
}

/// The exact decimal of a value, or null where there is none. `text` is used for it.
pub(crate) fn decimal_or_null(
    text: &mut String,
    value: Option<Fixed>,
) -> Result<Value<'_>, AllocError>
    ensures { IfOk result (λ v. IsDecimalOrNull (option_map (λ v. v.0) value) (json_of v)) }
{
    let Some(value) = value else {
        return Ok(Value::Null);
    };
    if let Some(whole) = whole_of(value) {
        return Ok(Value::Integer(whole));
    }
    set_decimal(text, value)?;
    let digits = text.as_str();
    Ok(Value::Number(Number { digits }))
}
