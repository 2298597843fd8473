//! The numbers of samples and labels.
ghost use Rattle.std.specs.Prelude.{◌≡◌, ◌++◌, decimal, OnOk, option_map, string_bytes};
ghost use Rattle.ipmi_text.specs.Appended.{Appends};
ghost use Rattle.ipmi_text.specs.Decimal.{IsDecimalOf};
ghost use Rattle.ipmi_metrics.specs.Samples.{IsNumber};

use ipmi_text::{Fixed, push_fixed};
use itoa::Buffer;
use std::alloc::AllocError;

/// 1 in units of 10^-16.
const ONE: u64 = 10_000_000_000_000_000;

/// Appends a whole number.
pub(crate) fn push_whole(text: &mut String, number: u64) -> Result<(), AllocError>
    ensures { OnOk result (string_bytes text.new ≡ string_bytes text.old ++ decimal number) }
{
    let mut buffer = Buffer::new();
    text.push_str(buffer.format(number))
}

/// Appends the exact decimal of a value. Most values are whole numbers, whose digits are made faster.
fn push_decimal(text: &mut String, value: Fixed) -> Result<(), AllocError>
    ensures { OnOk result (Appends (IsDecimalOf value.0) (string_bytes text.old) (string_bytes text.new)) }
{
    if let Ok(units) = u64::try_from(value.0)
        && units % ONE == 0
    {
        return push_whole(text, units / ONE);
    }
    push_fixed(text, value)
}

/// Appends the exact decimal of a value, or NaN if there is none.
pub(crate) fn push_number(text: &mut String, value: Option<Fixed>) -> Result<(), AllocError>
    ensures { OnOk result
        (Appends (IsNumber (option_map (λ value. value.0) value)) (string_bytes text.old) (string_bytes text.new)) }
{
    match value {
        Some(value) => push_decimal(text, value),
        None => text.push_str("NaN"),
    }
}
