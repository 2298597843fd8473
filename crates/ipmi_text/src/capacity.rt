//! Texts whose capacity is set at the start.
ghost use Rattle.std.specs.Prelude.{◌≡◌, IfOk, IfSome, string_bytes};

use std::alloc::{AllocError, Global};
use std::fmt::Display;

/// The text of a value. It starts with this capacity in bytes and grows only past it.
pub(crate) fn text_with_capacity<D: Display + Drop>(
    alloc: Global,
    capacity: usize,
    value: D,
) -> Result<String, AllocError>
    ensures { IfOk result (λ text. IfSome (D.output value) (λ bytes. string_bytes text ≡ bytes)) }
{
    let mut text = String::with_capacity(alloc, capacity)?;
    text.write(value)?;
    Ok(text)
}
