//! Exact decimals.
ghost use Rattle.std.specs.Prelude.{◌≡◌, ◌<◌, ◌/◌, ◌%◌, ◌^◌, ◌++◌, decimal, IfOk, OnOk, string_bytes};
ghost use Rattle.ipmi_text.specs.Appended.{Appends};
ghost use Rattle.ipmi_text.specs.Decimal.{AppendsFraction, IsDecimalOf, sign_of};

use std::alloc::{AllocError, Global};

/// A number in units of 10^-16.
#[derive(Clone, Copy, Debug, PartialEq, Eq)]
pub struct Fixed(pub i128);

/// 1 in units of 10^-16.
const ONE: u64 = 10_000_000_000_000_000;

/// The capacity for the decimal of most values: a sign, whole digits, a point and 16 digits.
const CAPACITY: usize = 32;

/// A minus sign for a value below zero, otherwise nothing.
fn sign(value: i128) -> &'static str
    ensures { result.now ≡ sign_of value }
{
    if value < 0 { "-" } else { "" }
}

/// Appends a point and the digits of a fraction, without trailing zeros. Appends nothing for 0.
fn push_fraction(text: &mut String, fraction: u64) -> Result<(), AllocError>
    requires { fraction < 10 ^ 16 }
    ensures { OnOk result
        (AppendsFraction fraction (string_bytes text.old) (string_bytes text.new)) }
{
    if fraction == 0 {
        return Ok(());
    }
    text.push('.')?;
    let mut place = ONE;
    let mut rest = fraction;
    'digits: while rest != 0 {
        place /= 10;
        text.push((b'0' + (rest / place) as u8) as char)?;
        rest %= place;
    }
    Ok(())
}

/// The integer part of a size, and the remaining units of 10^-16.
fn parts(size: u128) -> (u128, u64)
    ensures whole { result.0 ≡ size / 10 ^ 16 }
    ensures rest { result.1 ≡ size % 10 ^ 16 }
{
    // a 64-bit division is far cheaper, and nearly all sizes fit in 64 bits
    if size <= u128::from(u64::MAX) {
        let size = size as u64;
        (u128::from(size / ONE), size % ONE)
    } else {
        let one = u128::from(ONE);
        (size / one, (size % one) as u64)
    }
}

/// Appends a number. Nearly all numbers fit in 64 bits, and are printed far faster then.
fn push_whole(text: &mut String, whole: u128) -> Result<(), AllocError>
    ensures { OnOk result (string_bytes text.new ≡ string_bytes text.old ++ decimal whole) }
{
    match u64::try_from(whole) {
        Ok(whole) => write!(text, "{whole}"),
        Err(_) => write!(text, "{whole}"),
    }
}

/// Appends the shortest exact decimal of a value. The contract says what its sign and digits are; the module `laws`
/// says that no other text meets it.
pub fn push_fixed(text: &mut String, value: Fixed) -> Result<(), AllocError>
    ensures { OnOk result
        (Appends (IsDecimalOf value.0) (string_bytes text.old) (string_bytes text.new)) }
{
    let (whole, fraction) = parts(value.0.unsigned_abs());
    text.push_str(sign(value.0))?;
    push_whole(text, whole)?;
    push_fraction(text, fraction)
}

/// The shortest exact decimal of a value, as `push_fixed` appends it.
#[tactic(auto, using(crate::proofs::DivisionLemmas::only_part))]
pub fn fixed_text(alloc: Global, value: Fixed) -> Result<String, AllocError>
    ensures { IfOk result (λ text. IsDecimalOf value.0 (string_bytes text)) }
{
    let mut text = String::with_capacity(alloc, CAPACITY)?;
    push_fixed(&mut text, value)?;
    Ok(text)
}
