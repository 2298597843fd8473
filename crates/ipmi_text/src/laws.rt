//! Laws of texts. They follow from the definitions, so they hold for any code that writes such a text.
ghost use Rattle.std.specs.Prelude.{◌≡◌, ℤ, List, ℕ};
ghost use Rattle.ipmi_text.specs.Decimal.{IsDecimalOf};
ghost use Rattle.ipmi_text.specs.Laws.{DecimalExists, DecimalIsUnique, MinutesTextExists, MinutesTextIsUnique, UtcTextExists, UtcTextIsUnique};

/// A value has at most one decimal, so the result of `fixed_text` is the only one.
pub fn one_decimal_of_a_value()
    ensures { DecimalIsUnique }
{}

/// A decimal of a value determines the value.
pub fn one_value_of_a_decimal()
    ensures { (value other : ℤ) (text : List ℕ) → IsDecimalOf value text → IsDecimalOf other text →
        value ≡ other }
{}

/// A time stamp in seconds has at most one text, so the result of `utc_text` is the only one.
#[tactic(auto, using(crate::proofs::TimeLemmas::one_utc_text))]
pub fn one_utc_text()
    ensures { UtcTextIsUnique }
{}

/// A time stamp in minutes has at most one text, so the result of `minutes_text` is the only one.
#[tactic(auto, using(crate::proofs::TimeLemmas::one_minutes_text))]
pub fn one_minutes_text()
    ensures { MinutesTextIsUnique }
{}

/// Each value has a decimal.
pub fn each_value_has_a_decimal()
    ensures { DecimalExists }
{}

/// Each time stamp in seconds has a text, and so has each 24-bit time stamp in minutes.
pub fn each_time_has_a_text()
    ensures utc { UtcTextExists }
    ensures minutes { MinutesTextExists }
{}
