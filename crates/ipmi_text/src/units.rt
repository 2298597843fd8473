//! The units of a sensor's readings.
ghost use Rattle.std.specs.Prelude.{◌≡◌, ◌/◌, ◌%◌, [], ◌++◌, ◌&&◌, IfOk, IfSome, OnOk, codes, if◌then◌else◌, option_map, slice_get, string_bytes};
ghost use Rattle.ipmi_text.specs.Units.{after_space, is_not_empty, modifier_part, percent_part, rate_part, unit_name_or_code, unit_text_of, units};

use crate::capacity::text_with_capacity;
use crate::names::{NameOrCode, name_at};
use std::alloc::{AllocError, Global};
use std::fmt;

/// The names of units 00h (unspecified) to 18h; later units print as their code (IPMI v2.0, table 43-15).
const UNITS: [&str; 25] = [
    "",
    "degrees C",
    "degrees F",
    "degrees K",
    "Volts",
    "Amps",
    "Watts",
    "Joules",
    "Coulombs",
    "VA",
    "Nits",
    "lumen",
    "lux",
    "Candela",
    "kPa",
    "PSI",
    "Newton",
    "CFM",
    "RPM",
    "Hz",
    "microsecond",
    "millisecond",
    "second",
    "minute",
    "hour",
];

/// The capacity for the text of most units.
const CAPACITY: usize = 32;

/// Bits 5:0 of sensor units 1: rate, modifier use and percentage. Bits 7:6 are the analog format.
const JOINED_BITS: u8 = 0x3F;

/// Bits 2:1 of sensor units 1, shifted down: the use of the modifier.
const MODIFIER_USE_BITS: u8 = 0x03;

/// Modifier use: the base unit is divided by the modifier.
const DIVIDED: u8 = 1;

/// Modifier use: the base unit is multiplied by the modifier.
const MULTIPLIED: u8 = 2;

/// Bits 5:3 of sensor units 1, shifted down: the rate.
const RATE_BITS: u8 = 0x07;

/// Bit 0 of sensor units 1: the reading is a percentage.
const PERCENTAGE: u8 = 0x01;

/// The rates, indexed by bits 5:3 of sensor units 1.
const RATES: [&str; 8] = [
    "", "per us", "per ms", "per s", "per min", "per hour", "per day", "",
];

/// Whether a text is not empty.
#[tactic(auto, using(crate::proofs::UnitLemmas::not_length_zero))]
fn is_not_empty(text: &str) -> bool
    ensures { result ≡ is_not_empty text.now }
{
    !text.is_empty()
}

/// The name of a unit, if it has one.
fn unit_name(code: u8) -> Option<&'static str>
    ensures { option_map (λ s. s.now) result ≡ slice_get units code }
{
    name_at(UNITS.as_slice(), usize::from(code))
}

/// A base or modifier unit, printed as its name, or as `unit 0xNN` if it has none.
#[derive(Clone, Copy)]
struct UnitName(u8);

impl UnitName {
    /// Whether its text is not empty.
    fn prints_something(self) -> bool
        ensures { result ≡ is_not_empty (unit_name_or_code self.0) }
    {
        match unit_name(self.0) {
            Some(name) => is_not_empty(name),
            None => true,
        }
    }
}

impl fmt::Display for UnitName {
    ghost use Rattle.std.specs.Prelude.{Some};
    ghost use Rattle.ipmi_text.specs.Units.{unit_name_or_code};

    ghost output = { λ unit. Some (unit_name_or_code unit.0) };

    fn fmt<W: fmt::Write>(&self, f: &mut fmt::Formatter<W>) -> fmt::Result {
        let words = NameOrCode {
            name: unit_name(self.0),
            kind: "unit",
            code: self.0,
        };
        words.fmt(f)
    }
}

/// A base unit and its modifier, joined as bits 2:1 of sensor units 1 say.
#[derive(Clone, Copy)]
struct BaseUnit(Units);

impl BaseUnit {
    #[tactic(auto, using(crate::proofs::UnitLemmas::is_not_empty_append))]
    fn prints_something(self) -> bool
        ensures { result ≡ is_not_empty (unit_name_or_code self.0.base ++ modifier_part
            self.0.units1 self.0.modifier) }
    {
        match self.0.modifier_use() {
            DIVIDED | MULTIPLIED => true,
            _ => UnitName(self.0.base).prints_something(),
        }
    }
}

impl fmt::Display for BaseUnit {
    ghost use Rattle.std.specs.Prelude.{Some, ◌++◌};
    ghost use Rattle.ipmi_text.specs.Units.{modifier_part, unit_name_or_code};

    ghost output = { λ unit. Some (unit_name_or_code unit.0.base ++ modifier_part unit.0.units1 unit.0.modifier) };

    fn fmt<W: fmt::Write>(&self, f: &mut fmt::Formatter<W>) -> fmt::Result {
        let base = UnitName(self.0.base);
        let modifier = UnitName(self.0.modifier);
        match self.0.modifier_use() {
            DIVIDED => write!(f, "{base}/{modifier}"),
            MULTIPLIED => write!(f, "{base}*{modifier}"),
            _ => write!(f, "{base}"),
        }
    }
}

/// The space between two parts, if both are printed.
fn gap(before: bool, after: bool) -> &'static str
    ensures { result.now ≡ (if before && after then codes " " else []) }
{
    if before && after { " " } else { "" }
}

/// The units of a sensor: its bytes sensor units 1, base unit and modifier unit (IPMI v2.0, tables 43-1 and 43-15).
/// Printed as percent, base unit with modifier, and rate; the parts that are not empty are joined by one space.
#[derive(Clone, Copy, Debug, PartialEq, Eq)]
pub struct Units {
    /// Sensor units 1: the rate, how the modifier is used, percentage.
    pub units1: u8,
    /// The base unit.
    pub base: u8,
    /// The modifier unit.
    pub modifier: u8,
}

impl Units {
    /// Rate, modifier use and percentage; 0 if nothing is joined to the base unit.
    fn joined_bits(self) -> u8
        ensures { result ≡ self.units1 % 64 }
    {
        self.units1 & JOINED_BITS
    }

    /// How the modifier is joined to the base unit: not at all, or as `DIVIDED` or `MULTIPLIED` says.
    fn modifier_use(self) -> u8
        ensures { result ≡ self.units1 / 2 % 4 }
    {
        self.units1 >> 1 & MODIFIER_USE_BITS
    }

    /// `%` for a percentage.
    fn percent(self) -> &'static str
        ensures { result.now ≡ percent_part self.units1 }
    {
        if self.units1 & PERCENTAGE != 0 {
            "%"
        } else {
            ""
        }
    }

    /// The rate, empty if there is none.
    fn rate(self) -> &'static str
        ensures { result.now ≡ rate_part self.units1 }
    {
        name_at(RATES.as_slice(), usize::from(self.units1 >> 3 & RATE_BITS)).unwrap_or("")
    }

    /// Their whole text, if that is only the name of the base unit.
    #[tactic(auto, using(crate::proofs::UnitLemmas::unit_text_of_plain))]
    fn plain_name(self) -> Option<&'static str>
        ensures { IfSome result (λ name. name.now ≡ unit_text_of self.units1 self.base
            self.modifier) }
    {
        if self.joined_bits() == 0 {
            unit_name(self.base)
        } else {
            None
        }
    }

    /// Whether their text is not empty.
    #[tactic(auto, using(crate::proofs::UnitLemmas::is_not_empty_join_with_byte))]
    fn prints_something(self) -> bool
        ensures { result ≡ is_not_empty (unit_text_of self.units1 self.base self.modifier) }
    {
        is_not_empty(self.percent())
            || BaseUnit(self).prints_something()
            || is_not_empty(self.rate())
    }
}

impl fmt::Display for Units {
    ghost use Rattle.std.specs.Prelude.{Some};
    ghost use Rattle.ipmi_text.specs.Units.{unit_text_of};

    ghost output = { λ units. Some (unit_text_of units.units1 units.base units.modifier) };

    #[tactic(auto, using(crate::proofs::UnitLemmas::append_spaced))]
    fn fmt<W: fmt::Write>(&self, f: &mut fmt::Formatter<W>) -> fmt::Result {
        let percent = self.percent();
        let unit = BaseUnit(*self);
        let rate = self.rate();
        let has_percent = is_not_empty(percent);
        let has_unit = unit.prints_something();
        let first = gap(has_percent, has_unit);
        let second = gap(has_percent || has_unit, is_not_empty(rate));
        write!(f, "{percent}{first}{unit}{second}{rate}")
    }
}

/// The space before units, if their text is not empty.
fn gap_before(units: Units) -> &'static str
    ensures { result.now ++ unit_text_of units.units1 units.base units.modifier ≡ after_space
        (unit_text_of units.units1 units.base units.modifier) }
{
    if units.prints_something() { " " } else { "" }
}

/// Appends a space and a text, or nothing if the text is empty.
#[tactic(auto, using(crate::proofs::UnitLemmas::after_space_is))]
fn push_after_space(text: &mut String, part: &str) -> Result<(), AllocError>
    ensures { OnOk result
        (string_bytes text.new ≡ string_bytes text.old ++ after_space part.now) }
{
    if !is_not_empty(part) {
        return Ok(());
    }
    text.push(' ')?;
    text.push_str(part)?;
    Ok(())
}

/// Appends a space and units, or nothing if the text of the units is empty.
pub fn push_units(text: &mut String, units: Units) -> Result<(), AllocError>
    ensures { OnOk result (string_bytes text.new ≡ string_bytes text.old ++ after_space
        (unit_text_of units.units1 units.base units.modifier)) }
{
    // most sensors have only a base unit
    match units.plain_name() {
        Some(name) => push_after_space(text, name),
        None => {
            let gap = gap_before(units);
            write!(text, "{gap}{units}")
        }
    }
}

/// The text of a sensor's units, as `Units` prints them: from its bytes sensor units 1, base unit and modifier unit.
pub fn unit_text(alloc: Global, units1: u8, base: u8, modifier: u8) -> Result<String, AllocError>
    ensures { IfOk result (λ text. string_bytes text ≡ unit_text_of units1 base modifier) }
{
    text_with_capacity(
        alloc,
        CAPACITY,
        Units {
            units1,
            base,
            modifier,
        },
    )
}
