//! What a sensor measures, by the units of its readings (IPMI v2.0, tables 43-1 and 43-15).
ghost use Rattle.std.specs.Prelude.{◌≡◌};
ghost use Rattle.ipmi_metrics.specs.Measure.{by_base_unit, by_units, measure_of};

use ipmi_records::SdrView;
use ipmi_text::{NO_ANALOG_READING, Units};

/// The base unit of a temperature: degrees Celsius.
const DEGREES_CELSIUS: u8 = 1;

/// The base unit of a voltage.
const VOLTS: u8 = 4;

/// The base unit of a current.
const AMPERES: u8 = 5;

/// The base unit of a power.
const WATTS: u8 = 6;

/// The base unit of the speed of a fan: rotations per minute.
const ROTATIONS_PER_MINUTE: u8 = 18;

/// Bits 5:0 of sensor units 1, which join a rate, a modifier or a percentage to the base unit.
const JOINED_BITS: u8 = 0x3F;

/// What a sensor measures.
#[derive(Clone, Copy, Debug, PartialEq, Eq)]
pub(crate) enum Measure {
    /// A temperature in degrees Celsius.
    Temperature,
    /// The speed of a fan in rotations per minute.
    FanSpeed,
    /// A voltage in volts.
    Voltage,
    /// A current in amperes.
    Current,
    /// A power in watts.
    Power,
    /// Anything else, or states only.
    Other,
}

/// What is measured in a base unit.
fn by_base_unit(base: u8) -> Measure
    ensures { result ≡ by_base_unit base }
{
    match base {
        DEGREES_CELSIUS => Measure::Temperature,
        VOLTS => Measure::Voltage,
        AMPERES => Measure::Current,
        WATTS => Measure::Power,
        ROTATIONS_PER_MINUTE => Measure::FanSpeed,
        _ => Measure::Other,
    }
}

/// What is measured in these units.
fn by_units(units: Units) -> Measure
    ensures { result ≡ by_units units }
{
    if units.units1 & JOINED_BITS == 0 {
        by_base_unit(units.base)
    } else {
        Measure::Other
    }
}

impl Measure {
    /// What the sensor of a record measures. Only a full record has readings with units.
    pub(crate) fn of(view: &SdrView) -> Measure
        ensures { result ≡ measure_of view.now }
    {
        match view {
            SdrView::Full(full) if full.analog_format() != NO_ANALOG_READING => {
                by_units(full.units())
            }
            _ => Measure::Other,
        }
    }
}
