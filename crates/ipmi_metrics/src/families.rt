//! The families of the samples of sensors: their names, and what they say.
ghost use Rattle.std.specs.Prelude.{◌≡◌, ◌++◌, OnOk, string_bytes};
ghost use Rattle.ipmi_metrics.specs.Families.{family_help, family_name, head, with_head};

use crate::measure::Measure;
use std::alloc::AllocError;

/// A family of the samples of sensors.
#[derive(Clone, Copy, Debug, PartialEq, Eq)]
pub(crate) enum Family {
    /// The values of the sensors that measure this.
    Value(Measure),
    /// The states of the sensors that measure this.
    State(Measure),
    /// The values of thresholds.
    Threshold,
    /// What else records say of their sensors.
    Info,
}

/// All of them, in the order in which they are printed.
pub(crate) const FAMILIES: [Family; 14] = [
    Family::Value(Measure::Temperature),
    Family::State(Measure::Temperature),
    Family::Value(Measure::FanSpeed),
    Family::State(Measure::FanSpeed),
    Family::Value(Measure::Voltage),
    Family::State(Measure::Voltage),
    Family::Value(Measure::Current),
    Family::State(Measure::Current),
    Family::Value(Measure::Power),
    Family::State(Measure::Power),
    Family::Value(Measure::Other),
    Family::State(Measure::Other),
    Family::Threshold,
    Family::Info,
];

impl Family {
    /// The name of its samples.
    pub(crate) fn name(self) -> &'static str
        ensures { result.now ≡ family_name self }
    {
        match self {
            Family::Value(Measure::Temperature) => "ipmi_temperature_celsius",
            Family::State(Measure::Temperature) => "ipmi_temperature_state",
            Family::Value(Measure::FanSpeed) => "ipmi_fan_speed_rpm",
            Family::State(Measure::FanSpeed) => "ipmi_fan_speed_state",
            Family::Value(Measure::Voltage) => "ipmi_voltage_volts",
            Family::State(Measure::Voltage) => "ipmi_voltage_state",
            Family::Value(Measure::Current) => "ipmi_current_amperes",
            Family::State(Measure::Current) => "ipmi_current_state",
            Family::Value(Measure::Power) => "ipmi_power_watts",
            Family::State(Measure::Power) => "ipmi_power_state",
            Family::Value(Measure::Other) => "ipmi_sensor_value",
            Family::State(Measure::Other) => "ipmi_sensor_state",
            Family::Threshold => "ipmi_sensor_threshold",
            Family::Info => "ipmi_sensor_info",
        }
    }

    /// What it says.
    fn help(self) -> &'static str
        ensures { result.now ≡ family_help self }
    {
        match self {
            Family::Value(Measure::Temperature) => "What a sensor measures, in degrees Celsius.",
            Family::Value(Measure::FanSpeed) => "What a sensor measures, in rotations per minute.",
            Family::Value(Measure::Voltage) => "What a sensor measures, in volts.",
            Family::Value(Measure::Current) => "What a sensor measures, in amperes.",
            Family::Value(Measure::Power) => "What a sensor measures, in watts.",
            Family::Value(Measure::Other) => {
                "What another sensor measures, in a unit of its own; NaN if it only has states."
            }
            Family::State(_) => {
                "How a sensor is: 0 is nominal, 1 a warning, 2 critical, NaN not known."
            }
            Family::Threshold => "The value of a readable threshold.",
            Family::Info => "What the record of a sensor says of it.",
        }
    }
}

/// Appends the head of a family of gauges.
pub(crate) fn push_head(text: &mut String, name: &str, help: &str) -> Result<(), AllocError>
    ensures { OnOk result (string_bytes text.new ≡ string_bytes text.old ++ head name.now help.now) }
{
    write!(text, "# HELP {name} {help}\n# TYPE {name} gauge\n")
}

/// Appends the samples of a family after its head. Appends nothing if there are none.
pub(crate) fn push_with_head(
    text: &mut String,
    family: Family,
    samples: &str,
) -> Result<(), AllocError>
    ensures { OnOk result (string_bytes text.new ≡ string_bytes text.old ++ with_head family samples.now) }
{
    if samples.is_empty() {
        return Ok(());
    }
    push_head(text, family.name(), family.help())?;
    text.push_str(samples)
}
