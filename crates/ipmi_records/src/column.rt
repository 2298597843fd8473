//! The reading column and the status of a record.
ghost use Rattle.std.specs.Prelude.{◌≡◌, ◌+◌, ◌*◌, ◌%◌, ◌++◌, OnOk, option_map, string_bytes};
ghost use Rattle.ipmi_records.specs.Below.{Appends};
ghost use Rattle.ipmi_records.specs.Prelude.{IsRawText, IsRawValue, IsReadingColumn, IsSensorColumn, fru_column, has_thresholds, known, raw_byte_text, sensor_status, shown_of, shown_reading, states_of, states_text, status_of, threshold_status};

use crate::full::FullSensor;
use crate::record_type::RecordType;
use crate::sdr::SdrView::{Compact, Controller, EventOnly, Fru, Full, Generic, Other};
use crate::sdr::{OWN_ADDRESS, SdrView};
use crate::sensor::Sensor;
use crate::threshold::Threshold;
use ipmi_text::{
    ByteH, HexByte, HexWord, NO_ANALOG_READING, Reading, THRESHOLD_EVENT_TYPE, convert, push_fixed,
    push_units,
};
use std::alloc::AllocError;

/// Bits 6:0 of a reading's last byte: states 14:8 of a discrete sensor.
const STATE_BITS: u8 = 0x7F;

/// What is known of the reading of a sensor.
#[derive(Clone, Copy, Debug, PartialEq, Eq)]
pub enum KnownReading {
    /// A capture left the reading out.
    NotCaptured,
    /// The controller has none.
    Absent,
    /// The answer of Get Sensor Reading.
    Present(Reading),
}

impl From<Option<Reading>> for KnownReading {
    ghost from_gives = { λ reading gives. gives ≡ known reading };

    fn from(reading: Option<Reading>) -> Self {
        match reading {
            None => KnownReading::Absent,
            Some(reading) => KnownReading::Present(reading),
        }
    }
}

/// What is shown of a sensor whose record allows a reading.
#[derive(Clone, Copy, Debug, PartialEq, Eq)]
pub enum Shown {
    /// Nothing: the sensor's owner is not the controller itself, so no reading is requested.
    OtherOwner,
    /// A reading that a capture left out.
    NotCaptured,
    /// No reading.
    NoReading,
    /// A reading.
    Value(Reading),
}

/// What is shown of a sensor that the controller itself owns.
fn shown_reading(reading: KnownReading) -> Shown
    ensures { result ≡ shown_reading reading }
{
    match reading {
        KnownReading::NotCaptured => Shown::NotCaptured,
        KnownReading::Present(reading) if reading.is_available() => Shown::Value(reading),
        KnownReading::Absent | KnownReading::Present(_) => Shown::NoReading,
    }
}

/// What is shown of a sensor.
pub fn shown_of(sensor: &Sensor, reading: KnownReading) -> Shown
    ensures { result ≡ shown_of sensor.now reading }
{
    if sensor.owner == OWN_ADDRESS {
        shown_reading(reading)
    } else {
        Shown::OtherOwner
    }
}

/// Appends a raw byte that has no value: `raw 0xNN`.
pub fn push_raw_byte(text: &mut String, raw: u8) -> Result<(), AllocError>
    ensures { OnOk result (string_bytes text.new ≡ string_bytes text.old ++ raw_byte_text raw) }
{
    let raw = HexByte(raw);
    write!(text, "raw 0x{raw}")
}

/// Appends the exact decimal of a raw byte's value, without its units, or `raw 0xNN` if the record defines no value.
pub fn push_value(text: &mut String, full: &FullSensor, raw: u8) -> Result<(), AllocError>
    ensures { OnOk result
        (Appends (IsRawValue full.now raw) (string_bytes text.old) (string_bytes text.new)) }
{
    match convert(&full.factors(), raw) {
        Some(value) => push_fixed(text, value),
        None => push_raw_byte(text, raw),
    }
}

/// Appends the value of a raw byte with its units, or `raw 0xNN` if the record defines no value.
pub fn push_raw(text: &mut String, full: &FullSensor, raw: u8) -> Result<(), AllocError>
    ensures { OnOk result
        (Appends (IsRawText full.now raw) (string_bytes text.old) (string_bytes text.new)) }
{
    let Some(value) = convert(&full.factors(), raw) else {
        return push_raw_byte(text, raw);
    };
    push_fixed(text, value)?;
    push_units(text, full.units())
}

/// The 15 states of a discrete sensor, one bit per state; bit 0 is state 0.
pub fn states_in(reading: Reading) -> u16
    ensures { result ≡ states_of reading }
{
    u16::from_be_bytes([reading.more & STATE_BITS, reading.status])
}

/// Appends the states of a discrete sensor.
fn push_states(text: &mut String, reading: Reading) -> Result<(), AllocError>
    ensures { OnOk result
        (string_bytes text.new ≡ string_bytes text.old ++ states_text reading) }
{
    let states = HexWord(states_in(reading));
    write!(text, "states 0x{states}")
}

/// Appends the reading column of a sensor: its value if the record defines a conversion, otherwise its states.
fn push_sensor(
    text: &mut String,
    shown: Shown,
    analog: Option<&FullSensor>,
) -> Result<(), AllocError>
    ensures { OnOk result (Appends (IsSensorColumn shown (option_map (λ full. full.now) analog.entry))
        (string_bytes text.old) (string_bytes text.new)) }
{
    match shown {
        Shown::OtherOwner => text.push_str("other owner"),
        Shown::NotCaptured => text.push_str("not captured"),
        Shown::NoReading => text.push_str("no reading"),
        Shown::Value(reading) => match analog {
            Some(full) => push_raw(text, full, reading.raw),
            None => push_states(text, reading),
        },
    }
}

/// Appends the reading column of a FRU locator.
fn push_fru(text: &mut String, fru: Option<u8>) -> Result<(), AllocError>
    ensures { OnOk result (string_bytes text.new ≡ string_bytes text.old ++ fru_column fru) }
{
    match fru {
        Some(fru) => write!(text, "FRU {fru}"),
        None => text.push_str("elsewhere"),
    }
}

/// Appends the reading column of a record, as printed by `sdr_line`.
pub fn push_reading(
    text: &mut String,
    view: &SdrView,
    reading: KnownReading,
) -> Result<(), AllocError>
    ensures { OnOk result
        (Appends (IsReadingColumn view.now reading) (string_bytes text.old)
        (string_bytes text.new)) }
{
    match view {
        Full(full) if full.analog_format() == NO_ANALOG_READING => {
            push_sensor(text, shown_of(&full.sensor(), reading), None)
        }
        Full(full) => push_sensor(text, shown_of(&full.sensor(), reading), Some(full)),
        Compact(compact) => push_sensor(text, shown_of(&compact.sensor(), reading), None),
        EventOnly(_) => text.push_str("event only"),
        Generic(_) => text.push_str("generic device"),
        Fru(fru) => push_fru(text, fru.fru_of()),
        Controller(controller) => {
            let address = ByteH(controller.locator().address);
            write!(text, "controller {address}")
        }
        Other(_) => {
            let kind = RecordType(view.record_type());
            write!(text, "{kind}")
        }
    }
}

/// The status of a threshold sensor, by the thresholds that its reading has passed.
fn threshold_status(bits: u8) -> &'static str
    ensures { result.now ≡ threshold_status bits }
{
    if Threshold::UpperNonRecoverable.is_in(bits) || Threshold::LowerNonRecoverable.is_in(bits) {
        return "nr";
    }
    if Threshold::UpperCritical.is_in(bits) || Threshold::LowerCritical.is_in(bits) {
        return "cr";
    }
    if Threshold::UpperNonCritical.is_in(bits) || Threshold::LowerNonCritical.is_in(bits) {
        return "nc";
    }
    "ok"
}

/// Whether the sensor has thresholds: its event/reading type says so.
pub fn has_thresholds(sensor: &Sensor) -> bool
    ensures { result ≡ has_thresholds sensor.now }
{
    sensor.event_type == THRESHOLD_EVENT_TYPE
}

/// The status of a sensor with this reading.
fn sensor_status(sensor: &Sensor, reading: KnownReading) -> &'static str
    ensures { result.now ≡ sensor_status sensor.now (shown_of sensor.now reading) }
{
    match shown_of(sensor, reading) {
        Shown::OtherOwner => "na",
        Shown::NotCaptured | Shown::NoReading => "ns",
        Shown::Value(reading) => {
            if has_thresholds(sensor) {
                return threshold_status(reading.status);
            }
            "ok"
        }
    }
}

/// The status of a record, as printed by `sdr_line`.
pub fn status_of(view: &SdrView, reading: KnownReading) -> &'static str
    ensures { result.now ≡ status_of view.now reading }
{
    match view {
        Full(full) => sensor_status(&full.sensor(), reading),
        Compact(compact) => sensor_status(&compact.sensor(), reading),
        EventOnly(_) | Generic(_) | Fru(_) | Controller(_) | Other(_) => "na",
    }
}
