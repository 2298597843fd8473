//! What is told of sensor data records, and their objects.
ghost use Rattle.std.specs.Prelude.{◌≡◌, ◌<◌, ◌∷◌, [], IfOk, OnOk, codes, drop, length, option_map, slice_get, slice_index};
ghost use Rattle.ipmi_text.specs.Units.{unit_text_of};
ghost use Rattle.ipmi_records.specs.Prelude.{byte_at, has_bit, locator_in, name_of, shown_of};
ghost use Rattle.ipmi_json.specs.Members.{Tells, TellsSome};
ghost use Rattle.ipmi_json.specs.Object.{IsDecimalOrNull, integer, IsLineOf, json_of, text_unless_empty};
ghost use Rattle.ipmi_json.specs.Sdr.{AreCompactMembers, AreFullMembers, AreRecordMembers, AreThresholdMembers, AreTold, AreValueMembers, IsSdrLine, bytes_members, controller_members, entity_members, fault_members, fault_word, fru_address, fru_id, fru_locator_members, generic_members, kind_word, name_members, raw_shown, sensor_members, shown_members, slave_address, states_in, states_shown, status_words, threshold_value, value_shown};

use crate::decimal::decimal_or_null;
use crate::members::{Members, put_members, put_printed};
use crate::object::{Label, Value, begin, finish, integer_or_null, text_unless_empty};
use crate::record::{put_raw, tell_head, tell_severity};
use crate::states::tell_state_words;
use ipmi_events::{EntityWords, sensor_reason, sensor_severity, status_in_words};
use ipmi_records::SdrView::{Compact, Controller, EventOnly, Fru, Full, Generic, Other};
use ipmi_records::{
    CompactSensor, Entity, FruLocator, FullSensor, KnownReading, Locator, SdrFault, SdrView,
    Sensor, Shown, Threshold, has_thresholds, shown_of, states_in, status_of,
};
use ipmi_text::{Fixed, Reading, SensorType, Units, convert, push_sdr_text, push_units};
use std::alloc::{AllocError, Global};

/// The capacity for most texts.
const TEXT_CAPACITY: usize = 64;

/// The offset of the record type, counted from 0.
const RECORD_TYPE: usize = 3;

/// The offset of a generic device's own address.
const SLAVE_ADDRESS: usize = 6;

/// Bits 5:0 of a status, one for each threshold.
const THRESHOLD_STATES: u8 = 0x40;

/// The word for the kind of a record.
fn kind_word(view: &SdrView) -> &'static str
    ensures { result.now ≡ kind_word view.now }
{
    match view {
        Full(_) => "full",
        Compact(_) => "compact",
        EventOnly(_) => "event_only",
        Generic(_) => "generic_locator",
        Fru(_) => "fru_locator",
        Controller(_) => "mc_locator",
        Other(_) => "other",
    }
}

/// Tells the name of a record, if it has one. `text` is used for it.
fn tell_name<M: Members>(
    alloc: Global,
    out: &mut M,
    text: &mut String,
    view: &SdrView,
) -> Result<(), AllocError>
    ensures { OnOk result (Tells M.told (name_members (name_of view.now)) out.old out.new) }
{
    match view.id_string() {
        Some(id) => {
            text.clear();
            push_sdr_text(alloc, text, id.type_length, id.rest)?;
            out.put("name", text_unless_empty(text.as_str()))
        }
        None => put_members(out, &[]),
    }
}

/// Tells the numbers of a sensor.
fn tell_numbers<M: Members>(out: &mut M, sensor: &Sensor) -> Result<(), AllocError>
    ensures { OnOk result (Tells M.told ((codes "owner_id", integer sensor.now.owner)
        ∷ (codes "owner_lun", integer sensor.now.lun)
        ∷ (codes "sensor_number", integer sensor.now.number) ∷ []) out.old out.new) }
{
    let number = u64::from(sensor.number);
    out.put("owner_id", Value::Integer(u64::from(sensor.owner)))?;
    out.put("owner_lun", Value::Integer(u64::from(sensor.lun)))?;
    out.put("sensor_number", Value::Integer(number))
}

/// Tells what a record tells of its sensor. `text` is used for its texts.
fn tell_sensor<M: Members>(
    out: &mut M,
    text: &mut String,
    sensor: &Sensor,
) -> Result<(), AllocError>
    ensures { OnOk result (Tells M.told (sensor_members sensor.now) out.old out.new) }
{
    let kind = sensor.sensor_type;
    let event_type = u64::from(sensor.event_type);
    tell_numbers(out, sensor)?;
    tell_entity(out, text, sensor.entity)?;
    out.put("sensor_type", Value::Integer(u64::from(kind)))?;
    put_printed(out, text, "sensor_type_name", SensorType(kind))?;
    out.put("event_type", Value::Integer(event_type))
}

/// The raw byte of the reading, if there is one.
fn raw_shown(shown: Shown) -> Option<u64>
    ensures { result ≡ raw_shown shown }
{
    match shown {
        Shown::Value(reading) => Some(u64::from(reading.raw)),
        Shown::OtherOwner | Shown::NotCaptured | Shown::NoReading => None,
    }
}

/// The states of a sensor by a reading: those of a sensor with thresholds are in the first byte.
fn states_by(sensor: &Sensor, reading: Reading) -> u64
    ensures { result ≡ states_in sensor.now reading }
{
    if has_thresholds(sensor) {
        u64::from(reading.status % THRESHOLD_STATES)
    } else {
        u64::from(states_in(reading))
    }
}

/// The states of the reading, if there is one.
fn states_shown(sensor: &Sensor, shown: Shown) -> Option<u64>
    ensures { result ≡ states_shown sensor.now shown }
{
    match shown {
        Shown::Value(reading) => Some(states_by(sensor, reading)),
        Shown::OtherOwner | Shown::NotCaptured | Shown::NoReading => None,
    }
}

/// The value of the reading of a full record's sensor, if there is one.
pub fn value_shown(full: &FullSensor, shown: Shown) -> Option<Fixed>
    ensures { option_map (λ value. value.0) result ≡ value_shown full.now shown }
{
    match shown {
        Shown::Value(reading) => convert(&full.factors(), reading.raw),
        Shown::OtherOwner | Shown::NotCaptured | Shown::NoReading => None,
    }
}

/// A text without its first character, which is ASCII, if it has one.
fn after_first(text: &str) -> &str
    requires { 0 < length text.now → slice_index text.now 0 < 128 }
    ensures { result.now ≡ drop 1 text.now }
{
    if text.is_empty() { text } else { &text[1..] }
}

/// The text of units, or null if they have none. `text` is used for it.
fn unit_or_null(text: &mut String, units: Units) -> Result<Value<'_>, AllocError>
    ensures { IfOk result (λ unit. json_of unit ≡
        text_unless_empty (unit_text_of units.units1 units.base units.modifier)) }
{
    text.clear();
    push_units(text, units)?;
    Ok(text_unless_empty(after_first(text.as_str())))
}

/// Tells the value of a sensor and its unit. `text` is used for their texts.
fn tell_value<M: Members>(
    out: &mut M,
    text: &mut String,
    value: Option<Fixed>,
    units: Units,
) -> Result<(), AllocError>
    ensures { OnOk result (TellsSome M.told (AreValueMembers (option_map (λ value. value.0) value) units)
        out.old out.new) }
{
    out.put("reading", decimal_or_null(text, value)?)?;
    out.put("unit", unit_or_null(text, units)?)
}

/// The status with its direction, unless the reading was not captured.
fn status_words(sensor: &Sensor, reading: KnownReading) -> &'static str
    ensures { result.now ≡ status_words sensor.now (shown_of sensor.now reading) }
{
    match shown_of(sensor, reading) {
        Shown::NotCaptured => "not captured",
        _ => status_in_words(sensor, reading),
    }
}

/// Tells what else a sensor shows.
fn tell_shown<M: Members>(
    alloc: Global,
    out: &mut M,
    sensor: &Sensor,
    reading: KnownReading,
    status: &'static str,
) -> Result<(), AllocError>
    ensures { OnOk result
        (Tells M.told (shown_members sensor.now (shown_of sensor.now reading) status.entry.now)
        out.old out.new) }
{
    let shown = shown_of(sensor, reading);
    let words = status_words(sensor, reading);
    out.put("reading_raw", integer_or_null(raw_shown(shown)))?;
    out.put("states", integer_or_null(states_shown(sensor, shown)))?;
    tell_state_words(alloc, out, sensor, shown)?;
    out.put("status", Value::Text(status))?;
    out.put("status_words", Value::Text(words))?;
    let reason = sensor_reason(sensor, reading);
    tell_severity(out, sensor_severity(sensor, reading), reason)
}

/// The value of a threshold of a full record, if it has one.
pub fn threshold_value(full: &FullSensor, threshold: Threshold) -> Option<Fixed>
    ensures { option_map (λ value. value.0) result ≡ threshold_value threshold full.now }
{
    if has_thresholds(&full.sensor()) && full.is_readable(threshold) {
        convert(&full.factors(), full.threshold(threshold))
    } else {
        None
    }
}

/// The exact decimal of a threshold, or null. `text` is used for it.
fn threshold<'a>(
    text: &'a mut String,
    full: &FullSensor,
    threshold: Threshold,
) -> Result<Value<'a>, AllocError>
    ensures { IfOk result (λ v. IsDecimalOrNull (threshold_value threshold full.now) (json_of v)) }
{
    decimal_or_null(text, threshold_value(full, threshold))
}

/// Tells the thresholds that a full record has. `text` is used for their texts.
fn tell_thresholds<M: Members>(
    out: &mut M,
    text: &mut String,
    full: &FullSensor,
) -> Result<(), AllocError>
    ensures { OnOk result (TellsSome M.told (AreThresholdMembers full.now) out.old out.new) }
{
    let unr = Threshold::UpperNonRecoverable;
    let lnr = Threshold::LowerNonRecoverable;
    out.put("upper_non_recoverable", threshold(text, full, unr)?)?;
    out.put(
        "upper_critical",
        threshold(text, full, Threshold::UpperCritical)?,
    )?;
    out.put(
        "upper_non_critical",
        threshold(text, full, Threshold::UpperNonCritical)?,
    )?;
    out.put("lower_non_recoverable", threshold(text, full, lnr)?)?;
    out.put(
        "lower_critical",
        threshold(text, full, Threshold::LowerCritical)?,
    )?;
    out.put(
        "lower_non_critical",
        threshold(text, full, Threshold::LowerNonCritical)?,
    )
}

/// Tells the entity of a device. `text` is used for it.
fn tell_entity<M: Members>(out: &mut M, text: &mut String, entity: Entity) -> Result<(), AllocError>
    ensures { OnOk result (Tells M.told (entity_members entity) out.old out.new) }
{
    let instance = u64::from(entity.instance);
    out.put("entity_id", Value::Integer(u64::from(entity.id)))?;
    put_printed(out, text, "entity_name", EntityWords(entity.id))?;
    out.put("entity_instance", Value::Integer(instance))
}

/// The slave address in a byte. Bit 0 is not part of it.
fn slave_address(byte: u8) -> u64
    ensures { result ≡ slave_address byte }
{
    u64::from(byte) / 2 * 2
}

/// The byte with a generic device's own address. Each generic locator has it.
fn slave_byte(bytes: &[u8]) -> u8
    ensures { result ≡ byte_at 7 bytes.now }
{
    bytes.get(SLAVE_ADDRESS).copied().unwrap_or(0)
}

/// Tells what a generic locator tells of its device. `text` is used for the entity, `bytes` are the record.
fn tell_generic<M: Members>(
    out: &mut M,
    text: &mut String,
    locator: &Locator,
    bytes: &[u8],
) -> Result<(), AllocError>
    requires { locator.now ≡ locator_in bytes.now }
    ensures { OnOk result (Tells M.told (generic_members bytes.now) out.old out.new) }
{
    let access = slave_address(locator.address);
    let own = slave_address(slave_byte(bytes));
    out.put("device_access_address", Value::Integer(access))?;
    out.put("device_slave_address", Value::Integer(own))?;
    tell_entity(out, text, locator.entity)
}

/// The FRU device id of a logical device.
fn fru_id(fru: &FruLocator) -> Option<u64>
    ensures { result ≡ fru_id (has_bit 7 (byte_at 8 fru.now)) (byte_at 7 fru.now) }
{
    if fru.is_logical() {
        Some(u64::from(fru.fru_id()))
    } else {
        None
    }
}

/// The slave address of a device that is not logical.
fn fru_address(fru: &FruLocator) -> Option<u64>
    ensures { result ≡ fru_address (has_bit 7 (byte_at 8 fru.now)) (byte_at 7 fru.now) }
{
    if fru.is_logical() {
        None
    } else {
        Some(slave_address(fru.fru_id()))
    }
}

/// Tells what a FRU locator tells. `text` is used for the entity.
fn tell_fru<M: Members>(out: &mut M, text: &mut String, fru: &FruLocator) -> Result<(), AllocError>
    ensures { OnOk result (Tells M.told (fru_locator_members fru.now) out.old out.new) }
{
    let access = slave_address(fru.locator().address);
    let own = integer_or_null(fru_address(fru));
    out.put("device_access_address", Value::Integer(access))?;
    out.put("fru_device_id", integer_or_null(fru_id(fru)))?;
    out.put("device_slave_address", own)?;
    out.put("is_logical", Value::Bool(fru.is_logical()))?;
    out.put("access_lun", Value::Integer(u64::from(fru.lun())))?;
    tell_entity(out, text, fru.locator().entity)
}

/// Tells what the locator of a controller tells. `text` is used for the entity.
fn tell_controller<M: Members>(
    out: &mut M,
    text: &mut String,
    locator: &Locator,
) -> Result<(), AllocError>
    ensures { OnOk result (Tells M.told (controller_members locator.now) out.old out.new) }
{
    let address = slave_address(locator.address);
    out.put("device_slave_address", Value::Integer(address))?;
    tell_entity(out, text, locator.entity)
}

/// Tells what a full record tells. `text` is used for its texts.
fn tell_full<M: Members>(
    alloc: Global,
    out: &mut M,
    text: &mut String,
    full: &FullSensor,
    reading: KnownReading,
    status: &'static str,
) -> Result<(), AllocError>
    ensures { OnOk result
        (TellsSome M.told (AreFullMembers full.now reading status.entry.now) out.old out.new) }
{
    let sensor = full.sensor();
    let value = value_shown(full, shown_of(&sensor, reading));
    tell_sensor(out, text, &sensor)?;
    tell_value(out, text, value, full.units())?;
    tell_shown(alloc, out, &sensor, reading, status)?;
    tell_thresholds(out, text, full)
}

/// Tells what a compact record tells. `text` is used for its texts.
fn tell_compact<M: Members>(
    alloc: Global,
    out: &mut M,
    text: &mut String,
    compact: &CompactSensor,
    reading: KnownReading,
    status: &'static str,
) -> Result<(), AllocError>
    ensures { OnOk result
        (TellsSome M.told (AreCompactMembers compact.now reading status.entry.now) out.old out.new) }
{
    let sensor = compact.sensor();
    tell_sensor(out, text, &sensor)?;
    tell_value(out, text, None, compact.units())?;
    tell_shown(alloc, out, &sensor, reading, status)
}

/// Tells the members of a record by its kind. `text` is used for its texts.
fn tell_by_kind<M: Members>(
    alloc: Global,
    out: &mut M,
    text: &mut String,
    view: &SdrView,
    reading: KnownReading,
) -> Result<(), AllocError>
    ensures { OnOk result (TellsSome M.told (AreTold view.now reading) out.old out.new) }
{
    let status = status_of(view, reading);
    match view {
        Full(full) => tell_full(alloc, out, text, full, reading, status),
        Compact(compact) => tell_compact(alloc, out, text, compact, reading, status),
        EventOnly(event_only) => tell_sensor(out, text, &event_only.sensor()),
        Generic(generic) => tell_generic(out, text, &generic.locator(), view.bytes()),
        Fru(fru) => tell_fru(out, text, fru),
        Controller(controller) => tell_controller(out, text, &controller.locator()),
        Other(_) => put_members(out, &[]),
    }
}

/// Tells the members of a record with its id, and with what is known of its sensor's reading. The
/// members are flat: each threshold is a member of the record itself, with a key of its own.
pub fn tell_record<M: Members>(
    alloc: Global,
    out: &mut M,
    id: u16,
    view: &SdrView,
    reading: KnownReading,
) -> Result<(), AllocError>
    ensures { OnOk result (TellsSome M.told (AreRecordMembers id view.now reading) out.old out.new) }
{
    let mut text = String::with_capacity(alloc, TEXT_CAPACITY)?;
    tell_head(out, "sdr_record", id, view.record_type(), kind_word(view))?;
    tell_name(alloc, out, &mut text, view)?;
    tell_by_kind(alloc, out, &mut text, view, reading)?;
    put_raw(alloc, out, view.bytes())
}

/// The line of a record with its id: its object, of the members that `tell_record` tells.
pub fn sdr_record_line(
    alloc: Global,
    id: u16,
    view: &SdrView,
    reading: KnownReading,
    labels: &[Label],
) -> Result<Vec<u8>, AllocError>
    ensures { IfOk result (λ line. IsSdrLine id view.now reading labels.now line.items) }
{
    let mut out = begin(alloc)?;
    tell_record(alloc, &mut out, id, view, reading)?;
    finish(out, labels)
}

/// The type of a record, if it has enough bytes.
fn type_of(bytes: &[u8]) -> Option<u64>
    ensures { result ≡ slice_get bytes.now 3 }
{
    bytes.get(RECORD_TYPE).map(|kind| u64::from(*kind))
}

/// The word for a fault.
fn fault_word(fault: SdrFault) -> &'static str
    ensures { result.now ≡ fault_word fault }
{
    match fault {
        SdrFault::Short => "short",
        SdrFault::Length => "wrong_length",
        SdrFault::BodyShort => "body_too_short",
    }
}

/// Tells the members of a record with a fault, with its id.
pub fn tell_faulty_record<M: Members>(
    alloc: Global,
    out: &mut M,
    id: u16,
    fault: SdrFault,
    bytes: &[u8],
) -> Result<(), AllocError>
    ensures { OnOk result (Tells M.told (fault_members id fault bytes.now) out.old out.new) }
{
    put_members(
        out,
        &[
            ("object", Value::Text("sdr_record")),
            ("record_id", Value::Integer(u64::from(id))),
            ("record_type", integer_or_null(type_of(bytes))),
            ("kind", Value::Text("faulty")),
            ("fault", Value::Text(fault_word(fault))),
        ],
    )?;
    put_raw(alloc, out, bytes)
}

/// The line of a record with a fault: its object, with its bytes.
pub fn sdr_fault_line(
    alloc: Global,
    id: u16,
    fault: SdrFault,
    bytes: &[u8],
    labels: &[Label],
) -> Result<Vec<u8>, AllocError>
    ensures { IfOk result (λ line. IsLineOf (fault_members id fault bytes.now) labels.now line.items) }
{
    let mut out = begin(alloc)?;
    tell_faulty_record(alloc, &mut out, id, fault, bytes)?;
    finish(out, labels)
}

/// Tells the members of a raw record: its id, the id of the next record, and its bytes.
pub fn tell_raw_record<M: Members>(
    alloc: Global,
    out: &mut M,
    id: u16,
    next: u16,
    bytes: &[u8],
) -> Result<(), AllocError>
    ensures { OnOk result (Tells M.told (bytes_members id next bytes.now) out.old out.new) }
{
    put_members(
        out,
        &[
            ("object", Value::Text("sdr_raw")),
            ("record_id", Value::Integer(u64::from(id))),
            ("next_record_id", Value::Integer(u64::from(next))),
        ],
    )?;
    put_raw(alloc, out, bytes)
}

/// The line of a raw record, with the id of the next record: the object of `sdr hex`.
pub fn sdr_raw_line(
    alloc: Global,
    id: u16,
    next: u16,
    bytes: &[u8],
    labels: &[Label],
) -> Result<Vec<u8>, AllocError>
    ensures { IfOk result (λ line. IsLineOf (bytes_members id next bytes.now) labels.now line.items) }
{
    let mut out = begin(alloc)?;
    tell_raw_record(alloc, &mut out, id, next, bytes)?;
    finish(out, labels)
}
