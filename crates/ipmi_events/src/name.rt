//! The names of sensors, including sensors that share a record, and of FRU devices (IPMI v2.0, section 43).
ghost use Rattle.std.specs.Prelude.{◌≡◌, ◌<◌, ◌++◌, ◌∷◌, [], IfOk, length, MatchOption, OnOk, option_map, string_bytes};
ghost use Rattle.ipmi_records.specs.Prelude.{sensor_of, sharing_of};
ghost use Rattle.ipmi_events.specs.Name.{device_name, letter, letters, locator_for, modifier_text, sensor_name, space_after, suffix_of, suffix_text};
ghost use Rattle.ipmi_events.specs.Sensors.{records_in};

use crate::sensors::first_record;
use ipmi_records::{Modifier, SdrView, push_name};
use std::alloc::{AllocError, Global};

/// The number of letters.
const LETTERS: u16 = 26;

/// The letter with this number, counted from 0.
fn letter(n: u16) -> u8
    requires { n < 26 }
    ensures value { result ≡ letter n }
    ensures ascii { result < 128 }
{
    b'A' + n as u8
}

/// Appends a number in letters: `A` to `Z`, then `AA`, `AB` and so on.
fn push_letters(text: &mut String, n: u16) -> Result<(), AllocError>
    requires { n < 702 }
    ensures { OnOk result (string_bytes text.new ≡ string_bytes text.old ++ letters n) }
{
    if n >= LETTERS {
        text.push(letter(n / LETTERS - 1) as char)?;
    }
    text.push(letter(n % LETTERS) as char)
}

/// Appends a space, unless the text ends with one.
fn push_space(text: &mut String) -> Result<(), AllocError>
    ensures { OnOk result
        (string_bytes text.new ≡ string_bytes text.old ++ space_after (string_bytes text.old)) }
{
    if text.as_bytes().ends_with(b" ") {
        return Ok(());
    }
    text.push_str(" ")
}

/// Appends a number in the form of a modifier, after a space. Appends nothing if the modifier is reserved.
fn push_modifier(text: &mut String, modifier: Modifier, n: u16) -> Result<(), AllocError>
    requires { n < 702 }
    ensures { OnOk result (string_bytes text.new ≡ string_bytes text.old
        ++ suffix_text (string_bytes text.old) (modifier_text modifier n)) }
{
    match modifier {
        Modifier::Numeric => {
            push_space(text)?;
            write!(text, "{n}")
        }
        Modifier::Alpha => {
            push_space(text)?;
            push_letters(text, n)
        }
        Modifier::Reserved => Ok(()),
    }
}

/// Appends the suffix that distinguishes the sensor with this number from the others that share its record, after a
/// space.
fn push_suffix(text: &mut String, view: &SdrView, number: u8) -> Result<(), AllocError>
    ensures { OnOk result (string_bytes text.new ≡ string_bytes text.old
        ++ suffix_text (string_bytes text.old)
        (suffix_of (sensor_of view.now) (sharing_of view.now) number)) }
{
    let Some(sensor) = view.sensor() else {
        return Ok(());
    };
    match view.sharing() {
        Some(sharing) if sharing.count > 1 => {
            let place = number.saturating_sub(sensor.number);
            let n = u16::from(sharing.offset) + u16::from(place);
            push_modifier(text, sharing.modifier, n)
        }
        _ => Ok(()),
    }
}

/// Appends the name of the sensor with this number, from its record: the record's name, and if several sensors share
/// the record, a space and a number or letters, such as `Temp 5`. A name that ends with a space gets no second. Appends
/// nothing if the record has no name.
pub fn push_sensor_name(
    alloc: Global,
    text: &mut String,
    view: &SdrView,
    number: u8,
) -> Result<(), AllocError>
    ensures { OnOk result
        (string_bytes text.new ≡ string_bytes text.old ++ sensor_name view.now number) }
{
    let start = text.as_bytes().len();
    push_name(alloc, text, view)?;
    if text.as_bytes().len() == start {
        return Ok(());
    }
    push_suffix(text, view, number)
}

/// The view of a record, if it is a locator of this FRU device.
fn locator_in(bytes: &[u8], id: u8) -> Option<SdrView<'_>>
    ensures { result ≡ locator_for id (bytes.now ∷ []) }
{
    let view = SdrView::read(bytes).ok()?;
    if view.fru_of() == Some(id) {
        Some(view)
    } else {
        None
    }
}

/// The first of these concatenated sensor data records, each as long as its header says, and the bytes after it. None if
/// no whole record is left.
pub fn split_record(records: &[u8]) -> Option<(&[u8], &[u8])>
    ensures { MatchOption result (records_in records.now ≡ []) (λ split.
        (records_in records.now ≡ split.0.now ∷ records_in split.1.now) × (length split.1.now < length records.now)) }
{
    let first = first_record(records)?;
    Some((first, &records[first.len()..]))
}

/// The first of these concatenated records that is a locator of this FRU device.
fn locator_for(records: &[u8], id: u8) -> Option<SdrView<'_>>
    ensures { result ≡ locator_for id (records_in records.now) }
{
    let mut rest = records;
    'records: while let Some((bytes, after)) = split_record(rest) {
        if let Some(locator) = locator_in(bytes, id) {
            return Some(locator);
        }
        rest = after;
    }
    None
}

/// The name of a FRU device of the controller: that of its first locator among these concatenated sensor data records,
/// each as long as its header says. None without a locator. Records with a fault are skipped, and bytes at the end that
/// are not a whole record are ignored.
pub fn device_name(alloc: Global, records: &[u8], id: u8) -> Result<Option<String>, AllocError>
    ensures { IfOk result (λ name.
        option_map (λ text. string_bytes text) name ≡ device_name id (records_in records.now)) }
{
    let Some(locator) = locator_for(records, id) else {
        return Ok(None);
    };
    let mut name = String::new(alloc);
    push_name(alloc, &mut name, &locator)?;
    Ok(Some(name))
}
