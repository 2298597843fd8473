//! The lines of multirecords.
ghost use Rattle.std.specs.Prelude.{◌≡◌, ◌%◌, ◌≤◌, ◌+◌, ◌++◌, IfOk, OnOk, length, nat_le, string_bytes};
ghost use Rattle.ipmi_text.specs.Appended.{Appends};
ghost use Rattle.byteorder.specs.Endian.{little_from, twos_complement};
ghost use Rattle.ipmi_fru.specs.Prelude.{item_of, items_left, record_of, IsVoltsAt, volts_at, dc_fields, current_text, dc_start, before_low, before_high, standby_text, IsDcText, access_text, access_line, other_line, form_of, IsTextInForm, IsItemText, AreItemTexts};

use crate::area_text::push_line;
use crate::multirecord::{MultiFault, MultiView, Records};
use byteorder::{ByteOrder, LittleEndian};
use ipmi_text::{ENGLISH, Fixed, HexByte, fru_text, push_fixed};
use std::alloc::{AllocError, Global};

/// 10 mV, the unit of the voltages in a record, as a `Fixed`.
const TEN_MILLIVOLTS: i128 = 100_000_000_000_000;

/// The type code of a binary field.
const BINARY: u8 = 0;

/// The type code of a field whose encoding depends on the language: Latin-1 for English.
const BY_LANGUAGE: u8 = 3;

/// The type of a DC output record.
const DC_OUTPUT: u8 = 1;

/// The type of a DC load record.
const DC_LOAD: u8 = 2;

/// The type of a management access record.
const MANAGEMENT_ACCESS: u8 = 3;

/// The minimum number of data bytes of a DC output and of a DC load.
const DC_LEN: usize = 13;

/// The offset of the number of the output or the load in the data of a DC record, counted from 0.
const NUMBER: usize = 0;

/// The offset of the nominal voltage.
const NOMINAL_VOLTAGE: usize = 1;

/// The offset of the negative deviation of an output, or of the minimum voltage of a load.
const LOW_VOLTAGE: usize = 3;

/// The offset of the positive deviation of an output, or of the maximum voltage of a load.
const HIGH_VOLTAGE: usize = 5;

/// The offset of the ripple.
const RIPPLE: usize = 7;

/// The offset of the minimum current.
const LEAST_CURRENT: usize = 9;

/// The offset of the maximum current.
const GREATEST_CURRENT: usize = 11;

/// Bit 7 of the first data byte of a DC output: it is a standby output.
const STANDBY: u8 = 0x80;

/// Bits 3:0 of the first data byte of a DC record: the number of the output or the load.
const NUMBER_BITS: u8 = 0x0F;

/// The first subtype of a management access record whose data is text.
const FIRST_TEXT: u8 = 0x01;

/// The last subtype of a management access record whose data is text.
const LAST_TEXT: u8 = 0x06;

/// The kind of a DC record.
#[derive(Clone, Copy, Debug, PartialEq, Eq)]
pub enum DcKind {
    /// A DC output.
    Output,
    /// A DC load.
    Load,
}

/// The form in which a record is printed.
#[derive(Clone, Copy, Debug, PartialEq, Eq)]
pub enum RecordForm {
    /// A DC output or a DC load.
    Dc(DcKind),
    /// A management access record.
    Access,
    /// A record of another type, or with too few data bytes.
    Other,
}

/// The number in the two data bytes at `place`.
fn number_at(bytes: &[u8], place: usize) -> u16
    requires { place + 2 ≤ length bytes.now }
    ensures { result ≡ little_from place 2 bytes.now }
{
    LittleEndian::read_u16(&bytes[place..])
}

/// The signed number in the two data bytes at `place`.
fn signed_at(bytes: &[u8], place: usize) -> i16
    requires { place + 2 ≤ length bytes.now }
    ensures { result ≡ twos_complement 2 (little_from place 2 bytes.now) }
{
    number_at(bytes, place).cast_signed()
}

/// The values of a DC output or a DC load (sections 18.2 and 18.3), with voltages in volts.
#[derive(Clone, Copy, Debug, PartialEq, Eq)]
pub struct DcFields {
    /// The number of the output or the load, 4 bits.
    pub number: u8,
    /// Bit 7 of the byte with the number: the output is a standby output.
    pub standby: bool,
    /// The nominal voltage.
    pub nominal: Fixed,
    /// The negative deviation of an output, or the minimum voltage of a load.
    pub low: Fixed,
    /// The positive deviation of an output, or the maximum voltage of a load.
    pub high: Fixed,
    /// The ripple in millivolts.
    pub ripple: u16,
    /// The minimum current in milliamperes.
    pub least_current: u16,
    /// The maximum current in milliamperes.
    pub greatest_current: u16,
}

impl DcFields {
    /// The values in the data of such a record.
    pub fn of(bytes: &[u8]) -> DcFields
        requires { 13 ≤ length bytes.now }
        ensures { result ≡ dc_fields bytes.now }
    {
        DcFields {
            number: number_of(bytes[NUMBER]),
            standby: is_standby(bytes[NUMBER]),
            nominal: volts_at(bytes, NOMINAL_VOLTAGE),
            low: volts_at(bytes, LOW_VOLTAGE),
            high: volts_at(bytes, HIGH_VOLTAGE),
            ripple: number_at(bytes, RIPPLE),
            least_current: number_at(bytes, LEAST_CURRENT),
            greatest_current: number_at(bytes, GREATEST_CURRENT),
        }
    }
}

/// The volts in the two data bytes at an offset.
fn volts_at(bytes: &[u8], place: usize) -> Fixed
    requires { place + 2 ≤ length bytes.now }
    ensures { result ≡ volts_at place bytes.now }
{
    Fixed(i128::from(signed_at(bytes, place)) * TEN_MILLIVOLTS)
}

/// Appends the volts in the two data bytes at an offset.
fn push_volts(text: &mut String, bytes: &[u8], place: usize) -> Result<(), AllocError>
    requires { place + 2 ≤ length bytes.now }
    ensures { OnOk result (Appends (IsVoltsAt place bytes.now) (string_bytes text.old)
        (string_bytes text.new)) }
{
    push_fixed(text, volts_at(bytes, place))
}

/// Appends the ripple and the currents of an output or a load.
fn push_current(text: &mut String, bytes: &[u8]) -> Result<(), AllocError>
    requires { 13 ≤ length bytes.now }
    ensures { OnOk result (string_bytes text.new ≡ string_bytes text.old ++ current_text bytes.now) }
{
    let ripple = number_at(bytes, RIPPLE);
    let least = number_at(bytes, LEAST_CURRENT);
    let most = number_at(bytes, GREATEST_CURRENT);
    write!(text, "ripple {ripple} mV, current {least} to {most} mA\n")
}

/// The words in the line of a DC record.
struct DcWords {
    start: &'static str,
    before_low: &'static str,
    before_high: &'static str,
}

/// The words of the line of an output or a load.
fn words_of(kind: DcKind) -> DcWords
    ensures start { result.start.now ≡ dc_start kind }
    ensures low { result.before_low.now ≡ before_low kind }
    ensures high { result.before_high.now ≡ before_high kind }
{
    match kind {
        DcKind::Output => DcWords {
            start: "DC Output ",
            before_low: " V, negative deviation ",
            before_high: " V, positive deviation ",
        },
        DcKind::Load => DcWords {
            start: "DC Load ",
            before_low: " V, ",
            before_high: " to ",
        },
    }
}

/// The number of an output or a load, from the first data byte of its record.
fn number_of(byte: u8) -> u8
    ensures { result ≡ byte % 16 }
{
    byte & NUMBER_BITS
}

/// Bit 7 of that byte.
fn is_standby(byte: u8) -> bool
    ensures { result ≡ nat_le 128 byte }
{
    byte & STANDBY != 0
}

/// ` standby` for a standby output, otherwise nothing. `byte` is the byte with the output's number.
fn standby_text(kind: DcKind, byte: u8) -> &'static str
    ensures { result.now ≡ standby_text kind byte }
{
    match kind {
        DcKind::Output if is_standby(byte) => " standby",
        DcKind::Output | DcKind::Load => "",
    }
}

/// Appends the line of a DC output or a DC load.
fn push_dc(text: &mut String, kind: DcKind, bytes: &[u8]) -> Result<(), AllocError>
    requires { 13 ≤ length bytes.now }
    ensures { OnOk result (Appends (IsDcText kind bytes.now) (string_bytes text.old)
        (string_bytes text.new)) }
{
    let DcWords {
        start,
        before_low,
        before_high,
    } = words_of(kind);
    let number = number_of(bytes[NUMBER]);
    let standby = standby_text(kind, bytes[NUMBER]);
    write!(text, "{start}{number}{standby}: nominal ")?;
    push_volts(text, bytes, NOMINAL_VOLTAGE)?;
    text.push_str(before_low)?;
    push_volts(text, bytes, LOW_VOLTAGE)?;
    text.push_str(before_high)?;
    push_volts(text, bytes, HIGH_VOLTAGE)?;
    text.push_str(" V, ")?;
    push_current(text, bytes)
}

/// The data of a management access record after the first byte, which is its subtype. The subtype decides whether the data
/// is text or is printed in hex.
pub fn access_text(alloc: Global, bytes: &[u8]) -> Result<String, AllocError>
    requires { 1 ≤ length bytes.now }
    ensures { IfOk result (λ text. string_bytes text ≡ access_text bytes.now) }
{
    let subtype = bytes[0];
    if (FIRST_TEXT..=LAST_TEXT).contains(&subtype) {
        return fru_text(alloc, BY_LANGUAGE, ENGLISH, &bytes[1..]);
    }
    fru_text(alloc, BINARY, ENGLISH, &bytes[1..])
}

/// Appends the line of a management access record.
fn push_access(alloc: Global, text: &mut String, bytes: &[u8]) -> Result<(), AllocError>
    requires { 1 ≤ length bytes.now }
    ensures { OnOk result (string_bytes text.new ≡ string_bytes text.old ++ access_line bytes.now) }
{
    let subtype = HexByte(bytes[0]);
    let value = access_text(alloc, bytes)?;
    write!(text, "Management Access 0x{subtype}: {value}\n")
}

/// Appends the line of a record that is printed in hex.
fn push_other(alloc: Global, text: &mut String, view: &MultiView) -> Result<(), AllocError>
    ensures { OnOk result (string_bytes text.new ≡ string_bytes text.old ++ other_line
        (record_of view.now)) }
{
    let kind = HexByte(view.kind);
    let data = hex::encode(alloc, view.bytes)?;
    write!(text, "Record 0x{kind}: {data}\n")
}

/// The form in which a record is printed, by its type and the number of its data bytes: a DC output or a DC load has at
/// least 13, a management access record at least one.
pub fn form_of(view: &MultiView) -> RecordForm
    ensures { result ≡ form_of (record_of view.now) }
{
    let len = view.bytes.len();
    match view.kind {
        DC_OUTPUT if len >= DC_LEN => RecordForm::Dc(DcKind::Output),
        DC_LOAD if len >= DC_LEN => RecordForm::Dc(DcKind::Load),
        MANAGEMENT_ACCESS if len >= 1 => RecordForm::Access,
        _ => RecordForm::Other,
    }
}

/// Appends the line of a record, in the form in which it is printed.
fn push_record(alloc: Global, text: &mut String, view: &MultiView) -> Result<(), AllocError>
    ensures { OnOk result (Appends (IsTextInForm (form_of (record_of view.now)) (record_of view.now))
        (string_bytes text.old) (string_bytes text.new)) }
{
    match form_of(view) {
        RecordForm::Dc(kind) => push_dc(text, kind, view.bytes),
        RecordForm::Access => push_access(alloc, text, view.bytes),
        RecordForm::Other => push_other(alloc, text, view),
    }
}

/// Appends the line of a record, or of the fault after the last record.
fn push_item(
    alloc: Global,
    text: &mut String,
    item: &Result<MultiView, MultiFault>,
) -> Result<(), AllocError>
    ensures { OnOk result (Appends (IsItemText (item_of item.now)) (string_bytes text.old)
        (string_bytes text.new)) }
{
    match item {
        Ok(view) => push_record(alloc, text, view),
        Err(fault) => push_line(text, "Record fault", fault.name()),
    }
}

/// Appends the lines of the records, and of the fault that ends them, if there is one.
pub(crate) fn push_records(
    alloc: Global,
    text: &mut String,
    records: Records,
) -> Result<(), AllocError>
    ensures { OnOk result (Appends (AreItemTexts (items_left records.entry)) (string_bytes text.old)
        (string_bytes text.new)) }
{
    'records: for item in records {
        push_item(alloc, text, &item)?;
    }
    Ok(())
}
