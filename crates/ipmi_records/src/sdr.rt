//! Sensor data records as views that borrow their bytes (IPMI v2.0, section 43).
ghost use Rattle.std.specs.Prelude.{◌≡◌, ◌≤◌, IfOk, length, option_map, string_bytes};
ghost use Rattle.ipmi_records.specs.Prelude.{byte_at, fru_of, id_field_of, id_string_of, key_of, least_len, locator_of, name_of, number_at, reading_of, record_bytes, record_type, sdr_view_by_type, sdr_view_of, sensor_of, sharing_of};

use crate::at_least::AtLeast;
use crate::compact::{COMPACT_LEAST_LEN, COMPACT_TYPE, CompactSensor};
use crate::event_only::{EVENT_ONLY_LEAST_LEN, EVENT_ONLY_TYPE, EventOnlySensor};
use crate::full::{FULL_LEAST_LEN, FULL_TYPE, FullSensor};
use crate::id_string::IdString;
use crate::locator::{
    CONTROLLER_TYPE, FRU_TYPE, FruLocator, GENERIC_TYPE, GenericLocator, LOCATOR_LEAST_LEN,
    Locator, ManagementControllerLocator,
};
use crate::sdr::SdrView::{Compact, Controller, EventOnly, Fru, Full, Generic, Other};
use crate::sensor::Sensor;
use crate::sharing::Sharing;
use byteorder::{ByteOrder, LittleEndian};
use ipmi_text::{SDR_HEADER_LEN, sdr_len, sdr_text};
use std::alloc::{AllocError, Global};
use thiserror::Error;

/// The address of the controller that holds the records.
pub(crate) const OWN_ADDRESS: u8 = 0x20;

/// The offset of the version of the record's format, counted from 0.
const VERSION: usize = 2;

/// The offset of the record type.
const RECORD_TYPE: usize = 3;

/// The offset of the record length, the number of bytes after the header.
const RECORD_LENGTH: usize = 4;

/// The lowest of the types without a view of their own.
const OTHER_TYPE: u8 = 0x00;

/// Why bytes are not a sensor data record. The first fault that applies, in this order, is reported.
#[derive(Clone, Copy, Debug, PartialEq, Eq, Error)]
pub enum SdrFault {
    /// Fewer than the five bytes of a header.
    #[error("fewer bytes than a header has")]
    Short,
    /// More or fewer bytes than the header says.
    #[error("more or fewer bytes than the header says")]
    Length,
    /// Fewer bytes than the minimum for the record's type.
    #[error("fewer bytes than a record of its type has")]
    BodyShort,
}

/// A record of another type, which has no view of its own.
pub type OtherRecord<'a> = AtLeast<'a, OTHER_TYPE, SDR_HEADER_LEN>;

/// A sensor data record, by its type.
#[derive(Debug, Drop)]
pub enum SdrView<'a> {
    /// Type 01h.
    Full(FullSensor<'a>),
    /// Type 02h.
    Compact(CompactSensor<'a>),
    /// Type 03h.
    EventOnly(EventOnlySensor<'a>),
    /// Type 10h.
    Generic(GenericLocator<'a>),
    /// Type 11h.
    Fru(FruLocator<'a>),
    /// Type 12h.
    Controller(ManagementControllerLocator<'a>),
    /// Any other type.
    Other(OtherRecord<'a>),
}

/// The minimum length of a record of this type.
fn least_len(kind: u8) -> usize
    ensures { result ≡ least_len kind }
{
    match kind {
        FULL_TYPE => FULL_LEAST_LEN,
        COMPACT_TYPE => COMPACT_LEAST_LEN,
        EVENT_ONLY_TYPE => EVENT_ONLY_LEAST_LEN,
        GENERIC_TYPE | FRU_TYPE | CONTROLLER_TYPE => LOCATOR_LEAST_LEN,
        _ => SDR_HEADER_LEN,
    }
}

impl<'a> SdrView<'a> {
    /// The view of a record that is long enough for its type.
    fn of_type(kind: u8, bytes: &'a [u8]) -> SdrView<'a>
        requires { least_len kind ≤ length bytes.now }
        ensures { result ≡ sdr_view_by_type kind bytes.now }
    {
        match kind {
            FULL_TYPE => Full(FullSensor::new(bytes)),
            COMPACT_TYPE => Compact(CompactSensor::new(bytes)),
            EVENT_ONLY_TYPE => EventOnly(EventOnlySensor::new(bytes)),
            GENERIC_TYPE => Generic(GenericLocator::new(bytes)),
            FRU_TYPE => Fru(FruLocator::new(bytes)),
            CONTROLLER_TYPE => Controller(ManagementControllerLocator::new(bytes)),
            _ => Other(OtherRecord::new(bytes)),
        }
    }

    /// Reads bytes as a record, or returns their first fault. The version byte is not checked.
    pub fn read(bytes: &'a [u8]) -> Result<SdrView<'a>, SdrFault>
        ensures { result ≡ sdr_view_of bytes.now }
    {
        if bytes.len() < SDR_HEADER_LEN {
            return Err(SdrFault::Short);
        }
        if bytes.len() != sdr_len(bytes) {
            return Err(SdrFault::Length);
        }
        let kind = bytes[RECORD_TYPE];
        if bytes.len() < least_len(kind) {
            return Err(SdrFault::BodyShort);
        }
        Ok(SdrView::of_type(kind, bytes))
    }

    /// The bytes of the record.
    pub fn bytes(&self) -> &'a [u8]
        ensures value { result.now ≡ record_bytes self.now }
        ensures header { 5 ≤ length result.now }
    {
        match self {
            Full(view) => view.bytes(),
            Compact(view) => view.bytes(),
            EventOnly(view) => view.bytes(),
            Generic(view) => view.bytes(),
            Fru(view) => view.bytes(),
            Controller(view) => view.bytes(),
            Other(view) => view.bytes(),
        }
    }

    /// The record id in the header.
    pub fn id(&self) -> u16
        ensures { result ≡ number_at 1 2 (record_bytes self.now) }
    {
        LittleEndian::read_u16(self.bytes())
    }

    /// The version of the record's format, 51h in IPMI v2.0.
    pub fn version(&self) -> u8
        ensures { result ≡ byte_at 3 (record_bytes self.now) }
    {
        self.bytes()[VERSION]
    }

    /// The type of the record.
    pub fn record_type(&self) -> u8
        ensures { result ≡ record_type (record_bytes self.now) }
    {
        self.bytes()[RECORD_TYPE]
    }

    /// The number of bytes after the header.
    pub fn body_len(&self) -> u8
        ensures { result ≡ byte_at 5 (record_bytes self.now) }
    {
        self.bytes()[RECORD_LENGTH]
    }

    /// The sensor that the record describes. None for a record that is not a sensor's.
    pub fn sensor(&self) -> Option<Sensor>
        ensures { result ≡ sensor_of self.now }
    {
        match self {
            Full(view) => Some(view.sensor()),
            Compact(view) => Some(view.sensor()),
            EventOnly(view) => Some(view.sensor()),
            Generic(_) | Fru(_) | Controller(_) | Other(_) => None,
        }
    }

    /// How sensors share the record. Only compact and event-only records can be shared; None for the others.
    pub fn sharing(&self) -> Option<Sharing>
        ensures { result ≡ sharing_of self.now }
    {
        match self {
            Compact(view) => Some(view.sharing()),
            EventOnly(view) => Some(view.sharing()),
            Full(_) | Generic(_) | Fru(_) | Controller(_) | Other(_) => None,
        }
    }

    /// The device that the record describes. None for a record that is not a locator.
    pub fn locator(&self) -> Option<Locator>
        ensures { result ≡ locator_of self.now }
    {
        match self {
            Generic(view) => Some(view.locator()),
            Fru(view) => Some(view.locator()),
            Controller(view) => Some(view.locator()),
            Full(_) | Compact(_) | EventOnly(_) | Other(_) => None,
        }
    }

    /// The ID string. None for a record of a type without a view of its own.
    pub fn id_string(&self) -> Option<IdString<'a>>
        ensures { option_map id_field_of result ≡ id_string_of self.now }
    {
        match self {
            Full(view) => Some(view.id_string()),
            Compact(view) => Some(view.id_string()),
            EventOnly(view) => Some(view.id_string()),
            Generic(view) => Some(view.id_string()),
            Fru(view) => Some(view.id_string()),
            Controller(view) => Some(view.id_string()),
            Other(_) => None,
        }
    }

    /// The name of the record, from its ID string. None for a record of a type without a view of its own.
    pub fn name(&self, alloc: Global) -> Result<Option<String>, AllocError>
        ensures { IfOk result (λ name. option_map (λ text. string_bytes text) name ≡ name_of
            self.now) }
    {
        match self.id_string() {
            Some(id) => Ok(Some(sdr_text(alloc, id.type_length, id.rest)?)),
            None => Ok(None),
        }
    }

    /// The LUN and the sensor number for Get Sensor Reading. Only a full or a compact record has them, and only if
    /// the controller that holds the record owns the sensor (20h).
    pub fn reading_of(&self) -> Option<(u8, u8)>
        ensures { result ≡ reading_of self.now }
    {
        match self {
            Full(view) => key_of(&view.sensor()),
            Compact(view) => key_of(&view.sensor()),
            EventOnly(_) | Generic(_) | Fru(_) | Controller(_) | Other(_) => None,
        }
    }

    /// The FRU device id for reading the inventory. Only a FRU locator has it, and only if its device is logical, at
    /// the controller's own address (20h) and at LUN 0.
    pub fn fru_of(&self) -> Option<u8>
        ensures { result ≡ fru_of self.now }
    {
        match self {
            Fru(view) => view.fru_of(),
            Full(_) | Compact(_) | EventOnly(_) | Generic(_) | Controller(_) | Other(_) => None,
        }
    }
}

/// The LUN and the number of a sensor, if the controller itself owns it.
fn key_of(sensor: &Sensor) -> Option<(u8, u8)>
    ensures { result ≡ key_of sensor.now }
{
    if sensor.owner == OWN_ADDRESS {
        Some((sensor.lun, sensor.number))
    } else {
        None
    }
}
