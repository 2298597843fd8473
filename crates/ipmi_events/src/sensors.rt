//! Finds the record of a sensor (IPMI v2.0, section 43).
ghost use Rattle.std.specs.Prelude.{◌≡◌, ℕ, ◌+◌, ◌<◌, ◌≤◌, IfOk, OnOk, option_map};
ghost use Rattle.ipmi_events.specs.Sensors.{count_of, first_record, IsIndex, names, noted, place_in, records_in, row_of, sensor_for, view_of};

use crate::places::{PAGE_PLACES, Places, row_of};
use ipmi_records::{SdrView, Sharing};
use ipmi_text::{SDR_HEADER_LEN, sdr_len};
use std::alloc::{AllocError, Global};
use std::marker::Model;

/// Sensor data records, in order, with an index from sensors to records.
#[derive(Drop)]
pub struct Sensors {
    /// The concatenated records.
    bytes: Vec<u8>,
    /// The offset of each sensor's record. For a sensor without a record it is the end of the bytes, where no record
    /// begins.
    places: Places,
}

impl Model for Sensors {
    ghost use Rattle.std.specs.Prelude.{List, ℕ};
    ghost use Rattle.ipmi_events.specs.Sensors.{IsIndex, records_in};

    ghost Value = { List (List ℕ) };

    ghost view = { λ s. records_in s.bytes.items };

    ghost invariant = { λ s. IsIndex s.bytes.items (records_in s.bytes.items) s.places };
}

/// The record at the start of the bytes, if it is complete.
pub(crate) fn first_record(bytes: &[u8]) -> Option<&[u8]>
    ensures { option_map (λ r. r.now) result ≡ first_record bytes.now }
{
    if bytes.len() < SDR_HEADER_LEN {
        return None;
    }
    bytes.get(..sdr_len(bytes))
}

/// The number of sensors that a record describes. A count of 0 is treated as a record that is not shared.
fn count_of(sharing: Option<Sharing>) -> u8
    ensures { result ≡ count_of sharing }
{
    match sharing {
        None | Some(Sharing { count: 0, .. }) => 1,
        Some(sharing) => sharing.count,
    }
}

/// Notes the place of a record for each of its sensors that has none.
fn note_record(
    places: &mut Places,
    bytes: &[u8],
    place: usize,
    none: usize,
) -> Result<(), AllocError>
    ensures { OnOk result ((owner lun number : ℕ) → owner < 256 → number < 256 →
        place_in places.new (row_of owner lun) number none ≡
        noted (names owner lun number (view_of bytes.now)) place none
        (place_in places.old (row_of owner lun) number none)) }
{
    let Ok(view) = SdrView::read(bytes) else {
        return Ok(());
    };
    let Some(sensor) = view.sensor() else {
        return Ok(());
    };
    let first = usize::from(sensor.number);
    let end = (first + usize::from(count_of(view.sharing()))).min(PAGE_PLACES);
    places.note(row_of(sensor.owner, sensor.lun), first, end, place, none)
}

/// The places of all sensors' records.
fn places_of(alloc: Global, records: &[u8]) -> Result<Places, AllocError>
    ensures { IfOk result (λ places. IsIndex records.now (records_in records.now) places) }
{
    let mut places = Places::new(alloc);
    let mut place = 0;
    'records: while let Some(bytes) = first_record(&records[place..]) {
        note_record(&mut places, bytes, place, records.len())?;
        place += bytes.len();
    }
    Ok(places)
}

impl Sensors {
    /// Builds the index for concatenated sensor data records, each as long as its header says. Bytes at the end that
    /// are not a whole record are ignored. The index takes 2 KiB for each owner and LUN of their sensors.
    pub fn of(alloc: Global, records: Vec<u8>) -> Result<Sensors, AllocError>
        ensures { IfOk result (λ s. s ≡ records_in records.items) }
    {
        let places = places_of(alloc, &records)?;
        Ok(Sensors {
            bytes: records,
            places,
        })
    }

    /// The first record of the sensor with this owner, LUN and number. A record that several sensors share is found
    /// by each of their numbers. Records with a fault are skipped. The time does not depend on the number of records.
    pub fn find(&self, owner: u8, lun: u8, number: u8) -> Option<SdrView<'_>>
        ensures { result ≡ sensor_for owner lun number self.now }
    {
        let place = self.places.get(row_of(owner, lun), number)?;
        let bytes = first_record(self.bytes.get(place..)?)?;
        SdrView::read(bytes).ok()
    }
}
