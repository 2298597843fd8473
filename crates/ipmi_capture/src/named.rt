//! The sensors and devices that the sensor data records of an image name. They are read next.
ghost use Rattle.std.specs.Prelude.{◌≡◌, ◌<◌, ◌==◌, ◌||◌, false, slice_index_or, IfOk, IfSome, Ok, length, option_map, vec_len};
ghost use Rattle.ipmi_capture.specs.Capture.{device_named, sensor_named};
ghost use Rattle.ipmi_capture.specs.Named.{IsSensorKey, marked, Names, sensor_place};
ghost use Rattle.ipmi_capture.specs.Below.{sdr_view_of};

use ipmi_bus::Shelf;
use ipmi_image::ImageBuilder;
use ipmi_records::SdrView;
use std::alloc::{AllocError, Global};

/// The number of possible sensors: 256 at each of four LUNs.
pub(crate) const SENSOR_PLACES: u16 = 1024;

/// The number of possible device ids.
const DEVICE_PLACES: u16 = 256;

/// Sensors and devices, each marked at its index. The index of a sensor is its LUN times 256 plus its number, that of a
/// device is its id.
#[derive(Drop)]
pub(crate) struct Named {
    pub(crate) sensors: Vec<bool>,
    pub(crate) devices: Vec<bool>,
    ghost sensor_places: { vec_len sensors ≡ 1024 },
    ghost device_places: { vec_len devices ≡ 256 },
}

/// Marks the index, if there is one.
fn mark(marks: &mut [bool], place: Option<usize>)
    requires { IfSome place (λ p. p < length marks.old) }
    ensures { marks.new ≡ marked marks.old place }
{
    if let Some(place) = place {
        marks[place] = true;
    }
}

/// The index of the sensor that a record names.
fn place_of_sensor(view: &SdrView<'_>) -> Option<usize>
    ensures is { result ≡ option_map sensor_place (sensor_named (Ok view.now)) }
    ensures fits { IfSome (sensor_named (Ok view.now)) IsSensorKey }
{
    let (lun, number) = view.reading_of()?;
    Some(usize::from(lun) * 256 + usize::from(number))
}

impl Named {
    /// Marks the sensor and the device that the record names.
    fn add(&mut self, bytes: &[u8])
        ensures sensors { self.new.sensors.items ≡ marked self.old.sensors.items
            (option_map sensor_place (sensor_named (sdr_view_of bytes.now))) }
        ensures fits { IfSome (sensor_named (sdr_view_of bytes.now)) IsSensorKey }
        ensures devices { self.new.devices.items ≡ marked self.old.devices.items
            (device_named (sdr_view_of bytes.now)) }
        ensures fits_device { IfSome (device_named (sdr_view_of bytes.now)) (λ id. id < 256) }
    {
        let Ok(view) = SdrView::read(bytes) else {
            return;
        };
        mark(&mut self.sensors, place_of_sensor(&view));
        mark(&mut self.devices, view.fru_of().map(usize::from));
    }

    /// Whether the sensor at this index is named.
    pub(crate) fn has_sensor(&self, place: u16) -> bool
        requires { place < 1024 }
        ensures { result ≡ slice_index_or self.now.sensors.items place false }
    {
        self.sensors[usize::from(place)]
    }

    /// Whether the device is named, or is device 0.
    pub(crate) fn has_device(&self, id: u8) -> bool
        ensures { result ≡ ((id == 0) || slice_index_or self.now.devices.items id false) }
    {
        id == 0 || self.devices[usize::from(id)]
    }

    /// The sensors and devices that the sensor data records of the image name.
    pub(crate) fn of(alloc: Global, image: &ImageBuilder) -> Result<Named, AllocError>
        ensures { IfOk result (λ named. Names image.now.sdr named.sensors.items named.devices.items) }
    {
        let mut named = Named {
            sensors: vec![in alloc; false; usize::from(SENSOR_PLACES)]?,
            devices: vec![in alloc; false; usize::from(DEVICE_PLACES)]?,
        };
        let mut place = 0;
        'records: while let Some(bytes) = image.record_bytes(Shelf::Sdr, place) {
            named.add(bytes);
            place += 1;
        }
        Ok(named)
    }
}
