//! A form of output over an image that lacks readings.
ghost use Rattle.std.specs.Prelude.{◌≡◌};
ghost use Rattle.std.specs.List.{list_any};
ghost use Rattle.ipmi_program.specs.WithLacks.{captured, is_reading, lacks_reading, OthersStay};

use ipmi_bus::{Record, Shelf};
use ipmi_commands::Format;
use ipmi_events::Sensors;
use ipmi_image::{Item, Lack, LineBuffer};
use ipmi_records::{KnownReading, SdrFault, SdrView, SelView};
use ipmi_selection::Detail;
use std::alloc::{AllocError, Global};

/// A form of output over an image that lacks these items. A reading among them is printed as not captured; else the texts are those
/// of `format`.
#[derive(Clone, Copy, Debug)]
pub struct WithLacks<'a, F: Format> {
    /// The form of output.
    pub format: F,
    /// What the image lacks.
    pub lacks: &'a [Lack],
}

/// Whether the item is the reading of the sensor with this LUN and number.
fn is_reading(key: (u8, u8), lack: &Lack) -> bool
    ensures { result ≡ is_reading key lack.now }
{
    match lack.item {
        Item::Reading { lun, number } => lun == key.0 && number == key.1,
        _ => false,
    }
}

/// Whether the reading of the sensor with this LUN and number is among these.
fn has_reading(lacks: &[Lack], key: (u8, u8)) -> bool
    ensures { result ≡ list_any (is_reading key) lacks.now }
{
    lacks.iter().any(|lack| is_reading(key, lack))
}

/// Whether the reading of a sensor is lacking, if there is one.
fn lacks_reading(lacks: &[Lack], key: Option<(u8, u8)>) -> bool
    ensures { result ≡ lacks_reading lacks.now key }
{
    match key {
        Some(key) => has_reading(lacks, key),
        None => false,
    }
}

/// What is known of the reading of the sensor that a record names, given what the image lacks.
pub fn captured(lacks: &[Lack], view: &SdrView<'_>, reading: KnownReading) -> KnownReading
    ensures { result ≡ captured lacks.now view.now reading }
{
    if reading == KnownReading::Absent && lacks_reading(lacks, view.reading_of()) {
        return KnownReading::NotCaptured;
    }
    reading
}

/// A law: a reading that is not lacking is printed as it is. Does nothing.
#[tactic(auto, using(crate::proofs::LackLemmas::as_it_is))]
pub fn others_stay()
    ensures { OthersStay }
{}

impl<F: Format> Format for WithLacks<'_, F> {
    ghost use Rattle.ipmi_program.specs.WithLacks.{with_lacks};

    ghost texts = { λ own. with_lacks own.lacks.now (F.texts own.format) };

    fn has_names(&self, detail: Detail) -> bool {
        self.format.has_names(detail)
    }

    #[inline(always)]
    fn record(
        &self,
        alloc: Global,
        detail: Detail,
        id: u16,
        view: &SdrView<'_>,
        reading: KnownReading,
    ) -> Result<Vec<u8>, AllocError> {
        let reading = captured(self.lacks, view, reading);
        self.format.record(alloc, detail, id, view, reading)
    }

    fn fault(
        &self,
        alloc: Global,
        id: u16,
        fault: SdrFault,
        bytes: &[u8],
    ) -> Result<Vec<u8>, AllocError> {
        self.format.fault(alloc, id, fault, bytes)
    }

    #[inline(always)]
    fn hex(
        &self,
        alloc: Global,
        lent: &Record<'_>,
        line: &mut LineBuffer,
    ) -> Result<Option<Vec<u8>>, AllocError> {
        self.format.hex(alloc, lent, line)
    }

    #[inline(always)]
    fn entry(
        &self,
        alloc: Global,
        detail: Detail,
        id: u16,
        entry: &SelView<'_>,
        sensors: Option<&Sensors>,
    ) -> Result<Vec<u8>, AllocError> {
        self.format.entry(alloc, detail, id, entry, sensors)
    }

    fn info(&self, alloc: Global, shelf: Shelf, info: &[u8; 14]) -> Result<Vec<u8>, AllocError> {
        self.format.info(alloc, shelf, info)
    }

    fn device(
        &self,
        alloc: Global,
        detail: Detail,
        id: u8,
        name: Option<&str>,
        inventory: Option<&[u8]>,
    ) -> Result<Vec<u8>, AllocError> {
        self.format.device(alloc, detail, id, name, inventory)
    }

    fn names_fault(&self, detail: Detail, inventory: &[u8]) -> bool {
        self.format.names_fault(detail, inventory)
    }

    fn elsewhere(&self, alloc: Global, name: &str) -> Result<Vec<u8>, AllocError> {
        self.format.elsewhere(alloc, name)
    }

    fn one_text(&self) {
        self.format.one_text();
    }
}
