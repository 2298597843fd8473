//! The samples of all families, gathered from one sensor after another.
ghost use Rattle.std.specs.Prelude.{◌≡◌, [], OnOk, option_map};
ghost use Rattle.ipmi_text.specs.Texts.{AreTexts};
ghost use Rattle.ipmi_metrics.specs.Gathered.{Adds, AddsMeasured, AddsTo, IsEmpty, measured_in, samples_in};
ghost use Rattle.ipmi_metrics.specs.Metrics.{AreSamples};
ghost use Rattle.ipmi_metrics.specs.Samples.{AreSamplesOfSensor, AreSamplesOfView};

use crate::families::{FAMILIES, Family};
use crate::labels::{push_type_part, set_labels};
use crate::measure::Measure;
use crate::samples::{push_info, push_state, push_thresholds, push_value, value_of};
use ipmi_events::{Severity, sensor_severity};
use ipmi_records::{KnownReading, SdrView, Sensor, shown_of};
use ipmi_sensors::FoundSensor;
use ipmi_text::Fixed;
use std::alloc::{AllocError, Global};

/// The samples of the sensors that measure one thing.
#[derive(Drop)]
struct Measured {
    values: String,
    states: String,
}

/// The samples of values and states, by what is measured.
#[derive(Drop)]
struct ByMeasure {
    temperature: Measured,
    fan_speed: Measured,
    voltage: Measured,
    current: Measured,
    power: Measured,
    other: Measured,
}

/// The samples of all families.
#[derive(Drop)]
pub(crate) struct Gathered {
    by_measure: ByMeasure,
    thresholds: String,
    infos: String,
    /// The labels of the sensor whose samples are appended.
    labels: String,
    /// Its name, before it is escaped.
    name: String,
}

impl Measured {
    /// No samples.
    fn new(alloc: Global) -> Measured
        ensures { IsEmpty result }
    {
        Measured {
            values: String::new(alloc),
            states: String::new(alloc),
        }
    }

    /// Appends the samples of a sensor that measures this.
    fn add(
        &mut self,
        measure: Measure,
        labels: &str,
        value: Option<Fixed>,
        severity: Option<Severity>,
    ) -> Result<(), AllocError>
        ensures { OnOk result (AddsMeasured measure labels.now (option_map (λ value. value.0) value) severity self.old self.new) }
    {
        push_value(
            &mut self.values,
            Family::Value(measure).name(),
            labels,
            "} ",
            value,
        )?;
        push_state(
            &mut self.states,
            Family::State(measure).name(),
            labels,
            severity,
        )
    }
}

impl ByMeasure {
    /// No samples.
    fn new(alloc: Global) -> ByMeasure
        ensures { (measure : Measure) → IsEmpty (measured_in result measure) }
    {
        ByMeasure {
            temperature: Measured::new(alloc),
            fan_speed: Measured::new(alloc),
            voltage: Measured::new(alloc),
            current: Measured::new(alloc),
            power: Measured::new(alloc),
            other: Measured::new(alloc),
        }
    }

    /// The samples of the sensors that measure this.
    fn of(&self, measure: Measure) -> &Measured
        ensures { result.now ≡ measured_in self.now measure }
    {
        match measure {
            Measure::Temperature => &self.temperature,
            Measure::FanSpeed => &self.fan_speed,
            Measure::Voltage => &self.voltage,
            Measure::Current => &self.current,
            Measure::Power => &self.power,
            Measure::Other => &self.other,
        }
    }

    /// Appends the samples of a sensor.
    fn add(
        &mut self,
        measure: Measure,
        labels: &str,
        value: Option<Fixed>,
        severity: Option<Severity>,
    ) -> Result<(), AllocError>
        ensures { OnOk result (AddsTo measure labels.now (option_map (λ value. value.0) value) severity self.old self.new) }
    {
        match measure {
            Measure::Temperature => self.temperature.add(measure, labels, value, severity),
            Measure::FanSpeed => self.fan_speed.add(measure, labels, value, severity),
            Measure::Voltage => self.voltage.add(measure, labels, value, severity),
            Measure::Current => self.current.add(measure, labels, value, severity),
            Measure::Power => self.power.add(measure, labels, value, severity),
            Measure::Other => self.other.add(measure, labels, value, severity),
        }
    }
}

impl Gathered {
    /// No samples.
    pub(crate) fn new(alloc: Global) -> Gathered
        ensures { (family : Family) → samples_in result family ≡ [] }
    {
        Gathered {
            by_measure: ByMeasure::new(alloc),
            thresholds: String::new(alloc),
            infos: String::new(alloc),
            labels: String::new(alloc),
            name: String::new(alloc),
        }
    }

    /// The samples of a family.
    pub(crate) fn samples(&self, family: Family) -> &str
        ensures { result.now ≡ samples_in self.now family }
    {
        match family {
            Family::Value(measure) => self.by_measure.of(measure).values.as_str(),
            Family::State(measure) => self.by_measure.of(measure).states.as_str(),
            Family::Threshold => self.thresholds.as_str(),
            Family::Info => self.infos.as_str(),
        }
    }

    /// The capacity for the samples of all families and so many bytes more. No text depends on it.
    pub(crate) fn room(&self, more: usize) -> usize {
        FAMILIES.iter().fold(more, |room, family| {
            room.saturating_add(self.samples(*family).len())
        })
    }

    /// Appends the samples of a record's sensor.
    fn add_sensor(
        &mut self,
        alloc: Global,
        id: u16,
        view: &SdrView,
        sensor: &Sensor,
        reading: KnownReading,
    ) -> Result<(), AllocError>
        ensures { OnOk result (Adds (λ family. AreSamplesOfSensor family id view.now reading sensor.now) self.old self.new) }
    {
        let measure = Measure::of(view);
        let value = value_of(view, shown_of(sensor, reading));
        let severity = sensor_severity(sensor, reading);
        set_labels(alloc, &mut self.labels, &mut self.name, id, view)?;
        push_thresholds(&mut self.thresholds, self.labels.as_str(), view)?;
        push_info(&mut self.infos, self.labels.as_str(), sensor)?;
        push_type_part(&mut self.labels, measure, sensor)?;
        self.by_measure
            .add(measure, self.labels.as_str(), value, severity)
    }

    /// Appends the samples of a record's sensor. Appends nothing for a record that is not one of a sensor.
    fn add_view(
        &mut self,
        alloc: Global,
        id: u16,
        view: &SdrView,
        reading: KnownReading,
    ) -> Result<(), AllocError>
        ensures { OnOk result (Adds (λ family. AreSamplesOfView family id view.now reading) self.old self.new) }
    {
        match view.sensor() {
            Some(sensor) => self.add_sensor(alloc, id, view, &sensor, reading),
            None => Ok(()),
        }
    }

    /// Appends the samples of a record's sensor. A record with a fault has none.
    fn add_found(&mut self, alloc: Global, found: &FoundSensor) -> Result<(), AllocError>
        ensures { OnOk result (Adds (λ family. AreSamples family found.now) self.old self.new) }
    {
        match found.view() {
            Ok(view) => {
                let reading = KnownReading::from(found.reading());
                self.add_view(alloc, found.id(), &view, reading)
            }
            Err(_) => Ok(()),
        }
    }

    /// Appends the samples of all sensors.
    pub(crate) fn add_all(&mut self, alloc: Global, found: &[FoundSensor]) -> Result<(), AllocError>
        ensures { OnOk result (Adds (λ family. AreTexts (AreSamples family) found.now) self.old self.new) }
    {
        for sensor in found {
            self.add_found(alloc, sensor)?;
        }
        Ok(())
    }
}
