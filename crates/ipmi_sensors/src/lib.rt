//! Finds sensors in one walk of the sensor data records, with their readings, and prints their blocks.
#![tactic(auto)]

pub mod laws;
mod sensors;

pub use sensors::{FoundSensor, FoundSensors, Sought, find_sensors, print_sensors};
