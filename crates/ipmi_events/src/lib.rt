//! Events and sensors in words, by the standard's tables (IPMI v2.0, sections 42 and 43).
#![tactic(auto)]

mod details;
mod discrete;
mod entities;
mod event_data;
mod event_lines;
mod extensions;
mod generic;
pub mod laws;
mod name;
mod parts;
mod places;
mod reason;
mod sensor_blocks;
pub mod sensor_laws;
mod sensor_lines;
mod sensors;
mod severity;
mod shown;
mod specific;
mod states;
mod status;
mod table;
mod threshold;
mod words;
mod worst;

pub use details::push_details;
pub use entities::EntityWords;
pub use event_lines::{event_line, record_for};
pub use name::{device_name, push_sensor_name, split_record};
pub use reason::{event_reason, sensor_reason};
pub use sensor_blocks::sensor_block;
pub use sensor_lines::sensor_line;
pub use sensors::Sensors;
pub use severity::{Severity, event_severity};
pub use shown::push_reading_in_words;
pub use status::status_in_words;
pub use words::{EventInWords, event_words};
pub use worst::sensor_severity;
