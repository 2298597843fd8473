//! Values and texts shared by the other crates: the answer of a sensor, and how fields are printed.
#![tactic(auto)]

mod ascii;
mod capacity;
mod chassis;
mod decimal;
mod events;
mod factors;
mod field_text;
mod hex_digits;
pub mod laws;
mod names;
mod reading;
mod sdr_header;
mod sensor_types;
mod times;
mod units;

pub use chassis::chassis_text;
pub use decimal::{Fixed, fixed_text, push_fixed};
pub use events::{EventWords, THRESHOLD_EVENT_TYPE, event_name, event_text};
pub use factors::{Factors, NO_ANALOG_READING, convert};
pub use field_text::{ENGLISH, fru_text, push_sdr_text, sdr_text};
pub use hex_digits::{ByteH, HexByte, HexWord, WordH};
pub use reading::Reading;
pub use sdr_header::{SDR_HEADER_LEN, sdr_len};
pub use sensor_types::{SENSOR_TYPES, SensorType, sensor_type_text};
pub use times::{UtcTime, minutes_text, utc_text};
pub use units::{Units, push_units, unit_text};
