//! Sensor data records and entries of the event log: views of their bytes, and their texts (IPMI v2.0, sections 32 and 43).
#![tactic(auto)]

mod at_least;
mod bits;
mod column;
mod compact;
mod entity;
mod event_only;
mod fru_locator;
mod full;
mod id_string;
mod info;
pub mod laws;
mod locator;
mod padding;
mod record_type;
mod sdr;
mod sdr_blocks;
mod sdr_lines;
mod sel;
mod sel_texts;
mod sensor;
mod sharing;
mod threshold;

pub use column::{
    KnownReading, Shown, has_thresholds, push_raw, push_raw_byte, push_reading, push_value,
    shown_of, states_in, status_of,
};
pub use compact::{COMPACT_TYPE, CompactSensor};
pub use entity::Entity;
pub use event_only::{EVENT_ONLY_TYPE, EventOnlySensor};
pub use full::{FULL_TYPE, FullSensor};
pub use id_string::IdString;
pub use info::{Info, info_block};
pub use locator::{
    CONTROLLER_TYPE, FRU_TYPE, FruLocator, GENERIC_TYPE, GenericLocator, Locator,
    ManagementControllerLocator,
};
pub use padding::pad;
pub use sdr::{OtherRecord, SdrFault, SdrView};
pub use sdr_blocks::{sdr_block, sdr_block_with, threshold_lines};
pub use sdr_lines::{
    push_name, push_name_column, sdr_eline, sdr_eline_with, sdr_fault_line, sdr_line, sdr_line_with,
};
pub use sel::{EventEntry, OemNonTimestampedEntry, OemTimestampedEntry, OtherEntry, SelView};
pub use sel_texts::{EventSensor, direction_text, sel_block, sel_line, sensor_of_event};
pub use sensor::Sensor;
pub use sharing::{Modifier, Sharing};
pub use threshold::Threshold;
