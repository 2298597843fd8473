//! Records, entries and inventories as JSON: one object per line.
#![tactic(auto)]

mod areas;
mod decimal;
mod digits;
mod format;
mod fru;
mod info;
mod keys;
pub mod laws;
mod members;
mod multirecords;
mod number;
mod object;
mod record;
mod sdr;
mod sel;
mod states;
mod time;

pub use format::Json;
pub use fru::{fru_elsewhere_line, fru_line, tell_device, tell_device_elsewhere};
pub use info::{end_line, sdr_info_line, sel_info_line, tell_info};
pub use keys::is_object_key;
pub use members::Members;
pub use number::Number;
pub use object::{Label, Value};
pub use sdr::{
    sdr_fault_line, sdr_raw_line, sdr_record_line, tell_faulty_record, tell_raw_record,
    tell_record, threshold_value, value_shown,
};
pub use sel::{sel_entry_line, tell_entry};
