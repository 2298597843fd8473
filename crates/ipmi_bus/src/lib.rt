//! Retrieves the records of a management controller in parts, following their next ids.
#![tactic(auto)]

mod calls;
mod code;
mod controller;
mod cursor;
mod id_table;
mod inventory_reader;
pub mod laws;
mod readers;
mod retrieval;
mod step;
mod tally;

pub use code::{Code, CodeClass};
pub use controller::{
    Controller, FIRST_RECORD_ID, FruSize, INFO_LEN, LARGEST_INVENTORY_LEN, LARGEST_PART,
    LARGEST_SDR_LEN, LAST_FRU_DEVICE_ID, NO_NEXT_ID, Part, SEL_ENTRY_LEN, Shelf, reads_ahead,
};
pub use cursor::Cursor;
pub use inventory_reader::{FruEnded, read_fru, read_fru_retrying_parts};
pub use readers::{read_info, read_reading};
pub use step::{Ended, Place, Record, record_id};
pub use tally::{Event, Tally};
