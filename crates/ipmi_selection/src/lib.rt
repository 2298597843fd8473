//! Which sensor data records and which entries of the event log a command prints, and in which detail.
#![tactic(auto)]

mod detail;
mod selection;

pub use detail::Detail;
pub use selection::{EntrySelection, Selection, checks, entry_bytes, has_one_of, is_name};
