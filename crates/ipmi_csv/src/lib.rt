//! Records, entries, infos and inventories as CSV: one row per thing.
#![tactic(auto)]

mod cells;
mod columns;
mod format;
pub mod laws;
mod row;

pub use format::Csv;
