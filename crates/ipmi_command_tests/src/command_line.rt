//! Command lines: the tasks that words name, options, and faults.
mod faults;
pub(crate) mod lines;
mod memory;
mod options;
mod requests;
mod scopes;
mod tasks;
mod words;
