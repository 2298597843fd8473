//! The command line of `ipmitool`: its words, its options, and the command that they form.
#![tactic(auto)]

mod arguments;
mod command;
mod commands;
mod error;
mod filters;
pub mod laws;
mod mistake;
mod number;
mod numbered;
mod options;
mod request;
mod table;
mod task;
mod words;

pub use command::{Command, DEFAULT_PART, DEFAULT_TRIES, UsageFault, command_of};
pub use commands::{COMMANDS, CommandRow, Operand, Verb};
pub use error::{Hint, UsageError};
pub use filters::{EntityFilter, Filters, IdRange, Ids, Worse};
pub use options::{Form, takes_value};
pub use request::{
    Action, Format, Limits, LiveTool, Request, Separator, Source, Topic, request_of,
};
pub use task::{Count, Kind, Task, Tasks};
pub use words::{Word, Words};
