//! Sinks for a command's output and messages, and failures with their messages and exit statuses.
#![tactic(auto)]

mod failure;
mod message;
mod message_sink;
mod sink;

pub use failure::{Failure, RecordName, fault_line, fault_words};
pub use message::{Part, write_failure, write_message, write_unreadable};
pub use message_sink::MessageSink;
pub use sink::{Sink, SinkFault, Written, write_all};
