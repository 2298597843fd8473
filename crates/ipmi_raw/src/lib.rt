//! Requests to a live management controller and its replies, as input and output text of two stock tools.
//!
//! `ipmitool exec` and FreeIPMI's `ipmi-raw` hold a session with a machine: each reads requests from its standard
//! input as lines of hex, and prints the replies. This crate has the bytes of the requests (IPMI v2.0), the text that
//! makes each tool send one, and a reader for its output. The reader is exact: it reads a reply only from a text of
//! that reply. It is also complete: it reads every text of a reply.
#![tactic(auto)]

mod controller;
pub mod freeipmi;
mod heard;
pub mod ipmitool;
mod last_words;
pub mod laws;
mod line;
mod peer;
mod piped;
mod reply;
mod request;
mod silence;
mod streams;
mod tool;
pub mod words;

pub use controller::RawController;
pub use heard::Heard;
pub use last_words::line_of_output;
pub use line::Line;
pub use peer::{Lost, Peer, ReplyText};
pub use piped::{Open, Piped};
pub use reply::{Reply, ReplyBytes};
pub use request::{InventoryPart, RecordPart, Request, RequestData};
pub use streams::Streams;
pub use tool::Tool;
