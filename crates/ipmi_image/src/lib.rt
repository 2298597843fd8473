//! Saved images of a management controller, and controllers that answer from one.
#![tactic(auto)]

mod builder;
mod cause;
mod contents;
mod controller;
mod current;
mod digits;
mod earlier;
mod image;
mod image_line;
mod lack;
pub mod laws;
mod line_buffer;
mod places;
mod responder;
mod rewrite;
mod rows;
mod scripted;
mod snapshot;
mod snapshot_controller;
mod stored;
mod table;
mod text;
mod version;
mod with_records;

pub use builder::ImageBuilder;
pub use cause::{Beginning, FaultCause, LineCause, RuleCause, fault_cause};
pub use controller::ImageController;
pub use image::{Image, ImageFault};
pub use lack::{Item, Lack};
pub use line_buffer::{LineBuffer, record_line};
pub use rewrite::{image_text, snapshot_text};
pub use scripted::{Mood, Scripted};
pub use snapshot::Snapshot;
pub use snapshot_controller::SnapshotController;
pub use with_records::WithRecords;
