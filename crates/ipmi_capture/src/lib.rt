//! Reads the contents of a management controller into an image.
#![tactic(auto)]

mod capturing;
mod inventories;
mod lacks;
pub mod laws;
mod left;
mod named;
mod progress;
mod values;
mod walks;

pub use capturing::{Captured, capture};
pub use left::{Left, Unread};
pub use progress::Progress;
