//! Checks of sensors, as plugins of monitoring systems print them.
#![tactic(auto)]

pub mod laws;
mod name;
mod performance;
mod standing;
mod text;
mod verdict;

pub use performance::Detail;
pub use standing::Standing;
pub use text::{check_text, text_without_memory};
pub use verdict::Verdict;
