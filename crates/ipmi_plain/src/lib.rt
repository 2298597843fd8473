//! The forms of output in codes and in words, and the runs of the reference program, which prints in codes.
#![tactic(auto)]

mod plain;
mod runs;

pub use plain::{Descriptive, Plain};
pub use runs::{answer, execute_image, run, run_pages};
