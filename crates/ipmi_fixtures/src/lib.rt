//! Records, images and texts that the tests of several crates use. All are constants, or made from one.
#![tactic(auto)]

mod images;
mod records;
mod texts;

pub use images::THREE_ROWS;
pub use records::{CPU_TEMP, EVENT, INFO, PSU1, answer_of, changed, reading_of, with_byte};
pub use texts::{CPU_TEMP_BLOCK, INFO_BLOCK, PSU1_BLOCK};
