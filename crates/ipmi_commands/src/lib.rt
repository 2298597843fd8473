//! What a command prints of a controller, in any form of output, and how its run may end.
#![tactic(auto)]

mod devices;
mod format;
mod info;
mod inventory;
mod job;
mod kept;
mod last;
pub mod laws;
mod limits;
mod listing;
mod mark;
mod named;
mod pages;
mod perform;
mod piece;
mod read_error;
mod runs;
mod since;
mod summary;
mod tail;

pub use format::{Format, Framed, Table, Total};
pub use job::Job;
pub use limits::{LIVE_PART, RequestLimits, Tries};
pub use mark::Mark;
pub use pages::start_cursor;
pub use perform::{execute, execute_pages, write_piece};
pub use piece::reading_for;
pub use read_error::ReadError;
pub use runs::{report, write_image, write_snapshot};
pub use since::{Continuity, NewEntries, new_entries, print_new};
pub use summary::Summary;
