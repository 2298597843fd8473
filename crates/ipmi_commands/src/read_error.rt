//! Why a text to be printed is missing.
ghost use Rattle.std.specs.Prelude.{◌≡◌};
ghost use Rattle.ipmi_commands.specs.declared.read_error.ReadError.{ReadError};

use ipmi_bus::{Ended, FruEnded};
use ipmi_output::Failure;
use std::alloc::AllocError;

/// Why the text of a record, an info or an inventory is missing.
#[derive(Clone, Copy)]
pub enum ReadError {
    /// A reading or an info was not read, for this reason.
    Ended(Ended),
    /// The inventory of the FRU device with this id was not read, for this reason.
    Inventory(u8, FruEnded),
    /// Out of memory.
    Memory,
}

impl From<AllocError> for ReadError {
    ghost from_gives = { λ _ unread. unread ≡ ReadError.Memory };

    fn from(_error: AllocError) -> ReadError {
        ReadError::Memory
    }
}

impl From<Ended> for ReadError {
    ghost from_gives = { λ ended unread. unread ≡ ReadError.Ended ended };

    fn from(ended: Ended) -> ReadError {
        ReadError::Ended(ended)
    }
}

impl From<ReadError> for Failure<'_> {
    ghost use Rattle.ipmi_commands.specs.Asking.{failure_of};

    ghost from_gives = { λ unread failure. failure ≡ failure_of unread };

    fn from(unread: ReadError) -> Self {
        match unread {
            ReadError::Ended(ended) => Failure::Ended(ended),
            ReadError::Inventory(id, ended) => Failure::Inventory(id, ended),
            ReadError::Memory => Failure::OutOfMemory,
        }
    }
}
