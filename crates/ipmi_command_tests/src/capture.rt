//! Captures of plain controllers, and of controllers that are busy, cancel reservations, refuse, change, or return small parts.
pub(crate) mod captures;
pub(crate) mod memory;
pub(crate) mod written_answers;
