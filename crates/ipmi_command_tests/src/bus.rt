//! Tests of the bus: codes, the cursor, listings along it, and the readers.
mod ahead;
pub(crate) mod cursor;
pub(crate) mod interrupted;
pub(crate) mod inventories;
pub(crate) mod listings;
pub(crate) mod readers;
