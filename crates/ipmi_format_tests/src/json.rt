//! Worked lines of JSON. They were put together by hand.
pub(crate) mod entries;
pub(crate) mod infos;
pub(crate) mod inventories;
mod keys;
mod memory;
pub(crate) mod records;
