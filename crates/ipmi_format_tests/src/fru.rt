//! Worked inventories: their texts and their values.
mod damaged;
mod examples;
mod faults;
mod inventories;
mod lines;
mod memory;
mod values;
mod views;
