//! Worked records and entries. Their texts were put together by hand, from the tables of the standard and the layout of
//! each line.
mod asked;
mod blocks;
mod entries;
mod entry_fields;
mod examples;
mod faults;
mod fields;
mod full_fields;
mod full_lines;
mod lines;
mod memory;
mod parts;
mod sharing;
