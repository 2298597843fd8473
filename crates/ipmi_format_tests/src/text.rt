//! Texts of fields, names, units, times, decimals and hex digits, alone and within other texts. Cases were worked by hand or by
//! another program, and each table was typed a second time.
mod decimals;
mod fields;
mod hex_digits;
mod memory;
mod names;
mod parts;
mod products;
mod readings;
mod times;
mod units;
