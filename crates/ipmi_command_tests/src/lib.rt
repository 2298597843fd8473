//! Tests of the commands and of what they use: the bus, the command line, output and messages, and the input and output of a
//! program. Tests of captures and of ipmi_raw.
//!
//! Controllers, commands, words and outcomes are dropped by a call of `drop`, or moved into a helper. Then their parts are
//! dropped in one proof, not on each return of a body.
#![tactic(auto)]

#[cfg(test)]
mod bus;
#[cfg(test)]
mod capture;
#[cfg(test)]
mod cases;
#[cfg(test)]
mod command_line;
#[cfg(test)]
mod commands;
#[cfg(test)]
mod controllers;
#[cfg(test)]
mod output;
#[cfg(test)]
mod program;
#[cfg(test)]
pub mod raw;
#[cfg(test)]
mod writers;
