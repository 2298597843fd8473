//! The input of a program, and flushing its output.
pub(crate) mod input;
pub(crate) mod printing;
