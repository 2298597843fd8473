//! Tests of messages and of sinks.
pub(crate) mod failure;
pub(crate) mod sink;
