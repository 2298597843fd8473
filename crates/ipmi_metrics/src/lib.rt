//! What sensors show, as metrics in the text format of Prometheus and in that of OpenMetrics.
#![tactic(auto)]

mod families;
mod gathered;
mod labels;
pub mod laws;
mod measure;
mod numbers;
mod samples;
mod text;

pub use text::{Dialect, metrics_text};
