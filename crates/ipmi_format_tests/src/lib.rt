//! Worked examples of the formats: ipmi_text, ipmi_fru, ipmi_records, ipmi_events, ipmi_json, ipmi_csv, ipmi_metrics and
//! ipmi_image. The texts and values were put together by hand, or by another program.
//!
//! Controllers and images are dropped by a call of `drop`: then their parts are dropped in one proof, not in each body.
#![tactic(auto)]

#[cfg(test)]
mod cases;
#[cfg(test)]
mod csv;
#[cfg(test)]
mod events;
#[cfg(test)]
mod fru;
#[cfg(test)]
mod image;
#[cfg(test)]
mod json;
#[cfg(test)]
mod metrics;
#[cfg(test)]
mod records;
#[cfg(test)]
mod text;
