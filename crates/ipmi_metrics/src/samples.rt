//! The samples of a sensor.
ghost use Rattle.std.specs.Prelude.{◌≡◌, ℕ, List, ◌++◌, codes, OnOk, option_map, string_bytes};
ghost use Rattle.ipmi_text.specs.Appended.{Appends};
ghost use Rattle.ipmi_text.specs.Texts.{AreTexts};
ghost use Rattle.ipmi_records.specs.Prelude.{all_thresholds, factors_in};
ghost use Rattle.ipmi_records.specs.declared.sdr.SdrView.{SdrView};
ghost use Rattle.ipmi_json.specs.Sdr.{threshold_value};
ghost use Rattle.ipmi_metrics.specs.Families.{family_name};
ghost use Rattle.ipmi_metrics.specs.Labels.{info_labels};
ghost use Rattle.ipmi_metrics.specs.Samples.{IsThresholdSample, IsValueSample, sample, severity_number, value_of};

use crate::families::Family;
use crate::labels::{push_place, threshold_end};
use crate::numbers::push_number;
use ipmi_events::Severity;
use ipmi_json::value_shown;
use ipmi_records::{FullSensor, SdrView, Sensor, Shown, Threshold, has_thresholds};
use ipmi_text::{Factors, Fixed, convert};
use std::alloc::AllocError;

/// The thresholds in the order of their bits, from the highest down.
const THRESHOLDS: [Threshold; 6] = [
    Threshold::UpperNonRecoverable,
    Threshold::UpperCritical,
    Threshold::UpperNonCritical,
    Threshold::LowerNonRecoverable,
    Threshold::LowerCritical,
    Threshold::LowerNonCritical,
];

/// Appends the name and the first labels of a sample.
fn push_begun(text: &mut String, name: &str, labels: &str) -> Result<(), AllocError>
    ensures { OnOk result (string_bytes text.new ≡ string_bytes text.old ++ (name.now ++ (codes "{" ++ labels.now))) }
{
    text.push_str(name)?;
    text.push('{')?;
    text.push_str(labels)
}

/// Appends the sample of a value. `end` is what follows `labels` up to the value: more labels, if any, and a brace.
#[tactic(auto, using(crate::proofs::SampleLemmas::value_made))]
pub(crate) fn push_value(
    text: &mut String,
    name: &str,
    labels: &str,
    end: &str,
    value: Option<Fixed>,
) -> Result<(), AllocError>
    ensures { (all : List ℕ) → labels.now ++ end.now ≡ all ++ codes "} "
        → OnOk result (Appends (IsValueSample name.now all (option_map (λ value. value.0) value)) (string_bytes text.old) (string_bytes text.new)) }
{
    push_begun(text, name, labels)?;
    text.push_str(end)?;
    push_number(text, value)?;
    text.push('\n')
}

/// The end of the sample of a state: a severity as a number.
fn state_end(severity: Option<Severity>) -> &'static str
    ensures { result.now ≡ codes "} " ++ (severity_number severity ++ codes "\n") }
{
    match severity {
        Some(Severity::Nominal) => "} 0\n",
        Some(Severity::Warning) => "} 1\n",
        Some(Severity::Critical) => "} 2\n",
        None => "} NaN\n",
    }
}

/// Appends the sample of a state.
#[tactic(auto, using(crate::proofs::SampleLemmas::state_made))]
pub(crate) fn push_state(
    text: &mut String,
    name: &str,
    labels: &str,
    severity: Option<Severity>,
) -> Result<(), AllocError>
    ensures { OnOk result (string_bytes text.new ≡ string_bytes text.old ++ sample name.now labels.now (severity_number severity)) }
{
    push_begun(text, name, labels)?;
    text.push_str(state_end(severity))
}

/// The value of the reading of a record's sensor, if there is one.
pub(crate) fn value_of(view: &SdrView, shown: Shown) -> Option<Fixed>
    ensures { option_map (λ value. value.0) result ≡ value_of view.now shown }
{
    match view {
        SdrView::Full(full) => value_shown(full, shown),
        _ => None,
    }
}

/// The value of a threshold of a record with these factors, if it has one.
fn threshold_of(full: &FullSensor, factors: &Factors, threshold: Threshold) -> Option<Fixed>
    requires { factors.now ≡ factors_in full.now }
    ensures { option_map (λ value. value.0) result ≡ threshold_value threshold full.now }
{
    if has_thresholds(&full.sensor()) && full.is_readable(threshold) {
        convert(factors, full.threshold(threshold))
    } else {
        None
    }
}

/// Appends the sample of a threshold that has a value.
fn push_threshold(
    text: &mut String,
    labels: &str,
    full: &FullSensor,
    factors: &Factors,
    threshold: Threshold,
) -> Result<(), AllocError>
    requires { factors.now ≡ factors_in full.now }
    ensures { OnOk result (Appends (IsThresholdSample labels.now (SdrView.Full full.now) threshold)
        (string_bytes text.old) (string_bytes text.new)) }
{
    let Some(value) = threshold_of(full, factors, threshold) else {
        return Ok(());
    };
    let name = Family::Threshold.name();
    push_value(text, name, labels, threshold_end(threshold), Some(value))
}

/// Appends the samples of the thresholds of a full record.
fn push_all_thresholds(text: &mut String, labels: &str, full: &FullSensor) -> Result<(), AllocError>
    ensures { OnOk result (Appends (AreTexts (IsThresholdSample labels.now (SdrView.Full full.now)) all_thresholds)
        (string_bytes text.old) (string_bytes text.new)) }
{
    let factors = full.factors();
    for threshold in &THRESHOLDS {
        push_threshold(text, labels, full, &factors, *threshold)?;
    }
    Ok(())
}

/// Appends the samples of the thresholds of a record. Only a full record has thresholds.
pub(crate) fn push_thresholds(
    text: &mut String,
    labels: &str,
    view: &SdrView,
) -> Result<(), AllocError>
    ensures { OnOk result (Appends (AreTexts (IsThresholdSample labels.now view.now) all_thresholds)
        (string_bytes text.old) (string_bytes text.new)) }
{
    match view {
        SdrView::Full(full) => push_all_thresholds(text, labels, full),
        _ => Ok(()),
    }
}

/// Appends the sample with what else a record says of its sensor.
#[tactic(auto, using(crate::proofs::SampleLemmas::info_made))]
pub(crate) fn push_info(text: &mut String, labels: &str, sensor: &Sensor) -> Result<(), AllocError>
    ensures { OnOk result (string_bytes text.new ≡ string_bytes text.old
        ++ sample (family_name Family.Info) (info_labels labels.now sensor.now) (codes "1")) }
{
    push_begun(text, Family::Info.name(), labels)?;
    push_place(text, sensor)?;
    text.push_str("} 1\n")
}
