//! The status of a sensor. It says whether the reading is too low or too high.
ghost use Rattle.std.specs.Prelude.{◌≡◌};
ghost use Rattle.ipmi_records.specs.Prelude.{shown_of};
ghost use Rattle.ipmi_events.specs.Status.{first_passed, from_worst, passed_status, status_in_words, threshold_code};

use ipmi_records::{KnownReading, Sensor, Shown, Threshold, has_thresholds, shown_of};

/// The short name of a threshold.
fn threshold_code(threshold: Threshold) -> &'static str
    ensures { result.now ≡ threshold_code threshold }
{
    match threshold {
        Threshold::UpperNonRecoverable => "unr",
        Threshold::UpperCritical => "ucr",
        Threshold::UpperNonCritical => "unc",
        Threshold::LowerNonRecoverable => "lnr",
        Threshold::LowerCritical => "lcr",
        Threshold::LowerNonCritical => "lnc",
    }
}

/// The thresholds, starting with the worst.
const FROM_WORST: [Threshold; 6] = [
    Threshold::UpperNonRecoverable,
    Threshold::LowerNonRecoverable,
    Threshold::UpperCritical,
    Threshold::LowerCritical,
    Threshold::UpperNonCritical,
    Threshold::LowerNonCritical,
];

/// The first of several thresholds that the reading has passed, according to the bits of its status.
fn first_passed(thresholds: &[Threshold], bits: u8) -> Option<Threshold>
    ensures { result ≡ first_passed thresholds.now bits }
{
    thresholds
        .iter()
        .copied()
        .find(|threshold| threshold.is_in(bits))
}

/// The worst threshold that a reading has passed, according to the bits of its status.
pub(crate) fn worst_passed(bits: u8) -> Option<Threshold>
    ensures { result ≡ first_passed from_worst bits }
{
    first_passed(&FROM_WORST, bits)
}

/// The status of a threshold sensor: the worst threshold that its reading has passed, or `ok`.
fn passed_status(bits: u8) -> &'static str
    ensures { result.now ≡ passed_status (first_passed from_worst bits) }
{
    match worst_passed(bits) {
        Some(threshold) => threshold_code(threshold),
        None => "ok",
    }
}

/// The status of a sensor with this reading: `ok`, or for a threshold sensor the worst threshold that its reading has passed,
/// such as `ucr` for the upper critical one. It is `ns` without a reading, and `na` if another controller owns the sensor.
pub fn status_in_words(sensor: &Sensor, reading: KnownReading) -> &'static str
    ensures { result.now ≡ status_in_words sensor.now (shown_of sensor.now reading) }
{
    match shown_of(sensor, reading) {
        Shown::OtherOwner => "na",
        Shown::NotCaptured | Shown::NoReading => "ns",
        Shown::Value(reading) if has_thresholds(sensor) => passed_status(reading.status),
        Shown::Value(_) => "ok",
    }
}
