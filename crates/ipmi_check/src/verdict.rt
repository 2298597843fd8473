//! What a check says of all sensors.
ghost use Rattle.std.specs.Prelude.{◌≡◌};
ghost use Rattle.ipmi_check.specs.Verdict.{has, has_none, status_of, verdict_of, verdict_words};

use crate::standing::Standing;
use ipmi_image::Lack;
use ipmi_sensors::{FoundSensor, FoundSensors};

/// What a check says of all sensors.
#[derive(Clone, Copy, Debug, PartialEq, Eq)]
pub enum Verdict {
    /// The walk finished, and none is in trouble.
    Ok,
    /// The worst is a warning.
    Warning,
    /// A sensor that was read is critical.
    Critical,
    /// Something was not read or can't be judged, or no sensor has a reading. None that was read is critical.
    Unknown,
}

impl Verdict {
    /// What a check says of the sensors that a search found, in an image that lacks these items, and whether the search failed.
    pub fn of(found: &FoundSensors, lacks: &[Lack], has_failed: bool) -> Verdict
        ensures { result ≡ verdict_of lacks.now found.now has_failed }
    {
        let found = found.as_slice();
        if has(found, lacks, Standing::Critical) {
            Verdict::Critical
        } else if has_failed || has_none(found, lacks) || has(found, lacks, Standing::Unknown) {
            Verdict::Unknown
        } else if has(found, lacks, Standing::Warning) {
            Verdict::Warning
        } else {
            Verdict::Ok
        }
    }

    /// The exit status of a plugin.
    pub fn status(self) -> u8
        ensures { result ≡ status_of self }
    {
        match self {
            Verdict::Ok => 0,
            Verdict::Warning => 1,
            Verdict::Critical => 2,
            Verdict::Unknown => 3,
        }
    }

    /// The word for it.
    pub(crate) fn words(self) -> &'static str
        ensures { result.now ≡ verdict_words self }
    {
        match self {
            Verdict::Ok => "OK",
            Verdict::Warning => "WARNING",
            Verdict::Critical => "CRITICAL",
            Verdict::Unknown => "UNKNOWN",
        }
    }
}

/// Whether one of them has this standing.
pub(crate) fn has(found: &[FoundSensor], lacks: &[Lack], wanted: Standing) -> bool
    ensures { result ≡ has lacks.now wanted found.now }
{
    found
        .iter()
        .any(|sensor| Standing::of(sensor, lacks).is(wanted))
}

/// Whether none of them has a reading.
fn has_none(found: &[FoundSensor], lacks: &[Lack]) -> bool
    ensures { result ≡ has_none lacks.now found.now }
{
    !(has(found, lacks, Standing::Sound) || has(found, lacks, Standing::Warning))
}
