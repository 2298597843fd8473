//! The thresholds of a sensor.
ghost use Rattle.std.specs.Prelude.{◌≡◌, ◌+◌, ◌<◌, ◌≤◌};
ghost use Rattle.ipmi_records.specs.Prelude.{has_bit, threshold_bit, threshold_place};

use crate::bits::has_bit;

/// A threshold of a sensor.
#[derive(Clone, Copy, Debug, PartialEq, Eq)]
pub enum Threshold {
    /// A reading at or above it is outside the operating range of the hardware.
    UpperNonRecoverable,
    /// A reading at or above it is critical.
    UpperCritical,
    /// A reading at or above it is a warning.
    UpperNonCritical,
    /// A reading at or below it is outside the operating range of the hardware.
    LowerNonRecoverable,
    /// A reading at or below it is critical.
    LowerCritical,
    /// A reading at or below it is a warning.
    LowerNonCritical,
}

impl Threshold {
    /// The offset of its value in a full record (IPMI v2.0, table 43-1), counted from 0.
    pub(crate) fn place(self) -> usize
        ensures place { result + 1 ≡ threshold_place self }
        ensures high { result ≤ 41 }
    {
        match self {
            Threshold::UpperNonRecoverable => 36,
            Threshold::UpperCritical => 37,
            Threshold::UpperNonCritical => 38,
            Threshold::LowerNonRecoverable => 39,
            Threshold::LowerCritical => 40,
            Threshold::LowerNonCritical => 41,
        }
    }

    /// Its bit in the readable thresholds of a record, and in the comparisons of a reading.
    fn bit(self) -> u32
        ensures bit { result ≡ threshold_bit self }
        ensures below { result < 8 }
    {
        match self {
            Threshold::UpperNonRecoverable => 5,
            Threshold::UpperCritical => 4,
            Threshold::UpperNonCritical => 3,
            Threshold::LowerNonRecoverable => 2,
            Threshold::LowerCritical => 1,
            Threshold::LowerNonCritical => 0,
        }
    }

    /// Whether its bit is set. In a record that means that it is readable, in a reading that the reading has passed
    /// it.
    pub fn is_in(self, bits: u8) -> bool
        ensures { result ≡ has_bit (threshold_bit self) bits }
    {
        has_bit(bits, self.bit())
    }
}
