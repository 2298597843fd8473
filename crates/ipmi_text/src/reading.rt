//! The answer of a sensor.
ghost use Rattle.std.specs.Prelude.{◌≡◌};
ghost use Rattle.ipmi_text.specs.ReadingValue.{is_available};

/// The bit of a reading's flags for "scanning is enabled".
const SCANNING_ENABLED: u32 = 6;

/// The bit for "the reading is unavailable".
const READING_UNAVAILABLE: u32 = 5;

/// The answer of Get Sensor Reading (IPMI v2.0, section 35.14), after its completion code.
#[derive(Clone, Copy, Debug, PartialEq, Eq)]
pub struct Reading {
    /// The raw reading. The sensor's data record says what it measures.
    pub raw: u8,
    /// Bit 6: scanning is enabled. Bit 5: the reading is unavailable.
    pub flags: u8,
    /// For a threshold sensor, the comparisons with its thresholds (bits 5:0). For a discrete sensor, states 7:0.
    pub status: u8,
    /// States 14:8 of a discrete sensor, in bits 6:0; 00h if the answer has no such byte.
    pub more: u8,
}

impl Reading {
    /// Whether the reading is available: scanning is enabled, and the reading is not unavailable.
    pub fn is_available(self) -> bool
        ensures { result ≡ is_available self }
    {
        let is_unavailable = (self.flags >> READING_UNAVAILABLE) & 1 == 1;
        (self.flags >> SCANNING_ENABLED) & 1 == 1 && !is_unavailable
    }
}
