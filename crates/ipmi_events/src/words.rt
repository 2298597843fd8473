//! The words of an event (IPMI v2.0, section 42).
ghost use Rattle.std.specs.Prelude.{◌≡◌, option_map};
ghost use Rattle.ipmi_events.specs.Words.{event_words};

use crate::generic::generic_words;
use crate::specific::specific_words;
use ipmi_text::HexByte;
use std::fmt;

/// The event/reading type of sensor-specific events (IPMI v2.0, table 42-1).
pub(crate) const SENSOR_SPECIFIC: u8 = 0x6F;

/// The words of an event at an offset, if the standard has any: from table 42-2 for the generic event/reading types
/// 01h to 0Ch, and from table 42-3 by the sensor type for 6Fh (IPMI v2.0).
#[tactic(auto, unfolding(crate::specs::Words::event_words))]
pub fn event_words(event_type: u8, sensor_type: u8, offset: u8) -> Option<&'static str>
    ensures { option_map (λ s. s.now) result ≡ event_words event_type sensor_type offset }
{
    if event_type == SENSOR_SPECIFIC {
        specific_words(sensor_type, offset)
    } else {
        generic_words(event_type, offset)
    }
}

/// The words of an event, or `offset 3 of type 0x6f` if the standard has none.
#[derive(Clone, Copy, Debug, PartialEq, Eq)]
pub struct EventInWords {
    /// The event/reading type code.
    pub event_type: u8,
    /// The sensor type. It defines the offsets of event/reading type 6Fh.
    pub sensor_type: u8,
    /// The offset.
    pub offset: u8,
}

impl fmt::Display for EventInWords {
    ghost use Rattle.std.specs.Prelude.{Some};
    ghost use Rattle.ipmi_events.specs.Words.{event_in_words};

    ghost output = { λ event.
        Some (event_in_words event.event_type event.sensor_type event.offset) };

    fn fmt<W: fmt::Write>(&self, f: &mut fmt::Formatter<W>) -> fmt::Result {
        match event_words(self.event_type, self.sensor_type, self.offset) {
            Some(words) => f.write_str(words),
            None => {
                let offset = self.offset;
                let event_type = HexByte(self.event_type);
                write!(f, "offset {offset} of type 0x{event_type}")
            }
        }
    }
}
