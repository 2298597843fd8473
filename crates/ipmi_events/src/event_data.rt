//! The bytes of event data (IPMI v2.0, section 29.7).
ghost use Rattle.std.specs.Prelude.{◌≡◌};
ghost use Rattle.ipmi_events.specs.EventData.{data_of, held_by};

use ipmi_records::EventEntry;

/// Bits 3:0 of event data 1: the offset.
const OFFSET_BITS: u8 = 0x0F;

/// The two lowest bits.
const TWO_BITS: u8 = 0x03;

/// The value of an unspecified event data 2 or 3 (table 29-6).
const UNSPECIFIED: u8 = 0xFF;

/// Event data 2 or 3.
#[derive(Clone, Copy)]
pub(crate) enum Byte {
    /// Event data 2.
    Two,
    /// Event data 3.
    Three,
}

/// What event data 2 or 3 contains, according to two bits of event data 1 (table 29-6).
#[derive(Clone, Copy)]
pub(crate) enum Holding {
    /// 00b, or 01b or 10b with a byte of FFh: unspecified.
    Nothing,
    /// 01b: in a threshold event, the reading or the threshold. In a discrete event, the previous state and the
    /// severity in event data 2; for event data 3 this is reserved.
    Value,
    /// 10b: an OEM code.
    Oem,
    /// 11b: a sensor-specific extension code.
    Extension,
}

/// The type and the data of an event.
#[derive(Clone, Copy)]
pub(crate) struct EventData {
    pub(crate) event_type: u8,
    pub(crate) sensor_type: u8,
    pub(crate) is_deasserted: bool,
    pub(crate) offset: u8,
    pub(crate) second_holds: Holding,
    pub(crate) second: u8,
    pub(crate) third_holds: Holding,
    pub(crate) third: u8,
}

/// What a byte contains, according to two bits of event data 1. FFh is neither a value nor an OEM code.
fn held_by(bits: u8, byte: u8) -> Holding
    ensures { result ≡ held_by bits byte }
{
    match bits {
        0 => Holding::Nothing,
        3 => Holding::Extension,
        _ if byte == UNSPECIFIED => Holding::Nothing,
        1 => Holding::Value,
        _ => Holding::Oem,
    }
}

/// Reads the type and the data of an event.
pub(crate) fn data_of(event: &EventEntry) -> EventData
    ensures { result ≡ data_of event.now }
{
    let bytes = event.data_bytes();
    EventData {
        event_type: event.event_type(),
        sensor_type: event.sensor_type(),
        is_deasserted: event.is_deasserted(),
        offset: bytes[0] & OFFSET_BITS,
        second_holds: held_by(bytes[0] >> 6, bytes[1]),
        second: bytes[1],
        third_holds: held_by(bytes[0] >> 4 & TWO_BITS, bytes[2]),
        third: bytes[2],
    }
}
