//! The words of events.
ghost use Rattle.std.specs.Prelude.{◌≡◌, IfOk, option_map, string_bytes};
ghost use Rattle.ipmi_text.specs.Events.{event_name, event_text_of};

use crate::capacity::text_with_capacity;
use crate::hex_digits::{HexByte, HexDigit};
use crate::names::name_at;
use std::alloc::{AllocError, Global};
use std::fmt;

/// The capacity for the words of any event.
const CAPACITY: usize = 40;

/// The event/reading type of a sensor with thresholds (IPMI v2.0, section 42.1).
pub const THRESHOLD_EVENT_TYPE: u8 = 0x01;

/// Bits 3:0 of an event's first data byte: its offset.
const OFFSET_BITS: u8 = 0x0F;

/// The words of a threshold event by its offset, starting at 0 (IPMI v2.0, table 42-2).
const THRESHOLD_EVENTS: [&str; 12] = [
    "Lower Non-critical going low",
    "Lower Non-critical going high",
    "Lower Critical going low",
    "Lower Critical going high",
    "Lower Non-recoverable going low",
    "Lower Non-recoverable going high",
    "Upper Non-critical going low",
    "Upper Non-critical going high",
    "Upper Critical going low",
    "Upper Critical going high",
    "Upper Non-recoverable going low",
    "Upper Non-recoverable going high",
];

/// The words of an event by its event/reading type code and its offset (IPMI v2.0, table 42-2). Only threshold events
/// (type 01h) have words here.
pub fn event_name(event: u8, offset: u8) -> Option<&'static str>
    ensures { option_map (λ s. s.now) result ≡ event_name event offset }
{
    if event == THRESHOLD_EVENT_TYPE {
        name_at(THRESHOLD_EVENTS.as_slice(), usize::from(offset))
    } else {
        None
    }
}

/// The words of an event (IPMI v2.0, section 42.1 and table 42-2), or `event 0xTT offset 0xO` if it has none.
#[derive(Clone, Copy, Debug, PartialEq, Eq)]
pub struct EventWords {
    /// The event/reading type code.
    pub event: u8,
    /// The first data byte, whose bits 3:0 are the offset.
    pub data1: u8,
}

impl fmt::Display for EventWords {
    ghost use Rattle.std.specs.Prelude.{Some};
    ghost use Rattle.ipmi_text.specs.Events.{event_text_of};

    ghost output = { λ words. Some (event_text_of words.event words.data1) };

    fn fmt<W: fmt::Write>(&self, f: &mut fmt::Formatter<W>) -> fmt::Result {
        let offset = self.data1 & OFFSET_BITS;
        match event_name(self.event, offset) {
            Some(name) => f.write_str(name),
            None => {
                let event = HexByte(self.event);
                let offset = HexDigit { value: offset };
                write!(f, "event 0x{event} offset 0x{offset}")
            }
        }
    }
}

/// The words of an event by its event/reading type code and its first data byte (IPMI v2.0, section 42.1 and table
/// 42-2), or `event 0xTT offset 0xO` if it has none. Bits 3:0 of the data byte are the offset.
pub fn event_text(alloc: Global, event: u8, data1: u8) -> Result<String, AllocError>
    ensures { IfOk result (λ text. string_bytes text ≡ event_text_of event data1) }
{
    text_with_capacity(alloc, CAPACITY, EventWords { event, data1 })
}
