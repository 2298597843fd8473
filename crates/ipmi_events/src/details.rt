//! The details in event data 2 and 3 (IPMI v2.0, section 29.7).
ghost use Rattle.std.specs.Prelude.{OnOk, option_map, string_bytes};
ghost use Rattle.ipmi_text.specs.Appended.{Appends};
ghost use Rattle.ipmi_events.specs.Details.{IsDetails};

use crate::discrete::push_discrete_details;
use crate::event_data::data_of;
use crate::threshold::push_threshold_details;
use ipmi_records::{EventEntry, FullSensor};
use ipmi_text::THRESHOLD_EVENT_TYPE;
use std::alloc::AllocError;

/// Appends the details in event data 2 and 3 of an event (IPMI v2.0, section 29.7, and table 42-3 for the codes of
/// sensor-specific events). The parts are joined by `, `; without details it appends nothing. `full` is the full
/// sensor record of the event's sensor, if there is one. It defines the values and units of a reading and a
/// threshold.
pub fn push_details(
    text: &mut String,
    event: &EventEntry,
    full: Option<&FullSensor>,
) -> Result<(), AllocError>
    ensures { OnOk result (Appends (IsDetails event.now (option_map (λ f. f.now) full.entry))
        (string_bytes text.old) (string_bytes text.new)) }
{
    let data = data_of(event);
    if data.event_type == THRESHOLD_EVENT_TYPE {
        push_threshold_details(text, &data, full)
    } else {
        push_discrete_details(text, &data)
    }
}
