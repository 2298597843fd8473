//! Times in the format of ISO 8601.
ghost use Rattle.std.specs.Prelude.{◌≡◌, ◌+◌, ◌<◌, ◌≤◌, ◌++◌, IfOk, OnOk, codes, drop, length, option_map, slice_index, string_bytes, take};
ghost use Rattle.ipmi_text.specs.Times.{IsUtcTextOf};
ghost use Rattle.ipmi_json.specs.Time.{IsIsoMinuteOf, IsIsoTimeOf};

use ipmi_text::{UtcTime, minutes_text};
use std::alloc::{AllocError, Global};

/// The last time stamp that is relative to the start of the controller's clock.
const LAST_SINCE_START: u32 = 0x2000_0000;

/// The length of a space and a time of day with seconds.
const TO_THE_SECOND: usize = 9;

/// The length of a space and a time of day without seconds.
const TO_THE_MINUTE: usize = 6;

/// Rewrites a date, a space and a time of day in the format of ISO 8601, with `end` after them.
fn make_iso(text: &mut String, space: usize, end: &str) -> Result<(), AllocError>
    requires room { space < length (string_bytes text.old) }
    requires space { slice_index (string_bytes text.old) space ≡ 32 }
    ensures { OnOk result (string_bytes text.new ≡ take space (string_bytes text.old)
        ++ (codes "T" ++ (drop (space + 1) (string_bytes text.old) ++ end.now))) }
{
    text.replace_range(space..space + 1, "T")?;
    text.push_str(end)
}

/// Replaces a text with that of a time stamp.
fn set_utc(text: &mut String, seconds: u32) -> Result<(), AllocError>
    ensures { OnOk result (IsUtcTextOf seconds (string_bytes text.new)) }
{
    text.clear();
    text.write(UtcTime::of(seconds))
}

/// The point in time that a time stamp is, as ISO 8601 has it; None where it is none. `text` is used for it.
pub(crate) fn time_text(text: &mut String, seconds: u32) -> Result<Option<&str>, AllocError>
    ensures { IfOk result (λ time. IsIsoTimeOf seconds (option_map (λ s. s.now) time)) }
{
    if seconds <= LAST_SINCE_START || seconds == u32::MAX {
        return Ok(None);
    }
    set_utc(text, seconds)?;
    let space = text.as_bytes().len() - TO_THE_SECOND;
    make_iso(text, space, "Z")?;
    Ok(Some(text.as_str()))
}

/// The time this many minutes after 1996-01-01 00:00 in the format of ISO 8601; None for 0, which is not a time.
pub(crate) fn minute_text(alloc: Global, minutes: u32) -> Result<Option<String>, AllocError>
    requires { minutes ≤ 0xff_ffff }
    ensures { IfOk result (λ time. IsIsoMinuteOf minutes (option_map (λ s. string_bytes s) time)) }
{
    if minutes == 0 {
        return Ok(None);
    }
    let mut text = minutes_text(alloc, minutes)?;
    let space = text.as_bytes().len() - TO_THE_MINUTE;
    make_iso(&mut text, space, ":00Z")?;
    Ok(Some(text))
}
