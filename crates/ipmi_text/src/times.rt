//! The texts of points in time.
ghost use Rattle.std.specs.Prelude.{◌≡◌, ◌+◌, ◌/◌, ◌%◌, ◌<◌, ◌≤◌, ◌^◌, IfOk, string_bytes, pos, unsigned_abs};
ghost use Rattle.jiff.specs.Words.{epoch_day};
ghost use Rattle.ipmi_text.specs.Times.{IsMinutesTextOf, IsMoment, IsUtcTextOf, minute_text, second_text, meaning_text};
ghost use Rattle.ipmi_text.specs.TwoDigits.{two_digits};

use crate::ascii::AsciiText;
use crate::capacity::text_with_capacity;
use jiff_core::civil::Date;
use std::alloc::{AllocError, Global};
use std::fmt;
use std::marker::Model;

/// 1996-01-01 00:00, in seconds after 1970-01-01 00:00.
const FIRST_FRU_SECOND: u32 = 820_454_400;

/// The length of `YYYY-MM-DD HH:MM`.
const TO_THE_MINUTE: usize = 16;

/// The capacity for a text: a date and a time take 19 bytes.
const CAPACITY: usize = 24;

const SECONDS_OF_DAY: u32 = 86_400;

/// The last time stamp that counts from the start of the controller's clock.
const LAST_SINCE_START: u32 = 0x2000_0000;

/// What a time stamp of the event log means (IPMI v2.0, section 37).
#[derive(Clone, Copy, Debug)]
enum Meaning {
    /// FFFFFFFFh: no time.
    Unspecified,
    /// Up to 20000000h: seconds since the start of the controller's clock.
    SinceStart(u32),
    /// A moment in UTC, as `YYYY-MM-DD HH:MM:SS`.
    At(AsciiText<19>),
}

/// A time stamp of the event log, printed like `utc_text`. In contracts it is its text.
#[derive(Debug, Drop)]
pub struct UtcTime {
    meaning: Meaning,
}

impl Model for UtcTime {
    ghost use Rattle.std.specs.Prelude.{List, ℕ};
    ghost use Rattle.ipmi_text.specs.Times.{meaning_text};

    ghost Value = { List ℕ };

    ghost view = { λ time. meaning_text time.meaning };
}

impl UtcTime {
    /// The time stamp with this number of seconds.
    pub fn of(seconds: u32) -> UtcTime
        ensures { IsUtcTextOf seconds result }
    {
        UtcTime {
            meaning: meaning_of(seconds),
        }
    }
}

/// The meaning of a time stamp with this number of seconds.
fn meaning_of(seconds: u32) -> Meaning
    ensures { IsUtcTextOf seconds (meaning_text result) }
{
    if seconds == u32::MAX {
        Meaning::Unspecified
    } else if seconds <= LAST_SINCE_START {
        Meaning::SinceStart(seconds)
    } else {
        Meaning::At(moment_of(seconds))
    }
}

impl fmt::Display for UtcTime {
    ghost use Rattle.std.specs.Prelude.{Some};

    ghost output = { λ time. Some time };

    fn fmt<W: fmt::Write>(&self, f: &mut fmt::Formatter<W>) -> fmt::Result {
        match self.meaning {
            Meaning::Unspecified => f.write_str("unspecified"),
            Meaning::SinceStart(seconds) => write!(f, "+{seconds} s"),
            Meaning::At(moment) => f.write_str(moment.as_str()),
        }
    }
}

/// The date `day` days after 1970-01-01.
fn date_of_day(day: u32) -> Date
    requires { day < 100000 }
    ensures day { epoch_day result ≡ pos day }
    ensures year { result.year ≡ pos (unsigned_abs result.year) }
{
    Date::from_unix_epoch_day(i64::from(day)).unwrap()
}

/// A number below 100 in two digits.
#[inline(always)]
fn two_digits(value: u32) -> [u8; 2]
    requires { value < 100 }
    ensures { result ≡ two_digits value }
{
    [b'0' + (value / 10) as u8, b'0' + (value % 10) as u8]
}

/// `YYYY-MM-DD HH:MM:SS` for `seconds` seconds after 1970-01-01 00:00:00.
fn moment_of(seconds: u32) -> AsciiText<19>
    ensures { IsMoment (seconds / 86_400) (second_text (seconds % 86_400)) result.characters }
{
    let date = date_of_day(seconds / SECONDS_OF_DAY);
    let year = u32::from(date.year.unsigned_abs());
    let second = seconds % SECONDS_OF_DAY;
    let [y0, y1] = two_digits(year / 100);
    let [y2, y3] = two_digits(year % 100);
    let [m0, m1] = two_digits(u32::from(date.month));
    let [d0, d1] = two_digits(u32::from(date.day));
    let [h0, h1] = two_digits(second / 60 / 60);
    let [n0, n1] = two_digits(second / 60 % 60);
    let [s0, s1] = two_digits(second % 60);
    let characters = [
        y0, y1, y2, y3, b'-', m0, m1, b'-', d0, d1, b' ', h0, h1, b':', n0, n1, b':', s0, s1,
    ];
    AsciiText { characters }
}

/// `YYYY-MM-DD HH:MM` for `minutes` minutes after 1996-01-01 00:00.
fn text_to_minute(alloc: Global, minutes: u32) -> Result<String, AllocError>
    requires { minutes < 2 ^ 24 }
    ensures { IfOk result (λ text. IsMoment (9496 + minutes / 1440)
        (minute_text (minutes % 1440)) (string_bytes text)) }
{
    let moment = moment_of(FIRST_FRU_SECOND + 60 * minutes);
    String::from_str(alloc, &moment.as_str()[..TO_THE_MINUTE])
}

/// The text of a time stamp of the event log, in seconds (IPMI v2.0, section 37): `unspecified` for
/// FFFFFFFFh; `+N s` up to 20000000h, counted from the start of the controller's clock; otherwise
/// `YYYY-MM-DD HH:MM:SS` in UTC.
pub fn utc_text(alloc: Global, seconds: u32) -> Result<String, AllocError>
    ensures { IfOk result (λ text. IsUtcTextOf seconds (string_bytes text)) }
{
    text_with_capacity(alloc, CAPACITY, UtcTime::of(seconds))
}

/// The text of a board's manufacturing date, in minutes from 1996-01-01 00:00 (Platform Management
/// FRU Information Storage Definition v1.0, section 11): `unspecified` for 0, otherwise `YYYY-MM-DD
/// HH:MM` in UTC.
pub fn minutes_text(alloc: Global, minutes: u32) -> Result<String, AllocError>
    requires { minutes ≤ 0xff_ffff }
    ensures { IfOk result (λ text. IsMinutesTextOf minutes (string_bytes text)) }
{
    if minutes == 0 {
        String::from_str(alloc, "unspecified")
    } else {
        text_to_minute(alloc, minutes)
    }
}
