//! Which records of a listing are printed.
ghost use Rattle.std.specs.Prelude.{◌≡◌, ◌⊎◌, ◌-◌, ◌==◌, codes, IfOk, map, MatchResult, None, option_map, Some, string_bytes};
ghost use Rattle.std.specs.List.{filter_map, list_all, slice_split};
ghost use Rattle.clap.specs.Words.{first_of, found_of, rows_of};
ghost use Rattle.ipmi_command_line.specs.Values.{values_of};
ghost use Rattle.ipmi_command_line.specs.Commands.{texts};
ghost use Rattle.ipmi_command_line.specs.Filters.{ago_of, are_given, are_ordered, byte_of, days_of, entity_of, entity_text, filters_of, full_time, id_range, ids_of, ids_text, is_id_range, no_filters, now_of, optional, sensor_type_of, stamp_of, time_from, time_of, type_text, worse_of};
ghost use Rattle.ipmi_command_line.specs.declared.error.UsageError.{UsageError};

use crate::arguments::value;
use crate::commands::{Operand, Verb};
use crate::error::{Hint, UsageError};
use crate::mistake::{unknown_type, value_error};
use crate::number::{decimal, hex_id, number};
use crate::request::copies_of;
use crate::words::Words;
use clap::ArgMatches;
use ipmi_text::SensorType;
use jiff::Timestamp;
use std::alloc::{AllocError, Global};
use std::marker::Model;

/// An entity, or one instance of it (IPMI v2.0, section 43.14).
#[derive(Clone, Copy, Debug, PartialEq, Eq)]
pub struct EntityFilter {
    /// The entity id.
    pub id: u8,
    /// The instance, 0 to 127. None: each of them.
    pub instance: Option<u8>,
}

/// Record ids, from the first to the last.
#[derive(Clone, Copy, Debug, PartialEq, Eq)]
pub struct IdRange {
    /// The first id.
    pub first: u16,
    /// The last id.
    pub last: u16,
}

/// Record ids, as ranges. In contracts they are a list.
#[derive(Debug, Drop)]
pub struct Ids {
    ranges: Vec<IdRange>,
}

impl Model for Ids {
    ghost use Rattle.std.specs.Prelude.{List};
    ghost use Rattle.ipmi_command_line.specs.declared.filters.IdRange.{IdRange};

    ghost Value = { List IdRange };

    ghost view = { λ ids. ids.ranges.items };
}

impl Ids {
    /// The ranges, in the order of the command line.
    pub fn as_slice(&self) -> &[IdRange]
        ensures { result.now ≡ self.now }
    {
        self.ranges.as_slice()
    }
}

/// The least severity of an event.
#[derive(Clone, Copy, Debug, PartialEq, Eq)]
pub enum Worse {
    /// A warning or worse.
    Warning,
    /// Critical.
    Critical,
}

/// What a record has to be so that a listing prints it. A filter that was not given lets every record pass.
#[derive(Debug, Drop)]
pub struct Filters {
    /// It is about a sensor of this type (IPMI v2.0, table 42-3).
    pub sensor_type: Option<u8>,
    /// It belongs to this entity.
    pub entity: Option<EntityFilter>,
    /// Its id is in one of these ranges.
    pub ids: Option<Ids>,
    /// Its name is none of these.
    pub excluded: Words,
    /// Its time is this one or later, in seconds since 1970.
    pub since: Option<u32>,
    /// Its time is this one or earlier.
    pub until: Option<u32>,
    /// It is at least this bad.
    pub worse: Option<Worse>,
}

impl Filters {
    /// Every record passes.
    pub fn new(alloc: Global) -> Filters
        ensures { result ≡ no_filters }
    {
        Filters {
            sensor_type: None,
            entity: None,
            ids: None,
            excluded: Words::new(alloc),
            since: None,
            until: None,
            worse: None,
        }
    }

    /// Whether there are any.
    pub fn are_given(&self) -> bool
        ensures { result ≡ are_given self.now }
    {
        self.sensor_type.is_some()
            || self.entity.is_some()
            || self.ids.is_some()
            || !self.excluded.as_slice().is_empty()
            || self.since.is_some()
            || self.until.is_some()
            || self.worse.is_some()
    }
}

/// The number from 0 to `high`.
fn byte_of(text: &str, high: u8) -> Option<u8>
    ensures { result ≡ byte_of high text.now }
{
    match number(text, 0, u16::from(high)) {
        Some(n) => Some(n as u8),
        None => None,
    }
}

/// The sensor type with this name or number.
fn sensor_type_of(text: &str) -> Option<u8>
    ensures { result ≡ sensor_type_of text.now }
{
    match SensorType::named(text) {
        Some(kind) => Some(kind.0),
        None => byte_of(text, u8::MAX),
    }
}

/// The largest instance of an entity.
const LAST_INSTANCE: u8 = 127;

/// The entity `ID`, or its instance `ID.INSTANCE`.
fn entity_of(text: &str) -> Option<EntityFilter>
    ensures { result ≡ entity_of text.now }
{
    let Some((id, instance)) = text.split_once('.') else {
        let instance = None;
        return byte_of(text, u8::MAX).map(|id| EntityFilter { id, instance });
    };
    match (byte_of(id, u8::MAX), byte_of(instance, LAST_INSTANCE)) {
        (Some(id), Some(instance)) => Some(EntityFilter {
            id,
            instance: Some(instance),
        }),
        _ => None,
    }
}

/// The id `ID`, or the ids `FIRST-LAST`.
fn id_range(text: &str) -> Option<IdRange>
    ensures { result ≡ id_range text.now }
{
    let Some((first, last)) = text.split_once('-') else {
        return hex_id(text, 0).map(|id| IdRange {
            first: id,
            last: id,
        });
    };
    match (hex_id(first, 0), hex_id(last, 0)) {
        (Some(first), Some(last)) if first <= last => Some(IdRange { first, last }),
        _ => None,
    }
}

/// The texts between commas.
fn parts_of<'a>(alloc: Global, text: &'a str) -> Result<Vec<&'a str>, AllocError>
    ensures { IfOk result (λ parts. texts parts.items ≡ slice_split (λ b. b == 44) text.now) }
{
    text.split(',').collect(alloc)
}

/// Whether each text is an id or a range of ids.
fn are_ranges(parts: &[&str]) -> bool
    ensures { result ≡ list_all (λ part. is_id_range part.now) parts.now }
{
    parts.iter().all(|part| id_range(part).is_some())
}

/// The ids and ranges of ids.
fn ranges_of(alloc: Global, parts: &[&str]) -> Result<Vec<IdRange>, AllocError>
    ensures { IfOk result (λ ranges. ranges.items ≡ filter_map (λ part. id_range part.now) parts.now) }
{
    parts
        .iter()
        .filter_map(|part| id_range(part))
        .collect(alloc)
}

/// The ids and ranges of ids between commas.
pub(crate) fn ids_of(alloc: Global, text: &str) -> Result<Option<Ids>, AllocError>
    ensures { IfOk result (λ ids. ids ≡ ids_of text.now) }
{
    let parts = parts_of(alloc, text)?;
    if !are_ranges(parts.as_slice()) {
        return Ok(None);
    }
    let ranges = ranges_of(alloc, parts.as_slice())?;
    Ok(Some(Ids { ranges }))
}

/// A date as the text of the moment at which it begins in UTC. Another text as it is.
fn full_time(alloc: Global, text: &str) -> Result<String, AllocError>
    ensures { IfOk result (λ full. string_bytes full ≡ full_time text.now) }
{
    let rest = if text.len() == DATE_LEN {
        "T00:00:00Z"
    } else {
        ""
    };
    format!(in alloc; "{text}{rest}")
}

/// The number of bytes of a date, such as `2026-11-30`.
const DATE_LEN: usize = 10;

/// The seconds, if a time stamp can hold them.
fn stamp_of(second: i64) -> Option<u32>
    ensures { result ≡ stamp_of second }
{
    match u32::try_from(second) {
        Ok(stamp) => Some(stamp),
        Err(_) => None,
    }
}

/// The seconds since 1970 of a date, or of a moment in ISO 8601 with `Z` or an offset.
fn time_of(alloc: Global, text: &str) -> Result<Option<u32>, AllocError>
    ensures { IfOk result (λ time. time ≡ time_of text.now) }
{
    let full = full_time(alloc, text)?;
    match full.as_str().parse::<Timestamp>() {
        Ok(moment) => Ok(stamp_of(moment.as_second())),
        Err(_) => Ok(None),
    }
}

/// The seconds in so many hours, as `2h`, or days, as `3d`.
fn ago_of(text: &str) -> Option<u64>
    ensures value { result ≡ ago_of text.now }
{
    match text.split_once('h') {
        Some((count, rest)) if rest.is_empty() => {
            decimal(count, 0, u16::MAX).map(|hours| u64::from(hours) * 3600)
        }
        _ => days_of(text),
    }
}

/// The seconds in so many days, as `3d`.
fn days_of(text: &str) -> Option<u64>
    ensures value { result ≡ days_of text.now }
{
    match text.split_once('d') {
        Some((count, rest)) if rest.is_empty() => {
            decimal(count, 0, u16::MAX).map(|days| u64::from(days) * 86_400)
        }
        _ => None,
    }
}

/// The seconds since 1970 so many seconds before `now`, or 0 if that is before 1970.
fn before(now: u32, ago: u64) -> u32
    ensures { result ≡ now - ago }
{
    u64::from(now).saturating_sub(ago) as u32
}

/// The seconds since 1970 of a time, or of hours or days before `now`.
fn time_from(alloc: Global, now: u32, text: &str) -> Result<Option<u32>, AllocError>
    ensures { IfOk result (λ time. time ≡ time_from now text.now) }
{
    match ago_of(text) {
        Some(ago) => Ok(Some(before(now, ago))),
        None => time_of(alloc, text),
    }
}

/// The severity with this name.
fn worse_of(text: &str) -> Option<Worse>
    ensures { result ≡ worse_of text.now }
{
    match text {
        "warning" => Some(Worse::Warning),
        "critical" => Some(Worse::Critical),
        _ => None,
    }
}

// ---- the options

/// The sensor type of the command `sdr type`, or of `--type`.
fn type_text<'a>(verb: Verb, words: &[&'a str], matches: &ArgMatches<'a>) -> Option<&'a str>
    ensures { option_map (λ text. text.now) result ≡ type_text verb (texts words.now) (rows_of (found_of matches.now)) }
{
    match verb {
        Verb::ListOfType => words.get(2).copied(),
        _ => value(matches, "type"),
    }
}

/// The entity of the command `sdr entity`, or of `--entity`.
fn entity_text<'a>(verb: Verb, words: &[&'a str], matches: &ArgMatches<'a>) -> Option<&'a str>
    ensures { option_map (λ text. text.now) result ≡ entity_text verb (texts words.now) (rows_of (found_of matches.now)) }
{
    match verb {
        Verb::ListOfEntity => words.get(2).copied(),
        _ => value(matches, "entity"),
    }
}

/// The ids of `--id`, which of `sel get` and `fru print` is no filter.
fn ids_text<'a>(verb: Verb, matches: &ArgMatches<'a>) -> Option<&'a str>
    ensures { option_map (λ text. text.now) result ≡ ids_text verb (rows_of (found_of matches.now)) }
{
    match verb {
        Verb::GetEntries | Verb::PrintInventories => None,
        _ => value(matches, "id"),
    }
}

/// The sensor type.
fn type_in<'a>(alloc: Global, text: Option<&'a str>) -> Result<Option<u8>, UsageError<'a>>
    ensures { let meant = optional sensor_type_of (option_map (λ text. text.now) text.entry) in
        MatchResult result (λ found. meant ≡ Some found) (λ e. (e ≡ UsageError.Memory) ⊎ (meant ≡ None)) }
{
    let Some(text) = text else {
        return Ok(None);
    };
    match sensor_type_of(text) {
        Some(code) => Ok(Some(code)),
        None => Err(unknown_type(alloc, text)?),
    }
}

/// The entity.
fn entity_in<'a>(text: Option<&'a str>) -> Result<Option<EntityFilter>, UsageError<'a>>
    ensures { let meant = optional entity_of (option_map (λ text. text.now) text.entry) in
        MatchResult result (λ found. meant ≡ Some found) (λ _. meant ≡ None) }
{
    let Some(text) = text else {
        return Ok(None);
    };
    match entity_of(text) {
        Some(entity) => Ok(Some(entity)),
        None => Err(UsageError::WrongWord(text, Operand::Entity, Hint::None)),
    }
}

/// The ids.
fn ids_in<'a>(alloc: Global, text: Option<&'a str>) -> Result<Option<Ids>, UsageError<'a>>
    ensures { let meant = optional ids_of (option_map (λ text. text.now) text.entry) in
        MatchResult result (λ found. meant ≡ Some found) (λ e. (e ≡ UsageError.Memory) ⊎ (meant ≡ None)) }
{
    let Some(text) = text else {
        return Ok(None);
    };
    match ids_of(alloc, text)? {
        Some(ids) => Ok(Some(ids)),
        None => Err(value_error("id", Some(text))),
    }
}

/// The time before which hours and days are counted: that of `--now`, or else of the clock.
fn now_in<'a>(alloc: Global, clock: u32, text: Option<&'a str>) -> Result<u32, UsageError<'a>>
    ensures { let meant = now_of clock (option_map (λ text. text.now) text.entry) in
        MatchResult result (λ now. meant ≡ Some now) (λ e. (e ≡ UsageError.Memory) ⊎ (meant ≡ None)) }
{
    let Some(text) = text else {
        return Ok(clock);
    };
    match time_of(alloc, text)? {
        Some(now) => Ok(now),
        None => Err(value_error("now", Some(text))),
    }
}

/// The time of this option.
fn time_in<'a>(
    alloc: Global,
    option: &'static str,
    now: u32,
    text: Option<&'a str>,
) -> Result<Option<u32>, UsageError<'a>>
    ensures { let meant = optional (time_from now) (option_map (λ text. text.now) text.entry) in
        MatchResult result (λ found. meant ≡ Some found) (λ e. (e ≡ UsageError.Memory) ⊎ (meant ≡ None)) }
{
    let Some(text) = text else {
        return Ok(None);
    };
    match time_from(alloc, now, text)? {
        Some(time) => Ok(Some(time)),
        None => Err(value_error(option, Some(text))),
    }
}

/// The least severity.
fn worse_in<'a>(text: Option<&'a str>) -> Result<Option<Worse>, UsageError<'a>>
    ensures { let meant = optional worse_of (option_map (λ text. text.now) text.entry) in
        MatchResult result (λ found. meant ≡ Some found) (λ _. meant ≡ None) }
{
    let Some(text) = text else {
        return Ok(None);
    };
    match worse_of(text) {
        Some(worse) => Ok(Some(worse)),
        None => Err(value_error("worse", Some(text))),
    }
}

/// Whether the first time is not after the second, if both are given.
fn are_ordered(since: Option<u32>, until: Option<u32>) -> bool
    ensures { result ≡ are_ordered since until }
{
    match (since, until) {
        (Some(since), Some(until)) => since <= until,
        _ => true,
    }
}

/// Which records a command prints. `clock` has the seconds since 1970.
pub(crate) fn filters_of<'a>(
    alloc: Global,
    clock: u32,
    verb: Verb,
    words: &[&'a str],
    matches: &ArgMatches<'a>,
) -> Result<Filters, UsageError<'a>>
    ensures { let meant = filters_of clock verb (texts words.now) (rows_of (found_of matches.now)) in
        MatchResult result (λ filters. meant ≡ Some filters) (λ e. (e ≡ UsageError.Memory) ⊎ (meant ≡ None)) }
{
    let sensor_type = type_in(alloc, type_text(verb, words, matches))?;
    let entity = entity_in(entity_text(verb, words, matches))?;
    let ids = ids_in(alloc, ids_text(verb, matches))?;
    let excluded = copies_of(alloc, matches, "exclude")?;
    let now = now_in(alloc, clock, value(matches, "now"))?;
    let since = time_in(alloc, "since", now, value(matches, "since"))?;
    let until = time_in(alloc, "until", now, value(matches, "until"))?;
    let worse = worse_in(value(matches, "worse"))?;
    if !are_ordered(since, until) {
        return Err(UsageError::SinceAfterUntil);
    }
    Ok(Filters {
        sensor_type,
        entity,
        ids,
        excluded,
        since,
        until,
        worse,
    })
}
