//! Which sensor data records and which entries of the event log a listing prints.
ghost use Rattle.std.specs.Prelude.{◌≡◌, ◌≤◌, IfOk, length, option_map, Some, string_bytes};
ghost use Rattle.std.specs.List.{list_any};
ghost use Rattle.ipmi_records.specs.Sdr.{sdr_view_of};
ghost use Rattle.ipmi_bus.specs.Lent.{row_of_record};
ghost use Rattle.ipmi_selection.specs.Selection.{checks, entity_in, entity_of, has_one_of, is_among, is_at_least, is_entity, is_name, is_number, is_of_kind, is_wanted, LooksInside, of_kind, passes, selects, sensor_type_of, with_filters};
ghost use Rattle.ipmi_selection.specs.Selection.{clock_time, event_sensor_type, in_detail, is_between, is_passed, passes_entry, selects_entry, severity_of, time_of, with_entry_filters};

use crate::detail::Detail;
use ipmi_bus::{Record, SEL_ENTRY_LEN};
use ipmi_command_line::{EntityFilter, Filters, IdRange, Ids, Kind, Word, Worse};
use ipmi_events::{Severity, event_severity};
use ipmi_records::{
    COMPACT_TYPE, CONTROLLER_TYPE, EVENT_ONLY_TYPE, Entity, FRU_TYPE, FULL_TYPE, GENERIC_TYPE,
    SdrFault, SdrView, SelView,
};
use std::alloc::{AllocError, Global};
use std::marker::Model;

/// The sensor data records of this kind that pass these filters, if there are any.
#[derive(Drop)]
pub struct Selection<'a> {
    kind: Kind,
    filters: Option<&'a Filters>,
}

impl<'a> Model for Selection<'a> {
    ghost use Rattle.std.specs.Prelude.{option_map};
    ghost use Rattle.ipmi_selection.specs.Selection.{Selected};

    ghost Value = { Selected };

    ghost view = { λ s. record { kind = s.kind; filters = option_map (λ filters. filters.now) s.filters } };
}

impl<'a> Selection<'a> {
    /// The records of this kind.
    pub fn of_kind(kind: Kind) -> Selection<'a>
        ensures { result ≡ of_kind kind }
    {
        let filters = None;
        Selection { kind, filters }
    }

    /// The records of the same kind that pass these filters.
    pub fn with_filters(self, filters: &'a Filters) -> Selection<'a>
        ensures { result ≡ with_filters filters.now self.entry }
    {
        Selection {
            kind: self.kind,
            filters: Some(filters),
        }
    }

    /// Whether the record is one of them.
    pub fn selects(&self, alloc: Global, lent: &Record<'_>) -> Result<bool, AllocError>
        requires { 5 ≤ length lent.now.bytes.now }
        ensures { IfOk result (λ chosen. chosen ≡ selects self.now (row_of_record lent.now)) }
    {
        if !is_of_kind(self.kind, lent.bytes[3]) {
            return Ok(false);
        }
        match self.filters {
            None => Ok(true),
            Some(filters) => passes(alloc, filters, lent),
        }
    }
}

/// The bytes of an event log entry, as an array.
pub fn entry_bytes(bytes: &[u8]) -> &[u8; SEL_ENTRY_LEN]
    requires { length bytes.now ≡ 16 }
    ensures { result.now ≡ bytes.now }
{
    bytes.first_chunk::<SEL_ENTRY_LEN>().unwrap()
}

/// The entries of the event log that pass these filters, if there are any, in this detail.
#[derive(Drop)]
pub struct EntrySelection<'a> {
    detail: Detail,
    filters: Option<&'a Filters>,
}

impl<'a> Model for EntrySelection<'a> {
    ghost use Rattle.std.specs.Prelude.{option_map};
    ghost use Rattle.ipmi_selection.specs.Selection.{SelectedEntries};

    ghost Value = { SelectedEntries };

    ghost view = { λ s. record { detail = s.detail; filters = option_map (λ filters. filters.now) s.filters } };
}

impl<'a> EntrySelection<'a> {
    /// All entries, in this detail.
    pub fn in_detail(detail: Detail) -> EntrySelection<'a>
        ensures { result ≡ in_detail detail }
    {
        let filters = None;
        EntrySelection { detail, filters }
    }

    /// Those that pass these filters, in the same detail.
    pub fn with_filters(self, filters: &'a Filters) -> EntrySelection<'a>
        ensures { result ≡ with_entry_filters filters.now self.entry }
    {
        EntrySelection {
            detail: self.detail,
            filters: Some(filters),
        }
    }

    /// The detail.
    pub fn detail(&self) -> Detail
        ensures { result ≡ self.now.detail }
    {
        self.detail
    }

    /// Whether the record is one of them.
    pub fn selects_record(&self, lent: &Record<'_>) -> bool
        requires { length lent.now.bytes.now ≡ 16 }
        ensures { result ≡ selects_entry self.now (row_of_record lent.now) }
    {
        match self.filters {
            None => true,
            Some(filters) => {
                let entry = SelView::read(entry_bytes(lent.bytes));
                passes_entry(filters, lent.id, &entry)
            }
        }
    }

    /// Whether the entry with this id is one of them.
    pub fn selects(&self, id: u16, entry: &SelView<'_>) -> bool
        ensures { result ≡ is_passed self.now.filters id entry.now }
    {
        match self.filters {
            None => true,
            Some(filters) => passes_entry(filters, id, entry),
        }
    }
}

/// Whether a record is of this kind, according to its type byte.
fn is_of_kind(kind: Kind, record_type: u8) -> bool
    ensures { result ≡ is_of_kind kind record_type }
{
    match kind {
        Kind::Sensors => record_type == FULL_TYPE || record_type == COMPACT_TYPE,
        Kind::All => true,
        Kind::Full => record_type == FULL_TYPE,
        Kind::Compact => record_type == COMPACT_TYPE,
        Kind::Event => record_type == EVENT_ONLY_TYPE,
        Kind::Generic => record_type == GENERIC_TYPE,
        Kind::Mc => record_type == CONTROLLER_TYPE,
        Kind::Fru => record_type == FRU_TYPE,
    }
}

/// Whether a record with the printed name `own` has this name.
pub fn is_name(name: &str, own: &Option<String>) -> bool
    ensures { result ≡ is_name name.now (option_map (λ text. string_bytes text) own.now) }
{
    match own {
        Some(own) => name == own.as_str(),
        None => false,
    }
}

/// Whether a record with the printed name `own` has one of these names.
fn is_one_of(names: &[Word], own: &Option<String>) -> bool
    ensures { result ≡ list_any (λ name. is_name name (option_map (λ text. string_bytes text) own.now)) names.now }
{
    names.iter().any(|name| is_name(name.as_str(), own))
}

/// Whether the record has one of these names.
pub fn has_one_of(
    alloc: Global,
    names: &[Word],
    view: &Result<SdrView<'_>, SdrFault>,
) -> Result<bool, AllocError>
    ensures { IfOk result (λ has. has ≡ has_one_of names.now view.now) }
{
    match view {
        Ok(view) => Ok(is_one_of(names, &view.name(alloc)?)),
        Err(_) => Ok(false),
    }
}

/// Whether the record describes a sensor of this type.
fn is_of_type(wanted: Option<u8>, view: &Result<SdrView<'_>, SdrFault>) -> bool
    ensures { result ≡ is_wanted is_number wanted (sensor_type_of view.now) }
{
    match (wanted, view) {
        (None, _) => true,
        (Some(wanted), Ok(view)) => match view.sensor() {
            Some(sensor) => wanted == sensor.sensor_type,
            None => false,
        },
        (Some(_), Err(_)) => false,
    }
}

/// The entity of the sensor or of the device that the record describes.
fn entity_of(view: &SdrView<'_>) -> Option<Entity>
    ensures { result ≡ entity_of view.now }
{
    match view.sensor() {
        Some(sensor) => Some(sensor.entity),
        None => view.locator().map(|locator| locator.entity),
    }
}

/// Whether this is the entity.
fn is_entity(wanted: EntityFilter, entity: Entity) -> bool
    ensures { result ≡ is_entity wanted entity }
{
    wanted.id == entity.id
        && match wanted.instance {
            Some(instance) => instance == entity.instance,
            None => true,
        }
}

/// Whether the record belongs to the entity.
fn is_of_entity(wanted: Option<EntityFilter>, view: &Result<SdrView<'_>, SdrFault>) -> bool
    ensures { result ≡ is_wanted is_entity wanted (entity_in view.now) }
{
    match (wanted, view) {
        (None, _) => true,
        (Some(wanted), Ok(view)) => match entity_of(view) {
            Some(entity) => is_entity(wanted, entity),
            None => false,
        },
        (Some(_), Err(_)) => false,
    }
}

/// Whether the id is in one of these ranges.
fn is_among(ranges: &[IdRange], id: u16) -> bool
    ensures { result ≡ is_among ranges.now id }
{
    ranges
        .iter()
        .any(|range| range.first <= id && id <= range.last)
}

/// Whether the filter lets a record with this id pass.
fn has_id(wanted: &Option<Ids>, id: u16) -> bool
    ensures { result ≡ is_wanted is_among wanted.now (Some id) }
{
    match wanted {
        Some(ids) => is_among(ids.as_slice(), id),
        None => true,
    }
}

/// Whether a filter looks at more than the id of a record.
fn looks_inside(filters: &Filters) -> bool
    ensures { LooksInside filters.now result }
{
    filters.sensor_type.is_some()
        || filters.entity.is_some()
        || !filters.excluded.as_slice().is_empty()
}

/// Whether the record passes the filters.
fn passes(alloc: Global, filters: &Filters, lent: &Record<'_>) -> Result<bool, AllocError>
    ensures { IfOk result (λ is. is ≡ passes filters.now (row_of_record lent.now)) }
{
    if !has_id(&filters.ids, lent.id)
        || !is_between(filters.since, filters.until, None)
        || filters.worse.is_some()
    {
        return Ok(false);
    }
    if !looks_inside(filters) {
        return Ok(true);
    }
    let view = SdrView::read(lent.bytes);
    if !is_of_type(filters.sensor_type, &view) || !is_of_entity(filters.entity, &view) {
        return Ok(false);
    }
    let excluded = has_one_of(alloc, filters.excluded.as_slice(), &view)?;
    Ok(!excluded)
}

/// Whether a check looks at the record: at a sensor that passes the filters, and at a record with a fault, unless its id is filtered
/// out.
pub fn checks(
    alloc: Global,
    filters: &Filters,
    lent: &Record<'_>,
    view: &Result<SdrView<'_>, SdrFault>,
) -> Result<bool, AllocError>
    requires { view.now ≡ sdr_view_of lent.now.bytes.now }
    ensures { IfOk result (λ is. is ≡ checks filters.now (row_of_record lent.now)) }
{
    if !has_id(&filters.ids, lent.id) {
        return Ok(false);
    }
    match view {
        Ok(SdrView::Full(_) | SdrView::Compact(_)) => passes(alloc, filters, lent),
        Ok(_) => Ok(false),
        Err(_) => Ok(true),
    }
}

/// The sensor type of an event. Other entries have none.
fn event_sensor_type(entry: &SelView<'_>) -> Option<u8>
    ensures { result ≡ event_sensor_type entry.now }
{
    match entry {
        SelView::Event(event) => Some(event.sensor_type()),
        _ => None,
    }
}

/// The last time stamp that counts from the start of the controller's clock.
const LAST_SINCE_START: u32 = 0x2000_0000;

/// The time stamp that says nothing.
const UNSPECIFIED: u32 = 0xFFFF_FFFF;

/// The seconds since 1970, if a time stamp says so.
fn clock_time(stamp: u32) -> Option<u32>
    ensures { result ≡ clock_time stamp }
{
    if LAST_SINCE_START < stamp && stamp < UNSPECIFIED {
        Some(stamp)
    } else {
        None
    }
}

/// The time of an entry, in seconds since 1970, if it has one.
fn time_of(entry: &SelView<'_>) -> Option<u32>
    ensures { result ≡ time_of entry.now }
{
    match entry {
        SelView::Event(event) => clock_time(event.time_stamp()),
        SelView::OemTimed(entry) => clock_time(entry.time_stamp()),
        _ => None,
    }
}

/// Whether the number is the wanted one, if one is.
fn is_number(wanted: Option<u8>, found: Option<u8>) -> bool
    ensures { result ≡ is_wanted is_number wanted found }
{
    match (wanted, found) {
        (None, _) => true,
        (Some(wanted), Some(found)) => wanted == found,
        (Some(_), None) => false,
    }
}

/// Whether the time is between these, if they are given.
fn is_between(since: Option<u32>, until: Option<u32>, time: Option<u32>) -> bool
    ensures { result ≡ is_between since until time }
{
    match time {
        None => since.is_none() && until.is_none(),
        Some(time) => {
            let is_late = match since {
                Some(first) => first <= time,
                None => true,
            };
            let is_early = match until {
                Some(last) => time <= last,
                None => true,
            };
            is_late && is_early
        }
    }
}

/// The severity of an event. Other entries have none.
fn severity_of(entry: &SelView<'_>) -> Option<Severity>
    ensures { result ≡ severity_of entry.now }
{
    match entry {
        SelView::Event(event) => event_severity(event),
        _ => None,
    }
}

/// Whether the severity is as bad as this, or worse.
fn is_at_least(worse: Worse, severity: Severity) -> bool
    ensures { result ≡ is_at_least worse severity }
{
    match severity {
        Severity::Nominal => false,
        Severity::Warning => worse == Worse::Warning,
        Severity::Critical => true,
    }
}

/// Whether the filter lets this entry pass.
fn is_bad_enough(wanted: Option<Worse>, entry: &SelView<'_>) -> bool
    ensures { result ≡ is_wanted is_at_least wanted (severity_of entry.now) }
{
    match wanted {
        None => true,
        Some(worse) => match severity_of(entry) {
            Some(severity) => is_at_least(worse, severity),
            None => false,
        },
    }
}

/// Whether the entry passes the filters.
fn passes_entry(filters: &Filters, id: u16, entry: &SelView<'_>) -> bool
    ensures { result ≡ passes_entry filters.now id entry.now }
{
    is_number(filters.sensor_type, event_sensor_type(entry))
        && filters.entity.is_none()
        && has_id(&filters.ids, id)
        && is_between(filters.since, filters.until, time_of(entry))
        && is_bad_enough(filters.worse, entry)
}
