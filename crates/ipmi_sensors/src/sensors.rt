//! Finds sensors in one walk of the sensor data records, with their readings, and prints their blocks.
ghost use Rattle.std.specs.Prelude.{◌≡◌, [], ◌∷◌, ◌+◌, ◌++◌, ◌≤◌, IfErr, IfOk, Ok, OnErr, OnOk};
ghost use Rattle.std.specs.FinSet as set;
ghost use Rattle.ipmi_records.specs.Sdr.{sdr_view_of};
ghost use Rattle.ipmi_bus.specs.CursorState.{start_of};
ghost use Rattle.ipmi_bus.specs.Lent.{row_of_record};
ghost use Rattle.ipmi_bus.specs.Seen.{AsksAtMost, IsHonest};
ghost use Rattle.ipmi_bus.specs.declared.controller.Shelf.TheVariants.{Sdr};
ghost use Rattle.ipmi_bus.specs.declared.step.Place.TheVariants.{End};
ghost use Rattle.ipmi_output.specs.Failure.{write_faults};
ghost use Rattle.ipmi_commands.specs.Prelude.{Finds, IsFrom, LacksValue, most_on_walk, printed, reading_points};
ghost use Rattle.ipmi_sensors.specs.Sensors.{AddsSought, EndsSearch, Found, found_of, found_points, IsBlockOfFound, PrintsFound, reading_in, SearchCalls, Searches, SearchesBy, seeks, with_readings};

use ipmi_bus::{Controller, Cursor, Record, Shelf};
use ipmi_command_line::{Filters, Word};
use ipmi_commands::{
    Format, ReadError, RequestLimits, Summary, Tries, reading_for, start_cursor, write_piece,
};
use ipmi_output::{Failure, Sink};
use ipmi_records::{KnownReading, SdrFault, SdrView};
use ipmi_selection::{Detail, checks, has_one_of, is_name};
use ipmi_text::Reading;
use std::alloc::{AllocError, Global};
use std::marker::Model;

/// Which records a search looks for.
#[derive(Clone, Copy)]
pub enum Sought<'a> {
    /// Those with one of these names.
    Named(&'a [Word]),
    /// Those of the sensors that pass these filters, and each record with a fault, which may be one of a sensor, unless its id is
    /// filtered out.
    Sensors(&'a Filters),
}

impl Sought<'_> {
    /// Whether the record is one of them.
    fn seeks(
        self,
        alloc: Global,
        lent: &Record<'_>,
        view: &Result<SdrView<'_>, SdrFault>,
    ) -> Result<bool, AllocError>
        requires { view.now ≡ sdr_view_of lent.now.bytes.now }
        ensures { IfOk result (λ one. one ≡ seeks self.entry (row_of_record lent.now)) }
    {
        match self {
            Sought::Named(names) => has_one_of(alloc, names, view),
            Sought::Sensors(filters) => checks(alloc, filters, lent, view),
        }
    }
}

/// A record that was found.
#[derive(Drop)]
pub struct FoundSensor {
    id: u16,
    bytes: Vec<u8>,
    /// The reading that belongs to the record, if there is one.
    reading: Option<Reading>,
}

impl Model for FoundSensor {
    ghost use Rattle.ipmi_sensors.specs.Sensors.{Found};

    ghost Value = { Found };

    ghost view = { λ f. record { id = f.id; bytes = f.bytes.items; reading = f.reading } };
}

impl FoundSensor {
    /// The id of the record.
    pub fn id(&self) -> u16
        ensures { result ≡ self.now.id }
    {
        self.id
    }

    /// What the record says, or its fault.
    pub fn view(&self) -> Result<SdrView<'_>, SdrFault>
        ensures { result ≡ sdr_view_of self.now.bytes }
    {
        SdrView::read(&self.bytes)
    }

    /// The reading that belongs to the record, if there is one.
    pub fn reading(&self) -> Option<Reading>
        ensures { result ≡ self.now.reading }
    {
        self.reading
    }
}

/// The sensor data records that a search found, in the order of its walk, each with its reading.
#[derive(Drop)]
pub struct FoundSensors {
    sensors: Vec<FoundSensor>,
}

impl Model for FoundSensors {
    ghost use Rattle.std.specs.Prelude.{List};
    ghost use Rattle.ipmi_sensors.specs.Sensors.{Found};

    ghost Value = { List Found };

    ghost view = { λ f. f.sensors.items };
}

impl FoundSensors {
    /// Those of a search that found nothing.
    pub fn new(alloc: Global) -> FoundSensors
        ensures { result ≡ [] }
    {
        FoundSensors {
            sensors: Vec::new(alloc),
        }
    }

    /// The records.
    pub fn as_slice(&self) -> &[FoundSensor]
        ensures { result.now ≡ self.now }
    {
        &self.sensors
    }

    /// Appends a record with its reading. If out of memory, nothing changes.
    fn push(
        &mut self,
        alloc: Global,
        lent: &Record<'_>,
        reading: Option<Reading>,
    ) -> Result<(), AllocError>
        ensures ok { let row = row_of_record lent.now in
            OnOk result (self.new ≡ self.old ++ record { id = row.id; bytes = row.bytes; reading = reading } ∷ []) }
        ensures err { OnErr result (self.new ≡ self.old) }
    {
        let bytes = Vec::from_slice(alloc, lent.bytes)?;
        let id = lent.id;
        self.sensors.push(FoundSensor { id, bytes, reading })?;
        Ok(())
    }
}

/// Requests the reading that belongs to a record. A record with a fault has none.
fn reading_in<C: Controller>(
    ctl: &mut C,
    id: u16,
    view: &Result<SdrView<'_>, SdrFault>,
    tries: Tries,
) -> Result<Option<Reading>, ReadError>
    ensures calls { (C.seen ctl.new).calls ≤ (C.seen ctl.old).calls + (tries.count + 1) }
    ensures asked { AsksAtMost 0 (C.seen ctl.old) (C.seen ctl.new) }
    ensures says { IfErr result (λ unread. LacksValue unread (C.seen ctl.new)) }
    ensures honest { IsHonest (C.seen ctl.old) →
        Finds (λ store reading. reading ≡ reading_in store view.now) (reading_points id view.now)
        tries (C.seen ctl.old) (C.seen ctl.new) result }
{
    match view {
        Ok(view) => reading_for(ctl, id, view, tries),
        Err(_) => Ok(None),
    }
}

/// Appends the record and its reading to `found` if it is sought. If this fails, `found` is unchanged.
#[tactic(auto, using(crate::proofs::SensorLemmas::adds_none))]
fn find_in<C: Controller>(
    alloc: Global,
    ctl: &mut C,
    tries: Tries,
    sought: Sought<'_>,
    lent: &Record<'_>,
    found: &mut FoundSensors,
) -> Result<(), ReadError>
    ensures calls { (C.seen ctl.new).calls ≤ (C.seen ctl.old).calls + (tries.count + 1) }
    ensures asked { AsksAtMost 0 (C.seen ctl.old) (C.seen ctl.new) }
    ensures says { IfErr result (λ unread. LacksValue unread (C.seen ctl.new)) }
    ensures kept { OnErr result (found.new ≡ found.old) }
    ensures adds { AddsSought sought.entry found.old found.new }
    ensures honest { let row = row_of_record lent.now in IsHonest (C.seen ctl.old) →
        Finds (λ store _. found.new ≡ found.old ++ found_of sought.entry store row) (found_points sought.entry row)
        tries (C.seen ctl.old) (C.seen ctl.new) result }
{
    let view = SdrView::read(lent.bytes);
    if !sought.seeks(alloc, lent, &view)? {
        return Ok(());
    }
    let reading = reading_in(ctl, lent.id, &view, tries)?;
    found.push(alloc, lent, reading)?;
    Ok(())
}

/// Searches the records from the cursor's place on.
fn find_after<'a, C: Controller>(
    alloc: Global,
    cursor: &mut Cursor,
    ctl: &mut C,
    tries: Tries,
    sought: Sought<'_>,
    found: &mut FoundSensors,
) -> Result<(), Failure<'a>>
    requires shelf { cursor.old.shelf ≡ Sdr }
    requires tries { cursor.old.tries ≡ tries.count }
    requires room { set.len cursor.old.ids ≤ 65536 }
    ensures asked { AsksAtMost cursor.old.part (C.seen ctl.old) (C.seen ctl.new) }
    ensures ends { EndsSearch (C.seen ctl.new) result }
    ensures reaches { OnOk result (cursor.new.place ≡ End) }
    ensures adds { AddsSought sought.entry found.old found.new }
    ensures calls { SearchCalls tries cursor.old (C.seen ctl.old) (C.seen ctl.new) }
    ensures honest { IsHonest (C.seen ctl.old) →
        SearchesBy sought.entry tries cursor.old cursor.new (C.seen ctl.old) (C.seen ctl.new)
        found.old found.new result }
{
    'records: loop {
        let record = match cursor.step(ctl) {
            Ok(Some(record)) => record,
            Ok(None) => return Ok(()),
            Err(ended) => return Err(Failure::Ended(ended)),
        };
        match find_in(alloc, ctl, tries, sought, &record, found) {
            Ok(()) => {}
            Err(unread) => return Err(Failure::from(unread)),
        }
    }
}

/// Appends each record that is sought to `found`, with its reading, in one walk of the sensor data records that starts at the id
/// `from` or at the first record. If the walk breaks off, `found` has the records that were found before.
#[tactic(auto, using(crate::proofs::SensorLemmas::adds_none))]
pub fn find_sensors<'a, C: Controller>(
    alloc: Global,
    ctl: &mut C,
    limits: RequestLimits,
    sought: Sought<'_>,
    from: Option<u16>,
    found: &mut FoundSensors,
) -> Result<(), Failure<'a>>
    requires { IsFrom from }
    ensures asked { AsksAtMost limits.part (C.seen ctl.old) (C.seen ctl.new) }
    ensures ends { EndsSearch (C.seen ctl.new) result }
    ensures adds { AddsSought sought.entry found.old found.new }
    ensures calls { (C.seen ctl.new).calls ≤ (C.seen ctl.old).calls + most_on_walk with_readings
        limits.tries }
    ensures searches { IsHonest (C.seen ctl.old) →
        Searches sought.entry (start_of from) limits.tries (C.seen ctl.old) (C.seen ctl.new)
        found.old found.new result }
{
    let mut cursor = start_cursor(alloc, limits, Shelf::Sdr, from)?;
    find_after(alloc, &mut cursor, ctl, limits.tries(), sought, found)
}

/// The block of a found sensor with this name. Empty for any other.
fn found_block<F: Format>(
    alloc: Global,
    format: &F,
    name: &str,
    found: &FoundSensor,
) -> Result<Vec<u8>, AllocError>
    ensures { IfOk result (λ text. IsBlockOfFound (F.texts format.now) name.now found.now
        (sdr_view_of found.now.bytes) text.items) }
{
    let Ok(view) = SdrView::read(&found.bytes) else {
        return Ok(Vec::new(alloc));
    };
    let own = view.name(alloc)?;
    if !is_name(name, &own) {
        return Ok(Vec::new(alloc));
    }
    format.record(
        alloc,
        Detail::Block,
        found.id,
        &view,
        KnownReading::from(found.reading),
    )
}

/// Prints the block of each found sensor with this name, and counts it. Prints nothing if there is
/// none.
pub fn print_sensors<'a, F: Format, O: Sink>(
    alloc: Global,
    found: &FoundSensors,
    name: &str,
    format: &F,
    out: &mut O,
    summary: &mut Summary,
) -> Result<(), Failure<'a>>
    ensures faults { O.faults out.new ≡ O.faults out.old + write_faults result }
    ensures prints { PrintsFound (F.texts format.now) name.now found.now (printed (O.taken out.old) summary.old)
        (printed (O.taken out.new) summary.new) result }
{
    'sensors: for sensor in &found.sensors {
        let block = match found_block(alloc, format, name, sensor) {
            Ok(block) => block,
            Err(_) => return Err(Failure::OutOfMemory),
        };
        match write_piece(&block, false, out, summary) {
            Ok(()) => {}
            Err(failure) => return Err(failure),
        }
    }
    Ok(())
}
