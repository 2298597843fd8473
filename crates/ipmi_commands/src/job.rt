//! The job of each command. A few kinds of jobs cover all commands. Outside this crate a [`Job`] is made by [`Job::of`]
//! alone: what it consists of is a detail.
ghost use Rattle.std.specs.Prelude.{◌≡◌, IfSome, length, Some, true};
ghost use Rattle.ipmi_commands.specs.Below.{is_listing, IsCount, IsTask, row_of_record, start_of, whole_len};
ghost use Rattle.ipmi_commands.specs.Job.{choosing, choosing_entries, choosing_form, devices_job, entries_job, events_job, IsFrom, IsJob, IsPlace, job_of, keeping_last, listing, lists_all, named_entries, searches, shelf_of};
ghost use Rattle.ipmi_commands.specs.declared.job.Job.{Job};
ghost use Rattle.ipmi_commands.specs.Listing.{end_of};
ghost use Rattle.ipmi_commands.specs.Plan.{counts};

use crate::format::Format;
use ipmi_bus::{Place, Record, Shelf};
use ipmi_command_line::{Count, Filters, Task};
use ipmi_events::Sensors;
use ipmi_output::{Failure, RecordName};
use ipmi_selection::{Detail, EntrySelection, Selection};

/// The text of an entry of the event log: which entries have one, and the sensors that have names in it, if they were read.
#[derive(Drop)]
pub struct EntryText<'a> {
    pub(crate) selection: EntrySelection<'a>,
    pub(crate) sensors: Option<Sensors>,
}

/// What is printed for each record of a listing.
#[derive(Drop)]
pub enum Form<'a> {
    /// The text of a sensor data record in hex.
    Hex,
    /// The bytes of a sensor data record.
    Bytes,
    /// The text of a sensor data record in this detail, if it is selected.
    Record(Detail, Selection<'a>),
    /// The block of a sensor data record, if this is its printed name.
    Block(RecordName<'a>),
    /// The inventory of the device that a FRU device locator names.
    Device,
    /// The text of an event log entry.
    Entry(EntryText<'a>),
    /// Nothing: an event log entry is skipped.
    Skipped,
}

/// A listing of records that starts at `start`, with at most `most` records that the form counts if that is Some.
#[derive(Drop)]
pub struct Listing<'a> {
    pub(crate) form: Form<'a>,
    pub(crate) start: Place,
    pub(crate) most: Option<u32>,
}

/// What is listed with names from the sensor data records.
#[derive(Drop)]
pub enum NameLookup<'a> {
    /// These entries of the event log, and of them those that the count selects, with the names of their sensors. The walk
    /// starts at this id, or at the first entry; of `Count::Tail` it starts as that says.
    Events(EntrySelection<'a>, Count, Option<u16>),
    /// All FRU devices, with the name of device 0 too.
    Devices,
}

/// What a command prints of a controller. `image rewrite` has no job, since only an image can do it.
#[derive(Drop)]
pub enum Job<'a> {
    /// Lists records along one walk.
    Records(Listing<'a>),
    /// Lists the last entries of a walk of the event log, at most this many. The walk starts at this id, or at the
    /// first entry.
    Last(EntryText<'a>, u16, Option<u16>),
    /// The same along one walk, which keeps these entries in memory until they are printed.
    LastKept(EntryText<'a>, u16, Option<u16>),
    /// The same along a walk that begins where the info of the event log suggests, if that walk has so many entries and an end,
    /// and otherwise at the first entry.
    Tail(EntryText<'a>, u16),
    /// Reads the sensor data records for names, then lists with these names.
    NameLookup(NameLookup<'a>),
    /// Prints the info of the shelf.
    Info(Shelf),
    /// Prints the inventory of this device with this name, in this detail.
    Inventory(Detail, u8, Option<RecordName<'a>>),
    /// Prints the inventory of device 0 with this name, and of each device that a locator names.
    AllInventories(Option<RecordName<'a>>),
}

impl<'a> EntryText<'a> {
    /// The text of these entries with the names of these sensors.
    pub(crate) fn named(selection: EntrySelection<'a>, sensors: Sensors) -> EntryText<'a>
        ensures { result ≡ named_entries selection.entry sensors }
    {
        EntryText {
            selection,
            sensors: Some(sensors),
        }
    }

    /// The same text, only of the entries that pass these filters.
    fn choosing(self, filters: &'a Filters) -> EntryText<'a>
        ensures { result ≡ choosing_entries filters.now self.entry }
    {
        EntryText {
            selection: self.selection.with_filters(filters),
            sensors: self.sensors,
        }
    }
}

impl<'a> Form<'a> {
    /// The shelf of the records that are printed in this form.
    pub(crate) fn shelf(&self) -> Shelf
        ensures { result ≡ shelf_of self.now }
    {
        match self {
            Form::Entry(_) | Form::Skipped => Shelf::Sel,
            Form::Hex | Form::Bytes | Form::Record(_, _) | Form::Block(_) | Form::Device => {
                Shelf::Sdr
            }
        }
    }

    /// Whether a limit counts the record: it counts each sensor data record, and each entry that the filters let pass.
    pub(crate) fn counts(&self, lent: &Record<'_>) -> bool
        requires { length lent.now.bytes.now ≡ whole_len (shelf_of self.now) lent.now.bytes.now }
        ensures { result ≡ counts self.now (row_of_record lent.now) }
    {
        match self {
            Form::Entry(entries) => entries.selection.selects_record(lent),
            _ => true,
        }
    }

    /// The same form, which prints only the records or entries that pass these filters.
    fn choosing(self, filters: &'a Filters) -> Form<'a>
        ensures { result ≡ choosing_form filters.now self.entry }
    {
        match self {
            Form::Record(detail, selection) => {
                Form::Record(detail, selection.with_filters(filters))
            }
            Form::Entry(entries) => Form::Entry(entries.choosing(filters)),
            form => form,
        }
    }

    /// Whether the form searches for a name.
    fn searches(&self) -> bool
        ensures { result ≡ searches self.now }
    {
        matches!(self, Form::Block(_))
    }

    /// The result of a listing after its last record: Ok of `with`, or Err if the listing searches for a name and
    /// wrote nothing.
    pub(crate) fn end<T: Copy>(&self, wrote: bool, with: T) -> Result<T, Failure<'a>>
        ensures { result ≡ end_of self.now wrote with }
    {
        match self {
            Form::Block(name) if !wrote => Err(Failure::NoName(RecordName::new(name.as_str()))),
            _ => Ok(with),
        }
    }
}

impl<'a> Listing<'a> {
    /// A listing that starts at the id `from`, or at the first record, with at most `most` records if that is Some.
    pub(crate) fn new(form: Form<'a>, from: Option<u16>, most: Option<u32>) -> Listing<'a>
        requires { IsFrom from }
        ensures value { result ≡ listing form.entry (start_of from) most }
        ensures start { IsPlace result.start }
    {
        let start = match from {
            Some(id) => Place::Id(id),
            None => Place::First,
        };
        Listing { form, start, most }
    }
}

impl<'a> Job<'a> {
    /// The job of such a listing.
    fn records(form: Form<'a>, from: Option<u16>, most: Option<u32>) -> Job<'a>
        requires { IsFrom from }
        ensures value { result ≡ Job.Records (listing form.entry (start_of from) most) }
        ensures range { IsJob result }
    {
        Job::Records(Listing::new(form, from, most))
    }

    /// The job of listing the entries that `count` selects, each as such a text.
    fn entries(entries: EntryText<'a>, count: Count, from: Option<u16>) -> Job<'a>
        requires count { IsCount count }
        requires from { IsFrom from }
        ensures value { result ≡ entries_job entries.entry count from }
        ensures range { IsJob result }
    {
        match count {
            Count::All => Job::records(Form::Entry(entries), from, None),
            Count::First(n) => Job::records(Form::Entry(entries), from, Some(u32::from(n))),
            Count::Last(n) => Job::Last(entries, n, from),
            Count::Tail(n) => Job::Tail(entries, n),
        }
    }

    /// The same, with names of sensors or without.
    fn events(has_names: bool, detail: Detail, count: Count, from: Option<u16>) -> Job<'a>
        requires count { IsCount count }
        requires from { IsFrom from }
        ensures value { result ≡ events_job has_names detail count from }
        ensures range { IsJob result }
    {
        if has_names {
            let selection = EntrySelection::in_detail(detail);
            return Job::NameLookup(NameLookup::Events(selection, count, from));
        }
        let (selection, sensors) = (EntrySelection::in_detail(detail), None);
        Job::entries(EntryText { selection, sensors }, count, from)
    }

    /// The job of listing all devices, that of id 0 with its name or without.
    fn devices(has_names: bool) -> Job<'a>
        ensures value { result ≡ devices_job has_names }
        ensures range { IsJob result }
    {
        if has_names {
            return Job::NameLookup(NameLookup::Devices);
        }
        Job::AllInventories(None)
    }

    /// What the task prints in this form of output. A listing starts at the id `from`, or at the first record. None for
    /// `image rewrite`, which only an image can do.
    pub fn of<F: Format>(format: &F, task: &'a Task, from: Option<u16>) -> Option<Job<'a>>
        requires task { IsTask task.now }
        requires from { IsFrom from }
        ensures value { result ≡ job_of (F.texts format.now).has_names task.now from }
        ensures range { IfSome result (λ job. IsJob job) }
        ensures listing { is_listing task.now ≡ true → (job : Job) × (result ≡ Some job) × (lists_all job ≡ true) }
    {
        match task {
            Task::Hex => Some(Job::records(Form::Hex, from, None)),
            Task::List(kind) => {
                let form = Form::Record(Detail::Line, Selection::of_kind(*kind));
                Some(Job::records(form, from, None))
            }
            Task::Elist(kind) => {
                let form = Form::Record(Detail::Long, Selection::of_kind(*kind));
                Some(Job::records(form, from, None))
            }
            Task::Get(name) => {
                let name = RecordName::new(name.as_str());
                Some(Job::records(Form::Block(name), from, None))
            }
            Task::SelList(count) => {
                let detail = Detail::Line;
                Some(Job::events(format.has_names(detail), detail, *count, from))
            }
            Task::SelGet(id) => {
                let detail = Detail::Block;
                let (count, from) = (Count::First(1), Some(*id));
                Some(Job::events(format.has_names(detail), detail, count, from))
            }
            Task::Info(shelf) => Some(Job::Info(*shelf)),
            Task::Fru(None) => Some(Job::devices(format.has_names(Detail::Line))),
            Task::Fru(Some(id)) => Some(Job::Inventory(Detail::Block, *id, None)),
            Task::Rewrite => None,
        }
    }

    /// The same job, but a listing prints only the sensor data records or the entries that pass these filters. A number of
    /// entries counts only these.
    pub fn choosing(self, filters: &'a Filters) -> Job<'a>
        ensures value { result ≡ choosing filters.now self.entry }
        ensures range { IsJob self.entry → IsJob result }
    {
        match self {
            Job::Records(listing) => Job::Records(Listing {
                form: listing.form.choosing(filters),
                start: listing.start,
                most: listing.most,
            }),
            Job::Last(entries, wanted, from) => Job::Last(entries.choosing(filters), wanted, from),
            Job::LastKept(entries, wanted, from) => {
                Job::LastKept(entries.choosing(filters), wanted, from)
            }
            Job::Tail(entries, wanted) => Job::Tail(entries.choosing(filters), wanted),
            Job::NameLookup(NameLookup::Events(selection, count, from)) => {
                Job::NameLookup(NameLookup::Events(selection.with_filters(filters), count, from))
            }
            job => job,
        }
    }

    /// The same job with one walk where it has two: the last entries of the event log are kept in memory, and printed when
    /// the walk is over. With names of sensors they always are.
    pub fn keeping_last(self) -> Job<'a>
        ensures value { result ≡ keeping_last self.entry }
        ensures range { IsJob self.entry → IsJob result }
    {
        match self {
            Job::Last(entries, wanted, from) => Job::LastKept(entries, wanted, from),
            job => job,
        }
    }

    /// Whether the job lists all records of a shelf, and searches for no name, so that it can be done in pages.
    pub fn is_listing(&self) -> bool
        ensures { result ≡ lists_all self.now }
    {
        match self {
            Job::Records(listing) => listing.most.is_none() && !listing.form.searches(),
            Job::NameLookup(NameLookup::Events(_, Count::All, _)) => true,
            _ => false,
        }
    }
}
