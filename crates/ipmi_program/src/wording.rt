//! The form of output that a user chose.
ghost use Rattle.std.specs.Prelude.{◌≡◌};
ghost use Rattle.ipmi_program.specs.Wording.{table_of, wording_of};

use ipmi_bus::{Record, Shelf};
use ipmi_command_line::{Form, Format as Wanted, Task};
use ipmi_commands::{Format, Framed, Table};
use ipmi_csv::Csv;
use ipmi_events::Sensors;
use ipmi_image::LineBuffer;
use ipmi_json::{Json, Label};
use ipmi_plain::{Descriptive, Plain};
use ipmi_records::{KnownReading, SdrFault, SdrView, SelView};
use ipmi_selection::Detail;
use std::alloc::{AllocError, Global};

/// A form of output.
#[derive(Clone, Copy, Debug)]
pub enum Wording<'a> {
    /// The specified texts, in which most events and states are numbers: [`Plain`].
    Plain,
    /// The words of the standard's tables: [`Descriptive`].
    Descriptive,
    /// Objects with these labels: [`Json`].
    Json(&'a [Label<'a>]),
    /// Rows of values: [`Csv`].
    Csv(Csv<'a>),
}

/// Evaluates the same expression for the form of output that was chosen.
macro_rules! in_form {
    ($wording:expr, $form:ident => $result:expr) => {
        match $wording {
            Wording::Plain => {
                let $form = &Plain;
                $result
            }
            Wording::Descriptive => {
                let $form = &Descriptive;
                $result
            }
            Wording::Json(labels) => {
                let $form = &Json { labels };
                $result
            }
            Wording::Csv($form) => $result,
        }
    };
}

impl<'a> Wording<'a> {
    /// The form of output that a command line asks for, with these labels.
    pub fn of(format: &Wanted, labels: &'a [Label<'a>]) -> Wording<'a>
        ensures { result ≡ wording_of format.now labels.entry }
    {
        match format {
            Wanted::Plain => Wording::Plain,
            Wanted::Descriptive => Wording::Descriptive,
            Wanted::Labelled(Form::Json, _, _) => Wording::Json(labels),
            Wanted::Labelled(Form::Csv, separator, _) => {
                let separator = *separator;
                Wording::Csv(Csv { separator, labels })
            }
        }
    }
}

/// The table of what the task prints.
pub fn table_of(task: &Task) -> Table
    ensures { result ≡ table_of task.now }
{
    match task {
        Task::Hex | Task::Rewrite => Table::RawRecords,
        Task::List(_) | Task::Elist(_) | Task::Get(_) => Table::Records,
        Task::Info(_) => Table::Infos,
        Task::SelList(_) | Task::SelGet(_) => Table::Entries,
        Task::Fru(_) => Table::Devices,
    }
}

impl Format for Wording<'_> {
    ghost use Rattle.ipmi_program.specs.Wording.{texts_in};

    ghost texts = { λ wording. texts_in wording };

    fn has_names(&self, detail: Detail) -> bool {
        in_form!(self, form => form.has_names(detail))
    }

    #[inline(always)]
    fn record(
        &self,
        alloc: Global,
        detail: Detail,
        id: u16,
        view: &SdrView<'_>,
        reading: KnownReading,
    ) -> Result<Vec<u8>, AllocError> {
        in_form!(self, form => form.record(alloc, detail, id, view, reading))
    }

    fn fault(
        &self,
        alloc: Global,
        id: u16,
        fault: SdrFault,
        bytes: &[u8],
    ) -> Result<Vec<u8>, AllocError> {
        in_form!(self, form => form.fault(alloc, id, fault, bytes))
    }

    #[inline(always)]
    fn hex(
        &self,
        alloc: Global,
        lent: &Record<'_>,
        line: &mut LineBuffer,
    ) -> Result<Option<Vec<u8>>, AllocError> {
        in_form!(self, form => form.hex(alloc, lent, line))
    }

    #[inline(always)]
    fn entry(
        &self,
        alloc: Global,
        detail: Detail,
        id: u16,
        entry: &SelView<'_>,
        sensors: Option<&Sensors>,
    ) -> Result<Vec<u8>, AllocError> {
        in_form!(self, form => form.entry(alloc, detail, id, entry, sensors))
    }

    fn info(&self, alloc: Global, shelf: Shelf, info: &[u8; 14]) -> Result<Vec<u8>, AllocError> {
        in_form!(self, form => form.info(alloc, shelf, info))
    }

    fn device(
        &self,
        alloc: Global,
        detail: Detail,
        id: u8,
        name: Option<&str>,
        inventory: Option<&[u8]>,
    ) -> Result<Vec<u8>, AllocError> {
        in_form!(self, form => form.device(alloc, detail, id, name, inventory))
    }

    fn names_fault(&self, detail: Detail, inventory: &[u8]) -> bool {
        in_form!(self, form => form.names_fault(detail, inventory))
    }

    fn elsewhere(&self, alloc: Global, name: &str) -> Result<Vec<u8>, AllocError> {
        in_form!(self, form => form.elsewhere(alloc, name))
    }

    fn one_text(&self) {
        in_form!(self, form => form.one_text())
    }
}

impl Framed for Wording<'_> {
    ghost use Rattle.ipmi_program.specs.Wording.{frame_in};

    ghost frame = { λ wording. frame_in wording };

    fn has_header(&self) -> bool {
        in_form!(self, form => form.has_header())
    }

    fn header(&self, alloc: Global, table: Table) -> Result<Vec<u8>, AllocError> {
        in_form!(self, form => form.header(alloc, table))
    }

    fn has_end(&self) -> bool {
        in_form!(self, form => form.has_end())
    }

    fn end(
        &self,
        alloc: Global,
        status: u8,
        reason: &'static str,
        message: Option<&str>,
        count: u64,
    ) -> Result<Vec<u8>, AllocError> {
        in_form!(self, form => form.end(alloc, status, reason, message, count))
    }
}
