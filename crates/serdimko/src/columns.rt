//! What comes before the texts of all inputs, as the names of columns of CSV.
ghost use Rattle.std.specs.Prelude.{◌≡◌, ◌+◌, IfOk, None, option_map};
ghost use Rattle.serdimko.specs.Columns.{IsHeader, PrintsColumns, table_of_query};
ghost use Rattle.serdimko.specs.Out.{out_of};

use crate::closable::Output;
use crate::driver::Query;
use crate::ending::write_last;
use crate::report::Settings;
use crate::run_error::RunError;
use ipmi_command_line::{Format, Word};
use ipmi_commands::{Framed, Table};
use ipmi_output::Failure;
use ipmi_program::{Wording, labels_of, table_of};
use std::alloc::{AllocError, Global};
use std::io::Write;

/// The table of what the query prints.
fn table_of_query(query: &Query) -> Table
    ensures { result ≡ table_of_query query.now }
{
    match query {
        Query::Print(task, ..) => table_of(task),
        Query::Each(tasks) => match tasks.as_slice() {
            [first, ..] => table_of(first),
            [] => Table::Records,
        },
        Query::Sensors(..) | Query::Check(..) | Query::Metrics(..) => Table::Records,
        Query::New(..) => Table::Entries,
    }
}

/// The text before all others, with the keys of these labels, and of the image's name if that is one of several.
fn header_of(
    alloc: Global,
    format: &Format,
    texts: &[Word],
    image: Option<&str>,
    table: Table,
) -> Result<Vec<u8>, AllocError>
    ensures { IfOk result (λ line. IsHeader format.now texts.now (option_map (λ name. name.now) image.entry) table line.items) }
{
    let labels = labels_of(alloc, texts, image)?;
    Wording::of(format, labels.as_slice()).header(alloc, table)
}

/// Prints the text before all others, if the form of output has one, as the names of columns of CSV. Returns the error, if that failed.
pub(crate) fn print_columns<'a, W: Write + Drop>(
    alloc: Global,
    settings: &Settings,
    query: &Query,
    image: Option<&str>,
    out: &mut Output<W>,
) -> Option<RunError<'a>>
    ensures { PrintsColumns settings.now.format query.now (option_map (λ name. name.now) image.entry)
        (out_of out.old) (out_of out.new) result }
{
    let (format, texts) = (&settings.format, settings.labels());
    if !Wording::of(format, &[]).has_header() {
        return None;
    }
    match header_of(alloc, format, texts, image, table_of_query(query)) {
        Ok(line) => write_last(line.as_slice(), None, out),
        Err(AllocError) => Some(RunError::Failed(Failure::OutOfMemory)),
    }
}
