//! The law of rows. It follows from the definitions.
ghost use Rattle.ipmi_csv.specs.Laws.{RowsReadBack};

/// A row with commas reads back as its texts, by the reader of the crate `csv`.
#[tactic(auto, using(crate::proofs::ReadLemmas::rows_read))]
pub fn rows_read_back()
    ensures { RowsReadBack }
{}
