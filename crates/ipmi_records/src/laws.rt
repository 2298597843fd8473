//! Laws of lines and blocks. They follow from the definitions, so they hold for any code that writes such a text.
ghost use Rattle.std.specs.Prelude.{◌≡◌, ℕ, List};
ghost use Rattle.ipmi_records.specs.Below.{AreBytes};
ghost use Rattle.ipmi_records.specs.Prelude.{KnownReading, SdrView, SelView, IsInfoBlock, ExtendedLineIsUnique, ReadingColumnExists, ReadingColumnIsUnique, SdrBlockExists, SdrBlockIsUnique, SdrLineExists, SdrLineIsUnique, SelBlockIsUnique, SelLineIsUnique, ThresholdTextExists, ThresholdTextIsUnique, IsExtendedLine, IsSelBlock, IsSelLine};

/// A record has at most one reading column for a reading, so the one that `push_reading` appends is the only one.
pub fn one_reading_column()
    ensures { ReadingColumnIsUnique }
{
    ipmi_text::laws::one_decimal_of_a_value();
}

/// A record has at most one text of threshold lines, so the result of `threshold_lines` is the only one.
pub fn one_text_of_thresholds()
    ensures { ThresholdTextIsUnique }
{
    ipmi_text::laws::one_decimal_of_a_value();
}

/// A record has at most one line for a reading, so the result of `sdr_line` is the only one.
pub fn one_sdr_line()
    ensures { SdrLineIsUnique }
{
    ipmi_text::laws::one_decimal_of_a_value();
}

/// A record has at most one extended line for a reading, so the result of `sdr_eline` is the only one.
pub fn one_extended_line()
    ensures { ExtendedLineIsUnique }
{
    ipmi_text::laws::one_decimal_of_a_value();
}

/// A record has at most one block for an id and a reading, so the result of `sdr_block` is the only one.
pub fn one_sdr_block()
    ensures { SdrBlockIsUnique }
{
    ipmi_text::laws::one_decimal_of_a_value();
}

/// An entry has at most one line for an id, so the result of `sel_line` is the only one.
pub fn one_sel_line()
    ensures { SelLineIsUnique }
{
    ipmi_text::laws::one_utc_text();
}

/// An entry has at most one block for an id, so the result of `sel_block` is the only one.
pub fn one_sel_block()
    ensures { SelBlockIsUnique }
{
    ipmi_text::laws::one_utc_text();
}

/// An info has at most one block, so the result of `info_block` is the only one.
pub fn one_info_block()
    ensures { (bytes text other : List ℕ) → AreBytes bytes → IsInfoBlock bytes text →
        IsInfoBlock bytes other → text ≡ other }
{
    ipmi_text::laws::one_utc_text();
}

/// Each record has a reading column for each reading, and its thresholds have lines.
pub fn each_record_has_columns()
    ensures column { ReadingColumnExists }
    ensures thresholds { ThresholdTextExists }
{
    ipmi_text::laws::each_value_has_a_decimal();
}

/// Each record has a line and an extended line for each reading, and a block for each id and reading.
pub fn each_record_has_texts()
    ensures line { SdrLineExists }
    ensures extended_line { (view : SdrView) (reading : KnownReading) →
        (text : List ℕ) × IsExtendedLine view reading text }
    ensures block { SdrBlockExists }
{
    ipmi_text::laws::each_value_has_a_decimal();
}

/// Each entry has a line and a block for each id.
pub fn each_entry_has_texts()
    ensures line { (id : ℕ) (view : SelView) → (text : List ℕ) × IsSelLine id view text }
    ensures block { (id : ℕ) (view : SelView) → (text : List ℕ) × IsSelBlock id view text }
{
    ipmi_text::laws::each_time_has_a_text();
}

/// Each info has a block.
pub fn each_info_has_a_block()
    ensures { (bytes : List ℕ) → (text : List ℕ) × IsInfoBlock bytes text }
{
    ipmi_text::laws::each_time_has_a_text();
}
