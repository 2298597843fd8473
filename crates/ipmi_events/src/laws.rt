//! Laws of tables and lines. They follow from the definitions, so they hold for any code that makes such a text.
ghost use Rattle.std.specs.Prelude.{◌≡◌, ℕ, List};
ghost use Rattle.std.specs.List.{AllPass, concat};
ghost use Rattle.ipmi_events.specs.Laws.{DetailsAreUnique, DetailsExist, EventInWordsExists, EventInWordsIsUnique, SignsAreTrue};
ghost use Rattle.ipmi_events.specs.Sensors.{is_whole_record, records_in};

/// Splitting concatenated whole records gives these records again.
pub fn records_are_found_again()
    ensures { (records : List (List ℕ)) → AllPass is_whole_record records →
        records_in (concat records) ≡ records }
{}

/// An event has at most one text of details, so the text that `push_details` appends is the only one.
pub fn one_text_of_details()
    ensures { DetailsAreUnique }
{
    ipmi_text::laws::one_decimal_of_a_value();
}

/// An entry has at most one line in words for an id, so the result of `event_line` is the only one.
pub fn one_event_in_words()
    ensures { EventInWordsIsUnique }
{
    ipmi_text::laws::one_utc_text();
    ipmi_records::laws::one_sel_line();
    one_text_of_details();
}

/// Each event has details, and each entry has a line in words for each id.
pub fn each_entry_has_a_line_in_words()
    ensures details { DetailsExist }
    ensures line { EventInWordsExists }
{
    ipmi_text::laws::each_value_has_a_decimal();
    ipmi_text::laws::each_time_has_a_text();
    ipmi_records::laws::each_entry_has_texts();
}

/// A sign between the reading and the threshold of an event is true of the two numbers that are printed.
pub fn signs_are_true()
    ensures { SignsAreTrue }
{}
