//! Laws of plans. They follow from the definitions of plans. Each law is the contract of a function that does nothing.
ghost use Rattle.ipmi_commands.specs.Mark.{MarksAreReadBack};
ghost use Rattle.ipmi_commands.specs.EachOnce.{FirstFindsEach, NextFindsEach};
ghost use Rattle.ipmi_commands.specs.Prelude.{FinishedRunsAreOne, ItemsHaveAText, ItemsHaveOneText, TailsAreOfTheLog};

use crate::format::{Format, Total};

/// Over a well-formed store, each list of items has a text.
pub fn items_have_a_text<F: Total>(format: &F)
    ensures { ItemsHaveAText (F.texts format.now) }
{
    format.has_texts();
}

/// Over a store, a list of items has at most one text, if its numbers are bytes.
pub fn items_have_one_text<F: Format>(format: &F)
    ensures { ItemsHaveOneText (F.texts format.now) }
{
    format.one_text();
}

/// Over a well-formed store, a finished run has only one possible output and one possible end.
pub fn finished_runs_are_one<F: Format>(format: &F)
    ensures { FinishedRunsAreOne (F.texts format.now) }
{
    items_have_one_text(format);
    ipmi_bus::laws::one_walk_has_an_end();
    ipmi_bus::laws::what_is_found_is_a_row();
}

/// If the log has an entry with an id, and the walk from it has so many entries or more, its last ones are those of the log.
pub fn tails_are_of_the_log()
    ensures { TailsAreOfTheLog }
{
    ipmi_bus::laws::one_walk_has_an_end();
    ipmi_bus::laws::the_rest_is_a_walk();
}

/// Runs over a log that only grows find each entry once, together.
pub fn each_entry_is_found_once()
    ensures first { FirstFindsEach }
    ensures next { NextFindsEach }
{
    ipmi_bus::laws::one_walk_has_an_end();
    ipmi_bus::laws::the_rest_is_a_walk();
}

/// The text of a mark is read as the same mark.
pub fn marks_are_read_back()
    ensures { MarksAreReadBack }
{}
