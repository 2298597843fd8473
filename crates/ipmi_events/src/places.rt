//! The places of sensors' records.
ghost use Rattle.std.specs.Prelude.{◌≡◌, ℕ, ◌+◌, ◌*◌, ◌<◌, ◌≤◌, ◌==◌, ◌&&◌, [], OnOk, length, nat_le, nat_lt, get_or, unwrap_or};
ghost use Rattle.ipmi_events.specs.Sensors.{noted, place_in, row_of};

use std::alloc::{AllocError, Global};
use std::marker::Model;

/// The places on a page: one for each number of a sensor.
pub(crate) const PAGE_PLACES: usize = 256;

/// The row of an owner's sensors at a LUN.
pub(crate) fn row_of(owner: u8, lun: u8) -> usize
    ensures { result ≡ row_of owner lun }
{
    usize::from(lun) * 256 + usize::from(owner)
}

/// Fills a page with places of no record.
fn fill(page: &mut Vec<usize>, none: usize) -> Result<(), AllocError>
    ensures same { (number : ℕ) → get_or page.new.items number none ≡ get_or page.old.items number
        none }
    ensures room { OnOk result (256 ≤ length page.new.items) }
{
    if page.len() < PAGE_PLACES {
        page.resize(PAGE_PLACES, none)?;
    }
    Ok(())
}

/// Stores `place` on the page for each number from `first` to before `end` that has the place `none`.
fn note_numbers(
    page: &mut Vec<usize>,
    first: usize,
    end: usize,
    place: usize,
    none: usize,
) -> Result<(), AllocError>
    requires order { first ≤ end }
    requires end { end ≤ 256 }
    ensures { OnOk result ((number : ℕ) → get_or page.new.items number none ≡
        noted (nat_le first number && nat_lt number end) place none
        (get_or page.old.items number none)) }
{
    fill(page, none)?;
    for number in first..end {
        if page[number] == none {
            page[number] = place;
        }
    }
    Ok(())
}

/// Places of records, in a tree of two levels: a page for each row, with a place for each number.
#[derive(Drop)]
pub(crate) struct Places {
    /// A page has no places until a record of its row is noted.
    pages: Vec<Vec<usize>>,
    alloc: Global,
}

impl Model for Places {
    ghost use Rattle.std.specs.Prelude.{List, ℕ, map};

    ghost Value = { List (List ℕ) };

    ghost view = { λ places. map (λ page. page.items) places.pages.items };
}

impl Places {
    /// No places yet.
    pub(crate) fn new(alloc: Global) -> Places
        ensures { result ≡ [] }
    {
        Places {
            pages: Vec::new(alloc),
            alloc,
        }
    }

    /// The place with this number in the row, which may be that of no record. None if the row has no page.
    pub(crate) fn get(&self, row: usize, number: u8) -> Option<usize>
        ensures { (none : ℕ) → unwrap_or result none ≡ place_in self.now row number none }
    {
        let page = self.pages.get(row)?;
        page.get(usize::from(number)).copied()
    }

    /// Adds pages up to that of this row, without places.
    fn reach(&mut self, row: usize) -> Result<(), AllocError>
        ensures same { (other number none : ℕ) → place_in self.new other number none ≡
            place_in self.old other number none }
        ensures room { OnOk result (row < length self.new) }
    {
        'pages: while self.pages.len() <= row {
            self.pages.push(Vec::new(self.alloc))?;
        }
        Ok(())
    }

    /// Stores `place` in the row for each number from `first` to before `end` that has the place `none`. The first time
    /// it makes the row's page.
    pub(crate) fn note(
        &mut self,
        row: usize,
        first: usize,
        end: usize,
        place: usize,
        none: usize,
    ) -> Result<(), AllocError>
        requires order { first ≤ end }
        requires end { end ≤ 256 }
        ensures { OnOk result ((other number : ℕ) → place_in self.new other number none ≡
            noted ((other == row) && (nat_le first number && nat_lt number end)) place none
            (place_in self.old other number none)) }
    {
        self.reach(row)?;
        note_numbers(&mut self.pages[row], first, end, place, none)
    }
}
