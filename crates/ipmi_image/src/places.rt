//! An ordered map from keys of 16 bits to places.
ghost use Rattle.std.specs.Prelude.{◌≡◌, ℕ, ◌<◌, ◌≤◌, ◌/◌, ◌%◌, ◌==◌, OnOk, None, Some, if◌then◌else◌, length, get_or};
ghost use Rattle.ipmi_image.specs.Prelude.{HasRoom, place_in};

use std::alloc::{AllocError, Global};
use std::marker::Model;

/// The keys that a page has room for: those with its high byte.
const PAGE_KEYS: usize = 256;

/// The slot of a key that has no place.
const NO_PLACE: u16 = u16::MAX;

/// The page of a key.
fn page_at(key: u16) -> usize
    ensures { result ≡ key / 256 }
{
    usize::from(key >> 8)
}

/// The slot of a key in its page.
fn slot_at(key: u16) -> usize
    ensures { result ≡ key % 256 }
{
    usize::from(key & 0xFF)
}

/// Fills a page with empty slots.
fn fill(page: &mut Vec<u16>) -> Result<(), AllocError>
    ensures same { (slot : ℕ) → get_or page.new.items slot 65535 ≡ get_or page.old.items slot
        65535 }
    ensures room { OnOk result (256 ≤ length page.new.items) }
{
    if page.len() < PAGE_KEYS {
        page.resize(PAGE_KEYS, NO_PLACE)?;
    }
    Ok(())
}

/// Places by their keys, in a tree of two levels: a page for each high byte, with a slot for each low one.
#[derive(Drop)]
pub(crate) struct Places {
    /// A page has no slots until its first key is added.
    pages: Vec<Vec<u16>>,
    alloc: Global,
}

impl Model for Places {
    ghost use Rattle.std.specs.Prelude.{List, ℕ, map};

    ghost Value = { List (List ℕ) };

    ghost view = { λ places. map (λ page. page.items) places.pages.items };
}

impl Places {
    /// No places yet.
    pub(crate) fn new(alloc: Global) -> Places
        ensures { (key : ℕ) → place_in result key ≡ None }
    {
        Places {
            pages: Vec::new(alloc),
            alloc,
        }
    }

    /// The place of the key.
    pub(crate) fn get(&self, key: u16) -> Option<u16>
        ensures { result ≡ place_in self.now key }
    {
        let page = self.pages.get(page_at(key))?;
        let place = *page.get(slot_at(key))?;
        if place == NO_PLACE {
            return None;
        }
        Some(place)
    }

    /// Adds pages up to this one, without slots.
    fn reach(&mut self, page: usize) -> Result<(), AllocError>
        ensures same { (key : ℕ) → place_in self.new key ≡ place_in self.old key }
        ensures room { OnOk result (page < length self.new) }
    {
        'pages: while self.pages.len() <= page {
            self.pages.push(Vec::new(self.alloc))?;
        }
        Ok(())
    }

    /// Makes room for the key.
    // inlined for speed: nearly always there is room
    #[inline(always)]
    pub(crate) fn reserve(&mut self, key: u16) -> Result<(), AllocError>
        ensures same { (other : ℕ) → place_in self.new other ≡ place_in self.old other }
        ensures room { OnOk result (HasRoom key self.new) }
    {
        let page = page_at(key);
        self.reach(page)?;
        fill(&mut self.pages[page])?;
        Ok(())
    }

    /// Stores the place of the key. There must be room for it.
    pub(crate) fn put(&mut self, key: u16, place: u16)
        requires room { HasRoom key self.old }
        requires place { place < 65535 }
        ensures { (other : ℕ) → place_in self.new other ≡ (if key == other then Some place else
            place_in self.old other) }
    {
        self.pages[page_at(key)][slot_at(key)] = place;
    }
}
