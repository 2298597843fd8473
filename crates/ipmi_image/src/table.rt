//! Items in the order of their lines, with an index.
ghost use Rattle.ipmi_image.specs.declared.image_line.LineFault.{LineFault};
ghost use Rattle.std.specs.Prelude.{◌≡◌, ℕ, ◌<◌, ◌≤◌, ◌⊎◌, ◌++◌, ◌∷◌, [], None, Some, true, IsTrue, MatchResult, OnErr, is_some, option_map, option_and_then, slice_get, length, OnOk, map};
ghost use Rattle.ipmi_image.specs.Prelude.{place_of, kept_inventory, with_bytes};

use crate::image_line::LineFault;
use crate::places::Places;
use crate::stored::StoredInventory;
use std::alloc::{AllocError, Global};
use std::marker::Model;

/// An item of a table. It has a unique number, its key.
pub(crate) trait TableItem {
    ghost key: { Self → ℕ };

    /// The key.
    fn key(&self) -> u16
        ensures { result ≡ key self.now };
}

/// Items in their order, found by their keys.
#[derive(Drop)]
pub(crate) struct Table<T: TableItem + Drop> {
    items: Vec<T>,
    /// The place of each key's item.
    places: Places,
}

impl<T: TableItem + Drop> Model for Table<T> {
    ghost use Rattle.std.specs.Prelude.{List};
    ghost use Rattle.ipmi_image.specs.Table.{IsIndex, place_in};

    ghost Value = { List T };

    ghost view = { λ t. t.items.items };

    ghost invariant = { λ t. IsIndex T.key t.items.items (place_in t.places) };
}

impl<T: TableItem + Drop> Table<T> {
    /// A table without items.
    pub(crate) fn new(alloc: Global) -> Table<T>
        ensures { result ≡ [] }
    {
        Table {
            items: Vec::new(alloc),
            places: Places::new(alloc),
        }
    }

    /// The items, in order.
    pub(crate) fn as_slice(&self) -> &[T]
        ensures { result.now ≡ self.now }
    {
        self.items.as_slice()
    }

    /// The index of the item with this key.
    pub(crate) fn place(&self, key: u16) -> Option<usize>
        ensures { result ≡ place_of T.key key self.now }
    {
        self.places.get(key).map(usize::from)
    }

    /// Whether the item at the index has this key. That is true exactly if the index is that of the key.
    #[tactic(auto, using(crate::proofs::TableLemmas::place_of_at))]
    fn is_at(&self, place: usize, key: u16) -> bool
        ensures yes { IsTrue result → place_of T.key key self.now ≡ Some place }
        ensures no { place_of T.key key self.now ≡ Some place → IsTrue result }
    {
        match self.items.get(place) {
            Some(item) => item.key() == key,
            None => false,
        }
    }

    /// The index of the item with this key. The search tries `near` and its neighbours before the lookup.
    pub(crate) fn place_near(&self, key: u16, near: usize) -> Option<usize>
        ensures { result ≡ place_of T.key key self.now }
    {
        if self.is_at(near, key) {
            return Some(near);
        }
        let after = near.wrapping_add(1);
        if self.is_at(after, key) {
            return Some(after);
        }
        let before = near.wrapping_sub(1);
        if self.is_at(before, key) {
            return Some(before);
        }
        self.place(key)
    }

    /// The item with this key.
    #[tactic(auto, using(std::proofs::lemmas::Option::slice_get_cases))]
    pub(crate) fn get(&self, key: u16) -> Option<&T>
        ensures { option_map (λ item. item.now) result ≡
            option_and_then (slice_get self.now) (place_of T.key key self.now) }
    {
        let place = self.place(key)?;
        self.items.get(place)
    }

    /// Appends an item. Err means that another item has its key, or out of memory.
    pub(crate) fn push(&mut self, item: T) -> Result<(), LineFault>
        requires { T.key item < 65535 }
        ensures put { MatchResult result
            (λ done. (place_of T.key (T.key item) self.old ≡ None) × (self.new ≡ self.old ++ item ∷ []))
            (λ e. (e ≡ LineFault.Memory) ⊎ ((e ≡ LineFault.Twice) ×
            (is_some (place_of T.key (T.key item) self.old) ≡ true))) }
        ensures err { OnErr result (self.new ≡ self.old) }
        ensures few { length self.new ≤ 65535 }
    {
        let key = item.key();
        if self.places.get(key).is_some() {
            return Err(LineFault::Twice);
        }
        let place = self.items.len() as u16;
        let Ok(()) = self.places.reserve(key) else {
            return Err(LineFault::Memory);
        };
        let Ok(()) = self.items.push(item) else {
            return Err(LineFault::Memory);
        };
        self.places.put(key, place);
        Ok(())
    }
}

impl Table<StoredInventory> {
    /// Appends the bytes to the inventory at this index.
    pub(crate) fn append(&mut self, place: usize, bytes: &[u8]) -> Result<(), AllocError>
        requires { place < length self.old }
        ensures { (id : ℕ) → place_of (λ inventory. inventory.id) id self.old ≡ Some place →
            OnOk result (map kept_inventory self.new ≡ with_bytes id bytes.now
            (map kept_inventory self.old)) }
    {
        self.items[place].bytes.extend_from_slice(bytes)?;
        Ok(())
    }
}
