//! The ids of the records that a cursor has returned, as a bit table.
ghost use Rattle.std.specs.Prelude.{◌≡◌, ◌≤◌, ◌<◌, false, IfOk};
ghost use Rattle.std.specs.FinSet as set;

use std::alloc::{AllocError, Global};
use std::marker::Model;

/// The size of the table in bytes: one bit for each of the 65,536 ids.
const TABLE_LEN: usize = 8192;

/// A set of ids, one bit each.
#[derive(Drop)]
pub(crate) struct IdTable {
    bytes: Vec<u8>,
}

impl Model for IdTable {
    ghost use Rattle.std.specs.Prelude.{◌≡◌, vec_len};
    ghost use Rattle.std.specs.Ordering.{nat_cmp};
    ghost use Rattle.std.specs.Coded.{coded_ℕ};
    ghost use Rattle.std.specs.FinSet as set;
    ghost use Rattle.ipmi_bus.specs.IdTable.{ids_in};

    ghost Value = { set.FinSet nat_cmp };

    ghost coded = { set.code coded_ℕ };

    ghost view = { λ t. ids_in t.bytes.items };

    ghost invariant = { λ t. vec_len t.bytes ≡ 8192 };
}

impl IdTable {
    /// An empty table. It allocates all its memory here.
    pub(crate) fn new(alloc: Global) -> Result<Self, AllocError>
        ensures { IfOk result (λ table. table ≡ set.empty) }
    {
        Ok(IdTable {
            bytes: vec![in alloc; 0u8; TABLE_LEN]?,
        })
    }

    /// Whether the table contains the id.
    pub(crate) fn contains(&self, id: u16) -> bool
        ensures is { result ≡ set.contains self.now id }
        ensures not_full { result ≡ false → set.len self.now < 65536 }
    {
        (self.bytes[usize::from(id / 8)] >> (id % 8)) & 1 == 1
    }

    /// Adds the id to the table.
    pub(crate) fn insert(&mut self, id: u16)
        ensures added { self.new ≡ set.insert self.old id }
        ensures at_most { set.len self.new ≤ 65536 }
    {
        self.bytes[usize::from(id / 8)] |= 1 << (id % 8);
    }
}
