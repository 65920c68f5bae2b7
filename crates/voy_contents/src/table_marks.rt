ghost use Rattle.std.specs.Prelude.{◌<◌, ◌^◌};

use std::alloc::{AllocError, Global};

/// The numbers of the batches of one table, in the order in which they came, and what its batches and changes came to.
#[derive(Drop)]
pub(crate) struct TableMarks {
    pub(crate) batches: Vec<u32>,
    pub(crate) batch_rows: u64,
    pub(crate) changes: u64,
    ghost small: { changes < 2 ^ 64 },
}

impl TableMarks {
    ghost use Rattle.std.specs.Prelude.{◌≡◌, ◌+◌, ◌++◌, [], ◌∷◌, OnOk};
    ghost use Rattle.std.specs.Vec.{vec_capacity, vec_len};
    ghost use Rattle.voy_contents.specs.Numbers.{has_number};
    ghost use Rattle.voy_txn.specs.History.{counted};

    /// No batches and no changes.
    pub(crate) fn new(alloc: Global) -> TableMarks
        ensures batches { result.batches.items ≡ [] }
        ensures batch_rows { result.batch_rows ≡ 0 }
        ensures changes { result.changes ≡ 0 }
    {
        TableMarks {
            batches: Vec::new(alloc),
            batch_rows: 0,
            changes: 0,
        }
    }

    /// Whether the batch of this number is noted. It goes through all of them.
    pub(crate) fn has_batch(&self, number: u32) -> bool
        ensures { result ≡ has_number number self.now.batches.items }
    {
        self.batches.as_slice().contains(&number)
    }

    /// Makes room for one batch more.
    pub(crate) fn make_room(&mut self) -> Result<(), AllocError>
        ensures batches { self.new.batches.items ≡ self.old.batches.items }
        ensures room { OnOk result (vec_len self.new.batches < vec_capacity self.new.batches) }
        ensures batch_rows { self.new.batch_rows ≡ self.old.batch_rows }
        ensures changes { self.new.changes ≡ self.old.changes }
    {
        self.batches.reserve(1)
    }

    /// Notes the batch of this number, which has so many rows. It takes no memory.
    pub(crate) fn add_batch(&mut self, number: u32, rows: u64)
        requires { vec_len self.old.batches < vec_capacity self.old.batches }
        ensures batches { self.new.batches.items ≡ self.old.batches.items ++ number ∷ [] }
        ensures batch_rows { self.new.batch_rows ≡ counted (self.old.batch_rows + rows) }
        ensures changes { self.new.changes ≡ self.old.changes }
    {
        self.batches.push_reserved(number);
        self.batch_rows = self.batch_rows.saturating_add(rows);
    }

    /// Counts one change more.
    pub(crate) fn add_change(&mut self)
        ensures batches { self.new.batches.items ≡ self.old.batches.items }
        ensures batch_rows { self.new.batch_rows ≡ self.old.batch_rows }
        ensures changes { self.new.changes ≡ counted (self.old.changes + 1) }
    {
        self.changes = self.changes.saturating_add(1);
    }
}
