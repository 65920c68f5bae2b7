ghost use base.Fml.{GName};
ghost use Rattle.std.specs.Prelude.{◌≡◌, ◌≤◌, ℕ, Bool, true, List, [], ◌∷◌, Option, None, Some, length, slice_get, IfErr, IfOk, OnErr, OnOk};
ghost use Rattle.std.specs.Option.{option_copied};
ghost use Rattle.voy_disk.specs.Faults.{HasCause};
ghost use Rattle.voy_disk.specs.Files.{Files};
ghost use Rattle.voy_disk.specs.Steps.{DoesAll, Follows, LeavesPrefix, Same, StaysTold};
ghost use Rattle.voy_schema.specs.declared.table.Table.{Table};
ghost use Rattle.voy_tables.specs.Lists.{look, rows_in};
ghost use Rattle.voy_txn.specs.Commits.{AddsTxns, AreCleanTables, HasReason, IsOneHistory, LeavesStore, if_it_fits, is_next, max_payload_bytes, with_txn};
ghost use Rattle.voy_txn.specs.Contents.{Contents, contents_after, contents_of, counts_of};
ghost use Rattle.voy_txn.specs.History.{History};
ghost use Rattle.voy_txn.specs.Items.{violation_of};
ghost use Rattle.voy_txn.specs.LawfulTxn.{IsLawfulTxn};
ghost use Rattle.voy_txn.specs.Payload.{payload_of};

use crate::counts::Counts;
use crate::store_error::StoreError;
use crate::txn::Txn;
use std::alloc::AllocError;
use voy_schema::{Key, Row, Rows};

/// What takes transactions, one after the other, each whole or not at all, and keeps the tables that
/// they make.
///
/// A store always tells contracts its contents: its tables, for each channel the vsn up to which it is
/// done, its batches, whether it was loaded, and its counts. It tells its history, the list of its
/// transactions, or does not; a store in memory does. Where it does, the contents are those of the
/// history.
pub trait Store {
    /// The tables of its schema, by which all else is read. They never change.
    ghost schema: { Self → List Table };

    /// What it knows of its history, always told.
    ghost contents: { Self → Contents };

    /// Its transactions, where it tells them.
    ghost history: { Self → Option History };

    /// What a stop now may leave, as it reads: a history, or none where it does not read as one. Over a disk that
    /// tells nothing there is none of them.
    ghost images: { Self → Option History → Type 0 };

    /// The files of its disk that are not its own, where the disk tells them; none for a store that has no disk.
    ghost beside: { Self → Option Files };

    /// How many faults there were, in 64 bits; the count stays at its type's end.
    ghost faults: { Self → ℕ };

    /// Whether it may be written.
    ghost is_live: { Self → Bool };

    /// What is below it has what its last call left there.
    ghost stands: { Self → Type 0 };

    /// Which lent disk it holds, as that disk says it; none for a store that holds no lent disk.
    ghost lender: { Self → List GName };

    /// Whether it may be written. A call that failed may leave it not live; it is then opened again.
    fn live(&self) -> bool
        ensures { result ≡ is_live self.now };

    /// Takes a transaction: its rows and its mark, or its rows and its marker, go in together.
    ///
    /// A load puts its rows in place of all that stand; channels and batches go on as they are. An epoch has no items.
    /// `Violation` has the first item that does not fit the tables with the items before it done: the items of a load
    /// are its rows, table by table, into empty tables; those of a batch its rows; those of events their changes. After
    /// `Violation` nothing changed.
    /// After `Fault` the store is not live, and a stop leaves the old history, or it and this
    /// transaction. After `NoMemory` it is live and nothing changed, or it is as after `Fault`.
    fn commit(&mut self, txn: &Txn) -> Result<(), StoreError>
        requires live { is_live self.old ≡ true }
        requires stands { stands self.old }
        requires lawful { IsLawfulTxn (schema self.old) txn.now }
        requires short { length (payload_of (schema self.old) txn.now) ≤ max_payload_bytes }
        requires next { is_next (contents self.old) txn.now ≡ true }
        ensures schema { schema self.new ≡ schema self.old }
        ensures live { OnOk result (is_live self.new ≡ true) }
        ensures stands { OnOk result (stands self.new) }
        ensures fits { OnOk result (violation_of (schema self.old) (contents self.old).tables txn.now ≡ None) }
        ensures contents { OnOk result (contents self.new ≡ contents_after (schema self.old) (contents self.old) txn.now) }
        ensures history { OnOk result (history self.new ≡ with_txn (history self.old) txn.now) }
        ensures reason { IfErr result (HasReason (violation_of (schema self.old) (contents self.old).tables txn.now)) }
        ensures leaves { IfErr result (LeavesStore (is_live self.new) ((stands self.new) × Follows Same (images self.old) (images self.new))) }
        ensures kept { OnErr result (contents self.new ≡ contents self.old) }
        ensures told_before { OnErr result (history self.new ≡ history self.old) }
        ensures all { DoesAll AddsTxns (txn.now ∷ []) result (images self.old) (images self.new) }
        ensures prefix { LeavesPrefix AddsTxns (if_it_fits (schema self.old) (contents self.old) txn.now) (images self.old) (images self.new) }
        ensures told { StaysTold (images self.old) (images self.new) }
        ensures beside { beside self.new ≡ beside self.old }
        ensures cause { HasCause StoreError.Fault (faults self.old) (faults self.new) result }
        ensures lender { lender self.new ≡ lender self.old };

    /// The vsn up to which the channel is done: that of its last item since the last epoch, or else that of the
    /// epoch, 0 where there is neither.
    fn last(&self, channel: u32) -> u64
        ensures { result ≡ (contents self.now).vsns channel };

    /// How many channels the last epoch said. `None` where there is no epoch.
    fn channels(&self) -> Option<u32>
        ensures { result ≡ (contents self.now).channels };

    /// Whether the batch of this number of the table was taken.
    fn has_batch(&self, table: u32, number: u32) -> bool
        ensures { result ≡ (contents self.now).has_batch table number };

    /// Whether the load was taken.
    fn loaded(&self) -> bool
        ensures { result ≡ (contents self.now).loaded };

    /// The row of this key of the table. `None` where there is none, or no such table.
    fn row(&self, table: u32, key: &Key) -> Option<&Row>
        ensures { option_copied result ≡ look (schema self.now) (contents self.now).tables (record { table = table; key = key.now }) };

    /// A copy of the rows of the table, by ascending key; none where there is no such table.
    fn rows(&self, table: u32) -> Result<Rows, AllocError>
        ensures { IfOk result (λ rows. rows ≡ rows_in (slice_get (contents self.now).tables table)) };

    /// How many rows and changes it has of the table.
    fn counts(&self, table: u32) -> Counts
        ensures { result ≡ counts_of (contents self.now) table };

    /// Where the history is told, the contents are those of it.
    ghost folds: { (store : Self) → (told : History) → history store ≡ Some told → contents store ≡ contents_of (schema store) told };

    /// Where it is live, a stop leaves just the history.
    ghost one: { (store : Self) → is_live store ≡ true → stands store → IsOneHistory (history store) (images store) };

    /// The tables are clean at each moment.
    ghost clean: { (store : Self) → AreCleanTables (schema store) (contents store).tables };
}
