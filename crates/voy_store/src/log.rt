ghost use base.Fml.{GName};
ghost use Rattle.std.specs.Prelude.{◌≡◌, ◌≤◌, ℕ, Bool, true, List, [], ◌∷◌, Option, length, IfErr, OnErr, OnOk};
ghost use Rattle.voy_disk.specs.Faults.{HasCause};
ghost use Rattle.voy_disk.specs.Files.{Files};
ghost use Rattle.voy_disk.specs.Steps.{DoesAll, Follows, LeavesPrefix, Same, StaysTold};
ghost use Rattle.voy_schema.specs.declared.table.Table.{Table};
ghost use Rattle.voy_store.specs.Logs.{LeavesLog};
ghost use Rattle.voy_txn.specs.Commits.{AddsTxns, IsOneHistory, max_payload_bytes, with_txn};
ghost use Rattle.voy_txn.specs.History.{History};
ghost use Rattle.voy_txn.specs.LawfulTxn.{IsLawfulTxn};
ghost use Rattle.voy_txn.specs.Payload.{payload_of};

use crate::log_error::LogError;
use voy_schema::Schema;
use voy_txn::Txn;

/// Where the transactions of a store are kept, one behind the other.
///
/// A log knows no tables: it takes each lawful transaction. It tells its history, as transactions of a
/// schema, or does not.
pub trait Log {
    /// Its transactions, where it tells them. A log of bytes tells them as they read by this schema.
    ghost history: { List Table → Self → Option History };

    /// What a stop now may leave, as it reads: a history, or none where it does not read as one. Over a disk that
    /// tells nothing there is none of them.
    ghost images: { List Table → Self → Option History → Type 0 };

    /// The files of its disk that are not its own, where the disk tells them; none for a log that has no disk.
    ghost beside: { Self → Option Files };

    /// How many faults there were, in 64 bits; the count stays at its type's end.
    ghost faults: { Self → ℕ };

    /// Whether it may be written.
    ghost is_live: { Self → Bool };

    /// What is below it has what its last call left there.
    ghost stands: { Self → Type 0 };

    /// Which lent disk it holds, as that disk says it; none where it holds no lent disk.
    ghost lender: { Self → List GName };

    /// Whether it may be written.
    fn live(&self) -> bool
        ensures { result ≡ is_live self.now };

    /// Puts a transaction behind the others. Once it answers Ok, no stop can lose it.
    fn append(&mut self, schema: &Schema, txn: &Txn) -> Result<(), LogError>
        requires live { is_live self.old ≡ true }
        requires stands { stands self.old }
        requires lawful { IsLawfulTxn schema.now.tables txn.now }
        requires short { length (payload_of schema.now.tables txn.now) ≤ max_payload_bytes }
        ensures live { OnOk result (is_live self.new ≡ true) }
        ensures stands { OnOk result (stands self.new) }
        ensures history { OnOk result (history schema.now.tables self.new ≡ with_txn (history schema.now.tables self.old) txn.now) }
        ensures told_before { OnErr result (history schema.now.tables self.new ≡ history schema.now.tables self.old) }
        ensures leaves { IfErr result (LeavesLog (is_live self.new) ((stands self.new) × Follows Same (images schema.now.tables self.old) (images schema.now.tables self.new))) }
        ensures all { DoesAll AddsTxns (txn.now ∷ []) result (images schema.now.tables self.old) (images schema.now.tables self.new) }
        ensures prefix { LeavesPrefix AddsTxns (txn.now ∷ []) (images schema.now.tables self.old) (images schema.now.tables self.new) }
        ensures told { StaysTold (images schema.now.tables self.old) (images schema.now.tables self.new) }
        ensures beside { beside self.new ≡ beside self.old }
        ensures cause { HasCause LogError.Fault (faults self.old) (faults self.new) result }
        ensures lender { lender self.new ≡ lender self.old };

    /// Where it is live, a stop leaves just the history.
    ghost one: { (schema : List Table) → (log : Self) → is_live log ≡ true → stands log → IsOneHistory (history schema log) (images schema log) };
}
