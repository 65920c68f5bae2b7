ghost use Rattle.std.specs.Prelude.{◌≡◌, true, [], None, Some, IfOk};
ghost use Rattle.voy_store.specs.ToldLaws.{one_history};

use crate::log::Log;
use crate::log_error::LogError;
use crate::log_store::LogStore;
use std::alloc::{AllocError, Global};
use voy_contents::MemContents;
use voy_schema::{Copies, Items, Schema};
use voy_txn::{Store, Txn};

/// Transactions in memory, the first in front. They are all that a stop may leave.
#[derive(Debug, Drop)]
pub struct MemLog {
    pub(crate) txns: Items<Txn>,
}

/// A store in memory. It tells its history, which is all that a stop may leave, and never has a fault.
pub type MemStore = LogStore<MemLog>;

impl LogStore<MemLog> {
    /// A store of this schema with no transactions.
    pub fn new(alloc: Global, schema: Schema) -> Result<MemStore, AllocError>
        ensures schema { IfOk result (λ made. ⟦<MemStore as Store>⟧.schema made ≡ schema.tables) }
        ensures empty { IfOk result (λ made. ⟦<MemStore as Store>⟧.history made ≡ Some []) }
        ensures live { IfOk result (λ made. ⟦<MemStore as Store>⟧.is_live made ≡ true) }
        ensures stands { IfOk result (λ made. ⟦<MemStore as Store>⟧.stands made) }
        ensures faults { IfOk result (λ made. ⟦<MemStore as Store>⟧.faults made ≡ 0) }
        ensures beside { IfOk result (λ made. ⟦<MemStore as Store>⟧.beside made ≡ None) }
        ensures lender { IfOk result (λ made. ⟦<MemStore as Store>⟧.lender made ≡ []) }
    {
        let contents = MemContents::new(alloc, schema)?;
        let log = MemLog {
            txns: Items::new(alloc),
        };
        Ok(LogStore { contents, log })
    }
}

impl Log for MemLog {
    ghost history = { λ schema log. Some log.txns };

    ghost images = { λ schema log read. read ≡ Some log.txns };

    ghost beside = { λ log. None };

    ghost faults = { λ log. 0 };

    ghost is_live = { λ log. true };

    ghost stands = { λ log. Unit {0} };

    ghost lender = { λ log. [] };

    fn live(&self) -> bool {
        true
    }

    fn append(&mut self, _schema: &Schema, txn: &Txn) -> Result<(), LogError> {
        let copy = txn.copy()?;
        self.txns.push(copy)?;
        Ok(())
    }

    ghost one = { λ schema log live stands. one_history log.txns };
}
