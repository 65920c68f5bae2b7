ghost use Rattle.voy_contents.specs.Known.{known, schema_of};
ghost use Rattle.voy_contents.specs.KnownLaws.{known_are_clean};
ghost use Rattle.voy_store.specs.ToldLaws.{told_are};

use crate::log::Log;
use crate::log_error::LogError;
use crate::log_store::LogStore;
use std::alloc::AllocError;
use voy_schema::{Key, Row, Rows};
use voy_txn::{Counts, Store, StoreError, Txn};

impl<L: Log> Store for LogStore<L> {
    ghost schema = { λ s. schema_of s.contents };

    ghost contents = { λ s. known s.contents };

    ghost history = { λ s. L.history (schema_of s.contents) s.log };

    ghost images = { λ s. L.images (schema_of s.contents) s.log };

    ghost beside = { λ s. L.beside s.log };

    ghost faults = { λ s. L.faults s.log };

    ghost is_live = { λ s. L.is_live s.log };

    ghost stands = { λ s. L.stands s.log };

    ghost lender = { λ s. L.lender s.log };

    fn live(&self) -> bool {
        self.log.live()
    }

    fn commit(&mut self, txn: &Txn) -> Result<(), StoreError> {
        let done = self.contents.do_items(txn)?;
        if let Err(error) = self.log.append(self.contents.schema(), txn) {
            self.contents.undo(done);
            return Err(error.into());
        }
        self.contents.note(txn);
        self.contents.sweep(done);
        Ok(())
    }

    fn last(&self, channel: u32) -> u64 {
        self.contents.last(channel)
    }

    fn channels(&self) -> Option<u32> {
        self.contents.channels()
    }

    fn has_batch(&self, table: u32, number: u32) -> bool {
        self.contents.has_batch(table, number)
    }

    fn loaded(&self) -> bool {
        self.contents.loaded()
    }

    fn row(&self, table: u32, key: &Key) -> Option<&Row> {
        self.contents.row(table, key)
    }

    fn rows(&self, table: u32) -> Result<Rows, AllocError> {
        self.contents.rows(table)
    }

    fn counts(&self, table: u32) -> Counts {
        self.contents.counts(table)
    }

    ghost folds = { λ store told is. told_are _ _ told _ store.folds is };

    ghost one = { λ store live stands. L.one (schema_of store.contents) store.log live stands };

    ghost clean = { λ store. known_are_clean store.contents };
}
