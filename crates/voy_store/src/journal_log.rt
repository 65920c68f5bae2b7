ghost use Rattle.std.specs.Prelude.{◌≡◌, IfOk, Some};
ghost use Rattle.voy_disk.specs.Images.{ImagesOf};
ghost use Rattle.voy_journal.specs.Journal.{StandsOn, is_live, journal_name};
ghost use Rattle.voy_store.specs.Beside.{files_beside};
ghost use Rattle.voy_store.specs.JournalLogs.{HasHistory, history_on};
ghost use Rattle.voy_store.specs.JournalLogLaws.{one_journal_history};
ghost use Rattle.voy_store.specs.Stored.{store_name};
ghost use Rattle.voy_txn.specs.LawfulTxn.{IsLawfulTxn};
ghost use Rattle.voy_txn.specs.Payload.{payload_of};
ghost use Rattle.voy_txn.specs.Reading.{txn_reading};

use crate::log::Log;
use crate::log_error::LogError;
use std::alloc::{AllocError, Global};
use voy_disk::Disk;
use voy_journal::{Journal, JournalError};
use voy_schema::{Bytes, Schema};
use voy_txn::{Txn, payloads_have_readings, write_txn};

/// A log that keeps its transactions in the journal `store.journal` of a disk, each in one payload.
///
/// Its history is that of the payloads which the journal knows. After a fault the file may read one more,
/// which is then in some image and not in the history.
#[derive(Drop)]
pub struct JournalLog<D> {
    pub(crate) alloc: Global,
    pub(crate) journal: Journal,
    pub(crate) disk: D,
    ghost named: { journal_name journal ≡ store_name },
}

impl<D: Disk> Log for JournalLog<D> {
    ghost history = { λ schema log. history_on schema log.journal (D.files log.disk) };

    ghost images = { λ schema log. HasHistory schema (ImagesOf (D.files log.disk)) };

    ghost beside = { λ log. files_beside store_name (D.files log.disk) };

    ghost faults = { λ log. D.faults log.disk };

    ghost is_live = { λ log. is_live log.journal };

    ghost stands = { λ log. StandsOn log.journal (D.files log.disk) };

    ghost lender = { λ log. D.lender log.disk };

    fn live(&self) -> bool {
        self.journal.live()
    }

    fn append(&mut self, schema: &Schema, txn: &Txn) -> Result<(), LogError> {
        let payload = payload_of(self.alloc, schema, txn)?;
        match self.journal.append(&mut self.disk, payload.as_slice()) {
            Ok(()) => Ok(()),
            Err(JournalError::Fault) => Err(LogError::Fault),
            Err(JournalError::NoMemory) => Err(LogError::NoMemory),
            Err(JournalError::TooLong) => unreachable!(),
            Err(JournalError::Damaged { .. }) => unreachable!(),
        }
    }

    ghost one = { λ schema log live stands. one_journal_history schema log.journal.name log.journal.gate (D.files log.disk) log.named (D.reads_an_image log.disk) stands };
}

/// The payload of a transaction, which reads as it.
fn payload_of(alloc: Global, schema: &Schema, txn: &Txn) -> Result<Bytes, AllocError>
    requires { IsLawfulTxn schema.now.tables txn.now }
    ensures text { IfOk result (λ payload. payload ≡ payload_of schema.now.tables txn.now) }
    ensures reads { IfOk result (λ payload. txn_reading schema.now.tables payload ≡ Some txn.now) }
{
    // The law that a payload reads as its transaction; there is nothing to run.
    payloads_have_readings();
    let mut payload = Bytes::new(alloc);
    write_txn(alloc, schema, txn, &mut payload)?;
    Ok(payload)
}
