ghost use Rattle.std.specs.Prelude.{◌≡◌, ◌≤◌, ◌↔◌, true, Some, IfErr, IfOk, IsTrue};
ghost use Rattle.voy_disk.specs.Calls.{Change};
ghost use Rattle.voy_disk.specs.Faults.{HasCause};
ghost use Rattle.voy_disk.specs.Files.{IfTold, bytes_now};
ghost use Rattle.voy_disk.specs.Frames.{KeepsOtherFiles};
ghost use Rattle.voy_disk.specs.Images.{ImagesOf};
ghost use Rattle.voy_disk.specs.Steps.{Follows, Same, StaysTold};
ghost use Rattle.voy_journal.specs.Grammar.{DamagedAt, FitAFile, HasPayloads};
ghost use Rattle.voy_journal.specs.Journal.{KeepsPayloads, StandsOn, is_live, journal_name, known_payloads};
ghost use Rattle.voy_store.specs.Beside.{files_beside};
ghost use Rattle.voy_store.specs.JournalLogs.{HasHistory};
ghost use Rattle.voy_store.specs.Opening.{TellsStored, cause_of, given_back};
ghost use Rattle.voy_store.specs.Stored.{IsStoreDamaged, store_name};

use crate::journal_log::JournalLog;
use crate::log_store::LogStore;
use crate::open_error::{NotOpened, OpenError};
use crate::opening::read_contents;
use std::alloc::{AllocError, Global};
use voy_disk::{Disk, Name};
use voy_journal::{Journal, JournalError, Opened};
use voy_schema::Schema;
use voy_txn::Store;

/// A store over the journal `store.journal` of a disk.
pub type JournalStore<D> = LogStore<JournalLog<D>>;

impl<D: Disk> LogStore<JournalLog<D>> {
    /// Opens the store of this schema over `store.journal`, and makes the file where there is none.
    ///
    /// After Ok its history is that of all payloads that the journal has. Whatever the answer, a stop leaves
    /// the payloads that it would have left before. `Damaged` comes where the journal is damaged, or has a
    /// payload that is no transaction or that the store does not take after those in front of it.
    ///
    /// It reads the journal once, and holds its payloads until the tables stand.
    pub fn open(alloc: Global, schema: Schema, mut disk: D) -> Result<JournalStore<D>, NotOpened<D>>
        // after Ok
        ensures schema { IfOk result (λ store. ⟦<JournalStore<D> as Store>⟧.schema store ≡ schema.tables) }
        ensures stored { IfOk result (λ store. IfTold (D.files disk) (λ fs.
            TellsStored schema.tables (bytes_now (fs store_name)) (⟦<JournalStore<D> as Store>⟧.history store))) }
        ensures live { IfOk result (λ store. ⟦<JournalStore<D> as Store>⟧.is_live store ≡ true) }
        ensures stands { IfOk result (λ store. ⟦<JournalStore<D> as Store>⟧.stands store) }
        ensures histories { IfOk result (λ store. Follows Same (HasHistory schema.tables (ImagesOf (D.files disk))) (⟦<JournalStore<D> as Store>⟧.images store)) }
        ensures beside { IfOk result (λ store. ⟦<JournalStore<D> as Store>⟧.beside store ≡ files_beside store_name (D.files disk)) }
        ensures faults { IfOk result (λ store. D.faults disk ≤ ⟦<JournalStore<D> as Store>⟧.faults store) }
        ensures lent { IfOk result (λ store. ⟦<JournalStore<D> as Store>⟧.lender store ≡ D.lender disk) }
        // what it leaves of the disk, whatever it answers
        ensures images { Follows (KeepsPayloads store_name) (ImagesOf (D.files disk)) (ImagesOf (D.files (given_back (λ store. store.log.disk) result))) }
        ensures others { Change (KeepsOtherFiles store_name) (D.files disk) (D.files (given_back (λ store. store.log.disk) result)) }
        ensures told { StaysTold (ImagesOf (D.files disk)) (ImagesOf (D.files (given_back (λ store. store.log.disk) result))) }
        ensures lender { D.lender (given_back (λ store. store.log.disk) result) ≡ D.lender disk }
        // when each error comes
        ensures cause { HasCause OpenError.Fault (D.faults disk) (D.faults (given_back (λ store. store.log.disk) result)) (cause_of result) }
        ensures damaged { IfErr result (λ failed. (offset : _) → failed.why ≡ OpenError.Damaged offset → IfTold (D.files disk) (λ fs.
            IsStoreDamaged schema.tables (bytes_now (fs store_name)) offset)) }
    {
        let Opened { journal, payloads } = match open_journal(alloc, &mut disk) {
            Ok(opened) => opened,
            Err(why) => return Err(NotOpened { disk, why }),
        };
        match read_contents(alloc, schema, payloads.as_slice()) {
            Ok(contents) => Ok(LogStore {
                contents,
                log: JournalLog {
                    alloc,
                    journal,
                    disk,
                },
            }),
            Err(why) => Err(NotOpened { disk, why }),
        }
    }

    /// The disk, as the store's last call left it. What a stop leaves of the store is what its journal reads as.
    pub fn into_disk(self) -> D
        ensures disk { result ≡ self.log.disk }
        ensures images { (read : _) → ⟦<JournalStore<D> as Store>⟧.images self read ↔ HasHistory (⟦<JournalStore<D> as Store>⟧.schema self) (ImagesOf (D.files result)) read }
        ensures beside { ⟦<JournalStore<D> as Store>⟧.beside self ≡ files_beside store_name (D.files result) }
        ensures faults { ⟦<JournalStore<D> as Store>⟧.faults self ≡ D.faults result }
        ensures lender { ⟦<JournalStore<D> as Store>⟧.lender self ≡ D.lender result }
    {
        let LogStore { contents: _, log } = self;
        let JournalLog {
            alloc: _,
            journal: _,
            disk,
        } = log;
        disk
    }
}

/// Opens the journal of a store.
#[tactic(auto, using(voy_disk::specs::ChangeLaws::others_still))]
fn open_journal<D: Disk>(alloc: Global, disk: &mut D) -> Result<Opened, OpenError>
    ensures payloads { IfOk result (λ opened. IfTold (D.files disk.old) (λ fs. HasPayloads opened.payloads (bytes_now (fs store_name)))) }
    ensures known { IfOk result (λ opened. IfTold (D.files disk.new) (λ fs. known_payloads opened.journal (Some fs) ≡ Some opened.payloads)) }
    ensures stands { IfOk result (λ opened. StandsOn opened.journal (D.files disk.new)) }
    ensures live { IfOk result (λ opened. IsTrue (is_live opened.journal)) }
    ensures name { IfOk result (λ opened. journal_name opened.journal ≡ store_name) }
    ensures fits { IfOk result (λ opened. FitAFile opened.payloads) }
    ensures images { Follows (KeepsPayloads store_name) (ImagesOf (D.files disk.old)) (ImagesOf (D.files disk.new)) }
    ensures others { Change (KeepsOtherFiles store_name) (D.files disk.old) (D.files disk.new) }
    ensures told { StaysTold (ImagesOf (D.files disk.old)) (ImagesOf (D.files disk.new)) }
    ensures lender { D.lender disk.new ≡ D.lender disk.old }
    ensures cause { HasCause OpenError.Fault (D.faults disk.old) (D.faults disk.new) result }
    ensures damaged { IfErr result (λ why. (offset : _) → why ≡ OpenError.Damaged offset → IfTold (D.files disk.old) (λ fs. DamagedAt offset (bytes_now (fs store_name)))) }
{
    let name = journal_file(alloc)?;
    match Journal::open(alloc, disk, name) {
        Ok(opened) => Ok(opened),
        Err(JournalError::Fault) => Err(OpenError::Fault),
        Err(JournalError::Damaged { offset }) => Err(OpenError::Damaged { offset }),
        Err(JournalError::NoMemory) => Err(OpenError::NoMemory),
        Err(JournalError::TooLong) => unreachable!(),
    }
}

/// The name of the journal of a store.
#[tactic(auto, unfolding(crate::specs::Stored::store_name))]
fn journal_file(alloc: Global) -> Result<Name, AllocError>
    ensures { IfOk result (λ name. name ≡ store_name) }
{
    match Name::new(alloc, "store.journal")? {
        Some(name) => Ok(name),
        None => unreachable!(),
    }
}
