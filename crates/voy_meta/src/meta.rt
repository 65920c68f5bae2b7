ghost use Rattle.std.specs.Prelude.{◌≡◌, ◌≢◌, ◌↔◌, ◌++◌, [], ◌∷◌, true, false, Err, None, Some, is_some, IfErr, IfOk, IsFalse, IsTrue, OnErr, OnOk};
ghost use Rattle.std.specs.Option.{option_map};
ghost use Rattle.voy_disk.specs.Calls.{Change};
ghost use Rattle.voy_disk.specs.Faults.{HasCause};
ghost use Rattle.voy_disk.specs.Files.{IfTold, bytes_now};
ghost use Rattle.voy_disk.specs.Frames.{KeepsOtherFiles};
ghost use Rattle.voy_disk.specs.Images.{ImagesOf};
ghost use Rattle.voy_disk.specs.Steps.{DoesAll, Follows, LeavesPrefix, StaysTold};
ghost use Rattle.voy_journal.specs.Exact.{AppendsEntry, ReadsAsBefore, OpensFile};
ghost use Rattle.voy_journal.specs.Journal.{KeepsPayloads};
ghost use Rattle.voy_meta.specs.Allowed.{is_allowed};
ghost use Rattle.voy_meta.specs.Exact.{OpensMeta};
ghost use Rattle.voy_meta.specs.Meta.{AddsRecords, IsMetaDamaged, MetaStands, OpensRecords, OpensTo, OpensWith, RecordsStand, is_live, known_records, meta_gate, meta_name, meta_state};
ghost use Rattle.voy_meta.specs.Opening.{ReadsRecords};
ghost use Rattle.voy_meta.specs.Records.{payload_of};
ghost use Rattle.voy_meta.specs.Stages.{request_refusal, stage_of};
ghost use Rattle.voy_meta.specs.State.{after_record};
ghost use Rattle.voy_meta.specs.declared.record.MetaRecord.TheVariants.{Request};

use crate::appending::append_record;
use crate::error::{MetaError, RequestError};
use crate::limits::VERSION;
use crate::opening::{open_journal, read_state};
use crate::record::MetaRecord;
use crate::stage::Stage;
use crate::state::MetaState;
use std::alloc::Global;
use voy_disk::Disk;
use voy_journal::{Journal, Opened};
use voy_tables::Side;

/// The metadata of a move: the records of `meta.journal`, and what they come to.
#[derive(Debug, Drop)]
pub struct Meta {
    pub(crate) alloc: Global,
    pub(crate) journal: Journal,
    pub(crate) state: MetaState,
    /// Whether the records are known to be as the last call left them.
    pub(crate) live: bool,
}

impl Meta {
    /// Opens the metadata over `meta.journal`, and makes the file where there is none. Where no version or only version 1
    /// is recorded, version 2 is put behind the records.
    ///
    /// After Ok the records are those that the file had, and then the version that was put. Whatever the answer, a stop
    /// leaves the records that it would have left before, or these and the version. `Damaged` comes where the journal is
    /// damaged, or has a payload that is no record, or one that is not allowed behind those in front of it.
    pub fn open<D: Disk>(alloc: Global, disk: &mut D) -> Result<Meta, MetaError>
        // after Ok
        ensures opens { IfOk result (λ meta. IfTold (D.files disk.old) (λ fs. OpensTo (bytes_now (fs meta_name)) (meta_state meta))) }
        ensures records { IfOk result (λ meta. IfTold (D.files disk.old) (λ fs. OpensWith (bytes_now (fs meta_name)) (known_records meta (D.files disk.new)))) }
        ensures stands { IfOk result (λ meta. MetaStands meta (D.files disk.new)) }
        ensures live { IfOk result (λ meta. IsTrue (is_live meta)) }
        // the bytes are those of the journal that was opened, and of the version that was put behind them
        ensures exact { OnOk result (Change OpensMeta (D.files disk.old) (D.files disk.new)) }
        // whatever it answers
        ensures images { Follows OpensRecords (ImagesOf (D.files disk.old)) (ImagesOf (D.files disk.new)) }
        ensures others { Change (KeepsOtherFiles meta_name) (D.files disk.old) (D.files disk.new) }
        ensures told { StaysTold (ImagesOf (D.files disk.old)) (ImagesOf (D.files disk.new)) }
        ensures lender { D.lender disk.new ≡ D.lender disk.old }
        // when each error comes
        ensures cause { HasCause MetaError.Fault (D.faults disk.old) (D.faults disk.new) result }
        ensures damaged { IfErr result (λ error. (offset : _) → error ≡ MetaError.Damaged offset → IfTold (D.files disk.old) (λ fs. IsMetaDamaged (bytes_now (fs meta_name)) offset)) }
        // damaged metadata are left as they are
        ensures kept { IfErr result (λ error. (offset : _) → error ≡ MetaError.Damaged offset → Follows (KeepsPayloads meta_name) (ImagesOf (D.files disk.old)) (ImagesOf (D.files disk.new))) }
        ensures bytes { IfErr result (λ error. (offset : _) → error ≡ MetaError.Damaged offset → Change (ReadsAsBefore meta_name) (D.files disk.old) (D.files disk.new)) }
    {
        let mut meta = open_recorded(alloc, disk)?;
        if meta.state.version == VERSION {
            return Ok(meta);
        }
        meta.add(disk, MetaRecord::Version { version: VERSION })?;
        Ok(meta)
    }

    /// What all records come to.
    pub fn state(&self) -> &MetaState
        ensures { result.now ≡ meta_state self.now }
    {
        &self.state
    }

    /// Whether records may be put. Where not, open the metadata again.
    pub fn live(&self) -> bool
        ensures { result ≡ is_live self.now }
    {
        self.live && self.journal.live()
    }

    /// Whether this record may be put.
    pub fn allowed(&self, entry: &MetaRecord) -> bool
        ensures { result ≡ is_allowed (meta_state self.now) entry.now }
    {
        self.state.allows(entry)
    }

    /// The last stage that was reached.
    pub fn stage(&self) -> Stage
        ensures { result ≡ stage_of (meta_state self.now) }
    {
        self.state.stage()
    }

    /// Puts a record behind the others. Once it answers Ok, no stop can lose it.
    ///
    /// After an error the metadata are not live, and each image has the old records, or these and the new one. `Damaged`
    /// is never answered.
    pub fn put<D: Disk>(&mut self, disk: &mut D, entry: MetaRecord) -> Result<(), MetaError>
        requires live { IsTrue (is_live self.old) }
        requires stands { MetaStands self.old (D.files disk.old) }
        requires allowed { IsTrue (is_allowed (meta_state self.old) entry) }

        // after Ok
        ensures all { DoesAll AddsRecords (entry ∷ []) result (ImagesOf (D.files disk.old)) (ImagesOf (D.files disk.new)) }
        ensures adds { OnOk result (known_records self.new (D.files disk.new) ≡ option_map (λ entries. entries ++ entry ∷ []) (known_records self.old (D.files disk.old))) }
        ensures exact { OnOk result (Change (AppendsEntry meta_name (meta_gate self.old) (payload_of entry)) (D.files disk.old) (D.files disk.new)) }
        ensures state { OnOk result (meta_state self.new ≡ after_record (meta_state self.old) entry) }
        ensures stands { OnOk result (MetaStands self.new (D.files disk.new)) }
        ensures live { OnOk result (IsTrue (is_live self.new)) }
        // after an error
        ensures same { OnErr result (meta_state self.new ≡ meta_state self.old) }
        ensures dead { OnErr result (IsFalse (is_live self.new)) }
        // whatever it answers
        ensures prefix { LeavesPrefix AddsRecords (entry ∷ []) (ImagesOf (D.files disk.old)) (ImagesOf (D.files disk.new)) }
        ensures others { Change (KeepsOtherFiles meta_name) (D.files disk.old) (D.files disk.new) }
        ensures told { StaysTold (ImagesOf (D.files disk.old)) (ImagesOf (D.files disk.new)) }
        ensures lender { D.lender disk.new ≡ D.lender disk.old }
        // when each error comes
        ensures cause { HasCause MetaError.Fault (D.faults disk.old) (D.faults disk.new) result }
        ensures never_damaged { IfErr result (λ error. (offset : _) → error ≢ MetaError.Damaged offset) }
    {
        self.add(disk, entry)
    }

    /// Asks for the cutover to a side. A cutover to the source has no fall-back.
    ///
    /// `Refused` comes exactly where the stage does not allow it, with the first reason, and nothing changed. Any other
    /// error is that of [`Meta::put`].
    #[tactic(auto, using(voy_disk::specs::ChangeLaws::others_still))]
    pub fn request_cutover<D: Disk>(
        &mut self,
        disk: &mut D,
        side: Side,
        fall_back: bool,
    ) -> Result<(), RequestError>
        requires live { IsTrue (is_live self.old) }
        requires stands { MetaStands self.old (D.files disk.old) }
        requires source { side ≡ Side.Source → fall_back ≡ false }

        // where the stage does not allow it
        ensures refused { (why : _) → (result ≡ Err (RequestError.Refused why)) ↔ (request_refusal side (meta_state self.old) ≡ Some why) }
        ensures unchanged { IfErr result (λ error. (why : _) → error ≡ RequestError.Refused why → self.new ≡ self.old) }
        ensures untouched { IfErr result (λ error. (why : _) → error ≡ RequestError.Refused why → disk.new ≡ disk.old) }
        ensures still { IfErr result (λ error. (why : _) → error ≡ RequestError.Refused why → IsTrue (is_live self.new)) }
        // after Ok
        ensures all { DoesAll AddsRecords (Request side fall_back ∷ []) result (ImagesOf (D.files disk.old)) (ImagesOf (D.files disk.new)) }
        ensures adds { OnOk result (known_records self.new (D.files disk.new) ≡ option_map (λ entries. entries ++ Request side fall_back ∷ []) (known_records self.old (D.files disk.old))) }
        ensures exact { OnOk result (Change (AppendsEntry meta_name (meta_gate self.old) (payload_of (Request side fall_back))) (D.files disk.old) (D.files disk.new)) }
        ensures state { OnOk result (meta_state self.new ≡ after_record (meta_state self.old) (Request side fall_back)) }
        ensures live { OnOk result (IsTrue (is_live self.new)) }
        // after an error
        ensures same { OnErr result (meta_state self.new ≡ meta_state self.old) }
        ensures dead { OnErr result (request_refusal side (meta_state self.old) ≡ None → IsFalse (is_live self.new)) }
        // whatever it answers
        ensures stands { IsTrue (is_live self.new) → MetaStands self.new (D.files disk.new) }
        ensures prefix { LeavesPrefix AddsRecords (Request side fall_back ∷ []) (ImagesOf (D.files disk.old)) (ImagesOf (D.files disk.new)) }
        ensures others { Change (KeepsOtherFiles meta_name) (D.files disk.old) (D.files disk.new) }
        ensures told { StaysTold (ImagesOf (D.files disk.old)) (ImagesOf (D.files disk.new)) }
        ensures lender { D.lender disk.new ≡ D.lender disk.old }
        // when a fault comes
        ensures cause { HasCause RequestError.Fault (D.faults disk.old) (D.faults disk.new) result }
    {
        match self.state.request_refusal(side) {
            Some(why) => return Err(RequestError::Refused(why)),
            None => {}
        }
        match self.put(disk, MetaRecord::Request { side, fall_back }) {
            Ok(()) => Ok(()),
            Err(MetaError::Fault) => Err(RequestError::Fault),
            Err(MetaError::NoMemory) => Err(RequestError::NoMemory),
            Err(MetaError::Damaged { .. }) => unreachable!(),
        }
    }

    // Puts a record behind the others, whatever their version is.
    fn add<D: Disk>(&mut self, disk: &mut D, entry: MetaRecord) -> Result<(), MetaError>
        requires live { IsTrue (is_live self.old) }
        requires stands { RecordsStand self.old (D.files disk.old) }
        requires allowed { IsTrue (is_allowed (meta_state self.old) entry) }
        ensures all { DoesAll AddsRecords (entry ∷ []) result (ImagesOf (D.files disk.old)) (ImagesOf (D.files disk.new)) }
        ensures adds { OnOk result (known_records self.new (D.files disk.new) ≡ option_map (λ entries. entries ++ entry ∷ []) (known_records self.old (D.files disk.old))) }
        ensures exact { OnOk result (Change (AppendsEntry meta_name (meta_gate self.old) (payload_of entry)) (D.files disk.old) (D.files disk.new)) }
        ensures state { OnOk result (meta_state self.new ≡ after_record (meta_state self.old) entry) }
        ensures stands { OnOk result (RecordsStand self.new (D.files disk.new)) }
        ensures live { OnOk result (IsTrue (is_live self.new)) }
        ensures same { OnErr result (meta_state self.new ≡ meta_state self.old) }
        ensures dead { OnErr result (IsFalse (is_live self.new)) }
        ensures prefix { LeavesPrefix AddsRecords (entry ∷ []) (ImagesOf (D.files disk.old)) (ImagesOf (D.files disk.new)) }
        ensures others { Change (KeepsOtherFiles meta_name) (D.files disk.old) (D.files disk.new) }
        ensures told { StaysTold (ImagesOf (D.files disk.old)) (ImagesOf (D.files disk.new)) }
        ensures lender { D.lender disk.new ≡ D.lender disk.old }
        ensures cause { HasCause MetaError.Fault (D.faults disk.old) (D.faults disk.new) result }
        ensures never_damaged { IfErr result (λ error. (offset : _) → error ≢ MetaError.Damaged offset) }
    {
        self.live = false;
        append_record(self.alloc, &mut self.journal, disk, entry)?;
        self.state.take(&entry)?;
        self.live = true;
        Ok(())
    }
}

// Opens the journal and reads its records, as they stand.
fn open_recorded<D: Disk>(alloc: Global, disk: &mut D) -> Result<Meta, MetaError>
    ensures has { IfOk result (λ meta. IfTold (D.files disk.old) (λ fs. ReadsRecords (bytes_now (fs meta_name)) (meta_state meta) (known_records meta (D.files disk.new)))) }
    ensures stands { IfOk result (λ meta. RecordsStand meta (D.files disk.new)) }
    ensures live { IfOk result (λ meta. IsTrue (is_live meta)) }
    ensures exact { OnOk result (Change (OpensFile meta_name) (D.files disk.old) (D.files disk.new)) }
    ensures bytes { Change (ReadsAsBefore meta_name) (D.files disk.old) (D.files disk.new) }
    ensures images { Follows (KeepsPayloads meta_name) (ImagesOf (D.files disk.old)) (ImagesOf (D.files disk.new)) }
    ensures others { Change (KeepsOtherFiles meta_name) (D.files disk.old) (D.files disk.new) }
    ensures told { StaysTold (ImagesOf (D.files disk.old)) (ImagesOf (D.files disk.new)) }
    ensures lender { D.lender disk.new ≡ D.lender disk.old }
    ensures cause { HasCause MetaError.Fault (D.faults disk.old) (D.faults disk.new) result }
    ensures damaged { IfErr result (λ error. (offset : _) → error ≡ MetaError.Damaged offset → IfTold (D.files disk.old) (λ fs. IsMetaDamaged (bytes_now (fs meta_name)) offset)) }
{
    let Opened { journal, payloads } = open_journal(alloc, disk)?;
    let state = read_state(alloc, payloads.as_slice())?;
    Ok(Meta {
        alloc,
        journal,
        state,
        live: true,
    })
}
