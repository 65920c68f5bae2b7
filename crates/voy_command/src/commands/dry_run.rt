ghost use Rattle.std.specs.Prelude.{◌≡◌, ◌≤◌, [], IfErr, IfOk, is_some};
ghost use Rattle.voy_disk.specs.Faults.{Rose};
ghost use Rattle.voy_disk.specs.Files.{IfTold};
ghost use Rattle.voy_command.specs.Commands.DryRun.{dry_run_part};
ghost use Rattle.voy_command.specs.Commands.DryRun.Folding.{outcome_from};
ghost use Rattle.voy_command.specs.Commands.DryRun.Outcome.{WithOutcome, end_answer};
ghost use Rattle.voy_command.specs.Commands.DryRun.Stops.{StopsBy, StopsDryRun};
ghost use Rattle.voy_command.specs.Course.{Course};
ghost use Rattle.voy_command.specs.Files.{metadata_name};
ghost use Rattle.voy_command.specs.Part.{Does};

mod fold;
mod print;
mod segment;

use crate::answer::{Answer, Unbuilt, Which, disk_stop};
use crate::commands::dry_run::fold::Fold;
use crate::commands::dry_run::print::print_fold;
use crate::commands::dry_run::segment::fold_segment;
use crate::laws::valid_streams_fold;
use crate::names::metadata_file;
use crate::recorded::read_schema;
use std::alloc::Global;
use voy_disk::{Disk, Place, Sink};

/// The dry run without metadata: folds the exported segment by the recorded schema, and prints the rows
/// and whether the cutover event was reached.
pub fn dry_run<D: Disk, K: Sink>(alloc: Global, place: &mut Place<D>, out: &mut K) -> Answer
    ensures { let c : Course D K = record {
      files = D.files;
      faults = D.faults;
      written = K.written;
      failures = K.faults;
      old = record { place = place.old; out = out.old };
      new = record { place = place.new; out = out.new };
    } in
        Does (dry_run_part c) c result }
{
    // The law that completeness rests on; there is nothing to run.
    valid_streams_fold();
    let fold = match fold_recorded(alloc, &mut place.recording, &mut place.export) {
        Ok(fold) => fold,
        Err(stop) => return stop,
    };
    if let Err(stop) = print_fold(alloc, &fold, out) {
        return stop;
    }
    end_answer(fold.ended)
}

/// What is answered of a segment that was folded to its end.
fn end_answer(ended: bool) -> Answer
    ensures { result ≡ end_answer ended }
{
    if ended { Answer::Done } else { Answer::Waiting }
}

/// The fold of the exported segment by the recorded schema.
fn fold_recorded<D: Disk>(alloc: Global, recording: &mut D, export: &mut D) -> Result<Fold, Answer>
    ensures ok { IfOk result (λ fold. WithOutcome (D.files export.old) (D.files recording.old) (λ o. o ≡ outcome_from fold [])) }
    ensures err { IfErr result (StopsDryRun (D.files export.old) (D.files recording.old) (Rose (D.faults export.old) (D.faults export.new))
        (Rose (D.faults recording.old) (D.faults recording.new))) }
    ensures export { D.files export.new ≡ D.files export.old }
    ensures recording { D.files recording.new ≡ D.files recording.old }
{
    match has_metadata(alloc, export) {
        Ok(true) => return Err(Answer::NotBuilt(Unbuilt::Metadata)),
        Ok(false) => {}
        Err(stop) => return Err(stop),
    }
    match read_schema(alloc, recording) {
        Ok(schema) => fold_segment(alloc, export, schema),
        Err(stop) => Err(stop),
    }
}

/// Whether there are metadata on the export disk.
fn has_metadata<D: Disk>(alloc: Global, export: &mut D) -> Result<bool, Answer>
    ensures ok { IfOk result (λ there. IfTold (D.files export.old) (λ fs. there ≡ is_some (fs metadata_name))) }
    ensures err { IfErr result (StopsBy (Answer.Fault Which.Export) (Rose (D.faults export.old) (D.faults export.new)) (λ a. ⊥)) }
    ensures same { D.files export.new ≡ D.files export.old }
    ensures later { D.faults export.old ≤ D.faults export.new }
{
    let Ok(name) = metadata_file(alloc) else {
        return Err(Answer::NoMemory);
    };
    match export.len(&name) {
        Ok(length) => Ok(length.is_some()),
        Err(error) => Err(disk_stop(Which::Export, error)),
    }
}
