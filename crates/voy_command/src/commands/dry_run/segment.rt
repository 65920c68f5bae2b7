ghost use Rattle.std.specs.Prelude.{◌≡◌, ◌+◌, ◌-◌, ◌<◌, ◌≤◌, ◌^◌, ◌&&◌, [], ◌∷◌, IfErr, IfOk, IsTrue};
ghost use Rattle.std.specs.Str.{bytes_eq};
ghost use Rattle.voy_disk.specs.Faults.{Rose};
ghost use Rattle.voy_event.specs.EventLine.{max_event_line_bytes};
ghost use Rattle.voy_files.specs.Lines.{lines_of};
ghost use Rattle.voy_files.specs.Reader.{bytes_left, found_line, line_limit, unread};
ghost use Rattle.voy_command.specs.Commands.DryRun.Outcome.{outcome_of_lines, refusing};
ghost use Rattle.voy_disk.specs.Files.{IfTold};
ghost use Rattle.voy_command.specs.Files.{file_bytes, segment_name};
ghost use Rattle.voy_command.specs.Commands.DryRun.Folding.{lines_left, outcome_from, unread_lines};
ghost use Rattle.voy_event.specs.Events.{closing_line};
ghost use Rattle.voy_command.specs.Commands.DryRun.Segment.{event_lines, is_empty, without_closing};
ghost use Rattle.voy_command.specs.Commands.DryRun.Stops.{StopsBy};

use crate::answer::{Answer, FileName, Which, disk_stop};
use crate::commands::dry_run::fold::Fold;
use crate::names::segment_file;
use std::alloc::Global;
use voy_disk::Disk;
use voy_event::{MAX_EVENT_LINE_BYTES, is_closing_line};
use voy_files::{Found, LineReader};
use voy_schema::Schema;

/// The fold of the segment's events into tables of `schema`; an absent segment has none. The segment is
/// read in pieces, and one line of it is held.
pub fn fold_segment<D: Disk>(alloc: Global, export: &mut D, schema: Schema) -> Result<Fold, Answer>
    ensures ok { IfOk result (λ fold. IfTold (D.files export.old) (λ fs.
        outcome_of_lines schema.tables (event_lines (file_bytes (fs segment_name))) ≡ outcome_from fold [])) }
    ensures err { IfErr result (StopsBy (Answer.Fault Which.Export) (Rose (D.faults export.old) (D.faults export.new)) (λ a.
        IfTold (D.files export.old) (λ fs.
        outcome_of_lines schema.tables (event_lines (file_bytes (fs segment_name))) ≡ refusing a))) }
    ensures same { D.files export.new ≡ D.files export.old }
    ensures later { D.faults export.old ≤ D.faults export.new }
{
    let Ok(fold) = Fold::new(alloc, schema) else {
        return Err(Answer::NoMemory);
    };
    let Ok(name) = segment_file(alloc) else {
        return Err(Answer::NoMemory);
    };
    match LineReader::open(alloc, export, name, MAX_EVENT_LINE_BYTES) {
        Ok(Some(reader)) => fold_lines(alloc, export, reader, fold),
        Ok(None) => Ok(fold),
        Err(error) => Err(disk_stop(Which::Export, error)),
    }
}

/// The fold with all lines that the reader has left.
fn fold_lines<D: Disk>(
    alloc: Global,
    export: &mut D,
    mut reader: LineReader,
    mut fold: Fold,
) -> Result<Fold, Answer>
    requires few { fold.last + bytes_left reader < 2 ^ 64 - 1 }
    requires limit { line_limit reader ≡ max_event_line_bytes }
    ensures ok { IfOk result (λ done. IfTold (D.files export.old) (λ fs.
        outcome_from fold (unread_lines reader fs) ≡ outcome_from done [])) }
    ensures err { IfErr result (StopsBy (Answer.Fault Which.Export) (Rose (D.faults export.old) (D.faults export.new)) (λ a.
        IfTold (D.files export.old) (λ fs. outcome_from fold (unread_lines reader fs) ≡ refusing a))) }
    ensures same { D.files export.new ≡ D.files export.old }
    ensures later { D.faults export.old ≤ D.faults export.new }
{
    while take_next(alloc, export, &mut reader, &mut fold)? {}
    Ok(fold)
}

/// Takes the next line; false where none is left.
fn take_next<D: Disk>(
    alloc: Global,
    export: &mut D,
    reader: &mut LineReader,
    fold: &mut Fold,
) -> Result<bool, Answer>
    requires few { fold.old.last + bytes_left reader.old < 2 ^ 64 - 1 }
    requires limit { line_limit reader.old ≡ max_event_line_bytes }
    ensures more { IfOk result (λ more. IfTold (D.files export.old) (λ fs.
        outcome_from fold.old (unread_lines reader.old fs) ≡ outcome_from fold.new (lines_left more (unread_lines reader.new fs)))) }
    ensures err { IfErr result (StopsBy (Answer.Fault Which.Export) (Rose (D.faults export.old) (D.faults export.new)) (λ a.
        IfTold (D.files export.old) (λ fs. outcome_from fold.old (unread_lines reader.old fs) ≡ refusing a))) }
    ensures few { IfOk result (λ more. IsTrue more → fold.new.last + bytes_left reader.new < 2 ^ 64 - 1) }
    ensures fewer { IfOk result (λ more. IsTrue more → bytes_left reader.new < bytes_left reader.old) }
    ensures limit { line_limit reader.new ≡ line_limit reader.old }
    ensures same { D.files export.new ≡ D.files export.old }
    ensures later { D.faults export.old ≤ D.faults export.new }
{
    match reader.next(export) {
        Ok(Found::Line) => take_found(alloc, export, reader, fold),
        Ok(Found::TooLong) => Err(Answer::TooLong {
            file: FileName::Segment,
            line: fold.last + 1,
        }),
        Ok(Found::End) => Ok(false),
        Err(error) => Err(disk_stop(Which::Export, error)),
    }
}

/// Takes the line that the reader has found; false where it closes the segment.
fn take_found<D: Disk>(
    alloc: Global,
    export: &mut D,
    reader: &mut LineReader,
    fold: &mut Fold,
) -> Result<bool, Answer>
    requires few { fold.old.last < 2 ^ 64 - 1 }
    ensures more { IfOk result (λ more. IfTold (D.files export.old) (λ fs.
        outcome_from fold.old (without_closing (found_line reader.old ∷ lines_of (unread reader.old fs)))
        ≡ outcome_from fold.new (lines_left more (unread_lines reader.new fs)))) }
    ensures err { IfErr result (StopsBy (Answer.Fault Which.Export) (Rose (D.faults export.old) (D.faults export.new)) (λ a.
        IfTold (D.files export.old) (λ fs.
        outcome_from fold.old (without_closing (found_line reader.old ∷ lines_of (unread reader.old fs))) ≡ refusing a))) }
    ensures last { IfOk result (λ more. IsTrue more → fold.new.last ≡ fold.old.last + 1) }
    ensures fewer { IfOk result (λ more. bytes_left reader.new ≤ bytes_left reader.old) }
    ensures limit { line_limit reader.new ≡ line_limit reader.old }
    ensures same { D.files export.new ≡ D.files export.old }
    ensures later { D.faults export.old ≤ D.faults export.new }
{
    if closes(export, reader)? {
        return Ok(false);
    }
    fold.take_line(alloc, reader.line())?;
    Ok(true)
}

/// Whether the line that was found closes the segment: it is `\.` and the last.
fn closes<D: Disk>(export: &mut D, reader: &mut LineReader) -> Result<bool, Answer>
    ensures closed { IfOk result (λ closed. IfTold (D.files export.old) (λ fs.
        closed ≡ (bytes_eq (found_line reader.old) closing_line && is_empty (unread reader.old fs)))) }
    ensures err { IfErr result (StopsBy (Answer.Fault Which.Export) (Rose (D.faults export.old) (D.faults export.new)) (λ a.
        IfTold (D.files export.old) (λ fs. ⊥))) }
    ensures unread { IfOk result (λ closed. IfTold (D.files export.old) (λ fs. unread reader.new fs ≡ unread reader.old fs)) }
    ensures fewer { IfOk result (λ closed. bytes_left reader.new ≤ bytes_left reader.old) }
    ensures line { found_line reader.new ≡ found_line reader.old }
    ensures limit { line_limit reader.new ≡ line_limit reader.old }
    ensures same { D.files export.new ≡ D.files export.old }
    ensures later { D.faults export.old ≤ D.faults export.new }
{
    if !is_closing_line(reader.line()) {
        return Ok(false);
    }
    match reader.is_at_end(export) {
        Ok(ended) => Ok(ended),
        Err(error) => Err(disk_stop(Which::Export, error)),
    }
}
