ghost use Rattle.std.specs.Prelude.{◌≡◌, ◌<◌, ℕ, List, Err, map, string_bytes};
ghost use Rattle.voy_schema.specs.Refusal.{Refuses};
ghost use Rattle.voy_words.specs.Reading.{cause_of, reading};
ghost use Rattle.voy_words.specs.Table.{number_of};
ghost use Rattle.voy_command.specs.Answered.{IsAnswered, IsDone, IsUnread};
ghost use Rattle.voy_command.specs.Words.{task_of};

mod dry_run;
mod show;

use crate::answer::{Answer, Unbuilt};
use crate::commands::dry_run::dry_run;
use crate::commands::show::show;
use std::alloc::Global;
use voy_disk::{Disk, Place, Sink};
use voy_tables::Side;
use voy_words::{Command, Phrase, Usage, WordsError, read_words};

/// What a command comes to in this program.
#[derive(Clone, Copy, Debug, PartialEq, Eq)]
pub enum Task {
    /// The dry run of an import into the target.
    DryRun,
    /// The store of this side is shown.
    Show(Side),
    /// The command of this phrase is not built yet.
    Unbuilt(Phrase),
}

/// Does the one command that these words ask for, prints its text to `out` and a refusal to `err`, and
/// gives the exit status.
pub fn command<D: Disk + Send, K: Sink>(
    alloc: Global,
    words: &[String],
    place: &mut Place<D>,
    out: &mut K,
    err: &mut K,
) -> u8
    ensures answered { IsAnswered (map string_bytes words.now) result
        (record {
          files = D.files;
          faults = D.faults;
          written = K.written;
          failures = K.faults;
          old = record { place = place.old; out = out.old };
          new = record { place = place.new; out = out.new };
        }) err.old err.new }
{
    let answer = do_asked(alloc, words, place, out);
    answer.tell(alloc, err);
    answer.status()
}

/// Does what these words ask for.
fn do_asked<D: Disk + Send, K: Sink>(
    alloc: Global,
    words: &[String],
    place: &mut Place<D>,
    out: &mut K,
) -> Answer
    ensures { IsDone (map string_bytes words.now)
        (record {
          files = D.files;
          faults = D.faults;
          written = K.written;
          failures = K.faults;
          old = record { place = place.old; out = out.old };
          new = record { place = place.new; out = out.new };
        }) result }
{
    let command = match read_words(alloc, words) {
        Ok(command) => command,
        Err(error) => return unread(error),
    };
    match task_of(command) {
        Task::DryRun => dry_run(alloc, place, out),
        Task::Show(side) => show(alloc, side, place, out),
        Task::Unbuilt(phrase) => Answer::NotBuilt(Unbuilt::Command(phrase)),
    }
}

/// What is answered of words that were not read.
fn unread(error: WordsError) -> Answer
    ensures { (words : List (List ℕ)) → Refuses cause_of (reading words) error → IsUnread words result }
{
    match error {
        WordsError::Usage(usage) => faulty(usage),
        WordsError::NoMemory => Answer::NoMemory,
    }
}

/// What is answered of words without a reading.
fn faulty(usage: Usage) -> Answer
    ensures { (words : List (List ℕ)) → reading words ≡ Err usage → IsUnread words result }
{
    match usage {
        Usage::Phrase => Answer::NoCommand,
        Usage::Rest { phrase } => Answer::NoReading(phrase_at(phrase)),
    }
}

/// What a command comes to.
fn task_of(command: Command) -> Task
    ensures { result ≡ task_of command }
{
    match command {
        Command::ExportSource { .. } => Task::Unbuilt(Phrase::ExportFromSource),
        Command::ExportTarget { .. } => Task::Unbuilt(Phrase::ExportFromTarget),
        Command::ImportTarget { dry_run: true, .. } => Task::DryRun,
        Command::ImportTarget { dry_run: false, .. } => Task::Unbuilt(Phrase::ImportToTarget),
        Command::ImportSource { .. } => Task::Unbuilt(Phrase::ImportToSource),
        Command::CutoverTarget { .. } => Task::Unbuilt(Phrase::CutoverToTarget),
        Command::CutoverSource => Task::Unbuilt(Phrase::CutoverToSource),
        Command::LoadSource => Task::Unbuilt(Phrase::LoadSource),
        Command::Status => Task::Unbuilt(Phrase::CutoverStatus),
        Command::Report => Task::Unbuilt(Phrase::Report),
        Command::Show { side } => Task::Show(side),
        Command::Rehearse { .. } => Task::Unbuilt(Phrase::Rehearse),
    }
}

/// The phrase of this number.
fn phrase_at(number: u32) -> Phrase
    ensures { number < 12 → number_of result ≡ number }
{
    match number {
        0 => Phrase::ExportFromSource,
        1 => Phrase::ExportFromTarget,
        2 => Phrase::ImportToTarget,
        3 => Phrase::ImportToSource,
        4 => Phrase::CutoverToTarget,
        5 => Phrase::CutoverToSource,
        6 => Phrase::LoadSource,
        7 => Phrase::CutoverStatus,
        8 => Phrase::Report,
        9 => Phrase::ShowTarget,
        10 => Phrase::ShowSource,
        _ => Phrase::Rehearse,
    }
}

/// The whole program over any four disks: one command.
pub fn run<D: Disk + Send, K: Sink>(
    alloc: Global,
    words: &[String],
    place: &mut Place<D>,
    out: &mut K,
    err: &mut K,
) -> u8
    ensures answered { IsAnswered (map string_bytes words.now) result
        (record {
          files = D.files;
          faults = D.faults;
          written = K.written;
          failures = K.faults;
          old = record { place = place.old; out = out.old };
          new = record { place = place.new; out = out.new };
        }) err.old err.new }
{
    command(alloc, words, place, out, err)
}
