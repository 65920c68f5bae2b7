//! Exports: the recorded rows into snapshot files, and the recorded changes into the queue.
//!
//! [`export_snapshot`] writes the row texts of each recorded table into a snapshot file, and records it once the file is safe.
//! [`export_changes`] puts the next kept changes into the queue, and the cutover behind them where it is asked for. What each adds is a
//! function of what the recording reads as (`snapshot_end` and `export_end` of `specs/Ends.antt`): the clauses `done`, `told` and `all` say
//! that just this was added, at the end as well as where a file is refused or passes a limit.
//!
//! Whatever they answer, a stop leaves some first steps of it (`prefix`). A disk that is sound for a recording (`SoundExports` of
//! `specs/Sound.antt`) goes by steps that may be done (`moves`), and these keep it sound: the law [`steps_keep_sound`].
#![tactic(auto)]

mod changes;
mod committing;
mod error;
mod exported;
mod gathering;
mod laws;
mod limits;
mod names;
mod plan;
mod rows;
mod snapshot;
mod tables;
mod turns;

pub use changes::export_changes;
pub use error::{ExportError, Which, Why};
pub use exported::Exported;
pub use laws::{commits_are_lawful, exports_are_next, moves_keep_sound, steps_keep_sound};
pub use limits::MAX_CSV_BYTES;
pub use names::{csv_file, snapshot_file};
pub use snapshot::export_snapshot;
