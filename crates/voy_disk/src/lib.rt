//! The outside of a move: the files that it reads and writes, and the streams that it prints to.
//!
//! All other crates reach files through the trait `Disk` and print through the trait `Sink`. So they
//! run alike over disks in memory, which fail where a test wants it, and over real folders.
//!
//! A disk that tells its files to contracts has for each name a `File` of `specs/File.antt`: the bytes
//! that read now, the bytes that are safe, and the ranges touched since the last sync. What a stop may
//! leave of it are its images (`IsImage`). A disk that does not tell them is safe to use, and nothing
//! is said of what it reads.
//!
//! Each writing call says by `Leaves` what it does to the files at Ok, and what it leaves where the disk
//! failed; after `NoMemory` nothing changed. The laws in `specs/CallLaws.antt` lead from there to the
//! images, in the words of `specs/Steps.antt`; those in `FrameLaws.antt` say what stays beside the files that are
//! named, and those in `FrontCallLaws.antt` what stays in front of a write. By the clause `cause` a call answers `Failed` only where the
//! count of faults of its disk or sink rose.
//!
//! - `MemDisk` fails by a `FaultPlan`, `SureDisk` never, and `HostDisk` is a real folder.
//! - `MemSink` keeps what is written to it, and `HostSink` is a standard stream.
//! - `write_all` writes a whole text to a sink.
//! - `Place` has the four disks of a move. A file on a disk goes by its `Name`.
#![tactic(auto)]

mod disk;
mod host;
mod laws;
mod memory;
mod name;
mod names;
mod numbers;
mod place;
mod refusals;
mod sink;
mod writing;

pub use disk::{Disk, DiskError};
pub use host::{HostDisk, HostSink};
pub use laws::{frames_add_up, fronts_are_settled, outages_settle};
pub use memory::{FaultPlan, MemDisk, MemSink, SureDisk};
pub use name::{MAX_NAME_BYTES, Name};
pub use names::Names;
pub use numbers::Numbers;
pub use place::Place;
pub use sink::{Sink, SinkError};
pub use writing::write_all;
