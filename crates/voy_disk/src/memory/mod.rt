//! Disks and sinks in memory. A disk has its files as a map from names to bytes.

mod answering;
mod changes;
mod crash;
mod disk;
mod file;
mod file_changes;
mod files;
mod listing;
mod plan;
mod sink;
mod sure_disk;

pub use disk::MemDisk;
pub use plan::FaultPlan;
pub use sink::MemSink;
pub use sure_disk::SureDisk;
