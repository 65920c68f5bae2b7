//! A real folder, and the standard streams of the process.

mod disk;
mod files;
mod opened;
mod sink;

pub use disk::HostDisk;
pub use sink::HostSink;
