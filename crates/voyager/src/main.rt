//! `voyager` moves a recorded source into a target.
//!
//! `voyager --export-dir DIR COMMAND..` works on four folders below `DIR`: `recording`, `export`, and the two
//! stores, `target` and `source`. It reads the words of every command, and so far does these:
//!
//! - `import data to target --dry-run` prints the rows that an import of the exported events would leave, and
//!   says whether the cutover event was reached.
//! - `show target` and `show source` print the tables of a store.
//!
//! All that it does, and what is promised of it, stands in the library `voy_command`.
#![tactic(auto)]

use std::process::ExitCode;

fn main(rt: HostRuntime) -> ExitCode {
    ExitCode::from(voy_command::start(rt))
}
