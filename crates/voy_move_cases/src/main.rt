//! The worked cases of a move's metadata, queue and exports, as data.
//!
//! The standard input has paragraphs with a blank line between; the format is described at its top, and each
//! case is written from what is specified. The output has what each case came to, in the same order; the gate compares
//! it with the file `stdout`, which comes from there too. A further case takes no proof.
#![tactic(auto)]

mod allowed;
mod export_files;
mod exports;
mod files;
mod payloads;
mod queue;
mod queue_writer;
mod words;

use std::alloc::Global;
use std::io;
use voy_case_text::{Case, Trouble, line_of};

fn main(rt: HostRuntime) -> io::Result<()> {
    let alloc = rt.alloc();
    let text = io::read_to_string(alloc, rt.stdin())?;
    for paragraph in text.as_str().split("\n\n") {
        if let Some(case) = Case::new(text.as_str(), paragraph) {
            let line = line_of(alloc, case.name, came_to(alloc, &case))?;
            rt.print(line.as_str())?;
        }
    }
    Ok(())
}

/// What the case came to.
fn came_to(alloc: Global, case: &Case) -> Result<String, Trouble> {
    match case.kind {
        "payload" => payloads::payload(alloc, case),
        "metadata" => files::metadata(alloc, case),
        "allowed" => allowed::allowed(alloc, case),
        "state" => allowed::state(alloc, case),
        "export" => exports::export(alloc, case),
        "queue" => queue::queue(alloc, case),
        "writer" => queue_writer::writer(alloc, case),
        _ => Err(Trouble::Case("no such kind")),
    }
}
