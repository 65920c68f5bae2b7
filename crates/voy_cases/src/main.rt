//! The worked cases of the formats, as data.
//!
//! The standard input has paragraphs with a blank line between; the format is described at its top, and each
//! case is written from the specification of its format. The output has what each case came to, in the same
//! order; the gate compares it with the file `stdout`, which comes from there too. A further case takes no proof.
#![tactic(auto)]

mod caches;
mod disks;
mod documents;
mod drawn;
mod events;
mod files;
mod journals;
mod orders;
mod payloads;
mod plain;
mod rows;
mod schemas;
mod sizes;
mod stores;
mod txns;
mod values;
mod words;

use std::alloc::Global;
use std::io;
use voy_case_text::{Case, Trouble, line_of};

fn main(rt: HostRuntime) -> io::Result<()> {
    let alloc = rt.alloc();
    let text = io::read_to_string(alloc, rt.stdin())?;
    for paragraph in text.as_str().split("\n\n") {
        if let Some(case) = Case::new(text.as_str(), paragraph) {
            let line = line_of(alloc, case.name, came_to(alloc, &case))?;
            rt.print(line.as_str())?;
        }
    }
    Ok(())
}

/// What the case came to.
fn came_to(alloc: Global, case: &Case) -> Result<String, Trouble> {
    match case.kind {
        "document" => documents::document(alloc, case),
        "schema" => schemas::schema(alloc, case),
        "schema-limit" => schemas::limit(alloc, case),
        "values" => schemas::values(alloc, case),
        "lawful" => schemas::lawful(alloc, case),
        "find" => schemas::find(alloc, case),
        "text" => schemas::text(alloc, case),
        "order" => schemas::order(alloc, case),
        "row" => rows::row(alloc, case),
        "row-limit" => rows::limit(alloc, case),
        "rows" => rows::rows(alloc, case),
        "made-rows" => rows::made(alloc, case),
        "csv" => rows::recorded(alloc, case),
        "table" => rows::table(alloc, case),
        "plain" => plain::plain(alloc, case),
        "formed" => plain::formed(alloc, case),
        "key" => plain::key(alloc, case),
        "event" => events::event(alloc, case),
        "recorded" => events::recorded(alloc, case),
        "written" => events::written(alloc, case),
        "exported" => events::exported(alloc, case),
        "txn" => txns::txn(alloc, case),
        "size" => sizes::size(alloc, case),
        "name" => files::name(alloc, case),
        "lines" => files::lines(alloc, case),
        "range" => files::range(alloc, case),
        "file" => files::file(alloc, case),
        "bytes" => files::bytes(alloc, case),
        "disk" => disks::disk(alloc, case),
        "journal" => journals::journal(alloc, case),
        "store" => stores::store(alloc, case),
        "stored" => stores::stored(alloc, case),
        "hash" => orders::hash(alloc, case),
        "channel" => orders::channels(alloc, case),
        "conflict" => orders::conflict(alloc, case),
        "cache" => caches::needs_told(alloc, case),
        "cache-drawn" => drawn::stream_compared(alloc, case),
        "words" => words::words(alloc, case),
        "folder" => words::folder(alloc, case),
        _ => Err(Trouble::Case("no such kind")),
    }
}
