//! What the queue and exports take, beside a parser of the same lines. `bench/queue.py` and `bench/export.py` run it.
//!
//! The standard input is a word, a schema on one line, and lines. By the word `queue` they are read as the events of a committed
//! segment, by `json` each is parsed as a JSON document, by `copy` it is written again too, and by `lines` they are gone through alone. The output
//! is how many there are. By the word `calls` a writer puts them and commits them together, and the output is how many calls of its disk the
//! commit made. By the word `export` they are a recording (the CSV file of the one table, an empty line, and the changes), which is exported; the
//! output is how many rows and changes it has.
#![tactic(auto)]

mod exporting;
mod writing;

use serde_json::Value as Json;
use std::alloc::Global;
use std::io;
use voy_case_text::{Trouble, first_line, line_of, name_of};
use voy_disk::SureDisk;
use voy_meta::{MetaRecord, MetaState};
use voy_queue::Reader;
use voy_schema::Schema;
use voy_tables::Role;

fn main(rt: HostRuntime) -> io::Result<()> {
    let alloc = rt.alloc();
    let text = io::read_to_string(alloc, rt.stdin())?;
    let (word, behind) = first_line(text.as_str());
    let (schema, lines) = first_line(behind);
    let line = line_of(alloc, word, counted(alloc, word, schema, lines))?;
    rt.print(line.as_str())?;
    Ok(())
}

/// How many lines there are.
fn counted(alloc: Global, word: &str, schema: &str, lines: &str) -> Result<String, Trouble> {
    let count = match word {
        "queue" => events_of(alloc, &schema_of(alloc, schema)?, lines)?,
        "json" => documents_in(alloc, lines)?,
        "copy" => copied(alloc, lines)?,
        "lines" => lines.lines().count(),
        "calls" => {
            let calls = writing::calls_for(alloc, &schema_of(alloc, schema)?, lines)?;
            return Ok(format!(in alloc; "{calls}")?);
        }
        "export" => {
            let count = exporting::exported_of(alloc, &schema_of(alloc, schema)?, lines)?;
            return Ok(format!(in alloc; "{count}")?);
        }
        _ => return Err(Trouble::Case("no such word")),
    };
    Ok(format!(in alloc; "{count}")?)
}

/// How many events a reader of the queue gives, where the lines are a committed segment.
fn events_of(alloc: Global, schema: &Schema, lines: &str) -> Result<usize, Trouble> {
    let mut disk = SureDisk::new(alloc);
    disk.put_file(&name_of(alloc, "segment.0.ndjson")?, lines.as_bytes())?;
    let most = lines.lines().count();
    let state = recorded(alloc, lines.len() as u64, most as u64)?;
    if state.segments.len() > 1 {
        return Err(Trouble::Case("too many segments"));
    }
    let mut reader = Reader::open(alloc, &state, 0)?;
    for given in 0..most {
        match reader.next(&mut disk, schema) {
            Ok(Some(_)) => {}
            Ok(None) => return Ok(given),
            Err(_) => return Err(Trouble::Apart("a line that is not the event")),
        }
    }
    Ok(most)
}

fn schema_of(alloc: Global, text: &str) -> Result<Schema, Trouble> {
    match Schema::read(alloc, text.as_bytes()) {
        Ok(schema) => Ok(schema),
        Err(_) => Err(Trouble::Case("no schema")),
    }
}

/// One open segment of so many bytes and events is recorded.
fn recorded(alloc: Global, bytes: u64, last_vsn: u64) -> Result<MetaState, Trouble> {
    let mut state = MetaState::new(alloc);
    state.take(&MetaRecord::Queue {
        segment: 0,
        bytes,
        last_vsn,
        role: Role::Source,
        spot: None,
        closed: false,
        ended: false,
    })?;
    Ok(state)
}

/// How many of the lines are JSON documents.
fn documents_in(alloc: Global, lines: &str) -> Result<usize, Trouble> {
    let mut count: usize = 0;
    for line in lines.lines() {
        if Json::from_slice(alloc, line.as_bytes()).is_err() {
            return Err(Trouble::Apart("a line that is no document"));
        }
        count = count.saturating_add(1);
    }
    Ok(count)
}

/// Copies each line as a JSON document, and answers how many there are.
fn copied(alloc: Global, lines: &str) -> Result<usize, Trouble> {
    let mut count: usize = 0;
    let mut written = Vec::new(alloc);
    for line in lines.lines() {
        let Ok(document) = Json::from_slice(alloc, line.as_bytes()) else {
            return Err(Trouble::Apart("a line that is no document"));
        };
        written.extend_from_slice(document.to_vec(alloc)?.as_slice())?;
        written.extend_from_slice(b"\n")?;
        count = count.saturating_add(1);
    }
    Ok(count)
}
