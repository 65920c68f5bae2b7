use crate::plain::change_of;
use crate::schemas::schema_of;
use crate::stores::place_of;
use crate::values::{push_answer, push_row};
use std::alloc::Global;
use voy_case_text::{Case, Trouble, first_word, hexadecimal};
use voy_order::{FNV1A_START, acquired, channel, fnv1a, holds, released};
use voy_schema::{Row, Schema};
use voy_tables::Change;

/// The hash of the bytes, in hexadecimal.
pub fn hash(alloc: Global, case: &Case) -> Result<String, Trouble> {
    let bytes = case.bytes(alloc)?;
    let hash = fnv1a(FNV1A_START, bytes.as_slice());
    hexadecimal(alloc, &hash.to_be_bytes())
}

/// The channel of each change among so many.
pub fn channels(alloc: Global, case: &Case) -> Result<String, Trouble> {
    let schema = schema_of(alloc, case)?;
    let mut shown = String::new(alloc);
    for line in case.rows.lines() {
        let (count, change) = first_word(line);
        let count = place_of(count)?;
        if count < 1 {
            return Err(Trouble::Case("no channels"));
        }
        let change = numbered_change(alloc, change)?;
        let channel = channel(&schema, &change, count);
        let answer = format!(in alloc; "{channel}")?;
        push_answer(&mut shown, line, answer.as_str())?;
    }
    Ok(shown)
}

/// What each change releases and acquires of the unique keys of its table, and the changes in front of it that hold it back.
pub fn conflict(alloc: Global, case: &Case) -> Result<String, Trouble> {
    let schema = schema_of(alloc, case)?;
    let mut shown = String::new(alloc);
    for (at, line) in case.rows.lines().enumerate() {
        let change = numbered_change(alloc, line)?;
        let mut answer = ends_of(alloc, &schema, &change)?;
        for (earlier, front) in case.rows.lines().take(at).enumerate() {
            if holds(&schema, &numbered_change(alloc, front)?, &change) {
                let number = earlier + 1;
                answer.push_str(format!(in alloc; ", held by row {number}")?.as_str())?;
            }
        }
        push_answer(&mut shown, line, answer.as_str())?;
    }
    Ok(shown)
}

/// How many unique keys are asked of each table: one more than a table of the cases has.
const UNIQUE_KEYS: u32 = 3;

/// The rows whose tuples the change releases and acquires, each behind the number of the unique key, or `nothing`.
fn ends_of(alloc: Global, schema: &Schema, change: &Change) -> Result<String, Trouble> {
    let mut shown = String::new(alloc);
    for unique in 0..UNIQUE_KEYS {
        push_end(
            alloc,
            "releases",
            unique,
            released(schema, change, unique),
            &mut shown,
        )?;
        push_end(
            alloc,
            "acquires",
            unique,
            acquired(schema, change, unique),
            &mut shown,
        )?;
    }
    if shown.is_empty() {
        shown.push_str("nothing")?;
    }
    Ok(shown)
}

fn push_end(
    alloc: Global,
    verb: &str,
    unique: u32,
    row: Option<&Row>,
    to: &mut String,
) -> Result<(), Trouble> {
    if let Some(row) = row {
        if !to.is_empty() {
            to.push_str(", ")?;
        }
        let front = format!(in alloc; "{verb} {unique} of ")?;
        to.push_str(front.as_str())?;
        push_row(alloc, row, to)?;
    }
    Ok(())
}

/// The change that is written behind the number of its table.
fn numbered_change(alloc: Global, written: &str) -> Result<Change, Trouble> {
    let (table, change) = first_word(written);
    change_of(alloc, place_of(table)?, change)
}
