use crate::schemas::{push_table_name, schema_of};
use crate::values::{push_answer, push_rows, row_of};
use std::alloc::Global;
use voy_case_text::{Case, Trouble, first_word};
use voy_tables::{Change, Misfit, Plain, PlainError, key_of, well_formed};

/// What plain tables make of changes of the first table, one after the other, and the rows at the end.
pub fn plain(alloc: Global, case: &Case) -> Result<String, Trouble> {
    let mut plain = Plain::new(alloc, schema_of(alloc, case)?)?;
    let mut shown = String::new(alloc);
    for line in case.rows.lines() {
        let change = change_of(alloc, 0, line)?;
        let answer = done(alloc, &mut plain, change)?;
        push_answer(&mut shown, line, answer.as_str())?;
    }
    push_tables(alloc, &plain, &mut shown)?;
    Ok(shown)
}

/// Does the change, and tells in words what came of it.
fn done(alloc: Global, plain: &mut Plain, change: Change) -> Result<String, Trouble> {
    if !well_formed(plain.schema(), &change) {
        return Err(Trouble::Case("the change is not well formed"));
    }
    let told = plain.fits(&change).err();
    let misfit = match plain.apply(change) {
        Ok(()) => None,
        Err(PlainError::Misfit(misfit)) => Some(misfit),
        Err(PlainError::NoMemory) => return Err(Trouble::NoMemory),
    };
    if misfit != told {
        return Err(Trouble::Apart("what fits is not what is done"));
    }
    shown_misfit(alloc, misfit)
}

fn shown_misfit(alloc: Global, misfit: Option<Misfit>) -> Result<String, Trouble> {
    let shown = match misfit {
        None => String::from_str(alloc, "done")?,
        Some(misfit) => {
            let why = misfit_text(alloc, misfit)?;
            format!(in alloc; "refused, {why}")?
        }
    };
    Ok(shown)
}

/// Why a change does not fit.
pub fn misfit_text(alloc: Global, misfit: Misfit) -> Result<String, Trouble> {
    let text = match misfit {
        Misfit::KeyTaken => String::from_str(alloc, "key taken")?,
        Misfit::NoRow => String::from_str(alloc, "no row")?,
        Misfit::OtherRow => String::from_str(alloc, "other row")?,
        Misfit::Unique { key } => format!(in alloc; "unique key {key}")?,
    };
    Ok(text)
}

/// Appends the rows of each table.
fn push_tables(alloc: Global, plain: &Plain, to: &mut String) -> Result<(), Trouble> {
    let count = plain.schema().tables.len() as u32;
    for table in 0..count {
        to.push_str("; then ")?;
        push_table_name(plain.schema(), table, to)?;
        to.push_str(" has ")?;
        push_rows(alloc, plain.table_rows(table), to)?;
        if plain.rows(table)?.as_slice() != plain.table_rows(table) {
            return Err(Trouble::Apart("the copied rows are others"));
        }
    }
    if !plain.table_rows(count).is_empty() {
        return Err(Trouble::Apart("a table that is not there has rows"));
    }
    Ok(())
}

/// Whether each of these changes is well formed.
pub fn formed(alloc: Global, case: &Case) -> Result<String, Trouble> {
    let schema = schema_of(alloc, case)?;
    let mut shown = String::new(alloc);
    for line in case.rows.lines() {
        let change = change_of(alloc, 0, line)?;
        let answer = if well_formed(&schema, &change) {
            "well formed"
        } else {
            "not"
        };
        push_answer(&mut shown, line, answer)?;
    }
    Ok(shown)
}

/// The change of a table that is written `insert ROW`, `update ROW to ROW` or `delete ROW`.
pub fn change_of(alloc: Global, table: u32, line: &str) -> Result<Change, Trouble> {
    let (verb, behind) = first_word(line);
    match verb {
        "insert" => Ok(Change::Insert {
            table,
            after: row_of(alloc, behind)?,
        }),
        "update" => update_of(alloc, table, behind),
        "delete" => Ok(Change::Delete {
            table,
            before: row_of(alloc, behind)?,
        }),
        _ => Err(Trouble::Case("no such change")),
    }
}

fn update_of(alloc: Global, table: u32, rows: &str) -> Result<Change, Trouble> {
    let Some((before, after)) = rows.split_once(" to ") else {
        return Err(Trouble::Case("an update of one row"));
    };
    let before = row_of(alloc, before)?;
    let after = row_of(alloc, after)?;
    Ok(Change::Update {
        table,
        before,
        after,
    })
}

/// The key of each of these rows of the schema's first table.
pub fn key(alloc: Global, case: &Case) -> Result<String, Trouble> {
    let schema = schema_of(alloc, case)?;
    let Some(table) = schema.table(0) else {
        return Err(Trouble::Apart("a schema has no table"));
    };
    let mut shown = String::new(alloc);
    for line in case.rows.lines() {
        let row = row_of(alloc, line)?;
        let key = key_of(alloc, table, &row)?;
        let texts = key.as_slice();
        let answer = format!(in alloc; "{texts:?}")?;
        push_answer(&mut shown, line, answer.as_str())?;
    }
    Ok(shown)
}
