use crate::values::{push_answer, row_of, rows_of, text_at, value_of};
use std::alloc::Global;
use std::cmp::Ordering;
use voy_case_text::{Case, Trouble, first_word, quoted};
use voy_schema::{
    Copies, Kind, Row, Schema, SchemaError, Table, Text, Tuple, Value, check_value, is_lawful_row,
    is_lawful_value,
};

/// The schema of the base that the case's first word names.
pub fn schema_of(alloc: Global, case: &Case) -> Result<Schema, Trouble> {
    let (name, _words) = first_word(case.words);
    let text = case.base(alloc, name)?;
    match Schema::read(alloc, text.as_bytes()) {
        Ok(schema) => Ok(schema),
        Err(SchemaError::Bad { .. }) => Err(Trouble::Case("the base is no schema")),
        Err(SchemaError::NoMemory) => Err(Trouble::NoMemory),
    }
}

/// Appends the two names of the table at this place.
pub fn push_table_name(schema: &Schema, place: u32, to: &mut String) -> Result<(), Trouble> {
    let Some(table) = schema.table(place as usize) else {
        return Err(Trouble::Apart("the table is not in the schema"));
    };
    push_names(table, to)
}

fn push_names(table: &Table, to: &mut String) -> Result<(), Trouble> {
    to.push_str(table.schema_name.as_str())?;
    to.push('.')?;
    to.push_str(table.table_name.as_str())?;
    Ok(())
}

/// The schema that the rows are, in words, or the table that is refused and why.
pub fn schema(alloc: Global, case: &Case) -> Result<String, Trouble> {
    let bytes = case.bytes(alloc)?;
    match Schema::read(alloc, bytes.as_slice()) {
        Ok(schema) => in_words(alloc, &schema),
        Err(error) => refused(alloc, error),
    }
}

/// Whether the rows are a schema, or the table that is refused and why.
pub fn limit(alloc: Global, case: &Case) -> Result<String, Trouble> {
    let bytes = case.bytes(alloc)?;
    match Schema::read(alloc, bytes.as_slice()) {
        Ok(_schema) => {
            let shown = String::from_str(alloc, "a schema")?;
            Ok(shown)
        }
        Err(error) => refused(alloc, error),
    }
}

fn refused(alloc: Global, error: SchemaError) -> Result<String, Trouble> {
    match error {
        SchemaError::Bad { table: 0, why } => {
            let why = why.text();
            let shown = format!(in alloc; "the document is refused, {why}")?;
            Ok(shown)
        }
        SchemaError::Bad { table, why } => {
            let why = why.text();
            let shown = format!(in alloc; "table {table} is refused, {why}")?;
            Ok(shown)
        }
        SchemaError::NoMemory => Err(Trouble::NoMemory),
    }
}

/// The tables in words, one after the other.
fn in_words(alloc: Global, schema: &Schema) -> Result<String, Trouble> {
    let mut shown = String::new(alloc);
    let count = schema.tables.len();
    for place in 0..count {
        let Some(table) = schema.table(place) else {
            return Err(Trouble::Apart("a table is not at its place"));
        };
        if place > 0 {
            shown.push(' ')?;
        }
        push_table(table, &mut shown)?;
    }
    if schema.table(count).is_some() {
        return Err(Trouble::Apart("a table stands behind the last"));
    }
    Ok(shown)
}

fn push_table(table: &Table, to: &mut String) -> Result<(), Trouble> {
    push_names(table, to)?;
    to.push('(')?;
    for (at, column) in table.columns.as_slice().iter().enumerate() {
        if at > 0 {
            to.push_str(", ")?;
        }
        to.push_str(column.name.as_str())?;
        to.push(' ')?;
        to.push_str(kind_name(column.kind))?;
    }
    to.push_str("; key")?;
    push_columns(table, table.primary_key.as_slice(), to)?;
    for key in table.unique_keys.as_slice() {
        to.push_str("; unique")?;
        if key.nulls_not_distinct {
            to.push_str(" with NULLs equal:")?;
        }
        push_columns(table, key.columns.as_slice(), to)?;
    }
    to.push(')')?;
    Ok(())
}

/// Appends the names of the columns at these places, each behind a blank.
fn push_columns(table: &Table, places: &[u32], to: &mut String) -> Result<(), Trouble> {
    for place in places {
        let Some(column) = table.columns.get(*place as usize) else {
            return Err(Trouble::Apart("a key has no such column"));
        };
        to.push(' ')?;
        to.push_str(column.name.as_str())?;
    }
    Ok(())
}

fn kind_name(kind: Kind) -> &'static str {
    match kind {
        Kind::Text => "text",
        Kind::Bigint => "bigint",
        Kind::Boolean => "boolean",
        Kind::Bytea => "bytea",
    }
}

/// Whether a column of the named type takes each of these values.
pub fn values(alloc: Global, case: &Case) -> Result<String, Trouble> {
    let kind = match case.words {
        "text" => Kind::Text,
        "bigint" => Kind::Bigint,
        "boolean" => Kind::Boolean,
        "bytea" => Kind::Bytea,
        _ => return Err(Trouble::Case("no such type")),
    };
    let mut shown = String::new(alloc);
    for line in case.rows.lines() {
        let value = value_of(alloc, line)?;
        let answer = if takes(kind, &value) { "lawful" } else { "not" };
        push_answer(&mut shown, line, answer)?;
    }
    Ok(shown)
}

fn takes(kind: Kind, value: &Value) -> bool {
    match value {
        Value::Null => is_lawful_value(kind, value),
        Value::Text(text) => check_value(kind, text.as_str()),
    }
}

/// Whether each of these rows can stand in the schema's first table.
pub fn lawful(alloc: Global, case: &Case) -> Result<String, Trouble> {
    let schema = schema_of(alloc, case)?;
    let Some(table) = schema.table(0) else {
        return Err(Trouble::Apart("a schema has no table"));
    };
    let mut shown = String::new(alloc);
    for line in case.rows.lines() {
        let row = row_of(alloc, line)?;
        let answer = if is_lawful_row(table, &row) {
            "lawful"
        } else {
            "not"
        };
        push_answer(&mut shown, line, answer)?;
    }
    Ok(shown)
}

/// The place of the table that has each of these two names.
pub fn find(alloc: Global, case: &Case) -> Result<String, Trouble> {
    let schema = schema_of(alloc, case)?;
    let mut shown = String::new(alloc);
    for line in case.rows.lines() {
        let names = row_of(alloc, line)?;
        match schema.find(text_at(&names, 0), text_at(&names, 1)) {
            Some(place) => {
                let answer = format!(in alloc; "at {place}")?;
                push_answer(&mut shown, line, answer.as_str())?;
            }
            None => push_answer(&mut shown, line, "not there")?,
        }
    }
    Ok(shown)
}

/// Each of these texts as it is kept.
pub fn text(alloc: Global, case: &Case) -> Result<String, Trouble> {
    let mut shown = String::new(alloc);
    for line in case.rows.lines() {
        let answer = match value_of(alloc, line)? {
            Value::Text(text) => kept(alloc, &text)?,
            Value::Null => return Err(Trouble::Case("no text")),
        };
        push_answer(&mut shown, line, answer.as_str())?;
    }
    Ok(shown)
}

/// The text, once a copy of it was found to be the same.
fn kept(alloc: Global, text: &Text) -> Result<String, Trouble> {
    let copied = text.copy()?;
    if copied != *text {
        return Err(Trouble::Apart("a copied text is another"));
    }
    quoted(alloc, text.as_str())
}

/// How the tuple of each of these rows compares with that of each of them.
pub fn order(alloc: Global, case: &Case) -> Result<String, Trouble> {
    let rows = rows_of(alloc, case.rows)?;
    let mut shown = String::new(alloc);
    for (at, row) in rows.as_slice().iter().enumerate() {
        if at > 0 {
            shown.push(' ')?;
        }
        push_order(row, rows.as_slice(), &mut shown)?;
    }
    Ok(shown)
}

fn push_order(row: &Row, others: &[Row], to: &mut String) -> Result<(), Trouble> {
    for other in others {
        let order = Tuple::new(row.copy()?).cmp(&Tuple::new(other.copy()?));
        to.push(sign_of_order(order))?;
    }
    Ok(())
}

fn sign_of_order(order: Ordering) -> char {
    match order {
        Ordering::Less => '<',
        Ordering::Equal => '=',
        Ordering::Greater => '>',
    }
}
