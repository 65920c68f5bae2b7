use std::alloc::{AllocError, Global};
use std::test::Fail;
use voy_schema::{Copies, Kind, Schema, Table};

const TWO: &str =
    r#" { "tables" : 1, "tables":[{"unique_keys":[],"primary_key":["b","a"],"columns":[{"type":"boolean","name":"a"},{"name":"b","type":"bytea"}],"table_name":7,"table_name":"t","schema_name":"a"},{"schema_name":"b","table_name":"t","columns":[{"name":"_","type":"text"}],"primary_key":["_"],"unique_keys":[{"columns":["_"]},{"columns":["_"],"nulls_not_distinct":true}]}]} "#;

const TWO_IN_WORDS: &str =
    "a.t a boolean, b bytea, key 1, 0,;b.t _ text, key 0, unique 0, unique with NULLs equal 0,;";

#[test]
fn a_copied_schema_is_the_same(rt: HostRuntime) -> Result<(), Fail> {
    let schema = Schema::read(rt.alloc(), TWO.as_bytes())?;
    let copy = schema.copy()?;
    assert_eq!(rt; described(rt.alloc(), &copy)?.as_str(), TWO_IN_WORDS);
    Ok(())
}

/// The tables in words, each ended by `;`.
fn described(alloc: Global, schema: &Schema) -> Result<String, AllocError> {
    let mut found = String::new(alloc);
    for table in schema.tables.as_slice() {
        describe(alloc, table, &mut found)?;
    }
    Ok(found)
}

fn describe(alloc: Global, table: &Table, to: &mut String) -> Result<(), AllocError> {
    let names = format!(in alloc;
        "{}.{}",
        table.schema_name.as_str(),
        table.table_name.as_str()
    )?;
    to.push_str(names.as_str())?;
    for column in table.columns.as_slice() {
        let kind = match column.kind {
            Kind::Text => "text",
            Kind::Bigint => "bigint",
            Kind::Boolean => "boolean",
            Kind::Bytea => "bytea",
        };
        let column = format!(in alloc; " {} {},", column.name.as_str(), kind)?;
        to.push_str(column.as_str())?;
    }
    to.push_str(" key")?;
    describe_places(alloc, table.primary_key.as_slice(), to)?;
    for key in table.unique_keys.as_slice() {
        to.push_str(" unique")?;
        if key.nulls_not_distinct {
            to.push_str(" with NULLs equal")?;
        }
        describe_places(alloc, key.columns.as_slice(), to)?;
    }
    to.push_str(";")?;
    Ok(())
}

fn describe_places(alloc: Global, places: &[u32], to: &mut String) -> Result<(), AllocError> {
    for place in places {
        let place = format!(in alloc; " {},", *place)?;
        to.push_str(place.as_str())?;
    }
    Ok(())
}
