ghost use Rattle.std.specs.Prelude.{◌≡◌, ◌≤◌, [], length, option_map, IfOk, IfErr};
ghost use Rattle.std.specs.Bool.{OnTrue};
ghost use Rattle.serde_json.specs.View.{view, items_view};
ghost use Rattle.voy_schema.specs.Reading.{cause_of, has_lawful_count, items_reading, schema_reading, stated_items, table_or_why, tables_reading};
ghost use Rattle.voy_schema.specs.Refusal.{Refuses};
ghost use Rattle.voy_schema.specs.Stated.{stated_table};
ghost use Rattle.voy_schema.specs.declared.why.SchemaError.TheVariants.{Bad};

use crate::building::table_stated;
use crate::items::Items;
use crate::json::{FromJson, is_exact};
use crate::limits::MAX_TABLES;
use crate::rules::broken_rule;
use crate::stated::StatedTable;
use crate::table::{Table, Tables};
use crate::why::{SchemaError, SchemaWhy};
use serde_json::Value;
use std::alloc::{AllocError, Global};
use voy_json::ParseError;

const DOCUMENT_NAMES: [&str; 1] = ["tables"];

/// The tables that the bytes of a schema state.
///
/// `SchemaError::Bad` comes exactly where a rule is broken. The document itself is tried first, then
/// its tables in their order.
#[tactic(auto, unfolding(crate::specs::Reading::schema_reading))]
pub fn read_schema(alloc: Global, bytes: &[u8]) -> Result<Tables, SchemaError>
    ensures ok { IfOk result (λ tables. schema_reading bytes.now ≡ Ok tables) }
    ensures err { IfErr result (Refuses cause_of (schema_reading bytes.now)) }
{
    match voy_json::parse(alloc, bytes) {
        Ok(document) => read_items(alloc, stated_items(&document)),
        Err(ParseError::NotJson) => Err(of_document(SchemaWhy::NotJson)),
        Err(ParseError::NoMemory) => Err(SchemaError::NoMemory),
    }
}

fn of_document(why: SchemaWhy) -> SchemaError
    ensures { result ≡ Bad 0 why }
{
    SchemaError::Bad { table: 0, why }
}

/// The elements of the list in a document of the right shape.
#[tactic(auto, unfolding(crate::specs::Reading::document_names))]
fn stated_items(document: &Value) -> Option<&[Value]>
    ensures { option_map (λ items. items_view items.now) result ≡ stated_items (view document.now) }
{
    if !is_exact(document, &DOCUMENT_NAMES) {
        return None;
    }
    let items = document.get("tables").and_then(Value::as_array)?;
    Some(items.as_slice())
}

fn read_items(alloc: Global, items: Option<&[Value]>) -> Result<Tables, SchemaError>
    ensures ok { IfOk result (λ tables. items_reading (option_map (λ items. items_view items.now) items.entry) ≡ Ok tables) }
    ensures err { IfErr result (Refuses cause_of (items_reading (option_map (λ items. items_view items.now) items.entry))) }
{
    let Some(items) = items else {
        return Err(of_document(SchemaWhy::Shape));
    };
    if !has_lawful_count(items) {
        return Err(of_document(SchemaWhy::TooMany));
    }
    read_tables(alloc, items)
}

fn has_lawful_count(items: &[Value]) -> bool
    ensures tests { result ≡ has_lawful_count (items_view items.now) }
    ensures most { OnTrue result (length items.now ≤ MAX_TABLES) }
{
    !items.is_empty() && items.len() <= MAX_TABLES
}

fn read_tables(alloc: Global, items: &[Value]) -> Result<Tables, SchemaError>
    requires { length items.now ≤ MAX_TABLES }
    ensures ok { IfOk result (λ tables. tables_reading (Ok []) (items_view items.now) ≡ Ok tables) }
    ensures err { IfErr result (Refuses cause_of (tables_reading (Ok []) (items_view items.now))) }
{
    let mut tables = Items::new(alloc);
    for item in items {
        match read_table(alloc, tables.as_slice(), item)? {
            Ok(table) => tables.push(table)?,
            Err(why) => {
                let table = tables.len() as u32 + 1;
                return Err(SchemaError::Bad { table, why });
            }
        }
    }
    Ok(tables)
}

/// The table that an element states behind the tables `earlier`, or the first rule that it breaks.
fn read_table(
    alloc: Global,
    earlier: &[Table],
    item: &Value,
) -> Result<Result<Table, SchemaWhy>, AllocError>
    ensures { IfOk result (λ reading. reading ≡ table_or_why earlier.now (stated_table (view item.now))) }
{
    let Some(stated) = StatedTable::from_json(alloc, item)? else {
        return Ok(Err(SchemaWhy::Shape));
    };
    match broken_rule(earlier, &stated) {
        Some(why) => Ok(Err(why)),
        None => Ok(Ok(table_stated(alloc, stated)?)),
    }
}
