ghost use Rattle.std.specs.Prelude.{◌≡◌, ◌≤◌, true, is_some, length, map, IfOk};
ghost use Rattle.std.specs.List.{list_all, position};
ghost use Rattle.std.specs.Str.{bytes_eq};
ghost use Rattle.voy_schema.specs.Reading.{column_of, has_known_columns, has_known_types, is_column, kind_named, names_of, places_of, table_stated, unique_key_of};
ghost use Rattle.voy_schema.specs.declared.stated.StatedColumn.{StatedColumn};
ghost use Rattle.voy_schema.specs.declared.stated.StatedKey.{StatedKey};

use crate::copying::Copies;
use crate::items::Items;
use crate::limits::MAX_COLUMNS;
use crate::rules::kind_named;
use crate::stated::{StatedColumn, StatedKey, StatedTable};
use crate::table::{Column, Columns, Places, Table, UniqueKey, UniqueKeys};
use crate::text::Text;
use std::alloc::{AllocError, Global};

/// The table that is stated, its keys by the places of their columns.
pub fn table_stated(alloc: Global, stated: StatedTable) -> Result<Table, AllocError>
    requires counted { length stated.columns ≤ MAX_COLUMNS }
    requires typed { has_known_types stated ≡ true }
    requires keyed { has_known_columns stated ≡ true }
    ensures { IfOk result (λ table. table ≡ table_stated stated) }
{
    let columns = columns_of(alloc, stated.columns.as_slice())?;
    let among = stated.columns.as_slice();
    let primary_key = places_of(alloc, among, stated.primary_key.as_slice())?;
    let unique_keys = unique_keys_of(alloc, among, stated.unique_keys.as_slice())?;
    let StatedTable {
        schema_name,
        table_name,
        ..
    } = stated;
    Ok(Table {
        schema_name,
        table_name,
        columns,
        primary_key,
        unique_keys,
    })
}

fn columns_of(alloc: Global, stated: &[StatedColumn]) -> Result<Columns, AllocError>
    requires { list_all (λ (c : StatedColumn). is_some (kind_named c.kind)) stated.now ≡ true }
    ensures { IfOk result (λ columns. columns ≡ map column_of stated.now) }
{
    let mut columns = Items::new(alloc);
    for column in stated {
        let kind = kind_named(column.kind.as_str()).unwrap();
        let name = column.name.copy()?;
        columns.push(Column { name, kind })?;
    }
    Ok(columns)
}

fn unique_keys_of(
    alloc: Global,
    columns: &[StatedColumn],
    keys: &[StatedKey],
) -> Result<UniqueKeys, AllocError>
    requires counted { length columns.now ≤ MAX_COLUMNS }
    requires keyed { list_all (λ (k : StatedKey). list_all (is_column columns.now) k.columns) keys.now ≡ true }
    ensures { IfOk result (λ found. found ≡ map (unique_key_of columns.now) keys.now) }
{
    let mut found = Items::new(alloc);
    for key in keys {
        let columns = places_of(alloc, columns, key.columns.as_slice())?;
        found.push(UniqueKey {
            columns,
            nulls_not_distinct: key.nulls_not_distinct,
        })?;
    }
    Ok(found)
}

/// The places of a key's columns among `columns`.
fn places_of(alloc: Global, columns: &[StatedColumn], key: &[Text]) -> Result<Places, AllocError>
    requires counted { length columns.now ≤ MAX_COLUMNS }
    requires keyed { list_all (is_column columns.now) key.now ≡ true }
    ensures { IfOk result (λ places. places ≡ places_of columns.now key.now) }
{
    let mut places = Items::new(alloc);
    for name in key {
        places.push(place_in(columns, name.as_str()).unwrap())?;
    }
    Ok(places)
}

/// The place of the column with this name, from 0. `None` where there is none.
fn place_in(columns: &[StatedColumn], name: &str) -> Option<u32>
    requires { length columns.now ≤ MAX_COLUMNS }
    ensures { result ≡ position (bytes_eq name.now) (names_of columns.now) }
{
    for (place, column) in columns.iter().enumerate() {
        if name == column.name.as_str() {
            return Some(place as u32);
        }
    }
    None
}
