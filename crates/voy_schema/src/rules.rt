ghost use Rattle.std.specs.Prelude.{◌≡◌, is_some, nat_le, length};
ghost use Rattle.std.specs.List.{list_all, list_any};
ghost use Rattle.std.specs.Str.{bytes_eq};
ghost use Rattle.voy_schema.specs.Lawful.{is_distinct, is_name, is_named};
ghost use Rattle.voy_schema.specs.Reading.{broken_rule, has_known_columns, has_known_types, has_lawful_counts, has_lawful_names, has_no_repeat, has_whole_keys, is_column, keys_of, kind_named, names_of};
ghost use Rattle.voy_schema.specs.declared.stated.StatedKey.{StatedKey};

use crate::limits::{MAX_COLUMNS, MAX_UNIQUE_KEYS};
use crate::names::is_name;
use crate::stated::{StatedColumn, StatedKey, StatedTable};
use crate::table::{Kind, Table};
use crate::text::Text;
use crate::why::SchemaWhy;

/// The first rule that a table breaks which stands behind those of `earlier`. `None` where it breaks none.
pub fn broken_rule(earlier: &[Table], stated: &StatedTable) -> Option<SchemaWhy>
    ensures { result ≡ broken_rule earlier.now stated.now }
{
    if !has_lawful_counts(stated) {
        return Some(SchemaWhy::TooMany);
    }
    if !has_lawful_names(stated) {
        return Some(SchemaWhy::BadName);
    }
    if !has_known_types(stated) {
        return Some(SchemaWhy::BadType);
    }
    if !has_no_repeat(earlier, stated) {
        return Some(SchemaWhy::Repeated);
    }
    if !has_known_columns(stated) {
        return Some(SchemaWhy::NoColumn);
    }
    if !has_whole_keys(stated) {
        return Some(SchemaWhy::NoKey);
    }
    None
}

/// Whether the numbers of columns and of unique keys are within the limits.
fn has_lawful_counts(stated: &StatedTable) -> bool
    ensures { result ≡ has_lawful_counts stated.now }
{
    !stated.columns.is_empty()
        && stated.columns.len() <= MAX_COLUMNS
        && stated.unique_keys.len() <= MAX_UNIQUE_KEYS
}

/// Whether the schema, the table and each column have a name by the rule.
fn has_lawful_names(stated: &StatedTable) -> bool
    ensures { result ≡ has_lawful_names stated.now }
{
    is_name(stated.schema_name.as_str())
        && is_name(stated.table_name.as_str())
        && have_names(stated.columns.as_slice())
}

fn have_names(columns: &[StatedColumn]) -> bool
    ensures { result ≡ list_all is_name (names_of columns.now) }
{
    columns.iter().all(|column| is_name(column.name.as_str()))
}

fn has_known_types(stated: &StatedTable) -> bool
    ensures { result ≡ has_known_types stated.now }
{
    stated
        .columns
        .as_slice()
        .iter()
        .all(|column| has_known_type(column))
}

fn has_known_type(column: &StatedColumn) -> bool
    ensures { result ≡ is_some (kind_named column.now.kind) }
{
    kind_named(column.kind.as_str()).is_some()
}

/// The kind that a type's name stands for. `None` where it is none of the four.
#[tactic(auto, unfolding(crate::specs::Reading::kind_named))]
pub fn kind_named(name: &str) -> Option<Kind>
    ensures { result ≡ kind_named name.now }
{
    match name {
        "text" => Some(Kind::Text),
        "bigint" => Some(Kind::Bigint),
        "boolean" => Some(Kind::Boolean),
        "bytea" => Some(Kind::Bytea),
        _ => None,
    }
}

/// Whether no column name stands twice, no column twice in one key, and no table of `earlier` has both
/// names of this one.
fn has_no_repeat(earlier: &[Table], stated: &StatedTable) -> bool
    ensures { result ≡ has_no_repeat earlier.now stated.now }
{
    have_distinct_names(stated.columns.as_slice())
        && has_distinct_keys(stated)
        && !has_table(
            earlier,
            stated.schema_name.as_str(),
            stated.table_name.as_str(),
        )
}

fn have_distinct_names(columns: &[StatedColumn]) -> bool
    ensures { result ≡ is_distinct bytes_eq (names_of columns.now) }
{
    for i in 0..columns.len() {
        if is_column(&columns[i + 1..], columns[i].name.as_str()) {
            return false;
        }
    }
    true
}

/// Whether a column has this name.
fn is_column(columns: &[StatedColumn], name: &str) -> bool
    ensures { result ≡ is_column columns.now name.now }
{
    columns.iter().any(|column| name == column.name.as_str())
}

fn has_distinct_keys(stated: &StatedTable) -> bool
    ensures { result ≡ list_all (is_distinct bytes_eq) (keys_of stated.now) }
{
    are_distinct(stated.primary_key.as_slice())
        && have_distinct_columns(stated.unique_keys.as_slice())
}

fn have_distinct_columns(keys: &[StatedKey]) -> bool
    ensures { result ≡ list_all (λ (k : StatedKey). is_distinct bytes_eq k.columns) keys.now }
{
    keys.iter().all(|key| are_distinct(key.columns.as_slice()))
}

fn are_distinct(names: &[Text]) -> bool
    ensures { result ≡ is_distinct bytes_eq names.now }
{
    for i in 0..names.len() {
        if has_name(&names[i + 1..], names[i].as_str()) {
            return false;
        }
    }
    true
}

fn has_name(names: &[Text], name: &str) -> bool
    ensures { result ≡ list_any (bytes_eq name.now) names.now }
{
    names.iter().any(|other| name == other.as_str())
}

fn has_table(tables: &[Table], schema_name: &str, table_name: &str) -> bool
    ensures { result ≡ list_any (is_named schema_name.now table_name.now) tables.now }
{
    tables
        .iter()
        .any(|table| table.is_named(schema_name, table_name))
}

/// Whether each key names columns of the table alone.
fn has_known_columns(stated: &StatedTable) -> bool
    ensures { result ≡ has_known_columns stated.now }
{
    let columns = stated.columns.as_slice();
    are_columns(columns, stated.primary_key.as_slice())
        && have_known_columns(columns, stated.unique_keys.as_slice())
}

fn have_known_columns(columns: &[StatedColumn], keys: &[StatedKey]) -> bool
    ensures { result ≡ list_all (λ (k : StatedKey). list_all (is_column columns.now) k.columns) keys.now }
{
    keys.iter()
        .all(|key| are_columns(columns, key.columns.as_slice()))
}

fn are_columns(columns: &[StatedColumn], names: &[Text]) -> bool
    ensures { result ≡ list_all (is_column columns.now) names.now }
{
    names.iter().all(|name| is_column(columns, name.as_str()))
}

/// Whether each key has a column.
fn has_whole_keys(stated: &StatedTable) -> bool
    ensures { result ≡ has_whole_keys stated.now }
{
    has_item(stated.primary_key.as_slice()) && have_columns(stated.unique_keys.as_slice())
}

fn have_columns(keys: &[StatedKey]) -> bool
    ensures { result ≡ list_all (λ (k : StatedKey). nat_le 1 (length k.columns)) keys.now }
{
    keys.iter().all(|key| has_item(key.columns.as_slice()))
}

fn has_item(names: &[Text]) -> bool
    ensures { result ≡ nat_le 1 (length names.now) }
{
    !names.is_empty()
}
