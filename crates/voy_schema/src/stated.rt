ghost use Rattle.std.specs.Prelude.{◌≡◌, IfOk};
ghost use Rattle.serde_json.specs.View.{view};
ghost use Rattle.voy_schema.specs.Stated.{stated_column, stated_key, stated_table};

use crate::items::Items;
use crate::json::{FromJson, copied_text_at, flag_at, has_shape, is_exact, list_at};
use crate::text::Text;
use serde_json::Value;
use std::alloc::{AllocError, Global};

/// A table as an element of the document's list states it: texts, held against no rule but their shape.
#[derive(Debug, Drop)]
pub struct StatedTable {
    pub schema_name: Text,
    pub table_name: Text,
    pub columns: Items<StatedColumn>,
    pub primary_key: Items<Text>,
    pub unique_keys: Items<StatedKey>,
}

#[derive(Debug, Drop)]
pub struct StatedColumn {
    pub name: Text,
    pub kind: Text,
}

#[derive(Debug, Drop)]
pub struct StatedKey {
    pub columns: Items<Text>,
    pub nulls_not_distinct: bool,
}

const TABLE_NAMES: [&str; 5] = [
    "schema_name",
    "table_name",
    "columns",
    "primary_key",
    "unique_keys",
];

const COLUMN_NAMES: [&str; 2] = ["name", "type"];

const KEY_NAMES: [&str; 1] = ["columns"];

const NAMES_A_KEY_MAY_HAVE: [&str; 2] = ["columns", "nulls_not_distinct"];

impl FromJson for StatedTable {
    ghost stated = { stated_table };

    #[tactic(auto, unfolding(crate::specs::Stated::table_names))]
    fn from_json(alloc: Global, value: &Value) -> Result<Option<Self>, AllocError> {
        if !is_exact(value, &TABLE_NAMES) {
            return Ok(None);
        }
        let Some(schema_name) = copied_text_at(alloc, value, "schema_name")? else {
            return Ok(None);
        };
        let Some(table_name) = copied_text_at(alloc, value, "table_name")? else {
            return Ok(None);
        };
        let Some(columns) = list_at(alloc, value, "columns")? else {
            return Ok(None);
        };
        let Some(primary_key) = list_at(alloc, value, "primary_key")? else {
            return Ok(None);
        };
        let Some(unique_keys) = list_at(alloc, value, "unique_keys")? else {
            return Ok(None);
        };
        Ok(Some(StatedTable {
            schema_name,
            table_name,
            columns,
            primary_key,
            unique_keys,
        }))
    }
}

impl FromJson for StatedColumn {
    ghost stated = { stated_column };

    #[tactic(auto, unfolding(crate::specs::Stated::column_names))]
    fn from_json(alloc: Global, value: &Value) -> Result<Option<Self>, AllocError> {
        if !is_exact(value, &COLUMN_NAMES) {
            return Ok(None);
        }
        let Some(name) = copied_text_at(alloc, value, "name")? else {
            return Ok(None);
        };
        let Some(kind) = copied_text_at(alloc, value, "type")? else {
            return Ok(None);
        };
        Ok(Some(StatedColumn { name, kind }))
    }
}

impl FromJson for StatedKey {
    ghost stated = { stated_key };

    #[tactic(auto, unfolding(crate::specs::Stated::key_names, crate::specs::Stated::names_a_key_may_have))]
    fn from_json(alloc: Global, value: &Value) -> Result<Option<Self>, AllocError> {
        if !has_shape(value, &KEY_NAMES, &NAMES_A_KEY_MAY_HAVE) {
            return Ok(None);
        }
        let Some(columns) = list_at(alloc, value, "columns")? else {
            return Ok(None);
        };
        let Some(nulls_not_distinct) = flag_at(value, "nulls_not_distinct") else {
            return Ok(None);
        };
        Ok(Some(StatedKey {
            columns,
            nulls_not_distinct,
        }))
    }
}
