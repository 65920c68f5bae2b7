ghost use Rattle.std.specs.Prelude.{◌≡◌, ◌<◌, true, false, length, slice_get, IfErr, IfOk, IfSome};
ghost use Rattle.std.specs.Option.{option_copied};
ghost use Rattle.voy_schema.specs.Lawful.{is_lawful, is_lawful_table, place_of};
ghost use Rattle.voy_schema.specs.Reading.{cause_of, schema_reading};
ghost use Rattle.voy_schema.specs.Refusal.{Refuses};

use crate::copying::Copies;
use crate::reading::read_schema;
use crate::table::{Table, Tables};
use crate::why::SchemaError;
use std::alloc::{AllocError, Global};

/// The tables of a move, in the order of `schema.json`. A table is named by its place there, from 0.
///
/// What `lawful` says holds of every schema: limits, names, and keys that name columns.
#[derive(Debug, Drop)]
pub struct Schema {
    pub tables: Tables,
    pub ghost lawful: { is_lawful tables ≡ true },
}

impl Schema {
    /// The schema that the bytes of `schema.json` state.
    ///
    /// `SchemaError::Bad` comes exactly where a rule is broken. The document itself is tried first, then
    /// its tables in their order, and within a table the rules in the order of [`SchemaWhy`].
    pub fn read(alloc: Global, bytes: &[u8]) -> Result<Schema, SchemaError>
        ensures ok { IfOk result (λ s. schema_reading bytes.now ≡ Ok s.tables) }
        ensures err { IfErr result (Refuses cause_of (schema_reading bytes.now)) }
    {
        let tables = read_schema(alloc, bytes)?;
        Ok(Schema { tables })
    }

    /// The place of the table with these names, from 0. `None` where there is none.
    pub fn find(&self, schema_name: &str, table_name: &str) -> Option<u32>
        ensures value { result ≡ place_of schema_name.now table_name.now self.now.tables }
        ensures within { IfSome result (λ place. place < length self.now.tables) }
    {
        for (place, table) in self.tables.as_slice().iter().enumerate() {
            if table.is_named(schema_name, table_name) {
                return Some(place as u32);
            }
        }
        None
    }

    /// The table at this place. `None` where there are no more than `at` tables.
    pub fn table(&self, at: usize) -> Option<&Table>
        ensures value { option_copied result ≡ slice_get self.now.tables at }
        ensures lawful { IfSome result (λ t. is_lawful_table t.now ≡ true) }
    {
        self.tables.get(at)
    }
}

impl Copies for Schema {
    fn copy(&self) -> Result<Self, AllocError> {
        let tables = self.tables.copy()?;
        Ok(Schema { tables })
    }
}
