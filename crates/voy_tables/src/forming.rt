ghost use Rattle.std.specs.Prelude.{◌≡◌};
ghost use Rattle.voy_tables.specs.Changes.{is_well_formed};

use crate::change::Change;
use crate::keys::has_same_key;
use voy_schema::{Schema, is_lawful_row};

/// Whether the change belongs to the schema: its table is there, each row has one lawful value for each
/// column and no NULL in a key column, and an update keeps its key.
pub fn well_formed(schema: &Schema, change: &Change) -> bool
    ensures { result ≡ is_well_formed schema.now.tables change.now }
{
    match schema.table(change.table() as usize) {
        None => false,
        Some(table) => match change {
            Change::Insert { after, .. } => is_lawful_row(table, after),
            Change::Update { before, after, .. } => {
                is_lawful_row(table, before)
                    && is_lawful_row(table, after)
                    && has_same_key(table, before, after)
            }
            Change::Delete { before, .. } => is_lawful_row(table, before),
        },
    }
}
