ghost use Rattle.std.specs.Prelude.{◌≡◌, IfOk, IsTrue};
ghost use Rattle.voy_export.specs.Names.{csv_file, snapshot_file};
ghost use Rattle.voy_schema.specs.Lawful.{is_lawful_table};

use std::alloc::{AllocError, Global};
use voy_disk::Name;
use voy_schema::Table;

/// The recorded file with the rows of a table.
#[tactic(auto, unfolding(crate::specs::Names::csv_file))]
pub fn csv_file(alloc: Global, table: &Table) -> Result<Name, AllocError>
    requires { IsTrue (is_lawful_table table.now) }
    ensures { IfOk result (λ name. name ≡ csv_file table.now) }
{
    let (schema, name) = (table.schema_name.as_str(), table.table_name.as_str());
    let text = format!(in alloc; "{schema}.{name}.csv")?;
    match Name::new(alloc, text.as_str())? {
        Some(name) => Ok(name),
        None => unreachable!(),
    }
}

/// The exported file with the snapshot of a table.
#[tactic(auto, unfolding(crate::specs::Names::snapshot_file, crate::specs::Names::csv_file))]
pub fn snapshot_file(alloc: Global, table: &Table) -> Result<Name, AllocError>
    requires { IsTrue (is_lawful_table table.now) }
    ensures { IfOk result (λ name. name ≡ snapshot_file table.now) }
{
    let (schema, name) = (table.schema_name.as_str(), table.table_name.as_str());
    let text = format!(in alloc; "snapshot.{schema}.{name}.csv")?;
    match Name::new(alloc, text.as_str())? {
        Some(name) => Ok(name),
        None => unreachable!(),
    }
}
