use crate::schemas::schema_of;
use crate::values::rows_of;
use std::alloc::Global;
use voy_case_text::{Case, Trouble};
use voy_schema::{Copies, Rows, Schema};
use voy_tables::RowLists;
use voy_txn::{Txn, payload_bytes};

/// How many bytes the payload has of a load of these rows as those of one table, and of a batch of them.
pub fn size(alloc: Global, case: &Case) -> Result<String, Trouble> {
    let schema = schema_of(alloc, case)?;
    let rows = rows_of(alloc, case.rows)?;
    let load = load_bytes(alloc, &schema, &rows)?;
    let batch = batch_bytes(alloc, &schema, rows)?;
    Ok(format!(in alloc; "load {load} bytes, batch {batch} bytes")?)
}

fn load_bytes(alloc: Global, schema: &Schema, rows: &Rows) -> Result<u64, Trouble> {
    let mut tables = RowLists::new(alloc);
    tables.push(rows.copy()?)?;
    let load = Txn::Load { tables };
    Ok(payload_bytes(alloc, schema, &load)?)
}

fn batch_bytes(alloc: Global, schema: &Schema, rows: Rows) -> Result<u64, Trouble> {
    let batch = Txn::Batch {
        table: 0,
        number: 1,
        rows,
    };
    Ok(payload_bytes(alloc, schema, &batch)?)
}
