use std::alloc::Global;
use voy_case_text::{Trouble, name_of};
use voy_disk::SureDisk;
use voy_export_drive::{Order, export};
use voy_meta::Meta;
use voy_schema::Schema;
use voy_tables::Role;

/// At how many bytes of event lines a segment is closed.
const CLOSING_BYTES: u64 = 16_777_216;

/// How many rows and changes are exported of a recording: the CSV file of the one table, an empty line, and the recorded changes.
pub fn exported_of(alloc: Global, schema: &Schema, recorded: &str) -> Result<u64, Trouble> {
    let Some((rows, changes)) = recorded.split_once("\n\n") else {
        return Err(Trouble::Case("no empty line behind the rows"));
    };
    let (mut recording, mut disk) = (SureDisk::new(alloc), SureDisk::new(alloc));
    recording.put_file(&name_of(alloc, "public.users.csv")?, rows.as_bytes())?;
    recording.put_file(&name_of(alloc, "changes.ndjson")?, changes.as_bytes())?;
    let order = Order {
        role: Role::Source,
        max: None,
        segment_bytes: CLOSING_BYTES,
    };
    let Ok(exported) = export(alloc, schema, &mut recording, &mut disk, order) else {
        return Err(Trouble::Apart("a recording that is not exported"));
    };
    Ok(exported.changes.saturating_add(rows_on(alloc, &mut disk)?))
}

/// How many rows the recorded snapshots have.
fn rows_on(alloc: Global, disk: &mut SureDisk) -> Result<u64, Trouble> {
    let Ok(meta) = Meta::open(alloc, disk) else {
        return Err(Trouble::Apart("no metadata"));
    };
    let mut rows: u64 = 0;
    for snapshot in meta.state().snapshots.as_slice() {
        rows = rows.saturating_add(snapshot.rows);
    }
    Ok(rows)
}
