use crate::exports::{SCHEMA, SEGMENT_BYTES};
use std::alloc::Global;
use std::test::Fail;
use voy_disk::SureDisk;
use voy_export::{ExportError, MAX_CSV_BYTES};
use voy_export_drive::{Order, Trouble, export};
use voy_feed::MAX_CHANGE_FILE_BYTES;
use voy_meta::Meta;
use voy_schema::Schema;
use voy_tables::Role;
use voy_test_disks::{disk_with, name_of};

const HEADER: &[u8] = b"id\n";

/// Puts a file of so many bytes.
fn put_long(alloc: Global, disk: &mut SureDisk, name: &str, count: u64) -> Result<(), Fail> {
    let bytes = vec![in alloc; b'a'; count as usize]?;
    disk.put_file(&name_of(alloc, name)?, bytes.as_slice())?;
    Ok(())
}

/// Exports the source's recording, and answers the file that as a whole passes its limit, and how many tables are recorded then.
fn past_limit(
    alloc: Global,
    recording: &mut SureDisk,
    disk: &mut SureDisk,
) -> Result<String, Fail> {
    let schema = Schema::read(alloc, SCHEMA.as_bytes())?;
    let order = Order {
        role: Role::Source,
        max: None,
        segment_bytes: SEGMENT_BYTES,
    };
    let Err(Trouble::Export(ExportError::Limit { file, line: 0 })) = export(
        alloc, &schema, recording, disk, order,
    ) else {
        return Err("no limit of a whole file".into());
    };
    let meta = Meta::open(alloc, disk)?;
    let (name, tables) = (file.as_str(), meta.state().snapshots.len());
    Ok(format!(in alloc; "{name} {tables}")?)
}

#[test]
fn a_change_file_that_is_too_long_is_not_read(rt: HostRuntime) -> Result<(), Fail> {
    let alloc = rt.alloc();
    let (mut recording, mut disk) = (
        disk_with(alloc, "public.users.csv", HEADER)?,
        SureDisk::new(alloc),
    );
    recording.put_file(&name_of(alloc, "public.notes.csv")?, HEADER)?;
    put_long(
        alloc,
        &mut recording,
        "changes.ndjson",
        MAX_CHANGE_FILE_BYTES + 1,
    )?;
    let past = past_limit(alloc, &mut recording, &mut disk)?;
    assert_eq!(rt; past.as_str(), "changes.ndjson 2");
    Ok(())
}

#[test]
fn tables_that_are_too_long_together_are_counted_in_order(rt: HostRuntime) -> Result<(), Fail> {
    let alloc = rt.alloc();
    let (mut recording, mut disk) = (
        disk_with(alloc, "public.users.csv", HEADER)?,
        SureDisk::new(alloc),
    );
    put_long(alloc, &mut recording, "public.notes.csv", MAX_CSV_BYTES - 2)?;
    let past = past_limit(alloc, &mut recording, &mut disk)?;
    // the first table is recorded, and is counted again
    let again = past_limit(alloc, &mut recording, &mut disk)?;
    assert_eq!(rt; past.as_str(), "public.notes.csv 1");
    assert_eq!(rt; again.as_str(), "public.notes.csv 1");
    Ok(())
}
