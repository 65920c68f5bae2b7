use crate::disk_calls::answered;
use std::alloc::Global;
use std::test::Fail;
use voy_disk::{Disk, DiskError, FaultPlan, Name, Place, SureDisk};
use voy_test_disks::{name_of, stopping_disk};

fn sure_disk(alloc: Global) -> Result<SureDisk, Fail> {
    let mut disk = SureDisk::new(alloc);
    disk.put_file(&name_of(alloc, "changes.ndjson")?, b"old")?;
    disk.put_file(&name_of(alloc, "changes.ndjson")?, b"0123456789")?;
    disk.put_file(&name_of(alloc, "empty")?, b"")?;
    Ok(disk)
}

const READS: &str = "\
read changes.ndjson 0 = '0123'
read changes.ndjson 7 = '789'
read changes.ndjson 10 = ''
read changes.ndjson 18446744073709551615 = ''
read empty 0 = ''
read absent 0 = ''
peek changes.ndjson 3 = 0
len changes.ndjson = 10
";

#[test]
fn a_read_gives_the_bytes_from_its_place(rt: HostRuntime) -> Result<(), Fail> {
    let mut disk = sure_disk(rt.alloc())?;
    let found = answered(rt.alloc(), &mut disk, READS)?;
    assert_eq!(rt; found.as_str(), READS);
    let name = name_of(rt.alloc(), "changes.ndjson")?;
    assert_eq!(rt; disk.file(&name), Some(b"0123456789".as_slice()));
    Ok(())
}

/// Writes, cuts, renames and makes files, each call once.
const WRITES: &str = "\
create table.batch.tmp = ok
create table.batch.tmp = ok
write table.batch.tmp 0 0123456789 = ok
write table.batch.tmp 8 ABCD = ok
write table.batch.tmp 2 xy = ok
cut table.batch.tmp 11 = ok
sync table.batch.tmp = ok
rename table.batch.tmp table.batch.1 = ok
create table.batch.tmp = ok
len table.batch.tmp = 0
";

#[test]
fn what_was_written_to_a_sure_disk_reads_back(rt: HostRuntime) -> Result<(), Fail> {
    let mut disk = SureDisk::new(rt.alloc());
    let found = answered(rt.alloc(), &mut disk, WRITES)?;
    assert_eq!(rt; found.as_str(), WRITES);
    let name = name_of(rt.alloc(), "table.batch.1")?;
    assert_eq!(rt; disk.file(&name), Some(b"01xy4567ABC".as_slice()));
    Ok(())
}

const LISTS: &str = "\
create segment.10.ndjson = ok
create meta.journal = ok
create segment.2.ndjson = ok
create Z = ok
create _ = ok
list = [Z;_;meta.journal;segment.10.ndjson;segment.2.ndjson;]
";

#[test]
fn a_sure_disk_lists_names_in_byte_order(rt: HostRuntime) -> Result<(), Fail> {
    let mut disk = SureDisk::new(rt.alloc());
    let found = answered(rt.alloc(), &mut disk, LISTS)?;
    assert_eq!(rt; found.as_str(), LISTS);
    Ok(())
}

/// What `len` answers twice, by a disk that is lent.
fn two_lengths<D: Disk + Drop>(mut disk: D, name: &Name) -> [Result<Option<u64>, DiskError>; 2] {
    [disk.len(name), disk.len(name)]
}

#[test]
fn the_calls_of_a_disk_that_is_lent_are_its_own(rt: HostRuntime) -> Result<(), Fail> {
    let mut disk = stopping_disk(rt.alloc(), 2, 0);
    let name = name_of(rt.alloc(), "meta.journal")?;
    disk.put_file(&name, b"0123")?;
    let found = two_lengths(&mut disk, &name);
    assert_eq!(rt; found, [Ok(Some(4)), Err(DiskError::Failed)]);
    assert_eq!(rt; disk.calls(), 2);
    Ok(())
}

#[test]
fn a_place_has_four_disks(rt: HostRuntime) -> Result<(), Fail> {
    let mut place = Place {
        recording: sure_disk(rt.alloc())?,
        export: SureDisk::new(rt.alloc()),
        target: SureDisk::new(rt.alloc()),
        source: SureDisk::new(rt.alloc()),
    };
    let name = name_of(rt.alloc(), "changes.ndjson")?;
    let found = [
        two_lengths(&mut place.recording, &name),
        two_lengths(&mut place.export, &name),
        two_lengths(&mut place.target, &name),
        two_lengths(&mut place.source, &name),
    ];
    let none = [Ok(None), Ok(None)];
    assert_eq!(rt; found, [[Ok(Some(10)), Ok(Some(10))], none, none, none]);
    Ok(())
}

#[test]
fn a_plan_of_no_faults_fails_no_call(rt: HostRuntime) {
    let none = FaultPlan::none(rt.alloc());
    assert_eq!(rt; none.fails_at(1), false);
    assert_eq!(rt; none.fail.into_vec().len(), 0);
}
