ghost use Rattle.std.specs.Prelude.{IsTrue, OnOk};
ghost use Rattle.voy_meta.specs.Meta.{MetaStands, is_live};

use std::alloc::Global;
use std::test::Fail;
use voy_disk::{Disk, SureDisk};
use voy_meta::{Meta, MetaRecord, Stage};
use voy_tables::{Role, Side};

/// How many segments are put.
const SEGMENTS: u32 = 1_000;

/// The snapshot of the only table.
pub(crate) const SNAPSHOT: MetaRecord = MetaRecord::Snapshot {
    table: 0,
    of: 1,
    bytes: 0,
    rows: 0,
};

/// Puts a record that is allowed.
fn put_allowed<D: Disk>(meta: &mut Meta, disk: &mut D, entry: MetaRecord) -> Result<(), Fail>
    requires live { IsTrue (is_live meta.old) }
    requires stands { MetaStands meta.old (D.files disk.old) }
    ensures live { OnOk result (IsTrue (is_live meta.new)) }
    ensures stands { OnOk result (MetaStands meta.new (D.files disk.new)) }
{
    if !meta.allowed(&entry) {
        return Err("a record that is not allowed".into());
    }
    meta.put(disk, entry)?;
    Ok(())
}

/// Puts so many closed segments of the source's exporter, with an event each.
fn put_segments<D: Disk>(meta: &mut Meta, disk: &mut D, count: u32) -> Result<(), Fail>
    requires live { IsTrue (is_live meta.old) }
    requires stands { MetaStands meta.old (D.files disk.old) }
{
    'segments: for segment in 0..count {
        let entry = MetaRecord::Queue {
            segment,
            bytes: 100,
            last_vsn: segment as u64 + 1,
            role: Role::Source,
            spot: None,
            closed: true,
            ended: false,
        };
        put_allowed(meta, disk, entry)?;
    }
    Ok(())
}

/// A disk with the snapshot and many segments.
fn many_segments(alloc: Global) -> Result<SureDisk, Fail> {
    let mut disk = SureDisk::new(alloc);
    let mut meta = Meta::open(alloc, &mut disk)?;
    put_allowed(&mut meta, &mut disk, SNAPSHOT)?;
    put_segments(&mut meta, &mut disk, SEGMENTS)?;
    Ok(disk)
}

#[test]
fn a_thousand_segments_open(rt: HostRuntime) -> Result<(), Fail> {
    let alloc = rt.alloc();
    let mut disk = many_segments(alloc)?;
    let meta = Meta::open(alloc, &mut disk)?;
    let count = meta.state().segments.len();
    assert_eq!(rt; count, SEGMENTS as usize);
    Ok(())
}

#[test]
fn metadata_go_on_behind_each_call(rt: HostRuntime) -> Result<(), Fail> {
    let alloc = rt.alloc();
    let mut disk = SureDisk::new(alloc);
    let mut meta = Meta::open(alloc, &mut disk)?;
    put_allowed(&mut meta, &mut disk, SNAPSHOT)?;
    meta.request_cutover(&mut disk, Side::Target, true)?;
    let (is_live, stage) = (meta.live(), meta.stage());
    let asked = meta.state().request_target;
    assert!(rt; is_live);
    assert_eq!(rt; stage, Stage::Changes);
    assert_eq!(rt; asked, Some(true));
    Ok(())
}
