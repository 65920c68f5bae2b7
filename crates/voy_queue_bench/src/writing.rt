ghost use Rattle.std.specs.Prelude.{◌≡◌, IfSome, IsTrue, OnOk};
ghost use Rattle.voy_meta.specs.Meta.{MetaStands};
ghost use Rattle.voy_meta.specs.Meta.{is_live as meta_live};
ghost use Rattle.voy_queue.specs.Writer.{committed_end, is_live, writer_role};

use std::alloc::Global;
use voy_case_text::Trouble;
use voy_disk::{Disk, FaultPlan, MemDisk, Numbers};
use voy_event::read_line;
use voy_meta::{Meta, MetaRecord};
use voy_queue::Writer;
use voy_schema::Schema;
use voy_tables::{Role, Spot};

/// At how many bytes of event lines a segment is closed.
const CLOSING_BYTES: u64 = 16_777_216;

/// The snapshot of the one table.
const SNAPSHOT: MetaRecord = MetaRecord::Snapshot {
    table: 0,
    of: 1,
    bytes: 0,
    rows: 0,
};

/// How many calls of its disk a writer makes that commits these events together.
pub fn calls_for(alloc: Global, schema: &Schema, lines: &str) -> Result<u64, Trouble> {
    let mut disk = MemDisk::new(
        alloc,
        FaultPlan {
            fail: Numbers::from_vec(Vec::new(alloc)),
            dead_from: 0,
            leaves: 0,
        },
    );
    let Some(mut meta) = begin(alloc, &mut disk) else {
        return Err(Trouble::Apart("no metadata"));
    };
    let Ok(mut writer) = Writer::open(alloc, &mut disk, &meta, Role::Source, CLOSING_BYTES) else {
        return Err(Trouble::Apart("no writer"));
    };
    put_all(alloc, schema, &mut writer, lines)?;
    let before = disk.calls();
    if !meta.state().has_snapshot() || !meta.state().writes(Role::Source) || writer.end().ended {
        return Err(Trouble::Apart("nothing may be committed"));
    }
    match writer.commit(&mut disk, &mut meta) {
        Ok(()) => Ok(disk.calls().saturating_sub(before)),
        Err(_) => Err(Trouble::Apart("no commit")),
    }
}

/// Metadata with the snapshot; none after an error.
fn begin<D: Disk>(alloc: Global, disk: &mut D) -> Option<Meta>
    ensures live { IfSome result (λ meta. IsTrue (meta_live meta)) }
    ensures stands { IfSome result (λ meta. MetaStands meta (D.files disk.new)) }
{
    let Ok(mut meta) = Meta::open(alloc, disk) else {
        return None;
    };
    if !meta.allowed(&SNAPSHOT) {
        return None;
    }
    let Ok(()) = meta.put(disk, SNAPSHOT) else {
        return None;
    };
    Some(meta)
}

/// Puts the events of these lines.
fn put_all(alloc: Global, schema: &Schema, writer: &mut Writer, lines: &str) -> Result<(), Trouble>
    requires { IsTrue (is_live writer.old) }
    ensures live { OnOk result (IsTrue (is_live writer.new)) }
    ensures end { committed_end writer.new ≡ committed_end writer.old }
    ensures role { writer_role writer.new ≡ writer_role writer.old }
{
    'lines: for line in lines.lines() {
        put_line(alloc, schema, writer, line)?;
    }
    Ok(())
}

/// Puts the event of a line, with a place that its vsn names.
fn put_line(alloc: Global, schema: &Schema, writer: &mut Writer, line: &str) -> Result<(), Trouble>
    requires { IsTrue (is_live writer.old) }
    ensures live { OnOk result (IsTrue (is_live writer.new)) }
    ensures end { committed_end writer.new ≡ committed_end writer.old }
    ensures role { writer_role writer.new ≡ writer_role writer.old }
{
    let Ok(event) = read_line(alloc, schema, line.as_bytes()) else {
        return Err(Trouble::Apart("a line that is no event"));
    };
    let spot = Spot {
        commit: event.vsn,
        seq: 0,
    };
    if !writer.takes(&event, Some(spot)) {
        return Err(Trouble::Apart("an event that is not taken"));
    }
    writer.put(schema, &event, Some(spot))?;
    Ok(())
}
