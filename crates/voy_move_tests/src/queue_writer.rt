ghost use Rattle.std.specs.Prelude.{◌≡◌, IfOk, IfSome, IsTrue, OnOk};
ghost use Rattle.voy_meta.specs.Meta.{MetaStands, meta_state};
ghost use Rattle.voy_meta.specs.Meta.{is_live as meta_live};
ghost use Rattle.voy_queue.specs.Putting.{recorded_end};
ghost use Rattle.voy_queue.specs.Writer.{WriterStands, committed_end, is_live, writer_role};

use crate::metadata::SNAPSHOT;
use std::alloc::{AllocGlobal, Global};
use std::process::Abort;
use std::test::Fail;
use voy_disk::{Disk, MemDisk};
use voy_event::read_line;
use voy_meta::{MAX_SEGMENT, Meta};
use voy_queue::{Reader, Writer};
use voy_schema::Schema;
use voy_tables::{Role, Side, Spot};
use voy_test_disks::{failing_disk, stopping_disk};

const SCHEMA: &str =
    "{\"tables\":[{\"schema_name\":\"public\",\"table_name\":\"users\",\"columns\":[{\"name\":\"id\",\"type\":\"bigint\"}],\"primary_key\":[\"id\"],\"unique_keys\":[]}]}";

/// A segment is closed with its second change.
const CLOSING_BYTES: u64 = 200;

/// How many changes are put in front of the cutover.
const CHANGES: u64 = 5;

const EVENTS: u64 = CHANGES + 1;

/// How many calls of a disk the whole work takes.
const CALLS: u64 = 47;

/// How many outages are tried at each call, and how many ways in which a call that fails leaves its file.
const CHOICES: u64 = 50;

const LEAVES: u64 = 10;

/// How many events were acknowledged, and how many were put.
#[derive(Clone, Copy)]
struct Reached {
    committed: u64,
    put: u64,
}

/// The line of an event: of a change, or behind the changes of the cutover.
fn text_of(alloc: Global, vsn: u64) -> Result<String, Fail> {
    if vsn > CHANGES {
        return Ok(format!(in alloc;
            "{{\"exporter_role\":\"source_db_exporter\",\"op\":\"cutover.target\",\"vsn\":{vsn}}}"
        )?);
    }
    Ok(format!(in alloc;
        "{{\"before_fields\":null,\"exporter_role\":\"source_db_exporter\",\"fields\":{{\"id\":\"{vsn}\"}},\"key\":{{\"id\":\"{vsn}\"}},\"op\":\"c\",\"schema_name\":\"public\",\"table_name\":\"users\",\"vsn\":{vsn}}}"
    )?)
}

/// Puts the event of this vsn.
fn put_event(alloc: Global, schema: &Schema, writer: &mut Writer, vsn: u64) -> Result<(), Fail>
    requires { IsTrue (is_live writer.old) }
    ensures live { OnOk result (IsTrue (is_live writer.new)) }
    ensures end { committed_end writer.new ≡ committed_end writer.old }
    ensures role { writer_role writer.new ≡ writer_role writer.old }
{
    let text = text_of(alloc, vsn)?;
    let event = read_line(alloc, schema, text.as_bytes())?;
    let spot = if vsn > CHANGES {
        None
    } else {
        Some(Spot {
            commit: vsn,
            seq: 0,
        })
    };
    if !writer.takes(&event, spot) {
        return Err("an event that is not taken".into());
    }
    writer.put(schema, &event, spot)?;
    Ok(())
}

/// Commits what was put; false after an error.
fn commit<D: Disk>(writer: &mut Writer, disk: &mut D, meta: &mut Meta) -> Result<bool, Fail>
    requires live { IsTrue (is_live writer.old) }
    requires role { writer_role writer.old ≡ Role.Source }
    requires writer { WriterStands writer.old (D.files disk.old) }
    requires meta { IsTrue (meta_live meta.old) }
    requires stands { MetaStands meta.old (D.files disk.old) }
    requires recorded { committed_end writer.old ≡ recorded_end (meta_state meta.old) (writer_role writer.old) }
    ensures role { writer_role writer.new ≡ Role.Source }
    ensures live { IfOk result (λ done. IsTrue done → IsTrue (is_live writer.new)) }
    ensures writer { IfOk result (λ done. IsTrue done → WriterStands writer.new (D.files disk.new)) }
    ensures meta { IfOk result (λ done. IsTrue done → IsTrue (meta_live meta.new)) }
    ensures stands { IfOk result (λ done. IsTrue done → MetaStands meta.new (D.files disk.new)) }
    ensures recorded { IfOk result (λ done. IsTrue done → committed_end writer.new ≡ recorded_end (meta_state meta.new) (writer_role writer.new)) }
{
    if !meta.state().has_snapshot() || !meta.state().writes(Role::Source) {
        return Err("a state in which nothing may be committed".into());
    }
    if meta.state().request(Side::Target).is_none() {
        return Err("a cutover that was not asked for".into());
    }
    match writer.commit(disk, meta) {
        Ok(()) => Ok(true),
        Err(_) => Ok(false),
    }
}

/// Puts three events, from this vsn on.
fn put_three(alloc: Global, schema: &Schema, writer: &mut Writer, first: u64) -> Result<(), Fail>
    requires { IsTrue (is_live writer.old) }
    ensures live { OnOk result (IsTrue (is_live writer.new)) }
    ensures end { committed_end writer.new ≡ committed_end writer.old }
    ensures role { writer_role writer.new ≡ writer_role writer.old }
{
    put_event(alloc, schema, writer, first)?;
    put_event(alloc, schema, writer, first.saturating_add(1))?;
    put_event(alloc, schema, writer, first.saturating_add(2))
}

/// Metadata with the snapshot and the request; none after an error.
fn begin<D: Disk>(alloc: Global, disk: &mut D) -> Option<Meta>
    ensures live { IfSome result (λ meta. IsTrue (meta_live meta)) }
    ensures stands { IfSome result (λ meta. MetaStands meta (D.files disk.new)) }
{
    let Ok(mut meta) = Meta::open(alloc, disk) else {
        return None;
    };
    if !meta.allowed(&SNAPSHOT) {
        return None;
    }
    let Ok(()) = meta.put(disk, SNAPSHOT) else {
        return None;
    };
    let Ok(()) = meta.request_cutover(disk, Side::Target, true) else {
        return None;
    };
    Some(meta)
}

/// Opens a writer, and puts all events in two commits, up to the first error.
fn work<D: Disk>(alloc: Global, disk: &mut D, reached: &mut Reached) -> Result<(), Fail> {
    let schema = Schema::read(alloc, SCHEMA.as_bytes())?;
    let Some(mut meta) = begin(alloc, disk) else {
        return Ok(());
    };
    let Ok(mut writer) = Writer::open(alloc, disk, &meta, Role::Source, CLOSING_BYTES) else {
        return Ok(());
    };
    put_three(alloc, &schema, &mut writer, 1)?;
    reached.put = 3;
    if !commit(&mut writer, disk, &mut meta)? {
        return Ok(());
    }
    reached.committed = 3;
    put_three(alloc, &schema, &mut writer, 4)?;
    reached.put = 6;
    if commit(&mut writer, disk, &mut meta)? {
        reached.committed = 6;
    }
    Ok(())
}

/// How many events the queue has, each with the next vsn.
fn events_on<D: Disk>(alloc: Global, disk: &mut D) -> Result<u64, Fail> {
    let schema = Schema::read(alloc, SCHEMA.as_bytes())?;
    let meta = Meta::open(alloc, disk)?;
    if meta.state().segments.len() > MAX_SEGMENT as usize {
        return Err("too many segments".into());
    }
    let mut reader = Reader::open(alloc, meta.state(), 0)?;
    for count in 0..=EVENTS {
        let Some(event) = reader.next(disk, &schema)? else {
            return Ok(count);
        };
        if event.vsn != count.saturating_add(1) {
            return Err("an event out of turn".into());
        }
    }
    Err("more events than were put".into())
}

/// Opens the metadata and a writer again.
fn open_again<D: Disk>(alloc: Global, disk: &mut D) -> Result<(), Fail> {
    let meta = Meta::open(alloc, disk)?;
    Writer::open(alloc, disk, &meta, Role::Source, CLOSING_BYTES)?;
    Ok(())
}

/// Whether so many events stand behind a record: none, or those up to the end of a segment or of a commit.
fn stands_recorded(count: u64) -> bool {
    matches!(count, 0 | 2 | 3 | 4 | 6)
}

/// Whether so many events are those that were acknowledged, with some first segments of what was put.
fn is_so(count: u64, reached: Reached) -> bool {
    reached.committed <= count && count <= reached.put && stands_recorded(count)
}

/// The work, which this call stops, an outage, and what reads back then; and the same once a writer was opened again.
fn try_stop(rt: &(impl Abort + AllocGlobal), call: u64, choice: u64) -> Result<(), Fail> {
    let alloc = rt.alloc();
    let mut reached = Reached {
        committed: 0,
        put: 0,
    };
    let mut disk = stopping_disk(alloc, call, choice);
    work(alloc, &mut disk, &mut reached)?;
    disk.crash(choice)?;
    let count = events_on(alloc, &mut disk)?;
    assert!(rt;
        is_so(count, reached),
        "stopped at call {call}, outage {choice}"
    );
    open_again(alloc, &mut disk)?;
    let again = events_on(alloc, &mut disk)?;
    assert_eq!(rt; again, count);
    Ok(())
}

/// The work, of which this call alone fails, and what reads back then on the same disk.
fn try_fault(rt: &(impl Abort + AllocGlobal), call: u64, leaves: u64) -> Result<(), Fail> {
    let alloc = rt.alloc();
    let mut reached = Reached {
        committed: 0,
        put: 0,
    };
    let mut disk = failing_disk(alloc, call, leaves)?;
    work(alloc, &mut disk, &mut reached)?;
    let count = events_on(alloc, &mut disk)?;
    assert!(rt;
        is_so(count, reached),
        "call {call} failed, and left {leaves}"
    );
    Ok(())
}

#[test]
fn with_no_stop_all_events_read_back(rt: HostRuntime) -> Result<(), Fail> {
    let alloc = rt.alloc();
    let mut reached = Reached {
        committed: 0,
        put: 0,
    };
    let mut disk = stopping_disk(alloc, 0, 0);
    work(alloc, &mut disk, &mut reached)?;
    let calls = disk.calls();
    let count = events_on(alloc, &mut disk)?;
    assert_eq!(rt; calls, CALLS);
    assert_eq!(rt; count, EVENTS);
    Ok(())
}

#[test]
fn a_stop_leaves_some_first_segments_of_what_was_put(rt: HostRuntime) -> Result<(), Fail> {
    for call in 1..=CALLS {
        for choice in 0..CHOICES {
            try_stop(&rt, call, choice)?;
        }
    }
    Ok(())
}

#[test]
fn a_fault_leaves_some_first_segments_of_what_was_put(rt: HostRuntime) -> Result<(), Fail> {
    for call in 1..=CALLS {
        for leaves in 0..LEAVES {
            try_fault(&rt, call, leaves)?;
        }
    }
    Ok(())
}
