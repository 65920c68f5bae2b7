ghost use Rattle.std.specs.Prelude.{◌≡◌, ◌≢◌, ◌≤◌, [], length, IfOk, IsTrue, OnOk};
ghost use Rattle.voy_disk.specs.Files.{IfTold};
ghost use Rattle.voy_disk.specs.Images.{now_image};
ghost use Rattle.voy_feed.specs.Feed.{FeedStands, changes_left};
ghost use Rattle.voy_feed.specs.Kept.{change_file, changes_of};
ghost use Rattle.voy_meta.specs.Meta.{MetaStands, is_live, meta_state};

use crate::trouble::Trouble;
use std::alloc::Global;
use voy_disk::Disk;
use voy_export::{ExportError, Exported, Which, Why, export_changes, export_snapshot};
use voy_feed::{Feed, FeedError, Keep, change_file};
use voy_meta::{Meta, MetaState, OPEN_SEGMENT_BYTES, led_to};
use voy_queue::Writer;
use voy_schema::Schema;
use voy_tables::Role;

/// What is to be exported.
#[derive(Clone, Copy, Debug)]
pub struct Order {
    /// Whose changes.
    pub role: Role,
    /// How many changes at most; none for all.
    pub max: Option<u64>,
    /// At how many bytes of event lines a segment is closed.
    pub segment_bytes: u64,
}

/// Exports what is ordered. The cutover comes behind the last change where its request stands already, and where that event is committed
/// nothing is opened but the metadata.
pub fn export<D: Disk>(
    alloc: Global,
    schema: &Schema,
    recording: &mut D,
    export: &mut D,
    order: Order,
) -> Result<Exported, Trouble>
    requires { order.segment_bytes ≤ OPEN_SEGMENT_BYTES }
{
    let mut meta = Meta::open(alloc, export)?;
    if meta.state().ended(order.role) {
        return Ok(Exported {
            changes: 0,
            last_vsn: meta.state().last_vsn(),
        });
    }
    if !is_of(meta.state(), schema) {
        return Err(Trouble::Metadata { offset: 0 });
    }
    export_rows(alloc, schema, recording, export, &mut meta, order.role)?;
    export_behind(alloc, schema, recording, export, &mut meta, order)
}

/// Whether the recorded snapshots, if there are any, are those of so many tables.
fn is_of(state: &MetaState, schema: &Schema) -> bool
    ensures { IsTrue result → state.now.snapshots ≢ [] → state.now.tables ≡ length schema.now.tables }
{
    state.snapshots.is_empty() || state.tables as usize == schema.tables.len()
}

/// Exports the snapshot, where the source is exported.
fn export_rows<D: Disk>(
    alloc: Global,
    schema: &Schema,
    recording: &mut D,
    export: &mut D,
    meta: &mut Meta,
    role: Role,
) -> Result<(), Trouble>
    requires live { IsTrue (is_live meta.old) }
    requires stands { MetaStands meta.old (D.files export.old) }
    requires tables { (meta_state meta.old).snapshots ≢ [] → (meta_state meta.old).tables ≡ length schema.now.tables }
    ensures live { OnOk result (IsTrue (is_live meta.new)) }
    ensures stands { OnOk result (MetaStands meta.new (D.files export.new)) }
{
    if role == Role::Target {
        return Ok(());
    }
    export_snapshot(alloc, schema, recording, export, meta)?;
    Ok(())
}

/// Exports the changes behind the snapshot.
fn export_behind<D: Disk>(
    alloc: Global,
    schema: &Schema,
    recording: &mut D,
    export: &mut D,
    meta: &mut Meta,
    order: Order,
) -> Result<Exported, Trouble>
    requires few { order.segment_bytes ≤ OPEN_SEGMENT_BYTES }
    requires live { IsTrue (is_live meta.old) }
    requires stands { MetaStands meta.old (D.files export.old) }
{
    let (role, max) = (order.role, order.max);
    if !meta.state().has_snapshot() || !meta.state().writes(role) {
        return Err(Trouble::Stage);
    }
    let end = meta.state().request(led_to(role)).is_some();
    let mut feed = open_feed(alloc, recording, role)?;
    let mut keep = Keep::new(meta.state().last(role));
    let mut writer = Writer::open(alloc, export, meta, role, order.segment_bytes)?;
    let exported = export_changes(
        alloc,
        schema,
        &mut feed,
        &mut keep,
        recording,
        &mut writer,
        export,
        meta,
        max,
        end,
    )?;
    Ok(exported)
}

/// Opens the recorded changes of an exporter.
fn open_feed<D: Disk>(alloc: Global, recording: &mut D, role: Role) -> Result<Feed, Trouble>
    ensures stands { IfOk result (λ feed. FeedStands feed (D.files recording.new)) }
    ensures start { IfOk result (λ feed. (tables : _) → IfTold (D.files recording.new) (λ fs.
        changes_left tables feed fs ≡ changes_of tables (now_image fs (change_file role)))) }
{
    let file = change_file(alloc, role)?;
    let named = file.copy()?;
    match Feed::open(alloc, recording, file) {
        Ok(feed) => Ok(feed),
        Err(FeedError::TooLarge) => Err(Trouble::Export(ExportError::Limit {
            file: named,
            line: 0,
        })),
        Err(FeedError::Fault) => Err(Trouble::Export(ExportError::Fault(Which::Recording))),
        Err(FeedError::NoMemory) => Err(Trouble::Export(ExportError::NoMemory)),
        Err(_) => Err(Trouble::Export(ExportError::Refused {
            file: named,
            line: 0,
            why: Why::Missing,
        })),
    }
}
