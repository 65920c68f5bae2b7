ghost use Rattle.std.specs.Prelude.{◌≡◌, IfOk};
ghost use Rattle.voy_meta.specs.Records.{payload_of};

use crate::fields::{push_long, push_number, push_place, push_role, push_side, push_truth};
use crate::limits::{
    CHANNELS_KIND, DONE_KIND, FINISHED_KIND, LOADED_KIND, QUEUE_KIND, REQUEST_KIND, SNAPSHOT_KIND,
    VERSION_KIND,
};
use crate::record::MetaRecord;
use std::alloc::{AllocError, Global};
use voy_schema::Bytes;

/// The payload of a record.
#[tactic(auto, unfolding(crate::specs::Records::payload_of))]
pub fn payload_of(alloc: Global, entry: &MetaRecord) -> Result<Bytes, AllocError>
    ensures { IfOk result (λ payload. payload ≡ payload_of entry.now) }
{
    let mut payload = Bytes::new(alloc);
    match entry {
        MetaRecord::Version { version } => {
            payload.append_slice(&[VERSION_KIND, *version])?;
        }
        MetaRecord::Snapshot {
            table,
            of,
            bytes,
            rows,
        } => {
            payload.push(SNAPSHOT_KIND)?;
            push_number(&mut payload, *table)?;
            push_number(&mut payload, *of)?;
            push_long(&mut payload, *bytes)?;
            push_long(&mut payload, *rows)?;
        }
        MetaRecord::Queue {
            segment,
            bytes,
            last_vsn,
            role,
            spot,
            closed,
            ended,
        } => {
            payload.push(QUEUE_KIND)?;
            push_number(&mut payload, *segment)?;
            push_long(&mut payload, *bytes)?;
            push_long(&mut payload, *last_vsn)?;
            push_role(&mut payload, *role)?;
            push_place(&mut payload, *spot)?;
            push_truth(&mut payload, *closed)?;
            push_truth(&mut payload, *ended)?;
        }
        MetaRecord::Request { side, fall_back } => {
            payload.push(REQUEST_KIND)?;
            push_side(&mut payload, *side)?;
            push_truth(&mut payload, *fall_back)?;
        }
        MetaRecord::Channels { side, count } => {
            payload.push(CHANNELS_KIND)?;
            push_side(&mut payload, *side)?;
            push_number(&mut payload, *count)?;
        }
        MetaRecord::Finished { side, segment } => {
            payload.push(FINISHED_KIND)?;
            push_side(&mut payload, *side)?;
            push_number(&mut payload, *segment)?;
        }
        MetaRecord::Done { side } => {
            payload.push(DONE_KIND)?;
            push_side(&mut payload, *side)?;
        }
        MetaRecord::Loaded => {
            payload.push(LOADED_KIND)?;
        }
    }
    Ok(payload)
}
