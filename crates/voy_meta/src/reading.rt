ghost use Rattle.std.specs.Prelude.{◌≡◌};
ghost use Rattle.voy_meta.specs.Reading.{channels_of, done_of, finished_of, queue_of, record_reading, request_of, snapshot_of, version_of, whole};

use crate::fields::{byte_of, long_of, number_of, place_of, role_of, side_of, truth_of};
use crate::limits::{
    CHANNELS_KIND, DONE_KIND, FINISHED_KIND, LOADED_KIND, QUEUE_KIND, REQUEST_KIND, SNAPSHOT_KIND,
    VERSION_KIND,
};
use crate::record::MetaRecord;

/// The record whose payload `bytes` are, all of them. `None` where they are no payload.
///
/// A version, a number of a table and the like are read as they stand: which record may follow which is another
/// question.
#[tactic(auto, unfolding(crate::specs::Reading::record_reading))]
pub fn read_record(bytes: &[u8]) -> Option<MetaRecord>
    ensures { record_reading bytes.now ≡ result }
{
    let [kind, fields @ ..] = bytes else {
        return None;
    };
    match *kind {
        VERSION_KIND => version_of(fields),
        SNAPSHOT_KIND => snapshot_of(fields),
        QUEUE_KIND => queue_of(fields),
        REQUEST_KIND => request_of(fields),
        CHANNELS_KIND => channels_of(fields),
        FINISHED_KIND => finished_of(fields),
        DONE_KIND => done_of(fields),
        LOADED_KIND => whole(MetaRecord::Loaded, fields),
        _ => None,
    }
}

/// The record, where nothing follows its last field.
fn whole(entry: MetaRecord, rest: &[u8]) -> Option<MetaRecord>
    ensures { whole entry rest.now ≡ result }
{
    let [] = rest else {
        return None;
    };
    Some(entry)
}

#[tactic(auto, unfolding(crate::specs::Reading::version_of))]
fn version_of(bytes: &[u8]) -> Option<MetaRecord>
    ensures { version_of bytes.now ≡ result }
{
    let (version, rest) = byte_of(bytes)?;
    whole(MetaRecord::Version { version }, rest)
}

#[tactic(auto, unfolding(crate::specs::Reading::snapshot_of))]
fn snapshot_of(bytes: &[u8]) -> Option<MetaRecord>
    ensures { snapshot_of bytes.now ≡ result }
{
    let (table, rest) = number_of(bytes)?;
    let (of, rest) = number_of(rest)?;
    let (size, rest) = long_of(rest)?;
    let (rows, rest) = long_of(rest)?;
    let entry = MetaRecord::Snapshot {
        table,
        of,
        bytes: size,
        rows,
    };
    whole(entry, rest)
}

#[tactic(auto, unfolding(crate::specs::Reading::queue_of))]
fn queue_of(bytes: &[u8]) -> Option<MetaRecord>
    ensures { queue_of bytes.now ≡ result }
{
    let (segment, rest) = number_of(bytes)?;
    let (size, rest) = long_of(rest)?;
    let (last_vsn, rest) = long_of(rest)?;
    let (role, rest) = role_of(rest)?;
    let (spot, rest) = place_of(rest)?;
    let (closed, rest) = truth_of(rest)?;
    let (ended, rest) = truth_of(rest)?;
    let entry = MetaRecord::Queue {
        segment,
        bytes: size,
        last_vsn,
        role,
        spot,
        closed,
        ended,
    };
    whole(entry, rest)
}

#[tactic(auto, unfolding(crate::specs::Reading::request_of))]
fn request_of(bytes: &[u8]) -> Option<MetaRecord>
    ensures { request_of bytes.now ≡ result }
{
    let (side, rest) = side_of(bytes)?;
    let (fall_back, rest) = truth_of(rest)?;
    whole(MetaRecord::Request { side, fall_back }, rest)
}

#[tactic(auto, unfolding(crate::specs::Reading::channels_of))]
fn channels_of(bytes: &[u8]) -> Option<MetaRecord>
    ensures { channels_of bytes.now ≡ result }
{
    let (side, rest) = side_of(bytes)?;
    let (count, rest) = number_of(rest)?;
    whole(MetaRecord::Channels { side, count }, rest)
}

#[tactic(auto, unfolding(crate::specs::Reading::finished_of))]
fn finished_of(bytes: &[u8]) -> Option<MetaRecord>
    ensures { finished_of bytes.now ≡ result }
{
    let (side, rest) = side_of(bytes)?;
    let (segment, rest) = number_of(rest)?;
    whole(MetaRecord::Finished { side, segment }, rest)
}

#[tactic(auto, unfolding(crate::specs::Reading::done_of))]
fn done_of(bytes: &[u8]) -> Option<MetaRecord>
    ensures { done_of bytes.now ≡ result }
{
    let (side, rest) = side_of(bytes)?;
    whole(MetaRecord::Done { side }, rest)
}
