use voy_case_text::{Trouble, first_word, number_of};
use voy_meta::MetaRecord;
use voy_tables::{Role, Side, Spot};

/// The record of these words.
pub fn record_of(text: &str) -> Result<MetaRecord, Trouble> {
    let (kind, fields) = first_word(text);
    match kind {
        "version" => version_of(fields),
        "snapshot" => snapshot_of(fields),
        "queue" => queue_of(fields),
        "request" => request_of(fields),
        "channels" => channels_of(fields),
        "finished" => finished_of(fields),
        "done" => Ok(MetaRecord::Done {
            side: side_of(fields)?,
        }),
        "loaded" => Ok(MetaRecord::Loaded),
        _ => Err(Trouble::Case("no such record")),
    }
}

/// `version 2`
fn version_of(fields: &str) -> Result<MetaRecord, Trouble> {
    match u8::try_from(number_of(fields)?) {
        Ok(version) => Ok(MetaRecord::Version { version }),
        Err(_) => Err(Trouble::Case("no version")),
    }
}

/// `snapshot TABLE OF BYTES ROWS`
fn snapshot_of(fields: &str) -> Result<MetaRecord, Trouble> {
    let (table, fields) = first_word(fields);
    let (of, fields) = first_word(fields);
    let (bytes, rows) = first_word(fields);
    Ok(MetaRecord::Snapshot {
        table: small(table)?,
        of: small(of)?,
        bytes: number_of(bytes)?,
        rows: number_of(rows)?,
    })
}

/// `queue SEGMENT BYTES LAST_VSN ROLE SPOT`, and then `closed`, `ended` or both
fn queue_of(fields: &str) -> Result<MetaRecord, Trouble> {
    let (segment, fields) = first_word(fields);
    let (bytes, fields) = first_word(fields);
    let (last_vsn, fields) = first_word(fields);
    let (role, fields) = first_word(fields);
    let (spot, marks) = first_word(fields);
    Ok(MetaRecord::Queue {
        segment: small(segment)?,
        bytes: number_of(bytes)?,
        last_vsn: number_of(last_vsn)?,
        role: role_of(role)?,
        spot: spot_of(spot)?,
        closed: marks.contains("closed"),
        ended: marks.contains("ended"),
    })
}

/// `request SIDE yes` or `request SIDE no`, for the fall-back
fn request_of(fields: &str) -> Result<MetaRecord, Trouble> {
    let (side, fall_back) = first_word(fields);
    Ok(MetaRecord::Request {
        side: side_of(side)?,
        fall_back: fall_back == "yes",
    })
}

/// `channels SIDE COUNT`
fn channels_of(fields: &str) -> Result<MetaRecord, Trouble> {
    let (side, count) = first_word(fields);
    Ok(MetaRecord::Channels {
        side: side_of(side)?,
        count: small(count)?,
    })
}

/// `finished SIDE SEGMENT`
fn finished_of(fields: &str) -> Result<MetaRecord, Trouble> {
    let (side, segment) = first_word(fields);
    Ok(MetaRecord::Finished {
        side: side_of(side)?,
        segment: small(segment)?,
    })
}

fn side_of(text: &str) -> Result<Side, Trouble> {
    match text {
        "target" => Ok(Side::Target),
        "source" => Ok(Side::Source),
        _ => Err(Trouble::Case("no side")),
    }
}

pub fn role_of(text: &str) -> Result<Role, Trouble> {
    match text {
        "target" => Ok(Role::Target),
        "source" => Ok(Role::Source),
        _ => Err(Trouble::Case("no role")),
    }
}

/// A commit and a place within it, as `5.2`, or `-` for none.
pub fn spot_of(text: &str) -> Result<Option<Spot>, Trouble> {
    if text == "-" {
        return Ok(None);
    }
    match text.split_once('.') {
        Some((commit, seq)) => Ok(Some(Spot {
            commit: number_of(commit)?,
            seq: number_of(seq)?,
        })),
        None => Err(Trouble::Case("no place")),
    }
}

fn small(text: &str) -> Result<u32, Trouble> {
    match u32::try_from(number_of(text)?) {
        Ok(number) => Ok(number),
        Err(_) => Err(Trouble::Case("a number that is too large")),
    }
}
