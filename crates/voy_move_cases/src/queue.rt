use crate::allowed::take_row;
use std::alloc::Global;
use voy_case_text::{Case, Trouble, first_line, name_of, told};
use voy_disk::SureDisk;
use voy_meta::{MAX_SEGMENT, MetaState};
use voy_queue::{QueueError, Reader};
use voy_schema::Schema;

/// The events of the queue that the first row records, in segments of which each row `> NUMBER` has the bytes of the rows below it: the
/// vsn of each, with how many bytes are read ahead, and then how it ends.
pub fn queue(alloc: Global, case: &Case) -> Result<String, Trouble> {
    let (records, segments) = first_line(case.rows);
    let mut state = MetaState::new(alloc);
    take_row(alloc, case.all, records, &mut state)?;
    let mut disk = SureDisk::new(alloc);
    put_segments(alloc, case, segments, "> ", &mut disk)?;
    read_all(alloc, case, &state, &mut disk)
}

/// Makes the files of segments, each behind the sign and its number.
pub fn put_segments(
    alloc: Global,
    case: &Case,
    segments: &str,
    sign: &str,
    disk: &mut SureDisk,
) -> Result<(), Trouble> {
    'segments: for segment in segments.split(sign) {
        if segment.is_empty() {
            continue 'segments;
        }
        let (number, rows) = first_line(segment);
        let text = format!(in alloc; "segment.{number}.ndjson")?;
        let bytes = case.with_rows(rows).bytes(alloc)?;
        disk.put_file(&name_of(alloc, text.as_str())?, bytes.as_slice())?;
    }
    Ok(())
}

/// Reads to the end, or to the first damage, and once more behind an end.
pub fn read_all(
    alloc: Global,
    case: &Case,
    state: &MetaState,
    disk: &mut SureDisk,
) -> Result<String, Trouble> {
    let Ok(schema) = Schema::read(alloc, case.base(alloc, "SCHEMA")?.as_bytes()) else {
        return Err(Trouble::Case("no schema"));
    };
    if state.segments.len() > MAX_SEGMENT as usize {
        return Err(Trouble::Case("too many segments"));
    }
    let mut reader = Reader::open(alloc, state, 0)?;
    let mut shown = String::new(alloc);
    'events: for _ in 0..=state.last_vsn() {
        match reader.next(disk, &schema) {
            Ok(Some(event)) => {
                let (vsn, ahead) = (event.vsn, reader.ahead().len());
                let next = format!(in alloc; "{vsn} ({ahead} ahead), ")?;
                shown.push_str(next.as_str())?;
            }
            Ok(None) => {
                shown.push_str("none")?;
                if !matches!(reader.next(disk, &schema), Ok(None)) {
                    return Err(Trouble::Apart("something behind the end"));
                }
                return Ok(shown);
            }
            Err(error) => {
                shown.push_str(error_text(alloc, error)?.as_str())?;
                return Ok(shown);
            }
        }
    }
    Err(Trouble::Apart("more events than are recorded"))
}

/// Why the queue was not read, in words.
pub fn error_text(alloc: Global, error: QueueError) -> Result<String, Trouble> {
    match error {
        QueueError::Damaged { segment, offset } => {
            Ok(format!(in alloc; "segment {segment} damaged at {offset}")?)
        }
        QueueError::Fault => told(alloc, "fault"),
        QueueError::NoMemory => told(alloc, "no memory"),
    }
}
