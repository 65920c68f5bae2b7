use crate::export_files::{put_files, standing};
use crate::queue_writer::opened;
use crate::words::role_of;
use std::alloc::Global;
use voy_case_text::{Case, Trouble, first_word, number_of, told};
use voy_disk::SureDisk;
use voy_export::{ExportError, Which, Why};
use voy_export_drive::{Order, Trouble as ExportTrouble, export as export_once};
use voy_meta::OPEN_SEGMENT_BYTES;
use voy_schema::Schema;

/// What each of the rows `> ASKED` is answered over the files of the rows in front of them, and what stands on the export's disk then.
pub fn export(alloc: Global, case: &Case) -> Result<String, Trouble> {
    let (files, asked) = match case.rows.split_once("> ") {
        Some((files, asked)) => (files, asked),
        None => return Err(Trouble::Case("nothing is asked")),
    };
    let Ok(schema) = Schema::read(alloc, case.base(alloc, case.words)?.as_bytes()) else {
        return Err(Trouble::Case("no schema"));
    };
    let (mut recording, mut disk) = (SureDisk::new(alloc), SureDisk::new(alloc));
    put_files(alloc, case, files, "recording", &mut recording)?;
    put_files(alloc, case, files, "export", &mut disk)?;
    let mut shown = String::new(alloc);
    'rows: for row in asked.split("\n> ") {
        let answer = ask(alloc, &schema, row.trim_end(), &mut recording, &mut disk)?;
        let next = format!(in alloc; "{answer}; ")?;
        shown.push_str(next.as_str())?;
    }
    shown.push_str(standing(alloc, &mut disk)?.as_str())?;
    Ok(shown)
}

/// Answers one row: `export ROLE MAX SIZE`, or `put RECORDS`, which puts records between two exports.
fn ask(
    alloc: Global,
    schema: &Schema,
    row: &str,
    recording: &mut SureDisk,
    disk: &mut SureDisk,
) -> Result<String, Trouble> {
    let (kind, words) = first_word(row);
    match kind {
        "export" => {
            let order = order_of(words)?;
            if order.segment_bytes > OPEN_SEGMENT_BYTES {
                return Err(Trouble::Case("no size of a segment"));
            }
            match export_once(alloc, schema, recording, disk, order) {
                Ok(exported) => {
                    let (changes, last) = (exported.changes, exported.last_vsn);
                    Ok(format!(in alloc; "exported {changes} changes, last vsn {last}")?)
                }
                Err(trouble) => trouble_text(alloc, trouble),
            }
        }
        "put" => {
            opened(alloc, disk, words)?;
            told(alloc, "put")
        }
        _ => Err(Trouble::Case("no such question")),
    }
}

/// `ROLE MAX SIZE`, with `-` for no maximum
fn order_of(words: &str) -> Result<Order, Trouble> {
    let (role, words) = first_word(words);
    let (max, segment_bytes) = first_word(words);
    let max = if max == "-" {
        None
    } else {
        Some(number_of(max)?)
    };
    Ok(Order {
        role: role_of(role)?,
        max,
        segment_bytes: number_of(segment_bytes)?,
    })
}

/// Why an export did not do all, in words.
fn trouble_text(alloc: Global, trouble: ExportTrouble) -> Result<String, Trouble> {
    match trouble {
        ExportTrouble::Export(error) => error_text(alloc, error),
        ExportTrouble::Metadata { offset } => {
            Ok(format!(in alloc; "metadata damaged at {offset}")?)
        }
        ExportTrouble::Segment { number, offset } => {
            Ok(format!(in alloc; "segment {number} damaged at {offset}")?)
        }
        ExportTrouble::Stage => told(alloc, "refused by stage"),
    }
}

fn error_text(alloc: Global, error: ExportError) -> Result<String, Trouble> {
    match error {
        ExportError::Refused { file, line, why } => {
            let (file, why) = (file.as_str(), why_text(why));
            Ok(format!(in alloc; "refused: {file} line {line}: {why}")?)
        }
        ExportError::Limit { file, line } => {
            let file = file.as_str();
            Ok(format!(in alloc; "limit: {file} line {line}")?)
        }
        ExportError::Fault(Which::Recording) => told(alloc, "fault: recording"),
        ExportError::Fault(Which::Export) => told(alloc, "fault: export"),
        ExportError::NoMemory => told(alloc, "no memory"),
    }
}

fn why_text(why: Why) -> &'static str {
    match why {
        Why::Missing => "missing",
        Why::Row(why) => why.text(),
        Why::Line(why) => why.text(),
    }
}
