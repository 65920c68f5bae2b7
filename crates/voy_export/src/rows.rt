ghost use Rattle.std.specs.Prelude.{◌≡◌, ◌≢◌, ◌≤◌, ◌++◌, IfErr, IfOk, IsTrue, Ok, length, unwrap_or};
ghost use Rattle.std.specs.Option.{option_map};
ghost use Rattle.voy_disk.specs.Faults.{HasCause};
ghost use Rattle.voy_disk.specs.Files.{IfTold};
ghost use Rattle.voy_disk.specs.Images.{now_image};
ghost use Rattle.voy_export.specs.Names.{csv_file};
ghost use Rattle.voy_export.specs.Snapshots.{Counts, ReadsRows, ReadsTable, Stops, StopsAtFile, StopsAtRows, StopsCounting};
ghost use Rattle.voy_export.specs.Calls.{IsUnnamed};
ghost use Rattle.voy_export.specs.Ends.{ends_with, row_stop, with_rows};
ghost use Rattle.voy_schema.specs.Lawful.{is_lawful_table};
ghost use Rattle.voy_tables.specs.Readings.{recorded_rows};

use crate::error::{ExportError, Which, Why};
use crate::limits::MAX_CSV_BYTES;
use crate::names::csv_file;
use std::alloc::Global;
use voy_disk::{Disk, DiskError, Name};
use voy_files::read_file;
use voy_schema::{Rows, Table};
use voy_tables::{RowError, RowWhy, read_recorded};

/// The rows of a recorded table.
#[derive(Debug, Drop)]
pub(crate) struct Recorded {
    pub rows: Rows,
    /// The bytes of its file, and of those in front of it.
    pub sum: u64,
}

/// Counts the file of a table with those in front of it. An absent one has no bytes.
pub(crate) fn count_table<D: Disk>(
    alloc: Global,
    recording: &mut D,
    table: &Table,
    sum: u64,
) -> Result<u64, ExportError>
    requires lawful { IsTrue (is_lawful_table table.now) }
    requires few { sum ≤ MAX_CSV_BYTES }
    ensures counts { IfOk result (λ next. IfTold (D.files recording.old) (λ fs. Counts table.now sum (now_image fs (csv_file table.now)) next)) }
    ensures stops { IfErr result (λ error. IfTold (D.files recording.old) (λ fs. StopsCounting table.now sum (now_image fs (csv_file table.now)) error)) }
    ensures few { IfOk result (λ next. next ≤ MAX_CSV_BYTES) }
    ensures same { D.files recording.new ≡ D.files recording.old }
    ensures lender { D.lender recording.new ≡ D.lender recording.old }
    ensures cause { HasCause (ExportError.Fault Which.Recording) (D.faults recording.old) (D.faults recording.new) result }
    ensures no_export { IfErr result (λ error. error ≢ ExportError.Fault Which.Export) }
{
    let file = csv_file(alloc, table)?;
    let bytes = bytes_of(file_length(recording, &file)?);
    if bytes > MAX_CSV_BYTES - sum {
        return Err(ExportError::Limit { file, line: 0 });
    }
    Ok(sum + bytes)
}

/// The length of a file; an absent one has none.
fn bytes_of(length: Option<u64>) -> u64
    ensures { result ≡ unwrap_or length 0 }
{
    match length {
        Some(bytes) => bytes,
        None => 0,
    }
}

/// Reads the rows of a table. Its file is counted with those in front of it before it is read.
pub(crate) fn read_table<D: Disk>(
    alloc: Global,
    recording: &mut D,
    table: &Table,
    sum: u64,
) -> Result<Recorded, ExportError>
    requires lawful { IsTrue (is_lawful_table table.now) }
    requires few { sum ≤ MAX_CSV_BYTES }
    ensures reads { IfOk result (λ read. IfTold (D.files recording.old) (λ fs. ReadsTable table.now sum (now_image fs (csv_file table.now)) read.rows read.sum)) }
    ensures stops { IfErr result (λ error. IfTold (D.files recording.old) (λ fs. StopsAtFile table.now sum (now_image fs (csv_file table.now)) error)) }
    ensures few { IfOk result (λ read. read.sum ≤ MAX_CSV_BYTES) }
    ensures same { D.files recording.new ≡ D.files recording.old }
    ensures lender { D.lender recording.new ≡ D.lender recording.old }
    ensures cause { HasCause (ExportError.Fault Which.Recording) (D.faults recording.old) (D.faults recording.new) result }
    ensures no_export { IfErr result (λ error. error ≢ ExportError.Fault Which.Export) }
{
    let file = csv_file(alloc, table)?;
    let Some(bytes) = file_length(recording, &file)? else {
        return Err(missing(file));
    };
    if bytes > MAX_CSV_BYTES - sum {
        return Err(ExportError::Limit { file, line: 0 });
    }
    let rows = read_rows(alloc, recording, table, file)?;
    Ok(Recorded {
        rows,
        sum: sum + bytes,
    })
}

/// That a file is absent.
fn missing(file: Name) -> ExportError
    ensures { result ≡ ExportError.Refused file 0 Why.Missing }
{
    ExportError::Refused {
        file,
        line: 0,
        why: Why::Missing,
    }
}

/// The rows of a file.
fn read_rows<D: Disk>(
    alloc: Global,
    recording: &mut D,
    table: &Table,
    file: Name,
) -> Result<Rows, ExportError>
    ensures reads { IfOk result (λ rows. IfTold (D.files recording.old) (λ fs. ReadsRows table.now (now_image fs file) rows)) }
    ensures stops { IfErr result (λ error. IfTold (D.files recording.old) (λ fs. StopsAtRows table.now file (now_image fs file) error)) }
    ensures same { D.files recording.new ≡ D.files recording.old }
    ensures lender { D.lender recording.new ≡ D.lender recording.old }
    ensures cause { HasCause (ExportError.Fault Which.Recording) (D.faults recording.old) (D.faults recording.new) result }
    ensures no_export { IfErr result (λ error. error ≢ ExportError.Fault Which.Export) }
{
    match read_file(alloc, recording, &file) {
        Ok(Some(bytes)) => rows_of(alloc, table, file, bytes.as_slice()),
        Ok(None) => Err(missing(file)),
        Err(DiskError::Failed) => Err(ExportError::Fault(Which::Recording)),
        Err(DiskError::NoMemory) => Err(ExportError::NoMemory),
    }
}

/// The rows of these bytes of a file.
fn rows_of(alloc: Global, table: &Table, file: Name, bytes: &[u8]) -> Result<Rows, ExportError>
    ensures reads { IfOk result (λ rows. recorded_rows table.now bytes.now ≡ Ok rows) }
    ensures stops { IfErr result (λ error. (rest : _) → Stops error (with_rows file (recorded_rows table.now bytes.now) rest)) }
    ensures no_fault { IfErr result (λ error. (which : _) → error ≢ ExportError.Fault which) }
{
    match read_recorded(alloc, table, bytes) {
        Ok(rows) => Ok(rows),
        Err(RowError::Bad { line, why }) => Err(refused(file, line, why)),
        Err(RowError::NoMemory) => Err(ExportError::NoMemory),
    }
}

/// That a record of a file is refused.
fn refused(file: Name, line: u64, why: RowWhy) -> ExportError
    ensures stops { Stops result (ends_with (row_stop file line why)) }
    ensures no_fault { (which : _) → result ≢ ExportError.Fault which }
{
    match why {
        RowWhy::TooLong => ExportError::Limit { file, line },
        why => ExportError::Refused {
            file,
            line,
            why: Why::Row(why),
        },
    }
}

/// The length of a file, if it is there.
fn file_length<D: Disk>(recording: &mut D, file: &Name) -> Result<Option<u64>, ExportError>
    ensures length { IfOk result (λ bytes. IfTold (D.files recording.old) (λ fs. bytes ≡ option_map length (now_image fs file.now))) }
    ensures same { D.files recording.new ≡ D.files recording.old }
    ensures lender { D.lender recording.new ≡ D.lender recording.old }
    ensures cause { HasCause (ExportError.Fault Which.Recording) (D.faults recording.old) (D.faults recording.new) result }
    ensures unnamed { IfErr result IsUnnamed }
    ensures no_export { IfErr result (λ error. error ≢ ExportError.Fault Which.Export) }
{
    match recording.len(file) {
        Ok(bytes) => Ok(bytes),
        Err(DiskError::Failed) => Err(ExportError::Fault(Which::Recording)),
        Err(DiskError::NoMemory) => Err(ExportError::NoMemory),
    }
}
