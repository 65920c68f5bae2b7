ghost use Rattle.std.specs.Prelude.{◌≡◌, ◌++◌, OnOk, OnErr};
ghost use Rattle.voy_report.specs.Show.{Appends, table_line, table_text};
ghost use Rattle.voy_tables.specs.RowText.{row_lines};

use itoa::Buffer;
use std::alloc::{AllocError, Global};
use voy_schema::{Bytes, Row, Table};
use voy_tables::write_row;

/// Appends one table's part of the show text: `<schema>.<table> <rows>`, and then the text of each row.
/// After an error `to` is as before.
pub fn table_text(
    alloc: Global,
    table: &Table,
    rows: &[Row],
    to: &mut Bytes,
) -> Result<(), AllocError>
    ensures ok { OnOk result (to.new ≡ to.old ++ table_text table.now rows.now) }
    ensures err { OnErr result (to.new ≡ to.old) }
{
    let length = to.len();
    match append_table(alloc, table, rows, to) {
        Ok(()) => Ok(()),
        Err(error) => {
            to.truncate(length);
            Err(error)
        }
    }
}

/// Appends the line and the rows; after an error a part of them.
pub(crate) fn append_table(
    alloc: Global,
    table: &Table,
    rows: &[Row],
    to: &mut Bytes,
) -> Result<(), AllocError>
    ensures ok { OnOk result (to.new ≡ to.old ++ table_text table.now rows.now) }
    ensures more { Appends to.old to.new }
{
    append_line(table, rows.len(), to)?;
    append_rows(alloc, rows, to)
}

/// Appends the line with the table's name and its number of rows.
#[tactic(auto, unfolding(crate::specs::Show::table_line))]
fn append_line(table: &Table, rows: usize, to: &mut Bytes) -> Result<(), AllocError>
    ensures ok { OnOk result (to.new ≡ to.old ++ table_line table.now rows) }
    ensures more { Appends to.old to.new }
{
    to.append_slice(table.schema_name.as_str().as_bytes())?;
    to.append_slice(b".")?;
    to.append_slice(table.table_name.as_str().as_bytes())?;
    to.append_slice(b" ")?;
    to.append_slice(Buffer::new().format(rows).as_bytes())?;
    to.append_slice(b"\n")
}

fn append_rows(alloc: Global, rows: &[Row], to: &mut Bytes) -> Result<(), AllocError>
    ensures ok { OnOk result (to.new ≡ to.old ++ row_lines rows.now) }
    ensures more { Appends to.old to.new }
{
    for row in rows {
        write_row(alloc, row, to)?;
    }
    Ok(())
}
