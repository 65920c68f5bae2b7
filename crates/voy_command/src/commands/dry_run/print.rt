ghost use Rattle.std.specs.Prelude.{◌≡◌, ◌≤◌, ◌++◌, slice_get, IfErr, OnOk};
ghost use Rattle.voy_disk.specs.Faults.{Rose};
ghost use Rattle.voy_disk.specs.Written.{GotFront, grown};
ghost use Rattle.voy_contents.specs.Tables.{lists_in, schema_in};
ghost use Rattle.voy_report.specs.Show.{table_text, tables_text};
ghost use Rattle.voy_tables.specs.Lists.{rows_in};
ghost use Rattle.voy_command.specs.Commands.DryRun.Outcome.{import_line};
ghost use Rattle.voy_command.specs.Commands.DryRun.Printing.{fold_text};
ghost use Rattle.voy_command.specs.Stops.{IsOutputStop};

use crate::answer::{Answer, append_numbered};
use crate::commands::dry_run::fold::Fold;
use crate::print::print_text;
use std::alloc::{AllocError, Global};
use voy_contents::Tables;
use voy_disk::Sink;
use voy_report::table_text;
use voy_schema::{Bytes, Table};

/// Prints the fold's tables, and then whether the cutover event was reached. After an error a prefix of
/// that text was printed.
pub fn print_fold<K: Sink>(alloc: Global, fold: &Fold, out: &mut K) -> Result<(), Answer>
    ensures ok { OnOk result (K.written out.new ≡ grown (K.written out.old) (fold_text fold.now)) }
    ensures front { GotFront (fold_text fold.now) (K.written out.old) (K.written out.new) }
    ensures err { IfErr result (IsOutputStop (Rose (K.faults out.old) (K.faults out.new))) }
    ensures later { K.faults out.old ≤ K.faults out.new }
{
    let mut text = Bytes::new(alloc);
    if append_fold(alloc, fold, &mut text).is_err() {
        return Err(Answer::NoMemory);
    }
    print_text(text.as_slice(), out)
}

fn append_fold(alloc: Global, fold: &Fold, to: &mut Bytes) -> Result<(), AllocError>
    ensures { OnOk result (to.new ≡ to.old ++ fold_text fold.now) }
{
    append_tables(alloc, &fold.tables, to)?;
    append_import_line(fold.ended, fold.last, to)?;
    Ok(())
}

/// Appends the parts of all tables.
fn append_tables(alloc: Global, tables: &Tables, to: &mut Bytes) -> Result<(), AllocError>
    ensures { OnOk result (to.new ≡ to.old ++ tables_text (schema_in tables.now) (lists_in tables.now)) }
{
    let schema = tables.schema();
    for (place, table) in schema.tables.as_slice().iter().enumerate() {
        append_table(alloc, table, tables, place as u32, to)?;
    }
    Ok(())
}

/// Appends the part of the table at this place of the schema, of a copy of its rows.
fn append_table(
    alloc: Global,
    table: &Table,
    tables: &Tables,
    place: u32,
    to: &mut Bytes,
) -> Result<(), AllocError>
    ensures { OnOk result (to.new ≡ to.old ++ table_text table.now (rows_in (slice_get (lists_in tables.now) place))) }
{
    let rows = tables.rows(place)?;
    table_text(alloc, table, rows.as_slice(), to)?;
    Ok(())
}

/// Appends `done: last vsn <v>` or `waiting: last vsn <v>`.
#[tactic(auto, unfolding(crate::specs::Commands::DryRun::Outcome::import_line))]
fn append_import_line(ended: bool, last: u64, to: &mut Bytes) -> Result<(), AllocError>
    ensures { OnOk result (to.new ≡ to.old ++ import_line ended last) }
{
    if ended {
        append_numbered(b"done: last vsn ", last, b"\n", to)
    } else {
        append_numbered(b"waiting: last vsn ", last, b"\n", to)
    }
}
