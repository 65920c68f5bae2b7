ghost use Rattle.std.specs.Prelude.{◌≡◌, ◌++◌, [], None, Some, IfOk, OnErr, OnOk};
ghost use Rattle.std.specs.BTreeMap.{is_at};
ghost use Rattle.std.specs.List.{cons_option};
ghost use Rattle.std.specs.Map.{lookup};
ghost use Rattle.std.specs.Option.{option_copied};
ghost use Rattle.voy_contents.specs.MemTables.{IsRowSet, standing};
ghost use Rattle.voy_contents.specs.Places.{place_back};
ghost use Rattle.voy_tables.specs.Keys.{key_cmp};
ghost use Rattle.voy_tables.specs.Lists.{misfit_by};

use crate::places::Places;
use std::alloc::AllocError;
use voy_schema::{Copies, Key, Row, Rows};
use voy_tables::Misfit;

/// For each key its row, or none where a row was taken away and its place left.
pub(crate) type RowPlaces = Places<Key, Option<Row>>;

/// Sets what stands at the key, at a place of its own where a change has no row before, and gives what the place
/// held. After an error nothing changed.
pub(crate) fn put_row(
    rows: &mut RowPlaces,
    key: &Key,
    before: Option<&Row>,
    row: Option<Row>,
) -> Result<Option<Option<Row>>, AllocError>
    ensures held { IfOk result (λ held. held ≡ lookup (is_at (key_cmp key.now)) rows.old) }
    ensures back { IfOk result (λ held. place_back key_cmp rows.new key.now held ≡ rows.old) }
    ensures set { IfOk result (λ held. standing held ≡ option_copied before.entry → IsRowSet key.now row rows.old rows.new) }
    ensures err { OnErr result (rows.new ≡ rows.old) }
{
    match before {
        None => rows.put(key, row),
        Some(_row) => Ok(rows.set(key, row)),
    }
}

/// The row that a place held.
pub(crate) fn standing(held: &Option<Option<Row>>) -> Option<&Row>
    ensures { option_copied result ≡ standing held.now }
{
    match held {
        Some(Some(row)) => Some(row),
        _ => None,
    }
}

pub(crate) fn copied(row: Option<&Row>) -> Result<Option<Row>, AllocError>
    ensures { IfOk result (λ made. made ≡ option_copied row.entry) }
{
    match row {
        Some(row) => Ok(Some(row.copy()?)),
        None => Ok(None),
    }
}

/// Puts a copy of the row, if there is one, at the end.
pub(crate) fn push_row(rows: &mut Rows, row: &Option<Row>) -> Result<(), AllocError>
    ensures { OnOk result (rows.new ≡ rows.old ++ cons_option row.now []) }
{
    match row {
        Some(row) => rows.push(row.copy()?),
        None => Ok(()),
    }
}

/// Why the row that stands is not the one before a change.
pub(crate) fn misfit_beside(before: Option<&Row>, standing: Option<&Row>) -> Option<Misfit>
    ensures { result ≡ misfit_by (option_copied before.entry) (option_copied standing.entry) None }
{
    match before {
        None => match standing {
            Some(_row) => Some(Misfit::KeyTaken),
            None => None,
        },
        Some(before) => misfit_instead(before, standing),
    }
}

fn misfit_instead(before: &Row, standing: Option<&Row>) -> Option<Misfit>
    ensures { result ≡ misfit_by (Some before.now) (option_copied standing.entry) None }
{
    match standing {
        None => Some(Misfit::NoRow),
        Some(row) => {
            if *row == *before {
                None
            } else {
                Some(Misfit::OtherRow)
            }
        }
    }
}
