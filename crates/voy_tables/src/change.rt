use crate::keys::key_of;
use std::alloc::{AllocError, Global};
use voy_schema::{Copies, Items, Key, Row, Rows, Table};

/// Which store an import fills.
#[derive(Clone, Copy, Debug, PartialEq, Eq)]
pub enum Side {
    Target,
    Source,
}

/// Which exporter wrote an event.
#[derive(Clone, Copy, Debug, PartialEq, Eq)]
pub enum Role {
    Source,
    Target,
}

/// Where a change stands in the recorded stream: its commit, and its place within that commit.
#[derive(Clone, Copy, Debug, PartialEq, Eq, PartialOrd, Ord)]
pub struct Spot {
    pub commit: u64,
    pub seq: u64,
}

/// A change of one row. A table is named by its place in the schema, from 0.
#[derive(Debug, Drop)]
pub enum Change {
    Insert { table: u32, after: Row },
    Update { table: u32, before: Row, after: Row },
    Delete { table: u32, before: Row },
}

/// Why a change does not fit the tables, the first cause that holds.
#[derive(Clone, Copy, Debug, PartialEq, Eq)]
pub enum Misfit {
    /// An insert whose key is there already.
    KeyTaken,
    /// An update or delete of a key that is not there.
    NoRow,
    /// An update or delete of a row that stands otherwise than the change says.
    OtherRow,
    /// Another row has the same tuple of this unique key, the least such key of the table.
    Unique { key: u32 },
}

/// Why a change was not done.
#[derive(Clone, Copy, Debug, PartialEq, Eq)]
pub enum PlainError {
    Misfit(Misfit),
    NoMemory,
}

/// For each table of a schema, its rows.
pub type RowLists = Items<Rows>;

impl From<AllocError> for PlainError {
    ghost use Rattle.std.specs.Prelude.{◌≡◌};
    ghost use Rattle.voy_tables.specs.declared.change.PlainError.TheVariants.{NoMemory};

    ghost from_gives = { λ _ e. e ≡ NoMemory };

    fn from(_refused: AllocError) -> PlainError {
        PlainError::NoMemory
    }
}

impl Change {
    ghost use Rattle.std.specs.Prelude.{◌≡◌, IfOk};
    ghost use Rattle.std.specs.Option.{option_copied};
    ghost use Rattle.voy_tables.specs.Changes.{after_of, before_of, key_changed, table_of};

    /// The place of its table in the schema.
    pub fn table(&self) -> u32
        ensures { result ≡ table_of self.now }
    {
        match self {
            Change::Insert { table, .. } => *table,
            Change::Update { table, .. } => *table,
            Change::Delete { table, .. } => *table,
        }
    }

    /// The row before it. `None` for an insert.
    pub fn before(&self) -> Option<&Row>
        ensures { option_copied result ≡ before_of self.now }
    {
        match self {
            Change::Insert { .. } => None,
            Change::Update { before, .. } => Some(before),
            Change::Delete { before, .. } => Some(before),
        }
    }

    /// The row after it. `None` for a delete.
    pub fn after(&self) -> Option<&Row>
        ensures { option_copied result ≡ after_of self.now }
    {
        match self {
            Change::Insert { after, .. } => Some(after),
            Change::Update { after, .. } => Some(after),
            Change::Delete { .. } => None,
        }
    }

    /// The key of the row that it changes, where `table` is its table. An update keeps its key, so that
    /// this is the key of both rows.
    pub fn key(&self, alloc: Global, table: &Table) -> Result<Key, AllocError>
        ensures { IfOk result (λ key. key ≡ key_changed table.now self.now) }
    {
        match self {
            Change::Insert { after, .. } => key_of(alloc, table, after),
            Change::Update { before, .. } => key_of(alloc, table, before),
            Change::Delete { before, .. } => key_of(alloc, table, before),
        }
    }
}

impl Copies for Change {
    fn copy(&self) -> Result<Self, AllocError> {
        match self {
            Change::Insert { table, after } => {
                let after = after.copy()?;
                Ok(Change::Insert {
                    table: *table,
                    after,
                })
            }
            Change::Update {
                table,
                before,
                after,
            } => {
                let before = before.copy()?;
                let after = after.copy()?;
                Ok(Change::Update {
                    table: *table,
                    before,
                    after,
                })
            }
            Change::Delete { table, before } => {
                let before = before.copy()?;
                Ok(Change::Delete {
                    table: *table,
                    before,
                })
            }
        }
    }
}
