use crate::copying::Copies;
use crate::items::Items;
use crate::text::Text;
use std::alloc::AllocError;

/// The type of a column.
#[derive(Clone, Copy, Debug, PartialEq, Eq)]
pub enum Kind {
    Text,
    Bigint,
    Boolean,
    Bytea,
}

#[derive(Debug, Drop)]
pub struct Column {
    pub name: Text,
    pub kind: Kind,
}

pub type Columns = Items<Column>;

/// Places of columns in their table, from 0.
pub type Places = Items<u32>;

/// Columns whose values no two rows of the table share.
///
/// Where `nulls_not_distinct` is set, NULLs equal one another there (`NULLS NOT DISTINCT` of PostgreSQL).
/// Else rows with a NULL in one of the columns share nothing with others.
#[derive(Debug, Drop)]
pub struct UniqueKey {
    pub columns: Places,
    pub nulls_not_distinct: bool,
}

pub type UniqueKeys = Items<UniqueKey>;

/// A table as the schema states it.
#[derive(Debug, Drop)]
pub struct Table {
    pub schema_name: Text,
    pub table_name: Text,
    pub columns: Columns,
    pub primary_key: Places,
    pub unique_keys: UniqueKeys,
}

pub type Tables = Items<Table>;

impl Table {
    ghost use Rattle.std.specs.Prelude.{◌≡◌};
    ghost use Rattle.voy_schema.specs.Lawful.{is_named};

    /// Whether the table has these two names.
    pub fn is_named(&self, schema_name: &str, table_name: &str) -> bool
        ensures { result ≡ is_named schema_name.now table_name.now self.now }
    {
        self.schema_name.as_str() == schema_name && self.table_name.as_str() == table_name
    }
}

impl Copies for Column {
    fn copy(&self) -> Result<Self, AllocError> {
        let name = self.name.copy()?;
        Ok(Column {
            name,
            kind: self.kind,
        })
    }
}

impl Copies for UniqueKey {
    fn copy(&self) -> Result<Self, AllocError> {
        let columns = self.columns.copy()?;
        Ok(UniqueKey {
            columns,
            nulls_not_distinct: self.nulls_not_distinct,
        })
    }
}

impl Copies for Table {
    fn copy(&self) -> Result<Self, AllocError> {
        let schema_name = self.schema_name.copy()?;
        let table_name = self.table_name.copy()?;
        let columns = self.columns.copy()?;
        let primary_key = self.primary_key.copy()?;
        let unique_keys = self.unique_keys.copy()?;
        Ok(Table {
            schema_name,
            table_name,
            columns,
            primary_key,
            unique_keys,
        })
    }
}
