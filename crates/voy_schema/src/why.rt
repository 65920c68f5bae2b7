ghost use Rattle.std.specs.Prelude.{◌≡◌};
ghost use Rattle.voy_schema.specs.Reading.{why_text};
ghost use Rattle.voy_schema.specs.declared.why.SchemaError.TheVariants.{NoMemory};

use std::alloc::AllocError;

/// Why `schema.json` is refused. Where several rules are broken in one place, the first of these.
#[derive(Clone, Copy, Debug, PartialEq, Eq)]
pub enum SchemaWhy {
    /// The bytes are no JSON document.
    NotJson,
    /// An object, a list, a name in an object or a string is not where it has to be.
    Shape,
    /// There are no tables or no columns, or more tables, columns or unique keys than the limits.
    TooMany,
    /// A schema, table or column name breaks the rule of names.
    BadName,
    /// A type is none of the four.
    BadType,
    /// A column name, a column within a key, or a table's pair of names stands a second time.
    Repeated,
    /// A key names no column of its table.
    NoColumn,
    /// A primary key or a unique key has no column.
    NoKey,
}

impl SchemaWhy {
    /// The text for a message.
    #[tactic(auto, unfolding(crate::specs::Reading::why_text))]
    pub fn text(self) -> &'static str
        ensures { result.now ≡ why_text self }
    {
        match self {
            SchemaWhy::NotJson => "not json",
            SchemaWhy::Shape => "wrong shape",
            SchemaWhy::TooMany => "too many",
            SchemaWhy::BadName => "bad name",
            SchemaWhy::BadType => "bad type",
            SchemaWhy::Repeated => "repeated",
            SchemaWhy::NoColumn => "no such column",
            SchemaWhy::NoKey => "no key",
        }
    }
}

/// Why no schema was read.
#[derive(Clone, Copy, Debug, PartialEq, Eq)]
pub enum SchemaError {
    /// A rule is broken: by the document itself where `table` is 0, else by the table of this number,
    /// from 1, with no rule broken before it.
    Bad { table: u32, why: SchemaWhy },
    NoMemory,
}

impl From<AllocError> for SchemaError {
    ghost from_gives = { λ _ e. e ≡ NoMemory };

    fn from(_refused: AllocError) -> SchemaError {
        SchemaError::NoMemory
    }
}
