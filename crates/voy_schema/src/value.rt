use crate::copying::Copies;
use crate::items::Items;
use crate::text::Text;
use crate::tuple::Tuple;
use std::alloc::AllocError;

/// What a row has in a column: NULL, or a text in the form that the column's kind asks for. NULL comes
/// before all texts.
#[derive(Debug, PartialEq, Eq, PartialOrd, Ord, Drop)]
pub enum Value {
    Null,
    Text(Text),
}

/// One value for each column of a table, in the schema's order.
pub type Row = Items<Value>;

pub type Rows = Items<Row>;

/// The texts of a row's key columns, in the order of the key.
pub type Key = Tuple<Text>;

pub type Bytes = Items<u8>;

impl Copies for Value {
    fn copy(&self) -> Result<Self, AllocError> {
        match self {
            Value::Null => Ok(Value::Null),
            Value::Text(text) => Ok(Value::Text(text.copy()?)),
        }
    }
}
