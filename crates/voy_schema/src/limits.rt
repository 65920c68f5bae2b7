/// How many tables a schema may have. One with more is refused.
pub const MAX_TABLES: usize = 256;

/// How many columns a table may have. One with more is refused.
pub const MAX_COLUMNS: usize = 64;

/// How many unique keys a table may have beside its primary key. One with more is refused.
pub const MAX_UNIQUE_KEYS: usize = 8;

/// How many bytes the name of a schema, table or column may have. A longer name is refused.
pub const MAX_NAME_BYTES: usize = 63;
