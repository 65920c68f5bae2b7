use std::alloc::Global;
use std::test::Fail;
use voy_schema::Schema;

/// `users` with the bigint key `id` and the unique text `email`.
const USERS: &[u8] =
    br#"{"tables":[{"schema_name":"public","table_name":"users","columns":[{"name":"id","type":"bigint"},{"name":"email","type":"text"}],"primary_key":["id"],"unique_keys":[{"columns":["email"]}]}]}"#;

pub(crate) fn users(alloc: Global) -> Result<Schema, Fail> {
    match Schema::read(alloc, USERS) {
        Ok(schema) => Ok(schema),
        Err(_refused) => Err("a schema".into()),
    }
}
