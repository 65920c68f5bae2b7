ghost use Rattle.std.specs.Prelude.{◌≡◌, ◌++◌, IfOk, OnErr, OnOk};
ghost use Rattle.std.specs.List.{flat_map};
ghost use Rattle.voy_txn.specs.LawfulTxn.{AreLoaded, IsLawfulTxn};
ghost use Rattle.voy_txn.specs.Payload.{payload_of, rows_part};

use crate::fields::{push_number, push_vsn};
use crate::items::push_items;
use crate::limits::{BATCH_KIND, EPOCH_KIND, EVENTS_KIND, LOAD_KIND};
use crate::rows::push_rows;
use crate::txn::Txn;
use std::alloc::{AllocError, Global};
use voy_schema::{Bytes, Rows, Schema};

/// Appends the payload of `txn` to `to`. It asks a transaction that is lawful for the schema. After an
/// error `to` is as before.
pub fn write_txn(
    alloc: Global,
    schema: &Schema,
    txn: &Txn,
    to: &mut Bytes,
) -> Result<(), AllocError>
    requires { IsLawfulTxn schema.now.tables txn.now }
    ensures ok { OnOk result (to.new ≡ to.old ++ payload_of schema.now.tables txn.now) }
    ensures err { OnErr result (to.new ≡ to.old) }
{
    let payload = payload_of(alloc, schema, txn)?;
    to.append_slice(payload.as_slice())
}

#[tactic(auto, unfolding(crate::specs::Payload::payload_of))]
fn payload_of(alloc: Global, schema: &Schema, txn: &Txn) -> Result<Bytes, AllocError>
    requires { IsLawfulTxn schema.now.tables txn.now }
    ensures { IfOk result (λ payload. payload ≡ payload_of schema.now.tables txn.now) }
{
    let mut payload = Bytes::new(alloc);
    match txn {
        Txn::Load { tables } => {
            payload.push(LOAD_KIND)?;
            push_number(&mut payload, tables.len() as u32)?;
            push_lists(alloc, schema, &mut payload, tables.as_slice())?;
        }
        Txn::Batch {
            table,
            number,
            rows,
        } => {
            payload.push(BATCH_KIND)?;
            push_number(&mut payload, *table)?;
            push_number(&mut payload, *number)?;
            push_rows(alloc, &mut payload, rows.as_slice())?;
        }
        Txn::Events { channel, items } => {
            payload.push(EVENTS_KIND)?;
            push_number(&mut payload, *channel)?;
            push_number(&mut payload, items.len() as u32)?;
            push_items(alloc, schema, &mut payload, items.as_slice())?;
        }
        Txn::Epoch { vsn, channels } => {
            payload.push(EPOCH_KIND)?;
            push_vsn(&mut payload, *vsn)?;
            push_number(&mut payload, *channels)?;
        }
    }
    Ok(payload)
}

/// Appends the rows of each table.
fn push_lists(
    alloc: Global,
    schema: &Schema,
    to: &mut Bytes,
    lists: &[Rows],
) -> Result<(), AllocError>
    requires { AreLoaded schema.now.tables lists.now }
    ensures { OnOk result (to.new ≡ to.old ++ flat_map rows_part lists.now) }
{
    for rows in lists {
        push_rows(alloc, to, rows.as_slice())?;
    }
    Ok(())
}
