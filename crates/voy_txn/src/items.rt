ghost use Rattle.std.specs.Prelude.{◌≡◌, ◌++◌, OnOk};
ghost use Rattle.std.specs.List.{AllByRecursion, flat_map};
ghost use Rattle.voy_txn.specs.LawfulTxn.{IsLawfulItem};
ghost use Rattle.voy_event.specs.Events.{is_change};
ghost use Rattle.voy_txn.specs.Payload.{item_part};
ghost use Rattle.voy_txn.specs.Reading.{Gives, ascending_items, item_of, items_of};

use crate::ascending::ascend_above;
use crate::fields::{push_sized, sized_of};
use crate::unread::Unread;
use std::alloc::{AllocError, Global};
use voy_event::{Event, Events, What, read_canonical, write_line};
use voy_schema::{Bytes, Schema};

fn is_change(what: &What) -> bool
    ensures { result ≡ is_change what.now }
{
    matches!(what, What::Change(_))
}

/// The change that `line` states, where it is the canonical line.
fn item_of(alloc: Global, schema: &Schema, line: &[u8]) -> Result<Event, Unread>
    ensures { Gives (λ item. item) result (item_of schema.now.tables line.now) }
{
    let Some(item) = read_canonical(alloc, schema, line)? else {
        return Err(Unread::NoPayload);
    };
    if !is_change(&item.what) {
        return Err(Unread::NoPayload);
    }
    Ok(item)
}

/// So many changes, where `bytes` are their lines and nothing more.
fn items_of(alloc: Global, schema: &Schema, count: u32, bytes: &[u8]) -> Result<Events, Unread>
    ensures { Gives (λ items. items) result (items_of schema.now.tables count bytes.now) }
{
    let mut items = Events::new(alloc);
    let mut rest = bytes;
    for _ in 0..count {
        let (line, after) = sized_of(rest)?;
        let item = item_of(alloc, schema, line)?;
        items.push(item)?;
        rest = after;
    }
    if !rest.is_empty() {
        return Err(Unread::NoPayload);
    }
    Ok(items)
}

/// The same where their vsns ascend.
#[tactic(auto, unfolding(crate::specs::Reading::ascending_items))]
pub(crate) fn ascending_items(
    alloc: Global,
    schema: &Schema,
    count: u32,
    bytes: &[u8],
) -> Result<Events, Unread>
    ensures { Gives (λ items. items) result (ascending_items schema.now.tables count bytes.now) }
{
    let items = items_of(alloc, schema, count, bytes)?;
    if !ascend_above(0, items.as_slice()) {
        return Err(Unread::NoPayload);
    }
    Ok(items)
}

/// Appends the canonical line of a change, behind the number of its bytes.
fn push_item(alloc: Global, schema: &Schema, to: &mut Bytes, item: &Event) -> Result<(), AllocError>
    requires { IsLawfulItem schema.now.tables item.now }
    ensures { OnOk result (to.new ≡ to.old ++ item_part schema.now.tables item.now) }
{
    let mut line = Bytes::new(alloc);
    write_line(alloc, schema, item, &mut line)?;
    push_sized(to, line.as_slice())
}

/// Appends the lines of these changes, each behind the number of its bytes.
pub(crate) fn push_items(
    alloc: Global,
    schema: &Schema,
    to: &mut Bytes,
    items: &[Event],
) -> Result<(), AllocError>
    requires { AllByRecursion (IsLawfulItem schema.now.tables) items.now }
    ensures { OnOk result (to.new ≡ to.old ++ flat_map (item_part schema.now.tables) items.now) }
{
    for item in items {
        push_item(alloc, schema, to, item)?;
    }
    Ok(())
}
