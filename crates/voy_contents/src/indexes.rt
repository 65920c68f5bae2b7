ghost use Rattle.std.specs.Prelude.{◌≡◌, List, Some, cond, IfOk, OnErr, OnOk};
ghost use Rattle.std.specs.Option.{option_copied};
ghost use Rattle.std.specs.BTreeMap.{is_at};
ghost use Rattle.std.specs.Map.{lookup};
ghost use Rattle.voy_contents.specs.MemTables.{is_listed, is_taken_by, tuple_cmp};
ghost use Rattle.voy_contents.specs.Places.{place_back};
ghost use Rattle.voy_schema.specs.Rows.{counting_tuple};
ghost use Rattle.voy_schema.specs.declared.value.Value.{Value};
ghost use Rattle.voy_tables.specs.Keys.{same_tuple};

use crate::places::Places;
use crate::tuples::{keeps_tuple, tuple_of};
use std::alloc::{AllocError, Global};
use voy_schema::{Row, Tuple, UniqueKey, Value};

/// The tuples of one unique key, with whether a row has them.
pub(crate) type Index = Places<Tuple<Value>, bool>;

/// Lists the tuple, or lists it no longer, and gives what its place held. Only to list it takes memory. After an
/// error nothing changed.
pub(crate) fn put_tuple(
    index: &mut Index,
    tuple: &Tuple<Value>,
    listed: bool,
) -> Result<Option<bool>, AllocError>
    ensures held { IfOk result (λ held. held ≡ lookup (is_at (tuple_cmp tuple.now)) index.old) }
    ensures back { IfOk result (λ held. place_back tuple_cmp index.new tuple.now held ≡ index.old) }
    ensures listed { OnOk result ((values : List Value) → is_listed values index.new ≡ cond (same_tuple (Some values) (Some tuple.now)) listed (is_listed values index.old)) }
    ensures err { OnErr result (index.new ≡ index.old) }
{
    if listed {
        index.put(tuple, true)
    } else {
        Ok(index.set(tuple, false))
    }
}

/// Whether a row has this tuple.
fn is_listed(index: &Index, tuple: &Tuple<Value>) -> bool
    ensures { result ≡ is_listed tuple.now index.now }
{
    match index.get(tuple) {
        Some(listed) => *listed,
        None => false,
    }
}

/// Takes away the place of this tuple where no row has it. What the index says stays as it is.
pub(crate) fn sweep_tuple(index: &mut Index, tuple: &Tuple<Value>)
    ensures { (values : List Value) → is_listed values index.new ≡ is_listed values index.old }
{
    if !is_listed(index, tuple) {
        index.take_away(tuple);
    }
}

/// Whether a row other than the one that is changed has the tuple of the row after the change.
pub(crate) fn is_taken(
    alloc: Global,
    index: &Index,
    unique: &UniqueKey,
    before: Option<&Row>,
    after: Option<&Row>,
) -> Result<bool, AllocError>
    ensures { IfOk result (λ taken. is_taken_by (counting_tuple unique.now (option_copied before.entry)) (counting_tuple unique.now (option_copied after.entry)) index.now ≡ taken) }
{
    if keeps_tuple(unique, before, after) {
        return Ok(false);
    }
    match tuple_of(alloc, unique, after)? {
        Some(tuple) => Ok(is_listed(index, &tuple)),
        None => Ok(false),
    }
}
