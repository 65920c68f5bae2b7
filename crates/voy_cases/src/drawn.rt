ghost use Rattle.std.specs.Prelude.{◌<◌, ◌≤◌};

use crate::schemas::schema_of;
use crate::stores::place_of;
use std::alloc::Global;
use voy_case_text::{Case, Trouble, first_word, number_of, told};
use voy_conflict::{Cache, entries_are_few};
use voy_event::{Event, Events, What};
use voy_link::Steps;
use voy_order::{acquired, channel, released};
use voy_schema::{Row, Schema, Table, Text, Value};
use voy_tables::{Change, Role, have_same_tuple};
use voy_txn::{MAX_NEEDS, Need, Needs};

/// What the steps of a drawn stream are counted for.
struct PlainSteps;

/// Numbers that follow from a first one, as a rehearsal draws them.
#[derive(Drop)]
struct Draw {
    x: u64,
}

impl Draw {
    fn below(&mut self, count: u64) -> u64
        requires { 0 < count }
        ensures { result < count }
    {
        self.x = self
            .x
            .wrapping_mul(6364136223846793005)
            .wrapping_add(1442695040888963407);
        (self.x >> 33) % count
    }
}

/// Whether a cache and a plain list of the same changes tell the same needs, over so many changes that are drawn from a number,
/// for so many channels. Among them channels are applied up to places that are drawn too.
pub fn stream_compared(alloc: Global, case: &Case) -> Result<String, Trouble> {
    let schema = schema_of(alloc, case)?;
    let (_base, numbers) = first_word(case.words);
    let (seed, numbers) = first_word(numbers);
    let (count, channels) = first_word(numbers);
    let (count, channels) = (place_of(count)?, place_of(channels)?);
    if channels < 1 || count > 1_000_000 {
        return Err(Trouble::Case("no stream"));
    }
    let Some(table) = schema.table(0) else {
        return Err(Trouble::Case("no table"));
    };
    let mut draw = Draw {
        x: number_of(seed)?,
    };
    let mut cache = Cache::with_capacity(alloc, count * 8, channels)?;
    let mut events = Events::new(alloc);
    let mut kept = Vec::new(alloc);
    for vsn in 1..=count {
        let change = drawn_change(alloc, table, &mut draw)?;
        let at = put_event(&mut events, u64::from(vsn), change)?;
        compare(
            &schema,
            &cache,
            &events,
            kept.as_slice(),
            at,
            channels as u32,
        )?;
        if (cache.spare() as usize) < MAX_NEEDS {
            return Err(Trouble::Apart("no room"));
        }
        entries_are_few();
        cache.put(&schema, &events, at);
        kept.extend_from_slice(&[at])?;
        if draw.below(5) == 0 {
            let (lane, vsn) = (
                draw.below(u64::from(channels)) as u32,
                draw.below(u64::from(count)),
            );
            let mut steps = Steps::<PlainSteps>::new();
            cache.applied(&events, lane, vsn, &mut steps);
            kept = without(
                alloc,
                &schema,
                &events,
                kept.as_slice(),
                lane,
                vsn,
                channels as u32,
            )?;
        }
    }
    told(alloc, "the same")
}

fn put_event(events: &mut Events, vsn: u64, change: Change) -> Result<u32, Trouble> {
    let at = events.len();
    if at >= u32::MAX as usize {
        return Err(Trouble::Case("too many changes"));
    }
    events.push(Event {
        vsn,
        role: Role::Source,
        what: What::Change(change),
    })?;
    Ok(at as u32)
}

fn drawn_change(alloc: Global, table: &Table, draw: &mut Draw) -> Result<Change, Trouble> {
    let row = drawn_row(alloc, table, draw)?;
    match draw.below(3) {
        0 => Ok(Change::Insert {
            table: 0,
            after: row,
        }),
        1 => Ok(Change::Delete {
            table: 0,
            before: row,
        }),
        _ => Ok(Change::Update {
            table: 0,
            before: row,
            after: drawn_row(alloc, table, draw)?,
        }),
    }
}

/// A row of few values, so that tuples meet: one of 12 in each key column, and one of 3 or NULL in each other.
fn drawn_row(alloc: Global, table: &Table, draw: &mut Draw) -> Result<Row, Trouble> {
    let mut row = Row::new(alloc);
    for place in 0..table.columns.len() {
        let is_key = table
            .primary_key
            .as_slice()
            .iter()
            .any(|key| *key as usize == place);
        let number = if is_key {
            draw.below(12) + 1
        } else {
            draw.below(4)
        };
        row.push(value_of(alloc, number)?)?;
    }
    Ok(row)
}

fn value_of(alloc: Global, number: u64) -> Result<Value, Trouble> {
    if number == 0 {
        return Ok(Value::Null);
    }
    let text = format!(in alloc; "{number}")?;
    Ok(Value::Text(Text::from_str(alloc, text.as_str())?))
}

fn compare(
    schema: &Schema,
    cache: &Cache,
    events: &Events,
    kept: &[u32],
    at: u32,
    channels: u32,
) -> Result<(), Trouble>
    requires { 1 ≤ channels }
{
    let mut steps = Steps::<PlainSteps>::new();
    let told = cache.needs(schema, events, at, &mut steps);
    let plain = plain_needs(schema, events, kept, at, channels)?;
    if told.as_slice() != plain.as_slice() {
        return Err(Trouble::Apart("other needs"));
    }
    Ok(())
}

/// The needs of the event at a place, by a look at each event that is kept.
fn plain_needs(
    schema: &Schema,
    events: &Events,
    kept: &[u32],
    at: u32,
    channels: u32,
) -> Result<Needs, Trouble>
    requires { 1 ≤ channels }
{
    let mut needs = Needs::new();
    let Some((vsn, change)) = change_at(events, at) else {
        return Ok(needs);
    };
    for unique in 0..MAX_NEEDS as u32 {
        if let Some(row) = acquired(schema, change, unique) {
            let last = last_releaser(schema, events, kept, vsn, row, unique)?;
            if let Some((vsn, releaser)) = last {
                let other = channel(schema, releaser, channels);
                let is_apart = other != channel(schema, change, channels);
                if is_apart && needs.as_slice().len() < MAX_NEEDS {
                    needs.push(Need {
                        channel: other,
                        vsn,
                    });
                }
            }
        }
    }
    Ok(needs)
}

fn last_releaser<'a>(
    schema: &Schema,
    events: &'a Events,
    kept: &[u32],
    before: u64,
    row: &Row,
    unique: u32,
) -> Result<Option<(u64, &'a Change)>, Trouble> {
    let Some(table) = schema.table(0) else {
        return Err(Trouble::Case("no table"));
    };
    let Some(key) = table.unique_keys.get(unique as usize) else {
        return Err(Trouble::Apart("a tuple of no unique key"));
    };
    let mut last = None;
    for place in kept {
        if let Some((vsn, change)) = change_at(events, *place) {
            if let Some(lost) = released(schema, change, unique) {
                if vsn < before && have_same_tuple(key, lost, row) {
                    last = Some((vsn, change));
                }
            }
        }
    }
    Ok(last)
}

fn change_at(events: &Events, at: u32) -> Option<(u64, &Change)> {
    let event = events.get(at as usize)?;
    match &event.what {
        What::Change(change) => Some((event.vsn, change)),
        _ => None,
    }
}

/// The places of the events that are not of this channel up to this vsn.
fn without(
    alloc: Global,
    schema: &Schema,
    events: &Events,
    kept: &[u32],
    lane: u32,
    past: u64,
    channels: u32,
) -> Result<Vec<u32>, Trouble>
    requires { 1 ≤ channels }
{
    let mut left = Vec::new(alloc);
    for place in kept {
        if let Some((vsn, change)) = change_at(events, *place) {
            if channel(schema, change, channels) != lane || vsn > past {
                left.extend_from_slice(&[*place])?;
            }
        }
    }
    Ok(left)
}
