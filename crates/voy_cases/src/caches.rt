use crate::plain::change_of;
use crate::schemas::schema_of;
use crate::stores::place_of;
use crate::values::push_answer;
use std::alloc::Global;
use voy_case_text::{Case, Trouble, first_word, number_of};
use voy_conflict::{
    Cache, caches_are_few, emptied_serve_anew, entries_are_few, events_may_grow, left_are_others,
    next_is_listed,
};
use voy_event::{Event, Events, What};
use voy_link::{MAX_NODES, Steps};
use voy_schema::Schema;
use voy_tables::{Change, Role};
use voy_txn::{MAX_NEEDS, Need};

/// What the steps of a case are counted for.
struct CaseSteps;

/// What each change waits for when it comes, among those in front of it, whose tuples the cache of so many channels then keeps; a row
/// `applied CHANNEL VSN` drops that channel's up to that vsn, and is answered by how many entries are left.
pub fn needs_told(alloc: Global, case: &Case) -> Result<String, Trouble> {
    call_laws();
    let schema = schema_of(alloc, case)?;
    let (_base, numbers) = first_word(case.words);
    let (channels, entries) = first_word(numbers);
    let (channels, entries) = (place_of(channels)?, place_of(entries)?);
    if channels < 1 || entries > MAX_NODES {
        return Err(Trouble::Case("no cache"));
    }
    let mut cache = Cache::with_capacity(alloc, entries, channels)?;
    let mut events = Events::new(alloc);
    let mut shown = String::new(alloc);
    for row in case.rows.lines() {
        let answer = match row.strip_prefix("applied ") {
            Some(numbers) => {
                drop_entries(&mut cache, &events, numbers)?;
                let left = entries - cache.spare().min(entries);
                format!(in alloc; "{left}")?
            }
            None => ask(
                alloc,
                &schema,
                &mut cache,
                &mut events,
                change_of(alloc, 0, row)?,
            )?,
        };
        push_answer(&mut shown, row, answer.as_str())?;
    }
    Ok(shown)
}

fn drop_entries(cache: &mut Cache, events: &Events, numbers: &str) -> Result<(), Trouble> {
    let (channel, vsn) = first_word(numbers);
    let mut steps = Steps::<CaseSteps>::new();
    cache.applied(events, place_of(channel)?, number_of(vsn)?, &mut steps);
    Ok(())
}

/// The needs of a change with the next vsn, which is then put.
fn ask(
    alloc: Global,
    schema: &Schema,
    cache: &mut Cache,
    events: &mut Events,
    change: Change,
) -> Result<String, Trouble> {
    let at = events.len();
    if at >= u32::MAX as usize || (cache.spare() as usize) < MAX_NEEDS {
        return Err(Trouble::Case("too many changes"));
    }
    events.push(Event {
        vsn: at as u64 + 1,
        role: Role::Source,
        what: What::Change(change),
    })?;
    let mut steps = Steps::<CaseSteps>::new();
    let needs = cache.needs(schema, events, at as u32, &mut steps);
    entries_are_few();
    cache.put(schema, events, at as u32);
    shown_needs(alloc, needs.as_slice())
}

fn shown_needs(alloc: Global, needs: &[Need]) -> Result<String, Trouble> {
    let mut shown = String::new(alloc);
    for need in needs {
        let (channel, vsn) = (need.channel, need.vsn);
        shown.push_str(format!(in alloc; "({channel}, {vsn})")?.as_str())?;
    }
    if shown.is_empty() {
        shown.push_str("none")?;
    }
    Ok(shown)
}

/// The laws of caches can be called; there is nothing to run.
fn call_laws() {
    events_may_grow();
    next_is_listed();
    caches_are_few();
    left_are_others();
    emptied_serve_anew();
}
