ghost use Rattle.std.specs.Prelude.{◌≡◌, ◌+◌, ◌-◌, ◌*◌, ◌<◌, ◌≤◌, ◌++◌, [], ◌∷◌, ℕ, List, length, max, IfOk};
ghost use Rattle.voy_schema.specs.declared.table.Table.{Table as TableOf};
ghost use Rattle.voy_event.specs.declared.event.Event.{Event as EventOf};
ghost use Rattle.voy_order.specs.ChangeEvents.{VsnsAscend};
ghost use Rattle.voy_conflict.specs.Cache.{Caches, entries_at, events_at, kept, left_of, needs_at};

use crate::applied::drop_past;
use crate::entry::Entry;
use crate::events::change_at;
use crate::needs::needs_of;
use crate::putting::put_tuples;
use std::alloc::{AllocError, Global};
use std::marker::Model;
use voy_event::Events;
use voy_link::{Arena, MAX_NODES, Steps};
use voy_order::channel;
use voy_schema::Schema;
use voy_txn::Needs;

/// The tuples that pending events of a window release, with the channels of these events.
///
/// Each call takes the window's list of events, in which the cache knows an event by its place. Events that
/// were put stay at their places; further ones may come behind them.
///
/// To contracts a cache is what its arena has (`Contents` of `voy_link`): its entries are the items there, in
/// the order in which they were put, `spare` is for how many more there is room, and the lanes are the channels.
#[derive(Drop)]
pub struct Cache {
    pub(crate) entries: Arena<Entry>,
    pub(crate) buckets: u32,
    pub(crate) channels: u32,
}

impl Model for Cache {
    ghost use Rattle.std.specs.Prelude.{◌≡◌, ◌<◌, true};
    ghost use Rattle.voy_link.specs.Arena.{Contents};
    ghost use Rattle.voy_conflict.specs.Filing.{are_apart};
    ghost use Rattle.voy_conflict.specs.declared.entry.Entry.{Entry as EntryOf};

    ghost Value = { Contents EntryOf };

    ghost view = { λ cache. cache.entries };

    ghost invariant = { λ cache. (cache.entries.buckets ≡ cache.buckets) × (cache.entries.lanes ≡ cache.channels) × (0 < cache.buckets) × (0 < cache.channels) × (are_apart cache.entries.nodes ≡ true) };
}

impl Cache {
    /// A cache without entries, for so many channels, with room for so many entries.
    pub fn with_capacity(alloc: Global, entries: u32, channels: u32) -> Result<Cache, AllocError>
        requires entries { entries ≤ MAX_NODES }
        requires channels { 1 ≤ channels }
        ensures empty { IfOk result (λ cache. (schema : List TableOf) (events : List EventOf) → Caches cache schema events []) }
        ensures none { IfOk result (λ cache. cache.nodes ≡ []) }
        ensures spare { IfOk result (λ cache. cache.spare ≡ entries) }
        ensures buckets { IfOk result (λ cache. cache.buckets ≡ max entries 1) }
        ensures channels { IfOk result (λ cache. cache.lanes ≡ channels) }
    {
        let buckets = entries.max(1);
        let entries = Arena::with_capacity(alloc, entries, buckets, channels)?;
        Ok(Cache {
            entries,
            buckets,
            channels,
        })
    }

    /// How many channels there are.
    pub fn channels(&self) -> u32
        ensures value { result ≡ self.now.lanes }
        ensures some { 1 ≤ result }
    {
        self.channels
    }

    /// For how many more entries there is room.
    pub fn spare(&self) -> u32
        ensures { result ≡ self.now.spare }
    {
        self.entries.spare()
    }

    /// Adds an entry for each tuple that the event at place `at` releases. There must be room for them: an event
    /// releases at most one for each unique key of its table. An event without a change adds none.
    pub fn put(&mut self, schema: &Schema, events: &Events, at: u32)
        requires spare { length (entries_at schema.now.tables events.now at) ≤ self.old.spare }
        ensures caches { (places : List ℕ) → Caches self.old schema.now.tables events.now places → Caches self.new schema.now.tables events.now (places ++ at ∷ []) }
        ensures kept { kept self.new ≡ kept self.old ++ entries_at schema.now.tables events.now at }
        ensures spare { self.new.spare ≡ self.old.spare - length (entries_at schema.now.tables events.now at) }
        ensures room { self.new.spare + length self.new.nodes ≡ self.old.spare + length self.old.nodes }
        ensures channels { self.new.lanes ≡ self.old.lanes }
    {
        let Some(event) = change_at(events, at) else {
            return;
        };
        let lane = channel(schema, event.change, self.channels);
        put_tuples(
            &mut self.entries,
            schema,
            event.change,
            at,
            lane,
            self.buckets,
        );
    }

    /// What the event at place `at` waits for: for each tuple that it acquires, in the order of the unique keys,
    /// the last event in front of it of which the cache keeps that tuple, where that is one of another channel.
    /// An event without a change waits for nothing.
    pub fn needs<L>(&self, schema: &Schema, events: &Events, at: u32, steps: &mut Steps<L>) -> Needs
        ensures needs { (places : List ℕ) → Caches self.now schema.now.tables events.now places → result ≡ needs_at schema.now.tables self.now.lanes events.now places at }
        ensures steps { steps.old.count ≤ steps.new.count }
    {
        match change_at(events, at) {
            Some(event) => needs_of(self, schema, events, &event, steps),
            None => Needs::new(),
        }
    }

    /// Drops the entries of this channel's events up to this vsn. The vsns of the events that were put have to
    /// ascend. Of the arena's counted calls it makes three for each entry that it drops, and at most two more.
    pub fn applied<L>(&mut self, events: &Events, channel: u32, vsn: u64, steps: &mut Steps<L>)
        ensures caches { (schema : List TableOf) (places : List ℕ) → Caches self.old schema events.now places → VsnsAscend (events_at schema events.now places) → Caches self.new schema events.now (left_of schema self.old.lanes events.now channel vsn places) }
        ensures room { self.new.spare + length self.new.nodes ≡ self.old.spare + length self.old.nodes }
        ensures fewer { length self.new.nodes ≤ length self.old.nodes }
        ensures steps { steps.old.count ≤ steps.new.count }
        ensures few_steps { steps.new.count ≤ steps.old.count + 3 * (length self.old.nodes - length self.new.nodes) + 2 }
        ensures channels { self.new.lanes ≡ self.old.lanes }
    {
        drop_past(&mut self.entries, events, channel, vsn, steps);
    }
}
