//! The nodes of an arena, in vectors.
ghost use Rattle.std.specs.Prelude.{◌≡◌, ℕ, ◌+◌, ◌-◌, ◌<◌, ◌≤◌, List, [], ◌∷◌, ◌++◌, length, max, slice_get, None, Some, IsSome, IfOk, OnOk, OnErr};
ghost use Rattle.voy_link.specs.Indices.{nowhere, option_of_place};

use crate::chains::Chains;
use crate::indices::{NOWHERE, place_at_index, put, widen};
use crate::slots::{Slot, put_slot};
use crate::widening::widen_slots;
use std::alloc::{AllocError, Global};

/// The slots of nodes, and the lists in which they stand. All lists go by places, and a node's place is its id.
#[derive(Drop)]
pub(crate) struct Nodes<T: Copy> {
    /// All nodes, in order of insertion.
    order: Chains,
    buckets: Chains,
    lanes: Chains,
    slots: Vec<Option<Slot<T>>>,
    /// Its first `spare` places are the free ones; what is behind them does not matter.
    free: Vec<u32>,
    spare: u32,
    /// How many places there are, those of nodes and the free ones.
    total: u32,
}

impl<T: Copy> Nodes<T> {
    ghost use Rattle.voy_link.specs.Arena.{Node, node_of, item_of, without, last_id, first_id, prev_id, in_bucket, in_lane};
    ghost use Rattle.voy_link.specs.Nodes.{HasNodes, HasRoom, node_at};

    /// No nodes and no places.
    pub(crate) fn new(alloc: Global, buckets: u32, lanes: u32) -> Result<Nodes<T>, AllocError>
        ensures { IfOk result (λ made. HasNodes buckets lanes made [] × (made.spare ≡ 0)) }
    {
        Ok(Nodes {
            order: Chains::new(alloc, 1)?,
            buckets: Chains::new(alloc, buckets)?,
            lanes: Chains::new(alloc, lanes)?,
            slots: Vec::new(alloc),
            free: Vec::new(alloc),
            spare: 0,
            total: 0,
        })
    }

    /// Puts a node into a free place.
    pub(crate) fn insert(&mut self, bucket: u32, lane: u32, item: T) -> u32
        requires { 0 < self.old.spare }
        ensures spare { self.new.spare ≡ self.old.spare - 1 }
        ensures fresh { (b l : ℕ) (ns : List (Node T)) → HasNodes b l self.old ns → node_of ns result ≡ None }
        ensures nodes { (b l : ℕ) (ns : List (Node T)) → HasNodes b l self.old ns → bucket < b → lane < l
            → HasNodes b l self.new (ns ++ record { id = result; bucket = bucket; lane = lane; item = item } ∷ []) }
    {
        self.spare -= 1;
        let id = place_at_index(&self.free, self.spare);
        put_slot(&mut self.slots, id, Some(Slot { bucket, lane, item }));
        self.order.append(id, 0);
        self.buckets.append(id, bucket);
        self.lanes.append(id, lane);
        id
    }

    /// Takes a node out, and gives its item. Its place is free then.
    pub(crate) fn remove(&mut self, id: u32) -> T
        requires there { IsSome (node_at self.old.slots.items id) }
        requires room { self.old.spare < nowhere }
        ensures spare { self.new.spare ≡ self.old.spare + 1 }
        ensures item { (b l : ℕ) (ns : List (Node T)) → HasNodes b l self.old ns → IsSome (node_of ns id) → item_of ns id ≡ Some result }
        ensures nodes { (b l : ℕ) (ns : List (Node T)) → HasNodes b l self.old ns → IsSome (node_of ns id) → HasNodes b l self.new (without ns id) }
    {
        let slot = self.slot(id);
        put_slot(&mut self.slots, id, None);
        self.order.take_out(id, 0);
        self.buckets.take_out(id, slot.bucket);
        self.lanes.take_out(id, slot.lane);
        put(&mut self.free, self.spare, id);
        self.spare += 1;
        slot.item
    }

    /// The item of a node.
    pub(crate) fn item(&self, id: u32) -> T
        requires { IsSome (node_at self.now.slots.items id) }
        ensures { (b l : ℕ) (ns : List (Node T)) → HasNodes b l self.now ns → IsSome (node_of ns id) → item_of ns id ≡ Some result }
    {
        self.slot(id).item
    }

    /// The last node of a bucket.
    pub(crate) fn last_in_bucket(&self, bucket: u32) -> Option<u32>
        ensures { (b l : ℕ) (ns : List (Node T)) → HasNodes b l self.now ns → result ≡ last_id (in_bucket ns bucket) }
    {
        option_of(self.buckets.last(bucket))
    }

    /// The node before this one in its bucket.
    pub(crate) fn prev_in_bucket(&self, id: u32) -> Option<u32>
        ensures { (b l : ℕ) (ns : List (Node T)) → HasNodes b l self.now ns → IsSome (node_of ns id) → result ≡ prev_id ns id }
    {
        option_of(self.buckets.prev(id))
    }

    /// The first node of a lane.
    pub(crate) fn first_in_lane(&self, lane: u32) -> Option<u32>
        ensures { (b l : ℕ) (ns : List (Node T)) → HasNodes b l self.now ns → result ≡ first_id (in_lane ns lane) }
    {
        option_of(self.lanes.first(lane))
    }

    /// How many nodes can still be inserted.
    pub(crate) fn spare(&self) -> u32
        ensures { result ≡ self.now.spare }
    {
        self.spare
    }

    fn slot(&self, id: u32) -> Slot<T>
        requires { IsSome (node_at self.now.slots.items id) }
        ensures { slice_get self.now.slots.items id ≡ Some (Some result) }
    {
        self.slots[id as usize].unwrap()
    }

    /// Makes room for `more` nodes. The nodes stay, also after an error.
    pub(crate) fn reserve(&mut self, more: u32) -> Result<(), AllocError>
        requires places { self.old.spare ≤ self.old.total }
        requires room { self.old.total - self.old.spare + more < nowhere }
        ensures nodes { (b l : ℕ) (ns : List (Node T)) → HasNodes b l self.old ns → HasNodes b l self.new ns }
        ensures ok { OnOk result (self.new.spare ≡ max self.old.spare more) }
        ensures err { OnErr result (self.new.spare ≡ self.old.spare) }
    {
        if more <= self.spare {
            return Ok(());
        }
        let used = self.total - self.spare;
        self.widen(used + more)?;
        self.free_places(more);
        Ok(())
    }

    // Makes room for so many places in all vectors, and frees none.
    fn widen(&mut self, places: u32) -> Result<(), AllocError>
        ensures nodes { (b l : ℕ) (ns : List (Node T)) → HasNodes b l self.old ns → HasNodes b l self.new ns }
        ensures spare { self.new.spare ≡ self.old.spare }
        ensures total { self.new.total ≡ self.old.total }
        ensures ok { OnOk result (HasRoom self.new places) }
    {
        self.order.widen(places)?;
        self.buckets.widen(places)?;
        self.lanes.widen(places)?;
        widen(&mut self.free, places)?;
        widen_slots(&mut self.slots, places)
    }

    // Frees places until `spare` are free.
    fn free_places(&mut self, spare: u32)
        requires places { self.old.spare ≤ self.old.total }
        requires more { self.old.spare ≤ spare }
        requires room { self.old.total - self.old.spare + spare < nowhere }
        requires wide { HasRoom self.old (self.old.total - self.old.spare + spare) }
        ensures nodes { (b l : ℕ) (ns : List (Node T)) → HasNodes b l self.old ns → HasNodes b l self.new ns }
        ensures spare { self.new.spare ≡ spare }
    {
        while self.spare < spare {
            self.free_place();
        }
    }

    // Frees the place behind all others.
    fn free_place(&mut self)
        requires places { self.old.spare ≤ self.old.total }
        requires room { self.old.total < nowhere }
        requires wide { HasRoom self.old (self.old.total + 1) }
        ensures nodes { (b l : ℕ) (ns : List (Node T)) → HasNodes b l self.old ns → HasNodes b l self.new ns }
        ensures spare { self.new.spare ≡ self.old.spare + 1 }
        ensures total { self.new.total ≡ self.old.total + 1 }
        ensures wide { (places : ℕ) → HasRoom self.old places → HasRoom self.new places }
    {
        put(&mut self.free, self.spare, self.total);
        self.spare += 1;
        self.total += 1;
    }
}

// The place, where it is one.
fn option_of(place: u32) -> Option<u32>
    ensures { result ≡ option_of_place place }
{
    if place == NOWHERE { None } else { Some(place) }
}
